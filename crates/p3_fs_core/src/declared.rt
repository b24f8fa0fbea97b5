//! The step of elements of an algebra, as contracts see it.
ghost use Rattle.std.specs.Prelude.{ℕ, List};
ghost use Rattle.p3_fs_core.specs.{Steps.{NamedAlgebra, algebra_of, algebra_step, Step}, declared.step.Kind.Kind};
ghost use Rattle.p3_fs_core.specs.declared.step.Length.{Length};

use crate::{Kind, Length, TranscriptField};
use p3_field_core::{AlgebraIdentity, Named};
use p3_symmetric::DigestHasher;

/// What a step says of an algebra over the field `F`, whose identity the hash function `D` digests. Every algebra
/// implements this trait, so no function needs the bound.
///
/// Not in the Rust crate.
pub trait Declared<F, D> {
    // The algebra as steps name it.
    ghost algebra: { NamedAlgebra };

    // The steps that carry elements of it.
    ghost step: { Kind → List ℕ → Length → Step };
}

impl<F: TranscriptField, A: AlgebraIdentity<F> + Named, D: DigestHasher> Declared<F, D> for A {
    ghost algebra = { algebra_of F.residues.order A.DIMENSION (D.digest_of A.identity)
        A.name_bytes };

    ghost step = { λ kind label length. algebra_step kind label
        (algebra_of F.residues.order A.DIMENSION (D.digest_of A.identity) A.name_bytes) length };
}
