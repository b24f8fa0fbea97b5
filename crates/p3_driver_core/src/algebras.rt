//! The algebras of earlier steps: the identities of the first four are hashed once each.
ghost use Rattle.std.specs.Prelude.{◌≡◌};
ghost use Rattle.p3_fs_core.specs.{Interactions.step_of, declared.step.TypeTag.TheVariants.Algebra};

use p3_fs_core::Interaction;
use p3_symmetric::DigestHasher;
use std::alloc::{AllocError, Global};
use std::marker::PhantomData;

// Most protocols have two or three.
const MOST_KNOWN: usize = 4;

// The first four algebras that steps were of, with the digests of their identities. Room for them is asked for at once,
// so that no step asks for any.
#[derive(Drop)]
#[derive_where(Debug)]
pub(crate) struct Algebras<D: DigestHasher> {
    pub(crate) known: Vec<KnownAlgebra<D>>,
}

// An algebra with a step of it, from which others of the same type are made.
#[derive(Drop)]
#[derive_where(Debug)]
pub(crate) struct KnownAlgebra<D: DigestHasher> {
    pub(crate) identity: &'static [u8],
    pub(crate) modulus: u64,
    pub(crate) degree: usize,
    pub(crate) step: Interaction,
    pub(crate) hasher: PhantomData<D>,
    ghost tag: { (step_of step).type_tag ≡ Algebra modulus degree (D.digest_of identity.now) },
}

impl<D: DigestHasher> Algebras<D> {
    pub(crate) fn new(alloc: Global) -> Result<Self, AllocError> {
        Ok(Algebras {
            known: Vec::with_capacity(alloc, MOST_KNOWN)?,
        })
    }

    // Keeps an algebra where there is room.
    pub(crate) fn keep(&mut self, known: KnownAlgebra<D>) {
        if self.known.len() < self.known.capacity() {
            self.known.push_reserved(known);
        }
    }
}
