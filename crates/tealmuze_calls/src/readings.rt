//! A description has one reading, and it fixes what is played.
ghost use Rattle.std.specs.Prelude.{◌≡◌};
ghost use Rattle.tealmuze_calls.specs.Alike.{DescriptionsMeanOne, VerdictsAreSoOfAll, ProvingsAreSoOfAll};
ghost use Rattle.tealmuze_calls.specs.Readings.{Reading, IsHeld, reading_bytes};

use crate::suites::Called;
use p3_challenger::Sponge;
use p3_challenger::fs::script::{Meaning, Suite};
use p3_field::{BasedVectorSpace, PrimeCharacteristicRing};

/// A description has one reading: no two differ in the version, the name, a chunk, or what a step is, its label or its
/// numbers. Each number and each length of them is below `2^64`, as in a program.
pub fn description_has_one_reading()
    ensures { (one other : Reading) → IsHeld one → IsHeld other →
        reading_bytes one ≡ reading_bytes other → one ≡ other }
{}

/// Equal descriptions mean the same: what the same bytes describe has one version, one name, the same chunks and one
/// pattern, and the same verdicts on each proof and on all values.
pub fn described_protocols_are_alike<S: Called>()
    ensures { DescriptionsMeanOne S S.Unit S.Challenger S.Codec S.Digest S.Group
        (⟦<S as Meaning>⟧.rules S.Field.DIMENSION) S.Field.residues.number S.Extension.coefficients
        S.opaque_numbers S.are_opaque }
{}

/// What an answer tells of a protocol that a description has is so of each that it has: also of the one that its writer
/// had in mind.
pub fn verdicts_are_of_what_is_described<S: Called>()
    ensures verify { VerdictsAreSoOfAll S S.Unit S.Challenger S.Codec S.Digest S.Group
        (⟦<S as Meaning>⟧.rules S.Field.DIMENSION) S.Field.residues.number S.Extension.coefficients
        S.opaque_numbers S.are_opaque S.is_fresh }
    ensures prove { ProvingsAreSoOfAll S S.Unit S.Challenger S.Codec S.Digest S.Group
        (⟦<S as Meaning>⟧.rules S.Field.DIMENSION) S.Field.residues.number S.Extension.coefficients
        S.opaque_numbers S.are_opaque S.is_fresh }
{
    described_protocols_are_alike::<S>();
}
