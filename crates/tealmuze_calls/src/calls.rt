//! What is told of a protocol that a suite plays.
ghost use Rattle.std.specs.Prelude.{ℕ, List};
ghost use Rattle.tealmuze_calls.specs.Rooms.{room_for};
ghost use Rattle.p3_challenger.specs.{Provings.AreHanded, Runs.carried_count, Scripts.play_of};
ghost use Rattle.tealmuze_calls.specs.Told.{TellsOfProof, TellsOfValues, TellsOfDescribed, EncodesValues, WantsForDescribed};
ghost use Rattle.tealmuze_calls.specs.{Descriptions.Describes, Told.{CanBeCarried, DescribesSome, EncodesSendable}};
ghost use Rattle.p3_challenger.specs.{Separators.{HeldSeparator}, Step.{Step as Steps}};

use crate::suites::Called;
use p3_challenger::Sponge;
use p3_challenger::fs::script::{Meaning, Suite};
use p3_field::{BasedVectorSpace, PrimeCharacteristicRing};

/// What is told of a protocol that a suite plays, whose description has these bytes after its first. Each member takes by
/// how many coefficients a scalar has over its own field, which a member of an impl cannot name.
pub trait Calls: Called {
    // The protocol with this separator and these steps is the one that is described.
    ghost describes: { ℕ → List ℕ → HeldSeparator → List (Steps Self Self.Field Self.Extension
        Self.Unit Self.Opaque Self.Challenger Self.Codec Self.Accept Self.Digest Self.Group Self.Unit.Item
        Self.Challenger.State Self.Challenger.Symbol) → Type 0 };

    // Some protocol is described.
    ghost is_described: { ℕ → List ℕ → Type 0 };

    // Of a proof, with these witnesses carried; by a verdict of these bytes.
    ghost tells_of_proof: { ℕ → List ℕ → List ℕ → List ℕ → List ℕ → Type 0 };

    // Of the values that these bytes encode; by a verdict of these bytes.
    ghost tells_of_values: { ℕ → List ℕ → List ℕ → List ℕ → Type 0 };

    // Whether a verdict is asked for: of a proof, with these numbers carried; and of the values that these bytes encode.
    ghost asks_of_proof: { ℕ → List ℕ → List ℕ → Type 0 };

    ghost asks_of_values: { ℕ → List ℕ → List ℕ → Type 0 };

    // How many bytes are wanted for an answer, where an element of the extension has so many coefficients, and the proof
    // or the values so many bytes.
    ghost wants_room: { ℕ → ℕ → ℕ → List ℕ → ℕ → Type 0 };
}

impl<S: Called> Calls for S {
    ghost describes = { λ degree. Describes S.Field.residues.number S.Extension.coefficients S.opaque_numbers
        S.are_opaque (⟦<S as Meaning>⟧.rules degree) };

    ghost is_described = { λ degree description.
        let rules = ⟦<S as Meaning>⟧.rules degree in
        DescribesSome S S.Unit S.Challenger S.Codec S.Digest S.Group rules S.Field.residues.number
        S.Extension.coefficients S.opaque_numbers S.are_opaque description (λ steps. Unit {0}) };

    ghost tells_of_proof = { λ degree proof carried description told.
        let rules = ⟦<S as Meaning>⟧.rules degree in
        TellsOfDescribed S S.Unit S.Challenger S.Codec S.Digest S.Group rules S.Field.residues.number
        S.Extension.coefficients S.opaque_numbers S.are_opaque S.is_fresh description (λ run. TellsOfProof rules
        S.Field.residues.number S.Extension.coefficients run proof carried told) };

    ghost tells_of_values = { λ degree values description told.
        let rules = ⟦<S as Meaning>⟧.rules degree in
        TellsOfDescribed S S.Unit S.Challenger S.Codec S.Digest S.Group rules S.Field.residues.number
        S.Extension.coefficients S.opaque_numbers S.are_opaque S.is_fresh description (λ run. EncodesValues
        S.Field.residues.number S.Extension.coefficients values (λ sent. TellsOfValues rules
        S.Field.residues.number S.Extension.coefficients run sent told)) };

    ghost asks_of_proof = { λ degree description carried.
        let rules = ⟦<S as Meaning>⟧.rules degree in
        DescribesSome S S.Unit S.Challenger S.Codec S.Digest S.Group rules S.Field.residues.number
        S.Extension.coefficients S.opaque_numbers S.are_opaque description (λ steps. CanBeCarried
        (carried_count (play_of rules) steps) S.Field.residues.order carried) };

    ghost asks_of_values = { λ degree description values.
        let rules = ⟦<S as Meaning>⟧.rules degree in
        DescribesSome S S.Unit S.Challenger S.Codec S.Digest S.Group rules S.Field.residues.number
        S.Extension.coefficients S.opaque_numbers S.are_opaque description (λ steps. EncodesSendable
        S.Field.residues.number S.Extension.coefficients values (AreHanded (play_of rules) steps)) };

    ghost wants_room = { λ degree dimension len description wanted.
        let rules = ⟦<S as Meaning>⟧.rules degree in
        WantsForDescribed S S.Unit S.Challenger S.Codec S.Digest S.Group rules S.Field.residues.number
        S.Extension.coefficients S.opaque_numbers S.are_opaque description (λ steps. room_for dimension steps len) wanted };
}
