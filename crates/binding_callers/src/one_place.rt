//! What each kind of step absorbs: a caller that cites, for one step after another, that equal symbols bind.
ghost use Rattle.binding_callers.specs.OnePlace.{PublicValuesAreTold, PublicListsAreTold, ElementsAreTold};
ghost use Rattle.binding_callers.specs.OnePlace.{CountedPublicListsAreTold, ElementListsAreTold, SaltsAreTold};
ghost use Rattle.binding_callers.specs.OnePlace.{CountedElementListsAreTold, OpaqueValuesAreTold, ScalarsAreTold};
ghost use Rattle.binding_callers.specs.OnePlace.{ScalarListsAreTold, CountedScalarListsAreTold, SentElementsAreTold};
ghost use Rattle.binding_callers.specs.OnePlace.{MessagesAreTold, CountedMessagesAreTold, WitnessesAreTold};
ghost use Rattle.binding_callers.specs.OnePlace.{CarriedWitnessesAreTold};
ghost use Rattle.p3_challenger.specs.Reading.{IsPrefixCodeOn};

use p3_challenger::fs::script::{Meaning, Suite};
use p3_challenger::fs::{Codec, Unit};
use p3_challenger::laws::scripts::binding;
use p3_challenger::{CanObserve, Sponge};

/// What the symbols of a run tell, kind by kind of what its steps absorb. Take two finished runs that feed the same
/// symbols, as [`binding`] has them, and one place at which a step of this kind stands in both. Then its value is the same
/// in both, unless the alternate renderings of the two patterns differ and share a digest:
///
/// - a public value, and a public list with its length, after its count or not;
/// - an element of the extension that the proof does not carry, and a list of such with its length, after its count or
///   not;
/// - an opaque value;
/// - a scalar that the proof carries, a list of such with its length, after its count or not, and an element of the
///   extension;
/// - a salt, and a message of bytes, after its count or not;
/// - the witness of at least one bit, which the proof carries, or the caller.
///
/// Conditions: those of [`binding`].
pub fn symbols_tell_each_value<S: Suite>()
    requires items { IsPrefixCodeOn S.Unit.is_item S.Challenger.CanObserve-1.observation.symbols }
    requires values { S.Codec.feeds_prefix_code }
    requires opaque { IsPrefixCodeOn S.is_own S.Challenger.CanObserve-2.observation.symbols }
    ensures public_value { let rules = ⟦<S as Meaning>⟧.rules S.Field.DIMENSION in
        PublicValuesAreTold S S.Unit S.Challenger S.Codec S.Digest S.Group S.Unit.Item
        S.Challenger.State S.Challenger.Symbol rules }
    ensures public_list { let rules = ⟦<S as Meaning>⟧.rules S.Field.DIMENSION in
        PublicListsAreTold S S.Unit S.Challenger S.Codec S.Digest S.Group S.Unit.Item
        S.Challenger.State S.Challenger.Symbol rules }
    ensures counted_public_list { let rules = ⟦<S as Meaning>⟧.rules S.Field.DIMENSION in
        CountedPublicListsAreTold S S.Unit S.Challenger S.Codec S.Digest S.Group S.Unit.Item
        S.Challenger.State S.Challenger.Symbol rules }
    ensures element { let rules = ⟦<S as Meaning>⟧.rules S.Field.DIMENSION in
        ElementsAreTold S S.Unit S.Challenger S.Codec S.Digest S.Group S.Unit.Item
        S.Challenger.State S.Challenger.Symbol rules }
    ensures element_list { let rules = ⟦<S as Meaning>⟧.rules S.Field.DIMENSION in
        ElementListsAreTold S S.Unit S.Challenger S.Codec S.Digest S.Group S.Unit.Item
        S.Challenger.State S.Challenger.Symbol rules }
    ensures counted_element_list { let rules = ⟦<S as Meaning>⟧.rules S.Field.DIMENSION in
        CountedElementListsAreTold S S.Unit S.Challenger S.Codec S.Digest S.Group S.Unit.Item
        S.Challenger.State S.Challenger.Symbol rules }
    ensures opaque_value { let rules = ⟦<S as Meaning>⟧.rules S.Field.DIMENSION in
        OpaqueValuesAreTold S S.Unit S.Challenger S.Codec S.Digest S.Group S.Unit.Item
        S.Challenger.State S.Challenger.Symbol rules }
    ensures scalar { let rules = ⟦<S as Meaning>⟧.rules S.Field.DIMENSION in
        ScalarsAreTold S S.Unit S.Challenger S.Codec S.Digest S.Group S.Unit.Item
        S.Challenger.State S.Challenger.Symbol rules }
    ensures scalar_list { let rules = ⟦<S as Meaning>⟧.rules S.Field.DIMENSION in
        ScalarListsAreTold S S.Unit S.Challenger S.Codec S.Digest S.Group S.Unit.Item
        S.Challenger.State S.Challenger.Symbol rules }
    ensures counted_scalar_list { let rules = ⟦<S as Meaning>⟧.rules S.Field.DIMENSION in
        CountedScalarListsAreTold S S.Unit S.Challenger S.Codec S.Digest S.Group S.Unit.Item
        S.Challenger.State S.Challenger.Symbol rules }
    ensures sent_element { let rules = ⟦<S as Meaning>⟧.rules S.Field.DIMENSION in
        SentElementsAreTold S S.Unit S.Challenger S.Codec S.Digest S.Group S.Unit.Item
        S.Challenger.State S.Challenger.Symbol rules }
    ensures salt { let rules = ⟦<S as Meaning>⟧.rules S.Field.DIMENSION in
        SaltsAreTold S S.Unit S.Challenger S.Codec S.Digest S.Group S.Unit.Item
        S.Challenger.State S.Challenger.Symbol rules }
    ensures message { let rules = ⟦<S as Meaning>⟧.rules S.Field.DIMENSION in
        MessagesAreTold S S.Unit S.Challenger S.Codec S.Digest S.Group S.Unit.Item
        S.Challenger.State S.Challenger.Symbol rules }
    ensures counted_message { let rules = ⟦<S as Meaning>⟧.rules S.Field.DIMENSION in
        CountedMessagesAreTold S S.Unit S.Challenger S.Codec S.Digest S.Group S.Unit.Item
        S.Challenger.State S.Challenger.Symbol rules }
    ensures witness { let rules = ⟦<S as Meaning>⟧.rules S.Field.DIMENSION in
        WitnessesAreTold S S.Unit S.Challenger S.Codec S.Digest S.Group S.Unit.Item
        S.Challenger.State S.Challenger.Symbol rules }
    ensures carried_witness { let rules = ⟦<S as Meaning>⟧.rules S.Field.DIMENSION in
        CarriedWitnessesAreTold S S.Unit S.Challenger S.Codec S.Digest S.Group S.Unit.Item
        S.Challenger.State S.Challenger.Symbol rules }
{
    binding::<S>();
}
