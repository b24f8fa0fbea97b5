//! Two proofs of one script, verified: a caller that cites what follows of the law.
ghost use Rattle.std.specs.Prelude.{◌≡◌, length, IfOk};
ghost use Rattle.binding_callers.specs.TwoProofs.{AreTwoProofs};
ghost use Rattle.p3_challenger.specs.{Reading.IsPrefixCodeOn, Runs.{AreAdmitted, carried_count}, AnswersBound.AreOwn};
ghost use Rattle.p3_challenger.specs.{Scripts.play_of, Verdicts.script_of};

use p3_challenger::fs::script::{Fault, Meaning, Step, Suite, Verified, verify};
use p3_challenger::fs::{Codec, DomainSeparator, Unit};
use p3_challenger::laws::prefix_codes::slices_are_bytes;
use p3_challenger::laws::scripts::equal_symbols_have_equal_values;
use p3_challenger::{CanObserve, Sponge};
use std::alloc::Global;

/// Verifies two proofs of one script from equal challengers, and answers both. Where their runs fed the same symbols, they
/// have the same values but for hints and witnesses of 0 bits, and the same challenges.
///
/// The errors are those of [`verify`]. Conditions: those of [`verify`] and of the law, that the challengers are equal, and
/// that the script's opaque values are of their type.
pub fn verify_both<'a, S: Suite>(
    alloc: Global,
    first: S::Challenger,
    second: S::Challenger,
    separator: &DomainSeparator<S::Unit, S::Digest>,
    steps: &[Step<S>],
    carried: &[S::Field],
    proof: &'a [u8],
    other: &'a [u8],
) -> Result<(Verified<'a, S>, Verified<'a, S>), Fault>
    requires items { IsPrefixCodeOn S.Unit.is_item S.Challenger.CanObserve-1.observation.symbols }
    requires values { S.Codec.feeds_prefix_code }
    requires opaque { IsPrefixCodeOn S.is_own S.Challenger.CanObserve-2.observation.symbols }
    requires equal { S.Challenger.state second ≡ S.Challenger.state first }
    requires admitted { AreAdmitted (play_of (⟦<S as Meaning>⟧.rules S.Field.DIMENSION)) steps.now }
    requires carried { let rules = ⟦<S as Meaning>⟧.rules S.Field.DIMENSION in
        carried_count (play_of rules) steps.now ≡ length carried.now }
    requires own { let rules = ⟦<S as Meaning>⟧.rules S.Field.DIMENSION in
        AreOwn rules (play_of rules) steps.now }
    ensures { let rules = ⟦<S as Meaning>⟧.rules S.Field.DIMENSION in
        let script = script_of (S.Challenger.state first) separator.now steps.now in
        IfOk result (λ r. AreTwoProofs rules script S.Challenger.state carried.now proof.now other.now
        r.0 r.1) }
{
    slices_are_bytes(proof);
    slices_are_bytes(other);
    equal_symbols_have_equal_values::<S>();
    let accepted = verify(alloc, first, separator, steps, carried, proof)?;
    let again = verify(alloc, second, separator, steps, carried, other)?;
    Ok((accepted, again))
}
