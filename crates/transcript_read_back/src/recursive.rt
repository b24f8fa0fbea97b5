//! Whole transcripts for who sees what was permuted, or hashed, and nothing else: where a
//! verifier's run is itself proved, the proof fixes the inputs of the permutation or of the hash
//! function, and the challenger that is left. From equal inputs and equal ends follow equal
//! transcripts: the protocols, the instances, the patterns but for the names of types, and what
//! each step absorbed. Or something collides: two inputs, or the renderings of the two patterns.
//!
//! ```text
//! one run:  seed, steps, values  ->  calls  ->  permuted: [.. | ..] [.. | ..] ..   pending: ..
//!                                                         the same                 the same
//! another:  seed, steps, values  ->  calls  ->  permuted: [.. | ..] [.. | ..] ..   pending: ..
//! ```
//!
//! Each function here cites the law that symbols bind and the contract of the `new` that it calls.
ghost use Rattle.std.specs.Prelude.{◌≡◌, ◌<◌, ◌≤◌};
ghost use Rattle.p3_challenger.specs.{DuplexCalls.fresh, HashCalls.with_pending, HashState.function_of};
ghost use Rattle.transcript_read_back.specs.Recursive.{EachQueriesStates, StatesTell, StatesTellOrCollide};
ghost use Rattle.transcript_read_back.specs.Recursive.{StatesTellValues, StatesTellValuesOrCollide, EachQueriesStrings};
ghost use Rattle.transcript_read_back.specs.Recursive.{StringsTell, StringsTellOrCollide, StringsTellValues};
ghost use Rattle.transcript_read_back.specs.Recursive.{StringsTellValuesOrCollide};
ghost use Rattle.p3_field.specs.BabyBearResidues as baby_bear;

use crate::call_by_call::{duplex_is_call_by_call, hash_is_call_by_call};
use crate::scripts::scripts_are_calls;
use p3_challenger::fs::script::{AcceptAll, Both, Meaning, Plain, Suite};
use p3_challenger::fs::{BytesToFieldCodec, FieldToFieldCodec, FieldUnit};
use p3_challenger::laws::prefix_codes::{
    duplex_arrays_are_prefix_code, duplex_elements_are_prefix_code, hash_arrays_are_prefix_code,
    hash_values_are_prefix_code,
};
use p3_challenger::laws::scripts::{binding, equal_symbols_have_equal_values};
use p3_challenger::{DuplexChallenger, HashChallenger, LanePermutation};
use p3_field::{BabyBear, Coeffs};
use p3_symmetric::{CryptographicHasher, Hash, Sha256Hasher};
use std::marker::PhantomData;

/// Scripts over a `DuplexChallenger` of `WIDTH` elements of `BabyBear`, of which `RATE` are the
/// rate. The extension has degree 4, opaque values are digests of eight elements, and there are
/// steps of every kind.
pub struct OverDuplex<P, const WIDTH: usize, const RATE: usize>(PhantomData<P>);

impl<P: LanePermutation<BabyBear, WIDTH>, const WIDTH: usize, const RATE: usize> Suite
    for OverDuplex<P, WIDTH, RATE> {
    ghost use Rattle.std.{proofs.Common.lit<, specs.List.each_same};
    ghost use Rattle.p3_challenger.specs.{HashValueLaws.values-injective, Digests.values_of};

    type Field = BabyBear;

    type Extension = Coeffs<BabyBear, 4>;

    type Unit = FieldUnit<BabyBear>;

    type Opaque = Hash<BabyBear, BabyBear, 8>;

    type Challenger = DuplexChallenger<BabyBear, P, WIDTH, RATE>;

    type Codec = FieldToFieldCodec<BabyBear>;

    type Accept = AcceptAll;

    type Digest = Sha256Hasher;

    type Group = Both;

    ghost is_own = { λ _. Unit {0} };

    ghost alphabet = { lit< tt };

    ghost clones = { λ digest copy told. values-injective copy digest
        (each_same (values_of digest) (values_of copy) told.whole) };
}

/// Scripts over a `HashChallenger` of bytes, whose scalars are of `BabyBear` and sent as bytes. The
/// extension has degree 4, opaque values are arrays of 32 bytes, and there are the plain steps
/// alone.
pub struct OverHash<H>(PhantomData<H>);

impl<H: CryptographicHasher<u8, [u8; 32]>> Suite for OverHash<H> {
    ghost use Rattle.std.specs.{Prelude.{◌≡◌, length}, List.each_same};

    type Field = BabyBear;

    type Extension = Coeffs<BabyBear, 4>;

    type Unit = u8;

    type Opaque = [u8; 32];

    type Challenger = HashChallenger<u8, H, 32>;

    type Codec = BytesToFieldCodec<BabyBear>;

    type Accept = AcceptAll;

    type Digest = Sha256Hasher;

    type Group = Plain;

    ghost is_own = { λ values. length values ≡ 32 };

    ghost alphabet = { tt };

    ghost clones = { λ values copy told. each_same values copy told.whole };
}

/// A challenger of zeros. What is permuted tells whole transcripts that are played from it on:
///
/// - `makes_queries`: each finished run of a script is a list of calls, and queries the
///   permutation.
/// - `tells`: two finished runs, whole ones or fronts of equally many steps, that query the same
///   states and leave the same pending have the same version, name and chunks. Their patterns are
///   the same but for the names of types, and so is what each step absorbed, unless the alternate
///   renderings of the two patterns differ and share a digest.
/// - `or_collides`: where they query equally many states, and the same one last, it is so too, or
///   two different states at one place collide: their images are equal past cell `RATE`, and differ
///   in cell `RATE` by a number from `-RATE` to `RATE`.
/// - `accepted`: two accepted proofs of one script that query the same states, and whose final
///   challengers have the same pending, have the same values but for hints and witnesses of 0 bits,
///   the same challenges and the same final challenger. `accepted_or_collides` says it of equally
///   many states, as above.
///
/// `RATE` is from 1 to 255 and below `WIDTH`, and `draw_limit` is at least 1.
pub fn begin_duplex<P: LanePermutation<BabyBear, WIDTH>, const WIDTH: usize, const RATE: usize>(
    permutation: P,
    draw_limit: u64,
) -> DuplexChallenger<BabyBear, P, WIDTH, RATE>
    requires rate { 0 < RATE }
    requires capacity { RATE < WIDTH }
    requires count { RATE ≤ 255 }
    requires draws { 1 ≤ draw_limit }
    ensures value { result ≡ record {
      sponge = fresh baby_bear.residues WIDTH;
      permutation = permutation;
      draw_limit = draw_limit;
    } }
    ensures makes_queries { EachQueriesStates WIDTH RATE
        (⟦<OverDuplex<P, WIDTH, RATE> as Meaning>⟧.rules 1) P.permutation }
    ensures tells { StatesTell WIDTH RATE
        (⟦<OverDuplex<P, WIDTH, RATE> as Meaning>⟧.rules 1) P.permutation result }
    ensures or_collides { StatesTellOrCollide WIDTH RATE
        (⟦<OverDuplex<P, WIDTH, RATE> as Meaning>⟧.rules 1) P.permutation result }
    ensures accepted { StatesTellValues WIDTH RATE
        (⟦<OverDuplex<P, WIDTH, RATE> as Meaning>⟧.rules 1) P.permutation result }
    ensures accepted_or_collides { StatesTellValuesOrCollide WIDTH RATE
        (⟦<OverDuplex<P, WIDTH, RATE> as Meaning>⟧.rules 1) P.permutation result }
{
    duplex_elements_are_prefix_code::<BabyBear, P, WIDTH, RATE>();
    duplex_arrays_are_prefix_code::<BabyBear, BabyBear, P, WIDTH, RATE, 8>();
    duplex_is_call_by_call::<BabyBear, P, WIDTH, RATE>();
    scripts_are_calls::<OverDuplex<P, WIDTH, RATE>>();
    binding::<OverDuplex<P, WIDTH, RATE>>();
    equal_symbols_have_equal_values::<OverDuplex<P, WIDTH, RATE>>();
    DuplexChallenger::new(permutation, draw_limit)
}

/// A challenger with an initial state. What is hashed tells whole transcripts that are played from
/// it on: the clauses are those of [`begin_duplex`], of strings in place of states. Where two runs
/// hash equally many strings, and leave the same pending, the runs are bound, or at one place of what
/// they hash stand two different strings that have one digest.
pub fn begin_hash<H: CryptographicHasher<u8, [u8; 32]>>(
    initial_state: Vec<u8>,
    hasher: H,
) -> HashChallenger<u8, H, 32>
    ensures value { result ≡ record { sponge = with_pending initial_state.items; hasher = hasher } }
    ensures makes_queries { EachQueriesStrings (⟦<OverHash<H> as Meaning>⟧.rules 1) (function_of H.hash 32 H.filler) }
    ensures tells { StringsTell (⟦<OverHash<H> as Meaning>⟧.rules 1) (function_of H.hash 32 H.filler) result }
    ensures or_collides { StringsTellOrCollide (⟦<OverHash<H> as Meaning>⟧.rules 1)
        (function_of H.hash 32 H.filler) result }
    ensures accepted { StringsTellValues (⟦<OverHash<H> as Meaning>⟧.rules 1)
        (function_of H.hash 32 H.filler) result }
    ensures accepted_or_collides { StringsTellValuesOrCollide (⟦<OverHash<H> as Meaning>⟧.rules 1)
        (function_of H.hash 32 H.filler) result }
{
    hash_values_are_prefix_code::<u8, H, 32>();
    hash_arrays_are_prefix_code::<u8, u8, H, 32, 32>();
    hash_is_call_by_call::<u8, H, 32>();
    scripts_are_calls::<OverHash<H>>();
    binding::<OverHash<H>>();
    equal_symbols_have_equal_values::<OverHash<H>>();
    HashChallenger::new(initial_state, hasher)
}
