//! The program `examples`: it plays the protocols of the crate `uses`, and prints what comes of them.
#![tactic(auto)]

ghost use Rattle.std.specs.Prelude.{◌≤◌};

use anyhow::Context;
use p3_challenger::fs::script::{Drawn, Sent};
use p3_challenger::fs::{
    BytesToFieldCodec, Codec, DomainSeparator, FieldToFieldCodec, FieldUnit, Hierarchy,
    Interaction, InteractionPattern, Kind, Length, ProverState, TranscriptError, Unit,
    VerifierState,
};
use p3_challenger::{CanObserve, HashChallenger, SerializingChallenger32};
use p3_field::{BabyBear, Coeffs, PrimeCharacteristicRing};
use p3_poseidon2::default_babybear_poseidon2_16;
use p3_symmetric::{MerkleCap, Sha256Hasher};
use std::alloc::Global;
use uses::commit_phase::{Challenges, Demands};
use uses::opening::{Leaf, Separator};
use uses::own_hasher::Polynomial;
use uses::own_permutation::{StirChallenger, stir_challenger};
use uses::{Round, commit_phase, demo_script, opening, protocol, receive_and_draw, send_and_draw};

fn main(rt: HostRuntime) -> anyhow::Result<()> {
    show_protocol(&rt)?;
    show_demo_script(&rt)?;
    show_commit_phase(&rt)?;
    show_opening(&rt)?;
    show_rounds(&rt)
}

// A line is sent. A proof with a byte changed is of another line, whose quotient it does not have.
fn show_protocol(rt: &HostRuntime) -> anyhow::Result<()> {
    let separator = protocol::separator(rt.alloc())?;
    let (slope, offset) = (BabyBear::from_u64(3), BabyBear::from_u64(5));
    let mut proof = protocol::prove(rt.alloc(), &separator, slope, offset)?;
    println!(rt; "protocol: {proof:?}")?;
    let claim = protocol::verify(rt.alloc(), &separator, &proof)?;
    println!(rt; "{claim:?}")?;
    if let Some(byte) = proof.first_mut() {
        *byte ^= 1;
    }
    let claim = protocol::verify(rt.alloc(), &separator, &proof)?;
    println!(rt; "a byte changed: {claim:?}")?;
    Ok(())
}

// A script is proved over Poseidon2, and the proof verified: from the same numbers, and from one of them alone. The bytes
// and the draws that are expected are those of the Rust crate's prover and verifier, over a Poseidon2 in Rust.
fn show_demo_script(rt: &HostRuntime) -> anyhow::Result<()> {
    let alloc = rt.alloc();
    let separator = demo_script::separator(alloc)?;
    let permutation = default_babybear_poseidon2_16();
    let (seven, eight) = (BabyBear::from_u64(7), BabyBear::from_u64(8));
    let values = vec![in alloc; BabyBear::ONE, BabyBear::from_u64(2)]?;
    let sent = [
        Sent::Bytes(hex::decode(alloc, "0011223344556677")?),
        Sent::Scalars(values),
        Sent::Bytes(hex::decode(alloc, "6869")?),
    ];
    let inputs = vec![in alloc; seven, eight]?;
    let agreed = demo_script::prove_and_verify(alloc, permutation, &separator, inputs, &sent)?;
    let agreed = agreed.context("values that the steps do not have")?;
    let proof = hex::encode(alloc, agreed.proved.narg.as_slice())?;
    println!(rt; "demo script: {proof}")?;
    for drawn in &agreed.drawn {
        match drawn {
            Drawn::Scalars(scalars) => println!(rt; "{scalars:?}")?,
            Drawn::Extensions(elements) => println!(rt; "{elements:?}")?,
            Drawn::Bits(numbers) => println!(rt; "{numbers:?}")?,
        }
    }
    let fewer = vec![in alloc; seven]?;
    let narg = agreed.proved.narg.as_slice();
    let other = demo_script::verify(alloc, permutation, &separator, fewer, narg);
    if let Err(fault) = other {
        println!(rt;
            "a number fewer: refused at {}, {}",
            fault.position, fault.error
        )?;
    }
    Ok(())
}

type Bytes = HashChallenger<u8, Sha256Hasher, 32>;

type Serializing = SerializingChallenger32<BabyBear, Bytes>;

type Fold = Coeffs<BabyBear, 4>;

type Cap = MerkleCap<BabyBear, [u8; 32]>;

const DEMANDS: Demands = Demands {
    work_bits: 8,
    index_bits: 4,
    queries: 6,
};

// Two caps are observed. The verifier is shown the witness, and then another one.
fn show_commit_phase(rt: &HostRuntime) -> anyhow::Result<()> {
    let alloc = rt.alloc();
    let high: Cap = MerkleCap::new(vec![in alloc; [1; 32], [2; 32]]?);
    let low: Cap = MerkleCap::new(vec![in alloc; [3; 32]]?);
    let caps = [&high, &low];
    let mut challenger = serializing(alloc);
    let (witness, sent) = commit_phase::prove::<Fold, _, _>(
        alloc,
        &mut challenger,
        &caps,
        DEMANDS,
    )?;
    println!(rt; "commit phase: {witness:?} {sent:?}")?;
    show_queries(rt, &caps, witness)?;
    show_queries(rt, &caps, witness + BabyBear::ONE)
}

// Where the verifier looks, if the witness passes.
fn show_queries(rt: &HostRuntime, caps: &[&Cap], witness: BabyBear) -> anyhow::Result<()> {
    let mut challenger = serializing(rt.alloc());
    let found: Option<Challenges<Fold>> = commit_phase::verify(
        rt.alloc(),
        &mut challenger,
        caps,
        witness,
        DEMANDS,
    )?;
    let queries = found.map(|challenges| challenges.queries);
    println!(rt; "queries: {queries:?}")?;
    Ok(())
}

fn serializing(alloc: Global) -> Serializing {
    SerializingChallenger32::new(hashing(alloc), 1000)
}

fn hashing(alloc: Global) -> Bytes {
    HashChallenger::new(Vec::new(alloc), Sha256Hasher)
}

// A leaf of eight is opened. A proof whose last sibling was changed opens none.
fn show_opening(rt: &HostRuntime) -> anyhow::Result<()> {
    let separator = opening::separator(rt.alloc())?;
    let mut leaves = [Leaf {
        bytes: b"",
        salt: [9; 16],
    }; 8];
    leaves[7].bytes = b"seventh";
    let mut proof = opening::prove(rt.alloc(), &separator, &leaves)?;
    println!(rt; "opening: {} bytes", proof.len())?;
    show_opened(rt, "opened", &separator, &proof)?;
    if let Some(byte) = proof.last_mut() {
        *byte ^= 1;
    }
    show_opened(rt, "a sibling changed", &separator, &proof)
}

// The place and the bytes of the leaf that the proof opens, if it opens any.
fn show_opened(
    rt: &HostRuntime,
    said: &str,
    separator: &Separator,
    proof: &[u8],
) -> anyhow::Result<()> {
    let opened = opening::verify(rt.alloc(), separator, proof)?;
    let leaf = opened.map(|opened| (opened.place, opened.bytes));
    println!(rt; "{said}: {leaf:?}")?;
    Ok(())
}

// One generic round, over two challengers: of bytes over a hasher of one's own, and of a field over a permutation of
// one's own.
fn show_rounds(rt: &HostRuntime) -> anyhow::Result<()> {
    let bytes = play_round::<u8, HashChallenger<u8, Polynomial, 32>, BytesToFieldCodec<BabyBear>>(
        rt.alloc(),
        HashChallenger::new(Vec::new(rt.alloc()), Polynomial),
        HashChallenger::new(Vec::new(rt.alloc()), Polynomial),
    )?;
    println!(rt; "round over bytes: {bytes:?}")?;
    let field = play_round::<FieldUnit<BabyBear>, StirChallenger, FieldToFieldCodec<BabyBear>>(
        rt.alloc(),
        stir_challenger(),
        stir_challenger(),
    )?;
    println!(rt; "round over a field: {field:?}")?;
    Ok(())
}

// What the prover draws, and what the verifier reads and draws.
fn play_round<U: Unit, C: CanObserve<U::Item> + Drop, Cdc: Codec<C, BabyBear>>(
    alloc: Global,
    mine: C,
    theirs: C,
) -> Result<(BabyBear, Round<BabyBear>), TranscriptError>
    requires alphabet { U.is_alphabet }
    requires secure { 128 ≤ Cdc.SECURITY_BITS }
{
    let separator = round_separator::<U>(alloc)?;
    let mut prover = ProverState::new(alloc, mine, &separator)?;
    let drawn = send_and_draw::<BabyBear, U, C, Polynomial, Cdc>(
        &mut prover,
        &BabyBear::from_u64(7),
    );
    let proof = prover.finalize();
    let drawn = drawn?;
    let proof = proof?;
    let mut verifier = VerifierState::new(alloc, theirs, &separator, &proof)?;
    let round = receive_and_draw::<BabyBear, U, C, Polynomial, Cdc>(&mut verifier);
    let end = verifier.finalize();
    let round = round?;
    end?;
    Ok((drawn.into_inner(), round))
}

fn round_separator<U>(alloc: Global) -> Result<DomainSeparator<U, Polynomial>, TranscriptError> {
    let sent = Interaction::algebra::<BabyBear, BabyBear, Polynomial>(
        Hierarchy::Atomic,
        Kind::Message,
        "sent",
        Length::Scalar,
    );
    let drawn = sent.of_same_type(Hierarchy::Atomic, Kind::Challenge, "drawn", Length::Scalar);
    let pattern = InteractionPattern::new(vec![in alloc; sent, drawn]?)?;
    DomainSeparator::new(alloc, 1, b"round", pattern)
}
