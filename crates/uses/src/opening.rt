//! A Merkle opening read from a hostile proof.
//!
//! A prover sends the root of a tree, and a place is drawn. Then the prover sends the leaf at the place, at most
//! [`MOST_LEAF_BYTES`] of it, and a salt, without which the leaf could be guessed from its hash. The siblings on the
//! path to the root are hints: they only have to give the root, which was observed before the place was drawn. The
//! contract of [`verify`] says that they do, and that the proof is exactly these bytes. It also says that every later
//! draw depends on the leaf and the salt. The leaf is borrowed from the proof itself.
ghost use Rattle.std.specs.Prelude.{◌≡◌, ◌<◌, ◌↔◌, ◌++◌, ℕ, List, [], ◌∷◌, IsTrue, IfOk, IfSome, OnOk};
ghost use Rattle.p3_challenger.specs.{Drivers.verifying_of, HashCalls.with_pending, Separators.HeldSeparator};
ghost use Rattle.p3_challenger.specs.{HashState.observed, Observation.observed_all, Sha256Hasher.Sha256Hasher};
ghost use Rattle.p3_challenger.specs.SeparatorSeed.{held_of, seed_of};
ghost use Rattle.uses.specs.MerkleOpening.{IsClimb, IsDrawnPlace, IsOpened, ReadsOpened, above, leaf_node_of};
ghost use Rattle.uses.specs.MerkleOpening.{parent_of};

use p3_challenger::fs::{
    BytesToFieldCodec, Codec, DomainSeparator, ExtensionFieldCodec, Hierarchy, Interaction,
    InteractionPattern, Kind, Length, ProverState, SymmetricSteps, TranscriptError, VerifierState,
};
use p3_challenger::{HashChallenger, Sponge};
use p3_field::{BabyBear, PrimeField32};
use p3_symmetric::{DigestHasher, Sha256Hasher};
use std::alloc::{AllocError, Global};

/// The number of leaves of the tree.
pub const LEAVES: usize = 8;

// How many levels of nodes stand below the root.
const DEPTH: usize = 3;

/// The greatest number of bytes in a leaf.
pub const MOST_LEAF_BYTES: usize = 64;

/// The number of bytes in a salt.
pub const SALT_BYTES: usize = 16;

type Challenger = HashChallenger<u8, Sha256Hasher, 32>;

type Scalars = BytesToFieldCodec<BabyBear>;

// An element of the field, by its one coefficient.
type Coefficient = ExtensionFieldCodec<BabyBear, BabyBear, Scalars>;

/// The type of separators for the protocol.
pub type Separator = DomainSeparator<u8, Sha256Hasher>;

type Prover = ProverState<Challenger, u8, Sha256Hasher>;

type Verifier<'a> = VerifierState<'a, Challenger, u8, Sha256Hasher>;

type Node = [u8; 32];

/// The view of contracts on the protocol, at its types.
pub trait Opening: Sponge {
    // The state of a challenger after the seed of a separator.
    ghost seeded: { HeldSeparator → Self.State };

    // The bytes have a leaf at a place that is in the tree, and others are left; a challenger goes from one state to
    // another.
    ghost is_opened: { List ℕ → Self.State → ℕ → List ℕ → List ℕ → Self.State → Type 0 };
}

impl Opening for Challenger {
    ghost seeded = { λ held. record {
      sponge = with_pending (seed_of ⟦<Sha256Hasher as DigestHasher>⟧.digest_of held);
      hasher = record {};
    } };

    ghost is_opened = { IsOpened ⟦<Sha256Hasher as DigestHasher>⟧.digest_of
        ⟦<Coefficient as Codec<Challenger, BabyBear>>⟧.sampling (observed_all observed) };
}

/// A leaf of the prover's tree.
#[derive(Clone, Copy)]
pub struct Leaf<'a> {
    /// The contents of the leaf.
    pub bytes: &'a [u8],
    /// The salt that hides the contents.
    pub salt: [u8; SALT_BYTES],
}

/// A leaf of the tree, and the challenger for the rest of the transcript.
#[derive(Debug, Drop)]
pub struct Opened<'a> {
    /// The place of the leaf, below [`LEAVES`].
    pub place: usize,
    /// The contents of the leaf, at most [`MOST_LEAF_BYTES`].
    pub bytes: &'a [u8],
    /// The challenger, which has observed the root, the leaf and its salt.
    pub challenger: Challenger,
}

// A leaf as it was read, and whether it is in the tree.
#[derive(Clone, Copy)]
struct Read<'a> {
    place: usize,
    bytes: &'a [u8],
    in_tree: bool,
}

/// Sends the root of the tree of these leaves, and opens one of them. The only errors in practice are out of memory,
/// and that the opened leaf is too long.
pub fn prove(
    alloc: Global,
    separator: &Separator,
    leaves: &[Leaf<'_>; LEAVES],
) -> Result<Vec<u8>, TranscriptError> {
    let mut prover = Prover::new(alloc, challenger(alloc), separator)?;
    let sent = send(&mut prover, alloc, leaves);
    sent.and(prover.finalize())
}

fn send(
    prover: &mut Prover,
    alloc: Global,
    leaves: &[Leaf<'_>; LEAVES],
) -> Result<(), TranscriptError> {
    prover.add_bytes("root", &root_of(alloc, leaves)?)?;
    let place = draw_place(prover)?;
    let leaf = leaves[place];
    prover.add_bytes_bounded("leaf", leaf.bytes, MOST_LEAF_BYTES)?;
    prover.add_salt("salt", &leaf.salt)?;
    prover.add_hint("sibling", &sibling(alloc, leaves, place, 1)?)?;
    prover.add_hint("sibling", &sibling(alloc, leaves, place, 2)?)?;
    prover.add_hint("sibling", &sibling(alloc, leaves, place, 4)?)
}

// The root of the so many leaves that stand beside those with the place.
fn sibling(
    alloc: Global,
    leaves: &[Leaf<'_>],
    place: usize,
    size: usize,
) -> Result<Node, AllocError>
    requires { 0 < size }
{
    let beside = (place / size) ^ 1;
    root_of(alloc, leaves.chunks(size).nth(beside).unwrap_or(&[]))
}

// The root of the leaves, of which there are two or more, or the node of the only one.
fn root_of(alloc: Global, leaves: &[Leaf<'_>]) -> Result<Node, AllocError> {
    if leaves.len() <= 1 {
        return match leaves.first() {
            Some(leaf) => leaf_node(alloc, &leaf.salt, leaf.bytes),
            None => Ok([0; 32]),
        };
    }
    let (left, right) = leaves.split_at(leaves.len() / 2);
    parent(alloc, &root_of(alloc, left)?, &root_of(alloc, right)?)
}

/// Reads a proof, and returns the leaf that it opens, or `None` where the leaf is not in the tree.
///
/// The errors are those of the transcript: a proof that is too short or too long, a leaf that is too long, and out of
/// memory.
pub fn verify<'a>(
    alloc: Global,
    separator: &Separator,
    proof: &'a [u8],
) -> Result<Option<Opened<'a>>, TranscriptError>
    ensures { IfOk result (λ found. IfSome found (λ opened. ⟦<Challenger as Opening>⟧.is_opened proof.now
        (⟦<Challenger as Opening>⟧.seeded (held_of separator.now)) opened.place opened.bytes.now []
        (⟦<Challenger as Sponge>⟧.state opened.challenger))) }
{
    let mut verifier = Verifier::new(alloc, challenger(alloc), separator, proof)?;
    let received = receive(&mut verifier, alloc);
    let end = verifier.finish();
    let leaf = received?;
    let challenger = end?;
    if !leaf.in_tree {
        return Ok(None);
    }
    Ok(Some(Opened {
        place: leaf.place,
        bytes: leaf.bytes,
        challenger,
    }))
}

fn receive<'a>(verifier: &mut Verifier<'a>, alloc: Global) -> Result<Read<'a>, TranscriptError>
    ensures { IfOk result (λ leaf. IsTrue leaf.in_tree → ReadsOpened ⟦<Challenger as Opening>⟧.is_opened
        (verifying_of ⟦<Challenger as Sponge>⟧.state verifier.old) leaf.place leaf.bytes.now
        (verifying_of ⟦<Challenger as Sponge>⟧.state verifier.new)) }
{
    let root = verifier.next_bytes("root", 32)?;
    let place = draw_place(verifier)?;
    let bytes = verifier.next_bytes_bounded("leaf", MOST_LEAF_BYTES)?;
    let salt = verifier.next_salt("salt", SALT_BYTES)?;
    let node = leaf_node(alloc, salt, bytes)?;
    let top = climb(verifier, alloc, place, node)?;
    let in_tree = same_bytes(&top, root);
    Ok(Read {
        place,
        bytes,
        in_tree,
    })
}

// The root that the siblings in the proof make of a node at the place.
fn climb(
    verifier: &mut Verifier<'_>,
    alloc: Global,
    place: usize,
    leaf: Node,
) -> Result<Node, TranscriptError>
    ensures climbed { IfOk result (λ top. IsClimb ⟦<Sha256Hasher as DigestHasher>⟧.digest_of place leaf
        (verifying_of ⟦<Challenger as Sponge>⟧.state verifier.old).bytes top
        (verifying_of ⟦<Challenger as Sponge>⟧.state verifier.new).bytes) }
    ensures untouched { OnOk result ((verifying_of ⟦<Challenger as Sponge>⟧.state verifier.new).transcript.challenger
        ≡ (verifying_of ⟦<Challenger as Sponge>⟧.state verifier.old).transcript.challenger) }
{
    let mut node = leaf;
    let mut place = place;
    for _ in 0..DEPTH {
        let sibling = verifier.next_hint("sibling", 32)?;
        node = node_above(alloc, place, &node, sibling)?;
        place /= 2;
    }
    Ok(node)
}

// The node above one at a place, which has this sibling.
fn node_above(alloc: Global, place: usize, node: &[u8], sibling: &[u8]) -> Result<Node, AllocError>
    ensures { IfOk result (λ top. top
        ≡ above ⟦<Sha256Hasher as DigestHasher>⟧.digest_of place node.now sibling.now) }
{
    if place % 2 == 0 {
        parent(alloc, node, sibling)
    } else {
        parent(alloc, sibling, node)
    }
}

// Both sides draw it. The order of the field is so much greater than the number of leaves that each is as likely as
// the others, nearly.
fn draw_place<S: SymmetricSteps<Challenger = Challenger>>(
    side: &mut S,
) -> Result<usize, TranscriptError>
    ensures drawn { IfOk result (λ place. IsDrawnPlace ⟦<Coefficient as Codec<Challenger, BabyBear>>⟧.sampling place
        (S.transcript side.old).challenger (S.transcript side.new).challenger) }
    ensures below { IfOk result (λ place. place < 8) }
    ensures bytes { OnOk result (S.bytes side.new ≡ S.bytes side.old) }
{
    let drawn = side.challenge_extension::<BabyBear, BabyBear, Scalars>("place")?;
    Ok(drawn.into_inner().as_canonical_u32() as usize % LEAVES)
}

// A leaf as a node. The first byte tells it from a node that has two below it.
fn leaf_node(alloc: Global, salt: &[u8], bytes: &[u8]) -> Result<Node, AllocError>
    ensures { IfOk result (λ node. node ≡ leaf_node_of ⟦<Sha256Hasher as DigestHasher>⟧.digest_of salt.now bytes.now) }
{
    digest_of_parts(alloc, 0, salt, bytes)
}

// The node above two.
fn parent(alloc: Global, left: &[u8], right: &[u8]) -> Result<Node, AllocError>
    ensures { IfOk result (λ node. node ≡ parent_of ⟦<Sha256Hasher as DigestHasher>⟧.digest_of left.now right.now) }
{
    digest_of_parts(alloc, 1, left, right)
}

fn digest_of_parts(alloc: Global, kind: u8, first: &[u8], second: &[u8]) -> Result<Node, AllocError>
    ensures { IfOk result (λ node. node
        ≡ ⟦<Sha256Hasher as DigestHasher>⟧.digest_of ((kind ∷ first.now) ++ second.now)) }
{
    let mut message = vec![in alloc; kind]?;
    message.extend_from_slice(first)?;
    message.extend_from_slice(second)?;
    Ok(<Sha256Hasher as DigestHasher>::digest(&message))
}

// The bytes are the same.
fn same_bytes(a: &[u8], b: &[u8]) -> bool
    ensures { IsTrue result ↔ a.now ≡ b.now }
{
    a == b
}

// What both sides begin with.
fn challenger(alloc: Global) -> Challenger
    ensures { result.sponge ≡ with_pending [] }
{
    Challenger::new(Vec::new(alloc), Sha256Hasher)
}

/// Returns the separator of the protocol. The only error in practice is out of memory.
pub fn separator(alloc: Global) -> Result<Separator, TranscriptError> {
    let leaf = Hierarchy::Atomic;
    let sibling = Interaction::bytes(leaf, Kind::Hint, "sibling", Length::Fixed(32));
    let pattern = InteractionPattern::new(vec![in alloc;
        Interaction::bytes(leaf, Kind::Message, "root", Length::Fixed(32)),
        Interaction::algebra::<BabyBear, BabyBear, Sha256Hasher>(
            leaf,
            Kind::Challenge,
            "place",
            Length::Scalar,
        ),
        Interaction::bytes(
            leaf,
            Kind::Message,
            "leaf",
            Length::Bounded(MOST_LEAF_BYTES)
        ),
        Interaction::bytes(leaf, Kind::Salt, "salt", Length::Fixed(SALT_BYTES)),
        sibling,
        sibling,
        sibling,
    ]?)?;
    Separator::new(alloc, 1, b"opening", pattern)
}
