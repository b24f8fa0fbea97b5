// The suites that a file can name, and what is told of their challengers.
use anyhow::Result;
use p3_challenger::fs::BytesToFieldCodec;
use p3_challenger::fs::script::{AcceptAll, Plain, Suite};
use p3_challenger::{
    DuplexChallenger, HashChallenger, MultiField32Challenger, SerializingChallenger,
};
use p3_field::{FieldBridge, Goldilocks, PrimeField32, PrimeField64};
use p3_symmetric::{CryptographicHasher, Sha256Hasher};
use script_lines::world::World;
use std::alloc::Global;
use test_suites::HashSuite;

/// A challenger that tells what it keeps of what it was fed.
pub trait Keeps {
    /// The bytes that wait to be hashed: a step that draws nothing adds what it feeds at their end. None of a challenger
    /// that permutes what it is fed into its cells, and so keeps none.
    fn pending(&self) -> Option<&[u8]>;
}

impl<H: CryptographicHasher<u8, [u8; 32]>> Keeps for HashChallenger<u8, H, 32> {
    fn pending(&self) -> Option<&[u8]> {
        Some(self.input())
    }
}

impl<F, C: Keeps, const BYTES: usize> Keeps for SerializingChallenger<F, C, BYTES> {
    fn pending(&self) -> Option<&[u8]> {
        self.inner().pending()
    }
}

impl<F, P, const WIDTH: usize, const RATE: usize> Keeps for DuplexChallenger<F, P, WIDTH, RATE> {
    fn pending(&self) -> Option<&[u8]> {
        None
    }
}

impl<
    F: PrimeField32,
    C: PrimeField64 + FieldBridge<F, C>,
    P,
    const WIDTH: usize,
    const RATE: usize,
> Keeps for MultiField32Challenger<F, C, P, WIDTH, RATE> {
    fn pending(&self) -> Option<&[u8]> {
        None
    }
}

/// A suite of which it is told what each step did.
pub trait Told: World {
    /// What waits in the challenger, if it keeps it.
    fn pending(challenger: &Self::Challenger) -> Option<&[u8]>;
}

impl<S: World> Told for S
where
    S::Challenger: Keeps,
{
    fn pending(challenger: &S::Challenger) -> Option<&[u8]> {
        challenger.pending()
    }
}

/// Scripts over `HashChallenger` of bytes with SHA-256, whose scalars are of `Goldilocks` and sent as bytes. The field is
/// its own extension, opaque values are arrays of 32 bytes, and there are the plain steps alone.
#[derive(Clone, Copy, Debug)]
pub struct GoldilocksBytes;

impl Suite for GoldilocksBytes {
    ghost use Rattle.std.specs.{Prelude.{◌≡◌, length}, List.each_same};

    type Field = Goldilocks;

    type Extension = Goldilocks;

    type Unit = u8;

    type Opaque = [u8; 32];

    type Challenger = HashChallenger<u8, Sha256Hasher, 32>;

    type Codec = BytesToFieldCodec<Goldilocks>;

    type Accept = AcceptAll;

    type Digest = Sha256Hasher;

    type Group = Plain;

    ghost is_own = { λ values. length values ≡ 32 };

    ghost alphabet = { tt };

    ghost clones = { λ values copy told. each_same values copy told.whole };
}

impl World for GoldilocksBytes {
    fn fresh(alloc: Global) -> Result<HashChallenger<u8, Sha256Hasher, 32>> {
        <HashSuite<Sha256Hasher>>::fresh(alloc)
    }

    fn opaque(alloc: Global, tokens: &str) -> Result<[u8; 32]> {
        <HashSuite<Sha256Hasher>>::opaque(alloc, tokens)
    }

    fn rule(token: &str) -> Result<AcceptAll> {
        <HashSuite<Sha256Hasher>>::rule(token)
    }
}
