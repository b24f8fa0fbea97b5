// A suite over a duplex challenger whose patterns are hashed by Keccak-256.
use anyhow::{Result, bail};
use conformance_tokens::symbol::element;
use p3_challenger::DuplexChallenger;
use p3_challenger::fs::script::{AcceptAll, Both, Suite};
use p3_challenger::fs::{FieldToFieldCodec, FieldUnit};
use p3_field::{BabyBear, Coeffs};
use p3_keccak::Keccak256Hasher;
use p3_symmetric::Turn;
use script_lines::world::World;
use std::alloc::Global;

/// Scripts over `DuplexChallenger` of five cells of `BabyBear`, three of them the rate, which a `Turn` permutes. The
/// extension has degree 4, opaque values are elements, and there are steps of every kind. Patterns and identities are
/// hashed by Keccak-256.
pub struct KeccakDuplexSuite;

impl Suite for KeccakDuplexSuite {
    ghost use Rattle.std.proofs.Common.{lit<};

    type Field = BabyBear;

    type Extension = Coeffs<BabyBear, 4>;

    type Unit = FieldUnit<BabyBear>;

    type Opaque = BabyBear;

    type Challenger = DuplexChallenger<BabyBear, Turn<3>, 5, 3>;

    type Codec = FieldToFieldCodec<BabyBear>;

    type Accept = AcceptAll;

    type Digest = Keccak256Hasher;

    type Group = Both;

    ghost is_own = { λ _. Unit {0} };

    ghost alphabet = { lit< tt };

    ghost clones = { λ _ _ same. same };
}

// More draws in a row than any script has refused.
const DRAW_LIMIT: u64 = 1000;

impl World for KeccakDuplexSuite {
    fn fresh(_alloc: Global) -> Result<DuplexChallenger<BabyBear, Turn<3>, 5, 3>> {
        Ok(DuplexChallenger::new(Turn, DRAW_LIMIT))
    }

    fn opaque(_alloc: Global, tokens: &str) -> Result<BabyBear> {
        element(tokens.parse()?)
    }

    fn rule(token: &str) -> Result<AcceptAll> {
        match token {
            "0" => Ok(AcceptAll),
            _ => bail!("a rule that this world has not"),
        }
    }

    fn told(
        _alloc: Global,
        _challenger: &DuplexChallenger<BabyBear, Turn<3>, 5, 3>,
    ) -> Result<Option<String>> {
        Ok(None)
    }
}
