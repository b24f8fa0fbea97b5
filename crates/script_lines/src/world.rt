// The worlds that scripts are played in, by the token that a file has for each.
use crate::rule::Rule;
use anyhow::{Result, bail};
use conformance_tokens::symbol::element;
use p3_challenger::DuplexChallenger;
use p3_challenger::fs::script::{Both, StepGroup, Suite};
use p3_challenger::fs::{
    Codec, DomainSeparator, FieldToFieldCodec, FieldUnit, MIN_CHALLENGE_SECURITY_BITS,
};
use p3_field::{F257, PrimeField64};
use p3_symmetric::{Sha256Hasher, Turn};
use std::alloc::Global;
use std::marker::PhantomData;

/// A suite, and what a file needs of it beside. Each impl here writes all of its methods out: one that the trait gives by
/// default is tied at each impl to all that its suite is, which costs many times what its own proof does.
pub trait World: Suite {
    /// A challenger that observed nothing yet.
    fn fresh(alloc: Global) -> Result<Self::Challenger>;

    /// What is told of a challenger in place of what it draws next, if a world tells that.
    fn told(_alloc: Global, _challenger: &Self::Challenger) -> Result<Option<String>> {
        Ok(None)
    }

    /// The value of these tokens that the challenger itself knows how to observe.
    fn opaque(alloc: Global, tokens: &str) -> Result<Self::Opaque>;

    /// The rule of this token.
    fn rule(token: &str) -> Result<Self::Accept>;
}

/// What binds a transcript to a script.
pub type SeparatorOf<S> = DomainSeparator<<S as Suite>::Unit, <S as Suite>::Digest>;

/// The small world: a challenger of three cells of the field of 257 elements, two of them the rate, whose permutation
/// turns them by `K` places. The field is its own extension, and there are the steps of the group `G`.
pub struct Small<const K: usize, G> {
    group: PhantomData<G>,
}

/// The challenger of the small world.
pub type Sponge<const K: usize> = DuplexChallenger<F257, Turn<K>, 3, 2>;

impl<const K: usize, G: StepGroup<Sponge<K>, F257>> Suite for Small<K, G> {
    ghost use Rattle.std.proofs.Common.{lit<};

    type Field = F257;

    type Extension = F257;

    type Unit = FieldUnit<F257>;

    type Opaque = F257;

    type Challenger = Sponge<K>;

    type Codec = FieldToFieldCodec<F257>;

    type Accept = Rule;

    type Digest = Sha256Hasher;

    type Group = G;

    ghost is_own = { λ _. Unit {0} };

    ghost alphabet = { lit< tt };

    ghost clones = { λ _ _ same. same };
}

// More draws in a row than any script has refused.
const DRAW_LIMIT: u64 = 10;

impl<const K: usize, G: StepGroup<Sponge<K>, F257>> World for Small<K, G> {
    fn fresh(_alloc: Global) -> Result<Sponge<K>> {
        Ok(DuplexChallenger::new(Turn, DRAW_LIMIT))
    }

    fn opaque(_alloc: Global, tokens: &str) -> Result<F257> {
        element(tokens.parse()?)
    }

    fn rule(token: &str) -> Result<Rule> {
        Rule::parse(token)
    }

    fn told(_alloc: Global, _challenger: &Sponge<K>) -> Result<Option<String>> {
        Ok(None)
    }
}

/// The small world with so many cells that the challenger keeps what it is fed until it draws.
pub struct Notes;

/// The challenger of [`Notes`].
pub type WideSponge = DuplexChallenger<F257, Turn<2>, 251, 250>;

impl Suite for Notes {
    ghost use Rattle.std.proofs.Common.{lit<};

    type Field = F257;

    type Extension = F257;

    type Unit = FieldUnit<F257>;

    type Opaque = F257;

    type Challenger = WideSponge;

    type Codec = FieldToFieldCodec<F257>;

    type Accept = Rule;

    type Digest = Sha256Hasher;

    type Group = Both;

    ghost is_own = { λ _. Unit {0} };

    ghost alphabet = { lit< tt };

    ghost clones = { λ _ _ same. same };
}

// How many symbols the seed has where there are no chunks.
const SEED_LEN: usize = 102;

impl World for Notes {
    fn fresh(_alloc: Global) -> Result<WideSponge> {
        Ok(DuplexChallenger::new(Turn, DRAW_LIMIT))
    }

    fn opaque(_alloc: Global, tokens: &str) -> Result<F257> {
        element(tokens.parse()?)
    }

    fn rule(token: &str) -> Result<Rule> {
        Rule::parse(token)
    }

    // What the challenger was fed since the seed.
    fn told(alloc: Global, challenger: &WideSponge) -> Result<Option<String>> {
        let mut text = String::from_str(alloc, "fed")?;
        for symbol in challenger.input().iter().skip(SEED_LEN) {
            write!(text, " {}", symbol.as_canonical_u64())?;
        }
        Ok(Some(text))
    }
}

/// `next n..`, so many scalars that the challenger draws next, or what else its world tells of it.
pub fn state<S: World>(
    alloc: Global,
    challenger: &mut S::Challenger,
    next: usize,
) -> Result<String> {
    match S::told(alloc, challenger)? {
        Some(text) => Ok(text),
        None => draws::<S>(alloc, challenger, next),
    }
}

fn draws<S: Suite>(alloc: Global, challenger: &mut S::Challenger, next: usize) -> Result<String> {
    let mut text = String::from_str(alloc, "next")?;
    for _ in 0..next {
        let number = draw::<S>(challenger)?;
        write!(text, " {number}")?;
    }
    Ok(text)
}

// The number of a scalar that is drawn through the codec.
fn draw<S: Suite>(challenger: &mut S::Challenger) -> Result<u64> {
    if S::Codec::SECURITY_BITS < MIN_CHALLENGE_SECURITY_BITS {
        bail!("a codec that is not secure");
    }
    Ok(S::Codec::sample(challenger)?.as_canonical_u64())
}
