//! Every separator has a seed.
ghost use Rattle.p3_challenger_core.specs.Reading.{AreBytes};
ghost use Rattle.p3_domain_separator.specs.{Seed.AreSeedParts, SeparatorSeed.{seed_parts, seed_of}};
ghost use Rattle.p3_domain_separator.specs.Separators.{HeldSeparator};

use p3_symmetric::DigestHasher;

/// The seed of every separator consists of an identifier, a digest and a label, and is a string of
/// bytes.
///
/// A law: the body is empty, and a caller cites the clauses.
pub fn separators_have_seeds<D: DigestHasher>()
    ensures parts { (held : HeldSeparator) → AreSeedParts (seed_parts D.digest_of held) }
    ensures bytes { (held : HeldSeparator) → AreBytes (seed_of D.digest_of held) }
{}
