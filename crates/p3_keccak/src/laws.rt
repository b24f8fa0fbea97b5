//! The law that connects the definition of Keccak-256 to the standard and to published digests.
ghost use Rattle.std.{specs.Prelude.{◌≡◌, []}, proofs.Common.codes};
ghost use Rattle.p3_keccak.specs.{Keccak.{keccak256, offsets, round_constants}, KnownDigests.{digest_of_abc, digest_of_nothing}};
ghost use Rattle.p3_keccak.specs.Tables.{offsets_of_walk, round_constants_of_register};

/// The definition of Keccak-256 has the tables that the standard generates (FIPS 202, Algorithms 2, 5 and 6). It
/// gives the published digests of the empty message and of `abc`.
///
/// A law: the body is empty, and a caller cites the clauses.
pub fn follows_the_standard()
    ensures rotations { offsets ≡ offsets_of_walk }
    ensures constants { round_constants ≡ round_constants_of_register }
    ensures nothing { keccak256 [] ≡ digest_of_nothing }
    ensures abc { keccak256 (codes "abc") ≡ digest_of_abc }
{}
