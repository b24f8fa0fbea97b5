//! The separator, which binds a transcript to a protocol, its pattern and the instance.
//!
//! ```text
//! version and name of the protocol  ->  identifier -+
//! steps  ->  text  ->  digest                      -+->  seed  ->  what a driver's challenger observes first
//! instances, in order  ->  label                   -+
//! ```
ghost use Rattle.std.specs.Prelude.{◌≡◌, ◌↔◌, ℕ, true, ◌+◌, ◌<◌, ◌≤◌, ◌^◌, List, [], ◌∷◌, ◌++◌, length, OnOk, OnErr};
ghost use Rattle.std.specs.{Prelude.{IfOk, IfErr}, List.{All, flat_map}};
ghost use Rattle.p3_challenger_core.specs.{Observation.observed_all, Sponge.IsFed, Reading.IsPrefixCodeOn};
ghost use Rattle.p3_fs_core.specs.{Alphabet.LeavesItems, declared.error.TranscriptError.TheVariants.OutOfMemory};
ghost use Rattle.p3_patterns.specs.{PatternSteps.steps_of, Rendering.hashed_text};
ghost use Rattle.p3_domain_separator.specs.{Separators.{IsIdentifier, IsLabel}, Seed.{AreSeedParts, seed_of_parts}};
ghost use Rattle.p3_domain_separator.specs.Seed.{identifier, counted, label_of, FitsCount, RefusesChunk, RefusesSeed};
ghost use Rattle.p3_domain_separator.specs.SeparatorLaws.{IsIdentifier-prop, IsLabel-prop};

use p3_challenger_core::CanObserve;
use p3_codecs::Unit;
use p3_fs_core::TranscriptError;
use p3_patterns::InteractionPattern;
use p3_symmetric::DigestHasher;
use std::alloc::{AllocError, Global};
use std::marker::PhantomData;
use std::rc::Rc;

/// The length of a protocol's identifier: 64 bytes, as in section 3 of the IETF draft on Fiat-Shamir. It is the Rust
/// crate's constant of this name.
pub const PROTOCOL_ID_LEN: usize = 64;

// The last byte of a seed.
const CLOSING_BYTE: u8 = 0x80;

// The length of the pattern's digest.
const DIGEST_LEN: usize = 32;

// How many bytes a length is written in.
const COUNT_LEN: usize = 4;

// The greatest length of a label: the greatest that fits in so many bytes.
const MAX_LABEL_LEN: usize = u32::MAX as usize;

/// Binds a transcript to a protocol, its pattern and the instance.
///
/// `U` is the alphabet of the sponge, and `D` the hash function for the pattern's digest.
///
/// Contracts see the parts: the version of the protocol, its name of 1 to 62 bytes, the chunks of the instance's
/// label, and the pattern. The label stays shorter than 2^32 bytes, so that its length fits in four bytes.
///
/// The pattern is hashed once, by [`new`](Self::new); each seed takes the digest from there.
///
/// The Rust crate's `DomainSeparator` holds an `Arc`, and hashes the pattern for each seed. Here the hash function for
/// the pattern's digest is a parameter. Separators can be compared for equality, but neither ordered nor hashed.
#[derive(Drop)]
#[derive_where(Debug, PartialEq, Eq)]
pub struct DomainSeparator<U, D: DigestHasher> {
    protocol_id: [u8; PROTOCOL_ID_LEN],
    instance_label: Vec<u8>,
    pattern: Rc<InteractionPattern>,
    digest: [u8; DIGEST_LEN],
    alphabet: PhantomData<U>,
    hasher: PhantomData<D>,
    /// The identifier is that of a version and a name.
    pub ghost is_identifier: { IsIdentifier protocol_id } by { IsIdentifier-prop protocol_id },
    /// The label is that of chunks.
    pub ghost is_label: { IsLabel instance_label.items } by { IsLabel-prop instance_label.items },
    ghost label_fits: { length instance_label.items < 2 ^ 32 },
    // The digest is that of the pattern's text.
    ghost is_digest: { digest ≡ D.digest_of (hashed_text (steps_of pattern.value)) },
}

impl<U, D: DigestHasher> DomainSeparator<U, D> {
    ghost use Rattle.p3_domain_separator.specs.SeparatorSeed.{separator_of};

    /// Returns a separator of the protocol with this version, name and pattern, for an instance with no label yet.
    ///
    /// The identifier consists of the version, the name, zeros, and in the last byte the length of the name.
    ///
    /// Conditions: the name has 1 to 62 bytes. The one error is [`TranscriptError::OutOfMemory`], after which the
    /// pattern is dropped. The Rust crate panics on a name of another length, and returns no error.
    pub fn new(
        alloc: Global,
        version: u8,
        name: &[u8],
        pattern: InteractionPattern,
    ) -> Result<Self, TranscriptError>
        requires named { 1 ≤ length name.now }
        requires short { length name.now ≤ 62 }
        ensures ok { IfOk result (λ separator. separator_of separator
            ≡ record { version = version; name = name.now; chunks = []; pattern = pattern }) }
        ensures err { IfErr result (λ e. e ≡ OutOfMemory) }
    {
        let digest = pattern.pattern_hash::<D>()?;
        Ok(DomainSeparator {
            protocol_id: protocol_identifier(version, name),
            instance_label: Vec::new(alloc),
            pattern: Rc::new(alloc, pattern)?,
            digest,
            alphabet: PhantomData,
            hasher: PhantomData,
        })
    }

    /// Returns the identifier of the protocol, 64 bytes: its version, its name, zeros, and in the last byte the
    /// length of the name.
    pub fn protocol_id(&self) -> &[u8; PROTOCOL_ID_LEN]
        ensures { result.now ≡ self.now.protocol_id }
    {
        &self.protocol_id
    }

    /// Returns the label of the instance: its chunks, each after its length in four bytes, highest first.
    pub fn instance_label(&self) -> &[u8]
        ensures { result.now ≡ self.now.instance_label.items }
    {
        self.instance_label.as_slice()
    }

    /// Returns the pattern of the protocol.
    pub fn pattern(&self) -> &Rc<InteractionPattern>
        ensures { result.now ≡ self.now.pattern }
    {
        &self.pattern
    }

    /// Adds a chunk at the end of the instance's label, after its length in four bytes, highest first. So no two
    /// lists of chunks have the same label.
    ///
    /// The errors are [`TranscriptError::LabelTooLong`], where the label would have 2^32 bytes or more, and
    /// [`TranscriptError::OutOfMemory`]. Both leave the separator as it is. The Rust crate chains calls and panics on
    /// a chunk of 2^32 bytes. It lets a label grow beyond that length.
    pub fn instance(&mut self, chunk: &[u8]) -> Result<(), TranscriptError>
        ensures ok { OnOk result
            (self.new.instance_label.items ≡ self.old.instance_label.items ++ counted chunk.now) }
        ensures err { IfErr result (λ e. RefusesChunk (length self.old.instance_label.items + 4 +
            length chunk.now) e × (self.new.instance_label.items ≡ self.old.instance_label.items)) }
        ensures rest { (self.new.protocol_id ≡ self.old.protocol_id)
            × (self.new.pattern ≡ self.old.pattern) }
        // The length of a chunk that is taken fits in its four bytes, and so does that of the label.
        ensures fits { OnOk result
            (FitsCount chunk.now × (length self.new.instance_label.items < 2 ^ 32)) }
        // The separator has this chunk more, or is the same.
        ensures chunks { OnOk result (separator_of self.new ≡ record (separator_of self.old) {
          chunks = (separator_of self.old).chunks ++ (chunk.now ∷ []);
        }) }
        ensures same { OnErr result (separator_of self.new ≡ separator_of self.old) }
    {
        let added = COUNT_LEN.saturating_add(chunk.len());
        if added > MAX_LABEL_LEN - self.instance_label.len() {
            return Err(TranscriptError::LabelTooLong);
        }
        push_counted(&mut self.instance_label, chunk)?;
        Ok(())
    }

    /// Two separators compare equal exactly where they have the same version, name, chunks and pattern. This is the
    /// case exactly where they have the same identifier, label and steps.
    ///
    /// A law: the body does nothing, and a caller cites the clause.
    pub fn compared_by_parts(&self, other: &Self)
        ensures exact { ⟦<DomainSeparator<U, D> as PartialEq>⟧.eq self.now other.now ≡ true
            ↔ separator_of self.now ≡ separator_of other.now }
        ensures parts { ⟦<DomainSeparator<U, D> as PartialEq>⟧.eq self.now other.now ≡ true
            ↔ ((self.now.protocol_id ≡ other.now.protocol_id)
            × (self.now.instance_label.items ≡ other.now.instance_label.items)
            × (steps_of self.now.pattern.value ≡ steps_of other.now.pattern.value)) }
    {
        InteractionPattern::compared_by_steps();
    }

    /// Returns an equal separator, which shares the pattern.
    ///
    /// The one error is [`TranscriptError::OutOfMemory`]. The Rust crate's `Clone` returns no error.
    pub fn clone(&self) -> Result<Self, TranscriptError>
        ensures ok { IfOk result (λ copy. separator_of copy ≡ separator_of self.now) }
        ensures err { IfErr result (λ e. e ≡ OutOfMemory) }
    {
        Ok(DomainSeparator {
            protocol_id: self.protocol_id,
            instance_label: self.instance_label.clone()?,
            pattern: self.pattern.clone()?,
            digest: self.digest,
            alphabet: PhantomData,
            hasher: PhantomData,
        })
    }
}

impl<U: Unit, D: DigestHasher> DomainSeparator<U, D> {
    ghost use Rattle.p3_domain_separator.specs.SeparatorSeed.{held_of, seed_parts, seed_of_separator};

    /// Observes the seed as one byte string. The seed is the identifier, the digest of the pattern, the label after
    /// its length in four bytes, highest first, and a byte 0x80.
    ///
    /// Conditions: `U` is an alphabet, in the sense of [`Unit::observe_bytes`].
    ///
    /// The errors are [`ChallengerError::TooLong`](p3_challenger_core::ChallengerError::TooLong) in
    /// [`TranscriptError::Challenger`], with nothing absorbed, and [`TranscriptError::OutOfMemory`]. The latter
    /// leaves the challenger as it is, or as [`Unit::observe_bytes`] leaves it. In the Rust crate this function
    /// returns no error.
    pub fn seed<C: CanObserve<U::Item>>(&self, challenger: &mut C) -> Result<(), TranscriptError>
        requires { U.is_alphabet }
        ensures ok { let seed = seed_of_separator D.digest_of self.now in
            OnOk result ((U.is_too_long (length seed) → ⊥) × (C.state challenger.new
            ≡ observed_all C.observation.observed (C.state challenger.old) (U.items seed))) }
        ensures err { let seed = seed_of_separator D.digest_of self.now in
            IfErr result (λ e. RefusesSeed (U.is_too_long (length seed))
            (LeavesItems C.observation C.slice_may_leave (C.state challenger.old) (U.items seed))
            (C.state challenger.old) e (C.state challenger.new)) }
        // What is observed is what the items feed; exactly so, where the challenger feeds them as a prefix code.
        ensures fed { OnOk result (IsFed C.fed (C.state challenger.old)
            (flat_map C.observation.symbols (U.items (seed_of_separator D.digest_of self.now)))
            (C.state challenger.new)) }
        ensures fed_exactly { IsPrefixCodeOn U.is_item C.observation.symbols →
            OnOk result (C.state challenger.new ≡ C.fed (C.state challenger.old)
            (flat_map C.observation.symbols (U.items (seed_of_separator D.digest_of self.now)))) }
        // The seed is that of an identifier, a digest and a label.
        ensures parts { OnOk result (AreSeedParts (seed_parts D.digest_of (held_of self.now))) }
    {
        let seed = self.seed_bytes()?;
        U::observe_bytes(challenger, &seed)?;
        Ok(())
    }

    // The bytes of the seed.
    fn seed_bytes(&self) -> Result<Vec<u8>, TranscriptError>
        ensures bytes { IfOk result (λ seed. seed.items ≡ seed_of_separator D.digest_of self.now) }
        ensures err { IfErr result (λ e. e ≡ OutOfMemory) }
        ensures parts { OnOk result (AreSeedParts (seed_parts D.digest_of (held_of self.now))) }
    {
        let len = PROTOCOL_ID_LEN + DIGEST_LEN + COUNT_LEN + self.instance_label.len() + 1;
        let mut seed = Vec::with_capacity(*self.instance_label.allocator(), len)?;
        seed.extend_from_slice(self.protocol_id())?;
        seed.extend_from_slice(&self.digest)?;
        push_counted(&mut seed, self.instance_label())?;
        seed.push(CLOSING_BYTE)?;
        Ok(seed)
    }
}

// Adds a byte string after its length in four bytes. Where memory is refused, nothing is added.
fn push_counted(bytes: &mut Vec<u8>, added: &[u8]) -> Result<(), AllocError>
    requires { FitsCount added.now }
    ensures ok { OnOk result (bytes.new.items ≡ bytes.old.items ++ counted added.now) }
    ensures err { OnErr result (bytes.new.items ≡ bytes.old.items) }
{
    // Room for both parts is asked for first: where it is refused, neither is added.
    bytes.reserve(COUNT_LEN + added.len())?;
    let count = added.len() as u32;
    bytes.extend_from_slice(&count.to_be_bytes())?;
    bytes.extend_from_slice(added)?;
    Ok(())
}

// The identifier of a protocol.
fn protocol_identifier(version: u8, name: &[u8]) -> [u8; PROTOCOL_ID_LEN]
    requires { length name.now ≤ 62 }
    ensures { result ≡ identifier version name.now }
{
    let mut protocol_id = [0; PROTOCOL_ID_LEN];
    protocol_id[0] = version;
    protocol_id[1..=name.len()].copy_from_slice(name);
    protocol_id[PROTOCOL_ID_LEN - 1] = name.len() as u8;
    protocol_id
}

/// An identifier of a protocol determines its version and its name.
///
/// A law: the body is empty, and a caller cites the clause.
#[tactic(auto, using(crate::specs::SeedLaws::identifier_injective))]
pub fn identifiers_are_injective()
    ensures { (v w : ℕ) (a b : List ℕ) → length a ≤ 62 → length b ≤ 62 →
        identifier v a ≡ identifier w b → (v ≡ w) × (a ≡ b) }
{}

/// A label of an instance determines its list of chunks.
///
/// A law: the body is empty, and a caller cites the clause.
#[tactic(auto, using(crate::specs::SeedLaws::label_injective))]
pub fn labels_are_injective()
    ensures { (x y : List (List ℕ)) → All FitsCount x → All FitsCount y → label_of x ≡ label_of y →
        x ≡ y }
{}

/// A seed determines its identifier, its digest and its label, whatever follows it.
///
/// A law: the body is empty, and a caller cites the clause.
#[tactic(auto, using(crate::specs::SeedLaws::seed_prefix_code))]
pub fn seeds_are_prefix_code()
    ensures { IsPrefixCodeOn AreSeedParts seed_of_parts }
{}
