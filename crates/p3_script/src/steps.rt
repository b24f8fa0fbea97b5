//! The steps of a script, and what is sent, received and drawn at them.
use crate::suite::Suite;
use p3_fs_core::{Kind, Label};

/// A step of a script: a call of one driver method, with its arguments except the values that are sent. Not in the Rust
/// crate.
#[derive(Drop)]
pub enum Step<S: Suite> {
    /// Opens a container.
    Begin {
        label: Label,
        kind: Kind,
    },
    /// Closes the innermost container.
    End {
        label: Label,
        kind: Kind,
    },
    /// Sends `len` bytes that hide what is sent later.
    Salt {
        label: Label,
        len: usize,
    },
    /// Sends `len` bytes.
    Bytes {
        label: Label,
        len: usize,
    },
    /// Sends `len` bytes, which the challenger does not observe.
    Hint {
        label: Label,
        len: usize,
    },
    /// Sends at most `max` bytes, after their count.
    BytesBounded {
        label: Label,
        max: usize,
    },
    /// Sends at most `max` bytes, after their count. The challenger does not observe them.
    HintBounded {
        label: Label,
        max: usize,
    },
    /// Observes a scalar that both sides know.
    PublicScalar {
        label: Label,
        value: S::Field,
    },
    /// Observes scalars that both sides know.
    PublicScalars {
        label: Label,
        values: Vec<S::Field>,
    },
    /// Observes at most `max` scalars that both sides know, after their count.
    PublicScalarsBounded {
        label: Label,
        values: Vec<S::Field>,
        max: usize,
    },
    /// Sends a scalar.
    Scalar {
        label: Label,
    },
    /// Sends `n` scalars.
    Scalars {
        label: Label,
        n: usize,
    },
    /// Sends at most `max` scalars, after their count.
    ScalarsBounded {
        label: Label,
        max: usize,
    },
    /// Sends an element of the extension.
    Extension {
        label: Label,
    },
    /// Observes an element of the extension that the proof does not carry.
    ObserveExtension {
        label: Label,
        value: S::Extension,
    },
    /// Observes elements of the extension that the proof does not carry.
    ObserveExtensions {
        label: Label,
        values: Vec<S::Extension>,
    },
    /// Observes at most `max` elements of the extension that the proof does not carry, after their count.
    ObserveExtensionsBounded {
        label: Label,
        values: Vec<S::Extension>,
        max: usize,
    },
    /// Observes a value that the proof does not carry, in the challenger's own way.
    Opaque {
        label: Label,
        value: S::Opaque,
    },
    /// Draws a scalar.
    ChallengeScalar {
        label: Label,
    },
    /// Draws `n` scalars.
    ChallengeScalars {
        label: Label,
        n: usize,
    },
    /// Draws an element of the extension.
    ChallengeExtension {
        label: Label,
    },
    /// Draws `n` elements of the extension.
    ChallengeExtensions {
        label: Label,
        n: usize,
    },
    /// Draws elements of the extension until the rule has accepted `n` of them. The draw limit is met once the rule has
    /// refused `limit` elements in a row.
    ChallengeExtensionsRejecting {
        label: Label,
        n: usize,
        accept: S::Accept,
        limit: u64,
    },
    /// Draws `n` numbers of `width` bits.
    ChallengeBits {
        label: Label,
        width: usize,
        n: usize,
    },
    /// Draws `n` numbers of `width` uniform bits.
    ChallengeUniformBits {
        label: Label,
        width: usize,
        n: usize,
    },
    /// Draws numbers of `width` uniform bits until the rule has accepted `n` of them. The draw limit is met once the
    /// rule has refused `limit` numbers in a row.
    ChallengeUniformBitsRejecting {
        label: Label,
        width: usize,
        n: usize,
        accept: S::Accept,
        limit: u64,
    },
    /// Does a proof of work of `bits` bits, whose witness the proof carries.
    Pow {
        label: Label,
        bits: usize,
    },
    /// Does a proof of work of `bits` bits, whose witness the caller carries to the verifier.
    ObservePow {
        label: Label,
        bits: usize,
    },
}

/// What a prover sends at a step. Not in the Rust crate.
#[derive(Drop)]
pub enum Sent<S: Suite> {
    /// At `Salt`, `Bytes`, `Hint`, `BytesBounded` and `HintBounded`.
    Bytes(Vec<u8>),
    /// At `Scalar`.
    Scalar(S::Field),
    /// At `Scalars` and `ScalarsBounded`.
    Scalars(Vec<S::Field>),
    /// At `Extension`.
    Extension(S::Extension),
}

/// What a verifier receives at a step. Bytes are borrowed from the proof. Not in the Rust crate.
#[derive(Drop)]
pub enum Received<'a, S: Suite> {
    /// At `Salt`, `Bytes`, `Hint`, `BytesBounded` and `HintBounded`.
    Bytes(&'a [u8]),
    /// At `Scalar`.
    Scalar(S::Field),
    /// At `Scalars` and `ScalarsBounded`.
    Scalars(Vec<S::Field>),
    /// At `Extension`.
    Extension(S::Extension),
    /// At `Pow`.
    Witness(S::Field),
}

/// What is drawn at a step: always a list, even of a single value. Not in the Rust crate.
#[derive(Drop)]
pub enum Drawn<S: Suite> {
    /// At `ChallengeScalar` and `ChallengeScalars`.
    Scalars(Vec<S::Field>),
    /// At `ChallengeExtension`, `ChallengeExtensions` and `ChallengeExtensionsRejecting`.
    Extensions(Vec<S::Extension>),
    /// At `ChallengeBits`, `ChallengeUniformBits` and `ChallengeUniformBitsRejecting`.
    Bits(Vec<usize>),
}
