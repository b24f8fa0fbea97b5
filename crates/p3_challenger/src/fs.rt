//! Typed transcripts: a prover and a verifier play the steps of one pattern over a challenger, and codecs encode the
//! values.
//!
//! ```text
//! Interaction ..  ->  InteractionPattern  ->  DomainSeparator  ->  ProverState    ->  the proof
//!                                                              ->  VerifierState  <-  the proof
//! ```
//!
//! `docs/GUIDE.md` lists the steps, with the method of each side and the record in the pattern. In [`script`] a whole
//! protocol is a list of steps, which one call plays.

pub mod script;

pub use p3_codecs::{
    AlphabetOf, BytesToFieldCodec, Codec, EXTRA_BYTES, ExtensionFieldCodec, FieldToFieldCodec,
    FieldUnit, MIN_CHALLENGE_SECURITY_BITS, ScalarCodec, Unit,
};
pub use p3_domain_separator::{DomainSeparator, PROTOCOL_ID_LEN};
pub use p3_driver_core::{SymmetricSteps, TranscriptBound};
pub use p3_drivers::{ProverState, VerifierState};
pub use p3_fs_core::{
    Alternate, Declared, Hierarchy, Interaction, InvalidKindInfo, Kind, Label, Length,
    MismatchedBeginEndInfo, MissingBeginInfo, MissingEndInfo, PatternError, TranscriptError,
    TranscriptField, TypeTag, bound_byte_width, decode_len_be, encode_len_be,
};
pub use p3_patterns::{InteractionPattern, Pattern, PatternPlayer, PatternState};
