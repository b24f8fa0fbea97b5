//! The parts of typed transcripts: steps and their types, errors, and the encodings of field elements, byte
//! strings and counts.
//!
//! A law is a function without effect whose contract a caller cites. The Rust crate has none.
#![tactic(auto)]

mod big_endian;
mod declared;
mod error;
mod interaction;
mod length_prefix;
mod little_endian;
mod packing;
mod step;
mod transcript_field;

pub use declared::Declared;
pub use error::{
    InvalidKindInfo, MismatchedBeginEndInfo, MissingBeginInfo, MissingEndInfo, PatternError,
    TranscriptError,
};
pub use interaction::{Alternate, Interaction, Label};
pub use length_prefix::{bound_byte_width, counts_are_prefix_code, decode_len_be, encode_len_be};
pub use step::{Hierarchy, Kind, Length, TypeTag};
pub use transcript_field::TranscriptField;
