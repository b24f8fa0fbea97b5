//! Alphabets and codecs, which turn values into symbols for the sponge and into bytes of the proof.
//!
//! The rule of a draw from bytes and its bits of security are those of the IETF draft on Fiat-Shamir
//! (draft-irtf-cfrg-fiat-shamir). The Rust crate follows the draft too.
//!
//! A law is a function without effect whose contract a caller cites. The Rust crate has none.
#![tactic(auto)]

mod bytes_to_field;
mod codec;
mod extension;
mod field_to_field;
mod unit;

pub use bytes_to_field::{BytesToFieldCodec, EXTRA_BYTES};
pub use codec::{Codec, MIN_CHALLENGE_SECURITY_BITS, ScalarCodec};
pub use extension::ExtensionFieldCodec;
pub use field_to_field::FieldToFieldCodec;
pub use unit::{AlphabetOf, FieldUnit, Unit, symbols_begin};
