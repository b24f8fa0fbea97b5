//! The symbols fed to a multi-field challenger: scalars, and digests with all their words.
use std::marker::Model;

/// The view of contracts on what a multi-field challenger absorbs at once: a scalar, or a digest with all its
/// words.
///
/// A digest is one symbol, and not one for each word. Its words are absorbed in blocks, each with its own count, so
/// two digests of one word differ from one digest of two words.
///
/// Not in the Rust crate.
#[derive(Drop)]
pub struct MultiFieldSymbol<F, PF> {
    // The scalar; `None` for a digest.
    scalar: Option<F>,
    words: Vec<PF>,
}

impl<F, PF> Model for MultiFieldSymbol<F, PF> {
    ghost use Rattle.p3_multi_field.specs.MultiFieldCalls.{Symbol, symbol_of};

    ghost Value = { Symbol F PF };

    ghost view = { λ s. symbol_of s.scalar s.words.items };
}
