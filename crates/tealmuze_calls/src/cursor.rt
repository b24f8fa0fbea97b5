//! Bytes that are read from the front.
ghost use Rattle.std.specs.Prelude.{◌≡◌, ◌<◌, ◌↔◌, ◌∷◌, ◌++◌, [], length, map, IfOk, IfErr, OnErr, IsTrue, flat_map};
ghost use Rattle.std.specs.Str.{IsUtf8};
ghost use Rattle.tealmuze_calls.specs.Forms.{number_bytes, text_bytes, counted_bytes, listed_bytes};
ghost use Rattle.tealmuze_calls.specs.Readings.{FitsWord, IsListHeld, AreSoMany};
ghost use Rattle.tealmuze_calls.specs.Errors.{IsDueTo, BeginsWithNone};

use crate::unanswered::Unanswered;
use std::alloc::Global;

/// The bytes that are left to read.
#[derive(Clone, Copy, Debug)]
pub struct Cursor<'a> {
    left: &'a [u8],
}

impl<'a> Cursor<'a> {
    /// All of these bytes.
    pub fn new(left: &'a [u8]) -> Cursor<'a>
        ensures { result.left.now ≡ left.now }
    {
        Cursor { left }
    }

    /// The next bytes, so many.
    pub fn bytes(&mut self, count: usize) -> Result<&'a [u8], Unanswered>
        ensures read { IfOk result (λ head. self.old.left.now ≡ head.now ++ self.new.left.now) }
        ensures count { IfOk result (λ head. length head.now ≡ count) }
        ensures err { OnErr result (length self.old.left.now < count) }
    {
        match self.left.split_at_checked(count) {
            Some((head, left)) => {
                self.left = left;
                Ok(head)
            }
            None => Err(Unanswered::Ends),
        }
    }

    /// The next byte.
    pub fn byte(&mut self) -> Result<u8, Unanswered>
        ensures read { IfOk result (λ byte. self.old.left.now ≡ byte ∷ self.new.left.now) }
        ensures err { OnErr result (self.old.left.now ≡ []) }
    {
        match self.left {
            [byte, left @ ..] => {
                self.left = left;
                Ok(*byte)
            }
            [] => Err(Unanswered::Ends),
        }
    }

    /// The next number, of 8 bytes, the lowest first.
    pub fn number(&mut self) -> Result<u64, Unanswered>
        ensures read { IfOk result (λ number. self.old.left.now ≡ number_bytes number ++ self.new.left.now) }
        ensures err { OnErr result (length self.old.left.now < 8) }
    {
        match self.left.split_first_chunk::<8>() {
            Some((head, left)) => {
                self.left = left;
                Ok(number_of(*head))
            }
            None => Err(Unanswered::Ends),
        }
    }

    /// The next bytes, after their number.
    pub fn counted(&mut self) -> Result<&'a [u8], Unanswered>
        ensures held { IfOk result (λ bytes. FitsWord (length bytes.now)) }
        ensures read { IfOk result (λ bytes. self.old.left.now ≡ counted_bytes bytes.now ++ self.new.left.now) }
        ensures err { OnErr result
            (BeginsWithNone (λ bytes. FitsWord (length bytes)) counted_bytes self.old.left.now) }
    {
        let count = self.number()?;
        self.bytes(count as usize)
    }

    /// The next text, after its length in one byte.
    pub fn text(&mut self) -> Result<&'a str, Unanswered>
        ensures held { IfOk result (λ text. IsUtf8 text.now) }
        ensures read { IfOk result (λ text. self.old.left.now ≡ text_bytes text.now ++ self.new.left.now) }
        ensures err { OnErr result (BeginsWithNone IsUtf8 text_bytes self.old.left.now) }
    {
        let len = self.byte()?;
        let bytes = self.bytes(len as usize)?;
        match std::str::from_utf8(bytes) {
            Ok(text) => Ok(text),
            Err(_) => Err(Unanswered::NoText),
        }
    }

    /// The next numbers, after how many they are.
    pub fn numbers(&mut self, alloc: Global) -> Result<Vec<u64>, Unanswered>
        ensures held { IfOk result (λ numbers. IsListHeld FitsWord numbers.items) }
        ensures read { IfOk result (λ numbers.
            self.old.left.now ≡ listed_bytes number_bytes numbers.items ++ self.new.left.now) }
        ensures err { IfErr result
            (IsDueTo (BeginsWithNone (IsListHeld FitsWord) (listed_bytes number_bytes) self.old.left.now)) }
    {
        let count = self.number()?;
        self.so_many(alloc, count as usize)
    }

    /// The next numbers, so many.
    pub fn so_many(&mut self, alloc: Global, count: usize) -> Result<Vec<u64>, Unanswered>
        ensures held { IfOk result (λ numbers. IsListHeld FitsWord numbers.items) }
        ensures read { IfOk result (λ numbers.
            self.old.left.now ≡ flat_map number_bytes numbers.items ++ self.new.left.now) }
        ensures count { IfOk result (λ numbers. length numbers.items ≡ count) }
        ensures err { IfErr result
            (IsDueTo (BeginsWithNone (AreSoMany count FitsWord) (flat_map number_bytes) self.old.left.now)) }
    {
        let mut numbers = Vec::new(alloc);
        for read in 0..count {
            numbers.push(self.number()?)?;
        }
        Ok(numbers)
    }

    /// Whether none is left.
    pub fn is_empty(&self) -> bool
        ensures { IsTrue result ↔ self.now.left.now ≡ [] }
    {
        self.left.is_empty()
    }
}

// The number of 8 bytes, the lowest first.
fn number_of(bytes: [u8; 8]) -> u64
    ensures { number_bytes result ≡ bytes }
{
    u64::from_le_bytes(bytes)
}
