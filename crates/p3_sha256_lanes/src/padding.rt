// The padded message (FIPS 180-4, 5.1.1) and its words, read place by place from the message itself.
ghost use Rattle.std.specs.Prelude.{◌≡◌, ◌+◌, ◌*◌, ◌<◌, ◌≤◌, ℕ, length, slice_index, slice_range};
ghost use Rattle.sha2.specs.Sha256.{padded_message, padding, word_at};
ghost use Rattle.p3_sha256_lanes.specs.Padding.{padded_length, padding_length, zero_count};

use crate::words::Words;

// How many zero bytes stand in the padding, between the byte 0x80 and the length.
pub(crate) fn zero_count(message_length: usize) -> usize
    ensures { result ≡ zero_count message_length }
{
    (119 - message_length % 64) % 64
}

// The byte at a place of the padding that is in the length, which is in bits.
#[inline(always)]
fn length_byte(message_length: usize, place: usize) -> u8
    requires after_zeros { zero_count message_length < place }
    requires inside { place < padding_length message_length }
    ensures { result ≡ slice_index (padding message_length) place }
{
    let bytes = (message_length as u64).wrapping_mul(8).to_be_bytes();
    bytes[place - 1 - zero_count(message_length)]
}

// The byte at a place of the padding of a message of so many bytes.
fn padding_byte(message_length: usize, place: usize) -> u8
    requires { place < padding_length message_length }
    ensures { result ≡ slice_index (padding message_length) place }
{
    if place == 0 {
        return 0x80;
    }
    if place <= zero_count(message_length) {
        return 0;
    }
    length_byte(message_length, place)
}

// The word that begins at a place of the padding of a message of so many bytes.
#[inline(always)]
fn padding_word(message_length: usize, place: usize) -> u32
    requires { place + 4 ≤ padding_length message_length }
    ensures { result ≡ word_at (padding message_length) place }
{
    // Most words of a padding are zero.
    if place > 0 && place + 3 <= zero_count(message_length) {
        return 0;
    }
    if place == 0 && zero_count(message_length) >= 3 {
        return u32::from_be_bytes([0x80, 0, 0, 0]);
    }
    // Where the message ends with a word, so do the zeros.
    if place > zero_count(message_length) {
        return u32::from_be_bytes([
            length_byte(message_length, place),
            length_byte(message_length, place + 1),
            length_byte(message_length, place + 2),
            length_byte(message_length, place + 3),
        ]);
    }
    mixed_padding_word(message_length, place)
}

// The same where the word may have bytes of several parts of the padding. It is a call of its own, as is
// `padded_word`, so that the common words take few instructions.
#[inline(never)]
fn mixed_padding_word(message_length: usize, place: usize) -> u32
    requires { place + 4 ≤ padding_length message_length }
    ensures { result ≡ word_at (padding message_length) place }
{
    u32::from_be_bytes([
        padding_byte(message_length, place),
        padding_byte(message_length, place + 1),
        padding_byte(message_length, place + 2),
        padding_byte(message_length, place + 3),
    ])
}

// The byte at a place of the padded message.
fn padded_byte(message: &[u8], place: usize) -> u8
    requires { place < padded_length (length message.now) }
    ensures { result ≡ slice_index (padded_message message.now) place }
{
    if place < message.len() {
        message[place]
    } else {
        padding_byte(message.len(), place - message.len())
    }
}

// The word that begins at a place of the padded message.
#[inline(never)]
fn padded_word(message: &[u8], place: usize) -> u32
    requires { place + 4 ≤ padded_length (length message.now) }
    ensures { result ≡ word_at (padded_message message.now) place }
{
    u32::from_be_bytes([
        padded_byte(message, place),
        padded_byte(message, place + 1),
        padded_byte(message, place + 2),
        padded_byte(message, place + 3),
    ])
}

// The same where the word ends before the padding.
#[inline(always)]
fn message_word(message: &[u8], place: usize) -> u32
    requires { place + 4 ≤ length message.now }
    ensures { result ≡ word_at (padded_message message.now) place }
{
    u32::from_be_bytes([
        message[place],
        message[place + 1],
        message[place + 2],
        message[place + 3],
    ])
}

// The message of a lane: they are of one length, and stand one after another.
#[inline(always)]
fn message_in_lane(messages: &[u8], each: usize, lane: usize) -> &[u8]
    requires { lane * each + each ≤ length messages.now }
    ensures { result.now ≡ slice_range messages.now (lane * each) (lane * each + each) }
{
    &messages[lane * each..lane * each + each]
}

// The words that begin at a place of each of four messages, and end before the padding. They are read with no test.
#[inline(always)]
pub(crate) fn message_words(messages: &[u8], each: usize, place: usize) -> Words
    requires whole { length messages.now ≡ 4 * each }
    requires inside { place + 4 ≤ each }
    ensures { (lane : ℕ) → lane < 4 → slice_index result lane
        ≡ word_at (padded_message (slice_range messages.now (lane * each) (lane * each + each))) place }
{
    Words::from_array([
        message_word(message_in_lane(messages, each, 0), place),
        message_word(message_in_lane(messages, each, 1), place),
        message_word(message_in_lane(messages, each, 2), place),
        message_word(message_in_lane(messages, each, 3), place),
    ])
}

// The words that begin at a place of each of four padded messages.
#[inline(always)]
pub(crate) fn padded_words(messages: &[u8], each: usize, place: usize) -> Words
    requires whole { length messages.now ≡ 4 * each }
    requires inside { place + 4 ≤ padded_length each }
    ensures { (lane : ℕ) → lane < 4 → slice_index result lane
        ≡ word_at (padded_message (slice_range messages.now (lane * each) (lane * each + each))) place }
{
    // Messages of one length have the same padding.
    if place >= each {
        return Words::splat(padding_word(each, place - each));
    }
    Words::from_array([
        padded_word(message_in_lane(messages, each, 0), place),
        padded_word(message_in_lane(messages, each, 1), place),
        padded_word(message_in_lane(messages, each, 2), place),
        padded_word(message_in_lane(messages, each, 3), place),
    ])
}
