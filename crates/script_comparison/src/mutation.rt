// Random changes of a proof.
use anyhow::Result;
use rand_core::Rng;
use rand_xoshiro::Xoshiro256PlusPlus;

// How many bytes are put in or taken out at most.
const PIECE: usize = 9;

/// Changes a proof of elements below the order, which have so many bytes each: a bit or a byte becomes another, bytes are
/// taken out or put in, at the end too, two parts change places, a count is raised, or a number becomes itself plus the
/// order.
pub fn change(
    rng: &mut Xoshiro256PlusPlus,
    proof: &mut Vec<u8>,
    order: u64,
    width: usize,
) -> Result<()> {
    let len = proof.len();
    match below(rng, 8) {
        0 => flip(rng, proof),
        1 => put_byte(rng, proof),
        2 => proof.truncate(below(rng, len)),
        3 => take_out(rng, proof)?,
        4 => put_in(rng, proof)?,
        5 => change_places(rng, proof),
        6 => raise(rng, proof),
        _ => add_order(rng, proof, order, width),
    }
    Ok(())
}

/// A number below this one, or 0 where there is none.
pub fn below(rng: &mut Xoshiro256PlusPlus, bound: usize) -> usize {
    match rng.next_u64().checked_rem(bound as u64) {
        Some(number) => number as usize,
        None => 0,
    }
}

// The byte at a random place.
fn some_byte<'a>(rng: &mut Xoshiro256PlusPlus, proof: &'a mut Vec<u8>) -> Option<&'a mut u8> {
    let place = below(rng, proof.len());
    proof.as_mut_slice().get_mut(place)
}

fn flip(rng: &mut Xoshiro256PlusPlus, proof: &mut Vec<u8>) {
    let masks = [1, 2, 4, 8, 16, 32, 64, 128];
    let mask = masks[below(rng, 8) % 8];
    if let Some(byte) = some_byte(rng, proof) {
        *byte ^= mask;
    }
}

fn put_byte(rng: &mut Xoshiro256PlusPlus, proof: &mut Vec<u8>) {
    let values = [0, 1, 255, (rng.next_u64() % 256) as u8];
    let value = values[below(rng, 4) % 4];
    if let Some(byte) = some_byte(rng, proof) {
        *byte = value;
    }
}

fn raise(rng: &mut Xoshiro256PlusPlus, proof: &mut Vec<u8>) {
    if let Some(byte) = some_byte(rng, proof) {
        *byte = byte.wrapping_add(1);
    }
}

// The bytes up to a place, those between it and another one, and those after that.
fn parts<'a>(rng: &mut Xoshiro256PlusPlus, proof: &'a [u8]) -> (&'a [u8], &'a [u8], &'a [u8]) {
    let place = below(rng, proof.len()).min(proof.len());
    let (first, rest) = proof.split_at(place);
    let len = below(rng, PIECE).min(rest.len());
    let (second, third) = rest.split_at(len);
    (first, second, third)
}

fn take_out(rng: &mut Xoshiro256PlusPlus, proof: &mut Vec<u8>) -> Result<()> {
    let mut bytes = Vec::new(*proof.allocator());
    let (first, _, third) = parts(rng, proof.as_slice());
    bytes.extend_from_slice(first)?;
    bytes.extend_from_slice(third)?;
    *proof = bytes;
    Ok(())
}

// As many bytes as the part after a place has, and at least one.
fn put_in(rng: &mut Xoshiro256PlusPlus, proof: &mut Vec<u8>) -> Result<()> {
    let mut bytes = Vec::new(*proof.allocator());
    let more = rng.next_u64().to_le_bytes();
    let (first, second, third) = parts(rng, proof.as_slice());
    bytes.extend_from_slice(first)?;
    for byte in more.iter().take(second.len().max(1)) {
        bytes.push(*byte)?;
    }
    bytes.extend_from_slice(second)?;
    bytes.extend_from_slice(third)?;
    *proof = bytes;
    Ok(())
}

// A part changes places with one as long, where there is room for both.
fn change_places(rng: &mut Xoshiro256PlusPlus, proof: &mut Vec<u8>) {
    let (first, second) = (below(rng, proof.len()), below(rng, proof.len()));
    let len = proof.len();
    for k in 0..below(rng, PIECE) {
        let (one, other) = (first.saturating_add(k), second.saturating_add(k));
        if one < len && other < len {
            proof.swap(one, other);
        }
    }
}

// The number of so many bytes at a random place becomes itself plus the order, if it is still as long.
fn add_order(rng: &mut Xoshiro256PlusPlus, proof: &mut Vec<u8>, order: u64, width: usize) {
    let first = below(rng, proof.len().saturating_sub(width).saturating_add(1));
    let last = first.saturating_add(width);
    let mut carry = 0u16;
    if let Some(number) = proof.as_mut_slice().get_mut(first..last) {
        for (byte, more) in number.iter_mut().rev().zip(order.to_le_bytes()) {
            let sum = u16::from(*byte)
                .wrapping_add(u16::from(more))
                .wrapping_add(carry);
            *byte = (sum % 256) as u8;
            carry = sum >> 8;
        }
    }
}
