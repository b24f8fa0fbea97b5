//! Byte strings as elements of a field.
ghost use Rattle.std.specs.Prelude.{◌≡◌, ◌<◌, ◌≤◌, ◌*◌, ◌^◌, true, ◌++◌, length, take, drop, OnOk, IfOk, IfErr};
ghost use Rattle.std.specs.Mem.{type_size};
ghost use Rattle.p3_challenger_core.specs.{CallLaws.GoesOn, Observation.{observed_all, LeavesInCalls, RefusesObserve}};
ghost use Rattle.p3_fs_core.specs.Packing.{packed_chunks, packed_elements, chunk_bytes, little_endian};

use crate::little_endian::number_of_chunk;
use p3_challenger_core::{CanObserve, ChallengerError};
use p3_field_core::PrimeField64;
use std::alloc::Layout;

// How many elements are observed at once.
const BLOCK_LEN: usize = 64;

// How many bytes a chunk has.
fn bytes_per_element<F: PrimeField64>() -> usize
    requires { 256 < F.residues.order }
    ensures size { result ≡ chunk_bytes F.bit_length }
    ensures positive { 0 < result }
    ensures most { result ≤ 8 }
{
    (F::bits() - 1) / 8
}

// The element that a chunk is: its number is below the order.
fn element_of_chunk<F: PrimeField64>(chunk: &[u8]) -> F
    requires order { 256 < F.residues.order }
    requires short { length chunk.now ≤ chunk_bytes F.bit_length }
    ensures { result ≡ F.residues.of (little_endian chunk.now) }
{
    F::from_canonical(number_of_chunk(chunk))
}

// Writes the elements of the first whole chunks over the front of `elements`, as many as there are or as it has
// places. Gives how many.
fn pack_chunks<F: PrimeField64>(elements: &mut [F], bytes: &[u8], size: usize) -> usize
    requires order { 256 < F.residues.order }
    requires size { size ≡ chunk_bytes F.bit_length }
    requires positive { 0 < size }
    ensures fits { result ≤ length elements.old }
    ensures whole { size * result ≤ length bytes.now }
    ensures some { 0 < length elements.old → size ≤ length bytes.now → 0 < result }
    ensures packed { packed_chunks F.residues size bytes.now ≡ take result elements.new
        ++ packed_chunks F.residues size (drop (size * result) bytes.now) }
{
    let count = elements.len().min(bytes.len() / size);
    for i in 0..count {
        let start = size * i;
        elements[i] = element_of_chunk(&bytes[start..start + size]);
    }
    count
}

// Whether a block of elements fits in memory, as it does in every field that there is. The compiler knows.
fn block_fits<F: PrimeField64>() -> bool
    ensures { result ≡ true → type_size F.row * BLOCK_LEN < 2 ^ 63 }
{
    Layout::array::<F>(BLOCK_LEN).is_ok()
}

// Observes whole chunks, in blocks of elements. Gives the bytes after those chunks.
fn observe_blocks<'a, F: PrimeField64, C: CanObserve<F>>(
    challenger: &mut C,
    bytes: &'a [u8],
) -> Result<&'a [u8], ChallengerError>
    requires { 256 < F.residues.order }
    ensures ok { IfOk result (λ rest. GoesOn C.observation.observed C.observation.may_leave
        (C.state challenger.old) (packed_chunks F.residues (chunk_bytes F.bit_length) bytes.now)
        (C.state challenger.new) (packed_chunks F.residues (chunk_bytes F.bit_length) rest.now)) }
    ensures err { IfErr result
        (λ e. RefusesObserve (LeavesInCalls C.observation.observed C.observation.may_leave
        (C.state challenger.old) (packed_chunks F.residues (chunk_bytes F.bit_length) bytes.now)) e
        (C.state challenger.new)) }
{
    if !block_fits::<F>() {
        return Ok(bytes);
    }
    let size = bytes_per_element::<F>();
    let mut elements = [F::ZERO; BLOCK_LEN];
    let mut rest = bytes;
    while rest.len() >= size {
        let count = pack_chunks(&mut elements[..], rest, size);
        challenger.observe_slice(&elements[..count])?;
        let (_, after) = rest.split_at(size * count);
        rest = after;
    }
    Ok(rest)
}

// Observes the length of a byte string, and then its chunks, in blocks of elements: no memory is taken beside
// what the challenger takes.
pub(crate) fn observe_packed<F: PrimeField64, C: CanObserve<F>>(
    challenger: &mut C,
    bytes: &[u8],
) -> Result<(), ChallengerError>
    requires { 256 < F.residues.order }
    ensures ok { OnOk result (C.state challenger.new ≡ observed_all C.observation.observed
        (C.state challenger.old) (packed_elements F.residues F.bit_length bytes.now)) }
    ensures err { IfErr result (λ e. RefusesObserve
        (LeavesInCalls C.observation.observed C.observation.may_leave (C.state challenger.old)
        (packed_elements F.residues F.bit_length bytes.now)) e (C.state challenger.new)) }
{
    challenger.observe(F::from_u64(bytes.len() as u64))?;
    let rest = observe_blocks(challenger, bytes)?;
    for chunk in rest.chunks(bytes_per_element::<F>()) {
        challenger.observe(element_of_chunk(chunk))?;
    }
    Ok(())
}
