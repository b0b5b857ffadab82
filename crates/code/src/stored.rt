// The stored form of code: n, v, m and D in four bytes each, the operations, the operands in eight bytes each,
// every number with its low byte first.
ghost use Rattle.std.specs.Prelude.{◌≡◌, ◌+◌, ◌*◌, ◌<◌, ◌≤◌, ◌++◌, length, map, take, drop, IfOk};
ghost use Rattle.std.specs.List.{flat_map};
ghost use Rattle.code.specs.Files.{Reloads, Restores, answer_of, bytes_of, file, header, load as loading, number_of, sizes_in, store as storing};

use crate::check::{Lent, are_lent_sizes_ok};
use crate::refusals::Refusal;
use crate::sizes::Sizes;

const HEADER: usize = 16;

// Copies the bytes into the buffer, from `at` on.
#[tactic(auto, using(std::proofs::lemmas::Slice::overwrites))]
fn write(buffer: &mut [u8], at: usize, bytes: &[u8])
    requires { at + length bytes.now ≤ length buffer.old }
    ensures front { take (at + length bytes.now) buffer.new ≡ take at buffer.old ++ bytes.now }
    ensures rest { drop (at + length bytes.now) buffer.new ≡ drop (at + length bytes.now) buffer.old }
{
    buffer[at..at + bytes.len()].copy_from_slice(bytes);
}

fn write_header(buffer: &mut [u8], sizes: Sizes)
    requires { 16 ≤ length buffer.old }
    ensures front { take 16 buffer.new ≡ header sizes }
    ensures rest { drop 16 buffer.new ≡ drop 16 buffer.old }
{
    write(buffer, 0, &sizes.operations.to_le_bytes());
    write(buffer, 4, &sizes.named.to_le_bytes());
    write(buffer, 8, &sizes.cells.to_le_bytes());
    write(buffer, 12, &sizes.depth.to_le_bytes());
}

// The operands are written by place: nothing is known of what a buffer holds after a walk over its `as_chunks_mut`.
fn write_operands(buffer: &mut [u8], at: usize, operands: &[u64])
    requires { at + 8 * length operands.now ≤ length buffer.old }
    ensures front { take (at + 8 * length operands.now) buffer.new ≡ take at buffer.old ++ flat_map (bytes_of 8) operands.now }
    ensures rest { drop (at + 8 * length operands.now) buffer.new ≡ drop (at + 8 * length operands.now) buffer.old }
{
    for (i, operand) in operands.iter().enumerate() {
        write(buffer, at + 8 * i, &operand.to_le_bytes());
    }
}

fn read_sizes(bytes: &[u8]) -> Sizes
    requires { 16 ≤ length bytes.now }
    ensures { result ≡ sizes_in bytes.now }
{
    let (words, _) = bytes.as_chunks::<4>();
    Sizes {
        operations: u32::from_le_bytes(words[0]),
        named: u32::from_le_bytes(words[1]),
        cells: u32::from_le_bytes(words[2]),
        depth: u32::from_le_bytes(words[3]),
    }
}

// Reads the words into the front of the array, by place: nothing is known of what it holds after a walk by
// `iter_mut().zip(..)`.
fn read_operands(words: &[[u8; 8]], operands: &mut [u64])
    requires { length words.now ≤ length operands.old }
    ensures { operands.new ≡ map number_of words.now ++ drop (length words.now) operands.old }
{
    for (place, word) in words.iter().enumerate() {
        operands[place] = u64::from_le_bytes(*word);
    }
}

// Stores code, the first n entries of both arrays, at the front of the buffer; answers the length of the file.
pub fn store(
    sizes: Sizes,
    operations: &[u8],
    operands: &[u64],
    buffer: &mut [u8],
) -> Result<usize, Refusal>
    ensures answer { storing sizes operations.now operands.now buffer.old ≡ record { answer = answer_of result; buffer = buffer.new } }
    ensures reloads { IfOk result (λ k. Reloads sizes operations.now operands.now (take k buffer.new)) }
{
    let code = Lent::new(sizes, operations, operands)?;
    let count = sizes.operations as usize;
    let length = HEADER + 9 * count;
    if buffer.len() < length {
        return Err(Refusal::ShortBuffer);
    }
    write_header(buffer, sizes);
    write(buffer, HEADER, code.operations);
    write_operands(buffer, HEADER + count, code.operands);
    Ok(length)
}

// Loads a file into the front of both arrays; answers its sizes.
pub fn load(bytes: &[u8], operations: &mut [u8], operands: &mut [u64]) -> Result<Sizes, Refusal>
    ensures answer { loading bytes.now operations.old operands.old ≡ record { answer = answer_of result; operations = operations.new; operands = operands.new } }
    ensures restores { IfOk result (λ s. Restores s operations.new operands.new bytes.now) }
{
    if bytes.len() < HEADER {
        return Err(Refusal::BadLength);
    }
    let sizes = read_sizes(bytes);
    let count = sizes.operations as usize;
    if bytes.len() != HEADER + 9 * count {
        return Err(Refusal::BadLength);
    }
    if !are_lent_sizes_ok(sizes, operations.len(), operands.len()) {
        return Err(Refusal::BadSizes);
    }
    write(operations, 0, &bytes[HEADER..HEADER + count]);
    let (words, _) = bytes[HEADER + count..].as_chunks::<8>();
    read_operands(words, operands);
    Ok(sizes)
}
