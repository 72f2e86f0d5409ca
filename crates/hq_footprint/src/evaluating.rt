//! What a task writes, computed.

ghost use Rattle.std.specs.Prelude.{◌≡◌, ◌+◌, ◌%◌, ◌^◌, ◌==◌, ◌++◌, length, reverse, sum, count_by, bit_xor};
ghost use Rattle.hq_footprint.specs.Tasks.{result_of, little_endian, joined_by, Suits, SuitsTwo};

use crate::task::Task;

/// The 8 bytes of a word, the least first.
fn word_bytes(word: u64) -> [u8; 8]
    ensures { result ≡ little_endian 8 word }
{
    word.to_le_bytes()
}

/// The bytes from the last to the first.
fn write_reversed(bytes: &[u8], out: &mut [u8])
    requires { length bytes.now ≡ length out.old }
    ensures { out.new ≡ reverse bytes.now }
{
    out.copy_from_slice(bytes);
    out.reverse();
}

/// The exclusive or, byte by byte.
fn write_xor(first: &[u8], second: &[u8], out: &mut [u8])
    requires first { length first.now ≡ length out.old }
    requires second { length second.now ≡ length out.old }
    ensures { out.new ≡ joined_by bit_xor first.now second.now }
{
    for (place, byte) in out.iter_mut().enumerate() {
        *byte = first[place] ^ second[place];
    }
}

/// The sum mod 256, byte by byte.
fn write_sums(first: &[u8], second: &[u8], out: &mut [u8])
    requires first { length first.now ≡ length out.old }
    requires second { length second.now ≡ length out.old }
    ensures { out.new ≡ joined_by (λ x y. (x + y) % 256) first.now second.now }
{
    for (place, byte) in out.iter_mut().enumerate() {
        *byte = first[place].wrapping_add(second[place]);
    }
}

/// The sum of the bytes mod 2^64.
fn sum_of(bytes: &[u8]) -> u64
    ensures { result ≡ sum bytes.now % 2 ^ 64 }
{
    let mut total = 0u64;
    for byte in bytes {
        total = total.wrapping_add(*byte as u64);
    }
    total
}

/// How many of the bytes equal this one.
fn count_of(bytes: &[u8], byte: u8) -> u64
    ensures { result ≡ count_by (λ x. x == byte) bytes.now }
{
    let mut count = 0u64;
    for other in bytes {
        if *other == byte {
            count += 1;
        }
    }
    count
}

/// Writes what a task makes of the bytes of its read ranges: `first`, and for xor and add `second`, which is else
/// empty.
pub fn evaluate_ranges(task: &Task, first: &[u8], second: &[u8], out: &mut [u8])
    requires { SuitsTwo task.now (length first.now) (length second.now) (length out.old) }
    ensures { out.new ≡ result_of task.now (length out.old) (first.now ++ second.now) }
{
    match task {
        Task::Fill(byte) => out.fill(*byte),
        Task::Copy => out.copy_from_slice(first),
        Task::Rev => write_reversed(first, out),
        Task::Xor => write_xor(first, second, out),
        Task::Add => write_sums(first, second, out),
        Task::Sum => out.copy_from_slice(&word_bytes(sum_of(first))),
        Task::Store64(word) => out.copy_from_slice(&word_bytes(*word)),
        Task::Count(byte) => out.copy_from_slice(&word_bytes(count_of(first, *byte))),
        Task::Nop => {}
    }
}

/// Writes what a task makes of the bytes that it read, its read ranges end to end.
pub fn evaluate(task: &Task, reads: &[u8], out: &mut [u8])
    requires { Suits task.now (length reads.now) (length out.old) }
    ensures { out.new ≡ result_of task.now (length out.old) reads.now }
{
    let middle = match task {
        Task::Xor | Task::Add => out.len(),
        _ => reads.len(),
    };
    let (first, second) = reads.split_at(middle);
    evaluate_ranges(task, first, second, out);
}
