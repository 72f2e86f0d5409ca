//! Which parts of memory packets write and touch, as far as that tells at once that two of them don't conflict.

ghost use Rattle.std.specs.Prelude.{◌≡◌, ℕ, ◌+◌, ◌%◌, ◌^◌, ◌<◌, ◌≤◌, IsTrue, IfOk, All, length};
ghost use Rattle.std.specs.Int.{bit_at};
ghost use Rattle.hq_job.specs.Plan.{plan};
ghost use Rattle.hq_model.specs.Job.{IsPacket};
ghost use Rattle.hq_bits.specs.Bits.{has};
ghost use Rattle.hq_parts.specs.Parts.{HasRange, HasFoot, TellConflicts, IsTable, AreTables, AreParts, AreOthers};
ghost use Rattle.hq_parts.specs.Parts.{IsApart, LeftOf, NeverConflict, TakesRows};

use hq_bits::{WIDTH, WORDS, column_of, first_from, lowest, remove, turn_word, unite, without};
use hq_footprint::{Footprint, Range};
use hq_job::Job;
use std::alloc::{AllocError, Global};

/// How many parts there are: byte x lies in part x / size mod 64.
const PARTS: u64 = 64;

/// How many words a row of bits for each part takes.
const TABLE: usize = PARTS as usize * WORDS;

/// The parts in which a packet writes, and those in which it reads or writes, as bits.
#[derive(Clone, Copy, Debug)]
struct Touch {
    written: u64,
    touched: u64,
}

/// From the first of these parts on, so many more.
fn run_of_parts(first: u64, more: u64) -> u64
    requires few { more < 64 }
    requires last { first + more < 2 ^ 64 }
    ensures { (k : ℕ) → first ≤ k → k ≤ first + more → bit_at result (k % 64) ≡ 1 }
{
    let mut parts = 0;
    for step in 0..more + 1 {
        parts |= 1 << ((first + step) % PARTS);
    }
    parts
}

/// The parts in which a range has bytes, where a part has so many.
fn parts_of(size: u64, range: Range) -> u64
    requires { 0 < size }
    ensures { HasRange size result range }
{
    if range.len == 0 {
        return 0;
    }
    let Some(last) = range.at.checked_add(range.len - 1) else {
        return u64::MAX;
    };
    let first = range.at / size;
    let more = last / size - first;
    if more < PARTS {
        run_of_parts(first, more)
    } else {
        u64::MAX
    }
}

/// The parts in which some ranges have bytes.
fn parts_over(size: u64, ranges: &[Range]) -> u64
    requires { 0 < size }
    ensures { All (HasRange size result) ranges.now }
{
    let mut parts = 0;
    for range in ranges {
        parts |= parts_of(size, *range);
    }
    parts
}

/// The parts of a footprint.
fn touch_of(size: u64, foot: &Footprint) -> Touch
    requires { 0 < size }
    ensures { HasFoot size result foot.now }
{
    let written = parts_of(size, foot.write);
    Touch {
        written,
        touched: parts_over(size, &foot.reads) | written,
    }
}

/// From the first address that packets write to the last: how long that is.
fn written_length(job: &Job) -> u64 {
    let mut low = u64::MAX;
    let mut high = 0;
    for packet in job.packets() {
        let range = packet.bytes.write;
        if range.len > 0 {
            low = low.min(range.at);
            high = high.max(range.at.saturating_add(range.len));
        }
    }
    high.saturating_sub(low)
}

/// The least number of bytes of a part, as a power of 2: where packets write few bytes in all, finer parts cost more
/// than they tell apart.
const LEAST_BITS: u32 = 3;

/// How many bytes a part has, a power of 2: mostly all parts together have just room for what packets write.
fn part_size(job: &Job) -> u64
    ensures { 0 < result }
{
    let least = written_length(job) / PARTS;
    let bits = 64u32.saturating_sub(least.leading_zeros());
    1 << bits.max(LEAST_BITS).min(63)
}

/// The parts of each packet, where a part has so many bytes.
fn touches_of(alloc: Global, job: &Job, size: u64) -> Result<Vec<Touch>, AllocError>
    requires { 0 < size }
    ensures { IfOk result (λ touches. TellConflicts (plan job.now) touches.items) }
{
    let mut touches = Vec::with_capacity(alloc, job.packets().len())?;
    for packet in job.packets() {
        touches.push(touch_of(size, &packet.bytes))?;
    }
    Ok(touches)
}

/// For each part a row of bits: the packets that write in it, and those that touch it.
#[derive(Drop)]
struct Tables {
    written: Vec<u64>,
    touched: Vec<u64>,
}

/// Takes each packet in the rows of its parts.
fn note_all(written: &mut [u64], touched: &mut [u64], touches: &[Touch])
    requires few { length touches.now ≤ WIDTH }
    requires written { length written.old ≡ TABLE }
    requires touched { length touched.old ≡ TABLE }
    ensures written { IsTable (λ t. t.written) touches.now written.new }
    ensures touched { IsTable (λ t. t.touched) touches.now touched.new }
{
    for (packet, touch) in touches.iter().enumerate() {
        turn_word(written, touch.written, 0, packet);
        turn_word(touched, touch.touched, 0, packet);
    }
}

/// The tables of these packets.
fn tables_of(alloc: Global, touches: &[Touch]) -> Result<Tables, AllocError>
    requires { length touches.now ≤ WIDTH }
    ensures { IfOk result (AreTables touches.now) }
{
    let mut written = vec![in alloc; 0; TABLE]?;
    let mut touched = vec![in alloc; 0; TABLE]?;
    note_all(&mut written, &mut touched, touches);
    Ok(Tables { written, touched })
}

/// Takes in the packets that a table has for each of these parts.
fn take_rows(row: &mut [u64], table: &[u64], parts: u64)
    requires row { length row.old ≡ WORDS }
    requires table { length table.now ≡ TABLE }
    ensures kept { (p : ℕ) → IsTrue (has row.old p) → IsTrue (has row.new p) }
    ensures taken { TakesRows table.now parts row.new }
{
    let mut rest = parts;
    'each: while rest != 0 {
        let part = lowest(rest);
        unite(row, column_of(table, part));
        rest = without(rest, part);
    }
}

/// A row of fewer packets than this is worth a look at finer parts.
const FEW: u32 = 32;

/// How many of those a part has.
const FINER: u64 = 64;

/// Whether neither writes in a part that the other touches.
fn is_apart(left: Touch, right: Touch) -> bool
    ensures { IsTrue result → IsApart left right }
{
    left.written & right.touched == 0 && left.touched & right.written == 0
}

/// Takes those of some packets out of a row that are apart from a: those of a word whose first bit is that of packet
/// `first`.
#[inline(always)]
fn drop_apart_of(row: &mut [u64], touches: &[Touch], a: usize, first: usize, word: u64)
    requires row { length row.old ≡ WORDS }
    requires few { length touches.now ≤ WIDTH }
    requires a_is { a < length touches.now }
    requires first { first < WIDTH }
    ensures { LeftOf row.old touches.now a row.new }
{
    let own = touches[a];
    let mut rest = word;
    'each: while rest != 0 {
        let bit = lowest(rest);
        if let Some(other) = touches.get(first + bit) {
            if is_apart(own, *other) {
                remove(row, first + bit);
            }
        }
        rest = without(rest, bit);
    }
}

/// Takes the packets from a on out of a row that are apart from a: those below it look at a themselves.
fn drop_apart(row: &mut [u64], touches: &[Touch], a: usize)
    requires row { length row.old ≡ WORDS }
    requires few { length touches.now ≤ WIDTH }
    requires a_is { a < length touches.now }
    ensures { LeftOf row.old touches.now a row.new }
{
    let above = row[a / 64] & u64::MAX << (a % 64);
    drop_apart_of(row, touches, a, a / 64 * 64, above);
    for place in a / 64 + 1..WORDS {
        let word = row[place];
        drop_apart_of(row, touches, a, place * 64, word);
    }
}

/// The packets that a packet may conflict with, as bits.
#[derive(Clone, Copy, Debug)]
pub struct Others {
    bits: [u64; WORDS],
}

impl Others {
    /// How many these are.
    pub fn count(&self) -> u32 {
        let mut count = 0u32;
        for word in &self.bits {
            // mostly it is 0, and told at once
            if *word != 0 {
                count = count.wrapping_add(word.count_ones());
            }
        }
        count
    }

    /// They as they are: packet s as bit `s % 64` of word `s / 64`.
    pub fn bits(&self) -> &[u64]
        ensures bits { result.now ≡ self.now.bits }
        ensures len { length result.now ≡ WORDS }
    {
        &self.bits
    }

    /// The first of them from one on, or the number of packets where there is none.
    #[inline(always)]
    pub fn next(&self, job: &Job, from: usize) -> usize
        requires { from ≤ length (plan job.now).packets }
        ensures above { from ≤ result }
        ensures below { result ≤ length (plan job.now).packets }
        ensures found { result < length (plan job.now).packets → IsTrue (has self.now.bits result) }
        ensures apart { (a s : ℕ) → AreOthers (plan job.now) a self.now → from ≤ s → s < result
            → NeverConflict (plan job.now) a s }
    {
        job.valid();
        // no test of the place is needed: behind the last word `from` is the number of packets, whatever the first
        // word has
        if self.bits[from / 64 % WORDS] >> (from % 64) & 1 == 1 {
            return from;
        }
        let count = job.packets().len();
        match first_from(&self.bits, from) {
            Some(b) => b.min(count),
            None => count,
        }
    }
}

/// The parts of memory that a job's packets write and touch.
#[derive(Drop)]
pub struct Parts {
    packets: Vec<Touch>,
    /// The same by finer parts.
    fine: Vec<Touch>,
    tables: Tables,
}

impl Parts {
    /// The parts of a job's packets.
    ///
    /// # Errors
    ///
    /// `AllocError` where there is no memory.
    pub fn build(alloc: Global, job: &Job) -> Result<Parts, AllocError>
        ensures { IfOk result (AreParts (plan job.now)) }
    {
        job.valid();
        let size = part_size(job);
        let packets = touches_of(alloc, job, size)?;
        let fine = touches_of(alloc, job, (size / FINER).max(1))?;
        let tables = tables_of(alloc, &packets)?;
        Ok(Parts {
            packets,
            fine,
            tables,
        })
    }

    /// The packets that a may conflict with: those that touch a part in which it writes, and those that write in a
    /// part that it touches; where these are few, without those above a that finer parts tell apart from it.
    pub fn others(&self, job: &Job, a: usize) -> Others
        requires parts { AreParts (plan job.now) self.now }
        requires a_is { IsPacket (plan job.now) a }
        ensures { AreOthers (plan job.now) a result }
    {
        let touch = self.packets[a];
        let mut others = Others { bits: [0; WORDS] };
        take_rows(&mut others.bits, &self.tables.touched, touch.written);
        take_rows(&mut others.bits, &self.tables.written, touch.touched);
        if others.count() < FEW {
            drop_apart(&mut others.bits, &self.fine, a);
        }
        others
    }
}
