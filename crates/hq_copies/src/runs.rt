//! The bytes of one mark, in runs.

ghost use Rattle.std.specs.Prelude.{◌≡◌, ◌≢◌, ◌↔◌, ℕ, ◌+◌, ◌-◌, ◌<◌, ◌≤◌, ◌^◌, List, ◌++◌, length, slice_index};
ghost use Rattle.std.specs.Prelude.{Some, None, IsTrue, OnOk, OnErr, IfOk, MatchOption, take, drop, if◌then◌else◌};
ghost use Rattle.std.specs.Prelude.{vec_len, vec_capacity, true, false};
ghost use Rattle.hq_copies.specs.Edges.{has, IsRising, is_odd, toggled, unless, Covered};
ghost use Rattle.hq_copies.specs.Copies.{count_below};
ghost use Rattle.hq_copies.specs.Marks.{byte_of, AreRuns, HasRoom, HasRunRoom, SameRuns, IsNowhere, IsFirst};
ghost use Rattle.hq_copies.specs.Overlays.{run_at, byte_over, Over};
ghost use Rattle.hq_copies.specs.Leftovers.{AreLeft, left_of, IsFirstRun};

use std::alloc::{AllocError, Global};

/// Bytes by their numbers, all of one mark. They stand in runs of numbers that follow each other.
#[derive(Drop)]
pub struct Runs {
    // The first number of each run and the number past its last, in rising order.
    edges: Vec<u32>,
    // In the order of their numbers.
    bytes: Vec<u8>,
}

impl Runs {
    /// No byte.
    pub fn new(alloc: Global) -> Self
        ensures runs { AreRuns result }
        ensures none { (n : ℕ) → byte_of result n ≡ None }
    {
        Runs {
            edges: Vec::new(alloc),
            bytes: Vec::new(alloc),
        }
    }

    /// Makes room for a run more and a byte more.
    pub fn reserve(&mut self) -> Result<(), AllocError>
        ensures same { SameRuns self.old self.new }
        ensures room { OnOk result (HasRoom self.new) }
    {
        self.reserve_run()?;
        self.bytes.reserve(1)?;
        Ok(())
    }

    /// Makes room for a run more.
    pub fn reserve_run(&mut self) -> Result<(), AllocError>
        ensures same { SameRuns self.old self.new }
        ensures room { OnOk result (HasRunRoom self.new) }
    {
        self.edges.reserve(2)?;
        Ok(())
    }

    /// An equal value.
    pub fn copy(&self) -> Result<Runs, AllocError>
        ensures { IfOk result (λ runs. SameRuns self.now runs) }
    {
        Ok(Runs {
            edges: self.edges.clone()?,
            bytes: self.bytes.clone()?,
        })
    }

    /// Whether there is no byte.
    pub fn is_empty(&self) -> bool
        requires { AreRuns self.now }
        ensures { IsTrue result ↔ IsNowhere self.now }
    {
        self.first().is_none()
    }

    /// The first number that has a byte.
    pub fn first(&self) -> Option<u32>
        requires { AreRuns self.now }
        ensures { MatchOption result (IsNowhere self.now) (λ n. IsFirst (byte_of self.now) n) }
    {
        self.edges.first().copied()
    }

    /// Takes all bytes away.
    pub fn clear(&mut self)
        ensures runs { AreRuns self.new }
        ensures none { (n : ℕ) → byte_of self.new n ≡ None }
    {
        self.edges.clear();
        self.bytes.clear();
    }

    /// The byte of a number.
    pub fn get(&self, number: u32) -> Option<u8>
        requires { AreRuns self.now }
        ensures { result ≡ byte_of self.now number }
    {
        let (held, index) = find(&self.edges, number);
        if held { Some(self.bytes[index]) } else { None }
    }

    /// Gives a number a byte.
    pub fn set(&mut self, number: u32, byte: u8)
        requires runs { AreRuns self.old }
        requires room { HasRoom self.old }
        requires fits { number + 1 < 2 ^ 32 }
        ensures runs { AreRuns self.new }
        ensures same { byte_of self.new number ≡ Some byte }
        ensures others { (n : ℕ) → n ≢ number → byte_of self.new n ≡ byte_of self.old n }
    {
        let (held, index) = find(&self.edges, number);
        if held {
            self.bytes[index] = byte;
            return;
        }
        turn(&mut self.edges, number, number + 1);
        if self.bytes.insert(index, byte).is_err() {
            unreachable!();
        }
    }

    /// Takes a number's byte away, if it has one.
    pub fn remove(&mut self, number: u32)
        requires runs { AreRuns self.old }
        requires room { HasRunRoom self.old }
        requires fits { number + 1 < 2 ^ 32 }
        ensures runs { AreRuns self.new }
        ensures same { byte_of self.new number ≡ None }
        ensures others { (n : ℕ) → n ≢ number → byte_of self.new n ≡ byte_of self.old n }
    {
        let (held, index) = find(&self.edges, number);
        if held {
            turn(&mut self.edges, number, number + 1);
            self.bytes.remove(index);
        }
    }

    // Whether no number from this one on has a byte.
    fn ends_by(&self, number: u32) -> bool
        requires { AreRuns self.now }
        ensures { IsTrue result → (n : ℕ) → number ≤ n → has self.now.edges.items n ≡ false }
    {
        match self.edges.last() {
            Some(edge) => *edge <= number,
            None => true,
        }
    }

    // Gives the numbers from start on these bytes, where no number from start on has one.
    fn append(&mut self, start: u32, bytes: &[u8]) -> Result<(), AllocError>
        requires runs { AreRuns self.old }
        requires fits { start + length bytes.now < 2 ^ 32 }
        requires some { 0 < length bytes.now }
        requires beyond { (n : ℕ) → start ≤ n → has self.old.edges.items n ≡ false }
        ensures runs { AreRuns self.new }
        ensures ok { OnOk result (Over (run_at start bytes.now) (byte_of self.old) (byte_of self.new)) }
        ensures err { OnErr result ((n : ℕ) → byte_of self.new n ≡ byte_of self.old n) }
    {
        let (_, index) = find(&self.edges, start);
        self.edges.reserve(2)?;
        self.bytes.reserve(bytes.len())?;
        self.bytes.truncate(index);
        append_bytes(&mut self.bytes, bytes);
        turn(&mut self.edges, start, start + bytes.len() as u32);
        Ok(())
    }

    // Gives the numbers from start on these bytes, where each of them has one; so many bytes stand before theirs.
    fn overwrite(&mut self, start: u32, first: usize, bytes: &[u8])
        requires runs { AreRuns self.old }
        requires first { first ≡ count_below (has self.old.edges.items) start }
        requires all { count_below (has self.old.edges.items) (start + length bytes.now) ≡ first + length bytes.now }
        ensures runs { AreRuns self.new }
        ensures ok { Over (run_at start bytes.now) (byte_of self.old) (byte_of self.new) }
    {
        write_at(&mut self.bytes, first, bytes);
    }

    // Gives the numbers from start on these bytes; so many bytes stand before theirs, and before those of the numbers
    // behind.
    fn splice(
        &mut self,
        start: u32,
        first: usize,
        last: usize,
        bytes: &[u8],
    ) -> Result<(), AllocError>
        requires runs { AreRuns self.old }
        requires fits { start + length bytes.now < 2 ^ 32 }
        requires some { 0 < length bytes.now }
        requires first { first ≡ count_below (has self.old.edges.items) start }
        requires last { last ≡ count_below (has self.old.edges.items) (start + length bytes.now) }
        ensures runs { AreRuns self.new }
        ensures ok { OnOk result (Over (run_at start bytes.now) (byte_of self.old) (byte_of self.new)) }
        ensures err { OnErr result ((n : ℕ) → byte_of self.new n ≡ byte_of self.old n) }
    {
        let behind = behind(&self.bytes, last);
        let behind = Vec::from_slice(*self.bytes.allocator(), behind)?;
        self.bytes.reserve(bytes.len())?;
        cover(&mut self.edges, start, start + bytes.len() as u32)?;
        self.bytes.truncate(first);
        append_bytes(&mut self.bytes, bytes);
        append_bytes(&mut self.bytes, &behind);
        Ok(())
    }

    /// Gives the numbers from start on these bytes: all of them or none.
    pub fn put(&mut self, start: u32, bytes: &[u8]) -> Result<(), AllocError>
        requires runs { AreRuns self.old }
        requires fits { start + length bytes.now < 2 ^ 32 }
        ensures runs { AreRuns self.new }
        ensures ok { OnOk result (Over (run_at start bytes.now) (byte_of self.old) (byte_of self.new)) }
        ensures err { OnErr result ((n : ℕ) → byte_of self.new n ≡ byte_of self.old n) }
    {
        if bytes.is_empty() {
            return Ok(());
        }
        if self.ends_by(start) {
            return self.append(start, bytes);
        }
        let (_, first) = find(&self.edges, start);
        let (_, last) = find(&self.edges, start + bytes.len() as u32);
        if last - first == bytes.len() {
            self.overwrite(start, first, bytes);
            return Ok(());
        }
        self.splice(start, first, last, bytes)
    }

    /// All bytes, from the first run on.
    pub fn all(&self) -> RunsLeft<'_>
        requires { AreRuns self.now }
        ensures are { AreLeft result }
        ensures bytes { left_of result ≡ byte_of self.now }
    {
        RunsLeft {
            edges: &self.edges,
            bytes: &self.bytes,
        }
    }

    /// Gives the numbers that another has bytes of those.
    pub fn put_all(&mut self, other: &Runs) -> Result<(), AllocError>
        requires runs { AreRuns self.old }
        requires other { AreRuns other.now }
        ensures runs { AreRuns self.new }
        ensures ok { OnOk result (Over (byte_of other.now) (byte_of self.old) (byte_of self.new)) }
    {
        let mut left = other.all();
        'runs: while let Some(run) = left.first_run() {
            self.put(run.start, run.bytes)?;
            left = run.behind;
        }
        Ok(())
    }

    /// Writes the bytes over those of the slice, which begins at a number.
    pub fn write_to(&self, from: u32, bytes: &mut [u8])
        requires { AreRuns self.now }
        ensures { (i : ℕ) → i < length bytes.old
            → slice_index bytes.new i ≡ byte_over (byte_of self.now (from + i)) (slice_index bytes.old i) }
    {
        let mut left = self.all();
        'runs: while let Some(run) = left.first_run() {
            write_run(bytes, from, run.start, run.bytes);
            left = run.behind;
        }
    }
}

/// The bytes of one mark from some run on.
#[derive(Clone, Copy)]
pub struct RunsLeft<'a> {
    edges: &'a [u32],
    bytes: &'a [u8],
}

/// A run, and those behind it.
#[derive(Clone, Copy)]
pub struct Run<'a> {
    /// Its first number.
    pub start: u32,
    /// The bytes of the numbers from there on.
    pub bytes: &'a [u8],
    /// What stands behind it.
    pub behind: RunsLeft<'a>,
}

impl<'a> RunsLeft<'a> {
    /// The first run, if there is one.
    pub fn first_run(self) -> Option<Run<'a>>
        requires { AreLeft self }
        ensures { MatchOption result ((n : ℕ) → left_of self.entry n ≡ None) (λ run. IsFirstRun self.entry run) }
    {
        let (start, edges) = self.edges.split_first()?;
        let (end, edges) = edges.split_first()?;
        let (bytes, behind) = self.bytes.split_at(width(*start, *end));
        Some(Run {
            start: *start,
            bytes,
            behind: RunsLeft {
                edges,
                bytes: behind,
            },
        })
    }
}

// Where the first edge stands that isn't below this number.
fn place(edges: &[u32], number: u64) -> usize
    requires { IsRising 0 edges.now }
    ensures within { result ≤ length edges.now }
    ensures below { (k : ℕ) → k < result → slice_index edges.now k < number }
    ensures above { result < length edges.now → number ≤ slice_index edges.now result }
{
    let mut low = 0;
    let mut high = edges.len();
    'search: while low < high {
        let mid = low + (high - low) / 2;
        if (edges[mid] as u64) < number {
            low = mid + 1;
        } else {
            high = mid;
        }
    }
    low
}

// Puts the edge in, or takes it out if it is there: the numbers from it on are turned.
fn toggle(edges: &mut Vec<u32>, edge: u32)
    requires rising { IsRising 0 edges.old.items }
    requires room { vec_len edges.old + 1 ≤ vec_capacity edges.old }
    ensures edges { edges.new.items ≡ toggled edge edges.old.items }
    ensures len { vec_len edges.new ≤ vec_len edges.old + 1 }
    ensures capacity { vec_capacity edges.new ≡ vec_capacity edges.old }
{
    let at = place(edges, edge as u64);
    if at < edges.len() && edges[at] == edge {
        edges.remove(at);
        return;
    }
    if edges.insert(at, edge).is_err() {
        unreachable!();
    }
}

// Puts the numbers from start on and before end in, or takes them out if they are there.
fn turn(edges: &mut Vec<u32>, start: u32, end: u32)
    requires rising { IsRising 0 edges.old.items }
    requires room { vec_len edges.old + 2 ≤ vec_capacity edges.old }
    ensures { edges.new.items ≡ toggled end (toggled start edges.old.items) }
{
    toggle(edges, start);
    toggle(edges, end);
}

// Puts an edge behind the others, if the count is even.
fn add_if_even(edges: &mut Vec<u32>, count: usize, edge: u32)
    requires room { vec_len edges.old + 1 ≤ vec_capacity edges.old }
    ensures edges { (xs : List ℕ) → length xs ≡ count → edges.new.items ≡ edges.old.items ++ unless (is_odd xs) edge }
    ensures len { vec_len edges.new ≤ vec_len edges.old + 1 }
    ensures capacity { vec_capacity edges.old ≤ vec_capacity edges.new }
{
    if count % 2 == 1 {
        return;
    }
    if edges.push(edge).is_err() {
        unreachable!();
    }
}

// Puts the numbers from start on and before end in.
fn cover(edges: &mut Vec<u32>, start: u32, end: u32) -> Result<(), AllocError>
    requires rising { IsRising 0 edges.old.items }
    requires some { start < end }
    ensures ok { OnOk result (Covered edges.old.items start end edges.new.items) }
    ensures err { OnErr result (edges.new.items ≡ edges.old.items) }
{
    let first = place(edges, start as u64);
    let last = place(edges, end as u64 + 1);
    let behind = Vec::from_slice(*edges.allocator(), edges.as_slice().split_at(last).1)?;
    edges.reserve(2)?;
    edges.truncate(first);
    add_if_even(edges, first, start);
    add_if_even(edges, last, end);
    if edges.extend_from_slice(&behind).is_err() {
        unreachable!();
    }
    Ok(())
}

// Puts bytes behind the others, where there is room.
fn append_bytes(all: &mut Vec<u8>, bytes: &[u8])
    requires { vec_len all.old + length bytes.now ≤ vec_capacity all.old }
    ensures items { all.new.items ≡ all.old.items ++ bytes.now }
    ensures len { vec_len all.new ≡ vec_len all.old + length bytes.now }
    ensures capacity { vec_capacity all.old ≤ vec_capacity all.new }
{
    if all.extend_from_slice(bytes).is_err() {
        unreachable!();
    }
}

// Writes the bytes over those from a place on.
fn write_at(all: &mut [u8], at: usize, bytes: &[u8])
    requires { at + length bytes.now ≤ length all.old }
    ensures { all.new ≡ take at all.old ++ bytes.now ++ drop (at + length bytes.now) all.old }
{
    all[at..at + bytes.len()].copy_from_slice(bytes);
}

// How many numbers there are from start on and before end.
fn width(start: u32, end: u32) -> usize
    requires { start ≤ end }
    ensures exact { result ≡ end - start }
    ensures fits { end < 2 ^ 32 }
{
    (end - start) as usize
}

// Whether a number is in the set, and how many below it are.
fn find(edges: &[u32], number: u32) -> (bool, usize)
    requires { IsRising 0 edges.now }
    ensures held { result.0 ≡ has edges.now number }
    ensures index { result.1 ≡ count_below (has edges.now) number }
{
    let at = place(edges, number as u64 + 1);
    let mut count = 0;
    for run in 0..at / 2 {
        count += edges[2 * run + 1] - edges[2 * run];
    }
    if at % 2 == 0 {
        return (false, count as usize);
    }
    (true, (count + (number - edges[at - 1])) as usize)
}

// Writes the bytes of a run over those of the slice, which begins at a number.
fn write_run(bytes: &mut [u8], from: u32, start: u32, run: &[u8])
    requires { start + length run.now < 2 ^ 32 }
    ensures { (i : ℕ) → i < length bytes.old
        → slice_index bytes.new i ≡ byte_over (run_at start run.now (from + i)) (slice_index bytes.old i) }
{
    if start < from {
        write(bytes, 0, behind(run, (from - start) as usize));
    } else {
        write(bytes, (start - from) as usize, run);
    }
}

// The bytes behind so many.
fn behind(bytes: &[u8], count: usize) -> &[u8]
    ensures { result.now ≡ drop count bytes.now }
{
    if count < bytes.len() {
        bytes.split_at(count).1
    } else {
        &[]
    }
}

// How many of so many bytes lie within a length, from a place on.
fn room(length: usize, start: usize, count: usize) -> usize
    ensures few { result ≤ count }
    ensures within { result ≤ length - start }
    ensures all { (n : ℕ) → n < length → n < start + count → n < start + result }
{
    let space = length.saturating_sub(start);
    if space < count { space } else { count }
}

// Writes bytes into a slice from a place on, where it has so many.
fn write(slice: &mut [u8], start: usize, bytes: &[u8])
    requires { start + length bytes.now < 2 ^ 32 }
    ensures { (n : ℕ) → n < length slice.old
        → slice_index slice.new n ≡ byte_over (run_at start bytes.now n) (slice_index slice.old n) }
{
    for i in 0..room(slice.len(), start, bytes.len()) {
        slice[start + i] = bytes[i];
    }
}
