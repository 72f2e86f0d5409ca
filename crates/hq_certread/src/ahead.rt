//! What a text begins with, read before the texts in front of it are taken in.

ghost use Rattle.std.specs.Prelude.{◌≡◌, ℕ, List, [], map};
ghost use Rattle.hq_cert.specs.View.{line_of, pair_of};
ghost use Rattle.hq_certread.specs.Ahead.{IsAhead, lines_ahead, pairs_ahead};

use crate::draft::Stage;
use crate::leading::{leading_lines, leading_pairs};
use crate::one_pass;
use crate::threes::Threes;
use hq_cert::{Line, Pair};
use std::alloc::Global;

/// What a text begins with, read before the texts in front of it are taken in: lines, numbered from one that the first
/// of them says, or pair lines behind so many lines, as long as they are in a common form.
#[derive(Drop)]
pub struct Ahead {
    pub(crate) next: Stage,
    pub(crate) before: u32,
    pub(crate) lines: Vec<Line>,
    pub(crate) pairs: Vec<Pair>,
    pub(crate) count: usize,
    pub(crate) bytes: usize,
}

impl Ahead {
    /// Nothing, of any text.
    pub fn new(alloc: Global) -> Ahead
        ensures any { (text : List ℕ) → IsAhead text result }
        ensures lines { result.lines.items ≡ [] }
    {
        Ahead {
            next: Stage::Head,
            before: 0,
            lines: Vec::new(alloc),
            pairs: Vec::new(alloc),
            count: 0,
            bytes: 0,
        }
    }

    /// How many lines were to come before what was read.
    pub fn before(&self) -> u32
        ensures { result ≡ self.now.before }
    {
        self.before
    }

    /// The lines of the certificate that were read.
    pub fn lines(&self) -> &[Line]
        ensures { map line_of result.now ≡ lines_ahead self.now }
    {
        &self.lines
    }

    /// The pair lines that were read.
    pub fn pairs(&self) -> &[Pair]
        ensures { map pair_of result.now ≡ pairs_ahead self.now }
    {
        &self.pairs
    }

    /// Lets go what was read.
    pub fn clear(&mut self)
        ensures lines { self.new.lines.items ≡ [] }
        ensures pairs { self.new.pairs.items ≡ [] }
        ensures any { (text : List ℕ) → IsAhead text self.new }
    {
        self.lines.clear();
        self.pairs.clear();
        self.count = 0;
        self.bytes = 0;
    }

    /// Reads the lines that a text begins with, whatever number the first of them says. Where there is no memory, none.
    pub(crate) fn read_lines(&mut self, threes: &Threes, text: &[u8])
        ensures is { IsAhead text.now self.new }
        ensures none { self.new.pairs.items ≡ [] }
    {
        self.clear();
        let Some(before) = one_pass::own_number(threes, text) else {
            return;
        };
        match leading_lines(threes, before, text, &mut self.lines) {
            Ok((count, rest)) => {
                self.next = Stage::Lines;
                self.before = before;
                self.count = count;
                self.bytes = text.len() - rest.len();
            }
            Err(_) => self.clear(),
        }
    }

    /// Reads the pair lines that a text begins with, behind so many lines. Where there is no memory, none.
    pub(crate) fn read_pairs(&mut self, threes: &Threes, before: u32, text: &[u8])
        ensures { IsAhead text.now self.new }
    {
        self.clear();
        match leading_pairs(threes, before, text, &mut self.pairs) {
            Ok((count, rest)) => {
                self.next = Stage::Pairs;
                self.before = before;
                self.count = count;
                self.bytes = text.len() - rest.len();
            }
            Err(_) => self.clear(),
        }
    }
}
