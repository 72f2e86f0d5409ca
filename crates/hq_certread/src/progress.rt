//! A certificate as far as its lines were taken in.

ghost use Rattle.std.specs.Prelude.{◌≡◌, ℕ, ◌+◌, ◌^◌, ◌≤◌, ◌⊎◌, List, [], ◌++◌, map, length, OnOk, OnErr, IfOk, IfErr};
ghost use Rattle.std.specs.Prelude.{IfSome, IsTrue, MatchOption};
ghost use Rattle.hq_cert.specs.View.{line_of, pair_of};
ghost use Rattle.hq_model.specs.Certificate as model;
ghost use Rattle.hq_text.specs.Lines.{lines_of};
ghost use Rattle.hq_certread.specs.Ahead.{IsAhead, lines_ahead, pairs_ahead};
ghost use Rattle.hq_certread.specs.Gives.{ReadOf, no_memory};
ghost use Rattle.hq_certread.specs.SoFar.{HasFault, HasTaken, LinesStand, ReadBehind, lines_in, pairs_in};
ghost use Rattle.hq_certread.specs.SoFar.{CanPass, HasPassed, IsClosed, StaysClosed};

use crate::ahead::Ahead;
use crate::draft::{Draft, Stage};
use crate::fault::CertFault;
use crate::reading::{NO_MEMORY, finished, take_lines};
use crate::threes::Threes;
use hq_cert::{Certificate, Line, Pair};
use hq_text::TakesLines;
use std::alloc::Global;

/// What the lines of a certificate left so far, how many they are, and what their numbers are read by. What they say,
/// lines of the certificate and pair lines, can be let go while it is read.
#[derive(Drop)]
pub struct Progress {
    draft: Draft,
    threes: Threes,
    count: usize,
}

impl Progress {
    /// Before the first line.
    pub fn new(alloc: Global) -> Progress
        ensures { HasTaken [] [] [] result }
    {
        Progress {
            draft: Draft::new(alloc),
            threes: Threes::new(),
            count: 0,
        }
    }

    /// Takes in all lines of a text, behind those that were taken in. Behind a pair line, let go or not, no more lines
    /// of the certificate come.
    ///
    /// # Errors
    ///
    /// `CertFault` with the first faulty line, or that there is no memory, at line 0. Some of the lines may be taken in
    /// then, which aren't counted: it is to be dropped.
    pub fn take(&mut self, alloc: Global, text: &[u8]) -> Result<(), CertFault>
        ensures taken { OnOk result
            ((lines : List (List ℕ)) (front : List model.Line) (gone : List model.Pair)
            → HasTaken lines front gone self.old → HasTaken (lines ++ lines_of text.now) front gone self.new) }
        ensures lines { OnOk result
            ((lines : List (List ℕ)) (front : List model.Line) (gone : List model.Pair)
            → HasTaken lines front gone self.old → LinesStand gone self.old self.new) }
        ensures closed { OnOk result (StaysClosed self.old self.new) }
        ensures fault { IfErr result
            (λ f. (lines more : List (List ℕ)) (front : List model.Line) (gone : List model.Pair)
            → HasTaken lines front gone self.old → HasFault (lines ++ (lines_of text.now ++ more)) f) }
    {
        self.count = take_lines(&mut self.draft, alloc, &self.threes, self.count, text)?;
        Ok(())
    }

    /// The lines of the certificate that were read and weren't let go.
    pub fn lines(&self) -> &[Line]
        ensures { map line_of result.now ≡ lines_in self.now }
    {
        self.draft.lines()
    }

    /// The pair lines that were read and weren't let go.
    pub fn pairs(&self) -> &[Pair]
        ensures { map pair_of result.now ≡ pairs_in self.now }
    {
        self.draft.pairs()
    }

    /// Lets the lines of the certificate and the pair lines go that were read.
    ///
    /// # Errors
    ///
    /// `CertFault` that there is no memory, at line 0, where the lines can't be counted.
    pub fn let_go(&mut self) -> Result<(), CertFault>
        ensures gone { OnOk result
            ((lines : List (List ℕ)) (front : List model.Line) (gone : List model.Pair)
            → HasTaken lines front gone self.old
            → HasTaken lines (front ++ lines_in self.old) (gone ++ pairs_in self.old) self.new) }
        ensures none { OnOk result ((lines_in self.new ≡ []) × (pairs_in self.new ≡ [])) }
        ensures closed { OnOk result (IsClosed self.old → IsClosed self.new) }
        ensures memory { IfErr result
            (λ f. (f ≡ no_memory) × (2 ^ 64 ≤ self.old.draft.gone + length (lines_in self.old))) }
    {
        if self.draft.let_go() {
            Ok(())
        } else {
            Err(NO_MEMORY)
        }
    }

    /// Whether no more lines of the certificate can come: a pair line came, or the end.
    pub fn is_closed(&self) -> bool
        ensures { (IsTrue result → IsClosed self.now) × (IsClosed self.now → IsTrue result) }
    {
        matches!(self.draft.stage(), Stage::Pairs | Stage::Ended)
    }

    /// Reads what a text begins with, which need not be the next to be taken in: where lines may come, those in a
    /// common form, numbered from the number that the first of them says; where pair lines came, such pair lines.
    /// Where memory runs out, nothing.
    pub fn read_ahead(&self, text: &[u8], ahead: &mut Ahead)
        ensures is { IsAhead text.now ahead.new }
        ensures closed { (pairs_ahead ahead.new ≡ []) ⊎ IsClosed self.now }
    {
        match (self.draft.stage(), self.draft.number()) {
            (Stage::Lines, _) => ahead.read_lines(&self.threes, text),
            (Stage::Pairs, Some(before)) => ahead.read_pairs(&self.threes, before, text),
            _ => ahead.clear(),
        }
    }

    /// Takes in what was read ahead of a text as let go; what was read before is to be let go first. Answers at which
    /// byte of the text the rest of it begins; or that what was read can't come next, and then nothing is taken in.
    ///
    /// # Errors
    ///
    /// `CertFault` that there is no memory, at line 0, where the lines can't be counted. Then nothing is taken in
    /// either.
    pub fn pass(&mut self, ahead: &Ahead) -> Result<Option<usize>, CertFault>
        ensures passed { IfOk result (λ passed. MatchOption passed (self.new ≡ self.old)
            (λ at. (text : List ℕ) (lines : List (List ℕ)) (front : List model.Line) (gone : List model.Pair)
            → IsAhead text ahead.now → HasTaken lines front gone self.old → lines_in self.old ≡ []
            → pairs_in self.old ≡ [] → HasPassed text ahead.now lines front gone at self.old self.new)) }
        ensures can { IfOk result
            (λ passed. MatchOption passed (¬ CanPass self.old ahead.now) (λ at. CanPass self.old ahead.now)) }
        ensures within { IfOk result
            (λ passed. IfSome passed (λ at. (text : List ℕ) → IsAhead text ahead.now → at ≤ length text)) }
        ensures memory { IfErr result
            (λ f. (f ≡ no_memory) × CanPass self.old ahead.now
            × ((2 ^ 64 ≤ self.old.count + ahead.now.count)
            ⊎ (2 ^ 64 ≤ self.old.draft.gone + length (lines_ahead ahead.now)))) }
        ensures full { OnErr result (self.new ≡ self.old) }
    {
        if !self.draft.awaits(ahead.next, ahead.before) {
            return Ok(None);
        }
        let Some(count) = self.count.checked_add(ahead.count) else {
            return Err(NO_MEMORY);
        };
        if !self.draft.pass(ahead.lines.len()) {
            return Err(NO_MEMORY);
        }
        self.count = count;
        Ok(Some(ahead.bytes))
    }

    /// The certificate of the lines, without what was let go; or that they have no end.
    ///
    /// # Errors
    ///
    /// `CertFault` with the line behind the last one.
    pub fn finish(self) -> Result<Certificate, CertFault>
        ensures whole { (lines : List (List ℕ)) → HasTaken lines [] [] self → ReadOf result lines }
        ensures read { (lines : List (List ℕ)) (front : List model.Line) (gone : List model.Pair)
            → HasTaken lines front gone self → ReadBehind front gone result lines }
        ensures parts { IfOk result (λ c. (c.lines ≡ lines_in self) × (c.pairs ≡ pairs_in self)) }
    {
        finished(self.draft, self.count)
    }
}

impl TakesLines for Progress {
    type Fault = CertFault;

    ghost Took = { λ _ lines progress. HasTaken lines [] [] progress };

    ghost Refuses = { HasFault };

    fn take_lines(&mut self, alloc: Global, text: &[u8]) -> Result<(), CertFault> {
        self.take(alloc, text)
    }

    fn no_memory() -> CertFault {
        NO_MEMORY
    }
}
