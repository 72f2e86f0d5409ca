//! Lines and pair lines of a certificate, one block behind another.

ghost use Rattle.std.specs.Prelude.{◌≡◌, ◌<◌, ℕ, ◌⊎◌, [], ◌∷◌, ◌++◌, List, IfOk, OnOk, map, length};
ghost use Rattle.hq_cert.specs.View.{line_of, pair_of};
ghost use Rattle.hq_job.specs.Plan.{plan};
ghost use Rattle.hq_model.specs.Job.{Job as JobOf};
ghost use Rattle.hq_model.specs.Certificate as model;
ghost use Rattle.hq_certcheck.specs.Concluded.{bare};
ghost use Rattle.hq_certcheck.specs.Covering.{HasRows};
ghost use Rattle.hq_certcheck.specs.Listed.{Block, BadLineOf, BadPairIs, IsUpTo};
ghost use Rattle.hq_certcheck.specs.Seen.{HasSeen, IsSeen};

use crate::conclusion::{Conclusion, conclude};
use crate::flags::mark_all;
use crate::lines::first_bad_line;
use crate::pairs::first_bad_pair;
use hq_cert::{Certificate, Line, Pair};
use hq_job::Job;
use std::alloc::{AllocError, Global};
use std::marker::Model;

/// What is known of the lines and the pair lines of a certificate, which come block by block and needn't be kept: what
/// the lines conclude, and one that doesn't hold; which kinds of conflict of which packets have pair lines, and the
/// packets of the first that doesn't hold.
#[derive(Drop)]
pub struct Seen {
    lines: Vec<Conclusion>,
    bad_line: Option<usize>,
    count: usize,
    flags: Vec<u64>,
    bad_pair: Option<(u32, u32)>,
}

impl Model for Seen {
    ghost use Rattle.hq_certcheck.specs.Seen.{SeenValue, seen_of, IsTable};

    ghost Value = { SeenValue };

    ghost view = { seen_of };

    ghost invariant = { IsTable };
}

/// The lesser of two numbers, of which there may be none.
fn least(one: Option<usize>, other: Option<usize>) -> Option<usize>
    ensures either { (result ≡ one) ⊎ (result ≡ other) }
    ensures one { (k : ℕ) → IsUpTo one k → IsUpTo result k }
    ensures other { (k : ℕ) → IsUpTo other k → IsUpTo result k }
{
    match (one, other) {
        (Some(a), Some(b)) if b < a => Some(b),
        (None, _) => other,
        _ => one,
    }
}

impl Seen {
    /// Before the first line of a certificate for this job.
    pub fn new(alloc: Global, job: &Job) -> Seen
        ensures { HasSeen (plan job.now) [] [] [] result }
    {
        job.valid();
        Seen {
            lines: Vec::new(alloc),
            bad_line: None,
            count: job.packets().len(),
            flags: Vec::new(alloc),
            bad_pair: None,
        }
    }

    /// Takes in lines that are left to be checked. No pair lines came before them.
    ///
    /// # Errors
    ///
    /// `AllocError` where there is no memory. What is known then isn't said: it is to be dropped.
    pub fn conclude(&mut self, lines: &[Line]) -> Result<(), AllocError>
        ensures { OnOk result
            ((job : JobOf) (before : List model.Line) (pairs : List model.Pair) (left : List Block)
            → (pairs ≡ []) ⊎ (map line_of lines.now ≡ []) → HasSeen job before pairs left self.old
            → HasSeen job (before ++ map line_of lines.now) pairs
            (left ++ record { from = length before; count = length lines.now } ∷ []) self.new) }
    {
        conclude(&mut self.lines, lines)
    }

    /// Takes in which line of a block that was left to be checked doesn't hold.
    pub fn note(&mut self, bad: Option<usize>)
        ensures noted { (job : JobOf) (lines : List model.Line) (pairs : List model.Pair) (block : Block)
            (front behind : List Block) → HasSeen job lines pairs (front ++ block ∷ behind) self.old
            → BadLineOf job lines block bad → HasSeen job lines pairs (front ++ behind) self.new }
        ensures lines { self.new.lines ≡ self.old.lines }
    {
        self.bad_line = least(self.bad_line, bad);
    }

    /// Takes in the next lines of a certificate, and checks them. No pair lines came before them.
    ///
    /// # Errors
    ///
    /// `AllocError` where there is no memory. What is known then isn't said: it is to be dropped.
    pub fn take_lines(&mut self, job: &Job, lines: &[Line]) -> Result<(), AllocError>
        ensures { OnOk result
            ((before : List model.Line) (pairs : List model.Pair) (left : List Block)
            → (pairs ≡ []) ⊎ (map line_of lines.now ≡ []) → HasSeen (plan job.now) before pairs left self.old
            → HasSeen (plan job.now) (before ++ map line_of lines.now) pairs left self.new) }
    {
        let from = self.lines.len();
        self.conclude(lines)?;
        let bad = first_bad_line(job, &self.lines, from, lines);
        self.note(bad);
        Ok(())
    }

    /// Takes in pair lines, of which this is the first that doesn't hold.
    ///
    /// # Errors
    ///
    /// `AllocError` where there is no memory. What is known then isn't said: it is to be dropped.
    pub fn put(
        &mut self,
        alloc: Global,
        pairs: &[Pair],
        bad: Option<(u32, u32)>,
    ) -> Result<(), AllocError>
        ensures { OnOk result
            ((job : JobOf) (lines : List model.Line) (before : List model.Pair) (left : List Block)
            → HasSeen job lines before left self.old
            → BadPairIs job (map bare self.old.lines) (map pair_of pairs.now) bad
            → HasSeen job lines (before ++ map pair_of pairs.now) left self.new) }
    {
        mark_all(alloc, &mut self.flags, self.count, pairs)?;
        self.bad_pair = self.bad_pair.or(bad);
        Ok(())
    }

    /// Takes in the next pair lines of a certificate, and checks them by what its lines conclude.
    ///
    /// # Errors
    ///
    /// `AllocError` where there is no memory. What is known then isn't said: it is to be dropped.
    pub fn take_pairs(&mut self, alloc: Global, job: &Job, pairs: &[Pair]) -> Result<(), AllocError>
        ensures { OnOk result
            ((lines : List model.Line) (before : List model.Pair) (left : List Block)
            → HasSeen (plan job.now) lines before left self.old
            → HasSeen (plan job.now) lines (before ++ map pair_of pairs.now) left self.new) }
    {
        let bad = first_bad_pair(job, &self.lines, pairs);
        self.put(alloc, pairs, bad)
    }

    /// All lines and pair lines of a certificate.
    pub(crate) fn of(
        alloc: Global,
        job: &Job,
        certificate: &Certificate,
    ) -> Result<Seen, AllocError>
        ensures { IfOk result (IsSeen (plan job.now) certificate.now) }
    {
        let mut seen = Seen::new(alloc, job);
        seen.take_lines(job, certificate.lines())?;
        seen.take_pairs(alloc, job, certificate.pairs())?;
        Ok(seen)
    }

    /// What the lines conclude.
    pub fn lines(&self) -> &[Conclusion]
        ensures { result.now ≡ self.now.lines }
    {
        &self.lines
    }

    /// A line that doesn't hold.
    pub(crate) fn bad_line(&self) -> Option<usize>
        ensures { result ≡ self.now.bad_line }
    {
        self.bad_line
    }

    /// The packets of the first pair line that doesn't hold.
    pub(crate) fn bad_pair(&self) -> Option<(u32, u32)>
        ensures { result ≡ self.now.bad_pair }
    {
        self.bad_pair
    }

    /// Which kinds of conflict of which packets have pair lines: a row of bits for each packet and kind, or no rows,
    /// where there are no pair lines.
    pub(crate) fn flags(&self) -> &[u64]
        ensures flags { result.now ≡ self.now.flags }
        ensures rows { HasRows self.now.count result.now }
    {
        &self.flags
    }
}
