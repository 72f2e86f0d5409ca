//! The lines of a certificate, gathered.

ghost use Rattle.std.specs.Prelude.{◌≡◌, ℕ, ◌+◌, ◌*◌, ◌^◌, ◌<◌, ◌++◌, ◌∷◌, [], IfOk, IfSome, MatchOption, OnOk, Some};
ghost use Rattle.std.specs.Prelude.{IsTrue};
ghost use Rattle.std.specs.Prelude.{length, map, slice_get};
ghost use Rattle.hq_cert.specs.View.{rule_of, line_of};
ghost use Rattle.hq_job.specs.Plan.{plan};
ghost use Rattle.hq_model.specs.Job.{packet};
ghost use Rattle.hq_model.specs.Job.{IsPacket};
ghost use Rattle.hq_model.specs.Certificate.{Says, signals};
ghost use Rattle.hq_order.specs.Rounds.{IsFirstWithin, Reaches, ByOr};
ghost use Rattle.hq_derive.specs.Rests.{Below, ByMiddle, FollowsAlone};
ghost use Rattle.hq_derive.specs.Gathered.{lines_of, AreSound, AddsLine, Goes, InitialThere, Numbered, Ruled};
ghost use Rattle.hq_derive.specs.Short.{told};
ghost use Rattle.hq_derive.specs.Gathered.{Branched, AllBranched};
ghost use Rattle.hq_derive.specs.Needed.{AllThere, HasLine, HasRoom, IsNumber};

use crate::grounds::{Ground, branch_of, ground_of};
use crate::hands::MakesLines;
use crate::needs::Needs;
use crate::numbering::note_number;
use crate::ranks::{Rank, Ranks};
use crate::short::Short;
use crate::store::Store;
use crate::there::are_there;
use crate::told::Told;
use hq_bits::WIDTH;
use hq_cert::{Branches, Citation, Line, Rule};
use hq_job::Job;
use hq_order::Before;
use std::alloc::{AllocError, Global};

/// The lines so far. Where the number of a line is found is only a guess: whether it is that line's is told by the line
/// itself.
#[derive(Drop)]
pub struct Lines {
    ranks: Ranks,
    /// The numbers of the lines of later rounds, by their ranks.
    numbers: Vec<u32>,
    lines: Store,
}

impl Lines {
    /// No lines, with room for so many of round 0.
    pub(crate) fn new(alloc: Global, job: &Job, initial: usize) -> Result<Lines, AllocError>
        ensures sound { IfOk result (AreSound (plan job.now)) }
        ensures none { IfOk result (λ l. lines_of l ≡ []) }
    {
        job.valid();
        Ok(Lines {
            ranks: Ranks::none(alloc),
            numbers: Vec::new(alloc),
            lines: Store::new(alloc, initial)?,
        })
    }

    /// No lines: those of a job of which no two packets conflict.
    ///
    /// # Errors
    ///
    /// `AllocError` where there is no memory.
    pub fn none(alloc: Global, job: &Job) -> Result<Lines, AllocError>
        ensures sound { IfOk result (AreSound (plan job.now)) }
        ensures none { IfOk result (λ l. lines_of l ≡ []) }
    {
        Lines::new(alloc, job, 0)
    }

    /// The numbers of lines are found by these ranks: of later rounds, those that are noted so.
    pub(crate) fn number_by(&mut self, ranks: Ranks, numbers: Vec<u32>)
        ensures lines { self.new.lines ≡ self.old.lines }
        ensures ranks { self.new.ranks ≡ ranks }
    {
        self.ranks = ranks;
        self.numbers = numbers;
    }

    /// How many lines there are.
    pub fn len(&self) -> usize
        ensures is { result ≡ length (lines_of self.now) }
        ensures small { result < 2 ^ 32 }
    {
        self.lines.len()
    }

    /// Line k.
    #[inline(always)]
    pub fn line(&self, k: usize) -> Told<'_>
        requires { k < length (lines_of self.now) }
        ensures { slice_get (lines_of self.now) k ≡ Some (told result) }
    {
        self.lines.line(k)
    }

    /// All lines, and nothing else.
    ///
    /// # Errors
    ///
    /// `AllocError` where there is no memory.
    pub fn into_lines(self, alloc: Global) -> Result<Vec<Line>, AllocError>
        ensures { IfOk result (λ lines. map line_of lines.items ≡ lines_of self) }
    {
        self.lines.into_lines(alloc)
    }

    /// This number, if it is that of a line that p is before r.
    #[inline(never)]
    fn if_said(&self, number: u32, p: usize, r: usize) -> Option<u32>
        ensures { MatchOption result (Unit {0}) (IsNumber (lines_of self.now) p r) }
    {
        if self.lines.says(number as usize, p, r) {
            Some(number)
        } else {
            None
        }
    }

    /// The number of the line that p is before r, if there is one.
    #[inline(always)]
    pub fn known(&self, p: usize, r: usize) -> Option<u32>
        ensures { MatchOption result (Unit {0}) (IsNumber (lines_of self.now) p r) }
    {
        match self.ranks.rank(p, r)? {
            Rank::Initial(number) if self.lines.is_lone(number as usize, p, r) => Some(number),
            Rank::Initial(number) => self.if_said(number, p, r),
            Rank::Later(rank) => {
                let number = *self.numbers.get(rank as usize)?;
                self.if_said(number, p, r)
            }
        }
    }

    /// Notes the number of the line that p is before r.
    #[inline(always)]
    fn remember(&mut self, p: usize, r: usize, number: u32)
        ensures lines { self.new.lines ≡ self.old.lines }
        ensures ranks { self.new.ranks ≡ self.old.ranks }
    {
        note_number(&mut self.numbers, &self.ranks, p, r, number);
    }

    /// Adds a line, and answers its number.
    #[inline(always)]
    fn add(&mut self, p: usize, r: usize, rule: Rule) -> Result<u32, AllocError>
        requires p_is { p < WIDTH }
        requires r_is { r < WIDTH }
        ensures lines { IfOk result
            (λ _. lines_of self.new ≡ lines_of self.old ++ record { p = p; r = r; rule = rule_of rule } ∷ []) }
        ensures number { IfOk result (λ k. k ≡ length (lines_of self.old)) }
        ensures small { IfOk result (λ k. k + 1 < 2 ^ 32) }
        ensures ranks { IfOk result (λ _. self.new.ranks ≡ self.old.ranks) }
    {
        let number = self.lines.len() as u32;
        self.lines.push(p, r, rule)?;
        self.remember(p, r, number);
        Ok(number)
    }

    /// Adds the line that p is before r by a rule that cites no line.
    #[inline(always)]
    pub(crate) fn add_alone(
        &mut self,
        before: &Before,
        p: usize,
        r: usize,
        rule: Rule,
    ) -> Result<(), AllocError>
        requires kept { AreSound before.now self.old }
        requires p_is { IsPacket before.now p }
        requires r_is { IsPacket before.now r }
        requires rule { FollowsAlone before.now p r rule }
        ensures { OnOk result (AddsLine before.now self.old self.new p r) }
    {
        self.lines.push(p, r, rule)?;
        Ok(())
    }

    /// Adds lines that were made all at once; answers whether it did: not where they don't hold, through two lines ahead
    /// of them each, as these hands look at it.
    pub(crate) fn add_made<H: MakesLines>(
        &mut self,
        hands: &H,
        alloc: Global,
        before: &Before,
        made: Vec<Short>,
    ) -> bool
        requires { AreSound before.now self.old }
        ensures { Goes before.now self.old self.new }
    {
        before.job().valid();
        if !hands.are_through(&self.lines, &made) {
            return false;
        }
        self.lines.take(alloc, made)
    }

    /// Whether each line is there that is noted as needed. Those of round 0 are.
    ///
    /// # Errors
    ///
    /// `AllocError` where there is no memory.
    pub(crate) fn has_all(
        &self,
        alloc: Global,
        before: &Before,
        needs: &Needs,
    ) -> Result<bool, AllocError>
        requires initial { InitialThere (lines_of self.now) self.now.ranks }
        requires room { HasRoom before.now needs.now }
        ensures { IfOk result (λ are. IsTrue are → AllThere needs.now (lines_of self.now)) }
    {
        are_there(alloc, self, &self.ranks, before, needs)
    }

    /// The number of a line that is there, which says that p is before r.
    #[inline(always)]
    pub fn number(&self, p: usize, r: usize) -> u32
        requires { HasLine (lines_of self.now) p r }
        ensures { IsNumber (lines_of self.now) p r result }
    {
        match self.known(p, r) {
            Some(number) => number,
            None => self.search(p, r),
        }
    }

    /// The same, by a look at each line.
    #[cold]
    #[inline(never)]
    fn search(&self, p: usize, r: usize) -> u32
        requires { HasLine (lines_of self.now) p r }
        ensures { IsNumber (lines_of self.now) p r result }
    {
        let mut k = 0;
        'lines: while !self.lines.line(k).says(p, r) {
            k += 1;
        }
        k as u32
    }

    /// Adds the line that p is before r, which comes first in this round, behind those that it cites; answers its
    /// number.
    #[cycle(number)]
    pub(crate) fn numbered(
        &mut self,
        alloc: Global,
        before: &Before,
        round: usize,
        p: usize,
        r: usize,
    ) -> Result<u32, AllocError>
        requires kept { AreSound before.now self.old }
        requires first { IsFirstWithin before.now round p r }
        ensures { IfOk result (λ k. Numbered before.now self.old self.new p r k) }
    {
        let rule = self.rule(alloc, before, round, p, r)?;
        self.add(p, r, rule)
    }

    /// The numbers of the lines that p is before m, and m before r, if both are there.
    #[inline(always)]
    fn both_known(&self, p: usize, m: usize, r: usize) -> Option<(u32, u32)>
        ensures { IfSome result
            (λ n. Says (lines_of self.now) (length (lines_of self.now)) n.0 p m
            × Says (lines_of self.now) (length (lines_of self.now)) n.1 m r) }
    {
        let first = self.known(p, m)?;
        let second = self.known(m, r)?;
        Some((first, second))
    }

    /// The rule that p is before m, and m before r, mostly by lines that are there.
    #[inline(always)]
    fn joined(
        &mut self,
        alloc: Global,
        before: &Before,
        round: usize,
        p: usize,
        m: usize,
        r: usize,
    ) -> Result<Rule, AllocError>
        requires kept { AreSound before.now self.old }
        requires middle { ByMiddle before.now round p r m }
        ensures { IfOk result (λ rule. Ruled before.now self.old self.new p r rule) }
    {
        if let Some((first, second)) = self.both_known(p, m, r) {
            return Ok(Rule::Through(first, second));
        }
        self.through(alloc, before, round, p, m, r)
    }

    /// Adds the line that p is before r through m, by lower rounds, behind those that it cites; answers its number.
    #[inline(always)]
    pub(crate) fn between(
        &mut self,
        alloc: Global,
        before: &Before,
        round: usize,
        p: usize,
        m: usize,
        r: usize,
    ) -> Result<u32, AllocError>
        requires kept { AreSound before.now self.old }
        requires middle { ByMiddle before.now round p r m }
        ensures { IfOk result (λ k. Numbered before.now self.old self.new p r k) }
    {
        let rule = self.joined(alloc, before, round, p, m, r)?;
        self.add(p, r, rule)
    }

    /// The number of the line that p is before r by lower rounds. Where there is none yet, it goes in.
    #[cycle(number)]
    fn cited(
        &mut self,
        alloc: Global,
        before: &Before,
        round: usize,
        p: usize,
        r: usize,
    ) -> Result<u32, AllocError>
        requires kept { AreSound before.now self.old }
        requires below { Below before.now round p r }
        ensures { IfOk result (λ k. Numbered before.now self.old self.new p r k) }
    {
        if let Some(number) = self.known(p, r) {
            return Ok(number);
        }
        self.numbered(alloc, before, before.first_round(p, r), p, r)
    }

    /// The rule by which p is before r, with the lines that it cites.
    #[cycle(number)]
    #[tactic(auto, using(crate::proofs::Founded::within_first))]
    fn rule(
        &mut self,
        alloc: Global,
        before: &Before,
        round: usize,
        p: usize,
        r: usize,
    ) -> Result<Rule, AllocError>
        requires kept { AreSound before.now self.old }
        requires first { IsFirstWithin before.now round p r }
        ensures { IfOk result (λ rule. Ruled before.now self.old self.new p r rule) }
    {
        match ground_of(before, round, p, r) {
            Ground::Alone(rule) => Ok(rule),
            Ground::Or => self.either(alloc, before, round, p, r),
            Ground::Through(m) => self.through(alloc, before, round, p, m, r),
        }
    }

    /// The rule that p is before m, and m before r.
    #[cycle(number)]
    fn through(
        &mut self,
        alloc: Global,
        before: &Before,
        round: usize,
        p: usize,
        m: usize,
        r: usize,
    ) -> Result<Rule, AllocError>
        requires kept { AreSound before.now self.old }
        requires middle { ByMiddle before.now round p r m }
        ensures { IfOk result (λ rule. Ruled before.now self.old self.new p r rule) }
    {
        let first = self.cited(alloc, before, round, p, m)?;
        let second = self.cited(alloc, before, round, m, r)?;
        Ok(Rule::Through(first, second))
    }

    /// The rule that p is complete whichever dependency of r is over.
    #[cycle(number)]
    fn either(
        &mut self,
        alloc: Global,
        before: &Before,
        round: usize,
        p: usize,
        r: usize,
    ) -> Result<Rule, AllocError>
        requires kept { AreSound before.now self.old }
        requires p_is { IsPacket before.now p }
        requires either { ByOr before.now (Below before.now round) p r }
        ensures { IfOk result (λ rule. Ruled before.now self.old self.new p r rule) }
    {
        let waiting = before.job().packet(r);
        let citations = self.branches(alloc, before, round, p, &waiting.slots)?;
        Ok(Rule::Or(Box::new(alloc, Branches { citations })?))
    }

    /// What is cited for each of the signals.
    #[cycle(number)]
    fn branches(
        &mut self,
        alloc: Global,
        before: &Before,
        round: usize,
        p: usize,
        slots: &[Option<u16>],
    ) -> Result<Vec<Citation>, AllocError>
        requires kept { AreSound before.now self.old }
        requires p_is { IsPacket before.now p }
        requires each { (slot s : ℕ) → slice_get slots.now slot ≡ Some (Some s)
            → Reaches before.now (Below before.now round) p s }
        ensures { IfOk result
            (λ citations. AllBranched before.now self.old self.new p (signals slots.now) citations.items) }
    {
        let mut citations = Vec::new(alloc);
        for slot in slots {
            if let Some(signal) = slot {
                citations.push(self.branch(alloc, before, round, p, *signal)?)?;
            }
        }
        Ok(citations)
    }

    /// What is cited for a signal.
    #[cycle(number)]
    fn branch(
        &mut self,
        alloc: Global,
        before: &Before,
        round: usize,
        p: usize,
        signal: u16,
    ) -> Result<Citation, AllocError>
        requires kept { AreSound before.now self.old }
        requires p_is { IsPacket before.now p }
        requires reaches { Reaches before.now (Below before.now round) p signal }
        ensures { IfOk result (λ citation. Branched before.now self.old self.new p signal citation) }
    {
        let d = branch_of(before, round, p, signal).unwrap();
        if d == p {
            return Ok(Citation::same());
        }
        let number = self.cited(alloc, before, round, p, d)?;
        Ok(Citation::line(number))
    }
}
