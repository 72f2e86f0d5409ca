//! The order of a job's packets, worked out.

ghost use Rattle.std.specs.Prelude.{◌≡◌, ℕ, ◌+◌, ◌-◌, ◌<◌, ◌≤◌, ◌↔◌, true, false, IsTrue, IfOk, IfErr};
ghost use Rattle.std.specs.Prelude.{MatchOption, IfSome, length, ◌*◌};
ghost use Rattle.hq_job.specs.Plan.{plan};
ghost use Rattle.hq_model.specs.Order as order;
ghost use Rattle.hq_bits.specs.Bits.{Grown, has};
ghost use Rattle.hq_rows.specs.Lists.{AllAre};
ghost use Rattle.hq_rows.specs.Matrix.{row, words_for, Marks, IsSquare, last, earlier, lag};
ghost use Rattle.hq_rows.specs.Uniting.{Stepped};
ghost use Rattle.hq_waits.specs.Waits.{Completing};
ghost use Rattle.hq_order.specs.Rounds.{Direct, Next, IsFirstWithin, Between, IsMiddle, AreRounds, IsClosed};
ghost use Rattle.hq_order.specs.View.{AreOf};

use crate::direct::{direct_row, go_on};
use crate::hands::{Alone, Hands, Together};
use crate::rounds::has_no_either;
use hq_bits::{WIDTH, WORDS};
use hq_job::Job;
use hq_rows::{
    Known, are_same, are_whole, between, earlier_rows, first_turned, last_rows, marks, row_of,
    unions_if_many,
};
use hq_waits::{OrderFault, completing};
use std::alloc::{AllocError, Global};
use std::marker::Model;
use std::thread::Threads;

/// How many words a row has.
pub fn words_of(job: &Job) -> usize
    ensures words { result ≡ words_for (length job.now.packets) }
    ensures few { result ≤ WORDS }
    ensures room { length job.now.packets ≤ result * 64 }
{
    job.valid();
    (job.packets().len() + 63) / 64
}

/// The rows of the packets by the rules that rest on no other pair.
fn first_rows(
    alloc: Global,
    job: &Job,
    completing: &[Vec<u64>],
) -> Result<Vec<Vec<u64>>, AllocError>
    requires completing { AllAre
        (λ s set. Completing (plan job.now) s set.items
        × (length set.items ≡ words_for (length job.now.packets))) completing.now }
    requires signals { length completing.now ≡ length job.now.signals }
    ensures square { IfOk result (λ rows. IsSquare (length job.now.packets) rows.items) }
    ensures exact { IfOk result (λ rows. (p r : ℕ) → Marks rows.items p r ↔ Direct (plan job.now) p r) }
{
    let count = job.packets().len();
    let mut rows = Vec::with_capacity(alloc, count)?;
    let mut ahead = hq_bits::empty(alloc, words_of(job))?;
    for r in 0..count {
        go_on(&mut ahead, job, r);
        rows.push(direct_row(alloc, job, completing, &ahead, r)?)?;
    }
    Ok(rows)
}

/// The rows of the round after these. `renewed` has the packets whose rows in the last round have more than two of
/// the rows before give, and `new` is to have those of the next.
fn following<H: Hands>(
    hands: &H,
    alloc: Global,
    job: &Job,
    completing: &[Vec<u64>],
    rounds: &[Vec<Vec<u64>>],
    renewed: &[u64],
    new: &mut [u64],
) -> Result<Vec<Vec<u64>>, AllocError>
    requires rounds { AreRounds (plan job.now) rounds.now }
    requires stepped { Stepped (earlier rounds.now) (last rounds.now) renewed.now }
    requires completing { AllAre
        (λ s set. Completing (plan job.now) s set.items
        × (length set.items ≡ words_for (length job.now.packets))) completing.now }
    requires signals { length completing.now ≡ length job.now.signals }
    requires room { length job.now.packets ≤ length new.old * 64 }
    ensures square { IfOk result (λ rows. IsSquare (length job.now.packets) rows.items) }
    ensures grown { IfOk result (λ rows. (r : ℕ) → Grown (row (last rounds.now) r) (row rows.items r)) }
    ensures exact { IfOk result
        (λ rows. (p r : ℕ) → Marks rows.items p r ↔ Next (plan job.now) (Marks (last rounds.now)) p r) }
    ensures stepped { IfOk result (λ rows. Stepped (last rounds.now) rows.items new.new) }
{
    let rows = last_rows(rounds);
    let earlier = earlier_rows(rounds);
    let unions = unions_if_many(alloc, rows, earlier, renewed, words_of(job))?;
    let known = Known {
        rows,
        earlier,
        renewed,
        unions: &unions,
    };
    hands.next_rows(alloc, job, completing, &known, new)
}

/// Whether one more round would add nothing, as far as that is told without the rows of that round.
fn is_closed(job: &Job, rounds: &[Vec<Vec<u64>>], renewed: &[u64]) -> bool
    requires rounds { AreRounds (plan job.now) rounds.now }
    requires stepped { Stepped (earlier rounds.now) (last rounds.now) renewed.now }
    ensures { IsTrue result → IsClosed (plan job.now) rounds.now }
{
    job.valid();
    let known = Known {
        rows: last_rows(rounds),
        earlier: earlier_rows(rounds),
        renewed,
        unions: &[],
    };
    has_no_either(job) && are_whole(&known)
}

/// Adds the next round, and answers true, unless it would be the same as the last. `renewed` has the packets whose
/// rows in the last round have more than two of the rows before give.
fn add_round<H: Hands>(
    hands: &H,
    alloc: Global,
    job: &Job,
    completing: &[Vec<u64>],
    rounds: &mut Vec<Vec<Vec<u64>>>,
    renewed: &mut Vec<u64>,
) -> Result<bool, AllocError>
    requires rounds { AreRounds (plan job.now) rounds.old.items }
    requires stepped { Stepped (earlier rounds.old.items) (last rounds.old.items) renewed.old.items }
    requires completing { AllAre
        (λ s set. Completing (plan job.now) s set.items
        × (length set.items ≡ words_for (length job.now.packets))) completing.now }
    requires signals { length completing.now ≡ length job.now.signals }
    ensures rounds { IfOk result (λ _. AreRounds (plan job.now) rounds.new.items) }
    ensures stepped { IfOk result
        (λ more. IsTrue more → Stepped (earlier rounds.new.items) (last rounds.new.items) renewed.new.items) }
    ensures falls { IfOk result (λ more. IsTrue more → lag rounds.new.items < lag rounds.old.items) }
    ensures closed { IfOk result (λ more. more ≡ false → IsClosed (plan job.now) rounds.new.items) }
{
    job.valid();
    if is_closed(job, rounds, renewed) {
        return Ok(false);
    }
    let mut new = hq_bits::empty(alloc, WORDS)?;
    let next = following(hands, alloc, job, completing, rounds, renewed, &mut new)?;
    if are_same(&next, last_rows(rounds)) {
        return Ok(false);
    }
    rounds.push(next)?;
    *renewed = new;
    Ok(true)
}

/// All rounds, until one would add nothing.
fn all_rounds<H: Hands>(
    hands: &H,
    alloc: Global,
    job: &Job,
    completing: &[Vec<u64>],
) -> Result<Vec<Vec<Vec<u64>>>, AllocError>
    requires completing { AllAre
        (λ s set. Completing (plan job.now) s set.items
        × (length set.items ≡ words_for (length job.now.packets))) completing.now }
    requires signals { length completing.now ≡ length job.now.signals }
    ensures rounds { IfOk result (λ rounds. AreRounds (plan job.now) rounds.items) }
    ensures closed { IfOk result (λ rounds. IsClosed (plan job.now) rounds.items) }
{
    job.valid();
    let mut rounds = Vec::new(alloc);
    rounds.push(first_rows(alloc, job, completing)?)?;
    let mut renewed = hq_bits::full(alloc, WORDS)?;
    'rounds: while add_round(hands, alloc, job, completing, &mut rounds, &mut renewed)? {}
    Ok(rounds)
}

/// Which packets come before which in a round and in none below it, asked for word by word.
#[derive(Clone, Copy)]
pub struct Fresh<'a> {
    /// What packets come before by the rounds below this one.
    earlier: &'a [u64],
    /// What they come before by this one. Of the last round there is no table.
    table: Option<&'a [u64]>,
}

impl Fresh<'_> {
    /// The packets of a word that p comes before so, as bits. In the last round those are among them too that p doesn't
    /// come before.
    #[inline(always)]
    pub fn word(&self, p: usize, place: usize) -> u64 {
        let at = p.wrapping_mul(WORDS).wrapping_add(place);
        let earlier = hq_bits::word_at(self.earlier, at);
        match self.table {
            Some(table) => hq_bits::less(hq_bits::word_at(table, at), earlier),
            None => !earlier,
        }
    }
}

/// The order of a job's packets: which is complete before which becomes active, in every run. Contracts see it as
/// the plan of the job.
#[derive(Drop)]
pub struct Before<'a> {
    job: &'a Job,
    found: Rounds,
}

/// The rounds by which a job's order was worked out, apart from the job. They are those of each job that differs
/// from it in the scopes of fences alone.
#[derive(Drop)]
pub struct Rounds {
    rounds: Vec<Vec<Vec<u64>>>,
    /// For each round but the last the rows turned round: what a packet is before.
    columns: Vec<Vec<u64>>,
    /// For each signal the packets that complete on it. Nothing rests on these: they tell where to look first.
    completing: Vec<Vec<u64>>,
}

impl Rounds {
    /// The order of a job that has these rounds.
    pub fn over<'a>(self, job: &'a Job) -> Before<'a>
        requires { AreOf (plan job.now) self }
        ensures { result ≡ plan job.now }
    {
        Before { job, found: self }
    }
}

impl<'a> Model for Before<'a> {
    ghost use Rattle.hq_model.specs.Job.{Job as Plan};
    ghost use Rattle.hq_order.specs.View.{order_of, IsOrder};

    ghost Value = { Plan };

    ghost view = { order_of };

    ghost invariant = { IsOrder };
}

impl<'a> Before<'a> {
    /// Works the order out.
    ///
    /// # Errors
    ///
    /// `Memory` alone.
    pub fn build(alloc: Global, job: &'a Job) -> Result<Before<'a>, OrderFault>
        ensures plan { IfOk result (λ b. b ≡ plan job.now) }
        ensures memory { IfErr result (λ e. e ≡ OrderFault.Memory) }
    {
        Before::build_by(&Alone, alloc, job)
    }

    /// Works the order out, by several threads where much is to be gone through.
    ///
    /// # Errors
    ///
    /// `Memory` alone.
    pub fn build_wide<R: Threads>(
        rt: &R,
        alloc: Global,
        job: &'a Job,
    ) -> Result<Before<'a>, OrderFault>
        ensures plan { IfOk result (λ b. b ≡ plan job.now) }
        ensures memory { IfErr result (λ e. e ≡ OrderFault.Memory) }
    {
        Before::build_by(&Together { rt }, alloc, job)
    }

    /// Does so by these hands.
    fn build_by<H: Hands>(hands: &H, alloc: Global, job: &'a Job) -> Result<Before<'a>, OrderFault>
        ensures plan { IfOk result (λ b. b ≡ plan job.now) }
        ensures memory { IfErr result (λ e. e ≡ OrderFault.Memory) }
    {
        job.valid();
        let completing = completing(alloc, job, words_of(job))?;
        let rounds = all_rounds(hands, alloc, job, &completing)?;
        let columns = hands.all_turned(alloc, &rounds)?;
        let found = Rounds {
            rounds,
            columns,
            completing,
        };
        Ok(Before { job, found })
    }

    /// Whether p is complete before r becomes active, in every run; false where there is no such packet.
    pub fn holds(&self, p: usize, r: usize) -> bool
        ensures { IsTrue result ↔ order.Before self.now p r }
    {
        let last = &self.found.rounds[self.found.rounds.len() - 1];
        marks(last, p, r)
    }

    /// The packets that are complete before r becomes active, in every run, as bits.
    pub fn ahead(&self, r: usize) -> &[u64]
        requires { r < length self.now.packets }
        ensures has { (p : ℕ) → IsTrue (has result.now p) ↔ order.Before self.now p r }
        ensures len { length result.now ≡ words_for (length self.now.packets) }
    {
        row_of(&self.found.rounds[self.found.rounds.len() - 1], r)
    }

    /// The earliest round in which that comes: 0 where a rule gives it alone, else one more than the latest of the
    /// pairs that it rests on.
    pub fn round(&self, p: usize, r: usize) -> Option<usize>
        ensures { MatchOption result (order.Before self.now p r → ⊥) (λ k. IsFirstWithin self.now k p r) }
    {
        let rounds = &self.found.rounds;
        if p >= WIDTH {
            return None;
        }
        if r >= WIDTH {
            return None;
        }
        first_turned(rounds, &self.found.columns, p, r)
    }

    /// That round, where it is known that p is before r.
    pub fn first_round(&self, p: usize, r: usize) -> usize
        requires { order.Before self.now p r }
        ensures { IsFirstWithin self.now result p r }
    {
        self.round(p, r).unwrap()
    }

    /// The least packet that p is before, and that is before r, by rounds below that in which p is first before r.
    pub fn middle(&self, round: usize, p: usize, r: usize) -> Option<usize>
        requires p_is { p < length self.now.packets }
        requires first { IsFirstWithin self.now round p r }
        ensures { MatchOption result ((m : ℕ) → Between self.now round p r m → ⊥) (IsMiddle self.now round p r) }
    {
        self.job.valid();
        if round == 0 {
            return None;
        }
        between(
            &self.found.rounds[round - 1],
            &self.found.columns[round - 1],
            p,
            r,
        )
    }

    /// The least packet that p is before, and that is before r, both by rounds below this one.
    pub fn between(&self, round: usize, p: usize, r: usize) -> Option<usize>
        requires { p < length self.now.packets }
        ensures few { IfSome result (λ m. m < length self.now.packets) }
        ensures between { IfSome result (Between self.now round p r) }
    {
        self.job.valid();
        if round == 0 || round >= self.found.rounds.len() {
            return None;
        }
        let below = round - 1;
        between(&self.found.rounds[below], &self.found.columns[below], p, r)
    }

    /// How many rounds there are.
    pub fn rounds(&self) -> usize {
        self.found.rounds.len()
    }

    /// Which packets come before which in a round and in none below it.
    pub fn fresh(&self, round: usize) -> Fresh<'_> {
        let earlier = match round.checked_sub(1) {
            Some(earlier) => row_of(&self.found.columns, earlier),
            None => &[],
        };
        let table: Option<&[u64]> = match self.found.columns.get(round) {
            Some(table) => Some(table),
            None => None,
        };
        Fresh { earlier, table }
    }

    /// The least packet that completes on the signal and that p comes before by rounds below this one, where such a one
    /// is found at once.
    pub fn completer(&self, round: usize, p: usize, signal: u16) -> Option<usize> {
        let table = self.found.columns.get(round.checked_sub(1)?)?;
        let completing = self.found.completing.get(signal as usize)?;
        for (place, word) in completing.iter().enumerate() {
            let at = p.wrapping_mul(WORDS).wrapping_add(place);
            let both = *word & hq_bits::word_at(table, at);
            if both != 0 {
                return Some(place.wrapping_mul(64).wrapping_add(hq_bits::lowest(both)));
            }
        }
        None
    }

    /// The rounds, apart from the job.
    pub fn into_rounds(self) -> Rounds
        ensures { AreOf self.entry result }
    {
        let Before { found, .. } = self;
        found
    }

    /// The job.
    pub fn job(&self) -> &'a Job
        ensures { plan result.now ≡ self.now }
    {
        self.job
    }

    /// How many packets there are.
    pub fn len(&self) -> usize
        ensures { result ≡ length self.now.packets }
    {
        self.job.packets().len()
    }
}
