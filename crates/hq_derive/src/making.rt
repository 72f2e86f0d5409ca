//! Lines of later rounds, made all at once: each through two others, by the numbers that these are to have. Nothing
//! is promised of them; whether they hold is looked at when all are there.

ghost use Rattle.std.specs.Prelude.{◌+◌, ◌≤◌};
ghost use Rattle.hq_model.specs.Job.{IsPacket};

use crate::numbering::Start;
use crate::ranks::{Rank, Ranks};
use crate::short::{NUMBERS, Short, THROUGH};
use hq_bits::{WIDTH, lowest, without};
use hq_order::{Before, Fresh};
use std::thread::{Threads, join_mut};

/// What lines are made by: the order, and the number of each line by its rank.
#[derive(Clone, Copy)]
pub struct Making<'m> {
    pub ranks: &'m Ranks,
    pub numbers: &'m [u32],
}

impl Making<'_> {
    /// The number that the line is to have that p is before r.
    #[inline(always)]
    fn number(&self, p: usize, r: usize) -> Option<u32> {
        match self.ranks.rank(p, r)? {
            Rank::Initial(number) => Some(number),
            Rank::Later(rank) => {
                let number = *self.numbers.get(rank as usize)?;
                Some(number)
            }
        }
    }

    /// The line that p is before r, through m.
    #[inline(always)]
    pub fn through(&self, p: usize, m: usize, r: usize) -> Option<Short> {
        let (first, second) = (self.number(p, m)?, self.number(m, r)?);
        if p >= WIDTH || r >= WIDTH || first as u64 >= NUMBERS || second as u64 >= NUMBERS {
            return None;
        }
        Some(Short::new(THROUGH, p, r, first, second))
    }

    /// The line that p is before r, through the least packet between them by lower rounds.
    #[inline(always)]
    fn line(&self, before: &Before, round: usize, p: usize, r: usize) -> Option<Short>
        requires { IsPacket before.now p }
    {
        let m = before.between(round, p, r)?;
        self.through(p, m, r)
    }

    /// Makes the lines that p is before the packets of a word, of which the first one is this, and puts them from a
    /// place on; answers the place behind them.
    #[inline(always)]
    fn word(
        &self,
        lines: &mut [Short],
        before: &Before,
        round: usize,
        p: usize,
        word: u64,
        first: usize,
        at: usize,
    ) -> usize
        requires first { first + 64 ≤ WIDTH }
        requires p_is { IsPacket before.now p }
    {
        let mut next = at;
        let mut rest = word;
        'each: while rest != 0 {
            let bit = lowest(rest);
            if let Some(place) = lines.get_mut(next) {
                if let Some(line) = self.line(before, round, p, first + bit) {
                    *place = line;
                }
            }
            next = next.saturating_add(1);
            rest = without(rest, bit);
        }
        next
    }

    /// Makes the needed lines that p is before others, of those that come first in this round.
    fn row(
        &self,
        lines: &mut [Short],
        before: &Before,
        fresh: &Fresh,
        round: usize,
        p: usize,
        at: usize,
    ) -> usize
        requires { IsPacket before.now p }
    {
        let mut next = at;
        for (k, place) in self.ranks.row(p).iter().enumerate() {
            if place.later != 0 {
                let word = place.later & fresh.word(p, k);
                next = self.word(lines, before, round, p, word, k * 64, next);
            }
        }
        next
    }

    /// Makes those that packets are before others in this round, from a packet on, as long as there is room.
    fn round(
        &self,
        lines: &mut [Short],
        before: &Before,
        round: usize,
        packet: usize,
        at: usize,
    ) -> usize {
        let fresh = before.fresh(round);
        let mut next = at;
        for p in packet..before.len() {
            if next >= lines.len() {
                return next;
            }
            next = self.row(lines, before, &fresh, round, p, next);
        }
        next
    }

    /// Makes the lines of a part.
    pub fn part(&self, lines: &mut [Short], before: &Before, start: Start) {
        let mut at = self.round(lines, before, start.round, start.packet, 0);
        for round in start.round.saturating_add(1)..before.rounds() {
            at = self.round(lines, before, round, 0, at);
        }
    }
}

/// How many lines a part has that begins here, where the other parts are behind it and there is so much room.
fn count_of(start: Start, others: &[Start], room: usize) -> usize
    ensures { result ≤ room }
{
    match others.first() {
        Some(next) => next.ahead.saturating_sub(start.ahead).min(room),
        None => room,
    }
}

/// Makes the lines of these parts, each in a thread of its own. All threads are started here, and this one only waits:
/// the first that is started may be given this thread's processor.
#[cycle(parts)]
pub fn make_parts<R: Threads>(
    rt: &R,
    making: &Making,
    before: &Before,
    lines: &mut [Short],
    starts: &[Start],
) {
    let Some((start, others)) = starts.split_first() else {
        return;
    };
    let count = count_of(*start, others, lines.len());
    let (own, rest) = lines.split_at_mut(count);
    let mut beside = || { making.part(own, before, *start) };
    let mut here = || { make_parts(rt, making, before, rest, others) };
    join_mut(rt, &mut beside, &mut here);
}
