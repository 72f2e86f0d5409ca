//! The numbers that lines of later rounds are to have, by their ranks, before the lines are made.

use crate::ranks::{Place, Rank, Ranks};
use hq_bits::{lowest, without};
use hq_order::{Before, Fresh};
use std::alloc::{AllocError, Global};

/// In how many parts the lines are made, each in a thread of its own.
pub const PARTS: usize = 4;

/// Stands for the number of a line that isn't there yet: no line has it.
const NONE: u32 = u32::MAX;

/// Where a part of the lines begins: in a round, with those that a packet is before others; and how many lines of later
/// rounds are ahead of it.
#[derive(Clone, Copy, Debug)]
pub struct Start {
    pub round: usize,
    pub packet: usize,
    pub ahead: usize,
}

impl Start {
    /// Where all lines begin.
    pub fn first() -> Start {
        Start {
            round: 1,
            packet: 0,
            ahead: 0,
        }
    }
}

/// A number for each needed line of a later round, none of them known yet.
///
/// # Errors
///
/// `AllocError` where there is no memory.
pub fn unnumbered(alloc: Global, ranks: &Ranks) -> Result<Vec<u32>, AllocError> {
    vec![in alloc; NONE; ranks.later()]
}

/// Notes the number of the line that p is before r, if that is a needed line of a later round.
#[inline(always)]
pub fn note_number(numbers: &mut [u32], ranks: &Ranks, p: usize, r: usize, number: u32) {
    if let Some(Rank::Later(rank)) = ranks.rank(p, r) {
        if let Some(noted) = numbers.get_mut(rank as usize) {
            *noted = number;
        }
    }
}

/// Numbers the lines of a word that are needed at a place, the first of them so; answers the number behind them.
#[inline(always)]
fn number_word(numbers: &mut [u32], place: &Place, word: u64, first: u32) -> u32 {
    let mut next = first;
    let mut rest = word;
    'each: while rest != 0 {
        let bit = lowest(rest);
        if let Some(number) = numbers.get_mut(place.later_rank(bit) as usize) {
            *number = next;
        }
        next = next.saturating_add(1);
        rest = without(rest, bit);
    }
    next
}

/// Numbers the needed lines that p is before others, of those that come first in a round.
fn number_row(numbers: &mut [u32], ranks: &Ranks, fresh: &Fresh, p: usize, first: u32) -> u32 {
    let mut next = first;
    for (k, place) in ranks.row(p).iter().enumerate() {
        if place.later != 0 {
            let word = place.later & fresh.word(p, k);
            next = number_word(numbers, place, word, next);
        }
    }
    next
}

/// The number of each needed line of a later round, by its rank, and where parts of about as many lines each begin.
#[derive(Drop)]
pub struct Numbered {
    pub numbers: Vec<u32>,
    pub starts: Vec<Start>,
}

impl Numbered {
    /// Numbers the needed lines of later rounds, behind those of round 0: by round, then by the first packet, then by
    /// the second.
    ///
    /// # Errors
    ///
    /// `AllocError` where there is no memory.
    pub fn new(alloc: Global, before: &Before, ranks: &Ranks) -> Result<Numbered, AllocError> {
        let mut numbers = unnumbered(alloc, ranks)?;
        let share = ranks.later().div_ceil(PARTS);
        let mut starts = Vec::with_capacity(alloc, PARTS)?;
        let first = ranks.first_later();
        let mut next = first;
        for round in 1..before.rounds() {
            let fresh = before.fresh(round);
            for packet in 0..before.len() {
                let ahead = next.saturating_sub(first) as usize;
                if starts.len() < PARTS && ahead >= share.saturating_mul(starts.len()) {
                    starts.push(Start {
                        round,
                        packet,
                        ahead,
                    })?;
                }
                next = number_row(&mut numbers, ranks, &fresh, packet, next);
            }
        }
        Ok(Numbered { numbers, starts })
    }
}
