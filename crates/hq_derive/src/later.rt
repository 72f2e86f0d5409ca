//! Lines of later rounds made by one thread, all at once, and the numbers by which lines are found.

use crate::kept::{Middle, Middles};
use crate::making::Making;
use crate::numbering::{Numbered, Start, note_number, unnumbered};
use crate::ranks::Ranks;
use crate::short::Short;
use hq_order::Before;
use std::alloc::{AllocError, Global};

/// What there is of the needed lines of later rounds. Nothing is promised of it.
#[derive(Drop)]
pub struct Later {
    /// The number of each, by its rank.
    pub numbers: Vec<u32>,
    /// The lines, where they are made all at once; else they are to be added one by one.
    pub made: Option<Vec<Short>>,
}

/// Numbers and makes the lines of a round, the first of them so, through these middles; answers the number behind them.
fn make_round(
    numbers: &mut [u32],
    made: &mut Vec<Short>,
    ranks: &Ranks,
    middles: &[Middle],
    first: u32,
) -> Result<u32, AllocError> {
    let mut next = first;
    for middle in middles {
        let (p, m, r) = (middle.p(), middle.m(), middle.r());
        note_number(numbers, ranks, p, r, next);
        let making = Making { ranks, numbers };
        made.push(making.through(p, m, r).unwrap_or(Short::none()))?;
        next = next.saturating_add(1);
    }
    Ok(next)
}

impl Later {
    /// None is made.
    ///
    /// # Errors
    ///
    /// `AllocError` where there is no memory, as in all that follows.
    pub fn unmade(alloc: Global, ranks: &Ranks) -> Result<Later, AllocError> {
        Ok(Later {
            numbers: unnumbered(alloc, ranks)?,
            made: None,
        })
    }

    /// All are made, through the middles that were kept of them.
    pub fn through(alloc: Global, ranks: &Ranks, middles: &Middles) -> Result<Later, AllocError> {
        let mut numbers = unnumbered(alloc, ranks)?;
        let mut made = Vec::with_capacity(alloc, ranks.later())?;
        let mut next = ranks.first_later();
        let rounds = middles.rounds();
        for behind in 0..rounds {
            let kept = middles.of(rounds - 1 - behind);
            next = make_round(&mut numbers, &mut made, ranks, kept, next)?;
        }
        let made = if made.len() == ranks.later() {
            Some(made)
        } else {
            None
        };
        Ok(Later { numbers, made })
    }

    /// All are made, through middles that are looked for.
    pub fn sought(alloc: Global, before: &Before, ranks: &Ranks) -> Result<Later, AllocError> {
        let Numbered { numbers, .. } = Numbered::new(alloc, before, ranks)?;
        let mut made = vec![in alloc; Short::none(); ranks.later()]?;
        let making = Making {
            ranks,
            numbers: &numbers,
        };
        making.part(&mut made, before, Start::first());
        Ok(Later {
            numbers,
            made: Some(made),
        })
    }
}
