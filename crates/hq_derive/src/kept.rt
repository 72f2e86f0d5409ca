//! Through which packets lines of later rounds go, kept as they are found for the thread that makes the lines. Nothing is
//! promised of them: the lines are looked at.

ghost use Rattle.std.specs.Prelude.{◌<◌};

use hq_bits::WIDTH;
use std::alloc::{AllocError, Global};

/// That a packet is before another through a third, in one number: ten bits each.
#[derive(Clone, Copy, Debug)]
pub struct Middle {
    word: u32,
}

impl Middle {
    /// That p is before r through m.
    #[inline(always)]
    pub fn new(p: usize, m: usize, r: usize) -> Middle
        requires p_is { p < WIDTH }
        requires m_is { m < WIDTH }
        requires r_is { r < WIDTH }
    {
        let width = WIDTH as u32;
        Middle {
            word: p as u32 + width * (m as u32 + width * r as u32),
        }
    }

    #[inline(always)]
    pub fn p(self) -> usize {
        self.word as usize % WIDTH
    }

    #[inline(always)]
    pub fn m(self) -> usize {
        self.word as usize / WIDTH % WIDTH
    }

    #[inline(always)]
    pub fn r(self) -> usize {
        self.word as usize / WIDTH / WIDTH % WIDTH
    }
}

/// The middles of lines, from those of the last round down to those of round 1; in a round by the first packet, then by
/// the second.
#[derive(Drop)]
pub struct Middles {
    kept: Vec<Middle>,
    /// How many stand ahead of those of each round.
    starts: Vec<usize>,
}

impl Middles {
    /// None are kept yet.
    pub fn new(alloc: Global) -> Middles {
        Middles {
            kept: Vec::new(alloc),
            starts: Vec::new(alloc),
        }
    }

    /// Those of the round below come next.
    ///
    /// # Errors
    ///
    /// `AllocError` where there is no memory.
    pub fn go_down(&mut self) -> Result<(), AllocError> {
        let count = self.kept.len();
        self.starts.push(count)?;
        Ok(())
    }

    /// Keeps one.
    ///
    /// # Errors
    ///
    /// `AllocError` where there is no memory.
    #[inline(always)]
    pub fn keep(&mut self, middle: Middle) -> Result<(), AllocError> {
        self.kept.push(middle)?;
        Ok(())
    }

    /// Of how many rounds there are some.
    pub fn rounds(&self) -> usize {
        self.starts.len()
    }

    /// Those of a round, counted from the last one down; none where there is no such round.
    pub fn of(&self, round: usize) -> &[Middle] {
        let Some(from) = self.starts.get(round) else {
            return &[];
        };
        let behind = &self.kept[(*from).min(self.kept.len())..];
        match self.starts.get(round.saturating_add(1)) {
            Some(to) => &behind[..to.saturating_sub(*from).min(behind.len())],
            None => behind,
        }
    }
}
