//! How far long work has come, on standard error.

use hq_change::Watch;
use hq_runner::Gate;
use std::io::IsTerminal;
use std::sync::atomic::{AtomicU64, Ordering};
use std::time::Instant;

/// For how many tenths of a second a run says nothing.
const RUN_PATIENCE: u64 = 10;

/// For how many tenths of a second a change says nothing.
const CHANGE_PATIENCE: u64 = 20;

/// A line that is written again and again, at most ten times a second, where standard error is a terminal and the
/// work takes longer than one is patient for.
#[derive(Drop)]
struct Line<'a> {
    rt: &'a HostRuntime,
    /// When the work began; none where nothing is shown.
    begun: Option<Instant>,
    /// For how many tenths of a second nothing is shown.
    patience: u64,
    /// The tenth of a second in which the line was last written.
    shown: AtomicU64,
}

impl<'a> Line<'a> {
    /// The work begins.
    fn new(rt: &'a HostRuntime, patience: u64) -> Line<'a> {
        let begun = if rt.stderr().is_terminal() {
            Instant::now(rt).ok()
        } else {
            None
        };
        Line {
            rt,
            begun,
            patience,
            shown: AtomicU64::new(0),
        }
    }

    /// How many tenths of a second the work has taken, where that is enough for a line.
    fn tenths(&self) -> Option<u64> {
        let elapsed = self.begun?.elapsed(self.rt).ok()?;
        let parts = u64::from(elapsed.subsec_millis() / 100);
        let tenths = elapsed.as_secs().saturating_mul(10).saturating_add(parts);
        if tenths >= self.patience {
            Some(tenths)
        } else {
            None
        }
    }

    /// Whether the line is to be written now.
    fn is_due(&self) -> bool {
        match self.tenths() {
            Some(tenths) => self.shown.swap(tenths, Ordering::SeqCst) != tenths,
            None => false,
        }
    }

    /// Takes the line away. Where standard error fails, nothing is said.
    fn clear(&self) {
        if self.tenths().is_some() {
            let _ = eprint!(self.rt; "\r\x1b[K");
        }
    }
}

/// Counts the packets of a run that are complete, and shows how many of how many are.
#[derive(Drop)]
pub struct Progress<'a> {
    line: Line<'a>,
    packets: usize,
    complete: AtomicU64,
}

impl<'a> Progress<'a> {
    /// No packet of so many is complete.
    pub fn new(rt: &'a HostRuntime, packets: usize) -> Progress<'a> {
        Progress {
            line: Line::new(rt, RUN_PATIENCE),
            packets,
            complete: AtomicU64::new(0),
        }
    }

    /// Takes the line away.
    pub fn clear(&self) {
        self.line.clear();
    }
}

impl<'a> Gate for Progress<'a> {
    fn hold(&self, _packet: u16) {}

    fn passed(&self, _packet: u16) {
        let complete = self
            .complete
            .fetch_add(1, Ordering::SeqCst)
            .saturating_add(1);
        if complete >= self.packets as u64 {
            self.clear();
        } else if self.line.is_due() {
            let _ = eprint!(self.line.rt;
                "\rhsaq: {complete} of {} packets are complete",
                self.packets
            );
        }
    }
}

/// Shows how many bits and fences of a job are settled while it is changed.
#[derive(Drop)]
pub struct Settling<'a> {
    line: Line<'a>,
}

impl<'a> Settling<'a> {
    /// Nothing is settled.
    pub fn new(rt: &'a HostRuntime) -> Settling<'a> {
        Settling {
            line: Line::new(rt, CHANGE_PATIENCE),
        }
    }

    /// Takes the line away.
    pub fn clear(&self) {
        self.line.clear();
    }
}

impl<'a> Watch for Settling<'a> {
    fn settled(&self, done: usize, all: usize) {
        if self.line.is_due() {
            let _ = eprint!(self.line.rt; "\rhsaq: {done} of {all} bits and scopes are settled");
        }
    }
}
