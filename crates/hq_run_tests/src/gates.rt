//! Gates that hold packets back.

use crate::jobs::{accepted, run_leaves};
use crate::texts::TWO_FILLS;
use hq_calls::good;
use hq_kernels::stock_kits;
use hq_runner::Gate;
use std::alloc::Global;
use std::sync::Wait;
use std::sync::atomic::{AtomicBool, Ordering};
use std::test::*;
use std::thread;
use std::thread::Threads;

/// Holds packet 0 until packet 1 is complete, for at most a million turns.
#[derive(Drop)]
struct SecondFirst {
    passed: AtomicBool,
    opened: AtomicBool,
}

impl Gate for SecondFirst {
    fn hold(&self, packet: u16) {
        if packet != 0 {
            return;
        }
        for _ in 0..1_000_000 {
            if self.passed.load(Ordering::SeqCst) {
                self.opened.store(true, Ordering::SeqCst);
                return;
            }
            thread::yield_now();
        }
    }

    fn passed(&self, packet: u16) {
        if packet == 1 {
            self.passed.store(true, Ordering::SeqCst);
        }
    }
}

/// Whether the two fills run by this gate.
fn run_by<R: Threads + Wait + Sync>(
    rt: &R,
    alloc: Global,
    gate: &SecondFirst,
) -> Result<bool, Fail> {
    let accepted = accepted(alloc, TWO_FILLS)?;
    let kits = good(stock_kits(alloc, accepted.job()))?;
    run_leaves(rt, alloc, &accepted, kits, gate, &[7, 7, 7, 7, 5, 5, 5, 5])
}

#[test]
fn a_queue_that_is_held_back_holds_back_no_other(rt: HostRuntime) -> Result<(), Fail> {
    let gate = SecondFirst {
        passed: AtomicBool::new(false),
        opened: AtomicBool::new(false),
    };
    assert!(rt; run_by(&rt, rt.alloc(), &gate)?);
    assert!(rt; gate.opened.load(Ordering::SeqCst));
    Ok(())
}
