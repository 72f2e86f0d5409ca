//! Bodies that wait for each other, each in its own queue.

use crate::jobs::{Told, accepted, run_faults, run_leaves, same};
use crate::texts::TWO_FILLS;
use hq_calls::good;
use hq_footprint::Task;
use hq_kernels::{Body, KernelBody, KernelFault, Kit, Stock};
use hq_ledger::Piece;
use hq_runner::OpenGate;
use std::alloc::{AllocError, Global};
use std::sync::atomic::{AtomicBool, Ordering};
use std::sync::{Arc, Wait};
use std::test::*;
use std::thread;
use std::thread::Threads;

/// Puts up its own flag where it should run, and then waits for the other's, for at most a million turns. Where
/// both are up it runs, or faults.
#[derive(Drop)]
struct Meeting {
    stock: Stock,
    own: Arc<AtomicBool>,
    other: Arc<AtomicBool>,
    faults: bool,
}

impl Meeting {
    /// Whether the other's flag is up in time.
    fn meets(&self) -> bool {
        self.own.store(true, Ordering::SeqCst);
        for _ in 0..1_000_000 {
            if self.other.load(Ordering::SeqCst) {
                return true;
            }
            thread::yield_now();
        }
        false
    }
}

impl KernelBody for Meeting {
    ghost kernel = { λ body. body.stock };

    fn task(&self) -> Task {
        self.stock.task()
    }

    fn has_run(&self) -> bool {
        self.stock.has_run()
    }

    fn load(&mut self, piece: Piece) -> Result<(), Piece> {
        self.stock.load(piece)
    }

    fn run(&mut self) -> Result<(), KernelFault> {
        if !self.meets() || self.faults {
            return Err(KernelFault::Refused);
        }
        self.stock.run()
    }

    fn give_back(&mut self) -> Option<Piece> {
        self.stock.give_back()
    }
}

/// A kit with one body.
fn kit_of(alloc: Global, body: Meeting) -> Result<Kit, AllocError> {
    let mut bodies = Vec::new(alloc);
    bodies.push(Body::Kernel(Box::new(alloc, body)?))?;
    Ok(Kit { bodies })
}

/// A body for a fill with this byte.
fn filling(byte: u8, own: Arc<AtomicBool>, other: Arc<AtomicBool>, faults: bool) -> Meeting {
    Meeting {
        stock: Stock::new(Task::Fill(byte)),
        own,
        other,
        faults,
    }
}

/// A kit for each of these bodies.
fn kits_of(alloc: Global, first: Meeting, second: Meeting) -> Result<Vec<Kit>, Fail> {
    let mut kits = Vec::new(alloc);
    good(kits.push(good(kit_of(alloc, first))?))?;
    good(kits.push(good(kit_of(alloc, second))?))?;
    Ok(kits)
}

/// A flag that isn't up.
fn flag(alloc: Global) -> Result<Arc<AtomicBool>, Fail> {
    good(Arc::new(alloc, AtomicBool::new(false)))
}

/// The flag once more.
fn again(flag: &Arc<AtomicBool>) -> Result<Arc<AtomicBool>, Fail> {
    good(Arc::try_clone(flag))
}

/// Kits for the two fills, whose bodies wait for each other, and then run, or fault.
fn two_that_meet(alloc: Global, faults: bool) -> Result<Vec<Kit>, Fail> {
    let first = flag(alloc)?;
    let second = flag(alloc)?;
    let sevens = filling(7, again(&first)?, again(&second)?, faults);
    kits_of(alloc, sevens, filling(5, second, first, faults))
}

/// Whether the two fills run where their bodies wait for each other.
fn both_run<R: Threads + Wait + Sync>(rt: &R, alloc: Global) -> Result<bool, Fail> {
    let accepted = accepted(alloc, TWO_FILLS)?;
    let kits = two_that_meet(alloc, false)?;
    run_leaves(
        rt,
        alloc,
        &accepted,
        kits,
        &OpenGate,
        &[7, 7, 7, 7, 5, 5, 5, 5],
    )
}

#[test]
fn bodies_run_side_by_side(rt: HostRuntime) -> Result<(), Fail> {
    assert!(rt; both_run(&rt, rt.alloc())?);
    Ok(())
}

/// What is told where both fault.
fn both_fault<R: Threads + Wait + Sync>(rt: &R, alloc: Global) -> Result<Told, Fail> {
    let accepted = accepted(alloc, TWO_FILLS)?;
    let kits = two_that_meet(alloc, true)?;
    run_faults(rt, alloc, &accepted, kits)
}

#[test]
fn of_two_faults_the_least_packet_is_told(rt: HostRuntime) -> Result<(), Fail> {
    assert!(rt; same(both_fault(&rt, rt.alloc())?, (0, 1, 0, 2)));
    Ok(())
}
