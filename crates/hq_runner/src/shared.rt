//! What the processors share, and how those of rings wait.

ghost use Rattle.std.specs.Prelude.{◌≡◌, ℕ, ◌<◌, ◌^◌, Some, IsTrue, IfOk, IfSome, length, slice_get};
ghost use Rattle.hq_hall.specs.View.{work_in};
ghost use Rattle.hq_runner.specs.Pieces.{AreFor, IsWorked};

use crate::fault::Fault;
use crate::step::{Step, fault_of, take};
use hq_footprint::Work;
use hq_hall::{Hall, HallFault};
use hq_ledger::Piece;
use std::sync::atomic::{AtomicBool, Ordering};
use std::sync::{Condvar, Mutex, Wait};

/// What the processors share: the hall under its lock, the bell that those of rings wait for, and whether a fault
/// ended the run.
#[derive(Drop)]
pub struct Shared<'a> {
    hall: Mutex<Hall<'a>>,
    bell: Condvar,
    over: AtomicBool,
}

/// Observes the first slot that may be observed, if there is one.
fn observe_one(hall: &mut Hall, packet: u16, slots: &[Option<u16>]) -> Result<Option<u16>, Fault>
    requires { length slots.now < 2 ^ 16 }
    ensures { IfOk result (λ found. IfSome found (λ slot. (s : ℕ) × (slice_get slots.now slot ≡ Some (Some s)))) }
{
    let mut slot = 0u16;
    while (slot as usize) < slots.len() {
        if slots[slot as usize].is_some() && take(hall, Step::Observe(packet, slot))? {
            return Ok(Some(slot));
        }
        slot += 1;
    }
    Ok(None)
}

/// Whether this is the packet's work in the hall's job.
fn knows(hall: &Hall, packet: u16, work: Work) -> bool
    ensures { IsTrue result → work_in hall.now packet ≡ work }
{
    match hall.job().packets().get(packet as usize) {
        Some(placed) => placed.work.same(work),
        None => false,
    }
}

/// Fetches the packet, whose work this is.
fn fetch(hall: &mut Hall, packet: u16, work: Work) -> Result<Vec<Piece>, Fault>
    ensures { IfOk result (λ pieces. AreFor work pieces.items) }
{
    if !knows(hall, packet, work) {
        return Err(Fault::Stopped);
    }
    match hall.fetch(packet) {
        Ok(pieces) => Ok(pieces),
        Err(fault) => Err(fault_of(fault)),
    }
}

/// Delivers the packet, whose work this is, from the pieces that its body gave back.
fn deliver(hall: &mut Hall, packet: u16, work: Work, pieces: Vec<Piece>) -> Result<(), Fault>
    requires { IsWorked work pieces.items }
{
    if !knows(hall, packet, work) {
        return Err(Fault::Stopped);
    }
    match hall.deliver(packet, pieces) {
        Ok(()) => Ok(()),
        Err((HallFault::WrongPieces, _pieces)) => Err(Fault::Kernel(packet)),
        Err((fault, _pieces)) => Err(fault_of(fault)),
    }
}

impl<'a> Shared<'a> {
    pub fn new(hall: Hall<'a>) -> Shared<'a> {
        Shared {
            hall: Mutex::new(hall),
            bell: Condvar::new(),
            over: AtomicBool::new(false),
        }
    }

    /// The hall, once all have ended.
    pub fn into_hall(self) -> Hall<'a> {
        let Shared {
            hall,
            bell: _,
            over: _,
        } = self;
        hall.into_inner()
    }

    /// Whether a fault ended the run.
    pub fn is_over(&self) -> bool {
        self.over.load(Ordering::SeqCst)
    }

    /// Ends the run for all processors. Under the lock, so that none begins to wait for the bell just then.
    pub fn fail<R: Wait>(&self, rt: &R) {
        let guard = self.hall.lock(rt);
        self.over.store(true, Ordering::SeqCst);
        drop(guard);
        self.bell.notify_all();
    }

    /// Has the hall take the step. Answers whether it is enabled.
    pub fn take<R: Wait>(&self, rt: &R, step: Step) -> Result<bool, Fault> {
        if self.is_over() {
            return Err(Fault::Stopped);
        }
        take(&mut self.hall.lock(rt), step)
    }

    /// Makes the step happen once it is enabled, where others wait at the bell too.
    pub fn wait_for<R: Wait>(&self, rt: &R, step: Step) -> Result<(), Fault> {
        let mut guard = self.hall.lock(rt);
        for _ in rt.forever() {
            if self.is_over() {
                return Err(Fault::Stopped);
            }
            if take(&mut guard, step)? {
                if let Step::Submit | Step::Complete(_) = step {
                    self.bell.notify_all();
                }
                return Ok(());
            }
            guard = self.bell.wait(rt, guard);
        }
        unreachable!()
    }

    /// Observes the first slot that is found at 0, once there is one, and answers which.
    pub fn wait_for_one<R: Wait>(
        &self,
        rt: &R,
        packet: u16,
        slots: &[Option<u16>],
    ) -> Result<u16, Fault>
        requires { length slots.now < 2 ^ 16 }
        ensures { IfOk result (λ slot. (s : ℕ) × (slice_get slots.now slot ≡ Some (Some s))) }
    {
        let mut guard = self.hall.lock(rt);
        for _ in rt.forever() {
            if self.is_over() {
                return Err(Fault::Stopped);
            }
            if let Some(slot) = observe_one(&mut guard, packet, slots)? {
                return Ok(slot);
            }
            guard = self.bell.wait(rt, guard);
        }
        unreachable!()
    }

    /// Fetches the packet, whose work this is. It waits for no other event: a packet that was entered may be fetched.
    pub fn fetch<R: Wait>(&self, rt: &R, packet: u16, work: Work) -> Result<Vec<Piece>, Fault>
        ensures { IfOk result (λ pieces. AreFor work pieces.items) }
    {
        if self.is_over() {
            return Err(Fault::Stopped);
        }
        fetch(&mut self.hall.lock(rt), packet, work)
    }

    /// Delivers the packet, whose work this is, from the pieces that its body gave back. It waits for no other
    /// event: a packet that is out may be delivered.
    pub fn hand_back<R: Wait>(
        &self,
        rt: &R,
        packet: u16,
        work: Work,
        pieces: Vec<Piece>,
    ) -> Result<(), Fault>
        requires { IsWorked work pieces.items }
    {
        if self.is_over() {
            return Err(Fault::Stopped);
        }
        deliver(&mut self.hall.lock(rt), packet, work, pieces)
    }
}
