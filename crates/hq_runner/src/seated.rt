//! A queue's processor at the board: it waits for signals by their words alone, without a lock.

ghost use Rattle.std.specs.Prelude.{◌≡◌, ℕ, ◌<◌, ◌^◌, Some, true, IfOk, IfSome, OnOk, length, slice_get};
ghost use Rattle.hq_board.specs.Calls.{IsSeatOf};

use crate::fault::Fault;
use crate::shared::Shared;
use crate::step::Step;
use hq_board::{Board, BoardFault, Seat};
use std::marker::Model;
use std::sync::Wait;
use std::thread;

/// A queue's seat, and the board that it is of. Contracts see the seat.
#[derive(Drop)]
pub struct Seated<'b> {
    board: &'b Board<'b>,
    seat: Seat,
}

impl<'b> Model for Seated<'b> {
    ghost use Rattle.hq_board.specs.declared.known.Known.{Known};
    ghost use Rattle.hq_board.specs.Calls.{IsSeatOf};

    ghost Value = { Known };

    ghost view = { λ s. s.seat };

    ghost invariant = { λ s. IsSeatOf s.board.now s.seat };
}

/// What is found of a slot's signal.
#[derive(Clone, Copy, Debug)]
enum Look {
    /// It was 0, and was observed.
    Observed,
    /// It was above 0.
    Above,
    /// The packet may not observe the slot.
    Refused,
}

/// Whether board and hall took the event; where one of them alone took it, they don't tell the same run.
fn agreed(board: bool, hall: bool) -> Result<(), Fault>
    ensures { OnOk result ((board ≡ true) × (hall ≡ true)) }
{
    if board != hall {
        return Err(Fault::Split);
    }
    if !board {
        return Err(Fault::Stopped);
    }
    Ok(())
}

impl<'b> Seated<'b> {
    pub fn new(board: &'b Board<'b>, seat: Seat) -> Seated<'b>
        requires { IsSeatOf board.now seat }
        ensures { result ≡ seat }
    {
        Seated { board, seat }
    }

    /// Looks at a slot's signal, and observes the slot where it is 0.
    fn look(&mut self, packet: u16, slot: u16) -> Look {
        match self
            .board
            .observe(&mut self.seat, packet as usize, slot as usize)
        {
            Ok(()) => Look::Observed,
            Err(BoardFault::NotZero(_)) => Look::Above,
            Err(_) => Look::Refused,
        }
    }

    /// Observes a slot once its signal is 0. Answers whether the packet may observe it.
    fn observe<R: Wait>(
        &mut self,
        rt: &R,
        shared: &Shared,
        packet: u16,
        slot: u16,
    ) -> Result<bool, Fault> {
        for _ in rt.forever() {
            if shared.is_over() {
                return Err(Fault::Stopped);
            }
            match self.look(packet, slot) {
                Look::Observed => return Ok(true),
                Look::Refused => return Ok(false),
                Look::Above => thread::yield_now(),
            }
        }
        unreachable!()
    }

    /// Has the board take the step, which waits for a signal alone. Answers whether the seat's list lets it.
    fn by_board<R: Wait>(&mut self, rt: &R, shared: &Shared, step: Step) -> Result<bool, Fault> {
        match step {
            Step::Submit => Ok(false),
            Step::Launch(_) => Ok(self.board.launch(&mut self.seat).is_ok()),
            Step::Observe(packet, slot) => self.observe(rt, shared, packet, slot),
            Step::Enter(packet) => Ok(self.board.enter(&mut self.seat, packet as usize).is_ok()),
            Step::Complete(packet) => Ok(
                self.board.complete(&mut self.seat, packet as usize).is_ok(),
            ),
        }
    }

    /// Makes the step happen at the board and in the hall: a completion in the hall first, so that whoever finds
    /// its signal at 0 finds it complete there, all else at the board first.
    pub fn make<R: Wait>(&mut self, rt: &R, shared: &Shared, step: Step) -> Result<(), Fault> {
        if let Step::Complete(_) = step {
            let hall = shared.take(rt, step)?;
            let board = self.by_board(rt, shared, step)?;
            return agreed(board, hall);
        }
        let board = self.by_board(rt, shared, step)?;
        let hall = shared.take(rt, step)?;
        agreed(board, hall)
    }

    /// Looks at the slots in turn up to the first whose signal isn't above 0, if there is one. Answers which, and
    /// whether the packet may observe it.
    fn first(&mut self, packet: u16, slots: &[Option<u16>]) -> Option<(u16, bool)>
        requires { length slots.now < 2 ^ 16 }
        ensures { IfSome result (λ found. (s : ℕ) × (slice_get slots.now found.0 ≡ Some (Some s))) }
    {
        let mut slot = 0u16;
        while (slot as usize) < slots.len() {
            if slots[slot as usize].is_some() {
                match self.look(packet, slot) {
                    Look::Observed => return Some((slot, true)),
                    Look::Refused => return Some((slot, false)),
                    Look::Above => {}
                }
            }
            slot += 1;
        }
        None
    }

    /// Observes the first slot that is found at 0, once there is one, at the board and in the hall, and answers which.
    pub fn make_one<R: Wait>(
        &mut self,
        rt: &R,
        shared: &Shared,
        packet: u16,
        slots: &[Option<u16>],
    ) -> Result<u16, Fault>
        requires { length slots.now < 2 ^ 16 }
        ensures { IfOk result (λ slot. (s : ℕ) × (slice_get slots.now slot ≡ Some (Some s))) }
    {
        for _ in rt.forever() {
            if shared.is_over() {
                return Err(Fault::Stopped);
            }
            if let Some((slot, board)) = self.first(packet, slots) {
                let hall = shared.take(rt, Step::Observe(packet, slot))?;
                agreed(board, hall)?;
                return Ok(slot);
            }
            thread::yield_now();
        }
        unreachable!()
    }
}
