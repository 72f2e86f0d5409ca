//! A board call by call, on one thread: a fill in one queue; in the other a barrier-AND that waits for it, and a copy.

ghost use Rattle.hq_board.specs.Calls.{IsSeatOf};

use crate::boards::{both, ends_with, listed};
use crate::jobs::accepted;
use crate::texts::WAIT;
use hq_board::{Board, BoardFault, Seat};
use std::test::*;

/// A call of a seat's owner.
#[derive(Clone, Copy)]
enum Call {
    Launch,
    Observe(usize, usize),
    Enter(usize),
    Complete(usize),
}

/// What the call answers: the packet's number, or why it does nothing.
fn answer(board: &Board, seat: &mut Seat, call: Call) -> Result<usize, BoardFault>
    requires { IsSeatOf board.now seat.old }
    ensures { IsSeatOf board.now seat.new }
{
    match call {
        Call::Launch => board.launch(seat),
        Call::Observe(packet, slot) => {
            board.observe(seat, packet, slot)?;
            Ok(packet)
        }
        Call::Enter(packet) => {
            board.enter(seat, packet)?;
            Ok(packet)
        }
        Call::Complete(packet) => {
            board.complete(seat, packet)?;
            Ok(packet)
        }
    }
}

/// Whether the calls, in turn, answer so.
fn answer_so(board: &Board, seat: &mut Seat, calls: &[(Call, Result<usize, BoardFault>)]) -> bool
    requires { IsSeatOf board.now seat.old }
    ensures { IsSeatOf board.now seat.new }
{
    for (call, expected) in calls {
        if answer(board, seat, *call) != *expected {
            return false;
        }
    }
    true
}

/// The fill through its calls.
const FILL_CALLS: &[(Call, Result<usize, BoardFault>)] = &[
    (Call::Launch, Ok(0)),
    (Call::Enter(0), Ok(0)),
    (Call::Complete(0), Ok(0)),
];

/// The barrier packet while the fill isn't complete.
const WAIT_CALLS: &[(Call, Result<usize, BoardFault>)] = &[
    (Call::Launch, Ok(1)),
    (Call::Launch, Err(BoardFault::NotNext)),
    (Call::Observe(1, 0), Err(BoardFault::NotZero(1))),
    (Call::Enter(1), Err(BoardFault::NotNext)),
    (Call::Complete(1), Err(BoardFault::NotEntered)),
];

/// The barrier packet and the copy once the fill is complete. The second slot is null.
const COPY_CALLS: &[(Call, Result<usize, BoardFault>)] = &[
    (Call::Observe(1, 1), Err(BoardFault::NotNext)),
    (Call::Observe(1, 0), Ok(1)),
    (Call::Observe(1, 0), Err(BoardFault::NotNext)),
    (Call::Enter(1), Ok(1)),
    (Call::Complete(1), Ok(1)),
    (Call::Launch, Ok(2)),
    (Call::Enter(2), Ok(2)),
    (Call::Complete(2), Ok(2)),
    (Call::Launch, Err(BoardFault::NotNext)),
];

/// Takes both queues through their calls, and says whether each answered as it should.
fn run(board: &Board, first: &mut Seat, second: &mut Seat) -> bool
    requires first { IsSeatOf board.now first.old }
    requires second { IsSeatOf board.now second.old }
    ensures first { IsSeatOf board.now first.new }
    ensures second { IsSeatOf board.now second.new }
{
    answer_so(board, second, WAIT_CALLS)
        && answer_so(board, first, FILL_CALLS)
        && answer_so(board, second, COPY_CALLS)
}

#[test]
fn a_barrier_packet_waits_for_a_fill(rt: HostRuntime) -> Result<(), Fail> {
    let accepted = accepted(rt.alloc(), WAIT)?;
    if accepted.rings() {
        return Err("its queues are no rings".into());
    }
    let Ok((board, seats)) = Board::open(rt.alloc(), &accepted) else {
        return Err("there is memory".into());
    };
    let Some((mut first, mut second)) = both(&board, seats) else {
        return Err("there are two seats".into());
    };
    assert!(rt; first.queue() == 0 && second.queue() == 1);
    assert!(rt; run(&board, &mut first, &mut second));
    let Ok(seats) = listed(rt.alloc(), &board, first, second) else {
        return Err("there is memory".into());
    };
    assert!(rt; ends_with(rt.alloc(), board, seats, &[0]));
    Ok(())
}
