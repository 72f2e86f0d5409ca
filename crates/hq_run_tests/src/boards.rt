//! The board by threads: each seat walks its queue's packets, in a thread of its own, or all in turn in one thread.

ghost use Rattle.std.specs.Prelude.{◌≡◌, All, IfErr, IfOk, IfSome, false, length};
ghost use Rattle.hq_board.specs.Calls.{IsSeatOf, job_of};

use crate::jobs::{accepted, accepted_again};
use crate::texts::{CHAIN, EITHER, WAIT};
use hq_board::{Board, BoardFault, Seat};
use hq_certcheck::Accepted;
use hq_job::Job;
use hq_packet::Packet;
use hq_tables::Placed;
use std::alloc::{AllocError, Global};
use std::sync::atomic::{AtomicBool, Ordering};
use std::test::*;
use std::thread;
use std::thread::Threads;

/// How often a seat looks for a signal at 0 before it gives up.
const TURNS: u32 = 1_000_000;

/// Observes a slot once its signal is at 0, and says whether it was in time.
fn observes(board: &Board, seat: &mut Seat, packet: usize, slot: usize) -> bool
    requires { IsSeatOf board.now seat.old }
    ensures { IsSeatOf board.now seat.new }
{
    for _ in 0..TURNS {
        match board.observe(seat, packet, slot) {
            Ok(()) => return true,
            Err(BoardFault::NotZero(_)) => thread::yield_now(),
            Err(_) => return false,
        }
    }
    false
}

/// Observes each slot that waits for a signal, in their order, and says whether all were in time.
fn observes_all(board: &Board, seat: &mut Seat, packet: usize, slots: &[Option<u16>]) -> bool
    requires { IsSeatOf board.now seat.old }
    ensures { IsSeatOf board.now seat.new }
{
    for slot in 0..slots.len() {
        if slots[slot].is_some() && !observes(board, seat, packet, slot) {
            return false;
        }
    }
    true
}

/// Observes the first slot whose signal is at 0, and says whether there is one.
fn finds_one(board: &Board, seat: &mut Seat, packet: usize, slots: &[Option<u16>]) -> bool
    requires { IsSeatOf board.now seat.old }
    ensures { IsSeatOf board.now seat.new }
{
    for slot in 0..slots.len() {
        if slots[slot].is_some() && board.observe(seat, packet, slot).is_ok() {
            return true;
        }
    }
    false
}

/// Observes one slot, the first that is found at 0, and says whether it was in time.
fn observes_one(board: &Board, seat: &mut Seat, packet: usize, slots: &[Option<u16>]) -> bool
    requires { IsSeatOf board.now seat.old }
    ensures { IsSeatOf board.now seat.new }
{
    for _ in 0..TURNS {
        if finds_one(board, seat, packet, slots) {
            return true;
        }
        thread::yield_now();
    }
    false
}

/// Waits for what the packet waits for, and says whether it came in time.
fn waits(board: &Board, seat: &mut Seat, packet: usize, placed: &Placed) -> bool
    requires { IsSeatOf board.now seat.old }
    ensures { IsSeatOf board.now seat.new }
{
    match placed.packet {
        Packet::Kernel(_) => true,
        Packet::Agent(_) => true,
        Packet::And(_) => observes_all(board, seat, packet, &placed.slots),
        Packet::Or(_) => observes_one(board, seat, packet, &placed.slots),
    }
}

/// Takes a packet through its calls, and says whether each is Ok.
fn goes_through(board: &Board, seat: &mut Seat, packet: usize, placed: &Placed) -> bool
    requires { IsSeatOf board.now seat.old }
    ensures { IsSeatOf board.now seat.new }
{
    board.launch(seat) == Ok(packet)
        && waits(board, seat, packet, placed)
        && board.enter(seat, packet).is_ok()
        && board.complete(seat, packet).is_ok()
}

/// Takes the packets of the seat's queue through their calls, and says whether each is Ok, and no packet is left.
fn walks(job: &Job, board: &Board, seat: &mut Seat) -> bool
    requires { IsSeatOf board.now seat.old }
    ensures { IsSeatOf board.now seat.new }
{
    let queue = seat.queue();
    for (packet, placed) in job.packets().iter().enumerate() {
        if placed.queue as usize == queue && !goes_through(board, seat, packet, placed) {
            return false;
        }
    }
    board.launch(seat) == Err(BoardFault::NotNext)
}

/// The seat, behind its walk. Where a call isn't Ok, that is noted.
fn walked(job: &Job, board: &Board, mut seat: Seat, went: &AtomicBool) -> Seat
    requires { IsSeatOf board.now seat }
    ensures { IsSeatOf board.now result }
{
    if !walks(job, board, &mut seat) {
        went.store(false, Ordering::SeqCst);
    }
    seat
}

/// The seats, each behind its walk in a thread of its own. Where a call isn't Ok, that is noted.
fn walked_apart<R: Threads + Sync>(
    rt: &R,
    job: &Job,
    board: &Board,
    seats: Vec<Seat>,
    went: &AtomicBool,
) -> Option<Vec<Seat>>
    requires { All (IsSeatOf board.now) seats.items }
    ensures { IfSome result (λ seats. All (IsSeatOf board.now) seats.items) }
{
    let Ok(seats) = thread::map_vec(
        rt,
        seats,
        &|seat: Seat| -> Seat
            requires { IsSeatOf board.now seat }
            ensures { IsSeatOf board.entry.now result }
        { walked(job, board, seat, went) },
    ) else {
        return None;
    };
    Some(seats)
}

/// Has the seats walk their queues' packets, one queue behind the other, and says whether each call is Ok.
fn walk_in_turn(job: &Job, board: &Board, seats: &mut [Seat]) -> bool
    requires { All (IsSeatOf board.now) seats.old }
    ensures { All (IsSeatOf board.now) seats.new }
{
    for place in 0..seats.len() {
        if !walks(job, board, &mut seats[place]) {
            return false;
        }
    }
    true
}

/// So many sevens, which are asked for once more where there is no memory.
fn sevens(alloc: Global, count: usize) -> Option<Vec<u64>>
    ensures { IfSome result (λ values. length values.items ≡ count) }
{
    match Vec::from_elem(alloc, 7u64, count) {
        Ok(values) => Some(values),
        Err(_) => Vec::from_elem(alloc, 7u64, count).ok(),
    }
}

/// Whether the board, once these seats are handed over in queue order, ends with these values.
pub fn ends_with(alloc: Global, board: Board, seats: Vec<Seat>, values: &[u64]) -> bool
    requires { All (IsSeatOf board) seats.items }
{
    let Some(mut ends) = sevens(alloc, board.signals()) else {
        return false;
    };
    board.close(seats, &mut ends).is_ok() && ends.as_slice() == values
}

/// Whether the job's queues, each in a thread of its own, come to their ends, and its signals to these values.
fn runs<R: Threads + Sync>(rt: &R, alloc: Global, accepted: &Accepted, values: &[u64]) -> bool {
    if accepted.rings() {
        return false;
    }
    let Ok((board, seats)) = Board::open(alloc, accepted) else {
        return false;
    };
    let went = AtomicBool::new(true);
    match walked_apart(rt, accepted.job(), &board, seats, &went) {
        Some(seats) => { went.load(Ordering::SeqCst) && ends_with(alloc, board, seats, values) }
        None => false,
    }
}

/// Jobs with as many threads as queues, and the values that their signals end with.
const ROWS: &[(&[&[u8]], &[u64])] = &[(WAIT, &[0]), (EITHER, &[0, 0, 0]), (CHAIN, &[0, 0, 0])];

#[test]
fn each_queue_in_a_thread_of_its_own(rt: HostRuntime) -> Result<(), Fail> {
    for (place, row) in ROWS.iter().enumerate() {
        let accepted = accepted(rt.alloc(), row.0)?;
        for turn in 0..1000 {
            assert!(rt;
                runs(&rt, rt.alloc(), &accepted, row.1),
                "row {place}, turn {turn}"
            );
        }
    }
    Ok(())
}

/// The two seats that are there.
pub fn both(board: &Board, mut seats: Vec<Seat>) -> Option<(Seat, Seat)>
    requires { All (IsSeatOf board.now) seats.items }
    ensures { IfSome result (λ pair. IsSeatOf board.now pair.0 × IsSeatOf board.now pair.1) }
{
    let second = seats.pop()?;
    let first = seats.pop()?;
    Some((first, second))
}

/// The seats in this order.
pub fn listed(
    alloc: Global,
    board: &Board,
    first: Seat,
    second: Seat,
) -> Result<Vec<Seat>, AllocError>
    requires first { IsSeatOf board.now first }
    requires second { IsSeatOf board.now second }
    ensures { IfOk result (λ seats. All (IsSeatOf board.now) seats.items) }
{
    let mut seats = Vec::new(alloc);
    let Ok(()) = seats.push(first) else {
        return Err(AllocError);
    };
    let Ok(()) = seats.push(second) else {
        return Err(AllocError);
    };
    Ok(seats)
}

/// Two seats in the other order.
fn exchanged(alloc: Global, board: &Board, seats: Vec<Seat>) -> Option<Vec<Seat>>
    requires { All (IsSeatOf board.now) seats.items }
    ensures { IfSome result (λ seats. All (IsSeatOf board.now) seats.items) }
{
    match both(board, seats) {
        Some((first, second)) => listed(alloc, board, second, first).ok(),
        None => None,
    }
}

/// Closes the board. What is handed back are seats of the board that is handed back.
fn close<'a>(
    board: Board<'a>,
    seats: Vec<Seat>,
    values: &mut [u64],
) -> Result<(), (Board<'a>, Vec<Seat>)>
    requires seats { All (IsSeatOf board) seats.items }
    requires room { length values.old ≡ length (job_of board).starts }
    ensures { IfErr result (λ back. All (IsSeatOf back.0) back.1.items) }
{
    board.close(seats, values)
}

/// Whether closing with two seats exchanged hands all back and leaves the value, and in queue order the value is 0.
fn closes_in_queue_order(alloc: Global, board: Board, seats: Vec<Seat>) -> bool
    requires { All (IsSeatOf board) seats.items }
{
    let Some(seats) = exchanged(alloc, &board, seats) else {
        return false;
    };
    let mut values = [7u64];
    if board.signals() != values.len() {
        return false;
    }
    let Err((board, back)) = close(board, seats, &mut values) else {
        return false;
    };
    if values != [7] {
        return false;
    }
    match exchanged(alloc, &board, back) {
        Some(seats) => ends_with(alloc, board, seats, &[0]),
        None => false,
    }
}

/// A board and its seats, which are asked for once more where there is no memory.
fn opened<'a>(alloc: Global, accepted: &'a Accepted) -> Option<(Board<'a>, Vec<Seat>)>
    requires { accepted.now.job.rings ≡ false }
    ensures { IfSome result (λ both. All (IsSeatOf both.0) both.1.items) }
{
    match Board::open(alloc, accepted) {
        Ok(both) => Some(both),
        Err(BoardFault::Memory) => Board::open(alloc, accepted).ok(),
        Err(_) => None,
    }
}

/// Whether one thread takes the job's queues to their ends, and the board closes with its seats in queue order alone.
fn goes_in_turn(alloc: Global, accepted: &Accepted) -> bool {
    if accepted.rings() {
        return false;
    }
    match opened(alloc, accepted) {
        Some((board, mut seats)) => {
            walk_in_turn(accepted.job(), &board, &mut seats)
                && closes_in_queue_order(alloc, board, seats)
        }
        None => false,
    }
}

#[test]
fn seats_that_are_handed_back_close_in_queue_order(rt: HostRuntime) -> Result<(), Fail> {
    let accepted = accepted(rt.alloc(), WAIT)?;
    assert!(rt; goes_in_turn(rt.alloc(), &accepted));
    Ok(())
}

/// Whether one thread takes the job's queues to their ends, and its signals to these values. It asks twice for memory.
fn goes_again(alloc: Global, parts: &[&[u8]], values: &[u64]) -> bool {
    let Some(accepted) = accepted_again(alloc, parts) else {
        return false;
    };
    if accepted.rings() {
        return false;
    }
    match opened(alloc, &accepted) {
        Some((board, mut seats)) => {
            walk_in_turn(accepted.job(), &board, &mut seats)
                && ends_with(alloc, board, seats, values)
        }
        None => false,
    }
}

// Here no allocation is refused; `tests/refuse` refuses each in turn.
#[test]
fn what_is_refused_is_asked_for_once_more(rt: HostRuntime) {
    assert!(rt; goes_again(rt.alloc(), WAIT, &[0]));
}
