//! A hall whose events one thread asks for, one by one.

ghost use Rattle.std.specs.Prelude.{IfOk, IsTrue};
ghost use Rattle.hq_runner.specs.Pieces.{IsWorked};

use crate::driving::{Step, ask, in_order, work_of, works};
use crate::jobs::{accepted, accepted_again};
use crate::texts::{FILL_COPY, FILL_COPY_RING, WAIT};
use hq_certcheck::Accepted;
use hq_events::Event;
use hq_footprint::{Task, Work};
use hq_hall::{Hall, HallFault};
use hq_ledger::Piece;
use std::alloc::{AllocError, Global};
use std::test::*;

/// The events of the fill and the copy, one behind the other.
const EVENTS: [Event; 11] = [
    Event::Launch { queue: 0 },
    Event::Enter { packet: 0 },
    Event::Fetch { packet: 0 },
    Event::Deliver { packet: 0 },
    Event::Complete { packet: 0 },
    Event::Launch { queue: 0 },
    Event::Enter { packet: 1 },
    Event::Fetch { packet: 1 },
    Event::Deliver { packet: 1 },
    Event::Complete { packet: 1 },
    Event::Rest,
];

/// The same in a ring with one place.
const RING_EVENTS: [Event; 13] = [
    Event::Submit,
    Event::Launch { queue: 0 },
    Event::Enter { packet: 0 },
    Event::Fetch { packet: 0 },
    Event::Deliver { packet: 0 },
    Event::Complete { packet: 0 },
    Event::Submit,
    Event::Launch { queue: 0 },
    Event::Enter { packet: 1 },
    Event::Fetch { packet: 1 },
    Event::Deliver { packet: 1 },
    Event::Complete { packet: 1 },
    Event::Rest,
];

/// Whether these events happened, and none besides, and memory is so.
fn is_so(hall: &Hall, events: &[Event], memory: &[u8]) -> bool {
    hall.journal().events() == events && hall.memory() == memory
}

/// Whether so many of the events of the fill and the copy happened, and none besides, and memory is so.
fn stands(hall: &Hall, count: usize, memory: &[u8]) -> bool {
    match EVENTS.as_slice().get(..count) {
        Some(events) => is_so(hall, events, memory),
        None => false,
    }
}

/// Whether each of these steps happens, one behind the other.
fn happen(hall: &mut Hall, steps: &[Step]) -> bool {
    for step in steps {
        if ask(hall, *step).is_err() {
            return false;
        }
    }
    true
}

/// Whether each of these steps is refused since its event isn't enabled.
fn are_refused(hall: &mut Hall, steps: &[Step]) -> bool {
    for step in steps {
        if ask(hall, *step) != Err(HallFault::NotEnabled) {
            return false;
        }
    }
    true
}

/// Whether the packet can't be fetched, since that isn't enabled.
fn fetches_nothing(hall: &mut Hall, packet: u16) -> bool {
    match hall.fetch(packet) {
        Err(fault) => fault == HallFault::NotEnabled,
        Ok(_) => false,
    }
}

/// Whether the pieces hold what the work, a fill or a copy, makes of them.
fn are_worked(alloc: Global, work: Work, pieces: &[Piece]) -> Result<bool, AllocError>
    ensures { IfOk result (λ worked. IsTrue worked → IsWorked work pieces.now) }
{
    match (work.task, pieces) {
        (Task::Fill(byte), [write]) => {
            let wanted = Vec::from_elem(alloc, byte, write.bytes().len())?;
            Ok(write.bytes() == wanted.as_slice())
        }
        (Task::Copy, [read, write]) => Ok(write.bytes() == read.bytes()),
        _ => Ok(false),
    }
}

/// Delivers the packet from these pieces, if there are none, or if they hold what its task makes of them. Answers
/// the fault, and the pieces that came back.
fn deliver(
    alloc: Global,
    hall: &mut Hall,
    packet: u16,
    pieces: Vec<Piece>,
) -> Result<(), (HallFault, Vec<Piece>)> {
    if pieces.is_empty() {
        return hall.deliver(packet, pieces);
    }
    let Some(work) = work_of(hall, packet) else {
        return Err((HallFault::Memory, pieces));
    };
    match are_worked(alloc, work, &pieces) {
        Ok(true) => hall.deliver(packet, pieces),
        _ => Err((HallFault::Memory, pieces)),
    }
}

/// Writes sevens over the last piece.
fn write_sevens(pieces: &mut [Piece]) {
    if let Some(last) = pieces.last_mut() {
        last.bytes_mut().fill(7);
    }
}

/// Whether the queue's next packet, which is this one, is launched and enters.
fn enters(hall: &mut Hall, packet: u16) -> bool {
    happen(hall, &[Step::Launch(0), Step::Enter(packet)])
}

/// Whether the packet is delivered from these pieces once sevens stand in the last, and completes.
fn ends(alloc: Global, hall: &mut Hall, packet: u16, mut pieces: Vec<Piece>) -> bool {
    write_sevens(&mut pieces);
    deliver(alloc, hall, packet, pieces).is_ok() && happen(hall, &[Step::Complete(packet)])
}

/// Whether the packet, which is active, is fetched, delivered and completed.
fn completes(hall: &mut Hall, packet: u16) -> bool {
    works(hall, packet) && happen(hall, &[Step::Complete(packet)])
}

/// Whether the queue's next packet, which is this one, is taken through all its events.
fn passes(hall: &mut Hall, packet: u16) -> bool {
    enters(hall, packet) && completes(hall, packet)
}

/// Whether the copy is handed sevens to read, and zeros to write over.
fn are_handed(pieces: &[Piece]) -> bool {
    match pieces {
        [read, write] => {
            read.at() == 4096
                && read.bytes() == [7; 4].as_slice()
                && write.at() == 4100
                && write.bytes() == [0; 4].as_slice()
        }
        _ => false,
    }
}

/// The pieces, if these are the copy's two, exchanged.
fn exchanged(mut pieces: Vec<Piece>, first: u8, second: u8) -> Option<Vec<Piece>> {
    match pieces.as_slice() {
        [one, other] if one.is_of(1, first) && other.is_of(1, second) => {
            pieces.swap(0, 1);
            Some(pieces)
        }
        _ => None,
    }
}

/// The pieces that come back where the copy is delivered from these, since they are the wrong ones.
fn sent_back(alloc: Global, hall: &mut Hall, pieces: Vec<Piece>) -> Option<Vec<Piece>> {
    match deliver(alloc, hall, 1, pieces) {
        Err((HallFault::WrongPieces, back)) => Some(back),
        _ => None,
    }
}

/// Delivers the copy's pieces in the wrong order, the last full of sevens. Answers those that came back as wrong,
/// in order again.
fn exchange(alloc: Global, hall: &mut Hall, mut pieces: Vec<Piece>) -> Option<Vec<Piece>> {
    write_sevens(&mut pieces);
    let pieces = exchanged(pieces, 0, 1)?;
    let back = sent_back(alloc, hall, pieces)?;
    exchanged(back, 1, 0)
}

/// Fetches the copy, which is active, and delivers it in the wrong order, where it is handed what it should be.
fn fetched_and_exchanged(alloc: Global, hall: &mut Hall) -> Option<Vec<Piece>> {
    match hall.fetch(1) {
        Ok(pieces) if are_handed(&pieces) => exchange(alloc, hall, pieces),
        _ => None,
    }
}

/// Whether the copy, which is active, changes nothing by pieces in the wrong order, and ends by those that come back.
fn ends_exchanged(alloc: Global, hall: &mut Hall) -> bool {
    match fetched_and_exchanged(alloc, hall) {
        Some(back) => { stands(hall, 8, &[7, 7, 7, 7, 0, 0, 0, 0]) && ends(alloc, hall, 1, back) }
        None => false,
    }
}

/// Whether both packets end, the copy by pieces that were exchanged first.
fn both_end(alloc: Global, hall: &mut Hall) -> bool {
    passes(hall, 0)
        && enters(hall, 1)
        && !hall.all_complete()
        && ends_exchanged(alloc, hall)
        && hall.all_complete()
}

#[test]
fn a_fill_and_a_copy(rt: HostRuntime) -> Result<(), Fail> {
    let accepted = accepted(rt.alloc(), FILL_COPY)?;
    let Ok(mut hall) = Hall::open(rt.alloc(), &accepted) else {
        return Err("there is memory".into());
    };
    assert!(rt; both_end(rt.alloc(), &mut hall));
    assert!(rt; happen(&mut hall, &[Step::Rest]) && stands(&hall, 11, &[7; 8]));
    Ok(())
}

/// Whether a delivery of nothing is refused since the packet isn't out.
fn delivers_nothing(alloc: Global, hall: &mut Hall, packet: u16) -> bool {
    match deliver(alloc, hall, packet, Vec::new(alloc)) {
        Err((fault, _)) => fault == HallFault::NotEnabled,
        Ok(()) => false,
    }
}

/// Whether each call that asks for a packet is refused for this one, and a submission, and a launch from a queue
/// that isn't there.
fn refuses_all(alloc: Global, hall: &mut Hall, packet: u16) -> bool {
    let steps = [
        Step::Submit,
        Step::Launch(1),
        Step::Observe(packet, 0),
        Step::Enter(packet),
        Step::Complete(packet),
    ];
    are_refused(hall, &steps)
        && fetches_nothing(hall, packet)
        && delivers_nothing(alloc, hall, packet)
}

/// Whether the fill, which was launched and entered, enters no more, and neither completes nor is delivered before
/// it is fetched.
fn waits_for_its_fetch(alloc: Global, hall: &mut Hall) -> bool {
    are_refused(hall, &[Step::Enter(0), Step::Complete(0)])
        && delivers_nothing(alloc, hall, 0)
        && stands(hall, 2, &[0; 8])
}

/// Whether the fill, which was fetched, is fetched no more, and doesn't complete before it is delivered.
fn waits_for_its_delivery(hall: &mut Hall) -> bool {
    fetches_nothing(hall, 0) && are_refused(hall, &[Step::Complete(0)]) && stands(hall, 3, &[0; 8])
}

/// Whether the fill, which is active, is fetched, waits for its delivery, and ends.
fn ends_once_delivered(alloc: Global, hall: &mut Hall) -> bool {
    match hall.fetch(0) {
        Ok(pieces) => waits_for_its_delivery(hall) && ends(alloc, hall, 0, pieces),
        Err(_) => false,
    }
}

#[test]
fn what_comes_too_early(rt: HostRuntime) -> Result<(), Fail> {
    let accepted = accepted(rt.alloc(), FILL_COPY)?;
    let Ok(mut hall) = Hall::open(rt.alloc(), &accepted) else {
        return Err("there is memory".into());
    };
    assert!(rt; refuses_all(rt.alloc(), &mut hall, 0) && stands(&hall, 0, &[0; 8]));
    assert!(rt; refuses_all(rt.alloc(), &mut hall, 2) && stands(&hall, 0, &[0; 8]));
    assert!(rt; enters(&mut hall, 0) && waits_for_its_fetch(rt.alloc(), &mut hall));
    assert!(rt; ends_once_delivered(rt.alloc(), &mut hall));
    Ok(())
}

#[test]
fn what_comes_too_late(rt: HostRuntime) -> Result<(), Fail> {
    let accepted = accepted(rt.alloc(), FILL_COPY)?;
    let Ok(mut hall) = Hall::open(rt.alloc(), &accepted) else {
        return Err("there is memory".into());
    };
    assert!(rt; passes(&mut hall, 0) && passes(&mut hall, 1));
    assert!(rt; are_refused(&mut hall, &[Step::Launch(0)]));
    assert!(rt; refuses_all(rt.alloc(), &mut hall, 1) && stands(&hall, 10, &[7; 8]));
    Ok(())
}

/// Whether a packet of the ring is submitted, and then no other before it is launched.
fn fills_the_ring(hall: &mut Hall) -> bool {
    are_refused(hall, &[Step::Launch(0)])
        && happen(hall, &[Step::Submit])
        && are_refused(hall, &[Step::Submit])
}

#[test]
fn a_ring_with_one_place(rt: HostRuntime) -> Result<(), Fail> {
    let accepted = accepted(rt.alloc(), FILL_COPY_RING)?;
    let Ok(mut hall) = Hall::open(rt.alloc(), &accepted) else {
        return Err("there is memory".into());
    };
    assert!(rt; fills_the_ring(&mut hall) && enters(&mut hall, 0));
    assert!(rt; are_refused(&mut hall, &[Step::Submit]) && completes(&mut hall, 0));
    assert!(rt; fills_the_ring(&mut hall) && passes(&mut hall, 1));
    assert!(rt; are_refused(&mut hall, &[Step::Submit]) && happen(&mut hall, &[Step::Rest]));
    assert!(rt; is_so(&hall, &RING_EVENTS, &[7; 8]));
    Ok(())
}

/// A hall, which is asked for once more where there is no memory.
fn opened<'a>(alloc: Global, accepted: &'a Accepted) -> Option<Hall<'a>> {
    match Hall::open(alloc, accepted) {
        Ok(hall) => Some(hall),
        Err(_) => Hall::open(alloc, accepted).ok(),
    }
}

/// Whether the job, which leaves sevens everywhere, does so where all that is refused is asked for once more.
fn goes_again(alloc: Global, parts: &[&[u8]]) -> bool {
    let Some(accepted) = accepted_again(alloc, parts) else {
        return false;
    };
    match opened(alloc, &accepted) {
        Some(mut hall) => {
            in_order(&mut hall, accepted.order()) && hall.memory() == [7; 8].as_slice()
        }
        None => false,
    }
}

// Here no allocation is refused; `tests/refuse` refuses each in turn.
#[test]
fn what_is_refused_is_asked_for_once_more(rt: HostRuntime) {
    for parts in [WAIT, FILL_COPY_RING] {
        assert!(rt; goes_again(rt.alloc(), parts));
    }
}
