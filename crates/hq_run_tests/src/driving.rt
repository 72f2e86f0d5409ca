//! A hall that one thread takes through its events. What is refused for want of memory is asked for once more.

ghost use Rattle.std.specs.Prelude.{◌≡◌, IfErr, IfOk, IfSome};
ghost use Rattle.hq_hall.specs.View.{work_in};
ghost use Rattle.hq_runner.specs.Pieces.{AreFor, IsWorked};

use hq_footprint::Work;
use hq_hall::{Hall, HallFault};
use hq_kernels::{Body, Stock};
use hq_ledger::Piece;
use hq_timeline::{parse, print, replay};
use std::alloc::Global;

/// An event that moves no pieces.
#[derive(Clone, Copy)]
pub enum Step {
    Submit,
    Launch(u16),
    Observe(u16, u16),
    Enter(u16),
    Complete(u16),
    Rest,
}

/// Asks for a step once.
pub fn ask(hall: &mut Hall, step: Step) -> Result<(), HallFault> {
    match step {
        Step::Submit => hall.submit(),
        Step::Launch(queue) => hall.launch(queue),
        Step::Observe(packet, slot) => hall.observe(packet, slot),
        Step::Enter(packet) => hall.enter(packet),
        Step::Complete(packet) => hall.complete(packet),
        Step::Rest => hall.rest(),
    }
}

/// Whether the step happens.
pub fn goes(hall: &mut Hall, step: Step) -> bool {
    match ask(hall, step) {
        Err(HallFault::Memory) => ask(hall, step).is_ok(),
        answer => answer.is_ok(),
    }
}

/// The packet's work.
pub fn work_of(hall: &Hall, packet: u16) -> Option<Work>
    ensures { IfSome result (λ work. work_in hall.now packet ≡ work) }
{
    match hall.job().packets().get(packet as usize) {
        Some(placed) => Some(placed.work),
        None => None,
    }
}

/// Asks for the pieces of a packet, whose work this is, once.
fn fetch_once(hall: &mut Hall, packet: u16, work: Work) -> Result<Vec<Piece>, HallFault>
    requires { work_in hall.old packet ≡ work }
    ensures work { work_in hall.new packet ≡ work }
    ensures pieces { IfOk result (λ pieces. AreFor work pieces.items) }
{
    hall.fetch(packet)
}

/// The pieces of a packet, whose work this is.
fn fetch(hall: &mut Hall, packet: u16, work: Work) -> Option<Vec<Piece>>
    requires { work_in hall.old packet ≡ work }
    ensures work { work_in hall.new packet ≡ work }
    ensures pieces { IfSome result (λ pieces. AreFor work pieces.items) }
{
    match fetch_once(hall, packet, work) {
        Ok(pieces) => Some(pieces),
        Err(HallFault::Memory) => fetch_once(hall, packet, work).ok(),
        Err(_) => None,
    }
}

/// What the stock body for this work makes of its pieces.
#[tactic(auto, using(crate::proofs::Worked::worked))]
fn perform(work: Work, pieces: Vec<Piece>) -> Option<Vec<Piece>>
    requires { AreFor work pieces.items }
    ensures { IfSome result (λ back. IsWorked work back.items) }
{
    let mut body = Body::Stock(Stock::new(work.task));
    body.perform(pieces).ok()
}

/// Delivers a packet, whose work this is, if there is memory.
fn deliver_once(
    hall: &mut Hall,
    packet: u16,
    work: Work,
    pieces: Vec<Piece>,
) -> Result<(), (HallFault, Vec<Piece>)>
    requires work { work_in hall.old packet ≡ work }
    requires worked { IsWorked work pieces.items }
    ensures work { work_in hall.new packet ≡ work }
    ensures back { IfErr result (λ e. IsWorked work e.1.items) }
{
    hall.deliver(packet, pieces)
}

/// Whether a packet, whose work this is, is delivered.
fn deliver(hall: &mut Hall, packet: u16, work: Work, pieces: Vec<Piece>) -> bool
    requires work { work_in hall.old packet ≡ work }
    requires worked { IsWorked work pieces.items }
{
    match deliver_once(hall, packet, work, pieces) {
        Ok(()) => true,
        Err((HallFault::Memory, back)) => deliver_once(hall, packet, work, back).is_ok(),
        Err(_) => false,
    }
}

/// Whether a packet is fetched, its stock body runs, and it is delivered.
pub fn works(hall: &mut Hall, packet: u16) -> bool {
    let Some(work) = work_of(hall, packet) else {
        return false;
    };
    let Some(pieces) = fetch(hall, packet, work) else {
        return false;
    };
    match perform(work, pieces) {
        Some(back) => deliver(hall, packet, work, back),
        None => false,
    }
}

/// Submits all that may be submitted.
fn submit_all(hall: &mut Hall) {
    for _ in 0..hall.job().packets().len() {
        let _submitted = goes(hall, Step::Submit);
    }
}

/// Observes each slot of a packet that may be observed, and enters it if that may be.
fn enter(hall: &mut Hall, packet: u16) {
    for slot in 0..5 {
        let _seen = goes(hall, Step::Observe(packet, slot));
    }
    let _entered = goes(hall, Step::Enter(packet));
}

/// Takes a packet, which is the next of its queue, through all its events, and says whether it completes.
fn goes_through(hall: &mut Hall, packet: u16) -> bool {
    let Some(placed) = hall.job().packets().get(packet as usize) else {
        return false;
    };
    let queue = placed.queue;
    submit_all(hall);
    let _launched = goes(hall, Step::Launch(queue));
    enter(hall, packet);
    let _worked = works(hall, packet);
    goes(hall, Step::Complete(packet))
}

/// Takes the packets through their events, one behind the other in this order, and says whether each completes.
pub fn in_order(hall: &mut Hall, order: &[u16]) -> bool {
    for packet in order {
        if !goes_through(hall, *packet) {
            return false;
        }
    }
    goes(hall, Step::Rest)
}

/// Whatever may happen, of each kind of event once for each queue or packet, the packets from the last to the first.
fn go_round(hall: &mut Hall, queues: u16, packets: u16) {
    submit_all(hall);
    for queue in 0..queues {
        let _launched = goes(hall, Step::Launch(queue));
    }
    for left in 0..packets {
        enter(hall, packets - 1 - left);
    }
    for left in 0..packets {
        let _worked = works(hall, packets - 1 - left);
    }
    for left in 0..packets {
        let _completed = goes(hall, Step::Complete(packets - 1 - left));
    }
}

/// Takes all queues through their events side by side, and says whether every packet completes.
pub fn side_by_side(hall: &mut Hall) -> bool {
    let job = hall.job();
    job.valid();
    let queues = job.queues().len() as u16;
    let packets = job.packets().len() as u16;
    for _ in 0..packets {
        go_round(hall, queues, packets);
    }
    hall.all_complete() && goes(hall, Step::Rest)
}

/// The bytes of memory that a replay of the journal leaves, once it was printed and read again.
fn replayed(alloc: Global, hall: &Hall) -> Option<Vec<u8>> {
    let mut text = Vec::new(alloc);
    let Ok(()) = print(alloc, hall.journal(), &mut text) else {
        return None;
    };
    let Ok(journal) = parse(alloc, &text) else {
        return None;
    };
    replay(alloc, hall.job(), &journal).ok()
}

/// Whether memory is so, and the journal's replay leaves the same.
pub fn leaves(alloc: Global, hall: &Hall, memory: &[u8]) -> bool {
    match replayed(alloc, hall) {
        Some(bytes) => hall.memory() == memory && bytes.as_slice() == memory,
        None => false,
    }
}
