//! What a queue's processor does for all packets of its queue.

ghost use Rattle.std.specs.Prelude.{◌≡◌, ◌<◌, ◌≤◌, [], take, IfOk, OnOk, length};
ghost use Rattle.hq_job.specs.Plan.{plan};
ghost use Rattle.hq_runner.specs.Ended.{Done};
ghost use Rattle.hq_runner.specs.Kits.{AllRan, tasks_of};
ghost use Rattle.hq_runner.specs.Lists.{Did, IsProgram};

use crate::asking::Desk;
use crate::fault::Fault;
use crate::gate::Gate;
use crate::places::Place;
use crate::processor::{do_and, do_or, do_work};
use crate::shared::Shared;
use hq_job::Job;
use hq_kernels::{Body, Kit};
use hq_machine::Event;
use hq_packet::Packet;
use std::alloc::Global;
use std::sync::Wait;

/// What a processor gives back.
#[derive(Drop)]
pub struct Ended {
    pub kit: Kit,
    /// The events that were answered to it.
    pub events: Vec<Event>,
    pub fault: Option<Fault>,
}

/// Takes a packet through its events, if it is a kernel or agent packet with the next of the bodies. Answers how
/// many bodies have run.
fn do_packet<R: Wait, G: Gate>(
    rt: &R,
    shared: &Shared,
    gate: &G,
    job: &Job,
    packet: u16,
    bodies: &mut Vec<Body>,
    next: usize,
    desk: &mut Desk,
) -> Result<usize, Fault>
    requires packet { packet < length job.now.packets }
    requires next { next ≤ length bodies.old.items }
    requires ran { AllRan (λ b. kernel (b.vtable, b.value)) (λ b. service (b.vtable, b.value))
        (take next bodies.old.items) }
    ensures list { OnOk result (Did (plan job.now) packet desk.old.events.items desk.new.events.items) }
    ensures tasks { tasks_of (λ b. kernel (b.vtable, b.value))
        (λ b. service (b.vtable, b.value)) bodies.new.items ≡ tasks_of (λ b. kernel (b.vtable, b.value))
        (λ b. service (b.vtable, b.value)) bodies.old.items }
    ensures next { IfOk result (λ n. n ≤ length bodies.new.items) }
    ensures ran { IfOk result
        (λ n. AllRan (λ b. kernel (b.vtable, b.value)) (λ b. service (b.vtable, b.value)) (take n bodies.new.items)) }
{
    let placed = job.packet(packet as usize);
    match &placed.packet {
        Packet::Kernel(_) | Packet::Agent(_) => {
            if next >= bodies.len() {
                return Err(Fault::Stopped);
            }
            do_work(rt, shared, gate, packet, placed, &mut bodies[next], desk)?;
            Ok(next + 1)
        }
        Packet::And(_) => {
            do_and(rt, shared, gate, packet, placed, desk)?;
            Ok(next)
        }
        Packet::Or(_) => {
            do_or(rt, shared, gate, packet, placed, desk)?;
            Ok(next)
        }
    }
}

/// Takes the packets of a queue in turn.
fn do_all<R: Wait, G: Gate>(
    rt: &R,
    shared: &Shared,
    gate: &G,
    job: &Job,
    queue: usize,
    bodies: &mut Vec<Body>,
    desk: &mut Desk,
) -> Result<(), Fault>
    requires queue { queue < length job.now.queues }
    requires list { desk.old.events.items ≡ [] }
    ensures list { OnOk result (IsProgram (plan job.now) queue desk.new.events.items) }
    ensures tasks { tasks_of (λ b. kernel (b.vtable, b.value))
        (λ b. service (b.vtable, b.value)) bodies.new.items ≡ tasks_of (λ b. kernel (b.vtable, b.value))
        (λ b. service (b.vtable, b.value)) bodies.old.items }
    ensures ran { OnOk result
        (AllRan (λ b. kernel (b.vtable, b.value)) (λ b. service (b.vtable, b.value)) bodies.new.items) }
{
    job.valid();
    let span = job.of_queue(queue);
    let start = span.start;
    let stop = span.end;
    let mut next = 0;
    let mut packet = start;
    while packet < stop {
        next = do_packet(rt, shared, gate, job, packet as u16, bodies, next, desk)?;
        packet += 1;
    }
    if next < bodies.len() {
        return Err(Fault::Stopped);
    }
    Ok(())
}

/// The processor of a queue.
pub fn process<R: Wait, G: Gate>(
    rt: &R,
    alloc: Global,
    job: &Job,
    shared: &Shared,
    gate: &G,
    queue: usize,
    place: Place,
) -> Ended
    requires { queue < length job.now.queues }
    ensures { Done (λ b. kernel (b.vtable, b.value)) (λ b. service (b.vtable, b.value))
        (plan job.now) queue place.entry.kit result }
{
    let Place { mut kit, seated } = place;
    let events = Vec::new(alloc);
    let mut desk = Desk { seated, events };
    let fault = match do_all(rt, shared, gate, job, queue, &mut kit.bodies, &mut desk) {
        Ok(()) => None,
        Err(fault) => Some(fault),
    };
    if fault.is_some() {
        shared.fail(rt);
    }
    let Desk { seated: _, events } = desk;
    Ended { kit, events, fault }
}
