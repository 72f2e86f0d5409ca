//! What a queue's processor does for a packet.

ghost use Rattle.std.specs.Prelude.{◌≡◌, ◌<◌, ◌++◌, ◌∷◌, [], true, IfOk, OnOk, map};
ghost use Rattle.hq_kernels.specs.Kits.{value_of};
ghost use Rattle.hq_events.specs.Events.{coarse_of};
ghost use Rattle.hq_model.specs.Journal.Coarse.{One, Complete};
ghost use Rattle.hq_model.specs.Journal.{observations};
ghost use Rattle.hq_model.specs.Machine as machine;
ghost use Rattle.hq_runner.specs.Lists.{ByOne, work_events};
ghost use Rattle.hq_runner.specs.Pieces.{AreFor, IsWorked};

use crate::asking::{Desk, ask, ask_all, ask_deliver, ask_fetch, ask_one};
use crate::fault::Fault;
use crate::gate::Gate;
use crate::shared::Shared;
use crate::step::Step;
use hq_footprint::Work;
use hq_job::Job;
use hq_kernels::Body;
use hq_ledger::Piece;
use hq_packet::Packet;
use hq_tables::Placed;
use std::sync::Wait;

/// Runs the packet's body with its pieces.
#[tactic(auto, using(crate::proofs::Working::worked))]
fn run_body(
    packet: u16,
    work: Work,
    body: &mut Body,
    pieces: Vec<Piece>,
) -> Result<Vec<Piece>, Fault>
    requires { AreFor work pieces.items }
    ensures worked { IfOk result (λ back. IsWorked work back.items) }
    ensures task { (value_of (λ b. kernel (b.vtable, b.value)) (λ b. service (b.vtable, b.value)) body.new).task
        ≡ (value_of (λ b. kernel (b.vtable, b.value)) (λ b. service (b.vtable, b.value)) body.old).task }
    ensures ran { OnOk result
        ((value_of (λ b. kernel (b.vtable, b.value)) (λ b. service (b.vtable, b.value)) body.new).ran ≡ true) }
{
    if !body.task().same(work.task) {
        return Err(Fault::Stopped);
    }
    match body.perform(pieces) {
        Ok(back) => Ok(back),
        Err(_) => Err(Fault::Kernel(packet)),
    }
}

/// Takes a kernel or agent packet through its events.
pub fn do_work<R: Wait, G: Gate>(
    rt: &R,
    shared: &Shared,
    gate: &G,
    packet: u16,
    placed: &Placed,
    body: &mut Body,
    desk: &mut Desk,
) -> Result<(), Fault>
    ensures list { OnOk result (desk.new.events.items ≡ desk.old.events.items ++ work_events placed.now.queue packet) }
    ensures task { (value_of (λ b. kernel (b.vtable, b.value)) (λ b. service (b.vtable, b.value)) body.new).task
        ≡ (value_of (λ b. kernel (b.vtable, b.value)) (λ b. service (b.vtable, b.value)) body.old).task }
    ensures ran { OnOk result
        ((value_of (λ b. kernel (b.vtable, b.value)) (λ b. service (b.vtable, b.value)) body.new).ran ≡ true) }
{
    let work = placed.work;
    ask(rt, shared, desk, Step::Launch(placed.queue))?;
    ask(rt, shared, desk, Step::Enter(packet))?;
    gate.hold(packet);
    let pieces = ask_fetch(rt, shared, desk, packet, work)?;
    let pieces = run_body(packet, work, body, pieces)?;
    ask_deliver(rt, shared, desk, packet, work, pieces)?;
    ask(rt, shared, desk, Step::Complete(packet))?;
    gate.passed(packet);
    Ok(())
}

/// Takes a barrier-AND packet through its events.
pub fn do_and<R: Wait, G: Gate>(
    rt: &R,
    shared: &Shared,
    gate: &G,
    packet: u16,
    placed: &Placed,
    desk: &mut Desk,
) -> Result<(), Fault>
    ensures { OnOk result
        (map coarse_of desk.new.events.items ≡ map coarse_of desk.old.events.items ++ (One
        (machine.Event.Launch placed.now.queue) ∷ observations packet 0 placed.now.slots ++ One
        (machine.Event.Enter packet) ∷ Complete packet ∷ [])) }
{
    ask(rt, shared, desk, Step::Launch(placed.queue))?;
    ask_all(rt, shared, desk, packet, &placed.slots)?;
    ask(rt, shared, desk, Step::Enter(packet))?;
    ask(rt, shared, desk, Step::Complete(packet))?;
    gate.passed(packet);
    Ok(())
}

/// Takes a barrier-OR packet through its events.
pub fn do_or<R: Wait, G: Gate>(
    rt: &R,
    shared: &Shared,
    gate: &G,
    packet: u16,
    placed: &Placed,
    desk: &mut Desk,
) -> Result<(), Fault>
    ensures { OnOk result (ByOne placed.now packet desk.old.events.items desk.new.events.items) }
{
    ask(rt, shared, desk, Step::Launch(placed.queue))?;
    let _slot = ask_one(rt, shared, desk, packet, &placed.slots)?;
    ask(rt, shared, desk, Step::Enter(packet))?;
    ask(rt, shared, desk, Step::Complete(packet))?;
    gate.passed(packet);
    Ok(())
}
