//! Events that are asked for, and the list of those that were answered.

ghost use Rattle.std.specs.Prelude.{◌≡◌, ℕ, ◌<◌, ◌^◌, ◌++◌, ◌∷◌, [], Some, IfOk, OnOk, length, map, slice_get};
ghost use Rattle.hq_events.specs.declared.event.Event.TheVariants as event;
ghost use Rattle.hq_events.specs.Events.{coarse_of};
ghost use Rattle.hq_model.specs.Journal.{observations};
ghost use Rattle.hq_runner.specs.Pieces.{AreFor, IsWorked};
ghost use Rattle.hq_runner.specs.Steps.{event_of};

use crate::fault::Fault;
use crate::seated::Seated;
use crate::shared::Shared;
use crate::step::{Step, event_of};
use hq_footprint::Work;
use hq_ledger::Piece;
use hq_machine::Event;
use std::sync::Wait;

/// From where a processor asks: its seat at the board, where it has one, and the list of the events that were
/// answered to it.
#[derive(Drop)]
pub struct Desk<'b> {
    pub seated: Option<Seated<'b>>,
    pub events: Vec<Event>,
}

/// Makes room for one event more, so that none that was answered is left out.
fn make_room(list: &mut Vec<Event>) -> Result<(), Fault>
    ensures { list.new.items ≡ list.old.items }
{
    match list.try_reserve(1) {
        Ok(()) => Ok(()),
        Err(_) => Err(Fault::Memory),
    }
}

/// Notes the event, for which there is room.
fn note(list: &mut Vec<Event>, event: Event) -> Result<(), Fault>
    ensures { OnOk result (list.new.items ≡ list.old.items ++ event ∷ []) }
{
    match list.push(event) {
        Ok(()) => Ok(()),
        Err(_) => Err(Fault::Memory),
    }
}

/// Makes the step happen once it is enabled: at the board by a seat, else in the hall alone.
fn make<R: Wait>(
    rt: &R,
    shared: &Shared,
    seated: &mut Option<Seated>,
    step: Step,
) -> Result<(), Fault> {
    match seated {
        Some(seated) => seated.make(rt, shared, step),
        None => shared.wait_for(rt, step),
    }
}

/// Observes the first slot that is found at 0, once there is one, and answers which.
fn make_one<R: Wait>(
    rt: &R,
    shared: &Shared,
    seated: &mut Option<Seated>,
    packet: u16,
    slots: &[Option<u16>],
) -> Result<u16, Fault>
    requires { length slots.now < 2 ^ 16 }
    ensures { IfOk result (λ slot. (s : ℕ) × (slice_get slots.now slot ≡ Some (Some s))) }
{
    match seated {
        Some(seated) => seated.make_one(rt, shared, packet, slots),
        None => shared.wait_for_one(rt, packet, slots),
    }
}

/// Makes the step happen once it is enabled, and notes its event.
pub fn ask<R: Wait>(rt: &R, shared: &Shared, desk: &mut Desk, step: Step) -> Result<(), Fault>
    ensures { OnOk result (desk.new.events.items ≡ desk.old.events.items ++ event_of step ∷ []) }
{
    make_room(&mut desk.events)?;
    make(rt, shared, &mut desk.seated, step)?;
    note(&mut desk.events, event_of(step))
}

/// Observes one slot, once one is found at 0, and notes it.
pub fn ask_one<R: Wait>(
    rt: &R,
    shared: &Shared,
    desk: &mut Desk,
    packet: u16,
    slots: &[Option<u16>],
) -> Result<u16, Fault>
    requires { length slots.now < 2 ^ 16 }
    ensures slot { IfOk result (λ slot. (s : ℕ) × (slice_get slots.now slot ≡ Some (Some s))) }
    ensures list { IfOk result
        (λ slot. desk.new.events.items ≡ desk.old.events.items ++ event.Observe packet slot ∷ []) }
{
    make_room(&mut desk.events)?;
    let slot = make_one(rt, shared, &mut desk.seated, packet, slots)?;
    note(&mut desk.events, event_of(Step::Observe(packet, slot)))?;
    Ok(slot)
}

/// Observes all slots that aren't null, in their order, and notes it.
pub fn ask_all<R: Wait>(
    rt: &R,
    shared: &Shared,
    desk: &mut Desk,
    packet: u16,
    slots: &[Option<u16>],
) -> Result<(), Fault>
    requires { length slots.now < 2 ^ 16 }
    ensures { OnOk result
        (map coarse_of desk.new.events.items ≡ map coarse_of desk.old.events.items ++ observations packet 0 slots.now) }
{
    let mut slot = 0u16;
    while (slot as usize) < slots.len() {
        if slots[slot as usize].is_some() {
            ask(rt, shared, desk, Step::Observe(packet, slot))?;
        }
        slot += 1;
    }
    Ok(())
}

/// Fetches the packet, and notes it.
pub fn ask_fetch<R: Wait>(
    rt: &R,
    shared: &Shared,
    desk: &mut Desk,
    packet: u16,
    work: Work,
) -> Result<Vec<Piece>, Fault>
    ensures pieces { IfOk result (λ pieces. AreFor work pieces.items) }
    ensures list { OnOk result (desk.new.events.items ≡ desk.old.events.items ++ event.Fetch packet ∷ []) }
{
    make_room(&mut desk.events)?;
    let pieces = shared.fetch(rt, packet, work)?;
    note(
        &mut desk.events,
        Event::Fetch {
            packet: packet as u32,
        },
    )?;
    Ok(pieces)
}

/// Delivers the packet from the pieces that its body gave back, and notes it.
pub fn ask_deliver<R: Wait>(
    rt: &R,
    shared: &Shared,
    desk: &mut Desk,
    packet: u16,
    work: Work,
    pieces: Vec<Piece>,
) -> Result<(), Fault>
    requires { IsWorked work pieces.items }
    ensures { OnOk result (desk.new.events.items ≡ desk.old.events.items ++ event.Deliver packet ∷ []) }
{
    make_room(&mut desk.events)?;
    shared.hand_back(rt, packet, work, pieces)?;
    note(
        &mut desk.events,
        Event::Deliver {
            packet: packet as u32,
        },
    )
}
