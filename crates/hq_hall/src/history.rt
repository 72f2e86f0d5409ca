//! A run, event by event.

ghost use Rattle.std.specs.Prelude.{◌≡◌, [], IfOk, IfErr, OnOk, OnErr};
ghost use Rattle.hq_hall.specs.declared.fault.HallFault.TheVariants as fault;
ghost use Rattle.hq_hall.specs.Histories.{HistoryValue, RunSoFar, Moves, NotDone, plan_of};
ghost use Rattle.hq_job.specs.Plan.{plan};
ghost use Rattle.hq_events.specs.declared.event.Event.TheVariants as event;
ghost use Rattle.hq_events.specs.Events.{coarse_of};
ghost use Rattle.hq_machine.specs.Changes.{Applied};
ghost use Rattle.hq_machine.specs.Enabled.{Possible};
ghost use Rattle.hq_machine.specs.View.{IsStateOf, state_of};
ghost use Rattle.hq_model.specs.Journal.Coarse.{Deliver};
ghost use Rattle.hq_model.specs.Machine.{bytes_stored};

use crate::fault::{HallFault, hall_fault};
use hq_certcheck::Accepted;
use hq_machine::{Event, Journal, State};
use std::alloc::Global;
use std::marker::Model;

/// A run of an accepted job: its state, and the journal of the events that led there.
///
/// Contracts see it as these; the type keeps that the journal is a run of the job which leads to the state.
#[derive(Drop)]
pub struct History<'a> {
    accepted: &'a Accepted,
    state: State,
    journal: Journal,
}

impl<'a> Model for History<'a> {
    ghost use Rattle.hq_job.specs.Plan.{plan};
    ghost use Rattle.std.specs.Coded.{codes};
    ghost use Rattle.hq_machine.specs.State.{state_code};
    ghost use Rattle.hq_hall.specs.Histories.{HistoryValue, RunSoFar};

    ghost Value = { HistoryValue };

    ghost coded = { Prim.hlevel (codes, state_code) };

    ghost view = { λ h. record { job = h.accepted.now; state = h.state; events = h.journal } };

    ghost invariant = { λ h. RunSoFar (plan h.accepted.now.job) h.journal h.state };
}

/// Makes an event happen.
#[tactic(auto, using(crate::proofs::Events::not_done))]
fn apply(state: &mut State, accepted: &Accepted, event: Event) -> Result<(), HallFault>
    requires is { IsStateOf (plan accepted.now.job) state.old }
    ensures ok { OnOk result (Applied (plan accepted.now.job) state.old (coarse_of event) state.new) }
    ensures err { OnErr result (state.new ≡ state.old) }
    ensures fault { IfErr result (λ f. NotDone (plan accepted.now.job) state.old (coarse_of event) f) }
{
    match state.apply(accepted.job(), event) {
        Ok(()) => Ok(()),
        Err(fault) => Err(hall_fault(fault)),
    }
}

/// Makes the delivery of these bytes happen.
#[tactic(auto, using(crate::proofs::Events::not_done))]
fn apply_delivery(
    state: &mut State,
    accepted: &Accepted,
    packet: u16,
    bytes: &[u8],
) -> Result<(), HallFault>
    requires is { IsStateOf (plan accepted.now.job) state.old }
    requires bytes { Possible (plan accepted.now.job) state.old (Deliver packet)
        → bytes.now ≡ bytes_stored (plan accepted.now.job) (state_of (plan accepted.now.job) state.old) packet }
    ensures ok { OnOk result (Applied (plan accepted.now.job) state.old (Deliver packet) state.new) }
    ensures err { OnErr result (state.new ≡ state.old) }
    ensures fault { IfErr result (λ f. NotDone (plan accepted.now.job) state.old (Deliver packet) f) }
{
    match state.deliver(accepted.job(), packet as u32, bytes) {
        Ok(()) => Ok(()),
        Err(fault) => Err(hall_fault(fault)),
    }
}

impl<'a> History<'a> {
    /// With no event yet.
    #[tactic(auto, using(crate::proofs::Events::run_starts))]
    pub fn open(alloc: Global, accepted: &'a Accepted) -> Result<History<'a>, HallFault>
        ensures opened { IfOk result (λ h. (h.job ≡ accepted.now) × (h.events ≡ [])) }
        ensures memory { IfErr result (λ e. e ≡ fault.Memory) }
    {
        match State::start(alloc, accepted.job()) {
            Ok(state) => Ok(History {
                accepted,
                state,
                journal: Journal::new(alloc),
            }),
            Err(_fault) => Err(HallFault::Memory),
        }
    }

    /// The journal is a run of the job, and leads to the state.
    pub fn run_so_far(&self)
        ensures { RunSoFar (plan_of self.now) self.now.events self.now.state }
    {
        let _journal = &self.journal;
    }

    /// The job.
    pub fn accepted(&self) -> &'a Accepted
        ensures { result.now ≡ self.now.job }
    {
        self.accepted
    }

    /// The state that the events have led to.
    pub fn state(&self) -> &State
        ensures { result.now ≡ self.now.state }
    {
        &self.state
    }

    /// The events so far.
    pub fn journal(&self) -> &Journal
        ensures { result.now ≡ self.now.events }
    {
        &self.journal
    }

    /// The events so far; takes no memory.
    pub fn into_journal(self) -> Journal
        ensures { result ≡ self.entry.events }
    {
        let History {
            accepted: _,
            state: _,
            journal,
        } = self;
        journal
    }

    /// Makes an event happen, and writes it down.
    #[tactic(auto, using(crate::proofs::Events::run_grows))]
    pub fn take(&mut self, event: Event) -> Result<(), HallFault>
        ensures ok { OnOk result (Moves self.old event self.new) }
        ensures err { OnErr result (self.new ≡ self.old) }
        ensures fault { IfErr result (λ f. NotDone (plan_of self.old) self.old.state (coarse_of event) f) }
    {
        self.journal.push(event)?;
        match apply(&mut self.state, self.accepted, event) {
            Ok(()) => Ok(()),
            Err(fault) => {
                let _event = self.journal.pop();
                Err(fault)
            }
        }
    }

    /// Makes a delivery of these bytes happen, and writes it down.
    #[tactic(auto, using(crate::proofs::Events::run_grows))]
    pub fn deliver(&mut self, packet: u16, bytes: &[u8]) -> Result<(), HallFault>
        requires bytes { Possible (plan_of self.old) self.old.state (Deliver packet)
            → bytes.now ≡ bytes_stored (plan_of self.old) (state_of (plan_of self.old) self.old.state) packet }
        ensures ok { OnOk result (Moves self.old (event.Deliver packet) self.new) }
        ensures err { OnErr result (self.new ≡ self.old) }
        ensures fault { IfErr result (λ f. NotDone (plan_of self.old) self.old.state (Deliver packet) f) }
    {
        self.journal.push(Event::Deliver {
            packet: packet as u32,
        })?;
        match apply_delivery(&mut self.state, self.accepted, packet, bytes) {
            Ok(()) => Ok(()),
            Err(fault) => {
                let _event = self.journal.pop();
                Err(fault)
            }
        }
    }
}
