//! A run that is being made, step by step.

ghost use Rattle.std.specs.Prelude.{◌≡◌, ◌↔◌, ◌<◌, ◌≤◌, ◌++◌, ◌∷◌, [], IfOk, IfSome, IsTrue, OnOk, false, is_some};
ghost use Rattle.hq_job.specs.Plan.{plan};
ghost use Rattle.hq_events.specs.Events.{single_of};
ghost use Rattle.hq_machine.specs.Enabled.{Enabled, MayEnter};
ghost use Rattle.hq_machine.specs.View.{state_of};
ghost use Rattle.hq_model.specs.Machine.{IsByte};
ghost use Rattle.hq_model.specs.Origins.{Origins, agent_origin};
ghost use Rattle.hq_witness.specs.declared.origin.Origin.TheVariants.{Start};
ghost use Rattle.hq_witness.specs.Origins.{named};
ghost use Rattle.hq_witness.specs.Traces.{IsRecording, TellsCopies};
ghost use Rattle.hq_witness.specs.Witness.{IsFinished};

use crate::origin::Origin;
use crate::trace::Trace;
use hq_job::Job;
use hq_machine::{Event, Journal, State, StepFault};
use std::alloc::{AllocError, Global};

/// A run, with the origins of one byte.
#[derive(Drop)]
pub struct Recording {
    pub state: State,
    pub journal: Journal,
    pub trace: Trace,
}

/// Drops a recording. In a proof a call is one step, and a drop among others takes as long as a hundred.
pub fn let_go(_run: Recording) {}

/// Whether an event is a single step.
fn is_single(event: Event) -> bool
    ensures { result ≡ is_some (single_of event) }
{
    match event {
        Event::Fetch { packet: _ } => false,
        Event::Deliver { packet: _ } => false,
        Event::Complete { packet: _ } => false,
        Event::Rest => false,
        _ => true,
    }
}

impl Recording {
    /// The run in which nothing has happened yet, with the origins of this byte.
    pub fn start(alloc: Global, job: &Job, byte: u32) -> Result<Recording, AllocError>
        requires { IsByte (plan job.now) byte }
        ensures { IfOk result (λ r. IsRecording (plan job.now) r) }
    {
        let Ok(state) = State::start(alloc, job) else {
            return Err(AllocError);
        };
        let trace = Trace::start(alloc, job, byte)?;
        Ok(Recording {
            state,
            journal: Journal::new(alloc),
            trace,
        })
    }

    /// Takes a single step, where it is enabled, and answers whether it was.
    pub fn take(&mut self, job: &Job, event: Event) -> Result<bool, AllocError>
        requires { IsRecording (plan job.now) self.old }
        ensures recording { OnOk result (IsRecording (plan job.now) self.new) }
        ensures taken { IfOk result (λ yes. IsTrue yes → self.new.journal ≡ self.old.journal ++ event ∷ []) }
        ensures kept { IfOk result (λ yes. yes ≡ false → self.new ≡ self.old) }
        ensures refused { IfOk result
            (λ yes. yes ≡ false → IfSome (single_of event) (λ e. ¬ Enabled (plan job.now) self.old.state e)) }
    {
        if !is_single(event) {
            return Ok(false);
        }
        match self.state.step(job, event) {
            Ok(()) => {}
            Err(StepFault::NotEnabled) => return Ok(false),
            Err(StepFault::Memory) => return Err(AllocError),
        }
        self.trace.follow(job, &self.state, event)?;
        self.journal.push(event)?;
        Ok(true)
    }

    /// Whether the packet may enter.
    pub fn can_enter(&self, job: &Job, packet: u32) -> bool
        requires { IsRecording (plan job.now) self.now }
        ensures { IsTrue result ↔ MayEnter (plan job.now) (state_of (plan job.now) self.now.state) packet }
    {
        self.state.may_enter(job, packet as usize)
    }

    /// The origin of what memory has of the byte.
    pub fn memory_origin(&self) -> Origin
        ensures { result ≡ self.now.trace.memory }
    {
        self.trace.memory
    }

    /// The origin of what an agent sees of it, the start where there is no such agent.
    pub fn agent_origin(&self, job: &Job, agent: u32) -> Origin
        requires { IsRecording (plan job.now) self.now }
        ensures seen { agent < (plan job.now).agents → (o : Origins)
            → TellsCopies (plan job.now) o self.now.trace
            → agent_origin (state_of (plan job.now) self.now.state) o agent self.now.trace.byte ≡ named result }
        ensures none { (plan job.now).agents ≤ agent → result ≡ Start }
    {
        let agent = agent as usize;
        job.valid();
        if agent < job.agents() {
            self.trace.seen_by_agent(job, &self.state, agent)
        } else {
            Origin::Start
        }
    }

    /// Whether every packet is complete and no work is left.
    pub fn is_over(&self, job: &Job) -> bool
        requires { IsRecording (plan job.now) self.now }
        ensures { IsTrue result ↔ IsFinished (plan job.now) (state_of (plan job.now) self.now.state) }
    {
        let count = self.state.packets();
        if !self.state.all_complete(0..count) {
            return false;
        }
        match self.state.work_left(job) {
            Some(_left) => false,
            None => true,
        }
    }

    /// The events.
    pub fn into_journal(self) -> Journal
        ensures { result ≡ self.journal }
    {
        self.journal
    }
}
