//! Single steps.

ghost use Rattle.std.specs.Prelude.{◌≡◌, IsSome, IfSome, IfErr, OnOk, OnErr};
ghost use Rattle.hq_job.specs.Plan.{plan};
ghost use Rattle.hq_events.specs.Events.{single_of};
ghost use Rattle.hq_machine.specs.Changes.{Moved};
ghost use Rattle.hq_machine.specs.Enabled.{Refused};
ghost use Rattle.hq_machine.specs.View.{IsStateOf};

use crate::state::State;
use hq_events::{Event, StepFault};
use hq_job::Job;

impl State {
    /// Takes the step that an event is, where it is a single one. Where it is refused, the state stays as it was.
    ///
    /// # Errors
    ///
    /// `NotEnabled` where the event isn't a step that may happen; `Memory`.
    pub fn step(&mut self, job: &Job, event: Event) -> Result<(), StepFault>
        requires is { IsStateOf (plan job.now) self.old }
        requires single { IsSome (single_of event) }
        ensures ok { OnOk result (IfSome (single_of event) (λ e. Moved (plan job.now) self.old e self.new)) }
        ensures err { OnErr result (self.new ≡ self.old) }
        ensures fault { IfErr result (λ f. IfSome (single_of event) (λ e. Refused (plan job.now) self.old e f)) }
    {
        match event {
            Event::Submit => self.submit(job),
            Event::Launch { queue } => self.launch(job, queue),
            Event::Observe { packet, slot } => self.observe(job, packet, slot),
            Event::Enter { packet } => self.enter(job, packet),
            Event::Read { packet, entry } => self.read(job, packet, entry),
            Event::Store { packet, entry } => self.store(job, packet, entry),
            Event::Finish { packet } => self.finish(job, packet),
            Event::PushLane { packet, byte } => self.push_lane(job, packet, byte),
            Event::PushAgent { agent, byte } => self.push_agent(job, agent, byte),
            Event::FillLane { packet, byte } => self.fill_lane(job, packet, byte),
            Event::FillAgent { agent, byte } => self.fill_agent(job, agent, byte),
            Event::DropLane { packet, byte } => self.drop_lane(job, packet, byte),
            Event::DropAgent { agent, byte } => self.drop_agent(job, agent, byte),
            Event::Fetch { packet: _ } => Err(StepFault::NotEnabled),
            Event::Deliver { packet: _ } => Err(StepFault::NotEnabled),
            Event::Complete { packet: _ } => Err(StepFault::NotEnabled),
            Event::Rest => Err(StepFault::NotEnabled),
        }
    }
}
