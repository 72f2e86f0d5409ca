//! Events of a journal, applied.

ghost use Rattle.std.specs.Prelude.{◌≡◌, IsSome, IfErr, OnErr, OnOk};
ghost use Rattle.hq_job.specs.Plan.{plan};
ghost use Rattle.hq_events.specs.Events.{coarse_of, single_of};
ghost use Rattle.hq_machine.specs.Changes.{Applied};
ghost use Rattle.hq_machine.specs.Enabled.{NotApplied};
ghost use Rattle.hq_machine.specs.View.{IsStateOf};

use crate::state::State;
use hq_events::{Event, StepFault};
use hq_job::Job;

impl State {
    /// An event that is one step.
    #[tactic(auto, using(crate::proofs::Singles::applied_one, crate::proofs::Singles::not_applied_one))]
    fn apply_single(&mut self, job: &Job, event: Event) -> Result<(), StepFault>
        requires is { IsStateOf (plan job.now) self.old }
        requires single { IsSome (single_of event) }
        ensures ok { OnOk result (Applied (plan job.now) self.old (coarse_of event) self.new) }
        ensures err { OnErr result (self.new ≡ self.old) }
        ensures fault { IfErr result (λ f. NotApplied (plan job.now) self.old (coarse_of event) f) }
    {
        self.step(job, event)
    }

    /// Makes an event happen, one that stands for a list of steps whole or not at all.
    ///
    /// # Errors
    ///
    /// `NotEnabled` exactly where the event can't happen in this state, and `Memory`; the state is then as it was.
    pub fn apply(&mut self, job: &Job, event: Event) -> Result<(), StepFault>
        requires is { IsStateOf (plan job.now) self.old }
        ensures ok { OnOk result (Applied (plan job.now) self.old (coarse_of event) self.new) }
        ensures err { OnErr result (self.new ≡ self.old) }
        ensures fault { IfErr result (λ f. NotApplied (plan job.now) self.old (coarse_of event) f) }
    {
        match event {
            Event::Fetch { packet } => self.fetch(job, packet),
            Event::Deliver { packet } => self.deliver_all(job, packet),
            Event::Complete { packet } => self.complete(job, packet),
            Event::Rest => self.rest(job),
            _ => self.apply_single(job, event),
        }
    }
}
