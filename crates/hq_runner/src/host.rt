//! What the host does while the processors run.

ghost use Rattle.std.specs.Prelude.{◌≡◌, [], OnOk};
ghost use Rattle.hq_job.specs.Plan.{plan};
ghost use Rattle.hq_runner.specs.Lists.{IsHostProgram};
ghost use Rattle.hq_runner.specs.Hosted.{HostDone};

use crate::asking::{Desk, ask};
use crate::fault::Fault;
use crate::shared::Shared;
use crate::step::Step;
use hq_job::Job;
use hq_machine::Event;
use std::alloc::Global;
use std::sync::Wait;

/// What the host gives back.
#[derive(Drop)]
pub struct Hosted {
    /// The events that were answered to it.
    pub events: Vec<Event>,
    pub fault: Option<Fault>,
}

/// Where queues are rings, submits as often as there are packets.
fn submit_all<R: Wait>(rt: &R, shared: &Shared, job: &Job, desk: &mut Desk) -> Result<(), Fault>
    requires { desk.old.events.items ≡ [] }
    ensures { OnOk result (IsHostProgram (plan job.now) desk.new.events.items) }
{
    if !job.rings() {
        return Ok(());
    }
    for _ in 0..job.packets().len() {
        ask(rt, shared, desk, Step::Submit)?;
    }
    Ok(())
}

/// The host.
pub fn host<R: Wait>(rt: &R, alloc: Global, job: &Job, shared: &Shared) -> Hosted
    ensures { HostDone (plan job.now) result }
{
    let events = Vec::new(alloc);
    let mut desk = Desk {
        seated: None,
        events,
    };
    let fault = match submit_all(rt, shared, job, &mut desk) {
        Ok(()) => None,
        Err(fault) => Some(fault),
    };
    if fault.is_some() {
        shared.fail(rt);
    }
    let Desk { seated: _, events } = desk;
    Hosted { events, fault }
}
