//! Replays of journals.

ghost use Rattle.std.specs.Prelude.{◌≡◌, IfOk, IfErr, OnOk};
ghost use Rattle.hq_job.specs.Plan.{plan};
ghost use Rattle.hq_machine.specs.View.{IsStateOf, state_of};
ghost use Rattle.hq_model.specs.Machine.{start};
ghost use Rattle.hq_timeline.specs.Replays.{Goes, Stops, FaultOf, Replayed, NotReplayed};

use crate::fault::ReplayFault;
use hq_job::Job;
use hq_machine::{Event, Journal, State, StepFault};
use std::alloc::Global;

/// Why the events don't all happen, where the event of a place didn't.
fn fault_at(place: usize, fault: StepFault) -> ReplayFault
    ensures { FaultOf place fault result }
{
    match fault {
        StepFault::NotEnabled => ReplayFault::NotEnabled(place),
        StepFault::Memory => ReplayFault::Memory,
    }
}

/// Applies events in their order.
fn apply_all(state: &mut State, job: &Job, events: &[Event]) -> Result<(), ReplayFault>
    requires { IsStateOf (plan job.now) state.old }
    ensures goes { OnOk result (Goes (plan job.now) state.old events.now state.new) }
    ensures stops { IfErr result (Stops (plan job.now) state.old events.now) }
{
    for (place, event) in events.iter().enumerate() {
        if let Err(fault) = state.apply(job, *event) {
            return Err(fault_at(place, fault));
        }
    }
    Ok(())
}

/// The state in which a run of the job starts.
fn start(alloc: Global, job: &Job) -> Result<State, ReplayFault>
    ensures is { IfOk result (λ s. IsStateOf (plan job.now) s) }
    ensures start { IfOk result (λ s. state_of (plan job.now) s ≡ start (plan job.now)) }
    ensures memory { IfErr result (λ e. e ≡ ReplayFault.Memory) }
{
    match State::start(alloc, job) {
        Ok(state) => Ok(state),
        Err(_) => Err(ReplayFault::Memory),
    }
}

/// The bytes of memory after the events of a journal, each of which has to be enabled after those before it. The
/// job needn't be one that a certificate orders.
///
/// # Errors
///
/// The first event that isn't enabled, or that there is no memory.
pub fn replay(alloc: Global, job: &Job, journal: &Journal) -> Result<Vec<u8>, ReplayFault>
    ensures replayed { IfOk result (λ bytes. Replayed (plan job.now) journal.now bytes.items) }
    ensures refused { IfErr result (NotReplayed (plan job.now) journal.now) }
{
    let mut state = start(alloc, job)?;
    apply_all(&mut state, job, journal.events())?;
    Ok(state.into_memory())
}
