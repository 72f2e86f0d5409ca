//! Which scopes of fences order two packets.

ghost use Rattle.std.specs.Prelude.{◌≡◌, ◌↔◌, IsTrue, IfOk, IfErr};
ghost use Rattle.hq_job.specs.Plan.{plan};
ghost use Rattle.hq_model.specs.Job.{IsPacket};
ghost use Rattle.hq_model.specs.Settings.{head_at, with_head};
ghost use Rattle.hq_audit.specs.Refused.{ShownOneWay};
ghost use Rattle.hq_order.specs.View.{AreOf};
ghost use Rattle.hq_explain.specs.Advised.{IsLeast};
ghost use Rattle.hq_explain.specs.Changes.{Orders};
ghost use Rattle.hq_explain.specs.Trials.{IsTrial};
ghost use Rattle.hq_explain.specs.declared.change.Change.TheVariants as change;
ghost use Rattle.hq_explain.specs.declared.fault.ExplainFault.TheVariants.{Memory};

use crate::change::{Change, Fence, changed, is_raise};
use crate::fault::ExplainFault;
use hq_audit::direct;
use hq_job::Job;
use hq_order::{Before, Rounds};
use hq_packet::{Head, Scope};
use std::alloc::Global;

/// Whether all conflicts of two packets are ordered, in one direction.
pub fn is_ordered(before: &Before, a: usize, b: usize) -> bool
    requires a_is { IsPacket before.now a }
    requires b_is { IsPacket before.now b }
    ensures { IsTrue result ↔ ShownOneWay before.now a b }
{
    direct(before, a, b).is_ok()
}

/// The rounds of a job's order.
fn rounds_of(alloc: Global, job: &Job) -> Result<Rounds, ExplainFault>
    ensures rounds { IfOk result (AreOf (plan job.now)) }
    ensures memory { IfErr result (λ e. e ≡ Memory) }
{
    let before = Before::build(alloc, job)?;
    Ok(before.into_rounds())
}

/// A copy of a job whose heads are changed and set back, and the rounds of its order.
#[derive(Drop)]
pub struct Trial {
    copy: Job,
    rounds: Rounds,
}

/// Drops a trial.
pub fn let_trial_go(_trial: Trial) {}

impl Trial {
    /// A trial of a job.
    pub fn build(alloc: Global, job: &Job) -> Result<Trial, ExplainFault>
        ensures trial { IfOk result (IsTrial (plan job.now)) }
        ensures memory { IfErr result (λ e. e ≡ Memory) }
    {
        let copy = job.copy(alloc)?;
        match rounds_of(alloc, &copy) {
            Ok(rounds) => Ok(Trial { copy, rounds }),
            Err(error) => {
                copy.let_go();
                Err(error)
            }
        }
    }

    /// Whether all conflicts of a and b are ordered, in one direction, once packet p has this head, which has the
    /// bit as it was.
    fn is_ordered(self, job: &Job, a: usize, b: usize, p: usize, head: Head) -> (bool, Trial)
        requires trial { IsTrial (plan job.now) self }
        requires a_is { IsPacket (plan job.now) a }
        requires b_is { IsPacket (plan job.now) b }
        requires p_is { IsPacket (plan job.now) p }
        requires bit { head.barrier ≡ (head_at (plan job.now) p).barrier }
        ensures ordered { IsTrue result.0 ↔ ShownOneWay (with_head (plan job.now) p head) a b }
        ensures trial { IsTrial (plan job.now) result.1 }
    {
        let Trial { mut copy, rounds } = self;
        copy.set_head(p, head);
        let before = rounds.over(&copy);
        let ordered = is_ordered(&before, a, b);
        let rounds = before.into_rounds();
        copy.set_head(p, job.head(p));
        (ordered, Trial { copy, rounds })
    }

    /// Whether this scope of this fence of packet p reaches farther than the one that is there, and alone orders a
    /// and b.
    fn orders(
        self,
        job: &Job,
        a: usize,
        b: usize,
        p: usize,
        fence: Fence,
        scope: Scope,
    ) -> (bool, Trial)
        requires trial { IsTrial (plan job.now) self }
        requires a_is { IsPacket (plan job.now) a }
        requires b_is { IsPacket (plan job.now) b }
        requires p_is { IsPacket (plan job.now) p }
        ensures orders { IsTrue result.0 ↔ Orders (plan job.now) a b p (change.Scope fence scope) }
        ensures trial { IsTrial (plan job.now) result.1 }
    {
        let change = Change::Scope(fence, scope);
        let head = job.head(p);
        if is_raise(head, change) {
            self.is_ordered(job, a, b, p, changed(head, change))
        } else {
            (false, self)
        }
    }

    /// The least scope of this fence of packet p that alone orders a and b.
    pub fn least(
        self,
        job: &Job,
        a: usize,
        b: usize,
        p: usize,
        fence: Fence,
    ) -> (Option<Scope>, Trial)
        requires trial { IsTrial (plan job.now) self }
        requires a_is { IsPacket (plan job.now) a }
        requires b_is { IsPacket (plan job.now) b }
        requires p_is { IsPacket (plan job.now) p }
        ensures least { IsLeast (λ scope. Orders (plan job.now) a b p (change.Scope fence scope)) result.0 }
        ensures trial { IsTrial (plan job.now) result.1 }
    {
        let (by_agent, trial) = self.orders(job, a, b, p, fence, Scope::Agent);
        if by_agent {
            return (Some(Scope::Agent), trial);
        }
        let (by_system, trial) = trial.orders(job, a, b, p, fence, Scope::System);
        if by_system {
            (Some(Scope::System), trial)
        } else {
            (None, trial)
        }
    }
}
