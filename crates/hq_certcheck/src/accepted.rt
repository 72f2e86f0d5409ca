//! Jobs that were shown to be ordered.

ghost use Rattle.std.specs.Prelude.{◌≡◌};
ghost use Rattle.hq_job.specs.Plan.{plan};
ghost use Rattle.hq_model.specs.Fence.{Ordered};
ghost use Rattle.hq_model.specs.Machine.{bound};
ghost use Rattle.hq_model.specs.Order.{OrderList, Extends};
ghost use Rattle.hq_model.specs.Theorems.{Valid, Headline};

use crate::steps::steps;
use hq_job::Job;
use hq_model::order::order_lists_extend;
use hq_model::runs::headline_law;
use std::marker::Model;

/// A job that a certificate showed to be ordered, and the order that it gave. Contracts see it as these two.
#[derive(Drop)]
pub struct Accepted {
    job: Job,
    order: Vec<u16>,
}

impl Model for Accepted {
    ghost use Rattle.hq_certcheck.specs.View.{AcceptedJob, accepted_of, IsAccepted};

    ghost Value = { AcceptedJob };

    ghost view = { accepted_of };

    ghost invariant = { IsAccepted };
}

impl Accepted {
    /// The job, with an order of it.
    pub(crate) fn of(job: Job, order: Vec<u16>) -> Accepted
        requires ordered { Ordered (plan job) }
        requires list { OrderList (plan job) order.items }
        ensures job { result.job ≡ job }
        ensures order { result.order ≡ order.items }
    {
        Accepted { job, order }
    }

    /// The job is ordered, its plan is one that all laws of the model speak of, the order is one that keeps the
    /// job's, and every run of the job agrees with each such order.
    pub fn ordered(&self)
        ensures valid { Valid (plan self.now.job) }
        ensures ordered { Ordered (plan self.now.job) }
        ensures list { OrderList (plan self.now.job) self.now.order }
        ensures extends { Extends (plan self.now.job) self.now.order }
        ensures headline { Headline (plan self.now.job) }
    {
        self.job.valid();
        order_lists_extend();
        headline_law();
    }

    /// The job.
    pub fn job(&self) -> &Job
        ensures { result.now ≡ self.now.job }
    {
        &self.job
    }

    /// The packets in an order that keeps the job's.
    pub fn order(&self) -> &[u16]
        ensures { result.now ≡ self.now.order }
    {
        &self.order
    }

    /// How many work steps every run of the job takes at most.
    pub fn bound(&self) -> u64
        ensures { result ≡ bound (plan self.now.job) }
    {
        steps(&self.job)
    }

    /// Whether queues are rings.
    pub fn rings(&self) -> bool
        ensures { result ≡ (plan self.now.job).rings }
    {
        self.job.rings()
    }
}
