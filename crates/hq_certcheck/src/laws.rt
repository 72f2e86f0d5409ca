//! Laws of the model, for whoever has a certificate or a job that was accepted.

ghost use Rattle.hq_model.specs.Theorems.{CertificatesOrder, OrderLaw, StaleCopies, BoundLaw, EndLaw, StuckLaw};
ghost use Rattle.hq_model.specs.Theorems.{HeadlineLaw};

use hq_model::{certificate, machine, runs};

/// A job is ordered where a certificate holds.
pub fn certificates_order()
    ensures { CertificatesOrder }
{
    certificate::certificates_order();
}

/// In every state of every run, what comes before a packet that has begun is complete.
pub fn order_law()
    ensures { OrderLaw }
{
    machine::order_law();
}

/// Version numbers can be given to all copies, all along every run of an ordered job.
pub fn stale_copies()
    ensures { StaleCopies }
{
    runs::stale_copies();
}

/// The work steps of a run are at most the job's bound.
pub fn bound_law()
    ensures { BoundLaw }
{
    machine::bound_law();
}

/// A run of an ordered job that has no work left has done everything, and memory is as each order leaves it.
pub fn end_law()
    ensures { EndLaw }
{
    runs::end_law();
}

/// In no run does a packet of a stuck set complete.
pub fn stuck_law()
    ensures { StuckLaw }
{
    machine::stuck_law();
}

/// Every run of an ordered job reads what each order gives, within the bound, and ends as it does.
pub fn headline_law()
    ensures { HeadlineLaw }
{
    runs::headline_law();
}
