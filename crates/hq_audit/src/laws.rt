//! Laws of audits.

ghost use Rattle.hq_audit.specs.Lawful.{OrderedIsNotRefused};
ghost use Rattle.hq_model.specs.Theorems.{CertificatesOrder};

use hq_model::certificate;

/// A job is ordered where a certificate holds.
pub fn certificates_order()
    ensures { CertificatesOrder }
{
    certificate::certificates_order();
}

/// An ordered job is refused for want of memory alone.
pub fn ordered_is_not_refused()
    ensures { OrderedIsNotRefused }
{}
