//! Certificates.

ghost use Rattle.hq_model.specs.Theorems.{CertificatesOrder};

/// A job is ordered where a certificate holds.
pub fn certificates_order()
    ensures { CertificatesOrder }
{}
