//! `hsaq check` without threads, for callers that may start none.

ghost use Rattle.std.specs.Prelude.{◌≡◌};
ghost use Rattle.hq_job.specs.Plan.{plan};
ghost use Rattle.hq_model.specs.Certificate as model;
ghost use Rattle.hq_certcheck.specs.Seen.{IsSeen};
ghost use Rattle.hq_judging.specs.Check.{CheckedReport, CertReport};
ghost use Rattle.hq_status.specs.Reports.{JobTextReport, ReaderReport, Reported};

use crate::check::say_checked;
use crate::checking::{ReadCertificate, take_certificate};
use hq_certcheck::check_seen;
use hq_job::Job;
use hq_order::Alone;
use hq_status::{Status, take_job};
use std::alloc::Global;
use std::io::{Read, Write};

/// Checks a certificate that was read for a job, and writes the answer.
fn check_found<W: Write>(alloc: Global, writer: &mut W, known: ReadCertificate) -> Status
    requires { (c : model.Certificate) × (c.order ≡ known.certificate.order) × IsSeen (plan known.job) c known.seen }
    ensures { (c : model.Certificate) → c.order ≡ known.certificate.order → IsSeen (plan known.job) c known.seen
        → Reported (CheckedReport known.job c) (W.contents writer.old) (W.contents writer.new) result }
{
    let ReadCertificate {
        job,
        certificate,
        seen,
    } = known;
    let checked = check_seen(alloc, job, certificate.order(), &seen);
    say_checked(writer, checked)
}

/// Reads a certificate, and writes whether it holds for a job.
fn check_read<S: Read, W: Write>(
    alloc: Global,
    certificate: &mut S,
    writer: &mut W,
    job: Job,
) -> Status
    ensures { Reported (ReaderReport S S.remaining certificate.old certificate.new (CertReport job))
        (W.contents writer.old) (W.contents writer.new) result }
{
    match take_certificate(&Alone, alloc, certificate, writer, job) {
        Ok(known) => check_found(alloc, writer, known),
        Err(status) => status,
    }
}

/// Reads a job and then a certificate, and writes whether the certificate holds for the job, as `check_engine`
/// does, but checks it on the caller's thread, by `check_seen`.
pub fn check_alone_engine<R: Read, S: Read, W: Write>(
    alloc: Global,
    reader: &mut R,
    certificate: &mut S,
    writer: &mut W,
) -> Status
    ensures { Reported
        (ReaderReport R R.remaining reader.old reader.new
        (JobTextReport (λ job. ReaderReport S S.remaining certificate.old certificate.new (CertReport job))))
        (W.contents writer.old) (W.contents writer.new) result }
{
    match take_job(alloc, reader, writer) {
        Ok(job) => check_read(alloc, certificate, writer, job),
        Err(status) => status,
    }
}
