//! `hsaq check`: whether a certificate holds for a job.

ghost use Rattle.std.specs.Prelude.{◌≡◌, Some, length};
ghost use Rattle.hq_job.specs.Plan.{plan};
ghost use Rattle.hq_model.specs.Certificate as model;
ghost use Rattle.hq_model.specs.Machine.{bound};
ghost use Rattle.hq_certcheck.specs.Seen.{IsSeen};
ghost use Rattle.hq_judging.specs.Check.{SaysNoCertificate, Checked, CheckedReport, CertReport};
ghost use Rattle.hq_judging.specs.Check.{NoSaid, accepted_text, cert_refusal, bad_line_text, pair_missing_text};
ghost use Rattle.hq_judging.specs.Check.{bad_pair_text};
ghost use Rattle.hq_status.specs.Reports.{JobTextReport, ReaderReport, Reported, Said, with_feed};

use crate::checking::{ReadCertificate, take_certificate};
use hq_certcheck::{Accepted, CheckNo, check_seen_wide};
use hq_certread::{CertFault, CertReason};
use hq_job::Job;
use hq_order::Together;
use hq_status::{CheckFault, Status, say, say_memory, take_job};
use std::alloc::Global;
use std::fmt;
use std::io::{Read, Write};
use std::thread::Threads;

/// A certificate's refusal: `refused line`, the line, and K1 to K5.
#[derive(Clone, Copy)]
struct CertRefusal(CertFault);

impl fmt::Display for CertRefusal {
    ghost output = { λ r. Some (cert_refusal r.0) };

    fn fmt<W: fmt::Write>(&self, f: &mut fmt::Formatter<W>) -> fmt::Result {
        let line = self.0.line;
        match self.0.reason {
            CertReason::Word => write!(f, "refused line {line} K1"),
            CertReason::Number => write!(f, "refused line {line} K2"),
            CertReason::Citation => write!(f, "refused line {line} K3"),
            CertReason::NoEnd => write!(f, "refused line {line} K4"),
            CertReason::Memory => write!(f, "refused line {line} K5"),
        }
    }
}

/// That a job is accepted: how many packets it has, and how many work steps its runs take at most.
#[derive(Clone, Copy)]
struct AcceptedLine {
    packets: usize,
    bound: u64,
}

impl fmt::Display for AcceptedLine {
    ghost output = { λ a. Some (accepted_text a.packets a.bound) };

    fn fmt<W: fmt::Write>(&self, f: &mut fmt::Formatter<W>) -> fmt::Result {
        write!(f, "accepted packets {} bound {}", self.packets, self.bound)
    }
}

/// That a line doesn't hold.
#[derive(Clone, Copy)]
struct BadLine(usize);

impl fmt::Display for BadLine {
    ghost output = { λ b. Some (bad_line_text b.0) };

    fn fmt<W: fmt::Write>(&self, f: &mut fmt::Formatter<W>) -> fmt::Result {
        write!(f, "refused V2 {}", self.0)
    }
}

/// That two packets conflict and have no pair lines.
#[derive(Clone, Copy)]
struct PairMissing(u16, u16);

impl fmt::Display for PairMissing {
    ghost output = { λ m. Some (pair_missing_text m.0 m.1) };

    fn fmt<W: fmt::Write>(&self, f: &mut fmt::Formatter<W>) -> fmt::Result {
        write!(f, "refused V3 {} {}", self.0, self.1)
    }
}

/// That a pair line doesn't hold.
#[derive(Clone, Copy)]
struct BadPair(u32, u32);

impl fmt::Display for BadPair {
    ghost output = { λ b. Some (bad_pair_text b.0 b.1) };

    fn fmt<W: fmt::Write>(&self, f: &mut fmt::Formatter<W>) -> fmt::Result {
        write!(f, "refused V4 {} {}", self.0, self.1)
    }
}

/// Writes why a text is no certificate's.
pub fn say_faulty_text<W: Write>(writer: &mut W, fault: CertFault) -> Status
    ensures { SaysNoCertificate fault (W.contents writer.old) (W.contents writer.new) result }
{
    match fault.reason {
        CertReason::Memory => say_memory(writer),
        _ => say(
            writer,
            CertRefusal(fault),
            Status::CertificateRefused(fault),
        ),
    }
}

/// Writes that a job is accepted.
fn say_accepted<W: Write>(writer: &mut W, accepted: &Accepted) -> Status
    ensures { Said (W.contents writer.old) (W.contents writer.new)
        (with_feed (accepted_text (length accepted.now.job.packets)
        (bound (plan accepted.now.job)))) Status.Done result }
{
    let packets = accepted.job().packets().len();
    let bound = accepted.bound();
    say(writer, AcceptedLine { packets, bound }, Status::Done)
}

/// Writes why a certificate isn't accepted.
fn say_refused<W: Write>(writer: &mut W, no: &CheckNo) -> Status
    ensures { NoSaid no.now (W.contents writer.old) (W.contents writer.new) result }
{
    match no {
        CheckNo::BadOrder => say(
            writer,
            "refused V1",
            Status::CertificateFails(CheckFault::Order),
        ),
        CheckNo::BadLine(k) => say(
            writer,
            BadLine(*k),
            Status::CertificateFails(CheckFault::Line(*k)),
        ),
        CheckNo::PairMissing(p, r) => say(
            writer,
            PairMissing(*p, *r),
            Status::CertificateFails(CheckFault::PairMissing(*p, *r)),
        ),
        CheckNo::BadPair(p, r) => say(
            writer,
            BadPair(*p, *r),
            Status::CertificateFails(CheckFault::Pair(*p, *r)),
        ),
        CheckNo::Memory => say_memory(writer),
    }
}

/// Drops what was accepted.
fn let_accepted_go(_accepted: Accepted) {}

/// Writes what a check answered.
pub fn say_checked<W: Write>(writer: &mut W, checked: Result<Accepted, (CheckNo, Job)>) -> Status
    ensures { Checked checked (W.contents writer.old) (W.contents writer.new) result }
{
    match checked {
        Ok(accepted) => {
            let status = say_accepted(writer, &accepted);
            let_accepted_go(accepted);
            status
        }
        Err((no, job)) => {
            job.let_go();
            say_refused(writer, &no)
        }
    }
}

/// Checks a certificate that was read for a job, and writes the answer.
fn check_found<W: Write>(
    rt: &(impl Threads + Sync),
    alloc: Global,
    writer: &mut W,
    known: ReadCertificate,
) -> Status
    requires seen { (c : model.Certificate) × (c.order ≡ known.certificate.order)
        × IsSeen (plan known.job) c known.seen }
    ensures { (c : model.Certificate) → c.order ≡ known.certificate.order → IsSeen (plan known.job) c known.seen
        → Reported (CheckedReport known.job c) (W.contents writer.old) (W.contents writer.new) result }
{
    let ReadCertificate {
        job,
        certificate,
        seen,
    } = known;
    let checked = check_seen_wide(rt, alloc, job, certificate.order(), &seen);
    say_checked(writer, checked)
}

/// Reads a certificate, and writes whether it holds for a job.
fn check_read<S: Read, W: Write>(
    rt: &(impl Threads + Sync),
    alloc: Global,
    certificate: &mut S,
    writer: &mut W,
    job: Job,
) -> Status
    ensures { Reported (ReaderReport S S.remaining certificate.old certificate.new (CertReport job))
        (W.contents writer.old) (W.contents writer.new) result }
{
    match take_certificate(&Together { rt }, alloc, certificate, writer, job) {
        Ok(known) => check_found(rt, alloc, writer, known),
        Err(status) => status,
    }
}

/// Reads a job and then a certificate, and writes whether the certificate holds for the job, as `check_seen_wide`
/// answers it. A fault of the job is written first. Nothing is written before the last growth of memory. Lines and pair
/// lines are checked as they come, and not kept.
pub fn check_engine<R: Read, S: Read, W: Write>(
    rt: &(impl Threads + Sync),
    alloc: Global,
    reader: &mut R,
    certificate: &mut S,
    writer: &mut W,
) -> Status
    ensures { Reported
        (ReaderReport R R.remaining reader.old reader.new
        (JobTextReport (λ job. ReaderReport S S.remaining certificate.old certificate.new (CertReport job))))
        (W.contents writer.old) (W.contents writer.new) result }
{
    match take_job(alloc, reader, writer) {
        Ok(job) => check_read(rt, alloc, certificate, writer, job),
        Err(status) => status,
    }
}
