//! `hsaq audit`: from a job's bytes to a certificate's bytes.

ghost use Rattle.std.specs.Prelude.{◌⊎◌, IfErr, IfOk, codes};
ghost use Rattle.hq_audit.specs.Audited.{IsAudited};
ghost use Rattle.hq_audit.specs.Refused.{IsRefused};
ghost use Rattle.hq_certtext.specs.Printed.{text_of};
ghost use Rattle.hq_job.specs.Plan.{plan};
ghost use Rattle.hq_judging.specs.Audit.{JobReport, NoSaid, conflict_text};
ghost use Rattle.hq_status.specs.Reports.{JobTextReport, ReaderReport, Reported, Said, with_feed};

use crate::bodies::PrintsBodies;
use crate::giving::say_audited;
use crate::laws::stuck_exactly;
use crate::stuck::say_stuck;
use hq_audit::{AuditNo, Audited, find, find_wide};
use hq_cert::Certificate;
use hq_certtext::{PrintFault, print};
use hq_finding::{Kind, Why};
use hq_job::Job;
use hq_order::{Alone, Together};
use hq_status::{Status, say, say_memory, take_job};
use std::alloc::Global;
use std::fmt;
use std::io::{Read, Write};
use std::thread::Threads;

/// A conflict that isn't ordered: `conflict`, the packets, the kind and the reason.
#[derive(Clone, Copy)]
struct ConflictLine {
    p: u16,
    r: u16,
    kind: Kind,
    why: Why,
}

impl fmt::Display for ConflictLine {
    ghost use Rattle.std.specs.Prelude.{Some};

    ghost output = { λ c. Some (conflict_text c.p c.r c.kind c.why) };

    fn fmt<W: fmt::Write>(&self, f: &mut fmt::Formatter<W>) -> fmt::Result {
        write!(
            f,
            "conflict {} {} {} {}",
            self.p, self.r, self.kind, self.why
        )
    }
}

/// Writes a certificate.
pub fn say_certificate<W: Write>(alloc: Global, writer: &mut W, certificate: &Certificate) -> Status
    ensures { Said (W.contents writer.old) (W.contents writer.new) (text_of certificate.now) Status.Done result
        ⊎ Said (W.contents writer.old) (W.contents writer.new)
        (with_feed (codes "out of memory")) Status.Memory result }
{
    match print(alloc, certificate, writer) {
        Ok(()) => Status::Done,
        Err(PrintFault::Memory) => say_memory(writer),
        Err(PrintFault::Writer) => Status::File,
    }
}

/// Writes why a job has no certificate.
pub fn say_no_certificate<W: Write>(writer: &mut W, no: AuditNo) -> Status
    ensures { NoSaid no (W.contents writer.old) (W.contents writer.new) result }
{
    match no {
        AuditNo::Stuck(packets) => say_stuck(writer, &packets),
        AuditNo::Conflict { p, r, kind, why } => say(
            writer,
            ConflictLine { p, r, kind, why },
            Status::Conflict { p, r, kind, why },
        ),
        AuditNo::Memory => say_memory(writer),
    }
}

/// Writes what an audit found of a job.
fn say_found<P: PrintsBodies, W: Write>(
    hands: &P,
    alloc: Global,
    writer: &mut W,
    job: &Job,
    found: Result<Audited, AuditNo>,
) -> Status
    requires audited { IfOk found (IsAudited (plan job.now)) }
    requires refused { IfErr found (λ no. IsRefused (plan job.now) no) }
    ensures { Reported (JobReport (plan job.now)) (W.contents writer.old) (W.contents writer.new) result }
{
    job.valid();
    stuck_exactly();
    match found {
        Ok(audited) => say_audited(hands, alloc, writer, job, audited),
        Err(no) => say_no_certificate(writer, no),
    }
}

/// Reads a job and writes its certificate, or the packets that can never complete, or the conflict that nothing
/// orders. Nothing is written before the last growth of memory that the answer needs.
pub fn audit_engine<R: Read, W: Write>(alloc: Global, reader: &mut R, writer: &mut W) -> Status
    ensures { Reported (ReaderReport R R.remaining reader.old reader.new (JobTextReport (λ job. JobReport (plan job))))
        (W.contents writer.old) (W.contents writer.new) result }
{
    match take_job(alloc, reader, writer) {
        Ok(job) => {
            let found = find(alloc, &job);
            let status = say_found(&Alone, alloc, writer, &job, found);
            job.let_go();
            status
        }
        Err(status) => status,
    }
}

/// What `audit_engine` writes, by many threads: pairs are judged by them where many packets may conflict, and lines and
/// pair lines are printed by them where there are many.
pub fn audit_wide_engine<T: Threads + Sync, R: Read, W: Write>(
    rt: &T,
    alloc: Global,
    reader: &mut R,
    writer: &mut W,
) -> Status
    ensures { Reported (ReaderReport R R.remaining reader.old reader.new (JobTextReport (λ job. JobReport (plan job))))
        (W.contents writer.old) (W.contents writer.new) result }
{
    match take_job(alloc, reader, writer) {
        Ok(job) => {
            let found = find_wide(rt, alloc, &job);
            let status = say_found(&Together { rt }, alloc, writer, &job, found);
            job.let_go();
            status
        }
        Err(status) => status,
    }
}
