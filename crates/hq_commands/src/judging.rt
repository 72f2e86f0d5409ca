//! The commands that judge, on files.

ghost use Rattle.std.specs.Prelude.{◌≡◌, MatchOption};
ghost use Rattle.hq_commands.specs.Judged.{IsToJudge, JudgeReport};
ghost use Rattle.hq_front.specs.Files.{FileReport};
ghost use Rattle.hq_job.specs.Plan.{plan};
ghost use Rattle.hq_judging.specs.Audit.{JobReport};
ghost use Rattle.hq_judging.specs.Check.{CertReport};
ghost use Rattle.hq_showing.specs.Show.{ShowReport};
ghost use Rattle.hq_status.specs.Reports.{JobTextReport, Reported};

use hq_front::{opened, opened_both};
use hq_judging::{audit_wide_engine, check_engine};
use hq_showing::{pack_engine, show_engine};
use hq_status::Status;
use hq_words::Asked;
use std::io::Write;
use std::thread::Threads;

/// Shows the job of a file.
#[inline(never)]
fn show<W: Write>(rt: &HostRuntime, job: &str, writer: &mut W) -> Status
    ensures { Reported (FileReport (JobTextReport ShowReport)) (W.contents writer.old) (W.contents writer.new) result }
{
    match opened(rt, job, writer) {
        Ok(mut input) => show_engine(rt.alloc(), &mut input, writer),
        Err(status) => status,
    }
}

/// Audits the job of a file. This is a function of its own, as the others here are, so that no command needs room on
/// the stack for another one.
#[inline(never)]
fn audit<W: Write>(
    rt: &HostRuntime,
    threads: &(impl Threads + Sync),
    job: &str,
    writer: &mut W,
) -> Status
    ensures { Reported (FileReport (JobTextReport (λ value. JobReport (plan value)))) (W.contents writer.old)
        (W.contents writer.new) result }
{
    match opened(rt, job, writer) {
        Ok(mut input) => audit_wide_engine(threads, rt.alloc(), &mut input, writer),
        Err(status) => status,
    }
}

/// Checks the certificate of a file for the job of another.
#[inline(never)]
fn check<W: Write>(
    rt: &HostRuntime,
    threads: &(impl Threads + Sync),
    job: &str,
    certificate: &str,
    writer: &mut W,
) -> Status
    ensures { Reported (FileReport (JobTextReport (λ value. FileReport (CertReport value)))) (W.contents writer.old)
        (W.contents writer.new) result }
{
    match opened_both(rt, job, certificate, writer) {
        Ok((mut input, mut file)) => {
            check_engine(threads, rt.alloc(), &mut input, &mut file, writer)
        }
        Err(status) => status,
    }
}

/// Does what is asked for, where that is to judge; else nothing is written.
pub fn judged<W: Write>(
    rt: &HostRuntime,
    threads: &(impl Threads + Sync),
    asked: &Asked<'_>,
    writer: &mut W,
) -> Option<Status>
    ensures { MatchOption result ((¬ IsToJudge asked.now) × (writer.new ≡ writer.old))
        (Reported (JudgeReport asked.now) (W.contents writer.old) (W.contents writer.new)) }
{
    match asked {
        Asked::Show { job } => Some(show(rt, job, writer)),
        Asked::Pack { words } => Some(pack_engine(rt.alloc(), words, writer)),
        Asked::Audit { job } => Some(audit(rt, threads, job, writer)),
        Asked::Check { job, certificate } => Some(check(rt, threads, job, certificate, writer)),
        _ => None,
    }
}
