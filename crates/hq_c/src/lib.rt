//! `libhsaq`: `audit`, `check`, `replay`, `show`, `explain`, `fix` and `trim` as calls from C and C++, declared in
//! `library/hsaq.h`.
//!
//! Texts come as a pointer and a length, and a report goes into a room of the caller's, as far as it fits; its
//! whole length is told, so that the caller can ask again with more room. The answer is the program's exit status.
//! Nothing is kept between calls, no thread is started, nothing is printed, and calls from several threads at once
//! don't meet.
#![tactic(auto)]

ghost use Rattle.hq_c.specs.Calls.{Answers, OfBytes};
ghost use Rattle.hq_judging.specs.Audit.{JobReport};
ghost use Rattle.hq_engines.specs.Change.{ChangeReport};
ghost use Rattle.hq_judging.specs.Check.{CertReport};
ghost use Rattle.hq_engines.specs.Explain.{ExplainReport};
ghost use Rattle.hq_engines.specs.Replay.{RunReport, TimelineReport};
ghost use Rattle.hq_status.specs.Reports.{JobTextReport};
ghost use Rattle.hq_showing.specs.Show.{ShowReport};
ghost use Rattle.hq_job.specs.Plan.{plan};

mod handing;

use handing::hand_out;
use hq_change::Unwatched;
use hq_engines::{Aim, change_engine, explain_engine, replay_engine};
use hq_explain::Which;
use hq_judging::{audit_engine, check_alone_engine};
use hq_showing::show_engine;
use std::alloc::Global;

/// Audits a job: its certificate, or the packets that can never complete, or the conflict that nothing orders.
#[unsafe(no_mangle)]
pub extern "C" fn hsaq_audit(alloc: Global, job: &[u8], report: &mut [u8], whole: &mut usize) -> u32
    ensures { Answers
        (OfBytes (JobTextReport (λ value. JobReport (plan value))) job.now) report.old report.new whole.new result }
{
    let mut reader = job;
    let mut written = Vec::new(alloc);
    let status = audit_engine(alloc, &mut reader, &mut written);
    hand_out(&written, status, report, whole)
}

/// Checks a certificate against a job, on the caller's thread alone.
#[unsafe(no_mangle)]
pub extern "C" fn hsaq_check(
    alloc: Global,
    job: &[u8],
    certificate: &[u8],
    report: &mut [u8],
    whole: &mut usize,
) -> u32
    ensures { Answers
        (OfBytes (JobTextReport
        (λ value. OfBytes (CertReport value) certificate.now)) job.now) report.old report.new whole.new result }
{
    let mut reader = job;
    let mut other = certificate;
    let mut written = Vec::new(alloc);
    let status = check_alone_engine(alloc, &mut reader, &mut other, &mut written);
    hand_out(&written, status, report, whole)
}

/// Replays a timeline: the job's buffers as its events leave them, or the first event that isn't enabled.
#[unsafe(no_mangle)]
pub extern "C" fn hsaq_replay(
    alloc: Global,
    job: &[u8],
    timeline: &[u8],
    report: &mut [u8],
    whole: &mut usize,
) -> u32
    ensures { Answers
        (OfBytes (JobTextReport
        (λ value. OfBytes
        (TimelineReport (RunReport value)) timeline.now)) job.now) report.old report.new whole.new result }
{
    let mut reader = job;
    let mut other = timeline;
    let mut written = Vec::new(alloc);
    let status = replay_engine(alloc, &mut reader, &mut other, &mut written);
    hand_out(&written, status, report, whole)
}

/// Shows a job's packets, a line each.
#[unsafe(no_mangle)]
pub extern "C" fn hsaq_show(alloc: Global, job: &[u8], report: &mut [u8], whole: &mut usize) -> u32
    ensures { Answers (OfBytes (JobTextReport ShowReport) job.now) report.old report.new whole.new result }
{
    let mut reader = job;
    let mut written = Vec::new(alloc);
    let status = show_engine(alloc, &mut reader, &mut written);
    hand_out(&written, status, report, whole)
}

/// Explains why the conflicts of a job are ordered or aren't, the first hundred, and which single changes would
/// order those that aren't.
#[unsafe(no_mangle)]
pub extern "C" fn hsaq_explain(
    alloc: Global,
    job: &[u8],
    report: &mut [u8],
    whole: &mut usize,
) -> u32
    ensures { Answers
        (OfBytes (JobTextReport (ExplainReport Which.First)) job.now) report.old report.new whole.new result }
{
    let mut reader = job;
    let mut written = Vec::new(alloc);
    let status = explain_engine(alloc, &mut reader, Which::First, &mut written);
    hand_out(&written, status, report, whole)
}

/// A job's text with the bits and fences that it lacks, or why none mend it.
#[unsafe(no_mangle)]
pub extern "C" fn hsaq_fix(alloc: Global, job: &[u8], report: &mut [u8], whole: &mut usize) -> u32
    ensures { Answers
        (OfBytes (λ text. JobTextReport
        (ChangeReport Aim.Fix text) text) job.now) report.old report.new whole.new result }
{
    let mut reader = job;
    let mut written = Vec::new(alloc);
    let (status, _changed) = change_engine(alloc, &mut reader, &mut written, Aim::Fix, &Unwatched);
    hand_out(&written, status, report, whole)
}

/// A job's text without the bits and fences that it doesn't need, or why it isn't ordered.
#[unsafe(no_mangle)]
pub extern "C" fn hsaq_trim(alloc: Global, job: &[u8], report: &mut [u8], whole: &mut usize) -> u32
    ensures { Answers
        (OfBytes (λ text. JobTextReport
        (ChangeReport Aim.Trim text) text) job.now) report.old report.new whole.new result }
{
    let mut reader = job;
    let mut written = Vec::new(alloc);
    let (status, _changed) = change_engine(alloc, &mut reader, &mut written, Aim::Trim, &Unwatched);
    hand_out(&written, status, report, whole)
}
