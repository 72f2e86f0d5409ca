//! The commands that run a job, and write timelines beside the answer.

ghost use Rattle.hq_cli.specs.Answered.{RunAnswer, WitnessAnswer};
ghost use Rattle.hq_front.specs.Files.{FileReport};
ghost use Rattle.hq_status.specs.Reports.{JobTextReport, Reported};

use crate::progress::Progress;
use hq_engines::witness_engine;
use hq_front::{created, job_of};
use hq_job::Job;
use hq_kernels::{Kit, stock_kits};
use hq_run_engine::run_engine;
use hq_status::{Status, say_memory};
use std::io::Write;
use std::sync::Wait;
use std::thread::Threads;

/// Drops kits.
fn let_kits_go(_kits: Vec<Kit>) {}

/// Runs a job with stock bodies. The timeline's file is made before the job is audited.
fn run_found<W: Write>(
    rt: &HostRuntime,
    threads: &(impl Threads + Wait + Sync),
    job: Job,
    timeline: Option<&str>,
    writer: &mut W,
) -> Status
    ensures { Reported (RunAnswer job) (W.contents writer.old) (W.contents writer.new) result }
{
    let Ok(kits) = stock_kits(rt.alloc(), &job) else {
        job.let_go();
        return say_memory(writer);
    };
    let mut out = match created(rt, timeline, writer) {
        Ok(out) => out,
        Err(status) => {
            job.let_go();
            let_kits_go(kits);
            return status;
        }
    };
    let progress = Progress::new(rt, job.packets().len());
    let status = run_engine(threads, rt.alloc(), job, kits, &progress, &mut out, writer);
    progress.clear();
    status
}

/// Runs the job of a file. It is read before the timeline's file is made.
pub fn run<W: Write>(
    rt: &HostRuntime,
    threads: &(impl Threads + Wait + Sync),
    job: &str,
    timeline: Option<&str>,
    writer: &mut W,
) -> Status
    ensures { Reported (FileReport (JobTextReport RunAnswer)) (W.contents writer.old) (W.contents writer.new) result }
{
    match job_of(rt, job, writer) {
        Ok(job) => run_found(rt, threads, job, timeline, writer),
        Err(status) => status,
    }
}

/// Shows two runs of a job, whose timelines' files are made before they are looked for.
fn witness_found<W: Write>(
    rt: &HostRuntime,
    job: &Job,
    good: Option<&str>,
    bad: Option<&str>,
    writer: &mut W,
) -> Status
    ensures { Reported (WitnessAnswer job.now) (W.contents writer.old) (W.contents writer.new) result }
{
    let mut right = match created(rt, good, writer) {
        Ok(out) => out,
        Err(status) => return status,
    };
    let mut wrong = match created(rt, bad, writer) {
        Ok(out) => out,
        Err(status) => return status,
    };
    witness_engine(rt.alloc(), job, &mut right, &mut wrong, writer)
}

/// Shows two runs of the job of a file. It is read before the timelines' files are made.
pub fn witness<W: Write>(
    rt: &HostRuntime,
    job: &str,
    good: Option<&str>,
    bad: Option<&str>,
    writer: &mut W,
) -> Status
    ensures { Reported (FileReport (JobTextReport WitnessAnswer)) (W.contents writer.old)
        (W.contents writer.new) result }
{
    match job_of(rt, job, writer) {
        Ok(job) => {
            let status = witness_found(rt, &job, good, bad, writer);
            job.let_go();
            status
        }
        Err(status) => status,
    }
}
