//! `hsaq run`: a job's buffers after a run of its queues, each by a thread of its own.

ghost use Rattle.std.specs.Prelude.{◌≡◌, ◌⊎◌, [], Some, MatchOption, length, codes};
ghost use Rattle.hq_job.specs.Plan.{plan};
ghost use Rattle.hq_kernels.specs.Kits.{KitsFit, bodies_of};
ghost use Rattle.hq_timeline.specs.Printed.{text_of};
ghost use Rattle.hq_engines.specs.Buffers.{buffers_text};
ghost use Rattle.hq_engines.specs.Recording.{BothSaid, Recorded, contents_in};
ghost use Rattle.hq_status.specs.Reports.{Said, with_feed};
ghost use Rattle.hq_run_engine.specs.Run.{RunReport, failure_of, failure_text};

use crate::accepting::accept;
use hq_certcheck::Accepted;
use hq_engines::{buffers_text_of, write_timeline};
use hq_events::Journal;
use hq_job::Job;
use hq_judging::laws::stuck_exactly;
use hq_judging::say_no_certificate;
use hq_kernels::Kit;
use hq_runner::{Gate, RunFault, run};
use hq_status::{RunFailure, Status, say, say_file, say_memory, say_text};
use hq_timeline::PrintFault;
use std::alloc::Global;
use std::fmt;
use std::io::Write;
use std::sync::Wait;
use std::thread::Threads;

/// Why a run was stopped: the name of that, and of a body that failed the packet.
#[derive(Clone, Copy)]
struct FailureLine(RunFailure);

impl fmt::Display for FailureLine {
    ghost output = { λ line. Some (failure_text line.0) };

    fn fmt<W: fmt::Write>(&self, f: &mut fmt::Formatter<W>) -> fmt::Result {
        match self.0 {
            RunFailure::Kernel(packet) => write!(f, "run fault Kernel {packet}"),
            RunFailure::Split => write!(f, "run fault Split"),
            RunFailure::Receipts(_) => write!(f, "run fault Receipts"),
            RunFailure::Unfinished => write!(f, "run fault Unfinished"),
        }
    }
}

/// The failure that a run's fault is, if it isn't that memory ran out.
fn failure_of(fault: &RunFault) -> Option<RunFailure>
    ensures { result ≡ failure_of fault.now }
{
    match fault {
        RunFault::Memory => None,
        RunFault::Kernel { packet, .. } => Some(RunFailure::Kernel(*packet)),
        RunFault::Split => Some(RunFailure::Split),
        RunFault::Receipts(queue) => Some(RunFailure::Receipts(*queue)),
        RunFault::Unfinished => Some(RunFailure::Unfinished),
    }
}

/// Writes the fault that a run met.
fn say_fault<W: Write>(writer: &mut W, fault: &RunFault) -> Status
    ensures { MatchOption (failure_of fault.now)
        (Said (W.contents writer.old) (W.contents writer.new) (with_feed (codes "out of memory")) Status.Memory result)
        (λ failure. Said (W.contents writer.old) (W.contents writer.new)
        (with_feed (failure_text failure)) (Status.RunFailed failure) result) }
{
    match failure_of(fault) {
        Some(failure) => say(writer, FailureLine(failure), Status::RunFailed(failure)),
        None => say_memory(writer),
    }
}

/// Writes a run's timeline, and then the buffers as it left them. Nothing is written before the last growth of memory.
fn say_ran<T: Write, W: Write>(
    alloc: Global,
    timeline: &mut Option<T>,
    writer: &mut W,
    job: &Job,
    journal: &Journal,
    memory: &[u8],
) -> Status
    requires { length memory.now ≡ length (plan job.now).memory }
    ensures { BothSaid (contents_in T.contents timeline.old) (contents_in T.contents timeline.new) (text_of journal.now)
        (W.contents writer.old) (W.contents writer.new) (buffers_text job.now.buffers memory.now) Status.Done result
        ⊎ BothSaid (contents_in T.contents timeline.old) (contents_in T.contents timeline.new) []
        (W.contents writer.old) (W.contents writer.new) (with_feed (codes "out of memory")) Status.Memory result }
{
    let Ok(text) = buffers_text_of(alloc, job, memory) else {
        return say_memory(writer);
    };
    match write_timeline(alloc, timeline, journal) {
        Ok(()) => say_text(writer, &text),
        Err(PrintFault::Memory) => say_memory(writer),
        Err(PrintFault::Writer) => say_file(writer),
    }
}

/// Runs an accepted job, and writes its timeline and its buffers, or the fault that the run met.
fn run_accepted<R: Threads + Wait + Sync, G: Gate, T: Write, W: Write>(
    rt: &R,
    alloc: Global,
    accepted: &Accepted,
    kits: Vec<Kit>,
    gate: &G,
    timeline: &mut Option<T>,
    writer: &mut W,
) -> Status
    requires { KitsFit accepted.now.job
        (bodies_of (λ b. kernel (b.vtable, b.value)) (λ b. service (b.vtable, b.value)) kits.items) }
    ensures { Recorded (RunReport accepted.now.job) (contents_in T.contents timeline.old)
        (contents_in T.contents timeline.new) (W.contents writer.old) (W.contents writer.new) result }
{
    match run(rt, alloc, accepted, kits, gate) {
        Ok(outcome) => say_ran(
            alloc,
            timeline,
            writer,
            accepted.job(),
            &outcome.journal,
            &outcome.memory,
        ),
        Err(fault) => say_fault(writer, &fault),
    }
}

/// Audits a job, checks the certificate, and runs the job with these kits, a thread for each queue. Writes the
/// run's timeline, where there is a writer for it, and then the job's buffers, one line each; or the packets that
/// can never complete, the conflict that nothing orders, or the fault that the run met. The gate is told of each
/// packet's fetch and completion.
pub fn run_engine<R: Threads + Wait + Sync, G: Gate, T: Write, W: Write>(
    rt: &R,
    alloc: Global,
    job: Job,
    kits: Vec<Kit>,
    gate: &G,
    timeline: &mut Option<T>,
    writer: &mut W,
) -> Status
    requires { KitsFit job (bodies_of (λ b. kernel (b.vtable, b.value)) (λ b. service (b.vtable, b.value)) kits.items) }
    ensures { Recorded (RunReport job) (contents_in T.contents timeline.old) (contents_in T.contents timeline.new)
        (W.contents writer.old) (W.contents writer.new) result }
{
    job.valid();
    stuck_exactly();
    match accept(rt, alloc, job) {
        Ok(accepted) => run_accepted(rt, alloc, &accepted, kits, gate, timeline, writer),
        Err(no) => say_no_certificate(writer, no),
    }
}
