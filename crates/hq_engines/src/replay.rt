//! `hsaq replay`: a job's buffers after the events of a timeline.

ghost use Rattle.std.specs.Prelude.{◌≡◌, Some, IfOk, IfErr, OnOk};
ghost use Rattle.hq_text.specs.Lines.{lines_of};
ghost use Rattle.hq_timeline.specs.Grammar.{TimeText};
ghost use Rattle.hq_engines.specs.Replay.{NoTimeline, SaysNoTimeline, StopSaid, RunReport, TimelineReport};
ghost use Rattle.hq_engines.specs.Replay.{event_refusal, time_refusal, told_of};
ghost use Rattle.hq_status.specs.Reports.{JobTextReport, OfReader, ReaderReport, Reported};

use crate::buffers::say_buffers;
use hq_events::Journal;
use hq_job::Job;
use hq_status::{Status, TimelineFault, TimelineReason, say, say_file, say_memory, take_job};
use hq_timeline::{ReadFault, ReplayFault, TimeFault, TimeReason, read, replay};
use std::alloc::Global;
use std::fmt;
use std::io::{Read, Write};

/// A timeline's refusal: `refused line`, the line, and E1 to E3.
#[derive(Clone, Copy)]
struct TimeRefusal(TimelineFault);

impl fmt::Display for TimeRefusal {
    ghost output = { λ r. Some (time_refusal r.0) };

    fn fmt<W: fmt::Write>(&self, f: &mut fmt::Formatter<W>) -> fmt::Result {
        let line = self.0.line;
        match self.0.reason {
            TimelineReason::Word => write!(f, "refused line {line} E1"),
            TimelineReason::Number => write!(f, "refused line {line} E2"),
            TimelineReason::NoEnd => write!(f, "refused line {line} E3"),
        }
    }
}

/// That an event isn't enabled.
#[derive(Clone, Copy)]
struct EventRefusal(usize);

impl fmt::Display for EventRefusal {
    ghost output = { λ r. Some (event_refusal r.0) };

    fn fmt<W: fmt::Write>(&self, f: &mut fmt::Formatter<W>) -> fmt::Result {
        write!(f, "refused event {}", self.0)
    }
}

/// What a fault of a timeline tells of its text, if it isn't that memory ran out.
fn told_of(fault: TimeFault) -> Option<TimelineFault>
    ensures { result ≡ told_of fault }
{
    let reason = match fault.reason {
        TimeReason::Word => TimelineReason::Word,
        TimeReason::Number => TimelineReason::Number,
        TimeReason::NoEnd => TimelineReason::NoEnd,
        TimeReason::Memory => return None,
    };
    Some(TimelineFault {
        line: fault.line,
        reason,
    })
}

/// Writes why a text is no timeline.
fn say_no_timeline<W: Write>(writer: &mut W, fault: TimeFault) -> Status
    ensures { SaysNoTimeline fault (W.contents writer.old) (W.contents writer.new) result }
{
    match told_of(fault) {
        Some(told) => say(writer, TimeRefusal(told), Status::TimelineRefused(told)),
        None => say_memory(writer),
    }
}

/// The journal of a reader's text; or, where there is none, the status of the refusal, which is written.
pub fn take_journal<R: Read, W: Write>(
    alloc: Global,
    reader: &mut R,
    writer: &mut W,
) -> Result<Journal, Status>
    ensures found { IfOk result
        (λ journal. OfReader R R.remaining reader.old reader.new (λ text. TimeText (lines_of text) journal)) }
    ensures unwritten { OnOk result (writer.new ≡ writer.old) }
    ensures refused { IfErr result
        (Reported (ReaderReport R R.remaining reader.old reader.new NoTimeline) (W.contents writer.old)
        (W.contents writer.new)) }
{
    match read(alloc, reader) {
        Ok(journal) => Ok(journal),
        Err(ReadFault::Reader) => Err(say_file(writer)),
        Err(ReadFault::Text(fault)) => Err(say_no_timeline(writer, fault)),
    }
}

/// Writes why the events of a journal don't all happen.
fn say_stopped<W: Write>(writer: &mut W, fault: ReplayFault) -> Status
    ensures { StopSaid fault (W.contents writer.old) (W.contents writer.new) result }
{
    match fault {
        ReplayFault::NotEnabled(place) => say(
            writer,
            EventRefusal(place),
            Status::NotEnabled(place),
        ),
        ReplayFault::Memory => say_memory(writer),
    }
}

/// Replays a journal on a job, and writes the answer.
fn replay_found<W: Write>(alloc: Global, writer: &mut W, job: &Job, journal: &Journal) -> Status
    ensures { Reported (RunReport job.now journal.now) (W.contents writer.old) (W.contents writer.new) result }
{
    match replay(alloc, job, journal) {
        Ok(memory) => say_buffers(alloc, writer, job, &memory),
        Err(fault) => say_stopped(writer, fault),
    }
}

/// Reads a timeline, and writes the buffers of a job as it leaves them.
fn replay_read<S: Read, W: Write>(
    alloc: Global,
    timeline: &mut S,
    writer: &mut W,
    job: &Job,
) -> Status
    ensures { Reported (ReaderReport S S.remaining timeline.old timeline.new (TimelineReport (RunReport job.now)))
        (W.contents writer.old) (W.contents writer.new) result }
{
    match take_journal(alloc, timeline, writer) {
        Ok(journal) => replay_found(alloc, writer, job, &journal),
        Err(status) => status,
    }
}

/// Reads a job and then a timeline, and writes the job's buffers as the timeline's events leave them, one line
/// each, or the first event that isn't enabled. A fault of the job is written first. Nothing is written before the
/// last growth of memory.
pub fn replay_engine<R: Read, S: Read, W: Write>(
    alloc: Global,
    reader: &mut R,
    timeline: &mut S,
    writer: &mut W,
) -> Status
    ensures { Reported
        (ReaderReport R R.remaining reader.old reader.new
        (JobTextReport (λ job. ReaderReport S S.remaining timeline.old timeline.new (TimelineReport (RunReport job)))))
        (W.contents writer.old) (W.contents writer.new) result }
{
    match take_job(alloc, reader, writer) {
        Ok(job) => {
            let status = replay_read(alloc, timeline, writer, &job);
            job.let_go();
            status
        }
        Err(status) => status,
    }
}
