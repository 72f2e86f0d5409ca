//! `hsaq chart`: a picture of a timeline.

ghost use Rattle.std.specs.Prelude.{◌⊎◌, codes};
ghost use Rattle.hq_chart.specs.Chart.{chart_text};
ghost use Rattle.hq_job.specs.Plan.{plan};
ghost use Rattle.hq_timeline.specs.Replays.{NotReplayed};
ghost use Rattle.hq_engines.specs.Chart.{ChartReport};
ghost use Rattle.hq_engines.specs.Replay.{TimelineReport};
ghost use Rattle.hq_status.specs.Reports.{JobTextReport, ReaderReport, Reported, Said, with_feed};

use crate::replay::take_journal;
use hq_chart::{ChartFault, chart};
use hq_events::{Event, Journal};
use hq_job::Job;
use hq_status::{Status, say_memory, take_job};
use hq_timeline::{ReplayFault, replay};
use std::alloc::Global;
use std::io::{Read, Write};

/// Writes the picture of events that happen, and answers the status.
fn say_chart<W: Write>(
    alloc: Global,
    writer: &mut W,
    job: &Job,
    copies: bool,
    events: &[Event],
    is_refused: bool,
    status: Status,
) -> Status
    ensures { Said (W.contents writer.old) (W.contents writer.new)
        (chart_text job.now copies events.now is_refused) status result
        ⊎ Said (W.contents writer.old) (W.contents writer.new)
        (with_feed (codes "out of memory")) Status.Memory result }
{
    match chart(alloc, writer, job, copies, events, is_refused) {
        Ok(()) => status,
        Err(ChartFault::Memory) => say_memory(writer),
        Err(ChartFault::Writer) => Status::File,
    }
}

/// Draws a journal on a job where its events don't all happen: up to the first that isn't enabled.
fn chart_stopped<W: Write>(
    alloc: Global,
    writer: &mut W,
    job: &Job,
    copies: bool,
    journal: &Journal,
    fault: ReplayFault,
) -> Status
    requires { NotReplayed (plan job.now) journal.now fault }
    ensures { Reported (ChartReport job.now copies journal.now) (W.contents writer.old) (W.contents writer.new) result }
{
    match fault {
        ReplayFault::NotEnabled(place) => {
            let (happened, _) = journal.events().split_at(place);
            say_chart(
                alloc,
                writer,
                job,
                copies,
                happened,
                true,
                Status::DrawnUntil(place),
            )
        }
        ReplayFault::Memory => say_memory(writer),
    }
}

/// Draws a journal on a job, up to the first event that isn't enabled.
fn chart_found<W: Write>(
    alloc: Global,
    writer: &mut W,
    job: &Job,
    copies: bool,
    journal: &Journal,
) -> Status
    ensures { Reported (ChartReport job.now copies journal.now) (W.contents writer.old) (W.contents writer.new) result }
{
    match replay(alloc, job, journal) {
        Ok(memory) => {
            drop(memory);
            say_chart(
                alloc,
                writer,
                job,
                copies,
                journal.events(),
                false,
                Status::Done,
            )
        }
        Err(fault) => chart_stopped(alloc, writer, job, copies, journal, fault),
    }
}

/// Reads a timeline, and draws it on a job.
fn chart_read<S: Read, W: Write>(
    alloc: Global,
    timeline: &mut S,
    writer: &mut W,
    job: &Job,
    copies: bool,
) -> Status
    ensures { Reported
        (ReaderReport S S.remaining timeline.old timeline.new (TimelineReport (ChartReport job.now copies)))
        (W.contents writer.old) (W.contents writer.new) result }
{
    match take_journal(alloc, timeline, writer) {
        Ok(journal) => chart_found(alloc, writer, job, copies, &journal),
        Err(status) => status,
    }
}

/// Reads a job and then a timeline, and writes a picture of the timeline's events in SVG, those of copies only
/// where they are asked for, up to the first that isn't enabled. A fault of the job is written first. Nothing is
/// written before the last growth of memory.
pub fn chart_engine<R: Read, S: Read, W: Write>(
    alloc: Global,
    reader: &mut R,
    timeline: &mut S,
    copies: bool,
    writer: &mut W,
) -> Status
    ensures { Reported
        (ReaderReport R R.remaining reader.old reader.new
        (JobTextReport
        (λ job. ReaderReport S S.remaining timeline.old timeline.new (TimelineReport (ChartReport job copies)))))
        (W.contents writer.old) (W.contents writer.new) result }
{
    match take_job(alloc, reader, writer) {
        Ok(job) => {
            let status = chart_read(alloc, timeline, writer, &job, copies);
            job.let_go();
            status
        }
        Err(status) => status,
    }
}
