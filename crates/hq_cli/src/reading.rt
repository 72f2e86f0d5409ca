//! The commands that read a job, and perhaps a timeline beside it, and write an answer.

ghost use Rattle.hq_engines.specs.Change.{ChangeReport};
ghost use Rattle.hq_engines.specs.Chart.{ChartReport};
ghost use Rattle.hq_engines.specs.Graph.{GraphReport};
ghost use Rattle.hq_engines.specs.Replay.{RunReport, TimelineReport};
ghost use Rattle.hq_front.specs.Files.{FileReport};
ghost use Rattle.hq_status.specs.Reports.{JobTextReport, Reported};

use crate::changing::{say_changes, say_unmended};
use crate::progress::Settling;
use hq_engines::{Aim, change_engine, chart_engine, graph_engine, replay_engine};
use hq_front::{Input, opened, opened_both};
use hq_status::Status;
use std::io::{BufReader, Write};

/// Replays the timeline of a file on the job of another.
pub fn replay<W: Write>(rt: &HostRuntime, job: &str, timeline: &str, writer: &mut W) -> Status
    ensures { Reported (FileReport (JobTextReport (λ value. FileReport (TimelineReport (RunReport value)))))
        (W.contents writer.old) (W.contents writer.new) result }
{
    match opened_both(rt, job, timeline, writer) {
        Ok((mut input, mut file)) => replay_engine(rt.alloc(), &mut input, &mut file, writer),
        Err(status) => status,
    }
}

/// Draws the timeline of a file on the job of another.
pub fn chart<W: Write>(
    rt: &HostRuntime,
    job: &str,
    timeline: &str,
    copies: bool,
    writer: &mut W,
) -> Status
    ensures { Reported (FileReport (JobTextReport (λ value. FileReport (TimelineReport (ChartReport value copies)))))
        (W.contents writer.old) (W.contents writer.new) result }
{
    match opened_both(rt, job, timeline, writer) {
        Ok((mut input, mut file)) => {
            chart_engine(rt.alloc(), &mut input, &mut file, copies, writer)
        }
        Err(status) => status,
    }
}

/// Draws the order of a file's job.
pub fn graph<W: Write>(rt: &HostRuntime, job: &str, writer: &mut W) -> Status
    ensures { Reported (FileReport (JobTextReport GraphReport)) (W.contents writer.old) (W.contents writer.new) result }
{
    match opened(rt, job, writer) {
        Ok(mut input) => graph_engine(rt.alloc(), &mut input, writer),
        Err(status) => status,
    }
}

/// Prints the job of a reader with other heads, and says which.
fn change_opened<W: Write>(
    rt: &HostRuntime,
    input: &mut BufReader<Input>,
    aim: Aim,
    writer: &mut W,
) -> Status
    ensures { Reported (FileReport (λ text. JobTextReport (ChangeReport aim text) text)) (W.contents writer.old)
        (W.contents writer.new) result }
{
    let settling = Settling::new(rt);
    let (status, changed) = change_engine(rt.alloc(), input, writer, aim, &settling);
    settling.clear();
    say_unmended(rt, &status, aim);
    if let Some(changed) = changed {
        say_changes(rt, changed, aim);
    }
    status
}

/// Prints a job with other heads, and says which.
pub fn change<W: Write>(rt: &HostRuntime, job: &str, aim: Aim, writer: &mut W) -> Status
    ensures { Reported (FileReport (λ text. JobTextReport (ChangeReport aim text) text)) (W.contents writer.old)
        (W.contents writer.new) result }
{
    match opened(rt, job, writer) {
        Ok(mut input) => change_opened(rt, &mut input, aim, writer),
        Err(status) => status,
    }
}
