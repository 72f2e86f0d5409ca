//! Whole pictures.

ghost use Rattle.std.specs.Prelude.{◌≡◌, OnOk, IfErr};
ghost use Rattle.std.specs.Io.KnownBytes.{Appends};
ghost use Rattle.hq_chart.specs.Chart.{chart_text, drawn_text};
ghost use Rattle.hq_chart.specs.Rows.{rows_of};
ghost use Rattle.hq_chart.specs.declared.fault.ChartFault.TheVariants.{Memory};

use crate::fault::ChartFault;
use crate::rows::{Row, rows_of};
use crate::writing::{
    write_agents, write_closing, write_end, write_events, write_head, write_open, write_rows,
};
use hq_events::Event;
use hq_job::Job;
use std::alloc::Global;
use std::io;
use std::io::Write;

/// Writes a picture over rows on which nothing happened yet.
fn write_all<W: Write>(
    writer: &mut W,
    job: &Job,
    copies: bool,
    rows: &mut [Row],
    events: &[Event],
    is_refused: bool,
) -> io::Result<()>
    ensures { OnOk result
        (Appends (W.contents writer.old) (W.contents writer.new)
        (drawn_text job.now copies rows.old events.now is_refused)) }
{
    write_head(writer, job, copies, events)?;
    write_rows(writer, job)?;
    write_agents(writer, job, copies)?;
    write_events(writer, job, copies, rows, events)?;
    write_open(writer, job, rows, events)?;
    write_end(writer, job, copies, events, is_refused)?;
    write_closing(writer)
}

/// Writes the picture of events on a job, those of copies only where these are asked for, and where another that
/// isn't enabled comes behind them says so. Nothing is written before the last growth of memory.
///
/// # Errors
///
/// There is no memory, and then nothing was written; or the writer failed.
pub fn chart<W: Write>(
    alloc: Global,
    writer: &mut W,
    job: &Job,
    copies: bool,
    events: &[Event],
    is_refused: bool,
) -> Result<(), ChartFault>
    ensures drawn { OnOk result
        (Appends (W.contents writer.old) (W.contents writer.new) (chart_text job.now copies events.now is_refused)) }
    ensures unwritten { IfErr result (λ e. e ≡ Memory → writer.new ≡ writer.old) }
{
    let mut rows = rows_of(alloc, job.packets())?;
    write_all(writer, job, copies, &mut rows, events, is_refused)?;
    Ok(())
}
