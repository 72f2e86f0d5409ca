//! Each part of a graph, pair by pair: what can have no text is passed over.

ghost use Rattle.std.specs.Prelude.{OnOk};
ghost use Rattle.hq_model.specs.Job.{IsPacket};
ghost use Rattle.hq_model.specs.Order as order;
ghost use Rattle.hq_graph.specs.Graph.{PairsText, RowText, Wrote};
ghost use Rattle.hq_graph.specs.Known.{Sees};
ghost use Rattle.hq_graph.specs.declared.part.Part.TheVariants as part;

use crate::edges::{write_conflict, write_step, write_wait};
use crate::part::Part;
use crate::rows::next_step;
use crate::sight::Sight;
use crate::waiting::is_stuck;
use hq_job::Job;
use std::io;
use std::io::Write;

/// Writes the steps to r.
fn write_steps<W: Write>(writer: &mut W, job: &Job, sight: &Sight, r: usize) -> io::Result<()>
    requires sees { Sees sight.now }
    requires r { IsPacket sight.now.before.now r }
    ensures { OnOk result
        (Wrote (W.contents writer.old) (W.contents writer.new) (RowText job.now sight.now.before.now part.Steps r)) }
{
    let mut p = next_step(sight, r, 0);
    'steps: while p < sight.before.len() {
        write_step(writer, job, sight.before, r, p)?;
        p = next_step(sight, r, p + 1);
    }
    Ok(())
}

/// Writes the conflicts of a with the packets above it.
fn write_conflicts<W: Write>(writer: &mut W, job: &Job, sight: &Sight, a: usize) -> io::Result<()>
    requires sees { Sees sight.now }
    requires a { IsPacket sight.now.before.now a }
    ensures { OnOk result
        (Wrote (W.contents writer.old) (W.contents writer.new)
        (RowText job.now sight.now.before.now part.Conflicts a)) }
{
    let planned = sight.before.job();
    let others = sight.parts.others(planned, a);
    let mut b = others.next(planned, a + 1);
    'others: while b < sight.before.len() {
        write_conflict(writer, job, sight.before, a, b)?;
        b = others.next(planned, b + 1);
    }
    Ok(())
}

/// Writes what r, which can never complete, waits for.
fn write_all_waits<W: Write>(writer: &mut W, job: &Job, sight: &Sight, r: usize) -> io::Result<()>
    requires sees { Sees sight.now }
    requires stuck { order.Stuck sight.now.before.now r }
    requires r { IsPacket sight.now.before.now r }
    ensures { OnOk result
        (Wrote (W.contents writer.old) (W.contents writer.new) (RowText job.now sight.now.before.now part.Waits r)) }
{
    for p in 0..sight.before.len() {
        write_wait(writer, job, sight, r, p)?;
    }
    Ok(())
}

/// Writes what r waits for, if it can never complete.
fn write_waits_of<W: Write>(writer: &mut W, job: &Job, sight: &Sight, r: usize) -> io::Result<()>
    requires sees { Sees sight.now }
    requires r { IsPacket sight.now.before.now r }
    ensures { OnOk result
        (Wrote (W.contents writer.old) (W.contents writer.new) (RowText job.now sight.now.before.now part.Waits r)) }
{
    if is_stuck(sight, r) {
        write_all_waits(writer, job, sight, r)
    } else {
        Ok(())
    }
}

/// Writes what a part has for a packet and each packet.
fn write_row<W: Write>(
    writer: &mut W,
    job: &Job,
    sight: &Sight,
    part: Part,
    first: usize,
) -> io::Result<()>
    requires sees { Sees sight.now }
    requires first { IsPacket sight.now.before.now first }
    ensures { OnOk result
        (Wrote (W.contents writer.old) (W.contents writer.new) (RowText job.now sight.now.before.now part first)) }
{
    match part {
        Part::Steps => write_steps(writer, job, sight, first),
        Part::Conflicts => write_conflicts(writer, job, sight, first),
        Part::Waits => write_waits_of(writer, job, sight, first),
    }
}

/// Writes a part.
pub fn write_pairs<W: Write>(writer: &mut W, job: &Job, sight: &Sight, part: Part) -> io::Result<()>
    requires { Sees sight.now }
    ensures { OnOk result
        (Wrote (W.contents writer.old) (W.contents writer.new) (PairsText job.now sight.now.before.now part)) }
{
    for first in 0..sight.before.len() {
        write_row(writer, job, sight, part, first)?;
    }
    Ok(())
}

/// Writes what stuck packets wait for, where there are such.
pub fn write_waits<W: Write>(writer: &mut W, job: &Job, sight: &Sight) -> io::Result<()>
    requires { Sees sight.now }
    ensures { OnOk result
        (Wrote (W.contents writer.old) (W.contents writer.new) (PairsText job.now sight.now.before.now part.Waits)) }
{
    if sight.stuck.some {
        write_pairs(writer, job, sight, Part::Waits)
    } else {
        Ok(())
    }
}
