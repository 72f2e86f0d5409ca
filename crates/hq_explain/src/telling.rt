//! What is said of all pairs of packets that conflict, in number order.

ghost use Rattle.std.specs.Prelude.{◌≡◌, ◌↔◌, ◌+◌, ◌*◌, ◌<◌, ◌≤◌, IfErr, IfOk, IsTrue, OnOk, length};
ghost use Rattle.std.specs.Io.KnownBytes.{Appends};
ghost use Rattle.hq_job.specs.Plan.{plan};
ghost use Rattle.hq_model.specs.Job.{IsPacket};
ghost use Rattle.hq_graph.specs.Graph.{Wrote};
ghost use Rattle.hq_explain.specs.Told.{AllText, Broken, IsPair, PairTold, RowBroken, RowTold, Told, closing_text};
ghost use Rattle.hq_explain.specs.Told.{is_told};
ghost use Rattle.hq_explain.specs.declared.fault.ExplainFault.TheVariants.{Memory};

use crate::fault::ExplainFault;
use crate::pairs::write_pair;
use hq_fence::have_conflict;
use hq_job::Job;
use hq_model::PACKETS;
use hq_order::Before;
use std::alloc::Global;
use std::io;
use std::io::Write;

/// How many pairs are told of where not all are asked for.
const LIMIT: usize = 100;

/// Whether a and b conflict, and b is above a.
fn is_pair(before: &Before, a: usize, b: usize) -> bool
    requires a_is { IsPacket before.now a }
    requires b_is { IsPacket before.now b }
    ensures { IsTrue result ↔ IsPair before.now a b }
{
    a < b && have_conflict(before.job(), a, b)
}

/// Whether a pair is told of that comes behind so many.
fn is_told(all: bool, count: usize) -> bool
    ensures { result ≡ is_told all count }
{
    all || count < LIMIT
}

/// Tells of a pair, if it is to be told of.
fn tell_if<W: Write>(
    alloc: Global,
    writer: &mut W,
    job: &Job,
    before: &Before,
    all: bool,
    a: usize,
    b: usize,
    count: usize,
) -> Result<(), ExplainFault>
    requires same { before.now ≡ plan job.now }
    requires a_is { IsPacket before.now a }
    requires b_is { IsPacket before.now b }
    requires pair { IsPair before.now a b }
    ensures told { OnOk result
        (Wrote (W.contents writer.old) (W.contents writer.new)
        (PairTold job.now before.now all a b count (count + 1))) }
    ensures unwritten { IfErr result (λ e. e ≡ Memory → writer.new ≡ writer.old) }
{
    if !is_told(all, count) {
        return Ok(());
    }
    let _ordered = write_pair(alloc, writer, job, before, a, b)?;
    Ok(())
}

/// Tells of a and b, if they conflict, and b is above a; answers how many pairs that makes with those before.
fn tell_pair<W: Write>(
    alloc: Global,
    writer: &mut W,
    job: &Job,
    before: &Before,
    all: bool,
    a: usize,
    b: usize,
    count: usize,
) -> Result<usize, ExplainFault>
    requires same { before.now ≡ plan job.now }
    requires a_is { IsPacket before.now a }
    requires b_is { IsPacket before.now b }
    requires few { count < 1048576 }
    ensures more { IfOk result (λ n. n ≤ count + 1) }
    ensures told { IfOk result
        (λ n. Wrote (W.contents writer.old) (W.contents writer.new) (PairTold job.now before.now all a b count n)) }
    ensures unwritten { IfErr result (λ e. e ≡ Memory → writer.new ≡ writer.old) }
{
    if !is_pair(before, a, b) {
        return Ok(count);
    }
    tell_if(alloc, writer, job, before, all, a, b, count)?;
    Ok(count + 1)
}

/// Tells of the pairs of a with the packets above it; answers how many pairs that makes with those before.
fn tell_row<W: Write>(
    alloc: Global,
    writer: &mut W,
    job: &Job,
    before: &Before,
    all: bool,
    a: usize,
    count: usize,
) -> Result<usize, ExplainFault>
    requires same { before.now ≡ plan job.now }
    requires a_is { IsPacket before.now a }
    requires few { count ≤ a * PACKETS }
    ensures more { IfOk result (λ n. n ≤ count + PACKETS) }
    ensures told { IfOk result
        (λ n. Wrote (W.contents writer.old) (W.contents writer.new)
        (RowTold job.now before.now all a count (length before.now.packets) n)) }
    ensures broken { IfErr result
        (λ e. e ≡ Memory
        → Wrote (W.contents writer.old) (W.contents writer.new) (RowBroken job.now before.now all a count)) }
{
    job.valid();
    before.job().valid();
    let mut now = count;
    for b in 0..before.len() {
        now = tell_pair(alloc, writer, job, before, all, a, b, now)?;
    }
    Ok(now)
}

/// Tells of all pairs; answers how many there are.
fn tell_rows<W: Write>(
    alloc: Global,
    writer: &mut W,
    job: &Job,
    before: &Before,
    all: bool,
) -> Result<usize, ExplainFault>
    requires { before.now ≡ plan job.now }
    ensures told { IfOk result
        (λ n. Wrote (W.contents writer.old) (W.contents writer.new)
        (Told job.now before.now all (length before.now.packets) 0 n)) }
    ensures broken { IfErr result
        (λ e. e ≡ Memory → Wrote (W.contents writer.old) (W.contents writer.new) (Broken job.now before.now)) }
{
    let mut count = 0;
    for a in 0..before.len() {
        count = tell_row(alloc, writer, job, before, all, a, count)?;
    }
    Ok(count)
}

/// Writes what closes the pairs: that there are none, or how many weren't told of.
fn write_closing<W: Write>(writer: &mut W, all: bool, count: usize) -> io::Result<()>
    ensures { OnOk result (Appends (W.contents writer.old) (W.contents writer.new) (closing_text all count)) }
{
    if count == 0 {
        return writer.write_all(b"no two packets conflict\n");
    }
    if all || count <= LIMIT {
        return Ok(());
    }
    let left = count - LIMIT;
    write!(
        writer,
        "and {left} more pairs that conflict, of which --all tells too\n"
    )
}

/// Tells of the pairs of packets that conflict, of all or of the first hundred.
pub fn tell_all<W: Write>(
    alloc: Global,
    writer: &mut W,
    job: &Job,
    before: &Before,
    all: bool,
) -> Result<(), ExplainFault>
    requires { before.now ≡ plan job.now }
    ensures told { OnOk result
        (Wrote (W.contents writer.old) (W.contents writer.new) (AllText job.now before.now all)) }
    ensures broken { IfErr result
        (λ e. e ≡ Memory → Wrote (W.contents writer.old) (W.contents writer.new) (Broken job.now before.now)) }
{
    let count = tell_rows(alloc, writer, job, before, all)?;
    write_closing(writer, all, count)?;
    Ok(())
}
