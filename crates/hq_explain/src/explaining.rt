//! Whole explanations.

ghost use Rattle.std.specs.Prelude.{◌≡◌, ◌≢◌, ◌↔◌, IfErr, IfOk, IsTrue, OnOk};
ghost use Rattle.std.specs.Io.KnownBytes.{Appends};
ghost use Rattle.hq_job.specs.Plan.{plan};
ghost use Rattle.hq_model.specs.Job.{IsPacket};
ghost use Rattle.hq_graph.specs.Graph.{Wrote};
ghost use Rattle.hq_graph.specs.Known.{TellsStuck};
ghost use Rattle.hq_graph.specs.Order.{IsFound};
ghost use Rattle.hq_explain.specs.Explained.{AreTwo, Explained, HasOrder, PairSaid, found_if};
ghost use Rattle.hq_explain.specs.Told.{AllText, Broken};
ghost use Rattle.hq_explain.specs.Texts.{apart_line, beyond_line};
ghost use Rattle.hq_explain.specs.declared.fault.ExplainFault.TheVariants.{Memory};

use crate::fault::ExplainFault;
use crate::packets::PairWords;
use crate::pairs::write_pair;
use crate::stuck::{stuck_in, write_stuck};
use crate::telling::tell_all;
use crate::which::Which;
use hq_fence::have_conflict;
use hq_finding::Found;
use hq_graph::{Stuck, found_of};
use hq_job::Job;
use hq_order::Before;
use hq_parts::Parts;
use std::alloc::Global;
use std::io;
use std::io::Write;

/// What an audit would find of two packets alone.
fn found_if(ordered: bool) -> Found
    ensures { result ≡ found_if ordered }
{
    if ordered {
        Found::Ordered
    } else {
        Found::Conflict
    }
}

/// Writes what each packet that can never complete waits for.
fn explain_stuck<W: Write>(
    writer: &mut W,
    job: &Job,
    which: Which,
    stuck: &Stuck,
) -> Result<Found, ExplainFault>
    requires tells { TellsStuck (plan job.now) stuck.now }
    requires some { IsTrue stuck.now.some }
    ensures explained { IfOk result
        (λ found. Wrote (W.contents writer.old) (W.contents writer.new)
        (Explained job.now (plan job.now) which found)) }
    ensures writer { IfErr result (λ e. e ≢ Memory) }
{
    write_stuck(writer, job, stuck)?;
    Ok(Found::Stuck)
}

/// Tells of the pairs that conflict, of all or of the first hundred.
fn explain_pairs<W: Write>(
    alloc: Global,
    writer: &mut W,
    job: &Job,
    stuck: &Stuck,
    all: bool,
) -> Result<Found, ExplainFault>
    requires tells { TellsStuck (plan job.now) stuck.now }
    requires order { HasOrder (plan job.now) }
    ensures explained { IfOk result
        (λ found. Wrote (W.contents writer.old) (W.contents writer.new) (AllText job.now (plan job.now) all)) }
    ensures found { IfOk result (IsFound (plan job.now)) }
    ensures broken { IfErr result
        (λ e. e ≡ Memory → Wrote (W.contents writer.old) (W.contents writer.new) (Broken job.now (plan job.now))) }
{
    let before = Before::build(alloc, job)?;
    let parts = Parts::build(alloc, job)?;
    let found = found_of(&before, &parts, stuck);
    tell_all(alloc, writer, job, &before, all)?;
    Ok(found)
}

/// Writes that the two are no two packets of the job.
fn write_beyond<W: Write>(writer: &mut W, p: usize, r: usize, count: usize) -> io::Result<()>
    ensures { OnOk result (Appends (W.contents writer.old) (W.contents writer.new) (beyond_line p r count)) }
{
    let pair = PairWords { a: p, b: r };
    write!(writer, "{pair}: the job has {count} packets\n")
}

/// Writes that two packets don't conflict.
fn write_apart<W: Write>(writer: &mut W, p: usize, r: usize) -> io::Result<()>
    ensures { OnOk result (Appends (W.contents writer.old) (W.contents writer.new) (apart_line p r)) }
{
    let pair = PairWords { a: p, b: r };
    write!(writer, "{pair}: no conflict\n")
}

/// Whether these are two packets that conflict.
fn are_two(before: &Before, p: usize, r: usize) -> bool
    requires p_is { IsPacket before.now p }
    requires r_is { IsPacket before.now r }
    ensures { IsTrue result ↔ AreTwo before.now p r }
{
    p != r && have_conflict(before.job(), p, r)
}

/// Whether these are numbers of packets.
fn are_packets(before: &Before, p: usize, r: usize) -> bool
    ensures { IsTrue result ↔ (IsPacket before.now p × IsPacket before.now r) }
{
    p < before.len() && r < before.len()
}

/// Tells of two packets alone.
fn explain_pair<W: Write>(
    alloc: Global,
    writer: &mut W,
    job: &Job,
    p: usize,
    r: usize,
) -> Result<Found, ExplainFault>
    ensures said { IfOk result
        (λ found. Wrote (W.contents writer.old) (W.contents writer.new) (PairSaid job.now (plan job.now) p r found)) }
    ensures unwritten { IfErr result (λ e. e ≡ Memory → writer.new ≡ writer.old) }
{
    let before = Before::build(alloc, job)?;
    if !are_packets(&before, p, r) {
        write_beyond(writer, p, r, before.len())?;
        return Ok(Found::Ordered);
    }
    if !are_two(&before, p, r) {
        write_apart(writer, p, r)?;
        return Ok(Found::Ordered);
    }
    let ordered = write_pair(alloc, writer, job, &before, p, r)?;
    Ok(found_if(ordered))
}

/// Tells of the pairs that are asked for, of a job without a packet that can never complete.
fn explain_which<W: Write>(
    alloc: Global,
    writer: &mut W,
    job: &Job,
    which: Which,
    stuck: &Stuck,
) -> Result<Found, ExplainFault>
    requires tells { TellsStuck (plan job.now) stuck.now }
    requires order { HasOrder (plan job.now) }
    ensures explained { IfOk result
        (λ found. Wrote (W.contents writer.old) (W.contents writer.new)
        (Explained job.now (plan job.now) which found)) }
    ensures broken { IfErr result
        (λ e. e ≡ Memory → Wrote (W.contents writer.old) (W.contents writer.new) (Broken job.now (plan job.now))) }
{
    match which {
        Which::First => explain_pairs(alloc, writer, job, stuck, false),
        Which::All => explain_pairs(alloc, writer, job, stuck, true),
        Which::Pair(p, r) => explain_pair(alloc, writer, job, p, r),
    }
}

/// Writes why the conflicts of a job are ordered, or aren't, and which single changes would order those; answers
/// what an audit would find, of a single pair what it would find of that.
///
/// # Errors
///
/// There is no memory, and then whole pairs were written, in their order; or the writer failed.
pub fn explain<W: Write>(
    alloc: Global,
    writer: &mut W,
    job: &Job,
    which: Which,
) -> Result<Found, ExplainFault>
    ensures explained { IfOk result
        (λ found. Wrote (W.contents writer.old) (W.contents writer.new)
        (Explained job.now (plan job.now) which found)) }
    ensures broken { IfErr result
        (λ e. e ≡ Memory → Wrote (W.contents writer.old) (W.contents writer.new) (Broken job.now (plan job.now))) }
{
    let stuck = stuck_in(alloc, job)?;
    if stuck.some {
        explain_stuck(writer, job, which, &stuck)
    } else {
        explain_which(alloc, writer, job, which, &stuck)
    }
}
