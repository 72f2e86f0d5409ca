//! Whole graphs.

ghost use Rattle.std.specs.Prelude.{◌≡◌, ℕ, List, IfErr, IfOk, OnOk};
ghost use Rattle.std.specs.Io.KnownBytes.{Appends};
ghost use Rattle.hq_job.specs.Plan.{plan};
ghost use Rattle.hq_graph.specs.Graph.{DrawnText, GraphText, Wrote, opening};
ghost use Rattle.hq_graph.specs.Known.{Sees};
ghost use Rattle.hq_graph.specs.Order.{IsFound};
ghost use Rattle.hq_graph.specs.declared.fault.GraphFault.TheVariants.{Memory};

use crate::fault::GraphFault;
use crate::judging::found_of;
use crate::nodes::{write_close, write_clusters};
use crate::pairs::{write_pairs, write_waits};
use crate::part::Part;
use crate::rows::steps_of;
use crate::sight::Sight;
use crate::stuck::stuck_of;
use hq_finding::Found;
use hq_job::Job;
use hq_order::Before;
use hq_parts::Parts;
use std::alloc::Global;
use std::io;
use std::io::Write;

/// How a graph begins.
const OPENING: &[u8] =
    b"digraph hsaq {\nnode [shape=box fontname=monospace];\nedge [fontname=monospace fontsize=9];\n";

/// Writes how a graph begins.
fn write_opening<W: Write>(writer: &mut W) -> io::Result<()>
    ensures { OnOk result (Appends (W.contents writer.old) (W.contents writer.new) opening) }
{
    writer.write_all(OPENING)
}

/// Writes the graph of a job whose order is worked out.
fn write_all<W: Write>(writer: &mut W, job: &Job, sight: &Sight) -> io::Result<()>
    requires { Sees sight.now }
    ensures { OnOk result
        (Wrote (W.contents writer.old) (W.contents writer.new) (DrawnText job.now sight.now.before.now)) }
{
    write_opening(writer)?;
    write_clusters(writer, job, sight)?;
    write_pairs(writer, job, sight, Part::Steps)?;
    write_pairs(writer, job, sight, Part::Conflicts)?;
    write_waits(writer, job, sight)?;
    write_close(writer)
}

/// Writes the picture of a job's order, and answers what an audit of the job would find. Nothing is written before
/// the last growth of memory.
///
/// # Errors
///
/// There is no memory, and then nothing was written; or the writer failed.
pub fn graph<W: Write>(alloc: Global, writer: &mut W, job: &Job) -> Result<Found, GraphFault>
    ensures drawn { OnOk result
        ((text : List ℕ) × GraphText job.now text × Appends (W.contents writer.old) (W.contents writer.new) text) }
    ensures found { IfOk result (IsFound (plan job.now)) }
    ensures unwritten { IfErr result (λ e. e ≡ Memory → writer.new ≡ writer.old) }
{
    job.valid();
    let stuck = stuck_of(alloc, job)?;
    let before = Before::build(alloc, job)?;
    let steps = steps_of(alloc, &before)?;
    let parts = Parts::build(alloc, job)?;
    let found = found_of(&before, &parts, &stuck);
    let sight = Sight {
        before: &before,
        steps: &steps,
        parts: &parts,
        stuck: &stuck,
    };
    write_all(writer, job, &sight)?;
    Ok(found)
}
