//! `hsaq graph`: a picture of a job's order.

ghost use Rattle.hq_engines.specs.Graph.{GraphReport};
ghost use Rattle.hq_status.specs.Reports.{JobTextReport, ReaderReport, Reported};

use hq_graph::{GraphFault, graph};
use hq_job::Job;
use hq_status::{Status, say_memory, take_job};
use std::alloc::Global;
use std::io::{Read, Write};

/// Writes the picture of a job's order, and answers the status.
fn graph_found<W: Write>(alloc: Global, writer: &mut W, job: &Job) -> Status
    ensures { Reported (GraphReport job.now) (W.contents writer.old) (W.contents writer.new) result }
{
    match graph(alloc, writer, job) {
        Ok(found) => Status::Drawn(found),
        Err(GraphFault::Memory) => say_memory(writer),
        Err(GraphFault::Writer) => Status::File,
    }
}

/// Reads a job and writes a picture of its order in DOT, with its conflicts, and the packets that can never
/// complete. Nothing is written before the last growth of memory.
pub fn graph_engine<R: Read, W: Write>(alloc: Global, reader: &mut R, writer: &mut W) -> Status
    ensures { Reported (ReaderReport R R.remaining reader.old reader.new (JobTextReport GraphReport))
        (W.contents writer.old) (W.contents writer.new) result }
{
    match take_job(alloc, reader, writer) {
        Ok(job) => {
            let status = graph_found(alloc, writer, &job);
            job.let_go();
            status
        }
        Err(status) => status,
    }
}
