//! `hsaq explain`: why a job's conflicts are ordered, or aren't.

ghost use Rattle.hq_engines.specs.Explain.{ExplainReport};
ghost use Rattle.hq_status.specs.Reports.{JobTextReport, ReaderReport, Reported};

use hq_explain::{ExplainFault, Which, explain};
use hq_job::Job;
use hq_status::{Status, say_memory, take_job};
use std::alloc::Global;
use std::io::{Read, Write};

/// Writes the explanation of a job, and answers the status.
fn explain_found<W: Write>(alloc: Global, writer: &mut W, job: &Job, which: Which) -> Status
    ensures { Reported (ExplainReport which job.now) (W.contents writer.old) (W.contents writer.new) result }
{
    match explain(alloc, writer, job, which) {
        Ok(found) => Status::Explained(found),
        Err(ExplainFault::Memory) => say_memory(writer),
        Err(ExplainFault::Writer) => Status::File,
    }
}

/// Reads a job and writes why the pairs that are asked for are ordered or aren't, and which single changes would
/// order those; or what packets that can never complete wait for.
pub fn explain_engine<R: Read, W: Write>(
    alloc: Global,
    reader: &mut R,
    which: Which,
    writer: &mut W,
) -> Status
    ensures { Reported (ReaderReport R R.remaining reader.old reader.new (JobTextReport (ExplainReport which)))
        (W.contents writer.old) (W.contents writer.new) result }
{
    match take_job(alloc, reader, writer) {
        Ok(job) => {
            let status = explain_found(alloc, writer, &job, which);
            job.let_go();
            status
        }
        Err(status) => status,
    }
}
