//! Jobs from readers.

ghost use Rattle.std.specs.Prelude.{◌≡◌, IfOk, IfErr, OnOk};
ghost use Rattle.hq_text.specs.Lines.{lines_of};
ghost use Rattle.hq_jobtext.specs.JobText.{JobText};
ghost use Rattle.hq_status.specs.Reports.{NoJob, OfReader, ReaderReport, Reported, SaysNoJob};

use crate::saying::{say, say_file, say_memory};
use crate::status::Status;
use hq_job::Job;
use hq_jobtext::{JobFault, TextFault, read, read_text, take_text};
use hq_report::JobRefusal;
use hq_tables::Reason;
use std::alloc::Global;
use std::io::{Read, Write};

/// Writes why there is no job.
fn say_no_job<W: Write>(writer: &mut W, fault: JobFault) -> Status
    ensures { SaysNoJob fault (W.contents writer.old) (W.contents writer.new) result }
{
    match fault.reason {
        Reason::Memory => say_memory(writer),
        Reason::Read => say_file(writer),
        _ => say(writer, JobRefusal(fault), Status::JobRefused(fault)),
    }
}

/// The job of a reader's text; or, where there is none, the status of the refusal, which is written.
///
/// # Errors
///
/// The status of the refusal.
pub fn take_job<R: Read, W: Write>(
    alloc: Global,
    reader: &mut R,
    writer: &mut W,
) -> Result<Job, Status>
    ensures found { IfOk result
        (λ job. OfReader R R.remaining reader.old reader.new (λ text. JobText (lines_of text) job)) }
    ensures unwritten { OnOk result (writer.new ≡ writer.old) }
    ensures refused { IfErr result
        (Reported (ReaderReport R R.remaining reader.old reader.new NoJob) (W.contents writer.old)
        (W.contents writer.new)) }
{
    match read(alloc, reader) {
        Ok(job) => Ok(job),
        Err(fault) => Err(say_no_job(writer, fault)),
    }
}

/// A text, and the job that it is, of a reader; or, where that gives no job, the status of the refusal, which is
/// written. The whole text is held.
///
/// # Errors
///
/// The status of the refusal.
pub fn take_job_text<R: Read, W: Write>(
    alloc: Global,
    reader: &mut R,
    writer: &mut W,
) -> Result<(Vec<u8>, Job), Status>
    ensures found { IfOk result
        (λ it. OfReader R R.remaining reader.old reader.new
        (λ text. (text ≡ it.0.items) × JobText (lines_of text) it.1)) }
    ensures job { IfOk result (λ it. JobText (lines_of it.0.items) it.1) }
    ensures unwritten { OnOk result (writer.new ≡ writer.old) }
    ensures refused { IfErr result
        (Reported (ReaderReport R R.remaining reader.old reader.new NoJob) (W.contents writer.old)
        (W.contents writer.new)) }
{
    let text = match take_text(alloc, reader) {
        Ok(text) => text,
        Err(TextFault::Memory) => return Err(say_memory(writer)),
        Err(TextFault::Read) => return Err(say_file(writer)),
    };
    match read_text(alloc, &text) {
        Ok(job) => Ok((text, job)),
        Err(fault) => Err(say_no_job(writer, fault)),
    }
}
