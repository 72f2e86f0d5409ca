//! Files that commands read and write: where one can't be opened, that is written, and said on standard error.

ghost use Rattle.std.specs.Prelude.{◌≡◌, IfErr, IfOk, OnOk, is_some};
ghost use Rattle.hq_front.specs.Files.{FileReport, HasText, SaysUnopened};
ghost use Rattle.hq_status.specs.Reports.{NoJob, Reported};

use crate::input::{Input, open, open_file};
use crate::output::{Output, create};
use hq_job::Job;
use hq_plain::explain_unopened;
use hq_status::{Status, say_memory, say_unopened, take_job};
use std::io;
use std::io::{BufReader, Write};

/// Writes that a file can't be opened or made, and says why.
fn say_why<W: Write>(rt: &HostRuntime, path: &str, error: &io::Error, writer: &mut W) -> Status
    ensures { SaysUnopened (W.contents writer.old) (W.contents writer.new) result }
{
    explain_unopened(rt, path, error);
    match error.kind() {
        io::ErrorKind::OutOfMemory => say_memory(writer),
        _ => say_unopened(writer),
    }
}

/// The file of a path, or standard input for `@`; or the status, where it can't be opened, which is written then.
///
/// # Errors
///
/// The status that the command ends with, where the file can't be opened; what is wrong was written.
pub fn opened<W: Write>(
    rt: &HostRuntime,
    path: &str,
    writer: &mut W,
) -> Result<BufReader<Input>, Status>
    ensures unwritten { OnOk result (writer.new ≡ writer.old) }
    ensures unopened { IfErr result (SaysUnopened (W.contents writer.old) (W.contents writer.new)) }
{
    match open(rt, path) {
        Ok(input) => Ok(input),
        Err(error) => Err(say_why(rt, path, &error, writer)),
    }
}

/// A job, and the file of a path beside it, both opened before either is read; or the status, where one can't be.
///
/// # Errors
///
/// The status that the command ends with, where one can't be opened; what is wrong was written.
pub fn opened_both<W: Write>(
    rt: &HostRuntime,
    job: &str,
    path: &str,
    writer: &mut W,
) -> Result<(BufReader<Input>, BufReader<Input>), Status>
    ensures unwritten { OnOk result (writer.new ≡ writer.old) }
    ensures unopened { IfErr result (SaysUnopened (W.contents writer.old) (W.contents writer.new)) }
{
    let input = opened(rt, job, writer)?;
    match open_file(rt, path) {
        Ok(file) => Ok((input, file)),
        Err(error) => Err(say_why(rt, path, &error, writer)),
    }
}

/// The file that a timeline is asked for in, if it is; or the status, where it can't be made, which is written then.
///
/// # Errors
///
/// The status that the command ends with, where the file can't be made; what is wrong was written.
pub fn created<W: Write>(
    rt: &HostRuntime,
    timeline: Option<&str>,
    writer: &mut W,
) -> Result<Option<Output>, Status>
    ensures asked { IfOk result (λ out. is_some out ≡ is_some timeline.entry) }
    ensures unwritten { OnOk result (writer.new ≡ writer.old) }
    ensures unopened { IfErr result (SaysUnopened (W.contents writer.old) (W.contents writer.new)) }
{
    let Some(path) = timeline else {
        return Ok(None);
    };
    match create(rt, path) {
        Ok(out) => Ok(Some(out)),
        Err(error) => Err(say_why(rt, path, &error, writer)),
    }
}

/// The job of a path; or the status, where there is none, which is written then. Its file is closed again.
///
/// # Errors
///
/// The status that the command ends with, where there is no job; what is wrong was written.
pub fn job_of<W: Write>(rt: &HostRuntime, job: &str, writer: &mut W) -> Result<Job, Status>
    ensures text { IfOk result HasText }
    ensures unwritten { OnOk result (writer.new ≡ writer.old) }
    ensures refused { IfErr result
        (Reported (FileReport NoJob) (W.contents writer.old) (W.contents writer.new)) }
{
    let mut input = opened(rt, job, writer)?;
    take_job(rt.alloc(), &mut input, writer)
}
