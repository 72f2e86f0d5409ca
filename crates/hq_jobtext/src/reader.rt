//! Jobs from texts and readers.

ghost use Rattle.std.specs.Prelude.{◌≡◌, ◌⊎◌, IfOk, IfErr, IfSome};
ghost use Rattle.hq_text.specs.Lines.{lines_of};
ghost use Rattle.hq_text.specs.Intake.{OfText};
ghost use Rattle.hq_text.specs.Turns.{Fails, Passes, ReadTurn};
ghost use Rattle.hq_jobtext.specs.Answered.{no_memory, FaultOf, GivesJob, GivesUnlessRead};
ghost use Rattle.hq_jobtext.specs.JobText.{JobText, FirstFault};
ghost use Rattle.hq_jobtext.specs.SoFar.{ReadOf};
ghost use Rattle.hq_job.specs.Value.{JobValue};

use crate::fault::JobFault;
use crate::progress::Progress;
use hq_job::Job;
use hq_tables::Reason;
use hq_text::{ReadFault, Source, TURNS, TakesLines, read_lines};
use std::alloc::Global;
use std::io::Read;

fn read_all(alloc: Global, text: &[u8]) -> Result<Job, JobFault>
    ensures { ReadOf (λ j. j) result (lines_of text.now) }
{
    let mut progress = Progress::new(alloc);
    progress.take_lines(alloc, text)?;
    progress.finish(alloc)
}

/// The job that a text is, or its first fault. Where memory runs out, that is the fault, at line 0.
///
/// # Errors
///
/// `JobFault` with the line and the reason of the text's first fault, or that there is no memory, at line 0.
pub fn read_text(alloc: Global, text: &[u8]) -> Result<Job, JobFault>
    ensures found { IfOk result (λ job. JobText (lines_of text.now) job) }
    // The job of a text is read, unless memory runs out.
    ensures only { (job : JobValue) → JobText (lines_of text.now) job → GivesJob (λ j. j) result job }
    ensures fault { IfErr result (λ f. (f ≡ no_memory) ⊎ FirstFault (lines_of text.now) f) }
{
    read_all(alloc, text)
}

/// The job of the text that a source gives up to its end, or its first fault.
fn read_source<S: Source>(alloc: Global, source: &mut S) -> Result<Job, JobFault>
    ensures found { IfOk result
        (λ job. OfText S S.Turned TURNS source.old source.new (λ text. JobText (lines_of text) job)) }
    ensures fault { IfErr result
        (λ f. FaultOf f (OfText S S.Turned TURNS source.old source.new (λ text. FirstFault (lines_of text) f))
        (Fails S S.Turned TURNS source.old source.new ⊎ Passes S S.Turned TURNS source.old source.new)) }
{
    match read_lines(alloc, source, Progress::new(alloc)) {
        Ok(progress) => progress.finish(alloc),
        Err(ReadFault::Text(fault)) => Err(fault),
        Err(ReadFault::Reader) => Err(JobFault {
            line: 0,
            reason: Reason::Read,
        }),
    }
}

/// The job that a reader's text is, or its first fault, as `read_text` tells them of the whole text. Of the text no
/// more is held than what waits for the end of its line, and some 64 KiB; behind the first faulty line nothing is
/// held. The reader gives the text in at most 2,000,000 turns of at most 512 bytes; where it fails, in any way, or
/// passes its turns, that is the fault, at line 0, also behind a faulty line.
///
/// # Errors
///
/// `JobFault` with the line and the reason of the text's first fault; at line 0 that there is no memory, or that
/// the reader failed or passed its turns.
pub fn read<R: Read>(alloc: Global, reader: &mut R) -> Result<Job, JobFault>
    ensures found { IfSome (R.remaining reader.old) (λ text. IfOk result (λ job. JobText (lines_of text) job)) }
    ensures only { IfSome (R.remaining reader.old)
        (λ text. (job : JobValue) → JobText (lines_of text) job → GivesUnlessRead (λ j. j) result job) }
    ensures fault { IfSome (R.remaining reader.old)
        (λ text. IfErr result (λ f. FaultOf f (FirstFault (lines_of text) f) (Unit {0}))) }
    // The same of the turns that the reader was asked.
    ensures turned { IfOk result
        (λ job. OfText R (ReadTurn R.remaining) TURNS reader.old reader.new (λ text. JobText (lines_of text) job)) }
    ensures failed { IfErr result
        (λ f. FaultOf f
        (OfText R (ReadTurn R.remaining) TURNS reader.old reader.new (λ text. FirstFault (lines_of text) f))
        (Fails R (ReadTurn R.remaining) TURNS reader.old reader.new
        ⊎ Passes R (ReadTurn R.remaining) TURNS reader.old reader.new)) }
    // Where the reader's failure is the fault, there was one.
    ensures read { IfErr result
        (λ f. f.reason ≡ Reason.Read
        → Fails R (ReadTurn R.remaining) TURNS reader.old reader.new
        ⊎ Passes R (ReadTurn R.remaining) TURNS reader.old reader.new) }
{
    read_source(alloc, reader)
}
