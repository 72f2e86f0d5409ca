//! `hsaq fix` and `hsaq trim`: a job's text with other heads on its packets.

ghost use Rattle.std.specs.Prelude.{◌≡◌, IfErr, IfOk, length};
ghost use Rattle.hq_text.specs.Lines.{lines_of};
ghost use Rattle.hq_jobtext.specs.JobText.{JobText};
ghost use Rattle.hq_job.specs.Plan.{plan};
ghost use Rattle.hq_jobtext.specs.Rewritten.{TextRewritten};
ghost use Rattle.hq_job.specs.Heads.{heads_of, job_with_heads};
ghost use Rattle.hq_audit.specs.Refused.{IsRefused};
ghost use Rattle.hq_audit.specs.declared.fault.AuditNo.TheVariants.{Memory};
ghost use Rattle.hq_engines.specs.Change.{ChangeReport, IsChanged, TellsIfDone, TellsText, TellsWritten, judged_job};
ghost use Rattle.hq_status.specs.Reports.{JobTextReport, OfReader, ReaderReport, Reported, Said};

use hq_audit::AuditNo;
use hq_change::{Watch, fix, trim};
use hq_job::Job;
use hq_jobtext::rewrite;
use hq_judging::laws::stuck_exactly;
use hq_judging::say_no_certificate;
use hq_packet::Head;
use hq_status::{Status, say_text, take_job_text};
use std::alloc::{AllocError, Global};
use std::io::{Read, Write};

/// What is asked for: what a job lacks, or that it goes without what it doesn't need.
#[derive(Clone, Copy, Debug, PartialEq, Eq)]
pub enum Aim {
    Fix,
    Trim,
}

/// A job whose heads were changed, and the heads that its packets had, by number.
#[derive(Drop)]
pub struct Changed {
    pub job: Job,
    pub heads: Vec<Head>,
}

impl Changed {
    /// Drops it. In a proof this call is one step.
    fn let_go(self) {}
}

/// The job as the aim has it.
fn job_changed(alloc: Global, job: Job, aim: Aim, watch: &dyn Watch) -> Result<Job, AuditNo>
    ensures changed { IfOk result (λ k. IsChanged aim (plan job) (plan k)) }
    ensures heads { IfOk result (λ k. job_with_heads job (heads_of k) ≡ k) }
    ensures refused { IfErr result (λ no. IsRefused (judged_job aim (plan job)) no) }
{
    match aim {
        Aim::Fix => fix(alloc, job, watch),
        Aim::Trim => trim(alloc, job, watch),
    }
}

/// The text of a job with the heads of another.
fn rewritten(alloc: Global, text: &[u8], job: &Job, changed: &Job) -> Result<Vec<u8>, AllocError>
    requires text { JobText (lines_of text.now) job.now }
    requires count { length (heads_of changed.now) ≡ length job.now.packets }
    requires heads { job_with_heads job.now (heads_of changed.now) ≡ changed.now }
    ensures text { IfOk result (λ new. JobText (lines_of new.items) changed.now) }
    ensures rewritten { IfOk result (λ new. TextRewritten (heads_of changed.now) job.now text.now new.items) }
{
    let heads = changed.heads(alloc)?;
    rewrite(alloc, text, job, &heads)
}

/// A job whose heads were changed, with its text and the heads that its packets had.
fn with_text(
    alloc: Global,
    text: &[u8],
    job: &Job,
    changed: Job,
) -> Result<(Vec<u8>, Changed), AuditNo>
    requires text { JobText (lines_of text.now) job.now }
    requires count { length (heads_of changed) ≡ length job.now.packets }
    requires heads { job_with_heads job.now (heads_of changed) ≡ changed }
    ensures job { IfOk result (λ it. it.1.job ≡ changed) }
    ensures heads { IfOk result (λ it. it.1.heads.items ≡ heads_of job.now) }
    ensures text { IfOk result (λ it. JobText (lines_of it.0.items) it.1.job) }
    ensures rewritten { IfOk result (λ it. TextRewritten (heads_of it.1.job) job.now text.now it.0.items) }
    ensures memory { IfErr result (λ no. no ≡ Memory) }
{
    let Ok(new) = rewritten(alloc, text, job, &changed) else {
        changed.let_go();
        return Err(AuditNo::Memory);
    };
    let Ok(heads) = job.heads(alloc) else {
        changed.let_go();
        return Err(AuditNo::Memory);
    };
    let changed = Changed {
        job: changed,
        heads,
    };
    Ok((new, changed))
}

/// The text of a job as the aim has it, and that job.
fn text_changed(
    alloc: Global,
    text: &[u8],
    job: &Job,
    aim: Aim,
    watch: &dyn Watch,
) -> Result<(Vec<u8>, Changed), AuditNo>
    requires { JobText (lines_of text.now) job.now }
    ensures changed { IfOk result (λ it. IsChanged aim (plan job.now) (plan it.1.job)) }
    ensures heads { IfOk result (λ it. it.1.heads.items ≡ heads_of job.now) }
    ensures text { IfOk result (λ it. JobText (lines_of it.0.items) it.1.job) }
    ensures rewritten { IfOk result (λ it. TextRewritten (heads_of it.1.job) job.now text.now it.0.items) }
    ensures refused { IfErr result (λ no. IsRefused (judged_job aim (plan job.now)) no) }
{
    let copy = job.copy(alloc)?;
    let changed = job_changed(alloc, copy, aim, watch)?;
    with_text(alloc, text, job, changed)
}

/// Writes the text of a job whose heads were changed, and holds nothing of it back. Answers the status and, where all
/// of that went, the job.
fn say_changed<W: Write>(writer: &mut W, text: &[u8], changed: Changed) -> (Status, Option<Changed>)
    ensures said { Said (W.contents writer.old) (W.contents writer.new) text.now Status.Done result.0 }
    ensures told { TellsIfDone result.0 result.1 (λ it. it ≡ changed) }
{
    match (say_text(writer, text), writer.flush()) {
        (Status::Done, Ok(())) => (Status::Done, Some(changed)),
        _ => {
            changed.let_go();
            (Status::File, None)
        }
    }
}

/// Writes the text of a job as the aim has it, and answers that job beside the status; or writes why there is none.
fn change_found<W: Write>(
    alloc: Global,
    writer: &mut W,
    text: &[u8],
    job: &Job,
    aim: Aim,
    watch: &dyn Watch,
) -> (Status, Option<Changed>)
    requires { JobText (lines_of text.now) job.now }
    ensures report { Reported (ChangeReport aim text.now job.now) (W.contents writer.old)
        (W.contents writer.new) result.0 }
    ensures told { TellsIfDone result.0 result.1
        (TellsWritten aim text.now job.now (W.contents writer.old) (W.contents writer.new)) }
{
    job.valid();
    stuck_exactly();
    match text_changed(alloc, text, job, aim, watch) {
        Ok((new, changed)) => say_changed(writer, &new, changed),
        Err(no) => (say_no_certificate(writer, no), None),
    }
}

/// Reads a job, and writes its text with other heads: with what it lacks, or without what it doesn't need. Nothing
/// else of the text is other. Answers the status and, exactly where that text was written, the job that it is and the
/// heads that the packets had. Nothing is written before the last growth of memory. The watch hears how far the
/// change has come.
pub fn change_engine<R: Read, W: Write>(
    alloc: Global,
    reader: &mut R,
    writer: &mut W,
    aim: Aim,
    watch: &dyn Watch,
) -> (Status, Option<Changed>)
    ensures report { Reported
        (ReaderReport R R.remaining reader.old reader.new (λ text. JobTextReport (ChangeReport aim text) text))
        (W.contents writer.old) (W.contents writer.new) result.0 }
    ensures told { TellsIfDone result.0 result.1
        (λ it. OfReader R R.remaining reader.old reader.new
        (TellsText aim (W.contents writer.old) (W.contents writer.new) it)) }
{
    match take_job_text(alloc, reader, writer) {
        Ok((text, job)) => {
            let answer = change_found(alloc, writer, &text, &job, aim, watch);
            job.let_go();
            answer
        }
        Err(status) => (status, None),
    }
}
