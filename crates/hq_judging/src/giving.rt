//! The certificate of what an audit found, one line behind another.

ghost use Rattle.std.specs.Prelude.{◌≡◌, ◌≤◌, Err, OnOk, false, length};
ghost use Rattle.hq_job.specs.Plan.{plan};
ghost use Rattle.hq_audit.specs.Audited.{lines_in, list_in, chained_in, IsAudited};
ghost use Rattle.hq_certtext.specs.Printing.{IsReady, IsEmpty};
ghost use Rattle.hq_judging.specs.Audit.{JobReport};
ghost use Rattle.hq_judging.specs.Giving.{IsLinesText, IsPairsText, PrintsSuch, WritesCertificate};
ghost use Rattle.hq_judging.specs.Places.{IsListsText, IsTextBetween, Leads};
ghost use Rattle.hq_status.specs.Reports.{Reported};

use crate::audit::say_certificate;
use crate::bodies::PrintsBodies;
use crate::place::Place;
use hq_audit::Audited;
use hq_certtext::{PrintFault, Printer, WriterFailed};
use hq_job::Job;
use hq_status::{Status, say_memory};
use std::alloc::Global;
use std::io::Write;

/// Prints the lines from one on, up to another.
fn print_lines<W: Write>(
    printer: &mut Printer,
    audited: &Audited,
    from: usize,
    to: usize,
    writer: &mut W,
) -> Result<(), WriterFailed>
    requires ready { IsReady printer.old }
    requires order { from ≤ to }
    requires within { to ≤ length (lines_in audited.now) }
    ensures ready { OnOk result (IsReady printer.new) }
    ensures prints { OnOk result
        (PrintsSuch (IsLinesText audited.now from to) (W.contents writer.old) printer.old (W.contents writer.new)
        printer.new) }
{
    for k in from..to {
        printer.line(k, audited.line(k).line(), writer)?;
    }
    Ok(())
}

/// Prints a list of pair lines, where none is chained: then they take no memory.
fn print_list<W: Write>(
    printer: &mut Printer,
    job: &Job,
    audited: &Audited,
    list: usize,
    writer: &mut W,
) -> Result<(), WriterFailed>
    requires ready { IsReady printer.old }
    requires audited { IsAudited (plan job.now) audited.now }
    requires plain { chained_in audited.now ≡ false }
    ensures ready { OnOk result (IsReady printer.new) }
    ensures prints { OnOk result
        (PrintsSuch (IsPairsText (plan job.now) audited.now (list_in audited.now list)) (W.contents writer.old)
        printer.old (W.contents writer.new) printer.new) }
{
    for k in 0..audited.count(list) {
        printer.pair(&audited.pair(job, list, k), writer)?;
    }
    Ok(())
}

/// Prints the lists of pair lines from one on, up to another.
fn print_lists<W: Write>(
    printer: &mut Printer,
    job: &Job,
    audited: &Audited,
    from: usize,
    to: usize,
    writer: &mut W,
) -> Result<(), WriterFailed>
    requires ready { IsReady printer.old }
    requires audited { IsAudited (plan job.now) audited.now }
    requires plain { chained_in audited.now ≡ false }
    requires order { from ≤ to }
    ensures ready { OnOk result (IsReady printer.new) }
    ensures prints { OnOk result
        (PrintsSuch (IsListsText (plan job.now) audited.now from to) (W.contents writer.old)
        printer.old (W.contents writer.new) printer.new) }
{
    for list in from..to {
        print_list(printer, job, audited, list, writer)?;
    }
    Ok(())
}

/// Prints what is between two places.
pub fn print_between<W: Write>(
    printer: &mut Printer,
    job: &Job,
    audited: &Audited,
    from: Place,
    to: Place,
    writer: &mut W,
) -> Result<(), WriterFailed>
    requires ready { IsReady printer.old }
    requires audited { IsAudited (plan job.now) audited.now }
    requires plain { chained_in audited.now ≡ false }
    requires places { Leads audited.now from to }
    ensures ready { OnOk result (IsReady printer.new) }
    ensures prints { OnOk result
        (PrintsSuch (IsTextBetween (plan job.now) audited.now from to) (W.contents writer.old) printer.old
        (W.contents writer.new) printer.new) }
{
    print_lines(printer, audited, from.line, to.line, writer)?;
    print_lists(printer, job, audited, from.list, to.list, writer)
}

/// Prints the certificate by a printer that has printed nothing yet.
fn print_all<P: PrintsBodies, W: Write>(
    hands: &P,
    alloc: Global,
    mut printer: Printer,
    job: &Job,
    audited: &Audited,
    writer: &mut W,
) -> Result<(), WriterFailed>
    requires ready { IsReady printer }
    requires empty { IsEmpty printer }
    requires audited { IsAudited (plan job.now) audited.now }
    requires plain { chained_in audited.now ≡ false }
    ensures { OnOk result (WritesCertificate (plan job.now) (W.contents writer.old) (W.contents writer.new)) }
{
    printer.begin(false, audited.order(), writer)?;
    hands.print_body(alloc, &mut printer, job, audited, writer)?;
    printer.end(writer)
}

/// Prints the certificate, where no pair line is chained. All memory that it can't do without is taken before the first
/// byte is written.
fn print_audited<P: PrintsBodies, W: Write>(
    hands: &P,
    alloc: Global,
    job: &Job,
    audited: &Audited,
    writer: &mut W,
) -> Result<(), PrintFault>
    requires audited { IsAudited (plan job.now) audited.now }
    requires plain { chained_in audited.now ≡ false }
    ensures written { OnOk result
        (WritesCertificate (plan job.now) (W.contents writer.old) (W.contents writer.new)) }
    ensures unwritten { result ≡ Err PrintFault.Memory → writer.new ≡ writer.old }
{
    let Ok(printer) = Printer::new(alloc, job.packets().len(), audited.lines()) else {
        return Err(PrintFault::Memory);
    };
    match print_all(hands, alloc, printer, job, audited, writer) {
        Ok(()) => Ok(()),
        Err(WriterFailed) => Err(PrintFault::Writer),
    }
}

/// Writes the certificate of what an audit found, with all of it made first: chained pair lines take memory of their
/// own.
fn say_whole<W: Write>(alloc: Global, writer: &mut W, job: &Job, audited: Audited) -> Status
    requires { IsAudited (plan job.now) audited }
    ensures { Reported (JobReport (plan job.now)) (W.contents writer.old) (W.contents writer.new) result }
{
    match audited.certificate(alloc, job) {
        Ok(certificate) => say_certificate(alloc, writer, &certificate),
        Err(_) => say_memory(writer),
    }
}

/// Writes the certificate of what an audit found.
pub fn say_audited<P: PrintsBodies, W: Write>(
    hands: &P,
    alloc: Global,
    writer: &mut W,
    job: &Job,
    audited: Audited,
) -> Status
    requires { IsAudited (plan job.now) audited }
    ensures { Reported (JobReport (plan job.now)) (W.contents writer.old) (W.contents writer.new) result }
{
    if audited.is_chained() {
        return say_whole(alloc, writer, job, audited);
    }
    match print_audited(hands, alloc, job, &audited, writer) {
        Ok(()) => Status::Done,
        Err(PrintFault::Memory) => say_memory(writer),
        Err(PrintFault::Writer) => Status::File,
    }
}
