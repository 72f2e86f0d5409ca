//! Who prints the lines and pair lines of a certificate: the caller's thread alone, or several. What is printed is the
//! same.

ghost use Rattle.std.specs.Prelude.{◌≡◌, OnOk, false};
ghost use Rattle.hq_job.specs.Plan.{plan};
ghost use Rattle.hq_audit.specs.Audited.{chained_in, IsAudited};
ghost use Rattle.hq_certtext.specs.Printing.{IsReady};
ghost use Rattle.hq_judging.specs.Giving.{IsWholeText, PrintsSuch};

use crate::giving::print_between;
use crate::giving_wide::print_body_wide;
use crate::place::Place;
use hq_audit::Audited;
use hq_certtext::{Printer, WriterFailed};
use hq_job::Job;
use hq_order::{Alone, Together};
use std::alloc::Global;
use std::io::Write;
use std::thread::Threads;

/// What prints all that a certificate says behind its order, where no pair line is chained.
pub trait PrintsBodies {
    /// Prints all lines and all pair lines. Memory that can't be had costs time alone.
    fn print_body<W: Write>(
        &self,
        alloc: Global,
        printer: &mut Printer,
        job: &Job,
        audited: &Audited,
        writer: &mut W,
    ) -> Result<(), WriterFailed>
        requires ready { IsReady printer.old }
        requires audited { IsAudited (plan job.now) audited.now }
        requires plain { chained_in audited.now ≡ false }
        ensures ready { OnOk result (IsReady printer.new) }
        ensures prints { OnOk result
            (PrintsSuch (IsWholeText (plan job.now) audited.now) (W.contents writer.old) printer.old
            (W.contents writer.new) printer.new) };
}

impl PrintsBodies for Alone {
    fn print_body<W: Write>(
        &self,
        _alloc: Global,
        printer: &mut Printer,
        job: &Job,
        audited: &Audited,
        writer: &mut W,
    ) -> Result<(), WriterFailed> {
        let (start, end) = (Place::start(), Place::end(audited));
        print_between(printer, job, audited, start, end, writer)
    }
}

impl<'a, R: Threads> PrintsBodies for Together<'a, R> {
    fn print_body<W: Write>(
        &self,
        alloc: Global,
        printer: &mut Printer,
        job: &Job,
        audited: &Audited,
        writer: &mut W,
    ) -> Result<(), WriterFailed> {
        print_body_wide(self.rt, alloc, printer, job, audited, writer)
    }
}
