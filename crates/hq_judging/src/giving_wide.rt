//! The lines and pair lines of a certificate, printed by several threads: each prints what is between two places to a
//! text of its own, and the caller's thread writes these texts one behind another.

ghost use Rattle.std.specs.Prelude.{◌≡◌, ◌<◌, ◌≤◌, IfOk, OnOk, false};
ghost use Rattle.hq_job.specs.Plan.{plan};
ghost use Rattle.hq_audit.specs.Audited.{chained_in, IsAudited};
ghost use Rattle.hq_certtext.specs.Printing.{IsReady};
ghost use Rattle.hq_judging.specs.Giving.{IsWholeText, PrintsSuch};
ghost use Rattle.hq_judging.specs.Places.{ArePieces, IsPlace, IsTextBetween, Leads};

use crate::giving::print_between;
use crate::piece::{Piece, pieces_from, print_pieces};
use crate::place::Place;
use hq_audit::Audited;
use hq_certtext::{Printer, WriterFailed};
use hq_job::Job;
use rayon::current_num_threads;
use std::alloc::Global;
use std::io::Write;
use std::thread::Threads;

/// How many threads print at most.
const MOST: usize = 16;

/// How many lines and pair lines one thread prints in a turn at most, about: their text is kept until it is written.
const TURN: usize = 24_576;

/// In how many turns all is printed at least, so that the texts that are kept are few beside what was freed before.
const TURNS: usize = 4;

/// How many lines and pair lines are worth more threads than one.
const ENOUGH: usize = 65_536;

/// Prints pieces, of which the first begins here; a text that isn't there is printed by this thread. Answers the place
/// behind them.
fn print_texts<W: Write>(
    printer: &mut Printer,
    job: &Job,
    audited: &Audited,
    from: Place,
    pieces: &[Piece],
    writer: &mut W,
) -> Result<Place, WriterFailed>
    requires ready { IsReady printer.old }
    requires audited { IsAudited (plan job.now) audited.now }
    requires plain { chained_in audited.now ≡ false }
    requires place { IsPlace audited.now from }
    requires pieces { ArePieces (plan job.now) audited.now from pieces.now }
    ensures ready { OnOk result (IsReady printer.new) }
    ensures leads { IfOk result (λ to. Leads audited.now from to) }
    ensures prints { IfOk result
        (λ to. PrintsSuch (IsTextBetween (plan job.now) audited.now from to) (W.contents writer.old) printer.old
        (W.contents writer.new) printer.new) }
{
    let mut at = from;
    for piece in pieces {
        match &piece.text {
            Some(text) => printer.text(text, writer)?,
            None => print_between(printer, job, audited, at, piece.to, writer)?,
        }
        at = piece.to;
    }
    Ok(at)
}

/// Prints what is behind a place, by so many threads, of which each has so many lines and pair lines. Answers the place
/// behind that, which is the same one where there is no memory.
fn print_turn<R: Threads, W: Write>(
    rt: &R,
    alloc: Global,
    printer: &mut Printer,
    job: &Job,
    audited: &Audited,
    from: Place,
    threads: usize,
    many: usize,
    writer: &mut W,
) -> Result<Place, WriterFailed>
    requires ready { IsReady printer.old }
    requires audited { IsAudited (plan job.now) audited.now }
    requires plain { chained_in audited.now ≡ false }
    requires place { IsPlace audited.now from }
    ensures ready { OnOk result (IsReady printer.new) }
    ensures leads { IfOk result (λ to. Leads audited.now from to) }
    ensures prints { IfOk result
        (λ to. PrintsSuch (IsTextBetween (plan job.now) audited.now from to) (W.contents writer.old) printer.old
        (W.contents writer.new) printer.new) }
{
    let Ok(mut pieces) = pieces_from(alloc, audited, from, threads, many) else {
        return Ok(from);
    };
    print_pieces(rt, alloc, job, audited, from, &mut pieces, many);
    print_texts(printer, job, audited, from, &pieces, writer)
}

/// How many lines and pair lines there are.
fn count_all(audited: &Audited) -> usize {
    let mut all = audited.lines();
    for list in 0..audited.lists() {
        all = all.saturating_add(audited.count(list));
    }
    all
}

/// How many threads are to print so many lines and pair lines. How many processors there are is asked only where that
/// may be worth more than one: to ask takes as long as to print a thousand.
fn threads_for<R: Threads>(rt: &R, all: usize) -> usize
    ensures some { 0 < result }
    ensures few { result ≤ MOST }
{
    if all < ENOUGH {
        return 1;
    }
    current_num_threads(rt).min(MOST)
}

/// In how many turns so many lines and pair lines are printed by threads; in none where there is one.
fn turns_for(threads: usize, all: usize) -> usize
    requires { threads ≤ MOST }
{
    if threads < 2 {
        return 0;
    }
    all.div_ceil(threads * TURN).max(TURNS)
}

/// Prints all lines and all pair lines, by as many threads as there are processors where that is worth it.
pub fn print_body_wide<R: Threads, W: Write>(
    rt: &R,
    alloc: Global,
    printer: &mut Printer,
    job: &Job,
    audited: &Audited,
    writer: &mut W,
) -> Result<(), WriterFailed>
    requires ready { IsReady printer.old }
    requires audited { IsAudited (plan job.now) audited.now }
    requires plain { chained_in audited.now ≡ false }
    ensures ready { OnOk result (IsReady printer.new) }
    ensures prints { OnOk result
        (PrintsSuch (IsWholeText (plan job.now) audited.now) (W.contents writer.old) printer.old
        (W.contents writer.new) printer.new) }
{
    let all = count_all(audited);
    let threads = threads_for(rt, all);
    let turns = turns_for(threads, all);
    let mut at = Place::start();
    for _turn in 0..turns {
        let many = all.div_ceil(turns).div_ceil(threads);
        at = print_turn(rt, alloc, printer, job, audited, at, threads, many, writer)?;
    }
    print_between(printer, job, audited, at, Place::end(audited), writer)
}
