//! Pieces of what a certificate has behind its order, each printed by a thread.

ghost use Rattle.std.specs.Prelude.{◌≡◌, IfOk, IfSome, false};
ghost use Rattle.hq_job.specs.Plan.{plan};
ghost use Rattle.hq_model.specs.Job.{Job as Plan};
ghost use Rattle.hq_audit.specs.Audited.{chained_in, IsAudited};
ghost use Rattle.hq_judging.specs.Places.{ArePieces, HasText, IsPlace, IsTextBetween, Leads};

use crate::giving::print_between;
use crate::place::Place;
use hq_audit::Audited;
use hq_certtext::Printer;
use hq_job::Job;
use std::alloc::{AllocError, Global};
use std::thread::{Threads, join_mut};

/// How many bytes a line or a pair line takes, mostly no more.
const LINE: usize = 40;

/// The lines and pair lines from some place on up to this one, and their text where it is printed.
#[derive(Drop)]
pub struct Piece {
    pub to: Place,
    pub text: Option<Vec<u8>>,
}

/// The text between two places, between which there are about so many lines and pair lines, where there is memory for it.
fn text_between(
    alloc: Global,
    job: &Job,
    audited: &Audited,
    from: Place,
    to: Place,
    many: usize,
) -> Option<Vec<u8>>
    requires audited { IsAudited (plan job.now) audited.now }
    requires plain { chained_in audited.now ≡ false }
    requires places { Leads audited.now from to }
    ensures { IfSome result (λ text. IsTextBetween (plan job.now) audited.now from to text.items) }
{
    let Ok(mut text) = Vec::with_capacity(alloc, many.saturating_mul(LINE)) else {
        return None;
    };
    let Ok(mut printer) = Printer::new(alloc, job.packets().len(), audited.lines()) else {
        return None;
    };
    let Ok(()) = print_between(&mut printer, job, audited, from, to, &mut text) else {
        return None;
    };
    let Ok(()) = printer.give(&mut text) else {
        return None;
    };
    Some(text)
}

impl Piece {
    /// Prints the piece, which begins here, to a text of its own, where there is memory for it.
    fn print(&mut self, alloc: Global, job: &Job, audited: &Audited, from: Place, many: usize)
        requires audited { IsAudited (plan job.now) audited.now }
        requires plain { chained_in audited.now ≡ false }
        requires places { Leads audited.now from self.old.to }
        ensures to { self.new.to ≡ self.old.to }
        ensures text { HasText (plan job.now) audited.now from self.new }
    {
        self.text = text_between(alloc, job, audited, from, self.to, many);
    }
}

/// So many pieces from a place on, none of them printed, of so many lines and pair lines each.
pub fn pieces_from(
    alloc: Global,
    audited: &Audited,
    from: Place,
    count: usize,
    many: usize,
) -> Result<Vec<Piece>, AllocError>
    requires { IsPlace audited.now from }
    ensures { IfOk result (λ pieces. (job : Plan) → ArePieces job audited.now from pieces.items) }
{
    let mut pieces = Vec::with_capacity(alloc, count)?;
    let mut last = from;
    for _piece in 0..count {
        last = last.further(audited, many);
        pieces.push(Piece {
            to: last,
            text: None,
        })?;
    }
    Ok(pieces)
}

/// Prints pieces that begin here, each in a thread of its own. All threads are started here, and this one only waits: the
/// first that is started may be given this thread's processor.
#[cycle(pieces)]
pub fn print_pieces<R: Threads>(
    rt: &R,
    alloc: Global,
    job: &Job,
    audited: &Audited,
    from: Place,
    pieces: &mut [Piece],
    many: usize,
)
    requires audited { IsAudited (plan job.now) audited.now }
    requires plain { chained_in audited.now ≡ false }
    requires pieces { ArePieces (plan job.now) audited.now from pieces.old }
    ensures { ArePieces (plan job.now) audited.now from pieces.new }
{
    let Some((piece, others)) = pieces.split_first_mut() else {
        return;
    };
    let to = piece.to;
    let mut beside = ||
        requires { IsAudited (plan job.now) audited.now × (chained_in audited.now ≡ false)
            × Leads audited.now from piece.now.to }
        ensures { (piece.exit.now.to ≡ piece.entry.now.to)
            × HasText (plan job.entry.now) audited.entry.now from piece.exit.now }
    { piece.print(alloc, job, audited, from, many) };
    let mut here = ||
        requires { IsAudited (plan job.now) audited.now × (chained_in audited.now ≡ false)
            × ArePieces (plan job.now) audited.now to others.now }
        ensures { ArePieces (plan job.entry.now) audited.entry.now to others.exit.now }
    { print_pieces(rt, alloc, job, audited, to, others, many) };
    join_mut(rt, &mut beside, &mut here);
}
