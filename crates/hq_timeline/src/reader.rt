//! Journals from readers.

ghost use Rattle.std.specs.Prelude.{◌⊎◌, List, IfOk, IfErr, IfSome};
ghost use Rattle.hq_text.specs.Intake.{FaultOf, GivesUnlessRead, OfText};
ghost use Rattle.hq_text.specs.Lines.{lines_of};
ghost use Rattle.hq_text.specs.Turns.{Fails, Passes, ReadTurn};
ghost use Rattle.hq_events.specs.declared.event.Event.{Event};
ghost use Rattle.hq_timeline.specs.Gives.{HasFault, no_memory};
ghost use Rattle.hq_timeline.specs.Grammar.{TimeText};

use crate::fault::TimeFault;
use crate::progress::Progress;
use hq_machine::Journal;
use hq_text::{ReadFault, Source, TURNS, read_lines};
use std::alloc::Global;
use std::io::Read;

/// What a source gives up to its end, as a journal.
fn read_source<S: Source>(alloc: Global, source: &mut S) -> Result<Journal, ReadFault<TimeFault>>
    ensures found { IfOk result
        (λ journal. OfText S S.Turned TURNS source.old source.new (λ text. TimeText (lines_of text) journal)) }
    ensures fault { IfErr result
        (λ e. FaultOf e (λ f. OfText S S.Turned TURNS source.old source.new (λ text. HasFault (lines_of text) f))
        (Fails S S.Turned TURNS source.old source.new ⊎ Passes S S.Turned TURNS source.old source.new)) }
{
    match read_lines(alloc, source, Progress::new(alloc)) {
        Ok(progress) => progress.finish().map_err(ReadFault::Text),
        Err(fault) => Err(fault),
    }
}

/// The journal that a reader's text is, or the first faulty line, as `parse` tells them of the whole text. Of the
/// text no more is held than what waits for the end of its line, and some 64 KiB. The reader gives the text in at
/// most 2,000,000 turns of at most 512 bytes; where it fails, in any way, or passes its turns, that is the fault,
/// also behind a faulty line.
///
/// # Errors
///
/// `ReadFault::Text` with the first faulty line, or that there is no memory, at line 0; `ReadFault::Reader` where
/// the reader failed or passed its turns.
pub fn read<R: Read>(alloc: Global, reader: &mut R) -> Result<Journal, ReadFault<TimeFault>>
    ensures found { IfSome (R.remaining reader.old)
        (λ text. IfOk result (λ journal. TimeText (lines_of text) journal)) }
    ensures only { IfSome (R.remaining reader.old)
        (λ text. (events : List Event) → TimeText (lines_of text) events → GivesUnlessRead no_memory result events) }
    ensures fault { IfSome (R.remaining reader.old)
        (λ text. IfErr result (λ e. FaultOf e (λ f. HasFault (lines_of text) f) (Unit {0}))) }
    // The same of the turns that the reader was asked.
    ensures turned { IfOk result
        (λ journal. OfText R (ReadTurn R.remaining) TURNS reader.old reader.new
        (λ text. TimeText (lines_of text) journal)) }
    ensures failed { IfErr result
        (λ e. FaultOf e
        (λ f. OfText R (ReadTurn R.remaining) TURNS reader.old reader.new (λ text. HasFault (lines_of text) f))
        (Fails R (ReadTurn R.remaining) TURNS reader.old reader.new
        ⊎ Passes R (ReadTurn R.remaining) TURNS reader.old reader.new)) }
{
    read_source(alloc, reader)
}
