//! Journals to texts.

ghost use Rattle.std.specs.Prelude.{◌≡◌, map, IfOk, OnOk, Err, []};
ghost use Rattle.std.specs.List.{AllByRecursion};
ghost use Rattle.hq_text.specs.Lines.{lines_of};
ghost use Rattle.std.specs.Io.KnownBytes.{Appends, append_known};
ghost use Rattle.hq_timeline.specs.Grammar.{EventFits, TimeText, head_words, event_words};
ghost use Rattle.hq_text.specs.Printed.{line_text, lines_text};
ghost use Rattle.hq_timeline.specs.Printed.{text_of};

use crate::pen::Pen;
use hq_machine::{Event, Journal};
use std::alloc::{AllocError, Global};
use std::io::{self, Write};
use thiserror::Error;

/// How many bytes are gathered before they are written.
const ROOM: usize = 65_536;

/// Writes what was put, where that is much.
fn spill<W: Write>(pen: &mut Pen, writer: &mut W) -> io::Result<()>
    ensures { OnOk result
        (Appends (append_known (W.contents writer.old) pen.old.bytes.items)
        (append_known (W.contents writer.new) pen.new.bytes.items) []) }
{
    if pen.bytes().len() >= ROOM {
        writer.write_all(pen.bytes())?;
        pen.clear();
    }
    Ok(())
}

fn write_events<W: Write>(pen: &mut Pen, events: &[Event], writer: &mut W) -> io::Result<()>
    ensures written { OnOk result
        (Appends (append_known (W.contents writer.old) pen.old.bytes.items)
        (append_known (W.contents writer.new) pen.new.bytes.items) (lines_text (map event_words events.now))) }
    ensures fits { OnOk result (AllByRecursion EventFits events.now) }
{
    for event in events {
        pen.put_event(*event)?;
        spill(pen, writer)?;
    }
    Ok(())
}

/// Why a journal wasn't printed: there was no memory, and nothing was written; or the writer failed.
#[derive(Clone, Copy, Debug, PartialEq, Eq, Error)]
pub enum PrintFault {
    #[error("out of memory")]
    Memory,
    #[error("the writer failed")]
    Writer,
}

/// The first line, put into a buffer.
fn begun(alloc: Global) -> Result<Pen, AllocError>
    ensures { IfOk result (λ pen. pen.bytes.items ≡ line_text head_words) }
{
    let mut pen = Pen::new(alloc, 2 * ROOM)?;
    pen.put_head()?;
    Ok(pen)
}

/// Writes what was put, and the rest of a journal.
fn finish<W: Write>(pen: &mut Pen, journal: &Journal, writer: &mut W) -> io::Result<()>
    requires { pen.old.bytes.items ≡ line_text head_words }
    ensures written { OnOk result (Appends (W.contents writer.old) (W.contents writer.new) (text_of journal.now)) }
    ensures fits { OnOk result (AllByRecursion EventFits journal.now) }
{
    write_events(pen, journal.events(), writer)?;
    pen.put_end()?;
    writer.write_all(pen.bytes())
}

/// Writes the text of a journal. All memory is taken before the first byte is written. The writer is not flushed;
/// where it fails a part of the text may be written.
///
/// # Errors
///
/// `Memory`, and then nothing is written; `Writer` where the writer failed.
pub fn print<W: Write>(alloc: Global, journal: &Journal, writer: &mut W) -> Result<(), PrintFault>
    ensures written { OnOk result (Appends (W.contents writer.old) (W.contents writer.new) (text_of journal.now)) }
    // What was written is the text of this journal, and so is read as the same journal.
    ensures read_back { OnOk result (TimeText (lines_of (text_of journal.now)) journal.now) }
    ensures unwritten { result ≡ Err PrintFault.Memory → writer.new ≡ writer.old }
{
    let mut pen = match begun(alloc) {
        Ok(pen) => pen,
        Err(_) => return Err(PrintFault::Memory),
    };
    match finish(&mut pen, journal, writer) {
        Ok(()) => Ok(()),
        Err(_) => Err(PrintFault::Writer),
    }
}
