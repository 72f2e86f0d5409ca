//! A run's timeline, beside the answer.

ghost use Rattle.std.specs.Prelude.{◌≡◌, Err, OnOk};
ghost use Rattle.std.specs.Io.KnownBytes.{Appends};
ghost use Rattle.hq_timeline.specs.Printed.{text_of};
ghost use Rattle.hq_engines.specs.Recording.{contents_in};

use hq_events::Journal;
use hq_timeline::{PrintFault, print};
use std::alloc::Global;
use std::io::Write;

/// Writes the text of a journal, where there is a writer for it. All memory is taken before the first byte is written.
///
/// # Errors
///
/// `Memory`, and then nothing is written; `Writer` where the writer failed.
pub fn write_timeline<T: Write>(
    alloc: Global,
    timeline: &mut Option<T>,
    journal: &Journal,
) -> Result<(), PrintFault>
    ensures written { OnOk result
        (Appends (contents_in T.contents timeline.old) (contents_in T.contents timeline.new) (text_of journal.now)) }
    ensures unwritten { result ≡ Err PrintFault.Memory → timeline.new ≡ timeline.old }
{
    match timeline {
        Some(writer) => print(alloc, journal, writer),
        None => Ok(()),
    }
}
