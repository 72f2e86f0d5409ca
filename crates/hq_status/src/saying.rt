//! Writing a report's lines.

ghost use Rattle.std.specs.Prelude.{IfSome, codes};
ghost use Rattle.hq_status.specs.Reports.{Said, with_feed};

use crate::status::Status;
use std::fmt::Display;
use std::io::Write;

/// Writes a line, and answers the status; where the writer fails that is `File`. It takes no memory.
pub fn say<W: Write, D: Display + Drop>(writer: &mut W, line: D, status: Status) -> Status
    ensures { IfSome (D.output line)
        (λ text. Said (W.contents writer.old) (W.contents writer.new) (with_feed text) status result) }
{
    match writeln!(writer, "{line}") {
        Ok(()) => status,
        Err(_) => Status::File,
    }
}

/// Writes that memory ran out.
pub fn say_memory<W: Write>(writer: &mut W) -> Status
    ensures { Said (W.contents writer.old) (W.contents writer.new)
        (with_feed (codes "out of memory")) Status.Memory result }
{
    say(writer, "out of memory", Status::Memory)
}

/// Writes that a file or a stream failed.
pub fn say_file<W: Write>(writer: &mut W) -> Status
    ensures { Said (W.contents writer.old) (W.contents writer.new) (with_feed (codes "file fault")) Status.File result }
{
    say(writer, "file fault", Status::File)
}

/// Writes that a file can't be opened or made.
pub fn say_unopened<W: Write>(writer: &mut W) -> Status
    ensures { Said (W.contents writer.old) (W.contents writer.new)
        (with_feed (codes "file fault")) Status.Unopened result }
{
    say(writer, "file fault", Status::Unopened)
}

/// Writes a whole text, and answers `Done`; where the writer fails that is `File`. It takes no memory.
pub fn say_text<W: Write>(writer: &mut W, text: &[u8]) -> Status
    ensures { Said (W.contents writer.old) (W.contents writer.new) text.now Status.Done result }
{
    match writer.write_all(text) {
        Ok(()) => Status::Done,
        Err(_) => Status::File,
    }
}
