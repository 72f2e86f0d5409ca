//! The line of packets that can never complete.

ghost use Rattle.std.specs.Prelude.{OnOk};
ghost use Rattle.std.specs.Io.KnownBytes.{Appends};
ghost use Rattle.hq_status.specs.Reports.{Said};
ghost use Rattle.hq_judging.specs.Audit.{numbers_text, stuck_text};

use hq_status::Status;
use std::io;
use std::io::Write;

/// Writes numbers, each behind a space.
fn write_numbers<W: Write>(writer: &mut W, numbers: &[u16]) -> io::Result<()>
    ensures { OnOk result (Appends (W.contents writer.old) (W.contents writer.new) (numbers_text numbers.now)) }
{
    for number in numbers {
        write!(writer, " {number}")?;
    }
    Ok(())
}

fn write_stuck<W: Write>(writer: &mut W, packets: &[u16]) -> io::Result<()>
    ensures { OnOk result (Appends (W.contents writer.old) (W.contents writer.new) (stuck_text packets.now)) }
{
    writer.write_all(b"stuck")?;
    write_numbers(writer, packets)?;
    writer.write_all(b"\n")
}

/// Writes the packets that can never complete. It takes no memory.
pub fn say_stuck<W: Write>(writer: &mut W, packets: &[u16]) -> Status
    ensures { Said (W.contents writer.old) (W.contents writer.new) (stuck_text packets.now) Status.Stuck result }
{
    match write_stuck(writer, packets) {
        Ok(()) => Status::Stuck,
        Err(_) => Status::File,
    }
}
