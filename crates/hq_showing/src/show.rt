//! `hsaq show`: a job's packets, one line each.

ghost use Rattle.std.specs.Prelude.{◌<◌, OnOk, length, All};
ghost use Rattle.std.specs.Io.KnownBytes.{Appends};
ghost use Rattle.hq_status.specs.Reports.{JobTextReport, ReaderReport, Reported, Said};
ghost use Rattle.hq_showing.specs.Show.{packets_text, packet_line, show_text, ShowReport};

use hq_job::Job;
use hq_report::ShownPacket;
use hq_status::{Status, take_job};
use hq_tables::{Placed, Queue};
use std::alloc::Global;
use std::io;
use std::io::{Read, Write};

/// Writes a packet's line.
fn show_packet<W: Write>(
    writer: &mut W,
    queues: &[Queue],
    number: usize,
    placed: &Placed,
) -> io::Result<()>
    requires { placed.now.queue < length queues.now }
    ensures { OnOk result
        (Appends (W.contents writer.old) (W.contents writer.new) (packet_line queues.now number placed.now)) }
{
    let queue = queues[placed.queue as usize].name;
    let shown = ShownPacket {
        number,
        queue,
        placed: *placed,
    };
    writeln!(writer, "{shown}")
}

/// Writes the packets' lines.
fn show_packets<W: Write>(writer: &mut W, queues: &[Queue], packets: &[Placed]) -> io::Result<()>
    requires { All (λ p. p.queue < length queues.now) packets.now }
    ensures { OnOk result
        (Appends (W.contents writer.old) (W.contents writer.new) (packets_text queues.now 0 packets.now)) }
{
    for (number, placed) in packets.iter().enumerate() {
        show_packet(writer, queues, number, placed)?;
    }
    Ok(())
}

/// Writes the packets' lines, and how many there are.
fn show_job<W: Write>(writer: &mut W, job: &Job) -> io::Result<()>
    ensures { OnOk result (Appends (W.contents writer.old) (W.contents writer.new) (show_text job.now)) }
{
    job.valid();
    let packets = job.packets();
    show_packets(writer, job.queues(), packets)?;
    let count = packets.len();
    writeln!(writer, "packets {count}")
}

/// Writes a job's packets, and answers the status.
fn show_found<W: Write>(writer: &mut W, job: &Job) -> Status
    ensures { Said (W.contents writer.old) (W.contents writer.new) (show_text job.now) Status.Done result }
{
    match show_job(writer, job) {
        Ok(()) => Status::Done,
        Err(_) => Status::File,
    }
}

/// Reads a job and writes its packets, one line each, and how many there are. It takes no memory once the job is read.
pub fn show_engine<R: Read, W: Write>(alloc: Global, reader: &mut R, writer: &mut W) -> Status
    ensures { Reported (ReaderReport R R.remaining reader.old reader.new (JobTextReport ShowReport))
        (W.contents writer.old) (W.contents writer.new) result }
{
    match take_job(alloc, reader, writer) {
        Ok(job) => {
            let status = show_found(writer, &job);
            job.let_go();
            status
        }
        Err(status) => status,
    }
}
