//! The lines that say what packets are.

ghost use Rattle.std.specs.Prelude.{◌≡◌, OnOk, Some, slice_get};
ghost use Rattle.std.specs.Io.KnownBytes.{Appends};
ghost use Rattle.hq_explain.specs.Texts.{head_text, ordered_text, packet_line, packet_text, place_text};
ghost use Rattle.hq_explain.specs.Texts.{standing_of, standing_text, title};

use hq_graph::{Work, work_of};
use hq_job::Job;
use hq_packet::Packet;
use hq_report::KindWord;
use hq_tables::Queue;
use std::io::Write;
use std::{fmt, io};

/// A packet, what it does, and where it stands: its place in its queue, and that queue.
#[derive(Clone, Copy)]
pub struct Standing {
    pub packet: Packet,
    pub work: Work,
    pub place: usize,
    pub queue: Option<Queue>,
}

/// Where a packet stands in its queue.
#[derive(Clone, Copy)]
struct PlaceText {
    place: usize,
    queue: Option<Queue>,
}

impl fmt::Display for PlaceText {
    ghost output = { λ p. Some (place_text p.place p.queue) };

    fn fmt<W: fmt::Write>(&self, f: &mut fmt::Formatter<W>) -> fmt::Result {
        let place = self.place;
        match self.queue {
            Some(queue) => {
                let name = queue.name;
                write!(f, ", place {place} of queue {name}")
            }
            None => f.write_str(""),
        }
    }
}

impl fmt::Display for Standing {
    ghost output = { λ s. Some (standing_text s) };

    fn fmt<W: fmt::Write>(&self, f: &mut fmt::Formatter<W>) -> fmt::Result {
        let kind = KindWord(self.packet);
        let work = self.work;
        let place = PlaceText {
            place: self.place,
            queue: self.queue,
        };
        write!(f, "{kind}{work}{place}")
    }
}

/// The line that says what a packet is, if there is such a packet.
#[derive(Clone, Copy)]
struct PacketLine {
    p: usize,
    standing: Option<Standing>,
}

impl fmt::Display for PacketLine {
    ghost output = { λ l. Some (packet_text l.p l.standing) };

    fn fmt<W: fmt::Write>(&self, f: &mut fmt::Formatter<W>) -> fmt::Result {
        let p = self.p;
        match self.standing {
            Some(standing) => write!(f, "  packet {p}: {standing}\n"),
            None => f.write_str(""),
        }
    }
}

/// The queue of a number.
fn queue_of(job: &Job, queue: usize) -> Option<Queue>
    ensures { result ≡ slice_get job.now.queues queue }
{
    let queue = job.queues().get(queue)?;
    Some(*queue)
}

/// What a packet is, and where it stands.
fn standing_of(job: &Job, p: usize) -> Option<Standing>
    ensures { result ≡ standing_of job.now p (slice_get job.now.packets p) }
{
    let placed = job.packets().get(p)?;
    Some(Standing {
        packet: placed.packet,
        work: work_of(job, &placed.packet),
        place: job.place_in_queue(p),
        queue: queue_of(job, placed.queue as usize),
    })
}

/// The line of packet p.
fn packet_line(job: &Job, p: usize) -> PacketLine
    ensures { packet_text result.p result.standing ≡ packet_line job.now p }
{
    PacketLine {
        p,
        standing: standing_of(job, p),
    }
}

/// Whether two packets are ordered, in words.
fn ordered_word(ordered: bool) -> &'static str
    ensures { result.now ≡ ordered_text ordered }
{
    if ordered { "ordered" } else { "not ordered" }
}

/// Two packets, and whether they are ordered.
#[derive(Clone, Copy, Debug)]
struct Title {
    a: usize,
    b: usize,
    ordered: bool,
}

impl fmt::Display for Title {
    ghost output = { λ t. Some (title t.a t.b t.ordered) };

    fn fmt<W: fmt::Write>(&self, f: &mut fmt::Formatter<W>) -> fmt::Result {
        let pair = PairWords {
            a: self.a,
            b: self.b,
        };
        let ordered = ordered_word(self.ordered);
        write!(f, "{pair}: {ordered}\n")
    }
}

/// Two packets, by number.
#[derive(Clone, Copy, Debug)]
pub struct PairWords {
    pub a: usize,
    pub b: usize,
}

impl fmt::Display for PairWords {
    ghost use Rattle.hq_explain.specs.Texts.{pair_text};

    ghost output = { λ p. Some (pair_text p.a p.b) };

    fn fmt<W: fmt::Write>(&self, f: &mut fmt::Formatter<W>) -> fmt::Result {
        let a = self.a;
        let b = self.b;
        write!(f, "packets {a} and {b}")
    }
}

/// Writes two packets, whether they are ordered, and what each is.
pub fn write_head<W: Write>(
    writer: &mut W,
    job: &Job,
    a: usize,
    b: usize,
    ordered: bool,
) -> io::Result<()>
    ensures { OnOk result (Appends (W.contents writer.old) (W.contents writer.new) (head_text job.now a b ordered)) }
{
    let title = Title { a, b, ordered };
    let first = packet_line(job, a);
    let second = packet_line(job, b);
    write!(writer, "{title}{first}{second}")
}
