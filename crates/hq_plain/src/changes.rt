//! Which parts of heads a job was given anew, in plain words.

ghost use Rattle.std.specs.Prelude.{◌≡◌, ◌&&◌, not, Some};
ghost use Rattle.hq_job.specs.Plan.{plan};
ghost use Rattle.hq_model.specs.Job.{IsPacket};
ghost use Rattle.hq_plain.specs.Changes.{IsPlaceOf, place_words, bit_line, is_other, fence_line, head_lines};
ghost use Rattle.hq_plain.specs.Changes.{is_dropped, is_lowered, heads_where, lowered_of, lowered_words};

use hq_job::Job;
use hq_packet::{Head, Scope};
use hq_report::ScopeWord;
use hq_tables::Placed;
use hq_text::Name;
use std::fmt;

/// Where a packet stands: its number, the name of its queue, and its place there.
#[derive(Clone, Copy)]
pub struct Place {
    pub packet: usize,
    pub queue: Name,
    pub place: usize,
}

impl Place {
    /// Where a packet of a job stands.
    pub fn of(job: &Job, packet: usize) -> Place
        requires { IsPacket (plan job.now) packet }
        ensures { IsPlaceOf job.now packet result }
    {
        job.valid();
        let queue = job.packet(packet).queue as usize;
        Place {
            packet,
            queue: job.queues()[queue].name,
            place: job.place_in_queue(packet),
        }
    }
}

impl fmt::Display for Place {
    ghost output = { λ p. Some (place_words p) };

    fn fmt<W: fmt::Write>(&self, f: &mut fmt::Formatter<W>) -> fmt::Result {
        let Place {
            packet,
            queue,
            place,
        } = *self;
        write!(f, "packet {packet} (queue {queue}, place {place})")
    }
}

/// The line that a packet's barrier bit is another, where it is.
#[derive(Clone, Copy)]
struct BitLine {
    place: Place,
    old: bool,
    new: bool,
}

impl fmt::Display for BitLine {
    ghost output = { λ l. Some (bit_line l.place l.old l.new) };

    fn fmt<W: fmt::Write>(&self, f: &mut fmt::Formatter<W>) -> fmt::Result {
        let place = self.place;
        match (self.old, self.new) {
            (true, false) => write!(f, "hsaq: {place}: barrier bit dropped\n"),
            (false, true) => write!(f, "hsaq: {place}: barrier bit set\n"),
            _ => Ok(()),
        }
    }
}

/// Whether a scope is another.
fn is_other(old: Scope, new: Scope) -> bool
    ensures { result ≡ is_other old new }
{
    old != new
}

/// The line that a fence of a packet has another scope, where it has.
#[derive(Clone, Copy)]
struct FenceLine {
    place: Place,
    fence: &'static str,
    old: Scope,
    new: Scope,
}

impl fmt::Display for FenceLine {
    ghost output = { λ l. Some (fence_line l.place l.fence.now l.old l.new) };

    fn fmt<W: fmt::Write>(&self, f: &mut fmt::Formatter<W>) -> fmt::Result {
        if !is_other(self.old, self.new) {
            return Ok(());
        }
        let FenceLine { place, fence, .. } = *self;
        let old = ScopeWord(self.old);
        let new = ScopeWord(self.new);
        write!(f, "hsaq: {place}: {fence} {new} (was {old})\n")
    }
}

/// The lines that say what is other of a packet's head.
#[derive(Clone, Copy)]
pub struct HeadLines {
    pub place: Place,
    pub old: Head,
    pub new: Head,
}

impl fmt::Display for HeadLines {
    ghost output = { λ l. Some (head_lines l.place l.old l.new) };

    fn fmt<W: fmt::Write>(&self, f: &mut fmt::Formatter<W>) -> fmt::Result {
        let bit = BitLine {
            place: self.place,
            old: self.old.barrier,
            new: self.new.barrier,
        };
        let acquire = FenceLine {
            place: self.place,
            fence: "acquire",
            old: self.old.acquire,
            new: self.new.acquire,
        };
        let release = FenceLine {
            place: self.place,
            fence: "release",
            old: self.old.release,
            new: self.new.release,
        };
        write!(f, "{bit}{acquire}{release}")
    }
}

/// How many parts of heads a job goes without, and how many fences reach the agent in place of the system.
#[derive(Clone, Copy)]
pub struct Lowered {
    pub bits: usize,
    pub acquires: usize,
    pub releases: usize,
    pub fences: usize,
}

impl fmt::Display for Lowered {
    ghost output = { λ l. Some (lowered_words l) };

    fn fmt<W: fmt::Write>(&self, f: &mut fmt::Formatter<W>) -> fmt::Result {
        let Lowered {
            bits,
            acquires,
            releases,
            fences,
        } = *self;
        write!(
            f,
            "dropped: {bits} bits, {acquires} acquires, {releases} releases; {fences} fences lowered to agent scope"
        )
    }
}

/// Whether a fence is there no more.
fn is_dropped(old: Scope, new: Scope) -> bool
    ensures { result ≡ is_dropped old new }
{
    old != Scope::None && new == Scope::None
}

/// Whether a fence reaches the agent in place of the system.
fn is_lowered(old: Scope, new: Scope) -> bool
    ensures { result ≡ is_lowered old new }
{
    old == Scope::System && new == Scope::Agent
}

/// How many packets went without their barrier bit.
fn bits_dropped(olds: &[Head], packets: &[Placed]) -> usize
    ensures { result ≡ heads_where (λ old new. old.barrier && not new.barrier) olds.now packets.now }
{
    olds.iter()
        .zip(packets)
        .filter(|(old, placed)| old.barrier && !placed.packet.head().barrier)
        .count()
}

/// How many packets went without their acquire fence.
fn acquires_dropped(olds: &[Head], packets: &[Placed]) -> usize
    ensures { result ≡ heads_where (λ old new. is_dropped old.acquire new.acquire) olds.now packets.now }
{
    olds.iter()
        .zip(packets)
        .filter(|(old, placed)| is_dropped(old.acquire, placed.packet.head().acquire))
        .count()
}

/// How many packets went without their release fence.
fn releases_dropped(olds: &[Head], packets: &[Placed]) -> usize
    ensures { result ≡ heads_where (λ old new. is_dropped old.release new.release) olds.now packets.now }
{
    olds.iter()
        .zip(packets)
        .filter(|(old, placed)| is_dropped(old.release, placed.packet.head().release))
        .count()
}

/// How many acquire fences reach the agent in place of the system.
fn acquires_lowered(olds: &[Head], packets: &[Placed]) -> usize
    ensures { result ≡ heads_where (λ old new. is_lowered old.acquire new.acquire) olds.now packets.now }
{
    olds.iter()
        .zip(packets)
        .filter(|(old, placed)| is_lowered(old.acquire, placed.packet.head().acquire))
        .count()
}

/// How many release fences reach the agent in place of the system.
fn releases_lowered(olds: &[Head], packets: &[Placed]) -> usize
    ensures { result ≡ heads_where (λ old new. is_lowered old.release new.release) olds.now packets.now }
{
    olds.iter()
        .zip(packets)
        .filter(|(old, placed)| is_lowered(old.release, placed.packet.head().release))
        .count()
}

impl Lowered {
    /// What a job goes without of the heads that its packets had.
    pub fn of(olds: &[Head], job: &Job) -> Lowered
        ensures { result ≡ lowered_of olds.now job.now.packets }
    {
        job.valid();
        let packets = job.packets();
        Lowered {
            bits: bits_dropped(olds, packets),
            acquires: acquires_dropped(olds, packets),
            releases: releases_dropped(olds, packets),
            fences: acquires_lowered(olds, packets) + releases_lowered(olds, packets),
        }
    }
}
