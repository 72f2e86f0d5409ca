//! Packets as `show` prints them.

ghost use Rattle.std.specs.Prelude.{Some, ◌≡◌, [], ◌∷◌, ◌||◌, ◌==◌, not, codes, if◌then◌else◌};

use hq_footprint::Range;
use hq_packet::{Packet, Scope};
use hq_tables::Placed;
use hq_text::Name;
use std::fmt;

/// A scope's word: none, agent or system.
#[derive(Clone, Copy, Debug)]
pub struct ScopeWord(pub Scope);

impl fmt::Display for ScopeWord {
    ghost use Rattle.hq_report.specs.Shown.{scope_word};

    ghost output = { λ s. Some (scope_word s.0) };

    fn fmt<W: fmt::Write>(&self, f: &mut fmt::Formatter<W>) -> fmt::Result {
        match self.0 {
            Scope::None => f.write_str("none"),
            Scope::Agent => f.write_str("agent"),
            Scope::System => f.write_str("system"),
        }
    }
}

/// A range as `AT+LEN`.
#[derive(Clone, Copy, Debug)]
struct RangeText(Range);

impl fmt::Display for RangeText {
    ghost use Rattle.hq_report.specs.Shown.{range_text};

    ghost output = { λ r. Some (range_text r.0) };

    fn fmt<W: fmt::Write>(&self, f: &mut fmt::Formatter<W>) -> fmt::Result {
        write!(f, "{}+{}", self.0.at, self.0.len)
    }
}

/// Two ranges, joined by a comma; one without a byte is left out.
#[derive(Clone, Copy, Debug)]
struct TwoRanges(Range, Range);

impl fmt::Display for TwoRanges {
    ghost use Rattle.hq_report.specs.Shown.{ranges_text};

    ghost output = { λ r. Some (ranges_text (r.0 ∷ r.1 ∷ [])) };

    fn fmt<W: fmt::Write>(&self, f: &mut fmt::Formatter<W>) -> fmt::Result {
        let first = RangeText(self.0);
        let second = RangeText(self.1);
        match (self.0.len, self.1.len) {
            (0, 0) => f.write_str("-"),
            (0, _) => write!(f, "{second}"),
            (_, 0) => write!(f, "{first}"),
            _ => write!(f, "{first},{second}"),
        }
    }
}

/// A handle behind a comma where another stands before it; nothing where it is 0.
#[derive(Clone, Copy, Debug)]
struct HandleItem {
    comma: bool,
    handle: u64,
}

impl fmt::Display for HandleItem {
    ghost use Rattle.hq_report.specs.Shown.{handle_item};

    ghost output = { λ i. Some (handle_item i.comma i.handle) };

    fn fmt<W: fmt::Write>(&self, f: &mut fmt::Formatter<W>) -> fmt::Result {
        let handle = self.handle;
        if handle == 0 {
            f.write_str("")
        } else if self.comma {
            write!(f, ",{handle}")
        } else {
            write!(f, "{handle}")
        }
    }
}

/// Whether a handle stood before, or this is one.
fn has_handle(before: bool, handle: u64) -> bool
    ensures { result ≡ (before || not (handle == 0)) }
{
    before || handle != 0
}

/// The five, one by one.
fn five(handles: [u64; 5]) -> (u64, u64, u64, u64, u64)
    ensures { handles ≡ result.0 ∷ result.1 ∷ result.2 ∷ result.3 ∷ result.4 ∷ [] }
{
    let [a, b, c, d, e] = handles;
    (a, b, c, d, e)
}

/// The dependencies that aren't null, in slot order, joined by commas.
#[derive(Clone, Copy, Debug)]
struct Handles([u64; 5]);

impl fmt::Display for Handles {
    ghost use Rattle.hq_report.specs.Shown.{handles_text};

    ghost output = { λ h. Some (handles_text h.0) };

    fn fmt<W: fmt::Write>(&self, f: &mut fmt::Formatter<W>) -> fmt::Result {
        let (a, b, c, d, e) = five(self.0);
        let second = has_handle(false, a);
        let third = has_handle(second, b);
        let fourth = has_handle(third, c);
        let fifth = has_handle(fourth, d);
        if !has_handle(fifth, e) {
            return f.write_str("-");
        }
        let a = HandleItem {
            comma: false,
            handle: a,
        };
        let b = HandleItem {
            comma: second,
            handle: b,
        };
        let c = HandleItem {
            comma: third,
            handle: c,
        };
        let d = HandleItem {
            comma: fourth,
            handle: d,
        };
        let e = HandleItem {
            comma: fifth,
            handle: e,
        };
        write!(f, "{a}{b}{c}{d}{e}")
    }
}

/// What a packet does: the ranges that it reads and writes, or the dependencies that it waits for.
#[derive(Clone, Copy, Debug)]
struct Doing(Placed);

impl fmt::Display for Doing {
    ghost use Rattle.hq_report.specs.Shown.{doing_text};

    ghost output = { λ d. Some (doing_text d.0) };

    fn fmt<W: fmt::Write>(&self, f: &mut fmt::Formatter<W>) -> fmt::Result {
        let [first, second] = self.0.work.foot.reads;
        let reads = TwoRanges(first, second);
        let writes = TwoRanges(self.0.work.foot.write, Range::new(0, 0));
        match self.0.packet {
            Packet::Kernel(_) | Packet::Agent(_) => write!(f, "reads {reads} writes {writes}"),
            Packet::And(barrier) | Packet::Or(barrier) => {
                let handles = Handles(barrier.deps);
                write!(f, "deps {handles}")
            }
        }
    }
}

/// A packet's kind: kernel, agent, and, or.
#[derive(Clone, Copy, Debug)]
pub struct KindWord(pub Packet);

impl fmt::Display for KindWord {
    ghost use Rattle.hq_report.specs.Shown.{kind_word};

    ghost output = { λ k. Some (kind_word k.0) };

    fn fmt<W: fmt::Write>(&self, f: &mut fmt::Formatter<W>) -> fmt::Result {
        match self.0 {
            Packet::Kernel(_) => f.write_str("kernel"),
            Packet::Agent(_) => f.write_str("agent"),
            Packet::And(_) => f.write_str("and"),
            Packet::Or(_) => f.write_str("or"),
        }
    }
}

/// The barrier bit's word: bit, or `-` where it isn't set.
fn bit_word(bit: bool) -> &'static str
    ensures { result.now ≡ (if bit then codes "bit" else codes "-") }
{
    if bit { "bit" } else { "-" }
}

/// The words of a packet's head and its completion signal's handle.
#[derive(Clone, Copy, Debug)]
struct HeadText(Packet);

impl fmt::Display for HeadText {
    ghost use Rattle.hq_report.specs.Shown.{head_text};

    ghost output = { λ h. Some (head_text h.0) };

    fn fmt<W: fmt::Write>(&self, f: &mut fmt::Formatter<W>) -> fmt::Result {
        let head = self.0.head();
        let bit = bit_word(head.barrier);
        let acquire = ScopeWord(head.acquire);
        let release = ScopeWord(head.release);
        let done = self.0.completion();
        write!(f, "{bit} {acquire} {release} {done}")
    }
}

/// A packet apart from its place: its kind, its head, and what it does.
#[derive(Clone, Copy, Debug)]
struct PlacedText(Placed);

impl fmt::Display for PlacedText {
    ghost use Rattle.hq_report.specs.Shown.{placed_text};

    ghost output = { λ p. Some (placed_text p.0) };

    fn fmt<W: fmt::Write>(&self, f: &mut fmt::Formatter<W>) -> fmt::Result {
        let kind = KindWord(self.0.packet);
        let head = HeadText(self.0.packet);
        let doing = Doing(self.0);
        write!(f, "{kind} {head} {doing}")
    }
}

/// A packet as `show` prints it: its number, its queue's name, what its header says, its completion signal's
/// handle, and what it reads and writes or waits for.
#[derive(Clone, Copy, Debug)]
pub struct ShownPacket {
    pub number: usize,
    pub queue: Name,
    pub placed: Placed,
}

impl fmt::Display for ShownPacket {
    ghost use Rattle.hq_report.specs.Shown.{packet_text};

    ghost output = { λ s. Some (packet_text s.number s.queue s.placed) };

    fn fmt<W: fmt::Write>(&self, f: &mut fmt::Formatter<W>) -> fmt::Result {
        let number = self.number;
        let queue = self.queue;
        let placed = PlacedText(self.placed);
        write!(f, "packet {number} {queue} {placed}")
    }
}
