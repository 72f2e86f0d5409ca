//! Faults of jobs and packets in plain words.

ghost use Rattle.std.specs.Prelude.{◌≡◌, Some};
ghost use Rattle.hq_plain.specs.Jobs.{packet_words, foot_words, plain_reason, detail_words, job_words};

use hq_footprint::FootFault;
use hq_jobtext::JobFault;
use hq_packet::PacketFault;
use hq_tables::Reason;
use std::fmt;

/// What is wrong with a packet.
#[derive(Clone, Copy, Debug)]
pub struct PacketWords(pub PacketFault);

impl fmt::Display for PacketWords {
    ghost output = { λ w. Some (packet_words w.0) };

    fn fmt<W: fmt::Write>(&self, f: &mut fmt::Formatter<W>) -> fmt::Result {
        match self.0 {
            PacketFault::ReservedFormat => f.write_str("a reserved format"),
            PacketFault::Vendor => f.write_str("a vendor-specific packet"),
            PacketFault::Invalid => f.write_str("an invalid packet"),
            PacketFault::HeaderReserved => f.write_str(
                "reserved bits of the header that aren't zero",
            ),
            PacketFault::FenceScope => f.write_str("a reserved fence scope"),
            PacketFault::ReservedField(offset) => {
                write!(f, "a reserved field that isn't zero, at byte {offset}")
            }
            PacketFault::Dimensions => f.write_str("a count of dimensions other than 1, 2 or 3"),
            PacketFault::ZeroSize => f.write_str("a used dimension of size zero"),
            PacketFault::UnusedNotOne => f.write_str(
                "an unused dimension of a size other than one",
            ),
        }
    }
}

/// What is wrong with a footprint.
#[derive(Clone, Copy, Debug)]
pub struct FootWords(pub FootFault);

impl fmt::Display for FootWords {
    ghost output = { λ w. Some (foot_words w.0) };

    fn fmt<W: fmt::Write>(&self, f: &mut fmt::Formatter<W>) -> fmt::Result {
        f.write_str(match self.0 {
            FootFault::Overflow => "a range that passes 2^64",
            FootFault::OutsideBuffer => "a range that isn't within one buffer",
            FootFault::ArgsShort => "a kernarg block shorter than the arguments",
            FootFault::Service => "an unknown type of service",
        })
    }
}

/// What is wrong with a job's line, without what is wrong with its packet or its footprint, and without the signal's
/// handle.
fn words_of_reason(reason: Reason) -> &'static str
    ensures { result.now ≡ plain_reason reason }
{
    match reason {
        Reason::Byte => "a byte that is neither printable ASCII nor a line feed",
        Reason::Word => {
            "an unknown or misplaced first word, a wrong count of words, a bad name or code, or a line behind `end`"
        }
        Reason::Number => "a word that is no number, or is out of its range",
        Reason::Limit => "one more than the limits allow",
        Reason::Duplicate => "a name, handle, object or address that its own kind has already",
        Reason::Unknown => "an agent or a queue that wasn't declared, or a packet before any queue",
        Reason::BufferOverlap => "a buffer that shares a byte with an earlier one",
        Reason::Packet(_) => "a packet that is refused",
        Reason::Hex => "a wrong digit, or a wrong count of digits",
        Reason::QueueSize => "a queue's size that is no power of two",
        Reason::QueueFull => "more packets than the queue has slots, which takes `hsaq 2`",
        Reason::Handle => "a kernel object, kernarg address or signal that wasn't declared",
        Reason::Footprint(_) => "a footprint that is refused",
        Reason::NullOr => "a barrier-OR whose dependencies are all null",
        Reason::Undershoot(_) => "more packets complete on a signal than it starts with",
        Reason::NeverZero(_) => {
            "fewer packets complete on a signal that a barrier packet waits on than it starts with"
        }
        Reason::Service => "an unknown type of service",
        Reason::NoEnd => "the text ends without `end`",
        Reason::Items => "more than 65,536 work-items",
        Reason::Read => "the reader failed or passed its turns",
        Reason::Memory => "out of memory",
    }
}

/// What is wrong with the packet or the footprint of a job's line, or the signal's handle.
#[derive(Clone, Copy, Debug)]
struct DetailWords(Reason);

impl fmt::Display for DetailWords {
    ghost output = { λ w. Some (detail_words w.0) };

    fn fmt<W: fmt::Write>(&self, f: &mut fmt::Formatter<W>) -> fmt::Result {
        match self.0 {
            Reason::Packet(fault) => write!(f, ": {}", PacketWords(fault)),
            Reason::Footprint(fault) => write!(f, ": {}", FootWords(fault)),
            Reason::Undershoot(handle) | Reason::NeverZero(handle) => write!(
                f,
                ", handle {handle}"
            ),
            _ => Ok(()),
        }
    }
}

/// The refusal of a job's text: the line, and what is wrong with it, its packet or its footprint, or the signal's
/// handle.
#[derive(Clone, Copy, Debug)]
pub struct JobWords(pub JobFault);

impl fmt::Display for JobWords {
    ghost output = { λ w. Some (job_words w.0) };

    fn fmt<W: fmt::Write>(&self, f: &mut fmt::Formatter<W>) -> fmt::Result {
        let line = self.0.line;
        let reason = words_of_reason(self.0.reason);
        let detail = DetailWords(self.0.reason);
        write!(f, "in the job, line {line}: {reason}{detail}")
    }
}
