//! Refusals by their codes.

ghost use Rattle.std.specs.Prelude.{Some};

use hq_footprint::FootFault;
use hq_jobtext::JobFault;
use hq_packet::PacketFault;
use hq_tables::Reason;
use std::fmt;

/// A packet fault by its code: P1 to P9, P6 with the offset of the field.
#[derive(Clone, Copy, Debug)]
pub struct PacketCode(pub PacketFault);

impl fmt::Display for PacketCode {
    ghost use Rattle.hq_report.specs.Texts.{packet_code};

    ghost output = { λ c. Some (packet_code c.0) };

    fn fmt<W: fmt::Write>(&self, f: &mut fmt::Formatter<W>) -> fmt::Result {
        match self.0 {
            PacketFault::ReservedFormat => f.write_str("P1"),
            PacketFault::Vendor => f.write_str("P2"),
            PacketFault::Invalid => f.write_str("P3"),
            PacketFault::HeaderReserved => f.write_str("P4"),
            PacketFault::FenceScope => f.write_str("P5"),
            PacketFault::ReservedField(offset) => write!(f, "P6 {offset}"),
            PacketFault::Dimensions => f.write_str("P7"),
            PacketFault::ZeroSize => f.write_str("P8"),
            PacketFault::UnusedNotOne => f.write_str("P9"),
        }
    }
}

/// The refusal of a packet: `refused` and the fault's code.
#[derive(Clone, Copy, Debug)]
pub struct PacketRefusal(pub PacketFault);

impl fmt::Display for PacketRefusal {
    ghost use Rattle.hq_report.specs.Texts.{packet_refusal};

    ghost output = { λ r. Some (packet_refusal r.0) };

    fn fmt<W: fmt::Write>(&self, f: &mut fmt::Formatter<W>) -> fmt::Result {
        write!(f, "refused {}", PacketCode(self.0))
    }
}

/// A footprint fault by its code: F1 to F4.
#[derive(Clone, Copy, Debug)]
pub struct FootCode(pub FootFault);

impl fmt::Display for FootCode {
    ghost use Rattle.hq_report.specs.Texts.{foot_code};

    ghost output = { λ c. Some (foot_code c.0) };

    fn fmt<W: fmt::Write>(&self, f: &mut fmt::Formatter<W>) -> fmt::Result {
        match self.0 {
            FootFault::Overflow => f.write_str("F1"),
            FootFault::OutsideBuffer => f.write_str("F2"),
            FootFault::ArgsShort => f.write_str("F3"),
            FootFault::Service => f.write_str("F4"),
        }
    }
}

/// The reason of a job's refusal by its code, J1 to J21, and with its detail: a packet's or a footprint's code, or a
/// signal's handle.
#[derive(Clone, Copy, Debug)]
pub struct ReasonCode(pub Reason);

impl fmt::Display for ReasonCode {
    ghost use Rattle.hq_report.specs.Texts.{reason_code};

    ghost output = { λ c. Some (reason_code c.0) };

    fn fmt<W: fmt::Write>(&self, f: &mut fmt::Formatter<W>) -> fmt::Result {
        match self.0 {
            Reason::Byte => f.write_str("J1"),
            Reason::Word => f.write_str("J2"),
            Reason::Number => f.write_str("J3"),
            Reason::Limit => f.write_str("J4"),
            Reason::Duplicate => f.write_str("J5"),
            Reason::Unknown => f.write_str("J6"),
            Reason::BufferOverlap => f.write_str("J7"),
            Reason::Packet(fault) => write!(f, "J8 {}", PacketCode(fault)),
            Reason::Hex => f.write_str("J9"),
            Reason::QueueSize => f.write_str("J10"),
            Reason::QueueFull => f.write_str("J11"),
            Reason::Handle => f.write_str("J12"),
            Reason::Footprint(fault) => write!(f, "J13 {}", FootCode(fault)),
            Reason::NullOr => f.write_str("J14"),
            Reason::Undershoot(handle) => write!(f, "J15 {handle}"),
            Reason::NeverZero(handle) => write!(f, "J16 {handle}"),
            Reason::Service => f.write_str("J17"),
            Reason::NoEnd => f.write_str("J18"),
            Reason::Items => f.write_str("J19"),
            Reason::Read => f.write_str("J20"),
            Reason::Memory => f.write_str("J21"),
        }
    }
}

/// The refusal of a job text: `refused line`, the line, and the reason's code.
#[derive(Clone, Copy, Debug)]
pub struct JobRefusal(pub JobFault);

impl fmt::Display for JobRefusal {
    ghost use Rattle.hq_report.specs.Texts.{job_refusal};

    ghost output = { λ r. Some (job_refusal r.0) };

    fn fmt<W: fmt::Write>(&self, f: &mut fmt::Formatter<W>) -> fmt::Result {
        write!(
            f,
            "refused line {} {}",
            self.0.line,
            ReasonCode(self.0.reason)
        )
    }
}
