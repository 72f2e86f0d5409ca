//! How commands end.

ghost use Rattle.std.specs.Prelude.{◌≡◌};
ghost use Rattle.hq_status.specs.Statuses.{code_of, code_of_found};

use hq_certread::CertFault;
use hq_finding::{Found, Kind, Why};
use hq_jobtext::JobFault;
use hq_packet::PacketFault;
use hq_report::Spot;

/// Why a certificate doesn't hold: its order is none of the job's; the line of this number doesn't follow from what
/// it cites; these packets conflict and have no pair line; the pair line of these packets doesn't hold.
#[derive(Clone, Copy, Debug, PartialEq, Eq)]
pub enum CheckFault {
    Order,
    Line(usize),
    PairMissing(u16, u16),
    Pair(u32, u32),
}

/// Why a run was stopped: the body of this packet failed; the board and the hall tell of different events; the list
/// of this queue's processor, or the host's, isn't the journal's; not all was done.
#[derive(Clone, Copy, Debug, PartialEq, Eq)]
pub enum RunFailure {
    Kernel(u16),
    Split,
    Receipts(u16),
    Unfinished,
}

/// What is wrong with a timeline's line.
#[derive(Clone, Copy, Debug, PartialEq, Eq)]
pub enum TimelineReason {
    Word,
    Number,
    NoEnd,
}

/// Why a text is no timeline's: its first faulty line, counted from 1, and what is wrong with that.
#[derive(Clone, Copy, Debug, PartialEq, Eq)]
pub struct TimelineFault {
    pub line: usize,
    pub reason: TimelineReason,
}

/// What two runs of a job differ in: an entry that a packet reads, or a byte of memory, with where that lies.
#[derive(Clone, Copy)]
pub enum Differs {
    Read { packet: u32, entry: u32 },
    Memory { spot: Option<Spot> },
}

/// How two runs of a job differ: the place, and the packet whose store it is in the good run and in the bad one, none
/// where it is as it was at the start.
#[derive(Clone, Copy)]
pub struct Difference {
    pub place: Differs,
    pub good: Option<u32>,
    pub bad: Option<u32>,
}

/// How a command ended, with what its answer says of that.
#[derive(Clone, Copy)]
pub enum Status {
    /// What was asked for is written.
    Done,
    /// The words of the command line name no command, or no packet.
    Words,
    /// The words behind `--pair` aren't two numbers.
    PairWords,
    /// The text is no job's.
    JobRefused(JobFault),
    /// The bytes are no packet's.
    PacketRefused(PacketFault),
    /// Packet `p` and, behind it, packet `r` conflict in this way and nothing orders that.
    Conflict {
        p: u16,
        r: u16,
        kind: Kind,
        why: Why,
    },
    /// Some packets can never complete.
    Stuck,
    /// A picture of the order is drawn, and in it what an audit finds.
    Drawn(Found),
    /// It is explained what an audit finds.
    Explained(Found),
    /// Two runs are shown that differ, so the job isn't ordered.
    Shown(Difference),
    /// The text is no certificate's.
    CertificateRefused(CertFault),
    /// The certificate doesn't hold for the job.
    CertificateFails(CheckFault),
    /// The text is no timeline's.
    TimelineRefused(TimelineFault),
    /// The event of this place, counted from 0, isn't enabled after those before it.
    NotEnabled(usize),
    /// A picture is drawn of the events before the one of this place, counted from 0, which isn't enabled.
    DrawnUntil(usize),
    /// The run was stopped.
    RunFailed(RunFailure),
    /// Memory ran out.
    Memory,
    /// A file can't be opened or made. Why is said where that is known.
    Unopened,
    /// A file or a stream failed.
    File,
}

/// The exit status for what an audit finds.
fn code_of_found(found: Found) -> u8
    ensures { result ≡ code_of_found found }
{
    match found {
        Found::Ordered => 0,
        Found::Conflict => 4,
        Found::Stuck => 5,
    }
}

impl Status {
    /// The program's exit status.
    pub fn code(self) -> u8
        ensures { result ≡ code_of self }
    {
        match self {
            Status::Done => 0,
            Status::Words | Status::PairWords => 2,
            Status::JobRefused(_) | Status::PacketRefused(_) => 3,
            Status::Conflict { .. } | Status::Shown(_) => 4,
            Status::Stuck => 5,
            Status::Drawn(found) | Status::Explained(found) => code_of_found(found),
            Status::CertificateRefused(_) | Status::CertificateFails(_) => 6,
            Status::TimelineRefused(_)
            | Status::NotEnabled(_)
            | Status::DrawnUntil(_)
            | Status::RunFailed(_) => 7,
            Status::Memory => 8,
            Status::Unopened | Status::File => 9,
        }
    }
}
