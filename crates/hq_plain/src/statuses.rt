//! Plain words on standard error, beside the answer on standard output: made of the status, in which stands what the
//! answer says.

ghost use Rattle.std.specs.Prelude.{◌≡◌, ◌↔◌, IsTrue, Some, []};
ghost use Rattle.hq_plain.specs.Statuses.{clash_words, lack_words, origin_words, subject_words, difference_words};
ghost use Rattle.hq_plain.specs.Statuses.{drawn_words, event_words, meaning};

use crate::faults::{CertWords, CheckWords, FailureWords, TimeWords};
use crate::jobs::{JobWords, PacketWords};
use hq_finding::{Found, Kind, Why};
use hq_report::OffsetText;
use hq_status::{Difference, Differs, Status};
use std::{fmt, io};

/// What packets `p` and `r` do that conflicts.
#[derive(Clone, Copy)]
struct Clash {
    p: u16,
    r: u16,
    kind: Kind,
}

impl fmt::Display for Clash {
    ghost output = { λ c. Some (clash_words c.p c.r c.kind) };

    fn fmt<W: fmt::Write>(&self, f: &mut fmt::Formatter<W>) -> fmt::Result {
        let Clash { p, r, kind } = *self;
        match kind {
            Kind::WriteRead => write!(f, "packet {r} reads what packet {p} writes"),
            Kind::WriteWrite => write!(f, "packets {p} and {r} write the same bytes"),
            Kind::ReadWrite => write!(f, "packet {r} writes what packet {p} reads"),
        }
    }
}

/// What packets `p` and `r` lack.
#[derive(Clone, Copy)]
struct Lack {
    p: u16,
    r: u16,
    why: Why,
}

impl fmt::Display for Lack {
    ghost output = { λ l. Some (lack_words l.p l.r l.why) };

    fn fmt<W: fmt::Write>(&self, f: &mut fmt::Formatter<W>) -> fmt::Result {
        let Lack { p, r, why } = *self;
        match why {
            Why::Unordered => write!(
                f,
                "nothing makes packet {r} wait until packet {p} is complete"
            ),
            Why::NotReleased => write!(
                f,
                "no release fence makes what packet {p} wrote visible before packet {r}"
            ),
            Why::NotAcquired => write!(
                f,
                "no acquire fence lets packet {r} see what packet {p} released"
            ),
        }
    }
}

/// Where a byte comes from: the packet that stored it, or the start.
#[derive(Clone, Copy)]
struct OriginWords(Option<u32>);

impl fmt::Display for OriginWords {
    ghost output = { λ w. Some (origin_words w.0) };

    fn fmt<W: fmt::Write>(&self, f: &mut fmt::Formatter<W>) -> fmt::Result {
        match self.0 {
            Some(packet) => write!(f, "as packet {packet} stored it"),
            None => f.write_str("as it was at the start"),
        }
    }
}

/// What can end or be read in two ways.
#[derive(Clone, Copy)]
struct Subject(Differs);

impl fmt::Display for Subject {
    ghost output = { λ s. Some (subject_words s.0) };

    fn fmt<W: fmt::Write>(&self, f: &mut fmt::Formatter<W>) -> fmt::Result {
        match self.0 {
            Differs::Read { packet, entry } => write!(f, "packet {packet} can read entry {entry}"),
            Differs::Memory { spot: Some(spot) } => write!(f, "{} can end", OffsetText(spot)),
            Differs::Memory { spot: None } => f.write_str("a byte of memory can end"),
        }
    }
}

/// How two runs of a job differ.
#[derive(Clone, Copy)]
struct DifferenceWords(Difference);

impl fmt::Display for DifferenceWords {
    ghost output = { λ w. Some (difference_words w.0) };

    fn fmt<W: fmt::Write>(&self, f: &mut fmt::Formatter<W>) -> fmt::Result {
        let subject = Subject(self.0.place);
        let good = OriginWords(self.0.good);
        let bad = OriginWords(self.0.bad);
        write!(f, "{subject} {good}, and in another run {bad}")
    }
}

/// What is drawn in red.
fn words_of_drawn(found: Found) -> &'static str
    ensures { result.now ≡ drawn_words found }
{
    match found {
        Found::Ordered => "",
        Found::Conflict => "nothing orders the conflicts that are drawn in red",
        Found::Stuck => "the packets drawn in red can never complete, in any run",
    }
}

/// Which event can't happen where it stands, with what is said of that aside.
#[derive(Clone, Copy)]
struct EventWords {
    aside: &'static str,
    place: usize,
}

impl fmt::Display for EventWords {
    ghost output = { λ w. Some (event_words w.aside.now w.place) };

    fn fmt<W: fmt::Write>(&self, f: &mut fmt::Formatter<W>) -> fmt::Result {
        let aside = self.aside;
        let place = self.place;
        write!(
            f,
            "an event isn't enabled after those before it{aside}: counted from 0, number {place}"
        )
    }
}

/// What a status means. An explanation says all of that itself, and why a file can't be opened was said by then.
#[derive(Clone, Copy)]
pub struct Meaning(pub Status);

impl fmt::Display for Meaning {
    ghost output = { λ m. Some (meaning m.0) };

    fn fmt<W: fmt::Write>(&self, f: &mut fmt::Formatter<W>) -> fmt::Result {
        match self.0 {
            Status::Done | Status::Explained(_) | Status::Unopened => Ok(()),
            Status::Words => f.write_str(
                "these words are no packet; `hsaq pack --help` lists the fields",
            ),
            Status::PairWords => f.write_str(
                "--pair wants the numbers of two packets, as in --pair 0 2",
            ),
            Status::JobRefused(fault) => JobWords(fault).fmt(f),
            Status::PacketRefused(fault) => PacketWords(fault).fmt(f),
            Status::Conflict { p, r, kind, why } => {
                write!(f, "{}, but {}", Clash { p, r, kind }, Lack { p, r, why })
            }
            Status::Stuck => f.write_str("these packets can never complete, in any run"),
            Status::Drawn(found) => f.write_str(words_of_drawn(found)),
            Status::Shown(difference) => DifferenceWords(difference).fmt(f),
            Status::CertificateRefused(fault) => CertWords(fault).fmt(f),
            Status::CertificateFails(fault) => CheckWords(fault).fmt(f),
            Status::TimelineRefused(fault) => TimeWords(fault).fmt(f),
            Status::NotEnabled(place) => EventWords { aside: "", place }.fmt(f),
            Status::DrawnUntil(place) => EventWords {
                aside: ", up to which the timeline is drawn",
                place,
            }
            .fmt(f),
            Status::RunFailed(failure) => FailureWords(failure).fmt(f),
            Status::Memory => f.write_str("there is no memory for it"),
            Status::File => f.write_str("a file or a stream failed, so there is no whole answer"),
        }
    }
}

/// Whether there is nothing to say of a status.
fn is_silent(status: Status) -> bool
    ensures { IsTrue result ↔ (meaning status ≡ []) }
{
    matches!(
        status,
        Status::Done | Status::Explained(_) | Status::Drawn(Found::Ordered) | Status::Unopened
    )
}

/// Says what a status means, if there is something to say. Where standard error fails, nothing is said.
pub fn explain<R: Eprint>(rt: &R, status: &Status) {
    if !is_silent(*status) {
        let _ = eprintln!(rt; "hsaq: {}", Meaning(*status));
    }
}

/// Says why a file can't be opened. Where standard error fails, nothing is said.
pub fn explain_unopened<R: Eprint>(rt: &R, path: &str, error: &io::Error) {
    let _ = eprintln!(rt; "hsaq: {path}: {error}");
}
