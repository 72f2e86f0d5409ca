//! The lines that say how packets conflict, and by which fences that is ordered.

ghost use Rattle.std.specs.Prelude.{◌≡◌, OnOk, Some};
ghost use Rattle.std.specs.Io.KnownBytes.{Appends};
ghost use Rattle.hq_explain.specs.Texts.{acquire_text, bytes_text, hows_of, how_text, kind_line, kind_text};
ghost use Rattle.hq_explain.specs.Texts.{kind_words, kinds_text};
ghost use Rattle.hq_explain.specs.Texts.{no_hows, part_text, release_text, rw_how};
ghost use Rattle.hq_explain.specs.Texts.{two_acquires, two_releases, ww_how, wr_how};

use crate::sharing::{Run, run_between};
use hq_fence::{Acquire, Release, Shown};
use hq_finding::Kind;
use hq_job::Job;
use std::io::Write;
use std::{fmt, io};

impl fmt::Display for Run {
    ghost output = { λ r. Some (bytes_text r.len r.spot) };

    fn fmt<W: fmt::Write>(&self, f: &mut fmt::Formatter<W>) -> fmt::Result {
        let len = self.len;
        match self.spot {
            Some(spot) => write!(f, "{spot}, {len} bytes"),
            None => write!(f, "{len} bytes"),
        }
    }
}

/// In which way two packets conflict, p first.
#[derive(Clone, Copy, Debug)]
struct KindWords {
    kind: Kind,
    p: usize,
    r: usize,
}

impl fmt::Display for KindWords {
    ghost output = { λ k. Some (kind_words k.kind k.p k.r) };

    fn fmt<W: fmt::Write>(&self, f: &mut fmt::Formatter<W>) -> fmt::Result {
        let p = self.p;
        let r = self.r;
        match self.kind {
            Kind::WriteRead => write!(f, "  packet {p} writes what packet {r} reads: "),
            Kind::WriteWrite => write!(f, "  packet {p} writes what packet {r} writes: "),
            Kind::ReadWrite => write!(f, "  packet {p} reads what packet {r} writes: "),
        }
    }
}

/// The line of a kind of conflict of p with r, if there is one.
#[derive(Clone, Copy)]
pub struct KindLine {
    pub kind: Kind,
    pub p: usize,
    pub r: usize,
    pub run: Option<Run>,
}

impl fmt::Display for KindLine {
    ghost output = { λ l. Some (kind_text l.kind l.p l.r l.run) };

    fn fmt<W: fmt::Write>(&self, f: &mut fmt::Formatter<W>) -> fmt::Result {
        let words = KindWords {
            kind: self.kind,
            p: self.p,
            r: self.r,
        };
        match self.run {
            Some(run) => write!(f, "{words}{run}\n"),
            None => f.write_str(""),
        }
    }
}

/// The fences of a release by two packets: to the agent, and from there to the system.
#[derive(Clone, Copy, Debug)]
struct TwoReleases {
    x: u16,
    x2: u16,
}

impl fmt::Display for TwoReleases {
    ghost output = { λ t. Some (two_releases t.x t.x2) };

    fn fmt<W: fmt::Write>(&self, f: &mut fmt::Formatter<W>) -> fmt::Result {
        let x = self.x;
        let x2 = self.x2;
        write!(f, "the release fences of packets {x} and {x2}")
    }
}

/// The fences of a release.
#[derive(Clone, Copy, Debug)]
struct ReleaseText(Release);

impl fmt::Display for ReleaseText {
    ghost output = { λ r. Some (release_text r.0) };

    fn fmt<W: fmt::Write>(&self, f: &mut fmt::Formatter<W>) -> fmt::Result {
        match self.0 {
            Release::Alone(x) => write!(f, "the release fence of packet {x}"),
            Release::Chained(x, x2) => {
                let two = TwoReleases { x, x2 };
                write!(f, "{two}")
            }
        }
    }
}

/// The fences of an acquire by two packets: from the system, and from there by the agent.
#[derive(Clone, Copy, Debug)]
struct TwoAcquires {
    y2: u16,
    y: u16,
}

impl fmt::Display for TwoAcquires {
    ghost output = { λ t. Some (two_acquires t.y2 t.y) };

    fn fmt<W: fmt::Write>(&self, f: &mut fmt::Formatter<W>) -> fmt::Result {
        let y2 = self.y2;
        let y = self.y;
        write!(f, "the acquire fences of packets {y2} and {y}")
    }
}

/// The fences of an acquire.
#[derive(Clone, Copy, Debug)]
struct AcquireText(Acquire);

impl fmt::Display for AcquireText {
    ghost output = { λ a. Some (acquire_text a.0) };

    fn fmt<W: fmt::Write>(&self, f: &mut fmt::Formatter<W>) -> fmt::Result {
        match self.0 {
            Acquire::Alone(y) => write!(f, "the acquire fence of packet {y}"),
            Acquire::Chained(y2, y) => {
                let two = TwoAcquires { y2, y };
                write!(f, "{two}")
            }
        }
    }
}

/// How a kind of conflict is ordered: by fences that release and acquire, by fences that release, without a fence;
/// or that isn't told.
#[derive(Clone, Copy, Debug)]
pub enum How {
    Acquired(Release, Acquire),
    Released(Release),
    NoFence,
    Unsaid,
}

impl fmt::Display for How {
    ghost output = { λ h. Some (how_text h) };

    fn fmt<W: fmt::Write>(&self, f: &mut fmt::Formatter<W>) -> fmt::Result {
        match *self {
            How::Acquired(release, acquire) => {
                let release = ReleaseText(release);
                let acquire = AcquireText(acquire);
                write!(f, "    ordered by {release} and {acquire}\n")
            }
            How::Released(release) => {
                let release = ReleaseText(release);
                write!(f, "    ordered by {release}\n")
            }
            How::NoFence => f.write_str("    needs no fence\n"),
            How::Unsaid => f.write_str(""),
        }
    }
}

/// How each kind of conflict is ordered.
#[derive(Clone, Copy, Debug)]
pub struct Hows {
    pub wr: How,
    pub ww: How,
    pub rw: How,
}

/// How a write that the second packet reads is ordered.
fn wr_how(fences: Option<(Release, Acquire)>) -> How
    ensures { result ≡ wr_how fences }
{
    match fences {
        Some((release, acquire)) => How::Acquired(release, acquire),
        None => How::Unsaid,
    }
}

/// How two writes are ordered.
fn ww_how(fences: Option<Release>) -> How
    ensures { result ≡ ww_how fences }
{
    match fences {
        Some(release) => How::Released(release),
        None => How::Unsaid,
    }
}

/// How a read that the second packet writes is ordered.
fn rw_how(there: bool) -> How
    ensures { result ≡ rw_how there }
{
    if there { How::NoFence } else { How::Unsaid }
}

/// How each kind of conflict is ordered.
pub fn hows_of(shown: Shown) -> Hows
    ensures { result ≡ hows_of shown }
{
    Hows {
        wr: wr_how(shown.wr),
        ww: ww_how(shown.ww),
        rw: rw_how(shown.rw),
    }
}

/// Where that isn't told.
pub fn no_hows() -> Hows
    ensures { result ≡ no_hows }
{
    Hows {
        wr: How::Unsaid,
        ww: How::Unsaid,
        rw: How::Unsaid,
    }
}

/// The line of a kind of conflict, and how it is ordered.
#[derive(Clone, Copy)]
struct KindPart {
    line: KindLine,
    how: How,
}

impl fmt::Display for KindPart {
    ghost output = { λ p. Some (part_text p.line p.how) };

    fn fmt<W: fmt::Write>(&self, f: &mut fmt::Formatter<W>) -> fmt::Result {
        let line = self.line;
        let how = self.how;
        write!(f, "{line}{how}")
    }
}

/// The line of a kind of conflict of p with r, p first, and how it is ordered.
fn kind_part(job: &Job, kind: Kind, p: usize, r: usize, how: How) -> KindPart
    ensures line { kind_text result.line.kind result.line.p result.line.r result.line.run ≡ kind_line job.now kind p r }
    ensures how { result.how ≡ how }
{
    let line = KindLine {
        kind,
        p,
        r,
        run: run_between(job, kind, p, r),
    };
    KindPart { line, how }
}

/// Writes of each kind of conflict that there is the bytes, and how it is ordered.
pub fn write_kinds<W: Write>(
    writer: &mut W,
    job: &Job,
    p: usize,
    r: usize,
    hows: Hows,
) -> io::Result<()>
    ensures { OnOk result (Appends (W.contents writer.old) (W.contents writer.new) (kinds_text job.now p r hows)) }
{
    let wr = kind_part(job, Kind::WriteRead, p, r, hows.wr);
    let ww = kind_part(job, Kind::WriteWrite, p, r, hows.ww);
    let rw = kind_part(job, Kind::ReadWrite, p, r, hows.rw);
    write!(writer, "{wr}{ww}{rw}")
}
