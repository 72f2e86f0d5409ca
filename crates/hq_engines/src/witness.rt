//! `hsaq witness`: two runs of a refused job that show why.

ghost use Rattle.std.specs.Prelude.{◌≡◌, ◌⊎◌, [], MatchOption, Some, codes};
ghost use Rattle.hq_job.specs.Plan.{plan};
ghost use Rattle.hq_timeline.specs.Printed.{text_of};
ghost use Rattle.hq_witness.specs.Witness.{IsWitness, no_of};
ghost use Rattle.hq_witness.specs.declared.fault.WitnessNo.TheVariants.{Ordered};
ghost use Rattle.hq_status.specs.Reports.{Said, with_feed};
ghost use Rattle.hq_engines.specs.Recording.{BothSaid, contents_in};
ghost use Rattle.hq_engines.specs.Witness.{Witnessed, WitnessReport, byte_text, difference_of, differs_at};
ghost use Rattle.hq_engines.specs.Witness.{differs_text, lines_text, origin_text, pair_text, place_text, stored_by};
ghost use Rattle.hq_engines.specs.Witness.{witness_text};

use crate::recording::write_timeline;
use hq_audit::AuditNo;
use hq_finding::Kind;
use hq_job::Job;
use hq_judging::laws::stuck_exactly;
use hq_judging::say_no_certificate;
use hq_report::{Spot, spot_of};
use hq_status::{Difference, Differs, Status, say, say_file, say_memory};
use hq_timeline::PrintFault;
use hq_witness::{Origin, Place, Witness, WitnessNo, witness};
use std::alloc::Global;
use std::fmt;
use std::io::Write;

/// The packet whose store a byte is, or `start`.
#[derive(Clone, Copy)]
struct OriginWord(Option<u32>);

impl fmt::Display for OriginWord {
    ghost output = { λ o. Some (origin_text o.0) };

    fn fmt<W: fmt::Write>(&self, f: &mut fmt::Formatter<W>) -> fmt::Result {
        match self.0 {
            Some(packet) => write!(f, "{packet}"),
            None => f.write_str("start"),
        }
    }
}

/// A byte of memory: `memory`, its buffer, and how far from its beginning it lies.
#[derive(Clone, Copy)]
struct ByteWords(Option<Spot>);

impl fmt::Display for ByteWords {
    ghost output = { λ b. Some (byte_text b.0) };

    fn fmt<W: fmt::Write>(&self, f: &mut fmt::Formatter<W>) -> fmt::Result {
        match self.0 {
            Some(spot) => {
                let name = spot.name;
                let offset = spot.offset;
                write!(f, "memory {name} {offset}")
            }
            None => f.write_str("memory"),
        }
    }
}

/// What two runs differ in.
#[derive(Clone, Copy)]
struct PlaceWords(Differs);

impl fmt::Display for PlaceWords {
    ghost output = { λ w. Some (place_text w.0) };

    fn fmt<W: fmt::Write>(&self, f: &mut fmt::Formatter<W>) -> fmt::Result {
        match self.0 {
            Differs::Read { packet, entry } => write!(f, "read {packet} {entry}"),
            Differs::Memory { spot } => write!(f, "{}", ByteWords(spot)),
        }
    }
}

/// The pair of a witness: `witness`, the packets and the kind of their conflict.
#[derive(Clone, Copy)]
struct PairWords {
    p: u16,
    r: u16,
    kind: Kind,
}

impl fmt::Display for PairWords {
    ghost output = { λ w. Some (pair_text w.p w.r w.kind) };

    fn fmt<W: fmt::Write>(&self, f: &mut fmt::Formatter<W>) -> fmt::Result {
        write!(f, "witness {} {} {}", self.p, self.r, self.kind)
    }
}

/// Where two runs differ: the place, and its origin in each.
#[derive(Clone, Copy)]
struct DiffersWords(Difference);

impl fmt::Display for DiffersWords {
    ghost output = { λ w. Some (differs_text w.0) };

    fn fmt<W: fmt::Write>(&self, f: &mut fmt::Formatter<W>) -> fmt::Result {
        let place = PlaceWords(self.0.place);
        let good = OriginWord(self.0.good);
        let bad = OriginWord(self.0.bad);
        write!(f, "{place} {good} {bad}")
    }
}

/// What a witness shows, in two lines without the last feed.
#[derive(Clone, Copy)]
struct WitnessLines {
    pair: PairWords,
    differs: DiffersWords,
}

impl fmt::Display for WitnessLines {
    ghost output = { λ w. Some (lines_text w.pair.p w.pair.r w.pair.kind w.differs.0) };

    fn fmt<W: fmt::Write>(&self, f: &mut fmt::Formatter<W>) -> fmt::Result {
        write!(f, "{}\n{}", self.pair, self.differs)
    }
}

/// What a place is in a job.
fn differs_at(job: &Job, place: Place) -> Differs
    ensures { result ≡ differs_at job.now place }
{
    match place {
        Place::Read { packet, entry } => Differs::Read { packet, entry },
        Place::Memory { byte } => Differs::Memory {
            spot: spot_of(job.buffers(), byte as u64),
        },
    }
}

/// The packet that stored a byte of this origin, if one did.
fn stored_by(origin: Origin) -> Option<u32>
    ensures { result ≡ stored_by origin }
{
    match origin {
        Origin::Start => None,
        Origin::StoredBy { packet } => Some(packet),
    }
}

/// How the two runs of a witness of a job differ.
fn difference_of(job: &Job, witness: &Witness) -> Difference
    ensures { result ≡ difference_of job.now witness.now }
{
    Difference {
        place: differs_at(job, witness.place()),
        good: stored_by(witness.good_origin()),
        bad: stored_by(witness.bad_origin()),
    }
}

/// What a witness of a job shows.
fn lines_of(job: &Job, witness: &Witness) -> WitnessLines
    ensures { lines_text result.pair.p result.pair.r result.pair.kind result.differs.0
        ≡ witness_text job.now witness.now }
{
    let (p, r) = witness.pair();
    WitnessLines {
        pair: PairWords {
            p,
            r,
            kind: witness.kind(),
        },
        differs: DiffersWords(difference_of(job, witness)),
    }
}

/// The status where a witness of a job is shown.
fn shown(job: &Job, witness: &Witness) -> Status
    ensures { result ≡ Status.Shown (difference_of job.now witness.now) }
{
    Status::Shown(difference_of(job, witness))
}

/// Writes what a witness shows.
fn say_shown<W: Write>(writer: &mut W, job: &Job, witness: &Witness) -> Status
    ensures { Said (W.contents writer.old) (W.contents writer.new)
        (with_feed (witness_text job.now witness.now)) (Status.Shown (difference_of job.now witness.now)) result }
{
    say(writer, lines_of(job, witness), shown(job, witness))
}

/// Writes the timeline of a witness's bad run, and then what the witness shows.
fn say_rest<T: Write, W: Write>(
    alloc: Global,
    bad: &mut Option<T>,
    writer: &mut W,
    job: &Job,
    witness: &Witness,
) -> Status
    ensures { BothSaid (contents_in T.contents bad.old) (contents_in T.contents bad.new) (text_of witness.now.bad)
        (W.contents writer.old) (W.contents writer.new)
        (with_feed (witness_text job.now witness.now)) (Status.Shown (difference_of job.now witness.now)) result
        ⊎ BothSaid (contents_in T.contents bad.old) (contents_in T.contents bad.new) [] (W.contents writer.old)
        (W.contents writer.new) (with_feed (codes "out of memory")) Status.Memory result }
{
    match write_timeline(alloc, bad, witness.bad()) {
        Ok(()) => say_shown(writer, job, witness),
        Err(PrintFault::Memory) => say_memory(writer),
        Err(PrintFault::Writer) => say_file(writer),
    }
}

/// Writes the timelines of a witness's two runs, and then what it shows.
fn say_witness<T: Write, W: Write>(
    alloc: Global,
    good: &mut Option<T>,
    bad: &mut Option<T>,
    writer: &mut W,
    job: &Job,
    witness: &Witness,
) -> Status
    requires { IsWitness (plan job.now) witness.now }
    ensures { Witnessed (WitnessReport job.now)
        (record {
          good = contents_in T.contents good.old;
          bad = contents_in T.contents bad.old;
          answer = W.contents writer.old;
        })
        (record {
          good = contents_in T.contents good.new;
          bad = contents_in T.contents bad.new;
          answer = W.contents writer.new;
        }) result }
{
    match write_timeline(alloc, good, witness.good()) {
        Ok(()) => say_rest(alloc, bad, writer, job, witness),
        Err(PrintFault::Memory) => say_memory(writer),
        Err(PrintFault::Writer) => say_file(writer),
    }
}

/// What an audit says of a job that has no witness; none of an ordered one.
fn refusal_of(fault: WitnessNo) -> Option<AuditNo>
    ensures { MatchOption result (fault ≡ Ordered) (λ refusal. no_of refusal ≡ fault) }
{
    match fault {
        WitnessNo::Ordered => None,
        WitnessNo::Stuck(packets) => Some(AuditNo::Stuck(packets)),
        WitnessNo::None { p, r, kind, why } => Some(AuditNo::Conflict { p, r, kind, why }),
        WitnessNo::Memory => Some(AuditNo::Memory),
    }
}

/// Looks for two runs of a job that show why an audit refuses it. Writes their timelines, where there are writers
/// for them, and what they show: the pair that isn't ordered and the place in which the runs differ, with its
/// origin in each, that of the good run first; or that the job is ordered, the packets that can never complete, or
/// the conflict that nothing orders, where no two runs were found.
pub fn witness_engine<T: Write, W: Write>(
    alloc: Global,
    job: &Job,
    good: &mut Option<T>,
    bad: &mut Option<T>,
    writer: &mut W,
) -> Status
    ensures { Witnessed (WitnessReport job.now)
        (record {
          good = contents_in T.contents good.old;
          bad = contents_in T.contents bad.old;
          answer = W.contents writer.old;
        })
        (record {
          good = contents_in T.contents good.new;
          bad = contents_in T.contents bad.new;
          answer = W.contents writer.new;
        }) result }
{
    job.valid();
    stuck_exactly();
    match witness(alloc, job) {
        Ok(witness) => say_witness(alloc, good, bad, writer, job, &witness),
        Err(fault) => match refusal_of(fault) {
            Some(refusal) => say_no_certificate(writer, refusal),
            None => say(writer, "ordered", Status::Done),
        },
    }
}
