//! What is drawn for two packets.

ghost use Rattle.std.specs.Prelude.{◌≡◌, ◌<◌, ◌↔◌, IsTrue, OnOk, Some, slice_get};
ghost use Rattle.std.specs.Io.KnownBytes.{Appends};
ghost use Rattle.hq_model.specs.Job.{IsPacket};
ghost use Rattle.hq_model.specs.Order as order;
ghost use Rattle.hq_graph.specs.Graph.{ConflictText, PairText, Wrote, acquire_text, awaited_by, awaited_text};
ghost use Rattle.hq_graph.specs.Graph.{break_text, fault_text, kinds_text, named_by, open_text};
ghost use Rattle.hq_graph.specs.Graph.{ordered_text, release_text, rule_text, rw_text, step_text, wait_line};
ghost use Rattle.hq_graph.specs.Graph.{wait_text, wr_text, ww_text};
ghost use Rattle.hq_graph.specs.Known.{Sees};
ghost use Rattle.hq_fence.specs.Judgement.{HaveConflict};
ghost use Rattle.hq_graph.specs.Order.{IsStep};
ghost use Rattle.hq_graph.specs.declared.part.Part.TheVariants as part;

use crate::rule::Rule;
use crate::ruling::rule_of;
use crate::sight::Sight;
use crate::wait::Wait;
use crate::waiting::wait_of;
use crate::words::{Arrow, NameWord};
use hq_audit::{Directed, Unshown, direct};
use hq_fence::{Acquire, NotShown, Release, Shown, have_conflict};
use hq_job::Job;
use hq_order::Before;
use hq_text::Name;
use std::io::Write;
use std::{fmt, io};

/// The name of a signal.
fn signal_name(job: &Job, signal: u16) -> Option<Name>
    ensures { result ≡ slice_get job.now.signal_names signal }
{
    let name = job.signal_names().get(signal as usize)?;
    Some(*name)
}

/// The name of the signal that a rule names.
pub fn named_by(job: &Job, rule: Rule) -> Option<Name>
    ensures { result ≡ named_by job.now rule }
{
    match rule {
        Rule::And(signal) => signal_name(job, signal),
        Rule::Bit(_) | Rule::Queue | Rule::Or => None,
    }
}

/// A rule, with the name of the signal that it names.
#[derive(Clone, Copy)]
struct RuleText {
    rule: Rule,
    name: Option<Name>,
}

impl fmt::Display for RuleText {
    ghost output = { λ r. Some (rule_text r.rule r.name) };

    fn fmt<W: fmt::Write>(&self, f: &mut fmt::Formatter<W>) -> fmt::Result {
        let name = NameWord(self.name);
        match self.rule {
            Rule::Bit(j) => write!(f, "label=\"bit of {j}\""),
            Rule::Queue => f.write_str("label=\"queue\""),
            Rule::And(_) => write!(f, "label=\"and {name}\""),
            Rule::Or => f.write_str("label=\"or\" style=dashed"),
        }
    }
}

/// Writes a step with its rule.
fn write_rule<W: Write>(writer: &mut W, job: &Job, p: usize, r: usize, rule: Rule) -> io::Result<()>
    ensures { OnOk result (Appends (W.contents writer.old) (W.contents writer.new) (step_text job.now p r rule)) }
{
    let arrow = Arrow { from: p, to: r };
    let text = RuleText {
        rule,
        name: named_by(job, rule),
    };
    write!(writer, "{arrow}{text}];\n")
}

/// Writes the step from p to r.
pub fn write_step<W: Write>(
    writer: &mut W,
    job: &Job,
    before: &Before,
    r: usize,
    p: usize,
) -> io::Result<()>
    requires r { IsPacket before.now r }
    requires p { IsPacket before.now p }
    requires step { IsStep before.now p r }
    ensures { OnOk result
        (Wrote (W.contents writer.old) (W.contents writer.new) (PairText job.now before.now part.Steps r p)) }
{
    let rule = rule_of(before, p, r);
    write_rule(writer, job, p, r, rule)
}

/// The packets of a release.
#[derive(Clone, Copy, Debug)]
struct ReleaseText(Release);

impl fmt::Display for ReleaseText {
    ghost output = { λ r. Some (release_text r.0) };

    fn fmt<W: fmt::Write>(&self, f: &mut fmt::Formatter<W>) -> fmt::Result {
        match self.0 {
            Release::Alone(x) => write!(f, "{x}"),
            Release::Chained(x, x2) => write!(f, "{x},{x2}"),
        }
    }
}

/// The packets of an acquire.
#[derive(Clone, Copy, Debug)]
struct AcquireText(Acquire);

impl fmt::Display for AcquireText {
    ghost output = { λ a. Some (acquire_text a.0) };

    fn fmt<W: fmt::Write>(&self, f: &mut fmt::Formatter<W>) -> fmt::Result {
        match self.0 {
            Acquire::Alone(y) => write!(f, "{y}"),
            Acquire::Chained(y2, y) => write!(f, "{y2},{y}"),
        }
    }
}

/// A write that the second packet reads, if there is one, with the fences that order it.
#[derive(Clone, Copy, Debug)]
struct WriteReadText(Option<(Release, Acquire)>);

impl fmt::Display for WriteReadText {
    ghost output = { λ t. Some (wr_text t.0) };

    fn fmt<W: fmt::Write>(&self, f: &mut fmt::Formatter<W>) -> fmt::Result {
        match self.0 {
            Some((release, acquire)) => {
                let release = ReleaseText(release);
                let acquire = AcquireText(acquire);
                write!(f, "wr release {release} acquire {acquire}")
            }
            None => f.write_str(""),
        }
    }
}

/// What parts a kind from one ahead of it.
fn break_word(behind: bool) -> &'static str
    ensures { result.now ≡ break_text behind }
{
    if behind { "\\n" } else { "" }
}

/// Two writes, if there are such, with the fences that order them; and whether a kind is ahead.
#[derive(Clone, Copy, Debug)]
struct WriteWriteText {
    behind: bool,
    fences: Option<Release>,
}

impl fmt::Display for WriteWriteText {
    ghost output = { λ t. Some (ww_text t.behind t.fences) };

    fn fmt<W: fmt::Write>(&self, f: &mut fmt::Formatter<W>) -> fmt::Result {
        let behind = break_word(self.behind);
        match self.fences {
            Some(release) => {
                let release = ReleaseText(release);
                write!(f, "{behind}ww release {release}")
            }
            None => f.write_str(""),
        }
    }
}

/// A read that the second packet writes, if there is one; and whether a kind is ahead.
#[derive(Clone, Copy, Debug)]
struct ReadWriteText {
    behind: bool,
    there: bool,
}

impl fmt::Display for ReadWriteText {
    ghost output = { λ t. Some (rw_text t.behind t.there) };

    fn fmt<W: fmt::Write>(&self, f: &mut fmt::Formatter<W>) -> fmt::Result {
        let behind = break_word(self.behind);
        if self.there {
            write!(f, "{behind}rw")
        } else {
            f.write_str("")
        }
    }
}

/// The kinds that there are, with the fences that order each.
#[derive(Clone, Copy, Debug)]
struct KindsText(Shown);

impl fmt::Display for KindsText {
    ghost output = { λ k. Some (kinds_text k.0) };

    fn fmt<W: fmt::Write>(&self, f: &mut fmt::Formatter<W>) -> fmt::Result {
        let has_wr = self.0.wr.is_some();
        let has_ww = self.0.ww.is_some();
        let wr = WriteReadText(self.0.wr);
        let ww = WriteWriteText {
            behind: has_wr,
            fences: self.0.ww,
        };
        let rw = ReadWriteText {
            behind: has_wr || has_ww,
            there: self.0.rw,
        };
        write!(f, "{wr}{ww}{rw}")
    }
}

/// Writes two packets whose conflicts are ordered.
fn write_ordered<W: Write>(writer: &mut W, directed: Directed) -> io::Result<()>
    ensures { OnOk result (Appends (W.contents writer.old) (W.contents writer.new) (ordered_text directed)) }
{
    let arrow = Arrow {
        from: directed.first,
        to: directed.second,
    };
    let kinds = KindsText(directed.shown);
    write!(
        writer,
        "{arrow}color=gray penwidth=0.5 fontcolor=gray label=\"{kinds}\"];\n"
    )
}

/// A kind of conflict that isn't ordered, and why.
#[derive(Clone, Copy, Debug)]
struct FaultText(NotShown);

impl fmt::Display for FaultText {
    ghost output = { λ t. Some (fault_text t.0) };

    fn fmt<W: fmt::Write>(&self, f: &mut fmt::Formatter<W>) -> fmt::Result {
        let kind = self.0.kind;
        let why = self.0.why;
        write!(f, "{kind} {why}")
    }
}

/// Writes two packets whose conflicts aren't ordered.
fn write_open<W: Write>(writer: &mut W, unshown: Unshown) -> io::Result<()>
    ensures { OnOk result (Appends (W.contents writer.old) (W.contents writer.new) (open_text unshown)) }
{
    let arrow = Arrow {
        from: unshown.p as usize,
        to: unshown.r as usize,
    };
    let fault = FaultText(unshown.fault);
    write!(
        writer,
        "{arrow}color=red fontcolor=red label=\"{fault}\"];\n"
    )
}

/// Writes two packets that conflict, as they are ordered or not.
fn write_judged<W: Write>(writer: &mut W, before: &Before, a: usize, b: usize) -> io::Result<()>
    requires a { IsPacket before.now a }
    requires b { IsPacket before.now b }
    ensures { OnOk result (Wrote (W.contents writer.old) (W.contents writer.new) (ConflictText before.now a b)) }
{
    match direct(before, a, b) {
        Ok(directed) => write_ordered(writer, directed),
        Err(unshown) => write_open(writer, unshown),
    }
}

/// Whether the two conflict, and b is above a.
fn is_conflict(before: &Before, a: usize, b: usize) -> bool
    requires a { IsPacket before.now a }
    requires b { IsPacket before.now b }
    ensures { IsTrue result ↔ ((a < b) × HaveConflict before.now a b) }
{
    a < b && have_conflict(before.job(), a, b)
}

/// Writes a and b where they conflict, and b is above a.
pub fn write_conflict<W: Write>(
    writer: &mut W,
    job: &Job,
    before: &Before,
    a: usize,
    b: usize,
) -> io::Result<()>
    requires a { IsPacket before.now a }
    requires b { IsPacket before.now b }
    ensures { OnOk result
        (Wrote (W.contents writer.old) (W.contents writer.new) (PairText job.now before.now part.Conflicts a b)) }
{
    if is_conflict(before, a, b) {
        write_judged(writer, before, a, b)
    } else {
        Ok(())
    }
}

/// The name of the signal that is waited for.
pub fn awaited_by(job: &Job, wait: Wait) -> Option<Name>
    ensures { result ≡ awaited_by job.now wait }
{
    match wait {
        Wait::Signal(signal) => signal_name(job, signal),
        Wait::Ahead | Wait::Slot | Wait::Turn => None,
    }
}

/// What is waited for of a packet, with the name of the signal.
#[derive(Clone, Copy)]
struct AwaitedText {
    p: usize,
    wait: Wait,
    name: Option<Name>,
}

impl fmt::Display for AwaitedText {
    ghost output = { λ a. Some (awaited_text a.p a.wait a.name) };

    fn fmt<W: fmt::Write>(&self, f: &mut fmt::Formatter<W>) -> fmt::Result {
        let p = self.p;
        let name = NameWord(self.name);
        match self.wait {
            Wait::Ahead => write!(f, "packet {p}"),
            Wait::Slot => f.write_str("its slot"),
            Wait::Signal(_) => write!(f, "{name}"),
            Wait::Turn => write!(f, "the submission of packet {p}"),
        }
    }
}

/// Writes that r waits for a packet, by what is told of that.
fn write_awaited<W: Write>(writer: &mut W, r: usize, awaited: AwaitedText) -> io::Result<()>
    ensures { OnOk result
        (Appends (W.contents writer.old) (W.contents writer.new) (wait_line awaited.p r awaited.wait awaited.name)) }
{
    let arrow = Arrow {
        from: r,
        to: awaited.p,
    };
    write!(
        writer,
        "{arrow}color=red style=dotted fontcolor=red label=\"waits for {awaited}\"];\n"
    )
}

/// Writes that r waits for p.
fn write_way<W: Write>(writer: &mut W, job: &Job, p: usize, r: usize, wait: Wait) -> io::Result<()>
    ensures { OnOk result (Appends (W.contents writer.old) (W.contents writer.new) (wait_text job.now p r wait)) }
{
    let awaited = AwaitedText {
        p,
        wait,
        name: awaited_by(job, wait),
    };
    write_awaited(writer, r, awaited)
}

/// Writes that r, which can never complete, waits for p, if it does and p can't either.
pub fn write_wait<W: Write>(
    writer: &mut W,
    job: &Job,
    sight: &Sight,
    r: usize,
    p: usize,
) -> io::Result<()>
    requires sees { Sees sight.now }
    requires stuck { order.Stuck sight.now.before.now r }
    requires r { IsPacket sight.now.before.now r }
    requires p { IsPacket sight.now.before.now p }
    ensures { OnOk result
        (Wrote (W.contents writer.old) (W.contents writer.new) (PairText job.now sight.now.before.now part.Waits r p)) }
{
    match wait_of(sight, p, r) {
        Some(wait) => write_way(writer, job, p, r, wait),
        None => Ok(()),
    }
}
