//! What packets that can never complete wait for.

ghost use Rattle.std.specs.Prelude.{◌≡◌, IfErr, IfOk, IsTrue, OnOk, Some};
ghost use Rattle.std.specs.Io.KnownBytes.{Appends};
ghost use Rattle.hq_job.specs.Plan.{plan};
ghost use Rattle.hq_model.specs.Job.{IsPacket};
ghost use Rattle.hq_model.specs.Order as order;
ghost use Rattle.hq_graph.specs.Graph.{Wrote, awaited_by};
ghost use Rattle.hq_graph.specs.Known.{TellsStuck};
ghost use Rattle.hq_explain.specs.Explained.{IsFirstWait, StuckLine, StuckPart, StuckText};
ghost use Rattle.hq_explain.specs.Texts.{wait_text, waiting_words, waits_line};
ghost use Rattle.hq_explain.specs.declared.fault.ExplainFault.TheVariants.{Memory};

use crate::fault::ExplainFault;
use hq_graph::{GraphFault, NameWord, Stuck, Wait, awaited_by, stuck_of, wait_at};
use hq_job::Job;
use hq_text::Name;
use std::alloc::Global;
use std::io::Write;
use std::{fmt, io};

/// The packets of a job that can never complete.
pub fn stuck_in(alloc: Global, job: &Job) -> Result<Stuck, ExplainFault>
    ensures tells { IfOk result (TellsStuck (plan job.now)) }
    ensures memory { IfErr result (λ e. e ≡ Memory) }
{
    match stuck_of(alloc, job) {
        Ok(stuck) => Ok(stuck),
        Err(GraphFault::Memory | GraphFault::Writer) => Err(ExplainFault::Memory),
    }
}

/// The first packet that r, which can never complete, waits for and which can't either, and how. There is one: else r
/// could complete.
fn wait_of(job: &Job, stuck: &Stuck, r: usize) -> (usize, Wait)
    requires tells { TellsStuck (plan job.now) stuck.now }
    requires some { IsTrue stuck.now.some }
    requires r_is { IsPacket (plan job.now) r }
    requires stuck { order.Stuck (plan job.now) r }
    ensures { IsFirstWait (plan job.now) r result.0 result.1 }
{
    job.valid();
    let _own = job.queue_of(r);
    for p in 0..job.packets().len() {
        if let Some(by) = wait_at(job, stuck, p, r) {
            return (p, by);
        }
    }
    unreachable!()
}

/// How a packet is waited for, with the name of the signal.
#[derive(Clone, Copy)]
struct WaitWords {
    wait: Wait,
    name: Option<Name>,
}

impl fmt::Display for WaitWords {
    ghost output = { λ w. Some (wait_text w.wait w.name) };

    fn fmt<W: fmt::Write>(&self, f: &mut fmt::Formatter<W>) -> fmt::Result {
        let name = NameWord(self.name);
        match self.wait {
            Wait::Ahead => f.write_str("stands ahead of it in its queue"),
            Wait::Slot => f.write_str("has its slot"),
            Wait::Turn => f.write_str("is to be submitted right ahead of it and never is"),
            Wait::Signal(_) => write!(f, "completes on {name}"),
        }
    }
}

/// Which packet waits for which.
#[derive(Clone, Copy, Debug)]
struct WaitingWords {
    p: usize,
    r: usize,
}

impl fmt::Display for WaitingWords {
    ghost output = { λ w. Some (waiting_words w.p w.r) };

    fn fmt<W: fmt::Write>(&self, f: &mut fmt::Formatter<W>) -> fmt::Result {
        let p = self.p;
        let r = self.r;
        write!(f, "packet {r} can never complete: it waits for packet {p}")
    }
}

/// Writes that r can never complete, and waits for p.
fn write_waits<W: Write>(
    writer: &mut W,
    job: &Job,
    p: usize,
    r: usize,
    wait: Wait,
) -> io::Result<()>
    ensures { OnOk result (Appends (W.contents writer.old) (W.contents writer.new) (waits_line job.now p r wait)) }
{
    let waiting = WaitingWords { p, r };
    let way = WaitWords {
        wait,
        name: awaited_by(job, wait),
    };
    write!(writer, "{waiting}, which {way}\n")
}

/// Writes what r, which can never complete, waits for.
fn write_line<W: Write>(writer: &mut W, job: &Job, stuck: &Stuck, r: usize) -> io::Result<()>
    requires tells { TellsStuck (plan job.now) stuck.now }
    requires some { IsTrue stuck.now.some }
    requires r_is { IsPacket (plan job.now) r }
    requires stuck { order.Stuck (plan job.now) r }
    ensures { OnOk result (Wrote (W.contents writer.old) (W.contents writer.new) (StuckLine job.now (plan job.now) r)) }
{
    let (p, wait) = wait_of(job, stuck, r);
    write_waits(writer, job, p, r, wait)
}

/// Writes what r waits for, if it can never complete.
fn write_if<W: Write>(writer: &mut W, job: &Job, stuck: &Stuck, r: usize) -> io::Result<()>
    requires tells { TellsStuck (plan job.now) stuck.now }
    requires some { IsTrue stuck.now.some }
    requires r_is { IsPacket (plan job.now) r }
    ensures { OnOk result (Wrote (W.contents writer.old) (W.contents writer.new) (StuckPart job.now (plan job.now) r)) }
{
    if stuck.has(job, r) {
        write_line(writer, job, stuck, r)
    } else {
        Ok(())
    }
}

/// Writes what each packet that can never complete waits for.
pub fn write_stuck<W: Write>(writer: &mut W, job: &Job, stuck: &Stuck) -> io::Result<()>
    requires tells { TellsStuck (plan job.now) stuck.now }
    requires some { IsTrue stuck.now.some }
    ensures { OnOk result (Wrote (W.contents writer.old) (W.contents writer.new) (StuckText job.now (plan job.now))) }
{
    for r in 0..job.packets().len() {
        write_if(writer, job, stuck, r)?;
    }
    Ok(())
}
