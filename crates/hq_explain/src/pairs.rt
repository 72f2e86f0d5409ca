//! What is said of two packets that conflict.

ghost use Rattle.std.specs.Prelude.{◌≡◌, ◌<◌, IfErr, IfOk, OnOk, Some, length};
ghost use Rattle.std.specs.Io.KnownBytes.{Appends};
ghost use Rattle.hq_job.specs.Plan.{plan};
ghost use Rattle.hq_graph.specs.Graph.{Wrote};
ghost use Rattle.hq_explain.specs.Advised.{AreAdvice};
ghost use Rattle.hq_explain.specs.Explain.{LackText, OpenText, OrderedText, PairText};
ghost use Rattle.hq_explain.specs.Texts.{why_line};
ghost use Rattle.hq_explain.specs.declared.fault.ExplainFault.TheVariants.{Memory};

use crate::advice::{Advice, advice_on};
use crate::changes::write_changes;
use crate::conflicts::{hows_of, no_hows, write_kinds};
use crate::fault::ExplainFault;
use crate::packets::write_head;
use crate::paths::write_path;
use hq_audit::{Directed, Unshown, direct};
use hq_finding::Why;
use hq_job::Job;
use hq_order::Before;
use std::alloc::Global;
use std::io::Write;
use std::{fmt, io};

/// Why a conflict of p with r isn't ordered.
#[derive(Clone, Copy, Debug)]
struct WhyLine {
    why: Why,
    p: usize,
    r: usize,
}

impl fmt::Display for WhyLine {
    ghost output = { λ l. Some (why_line l.why l.p l.r) };

    fn fmt<W: fmt::Write>(&self, f: &mut fmt::Formatter<W>) -> fmt::Result {
        let p = self.p;
        let r = self.r;
        match self.why {
            Why::Unordered => write!(
                f,
                "  nothing puts one before the other of packets {p} and {r}\n"
            ),
            Why::NotReleased => write!(
                f,
                "  nothing between them releases what packet {p} wrote, as far as packet {r}\n"
            ),
            Why::NotAcquired => write!(
                f,
                "  packet {p} is released, but nothing after that acquires for packet {r}\n"
            ),
        }
    }
}

/// Writes why a conflict of p with r isn't ordered.
fn write_why<W: Write>(writer: &mut W, why: Why, p: usize, r: usize) -> io::Result<()>
    ensures { OnOk result (Appends (W.contents writer.old) (W.contents writer.new) (why_line why p r)) }
{
    let line = WhyLine { why, p, r };
    write!(writer, "{line}")
}

/// Writes of two packets that are ordered how they conflict, by which fences each kind of conflict is ordered, and
/// why the first comes before the second.
fn write_ordered<W: Write>(
    writer: &mut W,
    job: &Job,
    before: &Before,
    a: usize,
    b: usize,
    directed: Directed,
) -> io::Result<()>
    ensures { OnOk result
        (Wrote (W.contents writer.old) (W.contents writer.new) (OrderedText job.now before.now a b directed)) }
{
    write_head(writer, job, a, b, true)?;
    write_kinds(
        writer,
        job,
        directed.first,
        directed.second,
        hows_of(directed.shown),
    )?;
    write_path(writer, job, before, directed.first, directed.second)
}

/// Writes of two packets that aren't ordered how they conflict, why the first comes before the second, if it does,
/// and what lacks.
fn write_lack<W: Write>(
    writer: &mut W,
    job: &Job,
    before: &Before,
    a: usize,
    b: usize,
    unshown: Unshown,
) -> io::Result<()>
    ensures { OnOk result
        (Wrote (W.contents writer.old) (W.contents writer.new) (LackText job.now before.now a b unshown)) }
{
    let p = unshown.p as usize;
    let r = unshown.r as usize;
    write_head(writer, job, a, b, false)?;
    write_kinds(writer, job, p, r, no_hows())?;
    write_path(writer, job, before, p, r)?;
    write_why(writer, unshown.fault.why, p, r)
}

/// Writes the same, and which single changes would order them.
fn write_open<W: Write>(
    writer: &mut W,
    job: &Job,
    before: &Before,
    a: usize,
    b: usize,
    unshown: Unshown,
    list: &[Advice],
) -> io::Result<()>
    requires { AreAdvice before.now a b list.now }
    ensures { OnOk result
        (Wrote (W.contents writer.old) (W.contents writer.new) (OpenText job.now before.now a b unshown)) }
{
    write_lack(writer, job, before, a, b, unshown)?;
    write_changes(writer, list)
}

/// Writes what is to be said of two packets, once what would order them is known.
fn write_unordered<W: Write>(
    alloc: Global,
    writer: &mut W,
    job: &Job,
    before: &Before,
    a: usize,
    b: usize,
    unshown: Unshown,
) -> Result<(), ExplainFault>
    requires same { before.now ≡ plan job.now }
    requires a_is { a < length before.now.packets }
    requires b_is { b < length before.now.packets }
    ensures open { OnOk result
        (Wrote (W.contents writer.old) (W.contents writer.new) (OpenText job.now before.now a b unshown)) }
    ensures unwritten { IfErr result (λ e. e ≡ Memory → writer.new ≡ writer.old) }
{
    let list = advice_on(alloc, job, a, b)?;
    write_open(writer, job, before, a, b, unshown, &list)?;
    Ok(())
}

/// Writes what is to be said of two packets, and answers whether they are ordered. Where there is no memory nothing
/// was written.
pub fn write_pair<W: Write>(
    alloc: Global,
    writer: &mut W,
    job: &Job,
    before: &Before,
    a: usize,
    b: usize,
) -> Result<bool, ExplainFault>
    requires same { before.now ≡ plan job.now }
    requires a_is { a < length before.now.packets }
    requires b_is { b < length before.now.packets }
    ensures said { IfOk result
        (λ ordered. Wrote (W.contents writer.old) (W.contents writer.new) (PairText job.now before.now a b ordered)) }
    ensures unwritten { IfErr result (λ e. e ≡ Memory → writer.new ≡ writer.old) }
{
    match direct(before, a, b) {
        Ok(directed) => {
            write_ordered(writer, job, before, a, b, directed)?;
            Ok(true)
        }
        Err(unshown) => {
            write_unordered(alloc, writer, job, before, a, b, unshown)?;
            Ok(false)
        }
    }
}
