//! Why packets are before others, step by step.

ghost use Rattle.std.specs.Prelude.{◌<◌, OnOk, Some, length};
ghost use Rattle.std.specs.Io.KnownBytes.{Appends};
ghost use Rattle.hq_model.specs.Order as order;
ghost use Rattle.hq_order.specs.Rounds.{IsFirstWithin};
ghost use Rattle.hq_graph.specs.Graph.{Where, Wrote, named_by};
ghost use Rattle.hq_graph.specs.Order.{HasRule};
ghost use Rattle.hq_explain.specs.Explain.{PathText, StepsText};
ghost use Rattle.hq_explain.specs.Texts.{path_title, rule_text, step_line};

use hq_graph::{NameWord, Rule, named_by, rule_in};
use hq_job::Job;
use hq_order::Before;
use hq_text::Name;
use std::io::Write;
use std::{fmt, io};

/// A rule, with the name of the signal that it names.
#[derive(Clone, Copy)]
struct RuleWords {
    rule: Rule,
    name: Option<Name>,
}

impl fmt::Display for RuleWords {
    ghost output = { λ r. Some (rule_text r.rule r.name) };

    fn fmt<W: fmt::Write>(&self, f: &mut fmt::Formatter<W>) -> fmt::Result {
        let name = NameWord(self.name);
        match self.rule {
            Rule::Bit(j) => write!(f, "barrier bit of packet {j}"),
            Rule::Queue => f.write_str("barrier packet ahead in its queue"),
            Rule::And(_) => write!(f, "barrier-AND on {name}"),
            Rule::Or => f.write_str("barrier-OR, whichever signal it sees"),
        }
    }
}

/// Two packets of a step.
#[derive(Clone, Copy, Debug)]
struct StepWords {
    p: usize,
    r: usize,
}

impl fmt::Display for StepWords {
    ghost use Rattle.hq_explain.specs.Texts.{step_words};

    ghost output = { λ s. Some (step_words s.p s.r) };

    fn fmt<W: fmt::Write>(&self, f: &mut fmt::Formatter<W>) -> fmt::Result {
        let p = self.p;
        let r = self.r;
        write!(f, "    {p} before {r}")
    }
}

/// Writes a step, with the rule that makes it.
fn write_rule<W: Write>(writer: &mut W, job: &Job, p: usize, r: usize, rule: Rule) -> io::Result<()>
    ensures { OnOk result (Appends (W.contents writer.old) (W.contents writer.new) (step_line job.now p r rule)) }
{
    let step = StepWords { p, r };
    let words = RuleWords {
        rule,
        name: named_by(job, rule),
    };
    write!(writer, "{step}: {words}\n")
}

/// Writes the step from p to r, which one rule makes.
fn write_step<W: Write>(
    writer: &mut W,
    job: &Job,
    before: &Before,
    p: usize,
    r: usize,
) -> io::Result<()>
    requires p_is { p < length before.now.packets }
    requires r_is { r < length before.now.packets }
    requires direct { HasRule before.now p r }
    ensures { OnOk result (Wrote (W.contents writer.old) (W.contents writer.new) (StepsText job.now before.now p r)) }
{
    let rule = rule_in(before.job(), p, r);
    write_rule(writer, job, p, r, rule)
}

/// Writes the steps from p to r, which p is before first in this round.
fn write_steps<W: Write>(
    writer: &mut W,
    job: &Job,
    before: &Before,
    round: usize,
    p: usize,
    r: usize,
) -> io::Result<()>
    requires { IsFirstWithin before.now round p r }
    ensures { OnOk result (Wrote (W.contents writer.old) (W.contents writer.new) (StepsText job.now before.now p r)) }
{
    match before.middle(round, p, r) {
        Some(m) => {
            let first = before.first_round(p, m);
            write_steps(writer, job, before, first, p, m)?;
            let second = before.first_round(m, r);
            write_steps(writer, job, before, second, m, r)
        }
        None => write_step(writer, job, before, p, r),
    }
}

/// Writes what opens a path.
fn write_title<W: Write>(writer: &mut W, p: usize, r: usize) -> io::Result<()>
    ensures { OnOk result (Appends (W.contents writer.old) (W.contents writer.new) (path_title p r)) }
{
    write!(
        writer,
        "  packet {p} is complete before packet {r} is active:\n"
    )
}

/// Writes why p is before r, step by step.
fn write_there<W: Write>(
    writer: &mut W,
    job: &Job,
    before: &Before,
    p: usize,
    r: usize,
) -> io::Result<()>
    requires { order.Before before.now p r }
    ensures { OnOk result (Wrote (W.contents writer.old) (W.contents writer.new) (PathText job.now before.now p r)) }
{
    write_title(writer, p, r)?;
    let round = before.first_round(p, r);
    write_steps(writer, job, before, round, p, r)
}

/// Writes why p is before r, where it is, step by step.
pub fn write_path<W: Write>(
    writer: &mut W,
    job: &Job,
    before: &Before,
    p: usize,
    r: usize,
) -> io::Result<()>
    ensures { OnOk result
        (Wrote (W.contents writer.old) (W.contents writer.new)
        (Where (order.Before before.now p r) (PathText job.now before.now p r))) }
{
    if before.holds(p, r) {
        write_there(writer, job, before, p, r)
    } else {
        Ok(())
    }
}
