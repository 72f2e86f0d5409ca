//! The program `hsaq`: checks how the packets of HSA user-mode queues are ordered, and runs them.
#![tactic(auto)]

ghost use Rattle.std.specs.Prelude.{IfOk, map};
ghost use Rattle.hq_cli.specs.Answered.{AnswerReport};
ghost use Rattle.hq_commands.specs.Judged.{IsToJudge};
ghost use Rattle.hq_status.specs.Reports.{Reported};
ghost use Rattle.hq_words.specs.Asking.{AsksWords};
ghost use Rattle.hq_words.specs.declared.words.Asked.{Asked as Command};

mod changing;
mod explaining;
mod progress;
mod reading;
mod running;

use explaining::explain_asked;
use hq_commands::judged;
use hq_engines::Aim;
use hq_front::{exit_code, finished, say_words, texts_of, words_of};
use hq_status::{Status, say_memory};
use hq_words::{Asked, WordsFault, command_of};
use reading::{change, chart, graph, replay};
use running::{run, witness};
use std::io;
use std::io::{BufWriter, Write};
use std::process::ExitCode;
use std::sync::Wait;
use std::thread::Threads;

/// Does what is asked for beside judging. A function of its own, so that to judge needs no room on the stack for that.
#[inline(never)]
fn answer_else<W: Write>(
    rt: &HostRuntime,
    threads: &(impl Threads + Wait + Sync),
    asked: &Asked<'_>,
    writer: &mut W,
) -> Status
    requires { ¬ IsToJudge asked.now }
    ensures { Reported (AnswerReport asked.now) (W.contents writer.old) (W.contents writer.new) result }
{
    match asked {
        Asked::Run { job, timeline } => run(rt, threads, job, *timeline, writer),
        Asked::Replay { job, timeline } => replay(rt, job, timeline, writer),
        Asked::Chart {
            job,
            timeline,
            copies,
        } => chart(rt, job, timeline, *copies, writer),
        Asked::Graph { job } => graph(rt, job, writer),
        Asked::Witness { job, good, bad } => witness(rt, job, *good, *bad, writer),
        Asked::Fix { job } => change(rt, job, Aim::Fix, writer),
        Asked::Trim { job } => change(rt, job, Aim::Trim, writer),
        Asked::Explain {
            job,
            pair,
            second,
            all,
        } => explain_asked(rt, job, *pair, *second, *all, writer),
        Asked::Show { .. } | Asked::Pack { .. } | Asked::Audit { .. } | Asked::Check { .. } => {
            unreachable!()
        }
    }
}

/// Does what is asked for, and writes the answer.
fn answer<W: Write>(
    rt: &HostRuntime,
    threads: &(impl Threads + Wait + Sync),
    asked: &Asked<'_>,
    writer: &mut W,
) -> Status
    ensures { Reported (AnswerReport asked.now) (W.contents writer.old) (W.contents writer.new) result }
{
    match judged(rt, threads, asked, writer) {
        Some(status) => status,
        None => answer_else(rt, threads, asked, writer),
    }
}

/// Does what the words of a command line ask for, and writes the answer.
///
/// # Errors
///
/// Why the words ask for nothing; or that there is no memory.
fn answer_words<'a, W: Write>(
    rt: &HostRuntime,
    threads: &(impl Threads + Wait + Sync),
    words: &'a [&'a str],
    writer: &mut W,
) -> Result<Status, WordsFault>
    ensures { IfOk result
        (λ status. (asked : Command) × AsksWords (map (λ w. w.now) words.entry.now) asked
        × Reported (AnswerReport asked) (W.contents writer.old) (W.contents writer.new) status) }
{
    match command_of(rt.alloc(), words) {
        Ok(asked) => Ok(answer(rt, threads, &asked, writer)),
        Err(fault) => Err(fault),
    }
}

/// Runs the program on the words of the command line.
fn run_on_arguments(
    rt: &HostRuntime,
    threads: &(impl Threads + Wait + Sync),
) -> io::Result<Status> {
    let words = words_of(rt)?;
    let texts = texts_of(rt.alloc(), &words)?;
    let mut stdout = rt.stdout();
    let Ok(mut writer) = BufWriter::new(rt.alloc(), &mut stdout) else {
        return Ok(say_memory(&mut rt.stdout()));
    };
    Ok(match answer_words(rt, threads, &texts, &mut writer) {
        Ok(status) => finished(rt, &mut writer, status),
        Err(fault) => say_words(rt, &fault),
    })
}

fn main(rt: HostRuntime) -> ExitCode {
    let ended = run_on_arguments(&rt, &rt);
    exit_code(&rt, ended)
}
