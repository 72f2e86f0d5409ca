//! The program `hsaq` as far as it judges: `audit`, `check`, `show` and `pack`. It is there before the whole program
//! is, which has all commands.
#![tactic(auto)]

ghost use Rattle.std.specs.Prelude.{IfOk, map};
ghost use Rattle.hq_commands.specs.Judged.{IsToJudge, JudgeReport};
ghost use Rattle.hq_status.specs.Reports.{Reported};
ghost use Rattle.hq_words.specs.Asking.{AsksWords};
ghost use Rattle.hq_words.specs.declared.words.Asked.{Asked as Command};

use hq_commands::judged;
use hq_front::{exit_code, finished, say_words, texts_of, words_of};
use hq_status::{Status, say_memory};
use hq_words::{Asked, WordsFault, command_of};
use std::io;
use std::io::{BufWriter, Write};
use std::process::ExitCode;
use std::thread::Threads;

/// Says that a command isn't this program's.
fn say_missing(rt: &HostRuntime) -> Status {
    let _ = eprintln!(rt; "hsaq: this program has `audit`, `check`, `show` and `pack` alone");
    Status::Words
}

/// Does what is asked for, where that is to judge.
fn answer<W: Write>(
    rt: &HostRuntime,
    threads: &(impl Threads + Sync),
    asked: &Asked<'_>,
    writer: &mut W,
) -> Status
    ensures { IsToJudge asked.now
        → Reported (JudgeReport asked.now) (W.contents writer.old) (W.contents writer.new) result }
{
    match judged(rt, threads, asked, writer) {
        Some(status) => status,
        None => say_missing(rt),
    }
}

/// Does what the words of a command line ask for, where that is to judge, and writes the answer.
///
/// # Errors
///
/// Why the words ask for nothing; or that there is no memory.
fn answer_words<'a, W: Write>(
    rt: &HostRuntime,
    threads: &(impl Threads + Sync),
    words: &'a [&'a str],
    writer: &mut W,
) -> Result<Status, WordsFault>
    ensures { IfOk result
        (λ status. (asked : Command) × AsksWords (map (λ w. w.now) words.entry.now) asked
        × (IsToJudge asked → Reported (JudgeReport asked) (W.contents writer.old) (W.contents writer.new) status)) }
{
    match command_of(rt.alloc(), words) {
        Ok(asked) => Ok(answer(rt, threads, &asked, writer)),
        Err(fault) => Err(fault),
    }
}

/// Runs the program on the words of the command line.
fn run_on_arguments(rt: &HostRuntime, threads: &(impl Threads + Sync)) -> io::Result<Status> {
    let words = words_of(rt)?;
    let texts = texts_of(rt.alloc(), &words)?;
    let mut stdout = rt.stdout();
    let Ok(mut writer) = BufWriter::new(rt.alloc(), &mut stdout) else {
        return Ok(say_memory(&mut rt.stdout()));
    };
    Ok(match answer_words(rt, threads, &texts, &mut writer) {
        Ok(status) => finished(rt, &mut writer, status),
        Err(fault) => say_words(rt, &fault),
    })
}

fn main(rt: HostRuntime) -> ExitCode {
    let ended = run_on_arguments(&rt, &rt);
    exit_code(&rt, ended)
}
