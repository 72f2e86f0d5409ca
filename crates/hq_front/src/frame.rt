//! From the words of a command line to an exit status.

ghost use Rattle.std.specs.Prelude.{◌≡◌, ◌⊎◌, IfOk, map};
ghost use Rattle.std.specs.Io.KnownBytes.{Keeps};
ghost use Rattle.std.specs.Process.{exit_status};
ghost use Rattle.std.specs.String.{string_bytes};
ghost use Rattle.hq_status.specs.Statuses.{code_of};

use hq_plain::explain;
use hq_status::{Status, say_memory};
use hq_words::WordsFault;
use std::alloc::{AllocError, Global};
use std::io::Write;
use std::process::ExitCode;
use std::{env, io};

/// The words behind the program's name.
///
/// # Errors
///
/// `io::Error` where a word isn't UTF-8, or there is no memory.
pub fn words_of(rt: &HostRuntime) -> io::Result<Vec<String>> {
    Ok(env::args(rt)?.skip(1).collect::<Vec<String>>(rt.alloc())?)
}

/// The texts of words.
///
/// # Errors
///
/// `AllocError` where there is no memory.
pub fn texts_of(alloc: Global, words: &[String]) -> Result<Vec<&str>, AllocError>
    ensures { IfOk result (λ texts. map (λ text. text.now) texts.items ≡ map (λ word. string_bytes word) words.now) }
{
    let mut texts = Vec::with_capacity(alloc, words.len())?;
    for word in words {
        texts.push(word.as_str())?;
    }
    Ok(texts)
}

/// What `clap` says of words: a fault on standard error; the help or the version, which is asked for, on standard
/// output.
fn say_error(rt: &HostRuntime, error: &clap::Error) -> Status {
    match (error.print(rt), error.use_stderr()) {
        (Err(_), _) => Status::File,
        (Ok(()), true) => Status::Words,
        (Ok(()), false) => Status::Done,
    }
}

/// Writes that there was no memory before a command was asked for, and says so in plain words.
fn say_no_memory(rt: &HostRuntime) -> Status {
    let status = say_memory(&mut rt.stdout());
    explain(rt, &status);
    status
}

/// Says why words ask for no command.
pub fn say_words(rt: &HostRuntime, fault: &WordsFault) -> Status {
    match fault {
        WordsFault::Words(error) => say_error(rt, error),
        WordsFault::Memory => say_no_memory(rt),
    }
}

/// Writes what is held back, and answers the status; where that fails it is `File`.
fn flushed<W: Write>(writer: &mut W, status: Status) -> Status
    ensures kept { Keeps (W.contents writer.old) (W.contents writer.new) }
    ensures same { (result ≡ status) ⊎ (result ≡ Status.File) }
{
    match writer.flush() {
        Ok(()) => status,
        Err(_) => Status::File,
    }
}

/// Writes what is held back of an answer, and says in plain words how the command ended. The status is `File` where
/// that can't be written.
pub fn finished<W: Write>(rt: &HostRuntime, writer: &mut W, status: Status) -> Status
    ensures kept { Keeps (W.contents writer.old) (W.contents writer.new) }
    ensures same { (result ≡ status) ⊎ (result ≡ Status.File) }
{
    let status = flushed(writer, status);
    explain(rt, &status);
    status
}

/// Says that a word isn't text.
fn say_no_text(rt: &HostRuntime) -> Status {
    let _ = eprintln!(rt;
        "hsaq: a word isn't UTF-8; a file whose name isn't can be given as standard input, by `@`"
    );
    Status::Words
}

/// The exit status of a program that ended so, or whose words couldn't be had.
pub fn exit_code(rt: &HostRuntime, ended: io::Result<Status>) -> ExitCode
    ensures { IfOk ended (λ status. exit_status result ≡ code_of status) }
{
    let status = match ended {
        Ok(status) => status,
        Err(error) => match error.kind() {
            io::ErrorKind::OutOfMemory => say_no_memory(rt),
            _ => say_no_text(rt),
        },
    };
    ExitCode::from(status.code())
}
