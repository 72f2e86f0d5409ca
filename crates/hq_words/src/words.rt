//! What the words of a command line ask for.

ghost use Rattle.std.specs.Prelude.{◌≡◌, ◌≢◌, [], Some, true, codes, map, option_map, is_some};
ghost use Rattle.std.specs.Prelude.{IfOk, IfErr, IfSome, IsSome};
ghost use Rattle.clap.specs.Lexer.{strip_byte};
ghost use Rattle.clap.specs.Words.{all_of, found_of, rows_of, subcommand_of, subcommand_rows_of, takes};
ghost use Rattle.hq_words.specs.Commands.{hsaq_app};
ghost use Rattle.hq_words.specs.Asking.{Asks, AsksAlone, AsksFor, AsksOfTwo, AsksWith, AsksWords, AuditsAlone, is_set};
ghost use Rattle.hq_words.specs.Asking.{IsWords};

use crate::command::{hsaq, hsaq_alone};
use clap::error::ErrorKind;
use clap::{ArgMatches, Error};
use std::alloc::{AllocError, AllocFailed, Global};

/// What is asked for: one variant for each command, with its words.
#[derive(Drop)]
pub enum Asked<'a> {
    /// A job's packets.
    Show {
        job: &'a str,
    },
    /// The bytes of the packet that these words are.
    Pack {
        words: Vec<&'a str>,
    },
    /// A job's certificate.
    Audit {
        job: &'a str,
    },
    /// Whether a certificate holds for a job.
    Check {
        job: &'a str,
        certificate: &'a str,
    },
    /// A job's buffers after a run, and that run's timeline in a file.
    Run {
        job: &'a str,
        timeline: Option<&'a str>,
    },
    /// A job's buffers after the events of a timeline.
    Replay {
        job: &'a str,
        timeline: &'a str,
    },
    /// A picture of a timeline, with what happens to copies or without.
    Chart {
        job: &'a str,
        timeline: &'a str,
        copies: bool,
    },
    /// A picture of a job's order.
    Graph {
        job: &'a str,
    },
    /// Why conflicts of a job are ordered or aren't: of one pair, of all, or of the first hundred.
    Explain {
        job: &'a str,
        pair: Option<&'a str>,
        second: Option<&'a str>,
        all: bool,
    },
    /// Two runs of a job that isn't ordered, and their timelines in files.
    Witness {
        job: &'a str,
        good: Option<&'a str>,
        bad: Option<&'a str>,
    },
    /// A job's text with what it lacks to be ordered.
    Fix {
        job: &'a str,
    },
    /// A job's text without what it doesn't need to be ordered.
    Trim {
        job: &'a str,
    },
}

/// Why nothing is asked for. `Words` has what `clap` says of the words: a fault, or the help or version that they
/// ask for.
#[derive(Debug, Drop)]
pub enum WordsFault {
    Words(Error),
    Memory,
}

impl From<AllocError> for WordsFault {
    ghost use Rattle.hq_words.specs.Asking.{IsMemory};

    ghost from_gives = { λ _ e. IsMemory e };

    fn from(_e: AllocError) -> WordsFault {
        WordsFault::Memory
    }
}

/// What stands in place of no words at all.
static AUDIT: [&str; 2] = ["audit", "@"];

/// What `clap` makes of the words by the command alone that the first of them names; nothing where there is none, or it
/// doesn't take them.
fn matches_alone<'a>(
    alloc: Global,
    words: &'a [&'a str],
) -> Result<Option<ArgMatches<'a>>, AllocError>
    ensures { IfOk result
        (λ m. IfSome m (λ m. subcommand_rows_of m ≡ subcommand_of hsaq_app (map (λ w. w.now) words.entry.now))) }
{
    let Some(name) = words.first() else {
        return Ok(None);
    };
    let Some(command) = hsaq_alone(alloc, name)? else {
        return Ok(None);
    };
    match command.try_get_matches_from(words) {
        Ok(matches) => Ok(Some(matches)),
        Err(_) => Ok(None),
    }
}

/// What `clap` makes of the words by all commands, which stand in the texts of faults and of help.
#[cold]
#[inline(never)]
fn matches_of_all<'a>(alloc: Global, words: &'a [&'a str]) -> Result<ArgMatches<'a>, WordsFault>
    ensures found { IfOk result
        (λ m. subcommand_rows_of m ≡ subcommand_of hsaq_app (map (λ w. w.now) words.entry.now)) }
    ensures refused { IfErr result (λ f. IsWords f → takes hsaq_app (map (λ w. w.now) words.entry.now) ≢ true) }
{
    let command = hsaq(alloc)?;
    match command.try_get_matches_from(words) {
        Ok(matches) => Ok(matches),
        Err(error) => match error.kind() {
            ErrorKind::OutOfMemory => Err(WordsFault::Memory),
            _ => Err(WordsFault::Words(error)),
        },
    }
}

/// What `clap` makes of the words.
fn matches_of<'a>(alloc: Global, words: &'a [&'a str]) -> Result<ArgMatches<'a>, WordsFault>
    ensures found { IfOk result
        (λ m. subcommand_rows_of m ≡ subcommand_of hsaq_app (map (λ w. w.now) words.entry.now)) }
    ensures refused { IfErr result (λ f. IsWords f → takes hsaq_app (map (λ w. w.now) words.entry.now) ≢ true) }
{
    match matches_alone(alloc, words)? {
        Some(matches) => Ok(matches),
        None => matches_of_all(alloc, words),
    }
}

/// The values of WORDS.
fn pack_words<'a>(alloc: Global, own: &ArgMatches<'a>) -> Result<Vec<&'a str>, AllocError>
    ensures { IfOk result
        (λ words. all_of (codes "WORDS") (rows_of (found_of own.now)) ≡ Some (map (λ w. w.now) words.items)) }
{
    match own.get_strs("WORDS") {
        Some(words) => Vec::from_slice(alloc, words),
        None => Err(AllocError),
    }
}

/// What `witness` asks for with its arguments.
fn asked_of_witness<'a>(own: &ArgMatches<'a>) -> Result<Asked<'a>, AllocError>
    ensures { IfOk result (AsksFor (codes "witness") (rows_of (found_of own.now))) }
{
    let good = own.get_str("GOOD");
    let bad = own.get_str("BAD");
    match own.get_str("JOB") {
        Some(job) => Ok(Asked::Witness { job, good, bad }),
        None => Err(AllocError),
    }
}

/// What the command of a name asks for with its arguments.
fn asked_for<'a>(alloc: Global, name: &str, own: &ArgMatches<'a>) -> Result<Asked<'a>, AllocError>
    ensures { IfOk result (AsksFor name.now (rows_of (found_of own.now))) }
{
    if name == "pack" {
        let words = pack_words(alloc, own)?;
        return Ok(Asked::Pack { words });
    }
    if name == "witness" {
        return asked_of_witness(own);
    }
    match asked_of_files(
        name,
        own.get_str("JOB"),
        own.get_str("CERT"),
        own.get_str("TIMELINE"),
        own.get_str("OUT"),
        own.get_str("COPIES"),
        own.get_str("PAIR"),
        own.get_str("SECOND"),
        own.get_str("ALL"),
    ) {
        Some(asked) => Ok(asked),
        None => Err(AllocError),
    }
}

/// Whether a flag is set.
fn is_set(flag: Option<&str>) -> bool
    ensures { result ≡ is_set (option_map (λ f. f.now) flag.entry) }
{
    match flag {
        Some(word) => word == "true",
        None => false,
    }
}

/// What the command of a name asks for with a job alone.
fn asked_of_job<'a>(name: &str, job: &'a str) -> Option<Asked<'a>>
    ensures { IfSome result (AsksAlone name.now job.entry.now) }
{
    if name == "show" {
        return Some(Asked::Show { job });
    }
    if name == "audit" {
        return Some(Asked::Audit { job });
    }
    if name == "graph" {
        return Some(Asked::Graph { job });
    }
    if name == "fix" {
        return Some(Asked::Fix { job });
    }
    if name == "trim" {
        return Some(Asked::Trim { job });
    }
    None
}

/// What the command of a name asks for with a job and a second file.
fn asked_of_two<'a>(
    name: &str,
    job: &'a str,
    certificate: Option<&'a str>,
    timeline: Option<&'a str>,
    out: Option<&'a str>,
    copies: Option<&'a str>,
) -> Option<Asked<'a>>
    ensures { IfSome result
        (AsksOfTwo name.now job.entry.now (option_map (λ c. c.now) certificate.entry)
        (option_map (λ t. t.now) timeline.entry) (option_map (λ o. o.now) out.entry)
        (option_map (λ f. f.now) copies.entry)) }
{
    if name == "run" {
        return Some(Asked::Run { job, timeline: out });
    }
    if name == "check" {
        let certificate = certificate?;
        return Some(Asked::Check { job, certificate });
    }
    if name == "replay" {
        let timeline = timeline?;
        return Some(Asked::Replay { job, timeline });
    }
    if name == "chart" {
        let timeline = timeline?;
        let copies = is_set(copies);
        return Some(Asked::Chart {
            job,
            timeline,
            copies,
        });
    }
    None
}

/// What the command of a name asks for with these files and these flags.
fn asked_of_files<'a>(
    name: &str,
    job: Option<&'a str>,
    certificate: Option<&'a str>,
    timeline: Option<&'a str>,
    out: Option<&'a str>,
    copies: Option<&'a str>,
    pair: Option<&'a str>,
    second: Option<&'a str>,
    all: Option<&'a str>,
) -> Option<Asked<'a>>
    ensures { IfSome result
        (AsksWith name.now (option_map (λ j. j.now) job.entry) (option_map (λ c. c.now) certificate.entry)
        (option_map (λ t. t.now) timeline.entry) (option_map (λ o. o.now) out.entry)
        (option_map (λ f. f.now) copies.entry) (option_map (λ p. p.now) pair.entry)
        (option_map (λ p. p.now) second.entry) (option_map (λ f. f.now) all.entry)) }
{
    let job = job?;
    if name == "explain" {
        let all = is_set(all);
        return Some(Asked::Explain {
            job,
            pair,
            second,
            all,
        });
    }
    match asked_of_job(name, job) {
        Some(asked) => Some(asked),
        None => asked_of_two(name, job, certificate, timeline, out, copies),
    }
}

/// What is asked for where `clap` accepts words.
#[inline(never)]
fn asked_by_clap<'a>(alloc: Global, words: &'a [&'a str]) -> Result<Asked<'a>, WordsFault>
    ensures asked { IfOk result (Asks (subcommand_of hsaq_app (map (λ w. w.now) words.entry.now))) }
    ensures refused { IfErr result (λ f. IsWords f → takes hsaq_app (map (λ w. w.now) words.entry.now) ≢ true) }
{
    let matches = match matches_of(alloc, words) {
        Ok(matches) => matches,
        Err(fault) => return Err(fault),
    };
    match matches.subcommand() {
        Some((name, own)) => Ok(asked_for(alloc, name, own)?),
        None => Err(WordsFault::Memory),
    }
}

/// Whether `clap` may take a word for an option: it begins with a hyphen.
fn may_be_option(word: &str) -> bool
    ensures { result ≡ is_some (strip_byte 45 word.now) }
{
    matches!(word.as_bytes().first(), Some(b'-'))
}

/// What `audit` with a job and nothing else asks for: the command that is asked for most. `clap` would answer the same,
/// and a small job would wait longer for that than it is audited.
fn audit_of<'a>(words: &'a [&'a str]) -> Option<Asked<'a>>
    ensures asked { IfSome result (Asks (subcommand_of hsaq_app (map (λ w. w.now) words.entry.now))) }
    ensures told { AuditsAlone (map (λ w. w.now) words.entry.now) → IsSome result }
{
    if words.len() != 2 {
        return None;
    }
    let job = words[1];
    if words[0] == "audit" && !may_be_option(job) {
        Some(Asked::Audit { job })
    } else {
        None
    }
}

/// What is asked for by words.
fn asked_of<'a>(alloc: Global, words: &'a [&'a str]) -> Result<Asked<'a>, WordsFault>
    ensures asked { IfOk result (Asks (subcommand_of hsaq_app (map (λ w. w.now) words.entry.now))) }
    ensures refused { IfErr result (λ f. IsWords f → takes hsaq_app (map (λ w. w.now) words.entry.now) ≢ true) }
{
    match audit_of(words) {
        Some(asked) => Ok(asked),
        None => asked_by_clap(alloc, words),
    }
}

/// What the words behind the program's name ask for; no words at all ask for `audit @`. `Words` comes only where
/// there are words and `clap`'s definition takes none of this form.
///
/// # Errors
///
/// `Words` with `clap`'s error where the words ask for nothing that there is; `Memory`.
pub fn command_of<'a>(alloc: Global, words: &'a [&'a str]) -> Result<Asked<'a>, WordsFault>
    ensures asked { IfOk result (AsksWords (map (λ w. w.now) words.entry.now)) }
    ensures some { IfErr result (λ f. IsWords f → words.entry.now ≢ []) }
    ensures refused { IfErr result (λ f. IsWords f → takes hsaq_app (map (λ w. w.now) words.entry.now) ≢ true) }
{
    if words.is_empty() {
        return asked_of(alloc, AUDIT.as_slice());
    }
    asked_of(alloc, words)
}
