//! The command `explain`, and which pairs its words ask for.

ghost use Rattle.std.specs.Prelude.{◌≡◌, option_map};
ghost use Rattle.hq_cli.specs.Answered.{ExplainAnswer, pair_of, which_of};
ghost use Rattle.hq_engines.specs.Explain.{ExplainReport};
ghost use Rattle.hq_front.specs.Files.{FileReport};
ghost use Rattle.hq_status.specs.Reports.{JobTextReport, Reported};
ghost use Rattle.hq_text.specs.Numbers.{number_of as number_in};

use hq_engines::explain_engine;
use hq_explain::Which;
use hq_front::opened;
use hq_status::Status;
use hq_text::number_of;
use std::io::Write;

/// The pair of two words, where these are numbers.
fn pair_of(p: &str, r: &str) -> Option<Which>
    ensures { result ≡ pair_of (number_in p.now) (number_in r.now) }
{
    let p = number_of(p.as_bytes())?;
    let r = number_of(r.as_bytes())?;
    Some(Which::Pair(p as usize, r as usize))
}

/// Which pairs are to be explained, where the words say that.
fn which_of(pair: Option<&str>, second: Option<&str>, all: bool) -> Option<Which>
    ensures { result ≡ which_of (option_map (λ p. p.now) pair.entry) (option_map (λ p. p.now) second.entry) all }
{
    match (pair, second) {
        (Some(p), Some(r)) => pair_of(p, r),
        (None, None) if all => Some(Which::All),
        (None, None) => Some(Which::First),
        _ => None,
    }
}

/// Explains pairs of a file's job.
fn explain_job<W: Write>(rt: &HostRuntime, job: &str, which: Which, writer: &mut W) -> Status
    ensures { Reported (FileReport (JobTextReport (ExplainReport which))) (W.contents writer.old)
        (W.contents writer.new) result }
{
    match opened(rt, job, writer) {
        Ok(mut input) => explain_engine(rt.alloc(), &mut input, which, writer),
        Err(status) => status,
    }
}

/// Explains the pairs that are asked for, if it is told which those are.
pub fn explain_asked<W: Write>(
    rt: &HostRuntime,
    job: &str,
    pair: Option<&str>,
    second: Option<&str>,
    all: bool,
    writer: &mut W,
) -> Status
    ensures { Reported (ExplainAnswer
        (which_of (option_map (λ p. p.now) pair.entry) (option_map (λ p. p.now) second.entry) all))
        (W.contents writer.old) (W.contents writer.new) result }
{
    match which_of(pair, second, all) {
        Some(which) => explain_job(rt, job, which, writer),
        None => Status::PairWords,
    }
}
