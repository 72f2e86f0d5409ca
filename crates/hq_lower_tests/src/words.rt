use hq_calls::good;
use hq_words::{Asked, WordsFault, command_of};
use std::alloc::Global;
use std::test::*;

/// Whether a command that is about a job alone is asked for, about this job.
fn is_of_job(asked: &Asked<'_>, command: &str, wanted: &str) -> bool {
    let (name, job) = match asked {
        Asked::Show { job } => ("show", *job),
        Asked::Audit { job } => ("audit", *job),
        Asked::Graph { job } => ("graph", *job),
        Asked::Fix { job } => ("fix", *job),
        Asked::Trim { job } => ("trim", *job),
        _ => return false,
    };
    name == command && job == wanted
}

/// Whether these words ask for a command about a job alone, about this job.
fn takes_job(alloc: Global, words: &[&str], command: &str, job: &str) -> Result<bool, Fail> {
    let asked = good(command_of(alloc, words))?;
    Ok(is_of_job(&asked, command, job))
}

#[test]
fn no_words_ask_for_an_audit(rt: HostRuntime) -> Result<(), Fail> {
    assert!(rt; takes_job(rt.alloc(), &[], "audit", "@")?);
    Ok(())
}

#[test]
fn each_command_of_a_job_is_taken(rt: HostRuntime) -> Result<(), Fail> {
    for command in ["show", "audit", "graph", "fix", "trim"] {
        assert!(rt;
            takes_job(rt.alloc(), &[command, "a"], command, "a")?,
            "{command}"
        );
    }
    Ok(())
}

/// Whether a command that is about a job and a file is asked for, about job `a` and file `b`.
fn is_of_two(asked: &Asked<'_>, command: &str) -> bool {
    let (name, job, file) = match asked {
        Asked::Check { job, certificate } => ("check", *job, *certificate),
        Asked::Replay { job, timeline } => ("replay", *job, *timeline),
        Asked::Chart {
            job,
            timeline,
            copies: false,
        } => ("chart", *job, *timeline),
        Asked::Chart {
            job,
            timeline,
            copies: true,
        } => ("chart --copies", *job, *timeline),
        _ => return false,
    };
    name == command && job == "a" && file == "b"
}

/// Whether these words ask for a command about job `a` and file `b`.
fn takes_two(alloc: Global, words: &[&str], command: &str) -> Result<bool, Fail> {
    let asked = good(command_of(alloc, words))?;
    Ok(is_of_two(&asked, command))
}

#[test]
fn each_command_of_a_job_and_a_file_is_taken(rt: HostRuntime) -> Result<(), Fail> {
    for command in ["check", "replay", "chart"] {
        assert!(rt;
            takes_two(rt.alloc(), &[command, "a", "b"], command)?,
            "{command}"
        );
    }
    assert!(rt;
        takes_two(
            rt.alloc(),
            &["chart", "a", "b", "--copies"],
            "chart --copies"
        )?
    );
    Ok(())
}

/// Whether these words ask for a packet's bytes.
fn takes_packet(alloc: Global, words: &[&str]) -> Result<bool, Fail> {
    let asked = good(command_of(alloc, words))?;
    Ok(matches!(asked, Asked::Pack { .. }))
}

/// Whether these words ask to explain the pair 0 and 2 of job `a`.
fn takes_pair(alloc: Global, words: &[&str]) -> Result<bool, Fail> {
    let asked = good(command_of(alloc, words))?;
    Ok(matches!(
        asked,
        Asked::Explain {
            job: "a",
            pair: Some("0"),
            second: Some("2"),
            all: false
        }
    ))
}

/// Whether these words ask to explain all of job `a`.
fn takes_all(alloc: Global, words: &[&str]) -> Result<bool, Fail> {
    let asked = good(command_of(alloc, words))?;
    Ok(matches!(
        asked,
        Asked::Explain {
            job: "a",
            pair: None,
            second: None,
            all: true
        }
    ))
}

#[test]
fn other_commands_are_taken(rt: HostRuntime) -> Result<(), Fail> {
    assert!(rt; takes_packet(rt.alloc(), &["pack", "and", "0"])?);
    assert!(rt; takes_pair(rt.alloc(), &["explain", "a", "--pair", "0", "2"])?);
    assert!(rt; takes_all(rt.alloc(), &["explain", "a", "--all"])?);
    Ok(())
}

/// Whether these words are refused.
fn are_refused(alloc: Global, words: &[&str]) -> bool {
    matches!(command_of(alloc, words), Err(WordsFault::Words(_)))
}

#[test]
fn other_words_are_refused(rt: HostRuntime) {
    assert!(rt; are_refused(rt.alloc(), &["prove", "a"]));
}
