//! Faults of certificates, timelines and runs in plain words.

ghost use Rattle.std.specs.Prelude.{◌≡◌, Some};
ghost use Rattle.hq_plain.specs.Faults.{cert_reason, cert_words, check_words, time_reason, time_words};
ghost use Rattle.hq_plain.specs.Faults.{failure_words};

use hq_certread::{CertFault, CertReason};
use hq_status::{CheckFault, RunFailure, TimelineFault, TimelineReason};
use std::fmt;

/// What is wrong with a certificate's line.
fn words_of_cert(reason: CertReason) -> &'static str
    ensures { result.now ≡ cert_reason reason }
{
    match reason {
        CertReason::Word => {
            "an unknown or misplaced first word, an unknown rule or kind, a wrong count of words, or a line behind \
             `end`"
        }
        CertReason::Number => {
            "no number up to 4294967295, a line's number out of turn, or `=` where it may not stand"
        }
        CertReason::Citation => "a citation of a line that isn't lower, or isn't there",
        CertReason::NoEnd => "the text ends without `end`",
        CertReason::Memory => "out of memory",
    }
}

/// The refusal of a certificate's text: the line, and what is wrong with it.
#[derive(Clone, Copy, Debug)]
pub struct CertWords(pub CertFault);

impl fmt::Display for CertWords {
    ghost output = { λ w. Some (cert_words w.0) };

    fn fmt<W: fmt::Write>(&self, f: &mut fmt::Formatter<W>) -> fmt::Result {
        let line = self.0.line;
        let reason = words_of_cert(self.0.reason);
        write!(f, "in the certificate, line {line}: {reason}")
    }
}

/// Why a certificate doesn't hold.
#[derive(Clone, Copy, Debug)]
pub struct CheckWords(pub CheckFault);

impl fmt::Display for CheckWords {
    ghost output = { λ w. Some (check_words w.0) };

    fn fmt<W: fmt::Write>(&self, f: &mut fmt::Formatter<W>) -> fmt::Result {
        match self.0 {
            CheckFault::Order => f.write_str("the packets can't come in this order"),
            CheckFault::Line(k) => {
                write!(f, "a line that doesn't follow from what it cites: line {k}")
            }
            CheckFault::PairMissing(p, r) => {
                write!(f, "a conflict without its pair line: packets {p} {r}")
            }
            CheckFault::Pair(p, r) => write!(f, "a pair line that doesn't hold: packets {p} {r}"),
        }
    }
}

/// What is wrong with a timeline's line.
fn words_of_time(reason: TimelineReason) -> &'static str
    ensures { result.now ≡ time_reason reason }
{
    match reason {
        TimelineReason::Word => {
            "an unknown or misplaced first word, a wrong count of words, or a line behind `end`"
        }
        TimelineReason::Number => "no number up to 4294967295",
        TimelineReason::NoEnd => "the text ends without `end`",
    }
}

/// The refusal of a timeline's text: the line, and what is wrong with it.
#[derive(Clone, Copy, Debug)]
pub struct TimeWords(pub TimelineFault);

impl fmt::Display for TimeWords {
    ghost output = { λ w. Some (time_words w.0) };

    fn fmt<W: fmt::Write>(&self, f: &mut fmt::Formatter<W>) -> fmt::Result {
        let line = self.0.line;
        let reason = words_of_time(self.0.reason);
        write!(f, "in the timeline, line {line}: {reason}")
    }
}

/// Why a run was stopped.
#[derive(Clone, Copy, Debug)]
pub struct FailureWords(pub RunFailure);

impl fmt::Display for FailureWords {
    ghost output = { λ w. Some (failure_words w.0) };

    fn fmt<W: fmt::Write>(&self, f: &mut fmt::Formatter<W>) -> fmt::Result {
        match self.0 {
            RunFailure::Kernel(packet) => {
                write!(
                    f,
                    "the body of packet {packet} failed, and the run was stopped"
                )
            }
            RunFailure::Split => f.write_str(
                "the signals' words and the record of the run tell of different events",
            ),
            RunFailure::Receipts(_) => {
                f.write_str("what a thread says that it did isn't what was done")
            }
            RunFailure::Unfinished => {
                f.write_str("the run stopped before all packets were complete")
            }
        }
    }
}
