//! Lines read.

ghost use Rattle.std.specs.Prelude.{map};
ghost use Rattle.hq_certread.specs.LineTests.{bit_said, and_said, or_said, through_of, through_said, rule_said};
ghost use Rattle.hq_certread.specs.LineTests.{line_said};
ghost use Rattle.hq_certread.specs.LineTests as tests;
ghost use Rattle.hq_certread.specs.Gives.{Gives};
ghost use Rattle.hq_cert.specs.View.{rule_of, line_of};

use crate::fault::CertReason;
use crate::forms::{RuleKind, rule_kind};
use crate::operands::{all_below, below, citations_said, next_said, number_said};
use hq_cert::{Branches, Line, Rule};
use std::alloc::Global;

#[tactic(auto, unfolding(crate::specs::LineTests::bit_said))]
fn bit_said(words: &[&[u8]]) -> Result<Rule, CertReason>
    ensures { Gives rule_of result (bit_said (map (λ w. w.now) words.now)) }
{
    match words {
        [packet] => Ok(Rule::Bit(number_said(packet)?)),
        _ => Err(CertReason::Word),
    }
}

#[tactic(auto, unfolding(crate::specs::LineTests::and_said))]
fn and_said(words: &[&[u8]]) -> Result<Rule, CertReason>
    ensures { Gives rule_of result (and_said (map (λ w. w.now) words.now)) }
{
    match words {
        [slot] => Ok(Rule::And(number_said(slot)?)),
        _ => Err(CertReason::Word),
    }
}

#[tactic(auto, unfolding(crate::specs::LineTests::or_said))]
fn or_said(alloc: Global, k: u32, words: &[&[u8]]) -> Result<Rule, CertReason>
    ensures { Gives rule_of result (or_said k (map (λ w. w.now) words.now)) }
{
    let numbers = citations_said(alloc, words)?;
    let citations = all_below(alloc, k as usize, &numbers)?;
    let branches = Box::new(alloc, Branches { citations })?;
    Ok(Rule::Or(branches))
}

#[tactic(auto, unfolding(crate::specs::LineTests::through_of))]
fn through_of(k: u32, first: &[u8], second: &[u8]) -> Result<Rule, CertReason>
    ensures { Gives rule_of result (through_of k first.now second.now) }
{
    let first = number_said(first)?;
    let second = number_said(second)?;
    let first = below(k as usize, first)?;
    let second = below(k as usize, second)?;
    Ok(Rule::Through(first, second))
}

#[tactic(auto, unfolding(crate::specs::LineTests::through_said))]
fn through_said(k: u32, words: &[&[u8]]) -> Result<Rule, CertReason>
    ensures { Gives rule_of result (through_said k (map (λ w. w.now) words.now)) }
{
    match words {
        [first, second] => through_of(k, first, second),
        _ => Err(CertReason::Word),
    }
}

#[tactic(auto, unfolding(crate::specs::LineTests::rule_said))]
fn rule_said(alloc: Global, k: u32, kind: RuleKind, words: &[&[u8]]) -> Result<Rule, CertReason>
    ensures { Gives rule_of result (rule_said k kind (map (λ w. w.now) words.now)) }
{
    match kind {
        RuleKind::Bit => bit_said(words),
        RuleKind::Queue => Ok(Rule::Queue),
        RuleKind::And => and_said(words),
        RuleKind::Or => or_said(alloc, k, words),
        RuleKind::Through => through_said(k, words),
    }
}

#[tactic(auto, unfolding(crate::specs::LineTests::line_of))]
fn line_of(
    alloc: Global,
    k: u32,
    number: &[u8],
    p: &[u8],
    r: &[u8],
    kind: RuleKind,
    operands: &[&[u8]],
) -> Result<Line, CertReason>
    ensures { Gives line_of result (tests.line_of k number.now p.now r.now kind (map (λ w. w.now) operands.now)) }
{
    next_said(k, number)?;
    let p = number_said(p)?;
    let r = number_said(r)?;
    let rule = rule_said(alloc, k, kind, operands)?;
    Ok(Line { p, r, rule })
}

/// Line k, by the words behind `line`.
#[tactic(auto, unfolding(crate::specs::LineTests::line_said))]
pub fn line_said(alloc: Global, k: u32, words: &[&[u8]]) -> Result<Line, CertReason>
    ensures { Gives line_of result (line_said k (map (λ w. w.now) words.now)) }
{
    let [number, p, r, name, operands @ ..] = words else {
        return Err(CertReason::Word);
    };
    match rule_kind(name, operands.len()) {
        Some(kind) => line_of(alloc, k, number, p, r, kind, operands),
        None => Err(CertReason::Word),
    }
}
