//! What stands behind the names of lines: numbers and citations.

ghost use Rattle.std.specs.Prelude.{◌≡◌, map};
ghost use Rattle.hq_certread.specs.LineTests.{number_said, next_said, citation_said, below, cited_below, numbers_said};
ghost use Rattle.hq_certread.specs.LineTests.{citations_said, all_below};
ghost use Rattle.hq_certread.specs.Gives.{Gives};
ghost use Rattle.hq_cert.specs.View.{cited};

use crate::fault::CertReason;
use hq_cert::Citation;
use hq_text::number_of;
use std::alloc::Global;

/// The number that a word is, at most 4294967295.
#[tactic(auto, unfolding(crate::specs::LineTests::number_said))]
pub fn number_said(word: &[u8]) -> Result<u32, CertReason>
    ensures { result ≡ number_said word.now }
{
    match number_of(word) {
        Some(n) if n <= 4_294_967_295 => Ok(n as u32),
        _ => Err(CertReason::Number),
    }
}

/// The number k, and no other.
#[tactic(auto, unfolding(crate::specs::LineTests::next_said))]
pub fn next_said(k: u32, word: &[u8]) -> Result<u32, CertReason>
    ensures { result ≡ next_said k word.now }
{
    let number = number_said(word)?;
    if number != k {
        return Err(CertReason::Number);
    }
    Ok(number)
}

/// The number of a line, or None for `=`.
#[tactic(auto, unfolding(crate::specs::LineTests::citation_said))]
pub fn citation_said(word: &[u8]) -> Result<Option<u32>, CertReason>
    ensures { result ≡ citation_said word.now }
{
    if word == b"=".as_slice() {
        return Ok(None);
    }
    Ok(Some(number_said(word)?))
}

/// The number of a line that is cited, which stands below the limit.
#[tactic(auto, unfolding(crate::specs::LineTests::below))]
pub fn below(limit: usize, number: u32) -> Result<u32, CertReason>
    ensures { result ≡ below limit number }
{
    if (number as usize) < limit {
        Ok(number)
    } else {
        Err(CertReason::Citation)
    }
}

/// A citation of a line below the limit, or `=`. There is no room for one of the last line that 32 bits number.
#[tactic(auto, unfolding(crate::specs::LineTests::below))]
pub fn cited_below(limit: usize, number: Option<u32>) -> Result<Citation, CertReason>
    ensures { Gives cited result (cited_below limit number) }
{
    match number {
        None => Ok(Citation::same()),
        Some(number) if (number as usize) >= limit => Err(CertReason::Citation),
        Some(number) if number < u32::MAX => Ok(Citation::line(number)),
        Some(_) => Err(CertReason::Memory),
    }
}

/// The numbers that words are.
pub fn numbers_said(alloc: Global, words: &[&[u8]]) -> Result<Vec<u32>, CertReason>
    ensures { Gives (λ v. v.items) result (numbers_said (map (λ w. w.now) words.now)) }
{
    let mut numbers = Vec::with_capacity(alloc, words.len())?;
    for word in words {
        numbers.push(number_said(word)?)?;
    }
    Ok(numbers)
}

/// What words cite.
pub fn citations_said(alloc: Global, words: &[&[u8]]) -> Result<Vec<Option<u32>>, CertReason>
    ensures { Gives (λ v. v.items) result (citations_said (map (λ w. w.now) words.now)) }
{
    let mut citations = Vec::with_capacity(alloc, words.len())?;
    for word in words {
        citations.push(citation_said(word)?)?;
    }
    Ok(citations)
}

/// Citations of lines below the limit.
pub fn all_below(
    alloc: Global,
    limit: usize,
    numbers: &[Option<u32>],
) -> Result<Vec<Citation>, CertReason>
    ensures { Gives (λ v. map cited v.items) result (all_below limit numbers.now) }
{
    let mut citations = Vec::with_capacity(alloc, numbers.len())?;
    for number in numbers {
        citations.push(cited_below(limit, *number)?)?;
    }
    Ok(citations)
}
