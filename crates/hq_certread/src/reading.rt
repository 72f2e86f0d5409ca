//! Texts to certificates.

ghost use Rattle.std.specs.Prelude.{◌≡◌, ℕ, ◌+◌, ◌<◌, ◌⊎◌, List, map, length, IfOk, IfErr, OnOk};
ghost use Rattle.hq_text.specs.LineByLine.{AdmitsAll};
ghost use Rattle.hq_text.specs.Lines.{lines_of, words_of};
ghost use Rattle.hq_model.specs.Certificate as model;
ghost use Rattle.hq_certread.specs.DraftView.{behind, kept_of, state_of};
ghost use Rattle.hq_certread.specs.Gives.{Gives, GivesCertificate, TakesAll, ReadOf, no_memory};
ghost use Rattle.hq_certread.specs.SoFar.{ReadBehind};
ghost use Rattle.hq_certtext.specs.Grammar.{CertText};
ghost use Rattle.hq_certread.specs.TextFaults.{FirstFault, added, at_line, start};

use crate::draft::Draft;
use crate::fault::{CertFault, CertReason};
use crate::threes::Threes;
use hq_cert::Certificate;
use hq_text::first_line;
use std::alloc::{AllocError, Global};

/// Out of memory, told of line 0.
pub const NO_MEMORY: CertFault = CertFault {
    line: 0,
    reason: CertReason::Memory,
};

/// A fault at a line, or out of memory at line 0.
fn fault_at(line: usize, reason: CertReason) -> CertFault
    ensures { ((reason ≡ CertReason.Memory) × (result ≡ no_memory))
        ⊎ ((¬ (reason ≡ CertReason.Memory)) × (result ≡ at_line line reason)) }
{
    match reason {
        CertReason::Memory => NO_MEMORY,
        _ => CertFault { line, reason },
    }
}

/// Puts a line's words in the place of those that are there.
fn split_words<'a>(words: &mut Vec<&'a [u8]>, line: &'a [u8]) -> Result<(), AllocError>
    ensures { OnOk result (map (λ w. w.now) words.new.items ≡ words_of line.now) }
{
    words.clear();
    words.extend(line.split(|b| *b == b' '))
}

/// Takes in the next line, by its words.
fn take_words<'a>(
    draft: &mut Draft,
    alloc: Global,
    words: &mut Vec<&'a [u8]>,
    line: &'a [u8],
) -> Result<(), CertReason>
    ensures adds { Gives (λ u. state_of draft.new) result (added (state_of draft.old) (words_of line.now)) }
    ensures gone { draft.new.gone ≡ draft.old.gone }
{
    split_words(words, line)?;
    draft.add(alloc, words)
}

/// So many lines more.
fn counted(count: usize, more: usize) -> Result<usize, CertFault>
    ensures found { IfOk result (λ n. n ≡ count + more) }
    ensures memory { IfErr result (λ f. f ≡ no_memory) }
{
    match count.checked_add(more) {
        Some(sum) => Ok(sum),
        None => Err(NO_MEMORY),
    }
}

/// Takes in all lines of a text, behind so many, and splits them into these words in turn. Answers how many lines
/// there are then.
fn take_split<'a>(
    draft: &mut Draft,
    alloc: Global,
    threes: &Threes,
    words: &mut Vec<&'a [u8]>,
    before: usize,
    text: &'a [u8],
) -> Result<usize, CertFault>
    ensures takes { TakesAll result before (lines_of text.now) (state_of draft.old) (state_of draft.new) }
    ensures gone { draft.new.gone ≡ draft.old.gone }
{
    let mut rest = text;
    let mut count = before;
    while !rest.is_empty() {
        let (taken, left) = match draft.take(threes, rest) {
            Ok(found) => found,
            Err(reason) => return Err(fault_at(count, reason)),
        };
        count = counted(count, taken)?;
        if left.is_empty() {
            return Ok(count);
        }
        let (line, behind) = first_line(left);
        count = counted(count, 1)?;
        if let Err(reason) = take_words(draft, alloc, words, line) {
            return Err(fault_at(count, reason));
        }
        rest = behind;
    }
    Ok(count)
}

/// Takes in all lines of a text, behind so many. Answers how many there are then.
pub fn take_lines(
    draft: &mut Draft,
    alloc: Global,
    threes: &Threes,
    before: usize,
    text: &[u8],
) -> Result<usize, CertFault>
    ensures takes { TakesAll result before (lines_of text.now) (state_of draft.old) (state_of draft.new) }
    ensures gone { draft.new.gone ≡ draft.old.gone }
{
    let mut words = Vec::new(alloc);
    take_split(draft, alloc, threes, &mut words, before, text)
}

/// The certificate of a text of so many lines, all of them taken in, without what was let go; or that it has no end.
pub fn finished(draft: Draft, count: usize) -> Result<Certificate, CertFault>
    ensures whole { (lines : List (List ℕ)) → count ≡ length lines
        → AdmitsAll added start lines (kept_of draft) → ReadOf result lines }
    ensures read { (lines : List (List ℕ)) (front : List model.Line) (gone : List model.Pair) → count ≡ length lines
        → AdmitsAll added start lines (behind front gone (kept_of draft)) → ReadBehind front gone result lines }
    ensures parts { IfOk result (λ c. (c.lines ≡ (kept_of draft).lines) × (c.pairs ≡ (kept_of draft).pairs)) }
{
    if draft.is_ended() {
        return Ok(draft.certificate());
    }
    let line = counted(count, 1)?;
    Err(CertFault {
        line,
        reason: CertReason::NoEnd,
    })
}

fn read_all(alloc: Global, text: &[u8]) -> Result<Certificate, CertFault>
    ensures { ReadOf result (lines_of text.now) }
{
    let mut draft = Draft::new(alloc);
    let count = take_lines(&mut draft, alloc, &Threes::new(), 0, text)?;
    finished(draft, count)
}

/// The certificate that a text is, or the first faulty line. Where memory runs out, that is the fault, at line 0;
/// so it is where a certificate has more lines than 32 bits number.
///
/// # Errors
///
/// `CertFault` with the first faulty line, or that there is no memory, at line 0.
pub fn parse(alloc: Global, text: &[u8]) -> Result<Certificate, CertFault>
    ensures found { IfOk result (λ c. CertText (lines_of text.now) c) }
    // The certificate of a text is read, unless memory runs out.
    ensures only { (c : model.Certificate) → CertText (lines_of text.now) c → GivesCertificate (λ c. c) result c }
    ensures fault { IfErr result (λ f. (f ≡ no_memory) ⊎ FirstFault (lines_of text.now) f) }
{
    read_all(alloc, text)
}
