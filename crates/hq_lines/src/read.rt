//! Lines read.

ghost use Rattle.std.specs.Prelude.{◌≡◌, ◌≢◌, ℕ, MatchOption, if◌then◌else◌, ◌⊎◌, ◌↔◌, ◌++◌, List, IfOk, IfErr};
ghost use Rattle.std.specs.Prelude.{IfSome, Ok, Err, Some, codes};
ghost use Rattle.std.specs.List.{list_any};
ghost use Rattle.hq_text.specs.Lines.{words_of};
ghost use Rattle.hq_lines.specs.Bytes.{is_outside};
ghost use Rattle.hq_lines.specs.Meaning.{Meaning, view};
ghost use Rattle.hq_lines.specs.Says.{Says, SaysLine};
ghost use Rattle.hq_lines.specs.Order.{line_fault};
ghost use Rattle.hq_lines.specs.Fits.{Fits};
ghost use Rattle.hq_lines.specs.Gives.{Gives};

use crate::fault::LineFault;
use crate::line::{Line, Version};
use crate::words::{packet_said, words_said};
use hq_text::words_of;
use std::alloc::Global;

fn has_outside(line: &[u8]) -> bool
    ensures { result ≡ list_any is_outside line.now }
{
    let mut found = false;
    for b in line {
        found |= *b < 32 || *b > 126;
    }
    found
}

fn check_bytes(line: &[u8]) -> Result<(), LineFault>
    ensures { result ≡ (if list_any is_outside line.now then Err LineFault.Byte else Ok tt) }
{
    if has_outside(line) {
        return Err(LineFault::Byte);
    }
    Ok(())
}

/// The version that the first line of a job text names.
///
/// # Errors
///
/// `Byte` where the line has a byte out of range, else `Word`.
pub fn first_line(line: &[u8]) -> Result<Version, LineFault>
    ensures one { (result ≡ Ok Version.One) ↔ (line.now ≡ codes "hsaq 1") }
    ensures two { (result ≡ Ok Version.Two) ↔ (line.now ≡ codes "hsaq 2") }
    ensures fault { IfErr result (λ e. e ≡ (if list_any is_outside line.now then LineFault.Byte else LineFault.Word)) }
{
    if line == b"hsaq 1".as_slice() {
        return Ok(Version::One);
    }
    if line == b"hsaq 2".as_slice() {
        return Ok(Version::Two);
    }
    Err(line_behind_end(line))
}

/// What stands behind the first bytes of a line, if it begins with these.
pub(crate) fn behind<'a>(line: &'a [u8], first: &[u8]) -> Option<&'a [u8]>
    ensures { MatchOption result ((rest : List ℕ) → line.now ≢ first.now ++ rest)
        (λ rest. line.now ≡ first.now ++ rest.now) }
{
    line.strip_prefix(first)
}

/// The packet that a line says, if it says one.
fn packet_line(line: &[u8]) -> Option<Line>
    ensures { IfSome result (λ l. Says (words_of line.now) (view l)) }
{
    packet_said(behind(line, b"packet ".as_slice())?).ok()
}

fn line_said(alloc: Global, line: &[u8]) -> Result<Line, LineFault>
    ensures found { IfOk result (λ l. SaysLine line.now (view l)) }
    ensures fault { IfErr result (λ e. (e ≡ LineFault.Memory) ⊎ (line_fault line.now ≡ Some e)) }
{
    check_bytes(line)?;
    if let Some(packet) = packet_line(line) {
        return Ok(packet);
    }
    let words = words_of(alloc, line)?;
    words_said(alloc, &words)
}

/// What a line behind the first says, apart from the tables that the lines before it leave, or the first test that it
/// fails: of its bytes, its words, its numbers, its digits, its packet, its queue size and its count of digits.
///
/// # Errors
///
/// The first test that the line fails, or `Memory`.
pub fn read_line(alloc: Global, line: &[u8]) -> Result<Line, LineFault>
    ensures found { IfOk result (λ l. SaysLine line.now (view l)) }
    // What a line says is read, unless memory runs out.
    ensures only { (m : Meaning) → SaysLine line.now m → Gives view result (Ok m) }
    ensures fits { IfOk result (λ l. Fits (view l)) }
    ensures fault { IfErr result (λ e. (e ≡ LineFault.Memory) ⊎ (line_fault line.now ≡ Some e)) }
{
    line_said(alloc, line)
}

/// What is wrong with a line behind the `end` line, whatever it says.
pub fn line_behind_end(line: &[u8]) -> LineFault
    ensures { result ≡ (if list_any is_outside line.now then LineFault.Byte else LineFault.Word) }
{
    match check_bytes(line) {
        Err(fault) => fault,
        Ok(()) => LineFault::Word,
    }
}
