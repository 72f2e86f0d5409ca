//! Lines and words.

ghost use Rattle.std.specs.Prelude.{◌≡◌, ◌<◌, [], ◌∷◌, map, length, position, IfOk, IfSome, MatchOption};
ghost use Rattle.hq_text.specs.Lines.{words_of, lines_of, is_line_feed, is_space};

use memchr::memchr;
use std::alloc::{AllocError, Global};

/// Where the first space stands.
#[tactic(auto, using(crate::proofs::Cuts::position_is))]
fn space_in(text: &[u8]) -> Option<usize>
    ensures { result ≡ position is_space text.now }
{
    memchr(b' ', text)
}

/// A line's first word, and what stands behind its space, where it has one.
fn first_word(line: &[u8]) -> (&[u8], Option<&[u8]>)
    ensures cut { MatchOption result.1 (words_of line.now ≡ result.0.now ∷ [])
        (λ rest. words_of line.now ≡ result.0.now ∷ words_of rest.now) }
    ensures shorter { IfSome result.1 (λ rest. length rest.now < length line.now) }
{
    match space_in(line) {
        Some(at) => (&line[..at], Some(&line[at + 1..])),
        None => (line, None),
    }
}

/// A line's words: the parts between its spaces, so that two spaces in a row have an empty word between them.
///
/// # Errors
///
/// `AllocError` where there is no memory.
pub fn words_of(alloc: Global, line: &[u8]) -> Result<Vec<&[u8]>, AllocError>
    ensures { IfOk result (λ words. map (λ w. w.now) words.items ≡ words_of line.now) }
{
    let mut words = Vec::new(alloc);
    let mut rest = Some(line);
    while let Some(text) = rest {
        let (word, behind) = first_word(text);
        words.push(word)?;
        rest = behind;
    }
    Ok(words)
}

/// Where the first line feed stands.
#[tactic(auto, using(crate::proofs::Cuts::position_is))]
pub fn line_end(text: &[u8]) -> Option<usize>
    ensures { result ≡ position is_line_feed text.now }
{
    memchr(b'\n', text)
}

/// The first line of a text that isn't empty, without its line feed, and the text behind it.
pub fn first_line(text: &[u8]) -> (&[u8], &[u8])
    requires { 0 < length text.now }
    ensures cut { lines_of text.now ≡ result.0.now ∷ lines_of result.1.now }
    ensures shorter { length result.1.now < length text.now }
{
    match line_end(text) {
        Some(at) => (&text[..at], &text[at + 1..]),
        None => (text, &text[text.len()..]),
    }
}

/// A text's lines, without their line feeds. The last line may lack its own.
///
/// # Errors
///
/// `AllocError` where there is no memory.
pub fn lines_of(alloc: Global, text: &[u8]) -> Result<Vec<&[u8]>, AllocError>
    ensures { IfOk result (λ lines. map (λ l. l.now) lines.items ≡ lines_of text.now) }
{
    let mut lines = Vec::new(alloc);
    let mut rest = text;
    while !rest.is_empty() {
        let (line, behind) = first_line(rest);
        lines.push(line)?;
        rest = behind;
    }
    Ok(lines)
}
