//! Texts put at a place in a buffer that has room for them. Each function answers where the text ends.

ghost use Rattle.std.specs.Prelude.{◌≡◌, ◌+◌, ◌<◌, ◌≤◌, ◌∷◌, [], ◌++◌, codes, length, take};
ghost use Rattle.std.specs.Fmt.{decimal};
ghost use Rattle.hq_certtext.specs.Grammar.{citation_word, fences_words, pair_words, head_words};
ghost use Rattle.hq_text.specs.Printed.{spaced, line_text};
ghost use Rattle.hq_cert.specs.View.{cited, fences_of, pair_of};

use crate::rows::{Row, Rows};
use hq_cert::{Citation, Fences, Line, Pair, ReadChain, WriteChain};
use std::simd::prelude::*;

/// A text.
#[inline(always)]
pub fn put(bytes: &mut [u8], at: usize, text: &[u8]) -> usize
    requires { at + length text.now ≤ length bytes.old }
    ensures put { take result bytes.new ≡ take at bytes.old ++ text.now }
    ensures end { result ≡ at + length text.now }
{
    let end = at + text.len();
    bytes[at..end].copy_from_slice(text);
    end
}

/// The first bytes of four: these are one load and one store, whatever the count is.
#[inline(always)]
fn put_word(bytes: &mut [u8], at: usize, word: &[u8; 4], count: usize) -> usize
    requires few { count ≤ 4 }
    requires room { at + 4 ≤ length bytes.old }
    ensures put { take result bytes.new ≡ take at bytes.old ++ take count word.now }
    ensures end { result ≡ at + count }
{
    u8x4::from_slice(word).copy_to_slice(&mut bytes[at..]);
    at + count
}

/// Any number, behind a space.
#[cold]
#[inline(never)]
fn put_large(bytes: &mut [u8], at: usize, number: u64) -> usize
    requires { at + 24 ≤ length bytes.old }
    ensures put { take result bytes.new ≡ take at bytes.old ++ 32 ∷ decimal number }
    ensures near { result ≤ at + 21 }
{
    let mut digits = itoa::Buffer::new();
    let at = put(bytes, at, b" ");
    put(bytes, at, digits.format(number).as_bytes())
}

/// A number from 1,000 on that the rows of its thousands and of what is left spell, behind a space.
#[inline(always)]
fn put_both(bytes: &mut [u8], at: usize, thousands: &Row, rest: &Row) -> usize
    requires short { thousands.now.length ≤ 4 }
    requires room { at + 8 ≤ length bytes.old }
    ensures put { take result bytes.new
        ≡ take at bytes.old ++ (take thousands.now.length thousands.now.word ++ take 3 rest.now.digits) }
    ensures near { result ≤ at + 7 }
{
    let at = put_word(bytes, at, &thousands.word, thousands.length as usize);
    put_word(bytes, at, &rest.digits, 3)
}

/// A number that has no row, behind a space.
#[inline(always)]
fn put_longer(bytes: &mut [u8], at: usize, rows: &Rows, number: u64) -> usize
    requires { at + 24 ≤ length bytes.old }
    ensures put { take result bytes.new ≡ take at bytes.old ++ 32 ∷ decimal number }
    ensures near { result ≤ at + 21 }
{
    if number < 1000 {
        return put_large(bytes, at, number);
    }
    match (
        rows.row((number / 1000) as usize),
        rows.row((number % 1000) as usize),
    ) {
        (Some(thousands), Some(rest)) => put_both(bytes, at, thousands, rest),
        _ => put_large(bytes, at, number),
    }
}

/// A number, behind a space: by its row, where it has one.
#[inline(always)]
pub fn put_number(bytes: &mut [u8], at: usize, rows: &Rows, number: u64) -> usize
    requires { at + 24 ≤ length bytes.old }
    ensures put { take result bytes.new ≡ take at bytes.old ++ 32 ∷ decimal number }
    ensures near { result ≤ at + 21 }
{
    match rows.row(number as usize) {
        Some(row) => put_word(bytes, at, &row.word, row.length as usize),
        None => put_longer(bytes, at, rows, number),
    }
}

/// A citation, behind a space.
#[inline(always)]
pub fn put_citation(bytes: &mut [u8], at: usize, rows: &Rows, citation: Citation) -> usize
    requires { at + 24 ≤ length bytes.old }
    ensures put { take result bytes.new ≡ take at bytes.old ++ 32 ∷ citation_word (cited citation) }
    ensures near { result ≤ at + 21 }
{
    match citation.number() {
        Some(number) => put_number(bytes, at, rows, number as u64),
        None => put_word(bytes, at, b" =  ", 2),
    }
}

/// The beginning of line k, up to its rule.
#[inline(always)]
pub fn put_line(bytes: &mut [u8], at: usize, rows: &Rows, k: usize, line: &Line) -> usize
    requires { at + 128 ≤ length bytes.old }
    ensures put { take result bytes.new ≡ take at bytes.old ++ (codes "line" ++ spaced
        (decimal k ∷ decimal line.now.p ∷ decimal line.now.r ∷ [])) }
    ensures near { result ≤ at + 67 }
{
    let at = put_word(bytes, at, b"line", 4);
    let at = put_number(bytes, at, rows, k as u64);
    let at = put_number(bytes, at, rows, line.p as u64);
    put_number(bytes, at, rows, line.r as u64)
}

/// A rule's name and number, each behind a space.
#[inline(always)]
pub fn put_named(bytes: &mut [u8], at: usize, rows: &Rows, name: &[u8; 4], number: u32) -> usize
    requires { at + 28 ≤ length bytes.old }
    ensures put { take result bytes.new ≡ take at bytes.old ++ (name.now ++ 32 ∷ decimal number) }
    ensures near { result ≤ at + 25 }
{
    let at = put_word(bytes, at, name, 4);
    put_number(bytes, at, rows, number as u64)
}

/// The rule of two lines.
#[inline(always)]
pub fn put_through(bytes: &mut [u8], at: usize, rows: &Rows, first: u32, second: u32) -> usize
    requires { at + 64 ≤ length bytes.old }
    ensures put { take result bytes.new ≡ take at bytes.old ++ spaced
        (codes "through" ∷ decimal first ∷ decimal second ∷ []) }
    ensures near { result ≤ at + 50 }
{
    let at = put_word(bytes, at, b" thr", 4);
    let at = put_word(bytes, at, b"ough", 4);
    let at = put_number(bytes, at, rows, first as u64);
    put_number(bytes, at, rows, second as u64)
}

fn put_write_chain(bytes: &mut [u8], at: usize, rows: &Rows, chain: &WriteChain) -> usize
    requires { at + 128 ≤ length bytes.old }
    ensures put { take result bytes.new ≡ take at bytes.old ++ spaced
        (codes "wwc" ∷ decimal chain.now.x ∷ decimal chain.now.x2 ∷ citation_word
        (cited chain.now.from) ∷ decimal chain.now.link ∷ decimal chain.now.on ∷ []) }
    ensures near { result ≤ at + 109 }
{
    let at = put_word(bytes, at, b" wwc", 4);
    let at = put_number(bytes, at, rows, chain.x as u64);
    let at = put_number(bytes, at, rows, chain.x2 as u64);
    let at = put_citation(bytes, at, rows, chain.from);
    let at = put_number(bytes, at, rows, chain.link as u64);
    put_number(bytes, at, rows, chain.on as u64)
}

fn put_chain_packets(bytes: &mut [u8], at: usize, rows: &Rows, chain: &ReadChain) -> usize
    requires { at + 96 ≤ length bytes.old }
    ensures put { take result bytes.new ≡ take at bytes.old ++ spaced
        (codes "wrc" ∷ decimal chain.now.x ∷ decimal chain.now.x2 ∷ decimal chain.now.y2 ∷ decimal chain.now.y ∷ []) }
    ensures near { result ≤ at + 88 }
{
    let at = put_word(bytes, at, b" wrc", 4);
    let at = put_number(bytes, at, rows, chain.x as u64);
    let at = put_number(bytes, at, rows, chain.x2 as u64);
    let at = put_number(bytes, at, rows, chain.y2 as u64);
    put_number(bytes, at, rows, chain.y as u64)
}

fn put_chain_links(bytes: &mut [u8], at: usize, rows: &Rows, chain: &ReadChain) -> usize
    requires { at + 112 ≤ length bytes.old }
    ensures put { take result bytes.new ≡ take at bytes.old ++ spaced
        (citation_word (cited chain.now.from) ∷ citation_word
        (cited chain.now.link) ∷ decimal chain.now.between ∷ citation_word (cited chain.now.link2) ∷ citation_word
        (cited chain.now.to) ∷ []) }
    ensures near { result ≤ at + 105 }
{
    let at = put_citation(bytes, at, rows, chain.from);
    let at = put_citation(bytes, at, rows, chain.link);
    let at = put_number(bytes, at, rows, chain.between as u64);
    let at = put_citation(bytes, at, rows, chain.link2);
    put_citation(bytes, at, rows, chain.to)
}

#[inline(always)]
fn put_fences(bytes: &mut [u8], at: usize, rows: &Rows, fences: &Fences) -> usize
    requires { at + 208 ≤ length bytes.old }
    ensures put { take result bytes.new ≡ take at bytes.old ++ spaced (fences_words (fences_of fences.now)) }
    ensures near { result ≤ at + 193 }
{
    match fences {
        Fences::ReadWrite(line) => {
            let at = put_word(bytes, at, b" rw ", 3);
            put_number(bytes, at, rows, *line as u64)
        }
        Fences::WriteWrite { x, from, on } => {
            let at = put_word(bytes, at, b" ww ", 3);
            let at = put_number(bytes, at, rows, *x as u64);
            let at = put_citation(bytes, at, rows, *from);
            put_number(bytes, at, rows, *on as u64)
        }
        Fences::WriteRead {
            x,
            y,
            from,
            between,
            to,
        } => {
            let at = put_word(bytes, at, b" wr ", 3);
            let at = put_number(bytes, at, rows, *x as u64);
            let at = put_number(bytes, at, rows, *y as u64);
            let at = put_citation(bytes, at, rows, *from);
            let at = put_number(bytes, at, rows, *between as u64);
            put_citation(bytes, at, rows, *to)
        }
        Fences::WriteWriteChained(chain) => put_write_chain(bytes, at, rows, chain),
        Fences::WriteReadChained(chain) => {
            let at = put_chain_packets(bytes, at, rows, chain);
            put_chain_links(bytes, at, rows, chain)
        }
    }
}

/// A pair line.
#[inline(always)]
pub fn put_pair(bytes: &mut [u8], at: usize, rows: &Rows, pair: &Pair) -> usize
    requires { at + 256 ≤ length bytes.old }
    ensures put { take result bytes.new ≡ take at bytes.old ++ line_text (pair_words (pair_of pair.now)) }
    ensures near { result ≤ at + 240 }
{
    let at = put_word(bytes, at, b"pair", 4);
    let at = put_number(bytes, at, rows, pair.p as u64);
    let at = put_number(bytes, at, rows, pair.r as u64);
    let at = put_fences(bytes, at, rows, &pair.fences);
    put(bytes, at, b"\n")
}

/// The first line.
pub fn put_head(bytes: &mut [u8], at: usize, chained: bool) -> usize
    requires { at + 7 ≤ length bytes.old }
    ensures put { take result bytes.new ≡ take at bytes.old ++ line_text (head_words chained) }
    ensures end { result ≡ at + 7 }
{
    if chained {
        put(bytes, at, b"hsac 2\n")
    } else {
        put(bytes, at, b"hsac 1\n")
    }
}
