//! Certificates to texts.

ghost use Rattle.std.specs.Prelude.{◌≡◌, ◌+◌, ◌≤◌, ◌∷◌, [], ◌++◌, map, IfOk, OnOk, Err, length, codes};
ghost use Rattle.std.specs.Fmt.{decimal};
ghost use Rattle.std.specs.List.{list_any};
ghost use Rattle.std.specs.Io.KnownBytes.{Appends};
ghost use Rattle.hq_certtext.specs.Grammar.{CertText, CertificateFits, citation_word, rule_words, head_words};
ghost use Rattle.hq_certtext.specs.Grammar.{order_words, line_words, lines_words, pair_words};
ghost use Rattle.hq_text.specs.Lines.{lines_of};
ghost use Rattle.hq_text.specs.Printed.{spaced, line_text, lines_text};
ghost use Rattle.hq_certtext.specs.Printed.{is_chain, has_chain, text_of};
ghost use Rattle.hq_certtext.specs.Gains.{Gains};
ghost use Rattle.hq_cert.specs.View.{cited, fences_of, rule_of, line_of, pair_of};

use crate::placing::{
    put, put_citation, put_head, put_line, put_named, put_number, put_pair, put_through,
};
use crate::rows::Rows;
use hq_cert::{Certificate, Citation, Fences, Line, Pair, Rule};
use std::alloc::{AllocError, Global};
use std::io::Write;
use thiserror::Error;

/// How many bytes a line takes at most, apart from an order and from branches.
const LINE: usize = 256;

/// Of how many numbers a certificate may have pair lines that one buffer holds.
const SIDE: usize = 32;

fn is_chain(fences: &Fences) -> bool
    ensures { result ≡ is_chain (fences_of fences.now) }
{
    match fences {
        Fences::WriteWriteChained(_) | Fences::WriteReadChained(_) => true,
        Fences::ReadWrite(_) | Fences::WriteWrite { .. } | Fences::WriteRead { .. } => false,
    }
}

/// Whether a chained pair line is there.
fn has_chain(pairs: &[Pair]) -> bool
    ensures { result ≡ list_any (λ pair. is_chain (pair_of pair).fences) pairs.now }
{
    pairs.iter().any(|pair| is_chain(&pair.fences))
}

/// The writer failed.
#[derive(Clone, Copy, Debug, PartialEq, Eq, Error)]
#[error("the writer failed")]
pub struct WriterFailed;

/// Writes what was put. Answers where the next text goes.
#[cold]
#[inline(never)]
pub fn spill<W: Write>(bytes: &[u8], at: usize, writer: &mut W) -> Result<usize, WriterFailed>
    requires { at ≤ length bytes.now }
    ensures written { IfOk result
        (λ next. Gains (W.contents writer.old) bytes.now at (W.contents writer.new) bytes.now next []) }
    ensures front { IfOk result (λ next. next ≡ 0) }
{
    match writer.write_all(&bytes[..at]) {
        Ok(()) => Ok(0),
        Err(_) => Err(WriterFailed),
    }
}

/// Writes what was put, and behind it a text that is there already. Answers where the next text goes.
pub fn write_through<W: Write>(
    bytes: &[u8],
    at: usize,
    text: &[u8],
    writer: &mut W,
) -> Result<usize, WriterFailed>
    requires { at ≤ length bytes.now }
    ensures written { IfOk result
        (λ next. Gains (W.contents writer.old) bytes.now at (W.contents writer.new) bytes.now next text.now) }
    ensures front { IfOk result (λ next. next ≡ 0) }
{
    let next = spill(bytes, at, writer)?;
    match writer.write_all(text) {
        Ok(()) => Ok(next),
        Err(_) => Err(WriterFailed),
    }
}

/// Writes what was put, where there is no room for a line. Answers where the next text goes.
#[inline(always)]
fn make_room<W: Write>(bytes: &[u8], at: usize, writer: &mut W) -> Result<usize, WriterFailed>
    requires within { at ≤ length bytes.now }
    requires long { 256 ≤ length bytes.now }
    ensures written { IfOk result
        (λ next. Gains (W.contents writer.old) bytes.now at (W.contents writer.new) bytes.now next []) }
    ensures room { IfOk result (λ next. next + 256 ≤ length bytes.now) }
{
    if at + LINE <= bytes.len() {
        Ok(at)
    } else {
        spill(bytes, at, writer)
    }
}

/// Numbers, each behind a space.
fn write_numbers<W: Write>(
    bytes: &mut [u8],
    start: usize,
    rows: &Rows,
    numbers: &[u32],
    writer: &mut W,
) -> Result<usize, WriterFailed>
    requires within { start ≤ length bytes.old }
    requires long { 256 ≤ length bytes.old }
    ensures written { IfOk result
        (λ end. Gains (W.contents writer.old) bytes.old start (W.contents writer.new) bytes.new end
        (spaced (map decimal numbers.now))) }
    ensures within { IfOk result (λ end. end ≤ length bytes.new) }
{
    let mut at = start;
    for number in numbers {
        at = make_room(bytes, at, writer)?;
        at = put_number(bytes, at, rows, *number as u64);
    }
    Ok(at)
}

/// Citations, each behind a space.
#[inline(never)]
fn write_citations<W: Write>(
    bytes: &mut [u8],
    start: usize,
    rows: &Rows,
    citations: &[Citation],
    writer: &mut W,
) -> Result<usize, WriterFailed>
    requires within { start ≤ length bytes.old }
    requires long { 256 ≤ length bytes.old }
    ensures written { IfOk result
        (λ end. Gains (W.contents writer.old) bytes.old start (W.contents writer.new) bytes.new end
        (spaced (map citation_word (map cited citations.now)))) }
    ensures within { IfOk result (λ end. end ≤ length bytes.new) }
{
    let mut at = start;
    for citation in citations {
        at = make_room(bytes, at, writer)?;
        at = put_citation(bytes, at, rows, *citation);
    }
    Ok(at)
}

/// The rule of a barrier-OR, which is followed by room for a line feed.
#[inline(never)]
fn write_or<W: Write>(
    bytes: &mut [u8],
    at: usize,
    rows: &Rows,
    citations: &[Citation],
    writer: &mut W,
) -> Result<usize, WriterFailed>
    requires room { at + 128 ≤ length bytes.old }
    requires long { 256 ≤ length bytes.old }
    ensures written { IfOk result
        (λ end. Gains (W.contents writer.old) bytes.old at (W.contents writer.new) bytes.new end
        (spaced (codes "or" ∷ map citation_word (map cited citations.now)))) }
    ensures room { IfOk result (λ end. end + 1 ≤ length bytes.new) }
{
    let at = put(bytes, at, b" or");
    let at = write_citations(bytes, at, rows, citations, writer)?;
    make_room(bytes, at, writer)
}

/// A rule, which is followed by room for a line feed.
#[inline(always)]
fn write_rule<W: Write>(
    bytes: &mut [u8],
    at: usize,
    rows: &Rows,
    rule: &Rule,
    writer: &mut W,
) -> Result<usize, WriterFailed>
    requires room { at + 128 ≤ length bytes.old }
    requires long { 256 ≤ length bytes.old }
    ensures written { IfOk result
        (λ end. Gains (W.contents writer.old) bytes.old at (W.contents writer.new) bytes.new end
        (spaced (rule_words (rule_of rule.now)))) }
    ensures room { IfOk result (λ end. end + 1 ≤ length bytes.new) }
{
    match rule {
        Rule::Bit(packet) => Ok(put_named(bytes, at, rows, b" bit", *packet)),
        Rule::Queue => Ok(put(bytes, at, b" queue")),
        Rule::And(slot) => Ok(put_named(bytes, at, rows, b" and", *slot)),
        Rule::Or(branches) => write_or(bytes, at, rows, &branches.citations, writer),
        Rule::Through(first, second) => Ok(put_through(bytes, at, rows, *first, *second)),
    }
}

/// Line k.
#[inline(always)]
pub fn write_line<W: Write>(
    bytes: &mut [u8],
    start: usize,
    rows: &Rows,
    k: usize,
    line: &Line,
    writer: &mut W,
) -> Result<usize, WriterFailed>
    requires within { start ≤ length bytes.old }
    requires long { 256 ≤ length bytes.old }
    ensures written { IfOk result
        (λ end. Gains (W.contents writer.old) bytes.old start (W.contents writer.new) bytes.new end
        (line_text (line_words k (line_of line.now)))) }
    ensures within { IfOk result (λ end. end ≤ length bytes.new) }
{
    let at = make_room(bytes, start, writer)?;
    let at = put_line(bytes, at, rows, k, line);
    let at = write_rule(bytes, at, rows, &line.rule, writer)?;
    Ok(put(bytes, at, b"\n"))
}

/// Lines.
fn write_lines<W: Write>(
    bytes: &mut [u8],
    start: usize,
    rows: &Rows,
    lines: &[Line],
    writer: &mut W,
) -> Result<usize, WriterFailed>
    requires within { start ≤ length bytes.old }
    requires long { 256 ≤ length bytes.old }
    ensures written { IfOk result
        (λ end. Gains (W.contents writer.old) bytes.old start (W.contents writer.new) bytes.new end
        (lines_text (lines_words 0 (map line_of lines.now)))) }
    ensures within { IfOk result (λ end. end ≤ length bytes.new) }
{
    let mut at = start;
    for (k, line) in lines.iter().enumerate() {
        at = write_line(bytes, at, rows, k, line, writer)?;
    }
    Ok(at)
}

/// A pair line.
#[inline(always)]
pub fn write_pair<W: Write>(
    bytes: &mut [u8],
    at: usize,
    rows: &Rows,
    pair: &Pair,
    writer: &mut W,
) -> Result<usize, WriterFailed>
    requires within { at ≤ length bytes.old }
    requires long { 256 ≤ length bytes.old }
    ensures written { IfOk result
        (λ end. Gains (W.contents writer.old) bytes.old at (W.contents writer.new) bytes.new end
        (line_text (pair_words (pair_of pair.now)))) }
    ensures within { IfOk result (λ end. end ≤ length bytes.new) }
{
    let at = make_room(bytes, at, writer)?;
    Ok(put_pair(bytes, at, rows, pair))
}

/// Pair lines.
fn write_pairs<W: Write>(
    bytes: &mut [u8],
    start: usize,
    rows: &Rows,
    pairs: &[Pair],
    writer: &mut W,
) -> Result<usize, WriterFailed>
    requires within { start ≤ length bytes.old }
    requires long { 256 ≤ length bytes.old }
    ensures written { IfOk result
        (λ end. Gains (W.contents writer.old) bytes.old start (W.contents writer.new) bytes.new end
        (lines_text (map pair_words (map pair_of pairs.now)))) }
    ensures within { IfOk result (λ end. end ≤ length bytes.new) }
{
    let mut at = start;
    for pair in pairs {
        at = write_pair(bytes, at, rows, pair, writer)?;
    }
    Ok(at)
}

/// The first line and the order.
pub fn write_order<W: Write>(
    bytes: &mut [u8],
    start: usize,
    rows: &Rows,
    chained: bool,
    order: &[u32],
    writer: &mut W,
) -> Result<usize, WriterFailed>
    requires within { start ≤ length bytes.old }
    requires long { 256 ≤ length bytes.old }
    ensures written { IfOk result
        (λ end. Gains (W.contents writer.old) bytes.old start (W.contents writer.new) bytes.new end
        (line_text (head_words chained) ++ line_text (order_words order.now))) }
    ensures within { IfOk result (λ end. end ≤ length bytes.new) }
{
    let at = make_room(bytes, start, writer)?;
    let at = put_head(bytes, at, chained);
    let at = put(bytes, at, b"order");
    let at = write_numbers(bytes, at, rows, order, writer)?;
    let at = make_room(bytes, at, writer)?;
    Ok(put(bytes, at, b"\n"))
}

/// The last line; all that was put goes to the writer.
pub fn write_end<W: Write>(bytes: &mut [u8], at: usize, writer: &mut W) -> Result<(), WriterFailed>
    requires within { at ≤ length bytes.old }
    requires long { 256 ≤ length bytes.old }
    ensures { OnOk result
        (Gains (W.contents writer.old) bytes.old at (W.contents writer.new) bytes.new 0 (codes "end\n")) }
{
    let at = make_room(bytes, at, writer)?;
    let at = put(bytes, at, b"end\n");
    spill(bytes, at, writer)?;
    Ok(())
}

/// Writes the text of a certificate, by way of a buffer.
fn write_text<W: Write>(
    bytes: &mut [u8],
    rows: &Rows,
    certificate: &Certificate,
    writer: &mut W,
) -> Result<(), WriterFailed>
    requires { 256 ≤ length bytes.old }
    ensures { OnOk result (Appends (W.contents writer.old) (W.contents writer.new) (text_of certificate.now)) }
{
    let chained = has_chain(certificate.pairs());
    let at = write_order(bytes, 0, rows, chained, certificate.order(), writer)?;
    let at = write_lines(bytes, at, rows, certificate.lines(), writer)?;
    let at = write_pairs(bytes, at, rows, certificate.pairs(), writer)?;
    write_end(bytes, at, writer)
}

/// Why a certificate wasn't printed: there was no memory, and nothing was written; or the writer failed.
#[derive(Clone, Copy, Debug, PartialEq, Eq, Error)]
pub enum PrintFault {
    #[error("out of memory")]
    Memory,
    #[error("the writer failed")]
    Writer,
}

/// A buffer for the text of a certificate whose numbers are below `numbers`: room for a pair line of any two of them,
/// and for one line more. Where there are many, it is written again and again.
fn buffer(alloc: Global, numbers: usize) -> Result<Vec<u8>, AllocError>
    ensures { IfOk result (λ bytes. 256 ≤ length bytes.items) }
{
    let side = numbers.min(SIDE);
    vec![in alloc; 0; LINE + 32 * side * side]
}

/// All memory that printing a certificate of so many packets and lines takes: a buffer, and the texts of small numbers.
pub fn taken(alloc: Global, packets: usize, lines: usize) -> Result<(Vec<u8>, Rows), AllocError>
    ensures { IfOk result (λ t. 256 ≤ length t.0.items) }
{
    let numbers = packets.max(lines);
    let bytes = buffer(alloc, numbers)?;
    Ok((bytes, Rows::new(alloc, numbers)?))
}

/// Writes the text of a certificate, which begins `hsac 2` exactly where a chained pair line is there. Where the
/// certificate has a text, as each one that an audit gives or a text was read as, what was written is that, and so
/// is read as the same certificate. All memory is taken before the first byte is written. The writer is not
/// flushed; where it fails a part of the text may be written.
///
/// # Errors
///
/// `Memory`, and then nothing is written; `Writer` where the writer failed.
pub fn print<W: Write>(
    alloc: Global,
    certificate: &Certificate,
    writer: &mut W,
) -> Result<(), PrintFault>
    ensures written { OnOk result (Appends (W.contents writer.old) (W.contents writer.new) (text_of certificate.now)) }
    ensures read_back { OnOk result
        (CertificateFits (has_chain certificate.now) certificate.now
        → CertText (lines_of (text_of certificate.now)) certificate.now) }
    ensures unwritten { result ≡ Err PrintFault.Memory → writer.new ≡ writer.old }
{
    let (packets, lines) = (certificate.order().len(), certificate.lines().len());
    let (mut bytes, rows) = match taken(alloc, packets, lines) {
        Ok(taken) => taken,
        Err(_) => return Err(PrintFault::Memory),
    };
    match write_text(&mut bytes, &rows, certificate, writer) {
        Ok(()) => Ok(()),
        Err(WriterFailed) => Err(PrintFault::Writer),
    }
}
