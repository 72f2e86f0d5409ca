//! Lines in their commonest forms, read in one pass over their bytes. A line that isn't read here is left to the
//! readers of words, which tell what is wrong with it.

ghost use Rattle.std.specs.Prelude.{◌≡◌, ◌+◌, ◌++◌, ◌<◌, ◌≤◌, [], ◌∷◌, length, IfSome};
ghost use Rattle.hq_cert.specs.View.{cited, rule_of, fences_of, pair_of};
ghost use Rattle.hq_text.specs.Ahead.{DigitsAhead, DigitsSoFar, NumberAhead};
ghost use Rattle.hq_certread.specs.OnePass.{BelowAhead, CitationAhead, RuleAhead, PacketsAhead, FencesAhead, PairAhead};
ghost use Rattle.hq_certread.specs.Bytes.{four_bytes};

use crate::threes::Threes;
use hq_cert::{Citation, Fences, Pair, Rule};
use hq_text::{digits_ahead, ended_number, more_digits_ahead, with_digit};

/// How many bytes a text has at least where a line of it is read here: more than any line in a common form, so that no
/// word of it needs a question of its own.
const LONG: usize = 80;

/// The number of the digits that a text begins with, and how many they are, as `digits_ahead` tells it, which is one
/// function here for all that ask it.
#[inline(never)]
fn digits(text: &[u8]) -> (u32, usize)
    requires { 10 ≤ length text.now }
    ensures ahead { 0 < result.1 → DigitsAhead text.now result.0 result.1 }
    ensures few { result.1 ≤ 8 }
{
    digits_ahead(text)
}

/// The number that a text begins with, and what stands behind it and the byte that ends it, where numbers of three
/// digits are the quickest.
#[inline(always)]
#[tactic(auto, using(crate::proofs::OnePass::three_ended))]
fn number<'a>(threes: &Threes, text: &'a [u8], stop: u8) -> Option<(u32, &'a [u8])>
    requires { 10 ≤ length text.now }
    ensures ahead { IfSome result (λ t. NumberAhead text.now t.0 stop t.1.now) }
    ensures near { IfSome result (λ t. length text.now ≤ length t.1.now + 9) }
{
    if let Some(number) = threes.ended(text, stop) {
        if number >= 100 {
            return Some((number, text.split_at(4).1));
        }
    }
    let (number, count) = digits(text);
    ended_number(text, number, count, stop)
}

/// The number of six digits that a text begins with, the first three of which are read, where this byte ends it.
#[inline(always)]
#[tactic(auto, using(crate::proofs::OnePass::six_ended))]
fn six_digits<'a>(threes: &Threes, text: &'a [u8], first: u32, stop: u8) -> Option<(u32, &'a [u8])>
    requires long { 10 ≤ length text.now }
    requires first { DigitsSoFar text.now first 3 }
    ensures ahead { IfSome result (λ t. NumberAhead text.now t.0 stop t.1.now) }
    ensures near { IfSome result (λ t. length text.now ≤ length t.1.now + 9) }
{
    if text[6] != stop {
        return None;
    }
    let second = threes.ended(text.split_at(3).1, stop)?;
    Some((first * 1000 + second, text.split_at(7).1))
}

/// The number of four or five digits that a text begins with, the first three of which are read, where this byte ends
/// it.
#[inline(always)]
#[tactic(auto, using(crate::proofs::OnePass::ended_at))]
fn four_or_five_digits(text: &[u8], first: u32, stop: u8) -> Option<(u32, &[u8])>
    requires long { 10 ≤ length text.now }
    requires first { DigitsSoFar text.now first 3 }
    ensures ahead { IfSome result (λ t. NumberAhead text.now t.0 stop t.1.now) }
    ensures near { IfSome result (λ t. length text.now ≤ length t.1.now + 9) }
{
    let four = with_digit(text, first, 3)?;
    if text[4] == stop {
        return Some((four, text.split_at(5).1));
    }
    let five = with_digit(text, four, 4)?;
    if text[5] == stop {
        Some((five, text.split_at(6).1))
    } else {
        None
    }
}

/// The number that a text begins with, as `number` tells it, where numbers of four to six digits are the quickest.
#[inline(always)]
fn long_number<'a>(threes: &Threes, text: &'a [u8], stop: u8) -> Option<(u32, &'a [u8])>
    requires { 10 ≤ length text.now }
    ensures ahead { IfSome result (λ t. NumberAhead text.now t.0 stop t.1.now) }
    ensures near { IfSome result (λ t. length text.now ≤ length t.1.now + 9) }
{
    let Some(first) = threes.leading(text) else {
        let (number, count) = digits(text);
        return ended_number(text, number, count, stop);
    };
    if let Some(found) = six_digits(threes, text, first, stop) {
        return Some(found);
    }
    if let Some(found) = four_or_five_digits(text, first, stop) {
        return Some(found);
    }
    let (number, count) = more_digits_ahead(text, first);
    ended_number(text, number, count, stop)
}

/// The same of a number below the limit.
#[inline(always)]
fn below<'a>(threes: &Threes, limit: u32, text: &'a [u8], stop: u8) -> Option<(u32, &'a [u8])>
    requires { 10 ≤ length text.now }
    ensures ahead { IfSome result (λ t. BelowAhead limit text.now t.0 stop t.1.now) }
    ensures near { IfSome result (λ t. length text.now ≤ length t.1.now + 9) }
{
    let (number, rest) = long_number(threes, text, stop)?;
    if number < limit {
        Some((number, rest))
    } else {
        None
    }
}

/// The same of a citation of a line below the limit.
#[inline(always)]
fn citation<'a>(
    threes: &Threes,
    limit: u32,
    text: &'a [u8],
    stop: u8,
) -> Option<(Citation, &'a [u8])>
    requires { 10 ≤ length text.now }
    ensures ahead { IfSome result (λ t. CitationAhead limit text.now (cited t.0) stop t.1.now) }
    ensures near { IfSome result (λ t. length text.now ≤ length t.1.now + 9) }
{
    match text {
        [b'=', next, rest @ ..] if *next == stop => Some((Citation::same(), rest)),
        _ => {
            let (number, rest) = below(threes, limit, text, stop)?;
            Some((Citation::line(number), rest))
        }
    }
}

/// What stands behind a few bytes.
#[inline(always)]
fn behind<'a>(text: &'a [u8], bytes: &[u8]) -> Option<&'a [u8]>
    ensures ahead { IfSome result (λ rest. text.now ≡ bytes.now ++ rest.now) }
    ensures near { IfSome result (λ rest. length text.now ≡ length bytes.now + length rest.now) }
{
    text.strip_prefix(bytes)
}

/// Four bytes as one number.
#[inline(always)]
fn joined(a: u8, b: u8, c: u8, d: u8) -> u32
    ensures { four_bytes result ≡ a ∷ b ∷ c ∷ d ∷ [] }
{
    a as u32 + b as u32 * 256 + c as u32 * 65_536 + d as u32 * 16_777_216
}

/// What stands behind a name, which is said in two parts: four bytes, which are compared at once, and fewer than
/// four.
#[inline(always)]
#[tactic(auto, using(crate::proofs::OnePass::behind_both))]
fn behind_name<'a>(text: &'a [u8], four: [u8; 4], others: &[u8]) -> Option<&'a [u8]>
    ensures ahead { IfSome result (λ rest. text.now ≡ four ++ (others.now ++ rest.now)) }
    ensures near { IfSome result (λ rest. length text.now ≡ 4 + length others.now + length rest.now) }
{
    if text.len() < 4 {
        return None;
    }
    if joined(text[0], text[1], text[2], text[3]) != joined(four[0], four[1], four[2], four[3]) {
        return None;
    }
    behind(text.split_at(4).1, others)
}

/// The rule `through` of line k, and what stands behind its line.
#[inline(always)]
#[tactic(auto, using(crate::proofs::OnePass::through_ahead))]
fn through<'a>(threes: &Threes, k: u32, text: &'a [u8]) -> Option<(Rule, &'a [u8])>
    requires { 27 ≤ length text.now }
    ensures { IfSome result (λ t. RuleAhead k text.now (rule_of t.0) t.1.now) }
{
    let rest = behind_name(text, *b"thro", b"ugh")?;
    let rest = behind(rest, b" ")?;
    let (first, rest) = below(threes, k, rest, b' ')?;
    let (second, rest) = below(threes, k, rest, b'\n')?;
    Some((Rule::Through(first, second), rest))
}

/// The same of `bit` and `and`, which are a word and a number.
#[inline(always)]
#[tactic(auto, using(crate::proofs::OnePass::bit_ahead, crate::proofs::OnePass::and_ahead))]
fn bit_or_and<'a>(threes: &Threes, k: u32, text: &'a [u8]) -> Option<(Rule, &'a [u8])>
    requires { 14 ≤ length text.now }
    ensures { IfSome result (λ t. RuleAhead k text.now (rule_of t.0) t.1.now) }
{
    if let Some(rest) = behind_name(text, *b"bit ", b"") {
        let (packet, rest) = number(threes, rest, b'\n')?;
        return Some((Rule::Bit(packet), rest));
    }
    let rest = behind_name(text, *b"and ", b"")?;
    let (slot, count) = digits(rest);
    let (slot, rest) = ended_number(rest, slot, count, b'\n')?;
    Some((Rule::And(slot), rest))
}

/// The same of `queue`.
#[inline(always)]
#[tactic(auto, using(crate::proofs::OnePass::queue_ahead))]
fn queue(k: u32, text: &[u8]) -> Option<(Rule, &[u8])>
    ensures { IfSome result (λ t. RuleAhead k text.now (rule_of t.0) t.1.now) }
{
    Some((Rule::Queue, behind_name(text, *b"queu", b"e\n")?))
}

/// A rule of line k that isn't `or`, and what stands behind its line.
#[inline(always)]
pub fn rule<'a>(threes: &Threes, k: u32, text: &'a [u8]) -> Option<(Rule, &'a [u8])>
    requires { 27 ≤ length text.now }
    ensures { IfSome result (λ t. RuleAhead k text.now (rule_of t.0) t.1.now) }
{
    match text.first()? {
        b't' => through(threes, k, text),
        b'q' => queue(k, text),
        _ => bit_or_and(threes, k, text),
    }
}

/// The number that the line says which a text begins with.
pub fn own_number(threes: &Threes, text: &[u8]) -> Option<u32> {
    if text.len() < LONG {
        return None;
    }
    let rest = behind_name(text, *b"line", b" ")?;
    let (own, _) = long_number(threes, rest, b' ')?;
    Some(own)
}

/// The packets of line k, and what stands behind them: the line's rule, which `rule` reads.
#[inline(always)]
#[tactic(auto, using(crate::proofs::OnePass::packets_ahead))]
pub fn packets<'a>(threes: &Threes, k: u32, text: &'a [u8]) -> Option<(u32, u32, &'a [u8])>
    ensures ahead { IfSome result (λ t. PacketsAhead k text.now t.0 t.1 t.2.now) }
    ensures room { IfSome result (λ t. 27 ≤ length t.2.now) }
{
    if text.len() < LONG {
        return None;
    }
    let rest = behind_name(text, *b"line", b" ")?;
    let (own, rest) = long_number(threes, rest, b' ')?;
    if own != k {
        return None;
    }
    let (p, rest) = number(threes, rest, b' ')?;
    let (r, rest) = number(threes, rest, b' ')?;
    Some((p, r, rest))
}

/// The fences `rw` of a pair line behind so many lines, and what stands behind that line.
#[inline(always)]
#[tactic(auto, using(crate::proofs::OnePass::read_write_ahead))]
fn read_write<'a>(threes: &Threes, count: u32, text: &'a [u8]) -> Option<(Fences, &'a [u8])>
    requires { 13 ≤ length text.now }
    ensures { IfSome result (λ t. FencesAhead count text.now (fences_of t.0) t.1.now) }
{
    let rest = behind(text, b"rw ")?;
    let (line, rest) = below(threes, count, rest, b'\n')?;
    Some((Fences::ReadWrite(line), rest))
}

/// The same of `ww`.
#[inline(always)]
#[tactic(auto, using(crate::proofs::OnePass::write_write_ahead))]
fn write_write<'a>(threes: &Threes, count: u32, text: &'a [u8]) -> Option<(Fences, &'a [u8])>
    requires { 31 ≤ length text.now }
    ensures { IfSome result (λ t. FencesAhead count text.now (fences_of t.0) t.1.now) }
{
    let rest = behind(text, b"ww ")?;
    let (x, rest) = number(threes, rest, b' ')?;
    let (from, rest) = citation(threes, count, rest, b' ')?;
    let (on, rest) = below(threes, count, rest, b'\n')?;
    Some((Fences::WriteWrite { x, from, on }, rest))
}

/// The same of `wr`.
#[inline(always)]
#[tactic(auto, using(crate::proofs::OnePass::write_read_ahead))]
fn write_read<'a>(threes: &Threes, count: u32, text: &'a [u8]) -> Option<(Fences, &'a [u8])>
    requires { 49 ≤ length text.now }
    ensures { IfSome result (λ t. FencesAhead count text.now (fences_of t.0) t.1.now) }
{
    let rest = behind(text, b"wr ")?;
    let (x, rest) = number(threes, rest, b' ')?;
    let (y, rest) = number(threes, rest, b' ')?;
    let (from, rest) = citation(threes, count, rest, b' ')?;
    let (between, rest) = below(threes, count, rest, b' ')?;
    let (to, rest) = citation(threes, count, rest, b'\n')?;
    Some((
        Fences::WriteRead {
            x,
            y,
            from,
            between,
            to,
        },
        rest,
    ))
}

/// Fences without a chain, and what stands behind their line.
#[inline(always)]
fn fences<'a>(threes: &Threes, count: u32, text: &'a [u8]) -> Option<(Fences, &'a [u8])>
    requires { 49 ≤ length text.now }
    ensures { IfSome result (λ t. FencesAhead count text.now (fences_of t.0) t.1.now) }
{
    match text {
        [b'w', b'w', ..] => write_write(threes, count, text),
        [b'w', ..] => write_read(threes, count, text),
        _ => read_write(threes, count, text),
    }
}

/// A pair line behind so many lines, and what stands behind it.
#[inline(always)]
pub fn pair<'a>(threes: &Threes, count: u32, text: &'a [u8]) -> Option<(Pair, &'a [u8])>
    ensures { IfSome result (λ t. PairAhead count text.now (pair_of t.0) t.1.now) }
{
    if text.len() < LONG {
        return None;
    }
    let rest = behind_name(text, *b"pair", b" ")?;
    let (p, rest) = number(threes, rest, b' ')?;
    let (r, rest) = number(threes, rest, b' ')?;
    let (fences, rest) = fences(threes, count, rest)?;
    Some((Pair { p, r, fences }, rest))
}
