//! A line for each that is needed.

ghost use Rattle.std.specs.Prelude.{IfOk, IsTrue, OnOk, Some, length, slice_get, ◌≡◌, ◌+◌, ◌*◌, ◌<◌, ◌≤◌, ℕ};
ghost use Rattle.hq_model.specs.Job.{IsPacket};
ghost use Rattle.hq_derive.specs.Gathered.{lines_of, AreSound, Begins, Goes, InitialThere};
ghost use Rattle.hq_derive.specs.Needed.{AllThere, HasLine, HasRoom, WordThere};

use crate::grounds::rule_alone;
use crate::hands::MakesLines;
use crate::later::Later;
use crate::lines::Lines;
use crate::needs::Needs;
use crate::ranks::{Place, Ranks};
use crate::short::Short;
use hq_bits::{WIDTH, WORDS, lowest, without};
use hq_order::{Before, Fresh};
use hq_packet::Packet;
use std::alloc::{AllocError, Global};

/// Adds the line that p is before r; answers whether that is so.
#[inline(always)]
fn add_one(
    lines: &mut Lines,
    alloc: Global,
    before: &Before,
    p: usize,
    r: usize,
) -> Result<bool, AllocError>
    requires kept { AreSound before.now lines.old }
    requires p_is { IsPacket before.now p }
    ensures goes { OnOk result (Goes before.now lines.old lines.new) }
    ensures there { IfOk result (λ is. IsTrue is → HasLine (lines_of lines.new) p r) }
{
    if r >= before.len() {
        return Ok(false);
    }
    match rule_alone(before.job(), p, r) {
        Some(rule) => lines.add_alone(before, p, r, rule)?,
        None => return add_by_round(lines, alloc, before, p, r),
    }
    Ok(true)
}

/// Adds the line that p is before r, by the round in which that comes first; answers whether it is so.
fn add_by_round(
    lines: &mut Lines,
    alloc: Global,
    before: &Before,
    p: usize,
    r: usize,
) -> Result<bool, AllocError>
    requires { AreSound before.now lines.old }
    ensures goes { OnOk result (Goes before.now lines.old lines.new) }
    ensures there { IfOk result (λ is. IsTrue is → HasLine (lines_of lines.new) p r) }
{
    let Some(round) = before.round(p, r) else {
        return Ok(false);
    };
    lines.numbered(alloc, before, round, p, r)?;
    Ok(true)
}

/// Adds the lines that p is before the packets of a word, as long as that is so; answers whether it is so of all. The
/// word's first bit is that of packet `first`.
fn add_word(
    lines: &mut Lines,
    alloc: Global,
    before: &Before,
    p: usize,
    word: u64,
    first: usize,
) -> Result<bool, AllocError>
    requires first { first + 64 ≤ WIDTH }
    requires p_is { IsPacket before.now p }
    requires kept { AreSound before.now lines.old }
    ensures goes { OnOk result (Goes before.now lines.old lines.new) }
    ensures there { IfOk result (λ are. IsTrue are → WordThere (lines_of lines.new) p word first) }
{
    let mut rest = word;
    'each: while rest != 0 {
        let bit = lowest(rest);
        if !add_one(lines, alloc, before, p, first + bit)? {
            return Ok(false);
        }
        rest = without(rest, bit);
    }
    Ok(true)
}

/// Adds the needed lines of round 0 that p is before others, which are at these places, as long as they are so; answers
/// whether all are.
fn add_row(
    lines: &mut Lines,
    alloc: Global,
    before: &Before,
    p: usize,
    places: &[Place],
) -> Result<bool, AllocError>
    requires few { length places.now ≤ WORDS }
    requires kept { AreSound before.now lines.old }
    requires p_is { IsPacket before.now p }
    ensures goes { OnOk result (Goes before.now lines.old lines.new) }
    ensures there { IfOk result
        (λ are. IsTrue are → (k : ℕ) (place : Place) → slice_get places.now k ≡ Some place
        → WordThere (lines_of lines.new) p place.initial (k * 64)) }
{
    for (k, place) in places.iter().enumerate() {
        if !add_word(lines, alloc, before, p, place.initial, k * 64)? {
            return Ok(false);
        }
    }
    Ok(true)
}

/// Adds the needed lines of round 0, by the first packet and then by the second.
///
/// # Errors
///
/// `AllocError` where there is no memory, or one of them isn't so.
pub fn add_initial(
    lines: &mut Lines,
    alloc: Global,
    before: &Before,
    ranks: &Ranks,
) -> Result<(), AllocError>
    requires { AreSound before.now lines.old }
    ensures { OnOk result (Begins before.now ranks.now lines.old lines.new) }
{
    for p in 0..ranks.len() {
        if p >= before.len() || !add_row(lines, alloc, before, p, ranks.row(p))? {
            return Err(AllocError);
        }
    }
    Ok(())
}

/// Adds the line that p is before r, if that is so through another packet, by lower rounds.
#[inline(always)]
fn add_through(
    lines: &mut Lines,
    alloc: Global,
    before: &Before,
    round: usize,
    p: usize,
    r: usize,
) -> Result<(), AllocError>
    requires kept { AreSound before.now lines.old }
    requires p_is { IsPacket before.now p }
    ensures { OnOk result (Goes before.now lines.old lines.new) }
{
    if let Some(m) = before.between(round, p, r) {
        lines.between(alloc, before, round, p, m, r)?;
    }
    Ok(())
}

/// Adds the line that p is before r, if that comes in this round.
#[inline(always)]
fn add_later(
    lines: &mut Lines,
    alloc: Global,
    before: &Before,
    round: usize,
    p: usize,
    r: usize,
) -> Result<(), AllocError>
    requires kept { AreSound before.now lines.old }
    requires p_is { IsPacket before.now p }
    ensures { OnOk result (Goes before.now lines.old lines.new) }
{
    if r >= before.len() {
        return Ok(());
    }
    match before.job().packet(r).packet {
        Packet::Or(_) => {
            add_by_round(lines, alloc, before, p, r)?;
            Ok(())
        }
        _ => add_through(lines, alloc, before, round, p, r),
    }
}

/// Does so for each packet r of a word; the word's first bit is that of packet `first`.
fn add_later_word(
    lines: &mut Lines,
    alloc: Global,
    before: &Before,
    round: usize,
    p: usize,
    word: u64,
    first: usize,
) -> Result<(), AllocError>
    requires first { first + 64 ≤ WIDTH }
    requires kept { AreSound before.now lines.old }
    requires p_is { IsPacket before.now p }
    ensures { OnOk result (Goes before.now lines.old lines.new) }
{
    let mut rest = word;
    'each: while rest != 0 {
        let bit = lowest(rest);
        add_later(lines, alloc, before, round, p, first + bit)?;
        rest = without(rest, bit);
    }
    Ok(())
}

/// Adds the needed lines that p is before others, of those that come first in this round.
fn add_later_row(
    lines: &mut Lines,
    alloc: Global,
    before: &Before,
    fresh: &Fresh,
    round: usize,
    p: usize,
    needed: &[u64],
) -> Result<(), AllocError>
    requires few { length needed.now ≤ WORDS }
    requires kept { AreSound before.now lines.old }
    requires p_is { IsPacket before.now p }
    ensures { OnOk result (Goes before.now lines.old lines.new) }
{
    for (place, word) in needed.iter().enumerate() {
        if *word != 0 {
            let word = *word & fresh.word(p, place);
            add_later_word(lines, alloc, before, round, p, word, place * 64)?;
        }
    }
    Ok(())
}

/// Adds the needed lines that come first in this round.
fn add_round(
    lines: &mut Lines,
    alloc: Global,
    before: &Before,
    round: usize,
    needs: &Needs,
) -> Result<(), AllocError>
    requires { AreSound before.now lines.old }
    ensures { OnOk result (Goes before.now lines.old lines.new) }
{
    let fresh = before.fresh(round);
    for p in 0..before.len() {
        add_later_row(lines, alloc, before, &fresh, round, p, needs.row(p))?;
    }
    Ok(())
}

/// Adds the needed lines of all rounds but round 0.
fn add_rounds(
    lines: &mut Lines,
    alloc: Global,
    before: &Before,
    needs: &Needs,
) -> Result<(), AllocError>
    requires { AreSound before.now lines.old }
    ensures { OnOk result (Goes before.now lines.old lines.new) }
{
    for round in 1..before.rounds() {
        add_round(lines, alloc, before, round, needs)?;
    }
    Ok(())
}

/// Adds the needed lines of all rounds but round 0: those that were made all at once, where they hold, or else one by one.
fn add_later_lines<H: MakesLines>(
    hands: &H,
    lines: &mut Lines,
    alloc: Global,
    before: &Before,
    needs: &Needs,
    made: Option<Vec<Short>>,
) -> Result<(), AllocError>
    requires { AreSound before.now lines.old }
    ensures { OnOk result (Goes before.now lines.old lines.new) }
{
    if let Some(made) = made {
        if lines.add_made(hands, alloc, before, made) {
            return Ok(());
        }
    }
    add_rounds(lines, alloc, before, needs)
}

/// These lines, if all are there that are needed.
fn if_all(lines: Lines, alloc: Global, before: &Before, needs: &Needs) -> Result<Lines, AllocError>
    requires initial { InitialThere (lines_of lines) lines.ranks }
    requires room { HasRoom before.now needs.now }
    ensures { IfOk result (λ all. (all ≡ lines) × AllThere needs.now (lines_of all)) }
{
    if lines.has_all(alloc, before, needs)? {
        Ok(lines)
    } else {
        Err(AllocError)
    }
}

/// A line for each that is needed: by round, then by the first packet, then by the second, where `Needs::close` noted
/// what they rest on too. What isn't noted goes ahead of the first line that cites it. That the lines stand so, and
/// that there are no others, isn't promised.
///
/// # Errors
///
/// `AllocError` where there is no memory; that it is answered nowhere else isn't promised.
pub fn lines_for<H: MakesLines>(
    hands: &H,
    alloc: Global,
    before: &Before,
    needs: &Needs,
) -> Result<Lines, AllocError>
    requires room { HasRoom before.now needs.now }
    ensures sound { IfOk result (AreSound before.now) }
    ensures there { IfOk result (λ lines. AllThere needs.now (lines_of lines)) }
{
    let ranks = Ranks::new(alloc, before, needs)?;
    let mut lines = Lines::new(alloc, before.job(), ranks.initial())?;
    let Later { numbers, made } = hands.begin(&mut lines, alloc, before, &ranks, needs)?;
    lines.number_by(ranks, numbers);
    add_later_lines(hands, &mut lines, alloc, before, needs, made)?;
    if_all(lines, alloc, before, needs)
}
