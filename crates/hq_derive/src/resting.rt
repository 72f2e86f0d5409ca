//! What needed lines rest on: noted from the last round down, so that all lines that cite a line are known when its turn
//! comes.

ghost use Rattle.std.specs.Prelude.{◌≤◌, ◌+◌, IsTrue};
ghost use Rattle.hq_model.specs.Job.{IsPacket};
ghost use Rattle.hq_order.specs.Rounds.{IsFirstWithin};
ghost use Rattle.hq_derive.specs.Needed.{HasRoom, Widens};

use crate::grounds::{Ground, branch_of, ground_of};
use crate::needs::Needs;
use hq_bits::{WIDTH, WORDS, lowest, without};
use hq_order::{Before, Fresh};
use hq_packet::Packet;
use std::alloc::Global;

/// The line is needed by which p comes up to the signal.
fn need_branch(needs: &mut Needs, before: &Before, round: usize, p: usize, signal: u16)
    requires room { HasRoom before.now needs.old }
    requires p_is { IsPacket before.now p }
    ensures { Widens before.now needs.old needs.new }
{
    if let Some(d) = branch_of(before, round, p, signal) {
        if d != p {
            needs.need(before, p, d);
        }
    }
}

/// The lines are needed by which p comes up to the signals.
fn need_branches(needs: &mut Needs, before: &Before, round: usize, p: usize, slots: &[Option<u16>])
    requires room { HasRoom before.now needs.old }
    requires p_is { IsPacket before.now p }
    ensures { Widens before.now needs.old needs.new }
{
    for slot in slots {
        if let Some(signal) = slot {
            need_branch(needs, before, round, p, *signal);
        }
    }
}

/// The lines are needed that p is before m, and m before r.
#[inline(always)]
fn need_both(needs: &mut Needs, before: &Before, p: usize, m: usize, r: usize)
    requires room { HasRoom before.now needs.old }
    requires p_is { IsPacket before.now p }
    requires m_is { IsPacket before.now m }
    requires r_is { IsPacket before.now r }
    ensures { Widens before.now needs.old needs.new }
{
    needs.need(before, p, m);
    needs.need(before, m, r);
}

/// Whether p comes before r in this round, and in none below it.
fn is_first(before: &Before, round: usize, p: usize, r: usize) -> bool
    ensures { IsTrue result → IsFirstWithin before.now round p r }
{
    match before.round(p, r) {
        Some(first) => first == round,
        None => false,
    }
}

/// What the line rests on that p is before r, a barrier-OR, if that comes first in this round, is needed.
#[inline(never)]
#[tactic(auto, using(crate::proofs::Founded::middle_packet))]
fn need_either(needs: &mut Needs, before: &Before, round: usize, p: usize, r: usize)
    requires room { HasRoom before.now needs.old }
    requires p_is { IsPacket before.now p }
    requires r_is { IsPacket before.now r }
    ensures { Widens before.now needs.old needs.new }
{
    if !is_first(before, round, p, r) {
        return;
    }
    match ground_of(before, round, p, r) {
        Ground::Through(m) => need_both(needs, before, p, m, r),
        Ground::Or => need_branches(needs, before, round, p, before.job().slots(r)),
        Ground::Alone(_) => {}
    }
}

/// The lines are needed that p is before another packet and that before r, if p is before r so by lower rounds.
#[inline(always)]
fn need_through(needs: &mut Needs, before: &Before, round: usize, p: usize, r: usize)
    requires room { HasRoom before.now needs.old }
    requires p_is { IsPacket before.now p }
    requires r_is { IsPacket before.now r }
    ensures { Widens before.now needs.old needs.new }
{
    if let Some(m) = before.between(round, p, r) {
        needs.keep(before, p, m, r);
        need_both(needs, before, p, m, r);
    }
}

/// What the line rests on that p is before r, if that comes in this round, is needed.
#[inline(always)]
fn need_under(needs: &mut Needs, before: &Before, round: usize, p: usize, r: usize)
    requires room { HasRoom before.now needs.old }
    requires p_is { IsPacket before.now p }
    ensures { Widens before.now needs.old needs.new }
{
    if r >= before.len() {
        return;
    }
    match before.job().packet(r).packet {
        Packet::Or(_) => need_either(needs, before, round, p, r),
        _ => need_through(needs, before, round, p, r),
    }
}

/// Does so for each packet r of a word; the word's first bit is that of packet `first`.
fn need_under_word(
    needs: &mut Needs,
    before: &Before,
    round: usize,
    p: usize,
    word: u64,
    first: usize,
)
    requires first { first + 64 ≤ WIDTH }
    requires room { HasRoom before.now needs.old }
    requires p_is { IsPacket before.now p }
    ensures { Widens before.now needs.old needs.new }
{
    let mut rest = word;
    'each: while rest != 0 {
        let bit = lowest(rest);
        need_under(needs, before, round, p, first + bit);
        rest = without(rest, bit);
    }
}

/// Does so for each packet r that p is needed to be before, of those that it comes before in this round.
fn need_under_row(needs: &mut Needs, before: &Before, fresh: &Fresh, round: usize, p: usize)
    requires room { HasRoom before.now needs.old }
    requires p_is { IsPacket before.now p }
    ensures { Widens before.now needs.old needs.new }
{
    before.job().valid();
    if needs.row(p).is_empty() {
        return;
    }
    for place in 0..WORDS {
        let needed = needs.word(p * WORDS + place);
        if needed != 0 {
            let word = needed & fresh.word(p, place);
            need_under_word(needs, before, round, p, word, place * 64);
        }
    }
}

/// What the needed lines of a round rest on is needed.
fn need_under_round(needs: &mut Needs, before: &Before, round: usize)
    requires { HasRoom before.now needs.old }
    ensures { Widens before.now needs.old needs.new }
{
    needs.go_down(before);
    let fresh = before.fresh(round);
    for p in 0..before.len() {
        need_under_row(needs, before, &fresh, round, p);
    }
}

impl Needs {
    /// What the needed lines rest on is needed too, and what that rests on.
    pub fn close(&mut self, before: &Before)
        requires { HasRoom before.now self.old }
        ensures { Widens before.now self.old self.new }
    {
        let last = before.rounds().saturating_sub(1);
        for ahead in 0..last {
            need_under_round(self, before, last - ahead);
        }
    }

    /// Does so, and keeps through which packets lines go, so that one thread makes them in less time.
    pub fn close_keeping(&mut self, alloc: Global, before: &Before)
        requires { HasRoom before.now self.old }
        ensures { Widens before.now self.old self.new }
    {
        self.keep_middles(alloc, before);
        self.close(before);
    }
}
