//! Lists of packets one by one.

ghost use Rattle.std.specs.Prelude.{◌≡◌, ◌↔◌, IsTrue, not, ◌+◌, ◌*◌, ◌<◌, ◌≤◌, ℕ, length, filter, IfOk, IfErr};
ghost use Rattle.std.specs.Prelude.{MatchOption};
ghost use Rattle.hq_job.specs.Plan.{plan};
ghost use Rattle.hq_model.specs.Job.{Earlier};
ghost use Rattle.hq_model.specs.Machine.{listed};
ghost use Rattle.hq_model.specs.Order.{FreesFor, OrderList};
ghost use Rattle.hq_bits.specs.Bits.{has};
ghost use Rattle.hq_rows.specs.Lists.{AllAre};
ghost use Rattle.hq_waits.specs.Waits.{Completing, OfDependencies};
ghost use Rattle.hq_schedule.specs.Placing.{AreSlots, HasAhead, IsOver, MayFollow, OneIsOver, WaitIsOver};
ghost use Rattle.hq_schedule.specs.Least.{LeastFirst};
ghost use Rattle.hq_schedule.specs.Faults.{StuckWhereSo};

use crate::freeing::freeing;
use crate::slots::slots;
use hq_bits::{covers, has, insert};
use hq_job::Job;
use hq_model::PACKETS;
use hq_packet::Packet;
use hq_rows::beyond;
use hq_waits::{OrderFault, completing};
use std::alloc::{AllocError, Global};

/// Whether all that complete on a signal have come.
fn is_over(job: &Job, completing: &[Vec<u64>], come: &[u64], signal: u16) -> bool
    requires completing { AllAre
        (λ s set. Completing (plan job.now) s set.items × (length set.items ≡ length come.now)) completing.now }
    requires low { signal < length completing.now }
    ensures { IsTrue result ↔ IsOver (plan job.now) come.now signal }
{
    // the job is asked for by the contract alone
    let _ = job;
    covers(come, &completing[signal as usize])
}

/// Whether all that complete on one of a packet's dependencies have come.
fn one_is_over(job: &Job, completing: &[Vec<u64>], come: &[u64], number: usize) -> bool
    requires number { number < length job.now.packets }
    requires completing { AllAre
        (λ s set. Completing (plan job.now) s set.items × (length set.items ≡ length come.now)) completing.now }
    requires count { length completing.now ≡ length job.now.signals }
    ensures { IsTrue result ↔ OneIsOver (plan job.now) come.now number }
{
    job.valid();
    for slot in job.slots(number) {
        if let Some(signal) = slot {
            if is_over(job, completing, come, *signal) {
                return true;
            }
        }
    }
    false
}

/// Whether all that complete on a packet's dependencies have come.
fn all_are_over(job: &Job, completing: &[Vec<u64>], come: &[u64], number: usize) -> bool
    requires number { number < length job.now.packets }
    requires completing { AllAre
        (λ s set. Completing (plan job.now) s set.items × (length set.items ≡ length come.now)) completing.now }
    requires count { length completing.now ≡ length job.now.signals }
    ensures { IsTrue result ↔ ((e : ℕ) → OfDependencies (plan job.now) number e → IsTrue (has come.now e)) }
{
    job.valid();
    for slot in job.slots(number) {
        if let Some(signal) = slot {
            if !is_over(job, completing, come, *signal) {
                return false;
            }
        }
    }
    true
}

/// Whether a packet's wait is over, where it is a barrier packet.
fn wait_is_over(job: &Job, completing: &[Vec<u64>], come: &[u64], number: usize) -> bool
    requires number { number < length job.now.packets }
    requires completing { AllAre
        (λ s set. Completing (plan job.now) s set.items × (length set.items ≡ length come.now)) completing.now }
    requires count { length completing.now ≡ length job.now.signals }
    ensures { IsTrue result ↔ WaitIsOver (plan job.now) come.now number }
{
    match job.packet(number).packet {
        Packet::And(_) => all_are_over(job, completing, come, number),
        Packet::Or(_) => one_is_over(job, completing, come, number),
        _ => true,
    }
}

/// Whether all have come that stand before a packet in its queue; where one has come, so have those before it.
fn earlier_have_come(job: &Job, come: &[u64], number: usize) -> bool
    requires number { number < length job.now.packets }
    requires closed { HasAhead (plan job.now) come.now }
    ensures { IsTrue result ↔ ((e : ℕ) → Earlier (plan job.now) e number → IsTrue (has come.now e)) }
{
    let earlier = job.earlier(number);
    earlier.start >= number || has(come, number - 1)
}

/// Whether all have come that a packet's slot waits for.
fn slot_is_free(job: &Job, slots: &[Vec<u64>], come: &[u64], number: usize) -> bool
    requires number { number < length job.now.packets }
    requires slots { AreSlots (plan job.now) (length come.now) slots.now }
    ensures { IsTrue result ↔ ((e : ℕ) → FreesFor (plan job.now) e number → IsTrue (has come.now e)) }
{
    if !job.rings() {
        return true;
    }
    covers(come, &slots[number])
}

/// Whether a packet may come next.
fn may_follow(
    job: &Job,
    completing: &[Vec<u64>],
    slots: &[Vec<u64>],
    come: &[u64],
    number: usize,
) -> bool
    requires number { number < length job.now.packets }
    requires completing { AllAre
        (λ s set. Completing (plan job.now) s set.items × (length set.items ≡ length come.now)) completing.now }
    requires count { length completing.now ≡ length job.now.signals }
    requires slots { AreSlots (plan job.now) (length come.now) slots.now }
    requires closed { HasAhead (plan job.now) come.now }
    ensures { IsTrue result ↔ MayFollow (plan job.now) come.now number }
{
    if has(come, number) {
        return false;
    }
    if !earlier_have_come(job, come, number) {
        return false;
    }
    if !slot_is_free(job, slots, come, number) {
        return false;
    }
    wait_is_over(job, completing, come, number)
}

/// The end of a packet's queue: all from the packet up to there stay behind it.
fn end_of_queue(job: &Job, number: usize) -> usize
    requires { number < length job.now.packets }
    ensures beyond { number < result }
    ensures behind { (r : ℕ) → number < r → r < result → Earlier (plan job.now) number r }
{
    job.valid();
    job.queue_of(number).end
}

/// The packet to look at behind one that may not come next: none between them may.
fn following(job: &Job, come: &[u64], number: usize) -> usize
    requires { number < length job.now.packets }
    ensures beyond { number < result }
    ensures none { (r : ℕ) → number < r → r < result → MayFollow (plan job.now) come.now r → ⊥ }
{
    job.valid();
    if has(come, number) {
        beyond(come, number)
    } else {
        end_of_queue(job, number)
    }
}

/// The least packet that may come next, where all below the first have come.
fn next(
    job: &Job,
    completing: &[Vec<u64>],
    slots: &[Vec<u64>],
    come: &[u64],
    first: usize,
) -> Option<usize>
    requires completing { AllAre
        (λ s set. Completing (plan job.now) s set.items × (length set.items ≡ length come.now)) completing.now }
    requires signals { length completing.now ≡ length job.now.signals }
    requires slots { AreSlots (plan job.now) (length come.now) slots.now }
    requires closed { HasAhead (plan job.now) come.now }
    requires first { (r : ℕ) → r < first → IsTrue (has come.now r) }
    ensures { MatchOption result ((p : ℕ) → MayFollow (plan job.now) come.now p → ⊥)
        (λ p. MayFollow (plan job.now) come.now p × ((r : ℕ) → r < p → MayFollow (plan job.now) come.now r → ⊥)) }
{
    let mut number = first;
    while number < job.packets().len() {
        if may_follow(job, completing, slots, come, number) {
            return Some(number);
        }
        number = following(job, come, number);
    }
    None
}

/// The first number that hasn't come, at or behind one below which all have, or the count.
fn first_left(come: &[u64], first: usize, count: usize) -> usize
    requires { (r : ℕ) → r < first → IsTrue (has come.now r) }
    ensures { (r : ℕ) → r < result → IsTrue (has come.now r) }
{
    let mut first = first;
    while first < count && has(come, first) {
        first += 1;
    }
    first
}

/// The packets that haven't come, rising.
fn left(alloc: Global, come: &[u64], count: usize) -> Result<Vec<u16>, AllocError>
    requires { count ≤ PACKETS }
    ensures { IfOk result (λ left. left.items ≡ filter (λ p. not (has come.now p)) (listed count (λ p. p))) }
{
    let mut left = Vec::new(alloc);
    for number in 0..count {
        if !has(come, number) {
            left.push(number as u16)?;
        }
    }
    Ok(left)
}

/// An order list of the job: each time the least packet that may come next.
///
/// # Errors
///
/// `Stuck` with the packets that can never complete, rising, exactly where no list is an order list; `Memory`.
pub fn schedule(alloc: Global, job: &Job) -> Result<Vec<u16>, OrderFault>
    ensures ok { IfOk result (λ list. OrderList (plan job.now) list.items) }
    ensures least { IfOk result (λ list. LeastFirst (plan job.now) list.items) }
    ensures stuck { IfErr result (λ e. StuckWhereSo (plan job.now) e) }
{
    job.valid();
    let count = job.packets().len();
    let words = count / 64 + 1;
    let completing = completing(alloc, job, words)?;
    let freeing = freeing(alloc, job, words)?;
    let slots = slots(alloc, job, &freeing, words)?;
    let mut come = vec![in alloc; 0; words]?;
    let mut list = Vec::with_capacity(alloc, count)?;
    let mut first = 0;
    while let Some(number) = next(job, &completing, &slots, &come, first) {
        list.push(number as u16)?;
        insert(&mut come, number);
        first = first_left(&come, first, count);
    }
    let left = left(alloc, &come, count)?;
    if left.is_empty() {
        Ok(list)
    } else {
        Err(OrderFault::Stuck(left))
    }
}
