//! Whether what a barrier packet waits for stands ahead of it.

ghost use Rattle.std.specs.Prelude.{◌≡◌, ℕ, ◌<◌, ◌↔◌, IsTrue, IfOk, IfSome, None, length, slice_index_or};
ghost use Rattle.hq_job.specs.Plan.{plan};
ghost use Rattle.hq_model.specs.Job.{packet, IsPacket};
ghost use Rattle.hq_ordercheck.specs.Placed.{IsOverBefore, IsNoted, AreLasts, AllAreOver, OneIsOver, HasWaited};

use hq_job::Job;
use std::alloc::{AllocError, Global};

/// The later of a place and the last one so far.
fn later(last: Option<usize>, place: usize) -> Option<usize>
    ensures { (b : ℕ) → IfSome result (λ l. l < b) ↔ (IfSome last (λ l. l < b) × (place < b)) }
{
    match last {
        Some(old) if old >= place => Some(old),
        _ => Some(place),
    }
}

/// Notes the place of a packet for the signal that it completes on.
fn note_last(lasts: &mut [Option<usize>], done: Option<u16>, place: usize)
    requires { IfSome done (λ s. s < length lasts.old) }
    ensures { IsNoted lasts.old lasts.new done place }
{
    if let Some(signal) = done {
        let signal = signal as usize;
        lasts[signal] = later(lasts[signal], place);
    }
}

/// The signal that a packet completes on, if it has one.
fn completion(job: &Job, number: usize) -> Option<u16>
    requires { number < length job.now.packets }
    ensures done { result ≡ (packet (plan job.now) number).done }
    ensures there { IfSome result (λ s. s < length job.now.signals) }
{
    job.valid();
    job.packets()[number].done
}

/// Notes the places of all packets.
fn note_lasts(lasts: &mut [Option<usize>], job: &Job, places: &[usize])
    requires signals { length lasts.old ≡ length job.now.signals }
    requires none { (s : ℕ) → s < length lasts.old → slice_index_or lasts.old s None ≡ None }
    requires count { length places.now ≡ length job.now.packets }
    ensures { AreLasts (plan job.now) places.now (length job.now.signals) lasts.new }
{
    for number in 0..job.packets().len() {
        note_last(lasts, completion(job, number), places[number]);
    }
}

/// The last place at which a packet completes on each signal, if one does.
pub fn last_places(
    alloc: Global,
    job: &Job,
    places: &[usize],
) -> Result<Vec<Option<usize>>, AllocError>
    requires { length places.now ≡ length job.now.packets }
    ensures { IfOk result (λ lasts. AreLasts (plan job.now) places.now (length job.now.signals) lasts.items) }
{
    let mut lasts = vec![in alloc; None; job.signals().len()]?;
    note_lasts(&mut lasts, job, places);
    Ok(lasts)
}

/// The last place that is noted for the signal, if one is.
fn last_of(lasts: &[Option<usize>], signal: usize) -> Option<usize>
    ensures { result ≡ slice_index_or lasts.now signal None }
{
    *lasts.get(signal)?
}

/// Whether all that complete on the signal stand ahead of r.
fn is_over(job: &Job, places: &[usize], lasts: &[Option<usize>], signal: u16, r: usize) -> bool
    requires count { length places.now ≡ length job.now.packets }
    requires lasts { AreLasts (plan job.now) places.now (length job.now.signals) lasts.now }
    requires r_is { r < length job.now.packets }
    ensures { IsTrue result ↔ IsOverBefore (plan job.now) places.now signal r }
{
    match last_of(lasts, signal as usize) {
        Some(last) => last < places[r],
        None => true,
    }
}

/// Whether all dependencies of r are over ahead of it.
fn all_are_over(job: &Job, places: &[usize], lasts: &[Option<usize>], r: usize) -> bool
    requires lasts { AreLasts (plan job.now) places.now (length job.now.signals) lasts.now }
    requires count { length places.now ≡ length job.now.packets }
    requires r_is { r < length job.now.packets }
    ensures { IsTrue result ↔ AllAreOver (plan job.now) places.now r }
{
    for slot in job.slots(r) {
        if let Some(signal) = slot {
            if !is_over(job, places, lasts, *signal, r) {
                return false;
            }
        }
    }
    true
}

/// Whether one dependency of r is over ahead of it.
fn one_is_over(job: &Job, places: &[usize], lasts: &[Option<usize>], r: usize) -> bool
    requires lasts { AreLasts (plan job.now) places.now (length job.now.signals) lasts.now }
    requires count { length places.now ≡ length job.now.packets }
    requires r_is { r < length job.now.packets }
    ensures { IsTrue result ↔ OneIsOver (plan job.now) places.now r }
{
    for slot in job.slots(r) {
        if let Some(signal) = slot {
            if is_over(job, places, lasts, *signal, r) {
                return true;
            }
        }
    }
    false
}

/// Whether what r waits for is over ahead of it.
fn has_waited(job: &Job, places: &[usize], lasts: &[Option<usize>], r: usize) -> bool
    requires lasts { AreLasts (plan job.now) places.now (length job.now.signals) lasts.now }
    requires count { length places.now ≡ length job.now.packets }
    requires r_is { r < length job.now.packets }
    ensures { IsTrue result ↔ HasWaited (plan job.now) places.now r }
{
    if job.is_and(r) {
        return all_are_over(job, places, lasts, r);
    }
    if job.is_or(r) {
        return one_is_over(job, places, lasts, r);
    }
    true
}

/// Whether what each packet waits for is over ahead of it.
pub fn all_have_waited(job: &Job, places: &[usize], lasts: &[Option<usize>]) -> bool
    requires lasts { AreLasts (plan job.now) places.now (length job.now.signals) lasts.now }
    requires count { length places.now ≡ length job.now.packets }
    ensures { IsTrue result ↔ ((r : ℕ) → IsPacket (plan job.now) r → HasWaited (plan job.now) places.now r) }
{
    for r in 0..job.packets().len() {
        if !has_waited(job, places, lasts, r) {
            return false;
        }
    }
    true
}
