//! Lists of packets, and each packet's place in them.

ghost use Rattle.std.specs.Prelude.{◌≡◌, ℕ, ◌<◌, ◌↔◌, IsTrue, IfOk, MatchOption, All, length, slice_index};
ghost use Rattle.hq_job.specs.Plan.{plan};
ghost use Rattle.hq_model.specs.Job.{IsPacket};
ghost use Rattle.hq_model.specs.Order.{place, EachOnce};
ghost use Rattle.hq_ordercheck.specs.Placed.{IsTable, ArePlaces};

use hq_job::Job;
use std::alloc::{AllocError, Global};

/// The numbers of the list, if all are numbers of packets.
///
/// # Errors
///
/// `AllocError` where there is no memory.
pub fn numbers(alloc: Global, job: &Job, list: &[u32]) -> Result<Option<Vec<u16>>, AllocError>
    ensures { IfOk result
        (λ found. MatchOption found (¬ All (IsPacket (plan job.now)) list.now)
        (λ numbers. All (IsPacket (plan job.now)) list.now × (numbers.items ≡ list.now))) }
{
    job.valid();
    let count = job.packets().len();
    let mut numbers = Vec::with_capacity(alloc, list.len())?;
    for number in list {
        if *number as usize >= count {
            return Ok(None);
        }
        numbers.push(*number as u16)?;
    }
    Ok(Some(numbers))
}

/// Sets the place of each number of the list, the last place first.
fn set_places(places: &mut [usize], list: &[u16])
    requires { (p : ℕ) → p < length places.old → slice_index places.old p ≡ length list.now }
    ensures { IsTable (length places.old) (place list.now) places.new }
{
    for at in (0..list.len()).rev() {
        let number = list[at] as usize;
        if number < places.len() {
            places[number] = at;
        }
    }
}

/// The place of each packet in the list.
pub fn places(alloc: Global, job: &Job, list: &[u16]) -> Result<Vec<usize>, AllocError>
    ensures { IfOk result (λ places. ArePlaces (plan job.now) list.now places.items) }
{
    let mut places = vec![in alloc; list.len(); job.packets().len()]?;
    set_places(&mut places, list);
    Ok(places)
}

/// Whether all of these places are below the limit.
fn all_below(places: &[usize], limit: usize) -> bool
    ensures { IsTrue result ↔ All (λ place. place < limit) places.now }
{
    places.iter().all(|place| *place < limit)
}

/// Whether each place of the list is the first one of its number.
fn none_twice(list: &[u16], places: &[usize]) -> bool
    requires { All (λ number. number < length places.now) list.now }
    ensures { IsTrue result ↔ ((k : ℕ) → k < length list.now → slice_index places.now (slice_index list.now k) ≡ k) }
{
    for (place, number) in list.iter().enumerate() {
        if places[*number as usize] != place {
            return false;
        }
    }
    true
}

/// Whether every packet stands once in the list.
pub fn each_once(job: &Job, list: &[u16], places: &[usize]) -> bool
    requires packets { All (IsPacket (plan job.now)) list.now }
    requires places { ArePlaces (plan job.now) list.now places.now }
    ensures { IsTrue result ↔ EachOnce (plan job.now) list.now }
{
    all_below(places, list.len()) && none_twice(list, places)
}
