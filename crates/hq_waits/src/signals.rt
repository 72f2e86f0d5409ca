//! Which packets complete on which signal.

ghost use Rattle.std.specs.Prelude.{◌≡◌, ◌↔◌, IsTrue, false, ◌+◌, ◌*◌, ◌<◌, ◌≤◌, ℕ, length, IfOk};
ghost use Rattle.hq_job.specs.Plan.{plan};
ghost use Rattle.hq_bits.specs.Bits.{has};
ghost use Rattle.hq_rows.specs.Lists.{AllAre};
ghost use Rattle.hq_waits.specs.Waits.{Completing, MarksCompletion};

use hq_bits::{WORDS, empty, insert};
use hq_job::Job;
use std::alloc::{AllocError, Global};

/// Takes each packet that completes on a signal into the row of that signal. The rows lie behind one another.
fn mark_completions(job: &Job, words: usize, rows: &mut [u64])
    requires room { length job.now.packets ≤ words * 64 }
    requires few { words ≤ WORDS + 1 }
    requires rows { length rows.old ≡ length job.now.signals * words }
    requires empty { (e : ℕ) → has rows.old e ≡ false }
    ensures marked { (e : ℕ) → IsTrue (has rows.new e) ↔ MarksCompletion (plan job.now) words e }
    ensures len { length rows.new ≡ length rows.old }
{
    job.valid();
    for (number, packet) in job.packets().iter().enumerate() {
        if let Some(signal) = packet.done {
            insert(rows, signal as usize * (words * 64) + number);
        }
    }
}

/// The row of a signal, of the rows of all.
fn completing_row(
    alloc: Global,
    job: &Job,
    rows: &[u64],
    words: usize,
    signal: usize,
) -> Result<Vec<u64>, AllocError>
    requires room { length job.now.packets ≤ words * 64 }
    requires rows { length rows.now ≡ length job.now.signals * words }
    requires signal { signal < length job.now.signals }
    requires marked { (e : ℕ) → IsTrue (has rows.now e) ↔ MarksCompletion (plan job.now) words e }
    ensures row { IfOk result (λ row. Completing (plan job.now) signal row.items) }
    ensures len { IfOk result (λ row. length row.items ≡ words) }
{
    let start = signal * words;
    let row = rows[start..start + words].to_vec(alloc)?;
    Ok(row)
}

/// For each signal the set of the packets that complete on it.
///
/// # Errors
///
/// `AllocError` where there is no memory.
pub fn completing(alloc: Global, job: &Job, words: usize) -> Result<Vec<Vec<u64>>, AllocError>
    requires room { length job.now.packets ≤ words * 64 }
    requires few { words ≤ WORDS + 1 }
    ensures rows { IfOk result
        (λ rows. AllAre (λ s row. Completing (plan job.now) s row.items × (length row.items ≡ words)) rows.items) }
    ensures count { IfOk result (λ rows. length rows.items ≡ length job.now.signals) }
{
    job.valid();
    let signals = job.signals().len();
    let mut all = empty(alloc, signals * words)?;
    mark_completions(job, words, &mut all);
    let mut rows = Vec::with_capacity(alloc, signals)?;
    for signal in 0..signals {
        rows.push(completing_row(alloc, job, &all, words, signal)?)?;
    }
    Ok(rows)
}
