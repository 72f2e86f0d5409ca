//! Which single changes of a job order two packets.

ghost use Rattle.std.specs.Prelude.{◌≡◌, ◌↔◌, ◌<◌, ℕ, ◌++◌, ◌∷◌, [], IsTrue, IfOk, IfErr, OnOk, length};
ghost use Rattle.hq_job.specs.Plan.{plan};
ghost use Rattle.hq_model.specs.Job.{IsPacket};
ghost use Rattle.hq_explain.specs.Advised.{AreAdvice, IsAdvice};
ghost use Rattle.hq_bits.specs.Bits.{has};
ghost use Rattle.hq_explain.specs.Changes.{Orders};
ghost use Rattle.hq_explain.specs.Trials.{IsTrial};
ghost use Rattle.hq_explain.specs.declared.change.Change.TheVariants as change;
ghost use Rattle.hq_explain.specs.declared.fault.ExplainFault.TheVariants.{Memory};

use crate::bits::note_bits;
use crate::change::Fence;
use crate::fault::ExplainFault;
use crate::scopes::{Trial, let_trial_go};
use hq_bits::{WORDS, empty, has};
use hq_job::Job;
use hq_packet::Scope;
use std::alloc::Global;

/// What of a packet would order two packets, by itself: its barrier bit, once it is set; the least scope of its
/// acquire fence; and that of its release fence.
#[derive(Clone, Copy, Debug, PartialEq, Eq)]
pub struct Advice {
    pub bit: bool,
    pub acquire: Option<Scope>,
    pub release: Option<Scope>,
}

/// What of packet p would order a and b by itself, where `bits` has the packets whose bit would.
fn advice_of(trial: Trial, job: &Job, bits: &[u64], a: usize, b: usize, p: usize) -> (Advice, Trial)
    requires trial { IsTrial (plan job.now) trial }
    requires a_is { IsPacket (plan job.now) a }
    requires b_is { IsPacket (plan job.now) b }
    requires p_is { IsPacket (plan job.now) p }
    requires bits { IsTrue (has bits.now p) ↔ Orders (plan job.now) a b p change.Bit }
    ensures advice { IsAdvice (plan job.now) a b p result.0 }
    ensures trial { IsTrial (plan job.now) result.1 }
{
    let (acquire, trial) = trial.least(job, a, b, p, Fence::Acquire);
    let (release, trial) = trial.least(job, a, b, p, Fence::Release);
    let advice = Advice {
        bit: has(bits, p),
        acquire,
        release,
    };
    (advice, trial)
}

/// The packets whose barrier bit would order a and b by itself.
fn bits_of(alloc: Global, job: &Job, a: usize, b: usize) -> Result<Vec<u64>, ExplainFault>
    requires a_is { IsPacket (plan job.now) a }
    requires b_is { IsPacket (plan job.now) b }
    ensures memory { IfErr result (λ e. e ≡ Memory) }
    ensures exact { IfOk result (λ bits. (p : ℕ) → IsTrue (has bits.items p) ↔ Orders (plan job.now) a b p change.Bit) }
{
    job.valid();
    let mut bits = empty(alloc, WORDS)?;
    note_bits(alloc, job, a, b, 0, job.packets().len(), &mut bits)?;
    Ok(bits)
}

/// Puts one more behind a list.
fn push(list: &mut Vec<Advice>, advice: Advice) -> Result<(), ExplainFault>
    ensures memory { IfErr result (λ e. e ≡ Memory) }
    ensures pushed { OnOk result (list.new.items ≡ list.old.items ++ advice ∷ []) }
{
    list.push(advice)?;
    Ok(())
}

/// Puts behind an empty list what of each packet would order a and b by itself, where `bits` has the packets whose
/// bit would.
fn advise(
    mut trial: Trial,
    job: &Job,
    bits: &[u64],
    a: usize,
    b: usize,
    list: &mut Vec<Advice>,
) -> Result<(), ExplainFault>
    requires trial { IsTrial (plan job.now) trial }
    requires a_is { a < length (plan job.now).packets }
    requires b_is { b < length (plan job.now).packets }
    requires bits { (p : ℕ) → IsTrue (has bits.now p) ↔ Orders (plan job.now) a b p change.Bit }
    requires empty { list.old.items ≡ [] }
    ensures memory { IfErr result (λ e. e ≡ Memory) }
    ensures advice { OnOk result (AreAdvice (plan job.now) a b list.new.items) }
{
    for p in 0..job.packets().len() {
        let (advice, next) = advice_of(trial, job, bits, a, b, p);
        match push(list, advice) {
            Ok(()) => trial = next,
            Err(error) => {
                let_trial_go(next);
                return Err(error);
            }
        }
    }
    let_trial_go(trial);
    Ok(())
}

/// What of each packet would order a and b by itself, where `bits` has the packets whose bit would.
fn advice_with(
    alloc: Global,
    job: &Job,
    bits: &[u64],
    a: usize,
    b: usize,
) -> Result<Vec<Advice>, ExplainFault>
    requires a_is { a < length (plan job.now).packets }
    requires b_is { b < length (plan job.now).packets }
    requires bits { (p : ℕ) → IsTrue (has bits.now p) ↔ Orders (plan job.now) a b p change.Bit }
    ensures memory { IfErr result (λ e. e ≡ Memory) }
    ensures advice { IfOk result (λ list. AreAdvice (plan job.now) a b list.items) }
{
    let mut list = Vec::with_capacity(alloc, job.packets().len())?;
    let trial = Trial::build(alloc, job)?;
    advise(trial, job, bits, a, b, &mut list)?;
    Ok(list)
}

/// What of each packet would order a and b by itself.
///
/// # Errors
///
/// `Memory` alone is to be expected, since nothing is written.
pub fn advice_on(alloc: Global, job: &Job, a: usize, b: usize) -> Result<Vec<Advice>, ExplainFault>
    requires a_is { a < length (plan job.now).packets }
    requires b_is { b < length (plan job.now).packets }
    ensures memory { IfErr result (λ e. e ≡ Memory) }
    ensures advice { IfOk result (λ list. AreAdvice (plan job.now) a b list.items) }
{
    let bits = bits_of(alloc, job, a, b)?;
    advice_with(alloc, job, &bits, a, b)
}
