//! The end of a run: what the processors did is compared with the journal.

ghost use Rattle.std.specs.Prelude.{◌≡◌, ℕ, ◌<◌, ◌^◌, ◌↔◌, None, length};
ghost use Rattle.std.specs.Prelude.{IsNone, IsOk, IfOk, IfErr, IfNone, IfSome, OnOk};
ghost use Rattle.hq_hall.specs.View.{AddsAlone};
ghost use Rattle.hq_job.specs.Plan.{plan};
ghost use Rattle.hq_events.specs.declared.event.Event.TheVariants as event;
ghost use Rattle.hq_machine.specs.View.{state_of};
ghost use Rattle.hq_model.specs.Job.{IsPacket};
ghost use Rattle.hq_model.specs.Machine.{Phase as phase};
ghost use Rattle.hq_runner.specs.Hosted.{HostDone};
ghost use Rattle.hq_runner.specs.Journals.{ArePrograms, IsOneByOne, IsWhole, host_events};
ghost use Rattle.hq_runner.specs.Outcomes.{Agrees, AreReceipts, IsCounted, IsFirstWrong};
ghost use Rattle.hq_runner.specs.Outcomes.{ListsDone, NoFault, OnReceipts, kits_in};

use crate::fault::Fault;
use crate::host::Hosted;
use crate::outcome::{Outcome, RunFault, kernel_fault};
use crate::owner::{Owner, are_asked, is_receipt};
use crate::queue::Ended;
use hq_certcheck::Accepted;
use hq_hall::{Hall, HallFault};
use hq_job::Job;
use hq_kernels::Kit;
use hq_machine::Event;
use std::alloc::{AllocError, Global};

/// In which place a fault is told among others: want of memory, then bodies by their packets, then that board and
/// hall differ.
fn rank(fault: Fault) -> u32 {
    match fault {
        Fault::Memory => 0,
        Fault::Kernel(packet) => 1 + packet as u32,
        Fault::Split => 65_537,
        Fault::Stopped => 65_538,
    }
}

/// The one of two faults that is told.
fn worse(first: Fault, second: Fault) -> Fault {
    if rank(second) < rank(first) {
        second
    } else {
        first
    }
}

/// The fault that is told, if any was met.
fn first_fault(all: &[Ended], host: Option<Fault>) -> Option<Fault>
    ensures all { IfNone result (NoFault all.now) }
    ensures host { IfNone result (host ≡ None) }
    ensures none { NoFault all.now → host ≡ None → IsNone result }
{
    let mut told = host;
    for ended in all {
        match (told, ended.fault) {
            (None, None) => {}
            (Some(_), None) => {}
            (None, Some(fault)) => told = Some(fault),
            (Some(other), Some(fault)) => told = Some(worse(other, fault)),
        }
    }
    told
}

/// The first queue whose list isn't the journal's; the number of queues stands for the host.
fn wrong_receipt(job: &Job, journal: &[Event], host: &[Event], all: &[Ended]) -> Option<u16>
    requires { length all.now < 2 ^ 16 }
    ensures all { IfNone result (AreReceipts (plan job.now) journal.now all.now) }
    ensures host { IfNone result (host_events journal.now ≡ host.now) }
    ensures wrong { IfSome result (IsFirstWrong (plan job.now) journal.now host.now all.now) }
{
    let mut q = 0;
    while q < all.len() {
        if !is_receipt(job, Owner::Queue(q), journal, &all[q].events) {
            return Some(q as u16);
        }
        q += 1;
    }
    if !is_receipt(job, Owner::Host, journal, host) {
        return Some(all.len() as u16);
    }
    None
}

/// The kits that the processors give back.
fn kits_of(alloc: Global, mut all: Vec<Ended>) -> Result<Vec<Kit>, AllocError>
    ensures { IfOk result (λ kits. kits.items ≡ kits_in all.items) }
{
    let mut kits = Vec::new(alloc);
    while !all.is_empty() {
        let Ended {
            kit,
            events: _,
            fault: _,
        } = all.remove(0);
        kits.push(kit)?;
    }
    Ok(kits)
}

/// Compares what was done with the journal, once no fault was met. Of lists that differ the first is told of.
fn check(job: &Job, hall: &Hall, host: &Hosted, all: &[Ended]) -> Result<(), RunFault>
    requires lists { ListsDone (plan job.now) all.now }
    requires host { HostDone (plan job.now) host.now }
    requires none { NoFault all.now }
    requires none_of_host { host.now.fault ≡ None }
    ensures ok { IsOk result ↔ Agrees job.now hall.now host.now.events.items all.now }
    ensures receipts { IfErr result
        (λ e. OnReceipts e (IsFirstWrong (plan job.now) hall.now.events host.now.events.items all.now)) }
    ensures same { OnOk result (hall.now.job.job ≡ job.now) }
    ensures complete { OnOk result
        ((p : ℕ) → IsPacket (plan hall.now.job.job) p
        → (state_of (plan hall.now.job.job) hall.now.state).phase p ≡ phase.Complete) }
    ensures programs { OnOk result (ArePrograms (plan job.now) hall.now.events) }
    ensures counted { IfErr result (λ e. IsCounted job.now.packets e) }
{
    if all.len() >= 1 << 16 {
        return Err(RunFault::Unfinished);
    }
    if !hall.job().same(job) || !hall.all_complete() {
        return Err(RunFault::Unfinished);
    }
    let journal = hall.journal().events();
    if !are_asked(journal) {
        return Err(RunFault::Unfinished);
    }
    match wrong_receipt(job, journal, &host.events, all) {
        Some(queue) => Err(RunFault::Receipts(queue)),
        None => Ok(()),
    }
}

/// Makes the rest happen, which always can.
fn rest(hall: &mut Hall) -> Result<(), RunFault>
    ensures rests { OnOk result (AddsAlone hall.old event.Rest hall.new) }
    ensures err { IfErr result (λ e. e ≡ RunFault.Memory) }
{
    hall.run_so_far();
    hall.job().valid();
    match hall.rest() {
        Ok(()) => Ok(()),
        Err(HallFault::Memory) => Err(RunFault::Memory),
        Err(HallFault::NotEnabled) => unreachable!(),
        Err(HallFault::WrongPieces) => unreachable!(),
    }
}

/// Makes the rest happen, and copies out the memory that it leaves.
fn rested(alloc: Global, hall: &mut Hall) -> Result<Vec<u8>, RunFault>
    ensures rests { OnOk result (AddsAlone hall.old event.Rest hall.new) }
    ensures memory { IfOk result (λ memory. memory.items ≡ hall.new.state.copies.memory) }
    ensures err { IfErr result (λ e. e ≡ RunFault.Memory) }
{
    rest(hall)?;
    match hall.memory().to_vec(alloc) {
        Ok(memory) => Ok(memory),
        Err(_) => Err(RunFault::Memory),
    }
}

/// Rests, and takes out what the run leaves.
fn close(
    alloc: Global,
    accepted: &Accepted,
    mut hall: Hall,
    kits: Vec<Kit>,
) -> Result<Outcome, RunFault>
    requires same { hall.job.job ≡ accepted.now.job }
    requires complete { (p : ℕ) → IsPacket (plan hall.job.job) p
        → (state_of (plan hall.job.job) hall.state).phase p ≡ phase.Complete }
    requires programs { ArePrograms (plan accepted.now.job) hall.events }
    ensures whole { IfOk result (λ o. IsWhole (plan accepted.now.job) o.journal o.memory.items) }
    ensures one_by_one { IfOk result (λ o. IsOneByOne (plan accepted.now.job) o.memory.items) }
    ensures kits { IfOk result (λ o. o.kits.items ≡ kits.items) }
    ensures err { IfErr result (λ e. e ≡ RunFault.Memory) }
{
    accepted.ordered();
    hall.run_so_far();
    match rested(alloc, &mut hall) {
        Ok(memory) => {
            hall.run_so_far();
            let journal = hall.into_journal();
            Ok(Outcome {
                memory,
                journal,
                kits,
            })
        }
        Err(fault) => Err(fault),
    }
}

/// What is told of a run in which this fault was met.
fn run_fault(job: &Job, hall: &mut Hall, fault: Fault) -> RunFault
    ensures counted { IsCounted job.now.packets result }
    ensures receipts { OnReceipts result (λ _. ⊥) }
{
    match fault {
        Fault::Memory => RunFault::Memory,
        Fault::Kernel(packet) => kernel_fault(job, hall, packet),
        Fault::Split => RunFault::Split,
        Fault::Stopped => RunFault::Unfinished,
    }
}

/// What a run leaves whose journal is what was done.
fn leave(
    alloc: Global,
    accepted: &Accepted,
    hall: Hall,
    all: Vec<Ended>,
) -> Result<Outcome, RunFault>
    requires same { hall.job.job ≡ accepted.now.job }
    requires complete { (p : ℕ) → IsPacket (plan hall.job.job) p
        → (state_of (plan hall.job.job) hall.state).phase p ≡ phase.Complete }
    requires programs { ArePrograms (plan accepted.now.job) hall.events }
    ensures whole { IfOk result (λ o. IsWhole (plan accepted.now.job) o.journal o.memory.items) }
    ensures one_by_one { IfOk result (λ o. IsOneByOne (plan accepted.now.job) o.memory.items) }
    ensures kits { IfOk result (λ o. o.kits.items ≡ kits_in all.items) }
    ensures err { IfErr result (λ e. e ≡ RunFault.Memory) }
{
    match kits_of(alloc, all) {
        Ok(kits) => close(alloc, accepted, hall, kits),
        Err(_) => Err(RunFault::Memory),
    }
}

/// What a run leaves in which no fault was met. Where the journal is what was done, want of memory alone is told.
fn compare(
    alloc: Global,
    accepted: &Accepted,
    hall: Hall,
    host: &Hosted,
    all: Vec<Ended>,
) -> Result<Outcome, RunFault>
    requires lists { ListsDone (plan accepted.now.job) all.items }
    requires host { HostDone (plan accepted.now.job) host.now }
    requires none { NoFault all.items }
    requires none_of_host { host.now.fault ≡ None }
    ensures whole { IfOk result (λ o. IsWhole (plan accepted.now.job) o.journal o.memory.items) }
    ensures one_by_one { IfOk result (λ o. IsOneByOne (plan accepted.now.job) o.memory.items) }
    ensures kits { IfOk result (λ o. o.kits.items ≡ kits_in all.items) }
    ensures ok { OnOk result (Agrees accepted.now.job hall.entry host.now.events.items all.items) }
    ensures agrees { Agrees accepted.now.job hall.entry host.now.events.items all.items
        → IfErr result (λ e. e ≡ RunFault.Memory) }
    ensures receipts { IfErr result
        (λ e. OnReceipts e (IsFirstWrong (plan accepted.now.job) hall.entry.events host.now.events.items all.items)) }
    ensures counted { IfErr result (λ e. IsCounted accepted.now.job.packets e) }
{
    match check(accepted.job(), &hall, host, &all) {
        Ok(()) => leave(alloc, accepted, hall, all),
        Err(fault) => Err(fault),
    }
}

/// What the run leaves, or why it leaves nothing.
pub fn finish(
    alloc: Global,
    accepted: &Accepted,
    mut hall: Hall,
    host: Hosted,
    all: Vec<Ended>,
) -> Result<Outcome, RunFault>
    requires lists { ListsDone (plan accepted.now.job) all.items }
    requires host { HostDone (plan accepted.now.job) host }
    ensures whole { IfOk result (λ o. IsWhole (plan accepted.now.job) o.journal o.memory.items) }
    ensures one_by_one { IfOk result (λ o. IsOneByOne (plan accepted.now.job) o.memory.items) }
    ensures kits { IfOk result (λ o. o.kits.items ≡ kits_in all.items) }
    ensures none { OnOk result (NoFault all.items) }
    ensures ok { OnOk result (Agrees accepted.now.job hall.entry host.events.items all.items) }
    ensures agrees { NoFault all.items → host.fault ≡ None → Agrees accepted.now.job hall.entry host.events.items all.items
        → IfErr result (λ e. e ≡ RunFault.Memory) }
    ensures receipts { IfErr result
        (λ e. OnReceipts e (IsFirstWrong (plan accepted.now.job) hall.entry.events host.events.items all.items)) }
    ensures counted { IfErr result (λ e. IsCounted accepted.now.job.packets e) }
{
    match first_fault(&all, host.fault) {
        Some(fault) => {
            drop(all);
            Err(run_fault(accepted.job(), &mut hall, fault))
        }
        None => compare(alloc, accepted, hall, &host, all),
    }
}
