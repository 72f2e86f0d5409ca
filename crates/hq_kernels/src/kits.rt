//! Whether kits suit a job, and kits of stock bodies.

ghost use Rattle.std.specs.Prelude.{◌<◌, ◌↔◌, IsTrue, IfOk, All, length, map};
ghost use Rattle.hq_kernels.specs.Kits.{AreStockKits, BodiesFit, IsEmptyStock, KitFits, KitsFit, bodies_of, seen};

use crate::kit::{Body, Kit};
use crate::packets::{is_work, packets_of};
use crate::stock::Stock;
use hq_job::Job;
use hq_tables::Placed;
use std::alloc::{AllocError, Global};

/// Whether the bodies are for those of these packets that aren't barriers, one for each, in the same order.
fn bodies_fit(packets: &[Placed], bodies: &[Body]) -> bool
    ensures { IsTrue result ↔ BodiesFit packets.now (map (seen (λ b. kernel b) (λ b. service b)) bodies.now) }
{
    let Some((placed, packets)) = packets.split_first() else {
        return bodies.is_empty();
    };
    if !is_work(&placed.packet) {
        return bodies_fit(packets, bodies);
    }
    match bodies.split_first() {
        Some((body, bodies)) => body.fits(placed) && bodies_fit(packets, bodies),
        None => false,
    }
}

/// Whether the bodies of the kit are for the packets of this queue that aren't barriers.
fn kit_fits(job: &Job, queue: usize, kit: &Kit) -> bool
    requires { queue < length job.now.queues }
    ensures { IsTrue result ↔ KitFits job.now queue (map (seen (λ b. kernel b) (λ b. service b)) kit.now.bodies.items) }
{
    bodies_fit(packets_of(job, queue), &kit.bodies)
}

/// Whether each queue of the job has a kit, with a body for each of its packets that aren't barriers, in their
/// order: of the packet's kind, with its task, and one that hasn't run. It takes no memory.
pub fn kits_fit(job: &Job, kits: &[Kit]) -> bool
    ensures { IsTrue result ↔ KitsFit job.now (bodies_of (λ b. kernel b) (λ b. service b) kits.now) }
{
    if kits.len() != job.queues().len() {
        return false;
    }
    for (queue, kit) in kits.iter().enumerate() {
        if !kit_fits(job, queue, kit) {
            return false;
        }
    }
    true
}

/// A stock body for each of these packets that isn't a barrier. It holds no piece.
fn stock_bodies(alloc: Global, packets: &[Placed]) -> Result<Kit, AllocError>
    ensures fit { IfOk result
        (λ kit. BodiesFit packets.now (map (seen (λ b. kernel b) (λ b. service b)) kit.bodies.items)) }
    ensures stock { IfOk result
        (λ kit. All IsEmptyStock (map (seen (λ b. kernel b) (λ b. service b)) kit.bodies.items)) }
{
    let mut bodies = Vec::new(alloc);
    for placed in packets {
        if is_work(&placed.packet) {
            bodies.push(Body::Stock(Stock::new(placed.work.task)))?;
        }
    }
    Ok(Kit { bodies })
}

/// A stock body for each of the queue's packets that isn't a barrier.
#[tactic(auto, using(crate::proofs::KitLists::kit_made))]
fn stock_kit(alloc: Global, job: &Job, queue: usize) -> Result<Kit, AllocError>
    requires { queue < length job.now.queues }
    ensures fit { IfOk result
        (λ kit. KitFits job.now queue (map (seen (λ b. kernel b) (λ b. service b)) kit.bodies.items)) }
    ensures stock { IfOk result
        (λ kit. All IsEmptyStock (map (seen (λ b. kernel b) (λ b. service b)) kit.bodies.items)) }
{
    stock_bodies(alloc, packets_of(job, queue))
}

/// A kit of stock bodies for each queue. They hold no piece.
///
/// # Errors
///
/// `AllocError` where there is no memory.
pub fn stock_kits(alloc: Global, job: &Job) -> Result<Vec<Kit>, AllocError>
    ensures fit { IfOk result (λ kits. KitsFit job.now (bodies_of (λ b. kernel b) (λ b. service b) kits.items)) }
    ensures stock { IfOk result (λ kits. AreStockKits (bodies_of (λ b. kernel b) (λ b. service b) kits.items)) }
{
    let mut kits = Vec::new(alloc);
    for queue in 0..job.queues().len() {
        kits.push(stock_kit(alloc, job, queue)?)?;
    }
    Ok(kits)
}
