//! The bodies of a queue's packets.

ghost use Rattle.std.specs.Prelude.{◌≡◌, ◌<◌, ◌↔◌, IsTrue, IsOk, IfErr, length};
ghost use Rattle.hq_kernels.specs.Bodies.{Loaded, HasRun, GaveBack, pieces_of};
ghost use Rattle.hq_kernels.specs.Kits.{IsFor, IsStock, Serves, seen, value_of};
ghost use Rattle.hq_kernels.specs.Rooms.{IsSuited};

use crate::body::{KernelBody, ServiceBody};
use crate::fault::KernelFault;
use crate::stock::Stock;
use hq_footprint::Task;
use hq_ledger::Piece;
use hq_packet::Packet;
use hq_tables::Placed;

/// The body of a kernel or agent packet: a stock body, which serves either, or one that is made for kernel
/// dispatches, or for agent dispatches.
#[derive(Drop)]
pub enum Body {
    Stock(Stock),
    Kernel(Box<dyn KernelBody + Send>),
    Service(Box<dyn ServiceBody + Send>),
}

/// The bodies of one queue's kernel and agent packets, in the queue's order.
#[derive(Drop)]
pub struct Kit {
    pub bodies: Vec<Body>,
}

/// Whether both are the same task.
fn same_task(first: Task, second: Task) -> bool
    ensures { IsTrue result ↔ (first ≡ second) }
{
    first == second
}

impl Body {
    /// What it does to its pieces.
    pub fn task(&self) -> Task
        ensures { result ≡ (value_of (λ b. kernel b) (λ b. service b) self.now).task }
    {
        match self {
            Body::Stock(stock) => stock.task(),
            Body::Kernel(body) => body.task(),
            Body::Service(body) => body.task(),
        }
    }

    /// Whether it has run.
    pub fn has_run(&self) -> bool
        ensures { result ≡ (value_of (λ b. kernel b) (λ b. service b) self.now).ran }
    {
        match self {
            Body::Stock(stock) => stock.has_run(),
            Body::Kernel(body) => body.has_run(),
            Body::Service(body) => body.has_run(),
        }
    }

    /// Takes a piece behind those that it holds, or hands it back.
    pub(crate) fn load(&mut self, piece: Piece) -> Result<(), Piece>
        ensures loaded { Loaded (value_of (λ b. kernel b) (λ b. service b) self.old) piece result
            (value_of (λ b. kernel b) (λ b. service b) self.new) }
        ensures sort { (seen (λ b. kernel b) (λ b. service b) self.new).sort ≡ (seen (λ b. kernel b)
            (λ b. service b) self.old).sort }
        ensures stock { let old = seen (λ b. kernel b) (λ b. service b) self.old in
            IsStock old → (IsOk result ↔ (length old.value.held < pieces_of old.value.task)) }
    {
        match self {
            Body::Stock(stock) => stock.load(piece),
            Body::Kernel(body) => body.load(piece),
            Body::Service(body) => body.load(piece),
        }
    }

    /// Does its task with the pieces that it holds.
    pub(crate) fn run(&mut self) -> Result<(), KernelFault>
        ensures run { HasRun (value_of (λ b. kernel b) (λ b. service b) self.old) result
            (value_of (λ b. kernel b) (λ b. service b) self.new) }
        ensures sort { (seen (λ b. kernel b) (λ b. service b) self.new).sort ≡ (seen (λ b. kernel b)
            (λ b. service b) self.old).sort }
        ensures stock { let old = seen (λ b. kernel b) (λ b. service b) self.old in
            IsStock old → (IsOk result ↔ IsSuited old.value.task old.value.held) }
        ensures missing { IsStock (seen (λ b. kernel b) (λ b. service b) self.old)
            → IfErr result (λ fault. fault ≡ KernelFault.Missing) }
    {
        match self {
            Body::Stock(stock) => stock.run(),
            Body::Kernel(body) => body.run(),
            Body::Service(body) => body.run(),
        }
    }

    /// Hands out the first piece that it holds.
    pub(crate) fn give_back(&mut self) -> Option<Piece>
        ensures back { GaveBack (value_of (λ b. kernel b) (λ b. service b) self.old) result
            (value_of (λ b. kernel b) (λ b. service b) self.new) }
        ensures sort { (seen (λ b. kernel b) (λ b. service b) self.new).sort ≡ (seen (λ b. kernel b)
            (λ b. service b) self.old).sort }
    {
        match self {
            Body::Stock(stock) => stock.give_back(),
            Body::Kernel(body) => body.give_back(),
            Body::Service(body) => body.give_back(),
        }
    }

    /// Whether the body is for packets of this kind.
    fn serves(&self, packet: &Packet) -> bool
        ensures { IsTrue result ↔ Serves (seen (λ b. kernel b) (λ b. service b) self.now).sort packet.now }
    {
        match self {
            Body::Stock(_) => true,
            Body::Kernel(_) => matches!(packet, Packet::Kernel(_)),
            Body::Service(_) => matches!(packet, Packet::Agent(_)),
        }
    }

    /// Whether the body is for this packet: it serves its kind, does its task, and hasn't run.
    pub fn fits(&self, placed: &Placed) -> bool
        ensures { IsTrue result ↔ IsFor placed.now (seen (λ b. kernel b) (λ b. service b) self.now) }
    {
        self.serves(&placed.packet) && same_task(self.task(), placed.work.task) && !self.has_run()
    }
}
