//! What runs the packets that aren't barriers.

use crate::fault::KernelFault;
use hq_footprint::Task;
use hq_ledger::Piece;

/// What a kernel dispatch runs. It is handed the pieces of its packet one by one, those that it reads first, then
/// runs, and hands them back one by one. A body that is dropped drops the pieces that it holds, and so sends them
/// home.
pub trait KernelBody: Drop {
    ghost use Rattle.std.specs.Prelude.{◌≡◌};
    ghost use Rattle.hq_kernels.specs.Bodies.{BodyValue, Loaded, HasRun, GaveBack};

    ghost kernel: { Self → BodyValue };

    /// What it does to its pieces.
    fn task(&self) -> Task
        ensures { result ≡ (kernel self.now).task };

    /// Whether it has run.
    fn has_run(&self) -> bool
        ensures { result ≡ (kernel self.now).ran };

    /// Takes a piece behind those that it holds, or hands it back.
    fn load(&mut self, piece: Piece) -> Result<(), Piece>
        ensures { Loaded (kernel self.old) piece result (kernel self.new) };

    /// Does its task with the pieces that it holds.
    fn run(&mut self) -> Result<(), KernelFault>
        ensures { HasRun (kernel self.old) result (kernel self.new) };

    /// Hands out the first piece that it holds.
    fn give_back(&mut self) -> Option<Piece>
        ensures { GaveBack (kernel self.old) result (kernel self.new) };
}

/// What an agent dispatch runs: a service. It is called as a kernel's body is.
pub trait ServiceBody: Drop {
    ghost use Rattle.std.specs.Prelude.{◌≡◌};
    ghost use Rattle.hq_kernels.specs.Bodies.{BodyValue, Loaded, HasRun, GaveBack};

    ghost service: { Self → BodyValue };

    /// What it does to its pieces.
    fn task(&self) -> Task
        ensures { result ≡ (service self.now).task };

    /// Whether it has run.
    fn has_run(&self) -> bool
        ensures { result ≡ (service self.now).ran };

    /// Takes a piece behind those that it holds, or hands it back.
    fn load(&mut self, piece: Piece) -> Result<(), Piece>
        ensures { Loaded (service self.old) piece result (service self.new) };

    /// Does its task with the pieces that it holds.
    fn run(&mut self) -> Result<(), KernelFault>
        ensures { HasRun (service self.old) result (service self.new) };

    /// Hands out the first piece that it holds.
    fn give_back(&mut self) -> Option<Piece>
        ensures { GaveBack (service self.old) result (service self.new) };
}
