//! Bodies that don't do what stock bodies do.

use hq_footprint::Task;
use hq_kernels::{KernelBody, KernelFault, Stock};
use hq_ledger::Piece;

/// Holds its pieces as a stock body does, but faults where it should run.
#[derive(Drop)]
pub struct Faulting(Stock);

impl Faulting {
    /// Holds no piece yet.
    pub fn new(task: Task) -> Faulting {
        Faulting(Stock::new(task))
    }
}

impl KernelBody for Faulting {
    ghost kernel = { λ body. body.0 };

    fn task(&self) -> Task {
        self.0.task()
    }

    fn has_run(&self) -> bool {
        self.0.has_run()
    }

    fn load(&mut self, piece: Piece) -> Result<(), Piece> {
        self.0.load(piece)
    }

    fn run(&mut self) -> Result<(), KernelFault> {
        Err(KernelFault::Refused)
    }

    fn give_back(&mut self) -> Option<Piece> {
        self.0.give_back()
    }
}

/// Refuses each piece.
#[derive(Drop)]
pub struct Refusing(Stock);

impl Refusing {
    /// Holds no piece, and never will.
    pub fn new(task: Task) -> Refusing {
        Refusing(Stock::new(task))
    }
}

impl KernelBody for Refusing {
    ghost kernel = { λ body. body.0 };

    fn task(&self) -> Task {
        self.0.task()
    }

    fn has_run(&self) -> bool {
        self.0.has_run()
    }

    fn load(&mut self, piece: Piece) -> Result<(), Piece> {
        Err(piece)
    }

    fn run(&mut self) -> Result<(), KernelFault> {
        self.0.run()
    }

    fn give_back(&mut self) -> Option<Piece> {
        self.0.give_back()
    }
}

/// Faults where it should run. When it is dropped it opens the first piece that it holds, so that this one doesn't
/// come home.
pub struct Opening(Stock);

impl Opening {
    /// Holds no piece yet.
    pub fn new(task: Task) -> Opening {
        Opening(Stock::new(task))
    }
}

impl Drop for Opening {
    fn drop(self) {
        let Opening(mut stock) = self;
        if let Some(piece) = stock.give_back() {
            let _bytes = piece.open();
        }
    }
}

impl KernelBody for Opening {
    ghost kernel = { λ body. body.0 };

    fn task(&self) -> Task {
        self.0.task()
    }

    fn has_run(&self) -> bool {
        self.0.has_run()
    }

    fn load(&mut self, piece: Piece) -> Result<(), Piece> {
        self.0.load(piece)
    }

    fn run(&mut self) -> Result<(), KernelFault> {
        Err(KernelFault::Refused)
    }

    fn give_back(&mut self) -> Option<Piece> {
        self.0.give_back()
    }
}
