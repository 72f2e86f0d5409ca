//! The bodies of the nine tasks.

ghost use Rattle.std.specs.Prelude.{◌≡◌, ◌<◌, ◌≤◌, ◌↔◌, false, IsTrue, IsOk, IfErr, length, [], ◌++◌};
ghost use Rattle.hq_footprint.specs.Tasks.{SuitsTwo, result_of};
ghost use Rattle.hq_ledger.specs.Pieces.{with_bytes};
ghost use Rattle.hq_kernels.specs.Bodies.{Loaded, HasRun, GaveBack, Performs, pieces_of};
ghost use Rattle.hq_kernels.specs.Rooms.{pieces_in, LengthsFit, IsSuited};

use crate::body::{KernelBody, ServiceBody};
use crate::fault::KernelFault;
use hq_footprint::{Task, evaluate_ranges};
use hq_ledger::Piece;
use std::marker::Model;
use std::mem;

/// The pieces of a stock body, in the order in which they came.
#[derive(Drop)]
pub(crate) enum Room {
    Empty,
    One(Piece),
    Two(Piece, Piece),
    Three(Piece, Piece, Piece),
}

/// The body of one of the nine tasks. It has room for as many pieces as its task has.
#[derive(Drop)]
pub struct Stock {
    task: Task,
    room: Room,
    has_run: bool,
}

impl Model for Stock {
    ghost use Rattle.hq_kernels.specs.Bodies.{BodyValue};

    ghost Value = { BodyValue };

    ghost use Rattle.hq_kernels.specs.Rooms.{pieces_in};

    ghost view = { λ s. record { task = s.task; held = pieces_in s.room; ran = s.has_run } };
}

/// How many pieces a task has: one for each range that it reads, and one for what it writes.
pub fn piece_count(task: &Task) -> usize
    ensures exact { result ≡ pieces_of task.now }
    ensures few { result ≤ 3 }
{
    task.reads() + task.writes()
}

/// Whether a task makes so many bytes of so many.
fn suits(task: &Task, first: usize, second: usize, write: usize) -> bool
    ensures { IsTrue result ↔ SuitsTwo task.now first second write }
{
    match task {
        Task::Fill(_) => first == 0 && second == 0,
        Task::Copy => first == write && second == 0,
        Task::Rev => first == write && second == 0,
        Task::Xor => first == write && second == write,
        Task::Add => first == write && second == write,
        Task::Sum => write == 8 && second == 0,
        Task::Store64(_) => first == 0 && write == 8 && second == 0,
        Task::Count(_) => write == 8 && second == 0,
        Task::Nop => first == 0 && write == 0 && second == 0,
    }
}

/// Writes what the task makes of the bytes over those of the piece, if their numbers suit.
fn write_result(task: &Task, first: &[u8], second: &[u8], write: &mut Piece) -> bool
    ensures suits { IsTrue result ↔ SuitsTwo task.now (length first.now) (length second.now) (length write.old.bytes) }
    ensures written { IsTrue result
        → write.new ≡ with_bytes write.old (result_of task.now (length write.old.bytes) (first.now ++ second.now)) }
    ensures refused { result ≡ false → write.new ≡ write.old }
{
    if !suits(task, first.len(), second.len(), write.bytes().len()) {
        return false;
    }
    evaluate_ranges(task, first, second, write.bytes_mut());
    true
}

/// Does the task with the pieces of the room, if they suit it.
fn perform_in(task: &Task, room: &mut Room) -> bool
    requires { length (pieces_in room.old) ≡ pieces_of task.now }
    ensures suits { IsTrue result ↔ LengthsFit task.now (pieces_in room.old) }
    ensures performed { IsTrue result → Performs task.now (pieces_in room.old) (pieces_in room.new) }
    ensures refused { result ≡ false → room.new ≡ room.old }
{
    match room {
        Room::Empty => true,
        Room::One(write) => write_result(task, &[], &[], write),
        Room::Two(first, write) => write_result(task, first.bytes(), &[], write),
        Room::Three(first, second, write) => {
            write_result(task, first.bytes(), second.bytes(), write)
        }
    }
}

impl Stock {
    /// A body that holds no piece and hasn't run. It takes no memory.
    pub fn new(task: Task) -> Stock
        ensures { result ≡ record { task = task; held = []; ran = false } }
    {
        Stock {
            task,
            room: Room::Empty,
            has_run: false,
        }
    }

    /// What it does to its pieces.
    pub fn task(&self) -> Task
        ensures { result ≡ self.now.task }
    {
        self.task
    }

    /// Whether it has run.
    pub fn has_run(&self) -> bool
        ensures { result ≡ self.now.ran }
    {
        self.has_run
    }

    /// How many pieces it holds.
    fn count(&self) -> usize
        ensures { result ≡ length self.now.held }
    {
        match &self.room {
            Room::Empty => 0,
            Room::One(_) => 1,
            Room::Two(_, _) => 2,
            Room::Three(_, _, _) => 3,
        }
    }

    /// Takes a piece behind those that it holds, unless it holds all pieces of its task.
    ///
    /// # Errors
    ///
    /// The piece itself, where it holds all pieces of its task.
    pub fn load(&mut self, piece: Piece) -> Result<(), Piece>
        ensures loaded { Loaded self.old piece result self.new }
        ensures ok { IsOk result ↔ (length self.old.held < pieces_of self.old.task) }
    {
        if self.count() >= piece_count(&self.task) {
            return Err(piece);
        }
        self.room = match mem::replace(&mut self.room, Room::Empty) {
            Room::Empty => Room::One(piece),
            Room::One(first) => Room::Two(first, piece),
            Room::Two(first, second) => Room::Three(first, second, piece),
            Room::Three(first, second, third) => {
                self.room = Room::Three(first, second, third);
                return Err(piece);
            }
        };
        Ok(())
    }

    /// Does its task with the pieces that it holds. Where these are fewer, or their lengths don't fit, nothing changes.
    ///
    /// # Errors
    ///
    /// `Missing` where the pieces are too few or their lengths don't fit.
    pub fn run(&mut self) -> Result<(), KernelFault>
        ensures run { HasRun self.old result self.new }
        ensures ok { IsOk result ↔ IsSuited self.old.task self.old.held }
        ensures err { IfErr result (λ fault. (fault ≡ KernelFault.Missing) × (self.new ≡ self.old)) }
    {
        if self.count() != piece_count(&self.task) || !perform_in(&self.task, &mut self.room) {
            return Err(KernelFault::Missing);
        }
        self.has_run = true;
        Ok(())
    }

    /// Hands out the first piece that it holds.
    pub fn give_back(&mut self) -> Option<Piece>
        ensures { GaveBack self.old result self.new }
    {
        match mem::replace(&mut self.room, Room::Empty) {
            Room::Empty => None,
            Room::One(first) => Some(first),
            Room::Two(first, second) => {
                self.room = Room::One(second);
                Some(first)
            }
            Room::Three(first, second, third) => {
                self.room = Room::Two(second, third);
                Some(first)
            }
        }
    }
}

impl KernelBody for Stock {
    ghost kernel = { λ stock. stock };

    fn task(&self) -> Task {
        Stock::task(self)
    }

    fn has_run(&self) -> bool {
        Stock::has_run(self)
    }

    fn load(&mut self, piece: Piece) -> Result<(), Piece> {
        Stock::load(self, piece)
    }

    fn run(&mut self) -> Result<(), KernelFault> {
        Stock::run(self)
    }

    fn give_back(&mut self) -> Option<Piece> {
        Stock::give_back(self)
    }
}

impl ServiceBody for Stock {
    ghost service = { λ stock. stock };

    fn task(&self) -> Task {
        Stock::task(self)
    }

    fn has_run(&self) -> bool {
        Stock::has_run(self)
    }

    fn load(&mut self, piece: Piece) -> Result<(), Piece> {
        Stock::load(self, piece)
    }

    fn run(&mut self) -> Result<(), KernelFault> {
        Stock::run(self)
    }

    fn give_back(&mut self) -> Option<Piece> {
        Stock::give_back(self)
    }
}
