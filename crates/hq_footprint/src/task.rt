//! Tasks.

ghost use Rattle.std.specs.Prelude.{◌≡◌};
ghost use Rattle.hq_footprint.specs.Counts.{reads_of, writes_of};

/// What is written of the bytes that were read.
#[derive(Clone, Copy, Debug, PartialEq, Eq)]
pub enum Task {
    /// The byte, everywhere.
    Fill(u8),
    /// The bytes as they are.
    Copy,
    /// The bytes from the last to the first.
    Rev,
    /// The exclusive or of the first half and the second.
    Xor,
    /// The sum mod 256 of the first half and the second.
    Add,
    /// The sum of the bytes mod 2^64, 8 bytes, the least first.
    Sum,
    /// The word, 8 bytes, the least first.
    Store64(u64),
    /// How many bytes equal this one, 8 bytes, the least first.
    Count(u8),
    /// Nothing.
    Nop,
}

impl Task {
    /// How many ranges it reads.
    pub fn reads(&self) -> usize
        ensures { result ≡ reads_of self.now }
    {
        match self {
            Task::Fill(_) | Task::Store64(_) | Task::Nop => 0,
            Task::Copy | Task::Rev | Task::Sum | Task::Count(_) => 1,
            Task::Xor | Task::Add => 2,
        }
    }

    /// How many ranges it writes: one, but nop none.
    pub fn writes(&self) -> usize
        ensures { result ≡ writes_of self.now }
    {
        match self {
            Task::Nop => 0,
            _ => 1,
        }
    }
}

/// The kernels that a job can name.
#[derive(Clone, Copy, Debug, PartialEq, Eq)]
pub enum Code {
    Fill,
    Copy,
    Rev,
    Xor,
    Add,
    Sum,
}
