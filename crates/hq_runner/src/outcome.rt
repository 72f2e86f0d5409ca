//! How a run ends.

ghost use Rattle.std.specs.Prelude.{◌≡◌, ◌==◌, count_by};
ghost use Rattle.hq_runner.specs.Outcomes.{IsCounted, OnReceipts};

use hq_hall::Hall;
use hq_job::Job;
use hq_kernels::{Kit, piece_count};
use hq_ledger::Home;
use hq_machine::Journal;

/// What a run leaves.
#[derive(Drop)]
pub struct Outcome {
    /// The bytes of memory, by number.
    pub memory: Vec<u8>,
    /// The events of the run, in order.
    pub journal: Journal,
    /// The kits, by queue.
    pub kits: Vec<Kit>,
}

/// Why a run has no outcome. Of several reasons the first of these is given.
#[derive(Drop)]
pub enum RunFault {
    /// There is no memory, or a thread can't be made.
    Memory,
    /// The body of this packet refused a piece, faulted, or gave other pieces back; of several packets it is the
    /// least. `found` is all that came home by being dropped, `home` how many of these pieces are the packet's, and
    /// `lost` how many more it had.
    Kernel {
        packet: u16,
        home: u8,
        lost: u8,
        found: Vec<Home>,
    },
    /// The board and the hall, which are asked for each event of a queue, don't tell the same run.
    Split,
    /// The list of this queue's processor isn't what the journal has of the queue. The number of queues stands for
    /// the host.
    Receipts(u16),
    /// The run stopped before all was done.
    Unfinished,
}

/// How many of these are the packet's.
fn count_of(found: &[Home], packet: u16) -> usize
    ensures { result ≡ count_by (λ one. one.packet == packet) found.now }
{
    found.iter().filter(|one| one.packet == packet).count()
}

/// The fault of a packet's body, with all that came home.
pub fn kernel_fault(job: &Job, hall: &mut Hall, packet: u16) -> RunFault
    ensures counted { IsCounted job.now.packets result }
    ensures receipts { OnReceipts result (λ _. ⊥) }
{
    let Ok(found) = hall.gather() else {
        return RunFault::Memory;
    };
    let Some(placed) = job.packets().get(packet as usize) else {
        return RunFault::Unfinished;
    };
    let pieces = piece_count(&placed.work.task);
    let home = count_of(&found, packet);
    if home > pieces {
        return RunFault::Unfinished;
    }
    RunFault::Kernel {
        packet,
        home: home as u8,
        lost: (pieces - home) as u8,
        found,
    }
}
