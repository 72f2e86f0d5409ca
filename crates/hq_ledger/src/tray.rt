//! Where dropped pieces leave their bytes.

ghost use Rattle.std.specs.Prelude.{◌≡◌, ◌*◌, ◌^◌, ◌<◌, Some, None, AllPairs, IfOk, IfSome, length, map, replicate};
ghost use Rattle.std.specs.Prelude.{slice_index_or, take};
ghost use Rattle.std.specs.Option.{option_map};
ghost use Rattle.once_cell.specs.Once.{cell_name};
ghost use Rattle.hq_ledger.specs.Cells.{left_of};
ghost use Rattle.hq_ledger.specs.Trays.{Learned, homed, homes_from, IsAhead, part_of};

use once_cell::race::{Note, OnceBox};
use std::alloc::{AllocError, Global};
use std::marker::Model;
use std::sync::Arc;

/// What a piece holds, and leaves in its cell.
#[derive(Drop)]
pub(crate) struct Held {
    pub at: u64,
    pub bytes: Vec<u8>,
}

impl Held {
    pub fn into_bytes(self) -> Vec<u8>
        ensures { result ≡ self.bytes }
    {
        let Held { at: _, bytes } = self;
        bytes
    }
}

/// The bytes of a piece that was dropped: of which packet, in which place, from which address on.
#[derive(Debug, Drop)]
pub struct Home {
    pub packet: u16,
    pub place: u8,
    pub at: u64,
    pub bytes: Vec<u8>,
}

/// Three cells for each packet, one for each place of a piece: dropped pieces leave their bytes there.
///
/// A contract sees what is known of each cell.
#[derive(Drop)]
pub struct Tray {
    cells: Arc<Vec<OnceBox<Held>>>,
    // What each cell is known to hold.
    notes: Vec<Note<Held>>,
    packets: u16,
}

impl Model for Tray {
    ghost use Rattle.std.specs.Arc.{arc_value};
    ghost use Rattle.hq_ledger.specs.Trays.{TrayValue};
    ghost use Rattle.hq_ledger.specs.Cells.{known_of, AreNotes};

    ghost Value = { TrayValue };

    ghost view = { λ t. record { packets = t.packets; known = known_of t.notes.items } };

    ghost invariant = { λ t. AreNotes t.packets (arc_value t.cells).items t.notes.items };
}

// What a cell holds, as its packet's, if it is the one of this number.
fn home_of(
    alloc: Global,
    number: usize,
    cell: &OnceBox<Held>,
    note: &mut Note<Held>,
) -> Result<Option<Home>, AllocError>
    requires number { number < 3 * 2 ^ 16 }
    requires cell { note.old.cell ≡ cell_name cell.now }
    ensures cell { note.new.cell ≡ note.old.cell }
    ensures kept { IfSome note.old.known (λ held. note.new.known ≡ Some held) }
    ensures found { IfOk result
        (λ home. option_map part_of home ≡ option_map (homed number) (option_map left_of note.new.known)) }
{
    let Some(held) = cell.get_as(note) else {
        return Ok(None);
    };
    Ok(Some(Home {
        packet: (number / 3) as u16,
        place: (number % 3) as u8,
        at: held.at,
        bytes: held.bytes.clone()?,
    }))
}

impl Tray {
    /// A tray for pieces of so many packets, with nothing in it.
    ///
    /// # Errors
    ///
    /// `AllocError` where there is no memory.
    pub fn open(alloc: Global, packets: u16) -> Result<Tray, AllocError>
        ensures { IfOk result (λ t. (t.packets ≡ packets) × (t.known ≡ replicate (3 * packets) None)) }
    {
        let mut cells = Vec::new(alloc);
        let mut notes = Vec::new(alloc);
        for _ in 0..3 * usize::from(packets) {
            let cell = OnceBox::new(alloc);
            notes.push(cell.note())?;
            cells.push(cell)?;
        }
        Ok(Tray {
            cells: Arc::new(alloc, cells)?,
            notes,
            packets,
        })
    }

    /// One hold more on the cells.
    pub(crate) fn share(&self) -> Result<Arc<Vec<OnceBox<Held>>>, AllocError> {
        Arc::try_clone(&self.cells)
    }

    /// How many cells there are.
    fn cells(&self) -> usize
        ensures cells { result ≡ length self.now.known }
        ensures count { result ≡ 3 * self.now.packets }
    {
        self.notes.len()
    }

    // What is in the cell of this number.
    fn look(&mut self, alloc: Global, number: usize) -> Result<Option<Home>, AllocError>
        requires { number < length self.old.known }
        ensures packets { self.new.packets ≡ self.old.packets }
        ensures learned { Learned self.old.known self.new.known }
        ensures before { take number self.new.known ≡ take number self.old.known }
        ensures found { IfOk result
            (λ home. option_map part_of home ≡ option_map (homed number) (slice_index_or self.new.known number None)) }
    {
        home_of(alloc, number, &self.cells[number], &mut self.notes[number])
    }

    /// Copies out what has come home, by packet, then place. What has come home stays in the tray, so that a later call
    /// answers the same, and more where more has come.
    ///
    /// # Errors
    ///
    /// `AllocError` where there is no memory.
    pub fn gather(&mut self, alloc: Global) -> Result<Vec<Home>, AllocError>
        ensures packets { self.new.packets ≡ self.old.packets }
        ensures learned { Learned self.old.known self.new.known }
        ensures homes { IfOk result (λ homes. map part_of homes.items ≡ homes_from 0 self.new.known) }
        ensures order { IfOk result (λ homes. AllPairs IsAhead (map part_of homes.items)) }
    {
        let mut homes = Vec::new(alloc);
        for number in 0..self.cells() {
            if let Some(home) = self.look(alloc, number)? {
                homes.push(home)?;
            }
        }
        Ok(homes)
    }
}
