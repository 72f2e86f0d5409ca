//! The pieces that packets are handed, and those that they bring back.

ghost use Rattle.std.specs.Prelude.{◌≡◌, ◌<◌, ◌≤◌, ◌+◌, ◌++◌, ◌∷◌, [], IfOk, OnOk, All};
ghost use Rattle.std.specs.Prelude.{length, map, replicate};
ghost use Rattle.hq_footprint.specs.Bytes.{bytes_of, read_entries};
ghost use Rattle.hq_hall.specs.Handing.{piece, pieces_of, read_pieces, write_pieces};
ghost use Rattle.hq_tables.specs.Ranges.{RangesSuit};
ghost use Rattle.hq_machine.specs.View.{IsStateOf, state_of};
ghost use Rattle.hq_model.specs.Job.{Job as JobOfNumbers};
ghost use Rattle.hq_model.specs.Machine.{lane_sees};

use hq_footprint::Range;
use hq_ledger::{Piece, Tray};
use hq_machine::State;
use hq_tables::Placed;
use std::alloc::{AllocError, AllocFailed, Global};

/// Takes a piece in at the end. Where there is no memory it is opened, so that it doesn't come home as one that was
/// dropped.
fn keep(pieces: &mut Vec<Piece>, piece: Piece) -> Result<(), AllocError>
    ensures { OnOk result (pieces.new.items ≡ pieces.old.items ++ piece ∷ []) }
{
    match pieces.push(piece) {
        Ok(()) => Ok(()),
        Err(AllocFailed { value }) => {
            let _bytes = value.open();
            Err(AllocError)
        }
    }
}

/// Opens the pieces, so that none comes home as one that was dropped.
pub fn open_all(pieces: Vec<Piece>) {
    for piece in pieces {
        let _bytes = piece.open();
    }
}

/// The two ranges.
pub fn both(reads: [Range; 2]) -> (Range, Range)
    ensures { reads ≡ result.0 ∷ result.1 ∷ [] }
{
    let [first, second] = reads;
    (first, second)
}

/// What hands out pieces: the state whose bytes are seen, and the tray that pieces come home to.
#[derive(Clone, Copy)]
pub struct Giver<'a> {
    pub alloc: Global,
    pub state: &'a State,
    pub tray: &'a Tray,
}

impl<'a> Giver<'a> {
    /// A piece that a packet reads: of the range `at`, with the bytes of the numbers `from` as they are seen
    /// through its lane.
    fn read_piece(self, packet: u16, place: u8, at: Range, from: Range) -> Result<Piece, AllocError>
        requires place { place < 3 }
        requires tray { packet < self.tray.now.packets }
        requires lane { packet < length self.state.now.copies.lanes }
        requires memory { 0 < from.len → from.at + from.len ≤ length self.state.now.copies.memory }
        ensures { (job : JobOfNumbers) → IsStateOf job self.entry.state.now
            → IfOk result
            (λ made. made ≡ piece packet place at
            (map (lane_sees job (state_of job self.entry.state.now) packet) (bytes_of from))) }
    {
        let bytes = self.state.seen_range(packet as usize, from)?;
        Piece::new(self.alloc, self.tray, packet, place, at.at, bytes)
    }

    /// The piece that a packet writes, in this place, with bytes of 0.
    fn write_piece(self, packet: u16, placed: &Placed, place: usize) -> Result<Piece, AllocError>
        requires place { place < 3 }
        requires tray { packet < self.tray.now.packets }
        ensures { IfOk result
            (λ made. made ≡ piece packet place placed.now.work.foot.write
            (replicate placed.now.work.foot.write.len 0)) }
    {
        let write = placed.work.foot.write;
        let bytes = Vec::from_elem(self.alloc, 0, write.len as usize)?;
        Piece::new(self.alloc, self.tray, packet, place as u8, write.at, bytes)
    }

    /// Takes in the pieces that a packet reads, with the bytes that are seen through its lane.

    fn keep_reads(
        self,
        packet: u16,
        placed: &Placed,
        pieces: &mut Vec<Piece>,
    ) -> Result<(), AllocError>
        requires tray { packet < self.tray.now.packets }
        requires lane { packet < length self.state.now.copies.lanes }
        requires memory { All (λ b. b < length self.state.now.copies.memory) (read_entries placed.now.bytes) }
        requires ranges { RangesSuit placed.now }
        requires none { pieces.old.items ≡ [] }
        ensures { (job : JobOfNumbers) → IsStateOf job self.entry.state.now
            → OnOk result
            (pieces.new.items ≡ read_pieces packet placed.now.work
            (map (lane_sees job (state_of job self.entry.state.now) packet) (read_entries placed.now.bytes))) }
    {
        let (first, second) = both(placed.work.foot.reads);
        let (first_from, second_from) = both(placed.bytes.reads);
        let count = placed.work.task.reads();
        if count == 0 {
            return Ok(());
        }
        keep(pieces, self.read_piece(packet, 0, first, first_from)?)?;
        if count == 1 {
            return Ok(());
        }
        keep(pieces, self.read_piece(packet, 1, second, second_from)?)
    }

    /// Takes in the piece that a packet writes, if it writes one.
    fn keep_write(
        self,
        packet: u16,
        placed: &Placed,
        pieces: &mut Vec<Piece>,
    ) -> Result<(), AllocError>
        requires tray { packet < self.tray.now.packets }
        ensures { OnOk result
            (pieces.new.items ≡ pieces.old.items ++ write_pieces packet placed.now.work
            (replicate placed.now.work.foot.write.len 0)) }
    {
        let work = &placed.work;
        if work.task.writes() == 0 {
            return Ok(());
        }
        keep(pieces, self.write_piece(packet, placed, work.task.reads())?)
    }

    /// All pieces of a packet: those that it reads with the bytes that are seen through its lane, and the one that
    /// it writes with bytes of 0.
    pub fn hand_out(self, packet: u16, placed: &Placed) -> Result<Vec<Piece>, AllocError>
        requires tray { packet < self.tray.now.packets }
        requires lane { packet < length self.state.now.copies.lanes }
        requires memory { All (λ b. b < length self.state.now.copies.memory) (read_entries placed.now.bytes) }
        requires ranges { RangesSuit placed.now }
        ensures { (job : JobOfNumbers) → IsStateOf job self.entry.state.now
            → IfOk result
            (λ pieces. pieces.items ≡ pieces_of packet placed.now.work
            (map (lane_sees job (state_of job self.entry.state.now) packet) (read_entries placed.now.bytes))
            (replicate placed.now.work.foot.write.len 0)) }
    {
        let mut pieces = Vec::new(self.alloc);
        let kept = match self.keep_reads(packet, placed, &mut pieces) {
            Ok(()) => self.keep_write(packet, placed, &mut pieces),
            Err(fault) => Err(fault),
        };
        match kept {
            Ok(()) => Ok(pieces),
            Err(fault) => {
                open_all(pieces);
                Err(fault)
            }
        }
    }
}
