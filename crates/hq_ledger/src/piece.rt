//! The bytes of one range, in one hand.

ghost use Rattle.std.specs.Prelude.{◌≡◌, ◌<◌, ◌==◌, ◌&&◌, IfOk};
ghost use Rattle.hq_ledger.specs.Pieces.{Part};

use crate::tray::{Held, Tray};
use once_cell::race::OnceBox;
use std::alloc::{AllocError, Global};
use std::marker::Model;
use std::sync::Arc;

/// The bytes of one range of a packet, which one hand holds at a time. A piece that is dropped leaves its bytes in its
/// tray's cell, without taking memory.
///
/// A contract sees it as a part of its packet.
pub struct Piece {
    packet: u16,
    place: u8,
    held: Box<Held>,
    cells: Arc<Vec<OnceBox<Held>>>,
}

impl Model for Piece {
    ghost Value = { Part };

    ghost view = { λ p. record
        { packet = p.packet; place = p.place; at = p.held.value.at; bytes = p.held.value.bytes.items } };
}

impl Drop for Piece {
    fn drop(self) {
        let Piece {
            packet,
            place,
            held,
            cells,
        } = self;
        let number = 3 * usize::from(packet) + usize::from(place);
        if let Some(cell) = cells.get(number) {
            let _ = cell.set(held);
        }
    }
}

impl Piece {
    ghost use Rattle.std.specs.Borrow.{sem};
    ghost use Rattle.hq_ledger.specs.Lending.{LendsBytes};

    /// A piece that holds a range's bytes, which begin at address `at`. `place` is its place among its packet's
    /// pieces, from 0.
    ///
    /// # Errors
    ///
    /// `AllocError` where there is no memory.
    pub fn new(
        alloc: Global,
        tray: &Tray,
        packet: u16,
        place: u8,
        at: u64,
        bytes: Vec<u8>,
    ) -> Result<Piece, AllocError>
        requires packet { packet < tray.now.packets }
        requires place { place < 3 }
        ensures { IfOk result
            (λ piece. piece ≡ record { packet = packet; place = place; at = at; bytes = bytes.items }) }
    {
        Ok(Piece {
            packet,
            place,
            held: Box::new(alloc, Held { at, bytes })?,
            cells: tray.share()?,
        })
    }

    /// The address of the first byte.
    pub fn at(&self) -> u64
        ensures { result ≡ self.now.at }
    {
        self.held.at
    }

    /// Whether it is the piece of this packet in this place.
    pub fn is_of(&self, packet: u16, place: u8) -> bool
        ensures { result ≡ (self.now.packet == packet) && (self.now.place == place) }
    {
        self.packet == packet && self.place == place
    }

    pub fn bytes(&self) -> &[u8]
        ensures { result.now ≡ self.now.bytes }
    {
        &self.held.bytes
    }

    /// The bytes, to be written.
    pub fn bytes_mut(&mut self) -> &mut [u8]
        ensures* writes_back { sem 𝓛 (LendsBytes self.entry result) }
        ensures value { result.now ≡ self.old.bytes }
    {
        self.held.bytes.as_mut_slice()
    }

    /// Takes the bytes out. They don't come home then.
    pub fn open(self) -> Vec<u8>
        ensures { result.items ≡ self.bytes }
    {
        let Piece {
            packet: _,
            place: _,
            held,
            cells: _,
        } = self;
        Box::into_inner(held).into_bytes()
    }
}
