//! What each processor is given.

ghost use Rattle.std.specs.Prelude.{◌≡◌, All, IfOk, length, map};
ghost use Rattle.hq_board.specs.Calls.{IsSeatOf};

use crate::seated::Seated;
use hq_board::{Board, Seat};
use hq_kernels::Kit;
use std::alloc::{AllocError, Global};

/// What a queue's processor is given: the bodies of its packets, and its seat at the board, where queues aren't rings.
#[derive(Drop)]
pub struct Place<'b> {
    pub kit: Kit,
    pub seated: Option<Seated<'b>>,
}

/// A place for each kit, with the seat of the same queue.
pub fn seated<'b>(
    alloc: Global,
    board: &'b Board<'b>,
    mut kits: Vec<Kit>,
    mut seats: Vec<Seat>,
) -> Result<Vec<Place<'b>>, AllocError>
    requires count { length seats.items ≡ length kits.items }
    requires seats { All (IsSeatOf board.now) seats.items }
    ensures { IfOk result (λ places. map (λ place. place.kit) places.items ≡ kits.items) }
{
    let mut places = Vec::new(alloc);
    while !kits.is_empty() {
        let kit = kits.remove(0);
        let seated = Some(Seated::new(board, seats.remove(0)));
        places.push(Place { kit, seated })?;
    }
    Ok(places)
}

/// A place for each kit, without a seat.
pub fn unseated<'b>(alloc: Global, mut kits: Vec<Kit>) -> Result<Vec<Place<'b>>, AllocError>
    ensures { IfOk result (λ places. map (λ place. place.kit) places.items ≡ kits.items) }
{
    let mut places = Vec::new(alloc);
    while !kits.is_empty() {
        let kit = kits.remove(0);
        places.push(Place { kit, seated: None })?;
    }
    Ok(places)
}
