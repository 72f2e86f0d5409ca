ghost use Rattle.std.specs.Prelude.{◌≡◌, ◌<◌, IfOk};

use hq_calls::good;
use hq_footprint::{Footprint, Range};
use hq_ledger::{GrantFault, Grants, Home, Piece, Tray};
use std::alloc::{AllocError, Global};
use std::test::*;

/// What writes these bytes and reads none.
fn writer(at: u64, len: u64) -> Footprint {
    Footprint {
        reads: [Range::new(0, 0), Range::new(0, 0)],
        write: Range::new(at, len),
    }
}

/// What reads these bytes and writes none.
fn reader(at: u64, len: u64) -> Footprint {
    Footprint {
        reads: [Range::new(at, len), Range::new(0, 0)],
        write: Range::new(0, 0),
    }
}

/// A piece of four bytes that are all the same.
fn piece_of(
    alloc: Global,
    tray: &Tray,
    packet: u16,
    place: u8,
    byte: u8,
) -> Result<Piece, AllocError>
    requires packet { packet < tray.now.packets }
    requires place { place < 3 }
{
    Piece::new(
        alloc,
        tray,
        packet,
        place,
        4096,
        Vec::from_elem(alloc, byte, 4)?,
    )
}

/// A tray, asked for once more where memory is refused.
fn tray_of(alloc: Global, packets: u16) -> Result<Tray, AllocError>
    ensures { IfOk result (λ tray. tray.packets ≡ packets) }
{
    match Tray::open(alloc, packets) {
        Ok(tray) => Ok(tray),
        Err(_) => Tray::open(alloc, packets),
    }
}

/// Drops a piece of four bytes that are all the same, which is asked for once more where memory is refused.
fn drop_one(alloc: Global, tray: &Tray, packet: u16, place: u8, byte: u8) -> Result<(), AllocError>
    requires packet { packet < tray.now.packets }
    requires place { place < 3 }
{
    match piece_of(alloc, tray, packet, place, byte) {
        Ok(piece) => drop(piece),
        Err(_) => drop(piece_of(alloc, tray, packet, place, byte)?),
    }
    Ok(())
}

/// What came home, asked for once more where memory is refused.
fn gathered(alloc: Global, tray: &mut Tray) -> Result<Vec<Home>, AllocError> {
    match tray.gather(alloc) {
        Ok(homes) => Ok(homes),
        Err(_) => tray.gather(alloc),
    }
}

#[test]
fn a_packet_in_the_way_is_named(rt: HostRuntime) -> Result<(), Fail> {
    let mut grants = Grants::new(rt.alloc());
    assert_eq!(rt; grants.grant(0, &writer(4096, 4)), Ok(()));
    assert_eq!(rt;
        grants.grant(1, &reader(4099, 1)),
        Err(GrantFault::Overlap(0))
    );
    assert_eq!(rt;
        grants.grant(0, &reader(8192, 1)),
        Err(GrantFault::Overlap(0))
    );
    assert!(rt; grants.is_out(0) && !grants.is_out(1));
    assert_eq!(rt; grants.home(0), Ok(()));
    assert_eq!(rt; grants.grant(1, &reader(4099, 1)), Ok(()));
    assert_eq!(rt; grants.grant(2, &reader(4096, 4)), Ok(()));
    assert_eq!(rt; grants.home(0), Err(GrantFault::NotOut));
    assert!(rt; grants.is_out(1) && grants.is_out(2));
    Ok(())
}

#[test]
fn a_piece_gives_its_bytes(rt: HostRuntime) -> Result<(), Fail> {
    let Ok(tray) = Tray::open(rt.alloc(), 4) else {
        return Err("there is memory".into());
    };
    let mut piece = good(piece_of(rt.alloc(), &tray, 3, 2, 7))?;
    assert!(rt; piece.is_of(3, 2) && !piece.is_of(3, 1) && !piece.is_of(2, 2));
    assert_eq!(rt; piece.at(), 4096);
    assert!(rt; piece.bytes() == [7, 7, 7, 7].as_slice());
    piece.bytes_mut()[1] = 9;
    let bytes = piece.open();
    assert!(rt; bytes.as_slice() == [7, 9, 7, 7].as_slice());
    Ok(())
}

/// Whether what came home is of this packet and place, and is four bytes that are all this one.
fn is_home(home: &Home, (packet, place, byte): (u16, u8, u8)) -> bool {
    home.packet == packet
        && home.place == place
        && home.at == 4096
        && home.bytes.as_slice() == [byte; 4].as_slice()
}

/// Whether these pieces came home, in this order.
fn are_home(homes: &[Home], wanted: &[(u16, u8, u8)]) -> bool {
    if homes.len() != wanted.len() {
        return false;
    }
    for (home, piece) in homes.iter().zip(wanted) {
        if !is_home(home, *piece) {
            return false;
        }
    }
    true
}

/// Whether these pieces came home to a tray, in this order.
fn came_home(alloc: Global, tray: &mut Tray, wanted: &[(u16, u8, u8)]) -> Result<bool, Fail> {
    let homes = good(gathered(alloc, tray))?;
    Ok(are_home(&homes, wanted))
}

/// How many bytes a piece gives that is opened.
fn opened(alloc: Global, tray: &Tray, packet: u16, place: u8) -> Result<usize, Fail>
    requires packet { packet < tray.now.packets }
    requires place { place < 3 }
{
    let piece = good(piece_of(alloc, tray, packet, place, 6))?;
    Ok(piece.open().len())
}

#[test]
fn dropped_pieces_come_home(rt: HostRuntime) -> Result<(), Fail> {
    let Ok(mut tray) = Tray::open(rt.alloc(), 4) else {
        return Err("there is memory".into());
    };
    let late = good(piece_of(rt.alloc(), &tray, 1, 2, 8))?;
    good(drop_one(rt.alloc(), &tray, 2, 1, 7))?;
    good(drop_one(rt.alloc(), &tray, 2, 0, 5))?;
    assert_eq!(rt; opened(rt.alloc(), &tray, 3, 0)?, 4);
    assert!(rt; came_home(rt.alloc(), &mut tray, &[(2, 0, 5), (2, 1, 7)])?);
    drop(late);
    assert!(rt; came_home(rt.alloc(), &mut tray, &[(1, 2, 8), (2, 0, 5), (2, 1, 7)])?);
    Ok(())
}

/// Whether a grant of four bytes, asked for once more where memory is refused, is out.
fn is_granted(alloc: Global) -> bool {
    let mut grants = Grants::new(alloc);
    let granted = grants.grant(0, &writer(4096, 4));
    if granted.is_ok() {
        return grants.is_out(0);
    }
    granted == Err(GrantFault::Memory)
        && !grants.is_out(0)
        && grants.grant(0, &writer(4096, 4)).is_ok()
        && grants.is_out(0)
}

// A call that is refused memory changes nothing, so that the next answers as if it hadn't been. Here no allocation is
// refused; with `rt try --test --fail-alloc N` the Nth is.
#[test]
fn what_is_refused_is_asked_for_once_more(rt: HostRuntime) -> Result<(), Fail> {
    assert!(rt; is_granted(rt.alloc()));
    let Ok(mut tray) = tray_of(rt.alloc(), 4) else {
        return Err("there is memory".into());
    };
    good(drop_one(rt.alloc(), &tray, 2, 1, 7))?;
    good(drop_one(rt.alloc(), &tray, 1, 2, 8))?;
    good(drop_one(rt.alloc(), &tray, 2, 0, 5))?;
    assert!(rt; came_home(rt.alloc(), &mut tray, &[(1, 2, 8), (2, 0, 5), (2, 1, 7)])?);
    Ok(())
}
