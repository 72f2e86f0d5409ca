ghost use Rattle.std.specs.Prelude.{◌<◌};

use hq_calls::good;
use hq_footprint::Task;
use hq_kernels::{Body, KernelBody, KernelFault, Stock};
use hq_ledger::{Piece, Tray};
use std::alloc::Global;
use std::test::*;

/// A piece of packet 0.
fn piece_of(alloc: Global, tray: &Tray, place: u8, bytes: &[u8]) -> Result<Piece, Fail>
    requires packet { 0 < tray.now.packets }
    requires place { place < 3 }
{
    let bytes = good(bytes.to_vec(alloc))?;
    good(Piece::new(alloc, tray, 0, place, 4096, bytes))
}

/// Whether the body, which hasn't run, runs and says so, and these are then the bytes of the last piece that it
/// gives back.
fn writes(stock: Stock, wanted: &[u8]) -> bool {
    let mut stock = stock;
    if stock.has_run() || stock.run().is_err() || !stock.has_run() {
        return false;
    }
    let mut last = None;
    for _ in 0..3 {
        if let Some(piece) = stock.give_back() {
            last = Some(piece);
        }
    }
    match last {
        Some(piece) => piece.bytes() == wanted,
        None => false,
    }
}

/// A body that holds these pieces of packet 0, in order.
fn loaded(alloc: Global, tray: &Tray, task: Task, pieces: &[&[u8]]) -> Result<Stock, Fail>
    requires { 0 < tray.now.packets }
{
    let mut stock = Stock::new(task);
    for place in 0..3u8 {
        if let Some(bytes) = pieces.get(place as usize) {
            let piece = piece_of(alloc, tray, place, bytes)?;
            if stock.load(piece).is_err() {
                return Err("a body takes its pieces".into());
            }
        }
    }
    Ok(stock)
}

/// Whether a body that holds no piece runs and gives none back.
fn is_idle(stock: Stock) -> bool {
    let mut stock = stock;
    !stock.has_run() && stock.run().is_ok() && stock.has_run() && stock.give_back().is_none()
}

#[test]
fn bodies_that_read_nothing(rt: HostRuntime) -> Result<(), Fail> {
    let Ok(tray) = Tray::open(rt.alloc(), 1) else {
        return Err("there is memory".into());
    };
    let fill = loaded(rt.alloc(), &tray, Task::Fill(7), &[&[9; 3]])?;
    assert!(rt; writes(fill, &[7, 7, 7]));
    let store = loaded(rt.alloc(), &tray, Task::Store64(77), &[&[9; 8]])?;
    assert!(rt; writes(store, &[77, 0, 0, 0, 0, 0, 0, 0]));
    assert!(rt; is_idle(Stock::new(Task::Nop)));
    Ok(())
}

#[test]
fn bodies_that_read_one_range(rt: HostRuntime) -> Result<(), Fail> {
    let Ok(tray) = Tray::open(rt.alloc(), 1) else {
        return Err("there is memory".into());
    };
    for (task, read, write, wrote) in [
        (
            Task::Copy,
            [1, 2, 3].as_slice(),
            [9; 3].as_slice(),
            [1, 2, 3].as_slice(),
        ),
        (Task::Rev, &[1, 2, 3], &[9; 3], &[3, 2, 1]),
        (
            Task::Sum,
            &[1, 2, 3, 255],
            &[9; 8],
            &[5, 1, 0, 0, 0, 0, 0, 0],
        ),
        (
            Task::Count(1),
            &[1, 2, 1],
            &[9; 8],
            &[2, 0, 0, 0, 0, 0, 0, 0],
        ),
    ] {
        let stock = loaded(rt.alloc(), &tray, task, &[read, write])?;
        assert!(rt; writes(stock, wrote));
    }
    Ok(())
}

#[test]
fn bodies_that_read_two_ranges(rt: HostRuntime) -> Result<(), Fail> {
    let Ok(tray) = Tray::open(rt.alloc(), 1) else {
        return Err("there is memory".into());
    };
    for (task, wrote) in [(Task::Xor, [253, 2]), (Task::Add, [1, 4])] {
        let stock = loaded(rt.alloc(), &tray, task, &[&[255, 1], &[2, 3], &[9, 9]])?;
        assert!(rt; writes(stock, &wrote));
    }
    Ok(())
}

/// Whether a body that holds two pieces refuses to run for want of a third, and gives them back.
fn lacks_a_piece(stock: Stock) -> bool {
    let mut stock = stock;
    stock.run() == Err(KernelFault::Missing)
        && !stock.has_run()
        && stock.give_back().is_some()
        && stock.give_back().is_some()
        && stock.give_back().is_none()
}

#[test]
fn a_piece_is_missing(rt: HostRuntime) -> Result<(), Fail> {
    let Ok(tray) = Tray::open(rt.alloc(), 1) else {
        return Err("there is memory".into());
    };
    let add = loaded(rt.alloc(), &tray, Task::Add, &[&[255, 1], &[2, 3]])?;
    assert!(rt; lacks_a_piece(add));
    Ok(())
}

/// These pieces of packet 0, in order.
fn pieces_of(alloc: Global, tray: &Tray, pieces: &[&[u8]]) -> Result<Vec<Piece>, Fail>
    requires { 0 < tray.now.packets }
{
    let mut made = Vec::new(alloc);
    for place in 0..3u8 {
        if let Some(bytes) = pieces.get(place as usize) {
            good(made.push(piece_of(alloc, tray, place, bytes)?))?;
        }
    }
    Ok(made)
}

/// Whether an addition of these pieces is performed, and these are then the bytes of the third.
fn adds(pieces: Vec<Piece>, wanted: &[u8]) -> bool {
    if pieces.len() != 3 {
        return false;
    }
    let mut body = Body::Stock(Stock::new(Task::Add));
    match body.perform(pieces) {
        Ok(back) => body.has_run() && is_third(&back, wanted),
        Err(_) => false,
    }
}

/// Whether these are three pieces, and the last holds these bytes in place 2 of packet 0.
fn is_third(pieces: &[Piece], wanted: &[u8]) -> bool {
    match pieces {
        [_, _, last] => last.is_of(0, 2) && last.bytes() == wanted,
        _ => false,
    }
}

#[test]
fn a_body_performs(rt: HostRuntime) -> Result<(), Fail> {
    let Ok(tray) = Tray::open(rt.alloc(), 1) else {
        return Err("there is memory".into());
    };
    let pieces = pieces_of(rt.alloc(), &tray, &[&[255, 1], &[2, 3], &[0, 0]])?;
    assert!(rt; adds(pieces, &[1, 4]));
    Ok(())
}

/// Whether a boxed body that copies a byte runs. It is dropped with its pieces.
fn copies(alloc: Global, tray: &Tray) -> Result<bool, Fail>
    requires { 0 < tray.now.packets }
{
    let stock = loaded(alloc, tray, Task::Copy, &[&[7]])?;
    let mut body: Box<dyn KernelBody + Send> = good(Box::new(alloc, stock))?;
    let piece = piece_of(alloc, tray, 1, &[8])?;
    Ok(body.load(piece).is_ok() && body.run().is_ok())
}

/// Whether pieces in places 0 and 1 came home, the second with this byte.
fn came_home(alloc: Global, tray: &mut Tray, byte: u8) -> Result<bool, Fail> {
    let homes = good(tray.gather(alloc))?;
    match homes.as_slice() {
        [first, second] => Ok(
            first.place == 0 && second.place == 1 && second.bytes.as_slice() == [byte].as_slice(),
        ),
        _ => Ok(false),
    }
}

#[test]
fn a_dropped_body_sends_its_pieces_home(rt: HostRuntime) -> Result<(), Fail> {
    let Ok(mut tray) = Tray::open(rt.alloc(), 1) else {
        return Err("there is memory".into());
    };
    assert!(rt; copies(rt.alloc(), &tray)?);
    assert!(rt; came_home(rt.alloc(), &mut tray, 7)?);
    assert!(rt; came_home(rt.alloc(), &mut tray, 7)?);
    Ok(())
}
