//! Runs in which bodies fail.

ghost use Rattle.std.specs.Prelude.{◌<◌};

use crate::bodies::{Faulting, Opening, Refusing};
use crate::jobs::{Told, accepted, run_faults, same};
use crate::texts::{EITHER, FILL_COPY_COPY};
use hq_calls::good;
use hq_footprint::Task;
use hq_kernels::{Body, Stock, stock_kits};
use hq_ledger::{Piece, Tray};
use std::alloc::Global;
use std::sync::Wait;
use std::test::*;
use std::thread::Threads;

/// Whose body it is: the queue, and the place among its kit's bodies.
type Place = (usize, usize);

/// What is told of the fault of a run of the job of this text with this body in place of a stock one.
fn fault_of<R: Threads + Wait + Sync>(
    rt: &R,
    alloc: Global,
    parts: &[&[u8]],
    place: Place,
    body: Body,
) -> Result<Told, Fail> {
    let accepted = accepted(alloc, parts)?;
    let mut kits = good(stock_kits(alloc, accepted.job()))?;
    let Some(kit) = kits.get_mut(place.0) else {
        return Err("there is this queue".into());
    };
    let Some(old) = kit.bodies.get_mut(place.1) else {
        return Err("there is this body".into());
    };
    *old = body;
    run_faults(rt, alloc, &accepted, kits)
}

#[test]
fn a_body_that_faults(rt: HostRuntime) -> Result<(), Fail> {
    let body = Body::Kernel(good(Box::new(rt.alloc(), Faulting::new(Task::Copy)))?);
    let told = fault_of(&rt, rt.alloc(), FILL_COPY_COPY, (0, 2), body)?;
    assert!(rt; same(told, (2, 2, 0, 2)));
    Ok(())
}

#[test]
fn a_body_that_refuses_a_piece(rt: HostRuntime) -> Result<(), Fail> {
    let body = Body::Kernel(good(Box::new(rt.alloc(), Refusing::new(Task::Copy)))?);
    let told = fault_of(&rt, rt.alloc(), FILL_COPY_COPY, (0, 2), body)?;
    assert!(rt; same(told, (2, 2, 0, 2)));
    Ok(())
}

#[test]
fn a_fault_ends_the_wait_of_others(rt: HostRuntime) -> Result<(), Fail> {
    let body = Body::Kernel(good(Box::new(rt.alloc(), Faulting::new(Task::Fill(7))))?);
    let told = fault_of(&rt, rt.alloc(), EITHER, (0, 0), body)?;
    assert!(rt; same(told, (0, 1, 0, 1)));
    Ok(())
}

#[test]
fn the_last_packet_faults(rt: HostRuntime) -> Result<(), Fail> {
    let body = Body::Kernel(good(Box::new(rt.alloc(), Faulting::new(Task::Copy)))?);
    let told = fault_of(&rt, rt.alloc(), EITHER, (3, 0), body)?;
    assert!(rt; same(told, (4, 2, 0, 2)));
    Ok(())
}

#[test]
fn a_piece_that_is_opened_is_lost(rt: HostRuntime) -> Result<(), Fail> {
    let body = Body::Kernel(good(Box::new(rt.alloc(), Opening::new(Task::Copy)))?);
    let told = fault_of(&rt, rt.alloc(), FILL_COPY_COPY, (0, 2), body)?;
    assert!(rt; same(told, (2, 1, 1, 1)));
    Ok(())
}

/// A copy's body that holds a piece of this tray.
fn holding(alloc: Global, tray: &Tray) -> Result<Stock, Fail>
    requires { 0 < tray.now.packets }
{
    let bytes = good([7u8].as_slice().to_vec(alloc))?;
    let piece = good(Piece::new(alloc, tray, 0, 0, 4096, bytes))?;
    let mut stock = Stock::new(Task::Copy);
    if stock.load(piece).is_err() {
        return Err("a body takes a piece".into());
    }
    Ok(stock)
}

/// Whether one piece came home to the tray, with this byte.
fn is_home(alloc: Global, tray: &mut Tray, byte: u8) -> Result<bool, Fail> {
    let homes = good(tray.gather(alloc))?;
    match homes.as_slice() {
        [home] => Ok(home.bytes.as_slice() == [byte].as_slice()),
        _ => Ok(false),
    }
}

#[test]
fn a_body_that_holds_a_piece_of_another_tray(rt: HostRuntime) -> Result<(), Fail> {
    let Ok(mut tray) = Tray::open(rt.alloc(), 1) else {
        return Err("there is memory".into());
    };
    let stock = holding(rt.alloc(), &tray)?;
    let body = Body::Kernel(good(Box::new(rt.alloc(), stock))?);
    let told = fault_of(&rt, rt.alloc(), FILL_COPY_COPY, (0, 2), body)?;
    assert!(rt; same(told, (2, 2, 0, 2)));
    assert!(rt; is_home(rt.alloc(), &mut tray, 7)?);
    Ok(())
}
