ghost use Rattle.std.specs.Prelude.{◌≡◌, ◌+◌, ◌<◌, ◌≤◌, IfOk};
ghost use Rattle.hq_signals.specs.Table.{noted};

use hq_signals::{Signal, SignalFault, SignalTable, Undershoot};
use std::alloc::Global;
use std::test::*;

#[test]
fn a_signal_counts_down(rt: HostRuntime) {
    let mut signal = Signal::new(2);
    assert_eq!(rt; signal.start(), 2);
    assert_eq!(rt; signal.decrement(), Ok(()));
    assert!(rt; !signal.is_zero());
    assert_eq!(rt; signal.decrement(), Ok(()));
    assert!(rt; signal.is_zero());
    assert_eq!(rt; signal.decrement(), Err(Undershoot));
    assert_eq!(rt; signal.value(), 0);
}

/// What a start is below.
const LIMIT: u64 = 1 << 63;

/// A table with this signal.
fn one(alloc: Global, handle: u64, start: u64) -> Result<SignalTable, Fail>
    ensures { IfOk result (λ table. noted table ≡ 0) }
{
    if start >= LIMIT {
        return Err("a start fits".into());
    }
    let mut table = SignalTable::new(alloc);
    let Ok(()) = table.open(handle, start) else {
        return Err("there is memory".into());
    };
    Ok(table)
}

/// A table with these signals, in this order.
fn two(alloc: Global, first: (u64, u64), second: (u64, u64)) -> Result<SignalTable, Fail>
    ensures { IfOk result (λ table. noted table ≡ 0) }
{
    let (handle, start) = second;
    let mut table = one(alloc, first.0, first.1)?;
    if table.has(handle) || start >= LIMIT {
        return Err("handles differ, and a start fits".into());
    }
    let Ok(()) = table.open(handle, start) else {
        return Err("there is memory".into());
    };
    Ok(table)
}

/// Notes that one packet more completes on a signal, and says whether the signal is open.
fn completes(table: &mut SignalTable, handle: u64) -> bool
    requires { noted table.old < 8 }
    ensures { noted table.new ≤ noted table.old + 1 }
{
    if !table.has(handle) {
        return false;
    }
    table.note_decrement(handle);
    true
}

/// Notes that a barrier waits on a signal, and says whether the signal is open.
fn waits(table: &mut SignalTable, handle: u64) -> bool
    ensures { noted table.new ≡ noted table.old }
{
    if !table.has(handle) {
        return false;
    }
    table.note_wait(handle);
    true
}

/// What is wrong with a table.
fn fault_of(table: &SignalTable) -> Option<SignalFault> {
    table.verdict().err()
}

#[test]
fn more_decrementers_than_the_start(rt: HostRuntime) -> Result<(), Fail> {
    let mut table = one(rt.alloc(), 9, 2)?;
    assert!(rt; completes(&mut table, 9) && completes(&mut table, 9));
    assert_eq!(rt; fault_of(&table), None);
    assert!(rt; completes(&mut table, 9));
    assert_eq!(rt; fault_of(&table), Some(SignalFault::Undershoot(9)));
    Ok(())
}

/// Whether a table is the same as itself, and not as an empty one, which is empty.
fn is_itself(alloc: Global, table: &SignalTable) -> bool {
    let empty = SignalTable::new(alloc);
    empty.is_empty() && table.same(table) && !table.same(&empty)
}

#[test]
fn a_waited_signal_with_too_few_decrementers(rt: HostRuntime) -> Result<(), Fail> {
    let mut table = one(rt.alloc(), 9, 2)?;
    assert!(rt; completes(&mut table, 9));
    assert_eq!(rt; fault_of(&table), None);
    assert!(rt; waits(&mut table, 9));
    assert_eq!(rt; fault_of(&table), Some(SignalFault::NeverZero(9)));
    assert!(rt; is_itself(rt.alloc(), &table));
    Ok(())
}

/// The place of a signal.
fn place_of(table: &SignalTable, handle: u64) -> Option<usize> {
    table.index_of(handle)
}

/// The handle and the start of the signal at a place.
fn at(table: &SignalTable, place: usize) -> Option<(u64, u64)> {
    if place >= table.len() {
        return None;
    }
    Some((table.handle(place), table.start(place)))
}

/// Whether a signal is open.
fn is_open(table: &SignalTable, handle: u64) -> bool {
    table.has(handle)
}

#[test]
fn places_in_order_of_opening(rt: HostRuntime) -> Result<(), Fail> {
    let table = two(rt.alloc(), (10, 0), (9, 9223372036854775807))?;
    assert!(rt; is_open(&table, 9) && !is_open(&table, 8));
    assert!(rt; place_of(&table, 9) == Some(1) && place_of(&table, 8).is_none());
    assert!(rt; at(&table, 0) == Some((10, 0)));
    assert!(rt; at(&table, 1) == Some((9, 9223372036854775807)));
    assert!(rt; at(&table, 2).is_none());
    Ok(())
}

#[test]
fn an_undershot_signal_comes_first(rt: HostRuntime) -> Result<(), Fail> {
    let mut table = two(rt.alloc(), (12, 1), (10, 0))?;
    assert!(rt; waits(&mut table, 12));
    assert_eq!(rt; fault_of(&table), Some(SignalFault::NeverZero(12)));
    assert!(rt; is_open(&table, 10) && completes(&mut table, 10));
    assert_eq!(rt; fault_of(&table), Some(SignalFault::Undershoot(10)));
    Ok(())
}
