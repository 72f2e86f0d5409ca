use hq_calls::good;
use hq_footprint::{
    Code, FootFault, Footprint, Kinds, Range, Task, Work, conflict, evaluate, evaluate_ranges,
    inside, kinds_of, laws, of_kernel, of_service,
};
use std::test::*;

fn footprint(first: Range, second: Range, write: Range) -> Footprint {
    Footprint {
        reads: [first, second],
        write,
    }
}

fn writes(write: Range) -> Footprint {
    footprint(Range::new(0, 0), Range::new(0, 0), write)
}

fn reads(first: Range) -> Footprint {
    footprint(first, Range::new(0, 0), Range::new(0, 0))
}

/// How what writes a range and what reads one conflict.
fn conflict_of(write: Range, read: Range) -> Option<Kinds> {
    conflict(&writes(write), &reads(read))
}

/// The kinds of conflict between what writes a range and what reads one.
fn kinds_between(write: Range, read: Range) -> Kinds {
    kinds_of(&writes(write), &reads(read))
}

/// Whether two ranges have a byte in common.
fn overlap(first: Range, second: Range) -> bool {
    first.overlaps(second)
}

#[test]
fn touching_ranges(rt: HostRuntime) {
    let read = Range::new(4100, 4);
    assert!(rt; conflict_of(Range::new(4096, 4), read).is_none());
    let kinds = Kinds {
        wr: true,
        ww: false,
        rw: false,
    };
    let write = Range::new(4096, 5);
    assert!(rt; conflict_of(write, read) == Some(kinds));
    assert!(rt; kinds_between(write, read) == kinds);
    assert!(rt; overlap(write, read));
}

#[test]
fn buffers(rt: HostRuntime) {
    let copy = footprint(Range::new(4096, 8), Range::new(0, 0), Range::new(4096, 8));
    let long = writes(Range::new(4096, 9));
    let last = writes(Range::new(u64::MAX, 1));
    let past = writes(Range::new(u64::MAX, 2));
    for (foot, is) in [
        (copy, Ok(())),
        (long, Err(FootFault::OutsideBuffer)),
        (last, Err(FootFault::OutsideBuffer)),
        (past, Err(FootFault::Overflow)),
    ] {
        assert_eq!(rt; inside(&foot, &[Range::new(4096, 8)]), is);
    }
    assert!(rt; Range::new(u64::MAX, 1).fits());
    assert!(rt; Range::new(4097, 7).is_within(Range::new(4096, 8)));
}

/// Three addresses as arguments: 4096, 8192 and 12288, and a byte at the head of the second.
fn arguments(byte: u8) -> [u8; 24] {
    let mut args = [0u8; 24];
    args[1] = 16;
    args[8] = byte;
    args[9] = 32;
    args[17] = 48;
    args
}

/// The work of a kernel that is given so many bytes of these arguments.
fn work_of(code: Code, items: u64, args: [u8; 24], len: usize) -> Result<Work, FootFault> {
    match args.get(..len) {
        Some(args) => of_kernel(code, items, args),
        None => of_kernel(code, items, &args),
    }
}

#[test]
fn kernels(rt: HostRuntime) {
    let xor = Work {
        foot: footprint(
            Range::new(4096, 8),
            Range::new(8192, 8),
            Range::new(12288, 8),
        ),
        task: Task::Xor,
    };
    let sum = Work {
        foot: footprint(Range::new(4096, 3), Range::new(0, 0), Range::new(8192, 8)),
        task: Task::Sum,
    };
    let fill = Work {
        foot: writes(Range::new(4096, 2)),
        task: Task::Fill(7),
    };
    for (code, items, byte, len, is) in [
        (Code::Xor, 8, 0, 23, Err(FootFault::ArgsShort)),
        (Code::Xor, 8, 0, 24, Ok(xor)),
        (Code::Sum, 3, 0, 24, Ok(sum)),
        (Code::Copy, u64::MAX, 0, 24, Err(FootFault::Overflow)),
        (Code::Fill, 2, 7, 16, Ok(fill)),
    ] {
        assert!(rt; work_of(code, items, arguments(byte), len) == is);
    }
}

#[test]
fn services(rt: HostRuntime) {
    let nothing = Work {
        foot: writes(Range::new(0, 0)),
        task: Task::Nop,
    };
    let store = Work {
        foot: writes(Range::new(4096, 8)),
        task: Task::Store64(5),
    };
    let count = Work {
        foot: footprint(Range::new(5, 3), Range::new(0, 0), Range::new(4096, 8)),
        task: Task::Count(1),
    };
    let zero = Work {
        foot: writes(Range::new(4096, 8)),
        task: Task::Store64(0),
    };
    for (kind, args, at, is) in [
        (0x8000, [5, 0, 0, 0], 4096, Ok(store)),
        (0x8001, [5, 3, 257, 0], 4096, Ok(count)),
        (0x8001, [5, 0, 1, 0], 4096, Ok(zero)),
        (0x8002, [5, 3, 1, 0], 4096, Ok(nothing)),
        (0x8001, [5, 3, 1, 0], 0, Ok(nothing)),
        (0x8003, [5, 3, 1, 0], 0, Err(FootFault::Service)),
        (0x8000, [5, 3, 1, 0], u64::MAX, Err(FootFault::Overflow)),
    ] {
        assert!(rt; of_service(kind, args, at) == is);
    }
}

/// The word that a task writes.
fn word_of(task: &Task, reads: &[u8]) -> Option<[u8; 8]> {
    if !matches!(task, Task::Sum | Task::Count(_)) {
        return None;
    }
    let mut out = [0u8; 8];
    evaluate(task, reads, &mut out);
    Some(out)
}

/// The word that is stored.
fn stored(word: u64) -> [u8; 8] {
    let mut out = [0u8; 8];
    evaluate(&Task::Store64(word), &[], &mut out);
    out
}

/// Writes nothing.
fn do_nothing() {
    evaluate(&Task::Nop, &[], &mut []);
}

#[test]
fn words(rt: HostRuntime) {
    let sum = word_of(&Task::Sum, &[1, 2, 3, 0xff]);
    assert_eq!(rt; sum, Some([5, 1, 0, 0, 0, 0, 0, 0]));
    let count = word_of(&Task::Count(1), &[1, 2, 1]);
    assert_eq!(rt; count, Some([2, 0, 0, 0, 0, 0, 0, 0]));
    assert_eq!(rt; stored(0x0102), [2, 1, 0, 0, 0, 0, 0, 0]);
    do_nothing();
}

/// The two bytes that a task makes of the bytes of two ranges.
fn of_two(task: &Task, first: [u8; 2], second: [u8; 2]) -> Option<[u8; 2]> {
    if !matches!(task, Task::Xor | Task::Add) {
        return None;
    }
    let mut out = [0u8; 2];
    evaluate_ranges(task, &first, &second, &mut out);
    Some(out)
}

/// The two bytes that a task makes of as many.
fn of_one(task: &Task, reads: [u8; 2]) -> Option<[u8; 2]> {
    if !matches!(task, Task::Copy | Task::Rev) {
        return None;
    }
    let mut out = [0u8; 2];
    evaluate(task, &reads, &mut out);
    Some(out)
}

/// The sum of two ranges of two bytes that stand behind one another.
fn sum_of(reads: [u8; 4]) -> [u8; 2] {
    let mut out = [0u8; 2];
    evaluate(&Task::Add, &reads, &mut out);
    out
}

/// Two bytes that are filled.
fn filled(byte: u8) -> [u8; 2] {
    let mut out = [0u8; 2];
    evaluate(&Task::Fill(byte), &[], &mut out);
    out
}

#[test]
fn bytes(rt: HostRuntime) {
    assert_eq!(rt; sum_of([0xff, 1, 2, 3]), [1, 4]);
    assert_eq!(rt; of_two(&Task::Xor, [0xff, 1], [2, 3]), Some([0xfd, 2]));
    assert_eq!(rt; of_one(&Task::Rev, [8, 9]), Some([9, 8]));
    assert_eq!(rt; of_one(&Task::Copy, [8, 9]), Some([8, 9]));
    assert_eq!(rt; filled(7), [7, 7]);
}

#[test]
fn laws_hold_as_calls(_rt: HostRuntime) {
    laws::bytes_counted();
    laws::bytes_placed();
    laws::bytes_bounded();
    laws::bytes_apart();
    laws::bytes_shifted();
    laws::entries_counted();
    laws::within_has_bytes();
    laws::inside_has_bytes();
    laws::overlaps_share();
    laws::share_renumbered();
    laws::conflict_turns();
    laws::results_counted();
    laws::results_are_bytes();
    laws::kernels_suit();
    laws::services_suit();
}

#[test]
fn faults_are_told(rt: HostRuntime) -> Result<(), Fail> {
    let text = good(FootFault::OutsideBuffer.to_string(rt.alloc()))?;
    assert_eq!(rt; text.as_str(), "a range outside the buffers");
    Ok(())
}
