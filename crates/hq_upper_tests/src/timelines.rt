use crate::readers::Pieces;
use hq_calls::good;
use hq_machine::{Event, Journal};
use hq_timeline::{ReadFault, TimeFault, TimeReason, parse, print, read};
use std::alloc::Global;
use std::process::Abort;
use std::test::*;

/// Lines of no, one and two numbers.
const TEXT: &[u8] = b"hsat 1\nsubmit\nlaunch 0\nobserve 1 4294967295\npushlane 1023 65535\nend\n";

// Calls without contracts, so that no test is proved over the bytes of its texts.

/// The journal of a text.
fn journal_of(alloc: Global, text: &[u8]) -> Result<Journal, Fail> {
    good(parse(alloc, text))
}

/// The fault of a text, if it has one.
fn fault_of(alloc: Global, text: &[u8]) -> Option<TimeFault> {
    parse(alloc, text).err()
}

/// The journal of a text that comes in pieces of so many bytes, and fails after so many turns.
fn read_in(
    alloc: Global,
    text: &[u8],
    len: usize,
    turns: usize,
) -> Result<Journal, ReadFault<TimeFault>> {
    read(alloc, &mut Pieces::new(text, len, turns))
}

/// The text of a journal.
fn printed(alloc: Global, journal: &Journal) -> Result<Vec<u8>, Fail> {
    let mut text = Vec::new(alloc);
    good(print(alloc, journal, &mut text))?;
    Ok(text)
}

/// The journal of these events.
fn journal_with(alloc: Global, events: &[Event]) -> Result<Journal, Fail> {
    let mut journal = Journal::new(alloc);
    for event in events {
        good(journal.push(*event))?;
    }
    Ok(journal)
}

#[test]
fn printed_again(rt: HostRuntime) -> Result<(), Fail> {
    let journal = journal_of(rt.alloc(), TEXT)?;
    assert_eq!(rt; journal.events().len(), 4);
    let text = printed(rt.alloc(), &journal)?;
    assert!(rt; text.as_slice() == TEXT);
    Ok(())
}

#[test]
fn each_event(rt: HostRuntime) -> Result<(), Fail> {
    let events = [
        Event::Complete { packet: 7 },
        Event::Finish { packet: 7 },
        Event::DropAgent { agent: 1, byte: 2 },
    ];
    let journal = journal_with(rt.alloc(), &events)?;
    let text = printed(rt.alloc(), &journal)?;
    assert!(rt;
        text.as_slice() == b"hsat 1\ncomplete 7\nfinish 7\ndropagent 1 2\nend\n".as_slice()
    );
    let read = journal_of(rt.alloc(), &text)?;
    assert!(rt; read.events() == journal.events());
    Ok(())
}

fn is_fault(rt: &impl Abort, alloc: Global, text: &[u8], line: usize, reason: TimeReason) {
    assert!(rt; fault_of(alloc, text) == Some(TimeFault { line, reason }));
}

#[test]
fn faults(rt: HostRuntime) {
    for (text, line, reason) in [
        (b"".as_slice(), 1, TimeReason::NoEnd),
        (b"hsat 1\n", 2, TimeReason::NoEnd),
        (b"hsat 2\n", 1, TimeReason::Word),
        (b"hsat 1\nlaunch\nend\n", 2, TimeReason::Word),
        (b"hsat 1\nlaunch 4294967296\nend\n", 2, TimeReason::Number),
        (b"hsat 1\nlaunch 01 2\n", 2, TimeReason::Word),
        (b"hsat 1\nread 0  1\n", 2, TimeReason::Word),
        (b"hsat 1\nenter \n", 2, TimeReason::Number),
        (b"hsat 1\nend\n\n", 3, TimeReason::Word),
    ] {
        is_fault(&rt, rt.alloc(), text, line, reason);
    }
}

#[test]
fn read_in_pieces(rt: HostRuntime) -> Result<(), Fail> {
    for len in 1..40 {
        let journal = good(read_in(rt.alloc(), TEXT, len, 1000))?;
        let text = printed(rt.alloc(), &journal)?;
        assert!(rt; text.as_slice() == TEXT);
    }
    Ok(())
}

fn is_read_fault(
    rt: &impl Abort,
    alloc: Global,
    turns: usize,
    text: &[u8],
    fault: ReadFault<TimeFault>,
) {
    match read_in(alloc, text, 3, turns) {
        Ok(_) => assert!(rt; false),
        Err(found) => assert!(rt; found == fault),
    }
}

#[test]
fn read_faults(rt: HostRuntime) {
    let text = b"hsat 1\nsubmit\nlaunch x\nend\n".as_slice();
    let number = ReadFault::Text(TimeFault {
        line: 3,
        reason: TimeReason::Number,
    });
    is_read_fault(&rt, rt.alloc(), 1000, text, number);
    for turns in 0..10 {
        is_read_fault(&rt, rt.alloc(), turns, text, ReadFault::Reader);
    }
}
