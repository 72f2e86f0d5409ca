use hq_calls::good;
use hq_footprint::Code;
use hq_lines::{Line, LineFault, Version, first_line, line_behind_end, read_line};
use hq_packet::{Packet, PacketFault};
use hq_text::Name;
use std::alloc::Global;
use std::test::*;

/// The digits of a kernel packet, in small letters.
const PACKET: &[u8] = b"packet 0215010001000100010000000400000001000000010000000000000000000000\
             0100000000000000000100000000000000000000000000000000000000000000";

/// What a line says.
fn line_of(alloc: Global, line: &[u8]) -> Result<Line, Fail> {
    good(read_line(alloc, line))
}

fn is_name(name: Name, word: &str) -> bool {
    name.as_str() == word
}

#[test]
fn first_lines(rt: HostRuntime) {
    for (line, version) in [
        (b"hsaq 1".as_slice(), Ok(Version::One)),
        (b"hsaq 2", Ok(Version::Two)),
        (b"hsaq 3", Err(LineFault::Word)),
        (b"hsaq 01", Err(LineFault::Word)),
        (b"hsaq  1", Err(LineFault::Word)),
        (b"hsac 1", Err(LineFault::Word)),
        (b"", Err(LineFault::Word)),
        (b"hsaq 1\r", Err(LineFault::Byte)),
    ] {
        assert!(rt; first_line(line) == version);
    }
    assert!(rt; line_behind_end(b"end") == LineFault::Word);
    assert!(rt; line_behind_end(b"") == LineFault::Word);
    assert!(rt; line_behind_end(b"\x7f") == LineFault::Byte);
}

#[test]
fn buffers(rt: HostRuntime) -> Result<(), Fail> {
    let line = line_of(rt.alloc(), b"buffer b 281474976710656 2 0aFF")?;
    if let Line::Buffer { name, at, bytes } = line {
        assert!(rt; is_name(name, "b"));
        assert_eq!(rt; at, 281_474_976_710_656);
        assert_eq!(rt; bytes.as_slice(), [10, 255].as_slice());
    } else {
        assert!(rt; false);
    }
    let line = line_of(rt.alloc(), b"buffer b 4096 65536")?;
    if let Line::Buffer { name, at, bytes } = line {
        assert!(rt; is_name(name, "b") && at == 4096 && bytes.len() == 65536);
        assert!(rt; bytes.iter().all(|b| *b == 0));
    } else {
        assert!(rt; false);
    }
    let line = line_of(rt.alloc(), b"args k0 256 00100000000000000700000000000000")?;
    if let Line::Args { name, at, bytes } = line {
        assert!(rt; is_name(name, "k0") && at == 256 && bytes.len() == 16);
        assert_eq!(rt; (bytes.as_slice()[1], bytes.as_slice()[8]), (16, 7));
    } else {
        assert!(rt; false);
    }
    Ok(())
}

/// The name of an agent, or of the queue to which packets go.
fn name_of(alloc: Global, line: &[u8]) -> Result<Option<Name>, Fail> {
    match line_of(alloc, line)? {
        Line::Agent(name) | Line::To(name) => Ok(Some(name)),
        _ => Ok(None),
    }
}

/// The name of a queue, that of its agent, and its size.
fn queue_of(alloc: Global, line: &[u8]) -> Result<Option<(Name, Name, u16)>, Fail> {
    match line_of(alloc, line)? {
        Line::Queue { name, agent, size } => Ok(Some((name, agent, size))),
        _ => Ok(None),
    }
}

#[test]
fn names(rt: HostRuntime) -> Result<(), Fail> {
    let agent = name_of(rt.alloc(), b"agent a")?;
    assert!(rt; agent.is_some_and(|name| is_name(name, "a")));
    let queue = name_of(rt.alloc(), b"to q")?;
    assert!(rt; queue.is_some_and(|name| is_name(name, "q")));
    if let Some((name, agent, size)) = queue_of(rt.alloc(), b"queue q a 1024")? {
        assert!(rt; is_name(name, "q") && is_name(agent, "a") && size == 1024);
    } else {
        assert!(rt; false);
    }
    Ok(())
}

/// The object of a kernel, and its code.
fn kernel_of(alloc: Global, line: &[u8]) -> Result<Option<(u64, Code)>, Fail> {
    match line_of(alloc, line)? {
        Line::Kernel { object, code, .. } => Ok(Some((object, code))),
        _ => Ok(None),
    }
}

#[test]
fn kernels(rt: HostRuntime) -> Result<(), Fail> {
    for (line, code) in [
        (b"kernel f 1 fill".as_slice(), Code::Fill),
        (b"kernel f 1 copy", Code::Copy),
        (b"kernel f 1 rev", Code::Rev),
        (b"kernel f 1 xor", Code::Xor),
        (b"kernel f 1 add", Code::Add),
        (b"kernel f 1 sum", Code::Sum),
    ] {
        assert!(rt; kernel_of(rt.alloc(), line)? == Some((1, code)));
    }
    Ok(())
}

/// The handle of a signal, and its start.
fn signal_of(alloc: Global, line: &[u8]) -> Result<Option<(u64, u64)>, Fail> {
    match line_of(alloc, line)? {
        Line::Signal { handle, start, .. } => Ok(Some((handle, start))),
        _ => Ok(None),
    }
}

/// The object and the kernarg address of a kernel packet.
fn dispatch_of(alloc: Global, line: &[u8]) -> Result<Option<(u64, u64)>, Fail> {
    match line_of(alloc, line)? {
        Line::Packet(Packet::Kernel(kernel)) => Ok(Some((kernel.object, kernel.kernarg))),
        _ => Ok(None),
    }
}

/// Whether a line is the last one.
fn is_end(alloc: Global, line: &[u8]) -> Result<bool, Fail> {
    Ok(matches!(line_of(alloc, line)?, Line::End))
}

#[test]
fn others(rt: HostRuntime) -> Result<(), Fail> {
    let signal = signal_of(rt.alloc(), b"signal s 9 9223372036854775807")?;
    assert_eq!(rt; signal, Some((9, 9_223_372_036_854_775_807)));
    assert_eq!(rt; dispatch_of(rt.alloc(), PACKET)?, Some((1, 256)));
    assert!(rt; is_end(rt.alloc(), b"end")?);
    Ok(())
}

/// What is wrong with a line.
fn fault_of(alloc: Global, line: &[u8]) -> Option<LineFault> {
    read_line(alloc, line).err()
}

#[test]
fn faults(rt: HostRuntime) {
    for (line, fault) in [
        (b"agent\x07".as_slice(), LineFault::Byte),
        (b"agent \xe9", LineFault::Byte),
        (b"", LineFault::Word),
        (b"hsaq 1", LineFault::Word),
        (b"agent", LineFault::Word),
        (b"agent  a", LineFault::Word),
        (b"agent a ", LineFault::Word),
        (b"agent abcdefghijklmnopq", LineFault::Word),
        (b"agent A", LineFault::Word),
        (b"end 1", LineFault::Word),
        (b"to 1", LineFault::Word),
        (b"packet", LineFault::Word),
        (b"packet 00 00", LineFault::Word),
        (b"buffer 1 x 8", LineFault::Word),
        (b"kernel f 0 sub", LineFault::Word),
        (b"queue q 1 3", LineFault::Word),
        (b"buffer b 0 8", LineFault::Number),
        (b"buffer b 281474976710657 8", LineFault::Number),
        (b"buffer b 01 8", LineFault::Number),
        (b"buffer b  8", LineFault::Number),
        (b"buffer b 1 0", LineFault::Number),
        (b"buffer b 1 65537", LineFault::Number),
        (b"args k 0 0", LineFault::Number),
        (b"signal s 0 1", LineFault::Number),
        (b"signal s 1 9223372036854775808", LineFault::Number),
        (b"kernel f 0 fill", LineFault::Number),
        (b"queue q a 0", LineFault::Number),
        (b"queue q a 1025", LineFault::Number),
        (b"buffer b 1 8 0", LineFault::Hex),
        (b"buffer b 1 1 ", LineFault::Hex),
        (b"buffer b 1 1 0g", LineFault::Hex),
        (b"args k 1 ", LineFault::Hex),
        (b"args k 1 0", LineFault::Hex),
        (b"args k 1 0g", LineFault::Hex),
        (b"packet ", LineFault::Hex),
        (b"packet 02", LineFault::Hex),
        (b"queue q a 3", LineFault::QueueSize),
        (b"queue q a 1023", LineFault::QueueSize),
    ] {
        assert!(rt; fault_of(rt.alloc(), line) == Some(fault));
    }
}

/// A line with one of its bytes changed.
fn changed(alloc: Global, line: &[u8], at: usize, byte: u8) -> Result<Vec<u8>, Fail> {
    let mut line = good(Vec::from_slice(alloc, line))?;
    if let Some(place) = line.get_mut(at) {
        *place = byte;
    }
    Ok(line)
}

#[test]
fn packets(rt: HostRuntime) -> Result<(), Fail> {
    for (at, byte, fault) in [
        (10, b'g', LineFault::Hex),
        (8, b'0', LineFault::Packet(PacketFault::Vendor)),
        (8, b'1', LineFault::Packet(PacketFault::Invalid)),
        (8, b'6', LineFault::Packet(PacketFault::ReservedFormat)),
        (12, b'0', LineFault::Packet(PacketFault::Dimensions)),
        (28, b'1', LineFault::Packet(PacketFault::ReservedField(10))),
        (104, b'1', LineFault::Packet(PacketFault::ReservedField(48))),
    ] {
        let line = changed(rt.alloc(), PACKET, at, byte)?;
        assert!(rt; fault_of(rt.alloc(), &line) == Some(fault));
    }
    Ok(())
}

/// A line with 64 bytes, and more digits.
fn long_line(alloc: Global, more: &[u8]) -> Result<Vec<u8>, Fail> {
    let mut line = good(Vec::from_slice(alloc, b"args k 1 "))?;
    for _ in 0..64 {
        good(line.extend_from_slice(b"aB"))?;
    }
    good(line.extend_from_slice(more))?;
    Ok(line)
}

#[test]
fn long_args(rt: HostRuntime) -> Result<(), Fail> {
    for (more, fault) in [
        (b"".as_slice(), None),
        (b"0", Some(LineFault::Hex)),
        (b"00", Some(LineFault::TooLong)),
        (b"0g", Some(LineFault::Hex)),
    ] {
        let line = long_line(rt.alloc(), more)?;
        assert!(rt; fault_of(rt.alloc(), &line) == fault);
    }
    Ok(())
}
