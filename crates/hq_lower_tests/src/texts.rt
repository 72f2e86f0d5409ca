ghost use Rattle.std.specs.Prelude.{◌≡◌, length};

use hq_calls::good;
use hq_text::{
    Name, ReadFault, TakesLines, TextFault, first_line, lines_of, number_of, read_lines, take_text,
    words_of,
};
use std::alloc::Global;
use std::io;
use std::io::Read;
use std::test::*;

/// Gives one byte a turn, so many of them, and then its end or an error.
#[derive(Drop)]
struct OneByOne {
    left: usize,
    fails: bool,
}

impl Read for OneByOne {
    fn read(&mut self, buffer: &mut [u8]) -> io::Result<usize> {
        if self.left == 0 || buffer.is_empty() {
            if self.fails {
                return Err(io::ErrorKind::Interrupted.into());
            }
            return Ok(0);
        }
        self.left -= 1;
        buffer[0] = b'a';
        Ok(1)
    }
}

/// How long the text is that this reader gives, or why it is refused.
fn taken(alloc: Global, left: usize, fails: bool) -> Result<usize, TextFault> {
    let mut reader = OneByOne { left, fails };
    let text = take_text(alloc, &mut reader)?;
    Ok(text.len())
}

/// Whether the text of these bytes is them.
fn is_taken(alloc: Global, bytes: &[u8]) -> Result<bool, Fail> {
    let mut slice = bytes;
    Ok(good(take_text(alloc, &mut slice))?.as_slice() == bytes)
}

#[test]
fn takes(rt: HostRuntime) -> Result<(), Fail> {
    assert!(rt; is_taken(rt.alloc(), b"hsaq 1\nend\n")?);
    for (left, fails, is) in [
        (1_999_999, false, Ok(1_999_999)),
        (2_000_000, false, Err(TextFault::Read)),
        (3, true, Err(TextFault::Read)),
        (0, true, Err(TextFault::Read)),
    ] {
        assert!(rt; taken(rt.alloc(), left, fails) == is);
    }
    Ok(())
}

/// Gives a line of two letters a turn, so many of them, an empty one, if one is wanted, and then its end or an error.
#[derive(Drop)]
struct LineByLine {
    left: usize,
    empty: bool,
    fails: bool,
}

impl Read for LineByLine {
    fn read(&mut self, buffer: &mut [u8]) -> io::Result<usize> {
        let line: &[u8] = if self.left > 0 {
            self.left -= 1;
            b"ab\n"
        } else if self.empty {
            self.empty = false;
            b"\n"
        } else if self.fails {
            return Err(io::ErrorKind::Interrupted.into());
        } else {
            b""
        };
        if buffer.len() < line.len() {
            return Ok(0);
        }
        buffer[..line.len()].copy_from_slice(line);
        Ok(line.len())
    }
}

/// Counts lines, and refuses empty ones.
#[derive(Drop)]
struct Counter {
    count: usize,
}

#[derive(Clone, Copy, Debug, PartialEq, Eq)]
enum CounterFault {
    Empty,
    Memory,
}

impl TakesLines for Counter {
    type Fault = CounterFault;

    ghost Took = { λ _ lines counter. counter.count ≡ length lines };

    ghost Refuses = { λ lines fault. Unit {0} };

    fn take_lines(&mut self, alloc: Global, text: &[u8]) -> Result<(), CounterFault> {
        let Ok(lines) = lines_of(alloc, text) else {
            return Err(CounterFault::Memory);
        };
        if lines.iter().any(|line| line.is_empty()) {
            return Err(CounterFault::Empty);
        }
        match self.count.checked_add(lines.len()) {
            Some(count) => self.count = count,
            None => return Err(CounterFault::Memory),
        }
        Ok(())
    }

    fn no_memory() -> CounterFault {
        CounterFault::Memory
    }
}

#[test]
fn takes_lines(rt: HostRuntime) {
    for (left, empty, fails, is) in [
        (0, false, false, Ok(0)),
        (30_000, false, false, Ok(30_000)),
        (
            30_000,
            true,
            false,
            Err(ReadFault::Text(CounterFault::Empty)),
        ),
        (2, true, true, Err(ReadFault::Reader)),
        (0, false, true, Err(ReadFault::Reader)),
        (2_000_000, false, false, Err(ReadFault::Reader)),
    ] {
        let mut reader = LineByLine { left, empty, fails };
        let counter = Counter { count: 0 };
        let counted = read_lines(rt.alloc(), &mut reader, counter).map(|c| c.count);
        assert!(rt; counted == is);
    }
    let mut whole: &[u8] = b"a\nb\nc";
    let counted = read_lines(rt.alloc(), &mut whole, Counter { count: 0 });
    assert!(rt; counted.map(|c| c.count) == Ok(3));
}

/// Whether a text has these lines.
fn has_lines(alloc: Global, text: &[u8], wanted: &[&[u8]]) -> Result<bool, Fail> {
    Ok(good(lines_of(alloc, text))?.as_slice() == wanted)
}

/// Whether a line has these words.
fn has_words(alloc: Global, line: &[u8], wanted: &[&[u8]]) -> Result<bool, Fail> {
    Ok(good(words_of(alloc, line))?.as_slice() == wanted)
}

/// Whether a text has this first line, and this behind it.
fn begins(text: &[u8], line: &[u8], rest: &[u8]) -> bool {
    !text.is_empty() && first_line(text) == (line, rest)
}

#[test]
fn cuts(rt: HostRuntime) -> Result<(), Fail> {
    assert!(rt; has_lines(rt.alloc(), b"", &[])?);
    assert!(rt; has_lines(rt.alloc(), b"a\nb", &[b"a", b"b"])?);
    assert!(rt; has_lines(rt.alloc(), b"a\n\nb c\n", &[b"a", b"", b"b c"])?);
    assert!(rt; has_lines(rt.alloc(), b"\n\n", &[b"", b""])?);
    assert!(rt; begins(b"a\nb\n", b"a", b"b\n"));
    assert!(rt; begins(b"\n", b"", b""));
    assert!(rt; begins(b"a b", b"a b", b""));
    assert!(rt; has_words(rt.alloc(), b"a  b ", &[b"a", b"", b"b", b""])?);
    assert!(rt; has_words(rt.alloc(), b"", &[b""])?);
    Ok(())
}

#[test]
fn numbers(rt: HostRuntime) {
    for (word, number) in [
        (b"0".as_slice(), Some(0)),
        (b"18446744073709551615", Some(u64::MAX)),
        (b"18446744073709551616", None),
        (b"00", None),
        (b"01", None),
        (b"", None),
        (b"1a", None),
        (b"-1", None),
        (b"+1", None),
    ] {
        assert_eq!(rt; number_of(word), number);
    }
}

/// Whether a word is a name.
fn is_name(word: &[u8]) -> bool {
    Name::new(word).is_some()
}

/// Whether a word is a name that is told so.
fn is_named(word: &[u8], told: &str) -> bool {
    match Name::new(word) {
        Some(name) => name.as_str() == told,
        None => false,
    }
}

/// Whether two words are the same name.
fn are_same(word: &[u8], other: &[u8]) -> bool {
    match (Name::new(word), Name::new(other)) {
        (Some(name), Some(second)) => name == second,
        _ => false,
    }
}

#[test]
fn names(rt: HostRuntime) {
    for (word, is) in [
        (b"a".as_slice(), true),
        (b"z_09", true),
        (b"abcdefghijklmnop", true),
        (b"abcdefghijklmnopq", false),
        (b"", false),
        (b"_a", false),
        (b"9", false),
        (b"aB", false),
        (b"a-", false),
    ] {
        assert_eq!(rt; is_name(word), is);
    }
    assert!(rt; is_named(b"q_1", "q_1"));
    assert!(rt; are_same(b"q_1", b"q_1") && !are_same(b"q_1", b"q_"));
}
