use crate::jobs::job_of;
use hq_engines::replay_engine;
use hq_judging::audit_engine;
use hq_run_engine::accept;
use hq_showing::{pack_engine, show_engine};
use std::alloc::Global;
use std::io;
use std::io::{Read, Write};
use std::test::*;

/// A reader and a writer that fail at once.
#[derive(Drop)]
struct Failing;

impl Read for Failing {
    fn read(&mut self, _buf: &mut [u8]) -> io::Result<usize> {
        Err(io::Error::from(io::ErrorKind::Interrupted))
    }
}

impl Write for Failing {
    fn write(&mut self, _buf: &[u8]) -> io::Result<usize> {
        Err(io::Error::from(io::ErrorKind::BrokenPipe))
    }

    fn flush(&mut self) -> io::Result<()> {
        Ok(())
    }
}

const EMPTY: &[u8] = b"hsaq 1\nend\n";

// The engines' statuses, without contracts, so that no test is proved over the bytes of its texts.

fn show<R: Read, W: Write>(alloc: Global, reader: &mut R, writer: &mut W) -> u8 {
    show_engine(alloc, reader, writer).code()
}

fn audit<R: Read, W: Write>(alloc: Global, reader: &mut R, writer: &mut W) -> u8 {
    audit_engine(alloc, reader, writer).code()
}

fn pack<W: Write>(alloc: Global, words: &[&str], writer: &mut W) -> u8 {
    pack_engine(alloc, words, writer).code()
}

fn replay<R: Read, T: Read, W: Write>(
    alloc: Global,
    reader: &mut R,
    timeline: &mut T,
    writer: &mut W,
) -> u8 {
    replay_engine(alloc, reader, timeline, writer).code()
}

#[test]
fn shows_a_job(rt: HostRuntime) {
    let mut out = Vec::new(rt.alloc());
    assert_eq!(rt; show(rt.alloc(), &mut EMPTY, &mut out), 0);
    assert_eq!(rt; out.as_slice(), b"packets 0\n".as_slice());
}

#[test]
fn a_reader_that_fails(rt: HostRuntime) {
    let mut out = Vec::new(rt.alloc());
    assert_eq!(rt; show(rt.alloc(), &mut Failing, &mut out), 9);
    assert_eq!(rt; out.as_slice(), b"file fault\n".as_slice());
}

#[test]
fn a_writer_that_fails(rt: HostRuntime) {
    assert_eq!(rt; show(rt.alloc(), &mut EMPTY, &mut Failing), 9);
    let words = ["and", "0", "none", "none", "9", "0", "0", "0", "0", "0"];
    assert_eq!(rt; pack(rt.alloc(), words.as_slice(), &mut Failing), 9);
}

/// A reader of one byte a turn that fails once its turns are over.
#[derive(Drop)]
struct FailsAfter<'a> {
    text: &'a [u8],
    turns: usize,
}

impl<'a> Read for FailsAfter<'a> {
    fn read(&mut self, buf: &mut [u8]) -> io::Result<usize> {
        if self.turns == 0 || buf.is_empty() {
            return Err(io::Error::from(io::ErrorKind::Interrupted));
        }
        self.turns -= 1;
        match self.text.split_first() {
            Some((byte, rest)) => {
                buf[0] = *byte;
                self.text = rest;
                Ok(1)
            }
            None => Ok(0),
        }
    }
}

/// A writer that fails once its turns are over.
#[derive(Drop)]
struct Full {
    turns: usize,
}

impl Write for Full {
    fn write(&mut self, buf: &[u8]) -> io::Result<usize> {
        if self.turns == 0 {
            return Err(io::Error::from(io::ErrorKind::WriteZero));
        }
        self.turns -= 1;
        Ok(buf.len())
    }

    fn flush(&mut self) -> io::Result<()> {
        Ok(())
    }
}

#[test]
fn a_reader_that_fails_at_each_turn(rt: HostRuntime) {
    for turns in 0..EMPTY.len() + 1 {
        let mut reader = FailsAfter { text: EMPTY, turns };
        let mut out = Vec::new(rt.alloc());
        assert_eq!(rt; audit(rt.alloc(), &mut reader, &mut out), 9);
        assert_eq!(rt; out.as_slice(), b"file fault\n".as_slice());
    }
    let turns = EMPTY.len() + 1;
    let mut reader = FailsAfter { text: EMPTY, turns };
    let mut out = Vec::new(rt.alloc());
    assert_eq!(rt; audit(rt.alloc(), &mut reader, &mut out), 0);
}

#[test]
fn a_writer_that_fails_at_each_write(rt: HostRuntime) {
    let mut done = false;
    for turns in 0..16 {
        let code = show(rt.alloc(), &mut EMPTY, &mut Full { turns });
        assert!(rt; code == 0 || (code == 9 && !done));
        done = code == 0;
    }
    assert!(rt; done);
}

#[test]
fn accepts_what_it_audits(rt: HostRuntime) -> Result<(), Fail> {
    let job = job_of(rt.alloc(), EMPTY)?;
    let Ok(accepted) = accept(&rt, rt.alloc(), job) else {
        return Err("a job without packets is ordered".into());
    };
    assert_eq!(rt; accepted.order().len(), 0);
    assert_eq!(rt; accepted.bound(), 0);
    Ok(())
}

#[test]
fn replays_a_timeline(rt: HostRuntime) {
    let mut out = Vec::new(rt.alloc());
    let mut timeline = b"hsat 1\nrest\nend\n".as_slice();
    assert_eq!(rt; replay(rt.alloc(), &mut EMPTY, &mut timeline, &mut out), 0);
    assert_eq!(rt; out.as_slice(), b"".as_slice());
}
