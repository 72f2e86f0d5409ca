//! What a job is read from.

use std::fs::File;
use std::io;
use std::io::{BufReader, Read, Stdin};

/// How many bytes of a job are asked for at once. Most jobs are shorter: of more, more would be cleared for nothing.
const OF_JOB: usize = 16_384;

/// How many bytes of another file are: certificates and timelines are long.
const OF_FILE: usize = 65_536;

/// How many bytes are asked for at the least.
const LEAST: usize = 1_024;

/// A file, or standard input.
#[derive(Drop)]
pub enum Input {
    File(File),
    Standard(Stdin),
}

impl Read for Input {
    fn read(&mut self, buf: &mut [u8]) -> io::Result<usize> {
        match self {
            Input::File(file) => file.read(buf),
            Input::Standard(stdin) => stdin.read(buf),
        }
    }
}

/// How many bytes of a file are asked for at once: as many as it has, but no more than these. What has no length of its
/// own, as a pipe, says that it has none.
fn capacity_for(file: &File, most: usize) -> usize {
    match file.metadata() {
        Ok(known) if known.len() > 0 && known.len() < most as u64 => {
            LEAST.max(known.len() as usize)
        }
        _ => most,
    }
}

/// The file of a path, of which no more than so many bytes are asked for at once.
fn buffered(rt: &HostRuntime, path: &str, most: usize) -> io::Result<BufReader<Input>> {
    let file = File::open(rt, path)?;
    let capacity = capacity_for(&file, most);
    BufReader::with_capacity(rt.alloc(), capacity, Input::File(file))
}

/// The file of a path.
pub fn open_file(rt: &HostRuntime, path: &str) -> io::Result<BufReader<Input>> {
    buffered(rt, path, OF_FILE)
}

/// The job's file of a path, or standard input for `@`.
pub fn open(rt: &HostRuntime, path: &str) -> io::Result<BufReader<Input>> {
    if path == "@" {
        return BufReader::with_capacity(rt.alloc(), OF_JOB, Input::Standard(rt.stdin()));
    }
    buffered(rt, path, OF_JOB)
}
