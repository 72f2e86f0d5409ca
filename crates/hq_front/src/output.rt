//! What a timeline is written to.

use std::fs::File;
use std::io;
use std::io::{Stdout, Write};

/// A file, or standard output.
#[derive(Drop)]
pub enum Output {
    File(File),
    Standard(Stdout),
}

impl Write for Output {
    fn write(&mut self, buf: &[u8]) -> io::Result<usize> {
        match self {
            Output::File(file) => file.write(buf),
            Output::Standard(stdout) => stdout.write(buf),
        }
    }

    fn flush(&mut self) -> io::Result<()> {
        match self {
            Output::File(file) => file.flush(),
            Output::Standard(stdout) => stdout.flush(),
        }
    }
}

/// The file of a path, made or emptied. Standard output is taken as it is: as a file of its own it would be written
/// from its start.
pub fn create(rt: &HostRuntime, path: &str) -> io::Result<Output> {
    if path == "/dev/stdout" {
        return Ok(Output::Standard(rt.stdout()));
    }
    Ok(Output::File(File::create(rt, path)?))
}
