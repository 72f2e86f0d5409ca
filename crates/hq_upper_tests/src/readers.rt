//! Readers that give a text in pieces.

use std::io;
use std::io::Read;

/// A reader of so many bytes a turn, that fails once its turns are over.
#[derive(Drop)]
pub struct Pieces<'a> {
    text: &'a [u8],
    len: usize,
    turns: usize,
}

impl<'a> Pieces<'a> {
    pub fn new(text: &'a [u8], len: usize, turns: usize) -> Pieces<'a> {
        Pieces { text, len, turns }
    }
}

impl<'a> Read for Pieces<'a> {
    fn read(&mut self, buf: &mut [u8]) -> io::Result<usize> {
        if self.turns == 0 {
            return Err(io::Error::from(io::ErrorKind::Interrupted));
        }
        self.turns -= 1;
        let count = self.len.min(self.text.len()).min(buf.len());
        let (piece, rest) = self.text.split_at(count);
        for (place, byte) in buf.iter_mut().zip(piece) {
            *place = *byte;
        }
        self.text = rest;
        Ok(count)
    }
}
