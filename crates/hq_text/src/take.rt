//! Whole texts from readers.

ghost use Rattle.std.specs.Prelude.{◌≡◌, ℕ, ◌≤◌, ◌⊎◌, List, ◌++◌, IfOk, IfErr, IfSome};
ghost use Rattle.std.specs.Io.KnownBytes.{Consumes, IsAtEnd};
ghost use Rattle.hq_text.specs.Turns.{Turn, ComesTo, Ends, Fails, Passes, ReadTurn};

use std::alloc::{AllocError, Global};
use std::io::Read;
use thiserror::Error;

/// Why no text came.
#[derive(Clone, Copy, Debug, PartialEq, Eq, Error)]
pub enum TextFault {
    #[error("the reader failed, or passed its turns")]
    Read,
    #[error("out of memory")]
    Memory,
}

/// How often a reader is asked at most.
pub const TURNS: u32 = 2_000_000;

/// How many bytes a reader is asked for in a turn.
pub const TURN_LEN: usize = 512;

/// What is asked for bytes, turn by turn: every reader is.
pub trait Source {
    // What one turn may do.
    ghost Turned: { Turn Self };

    /// How many bytes a turn gave, 0 at the end, or none where it failed.
    fn turn(&mut self, buffer: &mut [u8; TURN_LEN]) -> Option<usize>
        ensures bound { IfSome result (λ n. n ≤ TURN_LEN) }
        ensures turned { Turned self.old result buffer.new self.new };
}

impl<R: Read> Source for R {
    ghost Turned = { ReadTurn R.remaining };

    fn turn(&mut self, buffer: &mut [u8; TURN_LEN]) -> Option<usize> {
        self.read(buffer).ok()
    }
}

/// What turns of a source came to.
#[derive(Clone, Copy, Debug, PartialEq, Eq)]
pub enum Came {
    /// Each gave a byte or more, so that more may follow.
    More,
    /// The last one found the source at its end.
    End,
    /// The last one failed.
    Failed,
}

/// Puts what a source gives in so many turns, or up to its end, behind a text.
///
/// # Errors
///
/// `AllocError` where there is no memory. The source is asked on then, and what it gives is lost.
pub fn read_on<S: Source>(
    source: &mut S,
    turns: u32,
    text: &mut Vec<u8>,
) -> (Came, Result<(), AllocError>)
    ensures { (given : List ℕ) × ComesTo S S.Turned turns source.old given source.new result.0
        × IfOk result.1 (λ _. text.new.items ≡ text.old.items ++ given) }
{
    let mut buffer = [0; TURN_LEN];
    let mut kept = Ok(());
    for _turn in 0..turns {
        let Some(count) = source.turn(&mut buffer) else {
            return (Came::Failed, kept);
        };
        if count == 0 {
            return (Came::End, kept);
        }
        if kept.is_ok() {
            kept = text.extend_from_slice(&buffer[..count]);
        }
    }
    (Came::More, kept)
}

/// Asks a source in so many turns, or up to its end, and keeps nothing of what it gives.
pub fn pass_over<S: Source>(source: &mut S, turns: u32) -> Came
    ensures { (given : List ℕ) × ComesTo S S.Turned turns source.old given source.new result }
{
    let mut buffer = [0; TURN_LEN];
    for _turn in 0..turns {
        match source.turn(&mut buffer) {
            None => return Came::Failed,
            Some(0) => return Came::End,
            Some(_) => {}
        }
    }
    Came::More
}

/// All that a source gives up to its end.
fn take_turns<S: Source>(alloc: Global, source: &mut S) -> Result<Vec<u8>, TextFault>
    ensures taken { IfOk result (λ text. Ends S S.Turned TURNS source.old text.items source.new) }
    ensures failed { IfErr result
        (λ e. e ≡ TextFault.Read
        → Fails S S.Turned TURNS source.old source.new ⊎ Passes S S.Turned TURNS source.old source.new) }
{
    let mut text = Vec::new(alloc);
    let mut buffer = [0; TURN_LEN];
    for _turn in 0..TURNS {
        let Some(count) = source.turn(&mut buffer) else {
            return Err(TextFault::Read);
        };
        if count == 0 {
            return Ok(text);
        }
        if text.extend_from_slice(&buffer[..count]).is_err() {
            return Err(TextFault::Memory);
        }
    }
    Err(TextFault::Read)
}

/// All that a reader has left, in at most 2,000,000 turns of at most 512 bytes. An error of any kind, `Interrupted`
/// too, is `TextFault::Read`, and so is the last turn without an end.
///
/// # Errors
///
/// `Read` where the reader failed or passed its turns; `Memory`.
pub fn take_text<R: Read>(alloc: Global, reader: &mut R) -> Result<Vec<u8>, TextFault>
    ensures turned { IfOk result (λ text. Ends R (ReadTurn R.remaining) TURNS reader.old text.items reader.new) }
    ensures taken { IfOk result (λ text. Consumes (R.remaining reader.old) (R.remaining reader.new) text.items) }
    ensures ended { IfOk result (λ text. IsAtEnd (R.remaining reader.new)) }
    ensures failed { IfErr result
        (λ e. e ≡ TextFault.Read
        → Fails R (ReadTurn R.remaining) TURNS reader.old reader.new
        ⊎ Passes R (ReadTurn R.remaining) TURNS reader.old reader.new) }
{
    take_turns(alloc, reader)
}
