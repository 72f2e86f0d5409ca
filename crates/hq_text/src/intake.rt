//! Texts that are taken in line by line, while they come.

ghost use Rattle.std.specs.Prelude.{◌≡◌, ℕ, ◌+◌, ◌<◌, ◌≤◌, ◌⊎◌, ◌++◌, List, [], length, take, IfOk, IfErr, IfSome};
ghost use Rattle.std.specs.Prelude.{◌≢◌, MatchOption, OnOk, Some, slice_get};
ghost use Rattle.hq_text.specs.Intake.{EndsLine, FaultOf, HasRead, Holds, IsWhole, OfText, Stays, TakenOf};
ghost use Rattle.hq_text.specs.Lines.{lines_of};
ghost use Rattle.hq_text.specs.Turns.{Fails, Passes};

use crate::take::{Source, TURN_LEN, TURNS};
use memchr::memrchr;
use std::alloc::Global;
use std::error::Error;
use std::fmt;

/// How many bytes wait, until the whole lines of them are taken in.
const ENOUGH: usize = 65_536;

/// Why a reader's text wasn't taken in.
#[derive(Clone, Copy, Debug, PartialEq, Eq)]
pub enum ReadFault<F> {
    Reader,
    Text(F),
}

impl<F: fmt::Display> fmt::Display for ReadFault<F> {
    fn fmt<W: fmt::Write>(&self, f: &mut fmt::Formatter<W>) -> fmt::Result {
        match self {
            ReadFault::Reader => write!(f, "the reader failed, or passed its turns"),
            ReadFault::Text(fault) => write!(f, "{fault}"),
        }
    }
}

impl<F: fmt::Debug + fmt::Display + Drop> Error for ReadFault<F> {}

/// What takes in the lines of a text, one behind another, up to the first faulty one.
pub trait TakesLines: Drop {
    /// What is wrong with a text, and where.
    type Fault: Drop;

    // Behind the first, which has taken in nothing yet, these lines were taken in, and leave the second.
    ghost Took: { Self → List (List ℕ) → Self → Type 0 };

    // This is what is wrong with a text of these lines, unless memory ran out.
    ghost Refuses: { List (List ℕ) → Self.Fault → Type 0 };

    /// Takes in all lines of a text, behind those that were taken in. What is wrong with them, is so whatever lines
    /// follow.
    fn take_lines(&mut self, alloc: Global, text: &[u8]) -> Result<(), Self::Fault>
        ensures took { OnOk result
            ((from : Self) (lines : List (List ℕ)) → Took from lines self.old
            → Took from (lines ++ lines_of text.now) self.new) }
        ensures fault { IfErr result
            (λ f. (from : Self) (lines more : List (List ℕ)) → Took from lines self.old
            → Refuses (lines ++ (lines_of text.now ++ more)) f) };

    /// That there is no memory.
    fn no_memory() -> Self::Fault
        ensures { (lines : List (List ℕ)) → Refuses lines result };
}

/// A text as far as it came: what took in its first lines, and the text behind them, which waits.
#[derive(Drop)]
struct Progress<L> {
    taker: L,
    waiting: Vec<u8>,
}

/// Where the last line of a piece ends.
fn last_feed(piece: &[u8]) -> Option<usize>
    ensures ends { IfSome result (λ at. (at < length piece.now) × EndsLine (take (at + 1) piece.now)) }
    ensures last { MatchOption result ((k : ℕ) → slice_get piece.now k ≢ Some 10)
        (λ at. (k : ℕ) → at < k → slice_get piece.now k ≢ Some 10) }
{
    memrchr(b'\n', piece)
}

/// How many bytes of a text are whole lines: those up to its last line feed.
pub fn whole_lines(text: &[u8]) -> usize
    ensures within { result ≤ length text.now }
    ensures whole { IsWhole (take result text.now) }
    ensures all { (k : ℕ) → result ≤ k → slice_get text.now k ≢ Some 10 }
{
    match last_feed(text) {
        Some(at) => at + 1,
        None => 0,
    }
}

impl<L: TakesLines> Progress<L> {
    /// Before the first line.
    fn new(alloc: Global, taker: L) -> Progress<L>
        requires { L.Took taker [] taker }
        ensures { Holds (L.Took taker) result [] }
    {
        Progress {
            taker,
            waiting: Vec::new(alloc),
        }
    }

    /// Lets a piece wait.
    fn hold(&mut self, piece: &[u8]) -> Result<(), L::Fault>
        ensures held { OnOk result
            ((from : L) (text : List ℕ) → Holds (L.Took from) self.old text
            → Holds (L.Took from) self.new (text ++ piece.now)) }
        ensures memory { IfErr result (λ f. (lines : List (List ℕ)) → L.Refuses lines f) }
    {
        match self.waiting.extend_from_slice(piece) {
            Ok(()) => Ok(()),
            Err(_) => Err(L::no_memory()),
        }
    }

    /// Takes in what waits.
    fn take_waiting(&mut self, alloc: Global) -> Result<(), L::Fault>
        ensures taken { OnOk result
            ((from : L) (text : List ℕ) → Holds (L.Took from) self.old text
            → L.Took from (lines_of text) self.new.taker) }
        ensures none { OnOk result (self.new.waiting.items ≡ []) }
        ensures fault { IfErr result
            (λ f. (from : L) (text : List ℕ) → Holds (L.Took from) self.old text → L.Refuses (lines_of text) f) }
        ensures stays { IfErr result
            (λ f. (from : L) (text : List ℕ) → EndsLine text → Holds (L.Took from) self.old text
            → Stays (λ lines. L.Refuses lines f) text) }
    {
        self.taker.take_lines(alloc, &self.waiting)?;
        self.waiting.clear();
        Ok(())
    }

    /// Takes in whole lines, the last of which ends a piece.
    fn take_whole(&mut self, alloc: Global, piece: &[u8]) -> Result<(), L::Fault>
        requires { EndsLine piece.now }
        ensures taken { OnOk result
            ((from : L) (text : List ℕ) → Holds (L.Took from) self.old text
            → Holds (L.Took from) self.new (text ++ piece.now)) }
        ensures fault { IfErr result
            (λ f. (from : L) (text : List ℕ) → Holds (L.Took from) self.old text
            → Stays (λ lines. L.Refuses lines f) (text ++ piece.now)) }
    {
        self.hold(piece)?;
        self.take_waiting(alloc)
    }

    /// Takes in a piece that ends a line behind so many bytes.
    fn take_cut(&mut self, alloc: Global, piece: &[u8], whole: usize) -> Result<(), L::Fault>
        requires within { whole ≤ length piece.now }
        requires ends { EndsLine (take whole piece.now) }
        ensures taken { OnOk result
            ((from : L) (text : List ℕ) → Holds (L.Took from) self.old text
            → Holds (L.Took from) self.new (text ++ piece.now)) }
        ensures fault { IfErr result
            (λ f. (from : L) (text : List ℕ) → Holds (L.Took from) self.old text
            → Stays (λ lines. L.Refuses lines f) (text ++ piece.now)) }
    {
        let (front, rest) = piece.split_at(whole);
        self.take_whole(alloc, front)?;
        self.hold(rest)
    }

    /// Takes in the next piece of the text. Where enough waits, its whole lines are taken in.
    fn take(&mut self, alloc: Global, piece: &[u8]) -> Result<(), L::Fault>
        ensures taken { OnOk result
            ((from : L) (text : List ℕ) → Holds (L.Took from) self.old text
            → Holds (L.Took from) self.new (text ++ piece.now)) }
        ensures fault { IfErr result
            (λ f. (from : L) (text : List ℕ) → Holds (L.Took from) self.old text
            → Stays (λ lines. L.Refuses lines f) (text ++ piece.now)) }
    {
        if self.waiting.len() < ENOUGH {
            return self.hold(piece);
        }
        match last_feed(piece) {
            Some(at) => self.take_cut(alloc, piece, at + 1),
            None => self.hold(piece),
        }
    }

    /// What took in the text, which has come to its end.
    fn finish(mut self, alloc: Global) -> Result<L, L::Fault>
        ensures { (from : L) (text : List ℕ) → Holds (L.Took from) self text
            → TakenOf (L.Took from) L.Refuses result (lines_of text) }
    {
        self.take_waiting(alloc)?;
        Ok(self.taker)
    }
}

/// What was read so far: a text without a fault, or its first fault. Behind that nothing of the text is held, nor
/// what took it in.
#[derive(Drop)]
enum Reading<L, F> {
    Taking(Progress<L>),
    Faulty(F),
}

impl<L: TakesLines> Reading<L, L::Fault> {
    /// Before the first byte.
    fn new(alloc: Global, taker: L) -> Reading<L, L::Fault>
        requires { L.Took taker [] taker }
        ensures { HasRead (L.Took taker) L.Refuses result [] }
    {
        Reading::Taking(Progress::new(alloc, taker))
    }

    /// Takes in the next piece of the text. Where it is faulty, what took in the lines before it is let go.
    fn take(&mut self, alloc: Global, piece: &[u8])
        ensures { (from : L) (text : List ℕ) → HasRead (L.Took from) L.Refuses self.old text
            → HasRead (L.Took from) L.Refuses self.new (text ++ piece.now) }
    {
        let Reading::Taking(progress) = self else {
            return;
        };
        if let Err(fault) = progress.take(alloc, piece) {
            *self = Reading::Faulty(fault);
        }
    }

    /// What took in the text, which has come to its end, or what is wrong with the text.
    fn finish(self, alloc: Global) -> Result<L, L::Fault>
        ensures { (from : L) (text : List ℕ) → HasRead (L.Took from) L.Refuses self text
            → TakenOf (L.Took from) L.Refuses result (lines_of text) }
    {
        match self {
            Reading::Taking(progress) => progress.finish(alloc),
            Reading::Faulty(fault) => Err(fault),
        }
    }
}

/// What took in all lines that a source gives up to its end. Of the text no more is held than what waits for the
/// end of its line, and some 64 KiB; behind the first faulty line nothing is, and what took in the lines before it
/// is let go: the source is only asked on to its end.
///
/// # Errors
///
/// What is wrong with the text, or that the source failed or passed its turns, which is told also behind a faulty line.
pub fn read_lines<S: Source, L: TakesLines>(
    alloc: Global,
    source: &mut S,
    taker: L,
) -> Result<L, ReadFault<L::Fault>>
    requires { L.Took taker [] taker }
    ensures taken { IfOk result
        (λ l. OfText S S.Turned TURNS source.old source.new (λ text. L.Took taker (lines_of text) l)) }
    ensures fault { IfErr result
        (λ e. FaultOf e (λ f. OfText S S.Turned TURNS source.old source.new (λ text. L.Refuses (lines_of text) f))
        (Fails S S.Turned TURNS source.old source.new ⊎ Passes S S.Turned TURNS source.old source.new)) }
{
    let mut reading = Reading::new(alloc, taker);
    let mut buffer = [0; TURN_LEN];
    for _turn in 0..TURNS {
        let Some(count) = source.turn(&mut buffer) else {
            return Err(ReadFault::Reader);
        };
        if count == 0 {
            return reading.finish(alloc).map_err(ReadFault::Text);
        }
        reading.take(alloc, &buffer[..count]);
    }
    Err(ReadFault::Reader)
}
