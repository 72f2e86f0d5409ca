//! Certificates that several threads read and check, chunk by chunk, while more of the text is read.

ghost use Rattle.std.specs.Prelude.{◌≡◌, ℕ, ◌≤◌, ◌<◌, [], ◌∷◌, ◌++◌, List, length, map, take, IfOk, IfErr, OnOk};
ghost use Rattle.hq_job.specs.Plan.{plan};
ghost use Rattle.hq_text.specs.Intake.{IsWhole};
ghost use Rattle.hq_text.specs.Lines.{lines_of};
ghost use Rattle.hq_text.specs.Turns.{ComesTo};
ghost use Rattle.hq_certread.specs.SoFar.{HasFault};
ghost use Rattle.hq_certread.specs.Ahead.{IsAhead};
ghost use Rattle.hq_certcheck.specs.Concluded.{conclusion_of};
ghost use Rattle.hq_certcheck.specs.Listed.{BadLineOf};
ghost use Rattle.hq_model.specs.Certificate as model;
ghost use Rattle.hq_judging.specs.Checking.{FinishedOf, HasChecked, HasCheckedBut, IsHeld, StaysSaid, block_of};
ghost use Rattle.hq_judging.specs.Chunks.{AreLookedAt, IsLookedAt, HasWaiting, ReadsOn, WereJudged};

use crate::checking::{Checking, ReadCertificate};
use crate::chunk::Chunk;
use hq_certread::{CertFault, Progress};
use hq_text::{Came, Source, TakesLines, read_on, whole_lines};
use std::alloc::{AllocError, Global};
use std::mem::swap;
use std::thread::{Threads, join_mut};

/// How many bytes are worth more threads than one.
const ENOUGH: usize = 262_144;

/// How many threads there are at most beside the caller's.
const MOST: usize = 16;

/// How long the first of so many chunks of a text is: they are of whole lines, and about as long as each other.
fn first_of(text: &[u8], chunks: usize) -> usize
    requires { 0 < chunks }
    ensures within { result ≤ length text.now }
    ensures whole { IsWhole (take result text.now) }
{
    whole_lines(&text[..text.len() / chunks])
}

/// Looks at chunks of a text, each in a thread of its own, and does something else in this one meanwhile. All threads
/// are started here: a runtime can't be handed on to another thread.
#[cycle(chunks)]
fn look_meanwhile<R: Threads, A, F: FnMut() -> A>(
    rt: &R,
    checking: &Checking,
    text: &[u8],
    chunks: &mut [Chunk],
    meanwhile: &mut F,
) -> A
    requires { F.pre meanwhile.old }
    ensures judged { WereJudged (plan checking.now.job) checking.now chunks.old chunks.new }
    ensures looked { AreLookedAt (plan checking.now.job) checking.now chunks.new text.now }
    ensures done { F.step meanwhile.old result meanwhile.new }
{
    let count = chunks.len();
    let Some((chunk, others)) = chunks.split_first_mut() else {
        return meanwhile();
    };
    let (first, rest) = text.split_at(first_of(text, count));
    let mut beside = ||
        ensures { IsLookedAt (plan checking.entry.now.job) checking.entry.now first.entry.now chunk.exit.now
            × (chunk.exit.now.len ≡ length first.entry.now)
            × ((lines : List model.Line) → map conclusion_of lines ≡ checking.entry.now.seen.lines
            → IsHeld lines chunk.entry.now
            → BadLineOf (plan checking.entry.now.job) lines (block_of chunk.entry.now) chunk.exit.now.bad_line) }
    { chunk.look(checking, first) };
    let mut here = || -> A
        requires { F.pre meanwhile.now }
        ensures { AreLookedAt (plan checking.entry.now.job) checking.entry.now others.exit.now rest.entry.now
            × F.step meanwhile.entry.now result meanwhile.exit.now
            × WereJudged (plan checking.entry.now.job) checking.entry.now others.entry.now others.exit.now }
    { look_meanwhile(rt, checking, rest, others, meanwhile) };
    join_mut(rt, &mut beside, &mut here).1
}

impl Checking {
    /// Takes in a chunk: what was read of it ahead at once, and the rest of it line by line. Lines that were read ahead
    /// are left to be checked.
    fn take_chunk(&mut self, alloc: Global, text: &[u8], chunk: &mut Chunk) -> Result<(), CertFault>
        requires { IsAhead text.now chunk.old.ahead }
        ensures took { OnOk result
            ((at from : Checking) (chunks : List Chunk) (lines : List (List ℕ))
            → IsLookedAt (plan from.job) at text.now chunk.old → StaysSaid at self.old
            → HasCheckedBut from chunks lines self.old
            → HasCheckedBut from (chunks ++ chunk.new ∷ []) (lines ++ lines_of text.now) self.new
            × StaysSaid at self.new) }
        ensures fault { IfErr result
            (λ f. (at from : Checking) (chunks : List Chunk) (lines more : List (List ℕ))
            → IsLookedAt (plan from.job) at text.now chunk.old → StaysSaid at self.old
            → HasCheckedBut from chunks lines self.old → HasFault (lines ++ (lines_of text.now ++ more)) f) }
    {
        match self.progress.pass(&chunk.ahead)? {
            Some(at) => {
                if self.seen.conclude(chunk.ahead.lines()).is_err() {
                    return Err(Progress::no_memory());
                }
                let pairs = chunk.ahead.pairs();
                if self.seen.put(alloc, pairs, chunk.bad_pair).is_err() {
                    return Err(Progress::no_memory());
                }
                self.take_text(alloc, text.split_at(at).1)
            }
            None => {
                chunk.ahead.clear();
                self.take_text(alloc, text)
            }
        }
    }

    /// Takes in a text, the chunks that it begins with first, one behind another.
    fn take_chunks(
        &mut self,
        alloc: Global,
        text: &[u8],
        chunks: &mut [Chunk],
    ) -> Result<(), CertFault>
        requires { AreLookedAt (plan self.old.job) self.old chunks.old text.now }
        ensures took { OnOk result
            ((from : Checking) (lines : List (List ℕ)) → HasChecked from lines self.old
            → HasCheckedBut from chunks.new (lines ++ lines_of text.now) self.new) }
        ensures fault { IfErr result
            (λ f. (from : Checking) (lines more : List (List ℕ)) → HasChecked from lines self.old
            → HasFault (lines ++ (lines_of text.now ++ more)) f) }
    {
        let mut rest = text;
        for chunk in chunks.iter_mut() {
            let (first, behind) = rest.split_at(chunk.len);
            self.take_chunk(alloc, first, chunk)?;
            rest = behind;
        }
        self.take_text(alloc, rest)
    }

    /// Takes in which of the lines that chunks held don't hold, as the last look at them found.
    fn note(&mut self, chunks: &[Chunk])
        ensures noted { (from : Checking) (olds : List Chunk) (lines : List (List ℕ))
            → HasCheckedBut from olds lines self.old → WereJudged (plan self.old.job) self.old olds chunks.now
            → HasChecked from lines self.new }
        ensures job { self.new.job ≡ self.old.job }
        ensures progress { self.new.progress ≡ self.old.progress }
        ensures lines { self.new.seen.lines ≡ self.old.seen.lines }
    {
        for chunk in chunks {
            self.seen.note(chunk.bad_line);
        }
    }

    /// Takes in a text, which threads look at first where it is long, and does something else while they do.
    fn take_meanwhile<R: Threads, A, F: FnMut() -> A>(
        &mut self,
        rt: &R,
        alloc: Global,
        text: &[u8],
        chunks: &mut [Chunk],
        meanwhile: &mut F,
    ) -> (A, Result<(), CertFault>)
        requires { F.pre meanwhile.old }
        ensures done { F.step meanwhile.old result.0 meanwhile.new }
        ensures took { OnOk result.1
            ((from : Checking) (lines : List (List ℕ)) → HasCheckedBut from chunks.old lines self.old
            → HasCheckedBut from chunks.new (lines ++ lines_of text.now) self.new) }
        ensures fault { IfErr result.1
            (λ f. (from : Checking) (lines more : List (List ℕ)) → HasCheckedBut from chunks.old lines self.old
            → HasFault (lines ++ (lines_of text.now ++ more)) f) }
    {
        if text.len() < ENOUGH {
            return (meanwhile(), self.take_text(alloc, text));
        }
        let answer = look_meanwhile(rt, self, text, chunks, meanwhile);
        self.note(chunks);
        (answer, self.take_chunks(alloc, text, chunks))
    }

    /// Checks the lines that chunks hold.
    fn check_held<R: Threads>(&mut self, rt: &R, chunks: &mut [Chunk])
        ensures { (from : Checking) (lines : List (List ℕ)) → HasCheckedBut from chunks.old lines self.old
            → HasChecked from lines self.new }
    {
        let mut nothing = || {};
        look_meanwhile(rt, self, &[], chunks, &mut nothing);
        self.note(chunks);
    }
}

/// What was read of a certificate and checked, and the text behind that, which waits; what is known of chunks of it,
/// one for each thread; and where the text behind it is put.
#[derive(Drop)]
pub struct Chunks {
    checking: Checking,
    waiting: Vec<u8>,
    /// How many bytes at the front of what waits have no line feed, as far as that was looked at.
    searched: usize,
    chunks: Vec<Chunk>,
    next: Vec<u8>,
}

impl Chunks {
    /// Before the first byte, for so many threads beside the caller's. Where there is no memory, there are fewer.
    pub fn new(alloc: Global, checking: Checking, threads: usize) -> Chunks
        ensures { HasChecked checking [] checking → HasWaiting checking [] result }
    {
        let mut chunks = Vec::new(alloc);
        for _thread in 0..threads.min(MOST) {
            if chunks.push(Chunk::new(alloc)).is_err() {
                break;
            }
        }
        Chunks {
            checking,
            waiting: Vec::new(alloc),
            searched: 0,
            chunks,
            next: Vec::new(alloc),
        }
    }

    /// How many bytes of what waits are whole lines. What was looked at and has no line feed isn't looked at again, so
    /// that a line that doesn't end takes no longer than others.
    fn whole_waiting(&self) -> usize
        ensures within { result ≤ length self.now.waiting.items }
        ensures whole { IsWhole (take result self.now.waiting.items) }
    {
        let searched = self.searched.min(self.waiting.len());
        let more = whole_lines(&self.waiting[searched..]);
        if more > 0 { searched + more } else { 0 }
    }

    /// Reads on in so many turns, and takes nothing in.
    fn wait_on<S: Source>(&mut self, source: &mut S, turns: u32) -> (Came, Result<(), CertFault>)
        ensures { (given : List ℕ) × ComesTo S S.Turned turns source.old given source.new result.0
            × ReadsOn self.old given result.1 self.new }
    {
        self.searched = self.waiting.len();
        let (came, kept) = read_on(source, turns, &mut self.waiting);
        match kept {
            Ok(()) => (came, Ok(())),
            Err(_) => (came, Err(Checking::no_memory())),
        }
    }

    /// Takes in the whole lines that wait, and reads on meanwhile, in so many turns.
    ///
    /// # Errors
    ///
    /// `CertFault` with the first faulty line of the text, or that there is no memory, at line 0. It is to be dropped
    /// then.
    pub fn step<R: Threads, S: Source>(
        &mut self,
        rt: &R,
        alloc: Global,
        source: &mut S,
        turns: u32,
    ) -> (Came, Result<(), CertFault>)
        ensures { (given : List ℕ) × ComesTo S S.Turned turns source.old given source.new result.0
            × ReadsOn self.old given result.1 self.new }
    {
        let whole = self.whole_waiting();
        if whole == 0 {
            return self.wait_on(source, turns);
        }
        let (lines, rest) = self.waiting.split_at(whole);
        self.searched = rest.len();
        self.next.clear();
        let held = self.next.extend_from_slice(rest);
        let next = &mut self.next;
        let mut read = || -> (Came, Result<(), AllocError>)
            ensures { (given : List ℕ)
                × ComesTo S S.Turned turns source.entry.now given source.exit.now result.0
                × IfOk result.1 (λ _. next.exit.now.items ≡ next.entry.now.items ++ given) }
        { read_on(source, turns, next) };
        let ((came, kept), taken) = self
            .checking
            .take_meanwhile(rt, alloc, lines, &mut self.chunks, &mut read);
        if held.is_err() || kept.is_err() {
            return (came, Err(Checking::no_memory()));
        }
        swap(&mut self.waiting, &mut self.next);
        (came, taken)
    }

    /// The certificate of the text, which has come to its end, or what is wrong with it.
    ///
    /// # Errors
    ///
    /// `CertFault` with the first faulty line of the text, or that there is no memory, at line 0.
    pub fn finish<R: Threads>(self, rt: &R, alloc: Global) -> Result<ReadCertificate, CertFault>
        ensures { (from : Checking) (text : List ℕ) → HasWaiting from text self
            → FinishedOf from result (lines_of text) }
    {
        let Chunks {
            mut checking,
            waiting,
            mut chunks,
            ..
        } = self;
        let mut nothing = || {};
        let (_, taken) = checking.take_meanwhile(rt, alloc, &waiting, &mut chunks, &mut nothing);
        taken?;
        checking.check_held(rt, &mut chunks);
        checking.finish()
    }
}
