//! A chunk of a certificate's text.

ghost use Rattle.std.specs.Prelude.{◌≡◌, [], List, None, map, length};
ghost use Rattle.hq_job.specs.Plan.{plan};
ghost use Rattle.hq_model.specs.Certificate as model;
ghost use Rattle.hq_certread.specs.Ahead.{lines_ahead};
ghost use Rattle.hq_certcheck.specs.Concluded.{conclusion_of};
ghost use Rattle.hq_certcheck.specs.Listed.{BadLineOf};
ghost use Rattle.hq_judging.specs.Checking.{IsHeld, block_of};
ghost use Rattle.hq_judging.specs.Chunks.{IsLookedAt};

use crate::checking::Checking;
use hq_certcheck::{first_bad_line, first_bad_pair};
use hq_certread::Ahead;
use std::alloc::Global;

/// What is known of a chunk of a certificate's text: how long it is, what was read of it ahead, and the packets of the
/// first pair line of that which doesn't hold. Lines of the certificate that were read are held until the next look, by
/// when all that they cite came; then it is known of them too which is the first that doesn't hold.
#[derive(Drop)]
pub struct Chunk {
    pub len: usize,
    pub ahead: Ahead,
    pub bad_pair: Option<(u32, u32)>,
    pub bad_line: Option<usize>,
}

impl Chunk {
    /// Of an empty chunk, of which nothing was read.
    pub fn new(alloc: Global) -> Chunk
        ensures len { result.len ≡ 0 }
        ensures none { lines_ahead result.ahead ≡ [] }
        ensures bad { (result.bad_pair ≡ None) × (result.bad_line ≡ None) }
    {
        Chunk {
            len: 0,
            ahead: Ahead::new(alloc),
            bad_pair: None,
            bad_line: None,
        }
    }

    /// Checks the lines that are held, and reads ahead what a chunk begins with, behind what was taken in by then, and
    /// checks its pair lines.
    pub fn look(&mut self, checking: &Checking, text: &[u8])
        ensures judged { (lines : List model.Line) → map conclusion_of lines ≡ checking.now.seen.lines
            → IsHeld lines self.old → BadLineOf (plan checking.now.job) lines (block_of self.old) self.new.bad_line }
        ensures looked { IsLookedAt (plan checking.now.job) checking.now text.now self.new }
        ensures len { self.new.len ≡ length text.now }
    {
        let lines = checking.seen.lines();
        let from = self.ahead.before() as usize;
        self.bad_line = first_bad_line(&checking.job, lines, from, self.ahead.lines());
        self.len = text.len();
        checking.progress.read_ahead(text, &mut self.ahead);
        self.bad_pair = first_bad_pair(&checking.job, lines, self.ahead.pairs());
    }
}
