//! A certificate as far as it is read.

ghost use Rattle.std.specs.Prelude.{◌≡◌, ◌↔◌, ◌&&◌, ◌+◌, ◌^◌, ◌<◌, ◌≤◌, true, false, map, length};
ghost use Rattle.std.specs.Prelude.{IfOk, IfErr, IfSome, IsTrue};
ghost use Rattle.hq_certread.specs.LineTests.{head_said, order_said};
ghost use Rattle.hq_certread.specs.TextFaults.{start, add_head, add_order, add_line, add_pair, add_end, add_behind};
ghost use Rattle.hq_certread.specs.TextFaults.{add_content, added, is_ended, read_of};
ghost use Rattle.hq_cert.specs.View.{line_of, pair_of};
ghost use Rattle.hq_certread.specs.DraftView.{kept_of, state_of, without_lines};
ghost use Rattle.hq_certread.specs.Gives.{Gives};
ghost use Rattle.hq_certread.specs.OnePass.{TakenFrom};
ghost use Rattle.hq_certread.specs.declared.draft.Stage.{Stage};

use crate::fault::CertReason;
use crate::leading::{leading_lines, leading_pairs};
use crate::operands::numbers_said;
use crate::pairs::pair_said;
use crate::rules::line_said;
use crate::threes::Threes;
use hq_cert::{Certificate, Line, Pair};
use hq_model::PACKETS;
use std::alloc::Global;

/// What may come next.
#[derive(Clone, Copy, Debug, PartialEq, Eq)]
pub enum Stage {
    Head,
    Order,
    Lines,
    Pairs,
    Ended,
}

/// A certificate as far as it is read: what is left of its lines, behind those that were let go, and of its pair lines.
#[derive(Drop)]
pub struct Draft {
    stage: Stage,
    chained: bool,
    order: Vec<u32>,
    gone: usize,
    lines: Vec<Line>,
    pairs: Vec<Pair>,
}

/// Whether chained pair lines may stand, by the first line.
#[tactic(auto, unfolding(crate::specs::LineTests::head_said))]
fn head_said(words: &[&[u8]]) -> Result<bool, CertReason>
    ensures { result ≡ head_said (map (λ w. w.now) words.now) }
{
    match words {
        [name, version] if *name == b"hsac".as_slice() && *version == b"1".as_slice() => Ok(false),
        [name, version] if *name == b"hsac".as_slice() && *version == b"2".as_slice() => Ok(true),
        _ => Err(CertReason::Word),
    }
}

#[tactic(auto, unfolding(crate::specs::LineTests::order_said))]
fn order_said(alloc: Global, words: &[&[u8]]) -> Result<Vec<u32>, CertReason>
    ensures { Gives (λ v. v.items) result (order_said (map (λ w. w.now) words.now)) }
{
    let Some((name, numbers)) = words.split_first() else {
        return Err(CertReason::Word);
    };
    if *name == b"order".as_slice() && numbers.len() <= PACKETS {
        numbers_said(alloc, numbers)
    } else {
        Err(CertReason::Word)
    }
}

impl Draft {
    /// The draft before the first line.
    pub fn new(alloc: Global) -> Draft
        ensures start { state_of result ≡ start }
        ensures gone { result.gone ≡ 0 }
    {
        Draft {
            stage: Stage::Head,
            chained: false,
            order: Vec::new(alloc),
            gone: 0,
            lines: Vec::new(alloc),
            pairs: Vec::new(alloc),
        }
    }

    /// What may come next.
    pub fn stage(&self) -> Stage
        ensures { result ≡ self.now.stage }
    {
        self.stage
    }

    /// How many lines were read, where that can be said.
    fn count(&self) -> Option<usize>
        ensures { IfSome result (λ n. n ≡ length (state_of self.now).lines) }
    {
        self.gone.checked_add(self.lines.len())
    }

    /// The same as the number of a line, where 32 bits can say it: behind 2^32 lines no more can come, but pair
    /// lines and the end can.
    pub fn number(&self) -> Option<u32>
        ensures { IfSome result (λ n. n ≡ length (state_of self.now).lines) }
    {
        let count = self.count()?;
        if count <= 4_294_967_295 {
            Some(count as u32)
        } else {
            None
        }
    }

    #[tactic(auto, unfolding(crate::specs::TextFaults::add_head))]
    fn add_head(&mut self, words: &[&[u8]]) -> Result<(), CertReason>
        ensures adds { Gives (λ u. state_of self.new) result
            (add_head (state_of self.old) (map (λ w. w.now) words.now)) }
        ensures gone { self.new.gone ≡ self.old.gone }
    {
        self.chained = head_said(words)?;
        self.stage = Stage::Order;
        Ok(())
    }

    #[tactic(auto, unfolding(crate::specs::TextFaults::add_order))]
    fn add_order(&mut self, alloc: Global, words: &[&[u8]]) -> Result<(), CertReason>
        ensures adds { Gives (λ u. state_of self.new) result
            (add_order (state_of self.old) (map (λ w. w.now) words.now)) }
        ensures gone { self.new.gone ≡ self.old.gone }
    {
        self.order = order_said(alloc, words)?;
        self.stage = Stage::Lines;
        Ok(())
    }

    #[tactic(auto, unfolding(crate::specs::TextFaults::add_line))]
    fn add_line(&mut self, alloc: Global, words: &[&[u8]]) -> Result<(), CertReason>
        ensures adds { Gives (λ u. state_of self.new) result
            (add_line (state_of self.old) (map (λ w. w.now) words.now)) }
        ensures gone { self.new.gone ≡ self.old.gone }
    {
        let Some(number) = self.number() else {
            return Err(CertReason::Memory);
        };
        let line = line_said(alloc, number, words)?;
        self.lines.push(line)?;
        self.stage = Stage::Lines;
        Ok(())
    }

    #[tactic(auto, unfolding(crate::specs::TextFaults::add_pair))]
    fn add_pair(&mut self, alloc: Global, words: &[&[u8]]) -> Result<(), CertReason>
        ensures adds { Gives (λ u. state_of self.new) result
            (add_pair (state_of self.old) (map (λ w. w.now) words.now)) }
        ensures gone { self.new.gone ≡ self.old.gone }
    {
        let Some(count) = self.count() else {
            return Err(CertReason::Memory);
        };
        let pair = pair_said(alloc, self.chained, count, words)?;
        self.pairs.push(pair)?;
        self.stage = Stage::Pairs;
        Ok(())
    }

    #[tactic(auto, unfolding(crate::specs::TextFaults::add_end))]
    fn add_end(&mut self, words: &[&[u8]]) -> Result<(), CertReason>
        ensures adds { Gives (λ u. state_of self.new) result
            (add_end (state_of self.old) (map (λ w. w.now) words.now)) }
        ensures gone { self.new.gone ≡ self.old.gone }
    {
        match words {
            [] => {
                self.stage = Stage::Ended;
                Ok(())
            }
            _ => Err(CertReason::Word),
        }
    }

    /// A pair line or the end.
    #[tactic(auto, unfolding(crate::specs::TextFaults::add_behind))]
    fn add_behind(
        &mut self,
        alloc: Global,
        first: &[u8],
        others: &[&[u8]],
    ) -> Result<(), CertReason>
        ensures adds { Gives (λ u. state_of self.new) result
            (add_behind (state_of self.old) first.now (map (λ w. w.now) others.now)) }
        ensures gone { self.new.gone ≡ self.old.gone }
    {
        if first == b"pair".as_slice() {
            self.add_pair(alloc, others)
        } else if first == b"end".as_slice() {
            self.add_end(others)
        } else {
            Err(CertReason::Word)
        }
    }

    /// What stands behind the order, in a place where lines may stand still, or no more.
    #[tactic(auto, unfolding(crate::specs::TextFaults::add_content))]
    fn add_content(&mut self, alloc: Global, lines: bool, words: &[&[u8]]) -> Result<(), CertReason>
        ensures adds { Gives (λ u. state_of self.new) result
            (add_content lines (state_of self.old) (map (λ w. w.now) words.now)) }
        ensures gone { self.new.gone ≡ self.old.gone }
    {
        let Some((first, others)) = words.split_first() else {
            return Err(CertReason::Word);
        };
        if *first == b"line".as_slice() && lines {
            self.add_line(alloc, others)
        } else {
            self.add_behind(alloc, first, others)
        }
    }

    /// Takes in the next line, by its words.
    #[tactic(auto, unfolding(crate::specs::TextFaults::added))]
    pub fn add(&mut self, alloc: Global, words: &[&[u8]]) -> Result<(), CertReason>
        ensures adds { Gives (λ u. state_of self.new) result (added (state_of self.old) (map (λ w. w.now) words.now)) }
        ensures gone { self.new.gone ≡ self.old.gone }
    {
        match self.stage {
            Stage::Head => self.add_head(words),
            Stage::Order => self.add_order(alloc, words),
            Stage::Lines => self.add_content(alloc, true, words),
            Stage::Pairs => self.add_content(alloc, false, words),
            Stage::Ended => Err(CertReason::Word),
        }
    }

    /// Takes in the lines that a text begins with, up to one that isn't in a common form. Answers how many they
    /// are, and what is left.
    fn take_lines<'a>(
        &mut self,
        threes: &Threes,
        text: &'a [u8],
    ) -> Result<(usize, &'a [u8]), CertReason>
        requires { self.old.stage ≡ Stage.Lines }
        ensures taken { IfOk result (λ t. TakenFrom text.now t.1.now t.0 (state_of self.old) (state_of self.new)) }
        ensures gone { self.new.gone ≡ self.old.gone }
        ensures memory { IfErr result (λ e. e ≡ CertReason.Memory) }
    {
        let Some(before) = self.number() else {
            return Ok((0, text));
        };
        let taken = leading_lines(threes, before, text, &mut self.lines)?;
        Ok(taken)
    }

    /// The same of pair lines.
    fn take_pairs<'a>(
        &mut self,
        threes: &Threes,
        text: &'a [u8],
    ) -> Result<(usize, &'a [u8]), CertReason>
        requires { self.old.stage ≡ Stage.Pairs }
        ensures taken { IfOk result (λ t. TakenFrom text.now t.1.now t.0 (state_of self.old) (state_of self.new)) }
        ensures gone { self.new.gone ≡ self.old.gone }
        ensures memory { IfErr result (λ e. e ≡ CertReason.Memory) }
    {
        let Some(before) = self.number() else {
            return Ok((0, text));
        };
        let taken = leading_pairs(threes, before, text, &mut self.pairs)?;
        Ok(taken)
    }

    /// Takes in the lines that a text begins with, as long as they are in a common form. Answers how many they are,
    /// and what is left.
    #[tactic(auto, using(crate::proofs::Taking::none_taken_from))]
    pub fn take<'a>(
        &mut self,
        threes: &Threes,
        text: &'a [u8],
    ) -> Result<(usize, &'a [u8]), CertReason>
        ensures taken { IfOk result (λ t. TakenFrom text.now t.1.now t.0 (state_of self.old) (state_of self.new)) }
        ensures gone { self.new.gone ≡ self.old.gone }
        ensures memory { IfErr result (λ e. e ≡ CertReason.Memory) }
    {
        match self.stage {
            Stage::Lines => self.take_lines(threes, text),
            Stage::Pairs => self.take_pairs(threes, text),
            _ => Ok((0, text)),
        }
    }

    /// The lines that were read and weren't let go.
    pub fn lines(&self) -> &[Line]
        ensures { map line_of result.now ≡ (kept_of self.now).lines }
    {
        &self.lines
    }

    /// The pair lines that were read and weren't let go.
    pub fn pairs(&self) -> &[Pair]
        ensures { map pair_of result.now ≡ (kept_of self.now).pairs }
    {
        &self.pairs
    }

    /// Whether this may come next, behind so many lines.
    pub fn awaits(&self, next: Stage, before: u32) -> bool
        ensures { IsTrue result
            ↔ ((self.now.stage ≡ next) × (self.now.gone + length (kept_of self.now).lines ≡ before)) }
    {
        let before = before as usize;
        self.stage == next && self.gone <= before && self.lines.len() == before - self.gone
    }

    /// Counts more lines among those that were let go, if their number can be said; else all stays as it was.
    pub fn pass(&mut self, lines: usize) -> bool
        ensures passed { IsTrue result
            → (self.new.gone ≡ self.old.gone + lines) × (self.new.stage ≡ self.old.stage)
            × (kept_of self.new ≡ kept_of self.old) }
        ensures full { result ≡ false → (self.new ≡ self.old) × (2 ^ 64 ≤ self.old.gone + lines) }
    {
        match self.gone.checked_add(lines) {
            Some(gone) => {
                self.gone = gone;
                true
            }
            None => false,
        }
    }

    /// Lets the lines and the pair lines go that were read, if the lines' number can be said; else all stays as it was.
    pub fn let_go(&mut self) -> bool
        ensures gone { IsTrue result
            → (self.new.gone ≡ self.old.gone + length (kept_of self.old).lines)
            × (kept_of self.new ≡ without_lines (kept_of self.old)) }
        ensures full { result ≡ false
            → (self.new ≡ self.old) × (2 ^ 64 ≤ self.old.gone + length (kept_of self.old).lines) }
    {
        let lines = self.lines.len();
        if !self.pass(lines) {
            return false;
        }
        self.lines.clear();
        self.pairs.clear();
        true
    }

    /// Whether the end was read.
    pub fn is_ended(&self) -> bool
        ensures { result ≡ is_ended (state_of self.now) }
    {
        matches!(self.stage, Stage::Ended)
    }

    /// What was read and wasn't let go.
    pub fn certificate(self) -> Certificate
        ensures { result ≡ read_of (kept_of self) }
    {
        Certificate::new(self.order, self.lines, self.pairs)
    }
}
