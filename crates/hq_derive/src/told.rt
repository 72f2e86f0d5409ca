//! Lines, as they are told to who asks for them.

ghost use Rattle.std.specs.Prelude.{◌≡◌, ◌↔◌, IfOk, IsTrue};
ghost use Rattle.hq_cert.specs.View.{line_of};
ghost use Rattle.hq_derive.specs.Short.{told};

use hq_cert::{Branches, Line, Rule};
use std::alloc::{AllocError, Global};

/// A line: made for who asks for it, or kept where it stands.
#[derive(Drop)]
pub enum Told<'a> {
    Made(Line),
    Kept(&'a Line),
}

/// The same citations once more.
fn copied(alloc: Global, branches: &Branches) -> Result<Box<Branches>, AllocError>
    ensures { IfOk result (λ b. b.value.citations.items ≡ branches.now.citations.items) }
{
    let mut citations = Vec::new(alloc);
    citations.extend_from_slice(&branches.citations)?;
    Ok(Box::new(alloc, Branches { citations })?)
}

/// The same line once more.
fn copy_of(alloc: Global, line: &Line) -> Result<Line, AllocError>
    ensures { IfOk result (λ copy. line_of copy ≡ line_of line.now) }
{
    let rule = match &line.rule {
        Rule::Bit(packet) => Rule::Bit(*packet),
        Rule::Queue => Rule::Queue,
        Rule::And(slot) => Rule::And(*slot),
        Rule::Through(first, second) => Rule::Through(*first, *second),
        Rule::Or(branches) => Rule::Or(copied(alloc, branches)?),
    };
    Ok(Line {
        p: line.p,
        r: line.r,
        rule,
    })
}

impl Told<'_> {
    /// The line.
    #[inline(always)]
    pub fn line(&self) -> &Line
        ensures { line_of result.now ≡ told self.now }
    {
        match self {
            Told::Made(line) => line,
            Told::Kept(line) => line,
        }
    }

    /// The packet that it says is before another, and that one.
    #[inline(always)]
    pub fn packets(&self) -> (usize, usize)
        ensures { (result.0 ≡ (told self.now).p) × (result.1 ≡ (told self.now).r) }
    {
        let line = self.line();
        (line.p as usize, line.r as usize)
    }

    /// Whether it says that p is before r.
    #[inline(always)]
    pub fn says(&self, p: usize, r: usize) -> bool
        ensures { IsTrue result ↔ (((told self.now).p ≡ p) × ((told self.now).r ≡ r)) }
    {
        let (first, second) = self.packets();
        first == p && second == r
    }

    /// The line, for good.
    ///
    /// # Errors
    ///
    /// `AllocError` where there is no memory.
    pub fn into_line(self, alloc: Global) -> Result<Line, AllocError>
        ensures { IfOk result (λ line. line_of line ≡ told self.entry) }
    {
        match self {
            Told::Made(line) => Ok(line),
            Told::Kept(line) => copy_of(alloc, line),
        }
    }
}
