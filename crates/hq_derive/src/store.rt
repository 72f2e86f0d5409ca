//! The lines of a certificate in little memory.

ghost use Rattle.std.specs.Prelude.{◌≡◌, ◌<◌, ◌≤◌, ◌++◌, ◌∷◌, [], false, IfOk, IsTrue, OnOk, Some, length, map, slice_get};
ghost use Rattle.hq_cert.specs.View.{rule_of, line_of};
ghost use Rattle.hq_derive.specs.Needed.{IsNumber};
ghost use Rattle.hq_derive.specs.Short.{told, ArePlaced};
ghost use Rattle.hq_derive.specs.Through.{lines_by};

use crate::lone::Lone;
use crate::short::{NUMBERS, Short};
use crate::shorts::Shorts;
use crate::told::Told;
use hq_bits::WIDTH;
use hq_cert::{Line, Rule};
use std::alloc::{AllocError, Global};
use std::marker::Model;

/// How many lines there can be at most: as many as there are numbers to cite them by.
pub const LIMIT: usize = NUMBERS as usize;

/// Lines by number: in four bytes each as long as none cites another, and in eight from the first one on that does.
/// Contracts see the model's lines.
#[derive(Drop)]
pub struct Store {
    lone: Vec<Lone>,
    shorts: Shorts,
}

impl Model for Store {
    ghost use Rattle.std.specs.Prelude.{◌+◌, ◌≤◌, ◌++◌, List, length, map};
    ghost use Rattle.hq_model.specs.Certificate as model;
    ghost use Rattle.hq_derive.specs.Short.{lone_line};
    ghost use Rattle.hq_derive.specs.declared.store.TheConstants.{LIMIT};

    ghost Value = { List model.Line };

    ghost view = { λ s. map lone_line s.lone.items ++ s.shorts };

    ghost invariant = { λ s. length s.lone.items + length s.shorts ≤ LIMIT };
}

impl Store {
    /// No lines, with room for so many that cite no line.
    pub fn new(alloc: Global, lone: usize) -> Result<Store, AllocError>
        ensures { IfOk result (λ s. s ≡ []) }
    {
        let lone = Vec::with_capacity(alloc, lone)?;
        let shorts = Shorts::new(alloc);
        Ok(Store { lone, shorts })
    }

    /// How many there are.
    #[inline(always)]
    pub fn len(&self) -> usize
        ensures is { result ≡ length self.now }
        ensures few { result ≤ LIMIT }
    {
        self.lone.len() + self.shorts.len()
    }

    /// Adds a line.
    ///
    /// # Errors
    ///
    /// `AllocError` where there is no memory, where there are too many lines, or where twenty bits can't say what the
    /// line cites.
    #[inline(always)]
    pub fn push(&mut self, p: usize, r: usize, rule: Rule) -> Result<(), AllocError>
        requires p_is { p < WIDTH }
        requires r_is { r < WIDTH }
        ensures puts { OnOk result (self.new ≡ self.old ++ record { p = p; r = r; rule = rule_of rule } ∷ []) }
        ensures few { OnOk result (length self.old < LIMIT) }
    {
        if self.len() >= LIMIT {
            return Err(AllocError);
        }
        if self.shorts.len() == 0 {
            if let Some(line) = Lone::of(p, r, &rule) {
                self.lone.push(line)?;
                return Ok(());
            }
        }
        self.shorts.push(p, r, rule)
    }

    /// Adds these lines, none of which is that of a barrier-OR, unless there are too many, or a line that cites another is
    /// there; answers whether they are added.
    pub fn take(&mut self, alloc: Global, shorts: Vec<Short>) -> bool
        requires { ArePlaced [] shorts.items }
        ensures taken { IsTrue result → self.new ≡ self.old ++ lines_by shorts.items }
        ensures left { result ≡ false → self.new ≡ self.old }
    {
        if self.shorts.len() != 0 || shorts.len() > LIMIT - self.lone.len() {
            return false;
        }
        self.shorts = Shorts::of(alloc, shorts);
        true
    }

    /// Line k.
    #[inline(always)]
    pub fn line(&self, k: usize) -> Told<'_>
        requires { k < length self.now }
        ensures { slice_get self.now k ≡ Some (told result) }
    {
        if k < self.lone.len() {
            return Told::Made(self.lone[k].line());
        }
        self.shorts.line(k - self.lone.len())
    }

    /// Whether there is a line k that takes four bytes, and it says that p is before r.
    #[inline(always)]
    pub fn is_lone(&self, k: usize, p: usize, r: usize) -> bool
        ensures { IsTrue result → IsNumber self.now p r k }
    {
        match self.lone.get(k) {
            Some(line) => line.says(p, r),
            None => false,
        }
    }

    /// Whether there is a line k, and it says that p is before r.
    #[inline(always)]
    pub fn says(&self, k: usize, p: usize, r: usize) -> bool
        ensures { IsTrue result → IsNumber self.now p r k }
    {
        if k < self.lone.len() {
            return self.is_lone(k, p, r);
        }
        self.shorts.says(k - self.lone.len(), p, r)
    }

    /// All lines.
    ///
    /// # Errors
    ///
    /// `AllocError` where there is no memory.
    pub fn into_lines(self, alloc: Global) -> Result<Vec<Line>, AllocError>
        ensures { IfOk result (λ lines. map line_of lines.items ≡ self) }
    {
        let mut lines = Vec::with_capacity(alloc, self.len())?;
        for k in 0..self.len() {
            lines.push(self.line(k).into_line(alloc)?)?;
        }
        Ok(lines)
    }
}
