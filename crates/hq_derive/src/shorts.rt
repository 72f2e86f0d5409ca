//! Lines by any rule, in eight bytes each.

ghost use Rattle.std.specs.Prelude.{◌≡◌, ◌<◌, ◌≤◌, ◌+◌, ◌++◌, ◌∷◌, [], IsTrue, OnOk};
ghost use Rattle.std.specs.Prelude.{Some, length, map, slice_get};
ghost use Rattle.hq_cert.specs.View.{rule_of};
ghost use Rattle.hq_model.specs.Certificate.{Says};
ghost use Rattle.hq_derive.specs.Short.{told, ArePlaced, PutsLine, StayPlaced};
ghost use Rattle.hq_derive.specs.Through.{lines_by};

use crate::short::{FORMS, NUMBERS, Short, THROUGH};
use crate::told::Told;
use hq_bits::WIDTH;
use hq_cert::{Branches, Line, Rule};
use std::alloc::{AllocError, Global};
use std::marker::Model;

/// Lines by number, in eight bytes each. Those of barrier-ORs, which cite a line for each dependency, are kept as they
/// are. Contracts see the model's lines.
#[derive(Drop)]
pub struct Shorts {
    shorts: Vec<Short>,
    kept: Vec<Line>,
}

impl Model for Shorts {
    ghost use Rattle.std.specs.Prelude.{List, map};
    ghost use Rattle.hq_model.specs.Certificate as model;
    ghost use Rattle.hq_derive.specs.Short.{line_in, ArePlaced};

    ghost Value = { List model.Line };

    ghost view = { λ s. map (line_in s.kept.items) s.shorts.items };

    ghost invariant = { λ s. ArePlaced s.kept.items s.shorts.items };
}

/// Adds a line of this form.
#[inline(always)]
fn put(
    shorts: &mut Vec<Short>,
    form: u64,
    p: usize,
    r: usize,
    first: u32,
    second: u32,
) -> Result<(), AllocError>
    requires form { form < FORMS }
    requires p_is { p < WIDTH }
    requires r_is { r < WIDTH }
    ensures puts { OnOk result (PutsLine form p r first second shorts.old.items shorts.new.items) }
    ensures placed { StayPlaced form first shorts.old.items shorts.new.items }
    ensures few { length shorts.new.items ≤ length shorts.old.items + 1 }
{
    if first as u64 >= NUMBERS || second as u64 >= NUMBERS {
        return Err(AllocError);
    }
    shorts.push(Short::new(form, p, r, first, second))?;
    Ok(())
}

impl Shorts {
    /// No lines.
    pub fn new(alloc: Global) -> Shorts
        ensures { result ≡ [] }
    {
        Shorts {
            shorts: Vec::new(alloc),
            kept: Vec::new(alloc),
        }
    }

    /// These lines, none of which is that of a barrier-OR.
    pub fn of(alloc: Global, shorts: Vec<Short>) -> Shorts
        requires { ArePlaced [] shorts.items }
        ensures { result ≡ lines_by shorts.items }
    {
        Shorts {
            shorts,
            kept: Vec::new(alloc),
        }
    }

    /// How many there are.
    pub fn len(&self) -> usize
        ensures { result ≡ length self.now }
    {
        self.shorts.len()
    }

    /// Adds the line of a barrier-OR.
    #[cold]
    #[inline(never)]
    fn keep(&mut self, p: usize, r: usize, branches: Box<Branches>) -> Result<(), AllocError>
        requires p_is { p < WIDTH }
        requires r_is { r < WIDTH }
        ensures puts { OnOk result
            (self.new ≡ self.old ++ record { p = p; r = r; rule = rule_of (Rule.Or branches) } ∷ []) }
        ensures few { length self.new ≤ length self.old + 1 }
    {
        let number = self.kept.len();
        if number as u64 >= NUMBERS {
            return Err(AllocError);
        }
        self.kept.push(Line {
            p: p as u32,
            r: r as u32,
            rule: Rule::Or(branches),
        })?;
        put(&mut self.shorts, 4, p, r, number as u32, 0)
    }

    /// Adds a line.
    ///
    /// # Errors
    ///
    /// `AllocError` where there is no memory, or where twenty bits can't say what the line cites.
    #[inline(always)]
    pub fn push(&mut self, p: usize, r: usize, rule: Rule) -> Result<(), AllocError>
        requires p_is { p < WIDTH }
        requires r_is { r < WIDTH }
        ensures puts { OnOk result (self.new ≡ self.old ++ record { p = p; r = r; rule = rule_of rule } ∷ []) }
        ensures few { length self.new ≤ length self.old + 1 }
    {
        match rule {
            Rule::Bit(packet) => put(&mut self.shorts, 0, p, r, packet, 0),
            Rule::Queue => put(&mut self.shorts, 1, p, r, 0, 0),
            Rule::And(slot) => put(&mut self.shorts, 2, p, r, slot, 0),
            Rule::Through(first, second) => put(&mut self.shorts, THROUGH, p, r, first, second),
            Rule::Or(branches) => self.keep(p, r, branches),
        }
    }

    /// Line k.
    #[inline(always)]
    pub fn line(&self, k: usize) -> Told<'_>
        requires { k < length self.now }
        ensures { slice_get self.now k ≡ Some (told result) }
    {
        let short = self.shorts[k];
        let rule = match short.form() {
            0 => Rule::Bit(short.first()),
            1 => Rule::Queue,
            2 => Rule::And(short.first()),
            3 => Rule::Through(short.first(), short.second()),
            _ => return Told::Kept(&self.kept[short.first() as usize]),
        };
        Told::Made(Line {
            p: short.p(),
            r: short.r(),
            rule,
        })
    }

    /// Whether there is a line k, and it says that p is before r.
    #[inline(always)]
    pub fn says(&self, k: usize, p: usize, r: usize) -> bool
        ensures { IsTrue result → Says self.now (length self.now) k p r }
    {
        match self.shorts.get(k) {
            None => false,
            Some(short) if short.form() < 4 => short.is_of(p, r),
            Some(_) => self.line(k).says(p, r),
        }
    }
}
