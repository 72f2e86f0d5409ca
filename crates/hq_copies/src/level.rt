//! What one agent or one lane holds.

ghost use Rattle.std.specs.Prelude.{◌≡◌, is_some, ℕ, ◌+◌, ◌<◌, ◌^◌, ◌↔◌, if◌then◌else◌, true, false, Some};
ghost use Rattle.std.specs.Prelude.{None, IsTrue, IfOk, OnOk, OnErr, MatchOption, length, slice_index};
ghost use Rattle.std.specs.FinMap as finite;
ghost use Rattle.hq_model.specs.Machine.{value_or};
ghost use Rattle.hq_copies.specs.Copies.{a_copy, dirty_only, IsClean, IsDirty, IsAbsent, NoneDirty, IsFirstDirty};
ghost use Rattle.hq_copies.specs.Copies.{cleaned, taken, written};
ghost use Rattle.hq_copies.specs.Edges.{layered};
ghost use Rattle.hq_copies.specs.Marks.{AreRuns, byte_of};
ghost use Rattle.hq_copies.specs.Overlays.{run_at, dirty_over};

use crate::runs::Runs;
use std::alloc::{AllocError, Global};
use std::marker::Model;

/// A byte that is held, and whether it is still to be written back.
#[derive(Clone, Copy)]
pub struct Byte {
    /// The byte.
    pub value: u8,
    /// Whether it is still to be written back.
    pub dirty: bool,
}

/// The bytes that one agent or one lane holds: a map from their numbers to copies.
#[derive(Drop)]
pub struct Level {
    // Clean bytes, of numbers that the upper ones may have too: then the upper ones count.
    lower: Runs,
    upper: Runs,
    // Whether the upper bytes are dirty ones.
    dirty: bool,
}

impl Model for Level {
    ghost use Rattle.hq_model.specs.View.{Held};
    ghost use Rattle.hq_copies.specs.Copies.{held_code};

    ghost Value = { Held };

    ghost coded = { held_code };

    ghost use Rattle.hq_copies.specs.Levels.{level_of, IsLevelOf};

    ghost view = { level_of };

    ghost invariant = { IsLevelOf };
}

impl Level {
    /// Nothing is held.
    pub fn new(alloc: Global) -> Self
        ensures { result ≡ finite.empty }
    {
        Level {
            lower: Runs::new(alloc),
            upper: Runs::new(alloc),
            dirty: false,
        }
    }

    /// What is held of a number.
    pub fn get(&self, number: u32) -> Option<Byte>
        ensures { MatchOption result (finite.get self.now number ≡ None)
            (λ b. finite.get self.now number ≡ Some (a_copy b.value b.dirty)) }
    {
        match self.upper.get(number) {
            Some(value) => Some(Byte {
                value,
                dirty: self.dirty,
            }),
            None => {
                let value = self.lower.get(number)?;
                Some(Byte {
                    value,
                    dirty: false,
                })
            }
        }
    }

    /// The dirty byte that is held of a number.
    pub fn dirty_byte(&self, number: u32) -> Option<u8>
        ensures { MatchOption result (IsDirty (finite.get self.now number) → ⊥)
            (λ b. finite.get self.now number ≡ Some (a_copy b true)) }
    {
        let byte = self.get(number)?;
        if byte.dirty { Some(byte.value) } else { None }
    }

    /// Whether a clean byte is held of a number.
    pub fn is_clean(&self, number: u32) -> bool
        ensures { IsTrue result ↔ IsClean (finite.get self.now number) }
    {
        match self.get(number) {
            Some(byte) => !byte.dirty,
            None => false,
        }
    }

    /// Whether a byte is held of a number.
    pub fn holds(&self, number: u32) -> bool
        ensures { result ≡ is_some (finite.get self.now number) }
    {
        self.get(number).is_some()
    }

    /// Whether nothing is held of a number.
    pub fn is_absent(&self, number: u32) -> bool
        ensures { IsTrue result ↔ IsAbsent (finite.get self.now number) }
    {
        match self.get(number) {
            Some(_) => false,
            None => true,
        }
    }

    /// The byte that is seen here, where the one below is this.
    pub fn value_or(&self, number: u32, below: u8) -> u8
        ensures { result ≡ value_or (finite.get self.now number) below }
    {
        match self.get(number) {
            Some(byte) => byte.value,
            None => below,
        }
    }

    /// Whether no byte is dirty.
    pub fn has_no_dirty(&self) -> bool
        ensures { IsTrue result ↔ NoneDirty self.now }
    {
        self.first_dirty().is_none()
    }

    /// Holds a number's byte as a dirty one.
    pub fn set_dirty(&mut self, number: u32, byte: u8) -> Result<(), AllocError>
        requires { number + 1 < 2 ^ 32 }
        ensures ok { OnOk result (self.new ≡ finite.insert self.old number (a_copy byte true)) }
        ensures err { OnErr result (self.new ≡ self.old) }
    {
        settle(&mut self.lower, &mut self.upper, self.dirty)?;
        self.dirty = true;
        self.upper.reserve()?;
        self.upper.set(number, byte);
        Ok(())
    }

    /// Holds the bytes of the numbers from start on as dirty ones: all of them or none.
    pub fn set_run(&mut self, start: u32, bytes: &[u8]) -> Result<(), AllocError>
        requires { start + length bytes.now < 2 ^ 32 }
        ensures ok { OnOk result
            ((n : ℕ) → finite.get self.new n ≡ dirty_over (run_at start bytes.now n) (finite.get self.old n)) }
        ensures err { OnErr result (self.new ≡ self.old) }
    {
        settle(&mut self.lower, &mut self.upper, self.dirty)?;
        self.dirty = true;
        self.upper.put(start, bytes)?;
        Ok(())
    }

    /// Holds a number's byte as a clean one.
    pub fn set_clean(&mut self, number: u32, byte: u8) -> Result<(), AllocError>
        requires { number + 1 < 2 ^ 32 }
        ensures ok { OnOk result (self.new ≡ finite.insert self.old number (a_copy byte false)) }
        ensures err { OnErr result (self.new ≡ self.old) }
    {
        self.upper.reserve_run()?;
        self.lower.reserve()?;
        self.upper.remove(number);
        self.lower.set(number, byte);
        Ok(())
    }

    /// Holds a number's byte as a clean one, and the level below holds it as a dirty one.
    pub fn push(&mut self, below: &mut Level, number: u32, byte: u8) -> Result<(), AllocError>
        requires { number + 1 < 2 ^ 32 }
        ensures ok { OnOk result (self.new ≡ finite.insert self.old number (a_copy byte false)) }
        ensures below { OnOk result (below.new ≡ finite.insert below.old number (a_copy byte true)) }
        ensures err { OnErr result (self.new ≡ self.old) }
        ensures below_err { OnErr result (below.new ≡ below.old) }
    {
        self.upper.reserve_run()?;
        self.lower.reserve()?;
        below.set_dirty(number, byte)?;
        self.upper.remove(number);
        self.lower.set(number, byte);
        Ok(())
    }

    /// Lets a clean byte go.
    pub fn drop_clean(&mut self, number: u32) -> Result<(), AllocError>
        requires { number + 1 < 2 ^ 32 }
        ensures ok { OnOk result (self.new ≡ finite.remove self.old number) }
        ensures err { OnErr result (self.new ≡ self.old) }
    {
        self.upper.reserve_run()?;
        self.lower.reserve_run()?;
        self.upper.remove(number);
        self.lower.remove(number);
        Ok(())
    }

    /// Lets all clean bytes go.
    pub fn keep_dirty(&mut self)
        ensures { self.new ≡ dirty_only self.old }
    {
        self.lower.clear();
        if self.dirty {
            return;
        }
        self.upper.clear();
    }

    /// All dirty bytes become clean.
    pub fn mark_clean(&mut self)
        ensures { (n : ℕ) → finite.get self.new n ≡ cleaned (finite.get self.old n) }
    {
        self.dirty = false;
    }

    /// The level below takes all dirty bytes in.
    pub fn push_into(&self, below: &mut Level) -> Result<(), AllocError>
        ensures { OnOk result
            ((n : ℕ) → finite.get below.new n ≡ taken (finite.get self.now n) (finite.get below.old n)) }
    {
        if !self.dirty {
            return Ok(());
        }
        let mut left = self.upper.all();
        'runs: while let Some(run) = left.first_run() {
            below.set_run(run.start, run.bytes)?;
            left = run.behind;
        }
        Ok(())
    }

    /// Writes all dirty bytes into memory, where it has so many bytes.
    pub fn write_to(&self, memory: &mut [u8])
        ensures { (n : ℕ) → n < length memory.old
            → slice_index memory.new n ≡ written (finite.get self.now n) (slice_index memory.old n) }
    {
        if self.dirty {
            self.upper.write_to(0, memory);
        }
    }

    /// Writes the bytes that are held over those of the slice, which begins at a number.
    pub fn write_over(&self, from: u32, bytes: &mut [u8])
        ensures { (i : ℕ) → i < length bytes.old
            → slice_index bytes.new i ≡ value_or (finite.get self.now (from + i)) (slice_index bytes.old i) }
    {
        self.lower.write_to(from, bytes);
        self.upper.write_to(from, bytes);
    }

    /// The first dirty byte's number.
    pub fn first_dirty(&self) -> Option<u32>
        ensures { MatchOption result (NoneDirty self.now) (λ b. IsFirstDirty self.now b) }
    {
        if !self.dirty {
            return None;
        }
        self.upper.first()
    }

    /// An equal value.
    pub fn copy(&self) -> Result<Level, AllocError>
        ensures { IfOk result (λ level. level ≡ self.now) }
    {
        Ok(Level {
            lower: self.lower.copy()?,
            upper: self.upper.copy()?,
            dirty: self.dirty,
        })
    }
}

// Makes upper bytes that are clean lower ones, so that dirty ones can be put among them.
fn settle(lower: &mut Runs, upper: &mut Runs, dirty: bool) -> Result<(), AllocError>
    requires lower { AreRuns lower.old }
    requires upper { AreRuns upper.old }
    ensures lower { AreRuns lower.new }
    ensures upper { AreRuns upper.new }
    ensures ok { OnOk result
        ((n : ℕ) → layered true (byte_of upper.new n) (byte_of lower.new n) ≡ layered dirty (byte_of upper.old n)
        (byte_of lower.old n)) }
    ensures err { OnErr result
        ((n : ℕ) → layered dirty (byte_of upper.new n) (byte_of lower.new n) ≡ layered dirty (byte_of upper.old n)
        (byte_of lower.old n)) }
{
    if dirty || upper.is_empty() {
        return Ok(());
    }
    let mut below = lower.copy()?;
    below.put_all(upper)?;
    *lower = below;
    upper.clear();
    Ok(())
}
