//! What the lines of a text left so far.

ghost use Rattle.std.specs.Prelude.{◌≡◌, ◌+◌, List, ℕ, [], ◌∷◌, ◌++◌, IfOk, IfErr, OnOk};
ghost use Rattle.hq_text.specs.Lines.{lines_of};
ghost use Rattle.hq_jobtext.specs.Answered.{no_memory};
ghost use Rattle.hq_tables.specs.Fits.{TablesFit};
ghost use Rattle.hq_jobtext.specs.SoFar.{HasFault, HasTaken, ReadOf, Steps, TakesAll};
ghost use Rattle.hq_jobtext.specs.DraftView.{so_far};
ghost use Rattle.hq_tables.specs.TablesView.{tables_of};

use crate::fault::JobFault;
use crate::reading::{NO_MEMORY, fault_at, finish, take_line, version_of};
use hq_job::Job;
use hq_lines::line_behind_end;
use hq_tables::{Reason, Tables};
use hq_text::first_line;
use std::alloc::Global;

/// Where the next line of a text stands: it is the first, one behind the first, or one behind the end.
#[derive(Clone, Copy, Debug, PartialEq, Eq)]
pub enum Place {
    Head,
    Content,
    Behind,
}

/// Takes in the first line, and says where the next one stands.
fn take_head(tables: &mut Tables, alloc: Global, line: &[u8]) -> Result<Place, Reason>
    requires { TablesFit (tables_of tables.old) }
    ensures fit { TablesFit (tables_of tables.new) }
    ensures steps { Steps result Place.Head (tables_of tables.old) line.now (tables_of tables.new) }
{
    let rings = version_of(line)?;
    *tables = Tables::new(alloc, rings);
    Ok(Place::Content)
}

/// Takes in a line behind the first, and says where the next one stands.
fn take_content(tables: &mut Tables, alloc: Global, line: &[u8]) -> Result<Place, Reason>
    requires { TablesFit (tables_of tables.old) }
    ensures fit { TablesFit (tables_of tables.new) }
    ensures steps { Steps result Place.Content (tables_of tables.old) line.now (tables_of tables.new) }
{
    match take_line(tables, alloc, line) {
        Ok(true) => Ok(Place::Behind),
        Ok(false) => Ok(Place::Content),
        Err(reason) => Err(reason),
    }
}

/// Takes in the line that stands at a place, and says where the next one stands. Behind the end none may.
fn take_at(place: Place, tables: &mut Tables, alloc: Global, line: &[u8]) -> Result<Place, Reason>
    requires { TablesFit (tables_of tables.old) }
    ensures fit { TablesFit (tables_of tables.new) }
    ensures steps { Steps result place (tables_of tables.old) line.now (tables_of tables.new) }
{
    match place {
        Place::Head => take_head(tables, alloc, line),
        Place::Content => take_content(tables, alloc, line),
        Place::Behind => Err(Reason::from(line_behind_end(line))),
    }
}

/// The number behind a line's.
fn next_number(line: usize) -> Result<usize, JobFault>
    ensures found { IfOk result (λ n. n ≡ line + 1) }
    ensures memory { IfErr result (λ f. f ≡ no_memory) }
{
    match line.checked_add(1) {
        Some(next) => Ok(next),
        None => Err(NO_MEMORY),
    }
}

/// The tables that the lines so far left, where the next one stands, and how many they are.
#[derive(Drop)]
pub struct Draft {
    place: Place,
    tables: Tables,
    count: usize,
}

impl Draft {
    /// Before the first line.
    pub fn new(alloc: Global) -> Draft
        ensures fit { TablesFit (tables_of result.tables) }
        ensures taken { HasTaken [] (so_far result) }
    {
        Draft {
            place: Place::Head,
            tables: Tables::new(alloc, false),
            count: 0,
        }
    }

    /// Takes in the next line.
    fn take_next(&mut self, alloc: Global, line: &[u8]) -> Result<(), JobFault>
        requires { TablesFit (tables_of self.old.tables) }
        ensures fit { TablesFit (tables_of self.new.tables) }
        ensures taken { OnOk result
            ((lines : List (List ℕ)) → HasTaken lines (so_far self.old)
            → HasTaken (lines ++ line.now ∷ []) (so_far self.new)) }
        ensures fault { IfErr result
            (λ f. (lines more : List (List ℕ)) → HasTaken lines (so_far self.old)
            → HasFault (lines ++ line.now ∷ more) f) }
    {
        let number = next_number(self.count)?;
        match take_at(self.place, &mut self.tables, alloc, line) {
            Ok(next) => {
                self.place = next;
                self.count = number;
                Ok(())
            }
            Err(reason) => Err(fault_at(number, reason)),
        }
    }

    /// Takes in all lines of a text, up to the first faulty one.
    pub fn take_lines(&mut self, alloc: Global, text: &[u8]) -> Result<(), JobFault>
        requires { TablesFit (tables_of self.old.tables) }
        ensures fit { TablesFit (tables_of self.new.tables) }
        ensures all { TakesAll result (so_far self.old) (lines_of text.now) (so_far self.new) }
    {
        let mut rest = text;
        while !rest.is_empty() {
            let (line, behind) = first_line(rest);
            self.take_next(alloc, line)?;
            rest = behind;
        }
        Ok(())
    }

    /// The job of a text that has come to its end, or what is wrong with it.
    pub fn finish(self, alloc: Global) -> Result<Job, JobFault>
        requires { TablesFit (tables_of self.tables) }
        ensures { (lines : List (List ℕ)) → HasTaken lines (so_far self) → ReadOf (λ j. j) result lines }
    {
        match self.place {
            Place::Behind => finish(alloc, self.count, self.tables),
            _ => Err(JobFault {
                line: next_number(self.count)?,
                reason: Reason::NoEnd,
            }),
        }
    }
}
