//! Texts to journals.

ghost use Rattle.std.specs.Prelude.{◌≡◌, ◌+◌, ◌⊎◌, List, ℕ, length, IfOk, IfErr};
ghost use Rattle.hq_text.specs.LineByLine.{AdmitsAll};
ghost use Rattle.hq_text.specs.Lines.{lines_of, words_of};
ghost use Rattle.hq_events.specs.declared.event.Event.{Event};
ghost use Rattle.hq_timeline.specs.DraftView.{state_of};
ghost use Rattle.hq_timeline.specs.Gives.{Gives, GivesJournal, HasFault, ReadOf, TakesAll, no_memory};
ghost use Rattle.hq_timeline.specs.Grammar.{TimeText};
ghost use Rattle.hq_timeline.specs.TextFaults.{at_line};
ghost use Rattle.hq_timeline.specs.TextStates.{added, start};

use crate::draft::Draft;
use crate::fault::{TimeFault, TimeReason};
use crate::words::Words;
use hq_machine::Journal;
use hq_text::first_line;
use std::alloc::Global;

/// Out of memory, told of line 0.
pub const NO_MEMORY: TimeFault = TimeFault {
    line: 0,
    reason: TimeReason::Memory,
};

/// A fault at a line, or out of memory at line 0.
fn fault_at(line: usize, reason: TimeReason) -> TimeFault
    ensures { ((reason ≡ TimeReason.Memory) × (result ≡ no_memory))
        ⊎ ((¬ (reason ≡ TimeReason.Memory)) × (result ≡ at_line line reason)) }
{
    match reason {
        TimeReason::Memory => NO_MEMORY,
        _ => TimeFault { line, reason },
    }
}

/// Takes in the next line.
fn take_line(draft: &mut Draft, line: &[u8]) -> Result<(), TimeReason>
    ensures { Gives (λ u. state_of draft.new) result (added (state_of draft.old) (words_of line.now)) }
{
    draft.add(Words::of_line(line))
}

/// So many lines more.
fn counted(count: usize, more: usize) -> Result<usize, TimeFault>
    ensures found { IfOk result (λ n. n ≡ count + more) }
    ensures memory { IfErr result (λ f. f ≡ no_memory) }
{
    match count.checked_add(more) {
        Some(sum) => Ok(sum),
        None => Err(NO_MEMORY),
    }
}

/// Takes in all lines of a text, behind so many. Answers how many there are then.
pub fn take_lines(draft: &mut Draft, before: usize, text: &[u8]) -> Result<usize, TimeFault>
    ensures { TakesAll result before (lines_of text.now) (state_of draft.old) (state_of draft.new) }
{
    let mut rest = text;
    let mut count = before;
    while !rest.is_empty() {
        let (taken, left) = match draft.take(rest) {
            Ok(found) => found,
            Err(reason) => return Err(fault_at(count, reason)),
        };
        count = counted(count, taken)?;
        if left.is_empty() {
            return Ok(count);
        }
        let (line, behind) = first_line(left);
        count = counted(count, 1)?;
        if let Err(reason) = take_line(draft, line) {
            return Err(fault_at(count, reason));
        }
        rest = behind;
    }
    Ok(count)
}

/// The journal of a text of so many lines, all of them taken in; or that it has no end.
pub fn finished(draft: Draft, count: usize) -> Result<Journal, TimeFault>
    ensures { (lines : List (List ℕ)) → count ≡ length lines → AdmitsAll added start lines (state_of draft)
        → ReadOf result lines }
{
    if draft.is_ended() {
        return Ok(draft.journal());
    }
    let line = counted(count, 1)?;
    Err(TimeFault {
        line,
        reason: TimeReason::NoEnd,
    })
}

fn read_all(alloc: Global, text: &[u8]) -> Result<Journal, TimeFault>
    ensures { ReadOf result (lines_of text.now) }
{
    let mut draft = Draft::new(alloc);
    let count = take_lines(&mut draft, 0, text)?;
    finished(draft, count)
}

/// The journal that a text is, or the first faulty line. Where memory runs out, that is the fault, at line 0.
///
/// # Errors
///
/// `TimeFault` with the first faulty line, or that there is no memory, at line 0.
pub fn parse(alloc: Global, text: &[u8]) -> Result<Journal, TimeFault>
    ensures found { IfOk result (λ journal. TimeText (lines_of text.now) journal) }
    // The journal of a text is read, unless memory runs out.
    ensures only { (events : List Event) → TimeText (lines_of text.now) events → GivesJournal result events }
    ensures fault { IfErr result (λ f. HasFault (lines_of text.now) f) }
{
    read_all(alloc, text)
}
