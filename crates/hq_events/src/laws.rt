//! Laws of events and of the machine that they move: those of the model.

ghost use Rattle.hq_model.specs.Theorems.{StepsDetermined, BoundLaw};
ghost use Rattle.hq_model.specs.Journal.{CoarseLaw};
ghost use Rattle.hq_model.specs.Readied.{CompletionReached, EntryReadied};

use hq_model::machine;

/// An event leads from a state to one state.
pub fn steps_determined()
    ensures { StepsDetermined }
{
    machine::steps_determined();
}

/// The work steps of a run are at most the job's bound.
pub fn bound_law()
    ensures { BoundLaw }
{
    machine::bound_law();
}

/// What a coarse event leaves: all read, all stored, complete, or nothing dirty.
pub fn coarse_law()
    ensures { CoarseLaw }
{
    machine::coarse_law();
}

/// In every run a packet that is active can complete, once its own reads and stores and pushes have done what is left.
pub fn completion_reached()
    ensures { CompletionReached }
{
    machine::completion_reached();
}

/// In every run a packet that enters can complete so.
pub fn entry_readied()
    ensures { EntryReadied }
{
    machine::entry_readied();
}
