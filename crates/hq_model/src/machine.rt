//! The machine's steps, one by one and in runs of any job.

ghost use Rattle.hq_model.specs.Theorems.{StepsDetermined, WithoutRings, OrderLaw, SignalLaw, BoundLaw, StuckLaw};
ghost use Rattle.hq_model.specs.Theorems.{CompletePossible, JournalsRun};
ghost use Rattle.hq_model.specs.Moves.{CopiesMoveAlways, FillsUnseenAlways, PushesWriteAlways, FenceLaw};
ghost use Rattle.hq_model.specs.Finishing.{FinishLaw, StandstillLaw, StandstillReached, StuckExact};
ghost use Rattle.hq_model.specs.Journal.{CoarseLaw};
ghost use Rattle.hq_model.specs.Readied.{CompletionReached, EntryReadied};
ghost use Rattle.hq_model.specs.Origins.{OriginsTell, RunsHaveOrigins};

/// An event leads from a state to one state.
pub fn steps_determined()
    ensures { StepsDetermined }
{}

/// Where queues are no rings, no packet ever waits to be submitted.
pub fn without_rings()
    ensures { WithoutRings }
{}

/// In any phase of any packet an absent byte can be filled, a clean one dropped, and a dirty one pushed.
pub fn copies_move()
    ensures { CopiesMoveAlways }
{}

/// A fill changes nothing that is seen through any lane.
pub fn fills_unseen()
    ensures { FillsUnseenAlways }
{}

/// After a push the level below has the byte, and the one that pushed it still sees it.
pub fn pushes_write()
    ensures { PushesWriteAlways }
{}

/// An acquire fence drops the clean copies that its scope reaches, and nothing else.
pub fn fence_law()
    ensures { FenceLaw }
{}

/// In every state of every run, what comes before a packet that has begun is complete.
pub fn order_law()
    ensures { OrderLaw }
{}

/// In every state of every run a signal is its start less the packets that have completed on it.
pub fn signal_law()
    ensures { SignalLaw }
{}

/// The work steps of a run are at most the job's bound.
pub fn bound_law()
    ensures { BoundLaw }
{}

/// In no run does a packet of a stuck set complete.
pub fn stuck_law()
    ensures { StuckLaw }
{}

/// From wherever a run stands, work steps lead to where no work is left.
pub fn standstill_reached()
    ensures { StandstillReached }
{}

/// A run that no work is left to has completed exactly the packets that stand in no stuck set.
pub fn standstill_law()
    ensures { StandstillLaw }
{}

/// The packets of stuck sets are exactly those that no run completes.
pub fn stuck_exact()
    ensures { StuckExact }
{}

/// Where an order list exists, a run that no work is left to is over: every packet is complete, and nothing is dirty.
pub fn finish_law()
    ensures { FinishLaw }
{}

/// In every run a packet that has read and stored all can complete, once pushes have done what its release asks.
pub fn complete_possible()
    ensures { CompletePossible }
{}

/// In every run a packet that is active can complete, once its own reads and stores and pushes have done what is left.
pub fn completion_reached()
    ensures { CompletionReached }
{}

/// In every run a packet that enters can complete so.
pub fn entry_readied()
    ensures { EntryReadied }
{}

/// What a coarse event leaves: all read, all stored, complete, or nothing dirty.
pub fn coarse_law()
    ensures { CoarseLaw }
{}

/// A journal's coarse events are a run of the machine's steps.
pub fn journals_run()
    ensures { JournalsRun }
{}

/// In every run each byte of memory, each copy and each entry that was read is what its origin made it: as memory
/// starts there, or as the packet stored it.
pub fn origins_tell()
    ensures { OriginsTell }
{}

/// Each run has origins, and no others, and only runs have some.
pub fn runs_have_origins()
    ensures { RunsHaveOrigins }
{}
