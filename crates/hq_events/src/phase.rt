//! The phases of a packet.

ghost use Rattle.std.specs.Prelude.{◌≡◌};
ghost use Rattle.hq_model.specs.Machine.{is_launched};
ghost use Rattle.hq_events.specs.Phases.{named};

/// What a packet is at.
#[derive(Clone, Copy, Debug, PartialEq, Eq)]
pub enum Phase {
    /// It isn't submitted yet.
    Waiting,
    /// It stands in its queue.
    InQueue,
    /// It is launched; a barrier packet waits.
    Launched,
    /// It reads and stores.
    Active,
    /// It is complete.
    Complete,
}

impl Phase {
    /// Whether the packet is launched, active or complete.
    pub fn is_launched(self) -> bool
        ensures { result ≡ is_launched (named self) }
    {
        match self {
            Phase::Waiting | Phase::InQueue => false,
            Phase::Launched | Phase::Active | Phase::Complete => true,
        }
    }
}
