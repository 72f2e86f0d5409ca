//! What happens in a run.

/// An event of a run, with the numbers of queues, packets, slots, read and write entries, agents and bytes as a
/// timeline has them: any of them may be one that the job lacks, and then the event isn't enabled.
///
/// `Fetch`, `Deliver`, `Complete` and `Rest` stand for lists of single steps; each other event is one.
#[derive(Clone, Copy, Debug, PartialEq, Eq)]
pub enum Event {
    /// The next packet of the submission order is put in its queue.
    Submit,
    /// The queue's next packet is launched.
    Launch { queue: u32 },
    /// A launched barrier packet sees the signal of one of its dependencies at 0.
    Observe { packet: u32, slot: u32 },
    /// The packet's wait is over: its acquire fence is applied, and it is active.
    Enter { packet: u32 },
    /// All reads of the packet, in order.
    Fetch { packet: u32 },
    /// All stores of the packet, in order.
    Deliver { packet: u32 },
    /// The pushes that the packet's release fence asks for, and its completion.
    Complete { packet: u32 },
    /// All dirty bytes of all lanes are pushed, then those of all agents.
    Rest,
    /// One read entry.
    Read { packet: u32, entry: u32 },
    /// One written byte.
    Store { packet: u32, entry: u32 },
    /// The completion alone.
    Finish { packet: u32 },
    /// A lane's dirty byte is written back to its agent.
    PushLane { packet: u32, byte: u32 },
    /// An agent's dirty byte is written back to memory.
    PushAgent { agent: u32, byte: u32 },
    /// A lane takes a clean copy of an absent byte.
    FillLane { packet: u32, byte: u32 },
    /// An agent takes a clean copy of an absent byte.
    FillAgent { agent: u32, byte: u32 },
    /// A lane lets a clean byte go.
    DropLane { packet: u32, byte: u32 },
    /// An agent lets a clean byte go.
    DropAgent { agent: u32, byte: u32 },
}
