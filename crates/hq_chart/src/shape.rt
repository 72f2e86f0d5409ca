//! The shapes that a picture is made of.

/// What a bar says of a packet.
#[derive(Clone, Copy, Debug)]
pub enum Phase {
    Waits,
    Active,
}

/// What a mark says of a packet, or of copies of its lane or of an agent.
#[derive(Clone, Copy, Debug)]
pub enum Mark {
    /// One of its dependencies is seen at 0.
    Sees,
    Reads,
    Stores,
    /// A clean copy is taken.
    Fills,
    /// A dirty byte is written back.
    Pushes,
    /// A clean copy goes.
    Drops,
}

/// What is drawn of an event.
#[derive(Clone, Copy, Debug)]
pub enum Shape {
    /// A packet's phase, from one event to another.
    Bar {
        phase: Phase,
        packet: usize,
        from: usize,
        to: usize,
    },
    /// A mark in a packet's row.
    Mark {
        mark: Mark,
        packet: usize,
        at: usize,
    },
    /// A mark in an agent's row.
    AgentMark {
        mark: Mark,
        agent: u32,
        at: usize,
    },
    /// The host's submission of a packet.
    Submission {
        at: usize,
    },
}
