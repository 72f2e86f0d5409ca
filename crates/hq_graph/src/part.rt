//! The parts of a graph.

/// The parts that have a text for each two packets.
#[derive(Clone, Copy, Debug)]
pub enum Part {
    Steps,
    Conflicts,
    Waits,
}
