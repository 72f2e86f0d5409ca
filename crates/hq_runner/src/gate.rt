//! What is told of fetches and completions.

/// Is called before each fetch and after each completion, while no lock is held. It may hold a packet back.
pub trait Gate: Sync {
    /// The packet is about to be fetched.
    fn hold(&self, packet: u16);

    /// The packet is complete.
    fn passed(&self, packet: u16);
}

/// A gate that is always open.
pub struct OpenGate;

impl Gate for OpenGate {
    fn hold(&self, _packet: u16) {}

    fn passed(&self, _packet: u16) {}
}
