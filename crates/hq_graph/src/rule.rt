//! The rules of the order.

/// The rule that alone puts a packet before another: the barrier bit of a packet, by its number; that the first is
/// a barrier packet ahead of the second; a signal that the second, a barrier-AND, depends on, by its number; or the
/// dependencies of the second, a barrier-OR.
#[derive(Clone, Copy, Debug)]
pub enum Rule {
    Bit(u16),
    Queue,
    And(u16),
    Or,
}
