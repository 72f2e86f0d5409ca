//! Where a packet stands between its fetch and its delivery.

/// Where a packet stands between its fetch and its delivery.
#[derive(Clone, Copy, Debug, PartialEq, Eq)]
pub enum Stage {
    /// It wasn't fetched yet.
    Unfetched,
    /// It was fetched, and its ranges are out.
    Out,
    /// It was delivered, and its ranges are home again.
    Delivered,
}
