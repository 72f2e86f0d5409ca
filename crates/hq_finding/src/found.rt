//! What an audit finds.

/// What an audit of the job would find: that it is ordered, that two packets conflict which nothing orders, or that
/// packets can never complete.
#[derive(Clone, Copy, Debug, PartialEq, Eq)]
pub enum Found {
    Ordered,
    Conflict,
    Stuck,
}
