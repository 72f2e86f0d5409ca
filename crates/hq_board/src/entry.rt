//! What a queue's list has. No value of these types is made: they are what is known of a seat.

use std::collections::LinkedList;

/// What stands in a queue's list: an event of its processor, or a look at a signal that was above 0, with the value
/// that was found.
pub enum Entry {
    DidLaunch(usize),
    DidObserve(usize, usize),
    DidEnter(usize),
    DidComplete(usize),
    Looked(usize, usize, u64),
}

/// The list of a queue's seat, the newest first. The one that hands out seats has the queue that comes next, and no
/// list.
pub struct View {
    pub queue: usize,
    pub deals: bool,
    pub log: LinkedList<Entry>,
}
