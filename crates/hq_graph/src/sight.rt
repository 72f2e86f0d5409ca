//! What a graph is drawn from.

use crate::stuck::Stuck;
use hq_order::Before;
use hq_parts::Parts;

/// The order of a job's packets; its steps, where the row of a packet has those from which a step leads to it; the
/// parts of memory that packets touch; and what is known of packets that can never complete.
#[derive(Clone, Copy)]
pub struct Sight<'b, 'a> {
    pub before: &'b Before<'a>,
    pub steps: &'b [Vec<u64>],
    pub parts: &'b Parts,
    pub stuck: &'b Stuck,
}
