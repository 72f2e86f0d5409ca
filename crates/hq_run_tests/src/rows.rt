//! Worked jobs, each driven through the hall by one thread, in two orders.

use crate::driving::{in_order, leaves, side_by_side};
use crate::jobs::accept_text;
use crate::texts::*;
use hq_calls::good;
use hq_certcheck::Accepted;
use hq_hall::Hall;
use std::alloc::Global;
use std::test::*;

/// Each job, and the memory that it leaves where its packets run one at a time.
const ROWS: &[(&[&[u8]], &[u8])] = &[
    (FILL_COPY, &[7, 7, 7, 7, 7, 7, 7, 7]),
    (FILL_COPY_FILL, &[7, 7, 7, 7, 7, 7, 7, 7]),
    (TWO_COPIES, &[0, 0, 0, 0, 0, 0, 0, 0]),
    (NO_PACKET, &[]),
    (NO_LAST_FEED, &[7, 7, 7, 7, 7, 7, 7, 7]),
    (WAIT, &[7, 7, 7, 7, 7, 7, 7, 7]),
    (WAIT_EXCHANGED, &[7, 7, 7, 7, 7, 7, 7, 7]),
    (TWO_AGENTS, &[7, 7, 7, 7, 7, 7, 7, 7]),
    (EITHER, &[7, 7, 7, 7, 7, 7, 7, 7]),
    (CHAIN, &[7, 7, 7, 7, 7, 7, 7, 7]),
    (READ_WRITE, &[7, 7, 7, 7, 0, 0, 0, 0]),
    (REVERSE, &[4, 3, 2, 1]),
    (RING, &[]),
    (TWO_RINGS, &[]),
    (NULLS, &[]),
    (TWO_FILLS, &[7, 7, 7, 7, 5, 5, 5, 5]),
    (EIGHT, &[7, 7, 7, 7, 7, 7, 7, 7]),
    (ONE_NOP, &[]),
    (ONE_OR, &[]),
    (FILL_COPY_RING, &[7, 7, 7, 7, 7, 7, 7, 7]),
];

/// Whether the job leaves this memory where its packets go one by one in the order that its certificate gives.
fn by_certificate(alloc: Global, accepted: &Accepted, memory: &[u8]) -> bool {
    let Ok(mut hall) = Hall::open(alloc, accepted) else {
        return false;
    };
    in_order(&mut hall, accepted.order()) && leaves(alloc, &hall, memory)
}

/// Whether it leaves the same where all queues go side by side.
fn by_rounds(alloc: Global, accepted: &Accepted, memory: &[u8]) -> bool {
    let Ok(mut hall) = Hall::open(alloc, accepted) else {
        return false;
    };
    side_by_side(&mut hall) && leaves(alloc, &hall, memory)
}

/// Whether both hold of the job of this text.
fn holds(alloc: Global, text: &[u8], memory: &[u8]) -> bool {
    match accept_text(alloc, text) {
        Some(accepted) => {
            by_certificate(alloc, &accepted, memory) && by_rounds(alloc, &accepted, memory)
        }
        None => false,
    }
}

#[test]
fn each_worked_job_leaves_its_memory(rt: HostRuntime) -> Result<(), Fail> {
    for (place, row) in ROWS.iter().enumerate() {
        let text = good(joined(rt.alloc(), row.0))?;
        assert!(rt; holds(rt.alloc(), &text, row.1), "row {place}");
    }
    Ok(())
}

#[test]
fn sixty_five_fills(rt: HostRuntime) -> Result<(), Fail> {
    let mut text = good(joined(rt.alloc(), &[HEAD, BUFFER, b"queue q a 128\n"]))?;
    for _ in 0..65 {
        good(text.extend_from_slice(FILL))?;
    }
    good(text.extend_from_slice(b"end\n"))?;
    assert!(rt; holds(rt.alloc(), &text, &[7, 7, 7, 7, 0, 0, 0, 0]));
    Ok(())
}
