//! Whether a list of packets is an order list of a job.
//!
//! `numbers` reads the list as numbers of packets, and `is_order_list` answers by tables: each packet's place in the
//! list, and for each signal the last place at which a packet completes on it. The checker asks both of a
//! certificate's order.
#![tactic(auto)]

mod order;
mod placing;
mod rings;
mod waits;

pub use order::is_order_list;
pub use placing::numbers;
