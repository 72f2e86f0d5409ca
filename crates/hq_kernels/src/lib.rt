//! What runs the packets that aren't barriers.
//!
//! A body is handed its packet's pieces of memory, runs, and hands them back, with what its task makes of the bytes
//! that it reads in the piece that it writes. `KernelBody` is a kernel dispatch's and `ServiceBody` an agent
//! dispatch's; `Stock` does each of the nine tasks, for either. A `Kit` has the bodies of one queue, and `kits_fit`
//! tells whether kits suit a job.
#![tactic(auto)]

mod body;
mod fault;
mod kit;
mod kits;
mod packets;
mod performing;
mod stock;

pub use body::{KernelBody, ServiceBody};
pub use fault::KernelFault;
pub use kit::{Body, Kit};
pub use kits::{kits_fit, stock_kits};
pub use stock::{Stock, piece_count};
