//! From a job to the certificate of its order, or to why it has none.
//!
//! A job is *ordered* where its packets have an order list and each two packets that conflict are ordered by
//! fences, in one direction. `audit` gives such a job a certificate that says so, line by line, and so can be
//! checked by itself; of any other job it says which packets can never complete, or which conflict of which packets
//! isn't ordered, and why. `find` answers the same with an `Audited` in place of the certificate, which hands out one
//! pair line behind another and takes less memory; `audit_wide` and `find_wide` judge pairs in many threads. `verdict`
//! says whether there is a certificate, and `all_shown` says it of a job whose order is worked out.
#![tactic(auto)]

mod audited;
mod auditing;
mod citing;
mod directed;
mod draft;
mod drafting;
mod fault;
mod free;
pub mod laws;
mod marking;
mod packed;
mod spreading;
mod verdicts;
mod wide;

pub use audited::Audited;
pub use auditing::{audit, find};
pub use directed::{Directed, Unshown, direct};
pub use fault::AuditNo;
pub use verdicts::{all_shown, verdict};
pub use wide::{audit_wide, find_wide};
