//! Certificates from their texts.
//!
//! `parse` takes a text and `read` what a reader gives: each answers the certificate that the text spells, or the
//! first faulty line and what is wrong with it. `Progress` takes a text in piece by piece, and what its lines said,
//! lines of the certificate and pair lines, can be let go meanwhile. Whether the certificate holds is for a checker
//! to say.
#![tactic(auto)]

mod ahead;
mod draft;
mod fault;
mod forms;
pub mod laws;
mod leading;
mod one_pass;
mod operands;
mod pairs;
mod progress;
mod reader;
mod reading;
mod rules;
mod threes;

pub use ahead::Ahead;
pub use fault::{CertFault, CertReason};
pub use hq_text::ReadFault;
pub use progress::Progress;
pub use reader::read;
pub use reading::parse;
