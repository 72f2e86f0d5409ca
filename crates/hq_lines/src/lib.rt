//! The lines of a job text: what each line says, apart from the tables that the lines before it leave.
#![tactic(auto)]

mod fault;
mod heads;
pub mod laws;
mod limits;
mod line;
mod read;
mod words;

pub use fault::LineFault;
pub use heads::{begins_packet, with_head};
pub use limits::{BLOCK, BUFFER, SLOTS};
pub use line::{Line, Version};
pub use read::{first_line, line_behind_end, read_line};
