//! How commands end, and what all of them write: lines, refusals of a job's text, and that a reader or memory failed.
//!
//! A report is of the text that the reader gave, turn by turn and up to its end, whatever reader it is; or of the
//! reader's failure, where it failed. The status has in it what the answer says, as the report relates the two, so
//! that whoever calls an engine need not read the answer. A status can say all that any command finds, those that
//! higher crates have too: so the plain words for it stand on nothing that judges, runs or replays.
#![tactic(auto)]

mod saying;
mod status;
mod taking;

pub use saying::{say, say_file, say_memory, say_text, say_unopened};
pub use status::{
    CheckFault, Difference, Differs, RunFailure, Status, TimelineFault, TimelineReason,
};
pub use taking::{take_job, take_job_text};
