//! Jobs of texts.

use hq_calls::good;
use hq_job::Job;
use hq_jobtext::read_text;
use std::alloc::Global;
use std::test::*;

/// The job of a text.
pub fn job_of(alloc: Global, text: &[u8]) -> Result<Job, Fail> {
    good(read_text(alloc, text))
}
