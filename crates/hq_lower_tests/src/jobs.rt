use hq_calls::good;
use hq_job::Job;
use hq_jobtext::{JobFault, read, read_text};
use hq_tables::Reason;
use std::alloc::Global;
use std::io;
use std::io::Read;
use std::test::*;

/// A job of rings, with three bytes in a buffer.
const RINGS: &[u8] = b"hsaq 2\nagent a\nbuffer b 16 3 0aFf10\nqueue q a 4\nend\n";

/// The job of a text.
fn job_of(alloc: Global, text: &[u8]) -> Result<Job, Fail> {
    good(read_text(alloc, text))
}

/// Whether the bytes of the job's buffers are these.
fn has_memory(alloc: Global, job: &Job, wanted: &[u8]) -> Result<bool, Fail> {
    Ok(good(job.memory(alloc))?.as_slice() == wanted)
}

/// Whether queues are rings, how many agents there are, and the first packet of the first queue.
fn facts(job: &Job) -> (bool, usize, Option<u16>) {
    job.valid();
    (job.rings(), job.agents(), job.number(0, 0))
}

/// The numbers of the bytes at these addresses.
fn bytes_of(job: &Job, first: u64, second: u64) -> (Option<u32>, Option<u32>) {
    (job.byte_of(first), job.byte_of(second))
}

/// Whether a job is that of `RINGS`.
fn is_rings(alloc: Global, job: &Job) -> Result<bool, Fail> {
    Ok(
        facts(job) == (true, 1, None)
            && bytes_of(job, 18, 19) == (Some(2), None)
            && has_memory(alloc, job, &[10, 255, 16])?,
    )
}

#[test]
fn a_job(rt: HostRuntime) -> Result<(), Fail> {
    let job = job_of(rt.alloc(), RINGS)?;
    assert!(rt; is_rings(rt.alloc(), &job)?);
    Ok(())
}

/// Whether a job is itself, and not that of a text.
fn is_only_itself(alloc: Global, job: &Job, text: &[u8]) -> Result<bool, Fail> {
    let other = job_of(alloc, text)?;
    Ok(job.same(job) && !job.same(&other))
}

#[test]
fn the_same_job(rt: HostRuntime) -> Result<(), Fail> {
    let job = job_of(rt.alloc(), b"hsaq 1\nagent a\nend\n")?;
    assert!(rt; is_only_itself(rt.alloc(), &job, b"hsaq 2\nagent a\nend\n")?);
    Ok(())
}

/// The first fault of a text.
fn fault_of(alloc: Global, text: &[u8]) -> Option<JobFault> {
    read_text(alloc, text).err()
}

#[test]
fn first_faults(rt: HostRuntime) {
    for (text, line, reason) in [
        (b"".as_slice(), 1, Reason::NoEnd),
        (b"hsaq 1\nend\n\n", 3, Reason::Word),
        (b"hsaq 1\nagent  a\nend", 2, Reason::Word),
        (b"hsaq 1\nqueue q a 1\nend", 2, Reason::Unknown),
        (b"hsaq 1\nto q\nend", 2, Reason::Word),
    ] {
        assert_eq!(rt; fault_of(rt.alloc(), text), Some(JobFault { line, reason }));
    }
}

/// Fails at once.
#[derive(Drop)]
struct Failing;

impl Read for Failing {
    fn read(&mut self, _buffer: &mut [u8]) -> io::Result<usize> {
        Err(io::ErrorKind::Interrupted.into())
    }
}

#[test]
fn a_failing_reader(rt: HostRuntime) {
    let fault = read(rt.alloc(), &mut Failing).err();
    assert_eq!(rt;
        fault,
        Some(JobFault {
            line: 0,
            reason: Reason::Read
        })
    );
}
