use crate::jobs::job_of;
use hq_calls::good;
use hq_cert::{Certificate, Fences, Line, Pair, Rule};
use hq_certcheck::{Accepted, CheckNo, check, check_wide};
use hq_job::Job;
use std::alloc::Global;
use std::test::*;
use std::thread::Threads;

/// What a check accepts, without a contract, so that no test is proved over the lines of its certificate.
fn accepted(alloc: Global, job: Job, certificate: &Certificate) -> Option<Accepted> {
    check(alloc, job, certificate).ok()
}

/// Why a check refuses, and the job.
fn refused(alloc: Global, job: Job, certificate: &Certificate) -> Option<(CheckNo, Job)> {
    check(alloc, job, certificate).err()
}

/// The same of a check in many threads.
fn refused_wide<R: Threads + Sync>(
    rt: &R,
    alloc: Global,
    job: Job,
    certificate: &Certificate,
) -> Option<CheckNo> {
    match check_wide(rt, alloc, job, certificate) {
        Ok(_) => None,
        Err((no, _job)) => Some(no),
    }
}

/// A job of two barrier packets in one queue.
const TWO_BARRIERS: &[u8] = b"hsaq 1\nagent a\nqueue q a 4\n\
      packet 0300000000000000000000000000000000000000000000000000000000000000\
             0000000000000000000000000000000000000000000000000000000000000000\n\
      packet 0300000000000000000000000000000000000000000000000000000000000000\
             0000000000000000000000000000000000000000000000000000000000000000\n\
      end";

/// Its certificate: the queue has the first come before the second.
fn by_queue(alloc: Global) -> Result<Certificate, Fail> {
    let lines = good(vec![in alloc;
        Line {
            p: 0,
            r: 1,
            rule: Rule::Queue
        },
    ])?;
    let pairs = good(vec![in alloc;
        Pair {
            p: 0,
            r: 1,
            fences: Fences::ReadWrite(0)
        },
    ])?;
    Ok(Certificate::new(good(vec![in alloc; 0, 1])?, lines, pairs))
}

/// A certificate of a line that cites itself.
fn in_a_circle(alloc: Global) -> Result<Certificate, Fail> {
    let lines = good(vec![in alloc;
        Line {
            p: 0,
            r: 0,
            rule: Rule::Through(0, 0)
        },
    ])?;
    Ok(Certificate::new(Vec::new(alloc), lines, Vec::new(alloc)))
}

#[test]
fn two_barrier_packets(rt: HostRuntime) -> Result<(), Fail> {
    let job = job_of(rt.alloc(), TWO_BARRIERS)?;
    let certificate = by_queue(rt.alloc())?;
    let Some(accepted) = accepted(rt.alloc(), job, &certificate) else {
        return Err("a certificate that holds".into());
    };
    assert_eq!(rt; accepted.order(), [0, 1].as_slice());
    assert_eq!(rt; accepted.bound(), 6);
    Ok(())
}

#[test]
fn a_line_that_cites_itself(rt: HostRuntime) -> Result<(), Fail> {
    let job = job_of(rt.alloc(), b"hsaq 1\nend")?;
    let certificate = in_a_circle(rt.alloc())?;
    let Some((no, job)) = refused(rt.alloc(), job, &certificate) else {
        return Err("a line that holds".into());
    };
    assert!(rt; matches!(&no, CheckNo::BadLine(0)));
    let wide = refused_wide(&rt, rt.alloc(), job, &certificate);
    assert!(rt; matches!(&wide, Some(CheckNo::BadLine(0))));
    Ok(())
}
