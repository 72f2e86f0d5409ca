use crate::jobs::job_of;
use hq_calls::good;
use hq_job::Job;
use hq_order::Before;
use hq_schedule::schedule;
use hq_waits::OrderFault;
use std::alloc::Global;
use std::test::*;

// What is asked of a job, without contracts, so that no test is proved over all that an order promises.

/// How many packets the order of a job is of, whether the first one comes before itself, and in which round.
fn first_before_itself(alloc: Global, job: &Job) -> Result<(usize, bool, Option<usize>), Fail> {
    let before = good(Before::build(alloc, job))?;
    Ok((before.len(), before.holds(0, 0), before.round(0, 0)))
}

/// The order in which a job's packets are taken, or why there is none.
fn scheduled(alloc: Global, job: &Job) -> Result<Vec<u16>, OrderFault> {
    schedule(alloc, job)
}

#[test]
fn no_packets(rt: HostRuntime) -> Result<(), Fail> {
    let job = job_of(rt.alloc(), b"hsaq 1\nend")?;
    assert_eq!(rt; good(scheduled(rt.alloc(), &job))?.len(), 0);
    let (packets, holds, round) = first_before_itself(rt.alloc(), &job)?;
    assert!(rt; packets == 0 && !holds);
    assert_eq!(rt; round, None);
    Ok(())
}

#[test]
fn a_barrier_that_waits_for_itself(rt: HostRuntime) -> Result<(), Fail> {
    let text = b"hsaq 1\nagent a\nsignal s 9 1\nqueue q a 4\n\
          packet 0300000000000000090000000000000000000000000000000000000000000000\
                 0000000000000000000000000000000000000000000000000900000000000000\n\
          end";
    let job = job_of(rt.alloc(), text)?;
    let Err(OrderFault::Stuck(packets)) = scheduled(rt.alloc(), &job) else {
        return Err("no packet is stuck".into());
    };
    assert_eq!(rt; packets.as_slice(), [0].as_slice());
    let (_, holds, round) = first_before_itself(rt.alloc(), &job)?;
    assert!(rt; holds);
    assert_eq!(rt; round, Some(0));
    Ok(())
}
