use crate::jobs::job_of;
use hq_calls::good;
use hq_fence::{Acquire, NotShown, Release, Shown, judge};
use hq_finding::{Kind, Why};
use hq_order::Before;
use std::alloc::Global;
use std::test::*;

/// What is judged of the two packets of a job's text, without a contract, so that no test is proved over all that it
/// promises.
fn judged(alloc: Global, text: &[u8]) -> Result<Result<Shown, NotShown>, Fail> {
    let job = job_of(alloc, text)?;
    let before = good(Before::build(alloc, &job))?;
    if before.len() != 2 {
        return Err("two packets".into());
    }
    Ok(judge(&before, 0, 1))
}

#[test]
fn a_store_and_a_count_of_it(rt: HostRuntime) -> Result<(), Fail> {
    let text = b"hsaq 1\nagent a\nbuffer b 16 16\nqueue q a 4\n\
          packet 0414008000000000100000000000000000000000000000000000000000000000\
                 0000000000000000000000000000000000000000000000000000000000000000\n\
          packet 0415018000000000180000000000000010000000000000000800000000000000\
                 0000000000000000000000000000000000000000000000000000000000000000\n\
          end";
    let shown = Shown {
        wr: Some((Release::Alone(0), Acquire::Alone(1))),
        ww: None,
        rw: false,
    };
    assert_eq!(rt; judged(rt.alloc(), text)?, Ok(shown));
    Ok(())
}

#[test]
fn a_count_that_does_not_acquire(rt: HostRuntime) -> Result<(), Fail> {
    let text = b"hsaq 1\nagent a\nbuffer b 16 16\nqueue q a 4\n\
          packet 0414008000000000100000000000000000000000000000000000000000000000\
                 0000000000000000000000000000000000000000000000000000000000000000\n\
          packet 0411018000000000180000000000000010000000000000000800000000000000\
                 0000000000000000000000000000000000000000000000000000000000000000\n\
          end";
    let not_shown = NotShown {
        kind: Kind::WriteRead,
        why: Why::NotAcquired,
    };
    assert_eq!(rt; judged(rt.alloc(), text)?, Err(not_shown));
    Ok(())
}
