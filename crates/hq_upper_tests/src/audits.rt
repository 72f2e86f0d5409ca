use crate::jobs::job_of;
use hq_audit::{AuditNo, audit, find, find_wide};
use hq_calls::good;
use hq_cert::{Certificate, Fences, Pair, Rule};
use hq_finding::{Kind, Why};
use std::alloc::Global;
use std::test::*;
use std::thread::Threads;

/// Two stores in one queue, the second with the barrier bit.
const TWO_STORES: &[u8] = b"hsaq 1\nagent a\nbuffer b 16 16\nqueue q a 4\n\
      packet 0415008000000000100000000000000000000000000000000000000000000000\
             0000000000000000000000000000000000000000000000000000000000000000\n\
      packet 0415008000000000100000000000000000000000000000000000000000000000\
             0000000000000000000000000000000000000000000000000000000000000000\n\
      end";

/// Two stores in one queue, the second without the barrier bit.
const NO_ORDER: &[u8] = b"hsaq 1\nagent a\nbuffer b 16 16\nqueue q a 4\n\
      packet 0414008000000000100000000000000000000000000000000000000000000000\
             0000000000000000000000000000000000000000000000000000000000000000\n\
      packet 0414008000000000100000000000000000000000000000000000000000000000\
             0000000000000000000000000000000000000000000000000000000000000000\n\
      end";

// The audit of a text, without a contract, so that no test is proved over all that a certificate and a refusal promise.

/// The certificate of a job's text.
fn certificate_of(alloc: Global, text: &[u8]) -> Result<Certificate, Fail> {
    let job = job_of(alloc, text)?;
    good(audit(alloc, &job))
}

/// Why a job's text has none.
fn refusal_of(alloc: Global, text: &[u8]) -> Result<Option<AuditNo>, Fail> {
    let job = job_of(alloc, text)?;
    Ok(audit(alloc, &job).err())
}

/// The one pair line that an audit of a job's text finds, where no fence goes on from another.
fn pair_found(alloc: Global, text: &[u8]) -> Result<Pair, Fail> {
    let job = job_of(alloc, text)?;
    let Ok(audited) = find(alloc, &job) else {
        return Err("an ordered job".into());
    };
    if audited.is_chained() || audited.lists() != 1 || audited.count(0) != 1 {
        return Err("one pair line".into());
    }
    Ok(audited.pair(&job, 0, 0))
}

/// Why a job's text has none, by an audit in many threads.
fn refusal_by_threads<R: Threads + Sync>(
    rt: &R,
    alloc: Global,
    text: &[u8],
) -> Result<Option<AuditNo>, Fail> {
    let job = job_of(alloc, text)?;
    Ok(find_wide(rt, alloc, &job).err())
}

#[test]
fn a_pair_line_by_itself(rt: HostRuntime) -> Result<(), Fail> {
    let pair = pair_found(rt.alloc(), TWO_STORES)?;
    assert!(rt; pair.p == 0 && pair.r == 1);
    let Fences::WriteWrite { x, from, on } = &pair.fences else {
        return Err("two writes".into());
    };
    assert!(rt; *x == 0 && *on == 0);
    assert_eq!(rt; from.number(), None);
    Ok(())
}

#[test]
fn two_stores_with_a_barrier_bit(rt: HostRuntime) -> Result<(), Fail> {
    let certificate = certificate_of(rt.alloc(), TWO_STORES)?;
    assert_eq!(rt; certificate.order(), [0, 1].as_slice());
    let [line] = certificate.lines() else {
        return Err("one line".into());
    };
    assert!(rt; line.p == 0 && line.r == 1);
    assert!(rt; matches!(&line.rule, Rule::Bit(1)));
    let [pair] = certificate.pairs() else {
        return Err("one pair line".into());
    };
    assert!(rt; pair.p == 0 && pair.r == 1);
    let Fences::WriteWrite { x, from, on } = &pair.fences else {
        return Err("two writes".into());
    };
    assert!(rt; *x == 0 && *on == 0);
    assert_eq!(rt; from.number(), None);
    Ok(())
}

#[test]
fn two_stores_in_no_order(rt: HostRuntime) -> Result<(), Fail> {
    let Some(AuditNo::Conflict { p, r, kind, why }) = refusal_of(rt.alloc(), NO_ORDER)? else {
        return Err("no conflict".into());
    };
    assert!(rt; p == 0 && r == 1);
    assert_eq!(rt; kind, Kind::WriteWrite);
    assert_eq!(rt; why, Why::Unordered);
    Ok(())
}

#[test]
fn two_stores_in_no_order_by_threads(rt: HostRuntime) -> Result<(), Fail> {
    let Some(AuditNo::Conflict { p, r, kind, why }) = refusal_by_threads(&rt, rt.alloc(), NO_ORDER)?
    else {
        return Err("no conflict".into());
    };
    assert!(rt; p == 0 && r == 1);
    assert!(rt; kind == Kind::WriteWrite && why == Why::Unordered);
    Ok(())
}
