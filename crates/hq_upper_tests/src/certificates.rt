use crate::readers::Pieces;
use hq_calls::good;
use hq_cert::Certificate;
use hq_certread::{Ahead, CertFault, CertReason, Progress, ReadFault, parse, read};
use hq_certtext::{Printer, print};
use std::alloc::Global;
use std::process::Abort;
use std::test::*;

/// Every form of line, in the form that is printed.
const TEXT: &[u8] =
    b"hsac 2\norder 0 1 2 3\nline 0 0 1 bit 0\nline 1 1 2 queue\nline 2 2 3 and 0\nline 3 0 2 or = 1\n\
      line 4 0 2 through 0 1\npair 0 1 rw 0\npair 0 3 ww 0 = 2\npair 1 3 wr 1 2 = 1 2\n\
      pair 0 3 wwc 0 1 = 0 2\npair 0 3 wrc 0 1 2 3 = 0 1 2 =\nend\n";

// Calls without contracts, so that no test is proved over the bytes of its texts.

/// The certificate of a text.
fn certificate_of(alloc: Global, text: &[u8]) -> Result<Certificate, Fail> {
    good(parse(alloc, text))
}

/// The fault of a text, if it has one.
fn fault_of(alloc: Global, text: &[u8]) -> Option<CertFault> {
    parse(alloc, text).err()
}

/// The certificate of a text that comes in pieces of so many bytes, and fails after so many turns.
fn read_in(
    alloc: Global,
    text: &[u8],
    len: usize,
    turns: usize,
) -> Result<Certificate, ReadFault<CertFault>> {
    read(alloc, &mut Pieces::new(text, len, turns))
}

/// The text of a certificate.
fn printed(alloc: Global, certificate: &Certificate) -> Result<Vec<u8>, Fail> {
    let mut text = Vec::new(alloc);
    good(print(alloc, certificate, &mut text))?;
    Ok(text)
}

/// The text of a certificate with one line and one pair line, part by part.
fn printed_by_parts(alloc: Global, certificate: &Certificate) -> Result<Vec<u8>, Fail> {
    let mut text = Vec::new(alloc);
    let [line] = certificate.lines() else {
        return Err("one line".into());
    };
    let [pair] = certificate.pairs() else {
        return Err("one pair line".into());
    };
    let Ok(mut printer) = Printer::new(alloc, 2, 1) else {
        return Err("a printer".into());
    };
    if printer
        .begin(false, certificate.order(), &mut text)
        .is_err()
    {
        return Err("an order".into());
    }
    if printer.line(0, line, &mut text).is_err() {
        return Err("a line".into());
    }
    if printer.pair(pair, &mut text).is_err() {
        return Err("a pair line".into());
    }
    good(printer.end(&mut text))?;
    Ok(text)
}

#[test]
fn printed_part_by_part(rt: HostRuntime) -> Result<(), Fail> {
    let one = b"hsac 1\norder 0 1\nline 0 0 1 bit 1\npair 0 1 ww 0 = 0\nend\n".as_slice();
    let certificate = certificate_of(rt.alloc(), one)?;
    let text = printed_by_parts(rt.alloc(), &certificate)?;
    assert!(rt; text.as_slice() == one);
    Ok(())
}

#[test]
fn printed_again(rt: HostRuntime) -> Result<(), Fail> {
    let certificate = certificate_of(rt.alloc(), TEXT)?;
    assert_eq!(rt; certificate.order().len(), 4);
    assert_eq!(rt; certificate.lines().len(), 5);
    assert_eq!(rt; certificate.pairs().len(), 5);
    let text = printed(rt.alloc(), &certificate)?;
    assert!(rt; text.as_slice() == TEXT);
    Ok(())
}

#[test]
fn plain_head(rt: HostRuntime) -> Result<(), Fail> {
    let certificate = certificate_of(rt.alloc(), b"hsac 2\norder\nend")?;
    let text = printed(rt.alloc(), &certificate)?;
    assert!(rt; text.as_slice() == b"hsac 1\norder\nend\n".as_slice());
    Ok(())
}

fn is_fault(rt: &impl Abort, alloc: Global, text: &[u8], line: usize, reason: CertReason) {
    assert!(rt; fault_of(alloc, text) == Some(CertFault { line, reason }));
}

#[test]
fn faults(rt: HostRuntime) {
    for (text, line, reason) in [
        (b"".as_slice(), 1, CertReason::NoEnd),
        (b"hsac 1\norder", 3, CertReason::NoEnd),
        (b"hsac 3\n", 1, CertReason::Word),
        (b"hsac 1\norder\nend\n\n", 4, CertReason::Word),
        (b"hsac 1\norder \nend\n", 2, CertReason::Number),
        (
            b"hsac 1\norder\npair 0 1 wwc 0 0 = 0 0\n",
            3,
            CertReason::Word,
        ),
        (b"hsac 1\norder\nline 1 0 1 bit 0\n", 3, CertReason::Number),
        (
            b"hsac 1\norder\nline 0 0 1 through = 0\n",
            3,
            CertReason::Number,
        ),
        (
            b"hsac 1\norder\nline 0 0 4294967296 or 0\n",
            3,
            CertReason::Number,
        ),
        (b"hsac 1\norder\nline 0 0 1 or 0\n", 3, CertReason::Citation),
        (
            b"hsac 1\norder\npair 0 1 rw 0\nend\n",
            3,
            CertReason::Citation,
        ),
    ] {
        is_fault(&rt, rt.alloc(), text, line, reason);
    }
}

#[test]
fn read_in_pieces(rt: HostRuntime) -> Result<(), Fail> {
    for len in 1..40 {
        let certificate = good(read_in(rt.alloc(), TEXT, len, 1000))?;
        let text = printed(rt.alloc(), &certificate)?;
        assert!(rt; text.as_slice() == TEXT);
    }
    Ok(())
}

fn is_read_fault(
    rt: &impl Abort,
    alloc: Global,
    turns: usize,
    text: &[u8],
    fault: ReadFault<CertFault>,
) {
    match read_in(alloc, text, 3, turns) {
        Ok(_) => assert!(rt; false),
        Err(found) => assert!(rt; found == fault),
    }
}

#[test]
fn read_faults(rt: HostRuntime) {
    let word = ReadFault::Text(CertFault {
        line: 1,
        reason: CertReason::Word,
    });
    is_read_fault(&rt, rt.alloc(), 1000, b"hsac 3\norder\nend\n", word);
    for turns in 0..6 {
        is_read_fault(
            &rt,
            rt.alloc(),
            turns,
            b"hsac 3\norder\nend\n",
            ReadFault::Reader,
        );
    }
}

// Texts that are long enough for lines of them to be read ahead.

/// Lines 0 to 4.
const LINES: &[u8] =
    b"line 0 100 101 bit 0\nline 1 100 101 bit 0\nline 2 100 101 bit 0\nline 3 100 101 bit 0\nline 4 100 101 bit 0\n";

/// Lines 5 to 9.
const MORE: &[u8] =
    b"line 5 100 101 bit 0\nline 6 100 101 bit 0\nline 7 100 101 bit 0\nline 8 100 101 bit 0\nline 9 100 101 bit 0\n";

/// Lines 10 to 13.
const LATE: &[u8] =
    b"line 10 100 101 queue\nline 11 100 101 queue\nline 12 100 101 queue\nline 13 100 101 queue\n";

/// Five pair lines.
const PAIRS: &[u8] =
    b"pair 100 101 rw 0\npair 100 102 rw 1\npair 100 103 rw 2\npair 100 104 rw 3\npair 100 105 rw 4\n";

/// Takes in the lines of a text; whether they have no fault.
fn takes(alloc: Global, progress: &mut Progress, text: &[u8]) -> bool {
    progress.take(alloc, text).is_ok()
}

/// What a text begins with.
fn ahead_of(alloc: Global, progress: &Progress, text: &[u8]) -> Ahead {
    let mut ahead = Ahead::new(alloc);
    progress.read_ahead(text, &mut ahead);
    ahead
}

/// Whether what was read ahead can't come next.
fn waits(progress: &mut Progress, ahead: &Ahead) -> bool {
    match progress.pass(ahead) {
        Ok(at) => at.is_none(),
        Err(_) => false,
    }
}

/// Takes in what was read ahead of a text, and then the rest of it; whether something was read, can come next, and the
/// rest has no fault.
fn takes_ahead(alloc: Global, progress: &mut Progress, ahead: &Ahead, text: &[u8]) -> bool {
    match progress.pass(ahead) {
        Ok(Some(at)) => 0 < at && takes(alloc, progress, text.split_at(at.min(text.len())).1),
        _ => false,
    }
}

/// Lets go what was read; whether nothing is left.
fn lets_go(progress: &mut Progress) -> bool {
    progress.let_go().is_ok() && progress.lines().is_empty() && progress.pairs().is_empty()
}

/// Takes in five lines, the first of which were read ahead, and lets them go.
fn takes_five(alloc: Global, progress: &mut Progress, ahead: &Ahead, text: &[u8]) -> bool {
    takes_ahead(alloc, progress, ahead, text)
        && ahead.lines().len() + progress.lines().len() == 5
        && lets_go(progress)
}

/// Reads two texts of lines ahead, and takes them in, the second where it isn't its turn too; whether all is as it is
/// to be.
fn lines_in_turn(alloc: Global, progress: &mut Progress) -> bool {
    let first = ahead_of(alloc, progress, LINES);
    let second = ahead_of(alloc, progress, MORE);
    first.before() == 0
        && second.before() == 5
        && waits(progress, &second)
        && takes_five(alloc, progress, &first, LINES)
        && waits(progress, &first)
        && takes_five(alloc, progress, &second, MORE)
        && !progress.is_closed()
}

/// Reads pair lines ahead, and takes them in; behind the first one no lines can come that were read ahead.
fn pairs_in_turn(alloc: Global, progress: &mut Progress) -> bool {
    let late = ahead_of(alloc, progress, LATE);
    let one = takes(alloc, progress, b"pair 100 101 rw 0\n") && progress.pairs().len() == 1;
    let gone = lets_go(progress);
    let pairs = ahead_of(alloc, progress, PAIRS);
    one && gone
        && progress.is_closed()
        && waits(progress, &late)
        && !pairs.pairs().is_empty()
        && takes_ahead(alloc, progress, &pairs, PAIRS)
        && pairs.pairs().len() + progress.pairs().len() == 5
}

#[test]
fn read_ahead(rt: HostRuntime) -> Result<(), Fail> {
    let mut progress = Progress::new(rt.alloc());
    assert!(rt; takes(rt.alloc(), &mut progress, b"hsac 1\norder 100 101\n"));
    assert!(rt; lines_in_turn(rt.alloc(), &mut progress));
    assert!(rt; pairs_in_turn(rt.alloc(), &mut progress));
    assert!(rt; takes(rt.alloc(), &mut progress, b"end\n"));
    let certificate = good(progress.finish())?;
    assert_eq!(rt; certificate.order().len(), 2);
    assert!(rt; certificate.lines().is_empty());
    Ok(())
}
