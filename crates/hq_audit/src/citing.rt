//! Drafts of pair lines with the numbers of the lines that these cite.

ghost use Rattle.std.specs.Prelude.{◌≡◌, IfOk, OnOk, MatchOption, false, true, length, map};
ghost use Rattle.hq_job.specs.Plan.{plan};
ghost use Rattle.hq_model.specs.Certificate.{Cites, FencesHold};
ghost use Rattle.hq_model.specs.Certificate.Fences.{ForWriteWriteChained, ForWriteReadChained};
ghost use Rattle.hq_cert.specs.View.{cited, fences_of, pair_of};
ghost use Rattle.hq_fence.specs.Judgement.{IsRelease, IsAcquire, ReleasesBefore, ReleasesToAcquire};
ghost use Rattle.hq_fence.specs.declared.shown.Release.TheVariants as release;
ghost use Rattle.hq_fence.specs.declared.shown.Acquire.TheVariants as acquire;
ghost use Rattle.hq_derive.specs.Gathered.{lines_of};
ghost use Rattle.hq_derive.specs.Needed.{HasLine};
ghost use Rattle.hq_audit.specs.Drafted.{is_chained, listed, Upto, KnownForRelease, KnownForAcquire, KnownFor, IsDraft};
ghost use Rattle.hq_audit.specs.Drafted.{AllDrafts};
ghost use Rattle.hq_audit.specs.Paired.{ReleaseCited, AcquireCited, IsPairOf, IsPlain, HoldFor, ArePairsOf, PairsGo};
ghost use Rattle.hq_audit.specs.Paired.{pairs_of};
ghost use Rattle.hq_audit.specs.Packed.{unpacked};

use crate::draft::{Draft, Means};
use crate::packed::Packed;
use hq_cert::{Citation, Fences, Pair, ReadChain, WriteChain};
use hq_derive::Lines;
use hq_fence::{Acquire, Release};
use hq_job::Job;
use std::alloc::{AllocError, Global};

/// A release, and what is cited for it: that p is x or before it, and that x is x2 or before it.
#[derive(Clone, Copy, Debug)]
pub struct CitedRelease {
    pub x: u32,
    pub x2: u32,
    pub from: Citation,
    pub link: Citation,
}

/// An acquire, and what is cited for it: that y2 is y or before it, and that y is r or before it.
#[derive(Clone, Copy, Debug)]
pub struct CitedAcquire {
    pub y2: u32,
    pub y: u32,
    pub link2: Citation,
    pub to: Citation,
}

/// The citation that p is x, or before it.
#[inline(always)]
fn cite(lines: &Lines, p: usize, x: usize) -> Citation
    requires { Upto (HasLine (lines_of lines.now)) p x }
    ensures { Cites (lines_of lines.now) (length (lines_of lines.now)) (cited result) p x }
{
    if p == x {
        return Citation::same();
    }
    Citation::line(lines.number(p, x))
}

/// Two writes, of which x alone releases the first.
#[inline(always)]
fn write_write(lines: &Lines, job: &Job, p: usize, r: usize, x: u16) -> Fences
    requires released { ReleasesBefore (plan job.now) p r (release.Alone x) }
    requires from { Upto (HasLine (lines_of lines.now)) p x }
    requires on { HasLine (lines_of lines.now) x r }
    ensures holds { HoldFor (plan job.now) (lines_of lines.now) p r
        (Means.WriteWrite (release.Alone x)) (fences_of result) }
    ensures plain { IsPlain (fences_of result) }
{
    Fences::WriteWrite {
        x: x as u32,
        from: cite(lines, p, x as usize),
        on: lines.number(x as usize, r),
    }
}

/// A write and a read, where x alone releases and y alone acquires.
#[inline(always)]
fn write_read(lines: &Lines, job: &Job, p: usize, r: usize, x: u16, y: u16) -> Fences
    requires fences { ReleasesToAcquire (plan job.now) p r (release.Alone x, acquire.Alone y) }
    requires from { Upto (HasLine (lines_of lines.now)) p x }
    requires between { HasLine (lines_of lines.now) x y }
    requires to { Upto (HasLine (lines_of lines.now)) y r }
    ensures holds { HoldFor (plan job.now) (lines_of lines.now) p r
        (Means.WriteRead (release.Alone x) (acquire.Alone y)) (fences_of result) }
    ensures plain { IsPlain (fences_of result) }
{
    Fences::WriteRead {
        x: x as u32,
        y: y as u32,
        from: cite(lines, p, x as usize),
        between: lines.number(x as usize, y as usize),
        to: cite(lines, y as usize, r),
    }
}

/// Two writes, of which x, and then x2, release the first.
fn write_chain(lines: &Lines, job: &Job, p: usize, r: usize, x: u16, x2: u16) -> WriteChain
    requires released { ReleasesBefore (plan job.now) p r (release.Chained x x2) }
    requires from { Upto (HasLine (lines_of lines.now)) p x }
    requires link { HasLine (lines_of lines.now) x x2 }
    requires on { HasLine (lines_of lines.now) x2 r }
    ensures { FencesHold (plan job.now) (lines_of lines.now) p r
        (ForWriteWriteChained result.x result.x2 (cited result.from) result.link result.on) }
{
    WriteChain {
        x: x as u32,
        x2: x2 as u32,
        from: cite(lines, p, x as usize),
        link: lines.number(x as usize, x2 as usize),
        on: lines.number(x2 as usize, r),
    }
}

/// What is cited for a release of p.
fn cite_release(lines: &Lines, job: &Job, p: usize, r: usize, release: Release) -> CitedRelease
    requires release { IsRelease (plan job.now) p r release }
    requires known { KnownForRelease (HasLine (lines_of lines.now)) p release }
    ensures { ReleaseCited (plan job.now) (lines_of lines.now) p r release result }
{
    match release {
        Release::Alone(x) => CitedRelease {
            x: x as u32,
            x2: x as u32,
            from: cite(lines, p, x as usize),
            link: Citation::same(),
        },
        Release::Chained(x, x2) => CitedRelease {
            x: x as u32,
            x2: x2 as u32,
            from: cite(lines, p, x as usize),
            link: Citation::line(lines.number(x as usize, x2 as usize)),
        },
    }
}

/// What is cited for an acquire for r.
fn cite_acquire(lines: &Lines, job: &Job, p: usize, r: usize, acquire: Acquire) -> CitedAcquire
    requires acquire { IsAcquire (plan job.now) p r acquire }
    requires known { KnownForAcquire (HasLine (lines_of lines.now)) r acquire }
    ensures { AcquireCited (plan job.now) (lines_of lines.now) p r acquire result }
{
    match acquire {
        Acquire::Alone(y) => CitedAcquire {
            y2: y as u32,
            y: y as u32,
            link2: Citation::same(),
            to: cite(lines, y as usize, r),
        },
        Acquire::Chained(y2, y) => CitedAcquire {
            y2: y2 as u32,
            y: y as u32,
            link2: Citation::line(lines.number(y2 as usize, y as usize)),
            to: cite(lines, y as usize, r),
        },
    }
}

/// A write and a read, where a fence goes on from another.
fn read_chain(
    lines: &Lines,
    job: &Job,
    p: usize,
    r: usize,
    release: Release,
    acquire: Acquire,
) -> ReadChain
    requires fences { ReleasesToAcquire (plan job.now) p r (release, acquire) }
    requires known { KnownFor (HasLine (lines_of lines.now)) p r (Means.WriteRead release acquire) }
    requires chained { is_chained (Means.WriteRead release acquire) ≡ true }
    ensures { FencesHold (plan job.now) (lines_of lines.now) p r
        (ForWriteReadChained result.x result.x2 result.y2 result.y (cited result.from) (cited result.link)
        result.between (cited result.link2) (cited result.to)) }
{
    let release = cite_release(lines, job, p, r, release);
    let acquire = cite_acquire(lines, job, p, r, acquire);
    ReadChain {
        x: release.x,
        x2: release.x2,
        y2: acquire.y2,
        y: acquire.y,
        from: release.from,
        link: release.link,
        between: lines.number(release.x2 as usize, acquire.y2 as usize),
        link2: acquire.link2,
        to: acquire.to,
    }
}

/// The fences of a draft that isn't chained, with what they cite.
#[inline(always)]
fn plain_fences(lines: &Lines, job: &Job, draft: Draft) -> Option<Fences>
    requires { IsDraft (plan job.now) (HasLine (lines_of lines.now)) draft }
    ensures { MatchOption result (is_chained draft.means ≡ true)
        (λ f. HoldFor (plan job.now) (lines_of lines.now) draft.p draft.r draft.means (fences_of f)
        × IsPlain (fences_of f)) }
{
    let (p, r) = (draft.p as usize, draft.r as usize);
    match draft.means {
        Means::ReadWrite => Some(Fences::ReadWrite(lines.number(p, r))),
        Means::WriteWrite(Release::Alone(x)) => Some(write_write(lines, job, p, r, x)),
        Means::WriteRead(Release::Alone(x), Acquire::Alone(y)) => {
            Some(write_read(lines, job, p, r, x, y))
        }
        Means::WriteWrite(Release::Chained(_, _)) => None,
        Means::WriteRead(_, _) => None,
    }
}

/// The fences of a draft, with what they cite. Chained ones take memory of their own.
fn fences(alloc: Global, lines: &Lines, job: &Job, draft: Draft) -> Result<Fences, AllocError>
    requires { IsDraft (plan job.now) (HasLine (lines_of lines.now)) draft }
    ensures { IfOk result
        (λ f. HoldFor (plan job.now) (lines_of lines.now) draft.p draft.r draft.means (fences_of f)) }
{
    if let Some(fences) = plain_fences(lines, job, draft) {
        return Ok(fences);
    }
    let (p, r) = (draft.p as usize, draft.r as usize);
    match draft.means {
        Means::WriteWrite(Release::Chained(x, x2)) => {
            let chain = write_chain(lines, job, p, r, x, x2);
            Ok(Fences::WriteWriteChained(Box::new(alloc, chain)?))
        }
        Means::WriteRead(release, acquire) => {
            let chain = read_chain(lines, job, p, r, release, acquire);
            Ok(Fences::WriteReadChained(Box::new(alloc, chain)?))
        }
        _ => unreachable!(),
    }
}

/// The pair line of a draft that isn't chained.
#[inline(always)]
pub fn plain_pair(lines: &Lines, job: &Job, draft: Draft) -> Pair
    requires is { IsDraft (plan job.now) (HasLine (lines_of lines.now)) draft }
    requires plain { is_chained draft.means ≡ false }
    ensures is { IsPairOf (plan job.now) (lines_of lines.now) draft (pair_of result) }
    ensures plain { IsPlain (pair_of result).fences }
{
    Pair {
        p: draft.p as u32,
        r: draft.r as u32,
        fences: plain_fences(lines, job, draft).unwrap(),
    }
}

/// The pair line of a draft.
fn pair(alloc: Global, lines: &Lines, job: &Job, draft: Draft) -> Result<Pair, AllocError>
    requires { IsDraft (plan job.now) (HasLine (lines_of lines.now)) draft }
    ensures { IfOk result (λ pair. IsPairOf (plan job.now) (lines_of lines.now) draft (pair_of pair)) }
{
    Ok(Pair {
        p: draft.p as u32,
        r: draft.r as u32,
        fences: fences(alloc, lines, job, draft)?,
    })
}

/// Adds the pair lines of drafts.
fn cite_list(
    pairs: &mut Vec<Pair>,
    alloc: Global,
    lines: &Lines,
    job: &Job,
    drafts: &[Packed],
) -> Result<(), AllocError>
    requires { AllDrafts (plan job.now) (HasLine (lines_of lines.now)) (map unpacked drafts.now) }
    ensures { OnOk result
        (PairsGo (plan job.now) (lines_of lines.now) (map unpacked drafts.now) pairs.old pairs.new) }
{
    for packed in drafts {
        pairs.push(pair(alloc, lines, job, packed.draft())?)?;
    }
    Ok(())
}

/// The pair lines of all lists of drafts.
pub fn cite_all(
    alloc: Global,
    lines: &Lines,
    job: &Job,
    lists: &[Vec<Packed>],
) -> Result<Vec<Pair>, AllocError>
    requires { AllDrafts (plan job.now) (HasLine (lines_of lines.now)) (listed lists.now) }
    ensures { IfOk result
        (λ pairs. ArePairsOf (plan job.now) (lines_of lines.now) (listed lists.now) (pairs_of pairs)) }
{
    let mut pairs = Vec::new(alloc);
    for list in lists {
        cite_list(&mut pairs, alloc, lines, job, list)?;
    }
    Ok(pairs)
}
