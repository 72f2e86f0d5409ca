//! What an audit finds of an ordered job.

ghost use Rattle.std.specs.Prelude.{◌≡◌, ◌<◌, ◌↔◌, IfErr, IfOk, IfSome, IsSome, Some, false, length, slice_get};
ghost use Rattle.hq_job.specs.Plan.{plan};
ghost use Rattle.hq_model.specs.Certificate.{CertHolds};
ghost use Rattle.hq_model.specs.Order.{OrderList};
ghost use Rattle.hq_cert.specs.View.{pair_of};
ghost use Rattle.hq_derive.specs.Short.{told};
ghost use Rattle.hq_parts.specs.Parts.{AreParts};
ghost use Rattle.hq_audit.specs.Free.{NoneConflict};
ghost use Rattle.hq_audit.specs.Audited.{order_in, lines_in, lists_in, list_in, chained_in, IsAudited, IsMadeOf, IsPairAt};
ghost use Rattle.hq_audit.specs.Refused.{AllRefused, AllShown};

use crate::citing::{cite_all, plain_pair};
use crate::draft::Draft;
use crate::drafting::{Drafts, draft_all};
use crate::fault::AuditNo;
use crate::free::none_conflict;
use crate::packed::Packed;
use hq_cert::{Certificate, Pair};
use hq_derive::{Lines, Told, lines_for};
use hq_job::Job;
use hq_order::{Alone, Before};
use hq_parts::Parts;
use std::alloc::{AllocError, Global};

/// All that the certificate of an ordered job says: the order, the lines, and lists of pair lines, whose fences have
/// no numbers of lines yet and so take little memory. Whoever prints a certificate can ask for one pair line behind
/// another; `certificate` makes them all.
#[derive(Drop)]
pub struct Audited {
    order: Vec<u32>,
    lines: Lines,
    lists: Vec<Vec<Packed>>,
    chained: bool,
}

impl Audited {
    /// The numbers of the packets, in their order.
    pub fn order(&self) -> &[u32]
        ensures { result.now ≡ order_in self.now }
    {
        &self.order
    }

    /// How many lines there are.
    pub fn lines(&self) -> usize
        ensures { result ≡ length (lines_in self.now) }
    {
        self.lines.len()
    }

    /// Line k. It takes no memory.
    #[inline(always)]
    pub fn line(&self, k: usize) -> Told<'_>
        requires { k < length (lines_in self.now) }
        ensures { slice_get (lines_in self.now) k ≡ Some (told result) }
    {
        self.lines.line(k)
    }

    /// How many lists of pair lines there are. All of them, one behind another, are the pair lines.
    pub fn lists(&self) -> usize
        ensures { result ≡ length (lists_in self.now) }
    {
        self.lists.len()
    }

    /// How many pair lines a list has; none, where there is no such list.
    pub fn count(&self, list: usize) -> usize
        ensures { result ≡ length (list_in self.now list) }
    {
        match self.lists.get(list) {
            Some(drafts) => drafts.len(),
            None => 0,
        }
    }

    /// Whether one of the pair lines has a fence that goes on from another.
    pub fn is_chained(&self) -> bool
        ensures { result ≡ chained_in self.now }
    {
        self.chained
    }

    /// Draft k of a list.
    #[inline(always)]
    fn draft(&self, list: usize, k: usize) -> Draft
        requires { k < length (list_in self.now list) }
        ensures { slice_get (list_in self.now list) k ≡ Some result }
    {
        self.lists[list][k].draft()
    }

    /// Pair line k of a list, where no fence goes on from another. It takes no memory.
    #[inline(always)]
    pub fn pair(&self, job: &Job, list: usize, k: usize) -> Pair
        requires audited { IsAudited (plan job.now) self.now }
        requires plain { chained_in self.now ≡ false }
        requires within { k < length (list_in self.now list) }
        ensures { IsPairAt (plan job.now) self.now list k (pair_of result) }
    {
        plain_pair(&self.lines, job, self.draft(list, k))
    }

    /// The certificate.
    ///
    /// # Errors
    ///
    /// `AllocError` where there is no memory.
    pub fn certificate(self, alloc: Global, job: &Job) -> Result<Certificate, AllocError>
        requires { IsAudited (plan job.now) self }
        ensures { IfOk result (λ c. CertHolds (plan job.now) c) }
    {
        let pairs = cite_all(alloc, &self.lines, job, &self.lists)?;
        let lines = self.lines.into_lines(alloc)?;
        Ok(Certificate::new(self.order, lines, pairs))
    }
}

/// The numbers in 32 bits.
fn widened(alloc: Global, numbers: &[u16]) -> Result<Vec<u32>, AllocError>
    ensures { IfOk result (λ wide. wide.items ≡ numbers.now) }
{
    let mut wide = Vec::with_capacity(alloc, numbers.len())?;
    for number in numbers {
        wide.push(u32::from(*number))?;
    }
    Ok(wide)
}

/// What an audit finds of a job of which no two packets conflict, and that has this order list; None where two do. No
/// order of the packets is worked out for it.
pub fn audited_free(
    alloc: Global,
    job: &Job,
    parts: &Parts,
    order: &[u16],
) -> Result<Option<Audited>, AllocError>
    requires order { OrderList (plan job.now) order.now }
    requires parts { AreParts (plan job.now) parts.now }
    ensures is { IfOk result (λ found. IfSome found (IsAudited (plan job.now))) }
    ensures shown { IfOk result (λ found. IsSome found ↔ NoneConflict (plan job.now)) }
{
    if !none_conflict(job, parts) {
        return Ok(None);
    }
    let lines = Lines::none(alloc, job)?;
    let order = widened(alloc, order)?;
    Ok(Some(Audited {
        order,
        lines,
        lists: Vec::new(alloc),
        chained: false,
    }))
}

/// What is made of these lines, these drafts and this order list.
pub fn audited_from(
    alloc: Global,
    lines: Lines,
    drafts: Drafts,
    order: &[u16],
) -> Result<Audited, AllocError>
    ensures { IfOk result (IsMadeOf lines drafts order.now) }
{
    let order = widened(alloc, order)?;
    let chained = drafts.chained;
    let lists = drafts.into_lists()?;
    Ok(Audited {
        order,
        lines,
        lists,
        chained,
    })
}

/// What an audit finds of a job that has this order list, or the first two packets that aren't ordered.
pub fn audited_alone(
    alloc: Global,
    before: &Before,
    parts: &Parts,
    order: &[u16],
) -> Result<Audited, AuditNo>
    requires order { OrderList before.now order.now }
    requires parts { AreParts before.now parts.now }
    ensures is { IfOk result (IsAudited before.now) }
    ensures shown { IfOk result (λ _. AllShown before.now) }
    ensures refused { IfErr result (AllRefused before.now) }
{
    let drafts = draft_all(alloc, before, parts)?;
    let lines = lines_for(&Alone, alloc, before, &drafts.needs)?;
    let audited = audited_from(alloc, lines, drafts, order)?;
    Ok(audited)
}
