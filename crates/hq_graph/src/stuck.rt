//! The packets that can never complete.

ghost use Rattle.std.specs.Prelude.{◌≡◌, ◌↔◌, [], IfOk, IfErr, IsTrue, length};
ghost use Rattle.hq_job.specs.Plan.{plan};
ghost use Rattle.hq_model.specs.Order as order;
ghost use Rattle.hq_model.specs.Order.{OrderList};
ghost use Rattle.hq_schedule.specs.Placing.{AreStuck, HasCome};
ghost use Rattle.hq_graph.specs.Known.{TellsStuck};
ghost use Rattle.hq_graph.specs.declared.fault.GraphFault.TheVariants.{Memory};

use crate::fault::GraphFault;
use crate::turns::{first_barred, turns_of};
use hq_bits::{empty, has, insert};
use hq_job::Job;
use hq_order::laws::none_where_stuck;
use hq_schedule::schedule;
use hq_waits::OrderFault;
use std::alloc::{AllocError, Global};

/// The packets that can never complete, as a set, and whether there are such. If so, also when each packet is
/// submitted, and the first turn at which one isn't: none from there on is.
#[derive(Drop)]
pub struct Stuck {
    pub row: Vec<u64>,
    pub some: bool,
    pub turns: Vec<usize>,
    pub barred: usize,
}

impl Stuck {
    /// Whether a packet can never complete.
    pub fn has(&self, job: &Job, p: usize) -> bool
        requires { TellsStuck (plan job.now) self.now }
        ensures { IsTrue result ↔ order.Stuck (plan job.now) p }
    {
        has(&self.row, p)
    }
}

/// How many words a set of any numbers of 16 bits has.
const WORDS: usize = 1024;

/// Takes the numbers of a list in.
fn insert_each(row: &mut [u64], list: &[u16])
    requires len { length row.old ≡ WORDS }
    requires none { HasCome row.old [] }
    ensures { HasCome row.new list.now }
{
    for number in list {
        insert(row, *number as usize);
    }
}

/// The set of the numbers of a list.
fn row_of(alloc: Global, list: &[u16]) -> Result<Vec<u64>, AllocError>
    ensures { IfOk result (λ row. HasCome row.items list.now) }
{
    let mut row = empty(alloc, WORDS)?;
    insert_each(&mut row, list);
    Ok(row)
}

/// What is known where there is an order list.
fn none_of(alloc: Global, job: &Job, order: &[u16]) -> Result<Stuck, GraphFault>
    requires { OrderList (plan job.now) order.now }
    ensures tells { IfOk result (TellsStuck (plan job.now)) }
    ensures memory { IfErr result (λ e. e ≡ Memory) }
{
    none_where_stuck();
    let row = empty(alloc, 0)?;
    Ok(Stuck {
        row,
        some: false,
        turns: Vec::new(alloc),
        barred: 0,
    })
}

/// What is known where these are the packets that can never complete.
fn some_of(alloc: Global, job: &Job, list: &[u16]) -> Result<Stuck, GraphFault>
    requires { AreStuck (plan job.now) list.now }
    ensures tells { IfOk result (TellsStuck (plan job.now)) }
    ensures memory { IfErr result (λ e. e ≡ Memory) }
{
    let row = row_of(alloc, list)?;
    let turns = turns_of(alloc, job)?;
    let barred = first_barred(job, &row);
    Ok(Stuck {
        row,
        some: true,
        turns,
        barred,
    })
}

/// The packets of a job that can never complete.
///
/// # Errors
///
/// `Memory` alone is to be expected, since nothing is written.
pub fn stuck_of(alloc: Global, job: &Job) -> Result<Stuck, GraphFault>
    ensures tells { IfOk result (TellsStuck (plan job.now)) }
    ensures memory { IfErr result (λ e. e ≡ Memory) }
{
    match schedule(alloc, job) {
        Ok(order) => none_of(alloc, job, &order),
        Err(OrderFault::Stuck(list)) => some_of(alloc, job, &list),
        Err(OrderFault::Memory) => Err(GraphFault::Memory),
    }
}
