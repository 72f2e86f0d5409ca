//! The lines of round 0 added while those of later rounds are numbered, and these made by several threads.

ghost use Rattle.std.specs.Prelude.{OnOk};
ghost use Rattle.hq_derive.specs.Gathered.{AreSound, Begins};

use crate::gathering::add_initial;
use crate::later::Later;
use crate::lines::Lines;
use crate::making::{Making, make_parts};
use crate::numbering::Numbered;
use crate::ranks::Ranks;
use crate::short::Short;
use hq_order::Before;
use std::alloc::{AllocError, Global};
use std::thread::{Threads, join, join_mut};

/// The numbers of lines of later rounds, and room for the lines.
#[derive(Drop)]
struct Ready {
    numbered: Numbered,
    made: Vec<Short>,
}

/// Numbers lines of later rounds, and takes room for them.
fn make_ready(alloc: Global, before: &Before, ranks: &Ranks) -> Result<Ready, AllocError> {
    Ok(Ready {
        numbered: Numbered::new(alloc, before, ranks)?,
        made: vec![in alloc; Short::none(); ranks.later()]?,
    })
}

/// Does so in a thread of its own.
fn ready_beside<R: Threads>(
    rt: &R,
    alloc: Global,
    before: &Before,
    ranks: &Ranks,
) -> Result<Ready, AllocError> {
    let beside = || make_ready(alloc, before, ranks);
    let here = || {};
    let (ready, ()) = join(rt, beside, here);
    ready
}

/// Adds the needed lines of round 0 and numbers those of later rounds, each in a thread of its own; then makes the
/// latter, by several threads. All are started here, and this one only waits: the first that is started may be given this
/// thread's processor.
///
/// # Errors
///
/// `AllocError` where there is no memory, or a line of round 0 isn't so.
pub fn begin_wide<R: Threads>(
    rt: &R,
    lines: &mut Lines,
    alloc: Global,
    before: &Before,
    ranks: &Ranks,
) -> Result<Later, AllocError>
    requires { AreSound before.now lines.old }
    ensures { OnOk result (Begins before.now ranks.now lines.old lines.new) }
{
    let mut beside = || -> Result<(), AllocError>
        requires { AreSound before.now lines.now }
        ensures { OnOk result (Begins before.entry.now ranks.entry.now lines.entry.now lines.exit.now) }
    { add_initial(lines, alloc, before, ranks) };
    let mut here = || ready_beside(rt, alloc, before, ranks);
    let (added, ready) = join_mut(rt, &mut beside, &mut here);
    added?;
    let Ready { numbered, mut made } = ready?;
    let Numbered { numbers, starts } = numbered;
    let making = Making {
        ranks,
        numbers: &numbers,
    };
    make_parts(rt, &making, before, &mut made, &starts);
    Ok(Later {
        numbers,
        made: Some(made),
    })
}
