//! The seat of a queue.

ghost use Rattle.std.specs.Prelude.{◌≡◌, ◌<◌, false, length, IfOk};
ghost use Rattle.hq_board.specs.Known.{Tied};
ghost use Rattle.hq_board.specs.Rule.{newcomer};
ghost use Rattle.hq_job.specs.Plan.{plan};

use crate::known::Known;
use crate::words::Token;
use hq_job::Job;
use std::alloc::{AllocError, Global};
use std::marker::Model;

/// The seat of a queue: what its processor has done, and may do next. Contracts see the list of its events and
/// looks, and what is kept of it for quick answers.
#[derive(Drop)]
pub struct Seat {
    pub(crate) known: Known,
}

impl Model for Seat {
    ghost use Rattle.hq_board.specs.declared.known.Known.{Known};

    ghost Value = { Known };

    ghost view = { λ s. s.known };
}

impl Seat {
    /// A seat that has done nothing.
    pub(crate) fn new(
        alloc: Global,
        job: &Job,
        queue: usize,
        token: Token,
    ) -> Result<Seat, AllocError>
        requires queue { queue < length job.now.queues }
        requires rings { job.now.rings ≡ false }
        requires token { token.me.0 ≡ newcomer queue }
        ensures { IfOk result (λ seat. Tied (plan job.now) seat × (seat.token ≡ token) × (seat.queue ≡ queue)) }
    {
        Ok(Seat {
            known: Known::new(alloc, job, queue, token)?,
        })
    }

    /// The number of the queue.
    pub fn queue(&self) -> usize
        ensures { result ≡ self.now.queue }
    {
        self.known.queue
    }

    /// What is known of it.
    pub(crate) fn into_token(self) -> Token
        ensures { result ≡ self.token }
    {
        self.known.into_token()
    }
}
