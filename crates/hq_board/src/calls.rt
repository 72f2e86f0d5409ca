//! What the owner of a seat may do with the board's words. Each call takes one step on one word, or none where it
//! is refused.

ghost use Rattle.std.specs.Prelude.{◌≡◌, ◌<◌, ◌+◌, MatchResult, true};
ghost use Rattle.hq_job.specs.Plan.{plan};
ghost use Rattle.hq_board.specs.Calls.{Completes, CompleteRefused, Enters, EnterRefused, Launches, LaunchRefused};
ghost use Rattle.hq_board.specs.Calls.{Observes, ObserveRefused};
ghost use Rattle.hq_board.specs.Known.{Tied};

use crate::fault::BoardFault;
use crate::known::{Known, may_complete, may_enter, may_look, next_launch};
use crate::words::Words;
use hq_events::Phase;
use std::marker::Brand;

impl<'a> Words<'a> {
    /// Launches the queue's next packet, and answers its number.
    pub fn launch(&self, known: &mut Known) -> Result<usize, BoardFault>
        requires table { known.old.token.table_id ≡ self.now.table.shared.table_id }
        requires tied { Tied (plan self.now.job.now) known.old }
        ensures tied { Tied (plan self.now.job.now) known.new }
        ensures list { MatchResult result (Launches (plan self.now.job.now) known.old known.new)
            (LaunchRefused (plan self.now.job.now) known.old known.new) }
    {
        let Some(packet) = next_launch(self.job, known) else {
            return Err(BoardFault::NotNext);
        };
        self.step_own::<Brand>(&mut known.token, known.queue, packet);
        known.phases[known.launched] = Phase::Launched;
        known.launched += 1;
        Ok(packet)
    }

    /// Observes a slot of a packet, if its signal is 0.
    pub fn observe(&self, known: &mut Known, packet: usize, slot: usize) -> Result<(), BoardFault>
        requires table { known.old.token.table_id ≡ self.now.table.shared.table_id }
        requires tied { Tied (plan self.now.job.now) known.old }
        ensures tied { Tied (plan self.now.job.now) known.new }
        ensures list { MatchResult result (λ _. Observes (plan self.now.job.now) known.old known.new packet slot)
            (ObserveRefused (plan self.now.job.now) known.old known.new packet slot) }
    {
        let Some((signal, place)) = may_look(self.job, known, packet, slot) else {
            return Err(BoardFault::NotNext);
        };
        let found = self.step_look::<Brand>(&mut known.token, packet, slot, signal);
        if found > 0 {
            return Err(BoardFault::NotZero(found));
        }
        known.observed[place][slot] = true;
        Ok(())
    }

    /// Enters a packet.
    pub fn enter(&self, known: &mut Known, packet: usize) -> Result<(), BoardFault>
        requires table { known.old.token.table_id ≡ self.now.table.shared.table_id }
        requires tied { Tied (plan self.now.job.now) known.old }
        ensures tied { Tied (plan self.now.job.now) known.new }
        ensures list { MatchResult result (λ _. Enters (plan self.now.job.now) known.old known.new packet)
            (EnterRefused (plan self.now.job.now) known.old known.new packet) }
    {
        let Some(place) = may_enter(self.job, known, packet) else {
            return Err(BoardFault::NotNext);
        };
        self.step_own::<Brand>(&mut known.token, known.queue, packet);
        known.phases[place] = Phase::Active;
        Ok(())
    }

    /// Completes a packet.
    pub fn complete(&self, known: &mut Known, packet: usize) -> Result<(), BoardFault>
        requires table { known.old.token.table_id ≡ self.now.table.shared.table_id }
        requires tied { Tied (plan self.now.job.now) known.old }
        ensures tied { Tied (plan self.now.job.now) known.new }
        ensures list { MatchResult result (λ _. Completes (plan self.now.job.now) known.old known.new packet)
            (CompleteRefused (plan self.now.job.now) known.old known.new packet) }
    {
        let Some(place) = may_complete(self.job, known, packet) else {
            return Err(BoardFault::NotEntered);
        };
        self.step_complete(&mut known.token, known.queue, packet);
        known.phases[place] = Phase::Complete;
        known.completed += 1;
        Ok(())
    }
}
