//! What the owner of a seat knows of its queue's packets, beside the token whose list says so.

ghost use Rattle.std.specs.Prelude.{◌≡◌, ◌+◌, ℕ, ◌<◌, length, MatchOption, IfOk, replicate};
ghost use Rattle.std.specs.Prelude.{IsTrue, false, ◌↔◌};
ghost use Rattle.hq_job.specs.Plan.{plan};
ghost use Rattle.hq_model.specs.Job.{packet as packet_of, Dependency};
ghost use Rattle.hq_model.specs.Machine.{MayLaunch};
ghost use Rattle.hq_board.specs.History.{after, IsOpen, May, MayLook};
ghost use Rattle.hq_board.specs.Known.{BitLets, IsHeld, IsOwn, IsReady, Tied, log_of, phase_at};
ghost use Rattle.hq_events.specs.Phases.{named};
ghost use Rattle.hq_events.specs.declared.phase.Phase.TheVariants as phase;
ghost use Rattle.hq_board.specs.Rule.{newcomer};
ghost use Rattle.hq_board.specs.declared.entry.Entry.TheVariants.{DidEnter, DidComplete};

use crate::words::Token;
use hq_events::Phase;
use hq_events::packets::dependency;
use hq_events::starts::nothing_observed;
use hq_events::waiting::wait_is_over;
use hq_job::Job;
use std::alloc::{AllocError, Global};

/// What is known of the packets of one queue, which are those from the number `first` on.
#[derive(Drop)]
pub struct Known {
    pub token: Token,
    pub queue: usize,
    pub first: usize,
    /// Each packet's phase, and which of its slots it has observed.
    pub phases: Vec<Phase>,
    pub observed: Vec<[bool; 5]>,
    /// How many packets were launched, and how many are complete.
    pub launched: usize,
    pub completed: usize,
}

/// The phases of packets of which none was launched.
fn all_queued(alloc: Global, count: usize) -> Result<Vec<Phase>, AllocError>
    ensures { IfOk result (λ phases. phases.items ≡ replicate count phase.InQueue) }
{
    let phases = vec![in alloc; Phase::InQueue; count]?;
    Ok(phases)
}

impl Known {
    /// Of a queue that has done nothing.
    pub fn new(alloc: Global, job: &Job, queue: usize, token: Token) -> Result<Known, AllocError>
        requires queue { queue < length job.now.queues }
        requires rings { job.now.rings ≡ false }
        requires token { token.me.0 ≡ newcomer queue }
        ensures { IfOk result (λ known. Tied (plan job.now) known × (known.token ≡ token) × (known.queue ≡ queue)) }
    {
        job.valid();
        let packets = job.of_queue(queue);
        let count = packets.len();
        Ok(Known {
            token,
            queue,
            first: packets.start,
            phases: all_queued(alloc, count)?,
            observed: nothing_observed(alloc, count)?,
            launched: 0,
            completed: 0,
        })
    }

    /// The token alone.
    pub fn into_token(self) -> Token
        ensures { result ≡ self.token }
    {
        let Known {
            token,
            queue: _,
            first: _,
            phases: _,
            observed: _,
            launched: _,
            completed: _,
        } = self;
        token
    }

    /// Whether the packet at this place is in a phase.
    #[tactic(auto, using(crate::proofs::Knowing::phase_same))]
    fn is_in(&self, place: usize, phase: Phase) -> bool
        requires { place < length self.now.phases.items }
        ensures { IsTrue result ↔ (phase_at self.now place ≡ named phase) }
    {
        self.phases[place] == phase
    }

    /// The place of a packet in the queue, if it is one of its packets.
    pub fn place_of(&self, packet: usize) -> Option<usize>
        ensures { MatchOption result (IsOwn self.now packet → ⊥)
            (λ place. (packet ≡ self.now.first + place) × (place < length self.now.phases.items)) }
    {
        let place = packet.checked_sub(self.first)?;
        if place < self.phases.len() {
            Some(place)
        } else {
            None
        }
    }
}

/// Whether the packet that was launched last is a barrier packet that isn't complete.
fn is_held(job: &Job, known: &Known) -> bool
    requires tied { Tied (plan job.now) known.now }
    ensures { IsTrue result ↔ IsHeld (plan job.now) known.now }
{
    if known.launched == 0 {
        return false;
    }
    job.valid();
    let last = known.launched - 1;
    job.is_barrier(known.first + last) && !known.is_in(last, Phase::Complete)
}

/// Whether the barrier bit of the next packet lets it be launched.
fn bit_lets(job: &Job, known: &Known) -> bool
    requires tied { Tied (plan job.now) known.now }
    requires next { known.now.launched < length known.now.phases.items }
    ensures { IsTrue result ↔ BitLets (plan job.now) known.now }
{
    job.valid();
    !job.has_bit(known.first + known.launched) || known.completed == known.launched
}

/// Whether there is a next packet, and it may be launched.
fn is_ready(job: &Job, known: &Known) -> bool
    requires tied { Tied (plan job.now) known.now }
    ensures { IsTrue result ↔ IsReady (plan job.now) known.now }
{
    known.launched < known.phases.len() && !is_held(job, known) && bit_lets(job, known)
}

/// The number of the packet that may be launched next. It takes as long however many packets there are.
pub fn next_launch(job: &Job, known: &Known) -> Option<usize>
    requires tied { Tied (plan job.now) known.now }
    ensures { MatchOption result
        ((p : ℕ) → MayLaunch (plan job.now) (after (plan job.now) (log_of known.now)) known.now.queue p → ⊥)
        (λ p. MayLaunch (plan job.now) (after (plan job.now) (log_of known.now)) known.now.queue p
        × (p ≡ known.now.first + known.now.launched) × (known.now.launched < length known.now.phases.items)) }
{
    if !is_ready(job, known) {
        return None;
    }
    job.valid();
    Some(known.first + known.launched)
}

/// Whether the packet at this place of the queue is a launched barrier packet that hasn't observed the slot.
#[tactic(auto, using(crate::proofs::Knowing::is_open))]
fn is_open(job: &Job, known: &Known, place: usize, slot: usize) -> bool
    requires tied { Tied (plan job.now) known.now }
    requires place { place < length known.now.phases.items }
    requires slot { slot < 5 }
    ensures { IsTrue result
        ↔ IsOpen (plan job.now) (after (plan job.now) (log_of known.now)) (known.now.first + place) slot }
{
    job.valid();
    job.is_barrier(known.first + place)
        && known.is_in(place, Phase::Launched)
        && !known.observed[place][slot]
}

/// The signal of a slot that may be observed, and the packet's place in the queue.
pub fn may_look(job: &Job, known: &Known, packet: usize, slot: usize) -> Option<(usize, usize)>
    requires tied { Tied (plan job.now) known.now }
    ensures { MatchOption result
        ((packet_of (plan job.now) packet).queue ≡ known.now.queue
        → MayLook (plan job.now) (after (plan job.now) (log_of known.now)) packet slot → ⊥)
        (λ found. (packet ≡ known.now.first + found.1) × (found.1 < length known.now.phases.items) × (slot < 5)
        × Dependency (plan job.now) packet slot found.0
        × MayLook (plan job.now) (after (plan job.now) (log_of known.now)) packet slot) }
{
    let Some(place) = known.place_of(packet) else {
        return None;
    };
    let Some(signal) = dependency(job, packet, slot) else {
        return None;
    };
    if !is_open(job, known, place, slot) {
        return None;
    }
    Some((signal as usize, place))
}

/// The place of a packet that may be entered.
pub fn may_enter(job: &Job, known: &Known, packet: usize) -> Option<usize>
    requires tied { Tied (plan job.now) known.now }
    ensures { MatchOption result
        ((packet_of (plan job.now) packet).queue ≡ known.now.queue
        → May (plan job.now) (after (plan job.now) (log_of known.now)) (DidEnter packet) → ⊥)
        (λ place. (packet ≡ known.now.first + place) × (place < length known.now.phases.items)
        × May (plan job.now) (after (plan job.now) (log_of known.now)) (DidEnter packet)) }
{
    let Some(place) = known.place_of(packet) else {
        return None;
    };
    if !known.is_in(place, Phase::Launched) {
        return None;
    }
    if !wait_is_over(job, packet, &known.observed[place]) {
        return None;
    }
    Some(place)
}

/// The place of a packet that may be completed.
pub fn may_complete(job: &Job, known: &Known, packet: usize) -> Option<usize>
    requires tied { Tied (plan job.now) known.now }
    ensures { MatchOption result
        ((packet_of (plan job.now) packet).queue ≡ known.now.queue
        → May (plan job.now) (after (plan job.now) (log_of known.now)) (DidComplete packet) → ⊥)
        (λ place. (packet ≡ known.now.first + place) × (place < length known.now.phases.items)
        × May (plan job.now) (after (plan job.now) (log_of known.now)) (DidComplete packet)) }
{
    let Some(place) = known.place_of(packet) else {
        return None;
    };
    if !known.is_in(place, Phase::Active) {
        return None;
    }
    Some(place)
}
