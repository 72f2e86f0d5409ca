//! Whose event an event is.

ghost use Rattle.std.specs.Prelude.{◌≡◌, ◌==◌, ◌↔◌, IsTrue, filter, All};
ghost use Rattle.hq_job.specs.Plan.{plan};
ghost use Rattle.hq_model.specs.Job.{packet as packet_of};
ghost use Rattle.hq_runner.specs.Journals.{is_asked, owned};

use hq_job::Job;
use hq_machine::Event;

/// Whose list it is: that of a queue's processor, or the host's.
#[derive(Clone, Copy, Debug)]
pub enum Owner {
    Queue(usize),
    Host,
}

/// Whether the packet is in the queue. What isn't a packet counts for queue 0.
fn is_in(job: &Job, packet: u32, queue: usize) -> bool
    ensures { result ≡ ((packet_of (plan job.now) packet).queue == queue) }
{
    match job.packets().get(packet as usize) {
        Some(placed) => placed.queue as usize == queue,
        None => queue == 0,
    }
}

/// Whether the event is the owner's.
fn owns(job: &Job, owner: Owner, event: Event) -> bool
    ensures { result ≡ owned (plan job.now) owner event }
{
    let Owner::Queue(queue) = owner else {
        return matches!(event, Event::Submit);
    };
    match event {
        Event::Launch { queue: number } => number as usize == queue,
        Event::Observe { packet, slot: _ } => is_in(job, packet, queue),
        Event::Enter { packet } => is_in(job, packet, queue),
        Event::Fetch { packet } => is_in(job, packet, queue),
        Event::Deliver { packet } => is_in(job, packet, queue),
        Event::Complete { packet } => is_in(job, packet, queue),
        _ => false,
    }
}

/// Whether both are the same event.
fn same_event(first: Event, second: Event) -> bool
    ensures { IsTrue result ↔ (first ≡ second) }
{
    first == second
}

/// Whether the list has just the events that are the owner's in the journal, in their order.
pub fn is_receipt(job: &Job, owner: Owner, journal: &[Event], list: &[Event]) -> bool
    ensures { IsTrue result ↔ (filter (owned (plan job.now) owner) journal.now ≡ list.now) }
{
    let mut next = 0;
    for event in journal {
        if owns(job, owner, *event) {
            if next >= list.len() || !same_event(list[next], *event) {
                return false;
            }
            next += 1;
        }
    }
    next == list.len()
}

/// Whether a processor or the host asks for such events.
fn is_asked(event: Event) -> bool
    ensures { result ≡ is_asked event }
{
    match event {
        Event::Submit => true,
        Event::Launch { queue: _ } => true,
        Event::Observe { packet: _, slot: _ } => true,
        Event::Enter { packet: _ } => true,
        Event::Fetch { packet: _ } => true,
        Event::Deliver { packet: _ } => true,
        Event::Complete { packet: _ } => true,
        _ => false,
    }
}

/// Whether each event is one that a processor or the host asks for.
pub fn are_asked(journal: &[Event]) -> bool
    ensures { IsTrue result ↔ All (λ event. IsTrue (is_asked event)) journal.now }
{
    for event in journal {
        if !is_asked(*event) {
            return false;
        }
    }
    true
}
