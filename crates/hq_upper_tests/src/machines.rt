ghost use Rattle.std.specs.Prelude.{IsSome, IfSome};
ghost use Rattle.hq_events.specs.Events.{single_of};
ghost use Rattle.hq_job.specs.Plan.{plan};
ghost use Rattle.hq_machine.specs.View.{IsStateOf};

use crate::jobs::job_of;
use hq_calls::good;
use hq_footprint::evaluate;
use hq_footprint::laws::{bytes_counted, entries_counted};
use hq_job::Job;
use hq_machine::{Event, Journal, Phase, State};
use std::alloc::{AllocError, Global};
use std::test::*;

/// A fill of four bytes and a copy of them, in one queue, with the barrier bit and system fences.
const JOB: &[u8] =
    b"hsaq 1\nagent a\nbuffer b 4096 8\nargs k0 256 00100000000000000700000000000000\n\
      args k1 512 00100000000000000410000000000000\nkernel f 1 fill\nkernel c 2 copy\nqueue q a 4\n\
      packet 0215010001000100010000000400000001000000010000000000000000000000\
             0100000000000000000100000000000000000000000000000000000000000000\n\
      packet 0215010001000100010000000400000001000000010000000000000000000000\
             0200000000000000000200000000000000000000000000000000000000000000\n\
      end\n";

/// Adds a packet's single steps, one by one; it writes four bytes, from this one on.
fn add_steps(journal: &mut Journal, packet: u32, first: u32, reads: u32) -> Result<(), AllocError> {
    journal.push(Event::Launch { queue: 0 })?;
    journal.push(Event::Enter { packet })?;
    for entry in 0..reads {
        journal.push(Event::Read { packet, entry })?;
    }
    for entry in 0..4 {
        journal.push(Event::Store { packet, entry })?;
    }
    for byte in 0..4 {
        let byte = first.saturating_add(byte);
        journal.push(Event::PushLane { packet, byte })?;
    }
    for byte in 0..4 {
        let byte = first.saturating_add(byte);
        journal.push(Event::PushAgent { agent: 0, byte })?;
    }
    journal.push(Event::Finish { packet })
}

// Of a state no more is said than that it is one of its job: a test is proved over all that is known of each state.

/// The state in which a run of a job starts, if there is memory for it.
fn started(alloc: Global, job: &Job) -> Option<State>
    ensures { IfSome result (λ s. IsStateOf (plan job.now) s) }
{
    match State::start(alloc, job) {
        Ok(state) => Some(state),
        Err(_) => None,
    }
}

/// Makes a single step, if it is one of the state's.
fn steps(state: &mut State, job: &Job, event: Event) -> bool
    requires is { IsStateOf (plan job.now) state.old }
    requires single { IsSome (single_of event) }
    ensures { IsStateOf (plan job.now) state.new }
{
    match state.step(job, event) {
        Ok(()) => true,
        Err(_) => false,
    }
}

/// Makes the events happen, each where work is left.
fn walk(state: &mut State, job: &Job, events: &[Event]) -> bool
    requires { IsStateOf (plan job.now) state.old }
    ensures { IsStateOf (plan job.now) state.new }
{
    for event in events {
        if state.work_left(job).is_none() || state.apply(job, *event).is_err() {
            return false;
        }
    }
    true
}

/// Whether nothing is left to do in a state, and all its packets are complete.
fn is_over(state: &State, job: &Job) -> bool
    requires { IsStateOf (plan job.now) state.now }
{
    state.work_left(job).is_none() && state.all_complete(0..state.packets())
}

/// Walks through a run of a job.
fn ends(alloc: Global, job: &Job, journal: &Journal) -> bool {
    let Some(mut state) = started(alloc, job) else {
        return false;
    };
    walk(&mut state, job, journal.events())
        && is_over(&state, job)
        && state.memory() == b"\x07\x07\x07\x07\x07\x07\x07\x07".as_slice()
}

/// The single steps of both packets.
fn all_steps(alloc: Global) -> Result<Journal, Fail> {
    let mut journal = Journal::new(alloc);
    good(add_steps(&mut journal, 0, 0, 0))?;
    good(add_steps(&mut journal, 1, 4, 4))?;
    Ok(journal)
}

#[test]
fn work_is_left_until_the_end(rt: HostRuntime) -> Result<(), Fail> {
    let job = job_of(rt.alloc(), JOB)?;
    let journal = all_steps(rt.alloc())?;
    assert_eq!(rt; journal.events().len(), 34);
    assert!(rt; ends(rt.alloc(), &job, &journal));
    Ok(())
}

/// Whether the packet of two, which write eight bytes, is in this phase, and has read this byte; and what it sees
/// in the first place.
fn shows(state: &State, job: &Job, packet: usize, phase: Phase, read: Option<u8>, seen: u8) -> bool
    requires { IsStateOf (plan job.now) state.now }
{
    if state.packets() <= packet || state.memory().len() != 8 {
        return false;
    }
    state.phase(packet) == phase
        && state.read_byte(packet, 0) == read
        && state.seen(packet, 0) == seen
}

/// Takes the fill to its first store by single steps.
fn stores_a_byte(alloc: Global, job: &Job) -> bool {
    let Some(mut state) = started(alloc, job) else {
        return false;
    };
    let queued = shows(&state, job, 0, Phase::InQueue, None, 0);
    let launch = steps(&mut state, job, Event::Launch { queue: 0 });
    let launched = shows(&state, job, 0, Phase::Launched, None, 0);
    let enter = steps(&mut state, job, Event::Enter { packet: 0 });
    let entry = 0;
    let store = steps(&mut state, job, Event::Store { packet: 0, entry });
    let stored = shows(&state, job, 0, Phase::Active, None, 7);
    let second = shows(&state, job, 1, Phase::InQueue, None, 0);
    launch & enter & store & queued & launched & stored & second
}

/// The fill, and the copy up to its fetch.
const UP_TO_THE_COPY: [Event; 7] = [
    Event::Launch { queue: 0 },
    Event::Enter { packet: 0 },
    Event::Fetch { packet: 0 },
    Event::Deliver { packet: 0 },
    Event::Complete { packet: 0 },
    Event::Launch { queue: 0 },
    Event::Enter { packet: 1 },
];

/// Takes the fill to its end and the copy to its first read.
fn reads_a_byte(alloc: Global, job: &Job) -> bool {
    let Some(mut state) = started(alloc, job) else {
        return false;
    };
    let walked = walk(&mut state, job, &UP_TO_THE_COPY);
    let (packet, entry) = (1, 0);
    let read = steps(&mut state, job, Event::Read { packet, entry });
    walked && read && shows(&state, job, 1, Phase::Active, Some(7), 7)
}

#[test]
fn single_steps_show(rt: HostRuntime) -> Result<(), Fail> {
    let job = job_of(rt.alloc(), JOB)?;
    assert!(rt; stores_a_byte(rt.alloc(), &job));
    assert!(rt; reads_a_byte(rt.alloc(), &job));
    Ok(())
}

/// Delivers the four bytes that a packet's task makes of none, as a kernel from outside would.
fn deliver_made(state: &mut State, job: &Job, packet: u32) -> bool
    requires { IsStateOf (plan job.now) state.old }
    ensures { IsStateOf (plan job.now) state.new }
{
    job.valid();
    bytes_counted();
    entries_counted();
    let number = packet as usize;
    if number >= job.packets().len() {
        return false;
    }
    let placed = job.packet(number);
    let [first, second] = placed.bytes.reads;
    if first.len != 0 || second.len != 0 || placed.bytes.write.len != 4 {
        return false;
    }
    let mut bytes = [0; 4];
    evaluate(&placed.work.task, &[], &mut bytes);
    state.deliver(job, packet, &bytes).is_ok()
}

/// Runs the first packet of a job, whose bytes are handed in; they are delivered once alone.
fn runs_from_outside(alloc: Global, job: &Job) -> bool {
    let Some(mut state) = started(alloc, job) else {
        return false;
    };
    let early = deliver_made(&mut state, job, 0);
    let (queue, packet) = (0, 0);
    let entered = walk(
        &mut state,
        job,
        &[Event::Launch { queue }, Event::Enter { packet }],
    );
    let once = deliver_made(&mut state, job, 0);
    let again = deliver_made(&mut state, job, 0);
    let completed = walk(&mut state, job, &[Event::Complete { packet }]);
    let delivered = entered && completed && !early && once && !again;
    delivered && state.memory() == b"\x07\x07\x07\x07\0\0\0\0".as_slice()
}

#[test]
fn bytes_from_outside_are_delivered(rt: HostRuntime) -> Result<(), Fail> {
    let job = job_of(rt.alloc(), JOB)?;
    assert!(rt; runs_from_outside(rt.alloc(), &job));
    Ok(())
}
