ghost use Rattle.std.specs.Prelude.{IfSome};
ghost use Rattle.hq_job.specs.Plan.{plan};
ghost use Rattle.hq_machine.specs.View.{IsStateOf};

use hq_job::Job;
use hq_jobtext::read_text;
use hq_machine::{Event, Journal, State};
use hq_timeline::replay;
use hq_witness::{Kind, Origin, Place, Why, Witness, WitnessNo, witness};
use std::alloc::Global;
use std::process::Abort;
use std::test::*;

/// A fill of four bytes and a copy of them in one queue; the copy has no acquire fence.
const NO_ACQUIRE: &[u8] =
    b"hsaq 1\nagent a\nbuffer b 4096 8\nargs k0 256 00100000000000000700000000000000\n\
      args k1 512 00100000000000000410000000000000\nkernel f 1 fill\nkernel c 2 copy\nqueue q a 4\n\
      packet 0215010001000100010000000400000001000000010000000000000000000000\
             0100000000000000000100000000000000000000000000000000000000000000\n\
      packet 0211010001000100010000000400000001000000010000000000000000000000\
             0200000000000000000200000000000000000000000000000000000000000000\n\
      end";

/// The same with both fences, and without the barrier bit.
const NO_BIT: &[u8] =
    b"hsaq 1\nagent a\nbuffer b 4096 8\nargs k0 256 00100000000000000700000000000000\n\
      args k1 512 00100000000000000410000000000000\nkernel f 1 fill\nkernel c 2 copy\nqueue q a 4\n\
      packet 0214010001000100010000000400000001000000010000000000000000000000\
             0100000000000000000100000000000000000000000000000000000000000000\n\
      packet 0214010001000100010000000400000001000000010000000000000000000000\
             0200000000000000000200000000000000000000000000000000000000000000\n\
      end";

/// Both fences and the bit.
const ORDERED: &[u8] =
    b"hsaq 1\nagent a\nbuffer b 4096 8\nargs k0 256 00100000000000000700000000000000\n\
      args k1 512 00100000000000000410000000000000\nkernel f 1 fill\nkernel c 2 copy\nqueue q a 4\n\
      packet 0215010001000100010000000400000001000000010000000000000000000000\
             0100000000000000000100000000000000000000000000000000000000000000\n\
      packet 0215010001000100010000000400000001000000010000000000000000000000\
             0200000000000000000200000000000000000000000000000000000000000000\n\
      end";

/// As without the bit, in a ring of one slot.
const RING: &[u8] =
    b"hsaq 2\nagent a\nbuffer b 4096 8\nargs k0 256 00100000000000000700000000000000\n\
      args k1 512 00100000000000000410000000000000\nkernel f 1 fill\nkernel c 2 copy\nqueue q a 1\n\
      packet 0214010001000100010000000400000001000000010000000000000000000000\
             0100000000000000000100000000000000000000000000000000000000000000\n\
      packet 0210010001000100010000000400000001000000010000000000000000000000\
             0200000000000000000200000000000000000000000000000000000000000000\n\
      end";

/// Two fills of the same bytes on two agents, the first without a release fence.
const OLDER: &[u8] =
    b"hsaq 1\nagent a\nbuffer b 4096 8\nargs k0 256 00100000000000000700000000000000\n\
      args k1 512 00100000000000000410000000000000\nkernel f 1 fill\nkernel c 2 copy\nagent c\n\
      args k2 768 00100000000000000900000000000000\nsignal s 9 1\nqueue p a 4\n\
      packet 0200010001000100010000000400000001000000010000000000000000000000\
             0100000000000000000100000000000000000000000000000900000000000000\n\
      queue r c 4\n\
      packet 0300000000000000090000000000000000000000000000000000000000000000\
             0000000000000000000000000000000000000000000000000000000000000000\n\
      packet 0214010001000100010000000400000001000000010000000000000000000000\
             0100000000000000000300000000000000000000000000000000000000000000\n\
      end";

/// A fill on one agent and a copy on another, with a release that goes on, and an acquire that doesn't come from
/// the system.
const CHAIN: &[u8] =
    b"hsaq 1\nagent a\nbuffer b 4096 8\nargs k0 256 00100000000000000700000000000000\n\
      args k1 512 00100000000000000410000000000000\nkernel f 1 fill\nkernel c 2 copy\nagent c\nsignal s 9 1\n\
      signal t 10 1\nsignal u 11 1\nqueue p a 4\n\
      packet 0208010001000100010000000400000001000000010000000000000000000000\
             0100000000000000000100000000000000000000000000000900000000000000\n\
      queue m a 4\n\
      packet 0310000000000000090000000000000000000000000000000000000000000000\
             0000000000000000000000000000000000000000000000000a00000000000000\n\
      queue n c 4\n\
      packet 03000000000000000a0000000000000000000000000000000000000000000000\
             0000000000000000000000000000000000000000000000000b00000000000000\n\
      queue r c 4\n\
      packet 03000000000000000b0000000000000000000000000000000000000000000000\
             0000000000000000000000000000000000000000000000000000000000000000\n\
      packet 0202010001000100010000000400000001000000010000000000000000000000\
             0200000000000000000200000000000000000000000000000000000000000000\n\
      end";

/// A barrier packet whose signal is never lowered since a packet of its own queue lowers it.
const STUCK: &[u8] = b"hsaq 1\nagent a\nsignal s 9 1\nqueue q a 4\n\
      packet 0300000000000000090000000000000000000000000000000000000000000000\
             0000000000000000000000000000000000000000000000000000000000000000\n\
      packet 0400028000000000000000000000000000000000000000000000000000000000\
             0000000000000000000000000000000000000000000000000900000000000000\n\
      end";

/// What two runs are told to differ in: the pair, its kind and why; the place, and the origins and bytes there.
#[derive(Clone, Copy)]
struct Told {
    pair: (u16, u16),
    kind: Kind,
    why: Why,
    place: Place,
    origins: (Origin, Origin),
    bytes: (u8, u8),
}

/// Makes the events happen. Of the state no more is said than that it is one of the job.
fn walk(state: &mut State, job: &Job, events: &[Event]) -> bool
    requires { IsStateOf (plan job.now) state.old }
    ensures { IsStateOf (plan job.now) state.new }
{
    for event in events {
        if state.apply(job, *event).is_err() {
            return false;
        }
    }
    true
}

/// The state after a run, if the run can be made and there is memory for it.
fn state_after(alloc: Global, job: &Job, journal: &Journal) -> Option<State>
    ensures { IfSome result (λ s. IsStateOf (plan job.now) s) }
{
    let Ok(mut state) = State::start(alloc, job) else {
        return None;
    };
    if !walk(&mut state, job, journal.events()) {
        return None;
    }
    Some(state)
}

/// The byte that a packet has read as an entry after a run.
fn read_after(alloc: Global, job: &Job, journal: &Journal, packet: u32, entry: u32) -> Option<u8> {
    let state = state_after(alloc, job, journal)?;
    let packet = packet as usize;
    if packet >= state.packets() {
        return None;
    }
    state.read_byte(packet, entry as usize)
}

/// What memory is after a run.
fn memory_after(alloc: Global, job: &Job, journal: &Journal) -> Option<Vec<u8>> {
    replay(alloc, job, journal).ok()
}

/// The byte of a place after a run: a read one, or one of memory as a replay leaves it.
fn byte_after(alloc: Global, job: &Job, journal: &Journal, place: Place) -> Option<u8> {
    let memory = memory_after(alloc, job, journal)?;
    match place {
        Place::Memory { byte } => memory.get(byte as usize).copied(),
        Place::Read { packet, entry } => read_after(alloc, job, journal, packet, entry),
    }
}

/// Whether a witness says so, and both runs replay to these bytes.
fn is_told(rt: &impl Abort, alloc: Global, job: &Job, witness: &Witness, told: &Told) {
    assert!(rt; witness.pair() == told.pair);
    assert!(rt; witness.kind() == told.kind && witness.why() == told.why);
    assert!(rt; witness.place() == told.place);
    assert!(rt; witness.good_origin() == told.origins.0);
    assert!(rt; witness.bad_origin() == told.origins.1);
    assert!(rt; byte_after(alloc, job, witness.good(), told.place) == Some(told.bytes.0));
    assert!(rt; byte_after(alloc, job, witness.bad(), told.place) == Some(told.bytes.1));
}

// Calls without contracts, so that no test is proved over all that a witness promises.

/// The job of a text.
fn job_of(alloc: Global, text: &[u8]) -> Option<Job> {
    read_text(alloc, text).ok()
}

/// The witness of a job, or why it has none.
fn witness_of(alloc: Global, job: &Job) -> Result<Witness, WitnessNo> {
    witness(alloc, job)
}

/// Whether a job's witness says so.
fn shows(rt: &impl Abort, alloc: Global, text: &[u8], told: &Told) {
    let Some(job) = job_of(alloc, text) else {
        assert!(rt; false);
        return;
    };
    match witness_of(alloc, &job) {
        Ok(witness) => is_told(rt, alloc, &job, &witness, told),
        Err(_) => assert!(rt; false),
    }
}

#[test]
fn old_byte_read(rt: HostRuntime) {
    let told = Told {
        pair: (0, 1),
        kind: Kind::WriteRead,
        why: Why::NotAcquired,
        place: Place::Read {
            packet: 1,
            entry: 0,
        },
        origins: (Origin::StoredBy { packet: 0 }, Origin::Start),
        bytes: (7, 0),
    };
    shows(&rt, rt.alloc(), NO_ACQUIRE, &told);
    let unordered = Told {
        why: Why::Unordered,
        ..told
    };
    shows(&rt, rt.alloc(), NO_BIT, &unordered);
    shows(&rt, rt.alloc(), RING, &unordered);
}

#[test]
fn old_byte_read_past_a_chain(rt: HostRuntime) {
    let told = Told {
        pair: (0, 4),
        kind: Kind::WriteRead,
        why: Why::NotAcquired,
        place: Place::Read {
            packet: 4,
            entry: 0,
        },
        origins: (Origin::StoredBy { packet: 0 }, Origin::Start),
        bytes: (7, 0),
    };
    shows(&rt, rt.alloc(), CHAIN, &told);
}

#[test]
fn older_byte_last(rt: HostRuntime) {
    let told = Told {
        pair: (0, 2),
        kind: Kind::WriteWrite,
        why: Why::NotReleased,
        place: Place::Memory { byte: 0 },
        origins: (
            Origin::StoredBy { packet: 2 },
            Origin::StoredBy { packet: 0 },
        ),
        bytes: (9, 7),
    };
    shows(&rt, rt.alloc(), OLDER, &told);
}

/// Why the job of a text has no witness.
fn no_witness(alloc: Global, text: &[u8]) -> Option<WitnessNo> {
    let job = job_of(alloc, text)?;
    witness_of(alloc, &job).err()
}

/// The packets that can never complete, if that is why the job of a text has no witness.
fn stuck_packets(alloc: Global, text: &[u8]) -> Option<Vec<u16>> {
    match no_witness(alloc, text) {
        Some(WitnessNo::Stuck(packets)) => Some(packets),
        _ => None,
    }
}

#[test]
fn none_where_ordered(rt: HostRuntime) {
    assert!(rt; matches!(no_witness(rt.alloc(), ORDERED), Some(WitnessNo::Ordered)));
}

#[test]
fn none_where_stuck(rt: HostRuntime) {
    let Some(packets) = stuck_packets(rt.alloc(), STUCK) else {
        assert!(rt; false);
        return;
    };
    assert!(rt; packets.as_slice() == [0, 1].as_slice());
}

/// The job of a text. It asks twice for memory.
fn read_again(alloc: Global, text: &[u8]) -> Option<Job> {
    match job_of(alloc, text) {
        Some(job) => Some(job),
        None => job_of(alloc, text),
    }
}

/// Whether a job has a witness of this pair. It asks twice for memory.
fn shows_again(alloc: Global, text: &[u8], pair: (u16, u16)) -> bool {
    let Some(job) = read_again(alloc, text) else {
        return false;
    };
    match witness_of(alloc, &job) {
        Ok(witness) => witness.pair() == pair,
        Err(WitnessNo::Memory) => match witness_of(alloc, &job) {
            Ok(witness) => witness.pair() == pair,
            Err(_) => false,
        },
        Err(_) => false,
    }
}

// Here no allocation is refused; `tests/refuse` refuses each in turn.
#[test]
fn what_is_refused_is_asked_for_once_more(rt: HostRuntime) {
    assert!(rt; shows_again(rt.alloc(), NO_BIT, (0, 1)));
    assert!(rt; shows_again(rt.alloc(), OLDER, (0, 2)));
}
