//! Copies of four bytes of memory: one agent, and one lane on it.

ghost use Rattle.std.specs.Prelude.{◌≡◌, length, IsTrue};

use hq_calls::good;
use hq_copies::{Copies, CopiesFault};
use hq_packet::Scope;
use std::alloc::Global;
use std::test::*;

/// How many bytes of memory there are.
const COUNT: usize = 4;

/// All bytes, no byte, and the second one alone.
const ALL: [bool; COUNT] = [true; COUNT];

const NONE: [bool; COUNT] = [false; COUNT];

const SECOND: [bool; COUNT] = [false, true, false, false];

/// Memory of zeros.
fn zeros(alloc: Global) -> Result<Copies, Fail> {
    let Ok(memory) = vec![in alloc; 0; COUNT] else {
        return Err("there is memory".into());
    };
    let Ok(lanes) = vec![in alloc; 0] else {
        return Err("there is memory".into());
    };
    good(Copies::new(alloc, memory, 1, lanes))
}

/// Whether there are four bytes of memory, one agent and one lane.
fn is_small(copies: &Copies) -> bool
    ensures { IsTrue result
        → (length copies.now.memory ≡ 4) × (length copies.now.agents ≡ 1) × (length copies.now.lanes ≡ 1) }
{
    copies.memory().len() == COUNT && copies.agents() == 1 && copies.lanes() == 1
}

/// A call for one byte.
#[derive(Clone, Copy)]
enum Call {
    Store(u8),
    FillLane,
    FillAgent,
    PushLane,
    PushAgent,
    DropLane,
    DropAgent,
}

/// What a call for a byte answers.
fn answer(copies: &mut Copies, call: Call, byte: usize) -> Option<Result<(), CopiesFault>> {
    if !is_small(copies) || byte >= COUNT {
        return None;
    }
    Some(match call {
        Call::Store(value) => copies.store(0, byte, value),
        Call::FillLane => copies.fill_lane(0, byte),
        Call::FillAgent => copies.fill_agent(0, byte),
        Call::PushLane => copies.push_lane(0, byte),
        Call::PushAgent => copies.push_agent(0, byte),
        Call::DropLane => copies.drop_lane(0, byte),
        Call::DropAgent => copies.drop_agent(0, byte),
    })
}

/// Which bytes the lane holds.
fn lane_held(copies: &Copies) -> Option<[bool; COUNT]> {
    if !is_small(copies) {
        return None;
    }
    Some([
        copies.lane_holds(0, 0),
        copies.lane_holds(0, 1),
        copies.lane_holds(0, 2),
        copies.lane_holds(0, 3),
    ])
}

/// Which bytes the agent holds.
fn agent_held(copies: &Copies) -> Option<[bool; COUNT]> {
    if !is_small(copies) {
        return None;
    }
    Some([
        copies.agent_holds(0, 0),
        copies.agent_holds(0, 1),
        copies.agent_holds(0, 2),
        copies.agent_holds(0, 3),
    ])
}

/// The byte that is seen through the lane.
fn seen(copies: &Copies, byte: usize) -> Option<u8> {
    if !is_small(copies) || byte >= COUNT {
        return None;
    }
    Some(copies.read(0, byte))
}

/// The bytes that are seen through the lane from the second one on.
fn seen_from_one(copies: &Copies) -> Option<[u8; 3]> {
    if !is_small(copies) {
        return None;
    }
    let mut bytes = [0; 3];
    copies.read_into(0, 1, &mut bytes);
    Some(bytes)
}

/// Whether a release with this scope has nothing left to do.
fn is_released(copies: &Copies, scope: Scope) -> bool {
    is_small(copies) && copies.is_released(0..1, 0, scope)
}

/// The least dirty bytes of the lane and of the agent.
fn first_dirty(copies: &Copies) -> Option<(Option<u32>, Option<u32>)> {
    if !is_small(copies) {
        return None;
    }
    Some((copies.first_dirty_lane(0), copies.first_dirty_agent(0)))
}

/// Has the lane acquire from the system.
fn acquires(copies: &mut Copies) -> bool {
    if !is_small(copies) {
        return false;
    }
    copies.acquire(0..1, 0, Scope::System);
    true
}

/// Stores two bytes from the second place on.
fn stores_two(copies: &mut Copies) -> bool {
    is_small(copies) && copies.store_run(0, 1, &[7, 8]).is_ok()
}

/// Releases all to the system.
fn releases(copies: &mut Copies) -> bool {
    is_small(copies) && copies.release(0..1, 0, Scope::System).is_ok()
}

/// What happens to copies, or what is seen of them.
#[derive(Clone, Copy)]
enum Step {
    /// A call for a byte answers so.
    Answers(Call, usize, Result<(), CopiesFault>),
    /// A call for a byte goes well.
    Does(Call, usize),
    /// The lane holds these bytes, and the agent those.
    Holds([bool; COUNT], [bool; COUNT]),
    /// A byte is so through the lane.
    Sees(usize, u8),
    /// The bytes from the second one on are so through the lane.
    SeesFromOne([u8; 3]),
    /// Whether a release with this scope has nothing left to do.
    Released(Scope, bool),
    /// The least dirty bytes of the lane and of the agent.
    FirstDirty(Option<u32>, Option<u32>),
    /// The bytes of memory.
    Memory([u8; COUNT]),
    /// The lane acquires from the system.
    Acquires,
    /// Two bytes are stored from the second place on.
    StoresTwo,
    /// All is released to the system.
    Releases,
}

/// Whether a step is as it says.
fn is_so(copies: &mut Copies, step: Step) -> bool {
    match step {
        Step::Answers(call, byte, is) => answer(copies, call, byte) == Some(is),
        Step::Does(call, byte) => answer(copies, call, byte) == Some(Ok(())),
        Step::Holds(lane, agent) => {
            lane_held(copies) == Some(lane) && agent_held(copies) == Some(agent)
        }
        Step::Sees(byte, is) => seen(copies, byte) == Some(is),
        Step::SeesFromOne(bytes) => seen_from_one(copies) == Some(bytes),
        Step::Released(scope, is) => is_released(copies, scope) == is,
        Step::FirstDirty(lane, agent) => first_dirty(copies) == Some((lane, agent)),
        Step::Memory(bytes) => copies.memory() == bytes.as_slice(),
        Step::Acquires => acquires(copies),
        Step::StoresTwo => stores_two(copies),
        Step::Releases => releases(copies),
    }
}

/// The first of these steps, one behind the other, that isn't as it says.
fn first_wrong(copies: &mut Copies, steps: &[Step]) -> Option<usize> {
    for index in 0..steps.len() {
        if !is_so(copies, steps[index]) {
            return Some(index);
        }
    }
    None
}

/// The first of these steps from zeros on that isn't as it says.
fn first_wrong_from_zeros(alloc: Global, steps: &[Step]) -> Result<Option<usize>, Fail> {
    let mut copies = zeros(alloc)?;
    Ok(first_wrong(&mut copies, steps))
}

#[test]
fn a_byte_goes_down_to_memory(rt: HostRuntime) -> Result<(), Fail> {
    let steps = [
        Step::Sees(0, 0),
        Step::Does(Call::Store(9), 0),
        Step::Sees(0, 9),
        Step::Released(Scope::Agent, false),
        Step::Does(Call::PushLane, 0),
        Step::Released(Scope::Agent, true),
        Step::Released(Scope::System, false),
        Step::Does(Call::DropLane, 0),
        Step::Sees(0, 9),
        Step::Does(Call::PushAgent, 0),
        Step::Memory([9, 0, 0, 0]),
    ];
    assert_eq!(rt; first_wrong_from_zeros(rt.alloc(), &steps)?, None);
    Ok(())
}

/// Whether copies to which a byte goes down have it, and a copy of them too.
fn is_copied(alloc: Global, copies: &mut Copies) -> Result<bool, Fail> {
    let steps = [
        Step::Does(Call::Store(9), 0),
        Step::Does(Call::PushLane, 0),
        Step::Does(Call::PushAgent, 0),
    ];
    if first_wrong(copies, &steps).is_some() {
        return Ok(false);
    }
    let copied = good(copies.copy(alloc))?;
    Ok(copied.memory() == [9, 0, 0, 0].as_slice())
}

#[test]
fn a_copy_has_the_same_memory(rt: HostRuntime) -> Result<(), Fail> {
    let mut copies = zeros(rt.alloc())?;
    assert!(rt; is_copied(rt.alloc(), &mut copies)?);
    Ok(())
}

#[test]
fn a_call_refuses(rt: HostRuntime) -> Result<(), Fail> {
    let steps = [
        Step::Does(Call::Store(9), 0),
        Step::Answers(Call::FillLane, 0, Err(CopiesFault::Present)),
        Step::Answers(Call::DropLane, 0, Err(CopiesFault::NotClean)),
        Step::Answers(Call::PushAgent, 0, Err(CopiesFault::NotDirty)),
    ];
    assert_eq!(rt; first_wrong_from_zeros(rt.alloc(), &steps)?, None);
    Ok(())
}

#[test]
fn copies_are_pushed_dropped_and_filled(rt: HostRuntime) -> Result<(), Fail> {
    let steps = [
        Step::Does(Call::Store(7), 0),
        Step::Does(Call::Store(7), 1),
        Step::Does(Call::Store(7), 2),
        Step::Does(Call::Store(7), 3),
        Step::Holds(ALL, NONE),
        Step::Does(Call::PushLane, 1),
        Step::Holds(ALL, SECOND),
        Step::FirstDirty(Some(0), Some(1)),
        Step::Does(Call::DropLane, 1),
        Step::Holds([true, false, true, true], SECOND),
        Step::Does(Call::FillLane, 1),
        Step::Holds(ALL, SECOND),
    ];
    assert_eq!(rt; first_wrong_from_zeros(rt.alloc(), &steps)?, None);
    Ok(())
}

#[test]
fn pushed_copies_stay_below(rt: HostRuntime) -> Result<(), Fail> {
    let steps = [
        Step::Does(Call::Store(7), 0),
        Step::Does(Call::Store(7), 1),
        Step::Does(Call::Store(7), 2),
        Step::Does(Call::Store(7), 3),
        Step::Does(Call::PushLane, 3),
        Step::Does(Call::PushLane, 2),
        Step::Does(Call::PushLane, 1),
        Step::Does(Call::PushLane, 0),
        Step::Holds(ALL, ALL),
        Step::FirstDirty(None, Some(0)),
        Step::SeesFromOne([7, 7, 7]),
        Step::Acquires,
        Step::Holds(NONE, ALL),
    ];
    assert_eq!(rt; first_wrong_from_zeros(rt.alloc(), &steps)?, None);
    Ok(())
}

#[test]
fn ranges_are_stored_and_released(rt: HostRuntime) -> Result<(), Fail> {
    let steps = [
        Step::Does(Call::FillAgent, 3),
        Step::Holds(NONE, [false, false, false, true]),
        Step::Does(Call::DropAgent, 3),
        Step::Holds(NONE, NONE),
        Step::StoresTwo,
        Step::Releases,
        Step::Memory([0, 7, 8, 0]),
    ];
    assert_eq!(rt; first_wrong_from_zeros(rt.alloc(), &steps)?, None);
    Ok(())
}
