//! The events that processors and the host wait for.

ghost use Rattle.std.specs.Prelude.{◌≡◌};
ghost use Rattle.hq_runner.specs.Steps.{event_of};

use crate::fault::Fault;
use hq_hall::{Hall, HallFault};
use hq_machine::Event;

/// An event that moves no pieces.
#[derive(Clone, Copy, Debug)]
pub enum Step {
    Submit,
    Launch(u16),
    Observe(u16, u16),
    Enter(u16),
    Complete(u16),
}

/// The step as the journal has it.
pub fn event_of(step: Step) -> Event
    ensures { result ≡ event_of step }
{
    match step {
        Step::Submit => Event::Submit,
        Step::Launch(queue) => Event::Launch {
            queue: queue as u32,
        },
        Step::Observe(packet, slot) => Event::Observe {
            packet: packet as u32,
            slot: slot as u32,
        },
        Step::Enter(packet) => Event::Enter {
            packet: packet as u32,
        },
        Step::Complete(packet) => Event::Complete {
            packet: packet as u32,
        },
    }
}

/// What a refusal of the hall ends a processor with, where it doesn't wait.
pub fn fault_of(fault: HallFault) -> Fault {
    match fault {
        HallFault::Memory => Fault::Memory,
        HallFault::NotEnabled | HallFault::WrongPieces => Fault::Stopped,
    }
}

/// Has the hall take the step. Answers whether it is enabled.
pub fn take(hall: &mut Hall, step: Step) -> Result<bool, Fault> {
    let taken = match step {
        Step::Submit => hall.submit(),
        Step::Launch(queue) => hall.launch(queue),
        Step::Observe(packet, slot) => hall.observe(packet, slot),
        Step::Enter(packet) => hall.enter(packet),
        Step::Complete(packet) => hall.complete(packet),
    };
    match taken {
        Ok(()) => Ok(true),
        Err(HallFault::NotEnabled) => Ok(false),
        Err(fault) => Err(fault_of(fault)),
    }
}
