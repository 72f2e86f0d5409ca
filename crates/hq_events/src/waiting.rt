//! When the wait of a packet is over.

ghost use Rattle.std.specs.Prelude.{◌↔◌, IsTrue};
ghost use Rattle.hq_job.specs.Plan.{plan};
ghost use Rattle.hq_tables.specs.Kinds.{kind_of};
ghost use Rattle.hq_model.specs.Job.{IsPacket};
ghost use Rattle.hq_model.specs.Machine.{State, WaitOver};
ghost use Rattle.hq_events.specs.Waits.{AllObserved, AreObserved, OneObserved, Over};

use hq_job::Job;
use hq_packet::Packet;
use hq_tables::Placed;

/// Whether every slot that waits for a signal was observed.
fn all_observed(slots: &[Option<u16>; 5], observed: &[bool; 5]) -> bool
    ensures { IsTrue result ↔ AllObserved slots.now observed.now }
{
    for slot in 0..5 {
        if slots[slot].is_some() && !observed[slot] {
            return false;
        }
    }
    true
}

/// Whether a slot that waits for a signal was observed.
fn one_observed(slots: &[Option<u16>; 5], observed: &[bool; 5]) -> bool
    ensures { IsTrue result ↔ OneObserved slots.now observed.now }
{
    for slot in 0..5 {
        if slots[slot].is_some() && observed[slot] {
            return true;
        }
    }
    false
}

/// Whether the wait of a packet is over, by its kind and its dependencies.
fn is_over(placed: &Placed, observed: &[bool; 5]) -> bool
    ensures { IsTrue result ↔ Over (kind_of placed.now.packet) placed.now.slots observed.now }
{
    match placed.packet {
        Packet::Kernel(_) => true,
        Packet::Agent(_) => true,
        Packet::And(_) => all_observed(&placed.slots, observed),
        Packet::Or(_) => one_observed(&placed.slots, observed),
    }
}

/// Whether the packet's wait is over, in whichever state it has observed these slots.
pub fn wait_is_over(job: &Job, number: usize, observed: &[bool; 5]) -> bool
    requires { IsPacket (plan job.now) number }
    ensures { (state : State) → AreObserved state number observed.now
        → (IsTrue result ↔ WaitOver (plan job.now) state number) }
{
    is_over(job.packet(number), observed)
}
