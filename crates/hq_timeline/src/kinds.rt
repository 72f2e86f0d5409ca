//! The kinds of events, by their names and the count of their numbers, and the events that words say.

ghost use Rattle.std.specs.Prelude.{◌≡◌};
ghost use Rattle.hq_timeline.specs.LineTests.{number_said, one_kind, event_of_one, packet_kind, two_kind};
ghost use Rattle.hq_timeline.specs.LineTests.{event_of_two, plain_said, one_said, two_said, event_said};
ghost use Rattle.hq_timeline.specs.Split.{list_of};

use crate::fault::TimeReason;
use crate::words::Words;
use hq_machine::Event;
use hq_text::number_of;

/// The kinds of events that have one number.
#[derive(Clone, Copy, Debug, PartialEq, Eq)]
pub enum OneNumber {
    Launch,
    Enter,
    Fetch,
    Deliver,
    Complete,
    Finish,
}

/// The kinds of events that have two numbers.
#[derive(Clone, Copy, Debug, PartialEq, Eq)]
pub enum TwoNumbers {
    PushLane,
    PushAgent,
    FillLane,
    FillAgent,
    DropLane,
    DropAgent,
    Read,
    Store,
    Observe,
}

/// The number that a word is, at most 4294967295.
#[tactic(auto, unfolding(crate::specs::LineTests::number_said))]
fn number_said(word: &[u8]) -> Result<u32, TimeReason>
    ensures { result ≡ number_said word.now }
{
    match number_of(word) {
        Some(n) if n <= 4_294_967_295 => Ok(n as u32),
        _ => Err(TimeReason::Number),
    }
}

/// The kind of this name that has one number.
#[tactic(auto, unfolding(crate::specs::LineTests::one_kind))]
fn one_kind(name: &[u8]) -> Result<OneNumber, TimeReason>
    ensures { result ≡ one_kind name.now }
{
    if name == b"launch".as_slice() {
        Ok(OneNumber::Launch)
    } else if name == b"enter".as_slice() {
        Ok(OneNumber::Enter)
    } else if name == b"fetch".as_slice() {
        Ok(OneNumber::Fetch)
    } else if name == b"deliver".as_slice() {
        Ok(OneNumber::Deliver)
    } else if name == b"complete".as_slice() {
        Ok(OneNumber::Complete)
    } else if name == b"finish".as_slice() {
        Ok(OneNumber::Finish)
    } else {
        Err(TimeReason::Word)
    }
}

/// The kind of this name that has the numbers of a packet and of a byte or a slot.
fn packet_kind(name: &[u8]) -> Result<TwoNumbers, TimeReason>
    ensures { result ≡ packet_kind name.now }
{
    if name == b"read".as_slice() {
        Ok(TwoNumbers::Read)
    } else if name == b"store".as_slice() {
        Ok(TwoNumbers::Store)
    } else if name == b"observe".as_slice() {
        Ok(TwoNumbers::Observe)
    } else {
        Err(TimeReason::Word)
    }
}

/// The kind of this name that has two numbers.
#[tactic(auto, unfolding(crate::specs::LineTests::two_kind))]
fn two_kind(name: &[u8]) -> Result<TwoNumbers, TimeReason>
    ensures { result ≡ two_kind name.now }
{
    if name == b"pushlane".as_slice() {
        Ok(TwoNumbers::PushLane)
    } else if name == b"pushagent".as_slice() {
        Ok(TwoNumbers::PushAgent)
    } else if name == b"filllane".as_slice() {
        Ok(TwoNumbers::FillLane)
    } else if name == b"fillagent".as_slice() {
        Ok(TwoNumbers::FillAgent)
    } else if name == b"droplane".as_slice() {
        Ok(TwoNumbers::DropLane)
    } else if name == b"dropagent".as_slice() {
        Ok(TwoNumbers::DropAgent)
    } else {
        packet_kind(name)
    }
}

impl OneNumber {
    /// The event of this kind and number.
    pub fn event(self, a: u32) -> Event
        ensures { result ≡ event_of_one self a }
    {
        match self {
            OneNumber::Launch => Event::Launch { queue: a },
            OneNumber::Enter => Event::Enter { packet: a },
            OneNumber::Fetch => Event::Fetch { packet: a },
            OneNumber::Deliver => Event::Deliver { packet: a },
            OneNumber::Complete => Event::Complete { packet: a },
            OneNumber::Finish => Event::Finish { packet: a },
        }
    }
}

impl TwoNumbers {
    /// The event of this kind and these numbers.
    pub fn event(self, a: u32, b: u32) -> Event
        ensures { result ≡ event_of_two self a b }
    {
        match self {
            TwoNumbers::PushLane => Event::PushLane { packet: a, byte: b },
            TwoNumbers::PushAgent => Event::PushAgent { agent: a, byte: b },
            TwoNumbers::FillLane => Event::FillLane { packet: a, byte: b },
            TwoNumbers::FillAgent => Event::FillAgent { agent: a, byte: b },
            TwoNumbers::DropLane => Event::DropLane { packet: a, byte: b },
            TwoNumbers::DropAgent => Event::DropAgent { agent: a, byte: b },
            TwoNumbers::Read => Event::Read {
                packet: a,
                entry: b,
            },
            TwoNumbers::Store => Event::Store {
                packet: a,
                entry: b,
            },
            TwoNumbers::Observe => Event::Observe { packet: a, slot: b },
        }
    }
}

#[tactic(auto, unfolding(crate::specs::LineTests::plain_said))]
fn plain_said(name: &[u8]) -> Result<Event, TimeReason>
    ensures { result ≡ plain_said name.now }
{
    if name == b"submit".as_slice() {
        Ok(Event::Submit)
    } else if name == b"rest".as_slice() {
        Ok(Event::Rest)
    } else {
        Err(TimeReason::Word)
    }
}

#[tactic(auto, unfolding(crate::specs::LineTests::one_said))]
fn one_said(name: &[u8], first: &[u8]) -> Result<Event, TimeReason>
    ensures { result ≡ one_said name.now first.now }
{
    let kind = one_kind(name)?;
    let a = number_said(first)?;
    Ok(kind.event(a))
}

#[tactic(auto, unfolding(crate::specs::LineTests::two_said))]
fn two_said(name: &[u8], first: &[u8], second: &[u8]) -> Result<Event, TimeReason>
    ensures { result ≡ two_said name.now first.now second.now }
{
    let kind = two_kind(name)?;
    let a = number_said(first)?;
    let b = number_said(second)?;
    Ok(kind.event(a, b))
}

/// The event that a line's words say. Names and counts of words are tested before numbers.
#[tactic(auto, unfolding(crate::specs::LineTests::event_said))]
pub fn event_said(words: Words) -> Result<Event, TimeReason>
    ensures { result ≡ event_said (list_of words.entry) }
{
    match words {
        Words::One(name) => plain_said(name),
        Words::Two(name, first) => one_said(name, first),
        Words::Three(name, first, second) => two_said(name, first, second),
        Words::More(..) => Err(TimeReason::Word),
    }
}
