//! The record of a run.

ghost use Rattle.std.specs.Prelude.{◌≡◌, [], ◌∷◌, ◌++◌, OnOk, OnErr};
ghost use Rattle.std.specs.Option.{MatchOption};

use crate::event::Event;
use std::alloc::{AllocError, Global};
use std::marker::Model;

/// The events of a run, in order. Contracts see their list.
#[derive(Drop)]
pub struct Journal {
    events: Vec<Event>,
}

impl Model for Journal {
    ghost use Rattle.std.specs.Prelude.{List};
    ghost use Rattle.hq_events.specs.declared.event.Event.{Event};

    ghost Value = { List Event };

    ghost view = { λ j. j.events.items };
}

impl Journal {
    /// A journal with no event yet; takes no memory.
    pub fn new(alloc: Global) -> Journal
        ensures { result ≡ [] }
    {
        Journal {
            events: Vec::new(alloc),
        }
    }

    /// The journal of these events; takes no memory.
    pub fn of_events(events: Vec<Event>) -> Journal
        ensures { result ≡ events.items }
    {
        Journal { events }
    }

    /// The events.
    pub fn events(&self) -> &[Event]
        ensures { result.now ≡ self.now }
    {
        &self.events
    }

    /// Takes the event in as the last. Where there is no memory, the journal stays as it was.
    ///
    /// # Errors
    ///
    /// `AllocError` where there is no memory, and then the journal stays as it was.
    pub fn push(&mut self, event: Event) -> Result<(), AllocError>
        ensures ok { OnOk result (self.new ≡ self.old ++ event ∷ []) }
        ensures err { OnErr result (self.new ≡ self.old) }
    {
        self.events.push(event)?;
        Ok(())
    }

    /// Takes the last event out.
    pub fn pop(&mut self) -> Option<Event>
        ensures { MatchOption result ((self.old ≡ []) × (self.new ≡ [])) (λ event. self.old ≡ self.new ++ event ∷ []) }
    {
        self.events.pop()
    }
}
