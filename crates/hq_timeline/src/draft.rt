//! A journal as far as it is read.

ghost use Rattle.std.specs.Prelude.{◌≡◌, IfOk, IfErr};
ghost use Rattle.hq_timeline.specs.DraftView.{state_of};
ghost use Rattle.hq_timeline.specs.Gives.{Gives};
ghost use Rattle.hq_timeline.specs.OnePass.{TakenFrom};
ghost use Rattle.hq_timeline.specs.Split.{list_of};
ghost use Rattle.hq_timeline.specs.TextStates.{start, is_ended, add_head, add_event, add_content, added};

use crate::fault::TimeReason;
use crate::kinds::event_said;
use crate::one_pass;
use crate::words::Words;
use hq_machine::{Event, Journal};
use std::alloc::Global;

/// What may come next.
#[derive(Clone, Copy, Debug, PartialEq, Eq)]
pub enum Stage {
    Head,
    Events,
    Ended,
}

/// A journal as far as it is read.
#[derive(Drop)]
pub struct Draft {
    stage: Stage,
    events: Vec<Event>,
}

impl Draft {
    /// The draft before the first line.
    pub fn new(alloc: Global) -> Draft
        ensures { state_of result ≡ start }
    {
        Draft {
            stage: Stage::Head,
            events: Vec::new(alloc),
        }
    }

    #[tactic(auto, unfolding(crate::specs::TextStates::add_head))]
    fn add_head(&mut self, words: Words) -> Result<(), TimeReason>
        ensures { Gives (λ u. state_of self.new) result (add_head (state_of self.old) (list_of words.entry)) }
    {
        if !words.is_head() {
            return Err(TimeReason::Word);
        }
        self.stage = Stage::Events;
        Ok(())
    }

    #[tactic(auto, unfolding(crate::specs::TextStates::add_event))]
    fn add_event(&mut self, words: Words) -> Result<(), TimeReason>
        ensures { Gives (λ u. state_of self.new) result (add_event (state_of self.old) (list_of words.entry)) }
    {
        let event = event_said(words)?;
        self.events.push(event)?;
        self.stage = Stage::Events;
        Ok(())
    }

    /// An event or the end.
    #[tactic(auto, unfolding(crate::specs::TextStates::add_content))]
    fn add_content(&mut self, words: Words) -> Result<(), TimeReason>
        ensures { Gives (λ u. state_of self.new) result (add_content (state_of self.old) (list_of words.entry)) }
    {
        if words.is_last() {
            self.stage = Stage::Ended;
            return Ok(());
        }
        self.add_event(words)
    }

    /// Takes in the next line, by its words.
    #[tactic(auto, unfolding(crate::specs::TextStates::added))]
    pub fn add(&mut self, words: Words) -> Result<(), TimeReason>
        ensures { Gives (λ u. state_of self.new) result (added (state_of self.old) (list_of words.entry)) }
    {
        match self.stage {
            Stage::Head => self.add_head(words),
            Stage::Events => self.add_content(words),
            Stage::Ended => Err(TimeReason::Word),
        }
    }

    /// Takes in the events that a text begins with, up to a line that isn't in a common form. Answers how many they
    /// are, and what is left.
    fn take_events<'a>(&mut self, text: &'a [u8]) -> Result<(usize, &'a [u8]), TimeReason>
        requires { self.old.stage ≡ Stage.Events }
        ensures taken { IfOk result (λ t. TakenFrom text.now t.1.now t.0 (state_of self.old) (state_of self.new)) }
        ensures memory { IfErr result (λ e. e ≡ TimeReason.Memory) }
    {
        let mut rest = text;
        let mut taken = 0;
        loop {
            let Some((event, behind)) = one_pass::event(rest) else {
                return Ok((taken, rest));
            };
            self.events.push(event)?;
            rest = behind;
            taken += 1;
        }
    }

    /// Takes in the lines that a text begins with, as long as they are in a common form. Answers how many they are,
    /// and what is left.
    #[tactic(auto, using(crate::proofs::OnePass::none_taken_from))]
    pub fn take<'a>(&mut self, text: &'a [u8]) -> Result<(usize, &'a [u8]), TimeReason>
        ensures taken { IfOk result (λ t. TakenFrom text.now t.1.now t.0 (state_of self.old) (state_of self.new)) }
        ensures memory { IfErr result (λ e. e ≡ TimeReason.Memory) }
    {
        match self.stage {
            Stage::Events => self.take_events(text),
            _ => Ok((0, text)),
        }
    }

    /// Whether the end was read.
    pub fn is_ended(&self) -> bool
        ensures { result ≡ is_ended (state_of self.now) }
    {
        matches!(self.stage, Stage::Ended)
    }

    /// What was read.
    pub fn journal(self) -> Journal
        ensures { result ≡ (state_of self).events }
    {
        Journal::of_events(self.events)
    }
}
