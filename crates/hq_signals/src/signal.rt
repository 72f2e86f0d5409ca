//! One signal.

ghost use Rattle.std.specs.Prelude.{◌≡◌, ◌-◌, ◌<◌, ◌≤◌, ◌^◌, ◌↔◌, IsTrue, IsErr, OnOk, OnErr};

use crate::fault::Undershoot;
use std::marker::Model;

/// A signal that only completions change, each by one. Its value is its start less the decrements so far, never
/// below 0.
///
/// A contract sees it as its start and the number of its decrements.
#[derive(Clone, Copy, Debug, PartialEq, Eq)]
pub struct Signal {
    start: u64,
    value: u64,
}

impl Model for Signal {
    ghost use Rattle.std.specs.Prelude.{◌-◌, ◌<◌, ◌≤◌, ◌^◌};
    ghost use Rattle.hq_signals.specs.Signal.{SignalState};

    ghost Value = { SignalState };

    ghost view = { λ s. record { start = s.start; decrements = s.start - s.value } };

    ghost invariant = { λ s. (s.value ≤ s.start) × (s.start < 2 ^ 63) };

    ghost inverse = { λ s. record { start = s.start; value = s.start - s.decrements } };
}

impl Signal {
    ghost use Rattle.hq_signals.specs.Signal.{started, value_of, decremented};

    /// A signal with this start and no decrement yet. A signal's value is a signed 64-bit number, so `start` is
    /// below 2^63.
    pub fn new(start: u64) -> Self
        requires { start < 2 ^ 63 }
        ensures { result ≡ started start }
    {
        Signal {
            start,
            value: start,
        }
    }

    /// The value that the signal started with.
    pub fn start(&self) -> u64
        ensures value { result ≡ self.now.start }
        ensures fits { result < 2 ^ 63 }
    {
        self.start
    }

    /// The value now.
    pub fn value(&self) -> u64
        ensures value { result ≡ value_of self.now }
        ensures never_below { self.now.decrements ≤ self.now.start }
    {
        self.value
    }

    /// Whether the value is 0.
    pub fn is_zero(&self) -> bool
        ensures { IsTrue result ↔ (value_of self.now ≡ 0) }
    {
        self.value == 0
    }

    /// Takes one from the value, or refuses where it is 0, and then the signal stays as it was.
    ///
    /// # Errors
    ///
    /// `Undershoot` where the value is 0.
    pub fn decrement(&mut self) -> Result<(), Undershoot>
        ensures undershoot { IsErr result ↔ (value_of self.old ≡ 0) }
        ensures ok { OnOk result (self.new ≡ decremented self.old) }
        ensures err { OnErr result (self.new ≡ self.old) }
    {
        if self.is_zero() {
            return Err(Undershoot);
        }
        self.value -= 1;
        Ok(())
    }
}
