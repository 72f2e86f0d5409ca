//! Runs of numbers that are gone through from one within on.

ghost use Rattle.std.specs.Prelude.{◌≡◌, ◌<◌, ◌≤◌, ◌+◌, ◌-◌, ◌⊎◌};
ghost use Rattle.hq_fence.specs.Circuits.{IsCircuit, number_at};

/// The numbers from `start` up to `end`, of which those from `first` on come first.
#[derive(Clone, Copy, Debug)]
pub struct Circuit {
    pub start: usize,
    pub first: usize,
    pub end: usize,
}

impl Circuit {
    /// How many numbers there are.
    pub fn len(self) -> usize
        requires { IsCircuit self }
        ensures { result ≡ self.end - self.start }
    {
        self.end - self.start
    }

    /// The number of a turn.
    pub fn at(self, turn: usize) -> usize
        requires circuit { IsCircuit self }
        requires low { turn < self.end - self.start }
        ensures number { result ≡ number_at self turn }
        ensures above { self.start ≤ result }
        ensures below { result < self.end }
    {
        let number = self.first + turn;
        if number < self.end {
            number
        } else {
            number - (self.end - self.start)
        }
    }

    /// The same numbers, but what stands behind `number` comes first, if that is one of them.
    pub fn behind(self, number: usize) -> Circuit
        requires { IsCircuit self }
        ensures circuit { IsCircuit result }
        ensures start { result.start ≡ self.start }
        ensures end { result.end ≡ self.end }
        ensures first { self.start ≤ number → number < self.end → result.first ≡ number + 1 }
        ensures other { (number < self.start) ⊎ (self.end ≤ number) → result.first ≡ self.start }
    {
        let is_inside = self.start <= number && number < self.end;
        let first = if is_inside { number + 1 } else { self.start };
        Circuit { first, ..self }
    }
}
