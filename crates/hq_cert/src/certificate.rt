//! Certificates as values.

ghost use Rattle.std.specs.Prelude.{◌≡◌, map};
ghost use Rattle.hq_cert.specs.View.{line_of, pair_of};

use crate::citation::Citation;
use std::marker::Model;

/// What a barrier-OR's line cites, for each of its dependencies that isn't null, in slot order.
#[derive(Debug, Drop)]
pub struct Branches {
    pub citations: Vec<Citation>,
}

/// By which rule a line concludes that p comes before r.
#[derive(Debug, Drop)]
pub enum Rule {
    /// By the barrier bit of this packet.
    Bit(u32),
    /// By the barrier packet p ahead in r's queue.
    Queue,
    /// p completes on the dependency in this slot of the barrier-AND r.
    And(u32),
    /// Of each dependency of the barrier-OR r, p is, or comes before, a packet that completes on it.
    Or(Box<Branches>),
    /// The first line concludes that p comes before a packet, and the second that this comes before r.
    Through(u32, u32),
}

/// A line: packet p comes before packet r.
#[derive(Debug, Drop)]
pub struct Line {
    pub p: u32,
    pub r: u32,
    pub rule: Rule,
}

/// What orders a conflict of p with r, by its kind: the packets whose fences order it, and the lines that order these.
#[derive(Debug, Drop)]
pub enum Fences {
    /// p reads what r writes: a line concludes that p comes before r.
    ReadWrite(u32),
    /// Both write: x releases p, and comes before r.
    WriteWrite {
        x: u32,
        from: Citation,
        on: u32,
    },
    /// p writes what r reads: x releases p, y acquires for r, and x comes before y.
    WriteRead {
        x: u32,
        y: u32,
        from: Citation,
        between: u32,
        to: Citation,
    },
    /// Both write: x and then x2 release p.
    WriteWriteChained(Box<WriteChain>),
    /// p writes what r reads: x and then x2 release p, y2 and then y acquire for r.
    WriteReadChained(Box<ReadChain>),
}

/// x releases p to its agent, x2 from there to the system, and comes before r.
#[derive(Clone, Copy, Debug)]
pub struct WriteChain {
    pub x: u32,
    pub x2: u32,
    pub from: Citation,
    pub link: u32,
    pub on: u32,
}

/// x releases p, x2 where it isn't x goes on with that; y2 acquires, y where it isn't y2 goes on with that for r.
#[derive(Clone, Copy, Debug)]
pub struct ReadChain {
    pub x: u32,
    pub x2: u32,
    pub y2: u32,
    pub y: u32,
    pub from: Citation,
    pub link: Citation,
    pub between: u32,
    pub link2: Citation,
    pub to: Citation,
}

/// A pair line: a conflict of packet p with packet r, p first, and what orders it.
#[derive(Debug, Drop)]
pub struct Pair {
    pub p: u32,
    pub r: u32,
    pub fences: Fences,
}

/// A certificate. Lines are numbered from 0. Contracts see it as the model's.
#[derive(Debug, Drop)]
pub struct Certificate {
    order: Vec<u32>,
    lines: Vec<Line>,
    pairs: Vec<Pair>,
}

impl Model for Certificate {
    ghost use Rattle.hq_model.specs.Certificate as model;
    ghost use Rattle.hq_cert.specs.View.{certificate_of};

    ghost Value = { model.Certificate };

    ghost view = { certificate_of };
}

impl Certificate {
    /// The certificate of these parts.
    pub fn new(order: Vec<u32>, lines: Vec<Line>, pairs: Vec<Pair>) -> Certificate
        ensures order { result.order ≡ order.items }
        ensures lines { result.lines ≡ map line_of lines.items }
        ensures pairs { result.pairs ≡ map pair_of pairs.items }
    {
        Certificate {
            order,
            lines,
            pairs,
        }
    }

    /// The numbers of the packets, in their order.
    pub fn order(&self) -> &[u32]
        ensures { result.now ≡ self.now.order }
    {
        &self.order
    }

    /// The lines, by number.
    pub fn lines(&self) -> &[Line]
        ensures { map line_of result.now ≡ self.now.lines }
    {
        &self.lines
    }

    /// The pair lines.
    pub fn pairs(&self) -> &[Pair]
        ensures { map pair_of result.now ≡ self.now.pairs }
    {
        &self.pairs
    }
}
