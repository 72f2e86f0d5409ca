//! Words of several parts of a graph.

ghost use Rattle.std.specs.Prelude.{Some};
ghost use Rattle.hq_graph.specs.Graph.{arrow_text, name_of};

use hq_text::Name;
use std::fmt;

/// A name, or nothing where there is none.
#[derive(Clone, Copy)]
pub struct NameWord(pub Option<Name>);

impl fmt::Display for NameWord {
    ghost output = { λ n. Some (name_of n.0) };

    fn fmt<W: fmt::Write>(&self, f: &mut fmt::Formatter<W>) -> fmt::Result {
        match self.0 {
            Some(name) => write!(f, "{name}"),
            None => f.write_str(""),
        }
    }
}

/// The arrow from one packet to another, and what opens its attributes.
#[derive(Clone, Copy, Debug)]
pub struct Arrow {
    pub from: usize,
    pub to: usize,
}

impl fmt::Display for Arrow {
    ghost output = { λ a. Some (arrow_text a.from a.to) };

    fn fmt<W: fmt::Write>(&self, f: &mut fmt::Formatter<W>) -> fmt::Result {
        let from = self.from;
        let to = self.to;
        write!(f, "p{from} -> p{to} [")
    }
}
