//! Kinds of conflicts.

ghost use Rattle.std.specs.Prelude.{Some};

use std::fmt;

/// A kind of conflict: `p` writes what `r` reads, both write, `p` reads what `r` writes.
#[derive(Clone, Copy, Debug, PartialEq, Eq)]
pub enum Kind {
    WriteRead,
    WriteWrite,
    ReadWrite,
}

impl fmt::Display for Kind {
    ghost use Rattle.hq_finding.specs.Names.{kind_name};

    ghost output = { λ kind. Some (kind_name kind) };

    fn fmt<W: fmt::Write>(&self, f: &mut fmt::Formatter<W>) -> fmt::Result {
        f.write_str(match self {
            Kind::WriteRead => "wr",
            Kind::WriteWrite => "ww",
            Kind::ReadWrite => "rw",
        })
    }
}
