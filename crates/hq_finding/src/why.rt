//! Why conflicts aren't ordered.

ghost use Rattle.std.specs.Prelude.{Some};

use std::fmt;

/// Why a conflict isn't ordered: `p` isn't before `r`, `p` isn't released before `r`, or `r` acquires nothing after
/// such a release.
#[derive(Clone, Copy, Debug, PartialEq, Eq)]
pub enum Why {
    Unordered,
    NotReleased,
    NotAcquired,
}

impl fmt::Display for Why {
    ghost use Rattle.hq_finding.specs.Names.{why_name};

    ghost output = { λ why. Some (why_name why) };

    fn fmt<W: fmt::Write>(&self, f: &mut fmt::Formatter<W>) -> fmt::Result {
        f.write_str(match self {
            Why::Unordered => "Unordered",
            Why::NotReleased => "NotReleased",
            Why::NotAcquired => "NotAcquired",
        })
    }
}
