//! Laws of jobs. Each is the contract of a function with an empty body.

ghost use Rattle.hq_job.specs.Heads.{OwnHeads, OtherHeads, LastHeads};

/// A job with its own heads is itself.
pub fn own_heads()
    ensures { OwnHeads }
{}

/// A job with other heads, one for each packet, has them.
pub fn other_heads()
    ensures { OtherHeads }
{}

/// Of two heads that each packet is given, one behind the other, nothing is left of the first.
pub fn last_heads()
    ensures { LastHeads }
{}
