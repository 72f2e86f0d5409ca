//! What lines of a certificate conclude.

ghost use Rattle.std.specs.Prelude.{◌≡◌, ◌++◌, OnOk, map};
ghost use Rattle.hq_cert.specs.View.{line_of};
ghost use Rattle.hq_certcheck.specs.Concluded.{conclusion_of};

use hq_cert::Line;
use std::alloc::AllocError;

/// What a line concludes, by whatever rule: packet p comes before packet r.
#[derive(Clone, Copy, Debug)]
pub struct Conclusion {
    pub p: u32,
    pub r: u32,
}

/// Puts what these lines conclude behind what others conclude.
pub fn conclude(lines: &mut Vec<Conclusion>, found: &[Line]) -> Result<(), AllocError>
    ensures { OnOk result (lines.new.items ≡ lines.old.items ++ map conclusion_of (map line_of found.now)) }
{
    for line in found {
        lines.push(Conclusion {
            p: line.p,
            r: line.r,
        })?;
    }
    Ok(())
}
