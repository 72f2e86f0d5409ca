//! Reports handed out to a caller's room.

ghost use Rattle.std.specs.Prelude.{◌≡◌};
ghost use Rattle.hq_c.specs.Calls.{IsHandedOut};
ghost use Rattle.hq_status.specs.Statuses.{code_of};

use hq_status::Status;

/// Hands out as much of a report as there is room for, and its whole length; answers its status as a number.
pub fn hand_out(written: &[u8], status: Status, report: &mut [u8], whole: &mut usize) -> u32
    ensures handed { IsHandedOut written.now report.old report.new whole.new }
    ensures code { result ≡ code_of status }
{
    let fits = written.len().min(report.len());
    report[..fits].copy_from_slice(&written[..fits]);
    *whole = written.len();
    u32::from(status.code())
}
