//! Drafts of pair lines in eight bytes each.

ghost use Rattle.std.specs.Prelude.{◌≡◌, ◌+◌, ◌*◌, ◌<◌};
ghost use Rattle.hq_audit.specs.Packed.{means_by, IsSmall, unpacked};

use crate::draft::{Draft, Means};
use hq_fence::{Acquire, Release};
use hq_model::PACKETS;

/// How many forms there is room for.
const FORMS: u64 = 16;

/// How many packets there is room for in each place.
const PLACE: u64 = PACKETS as u64;

/// A draft in one number. Its last four bits say what form it has: 0 where no fence is needed, 1 and 2 for two writes,
/// 3 to 6 for a write and a read, the higher ones of each where a fence goes on from another. Before them stand the
/// packets, ten bits each: p, r, the first that releases, the last that acquires, and those that go on.
#[derive(Clone, Copy, Debug)]
pub struct Packed {
    word: u64,
}

/// What orders a conflict, by its form: x releases p, and x2 goes on with that; y2 acquires, and y goes on with that
/// for r.
#[inline(always)]
fn means_by(form: u64, x: u16, y: u16, x2: u16, y2: u16) -> Means
    ensures { result ≡ means_by form x y x2 y2 }
{
    match form {
        0 => Means::ReadWrite,
        1 => Means::WriteWrite(Release::Alone(x)),
        2 => Means::WriteWrite(Release::Chained(x, x2)),
        3 => Means::WriteRead(Release::Alone(x), Acquire::Alone(y)),
        4 => Means::WriteRead(Release::Chained(x, x2), Acquire::Alone(y)),
        5 => Means::WriteRead(Release::Alone(x), Acquire::Chained(y2, y)),
        _ => Means::WriteRead(Release::Chained(x, x2), Acquire::Chained(y2, y)),
    }
}

impl Packed {
    /// A draft of this form.
    #[inline(always)]
    fn of(form: u64, p: u16, r: u16, x: u16, y: u16, x2: u16, y2: u16) -> Packed
        requires form { form < 16 }
        requires p_is { p < PACKETS }
        requires r_is { r < PACKETS }
        requires x_is { x < PACKETS }
        requires y_is { y < PACKETS }
        requires x2_is { x2 < PACKETS }
        requires y2_is { y2 < PACKETS }
        ensures { unpacked result ≡ record { p = p; r = r; means = means_by form x y x2 y2 } }
    {
        let chained = x2 as u64 + PLACE * y2 as u64;
        let fences = x as u64 + PLACE * (y as u64 + PLACE * chained);
        let packets = p as u64 + PLACE * (r as u64 + PLACE * fences);
        Packed {
            word: form + FORMS * packets,
        }
    }

    /// A draft in one number.
    #[inline(always)]
    pub fn new(draft: Draft) -> Packed
        requires { IsSmall draft }
        ensures { unpacked result ≡ draft }
    {
        let (p, r) = (draft.p, draft.r);
        match draft.means {
            Means::ReadWrite => Packed::of(0, p, r, 0, 0, 0, 0),
            Means::WriteWrite(Release::Alone(x)) => Packed::of(1, p, r, x, 0, 0, 0),
            Means::WriteWrite(Release::Chained(x, x2)) => Packed::of(2, p, r, x, 0, x2, 0),
            Means::WriteRead(Release::Alone(x), Acquire::Alone(y)) => {
                Packed::of(3, p, r, x, y, 0, 0)
            }
            Means::WriteRead(Release::Chained(x, x2), Acquire::Alone(y)) => {
                Packed::of(4, p, r, x, y, x2, 0)
            }
            Means::WriteRead(Release::Alone(x), Acquire::Chained(y2, y)) => {
                Packed::of(5, p, r, x, y, 0, y2)
            }
            Means::WriteRead(Release::Chained(x, x2), Acquire::Chained(y2, y)) => {
                Packed::of(6, p, r, x, y, x2, y2)
            }
        }
    }

    /// The draft.
    #[inline(always)]
    pub fn draft(self) -> Draft
        ensures { result ≡ unpacked self }
    {
        let packets = self.word / FORMS;
        let fences = packets / PLACE / PLACE;
        let chained = fences / PLACE / PLACE;
        let x = (fences % PLACE) as u16;
        let y = (fences / PLACE % PLACE) as u16;
        let x2 = (chained % PLACE) as u16;
        let y2 = (chained / PLACE % PLACE) as u16;
        Draft {
            p: (packets % PLACE) as u16,
            r: (packets / PLACE % PLACE) as u16,
            means: means_by(self.word % FORMS, x, y, x2, y2),
        }
    }
}
