//! Places between the lines that a certificate has behind its order.

ghost use Rattle.std.specs.Prelude.{◌≡◌, ◌≤◌, length};
ghost use Rattle.hq_audit.specs.Audited.{lists_in};
ghost use Rattle.hq_judging.specs.Places.{IsPlace, Leads, end_place, start_place};

use hq_audit::Audited;

/// A place behind so many lines, and behind so many lists of pair lines: the lists come behind all lines.
#[derive(Clone, Copy, Debug)]
pub struct Place {
    pub line: usize,
    pub list: usize,
}

/// The list at which so many pair lines are behind the beginning of a list, or more; or the end of all lists.
fn list_behind(audited: &Audited, from: usize, many: usize) -> usize
    requires { from ≤ length (lists_in audited.now) }
    ensures order { from ≤ result }
    ensures within { result ≤ length (lists_in audited.now) }
{
    let mut rest = many;
    for list in from..audited.lists() {
        if rest == 0 {
            return list;
        }
        rest = rest.saturating_sub(audited.count(list));
    }
    audited.lists()
}

impl Place {
    /// The place ahead of all.
    pub fn start() -> Place
        ensures { result ≡ start_place }
    {
        Place { line: 0, list: 0 }
    }

    /// The place behind all.
    pub fn end(audited: &Audited) -> Place
        ensures { result ≡ end_place audited.now }
    {
        Place {
            line: audited.lines(),
            list: audited.lists(),
        }
    }

    /// The place so many lines and pair lines further on, or some more, since lists aren't parted.
    pub fn further(self, audited: &Audited, many: usize) -> Place
        requires { IsPlace audited.now self }
        ensures { Leads audited.now self result }
    {
        let ahead = audited.lines() - self.line;
        if many <= ahead {
            return Place {
                line: self.line + many,
                list: self.list,
            };
        }
        Place {
            line: audited.lines(),
            list: list_behind(audited, self.list, many - ahead),
        }
    }
}
