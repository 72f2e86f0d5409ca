//! Lines that cite no line, in four bytes each.

ghost use Rattle.std.specs.Prelude.{◌≡◌, ◌<◌, IfSome, IsTrue};
ghost use Rattle.hq_cert.specs.View.{line_of, rule_of};
ghost use Rattle.hq_derive.specs.Short.{rule_by, lone_line};

use hq_bits::WIDTH;
use hq_cert::{Line, Rule};

/// How many forms there is room for.
pub const FORMS: u32 = 4;

/// How many numbers there is room for in each place.
const PLACE: u32 = WIDTH as u32;

/// A line in one number. Its last two bits say by which rule the line concludes that p is before r: 0 by a barrier bit,
/// 1 by the queue, 2 by a barrier-AND. Before them stand p, r, and the packet or the slot that the rule names, ten bits
/// each.
#[derive(Clone, Copy, Debug)]
pub struct Lone {
    word: u32,
}

/// A line of this form.
#[inline(always)]
fn of_form(form: u32, p: usize, r: usize, named: u32) -> Lone
    requires form { form < 3 }
    requires p_is { p < WIDTH }
    requires r_is { r < WIDTH }
    requires named { named < WIDTH }
    ensures { lone_line result ≡ record { p = p; r = r; rule = rule_by form named } }
{
    let packets = p as u32 + PLACE * (r as u32 + PLACE * named);
    Lone {
        word: form + FORMS * packets,
    }
}

/// The same, where ten bits can say what the rule names.
#[inline(always)]
fn if_small(form: u32, p: usize, r: usize, named: u32) -> Option<Lone>
    requires form { form < 3 }
    requires p_is { p < WIDTH }
    requires r_is { r < WIDTH }
    ensures { IfSome result (λ l. lone_line l ≡ record { p = p; r = r; rule = rule_by form named }) }
{
    if named >= PLACE {
        return None;
    }
    Some(of_form(form, p, r, named))
}

impl Lone {
    /// The line that p is before r by this rule, where it cites no line and ten bits can say what it names.
    #[inline(always)]
    pub fn of(p: usize, r: usize, rule: &Rule) -> Option<Lone>
        requires p_is { p < WIDTH }
        requires r_is { r < WIDTH }
        ensures { IfSome result (λ l. lone_line l ≡ record { p = p; r = r; rule = rule_of rule.now }) }
    {
        match rule {
            Rule::Bit(packet) => if_small(0, p, r, *packet),
            Rule::Queue => if_small(1, p, r, 0),
            Rule::And(slot) => if_small(2, p, r, *slot),
            Rule::Through(_, _) => None,
            Rule::Or(_) => None,
        }
    }

    /// Whether it says that p is before r.
    #[inline(always)]
    pub fn says(self, p: usize, r: usize) -> bool
        ensures { IsTrue result → ((lone_line self).p ≡ p) × ((lone_line self).r ≡ r) }
    {
        let packets = (self.word / FORMS) as usize;
        packets % WIDTH == p && packets / WIDTH % WIDTH == r
    }

    /// The line.
    #[inline(always)]
    pub fn line(self) -> Line
        ensures { line_of result ≡ lone_line self }
    {
        let packets = self.word / FORMS;
        let named = packets / PLACE / PLACE;
        let rule = match self.word % FORMS {
            0 => Rule::Bit(named),
            1 => Rule::Queue,
            _ => Rule::And(named),
        };
        Line {
            p: packets % PLACE,
            r: packets / PLACE % PLACE,
            rule,
        }
    }
}
