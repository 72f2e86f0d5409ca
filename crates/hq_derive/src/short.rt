//! Lines in eight bytes each.

ghost use Rattle.std.specs.Prelude.{◌≡◌, ◌<◌, IsTrue};
ghost use Rattle.hq_derive.specs.Short.{form_of, p_of, r_of, first_of, second_of};

use hq_bits::WIDTH;

/// How many forms there is room for.
pub const FORMS: u64 = 8;

/// The form of a line through two others.
pub const THROUGH: u64 = 3;

/// How many numbers there are that twenty bits can say.
pub const NUMBERS: u64 = 1 << 20;

/// A line in one number. Its last three bits say by which rule the line concludes that p is before r: 0 by a barrier
/// bit, 1 by the queue, 2 by a barrier-AND, 3 through two lines, 4 by a barrier-OR. Before them stand p and r, ten bits
/// each, and then what the rule cites, twenty bits each.
#[derive(Clone, Copy, Debug)]
pub struct Short {
    word: u64,
}

impl Short {
    /// The line whose number is 0, in place of one that isn't made yet.
    pub fn none() -> Short {
        Short { word: 0 }
    }

    /// A line of this form.
    #[inline(always)]
    pub fn new(form: u64, p: usize, r: usize, first: u32, second: u32) -> Short
        requires form { form < FORMS }
        requires p_is { p < WIDTH }
        requires r_is { r < WIDTH }
        requires first { first < NUMBERS }
        requires second { second < NUMBERS }
        ensures form { form_of result ≡ form }
        ensures p { p_of result ≡ p }
        ensures r { r_of result ≡ r }
        ensures first { first_of result ≡ first }
        ensures second { second_of result ≡ second }
    {
        let cited = first as u64 + NUMBERS * second as u64;
        let width = WIDTH as u64;
        Short {
            word: form + FORMS * (p as u64 + width * (r as u64 + width * cited)),
        }
    }

    #[inline(always)]
    pub fn form(self) -> u64
        ensures { result ≡ form_of self }
    {
        self.word % FORMS
    }

    #[inline(always)]
    pub fn p(self) -> u32
        ensures { result ≡ p_of self }
    {
        (self.word / FORMS % WIDTH as u64) as u32
    }

    #[inline(always)]
    pub fn r(self) -> u32
        ensures { result ≡ r_of self }
    {
        (self.word / FORMS / WIDTH as u64 % WIDTH as u64) as u32
    }

    /// Whether it is between p and r.
    #[inline(always)]
    pub fn is_of(self, p: usize, r: usize) -> bool
        ensures { IsTrue result → (p_of self ≡ p) × (r_of self ≡ r) }
    {
        let packets = self.word / FORMS;
        packets % WIDTH as u64 == p as u64 && packets / WIDTH as u64 % WIDTH as u64 == r as u64
    }

    #[inline(always)]
    pub fn first(self) -> u32
        ensures { result ≡ first_of self }
    {
        (self.word / FORMS / WIDTH as u64 / WIDTH as u64 % NUMBERS) as u32
    }

    #[inline(always)]
    pub fn second(self) -> u32
        ensures { result ≡ second_of self }
    {
        (self.word / FORMS / WIDTH as u64 / WIDTH as u64 / NUMBERS % NUMBERS) as u32
    }
}
