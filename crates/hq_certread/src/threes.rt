//! The texts of three digits, made once for each certificate that is read, so that three digits are read at once.

ghost use Rattle.std.specs.Prelude.{◌≡◌, ◌<◌, ◌≤◌, [], ◌∷◌, length, get_or, IfSome, IsSome};
ghost use Rattle.hq_text.specs.Ahead.{DigitsSoFar};
ghost use Rattle.hq_certread.specs.OnePass.{ThreeAhead};
ghost use Rattle.hq_certread.specs.Bytes.{three_bytes};
ghost use Rattle.hq_certtext.specs.Rows.{three_digits};

/// How many places the table has: more than there are texts, and each text has a place of its own.
const PLACES: usize = 1024;

/// A number below 1,000, and its three digits as one number.
#[derive(Clone, Copy)]
struct Three {
    code: u32,
    number: u32,
    ghost is: { three_bytes code ≡ three_digits number },
    ghost short: { code < 16777216 },
    ghost small: { number < 1000 },
}

/// Three bytes as one number.
#[inline(always)]
fn joined(a: u8, b: u8, c: u8) -> u32
    ensures { three_bytes result ≡ a ∷ b ∷ c ∷ [] }
{
    a as u32 + b as u32 * 256 + c as u32 * 65_536
}

/// The same where the byte behind them is this one, and else a number that no three bytes are.
#[inline(always)]
fn joined_before(a: u8, b: u8, c: u8, d: u8, stop: u8) -> u32
    ensures stops { result < 16777216 → d ≡ stop }
    ensures bytes { result < 16777216 → three_bytes result ≡ a ∷ b ∷ c ∷ [] }
{
    let four = a as u32 + b as u32 * 256 + c as u32 * 65_536 + d as u32 * 16_777_216;
    four.wrapping_sub(stop as u32 * 16_777_216)
}

fn three_of(number: u32) -> Three
    requires { number < 1000 }
{
    let hundreds = 48 + number / 100;
    let tens = 48 + number / 10 % 10;
    let ones = 48 + number % 10;
    Three {
        code: hundreds + tens * 256 + ones * 65_536,
        number,
    }
}

/// The place of a text. Texts of other bytes than digits have one too, where they find digits.
#[inline(always)]
fn place(code: u32) -> usize
    ensures { result < PLACES }
{
    (code.wrapping_mul(0x1902_8040) >> 22) as usize
}

/// The texts of the numbers below 1,000, each at its place.
#[derive(Drop)]
pub struct Threes {
    table: [Three; PLACES],
}

impl Threes {
    pub fn new() -> Threes {
        let mut table = [three_of(0); PLACES];
        for number in 1..1000 {
            let three = three_of(number);
            table[place(three.code)] = three;
        }
        Threes { table }
    }

    /// The number of the three digits that a text begins with, where the first of them isn't `0`.
    #[inline(always)]
    #[tactic(auto, using(crate::proofs::OnePass::three_digits_so_far))]
    pub fn leading(&self, text: &[u8]) -> Option<u32>
        requires { 3 ≤ length text.now }
        ensures { IfSome result (λ n. DigitsSoFar text.now n 3) }
    {
        let code = joined(text[0], text[1], text[2]);
        let three = self.table[place(code)];
        if three.code == code && three.number >= 100 {
            Some(three.number)
        } else {
            None
        }
    }

    /// The number of the three digits that a text begins with, where this byte stands behind them.
    #[inline(always)]
    pub fn ended(&self, text: &[u8], stop: u8) -> Option<u32>
        requires { 4 ≤ length text.now }
        ensures three { IfSome result (λ n. ThreeAhead text.now n) }
        ensures stops { IsSome result → get_or text.now 3 0 ≡ stop }
    {
        let code = joined_before(text[0], text[1], text[2], text[3], stop);
        let three = self.table[place(code)];
        if three.code == code {
            Some(three.number)
        } else {
            None
        }
    }
}
