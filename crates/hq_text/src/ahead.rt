//! The number that a text begins with, read in one pass over its digits.

ghost use Rattle.std.specs.Prelude.{◌+◌, ◌<◌, ◌≤◌, length, IfSome};
ghost use Rattle.hq_text.specs.Ahead.{DigitsAhead, DigitsSoFar, NumberAhead};

/// The number with one digit more.
#[inline(always)]
pub fn with_digit(text: &[u8], number: u32, count: usize) -> Option<u32>
    requires within { count < length text.now }
    requires few { count ≤ 8 }
    requires so_far { DigitsSoFar text.now number count }
    ensures { IfSome result (λ n. DigitsSoFar text.now n (count + 1)) }
{
    let digit = text[count].wrapping_sub(b'0');
    if digit > 9 {
        return None;
    }
    Some(number * 10 + digit as u32)
}

/// The number of the digits that a text begins with, of which so many are read, and how many they are: at most
/// eight, or 0 where there are more.
#[inline(always)]
#[tactic(auto, using(crate::proofs::DigitsRead::so_far_ahead))]
fn digits_on(text: &[u8], before: u32, read: usize) -> (u32, usize)
    requires long { 10 ≤ length text.now }
    requires so_far { DigitsSoFar text.now before read }
    ensures ahead { 0 < result.1 → DigitsAhead text.now result.0 result.1 }
    ensures few { result.1 ≤ 8 }
{
    let mut number = before;
    for count in read..9 {
        match with_digit(text, number, count) {
            Some(more) => number = more,
            None => return (number, count),
        }
    }
    (0, 0)
}

/// The number of the digits that a text begins with, and how many they are: at most eight, or 0 where there are
/// more, or none.
#[inline(always)]
#[tactic(auto, using(crate::proofs::DigitsRead::zero_digit))]
pub fn digits_ahead(text: &[u8]) -> (u32, usize)
    requires { 10 ≤ length text.now }
    ensures ahead { 0 < result.1 → DigitsAhead text.now result.0 result.1 }
    ensures few { result.1 ≤ 8 }
{
    let digit = text[0].wrapping_sub(b'0');
    if digit == 0 {
        return (0, 1);
    }
    if digit > 9 {
        return (0, 0);
    }
    digits_on(text, digit as u32, 1)
}

/// The same, where the first three digits are read.
#[inline(never)]
pub fn more_digits_ahead(text: &[u8], first: u32) -> (u32, usize)
    requires long { 10 ≤ length text.now }
    requires first { DigitsSoFar text.now first 3 }
    ensures ahead { 0 < result.1 → DigitsAhead text.now result.0 result.1 }
    ensures few { result.1 ≤ 8 }
{
    digits_on(text, first, 3)
}

/// The number of so many digits that a text begins with, and what stands behind it and the byte that ends it.
#[inline(always)]
pub fn ended_number(text: &[u8], number: u32, count: usize, stop: u8) -> Option<(u32, &[u8])>
    requires ahead { 0 < count → DigitsAhead text.now number count }
    requires few { count ≤ 8 }
    ensures ahead { IfSome result (λ t. NumberAhead text.now t.0 stop t.1.now) }
    ensures near { IfSome result (λ t. length text.now ≤ length t.1.now + 9) }
{
    if count > 0 && text[count] == stop {
        Some((number, text.split_at(count + 1).1))
    } else {
        None
    }
}

/// The number that a text begins with, and what stands behind it and the byte that ends it: of at most eight digits.
#[inline(always)]
pub fn number_ahead(text: &[u8], stop: u8) -> Option<(u32, &[u8])>
    requires { 10 ≤ length text.now }
    ensures ahead { IfSome result (λ t. NumberAhead text.now t.0 stop t.1.now) }
    ensures near { IfSome result (λ t. length text.now ≤ length t.1.now + 9) }
{
    let (number, count) = digits_ahead(text);
    ended_number(text, number, count, stop)
}
