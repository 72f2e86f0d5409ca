//! The commonest lines, read in one pass over their bytes: those of events with a number, and of a read, a store, a push
//! or an observation. A line that isn't read here is left to the readers of words, which tell what is wrong with it.

ghost use Rattle.std.specs.Prelude.{◌≡◌, ◌∷◌, ◌++◌, [], ℕ, IfSome};
ghost use Rattle.std.specs.Fmt.{decimal};
ghost use Rattle.hq_text.specs.Ahead.{NumberAhead};
ghost use Rattle.hq_timeline.specs.Grammar.{event_words};
ghost use Rattle.hq_timeline.specs.LineTests.{event_of_one, event_of_two};
ghost use Rattle.hq_timeline.specs.OnePass.{BothNumbers, EventAhead};

use crate::kinds::{OneNumber, TwoNumbers};
use hq_machine::Event;
use hq_text::number_ahead;

/// How many bytes a text has at least where a number of it is read here, so that no digit of it needs a question of its
/// own.
const LONG: usize = 10;

/// The number that a line ends with, and what stands behind it.
#[inline(always)]
fn last_number(text: &[u8]) -> Option<(u32, &[u8])>
    ensures { IfSome result (λ t. NumberAhead text.now t.0 10 t.1.now) }
{
    if text.len() < LONG {
        return None;
    }
    number_ahead(text, b'\n')
}

/// Two numbers, and what stands behind them.
#[derive(Clone, Copy)]
struct Numbers<'a> {
    first: u32,
    second: u32,
    rest: &'a [u8],
}

/// The two numbers that a line ends with, and what stands behind it.
#[inline(always)]
#[tactic(auto, using(crate::proofs::OnePass::both_ahead))]
fn last_numbers(text: &[u8]) -> Option<Numbers<'_>>
    ensures { IfSome result (λ t. BothNumbers text.now t.first t.second t.rest.now) }
{
    if text.len() < LONG {
        return None;
    }
    let (first, rest) = number_ahead(text, b' ')?;
    let (second, rest) = last_number(rest)?;
    Some(Numbers {
        first,
        second,
        rest,
    })
}

/// What stands behind the first bytes of a text, if it begins with these.
#[inline(always)]
fn behind<'a>(text: &'a [u8], first: &[u8]) -> Option<&'a [u8]>
    ensures { IfSome result (λ rest. text.now ≡ first.now ++ rest.now) }
{
    text.strip_prefix(first)
}

/// What stands behind a name and its space.
#[inline(always)]
fn behind_name<'a>(text: &'a [u8], name: &[u8]) -> Option<&'a [u8]>
    ensures { IfSome result (λ rest. text.now ≡ name.now ++ 32 ∷ rest.now) }
{
    behind(behind(text, name)?, b" ")
}

/// The event of this name and one number that a text's first line is, and what stands behind it.
#[inline(always)]
#[tactic(auto, using(crate::proofs::OnePass::one_ahead))]
fn one<'a>(text: &'a [u8], name: &[u8], kind: OneNumber) -> Option<(Event, &'a [u8])>
    requires { (a : ℕ) → event_words (event_of_one kind a) ≡ name.now ∷ decimal a ∷ [] }
    ensures { IfSome result (λ t. EventAhead text.now t.0 t.1.now) }
{
    let operand = behind_name(text, name)?;
    let (number, rest) = last_number(operand)?;
    Some((kind.event(number), rest))
}

/// The same of two numbers.
#[inline(always)]
#[tactic(auto, using(crate::proofs::OnePass::two_ahead))]
fn two<'a>(text: &'a [u8], name: &[u8], kind: TwoNumbers) -> Option<(Event, &'a [u8])>
    requires { (a b : ℕ) → event_words (event_of_two kind a b) ≡ name.now ∷ decimal a ∷ decimal b ∷ [] }
    ensures { IfSome result (λ t. EventAhead text.now t.0 t.1.now) }
{
    let operands = behind_name(text, name)?;
    let numbers = last_numbers(operands)?;
    Some((kind.event(numbers.first, numbers.second), numbers.rest))
}

/// The event that a text's first line is, where it is of a common kind, and what stands behind it.
#[inline(always)]
pub fn event(text: &[u8]) -> Option<(Event, &[u8])>
    ensures { IfSome result (λ t. EventAhead text.now t.0 t.1.now) }
{
    match text {
        [b'l', ..] => one(text, b"launch", OneNumber::Launch),
        [b'e', ..] => one(text, b"enter", OneNumber::Enter),
        [b'f', b'e', ..] => one(text, b"fetch", OneNumber::Fetch),
        [b'f', b'i', b'n', ..] => one(text, b"finish", OneNumber::Finish),
        [b'd', b'e', ..] => one(text, b"deliver", OneNumber::Deliver),
        [b'c', ..] => one(text, b"complete", OneNumber::Complete),
        [b'o', ..] => two(text, b"observe", TwoNumbers::Observe),
        [b'r', ..] => two(text, b"read", TwoNumbers::Read),
        [b's', ..] => two(text, b"store", TwoNumbers::Store),
        [b'p', _, _, _, b'l', ..] => two(text, b"pushlane", TwoNumbers::PushLane),
        [b'p', ..] => two(text, b"pushagent", TwoNumbers::PushAgent),
        _ => None,
    }
}
