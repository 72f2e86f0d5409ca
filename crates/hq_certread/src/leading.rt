//! The lines that a text begins with, as long as they are in common forms.

ghost use Rattle.std.specs.Prelude.{map, IfOk};
ghost use Rattle.hq_cert.specs.View.{line_of, pair_of};
ghost use Rattle.hq_certread.specs.Ahead.{LeadingLines, LeadingPairs};

use crate::one_pass;
use crate::threes::Threes;
use hq_cert::{Line, Pair};
use std::alloc::AllocError;

/// Puts the lines that a text begins with, behind so many, behind these, up to one that isn't in a common form. Answers
/// how many they are, and what is left.
pub fn leading_lines<'a>(
    threes: &Threes,
    before: u32,
    text: &'a [u8],
    lines: &mut Vec<Line>,
) -> Result<(usize, &'a [u8]), AllocError>
    ensures { IfOk result
        (λ t. LeadingLines before text.now t.1.now t.0 (map line_of lines.old.items) (map line_of lines.new.items)) }
{
    let mut rest = text;
    let mut taken = 0;
    let mut number = before;
    loop {
        let Some((p, r, ahead)) = one_pass::packets(threes, number, rest) else {
            return Ok((taken, rest));
        };
        let Some((rule, behind)) = one_pass::rule(threes, number, ahead) else {
            return Ok((taken, rest));
        };
        lines.push(Line { p, r, rule })?;
        rest = behind;
        taken += 1;
        if number == u32::MAX {
            return Ok((taken, rest));
        }
        number += 1;
    }
}

/// The same of pair lines behind so many lines.
pub fn leading_pairs<'a>(
    threes: &Threes,
    before: u32,
    text: &'a [u8],
    pairs: &mut Vec<Pair>,
) -> Result<(usize, &'a [u8]), AllocError>
    ensures { IfOk result
        (λ t. LeadingPairs before text.now t.1.now t.0 (map pair_of pairs.old.items) (map pair_of pairs.new.items)) }
{
    let mut rest = text;
    let mut taken = 0;
    loop {
        let Some((pair, behind)) = one_pass::pair(threes, before, rest) else {
            return Ok((taken, rest));
        };
        pairs.push(pair)?;
        rest = behind;
        taken += 1;
    }
}
