//! A job's text with other heads on its packets.

ghost use Rattle.std.specs.Prelude.{◌≡◌, ◌<◌, All, IfOk, OnOk, length};
ghost use Rattle.std.specs.List.{slice_split};
ghost use Rattle.hq_text.specs.Lines.{is_line_feed, lines_of};
ghost use Rattle.hq_lines.specs.Heads.{IsPacketLine, WithHead};
ghost use Rattle.hq_jobtext.specs.JobText.{JobText};
ghost use Rattle.hq_jobtext.specs.Rewritten.{LineRewritten, Rewritten, TextRewritten};
ghost use Rattle.hq_job.specs.Heads.{job_with_heads};
ghost use Rattle.hq_jobtext.specs.RewriteSteps.{Numbered, LineReady, Appended};

use hq_job::Job;
use hq_lines::{begins_packet, with_head};
use hq_packet::Head;
use hq_text::line_end;
use std::alloc::{AllocError, Global};

/// Appends the line of a packet as it is for the packet with this head.
fn push_packet(new: &mut Vec<u8>, line: &[u8], head: &Head) -> Result<(), AllocError>
    requires { IsPacketLine line.now }
    ensures { OnOk result (Appended (WithHead line.now head.now) new.old.items new.new.items) }
{
    let (front, digits, behind) = with_head(line, head);
    new.extend_from_slice(front)?;
    new.extend_from_slice(&digits)?;
    new.extend_from_slice(behind)?;
    Ok(())
}

/// Appends the new line, and gives the numbers of the packets of the lines behind it.
fn push_line<'a>(
    new: &mut Vec<u8>,
    line: &[u8],
    numbers: &'a [u16],
    heads: &[Head],
) -> Result<&'a [u16], AllocError>
    requires { LineReady heads.now numbers.now line.now }
    ensures { IfOk result
        (λ behind. Appended
        (λ bytes. LineRewritten heads.now numbers.now line.now bytes behind.now) new.old.items new.new.items) }
{
    if !begins_packet(line) {
        new.extend_from_slice(line)?;
        return Ok(numbers);
    }
    let (first, behind) = numbers.split_at(1);
    push_packet(new, line, &heads[first[0] as usize])?;
    Ok(behind)
}

/// The lines with these heads on their packets, which have these numbers in the order of the lines.
fn rewrite_lines(
    alloc: Global,
    text: &[u8],
    numbers: &[u16],
    heads: &[Head],
) -> Result<Vec<u8>, AllocError>
    requires numbered { Numbered numbers.now (slice_split is_line_feed text.now) }
    requires below { All (λ n. n < length heads.now) numbers.now }
    ensures { IfOk result
        (λ new. Rewritten heads.now numbers.now (slice_split is_line_feed text.now)
        (slice_split is_line_feed new.items)) }
{
    let mut new = Vec::with_capacity(alloc, text.len())?;
    let mut rest = text;
    let mut left = numbers;
    while let Some(at) = line_end(rest) {
        let (line, ending) = rest.split_at(at);
        let (_, behind) = ending.split_at(1);
        left = push_line(&mut new, line, left, heads)?;
        new.push(b'\n')?;
        rest = behind;
    }
    push_line(&mut new, rest, left, heads)?;
    Ok(new)
}

/// The text of a job with these heads on its packets, by number: the text that is given, with nothing other than the
/// digits of the heads that change. It takes as much memory as the text has bytes.
///
/// # Errors
///
/// `AllocError` where there is no memory.
pub fn rewrite(alloc: Global, text: &[u8], job: &Job, heads: &[Head]) -> Result<Vec<u8>, AllocError>
    requires text { JobText (lines_of text.now) job.now }
    requires heads { length heads.now ≡ length job.now.packets }
    ensures rewritten { IfOk result (λ new. TextRewritten heads.now job.now text.now new.items) }
    ensures job { IfOk result (λ new. JobText (lines_of new.items) (job_with_heads job.now heads.now)) }
{
    job.valid();
    rewrite_lines(alloc, text, job.submissions(), heads)
}
