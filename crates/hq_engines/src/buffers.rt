//! The buffers of a job as a run leaves them, one line each.

ghost use Rattle.std.specs.Prelude.{◌≡◌, ◌≤◌, ◌++◌, ◌⊎◌, IfOk, length, map, codes};
ghost use Rattle.std.specs.List.{flat_map};
ghost use Rattle.hq_tables.specs.Blocks.{bytes_of};
ghost use Rattle.hq_job.specs.Plan.{plan};
ghost use Rattle.hq_status.specs.Reports.{Said, with_feed};
ghost use Rattle.hq_engines.specs.Buffers.{buffer_line, buffers_text};

use hq_job::Job;
use hq_status::{Status, say_memory, say_text};
use hq_tables::Block;
use std::alloc::{AllocError, Global};
use std::io::Write;

/// Appends a buffer's line.
fn push_buffer(
    alloc: Global,
    text: &mut Vec<u8>,
    buffer: &Block,
    bytes: &[u8],
) -> Result<(), AllocError>
    ensures { IfOk result (λ _. text.new.items ≡ text.old.items ++ buffer_line buffer.now.name bytes.now) }
{
    let digits = hex::encode(alloc, bytes)?;
    text.extend_from_slice(b"buffer ")?;
    text.extend_from_slice(buffer.name.as_bytes())?;
    text.push(b' ')?;
    text.extend_from_slice(digits.as_bytes())?;
    text.push(b'\n')?;
    Ok(())
}

/// Appends the buffers' lines.
fn push_buffers(
    alloc: Global,
    text: &mut Vec<u8>,
    buffers: &[Block],
    memory: &[u8],
) -> Result<(), AllocError>
    requires { length (flat_map (λ b. b.bytes) (map bytes_of buffers.now)) ≤ length memory.now }
    ensures { IfOk result (λ _. text.new.items ≡ text.old.items ++ buffers_text (map bytes_of buffers.now) memory.now) }
{
    match buffers.split_first() {
        Some((buffer, others)) => {
            let (bytes, rest) = memory.split_at(buffer.bytes.len());
            push_buffer(alloc, text, buffer, bytes)?;
            push_buffers(alloc, text, others, rest)
        }
        None => Ok(()),
    }
}

/// The buffers' lines, in file order, with these bytes.
///
/// # Errors
///
/// `AllocError` where there is no memory.
pub fn buffers_text_of(alloc: Global, job: &Job, memory: &[u8]) -> Result<Vec<u8>, AllocError>
    requires { length memory.now ≡ length (plan job.now).memory }
    ensures { IfOk result (λ text. text.items ≡ buffers_text job.now.buffers memory.now) }
{
    let mut text = Vec::new(alloc);
    push_buffers(alloc, &mut text, job.buffers(), memory)?;
    Ok(text)
}

/// Writes the buffers of a job, one line each in file order, with these bytes. Nothing is written before the last
/// growth of memory.
pub fn say_buffers<W: Write>(alloc: Global, writer: &mut W, job: &Job, memory: &[u8]) -> Status
    requires { length memory.now ≡ length (plan job.now).memory }
    ensures { Said (W.contents writer.old) (W.contents writer.new)
        (buffers_text job.now.buffers memory.now) Status.Done result
        ⊎ Said (W.contents writer.old) (W.contents writer.new)
        (with_feed (codes "out of memory")) Status.Memory result }
{
    match buffers_text_of(alloc, job, memory) {
        Ok(text) => say_text(writer, &text),
        Err(_) => say_memory(writer),
    }
}
