//! What kernels and services read, write and do.

ghost use Rattle.std.specs.Prelude.{◌≡◌, ◌+◌, ◌*◌, ◌<◌, ◌≤◌, ◌↔◌, length, All, Any, IsOk, IfOk, Ok, Err, Some};
ghost use Rattle.std.specs.Prelude.{None, IsSomeAnd};
ghost use Rattle.hq_footprint.specs.Bytes.{ranges_of, Fits, Passes};
ghost use Rattle.hq_footprint.specs.Table.{argument_count, kernel_call, argument_at, service_call, count_work};
ghost use Rattle.hq_footprint.specs.Table.{store_work, no_work};

use crate::buffers::check_fits;
use crate::fault::FootFault;
use crate::footprint::{Footprint, Range, Work};
use crate::task::{Code, Task};

/// A range of no bytes.
const NOWHERE: Range = Range { at: 0, len: 0 };

/// The service that stores a word.
const STORE64: u16 = 0x8000;

/// The service that counts bytes.
const COUNT: u16 = 0x8001;

/// The service that does nothing.
const NOP: u16 = 0x8002;

/// How many arguments a kernel takes.
fn argument_number(code: Code) -> usize
    ensures { result ≡ argument_count code }
{
    match code {
        Code::Fill | Code::Copy | Code::Rev | Code::Sum => 2,
        Code::Xor | Code::Add => 3,
    }
}

/// The number in 8 bytes, the least first.
#[tactic(auto, unfolding(crate::specs::Table::argument_at))]
fn word_at(bytes: &[u8], offset: usize) -> u64
    requires { offset + 8 ≤ length bytes.now }
    ensures { result ≡ argument_at bytes.now offset }
{
    u64::from_le_bytes([
        bytes[offset],
        bytes[offset + 1],
        bytes[offset + 2],
        bytes[offset + 3],
        bytes[offset + 4],
        bytes[offset + 5],
        bytes[offset + 6],
        bytes[offset + 7],
    ])
}

/// Work that reads at most two ranges.
fn work_of(reads: [Range; 2], write: Range, task: Task) -> Work
    ensures { result ≡ record { foot = record { reads = reads; write = write }; task = task } }
{
    Work {
        foot: Footprint { reads, write },
        task,
    }
}

/// What a kernel does, whether or not its ranges fit.
fn unchecked_kernel(code: Code, items: u64, args: &[u8]) -> Work
    requires { 8 * argument_count code ≤ length args.now }
    ensures { result ≡ kernel_call code items args.now }
{
    let first = word_at(args, 0);
    let second = word_at(args, 8);
    let at_first = Range::new(first, items);
    let at_second = Range::new(second, items);
    match code {
        Code::Fill => {
            let byte = (second % 256) as u8;
            work_of([NOWHERE, NOWHERE], at_first, Task::Fill(byte))
        }
        Code::Copy => work_of([at_first, NOWHERE], at_second, Task::Copy),
        Code::Rev => work_of([at_first, NOWHERE], at_second, Task::Rev),
        Code::Xor => {
            let at_third = Range::new(word_at(args, 16), items);
            work_of([at_first, at_second], at_third, Task::Xor)
        }
        Code::Add => {
            let at_third = Range::new(word_at(args, 16), items);
            work_of([at_first, at_second], at_third, Task::Add)
        }
        Code::Sum => work_of([at_first, NOWHERE], Range::new(second, 8), Task::Sum),
    }
}

/// What a kernel reads, writes and does on `items` items, with the arguments that stand in the kernarg block `args`:
/// 8 bytes each, the least first.
///
/// # Errors
///
/// `ArgsShort` where the block has fewer arguments than the kernel takes, else `Overflow` where a range passes the
/// last address.
pub fn of_kernel(code: Code, items: u64, args: &[u8]) -> Result<Work, FootFault>
    ensures found { IfOk result (λ work. work ≡ kernel_call code items args.now) }
    ensures ok { IsOk result
        ↔ ((8 * argument_count code ≤ length args.now) × All Fits (ranges_of (kernel_call code items args.now).foot)) }

    ensures short { (result ≡ Err FootFault.ArgsShort) ↔ (length args.now < 8 * argument_count code) }
    ensures overflow { (result ≡ Err FootFault.Overflow)
        ↔ ((8 * argument_count code ≤ length args.now)
        × Any Passes (ranges_of (kernel_call code items args.now).foot)) }
{
    if args.len() < 8 * argument_number(code) {
        return Err(FootFault::ArgsShort);
    }
    let work = unchecked_kernel(code, items, args);
    check_fits(&work.foot)?;
    Ok(work)
}

/// Work that reads and writes nothing.
pub fn nothing() -> Work
    ensures { result ≡ no_work }
{
    work_of([NOWHERE, NOWHERE], NOWHERE, Task::Nop)
}

/// A word, written at the return address.
fn store(word: u64, ret: u64) -> Work
    ensures { result ≡ store_work word ret }
{
    work_of([NOWHERE, NOWHERE], Range::new(ret, 8), Task::Store64(word))
}

/// How many of `len` bytes equal the least byte of `byte`, written at the return address.
fn count(at: u64, len: u64, byte: u64, ret: u64) -> Work
    ensures { result ≡ count_work at len byte ret }
{
    if len == 0 {
        return store(0, ret);
    }
    let byte = (byte % 256) as u8;
    work_of(
        [Range::new(at, len), NOWHERE],
        Range::new(ret, 8),
        Task::Count(byte),
    )
}

/// What a service does, whether or not its ranges fit; None where no service has the type.
fn unchecked_service(kind: u16, args: [u64; 4], ret: u64) -> Option<Work>
    ensures { result ≡ service_call kind args ret }
{
    match kind {
        STORE64 | COUNT | NOP if ret == 0 => Some(nothing()),
        STORE64 => Some(store(args[0], ret)),
        COUNT => Some(count(args[0], args[1], args[2], ret)),
        NOP => Some(nothing()),
        _ => None,
    }
}

/// What a service reads, writes and does: `kind` is the type of its agent dispatch packet, `ret` the return address.
///
/// # Errors
///
/// `Service` where there is no such service, else `Overflow` where a range passes the last address.
pub fn of_service(kind: u16, args: [u64; 4], ret: u64) -> Result<Work, FootFault>
    ensures found { IfOk result (λ work. service_call kind args ret ≡ Some work) }
    ensures ok { IsOk result ↔ IsSomeAnd (service_call kind args ret) (λ work. All Fits (ranges_of work.foot)) }

    ensures service { (result ≡ Err FootFault.Service) ↔ (service_call kind args ret ≡ None) }
    ensures overflow { (result ≡ Err FootFault.Overflow)
        ↔ IsSomeAnd (service_call kind args ret) (λ work. Any Passes (ranges_of work.foot)) }
{
    let work = unchecked_service(kind, args, ret).ok_or(FootFault::Service)?;
    check_fits(&work.foot)?;
    Ok(work)
}
