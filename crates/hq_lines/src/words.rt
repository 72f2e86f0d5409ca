//! What words say.

ghost use Rattle.std.specs.Prelude.{◌≡◌, ◌+◌, ◌*◌, ◌-◌, ◌<◌, ◌≤◌, length, map, IfOk, IfErr, IfSome, IfNone};
ghost use Rattle.std.specs.Prelude.{MatchResult, Ok, Some, unwrap_or, nat_lt, ◌&&◌, ◌⊎◌};
ghost use Rattle.hq_lines.specs.Order.{name_said, ranged, code_said, sized_said, some_said, short_said, size_said};
ghost use Rattle.hq_lines.specs.Order.{extent_said, agent_said, to_said, zeros_of, filled_of, buffer_said, args_of};
ghost use Rattle.hq_lines.specs.Order.{args_said, signal_of, signal_said, kernel_of, kernel_said, queue_of};
ghost use Rattle.hq_lines.specs.Order.{queue_said, end_said, plain_said, is_power, packet_digits, digits_fault};
ghost use Rattle.hq_lines.specs.Order.{words_fault};
ghost use Rattle.hq_lines.specs.Says.{Says, SpellsPacket};
ghost use Rattle.hex.specs.Hex.{decode_of, hex_digit_value};
ghost use Rattle.hq_lines.specs.Decodes.{AreValues, Decodes};
ghost use Rattle.std.specs.Option.{option_map};
ghost use Rattle.hq_lines.specs.declared.fault.LineFault.TheVariants.{Memory};
ghost use Rattle.hq_lines.specs.Meaning.{view};
ghost use Rattle.hq_lines.specs.Gives.{Gives};

use crate::fault::LineFault;
use crate::limits::{BLOCK, BUFFER, SLOTS};
use crate::line::Line;
use hq_footprint::Code;
use hq_packet::decode;
use hq_text::{Name, number_of};
use std::alloc::Global;

/// The name that a word is.
#[tactic(auto, unfolding(crate::specs::Order::name_said))]
fn name_said(word: &[u8]) -> Result<Name, LineFault>
    ensures { result ≡ name_said word.now }
{
    match Name::new(word) {
        Some(name) => Ok(name),
        None => Err(LineFault::Word),
    }
}

/// A number in a range.
#[tactic(auto, unfolding(crate::specs::Order::ranged))]
fn ranged(low: u64, high: u64, word: &[u8]) -> Result<u64, LineFault>
    ensures value { result ≡ ranged low high word.now }
    ensures range { IfOk result (λ n. (low ≤ n) × (n ≤ high)) }
{
    match number_of(word) {
        Some(n) if n >= low && n <= high => Ok(n),
        _ => Err(LineFault::Number),
    }
}

/// The kernel that a word names.
#[tactic(auto, unfolding(crate::specs::Order::code_said))]
fn code_said(word: &[u8]) -> Result<Code, LineFault>
    ensures { result ≡ code_said word.now }
{
    if word == b"fill".as_slice() {
        Ok(Code::Fill)
    } else if word == b"copy".as_slice() {
        Ok(Code::Copy)
    } else if word == b"rev".as_slice() {
        Ok(Code::Rev)
    } else if word == b"xor".as_slice() {
        Ok(Code::Xor)
    } else if word == b"add".as_slice() {
        Ok(Code::Add)
    } else if word == b"sum".as_slice() {
        Ok(Code::Sum)
    } else {
        Err(LineFault::Word)
    }
}

/// The bytes that so many pairs of digits spell.
fn sized_said(alloc: Global, len: u64, word: &[u8]) -> Result<Vec<u8>, LineFault>
    requires { len ≤ BUFFER }
    ensures value { Gives (λ v. v.items) result (sized_said len word.now) }
    ensures len { IfOk result (λ v. length v.items ≡ len) }
{
    let mut bytes = vec![in alloc; 0; len as usize]?;
    if word.len() != 2 * bytes.len() {
        return Err(LineFault::Hex);
    }
    if !decode_pairs(word, &mut bytes) {
        return Err(LineFault::Hex);
    }
    Ok(bytes)
}

/// The bytes that digits spell, one or more.
#[tactic(auto, unfolding(crate::specs::Order::some_said))]
fn some_said(alloc: Global, word: &[u8]) -> Result<Vec<u8>, LineFault>
    ensures { Gives (λ v. v.items) result (some_said word.now) }
{
    match hex::decode(alloc, word) {
        Ok(bytes) if !bytes.is_empty() => Ok(bytes),
        Err(hex::FromHexError::OutOfMemory) => Err(LineFault::Memory),
        _ => Err(LineFault::Hex),
    }
}

/// At most as many bytes as a kernarg block has.
#[tactic(auto, unfolding(crate::specs::Order::short_said))]
fn short_said(bytes: Vec<u8>) -> Result<Vec<u8>, LineFault>
    ensures value { Gives (λ v. v.items) result (short_said bytes.items) }
    ensures len { IfOk result (λ v. length v.items ≤ BLOCK) }
{
    if bytes.len() > BLOCK {
        return Err(LineFault::TooLong);
    }
    Ok(bytes)
}

fn is_power(size: u16) -> bool
    requires { size ≤ SLOTS }
    ensures { result ≡ is_power size }
{
    matches!(size, 1 | 2 | 4 | 8 | 16 | 32 | 64 | 128 | 256 | 512 | 1024)
}

/// A queue's size.
#[tactic(auto, unfolding(crate::specs::Order::size_said))]
fn size_said(word: &[u8]) -> Result<u16, LineFault>
    ensures { result ≡ size_said word.now }
{
    let size = ranged(1, SLOTS, word)? as u16;
    if !is_power(size) {
        return Err(LineFault::QueueSize);
    }
    Ok(size)
}

#[tactic(auto, unfolding(crate::specs::Order::agent_said))]
fn agent_said(words: &[&[u8]]) -> Result<Line, LineFault>
    ensures { Gives view result (agent_said (map (λ w. w.now) words.now)) }
{
    match words {
        [name] => Ok(Line::Agent(name_said(name)?)),
        _ => Err(LineFault::Word),
    }
}

#[tactic(auto, unfolding(crate::specs::Order::to_said))]
fn to_said(words: &[&[u8]]) -> Result<Line, LineFault>
    ensures { Gives view result (to_said (map (λ w. w.now) words.now)) }
{
    match words {
        [name] => Ok(Line::To(name_said(name)?)),
        _ => Err(LineFault::Word),
    }
}

/// An address and a count of bytes.
#[tactic(auto, unfolding(crate::specs::Order::extent_said))]
fn extent_said(at: &[u8], len: &[u8]) -> Result<(u64, u64), LineFault>
    ensures value { result ≡ extent_said at.now len.now }
    ensures range { IfOk result (λ e. e.1 ≤ BUFFER) }
{
    let at = ranged(1, 1 << 48, at)?;
    let len = ranged(1, BUFFER, len)?;
    Ok((at, len))
}

#[tactic(auto, unfolding(crate::specs::Order::zeros_of))]
fn zeros_of(alloc: Global, name: &[u8], at: &[u8], len: &[u8]) -> Result<Line, LineFault>
    ensures { Gives view result (zeros_of name.now at.now len.now) }
{
    let name = name_said(name)?;
    let (at, len) = extent_said(at, len)?;
    let bytes = vec![in alloc; 0; len as usize]?;
    Ok(Line::Buffer { name, at, bytes })
}

#[tactic(auto, unfolding(crate::specs::Order::filled_of))]
fn filled_of(
    alloc: Global,
    name: &[u8],
    at: &[u8],
    len: &[u8],
    digits: &[u8],
) -> Result<Line, LineFault>
    ensures { Gives view result (filled_of name.now at.now len.now digits.now) }
{
    let name = name_said(name)?;
    let (at, len) = extent_said(at, len)?;
    let bytes = sized_said(alloc, len, digits)?;
    Ok(Line::Buffer { name, at, bytes })
}

#[tactic(auto, unfolding(crate::specs::Order::buffer_said))]
fn buffer_said(alloc: Global, words: &[&[u8]]) -> Result<Line, LineFault>
    ensures { Gives view result (buffer_said (map (λ w. w.now) words.now)) }
{
    match words {
        [name, at, len] => zeros_of(alloc, name, at, len),
        [name, at, len, digits] => filled_of(alloc, name, at, len, digits),
        _ => Err(LineFault::Word),
    }
}

#[tactic(auto, unfolding(crate::specs::Order::args_of))]
fn args_of(alloc: Global, name: &[u8], at: &[u8], digits: &[u8]) -> Result<Line, LineFault>
    ensures { Gives view result (args_of name.now at.now digits.now) }
{
    let name = name_said(name)?;
    let at = ranged(1, u64::MAX, at)?;
    let bytes = some_said(alloc, digits)?;
    let bytes = short_said(bytes)?;
    Ok(Line::Args { name, at, bytes })
}

#[tactic(auto, unfolding(crate::specs::Order::args_said))]
fn args_said(alloc: Global, words: &[&[u8]]) -> Result<Line, LineFault>
    ensures { Gives view result (args_said (map (λ w. w.now) words.now)) }
{
    match words {
        [name, at, digits] => args_of(alloc, name, at, digits),
        _ => Err(LineFault::Word),
    }
}

#[tactic(auto, unfolding(crate::specs::Order::signal_of))]
fn signal_of(name: &[u8], handle: &[u8], start: &[u8]) -> Result<Line, LineFault>
    ensures { Gives view result (signal_of name.now handle.now start.now) }
{
    let name = name_said(name)?;
    let handle = ranged(1, u64::MAX, handle)?;
    let start = ranged(0, (1 << 63) - 1, start)?;
    Ok(Line::Signal {
        name,
        handle,
        start,
    })
}

#[tactic(auto, unfolding(crate::specs::Order::signal_said))]
fn signal_said(words: &[&[u8]]) -> Result<Line, LineFault>
    ensures { Gives view result (signal_said (map (λ w. w.now) words.now)) }
{
    match words {
        [name, handle, start] => signal_of(name, handle, start),
        _ => Err(LineFault::Word),
    }
}

#[tactic(auto, unfolding(crate::specs::Order::kernel_of))]
fn kernel_of(name: &[u8], object: &[u8], code: &[u8]) -> Result<Line, LineFault>
    ensures { Gives view result (kernel_of name.now object.now code.now) }
{
    let name = name_said(name)?;
    let code = code_said(code)?;
    let object = ranged(1, u64::MAX, object)?;
    Ok(Line::Kernel { name, object, code })
}

#[tactic(auto, unfolding(crate::specs::Order::kernel_said))]
fn kernel_said(words: &[&[u8]]) -> Result<Line, LineFault>
    ensures { Gives view result (kernel_said (map (λ w. w.now) words.now)) }
{
    match words {
        [name, object, code] => kernel_of(name, object, code),
        _ => Err(LineFault::Word),
    }
}

#[tactic(auto, unfolding(crate::specs::Order::queue_of))]
fn queue_of(name: &[u8], agent: &[u8], size: &[u8]) -> Result<Line, LineFault>
    ensures { Gives view result (queue_of name.now agent.now size.now) }
{
    let name = name_said(name)?;
    let agent = name_said(agent)?;
    let size = size_said(size)?;
    Ok(Line::Queue { name, agent, size })
}

#[tactic(auto, unfolding(crate::specs::Order::queue_said))]
fn queue_said(words: &[&[u8]]) -> Result<Line, LineFault>
    ensures { Gives view result (queue_said (map (λ w. w.now) words.now)) }
{
    match words {
        [name, agent, size] => queue_of(name, agent, size),
        _ => Err(LineFault::Word),
    }
}

#[tactic(auto, unfolding(crate::specs::Order::end_said))]
fn end_said(words: &[&[u8]]) -> Result<Line, LineFault>
    ensures { Gives view result (end_said (map (λ w. w.now) words.now)) }
{
    match words {
        [] => Ok(Line::End),
        _ => Err(LineFault::Word),
    }
}

/// What words say that spell no packet.
#[tactic(auto, unfolding(crate::specs::Order::plain_said))]
fn plain_said(alloc: Global, words: &[&[u8]]) -> Result<Line, LineFault>
    ensures { Gives view result (plain_said (map (λ w. w.now) words.now)) }
{
    let Some((first, others)) = words.split_first() else {
        return Err(LineFault::Word);
    };
    if *first == b"agent".as_slice() {
        agent_said(others)
    } else if *first == b"buffer".as_slice() {
        buffer_said(alloc, others)
    } else if *first == b"args".as_slice() {
        args_said(alloc, others)
    } else if *first == b"signal".as_slice() {
        signal_said(others)
    } else if *first == b"kernel".as_slice() {
        kernel_said(others)
    } else if *first == b"queue".as_slice() {
        queue_said(others)
    } else if *first == b"to".as_slice() {
        to_said(others)
    } else if *first == b"end".as_slice() {
        end_said(others)
    } else {
        Err(LineFault::Word)
    }
}

/// The value of a digit, or 255 where it is none.
pub(crate) fn digit_value(digit: u8) -> u8
    ensures { result ≡ unwrap_or (hex_digit_value digit) 255 }
{
    match digit {
        b'0'..=b'9' => digit - b'0',
        b'a'..=b'f' => digit - b'a' + 10,
        b'A'..=b'F' => digit - b'A' + 10,
        _ => 255,
    }
}

/// Whether these are the values of digits.
fn are_digits(high: u8, low: u8) -> bool
    ensures { result ≡ (nat_lt high 16 && nat_lt low 16) }
{
    high < 16 && low < 16
}

/// The byte that two digits spell, by their values.
fn byte_of(high: u8, low: u8) -> u8
    ensures { high < 16 → low < 16 → result ≡ high * 16 + low }
{
    high.wrapping_mul(16).wrapping_add(low)
}

/// The values of 128 digits from a place on, one behind another, so that many are looked at at once.
fn values_from(digits: &[u8], from: usize) -> [u8; 128]
    requires { from + 128 ≤ length digits.now }
    ensures { AreValues digits.now from 128 result }
{
    let mut values = [0; 128];
    for i in 0..128 {
        values[i] = digit_value(digits[from + i]);
    }
    values
}

/// Decodes all pairs of digits, and tells whether all are digits. What that leaves of others says nothing.
fn decode_pairs(digits: &[u8], bytes: &mut [u8]) -> bool
    requires { length digits.now ≡ 2 * length bytes.old }
    ensures { Decodes digits.now bytes.new result }
{
    let mut fine = true;
    let mut done = 0;
    while bytes.len() - done >= 64 {
        let values = values_from(digits, 2 * done);
        for i in 0..64 {
            let high = values[2 * i];
            let low = values[2 * i + 1];
            fine &= are_digits(high, low);
            bytes[done + i] = byte_of(high, low);
        }
        done += 64;
    }
    for i in done..bytes.len() {
        let high = digit_value(digits[2 * i]);
        let low = digit_value(digits[2 * i + 1]);
        fine &= are_digits(high, low);
        bytes[i] = byte_of(high, low);
    }
    fine
}

/// The bytes that 128 digits spell.
fn packet_bytes(digits: &[u8]) -> Option<[u8; 64]>
    ensures found { IfSome result (λ bytes. (length digits.now ≡ 128) × (decode_of digits.now ≡ Ok bytes)) }
    ensures none { IfNone result (digits_fault digits.now ≡ Some LineFault.Hex) }
{
    if digits.len() != 128 {
        return None;
    }
    let mut bytes = [0; 64];
    if !decode_pairs(digits, &mut bytes) {
        return None;
    }
    Some(bytes)
}

/// The packet that 128 digits spell.
pub fn packet_said(digits: &[u8]) -> Result<Line, LineFault>
    ensures { MatchResult result (λ line. SpellsPacket digits.now (view line)) (λ e. digits_fault digits.now ≡ Some e) }
{
    let Some(bytes) = packet_bytes(digits) else {
        return Err(LineFault::Hex);
    };
    match decode(&bytes) {
        Ok(packet) => Ok(Line::Packet(packet)),
        Err(fault) => Err(LineFault::Packet(fault)),
    }
}

/// The digits of a packet line.
#[tactic(auto, unfolding(crate::specs::Order::packet_digits))]
fn packet_digits<'a>(words: &[&'a [u8]]) -> Option<&'a [u8]>
    ensures { option_map (λ digits. digits.now) result ≡ packet_digits (map (λ w. w.now) words.now) }
{
    match words {
        [first, digits] if *first == b"packet".as_slice() => Some(digits),
        _ => None,
    }
}

/// What words say.
pub fn words_said(alloc: Global, words: &[&[u8]]) -> Result<Line, LineFault>
    ensures found { IfOk result (λ line. Says (map (λ w. w.now) words.now) (view line)) }
    ensures fault { IfErr result (λ e. (e ≡ Memory) ⊎ (words_fault (map (λ w. w.now) words.now) ≡ Some e)) }
{
    match packet_digits(words) {
        Some(digits) => packet_said(digits),
        None => plain_said(alloc, words),
    }
}
