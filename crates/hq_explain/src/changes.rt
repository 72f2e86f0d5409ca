//! The lines that say what would order two packets.

ghost use Rattle.std.specs.Prelude.{◌≡◌, OnOk, Some, if◌then◌else◌, length, slice_get};
ghost use Rattle.std.specs.List.{list_any};
ghost use Rattle.std.specs.Io.KnownBytes.{Appends};
ghost use Rattle.hq_graph.specs.Graph.{Each, Is, Wrote};
ghost use Rattle.hq_explain.specs.Explain.{AdviceText};
ghost use Rattle.hq_explain.specs.Texts.{acquire_line, advice_lines, advice_there, bit_line, changes_title};
ghost use Rattle.hq_explain.specs.Texts.{is_some_advice, no_change, release_line};

use crate::advice::Advice;
use hq_packet::Scope;
use hq_report::ScopeWord;
use std::io::Write;
use std::{fmt, io};

/// Whether something of a packet would order them.
fn is_some(advice: Advice) -> bool
    ensures { result ≡ is_some_advice advice }
{
    advice.bit || advice.acquire.is_some() || advice.release.is_some()
}

/// Whether something of some packet would.
fn is_any(list: &[Advice]) -> bool
    ensures { result ≡ list_any is_some_advice list.now }
{
    list.iter().any(|advice| is_some(*advice))
}

/// The line that the barrier bit of a packet would order them, if it would.
#[derive(Clone, Copy, Debug)]
struct BitLine {
    p: usize,
    there: bool,
}

impl fmt::Display for BitLine {
    ghost output = { λ l. Some (bit_line l.p l.there) };

    fn fmt<W: fmt::Write>(&self, f: &mut fmt::Formatter<W>) -> fmt::Result {
        let p = self.p;
        if self.there {
            write!(f, "    packet {p}: set its barrier bit\n")
        } else {
            f.write_str("")
        }
    }
}

/// The line that a scope of a packet's acquire fence would order them, if one would.
#[derive(Clone, Copy, Debug)]
struct AcquireLine {
    p: usize,
    scope: Option<Scope>,
}

impl fmt::Display for AcquireLine {
    ghost output = { λ l. Some (acquire_line l.p l.scope) };

    fn fmt<W: fmt::Write>(&self, f: &mut fmt::Formatter<W>) -> fmt::Result {
        let p = self.p;
        match self.scope {
            Some(scope) => {
                let word = ScopeWord(scope);
                write!(f, "    packet {p}: acquire {word}\n")
            }
            None => f.write_str(""),
        }
    }
}

/// The line that a scope of a packet's release fence would order them, if one would.
#[derive(Clone, Copy, Debug)]
struct ReleaseLine {
    p: usize,
    scope: Option<Scope>,
}

impl fmt::Display for ReleaseLine {
    ghost output = { λ l. Some (release_line l.p l.scope) };

    fn fmt<W: fmt::Write>(&self, f: &mut fmt::Formatter<W>) -> fmt::Result {
        let p = self.p;
        match self.scope {
            Some(scope) => {
                let word = ScopeWord(scope);
                write!(f, "    packet {p}: release {word}\n")
            }
            None => f.write_str(""),
        }
    }
}

/// Writes what of packet p would order them.
fn write_lines<W: Write>(writer: &mut W, p: usize, advice: Advice) -> io::Result<()>
    ensures { OnOk result (Appends (W.contents writer.old) (W.contents writer.new) (advice_lines p advice)) }
{
    let bit = BitLine {
        p,
        there: advice.bit,
    };
    let acquire = AcquireLine {
        p,
        scope: advice.acquire,
    };
    let release = ReleaseLine {
        p,
        scope: advice.release,
    };
    write!(writer, "{bit}{acquire}{release}")
}

/// Writes what of packet p would order them, if that is said.
fn write_one<W: Write>(writer: &mut W, list: &[Advice], p: usize) -> io::Result<()>
    ensures { OnOk result
        (Appends (W.contents writer.old) (W.contents writer.new) (advice_there p (slice_get list.now p))) }
{
    match list.get(p) {
        Some(advice) => write_lines(writer, p, *advice),
        None => Ok(()),
    }
}

/// Writes what of each packet would order them.
fn write_each<W: Write>(writer: &mut W, list: &[Advice]) -> io::Result<()>
    ensures { OnOk result
        (Wrote (W.contents writer.old) (W.contents writer.new)
        (Each (λ p. Is (advice_there p (slice_get list.now p))) (length list.now))) }
{
    for p in 0..list.len() {
        write_one(writer, list, p)?;
    }
    Ok(())
}

/// Writes what opens the changes, or that there are none.
fn write_title<W: Write>(writer: &mut W, any: bool) -> io::Result<()>
    ensures { OnOk result
        (Appends (W.contents writer.old) (W.contents writer.new) (if any then changes_title else no_change)) }
{
    if any {
        writer.write_all(b"  any one of these would order them:\n")
    } else {
        writer.write_all(b"  no single barrier bit or fence would order them\n")
    }
}

/// Writes which single changes would order two packets.
pub fn write_changes<W: Write>(writer: &mut W, list: &[Advice]) -> io::Result<()>
    ensures { OnOk result (Wrote (W.contents writer.old) (W.contents writer.new) (AdviceText list.now)) }
{
    let any = is_any(list);
    write_title(writer, any)?;
    write_each(writer, list)
}
