//! Where bytes of memory lie, as texts name them.

ghost use Rattle.std.specs.Prelude.{◌≡◌, Some};
ghost use Rattle.hq_tables.specs.Blocks.{blocks_of};
ghost use Rattle.hq_report.specs.Spots.{offset_text, spot_of, spot_text};

use hq_tables::Block;
use hq_text::Name;
use std::fmt;

/// Where a byte lies: in which buffer, which begins at an address, and how far from its beginning.
#[derive(Clone, Copy)]
pub struct Spot {
    pub name: Name,
    pub at: u64,
    pub offset: u64,
}

/// Where the byte of a number lies.
pub fn spot_of(buffers: &[Block], number: u64) -> Option<Spot>
    ensures { result ≡ spot_of (blocks_of buffers.now) number }
{
    let (first, rest) = buffers.split_first()?;
    let count = first.bytes.len() as u64;
    if number < count {
        Some(Spot {
            name: first.name,
            at: first.at,
            offset: number,
        })
    } else {
        spot_of(rest, number - count)
    }
}

/// How far from where its buffer begins a byte lies.
#[derive(Clone, Copy)]
pub struct OffsetText(pub Spot);

impl fmt::Display for OffsetText {
    ghost output = { λ s. Some (offset_text s.0) };

    fn fmt<W: fmt::Write>(&self, f: &mut fmt::Formatter<W>) -> fmt::Result {
        let name = self.0.name;
        let offset = self.0.offset;
        write!(f, "{name}+{offset}")
    }
}

impl fmt::Display for Spot {
    ghost output = { λ s. Some (spot_text s) };

    fn fmt<W: fmt::Write>(&self, f: &mut fmt::Formatter<W>) -> fmt::Result {
        let offset = OffsetText(*self);
        let address = self.at as u128 + self.offset as u128;
        write!(f, "{offset} (address {address})")
    }
}
