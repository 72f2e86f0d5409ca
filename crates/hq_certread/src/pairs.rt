//! Pair lines read.

ghost use Rattle.std.specs.Prelude.{◌≡◌, map};
ghost use Rattle.hq_certread.specs.LineTests.{read_write_said, write_write_of, write_write_said, write_read_of};
ghost use Rattle.hq_certread.specs.LineTests.{write_read_said, write_chain_of, write_chain_said, packets_said};
ghost use Rattle.hq_certread.specs.LineTests.{links_said, links_below, read_chain_of, read_chain_said, fences_said};
ghost use Rattle.hq_certread.specs.LineTests.{pair_said};
ghost use Rattle.hq_certread.specs.LineTests as tests;
ghost use Rattle.hq_certread.specs.Gives.{Gives};
ghost use Rattle.hq_cert.specs.View.{fences_of, pair_of};
ghost use Rattle.hq_certread.specs.Cited.{links_of};

use crate::fault::CertReason;
use crate::forms::{FencesKind, fences_kind};
use crate::operands::{below, citation_said, cited_below, number_said};
use hq_cert::{Citation, Fences, Pair, ReadChain, WriteChain};
use std::alloc::Global;

#[tactic(auto, unfolding(crate::specs::LineTests::read_write_said))]
fn read_write_said(count: usize, words: &[&[u8]]) -> Result<Fences, CertReason>
    ensures { Gives fences_of result (read_write_said count (map (λ w. w.now) words.now)) }
{
    match words {
        [line] => {
            let line = number_said(line)?;
            Ok(Fences::ReadWrite(below(count, line)?))
        }
        _ => Err(CertReason::Word),
    }
}

#[tactic(auto, unfolding(crate::specs::LineTests::write_write_of))]
fn write_write_of(count: usize, x: &[u8], from: &[u8], on: &[u8]) -> Result<Fences, CertReason>
    ensures { Gives fences_of result (write_write_of count x.now from.now on.now) }
{
    let x = number_said(x)?;
    let from = citation_said(from)?;
    let on = number_said(on)?;
    let from = cited_below(count, from)?;
    let on = below(count, on)?;
    Ok(Fences::WriteWrite { x, from, on })
}

#[tactic(auto, unfolding(crate::specs::LineTests::write_write_said))]
fn write_write_said(count: usize, words: &[&[u8]]) -> Result<Fences, CertReason>
    ensures { Gives fences_of result (write_write_said count (map (λ w. w.now) words.now)) }
{
    match words {
        [x, from, on] => write_write_of(count, x, from, on),
        _ => Err(CertReason::Word),
    }
}

#[tactic(auto, unfolding(crate::specs::LineTests::write_read_of))]
fn write_read_of(
    count: usize,
    x: &[u8],
    y: &[u8],
    from: &[u8],
    between: &[u8],
    to: &[u8],
) -> Result<Fences, CertReason>
    ensures { Gives fences_of result (write_read_of count x.now y.now from.now between.now to.now) }
{
    let x = number_said(x)?;
    let y = number_said(y)?;
    let from = citation_said(from)?;
    let between = number_said(between)?;
    let to = citation_said(to)?;
    let from = cited_below(count, from)?;
    let between = below(count, between)?;
    let to = cited_below(count, to)?;
    Ok(Fences::WriteRead {
        x,
        y,
        from,
        between,
        to,
    })
}

#[tactic(auto, unfolding(crate::specs::LineTests::write_read_said))]
fn write_read_said(count: usize, words: &[&[u8]]) -> Result<Fences, CertReason>
    ensures { Gives fences_of result (write_read_said count (map (λ w. w.now) words.now)) }
{
    match words {
        [x, y, from, between, to] => write_read_of(count, x, y, from, between, to),
        _ => Err(CertReason::Word),
    }
}

#[tactic(auto, unfolding(crate::specs::LineTests::write_chain_of))]
fn write_chain_of(
    alloc: Global,
    count: usize,
    x: &[u8],
    x2: &[u8],
    from: &[u8],
    link: &[u8],
    on: &[u8],
) -> Result<Fences, CertReason>
    ensures { Gives fences_of result (write_chain_of count x.now x2.now from.now link.now on.now) }
{
    let x = number_said(x)?;
    let x2 = number_said(x2)?;
    let from = citation_said(from)?;
    let link = number_said(link)?;
    let on = number_said(on)?;
    let from = cited_below(count, from)?;
    let link = below(count, link)?;
    let on = below(count, on)?;
    let chain = WriteChain {
        x,
        x2,
        from,
        link,
        on,
    };
    Ok(Fences::WriteWriteChained(Box::new(alloc, chain)?))
}

#[tactic(auto, unfolding(crate::specs::LineTests::write_chain_said))]
fn write_chain_said(alloc: Global, count: usize, words: &[&[u8]]) -> Result<Fences, CertReason>
    ensures { Gives fences_of result (write_chain_said count (map (λ w. w.now) words.now)) }
{
    match words {
        [x, x2, from, link, on] => write_chain_of(alloc, count, x, x2, from, link, on),
        _ => Err(CertReason::Word),
    }
}

/// The packets of a chained pair line.
#[derive(Clone, Copy)]
struct Packets {
    x: u32,
    x2: u32,
    y2: u32,
    y: u32,
}

/// What a chained pair line cites, by number, None for `=`.
#[derive(Clone, Copy)]
struct Numbers {
    from: Option<u32>,
    link: Option<u32>,
    between: u32,
    link2: Option<u32>,
    to: Option<u32>,
}

/// The same, known to stand below the limit.
#[derive(Clone, Copy)]
struct Links {
    from: Citation,
    link: Citation,
    between: u32,
    link2: Citation,
    to: Citation,
}

#[tactic(auto, unfolding(crate::specs::LineTests::packets_said))]
fn packets_said(x: &[u8], x2: &[u8], y2: &[u8], y: &[u8]) -> Result<Packets, CertReason>
    ensures { result ≡ packets_said x.now x2.now y2.now y.now }
{
    let x = number_said(x)?;
    let x2 = number_said(x2)?;
    let y2 = number_said(y2)?;
    let y = number_said(y)?;
    Ok(Packets { x, x2, y2, y })
}

#[tactic(auto, unfolding(crate::specs::LineTests::links_said))]
fn links_said(
    from: &[u8],
    link: &[u8],
    between: &[u8],
    link2: &[u8],
    to: &[u8],
) -> Result<Numbers, CertReason>
    ensures { result ≡ links_said from.now link.now between.now link2.now to.now }
{
    let from = citation_said(from)?;
    let link = citation_said(link)?;
    let between = number_said(between)?;
    let link2 = citation_said(link2)?;
    let to = citation_said(to)?;
    Ok(Numbers {
        from,
        link,
        between,
        link2,
        to,
    })
}

#[tactic(auto, unfolding(crate::specs::LineTests::links_below))]
fn links_below(count: usize, links: Numbers) -> Result<Links, CertReason>
    ensures { Gives links_of result (links_below count links) }
{
    let from = cited_below(count, links.from)?;
    let link = cited_below(count, links.link)?;
    let between = below(count, links.between)?;
    let link2 = cited_below(count, links.link2)?;
    let to = cited_below(count, links.to)?;
    Ok(Links {
        from,
        link,
        between,
        link2,
        to,
    })
}

fn chain_of(packets: Packets, links: Links) -> ReadChain
    ensures x { result.x ≡ packets.x }
    ensures x2 { result.x2 ≡ packets.x2 }
    ensures y2 { result.y2 ≡ packets.y2 }
    ensures y { result.y ≡ packets.y }
    ensures from { result.from ≡ links.from }
    ensures link { result.link ≡ links.link }
    ensures between { result.between ≡ links.between }
    ensures link2 { result.link2 ≡ links.link2 }
    ensures to { result.to ≡ links.to }
{
    ReadChain {
        x: packets.x,
        x2: packets.x2,
        y2: packets.y2,
        y: packets.y,
        from: links.from,
        link: links.link,
        between: links.between,
        link2: links.link2,
        to: links.to,
    }
}

#[tactic(auto, unfolding(crate::specs::LineTests::read_chain_of))]
fn read_chain_of(
    alloc: Global,
    count: usize,
    packets: Result<Packets, CertReason>,
    numbers: Result<Numbers, CertReason>,
) -> Result<Fences, CertReason>
    ensures { Gives fences_of result (read_chain_of count packets numbers) }
{
    let packets = packets?;
    let numbers = numbers?;
    let links = links_below(count, numbers)?;
    let chain = Box::new(alloc, chain_of(packets, links))?;
    Ok(Fences::WriteReadChained(chain))
}

#[tactic(auto, unfolding(crate::specs::LineTests::read_chain_said))]
fn read_chain_said(alloc: Global, count: usize, words: &[&[u8]]) -> Result<Fences, CertReason>
    ensures { Gives fences_of result (read_chain_said count (map (λ w. w.now) words.now)) }
{
    match words {
        [x, x2, y2, y, from, link, between, link2, to] => {
            let packets = packets_said(x, x2, y2, y);
            let numbers = links_said(from, link, between, link2, to);
            read_chain_of(alloc, count, packets, numbers)
        }
        _ => Err(CertReason::Word),
    }
}

#[tactic(auto, unfolding(crate::specs::LineTests::fences_said))]
fn fences_said(
    alloc: Global,
    count: usize,
    kind: FencesKind,
    words: &[&[u8]],
) -> Result<Fences, CertReason>
    ensures { Gives fences_of result (fences_said count kind (map (λ w. w.now) words.now)) }
{
    match kind {
        FencesKind::ReadWrite => read_write_said(count, words),
        FencesKind::WriteWrite => write_write_said(count, words),
        FencesKind::WriteRead => write_read_said(count, words),
        FencesKind::WriteWriteChained => write_chain_said(alloc, count, words),
        FencesKind::WriteReadChained => read_chain_said(alloc, count, words),
    }
}

#[tactic(auto, unfolding(crate::specs::LineTests::pair_of))]
fn pair_of(
    alloc: Global,
    count: usize,
    p: &[u8],
    r: &[u8],
    kind: FencesKind,
    operands: &[&[u8]],
) -> Result<Pair, CertReason>
    ensures { Gives pair_of result (tests.pair_of count p.now r.now kind (map (λ w. w.now) operands.now)) }
{
    let p = number_said(p)?;
    let r = number_said(r)?;
    let fences = fences_said(alloc, count, kind, operands)?;
    Ok(Pair { p, r, fences })
}

/// A pair line behind so many lines, by the words behind `pair`.
#[tactic(auto, unfolding(crate::specs::LineTests::pair_said))]
pub fn pair_said(
    alloc: Global,
    chained: bool,
    count: usize,
    words: &[&[u8]],
) -> Result<Pair, CertReason>
    ensures { Gives pair_of result (pair_said chained count (map (λ w. w.now) words.now)) }
{
    let [p, r, name, operands @ ..] = words else {
        return Err(CertReason::Word);
    };
    match fences_kind(chained, name, operands.len()) {
        Some(kind) => pair_of(alloc, count, p, r, kind, operands),
        None => Err(CertReason::Word),
    }
}
