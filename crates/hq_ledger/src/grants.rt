//! The packets whose ranges are out.

ghost use Rattle.std.specs.Prelude.{◌≡◌, ◌↔◌, [], ◌∷◌, ◌++◌, IsTrue, OnOk, OnErr, IfErr};
ghost use Rattle.std.specs.Option.{MatchOption};
ghost use Rattle.hq_ledger.specs.Grants.{AreApart, Clash, IsClear, IsOut, IsInTheWay, Refuses, without};

use crate::fault::GrantFault;
use hq_footprint::{Footprint, conflict};
use std::alloc::Global;
use std::marker::Model;

/// A packet, and the ranges that it reads and writes.
#[derive(Clone, Copy, Debug)]
pub struct Grant {
    pub packet: u16,
    pub foot: Footprint,
}

impl Grant {
    /// Whether both are of one packet, or one writes a byte that the other reads or writes.
    fn clashes(&self, other: &Grant) -> bool
        ensures { IsTrue result ↔ Clash self.now other.now }
    {
        self.packet == other.packet || conflict(&self.foot, &other.foot).is_some()
    }
}

/// The packets whose ranges are out, in the order in which they were granted. No two of them clash.
#[derive(Debug, Drop)]
pub struct Grants {
    out: Vec<Grant>,
}

impl Model for Grants {
    ghost use Rattle.std.specs.Prelude.{List};
    ghost use Rattle.hq_ledger.specs.declared.grants.Grant.{Grant};
    ghost use Rattle.hq_ledger.specs.Grants.{AreApart};

    ghost Value = { List Grant };

    ghost view = { λ grants. grants.out.items };

    ghost invariant = { λ grants. AreApart grants.out.items };
}

/// The first that is in the way of a grant.
fn first_clash(out: &[Grant], grant: &Grant) -> Option<u16>
    ensures { MatchOption result (IsClear out.now grant.now) (λ packet. IsInTheWay out.now grant.now packet) }
{
    for other in out {
        if other.clashes(grant) {
            return Some(other.packet);
        }
    }
    None
}

impl Grants {
    /// With no packet out. It takes no memory.
    pub fn new(alloc: Global) -> Grants
        ensures { result ≡ [] }
    {
        Grants {
            out: Vec::new(alloc),
        }
    }

    /// No two packets that are out are one or conflict.
    pub fn apart(&self)
        ensures { AreApart self.now }
    {
        let _out = &self.out;
    }

    /// Whether the packet is out.
    pub fn is_out(&self, packet: u16) -> bool
        ensures { IsTrue result ↔ IsOut self.now packet }
    {
        self.out.iter().any(|grant| grant.packet == packet)
    }

    /// Hands a packet its ranges, unless a packet that is out is the same or conflicts.
    ///
    /// # Errors
    ///
    /// `Overlap` with a packet that is out and is the same or conflicts; `Memory`.
    pub fn grant(&mut self, packet: u16, foot: &Footprint) -> Result<(), GrantFault>
        ensures granted { OnOk result (self.new ≡ self.old ++ record { packet = packet; foot = foot.now } ∷ []) }
        ensures clear { OnOk result (IsClear self.old (record { packet = packet; foot = foot.now })) }
        ensures fault { IfErr result (Refuses self.old (record { packet = packet; foot = foot.now })) }
        ensures err { OnErr result (self.new ≡ self.old) }
    {
        let grant = Grant {
            packet,
            foot: *foot,
        };
        if let Some(other) = first_clash(&self.out, &grant) {
            return Err(GrantFault::Overlap(other));
        }
        self.out.push(grant).map_err(|_| GrantFault::Memory)
    }

    /// Takes a packet's ranges back. It takes no memory.
    ///
    /// # Errors
    ///
    /// `NotOut` where the packet isn't out.
    pub fn home(&mut self, packet: u16) -> Result<(), GrantFault>
        ensures home { OnOk result (self.new ≡ without packet self.old) }
        ensures out { OnOk result (IsOut self.old packet) }
        ensures not_out { IfErr result (λ e. (e ≡ GrantFault.NotOut) × ¬ IsOut self.old packet) }
        ensures err { OnErr result (self.new ≡ self.old) }
    {
        if !self.is_out(packet) {
            return Err(GrantFault::NotOut);
        }
        self.out.retain(|grant| grant.packet != packet);
        Ok(())
    }
}
