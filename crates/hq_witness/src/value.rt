//! Two runs that differ.

ghost use Rattle.std.specs.Prelude.{◌≡◌};

use crate::origin::Origin;
use crate::place::Place;
use hq_finding::{Kind, Why};
use hq_machine::Journal;
use std::marker::Model;

/// Two runs of a job that isn't ordered in which a place has another origin, and the conflict that an audit of the
/// job refuses.
#[derive(Drop)]
pub struct Witness {
    pub(crate) p: u16,
    pub(crate) r: u16,
    pub(crate) kind: Kind,
    pub(crate) why: Why,
    pub(crate) place: Place,
    pub(crate) good: Journal,
    pub(crate) good_origin: Origin,
    pub(crate) bad: Journal,
    pub(crate) bad_origin: Origin,
}

impl Model for Witness {
    ghost use Rattle.hq_witness.specs.Witness.{WitnessValue};

    ghost Value = { WitnessValue };

    ghost view = { λ w. record {
      p = w.p;
      r = w.r;
      kind = w.kind;
      why = w.why;
      place = w.place;
      good = w.good;
      good_origin = w.good_origin;
      bad = w.bad;
      bad_origin = w.bad_origin;
    } };
}

impl Witness {
    /// The two packets of the conflict that isn't ordered.
    pub fn pair(&self) -> (u16, u16)
        ensures p { result.0 ≡ self.now.p }
        ensures r { result.1 ≡ self.now.r }
    {
        (self.p, self.r)
    }

    /// The kind of that conflict.
    pub fn kind(&self) -> Kind
        ensures { result ≡ self.now.kind }
    {
        self.kind
    }

    /// Why it isn't ordered.
    pub fn why(&self) -> Why
        ensures { result ≡ self.now.why }
    {
        self.why
    }

    /// Where the two runs differ.
    pub fn place(&self) -> Place
        ensures { result ≡ self.now.place }
    {
        self.place
    }

    /// The run that goes right first: where the packets of the conflict are ordered, the one that takes all packets
    /// one by one, and otherwise the one that takes them in their order.
    pub fn good(&self) -> &Journal
        ensures { result.now ≡ self.now.good }
    {
        &self.good
    }

    /// The origin of the place in that run.
    pub fn good_origin(&self) -> Origin
        ensures { result ≡ self.now.good_origin }
    {
        self.good_origin
    }

    /// The other run.
    pub fn bad(&self) -> &Journal
        ensures { result.now ≡ self.now.bad }
    {
        &self.bad
    }

    /// The origin of the place in the other run.
    pub fn bad_origin(&self) -> Origin
        ensures { result ≡ self.now.bad_origin }
    {
        self.bad_origin
    }
}
