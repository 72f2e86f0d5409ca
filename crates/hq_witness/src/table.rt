//! Lists of origins.

ghost use Rattle.std.specs.Prelude.{◌≡◌, ◌<◌, IfOk, length, replicate, set, slice_index_or};
ghost use Rattle.hq_witness.specs.declared.origin.Origin.{Origin as OriginValue};
ghost use Rattle.hq_witness.specs.declared.origin.Origin.TheVariants as origin;

use crate::origin::Origin;
use std::alloc::{AllocError, Global};
use std::marker::Model;

/// An origin for each agent, or for each packet's lane. Contracts see the list.
#[derive(Drop)]
pub struct Table {
    origins: Vec<Origin>,
}

impl Model for Table {
    ghost use Rattle.std.specs.Prelude.{List};
    ghost use Rattle.hq_witness.specs.declared.origin.Origin.{Origin};

    ghost Value = { List Origin };

    ghost view = { λ t. t.origins.items };
}

impl Table {
    /// So many, each the start.
    pub fn new(alloc: Global, count: usize) -> Result<Table, AllocError>
        ensures { IfOk result (λ t. t ≡ replicate count origin.Start) }
    {
        let origins = vec![in alloc; Origin::Start; count]?;
        Ok(Table { origins })
    }

    /// The origin of this number.
    pub fn get(&self, number: usize) -> Origin
        requires { number < length self.now }
        ensures { (d : OriginValue) → result ≡ slice_index_or self.now number d }
    {
        self.origins[number]
    }

    /// Puts another origin in the place of this number.
    pub fn put(&mut self, number: usize, origin: Origin)
        requires { number < length self.old }
        ensures { self.new ≡ set self.old number origin }
    {
        self.origins[number] = origin;
    }
}
