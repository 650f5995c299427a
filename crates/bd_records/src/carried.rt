//! The objects that a buffer carries.

ghost use Rattle.std.specs.{Prelude.{◌≡◌, List, map}, Iterator.{YieldsFirst, item_count}};
ghost use Rattle.bd_space.specs.{declared.step.Identity.{Identity}};
ghost use Rattle.bd_records.specs.Carried.{carried_in};

use crate::lying::Lying;
use crate::records::Records;
use bd_chains::Items;
use bd_space::{Holder, Identity};
use std::marker::Model;

/// The objects that a buffer carries, one for each object of its parcel, in their order.
#[derive(Drop)]
pub struct CarriedObjects<'a> {
    made: u64,
    // Those that are still to be looked at.
    references: Items<'a, Lying>,
}

impl<'a> Model for CarriedObjects<'a> {
    ghost Value = { List Identity };

    ghost view = { λ c. carried_in (map (λ v. v.reference) c.references) c.made };
}

impl Iterator for CarriedObjects<'_> {
    type Item = Identity;

    ghost next_gives = { YieldsFirst (λ s. s) };

    ghost remaining = { item_count (λ s. s) };

    fn next(&mut self) -> Option<Identity> {
        while let Some(v) = self.references.next() {
            if matches!(v.reference.holder, Holder::Carried(b, _) if b == self.made) {
                return Some(v.reference.object);
            }
        }
        None
    }
}

impl Records {
    ghost use Rattle.bd_records.specs.Records.{Tells};

    /// The objects that the buffer made there carries, one for each object of its parcel, in their order.
    pub fn carried(&self, b: u64) -> CarriedObjects<'_>
        ensures { Tells self.now result (λ l. carried_in l b) }
    {
        CarriedObjects {
            made: b,
            references: self.held.of(b),
        }
    }
}
