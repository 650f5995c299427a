//! The objects of a process, one after the other.

ghost use Rattle.std.specs.{Prelude.{◌≡◌, ◌==◌, List, map, filter}, Iterator.{YieldsFirst, item_count}};
ghost use Rattle.bd_keys.specs.Tables.{Tells};
ghost use Rattle.bd_space.specs.{declared.step.Identity.{Identity}};

use crate::owned::{Owned, Possession};
use bd_chains::Items;
use bd_space::Identity;
use std::marker::Model;

/// The identities of the objects that a process owns, in the order in which these came.
#[derive(Drop)]
pub struct OwnedObjects<'a> {
    possessions: Items<'a, Possession>,
}

impl<'a> Model for OwnedObjects<'a> {
    ghost Value = { List Identity };

    ghost view = { λ c. map (λ v. v.id) c.possessions };
}

impl Iterator for OwnedObjects<'_> {
    type Item = Identity;

    ghost next_gives = { YieldsFirst (λ s. s) };

    ghost remaining = { item_count (λ s. s) };

    fn next(&mut self) -> Option<Identity> {
        match self.possessions.next() {
            Some(v) => Some(v.id),
            None => None,
        }
    }
}

impl Owned {
    ghost use Rattle.bd_records.specs.Owned.{OwnedAre};

    /// The objects of the process, in the order in which they came.
    pub fn listed(&self, p: u64) -> OwnedObjects<'_>
        ensures { Tells (OwnedAre self.now) result (λ objects. map (λ x. x.id) (filter (λ x. x.owner == p) objects)) }
    {
        OwnedObjects {
            possessions: self.of(p),
        }
    }
}
