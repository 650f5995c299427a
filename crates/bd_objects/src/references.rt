//! References to objects.

ghost use Rattle.std.specs.{Prelude.{◌≡◌, ◌++◌, true, None, map, filter, OnOk, OnErr}, List.{list_any}};
ghost use Rattle.bd_space.specs.References as refer;

use crate::table::ObjectTable;
use bd_records::CarriedObjects;
use bd_space::Identity;
use std::alloc::AllocError;

impl ObjectTable {
    ghost use Rattle.bd_space.specs.Space.{Space};
    ghost use Rattle.bd_space.specs.Freeing as freeing;
    ghost use Rattle.bd_ways.specs.Tables.{Tells, Makes};
    ghost use Rattle.bd_records.specs.{Carried.{carried_in}, Buffers.{list_of}};
    ghost use Rattle.bd_objects.specs.{Stands.{StandsFor}, Room.{UsesNothing}};

    /// The objects that the buffer made there carries, one for each object of its parcel, in their order.
    pub fn carried(&self, made: u64) -> CarriedObjects<'_>
        ensures { Tells (StandsFor self.now) result (λ s. carried_in s.references made) }
    {
        self.records.carried(made)
    }

    /// The references go that a buffer held.
    #[tactic(auto, unfolding(bd_space::specs::Freeing::without_buffer, crate::specs::Room::rooms))]
    pub fn without_buffer(&mut self, made: u64)
        ensures stands { Makes (StandsFor self.old) (StandsFor self.new) (λ s. freeing.without_buffer s made) }
        ensures uses { UsesNothing self.old self.new }
        // What has gone leaves nothing behind: no list is kept.
        ensures gone { (s : Space) → StandsFor self.old s → list_of self.new.records.held made ≡ None }
    {
        self.records.remove_buffer(made);
    }

    /// The objects to which a buffer refers, put after what is there. Fails for want of memory alone.
    pub fn referred(&self, made: u64, touched: &mut Vec<Identity>) -> Result<(), AllocError>
        ensures pushed { OnOk result (Tells (StandsFor self.now) touched.new.items
            (λ s. touched.old.items
            ++ map (λ r. r.object) (filter (λ r. refer.is_of_buffer made r.holder) s.references))) }
        // Memory was asked for: it refers to one.
        ensures grown { OnErr result ((s : Space) → StandsFor self.now s
            → list_any (λ r. refer.is_of_buffer made r.holder) s.references ≡ true) }
    {
        self.records.referred(made, touched)
    }
}
