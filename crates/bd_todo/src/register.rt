//! What is known of all work items together, whatever their lists.

ghost use Rattle.std.specs.Prelude.{◌≡◌, ◌==◌, ◌+◌, ◌<◌, ◌≤◌, ◌∷◌, ◌++◌, [], Bool, List, length, count_by, nat_lt, if◌then◌else◌, OnOk, OnErr};
ghost use Rattle.bd_keys.specs.Tables.{Makes};
ghost use Rattle.bd_space.specs.declared.space.Work.{Work};
ghost use Rattle.bd_todo.specs.Registered.{rank, Registered, register_room};

use crate::finder::Finder;
use crate::spots::sought_of;
use bd_space::{Origin, Work};
use std::alloc::{AllocError, Global};

/// What is known of all work items together.
#[derive(Debug, Drop)]
pub struct Register {
    // Notices, calls and deaths, whatever their lists.
    pub(crate) spots: Finder,
    // No work item was made at a later place than the last one, and so many were made at its place.
    pub(crate) last: Origin,
    pub(crate) count: u64,
    // Their identities rise, up to the last: then no two are called the same.
    pub(crate) rises: bool,
}

fn is_before(a: Origin, b: Origin) -> bool
    ensures { result ≡ nat_lt (rank a) (rank b) }
{
    a.place < b.place || (a.place == b.place && a.index < b.index)
}

impl Register {
    /// Of no work items. Takes no memory.
    pub fn new(alloc: Global) -> Register
        ensures { Registered result [] }
    {
        Register {
            spots: Finder::new(alloc),
            last: Origin { place: 0, index: 0 },
            count: 0,
            rises: true,
        }
    }

    /// Room for so many more.
    #[tactic(auto, unfolding(crate::specs::Registered::Registered))]
    pub fn reserve(&mut self, more: usize) -> Result<(), AllocError>
        ensures stands { Makes (Registered self.old) (Registered self.new) (λ todo. todo) }
        ensures room { OnOk result (more ≤ register_room self.new) }
        ensures uses { register_room self.old ≤ register_room self.new }
        ensures grown { OnErr result (more ≤ register_room self.old → ⊥) }
    {
        self.spots.reserve(more)
    }

    /// A work item came last, into this slot.
    pub fn add(&mut self, work: Work, slot: usize)
        requires { 0 < register_room self.old }
        ensures stands { (todo : List Work) → length todo < 18446744073709551615
            → work.id.index ≡ count_by (λ w. w.id.place == work.id.place) todo
            → Registered self.old todo → Registered self.new (todo ++ work ∷ []) }
        ensures uses { register_room self.old ≤ register_room self.new + 1 }
    {
        self.spots.add(sought_of(work.kind), slot);
        self.rises = self.rises && is_before(self.last, work.id);
        if self.last.place <= work.id.place {
            self.last = work.id;
            self.count = work.id.index.saturating_add(1);
        }
    }

    /// A work item went.
    #[inline(always)]
    pub fn remove(&mut self, work: Work)
        ensures stands { (todo left : List Work) → ((p : Work → Bool) → count_by p todo ≡ (if p work then 1 else 0) + count_by p left)
            → Registered self.old todo → Registered self.new left }
        ensures uses { register_room self.old ≤ register_room self.new }
    {
        self.spots.remove(sought_of(work.kind));
        if work.id.place == self.last.place {
            self.count = self.count.saturating_sub(1);
        }
    }
}
