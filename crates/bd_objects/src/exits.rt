//! What goes when a process ends.

ghost use Rattle.std.specs.Prelude.{ℕ, ◌≡◌, ◌==◌, ◌||◌, ◌++◌, true, None, map, filter, OnOk, OnErr};
ghost use Rattle.std.specs.List.{list_any};
ghost use Rattle.bd_space.specs.ProcessExits as process_exits;

use crate::table::ObjectTable;
use bd_space::Identity;
use std::alloc::AllocError;

impl ObjectTable {
    ghost use Rattle.bd_space.specs.Space.{Space};
    ghost use Rattle.bd_ways.specs.Tables.{Makes};
    ghost use Rattle.bd_numbered.specs.Numbered.{slot_at};
    ghost use Rattle.bd_records.specs.{New.{HasAll}, Ending.{LiesIn}, Buffers.{list_of, window_list}};
    ghost use Rattle.bd_objects.specs.{Stands.{StandsFor}, Room.{UsesNothingBut}};

    /// The references, names and death notifications go that go with the process.
    #[tactic(auto, unfolding(bd_space::specs::ProcessExits::without_process, crate::specs::Room::rooms))]
    pub fn without_process(&mut self, p: u64)
        ensures stands { Makes (StandsFor self.old) (StandsFor self.new) (λ s. process_exits.without_process s p) }
        ensures uses { UsesNothingBut p self.old self.new }
        // What has gone leaves nothing behind: its row of names, its window's list, and those of the buffers in its window.
        ensures names { slot_at self.new.records.names.rows p ≡ None }
        ensures window { (s : Space) → StandsFor self.old s → window_list self.new.records.held p ≡ None }
        ensures buffers { (s : Space) (b : ℕ) → StandsFor self.old s → LiesIn p b s.references → list_of self.new.records.held b ≡ None }
    {
        // It may be the process for whose names there was room.
        self.sure_names = 0;
        self.records.remove_with_process(p);
        self.records.remove_of_owned(p);
        self.records.remove_process_names(p);
        self.deaths.remove_process(p);
    }

    /// Puts the objects that the process owns, and those of the references that go with it, to what is there, in some
    /// order. Fails for want of memory alone.
    pub fn touched_by_end(&self, p: u64, touched: &mut Vec<Identity>) -> Result<(), AllocError>
        ensures all { OnOk result ((s : Space) → StandsFor self.now s → HasAll touched.new.items
            ((touched.old.items ++ map (λ x. x.id) (filter (λ x. x.owner == p) s.objects))
            ++ map (λ r. r.object) (filter (process_exits.is_dropped_with s.objects p) s.references))) }
        // Nothing else is there.
        ensures only { OnOk result ((s : Space) → StandsFor self.now s → HasAll
            ((touched.old.items ++ map (λ x. x.id) (filter (λ x. x.owner == p) s.objects))
            ++ map (λ r. r.object) (filter (process_exits.is_dropped_with s.objects p) s.references))
            touched.new.items) }
        // Memory was asked for: there is such an object or reference.
        ensures grown { OnErr result ((s : Space) → StandsFor self.now s
            → (list_any (λ x. x.owner == p) s.objects
            || list_any (process_exits.is_dropped_with s.objects p) s.references) ≡ true) }
    {
        self.records.owned_by(p, touched)?;
        // Those that go because it owns the object are on objects that stand there already.
        self.records.dropped_with_process(p, touched)
    }
}
