//! What follows from a change at one name and one object: nothing else is looked at.

ghost use Rattle.std.specs.{Prelude.{◌==◌, ◌||◌, not, false, IfSome}, List.{list_any}};
ghost use Rattle.bd_space.specs.{Words.{is_some_and}, References.{object_in}};
ghost use Rattle.bd_space.specs.declared.space.WorkKind as declared;
ghost use Rattle.bd_space.specs.Todo as todo;
ghost use Rattle.bd_space.specs.Notices as notices;
ghost use Rattle.bd_ways.specs.Local as local;
ghost use Rattle.bd_objects.specs.{Deaths.{is_lost, only_lost}, Telling.{owner_due}};

use crate::notices::{owner_to_tell, stays};
use crate::table::ObjectTable;
use bd_processes::ProcessTable;
use bd_space::{Identity, WorkKind};

impl ObjectTable {
    ghost use Rattle.bd_ways.specs.Tables.{Tells, Makes, TellsWhere, MakesWhere};
    ghost use Rattle.bd_objects.specs.{Stands.{StandsFor, HasProcesses}, Room.{UsesNothing}};

    /// The process's name of the object goes, if no reference carries it any more.
    #[tactic(auto, unfolding(bd_ways::specs::Local::names_go_of, crate::specs::Room::rooms))]
    pub fn remove_unused_name(&mut self, p: u64, o: Identity)
        ensures stands { Makes (StandsFor self.old) (StandsFor self.new) (local.names_go_of (local.at_name p o)) }
        ensures uses { UsesNothing self.old self.new }
    {
        self.records.remove_unused_name(p, o);
    }

    /// The object goes, if nothing keeps it. Returns the live owner that is then to be told of it. Takes the live processes.
    #[tactic(auto, unfolding(bd_ways::specs::Local::objects_go_of, crate::specs::Room::rooms))]
    pub fn remove_unused_object(&mut self, processes: &ProcessTable, o: Identity) -> Option<u64>
        ensures stands { MakesWhere (StandsFor self.old) (HasProcesses processes.now) (StandsFor self.new)
            (local.objects_go_of (local.at_object o)) }
        ensures owner { TellsWhere (StandsFor self.old) (HasProcesses processes.now) result
            (λ s. owner_due s (object_in (local.objects_go_of (local.at_object o) s).objects o)) }
        ensures uses { UsesNothing self.old self.new }
    {
        let kept = self.records.kept(o)?;
        let lives = processes.lives(kept.object.owner);
        if !stays(kept.hold, lives, &kept.object) {
            self.records.remove_object(o, kept.slot);
            return None;
        }
        owner_to_tell(kept.hold, lives, &kept.object)
    }

    /// Whether a notification is to go with the process's name of the object, which is gone.
    pub fn has_lost_death(&self, p: u64, o: Identity) -> bool
        ensures { Tells (StandsFor self.now) result (λ s. list_any (is_lost s.names p o) s.deaths) }
    {
        // Few names have a notification.
        if self.deaths.uncleared(p, o).is_none() {
            return false;
        }
        !self.has_name(p, o)
    }

    /// The notification that goes with the process's name of the object, which is gone, where just one does: no other
    /// work item than its own goes with the name. To be asked before the notification goes.
    #[tactic(auto, unfolding(bd_ways::specs::Local::deaths_go_of))]
    pub fn only_lost_death(&self, p: u64, o: Identity) -> Option<u64>
        ensures found { Tells (StandsFor self.now) result (λ s. only_lost s p o) }
        ensures goes { (kind : declared.WorkKind) → IfSome result (λ m. Tells (StandsFor self.now)
            (not (is_some_and (todo.death_of kind) (λ n. n == m)))
            (λ s. not (local.is_touched (local.at_name p o) (λ i. false) s.deaths kind)
            || notices.still_due s.processes s.objects s.references
            (local.deaths_go_of (local.at_name p o) s).deaths kind)) }
    {
        let x = self.deaths.uncleared(p, o)?;
        if self.has_name(p, o) {
            None
        } else {
            Some(x.made)
        }
    }

    /// The process's uncleared notifications on its name of the object go, if that is gone.
    #[tactic(auto, unfolding(bd_ways::specs::Local::deaths_go_of, crate::specs::Room::rooms))]
    pub fn remove_unnamed_deaths(&mut self, p: u64, o: Identity)
        ensures stands { Makes (StandsFor self.old) (StandsFor self.new) (local.deaths_go_of (local.at_name p o)) }
        ensures uses { UsesNothing self.old self.new }
    {
        if let Some(made) = self.only_lost_death(p, o) {
            self.deaths.remove(made);
        }
    }

    /// Whether a work item of this kind stays: a death's item goes with its notification, if that is on the process's
    /// name of the object and goes with the name. To be asked before the notifications go.
    #[tactic(auto, unfolding(bd_ways::specs::Local::deaths_go_of))]
    pub fn still_due_at(&self, p: u64, o: Identity, kind: &WorkKind) -> bool
        ensures { Tells (StandsFor self.now) result
            (λ s. not (local.is_touched (local.at_name p o) (λ i. false) s.deaths kind.now)
            || notices.still_due s.processes s.objects s.references
            (local.deaths_go_of (local.at_name p o) s).deaths kind.now) }
    {
        match *kind {
            WorkKind::Death(n) => match self.only_lost_death(p, o) {
                Some(made) => n != made,
                None => true,
            },
            _ => true,
        }
    }

    /// The live owner that is to be told of the object. Takes the live processes.
    #[inline(always)]
    pub fn owner_to_tell(&self, processes: &ProcessTable, o: Identity) -> Option<u64>
        ensures { TellsWhere (StandsFor self.now) (HasProcesses processes.now) result
            (λ s. owner_due s (object_in s.objects o)) }
    {
        let kept = self.records.kept(o)?;
        owner_to_tell(kept.hold, processes.lives(kept.object.owner), &kept.object)
    }
}
