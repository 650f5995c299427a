//! Objects (nodes), and who owns them.

ghost use Rattle.std.specs.Prelude.{◌≡◌, ◌≤◌, if◌then◌else◌, Option, Some, None, option_and_then};
ghost use Rattle.bd_space.specs.References as refer;

use crate::table::ObjectTable;
use bd_processes::ProcessTable;
use bd_space::{Holder, Identity, Object, Origin, Reference};

fn managed(place: u64) -> Identity
    ensures { result ≡ record { place = place; index = 0 } }
{
    Identity { place, index: 0 }
}

impl ObjectTable {
    ghost use Rattle.bd_space.specs.{Words.{is_some_and}, Seats.{lives_in}};
    ghost use Rattle.bd_space.specs.Steps as steps;
    ghost use Rattle.bd_ways.specs.Tables.{Tells, TellsWhere, MakesWhere};
    ghost use Rattle.bd_objects.specs.{Stands.{StandsFor, HasProcesses}, New.{IsNewManager}};
    ghost use Rattle.bd_objects.specs.Room.{Uses, nothing, object_room, reference_room};

    /// The object with this identity.
    pub fn object(&self, o: Identity) -> Option<Object>
        ensures { Tells (StandsFor self.now) result (λ s. refer.object_in s.objects o) }
    {
        self.records.object(o)
    }

    /// Whether the process owns the object.
    pub fn owns(&self, p: u64, o: Identity) -> bool
        ensures { Tells (StandsFor self.now) result (λ s. refer.owned_in s.objects p o) }
    {
        self.records.owns(p, o)
    }

    /// Whether the object's owner lives. Takes the live processes.
    pub fn owner_lives(&self, processes: &ProcessTable, o: Identity) -> bool
        ensures { TellsWhere (StandsFor self.now) (HasProcesses processes.now) result
            (λ s. is_some_and (refer.object_in s.objects o) (λ x. lives_in s.processes x.owner)) }
    {
        match self.records.object(o) {
            Some(x) => processes.lives(x.owner),
            None => false,
        }
    }

    /// The process's own object with this ptr.
    pub fn own_with_ptr(&self, p: u64, ptr: u64) -> Option<Object>
        ensures { Tells (StandsFor self.now) result (λ s. refer.own_in s.objects p ptr) }
    {
        self.records.own_with_ptr(p, ptr)
    }

    /// The context manager's object, with its reference: the object has ptr 0 and cookie 0, and its owner counts as
    /// told. Who the manager is, is the caller's to keep. Of a space where the process has no object with ptr 0, and
    /// none was made here.
    #[tactic(auto, unfolding(bd_space::specs::Steps::with_manager, crate::specs::Room::rooms))]
    pub fn with_manager(&mut self, place: u64, p: u64)
        requires objects { 1 ≤ object_room self.old }
        requires references { 1 ≤ reference_room self.old }
        ensures stands { MakesWhere (StandsFor self.old) (IsNewManager place p) (StandsFor self.new)
            (λ s. steps.with_manager s p) }
        ensures uses { Uses self.old self.new (record nothing { objects = 1; references = 1 }) }
    {
        self.sure_room = self.sure_room.saturating_sub(1);
        let id = managed(place);
        let _object = self.records.add_object(
            Object {
                id,
                owner: p,
                ptr: 0,
                cookie: 0,
                told_weak: true,
                told_strong: true,
            },
            false,
        );
        self.records.push(Reference {
            id: Origin { place, index: 0 },
            object: id,
            strong: true,
            holder: Holder::Manager,
        });
    }

    /// The context manager's object that is left when the process has ended.
    pub fn manager_without(&self, manager: Option<Identity>, p: u64) -> Option<Identity>
        ensures { Tells (StandsFor self.now) result
            (λ s. option_and_then (λ o. if refer.owned_in s.objects p o then None else Some o) manager) }
    {
        match manager {
            Some(o) if self.records.owns(p, o) => None,
            _ => manager,
        }
    }
}
