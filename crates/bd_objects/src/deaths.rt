//! Death notifications.

ghost use Rattle.std.specs.{Prelude.{◌≡◌, ◌≤◌, true, find, IfOk, OnErr}, List.{list_any}};
ghost use Rattle.bd_space.specs.Space.{Space};
ghost use Rattle.bd_space.specs.Deaths as deaths_of;
ghost use Rattle.bd_space.specs.ProcessExits.{tell_deaths};
ghost use Rattle.bd_deaths.specs.Due as due;

use crate::table::ObjectTable;
use bd_records::named_object;
use bd_space::{DeathNotification, Identity, Phase};
use bd_uapi::Note;
use std::alloc::{AllocError, Global};

impl ObjectTable {
    ghost use Rattle.bd_ways.specs.Tables.{Tells, Makes, MakesWhere};
    ghost use Rattle.bd_objects.specs.{New.{IsNewDeath}, Stands.{StandsFor}};
    ghost use Rattle.bd_objects.specs.Room.{Uses, UsesNothing, nothing, death_room};

    /// The object that the process asks to be told of, by its number. Errors: no such number, or an uncleared
    /// notification stands on the name already.
    #[tactic(auto, unfolding(bd_space::specs::Deaths::request_check, bd_space::specs::Names::named))]
    pub fn request_check(&self, p: u64, n: u32) -> Result<Identity, Note>
        ensures { Tells (StandsFor self.now) result (λ s. deaths_of.request_check s p n) }
    {
        let o = named_object(&self.records.names, p, n).ok_or(Note::NoSuchNumber)?;
        if self.deaths.uncleared(p, o).is_some() {
            return Err(Note::AlreadyAsked);
        }
        Ok(o)
    }

    /// A new notification of the process on its name of the object, made by the step of this place. Of a space where
    /// none was made here, and the process has no uncleared one on the object.
    #[tactic(auto, unfolding(bd_space::specs::Deaths::with_death, crate::specs::Room::rooms))]
    pub fn with_death(&mut self, place: u64, p: u64, o: Identity, cookie: u64, phase: Phase)
        requires { 1 ≤ death_room self.old }
        ensures stands { MakesWhere (StandsFor self.old) (IsNewDeath place p o) (StandsFor self.new)
            (λ s. deaths_of.with_death s p o cookie phase) }
        ensures uses { Uses self.old self.new (record nothing { deaths = 1 }) }
    {
        self.sure_room = self.sure_room.saturating_sub(1);
        self.deaths.push(DeathNotification {
            made: place,
            process: p,
            object: o,
            cookie,
            phase,
            cleared: false,
        });
    }

    /// The uncleared notification on the process's name with this number. Errors: no such number, or no notification
    /// with this cookie.
    #[tactic(auto, unfolding(bd_space::specs::Deaths::clear_check, bd_space::specs::Names::named))]
    pub fn clear_check(&self, p: u64, n: u32, cookie: u64) -> Result<DeathNotification, Note>
        ensures { Tells (StandsFor self.now) result (λ s. deaths_of.clear_check s p n cookie) }
    {
        let o = named_object(&self.records.names, p, n).ok_or(Note::NoSuchNumber)?;
        let x = self.deaths.uncleared(p, o).ok_or(Note::NoneAsked)?;
        if x.cookie != cookie {
            return Err(Note::NoneAsked);
        }
        Ok(x)
    }

    /// Marks the notification as cleared.
    #[tactic(auto, unfolding(bd_space::specs::Deaths::mark_cleared, crate::specs::Room::rooms))]
    pub fn mark_cleared(&mut self, made: u64)
        ensures stands { Makes (StandsFor self.old) (StandsFor self.new) (λ s. deaths_of.mark_cleared s made) }
        ensures uses { UsesNothing self.old self.new }
    {
        self.deaths.mark_cleared(made);
    }

    /// The notification goes.
    #[tactic(auto, unfolding(bd_space::specs::Deaths::without_death, crate::specs::Room::rooms))]
    pub fn without_death(&mut self, made: u64)
        ensures stands { Makes (StandsFor self.old) (StandsFor self.new) (λ s. deaths_of.without_death s made) }
        ensures uses { UsesNothing self.old self.new }
    {
        self.deaths.remove(made);
    }

    /// The notification is this far.
    #[tactic(auto, unfolding(bd_space::specs::Deaths::with_phase, crate::specs::Room::rooms))]
    pub fn with_phase(&mut self, made: u64, phase: Phase)
        ensures stands { Makes (StandsFor self.old) (StandsFor self.new) (λ s. deaths_of.with_phase s made phase) }
        ensures uses { UsesNothing self.old self.new }
    {
        self.deaths.set_phase(made, phase);
    }

    /// The least told notification of the process with this cookie.
    #[tactic(auto, unfolding(bd_space::specs::Deaths::told_death))]
    pub fn told_death(&self, p: u64, cookie: u64) -> Option<DeathNotification>
        ensures { Tells (StandsFor self.now) result (λ s. deaths_of.told_death s p cookie) }
    {
        self.deaths.told(p, cookie)
    }

    /// The notification of this place.
    pub fn death(&self, made: u64) -> Option<DeathNotification>
        ensures { Tells (StandsFor self.now) result (λ s. find (deaths_of.is_notification made) s.deaths) }
    {
        self.deaths.death(made)
    }

    /// The notifications of others by which the end of the process is to be told, in the order in which they were made.
    pub fn due_deaths(&self, alloc: Global, p: u64) -> Result<Vec<DeathNotification>, AllocError>
        ensures due { IfOk result (λ v. Tells (StandsFor self.now) v.items (λ s. due.due_in s.objects p s.deaths)) }
        // Memory was asked for: a notification is due.
        ensures grown { OnErr result ((s : Space) → StandsFor self.now s
            → list_any (due.is_due s.objects p) s.deaths ≡ true) }
    {
        self.deaths.due(alloc, &self.records, p)
    }

    /// Queues the notifications by which the end of the process is to be told. Their work items are the caller's to
    /// make.
    #[tactic(auto, unfolding(crate::specs::Room::rooms))]
    pub fn tell_deaths(&mut self, p: u64)
        ensures stands { Makes (StandsFor self.old) (StandsFor self.new) (λ s. tell_deaths s p) }
        ensures uses { UsesNothing self.old self.new }
    {
        self.deaths.queue_due(&self.records, p);
    }
}
