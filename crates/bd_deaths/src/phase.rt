//! How far a notification is, and whether it is cleared.
#![tactic(auto, unfolding(crate::specs::Room::death_room, crate::specs::Room::death_count))]

ghost use Rattle.std.specs.Prelude.{ℕ, ◌≡◌, ◌==◌, ◌∷◌, [], true, List, option_map, if◌then◌else◌};
ghost use Rattle.std.specs.List.{list_any};
ghost use Rattle.slab.specs.Slab as slab;
ghost use Rattle.bd_space.specs.Words.{changed, is_some_and};
ghost use Rattle.bd_space.specs.Todo.{death_of};
ghost use Rattle.bd_space.specs.ReadItems as reading;
ghost use Rattle.bd_space.specs.Deaths as deaths_of;
ghost use Rattle.bd_space.specs.declared.space.Phase.TheVariants.{Told};
ghost use Rattle.bd_deaths.specs.Due as due;
ghost use Rattle.bd_deaths.specs.Changes as changes;

use crate::kept::{Kept, Watch};
use crate::sharers::turn_sharer;
use crate::table::{DeathTable, forget_name};
use bd_chains::Items;
use bd_records::Records;
use bd_space::{Identity, Phase, Work, WorkKind};
use slab::Slab;

// What is kept in the slot is this far, if anything is.
fn set_phase_at(slots: &mut Slab<Kept>, at: usize, phase: Phase)
    ensures set { (k : ℕ) → slab.get slots.new k
        ≡ (if at == k then option_map (changes.in_phase phase) (slab.get slots.old k) else slab.get slots.old k) }
    ensures len { slab.slab_len slots.new ≡ slab.slab_len slots.old }
    ensures capacity { slots.new.capacity ≡ slots.old.capacity }
{
    if let Some(kept) = slots.get_mut(at) {
        kept.death.phase = phase;
    }
}

// What is kept in the slot is cleared, if anything is.
fn clear_at(slots: &mut Slab<Kept>, at: usize)
    ensures set { (k : ℕ) → slab.get slots.new k
        ≡ (if at == k then option_map changes.with_cleared (slab.get slots.old k) else slab.get slots.old k) }
    ensures len { slab.slab_len slots.new ≡ slab.slab_len slots.old }
    ensures capacity { slots.new.capacity ≡ slots.old.capacity }
{
    if let Some(kept) = slots.get_mut(at) {
        kept.death.cleared = true;
    }
}

// What is kept in the slot is queued, if it is armed.
fn queue_at(slots: &mut Slab<Kept>, at: usize)
    ensures set { (k : ℕ) → slab.get slots.new k
        ≡ (if at == k then option_map changes.queued (slab.get slots.old k) else slab.get slots.old k) }
    ensures len { slab.slab_len slots.new ≡ slab.slab_len slots.old }
    ensures capacity { slots.new.capacity ≡ slots.old.capacity }
{
    if let Some(kept) = slots.get_mut(at) {
        if matches!(kept.death.phase, Phase::Armed) {
            kept.death.phase = Phase::Queued;
        }
    }
}

// Those are queued that are armed, of these.
fn queue_each(slots: &mut Slab<Kept>, watches: Items<'_, Watch>)
    ensures set { (k : ℕ) → slab.get slots.new k ≡ (if list_any (λ w. w.at == k) watches.entry
        then option_map changes.queued (slab.get slots.old k) else slab.get slots.old k) }
    ensures len { slab.slab_len slots.new ≡ slab.slab_len slots.old }
    ensures capacity { slots.new.capacity ≡ slots.old.capacity }
{
    for w in watches {
        queue_at(slots, w.at);
    }
}

/// The notification that the item is of.
fn death_of(kind: WorkKind) -> Option<u64>
    ensures { result ≡ death_of kind }
{
    match kind {
        WorkKind::Death(made) => Some(made),
        _ => None,
    }
}

impl DeathTable {
    ghost use Rattle.bd_space.specs.declared.space.Object.{Object};
    ghost use Rattle.bd_space.specs.declared.space.DeathNotification as declared;
    ghost use Rattle.bd_space.specs.declared.space.Phase.TheVariants.{Queued};
    ghost use Rattle.bd_deaths.specs.{Stands.{DeathsAre, Makes}, Room.{Uses, death_count}, Objects.{ObjectsAre}};

    /// The notification is this far.
    pub fn set_phase(&mut self, made: u64, phase: Phase)
        ensures stands { Makes self.old self.new
            (λ l. changed (deaths_of.is_notification made) (λ x. record x { phase = phase }) l) }
        ensures uses { Uses self.old self.new 0 }
        ensures count { death_count self.new ≡ death_count self.old }
    {
        if let Some(at) = self.place(made) {
            if let Some(x) = self.in_slot(at) {
                turn_sharer(&mut self.cookies, &x, at, phase);
                set_phase_at(&mut self.slots, at, phase);
            }
        }
    }

    /// Marks the notification as cleared: it is no longer on its name.
    pub fn mark_cleared(&mut self, made: u64)
        ensures stands { Makes self.old self.new
            (λ l. changed (deaths_of.is_notification made) (λ x. record x { cleared = true }) l) }
        ensures uses { Uses self.old self.new 0 }
    {
        if let Some(at) = self.place(made) {
            if let Some(x) = self.in_slot(at) {
                forget_name(&mut self.names, &x);
                clear_at(&mut self.slots, at);
            }
        }
    }

    // What the item told of is told.
    fn read_one(&mut self, kind: WorkKind)
        ensures stands { Makes self.old self.new
            (λ l. changed (λ x. is_some_and (death_of kind) (λ n. n == x.made)) (λ x. record x { phase = Told }) l) }
        ensures uses { Uses self.old self.new 0 }
    {
        match death_of(kind) {
            Some(made) => self.set_phase(made, Phase::Told),
            None => {}
        }
    }

    /// The notifications of which these work items told are told.
    pub fn read(&mut self, taken: &[Work])
        ensures stands { Makes self.old self.new
            (λ l. changed (reading.is_told_of_death taken.now) (λ x. record x { phase = Told }) l) }
        ensures uses { Uses self.old self.new 0 }
    {
        for w in taken {
            self.read_one(w.kind);
        }
    }

    // Those are queued that are armed, on this object.
    fn queue_on(&mut self, o: Identity)
        ensures stands { Makes self.old self.new (due.queued_on (o ∷ [])) }
        ensures uses { Uses self.old self.new 0 }
    {
        let number = self.list_on(o);
        queue_each(&mut self.slots, self.objects.chains.items_on(number));
    }

    /// Queues the notifications by which the end of the process is to be told, by the records of its objects.
    pub fn queue_due(&mut self, records: &Records, p: u64)
        ensures stands { (objects : List Object) (l : List declared.DeathNotification) → ObjectsAre records.now objects
            → DeathsAre self.old l → DeathsAre self.new
            (changed (due.is_queued_in l objects p) (λ x. record x { phase = Queued }) l) }
        ensures uses { Uses self.old self.new 0 }
    {
        for o in records.listed(p) {
            self.queue_on(o);
        }
    }
}
