//! The table: its memory, what comes and what goes.
#![tactic(auto, unfolding(crate::specs::Room::death_room, crate::specs::Room::death_count))]

ghost use Rattle.std.specs.Prelude.{ℕ, List, ◌≡◌, ◌==◌, ◌≤◌, ◌-◌, ◌++◌, ◌∷◌, [], false, not, filter, find, None, if◌then◌else◌, OnOk, OnErr};
ghost use Rattle.std.specs.{List.{list_any}, HashMap.{get, get_by, spare}};
ghost use Rattle.slab.specs.Slab.{slab_len};
ghost use Rattle.slab.specs.Slab as slab;
ghost use Rattle.bd_space.specs.declared.space.DeathNotification as declared;
ghost use Rattle.bd_space.specs.Words.{is_some_and};
ghost use Rattle.bd_space.specs.Deaths as deaths_of;
ghost use Rattle.bd_deaths.specs.Entries as spec;
ghost use Rattle.bd_deaths.specs.declared.key.NameKey.{NameKey};

use crate::kept::{Kept, Mark, Watch};
use crate::key::{NameKey, name_of};
use crate::sharers::{Sharers, add_sharer, remove_sharer};
use bd_chains::{Lists, Numbers};
use bd_keys::{WordMap, insert_reserved};
use bd_numbered::Guesses;
use bd_space::{DeathNotification, Identity};
use slab::Slab;
use std::alloc::{AllocError, Global};
use std::collections::HashMap;

/// The death notifications of all processes.
pub struct DeathTable {
    pub(crate) slots: Slab<Kept>,
    // On each object, and of each process, in the order in which they came.
    pub(crate) objects: Lists<Numbers<Identity>, Watch>,
    pub(crate) processes: Lists<Numbers<u64>, Mark>,
    // Their slots, by where they were made.
    pub(crate) places: HashMap<u64, usize>,
    // The slots of those that aren't cleared, by their names: there is one on a name at most.
    pub(crate) names: HashMap<NameKey, usize>,
    // How many have each cookie: a process picks its cookies, and whatever it picks, a look stays short.
    pub(crate) cookies: WordMap<Sharers>,
    // In which slot the one is that was made at a place.
    pub(crate) guesses: Guesses,
    // The serial number of the next that comes.
    pub(crate) next: u64,
}

impl Drop for DeathTable {
    fn drop(self) {
        let DeathTable {
            slots: _,
            objects: _,
            processes: _,
            places: _,
            names: _,
            cookies: _,
            guesses: _,
            next: _,
        } = self;
    }
}

// Makes room in the slots for so many more.
fn reserve_slots(slots: &mut Slab<Kept>, more: usize) -> Result<(), AllocError>
    ensures same { (k : ℕ) → slab.get slots.new k ≡ slab.get slots.old k }
    ensures len { slab_len slots.new ≡ slab_len slots.old }
    ensures uses { slots.old.capacity ≤ slots.new.capacity }
    ensures room { OnOk result (more ≤ slots.new.capacity - slab_len slots.new) }
    ensures grown { OnErr result (more ≤ slots.old.capacity - slab_len slots.old → ⊥) }
{
    if more <= slots.capacity() - slots.len() {
        return Ok(());
    }
    slots.reserve(more)
}

// The one that was made at this place is kept nowhere from now on. Where it was.
fn forget_place(places: &mut HashMap<u64, usize>, made: u64) -> Option<usize>
    ensures value { result ≡ get_by (λ k. made == k) places.old }
    ensures gone { (m : ℕ) → get_by (λ k. m == k) places.new ≡ (if made == m then None else get_by (λ k. m == k) places.old) }
    ensures room { spare places.old ≤ spare places.new }
{
    places.remove(&made)
}

/// None is uncleared on the notification's name from now on, if it was.
pub(crate) fn forget_name(names: &mut HashMap<NameKey, usize>, x: &DeathNotification)
    ensures gone { (k : NameKey) → get spec.same_name names.new k
        ≡ (if spec.asks_on k x.now then None else get spec.same_name names.old k) }
    ensures room { spare names.old ≤ spare names.new }
{
    if !x.cleared {
        names.remove(&name_of(x));
    }
}

// What is kept in a slot goes.
fn take_slot(slots: &mut Slab<Kept>, at: usize) -> Option<Kept>
    ensures value { result ≡ slab.get slots.old at }
    ensures gone { (k : ℕ) → slab.get slots.new k ≡ (if at == k then None else slab.get slots.old k) }
    ensures len { slab_len slots.new ≤ slab_len slots.old }
    ensures capacity { slots.new.capacity ≡ slots.old.capacity }
{
    slots.try_remove(at)
}

impl DeathTable {
    ghost use Rattle.bd_keys.specs.Tables as tables;
    ghost use Rattle.bd_chains.specs.Rows.{Row, values, drop_key};
    ghost use Rattle.bd_deaths.specs.declared.kept.Watch.{Watch};
    ghost use Rattle.bd_deaths.specs.{Stands.{DeathsAre, Makes}, Entries.{ObjectsShow, ProcessesShow}};
    ghost use Rattle.bd_deaths.specs.Room.{Uses, death_room};
    ghost use Rattle.bd_chains.specs.Lists.{lists_room};

    /// No notifications. Takes no memory.
    pub fn new(alloc: Global) -> DeathTable
        ensures { DeathsAre result [] }
    {
        DeathTable {
            slots: Slab::new(alloc),
            objects: Lists::new(alloc, Numbers::new(alloc)),
            processes: Lists::new(alloc, Numbers::new(alloc)),
            places: HashMap::new(alloc),
            names: HashMap::new(alloc),
            cookies: WordMap::new(alloc),
            guesses: Guesses::new(alloc),
            next: 0,
        }
    }

    /// Makes room for so many more. Changes nothing else.
    pub fn reserve(&mut self, more: usize) -> Result<(), AllocError>
        ensures stands { Makes self.old self.new (λ l. l) }
        ensures uses { Uses self.old self.new 0 }
        ensures room { OnOk result (more ≤ death_room self.new) }
        // Memory was asked for: there was no room.
        ensures grown { OnErr result (more ≤ death_room self.old → ⊥) }
    {
        // Most steps make none.
        if more == 0 {
            return Ok(());
        }
        if more as u64 > u64::MAX - self.next {
            return Err(AllocError);
        }
        reserve_slots(&mut self.slots, more)?;
        self.objects.reserve(more)?;
        self.processes.reserve(more)?;
        self.places.reserve(more)?;
        self.names.reserve(more)?;
        self.cookies.reserve(more)?;
        self.guesses.reserve(self.slots.capacity());
        Ok(())
    }

    /// A notification comes in, uncleared, made where none of the others was. No other on its name is uncleared.
    pub fn push(&mut self, x: DeathNotification)
        requires room { 1 ≤ death_room self.old }
        requires uncleared { x.cleared ≡ false }
        ensures stands { (l : List declared.DeathNotification) → find (deaths_of.is_notification x.made) l ≡ None
            → deaths_of.uncleared_in l x.process x.object ≡ None → DeathsAre self.old l → DeathsAre self.new (l ++ x ∷ []) }
        ensures uses { Uses self.old self.new 1 }
    {
        let at = self.slots.vacant_key();
        let watch = Watch {
            object: x.object,
            at,
        };
        let mark = Mark {
            process: x.process,
            made: x.made,
            at,
        };
        let kept = Kept {
            death: x,
            serial: self.next,
            object: self.objects.push(x.object, watch, false),
            process: self.processes.push(x.process, mark, false),
        };
        self.slots.insert_reserved(kept);
        self.guesses.note(x.made, at);
        insert_reserved(&mut self.places, x.made, at);
        insert_reserved(&mut self.names, name_of(&x), at);
        add_sharer(&mut self.cookies, &x, at);
        self.next += 1;
    }

    // Whether what is kept in the slot was made at this place.
    fn is_made_at(&self, at: usize, made: u64) -> bool
        ensures { result ≡ is_some_and (spec.kept_at self.now at) (λ k. deaths_of.is_notification made k.death) }
    {
        match self.slots.get(at) {
            Some(kept) => kept.death.made == made,
            None => false,
        }
    }

    // Where the notification is kept that was made at this place. Looks into the slot first that is guessed.
    pub(crate) fn place(&self, made: u64) -> Option<usize>
        ensures { (l : List declared.DeathNotification) → DeathsAre self.now l → result ≡ spec.place_at self.now made }
    {
        let guess = self.guesses.among(made) as usize;
        if self.is_made_at(guess, made) {
            return Some(guess);
        }
        self.places.get(&made).copied()
    }

    // What was kept goes from its lists, and its name, if it is on that.
    fn leave(&mut self, kept: &Kept)
        ensures names { (k : NameKey) → spec.name_at self.new k
            ≡ (if spec.asks_on k kept.now.death then None else spec.name_at self.old k) }
        ensures objects { tables.Makes (ObjectsShow self.old) (ObjectsShow self.new) (drop_key kept.now.object) }
        ensures processes { tables.Makes (ProcessesShow self.old) (ProcessesShow self.new) (drop_key kept.now.process) }
        // The list of its object leaves nothing behind.
        ensures gone { (rs : List (Row Watch)) → ObjectsShow self.old rs
            → list_any (λ w. spec.same_object kept.now.death.object (spec.by_object w)) (values (drop_key kept.now.object rs)) ≡ false
            → spec.object_number self.new kept.now.death.object ≡ None }
        ensures slots { self.new.slots ≡ self.old.slots }
        ensures places { self.new.places ≡ self.old.places }
        ensures cookies { self.new.cookies ≡ self.old.cookies }
        ensures next { self.new.next ≡ self.old.next }
        ensures listed { lists_room self.old.objects.chains (spare self.old.objects.numbers.all)
            ≤ lists_room self.new.objects.chains (spare self.new.objects.numbers.all) }
        ensures owned { lists_room self.old.processes.chains (spare self.old.processes.numbers.all)
            ≤ lists_room self.new.processes.chains (spare self.new.processes.numbers.all) }
        ensures named { spare self.old.names ≤ spare self.new.names }
    {
        forget_name(&mut self.names, &kept.death);
        let _watch = self.objects.chains.remove(kept.object);
        self.objects.give_back(kept.death.object);
        let _mark = self.processes.chains.remove(kept.process);
    }

    /// The notification made at this place goes, if there is one.
    pub fn remove(&mut self, made: u64)
        ensures stands { Makes self.old self.new (λ l. filter (λ x. not (deaths_of.is_notification made x)) l) }
        ensures uses { Uses self.old self.new 0 }
    {
        if let Some(at) = forget_place(&mut self.places, made) {
            if let Some(kept) = take_slot(&mut self.slots, at) {
                remove_sharer(&mut self.cookies, &kept.death);
                self.leave(&kept);
            }
        }
    }

    // One after the other goes, until the process has none.
    fn pop_each(&mut self, p: u64)
        ensures stands { Makes self.old self.new (λ l. filter (λ x. not (x.process == p)) l) }
        ensures uses { Uses self.old self.new 0 }
    {
        for _ in 0..self.processes.chains.len() {
            match self.processes.front(p) {
                Some(mark) => self.remove(mark.made),
                None => return,
            }
        }
    }

    /// The notifications of the process go.
    pub fn remove_process(&mut self, p: u64)
        ensures stands { Makes self.old self.new (λ l. filter (λ x. not (x.process == p)) l) }
        ensures uses { Uses self.old self.new 0 }
        // What has gone leaves nothing behind.
        ensures gone { (l : List declared.DeathNotification) → DeathsAre self.old l → spec.process_number self.new p ≡ None }
    {
        self.pop_each(p);
        self.processes.give_back(p);
    }
}
