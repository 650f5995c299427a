//! Objects' records, in slots.

ghost use Rattle.std.specs.{HashMap.{get_by}, Prelude.{IfSome, None, OnErr, OnOk, Some, if◌then◌else◌, option_map, ℕ, ◌+◌, ◌<◌, ◌==◌, ◌≡◌, ◌≤◌}};
ghost use Rattle.bd_space.specs.Words.{same};
ghost use Rattle.bd_records.specs.Slots.{id_in};
ghost use Rattle.bd_keys.specs.Numbers.{pair};
ghost use Rattle.bd_space.specs.declared.step.Identity as declared;
ghost use Rattle.bd_records.specs.Counting as spec;

use crate::count::Count;
use crate::row::ObjectRow;
use crate::slots::{
    id_at, insert_row, insert_slot, remove_of_owner_in, remove_row, remove_slot, reserve_rows,
    reserve_slots, row_in, slot_in, subtract_row, tell_row, turn_row,
};
use bd_keys::tall;
use bd_numbered::Guesses;
use bd_space::{Identity, Reference};
use slab::Slab;
use std::alloc::{AllocError, Global};
use std::collections::HashMap;

// By which an object is guessed.
#[inline(always)]
fn key_of(o: Identity) -> u64 {
    o.place.wrapping_add(o.index as u64)
}

/// Where it most likely stands.
#[inline(always)]
pub(crate) fn guess_of(guesses: &Guesses, key: u64) -> u32 {
    if guesses.are_few() {
        guesses.of(key)
    } else {
        guesses.among(key)
    }
}

/// Where else it may stand.
#[inline(always)]
pub(crate) fn other_guess_of(guesses: &Guesses, key: u64) -> u32 {
    if guesses.are_few() {
        guesses.among(key)
    } else {
        guesses.of(key)
    }
}

// It stands there: what is guessed wrongly, since other keys share the guess, is guessed rightly from now on.
#[inline(always)]
fn note_again(guesses: &mut Guesses, o: Identity, k: usize) {
    let key = key_of(o);
    if guesses.of(key) as usize != k {
        guesses.note(key, k);
    }
}

/// The records of all objects.
#[derive(Drop)]
pub struct Objects {
    pub(crate) rows: Slab<ObjectRow>,
    // Slots by identity, asked where a guess is wrong.
    pub(crate) slots: HashMap<Identity, usize>,
    pub(crate) guesses: Guesses,
    // No object that is there has a later identity, as a number: what has one needs no look.
    pub(crate) latest: u128,
    ghost found: { (o : declared.Identity) (k : ℕ) → id_in rows k ≡ Some o → get_by (same o) slots ≡ Some k },
    ghost leads: { (o : declared.Identity) (k : ℕ) → get_by (same o) slots ≡ Some k → id_in rows k ≡ Some o },
    ghost not_later: { (o : declared.Identity) (k : ℕ) → get_by (same o) slots ≡ Some k → pair o.place o.index ≤ latest },
}

impl Objects {
    ghost use Rattle.bd_records.specs.Objects.{object_room, row_at, slot_at};

    /// No objects. Takes no memory.
    pub fn new(alloc: Global) -> Objects
        ensures { (o : declared.Identity) → row_at result o ≡ None }
    {
        Objects {
            rows: Slab::new(alloc),
            slots: HashMap::new(alloc),
            guesses: Guesses::new(alloc),
            latest: 0,
        }
    }

    /// Makes room for more objects, and changes nothing besides, whatever it answers.
    pub fn reserve(&mut self, more: usize) -> Result<(), AllocError>
        ensures kept { (o : declared.Identity) → row_at self.new o ≡ row_at self.old o }
        ensures uses { object_room self.old ≤ object_room self.new }
        ensures room { OnOk result (more ≤ object_room self.new) }
        // Memory was asked for: there was no room.
        ensures grown { OnErr result (more ≤ object_room self.old → ⊥) }
    {
        reserve_rows(&mut self.rows, more)?;
        reserve_slots(&mut self.slots, more)?;
        self.guesses.reserve(self.rows.capacity());
        Ok(())
    }

    /// In which slot the object's record is.
    #[inline(always)]
    pub fn slot_of(&self, o: Identity) -> Option<usize>
        ensures { result ≡ slot_at self.now o }
    {
        let guess = guess_of(&self.guesses, key_of(o)) as usize;
        if id_at(&self.rows, guess) == Some(o) {
            return Some(guess);
        }
        if tall(o.place, o.index) > self.latest {
            return None;
        }
        self.slot_among(o)
    }

    /// The same, and sooner where it is this one.
    #[inline(always)]
    pub fn slot_near(&self, o: Identity, near: usize) -> Option<usize>
        ensures { result ≡ slot_at self.now o }
    {
        if id_at(&self.rows, near) == Some(o) {
            return Some(near);
        }
        self.slot_of(o)
    }

    // The same, where it is guessed wrongly.
    #[inline(never)]
    fn slot_among(&self, o: Identity) -> Option<usize>
        ensures { result ≡ slot_at self.now o }
    {
        let other = other_guess_of(&self.guesses, key_of(o)) as usize;
        if id_at(&self.rows, other) == Some(o) {
            return Some(other);
        }
        slot_in(&self.slots, o)
    }

    /// The object's record.
    #[inline(always)]
    pub fn row_of(&self, o: Identity) -> Option<ObjectRow>
        ensures is { result ≡ row_at self.now o }
        ensures id { IfSome result (λ w. w.object.id ≡ o) }
    {
        let k = self.slot_of(o)?;
        row_in(&self.rows, k)
    }

    // The record changes in this slot, which is the object's.
    #[inline(always)]
    fn turn_at(&mut self, k: usize, r: Reference, more: bool)
        requires { slot_at self.old r.object ≡ Some k }
        ensures turned { (x : declared.Identity) → row_at self.new x
            ≡ (if same r.object x then option_map (spec.turned more r) (row_at self.old x) else row_at self.old x) }
        ensures uses { object_room self.old ≤ object_room self.new }
    {
        turn_row(&mut self.rows, k, r, more);
    }

    /// Counts the reference, or no longer, in the record of its object.
    // What is looked at is changed at once, where the guess is right: nothing else is read or noted.
    #[inline(always)]
    pub fn turn(&mut self, r: Reference, more: bool)
        ensures turned { (x : declared.Identity) → row_at self.new x
            ≡ (if same r.object x then option_map (spec.turned more r) (row_at self.old x) else row_at self.old x) }
        ensures uses { object_room self.old ≤ object_room self.new }
    {
        let guess = guess_of(&self.guesses, key_of(r.object)) as usize;
        if id_at(&self.rows, guess) == Some(r.object) {
            self.turn_at(guess, r, more);
        } else if let Some(k) = self.slot_among(r.object) {
            note_again(&mut self.guesses, r.object, k);
            self.turn_at(k, r, more);
        }
    }

    /// The object's owner was told whether the object is held, and whether strongly.
    pub fn set_told(&mut self, o: Identity, weak: bool, strong: bool)
        ensures told { (x : declared.Identity) → row_at self.new x
            ≡ (if same o x then option_map (spec.told weak strong) (row_at self.old x) else row_at self.old x) }
        ensures uses { object_room self.old ≤ object_room self.new }
    {
        if let Some(k) = self.slot_of(o) {
            tell_row(&mut self.rows, k, weak, strong);
        }
    }

    /// The object's record counts so many fewer.
    pub fn subtract(&mut self, o: Identity, fewer: Count)
        ensures lowered { (x : declared.Identity) → row_at self.new x
            ≡ (if same o x then option_map (spec.lowered fewer) (row_at self.old x) else row_at self.old x) }
        ensures uses { object_room self.old ≤ object_room self.new }
    {
        if let Some(k) = self.slot_of(o) {
            subtract_row(&mut self.rows, k, fewer);
        }
    }

    /// The object's record counts none any more that the owner has to its own object.
    pub fn remove_of_owner(&mut self, o: Identity)
        ensures disowned { (x : declared.Identity) → row_at self.new x
            ≡ (if same o x then option_map spec.disowned (row_at self.old x) else row_at self.old x) }
        ensures uses { object_room self.old ≤ object_room self.new }
    {
        if let Some(k) = self.slot_of(o) {
            remove_of_owner_in(&mut self.rows, k);
        }
    }

    /// Takes in an object's record, in place of one that it had, and answers its slot.
    pub fn insert(&mut self, row: ObjectRow) -> usize
        requires { 1 ≤ object_room self.old }
        ensures at { (x : declared.Identity) → row_at self.new x
            ≡ (if same row.object.id x then Some row else row_at self.old x) }
        ensures uses { object_room self.old ≤ object_room self.new + 1 }
    {
        let k = insert_row(&mut self.rows, row);
        self.guesses.note(key_of(row.object.id), k);
        self.latest = self
            .latest
            .max(tall(row.object.id.place, row.object.id.index));
        if let Some(before) = insert_slot(&mut self.slots, row.object.id, k) {
            remove_row(&mut self.rows, before);
        }
        k
    }

    /// The object's record goes, if it has one. Takes the slot in which it may be.
    pub fn remove(&mut self, o: Identity, near: usize) -> Option<ObjectRow>
        ensures gone { result ≡ row_at self.old o }
        ensures id { IfSome result (λ w. w.object.id ≡ o) }
        ensures at { (x : declared.Identity) → row_at self.new x ≡ (if same o x then None else row_at self.old x) }
        ensures uses { object_room self.old ≤ object_room self.new }
    {
        match self.slot_near(o, near) {
            Some(k) => {
                remove_slot(&mut self.slots, o);
                remove_row(&mut self.rows, k)
            }
            None => None,
        }
    }
}
