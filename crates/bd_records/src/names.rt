//! Names' records, in each process's vector by number.

ghost use Rattle.std.specs.Prelude.{IfNone, IfOk, IfSome, None, OnErr, OnOk, Some, false, if◌then◌else◌, is_some, option_map, true, ℕ, ◌&&◌, ◌+◌, ◌<◌, ◌==◌, ◌^◌, ◌≡◌, ◌≤◌};
ghost use Rattle.bd_space.specs.Words.{same};
ghost use Rattle.bd_records.specs.{NameRows.{new_row, object_in}, NumberKeys.{number_at}};
ghost use Rattle.bd_keys.specs.Numbers.{pair};
ghost use Rattle.bd_space.specs.declared.step.Identity as declared;
ghost use Rattle.bd_records.specs.Counting as spec;

use crate::count::Count;
use crate::counting::{Turned, Unasked};
use crate::keys::{remove_numbers, reserve_numbers};
use crate::number_key::{ObjectKey, insert_number, number_in, remove_number};
use crate::numbers::NumbersFull;
use crate::objects::{guess_of, other_guess_of};
use crate::row::{NameRow, NameSpot};
use bd_keys::tall;
use bd_numbered::{Guesses, Numbered};
use bd_space::{Identity, Reference};
use std::alloc::{AllocError, Global};
use std::collections::HashMap;

// By which a name is guessed.
#[inline(always)]
fn key_of(p: u64, o: Identity) -> u64 {
    p.wrapping_mul(31)
        .wrapping_add(o.place)
        .wrapping_add(o.index as u64)
}

// It has this number: what is guessed wrongly, since other keys share the guess, is guessed rightly from now on.
#[inline(always)]
fn note_again(guesses: &mut Guesses, p: u64, o: Identity, n: u32) {
    let key = key_of(p, o);
    if guesses.of(key) != n {
        guesses.note(key, n as usize);
    }
}

/// The names of all processes.
#[derive(Drop)]
pub struct Names {
    pub(crate) rows: Numbered<NameRow>,
    // Numbers by process and object, asked where a guess was wrong.
    pub(crate) numbers: HashMap<ObjectKey, u32>,
    pub(crate) guesses: Guesses,
    // No object that has a name has a later identity, as a number: for what has one no name is looked for.
    pub(crate) latest: u128,
    ghost found: { (p : ℕ) (o : declared.Identity) (n : ℕ) → object_in rows p n ≡ Some o → number_at numbers p o ≡ Some n },
    ghost leads: { (p : ℕ) (o : declared.Identity) (n : ℕ) → number_at numbers p o ≡ Some n → object_in rows p n ≡ Some o },
    ghost not_later: { (p : ℕ) (o : declared.Identity) (n : ℕ) → number_at numbers p o ≡ Some n → pair o.place o.index ≤ latest },
    ghost small: { (p : ℕ) (o : declared.Identity) (n : ℕ) → number_at numbers p o ≡ Some n → n ≤ 4294967294 },
}

impl Names {
    ghost use Rattle.bd_numbered.specs.Numbered.{IsFreeAt, slot_at, value_at};
    ghost use Rattle.bd_chains.specs.Chain.{is_at};
    ghost use Rattle.bd_records.specs.Names.{name_at, name_room, named_by, number_of};

    /// No names. Takes no memory.
    pub fn new(alloc: Global) -> Names
        ensures names { (p : ℕ) (o : declared.Identity) → name_at result p o ≡ None }
        ensures named { (p n : ℕ) → named_by result p n ≡ None }
        ensures numbers { (p : ℕ) (o : declared.Identity) → number_of result p o ≡ None }
    {
        Names {
            rows: Numbered::new(alloc),
            numbers: HashMap::new(alloc),
            guesses: Guesses::new(alloc),
            latest: 0,
        }
    }

    /// Makes room for more names of the process, and changes nothing besides, whatever it answers.
    pub fn reserve(&mut self, p: u64, more: usize) -> Result<(), AllocError>
        ensures named { (q n : ℕ) → named_by self.new q n ≡ named_by self.old q n }
        ensures numbers { (q : ℕ) (o : declared.Identity) → number_of self.new q o ≡ number_of self.old q o }
        ensures names { (q : ℕ) (o : declared.Identity) → name_at self.new q o ≡ name_at self.old q o }
        ensures uses { (q : ℕ) → name_room self.old q ≤ name_room self.new q }
        ensures room { OnOk result (more ≤ name_room self.new p) }
        // Memory was asked for: there was no room.
        ensures grown { OnErr result (more ≤ name_room self.old p → ⊥) }
    {
        self.rows.reserve(p, more)?;
        reserve_numbers(&mut self.numbers, more)?;
        self.guesses.reserve(self.numbers.capacity());
        Ok(())
    }

    /// What the number names for the process.
    #[inline(always)]
    pub fn named(&self, p: u64, n: u32) -> Option<Identity>
        ensures { result ≡ named_by self.now p n }
    {
        match self.rows.look(p, n) {
            Some(row) => Some(row.object),
            None => None,
        }
    }

    /// By which number the process names the object.
    #[inline(always)]
    pub fn number_of(&self, p: u64, o: Identity) -> Option<u32>
        ensures { result ≡ number_of self.now p o }
    {
        // Told first: most are asked for since they are new, and a guess would be of another.
        if tall(o.place, o.index) > self.latest {
            return None;
        }
        let guess = guess_of(&self.guesses, key_of(p, o));
        if self.named(p, guess) == Some(o) {
            return Some(guess);
        }
        self.number_among(p, o)
    }

    // The same, where it is guessed wrongly.
    #[inline(never)]
    fn number_among(&self, p: u64, o: Identity) -> Option<u32>
        ensures { result ≡ number_of self.now p o }
    {
        let other = other_guess_of(&self.guesses, key_of(p, o));
        if self.named(p, other) == Some(o) {
            return Some(other);
        }
        number_in(&self.numbers, p, o)
    }

    /// The least number from this one on that names something for the process. Looks at each number up to it.
    pub fn next_number(&self, p: u64, from: u32) -> Option<u32>
        ensures none { IfNone result ((m : ℕ) → from ≤ m → m < 2 ^ 32 → named_by self.now p m ≡ None) }
        ensures from { IfSome result (λ n. from ≤ n) }
        ensures there { IfSome result (λ n. is_some (named_by self.now p n) ≡ true) }
        ensures before { IfSome result (λ n. (m : ℕ) → from ≤ m → m < n → named_by self.now p m ≡ None) }
    {
        self.rows.next(p, from)
    }

    // The same with its record, where it is this one.
    #[inline(always)]
    fn spot_at(&self, p: u64, o: Identity, number: u32) -> Option<NameSpot>
        ensures number { IfSome result (λ s. number_of self.now p o ≡ Some s.number) }
        ensures row { IfSome result (λ s. value_at self.now.rows p s.number ≡ Some s.row) }
    {
        if let Some(row) = self.rows.look(p, number) {
            if row.object == o {
                return Some(NameSpot { number, row: *row });
            }
        }
        None
    }

    /// The number and the record of the process's name of the object.
    #[inline(always)]
    pub(crate) fn spot_of(&self, p: u64, o: Identity) -> Option<NameSpot>
        ensures number { IfSome result (λ s. number_of self.now p o ≡ Some s.number) }
        ensures row { IfSome result (λ s. value_at self.now.rows p s.number ≡ Some s.row) }
        ensures none { IfNone result (number_of self.now p o ≡ None) }
    {
        if let Some(s) = self.spot_at(p, o, guess_of(&self.guesses, key_of(p, o))) {
            return Some(s);
        }
        self.spot_among(p, o)
    }

    // The same, where it is guessed wrongly.
    #[inline(never)]
    fn spot_among(&self, p: u64, o: Identity) -> Option<NameSpot>
        ensures number { IfSome result (λ s. number_of self.now p o ≡ Some s.number) }
        ensures row { IfSome result (λ s. value_at self.now.rows p s.number ≡ Some s.row) }
        ensures none { IfNone result (number_of self.now p o ≡ None) }
    {
        let number = self.number_among(p, o)?;
        match self.rows.get(p, number) {
            Some(row) => Some(NameSpot { number, row }),
            None => unreachable!(),
        }
    }

    /// The record of the process's name of the object.
    #[inline(always)]
    pub fn row_of(&self, p: u64, o: Identity) -> Option<NameRow>
        ensures is { result ≡ name_at self.now p o }
        ensures object { IfSome result (λ w. w.object ≡ o) }
    {
        match self.spot_of(p, o) {
            Some(s) => Some(s.row),
            None => None,
        }
    }

    // Counts the reference, or no longer, in the record under this number, if it is of the object: whether it is.
    #[inline(always)]
    fn turn_at(&mut self, p: u64, n: u32, r: Reference, more: bool) -> bool
        ensures is { result ≡ is_at n (number_of self.old p r.object) }
        ensures turned { (q : ℕ) (o : declared.Identity) → name_at self.new q o ≡ (if (p == q) && (result && same r.object o)
            then option_map (spec.name_turned more r) (name_at self.old q o) else name_at self.old q o) }
        ensures named { (q m : ℕ) → named_by self.new q m ≡ named_by self.old q m }
        ensures numbers { (q : ℕ) (o : declared.Identity) → number_of self.new q o ≡ number_of self.old q o }
        ensures uses { (q : ℕ) → name_room self.old q ≤ name_room self.new q }
    {
        self.rows.turn(p, n, Turned { reference: r, more })
    }

    /// Counts the reference, or no longer, in the record of the process's name of its object.
    // What is looked at is changed at once, where the guess is right: nothing else is read or noted.
    #[inline(always)]
    pub fn turn(&mut self, p: u64, r: Reference, more: bool)
        ensures turned { (q : ℕ) (o : declared.Identity) → name_at self.new q o
            ≡ (if (p == q) && same r.object o then option_map (spec.name_turned more r) (name_at self.old q o) else name_at self.old q o) }
        ensures named { (q m : ℕ) → named_by self.new q m ≡ named_by self.old q m }
        ensures numbers { (q : ℕ) (o : declared.Identity) → number_of self.new q o ≡ number_of self.old q o }
        ensures uses { (q : ℕ) → name_room self.old q ≤ name_room self.new q }
    {
        let guess = guess_of(&self.guesses, key_of(p, r.object));
        if self.turn_at(p, guess, r, more) {
            return;
        }
        if let Some(n) = self.number_among(p, r.object) {
            note_again(&mut self.guesses, p, r.object, n);
            let _there = self.turn_at(p, n, r, more);
        }
    }

    /// The record of the process's name of that object counts nothing any more that the process asked for, if there is one.
    pub fn clear_asked(&mut self, p: u64, o: Identity)
        ensures cleared { (q : ℕ) (x : declared.Identity) → name_at self.new q x
            ≡ (if (p == q) && same o x then option_map spec.unasked (name_at self.old q x) else name_at self.old q x) }
        ensures named { (q m : ℕ) → named_by self.new q m ≡ named_by self.old q m }
        ensures numbers { (q : ℕ) (x : declared.Identity) → number_of self.new q x ≡ number_of self.old q x }
        ensures uses { (q : ℕ) → name_room self.old q ≤ name_room self.new q }
    {
        if let Some(n) = self.number_of(p, o) {
            let _there = self.rows.turn(p, n, Unasked { object: o });
        }
    }

    /// A name for an object that the process has none for: with the least free number, from 0 or from 1, which it answers.
    pub fn give(&mut self, from_zero: bool, p: u64, o: Identity) -> Result<u32, NumbersFull>
        requires room { 1 ≤ name_room self.old p }
        requires lacks { number_of self.old p o ≡ None }
        ensures err { OnErr result (self.new ≡ self.old) }
        ensures full { OnErr result ((m : ℕ) → (if from_zero then 0 else 1) ≤ m → m ≤ 4294967294
            → is_some (named_by self.old p m) ≡ true) }
        ensures free { IfOk result (λ n. IsFreeAt (if from_zero then 0 else 1) self.old.rows p n) }
        ensures within { IfOk result (λ n. n ≤ 4294967294) }
        ensures named { IfOk result (λ n. (q m : ℕ)
            → named_by self.new q m ≡ (if (p == q) && (n == m) then Some o else named_by self.old q m)) }
        ensures numbers { IfOk result (λ n. (q : ℕ) (x : declared.Identity)
            → number_of self.new q x ≡ (if (p == q) && same o x then Some n else number_of self.old q x)) }
        ensures names { OnOk result ((q : ℕ) (x : declared.Identity)
            → name_at self.new q x ≡ (if (p == q) && same o x then Some (new_row o) else name_at self.old q x)) }
        ensures uses { (q : ℕ) → name_room self.old q ≤ name_room self.new q + 1 }
    {
        let Some(n) = self.rows.free_number(p, from_zero) else {
            return Err(NumbersFull);
        };
        let row = NameRow {
            object: o,
            asked: Count::none(),
            carried: Count::none(),
        };
        let _n = self.rows.put(p, n == 0, row);
        insert_number(&mut self.numbers, p, o, n);
        self.guesses.note(key_of(p, o), n as usize);
        self.latest = self.latest.max(tall(o.place, o.index));
        Ok(n)
    }

    /// Takes out the process's name of the object, which has this number.
    #[inline(always)]
    pub(crate) fn remove_at(&mut self, p: u64, o: Identity, n: u32)
        requires { number_of self.old p o ≡ Some n }
        ensures named { (q m : ℕ) → named_by self.new q m
            ≡ (if (p == q) && (n == m) then None else named_by self.old q m) }
        ensures numbers { (q : ℕ) (x : declared.Identity) → number_of self.new q x
            ≡ (if (p == q) && same o x then None else number_of self.old q x) }
        ensures names { (q : ℕ) (x : declared.Identity) → name_at self.new q x
            ≡ (if (p == q) && same o x then None else name_at self.old q x) }
        ensures uses { (q : ℕ) → name_room self.old q ≤ name_room self.new q }
    {
        let _row = self.rows.remove(p, n);
        remove_number(&mut self.numbers, p, o);
    }

    /// Takes out the process's name of the object, if there is one.
    pub fn remove(&mut self, p: u64, o: Identity)
        ensures named { (q m : ℕ) → named_by self.new q m
            ≡ (if (p == q) && is_at m (number_of self.old p o) then None else named_by self.old q m) }
        ensures numbers { (q : ℕ) (x : declared.Identity) → number_of self.new q x
            ≡ (if (p == q) && same o x then None else number_of self.old q x) }
        ensures names { (q : ℕ) (x : declared.Identity) → name_at self.new q x
            ≡ (if (p == q) && same o x then None else name_at self.old q x) }
        ensures uses { (q : ℕ) → name_room self.old q ≤ name_room self.new q }
    {
        if let Some(k) = self.number_of(p, o) {
            self.remove_at(p, o, k);
        }
    }

    /// All names of the process go, and its row with them.
    pub fn remove_process(&mut self, p: u64)
        ensures named { (q m : ℕ) → named_by self.new q m ≡ (if p == q then None else named_by self.old q m) }
        ensures numbers { (q : ℕ) (x : declared.Identity) → number_of self.new q x
            ≡ (if p == q then None else number_of self.old q x) }
        ensures names { (q : ℕ) (x : declared.Identity) → name_at self.new q x
            ≡ (if p == q then None else name_at self.old q x) }
        ensures row { slot_at self.new.rows p ≡ None }
        ensures uses { (q : ℕ) → (p == q) ≡ false → name_room self.old q ≤ name_room self.new q }
    {
        remove_numbers(&self.rows, &mut self.numbers, p);
        self.rows.close(p);
    }
}
