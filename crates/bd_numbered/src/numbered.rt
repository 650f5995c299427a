//! The rows of all processes.

ghost use Rattle.std.specs.Prelude.{option_copied, ℕ, ◌≡◌, ◌==◌, ◌≤◌, ◌<◌, ◌+◌, ◌&&◌, true, false, Some, None, is_some, option_map, MatchOption, IfSome, IfNone, ◌^◌, if◌then◌else◌, OnOk, OnErr};
ghost use Rattle.std.specs.HashMap.{get_by};
ghost use Rattle.bd_places.specs.Places.{is_there_and};
ghost use Rattle.bd_numbered.specs.Columns.{made_in};

use crate::guesses::Guesses;
use crate::row::Row;
use crate::rows::{
    free_in, insert_row, insert_slot, made_at, next_in, put_in, remove_in, remove_row, remove_slot,
    reserve_in, reserve_rows, reserve_slots, turn_in,
};
use bd_places::Change;
use slab::Slab;
use std::alloc::{AllocError, Global};
use std::collections::HashMap;

/// Values of processes, by number. Where room is made for a process that had none, it gets a row, which it has until it is closed.
#[derive(Drop)]
pub struct Numbered<T> {
    pub(crate) rows: Slab<Row<T>>,
    // The slot of each process's row, asked where a guess is wrong.
    pub(crate) slots: HashMap<u64, usize>,
    pub(crate) guesses: Guesses,
    pub(crate) alloc: Global,
    ghost found: { (p k : ℕ) → made_in rows k ≡ Some p → get_by (λ q. p == q) slots ≡ Some k },
    ghost leads: { (p k : ℕ) → get_by (λ q. p == q) slots ≡ Some k → made_in rows k ≡ Some p },
}

impl<T: Copy> Numbered<T> {
    ghost use Rattle.bd_numbered.specs.Numbered.{slot_at, value_at, number_room, IsFreeAt};

    /// No process has a value, and none a row. Memory is taken later.
    pub fn new(alloc: Global) -> Numbered<T>
        ensures { (p n : ℕ) → value_at result p n ≡ None }
    {
        Numbered {
            rows: Slab::new(alloc),
            slots: HashMap::new(alloc),
            guesses: Guesses::new(alloc),
            alloc,
        }
    }

    /// The slot of the process's row.
    #[inline(always)]
    pub fn slot_of(&self, p: u64) -> Option<usize>
        ensures { result ≡ slot_at self.now p }
    {
        let guess = if self.guesses.are_few() {
            self.guesses.of(p)
        } else {
            self.guesses.among(p)
        };
        let guess = guess as usize;
        if made_at(&self.rows, guess) == Some(p) {
            return Some(guess);
        }
        self.slot_among(p)
    }

    // The same, where it is guessed wrongly.
    #[inline(never)]
    fn slot_among(&self, p: u64) -> Option<usize>
        ensures { result ≡ slot_at self.now p }
    {
        let other = if self.guesses.are_few() {
            self.guesses.among(p)
        } else {
            self.guesses.of(p)
        };
        let other = other as usize;
        if made_at(&self.rows, other) == Some(p) {
            return Some(other);
        }
        self.slots.get(&p).copied()
    }

    /// What the process has under a number.
    #[inline(always)]
    pub fn get(&self, p: u64, n: u32) -> Option<T>
        ensures { result ≡ value_at self.now p n }
    {
        let k = self.slot_of(p)?;
        match self.rows.get(k) {
            Some(row) => row.get(n),
            None => None,
        }
    }

    /// The same, where it stands.
    #[inline(always)]
    pub fn look(&self, p: u64, n: u32) -> Option<&T>
        ensures { option_copied result ≡ value_at self.now p n }
    {
        let k = self.slot_of(p)?;
        match self.rows.get(k) {
            Some(row) => row.look(n),
            None => None,
        }
    }

    /// The first free number of the process, counted from 0 or from 1; none where that is past 4294967294.
    pub fn free_number(&self, p: u64, from_zero: bool) -> Option<u32>
        ensures free { let first = (if from_zero then 0 else 1) in
            MatchOption result ((m : ℕ) → first ≤ m → m ≤ 4294967294 → is_some (value_at self.now p m) ≡ true)
            (λ n. IsFreeAt first self.now p n) }
        ensures within { IfSome result (λ n. n ≤ 4294967294) }
    {
        match self.slot_of(p) {
            Some(k) => free_in(&self.rows, k, from_zero),
            None => Some(u32::from(!from_zero)),
        }
    }

    /// The first number of the process from this one on under which it has a value. Looks at each up to it.
    pub fn next(&self, p: u64, from: u32) -> Option<u32>
        ensures none { IfNone result ((m : ℕ) → from ≤ m → m < 2 ^ 32 → value_at self.now p m ≡ None) }
        ensures from { IfSome result (λ n. from ≤ n) }
        ensures there { IfSome result (λ n. is_some (value_at self.now p n) ≡ true) }
        ensures before { IfSome result (λ n. (m : ℕ) → from ≤ m → m < n → value_at self.now p m ≡ None) }
    {
        let k = self.slot_of(p)?;
        next_in(&self.rows, k, from)
    }

    // Gives a process its row, with room in it. It has none.
    fn open(&mut self, p: u64, more: usize) -> Result<(), AllocError>
        requires { slot_at self.old p ≡ None }
        ensures kept { (q n : ℕ) → value_at self.new q n ≡ value_at self.old q n }
        ensures uses { (q : ℕ) → number_room self.old q ≤ number_room self.new q }
        ensures room { OnOk result (more ≤ number_room self.new p) }
    {
        let mut row = Row::new(self.alloc, p);
        row.reserve(more)?;
        reserve_rows(&mut self.rows)?;
        reserve_slots(&mut self.slots)?;
        self.guesses.reserve(self.rows.capacity());
        let k = insert_row(&mut self.rows, row);
        insert_slot(&mut self.slots, p, k);
        self.guesses.note(p, k);
        Ok(())
    }

    /// Makes room for so many more values of this process. Values stay as they are, whatever the answer is.
    pub fn reserve(&mut self, p: u64, more: usize) -> Result<(), AllocError>
        ensures kept { (q n : ℕ) → value_at self.new q n ≡ value_at self.old q n }
        ensures uses { (q : ℕ) → number_room self.old q ≤ number_room self.new q }
        ensures room { OnOk result (more ≤ number_room self.new p) }
        // Memory was refused only where there was no room.
        ensures grown { OnErr result (more ≤ number_room self.old p → ⊥) }
    {
        if more == 0 {
            return Ok(());
        }
        match self.slot_of(p) {
            Some(k) => reserve_in(&mut self.rows, k, more),
            None => self.open(p, more),
        }
    }

    /// Puts the value at the process's first free number from 1 on, or at 0, and tells the number.
    pub fn put(&mut self, p: u64, zero: bool, value: T) -> usize
        requires { 1 ≤ number_room self.old p }
        ensures put { (q n : ℕ) → value_at self.new q n
            ≡ (if (p == q) && (result == n) then Some value else value_at self.old q n) }
        ensures zero { zero ≡ true → result ≡ 0 }
        ensures free { zero ≡ false → IsFreeAt 1 self.old p result }
        ensures uses { (q : ℕ) → number_room self.old q ≤ number_room self.new q + 1 }
    {
        match self.slot_of(p) {
            Some(k) => put_in(&mut self.rows, k, zero, value),
            None => unreachable!(),
        }
    }

    /// Changes what the process has under a number, if that is meant: whether it is.
    #[inline(always)]
    pub fn turn<C: Change<T>>(&mut self, p: u64, n: u32, change: C) -> bool
        ensures meant { result ≡ is_there_and (C.meant change) (value_at self.old p n) }
        ensures turned { (q m : ℕ) → value_at self.new q m ≡ (if (p == q) && (result && (n == m))
            then option_map (C.changed change) (value_at self.old q m) else value_at self.old q m) }
        ensures uses { (q : ℕ) → number_room self.old q ≤ number_room self.new q }
    {
        match self.slot_of(p) {
            Some(k) => turn_in(&mut self.rows, k, n, change),
            None => false,
        }
    }

    /// Takes out what the process has under a number, for which no memory is needed.
    // Put into its callers, which have no use for the value.
    #[inline(always)]
    pub fn remove(&mut self, p: u64, n: u32) -> Option<T>
        ensures gone { result ≡ value_at self.old p n }
        ensures at { (q m : ℕ) → value_at self.new q m
            ≡ (if (p == q) && (n == m) then None else value_at self.old q m) }
        ensures uses { (q : ℕ) → number_room self.old q ≤ number_room self.new q }
    {
        match self.slot_of(p) {
            Some(k) => remove_in(&mut self.rows, k, n),
            None => None,
        }
    }

    /// Takes out the process's row with all that is in it: nothing of the process is kept.
    pub fn close(&mut self, p: u64)
        ensures at { (q m : ℕ) → value_at self.new q m ≡ (if p == q then None else value_at self.old q m) }
        ensures row { slot_at self.new p ≡ None }
        ensures uses { (q : ℕ) → (p == q) ≡ false → number_room self.old q ≤ number_room self.new q }
    {
        if let Some(k) = self.slot_of(p) {
            remove_row(&mut self.rows, k);
            remove_slot(&mut self.slots, p);
        }
    }
}
