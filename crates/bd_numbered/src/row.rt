//! The values of one process.

ghost use Rattle.std.specs.Prelude.{option_copied, ℕ, ◌≡◌, ◌==◌, ◌≤◌, ◌<◌, ◌+◌, ◌&&◌, true, false, Some, None, is_some, option_map, MatchOption, IfSome, IfNone, ◌^◌, if◌then◌else◌, OnOk, OnErr};

use bd_places::{Change, Places};
use std::alloc::{AllocError, Global};

/// What the process has that was made by the step of this place.
#[derive(Drop)]
pub(crate) struct Row<T> {
    pub(crate) made: u64,
    // Under 0; and under n at place n - 1, since most processes never have one under 0.
    pub(crate) zero: Option<T>,
    pub(crate) places: Places<T>,
}

impl<T: Copy> Row<T> {
    ghost use Rattle.bd_places.specs.Places.{is_there_and};
    ghost use Rattle.bd_numbered.specs.Row.{value_of, row_room, IsFreeFrom};

    /// An empty row.
    pub(crate) fn new(alloc: Global, made: u64) -> Row<T>
        ensures made { result.made ≡ made }
        ensures none { (n : ℕ) → value_of result n ≡ None }
    {
        Row {
            made,
            zero: None,
            places: Places::new(alloc),
        }
    }

    pub(crate) fn reserve(&mut self, more: usize) -> Result<(), AllocError>
        ensures made { self.new.made ≡ self.old.made }
        ensures kept { (n : ℕ) → value_of self.new n ≡ value_of self.old n }
        ensures uses { row_room self.old ≤ row_room self.new }
        ensures room { OnOk result (more ≤ row_room self.new) }
        ensures grown { OnErr result (more ≤ row_room self.old → ⊥) }
    {
        self.places.reserve(more)
    }

    #[inline(always)]
    pub(crate) fn get(&self, n: u32) -> Option<T>
        ensures { result ≡ value_of self.now n }
    {
        if n == 0 {
            self.zero
        } else {
            self.places.get(n as usize - 1)
        }
    }

    #[inline(always)]
    pub(crate) fn look(&self, n: u32) -> Option<&T>
        ensures { option_copied result ≡ value_of self.now n }
    {
        if n == 0 {
            self.zero.as_ref()
        } else {
            self.places.look(n as usize - 1)
        }
    }

    // The first number from this one on, which isn't 0, under which something stands.
    fn next_from_one(&self, from: u32) -> Option<u32>
        requires { 1 ≤ from }
        ensures none { IfNone result ((m : ℕ) → from ≤ m → m < 2 ^ 32 → value_of self.now m ≡ None) }
        ensures from { IfSome result (λ n. from ≤ n) }
        ensures there { IfSome result (λ n. is_some (value_of self.now n) ≡ true) }
        ensures before { IfSome result (λ n. (m : ℕ) → from ≤ m → m < n → value_of self.now m ≡ None) }
    {
        let i = self.places.next(from as usize - 1, 4294967295)?;
        Some(i as u32 + 1)
    }

    /// The first number from this one on under which something stands.
    pub(crate) fn next(&self, from: u32) -> Option<u32>
        ensures none { IfNone result ((m : ℕ) → from ≤ m → m < 2 ^ 32 → value_of self.now m ≡ None) }
        ensures from { IfSome result (λ n. from ≤ n) }
        ensures there { IfSome result (λ n. is_some (value_of self.now n) ≡ true) }
        ensures before { IfSome result (λ n. (m : ℕ) → from ≤ m → m < n → value_of self.now m ≡ None) }
    {
        if from == 0 && self.zero.is_some() {
            return Some(0);
        }
        self.next_from_one(from.max(1))
    }

    // The first free number from 1 on; none where that is past 4294967294.
    fn free_from_one(&self) -> Option<u32>
        ensures free { MatchOption result ((m : ℕ) → 1 ≤ m → m ≤ 4294967294 → is_some (value_of self.now m) ≡ true)
            (λ n. IsFreeFrom 1 self.now n) }
        ensures within { IfSome result (λ n. n ≤ 4294967294) }
    {
        let i = self.places.least();
        if i < 4294967294 {
            Some(i as u32 + 1)
        } else {
            None
        }
    }

    /// The same from 0 on, where that is asked for.
    pub(crate) fn free_number(&self, from_zero: bool) -> Option<u32>
        ensures free { let first = (if from_zero then 0 else 1) in
            MatchOption result ((m : ℕ) → first ≤ m → m ≤ 4294967294 → is_some (value_of self.now m) ≡ true)
            (λ n. IsFreeFrom first self.now n) }
        ensures within { IfSome result (λ n. n ≤ 4294967294) }
    {
        if from_zero && self.zero.is_none() {
            return Some(0);
        }
        self.free_from_one()
    }

    /// Puts the value at the first free number from 1 on, or at 0.
    pub(crate) fn put(&mut self, zero: bool, value: T) -> usize
        requires { 1 ≤ row_room self.old }
        ensures made { self.new.made ≡ self.old.made }
        ensures put { (m : ℕ) → value_of self.new m ≡ (if result == m then Some value else value_of self.old m) }
        ensures zero { zero ≡ true → result ≡ 0 }
        ensures free { zero ≡ false → IsFreeFrom 1 self.old result }
        ensures uses { row_room self.old ≤ row_room self.new + 1 }
    {
        if zero {
            self.zero = Some(value);
            return 0;
        }
        self.places.put(value) + 1
    }

    // The same under 0.
    fn turn_zero<C: Change<T>>(&mut self, change: C) -> bool
        ensures made { self.new.made ≡ self.old.made }
        ensures meant { result ≡ is_there_and (C.meant change) (value_of self.old 0) }
        ensures turned { (m : ℕ) → value_of self.new m
            ≡ (if result && (0 == m) then option_map (C.changed change) (value_of self.old m) else value_of self.old m) }
        ensures uses { row_room self.old ≤ row_room self.new }
    {
        match self.zero {
            Some(value) if change.is_meant(value) => {
                self.zero = Some(change.apply(value));
                true
            }
            _ => false,
        }
    }

    /// Changes what stands under a number, if that is meant: whether it is.
    #[inline(always)]
    pub(crate) fn turn<C: Change<T>>(&mut self, n: u32, change: C) -> bool
        ensures made { self.new.made ≡ self.old.made }
        ensures meant { result ≡ is_there_and (C.meant change) (value_of self.old n) }
        ensures turned { (m : ℕ) → value_of self.new m
            ≡ (if result && (n == m) then option_map (C.changed change) (value_of self.old m) else value_of self.old m) }
        ensures uses { row_room self.old ≤ row_room self.new }
    {
        if n == 0 {
            self.turn_zero(change)
        } else {
            self.places.turn(n as usize - 1, change)
        }
    }

    /// Takes out what stands under a number.
    #[inline(always)]
    pub(crate) fn remove(&mut self, n: u32) -> Option<T>
        ensures made { self.new.made ≡ self.old.made }
        ensures gone { result ≡ value_of self.old n }
        ensures at { (m : ℕ) → value_of self.new m ≡ (if n == m then None else value_of self.old m) }
        ensures uses { row_room self.old ≤ row_room self.new }
    {
        if n == 0 {
            let gone = self.zero;
            self.zero = None;
            return gone;
        }
        self.places.remove(n as usize - 1)
    }
}
