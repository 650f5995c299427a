//! A vector of values, some of whose places are free.

ghost use Rattle.std.specs.Prelude.{option_copied, ℕ, ◌≡◌, ◌==◌, ◌≤◌, ◌<◌, ◌+◌, ◌&&◌, true, Some, None, is_some, option_map, count_by, vec_len, IfSome, IfNone, if◌then◌else◌, OnOk, OnErr};
ghost use Rattle.std.specs.BinaryHeap.{IsHeap, heap_items, heap_len, heap_capacity};
ghost use Rattle.std.specs.Ordering.{nat_cmp};
ghost use Rattle.std.proofs.Props.{props};
ghost use Rattle.bd_places.specs.Free.{free_at, is_place};

use crate::change::Change;
use std::alloc::{AllocError, Global};
use std::cmp::Reverse;
use std::collections::BinaryHeap;

/// Values in a vector by place. What is taken out leaves a free place, which the heap keeps: its top is the least of them.
#[derive(Drop)]
pub struct Places<T> {
    pub(crate) rows: Vec<Option<T>>,
    pub(crate) free: BinaryHeap<Reverse<usize>>,
    ghost order: { IsHeap (λ x y. nat_cmp y.0 x.0) (heap_items free) } by { Prim.hlevel props },
    ghost frees: { (i : ℕ) → count_by (is_place i) (heap_items free) ≡ free_at rows.items i },
    ghost total: { heap_len free + count_by is_some rows.items ≤ vec_len rows },
    ghost fits: { vec_len rows ≤ heap_capacity free },
}

// Notes a free place. The heap has the memory for it.
fn push_reserved(free: &mut BinaryHeap<Reverse<usize>>, i: usize)
    requires { heap_len free.old < heap_capacity free.old }
    ensures count { (j : ℕ) → count_by (is_place j) (heap_items free.new)
        ≡ (if i == j then 1 else 0) + count_by (is_place j) (heap_items free.old) }
    ensures order { IsHeap (λ x y. nat_cmp y.0 x.0) (heap_items free.old) → IsHeap (λ x y. nat_cmp y.0 x.0) (heap_items free.new) }
    ensures len { heap_len free.new ≡ heap_len free.old + 1 }
    ensures capacity { heap_capacity free.old ≤ heap_capacity free.new }
{
    match free.push(Reverse(i)) {
        Ok(()) => {}
        Err(_) => unreachable!(),
    }
}

impl<T: Copy> Places<T> {
    ghost use Rattle.bd_places.specs.Places.{at, is_there_and, place_room};

    /// An empty vector, which takes no memory yet.
    pub fn new(alloc: Global) -> Places<T>
        ensures { (i : ℕ) → at result i ≡ None }
    {
        Places {
            rows: Vec::new(alloc),
            free: BinaryHeap::new(alloc),
        }
    }

    /// So many values can come without memory being asked for.
    pub fn room(&self) -> usize
        ensures { result ≡ place_room self.now }
    {
        self.rows.capacity().min(self.free.capacity()) - self.rows.len()
    }

    /// Makes room for so many more values. They may come to any place; nothing else changes, whatever the answer is.
    pub fn reserve(&mut self, more: usize) -> Result<(), AllocError>
        ensures kept { (i : ℕ) → at self.new i ≡ at self.old i }
        ensures uses { place_room self.old ≤ place_room self.new }
        ensures room { OnOk result (more ≤ place_room self.new) }
        // Memory was refused only where there was no room.
        ensures grown { OnErr result (more ≤ place_room self.old → ⊥) }
    {
        if more <= self.room() {
            return Ok(());
        }
        self.rows.reserve(more)?;
        self.free.reserve(self.rows.capacity() - self.free.len())
    }

    /// What stands at a place.
    #[inline(always)]
    pub fn get(&self, i: usize) -> Option<T>
        ensures { result ≡ at self.now i }
    {
        match self.rows.get(i) {
            Some(x) => *x,
            None => None,
        }
    }

    /// What stands at a place, where it stands.
    #[inline(always)]
    pub fn look(&self, i: usize) -> Option<&T>
        ensures { option_copied result ≡ at self.now i }
    {
        match self.rows.get(i) {
            Some(x) => x.as_ref(),
            None => None,
        }
    }

    /// The first place at which nothing stands: maybe that behind all others.
    pub fn least(&self) -> usize
        ensures free { at self.now result ≡ None }
        ensures before { (i : ℕ) → i < result → is_some (at self.now i) ≡ true }
    {
        match self.free.peek() {
            Some(x) => x.0,
            None => self.rows.len(),
        }
    }

    /// The first place from one on, and before another, at which something stands. Looks at each up to it.
    pub fn next(&self, from: usize, until: usize) -> Option<usize>
        ensures none { IfNone result ((i : ℕ) → from ≤ i → i < until → at self.now i ≡ None) }
        ensures from { IfSome result (λ n. from ≤ n) }
        ensures until { IfSome result (λ n. n < until) }
        ensures there { IfSome result (λ n. is_some (at self.now n) ≡ true) }
        ensures before { IfSome result (λ n. (i : ℕ) → from ≤ i → i < n → at self.now i ≡ None) }
    {
        for i in from..until.min(self.rows.len()) {
            if self.get(i).is_some() {
                return Some(i);
            }
        }
        None
    }

    /// Puts the value at the first place at which nothing stands, and tells which that was.
    pub fn put(&mut self, value: T) -> usize
        requires { 1 ≤ place_room self.old }
        ensures free { at self.old result ≡ None }
        ensures before { (i : ℕ) → i < result → is_some (at self.old i) ≡ true }
        ensures put { (i : ℕ) → at self.new i ≡ (if result == i then Some value else at self.old i) }
        ensures uses { place_room self.old ≤ place_room self.new + 1 }
    {
        match self.free.pop() {
            Some(x) => {
                self.rows[x.0] = Some(value);
                x.0
            }
            None => {
                let i = self.rows.len();
                self.rows.push_reserved(Some(value));
                i
            }
        }
    }

    /// Changes what stands at a place, if that is meant: whether it is.
    #[inline(always)]
    pub fn turn<C: Change<T>>(&mut self, i: usize, change: C) -> bool
        ensures meant { result ≡ is_there_and (C.meant change) (at self.old i) }
        ensures turned { (j : ℕ) → at self.new j
            ≡ (if result && (i == j) then option_map (C.changed change) (at self.old j) else at self.old j) }
        ensures uses { place_room self.old ≤ place_room self.new }
    {
        match self.get(i) {
            Some(value) if change.is_meant(value) => {
                self.rows[i] = Some(change.apply(value));
                true
            }
            _ => false,
        }
    }

    /// Takes out what stands at a place, for which no memory is needed.
    #[inline(always)]
    pub fn remove(&mut self, i: usize) -> Option<T>
        ensures gone { result ≡ at self.old i }
        ensures at { (j : ℕ) → at self.new j ≡ (if i == j then None else at self.old j) }
        ensures uses { place_room self.old ≤ place_room self.new }
    {
        let x = self.get(i)?;
        self.rows[i] = None;
        push_reserved(&mut self.free, i);
        Some(x)
    }
}
