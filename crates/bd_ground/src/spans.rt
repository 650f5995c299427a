//! Which units of a window are free.

ghost use Rattle.std.specs.Prelude.{◌≡◌, ◌+◌, ◌-◌, ◌<◌, ◌≤◌, ◌⊎◌, ℕ, Bool, true, false, OnOk, OnErr, IfSome, MatchOption, [], length, slice_index, max, is_ok, if◌then◌else◌};
ghost use Rattle.bd_ground.specs.Tiles as spec;
ghost use Rattle.bd_ground.specs.Holes.{AreHoles, holes_in};

use crate::peaks::{Peaks, give_up, lengthen};
use std::alloc::{AllocError, Global};

/// The free units of a window: holes between what is taken, and the tail behind all of it. No hole is empty, none touches another or
/// the tail, and no list of them is kept: each is noted at the unit that it begins with and at its last.
#[derive(Drop)]
pub struct Spans {
    // How many units the window has.
    pub(crate) size: u32,
    // From this unit on all is free.
    pub(crate) tail: u32,
    // By unit, the length of the hole that begins there: 0 where none does.
    pub(crate) holes: Peaks,
    // By unit, the beginning of the hole whose last unit it is. It is stale at all other units: who reads it asks `holes` too.
    pub(crate) begins: Vec<u32>,
}

// Puts a number at an index, if it has one.
fn write(numbers: &mut Vec<u32>, i: usize, n: u32)
    ensures same { length numbers.new.items ≡ length numbers.old.items }
    ensures at { i < length numbers.old.items → slice_index numbers.new.items i ≡ n }
    ensures others { (j : ℕ) → (j ≡ i → ⊥) → slice_index numbers.new.items j ≡ slice_index numbers.old.items j }
{
    if i < numbers.len() {
        numbers[i] = n;
    }
}

impl Spans {
    /// A window of so many units, all free. Takes no memory.
    pub fn new(alloc: Global, size: u32) -> Spans
        requires { size ≤ 524288 }
        ensures tiles { (free : ℕ → Bool) → ((u : ℕ) → free u ≡ Bool.true) → spec.Tiles free result }
        ensures tail { result.tail ≡ 0 }
        ensures size { result.size ≡ size }
    {
        Spans {
            size,
            tail: 0,
            holes: Peaks::new(alloc),
            begins: Vec::new(alloc),
        }
    }

    /// Makes room to note all units before this one. What is free stays, also on an `Err`.
    pub fn reserve(&mut self, end: usize) -> Result<(), AllocError>
        ensures tiles { (free : ℕ → Bool) → spec.Tiles free self.old → spec.Tiles free self.new }
        ensures same { (self.new.tail ≡ self.old.tail) × (self.new.size ≡ self.old.size) }
        ensures longer { (length self.old.holes ≤ length self.new.holes) × (length self.old.begins.items ≤ length self.new.begins.items) }
        ensures room { OnOk result (spec.HasRoom self.new end) }
        // Memory was asked for: there was no room.
        ensures grown { OnErr result (spec.HasRoom self.old end → ⊥) }
    {
        lengthen(&mut self.begins, end)?;
        self.holes.reserve(end)
    }

    /// The least unit from which on n are free.
    pub fn first(&self, n: u32) -> Option<u32>
        requires { 0 < n }
        ensures begins { (free : ℕ → Bool) → spec.Tiles free self.now → IfSome result (spec.Begins self.now n) }
        ensures least { (free : ℕ → Bool) → spec.Tiles free self.now → MatchOption result
            ((p : ℕ) → spec.IsRun free self.now.size n p → ⊥)
            (spec.IsLeastRun free self.now.size n) }
    {
        let at = self.holes.first(n);
        if at < self.tail as usize {
            return Some(at as u32);
        }
        let end = u64::from(self.tail) + u64::from(n);
        if end <= u64::from(self.size) {
            Some(self.tail)
        } else {
            None
        }
    }

    // Notes a hole.
    fn put(&mut self, start: u32, n: u32)
        requires { 0 < n }
        ensures same { (self.new.tail ≡ self.old.tail) × (self.new.size ≡ self.old.size) }
        ensures len { (length self.new.holes ≡ length self.old.holes) × (length self.new.begins.items ≡ length self.old.begins.items) }
        ensures at { start + n ≤ length self.old.holes → slice_index self.new.holes start ≡ n }
        ensures named { start + n ≤ length self.old.begins.items → slice_index self.new.begins.items (start + n - 1) ≡ start }
        ensures holes { (j : ℕ) → (j ≡ start → ⊥) → slice_index self.new.holes j ≡ slice_index self.old.holes j }
        ensures begins { (j : ℕ) → (j ≡ start + n - 1 → ⊥) → slice_index self.new.begins.items j ≡ slice_index self.old.begins.items j }
    {
        self.holes.set(start as usize, n);
        write(&mut self.begins, start as usize + n as usize - 1, start);
    }

    /// Takes the first n units of a hole, or of the tail.
    #[tactic(auto, using(crate::proofs::Cuts::tiles_cut, crate::proofs::Cuts::tiles_grown))]
    pub fn take(&mut self, place: u32, n: u32)
        requires filled { 0 < n }
        requires small { place + n ≤ 524288 }
        ensures tiles { (free : ℕ → Bool) → spec.Tiles free self.old → spec.Begins self.old n place
            → spec.HasRoom self.old (place + n) → spec.Tiles (spec.without place n free) self.new }
        ensures size { self.new.size ≡ self.old.size }
        ensures tail { (self.new.tail ≡ self.old.tail) ⊎ (self.new.tail ≡ place + n) }
        ensures grows { self.old.tail ≤ self.new.tail }
        ensures len { (length self.new.holes ≡ length self.old.holes) × (length self.new.begins.items ≡ length self.old.begins.items) }
    {
        if place == self.tail {
            self.tail += n;
            return;
        }
        let had = self.holes.get(place as usize);
        self.holes.set(place as usize, 0);
        if had > n {
            self.put(place + n, had - n);
        }
    }

    // Where the hole begins that ends before this unit: at this unit, where none does.
    fn begin_of(&self, place: u32) -> u32
        ensures within { result ≤ place }
        ensures hole { result < place → slice_index self.now.holes result ≡ place - result }
        ensures none { result ≡ place → 0 < place → (i : ℕ) → slice_index self.now.begins.items (place - 1) ≡ i
            → i < place → slice_index self.now.holes i ≡ place - i → ⊥ }
    {
        if place == 0 {
            return place;
        }
        let begin = match self.begins.get(place as usize - 1) {
            None => 0,
            Some(b) => *b,
        };
        if begin < place && self.holes.get(begin as usize) == place - begin {
            begin
        } else {
            place
        }
    }

    /// Gives n units back that were taken. With the hole before them and what is free behind them they are one hole from then on, or the
    /// tail.
    pub fn give(&mut self, start: u32, n: u32)
        requires filled { 0 < n }
        requires inside { start + n ≤ self.old.tail }
        ensures tiles { (free : ℕ → Bool) → spec.Tiles free self.old
            → ((u : ℕ) → start ≤ u → u < start + n → free u ≡ false)
            → spec.Tiles (spec.with_span start n free) self.new }
        ensures size { self.new.size ≡ self.old.size }
        ensures tail { self.new.tail ≤ self.old.tail }
        ensures len { (length self.new.holes ≡ length self.old.holes) × (length self.new.begins.items ≡ length self.old.begins.items) }
    {
        let tail = self.tail;
        let begin = self.begin_of(start);
        let end = start + n;
        if end == tail {
            self.tail = begin;
            self.holes.set(begin as usize, 0);
            return;
        }
        let behind = self.holes.get(end as usize);
        self.holes.set(end as usize, 0);
        self.put(begin, (end - begin).saturating_add(behind));
    }

    /// All is free from then on, and the memory that noted what is goes back.
    pub fn clear(&mut self)
        ensures tiles { (was free : ℕ → Bool) → spec.Tiles was self.old → ((u : ℕ) → free u ≡ true)
            → spec.Tiles free self.new }
        ensures size { self.new.size ≡ self.old.size }
    {
        self.tail = 0;
        self.holes.clear();
        give_up(&mut self.begins);
    }

    /// What is so of all free units: they are holes in order of place and the tail, no two of which touch.
    pub fn check(&self)
        ensures { (free : ℕ → Bool) → spec.Tiles free self.now
            → AreHoles free self.now.size self.now.tail (holes_in self.now.holes 0) }
    {
        let _size = self.size;
    }
}
