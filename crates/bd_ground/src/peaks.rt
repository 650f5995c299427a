//! Numbers with a bound for each 64 of them, and for each 4,096: a search leaves out what is bounded below what it looks for.

ghost use Rattle.std.specs.Prelude.{◌≡◌, ◌+◌, ◌*◌, ◌-◌, ◌/◌, ◌<◌, ◌≤◌, ◌++◌, ℕ, All, OnOk, OnErr, IfOk, [], length, slice_index, if◌then◌else◌, nat_lt, max, is_ok};
ghost use Rattle.std.specs.List.{slice_set};

use std::alloc::{AllocError, Global};
use std::marker::Model;

// So many numbers share a bound, and so many bounds the next.
const WIDTH: usize = 64;

// The greatest number.
fn greatest(numbers: &[u32]) -> u32
    ensures { All (λ m. m ≤ result) numbers.now }
{
    numbers.iter().copied().max().unwrap_or(0)
}

// The greatest number of a part.
fn greatest_in(numbers: &[u32], part: usize) -> u32
    requires within { 64 * part ≤ length numbers.now }
    ensures { (j : ℕ) → j / 64 ≡ part → slice_index numbers.now j ≤ result }
{
    let from = part * WIDTH;
    let to = numbers.len().min(from + WIDTH);
    greatest(&numbers[from..to])
}

// Where the first number stands that n doesn't exceed: behind the last, where all are less.
fn first_above(numbers: &[u32], n: u32) -> usize
    ensures within { result ≤ length numbers.now }
    ensures below { (j : ℕ) → j < result → slice_index numbers.now j < n }
    ensures at { result < length numbers.now → n ≤ slice_index numbers.now result }
{
    numbers
        .iter()
        .position(|m| *m >= n)
        .unwrap_or(numbers.len())
}

// The same among those from an index on.
fn first_from(numbers: &[u32], start: usize, n: u32) -> usize
    ensures within { result ≤ length numbers.now }
    ensures below { (j : ℕ) → start ≤ j → j < result → slice_index numbers.now j < n }
    ensures at { result < length numbers.now → n ≤ slice_index numbers.now result }
{
    let from = start.min(numbers.len());
    from + first_above(&numbers[from..], n)
}

/// Has so many numbers at least from then on: new ones are 0.
pub(crate) fn lengthen(numbers: &mut Vec<u32>, count: usize) -> Result<(), AllocError>
    ensures same { (j : ℕ) → slice_index numbers.new.items j ≡ slice_index numbers.old.items j }
    ensures len { length numbers.new.items ≡ (if is_ok result then max count (length numbers.old.items) else length numbers.old.items) }
    ensures grown { OnErr result (length numbers.old.items < count) }
{
    if numbers.len() >= count {
        return Ok(());
    }
    numbers.resize(count, 0)
}

// Gives the memory back, with all numbers.
pub(crate) fn give_up(numbers: &mut Vec<u32>)
    ensures { numbers.new.items ≡ [] }
{
    numbers.clear();
    numbers.shrink_to_fit();
}

/// Numbers by index, of which the first of at least a given size is found without a walk over all.
#[derive(Drop)]
pub struct Peaks {
    numbers: Vec<u32>,
    // A bound for each 64 numbers.
    parts: Vec<u32>,
    // And one for each 64 of those.
    wholes: Vec<u32>,
}

impl Model for Peaks {
    ghost use Rattle.std.specs.Prelude.{List, ℕ};
    ghost use Rattle.bd_ground.specs.Peaks.{ArePeaks};

    ghost Value = { List ℕ };

    ghost view = { λ p. p.numbers.items };

    ghost invariant = { λ p. ArePeaks p.numbers.items p.parts.items p.wholes.items };
}

impl Peaks {
    /// No number. Takes no memory.
    pub fn new(alloc: Global) -> Peaks
        ensures { result ≡ [] }
    {
        Peaks {
            numbers: Vec::new(alloc),
            parts: Vec::new(alloc),
            wholes: Vec::new(alloc),
        }
    }

    /// How many there are.
    pub fn len(&self) -> usize
        ensures { result ≡ length self.now }
    {
        self.numbers.len()
    }

    /// Has so many at least from then on: new ones are 0. No other changes, also on an `Err`.
    #[tactic(auto, using(crate::proofs::Parts::below_same))]
    pub fn reserve(&mut self, count: usize) -> Result<(), AllocError>
        ensures same { (j : ℕ) → slice_index self.new j ≡ slice_index self.old j }
        ensures longer { length self.old ≤ length self.new }
        ensures len { OnOk result (count ≤ length self.new) }
        ensures grown { OnErr result (length self.old < count) }
    {
        if self.numbers.len() >= count {
            return Ok(());
        }
        let parts = count.div_ceil(WIDTH);
        lengthen(&mut self.wholes, parts.div_ceil(WIDTH))?;
        lengthen(&mut self.parts, parts)?;
        lengthen(&mut self.numbers, count)
    }

    /// Gives the memory back, with all numbers.
    pub fn clear(&mut self)
        ensures { self.new ≡ [] }
    {
        give_up(&mut self.numbers);
        give_up(&mut self.parts);
        give_up(&mut self.wholes);
    }

    /// The number at an index: behind the last, 0.
    pub fn get(&self, i: usize) -> u32
        ensures { result ≡ slice_index self.now i }
    {
        match self.numbers.get(i) {
            None => 0,
            Some(n) => *n,
        }
    }

    /// Puts a number at an index. Behind the last nothing is put.
    pub fn set(&mut self, i: usize, n: u32)
        ensures same { length self.new ≡ length self.old }
        ensures at { i < length self.old → slice_index self.new i ≡ n }
        ensures others { (j : ℕ) → (j ≡ i → ⊥) → slice_index self.new j ≡ slice_index self.old j }
    {
        if i >= self.numbers.len() || self.numbers[i] == n {
            return;
        }
        self.numbers[i] = n;
        let part = i / WIDTH;
        self.parts[part] = greatest_in(&self.numbers, part);
        self.wholes[part / WIDTH] = greatest_in(&self.parts, part / WIDTH);
    }

    /// Where the first number stands that n doesn't exceed: behind the last, where all are less.
    pub fn first(&self, n: u32) -> usize
        ensures within { result ≤ length self.now }
        ensures below { (j : ℕ) → j < result → slice_index self.now j < n }
        ensures at { result < length self.now → n ≤ slice_index self.now result }
    {
        let whole = first_from(&self.wholes, 0, n);
        let part = first_from(&self.parts, whole.saturating_mul(WIDTH), n);
        first_from(&self.numbers, part.saturating_mul(WIDTH), n)
    }
}
