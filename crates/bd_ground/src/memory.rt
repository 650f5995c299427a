//! The bytes of a window: what is written to a place is lent from there.

ghost use Rattle.std.specs.Prelude.{◌≡◌, ◌+◌, ◌<◌, ◌≤◌, ◌⊎◌, [], ℕ, OnOk, OnErr, length, slice_index};
ghost use Rattle.std.specs.List.{between};

use std::alloc::{AllocError, Global};
use std::marker::Model;

// Writes bytes, where all of them have a place.
fn put(memory: &mut Vec<u8>, at: usize, bytes: &[u8])
    ensures same { length memory.new.items ≡ length memory.old.items }
    ensures here { at + length bytes.now ≤ length memory.old.items
        → (k : ℕ) → k < length bytes.now → slice_index memory.new.items (at + k) ≡ slice_index bytes.now k }
    ensures others { (j : ℕ) → (j < at) ⊎ (at + length bytes.now ≤ j) → slice_index memory.new.items j ≡ slice_index memory.old.items j }
{
    let to = at.saturating_add(bytes.len());
    if to <= memory.len() {
        memory[at..to].copy_from_slice(bytes);
    }
}

// Has so many bytes at least from then on.
fn lengthen(memory: &mut Vec<u8>, count: usize) -> Result<(), AllocError>
    ensures same { (j : ℕ) → slice_index memory.new.items j ≡ slice_index memory.old.items j }
    ensures longer { length memory.old.items ≤ length memory.new.items }
    ensures len { OnOk result (count ≤ length memory.new.items) }
    ensures grown { OnErr result (length memory.old.items < count) }
{
    if memory.len() >= count {
        return Ok(());
    }
    memory.resize(count, 0)
}

/// The bytes of a window up to the furthest place that any buffer has had. Contracts see a list.
#[derive(Drop)]
pub struct Memory {
    bytes: Vec<u8>,
}

impl Model for Memory {
    ghost use Rattle.std.specs.Prelude.{List, ℕ};

    ghost Value = { List ℕ };

    ghost view = { λ m. m.bytes.items };
}

impl Memory {
    /// None. Takes no memory.
    pub fn new(alloc: Global) -> Memory
        ensures { result ≡ [] }
    {
        Memory {
            bytes: Vec::new(alloc),
        }
    }

    /// How many there are.
    pub fn len(&self) -> usize
        ensures { result ≡ length self.now }
    {
        self.bytes.len()
    }

    /// Has so many bytes at least from then on. What is written stays, also on an `Err`.
    #[tactic(auto, using(crate::proofs::Pieces::same_between))]
    pub fn reserve(&mut self, count: usize) -> Result<(), AllocError>
        ensures kept { (i j : ℕ) → j ≤ length self.old → between i j self.new ≡ between i j self.old }
        ensures longer { length self.old ≤ length self.new }
        ensures len { OnOk result (count ≤ length self.new) }
        // Memory was asked for: there were fewer.
        ensures grown { OnErr result (length self.old < count) }
    {
        lengthen(&mut self.bytes, count)
    }

    /// Writes these bytes to a place. All others stay.
    #[tactic(auto, using(crate::proofs::Pieces::same_between, crate::proofs::Pieces::between_is))]
    pub fn write(&mut self, at: usize, bytes: &[u8])
        requires { at + length bytes.now ≤ length self.old }
        ensures len { length self.new ≡ length self.old }
        ensures here { between at (at + length bytes.now) self.new ≡ bytes.now }
        ensures others { (i j : ℕ) → j ≤ length self.old → (j ≤ at) ⊎ (at + length bytes.now ≤ i)
            → between i j self.new ≡ between i j self.old }
    {
        put(&mut self.bytes, at, bytes);
    }

    /// Gives the memory back, with all bytes.
    pub fn clear(&mut self)
        ensures { self.new ≡ [] }
    {
        self.bytes.clear();
        self.bytes.shrink_to_fit();
    }

    /// The bytes between two places, where they stand.
    pub fn slice(&self, from: usize, to: usize) -> &[u8]
        requires { (from ≤ to) × (to ≤ length self.now) }
        ensures { result.now ≡ between from to self.now }
    {
        &self.bytes[from..to]
    }
}
