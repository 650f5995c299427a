//! The descriptors of parcels that are on their way.

ghost use Rattle.std.specs.Prelude.{ℕ, ◌≡◌, ◌+◌, ◌≤◌, [], true, false, length, Some, None, OnOk, OnErr, IfErr, IfSome, IfNone, MatchOption, option_map, is_some, vec_len, vec_capacity};
ghost use Rattle.bd_tickets.specs.Held.{held, count_of, descriptors_of};

use std::alloc::Global;

/// A parcel that is on its way.
#[derive(Drop)]
pub struct Parcel {
    /// The place of the step that sends it.
    pub step: u64,
    /// The numbers of its descriptors.
    pub descriptors: Vec<u32>,
}

/// The parcels with descriptors that are on their way.
#[derive(Drop)]
pub struct Tickets {
    pub(crate) parcels: Vec<Parcel>,
}

impl Tickets {
    /// None. Takes no memory.
    pub fn new(alloc: Global) -> Tickets
        ensures held { (d : ℕ) → held result d ≡ 0 }
        ensures none { result.parcels.items ≡ [] }
    {
        Tickets {
            parcels: Vec::new(alloc),
        }
    }

    /// Whether none is on its way.
    pub fn is_empty(&self) -> bool
        ensures none { result ≡ true → (d : ℕ) → held self.now d ≡ 0 }
        ensures some { result ≡ false → 1 ≤ length self.now.parcels.items }
    {
        self.parcels.is_empty()
    }

    /// The step that sends some parcel which is on its way.
    pub fn some_step(&self) -> Option<u64>
        ensures some { IfSome result (λ s. is_some (descriptors_of s self.now.parcels.items) ≡ true) }
        ensures none { IfNone result (self.now.parcels.items ≡ []) }
    {
        match self.parcels.first() {
            Some(parcel) => Some(parcel.step),
            None => None,
        }
    }

    /// A parcel goes on its way. Errors: memory was refused; its descriptors come back, and all others are as before.
    pub fn put(&mut self, step: u64, descriptors: Vec<u32>) -> Result<(), Vec<u32>>
        ensures ok { OnOk result ((d : ℕ) → held self.new d ≡ held self.old d + count_of d descriptors.items) }
        // It is found by its step, where no other of that step was on its way, and all others as before.
        ensures found { OnOk result (descriptors_of step self.old.parcels.items ≡ None
            → descriptors_of step self.new.parcels.items ≡ Some descriptors.items) }
        ensures others { OnOk result ((s : ℕ) → (s ≡ step → ⊥)
            → descriptors_of s self.new.parcels.items ≡ descriptors_of s self.old.parcels.items) }
        ensures back { IfErr result (λ ds. ds.items ≡ descriptors.items) }
        ensures err { OnErr result ((d : ℕ) → held self.new d ≡ held self.old d) }
        ensures same { OnErr result (self.new.parcels.items ≡ self.old.parcels.items) }
        // Memory was asked for: there was no room.
        ensures grown { OnErr result (vec_capacity self.old.parcels ≤ vec_len self.old.parcels) }
    {
        match self.parcels.push(Parcel { step, descriptors }) {
            Ok(()) => Ok(()),
            Err(refused) => Err(refused.value.descriptors),
        }
    }

    /// The descriptors of the parcel that a step sends.
    pub fn get(&self, step: u64) -> Option<&[u32]>
        ensures { option_map (λ ds. ds.now) result ≡ descriptors_of step self.now.parcels.items }
    {
        for index in 0..self.parcels.len() {
            let parcel = &self.parcels[index];
            if parcel.step == step {
                return Some(parcel.descriptors.as_slice());
            }
        }
        None
    }

    /// A parcel has come to its receiver, or ends on its way: its descriptors are the caller's, to be sent on or closed.
    pub fn take(&mut self, step: u64) -> Option<Vec<u32>>
        // They are those that it was sent with.
        ensures which { option_map (λ ds. ds.items) result ≡ descriptors_of step self.old.parcels.items }
        ensures held { MatchOption result ((d : ℕ) → held self.new d ≡ held self.old d) (λ ds. (d : ℕ) → held self.old d ≡ held self.new d + count_of d ds.items) }
        // No other parcel's are others from then on.
        ensures others { (s : ℕ) → (s ≡ step → ⊥) → descriptors_of s self.new.parcels.items ≡ descriptors_of s self.old.parcels.items }
    {
        for index in 0..self.parcels.len() {
            if self.parcels[index].step == step {
                let parcel = self.parcels.remove(index);
                return Some(parcel.descriptors);
            }
        }
        None
    }

    /// Takes the descriptors of any parcel, as at an end.
    pub fn take_any(&mut self) -> Option<Vec<u32>>
        ensures held { MatchOption result ((d : ℕ) → (held self.new d ≡ held self.old d) × (held self.old d ≡ 0)) (λ ds. (d : ℕ) → held self.old d ≡ held self.new d + count_of d ds.items) }
        // What a step finds from then on it would have found before.
        ensures others { (s : ℕ) → is_some (descriptors_of s self.new.parcels.items) ≡ true → descriptors_of s self.new.parcels.items ≡ descriptors_of s self.old.parcels.items }
    {
        match self.parcels.pop() {
            Some(parcel) => Some(parcel.descriptors),
            None => None,
        }
    }
}
