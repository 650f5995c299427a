//! Buffers' references.

ghost use Rattle.std.specs.{List.{list_any}, Prelude.{List, None, OnErr, OnOk, Some, [], false, filter, find, length, map, option_map, ℕ, ◌++◌, ◌+◌, ◌==◌, ◌∷◌, ◌≡◌, ◌≤◌}};
ghost use Rattle.bd_keys.specs.Tables.{Makes, Tells};
ghost use Rattle.bd_space.specs.Words.{without_first};
ghost use Rattle.bd_records.specs.Lying.{window_of_holder};
ghost use Rattle.bd_space.specs.References as refer;
ghost use Rattle.bd_space.specs.declared.space.Reference as declared;

use crate::lying::Lying;
use bd_chains::{Items, Lists, Numbering, Numbers};
use bd_space::{Holder, Reference};
use std::alloc::{AllocError, Global};

/// For each buffer a list of the references that lie in it, and for each process one of those in its window. A reference stands on
/// one of either kind, and knows its place on both: what goes from one list goes from the other, and nothing is looked for.
#[derive(Drop)]
pub struct Buffers {
    pub(crate) lists: Lists<Numbers<u64>, Lying>,
    pub(crate) windows: Lists<Numbers<u64>, Lying>,
}

// A buffer, and the process in whose window it lies.
#[derive(Clone, Copy)]
struct Berth {
    buffer: u64,
    window: u64,
}

// In which buffer a reference lies, if in any.
fn berth_of(holder: Holder) -> Option<Berth>
    ensures buffer { option_map (λ x. x.buffer) result ≡ refer.buffer_of_holder holder }
    ensures window { option_map (λ x. x.window) result ≡ window_of_holder holder }
{
    match holder {
        Holder::Carried(b, p) | Holder::Target(b, p) => Some(Berth {
            buffer: b,
            window: p,
        }),
        _ => None,
    }
}

impl Buffers {
    ghost use Rattle.bd_records.specs.Buffers.{BuffersAre, buffer_room, is_held, list_of, window_list};

    /// Nothing is held.
    pub fn new(alloc: Global) -> Buffers
        ensures { BuffersAre result [] }
    {
        Buffers {
            lists: Lists::new(alloc, Numbers::new(alloc)),
            windows: Lists::new(alloc, Numbers::new(alloc)),
        }
    }

    /// Makes room for more references, and changes nothing besides, whatever it answers.
    pub fn reserve(&mut self, more: usize) -> Result<(), AllocError>
        ensures stands { Makes (BuffersAre self.old) (BuffersAre self.new) (λ l. l) }
        ensures uses { buffer_room self.old ≤ buffer_room self.new }
        ensures room { OnOk result (more ≤ buffer_room self.new) }
        ensures grown { OnErr result (more ≤ buffer_room self.old → ⊥) }
    {
        self.lists.reserve(more)?;
        self.windows.reserve(more)
    }

    /// Takes in a reference, which comes last on its buffer's list, and on its window's, if it lies in a buffer.
    #[inline(always)]
    pub fn push(&mut self, r: Reference)
        requires { 1 ≤ buffer_room self.old }
        ensures stands { Makes (BuffersAre self.old) (BuffersAre self.new) (λ l. l ++ r ∷ []) }
        ensures uses { buffer_room self.old ≤ buffer_room self.new + 1 }
    {
        if let Some(berth) = berth_of(r.holder) {
            let other = self.windows.push(
                berth.window,
                Lying {
                    reference: r,
                    at: 0,
                },
                false,
            );
            let slot = self.lists.push(
                berth.buffer,
                Lying {
                    reference: r,
                    at: other,
                },
                false,
            );
            self.windows.chains.set(
                other,
                Lying {
                    reference: r,
                    at: slot,
                },
            );
        }
    }

    /// Those that lie in the buffer, the oldest first.
    pub fn of(&self, b: u64) -> Items<'_, Lying>
        ensures { Tells (BuffersAre self.now) (map (λ v. v.reference) result) (λ l. filter (λ r. refer.is_of_buffer b r.holder) l) }
    {
        self.lists.chains.items_on(self.lists.numbers.of(b))
    }

    /// Those that lie in the process's window, the oldest first.
    pub fn in_window(&self, p: u64) -> Items<'_, Lying>
        ensures { Tells (BuffersAre self.now) (map (λ v. v.reference) result) (λ l. filter (λ r. refer.is_in_window p r.holder) l) }
    {
        self.windows.chains.items_on(self.windows.numbers.of(p))
    }

    /// Takes the oldest reference out of the buffer, if one lies in it.
    pub fn pop(&mut self, b: u64) -> Option<Reference>
        ensures first { Tells (BuffersAre self.old) result (λ l. find (λ r. refer.is_of_buffer b r.holder) l) }
        ensures stands { Makes (BuffersAre self.old) (BuffersAre self.new) (λ l. without_first (λ r. refer.is_of_buffer b r.holder) l) }
        ensures uses { buffer_room self.old ≤ buffer_room self.new }
    {
        let slot = self.lists.chains.first(self.lists.numbers.of(b))?;
        match self.lists.chains.get(slot) {
            Some(lying) => {
                let _first = self.lists.chains.remove(slot);
                let _other = self.windows.chains.remove(lying.at);
                Some(lying.reference)
            }
            None => None,
        }
    }

    /// Takes the oldest reference out of the process's window, if one lies in it.
    pub fn pop_in_window(&mut self, p: u64) -> Option<Reference>
        ensures first { Tells (BuffersAre self.old) result (λ l. find (λ r. refer.is_in_window p r.holder) l) }
        ensures stands { Makes (BuffersAre self.old) (BuffersAre self.new) (λ l. without_first (λ r. refer.is_in_window p r.holder) l) }
        ensures lists { (b : ℕ) → list_of self.new b ≡ list_of self.old b }
        ensures uses { buffer_room self.old ≤ buffer_room self.new }
    {
        let slot = self.windows.chains.first(self.windows.numbers.of(p))?;
        match self.windows.chains.get(slot) {
            Some(lying) => {
                let _first = self.windows.chains.remove(slot);
                let _other = self.lists.chains.remove(lying.at);
                Some(lying.reference)
            }
            None => None,
        }
    }

    /// Gives the buffer's list back, if nothing is on it.
    pub fn close(&mut self, b: u64)
        ensures stands { Makes (BuffersAre self.old) (BuffersAre self.new) (λ l. l) }
        ensures gone { (l : List declared.Reference) → BuffersAre self.old l → list_any (λ r. refer.is_of_buffer b r.holder) l ≡ false
            → list_of self.new b ≡ None }
        ensures fewer { (k : ℕ) → list_of self.old k ≡ None → list_of self.new k ≡ None }
        ensures uses { buffer_room self.old ≤ buffer_room self.new }
    {
        self.lists.give_back(b);
    }

    /// Gives back the list of the buffer in which this holder lay, if nothing is on it.
    pub fn close_of(&mut self, holder: Holder)
        ensures stands { Makes (BuffersAre self.old) (BuffersAre self.new) (λ l. l) }
        ensures gone { (b : ℕ) (l : List declared.Reference) → refer.buffer_of_holder holder ≡ Some b → BuffersAre self.old l
            → list_any (λ r. refer.is_of_buffer b r.holder) l ≡ false → list_of self.new b ≡ None }
        ensures fewer { (k : ℕ) → list_of self.old k ≡ None → list_of self.new k ≡ None }
        ensures uses { buffer_room self.old ≤ buffer_room self.new }
    {
        if let Some(berth) = berth_of(holder) {
            self.close(berth.buffer);
        }
    }

    /// Gives the list of the process's window back, if nothing is on it.
    pub fn close_window(&mut self, p: u64)
        ensures stands { Makes (BuffersAre self.old) (BuffersAre self.new) (λ l. l) }
        ensures gone { (l : List declared.Reference) → BuffersAre self.old l → list_any (λ r. refer.is_in_window p r.holder) l ≡ false
            → window_list self.new p ≡ None }
        ensures lists { (b : ℕ) → list_of self.new b ≡ list_of self.old b }
        ensures uses { buffer_room self.old ≤ buffer_room self.new }
    {
        self.windows.give_back(p);
    }

    /// How many lie in buffers.
    pub fn len(&self) -> usize
        ensures { Tells (BuffersAre self.now) result (λ l. length (filter is_held l)) }
    {
        self.lists.chains.len()
    }
}
