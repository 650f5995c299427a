//! Values in lists that are found by a key.

ghost use Rattle.std.specs.Prelude.{ℕ, ◌≡◌, ◌≤◌, ◌<◌, ◌+◌, ◌++◌, ◌∷◌, [], Bool, false, List, length, find, Some, None, OnOk, OnErr};
ghost use Rattle.std.specs.List.{list_any};

use crate::chains::Chains;
use crate::numbers::Numbering;
use std::alloc::{AllocError, Global};

/// Values in lists, each of which is open while it is of use.
#[derive(Drop)]
pub struct Lists<N, T> {
    pub chains: Chains<T>,
    // Of the lists that are open.
    pub numbers: N,
}

impl<N: Numbering, T: Copy> Lists<N, T> {
    ghost use Rattle.bd_keys.specs.Tables.{Makes, Tells};
    ghost use Rattle.bd_chains.specs.Rows.{Row, values};
    ghost use Rattle.bd_chains.specs.Columns.{item_room, list_room};
    ghost use Rattle.bd_chains.specs.Lists.{Shows, lists_room};

    /// No lists. Takes no memory.
    pub fn new(alloc: Global, numbers: N) -> Lists<N, T>
        ensures { ((k : N.Key) → N.number numbers k ≡ None) → (f : T → N.Key) (c : T → Bool)
            → Shows f c N.same (N.number result.numbers) result.chains [] }
    {
        Lists {
            chains: Chains::new(alloc),
            numbers,
        }
    }

    /// Makes room for so many values more. Fails for want of memory, and then changes nothing either.
    pub fn reserve(&mut self, more: usize) -> Result<(), AllocError>
        ensures stands { (f : T → N.Key) (c : T → Bool) → Makes (Shows f c N.same (N.number self.old.numbers) self.old.chains)
            (Shows f c N.same (N.number self.new.numbers) self.new.chains) (λ rs. rs) }
        ensures room { OnOk result (more ≤ lists_room self.new.chains (N.room self.new.numbers)) }
        ensures uses { lists_room self.old.chains (N.room self.old.numbers) ≤ lists_room self.new.chains (N.room self.new.numbers) }
        ensures grown { OnErr result (more ≤ lists_room self.old.chains (N.room self.old.numbers) → ⊥) }
    {
        self.chains.reserve(more)?;
        self.numbers.reserve(more)
    }

    // The number of a list, which is opened where it isn't.
    #[inline(always)]
    fn number_for(&mut self, key: N::Key) -> usize
        requires open { 1 ≤ list_room self.old.chains }
        requires room { 0 < N.room self.old.numbers }
        ensures stands { (f : T → N.Key) (c : T → Bool) → Makes (Shows f c N.same (N.number self.old.numbers) self.old.chains)
            (Shows f c N.same (N.number self.new.numbers) self.new.chains) (λ rs. rs) }
        ensures number { N.number self.new.numbers key ≡ Some result }
        ensures items { item_room self.new.chains ≡ item_room self.old.chains }
        ensures open { list_room self.old.chains ≤ list_room self.new.chains + 1 }
        ensures lists { N.room self.old.numbers ≤ N.room self.new.numbers + 1 }
    {
        if let Some(number) = self.numbers.find(key) {
            return number;
        }
        let number = self.chains.open();
        self.numbers.insert(key, number);
        number
    }

    /// A value comes last on the list of its key. Answers its slot.
    // Put into its callers, which then write the value where it stands.
    #[inline(always)]
    pub fn push(&mut self, key: N::Key, value: T, counted: bool) -> usize
        requires { 1 ≤ lists_room self.old.chains (N.room self.old.numbers) }
        ensures stands { (f : T → N.Key) (c : T → Bool) (rs : List (Row T)) → f value ≡ key → counted ≡ c value
            → Shows f c N.same (N.number self.old.numbers) self.old.chains rs
            → (n : ℕ) × Shows f c N.same (N.number self.new.numbers) self.new.chains
            (rs ++ record { key = result; list = n; held = record { value = value; counted = counted } } ∷ []) }
        ensures few { (f : T → N.Key) (c : T → Bool) (rs : List (Row T))
            → Shows f c N.same (N.number self.old.numbers) self.old.chains rs → length rs < 18446744073709551615 }
        ensures uses { lists_room self.old.chains (N.room self.old.numbers) ≤ lists_room self.new.chains (N.room self.new.numbers) + 1 }
    {
        let number = self.number_for(key);
        self.chains.push(number, value, counted)
    }

    /// The first value on the list of a key.
    pub fn front(&self, key: N::Key) -> Option<T>
        ensures { (f : T → N.Key) (c : T → Bool) → Tells (Shows f c N.same (N.number self.now.numbers) self.now.chains) result
            (λ rs. find (λ v. N.same (f v) key) (values rs)) }
    {
        self.chains.items_on(self.numbers.of(key)).next()
    }

    /// A list on which nothing is needs no number.
    pub fn give_back(&mut self, key: N::Key)
        ensures stands { (f : T → N.Key) (c : T → Bool) → Makes (Shows f c N.same (N.number self.old.numbers) self.old.chains)
            (Shows f c N.same (N.number self.new.numbers) self.new.chains) (λ rs. rs) }
        ensures gone { (f : T → N.Key) (c : T → Bool) (rs : List (Row T)) → Shows f c N.same (N.number self.old.numbers) self.old.chains rs
            → list_any (λ v. N.same key (f v)) (values rs) ≡ false → N.number self.new.numbers key ≡ None }
        // No list comes.
        ensures fewer { (k : N.Key) → N.number self.old.numbers k ≡ None → N.number self.new.numbers k ≡ None }
        ensures uses { lists_room self.old.chains (N.room self.old.numbers) ≤ lists_room self.new.chains (N.room self.new.numbers) }
    {
        if let Some(number) = self.numbers.of(key) {
            if self.chains.first(Some(number)).is_none() {
                self.numbers.remove(key);
                self.chains.close(number);
            }
        }
    }
}
