//! The table: its lists, what comes and what goes.

ghost use Rattle.bd_chains.specs.Chain.{end_or};
ghost use Rattle.std.specs.Prelude.{ℕ, ◌≡◌, ◌<◌, ◌≤◌, ◌==◌, ◌+◌, ◌-◌, ◌++◌, ◌∷◌, [], true, false, List, length, Option, Some, None, option_map, OnSome, IfNone, OnOk, OnErr, if◌then◌else◌, nat_lt};

use crate::items::Items;
use crate::links::{Ends, Gap, Held, Item};
use slab::Slab;
use std::alloc::{AllocError, Global};

/// Values in numbered lists.
#[derive(Drop)]
pub struct Chains<T> {
    pub(crate) items: Slab<Item<T>>,
    // By the numbers of the lists.
    pub(crate) ends: Slab<Ends>,
    // So many values fit in the memory that there is. Kept, since each call of `reserve` asks.
    pub(crate) most: usize,
    ghost most_is: { most ≡ items.capacity },
    ghost fits: { most < 18446744073709551616 },
}

// Of a list on which nothing is.
const EMPTY: Ends = Ends {
    first: None,
    last: None,
    counted: 0,
};

// The same end of a list, where a key stands there, else another.
fn end_or(at: Option<usize>, to: Option<usize>, was: Option<usize>) -> Option<usize>
    ensures { result ≡ end_or at to was }
{
    match at {
        Some(_) => was,
        None => to,
    }
}

impl<T: Copy> Chains<T> {
    ghost use Rattle.std.specs.List.{slice_get};
    ghost use Rattle.slab.specs.Slab.{get, slab_len};
    ghost use Rattle.bd_keys.specs.Tables.{Makes, Tells};
    ghost use Rattle.bd_chains.specs.Chain.{is_at, are_at};
    ghost use Rattle.bd_chains.specs.Rows.{Row, ring, values_on, on_some, counted_on, hits, drop_key};
    ghost use Rattle.bd_chains.specs.Setting.{with_value, set_held};
    ghost use Rattle.bd_chains.specs.Columns.{next_at, prev_at, shown, value_at, ends_at, count_at, is_open, is_there, Holds, item_room, list_room, room_of};

    /// No lists. Takes no memory.
    pub fn new(alloc: Global) -> Chains<T>
        ensures stands { Holds result [] }
        ensures none { (l : ℕ) → is_open result l ≡ false }
    {
        Chains {
            items: Slab::new(alloc),
            ends: Slab::new(alloc),
            most: 0,
        }
    }

    /// How many values more, and how many lists, take no memory.
    pub fn room(&self) -> usize
        ensures { result ≡ room_of self.now }
    {
        let items = self.most.saturating_sub(self.items.len());
        let lists = self.ends.capacity() - self.ends.len();
        items.min(lists)
    }

    /// Makes room for so many values more, and for as many lists. What stands on them is the same after it, also on an `Err`.
    pub fn reserve(&mut self, more: usize) -> Result<(), AllocError>
        ensures stands { Makes (Holds self.old) (Holds self.new) (λ rs. rs) }
        ensures open { (l : ℕ) → is_open self.new l ≡ is_open self.old l }
        ensures room { OnOk result (more ≤ room_of self.new) }
        ensures uses { room_of self.old ≤ room_of self.new }
        ensures grown { OnErr result (more ≤ room_of self.old → ⊥) }
    {
        if more <= self.room() {
            return Ok(());
        }
        let made = self.items.reserve(more);
        self.most = self.items.capacity();
        made?;
        self.ends.reserve(more)
    }

    // Writes what comes after a key, if there is one.
    fn set_next(&mut self, at: Option<usize>, to: Option<usize>)
        ensures nexts { is_there self.old at ≡ true → (m : ℕ) (o : Option ℕ) → next_at self.new m o
            ≡ (if are_at at o then to else next_at self.old m o) }
        ensures prevs { (m : ℕ) (o : Option ℕ) → prev_at self.new m o ≡ prev_at self.old m o }
        ensures shown { (k : ℕ) → shown self.new k ≡ shown self.old k }
        ensures ends { self.new.ends ≡ self.old.ends }
        ensures len { slab_len self.new.items ≡ slab_len self.old.items }
        ensures items { item_room self.new ≡ item_room self.old }
    {
        if let Some(x) = at {
            if let Some(item) = self.items.get_mut(x) {
                item.next = to;
            }
        }
    }

    // Writes what comes before a key, if there is one.
    fn set_prev(&mut self, at: Option<usize>, to: Option<usize>)
        ensures prevs { is_there self.old at ≡ true → (m : ℕ) (o : Option ℕ) → prev_at self.new m o
            ≡ (if are_at at o then to else prev_at self.old m o) }
        ensures nexts { (m : ℕ) (o : Option ℕ) → next_at self.new m o ≡ next_at self.old m o }
        ensures shown { (k : ℕ) → shown self.new k ≡ shown self.old k }
        ensures ends { self.new.ends ≡ self.old.ends }
        ensures len { slab_len self.new.items ≡ slab_len self.old.items }
        ensures items { item_room self.new ≡ item_room self.old }
    {
        if let Some(x) = at {
            if let Some(item) = self.items.get_mut(x) {
                item.prev = to;
            }
        }
    }

    // Writes a list's record: its ends, where no key stands there, and its count.
    fn set_ends(&mut self, list: usize, at: Gap, to: Gap, counted: u64)
        ensures ends { is_open self.old list ≡ true → (m : ℕ) → ends_at self.new m
            ≡ (if list == m then record {
              first = end_or at.prev to.next (ends_at self.old list).first;
              last = end_or at.next to.prev (ends_at self.old list).last;
              counted = counted;
            } else ends_at self.old m) }
        ensures open { (m : ℕ) → is_open self.new m ≡ is_open self.old m }
        ensures items { self.new.items ≡ self.old.items }
        ensures lists { list_room self.new ≡ list_room self.old }
    {
        if let Some(ends) = self.ends.get_mut(list) {
            ends.first = end_or(at.prev, to.next, ends.first);
            ends.last = end_or(at.next, to.prev, ends.last);
            ends.counted = counted;
        }
    }

    // What stands before a place on a list and what stands after it are told who comes next there, and who before. Where
    // nothing stands, the list's record is told.
    fn join(&mut self, list: usize, at: Gap, to: Gap, counted: u64)
        ensures nexts { is_open self.old list ≡ true → is_there self.old at.prev ≡ true
            → (m : ℕ) (o : Option ℕ) → next_at self.new m o ≡ (if hits list at.prev m o then to.next else next_at self.old m o) }
        ensures prevs { is_open self.old list ≡ true → is_there self.old at.next ≡ true
            → (m : ℕ) (o : Option ℕ) → prev_at self.new m o ≡ (if hits list at.next m o then to.prev else prev_at self.old m o) }
        ensures counts { is_open self.old list ≡ true → (m : ℕ) → count_at self.new m
            ≡ (if list == m then counted else count_at self.old m) }
        ensures shown { (k : ℕ) → shown self.new k ≡ shown self.old k }
        ensures open { (m : ℕ) → is_open self.new m ≡ is_open self.old m }
        ensures len { slab_len self.new.items ≡ slab_len self.old.items }
        ensures items { item_room self.new ≡ item_room self.old }
        ensures lists { list_room self.new ≡ list_room self.old }
    {
        self.set_next(at.prev, to.next);
        self.set_prev(at.next, to.prev);
        self.set_ends(list, at, to, counted);
    }

    // A value comes into a slot, whose neighbours aren't told.
    fn insert(&mut self, item: Item<T>) -> usize
        requires { 1 ≤ item_room self.old }
        ensures fresh { shown self.old result ≡ None }
        ensures shown { (k : ℕ) → shown self.new k ≡ (if result == k then Some (item.list, item.held) else shown self.old k) }
        ensures nexts { (m : ℕ) (o : Option ℕ) → next_at self.new m o ≡ (if is_at result o then item.next else next_at self.old m o) }
        ensures prevs { (m : ℕ) (o : Option ℕ) → prev_at self.new m o ≡ (if is_at result o then item.prev else prev_at self.old m o) }
        ensures ends { self.new.ends ≡ self.old.ends }
        ensures len { slab_len self.new.items ≡ slab_len self.old.items + 1 }
        ensures items { item_room self.new + 1 ≡ item_room self.old }
    {
        self.items.insert_reserved(item)
    }

    // A value leaves its slot, whose neighbours aren't told.
    fn vacate(&mut self, x: usize) -> Option<Item<T>>
        ensures was { result ≡ get self.old.items x }
        ensures shown { (k : ℕ) → shown self.new k ≡ (if x == k then None else shown self.old k) }
        ensures nexts { (m : ℕ) (o : Option ℕ) → next_at self.new m o ≡ (if is_at x o then None else next_at self.old m o) }
        ensures prevs { (m : ℕ) (o : Option ℕ) → prev_at self.new m o ≡ (if is_at x o then None else prev_at self.old m o) }
        ensures ends { self.new.ends ≡ self.old.ends }
        ensures len { OnSome result (slab_len self.new.items + 1 ≡ slab_len self.old.items) }
        ensures items { item_room self.old ≤ item_room self.new }
        ensures absent { IfNone result (self.new ≡ self.old) }
    {
        self.items.try_remove(x)
    }

    fn ends_at(&self, list: usize) -> Ends
        ensures { result ≡ ends_at self.now list }
    {
        match self.ends.get(list) {
            Some(ends) => *ends,
            None => EMPTY,
        }
    }

    /// The slot of the first value on a list, if there is such a list.
    #[tactic(auto, using(crate::proofs::Walking::first_is))]
    pub fn first(&self, list: Option<usize>) -> Option<usize>
        ensures { Tells (Holds self.now) result (on_some None (λ l rs. slice_get (ring l rs) 0) list) }
    {
        self.ends_at(list?).first
    }

    /// Whether any value on a list is counted.
    pub fn has_counted(&self, list: Option<usize>) -> bool
        ensures { Tells (Holds self.now) result (on_some false (λ l rs. nat_lt 0 (counted_on l rs)) list) }
    {
        match list {
            Some(list) => self.ends_at(list).counted > 0,
            None => false,
        }
    }

    /// The value in a slot.
    pub fn get(&self, x: usize) -> Option<T>
        ensures { result ≡ value_at self.now x }
    {
        match self.items.get(x) {
            Some(item) => Some(item.held.value),
            None => None,
        }
    }

    /// The values on a list, in the order in which they came.
    pub fn items_on(&self, list: Option<usize>) -> Items<'_, T>
        ensures { Tells (Holds self.now) result (on_some [] values_on list) }
    {
        Items {
            items: &self.items,
            at: self.first(list),
            left: self.items.len(),
        }
    }

    /// How many values there are on all lists.
    pub fn len(&self) -> usize
        ensures { Tells (Holds self.now) result length }
    {
        self.items.len()
    }

    /// A slot's number is below this.
    pub fn slots(&self) -> usize
        ensures { (k : ℕ) → is_there self.now (Some k) ≡ true → k < result }
    {
        self.items.capacity()
    }

    /// A list more, on which nothing is. Takes no memory.
    pub fn open(&mut self) -> usize
        requires { 1 ≤ list_room self.old }
        ensures stands { Makes (Holds self.old) (Holds self.new) (λ rs. rs) }
        ensures fresh { is_open self.old result ≡ false }
        ensures open { (m : ℕ) → is_open self.new m ≡ (if result == m then true else is_open self.old m) }
        ensures items { item_room self.new ≡ item_room self.old }
        ensures lists { list_room self.new + 1 ≡ list_room self.old }
    {
        self.ends.insert_reserved(EMPTY)
    }

    /// A list on which nothing is goes: its number may be another's from now on.
    pub fn close(&mut self, list: usize)
        ensures stands { (rs : List (Row T)) → Holds self.old rs → ring list rs ≡ [] → Holds self.new rs }
        ensures open { (m : ℕ) → is_open self.new m ≡ (if list == m then false else is_open self.old m) }
        ensures items { item_room self.new ≡ item_room self.old }
        ensures lists { list_room self.old ≤ list_room self.new }
    {
        let _gone = self.ends.try_remove(list);
    }

    /// Puts a value behind all others on a list, where there is room, and answers its slot.
    #[inline(always)]
    pub fn push(&mut self, list: usize, value: T, counted: bool) -> usize
        requires { 1 ≤ item_room self.old }
        ensures stands { (rs : List (Row T)) → Holds self.old rs → is_open self.old list ≡ true
            → Holds self.new (rs ++ record { key = result; list = list; held = record { value = value; counted = counted } } ∷ []) }
        ensures few { (rs : List (Row T)) → Holds self.old rs → length rs < 18446744073709551615 }
        ensures open { (m : ℕ) → is_open self.new m ≡ is_open self.old m }
        ensures items { item_room self.new + 1 ≡ item_room self.old }
        ensures lists { list_room self.new ≡ list_room self.old }
    {
        let ends = self.ends_at(list);
        let x = self.insert(Item {
            held: Held { value, counted },
            list,
            prev: ends.last,
            next: None,
        });
        let at = Gap {
            prev: ends.last,
            next: None,
        };
        let to = Gap {
            prev: Some(x),
            next: Some(x),
        };
        let counted = ends.counted.saturating_add(u64::from(counted));
        self.join(list, at, to, counted);
        x
    }

    /// The value in a slot goes, if there is one.
    // Put into its callers, most of which have no use for the value.
    #[inline(always)]
    pub fn remove(&mut self, x: usize) -> Option<T>
        ensures gone { result ≡ value_at self.old x }
        ensures stands { Makes (Holds self.old) (Holds self.new) (drop_key x) }
        ensures open { (m : ℕ) → is_open self.new m ≡ is_open self.old m }
        ensures items { item_room self.old ≤ item_room self.new }
        ensures lists { list_room self.new ≡ list_room self.old }
    {
        let item = self.vacate(x)?;
        let ends = self.ends_at(item.list);
        let gap = Gap {
            prev: item.prev,
            next: item.next,
        };
        let counted = ends.counted.saturating_sub(u64::from(item.held.counted));
        self.join(item.list, gap, gap, counted);
        Some(item.held.value)
    }

    // Writes the value in a slot.
    fn write(&mut self, x: usize, value: T)
        ensures shown { (k : ℕ) → shown self.new k
            ≡ (if x == k then option_map (set_held value) (shown self.old k) else shown self.old k) }
        ensures nexts { (m : ℕ) (o : Option ℕ) → next_at self.new m o ≡ next_at self.old m o }
        ensures prevs { (m : ℕ) (o : Option ℕ) → prev_at self.new m o ≡ prev_at self.old m o }
        ensures ends { self.new.ends ≡ self.old.ends }
        ensures len { slab_len self.new.items ≡ slab_len self.old.items }
        ensures items { item_room self.new ≡ item_room self.old }
    {
        if let Some(item) = self.items.get_mut(x) {
            item.held.value = value;
        }
    }

    /// Another value stands in a slot from now on, in the same place on its list, if any stands there.
    pub fn set(&mut self, x: usize, value: T)
        ensures stands { (rs : List (Row T)) → Holds self.old rs → Holds self.new (with_value x value rs) }
        ensures open { (m : ℕ) → is_open self.new m ≡ is_open self.old m }
        ensures items { item_room self.new ≡ item_room self.old }
        ensures lists { list_room self.new ≡ list_room self.old }
    {
        self.write(x, value);
    }
}
