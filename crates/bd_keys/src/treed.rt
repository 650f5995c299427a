//! Values in a tree of keys.

ghost use Rattle.std.specs.Prelude.{◌≡◌, ◌+◌, ◌*◌, ◌≤◌, ◌<◌, if◌then◌else◌, Some, None, OnOk, OnErr, IfOk, IfSome, is_some, count_by, length};
ghost use Rattle.std.specs.Option.{option_map, option_or};

use crate::key::WordKey;
use crate::room::room_anew;
use crate::tree::Tree;
use std::alloc::{AllocError, Global};

// Room is made anew for so many keys at least.
const LEAST: usize = 16;

/// Values at the keys of a tree.
#[derive(Drop)]
pub(crate) struct TreeMap<V> {
    tree: Tree,
    // At a key's place what it has. Where that was taken away the key stays, for the next rebuilding.
    values: Vec<Option<V>>,
    // How many have something.
    live: usize,
    ghost alike: { length values.items ≡ length tree.nodes.items },
    ghost counted: { live ≡ count_by is_some values.items },
}

impl<V: Copy> TreeMap<V> {
    ghost use Rattle.bd_keys.specs.{declared.key.WordKey.{WordKey}, Keys.{same_word}};
    ghost use Rattle.bd_keys.specs.Treed.{place_of, tree_look, map_room, tree_count, live_count};

    /// No keys.
    pub(crate) fn new(alloc: Global) -> TreeMap<V>
        ensures values { (k : WordKey) → tree_look result k ≡ None }
        ensures keys { tree_count result ≡ 0 }
    {
        TreeMap {
            tree: Tree::new(alloc),
            values: Vec::new(alloc),
            live: 0,
        }
    }

    // How many new keys may still come without memory.
    fn room(&self) -> usize
        ensures { result ≡ map_room self.now }
    {
        let room = self.values.capacity() - self.values.len();
        self.tree.room().min(room)
    }

    // Makes room beside the keys that there are.
    fn grow(&mut self, more: usize) -> Result<(), AllocError>
        ensures kept { (k : WordKey) → tree_look self.new k ≡ tree_look self.old k }
        ensures keys { tree_count self.new ≡ tree_count self.old }
        ensures uses { map_room self.old ≤ map_room self.new }
        ensures room { OnOk result (more ≤ map_room self.new) }
    {
        self.tree.reserve(more)?;
        self.values.reserve(more)
    }

    // The same values in new memory, without the keys that have none.
    fn rebuilt(&self, more: usize) -> Result<TreeMap<V>, AllocError>
        ensures kept { IfOk result (λ m. (k : WordKey) → tree_look m k ≡ tree_look self.now k) }
        ensures keys { IfOk result (λ m. tree_count m ≤ live_count self.now) }
        ensures room { IfOk result (λ m. more ≤ map_room m) }
    {
        let room = room_anew(LEAST, self.live, more)?;
        let mut fresh = TreeMap::new(*self.values.allocator());
        fresh.grow(room)?;
        for (at, value) in self.values.iter().enumerate() {
            if let Some(v) = value {
                fresh.insert(self.tree.key(at), *v);
            }
        }
        Ok(fresh)
    }

    /// Makes room for so many more keys. Changes nothing else, also on an `Err`.
    pub(crate) fn reserve(&mut self, more: usize) -> Result<(), AllocError>
        ensures kept { (k : WordKey) → tree_look self.new k ≡ tree_look self.old k }
        ensures uses { map_room self.old ≤ map_room self.new }
        ensures room { OnOk result (more ≤ map_room self.new) }
        // Where there was no room, keys without a value are few from now on.
        ensures keys { OnOk result ((more ≤ map_room self.old → ⊥) → tree_count self.new ≤ 2 * live_count self.old + 1) }
        ensures grown { OnErr result (more ≤ map_room self.old → ⊥) }
    {
        if more <= self.room() {
            return Ok(());
        }
        // The removals since the last rebuilding pay for the next.
        if self.live < self.values.len() / 2 {
            *self = self.rebuilt(more)?;
            return Ok(());
        }
        self.grow(more)
    }

    // The place of a key that has a value, or had one.
    fn index_of(&self, k: WordKey) -> Option<usize>
        ensures place { result ≡ place_of self.now k }
        ensures within { IfSome result (λ at. at < length self.now.values.items) }
    {
        self.tree.find(k)
    }

    // What the key of a place has.
    fn value(&self, at: usize) -> Option<V>
        requires { at < length self.now.values.items }
        ensures { (k : WordKey) → place_of self.now k ≡ Some at → result ≡ tree_look self.now k }
    {
        self.values[at]
    }

    /// The value at a key, if there is one.
    pub(crate) fn get(&self, k: WordKey) -> Option<V>
        ensures { result ≡ tree_look self.now k }
    {
        if self.live == 0 {
            return None;
        }
        let at = self.index_of(k)?;
        self.value(at)
    }

    // Changes what the key of a place has.
    fn set_at(&mut self, at: usize, value: Option<V>)
        requires { at < length self.old.values.items }
        ensures put { (k l : WordKey) → place_of self.old k ≡ Some at
            → tree_look self.new l ≡ (if same_word k l then value else tree_look self.old l) }
        ensures room { map_room self.new ≡ map_room self.old }
        ensures keys { tree_count self.new ≡ tree_count self.old }
    {
        let was = self.values[at].is_some() as usize;
        self.live = self.live - was + value.is_some() as usize;
        self.values[at] = value;
    }

    /// Puts a value at a key, in place of the one that is there. A new key takes room.
    pub(crate) fn insert(&mut self, k: WordKey, v: V)
        requires { 1 ≤ map_room self.old }
        ensures put { (l : WordKey) → tree_look self.new l ≡ (if same_word k l then Some v else tree_look self.old l) }
        ensures room { map_room self.old ≤ map_room self.new + 1 }
        ensures keys { tree_count self.new ≤ tree_count self.old + 1 }
    {
        match self.tree.put(k) {
            Some(at) => self.set_at(at, Some(v)),
            None => {
                self.values.push_reserved(Some(v));
                self.live += 1;
            }
        }
    }

    // Puts a value at a key's place, if it has none there.
    fn fill_at(&mut self, at: usize, v: V)
        requires { at < length self.old.values.items }
        ensures put { (k l : WordKey) → place_of self.old k ≡ Some at
            → tree_look self.new l ≡ (if same_word k l then option_or (tree_look self.old k) (Some v) else tree_look self.old l) }
        ensures room { map_room self.new ≡ map_room self.old }
        ensures keys { tree_count self.new ≡ tree_count self.old }
    {
        if self.value(at).is_none() {
            self.set_at(at, Some(v));
        }
    }

    /// Puts a value at a key that has none. A new key takes room.
    pub(crate) fn fill(&mut self, k: WordKey, v: V)
        requires { 1 ≤ map_room self.old }
        ensures put { (l : WordKey) → tree_look self.new l
            ≡ (if same_word k l then option_or (tree_look self.old k) (Some v) else tree_look self.old l) }
        ensures room { map_room self.old ≤ map_room self.new + 1 }
        ensures keys { tree_count self.new ≤ tree_count self.old + 1 }
    {
        match self.tree.put(k) {
            Some(at) => self.fill_at(at, v),
            None => {
                self.values.push_reserved(Some(v));
                self.live += 1;
            }
        }
    }

    /// Changes the value at a key, if there is one. Takes no room.
    pub(crate) fn set(&mut self, k: WordKey, v: V)
        ensures set { (l : WordKey) → tree_look self.new l
            ≡ (if same_word k l then option_map (λ _. v) (tree_look self.old l) else tree_look self.old l) }
        ensures room { map_room self.old ≤ map_room self.new }
    {
        if let Some(at) = self.index_of(k) {
            if self.value(at).is_some() {
                self.set_at(at, Some(v));
            }
        }
    }

    /// Takes the value at a key away.
    pub(crate) fn remove(&mut self, k: WordKey) -> Option<V>
        ensures taken { result ≡ tree_look self.old k }
        ensures gone { (l : WordKey) → tree_look self.new l ≡ (if same_word k l then None else tree_look self.old l) }
        ensures room { map_room self.old ≤ map_room self.new }
        ensures keys { tree_count self.new ≡ tree_count self.old }
    {
        if self.live == 0 {
            return None;
        }
        let at = self.index_of(k)?;
        let value = self.value(at);
        self.set_at(at, None);
        value
    }
}
