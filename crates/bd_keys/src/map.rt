//! Values by process and word.

ghost use Rattle.std.specs.Prelude.{◌≡◌, ◌+◌, ◌*◌, ◌≤◌, if◌then◌else◌, Some, None, OnOk, OnErr, is_some, false};
ghost use Rattle.std.specs.Option.{ForSome, option_map, option_or};
ghost use Rattle.bd_keys.specs.Treed.{tree_look, map_room};

use crate::key::WordKey;
use crate::treed::TreeMap;
use std::alloc::{AllocError, Global};

// The key that came to a map last, and what it has now.
#[derive(Clone, Copy)]
pub(crate) struct Latest<V> {
    pub(crate) key: WordKey,
    pub(crate) value: V,
}

/// Values by process and word.
#[derive(Drop)]
pub struct WordMap<V> {
    // While it is there it stands before the tree: what came last is mostly asked for next, and goes first.
    latest: Option<Latest<V>>,
    others: TreeMap<V>,
    ghost apart: { ForSome latest (λ x. is_some (tree_look others x.key) ≡ false) },
}

impl<V: Copy> WordMap<V> {
    ghost use Rattle.bd_keys.specs.{declared.key.WordKey.{WordKey}, Keys.{same_word}};
    ghost use Rattle.bd_keys.specs.Look.{latest_at, look, word_room, key_count, value_count};

    /// An empty map. Takes no memory.
    pub fn new(alloc: Global) -> WordMap<V>
        ensures { (k : WordKey) → look result k ≡ None }
    {
        WordMap {
            latest: None,
            others: TreeMap::new(alloc),
        }
    }

    /// Makes room for so many more keys. Changes nothing else, also on an `Err`.
    #[tactic(auto, unfolding(crate::specs::Look::word_room))]
    pub fn reserve(&mut self, more: usize) -> Result<(), AllocError>
        ensures kept { (k : WordKey) → look self.new k ≡ look self.old k }
        ensures uses { word_room self.old ≤ word_room self.new }
        ensures room { OnOk result (more ≤ word_room self.new) }
        // Where there was no room, keys without a value are few from now on.
        ensures keys { OnOk result ((more ≤ word_room self.old → ⊥) → key_count self.new ≤ 2 * value_count self.old + 1) }
        ensures grown { OnErr result (more ≤ word_room self.old → ⊥) }
    {
        self.others.reserve(more)
    }

    // The value that came last, if this is its key.
    fn latest_value(&self, k: WordKey) -> Option<V>
        ensures { result ≡ latest_at self.now.latest k }
    {
        match self.latest {
            Some(x) if x.key == k => Some(x.value),
            _ => None,
        }
    }

    /// The value at a key, if there is one.
    pub fn get(&self, k: WordKey) -> Option<V>
        ensures { result ≡ look self.now k }
    {
        match self.latest_value(k) {
            Some(v) => Some(v),
            None => self.others.get(k),
        }
    }

    // The value that came last goes to the others.
    #[tactic(auto, unfolding(crate::specs::Look::look))]
    fn settle(&mut self)
        requires { 1 ≤ map_room self.old.others }
        ensures kept { (l : WordKey) → tree_look self.new.others l ≡ look self.old l }
        ensures room { map_room self.old.others ≤ map_room self.new.others + 1 }
        ensures keys { key_count self.new ≤ key_count self.old }
        ensures none { self.new.latest ≡ None }
    {
        match self.latest {
            None => {}
            Some(x) => {
                self.latest = None;
                self.others.insert(x.key, x.value);
            }
        }
    }

    /// Puts a value at a key, in place of the one that is there. A new key takes room.
    #[tactic(auto, unfolding(crate::specs::Look::word_room))]
    pub fn insert(&mut self, k: WordKey, v: V)
        requires { 1 ≤ word_room self.old }
        ensures put { (l : WordKey) → look self.new l ≡ (if same_word k l then Some v else look self.old l) }
        ensures room { word_room self.old ≤ word_room self.new + 1 }
        ensures keys { key_count self.new ≤ key_count self.old + 1 }
    {
        if self.latest_value(k).is_some() {
            self.latest = Some(Latest { key: k, value: v });
            return;
        }
        self.settle();
        let _gone = self.others.remove(k);
        self.latest = Some(Latest { key: k, value: v });
    }

    /// Puts a value at a key that has none. A new key takes room.
    #[tactic(auto, unfolding(crate::specs::Look::word_room))]
    pub fn fill(&mut self, k: WordKey, v: V)
        requires { 1 ≤ word_room self.old }
        ensures put { (l : WordKey) → look self.new l
            ≡ (if same_word k l then option_or (look self.old k) (Some v) else look self.old l) }
        ensures room { word_room self.old ≤ word_room self.new + 1 }
        ensures keys { key_count self.new ≤ key_count self.old + 1 }
    {
        if self.latest_value(k).is_some() {
            return;
        }
        self.others.fill(k, v);
    }

    /// Changes the value at a key, if there is one. Takes no room.
    #[tactic(auto, unfolding(crate::specs::Look::word_room))]
    pub fn set(&mut self, k: WordKey, v: V)
        ensures set { (l : WordKey) → look self.new l
            ≡ (if same_word k l then option_map (λ _. v) (look self.old l) else look self.old l) }
        ensures room { word_room self.old ≤ word_room self.new }
    {
        if self.latest_value(k).is_some() {
            self.latest = Some(Latest { key: k, value: v });
        } else {
            self.others.set(k, v);
        }
    }

    /// Takes the value at a key away.
    #[tactic(auto, unfolding(crate::specs::Look::word_room))]
    pub fn remove(&mut self, k: WordKey) -> Option<V>
        ensures taken { result ≡ look self.old k }
        ensures gone { (l : WordKey) → look self.new l ≡ (if same_word k l then None else look self.old l) }
        ensures room { word_room self.old ≤ word_room self.new }
    {
        match self.latest_value(k) {
            Some(v) => {
                self.latest = None;
                Some(v)
            }
            None => self.others.remove(k),
        }
    }
}
