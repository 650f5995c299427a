//! The numbers of lists, by their keys.

ghost use Rattle.std.specs.{Prelude.{ℕ, ◌≡◌, ◌≤◌, ◌<◌, ◌+◌, Bool, true, Option, Some, None, OnOk, OnErr, if◌then◌else◌}, HashMap.{get, get_by, spare, Eq.{lookup_congr}}};
ghost use Rattle.bd_chains.specs.declared.numbers.Recent as noting;

use bd_keys::insert_reserved;
use std::alloc::{AllocError, Global};
use std::collections::HashMap;
use std::hash::Hash;

/// What tells the number of each list that has one.
pub trait Numbering {
    type Key: Copy;

    // Two keys are of the same list.
    ghost same: { Self.Key → Self.Key → Bool };

    ghost number: { Self → Self.Key → Option ℕ };

    // So many lists more take no memory.
    ghost room: { Self → ℕ };

    /// The number of a list.
    fn of(&self, key: Self::Key) -> Option<usize>
        ensures { result ≡ number self.now key };

    /// The number of a list, which is looked for first from now on.
    fn find(&mut self, key: Self::Key) -> Option<usize>
        ensures found { result ≡ number self.old key }
        ensures numbers { (k : Self.Key) → number self.new k ≡ number self.old k }
        ensures uses { room self.new ≡ room self.old };

    /// A list has this number from now on.
    fn insert(&mut self, key: Self::Key, at: usize)
        requires { 0 < room self.old }
        ensures numbers { (k : Self.Key) → number self.new k ≡ (if same key k then Some at else number self.old k) }
        ensures uses { room self.old ≤ room self.new + 1 };

    /// A list has no number from now on.
    fn remove(&mut self, key: Self::Key)
        ensures numbers { (k : Self.Key) → number self.new k ≡ (if same key k then None else number self.old k) }
        ensures uses { room self.old ≤ room self.new };

    /// Room for so many lists more.
    fn reserve(&mut self, more: usize) -> Result<(), AllocError>
        ensures numbers { (k : Self.Key) → number self.new k ≡ number self.old k }
        ensures uses { room self.old ≤ room self.new }
        ensures room { OnOk result (more ≤ room self.new) }
        ensures grown { OnErr result (more ≤ room self.old → ⊥) };

    ghost itself: { (k : Self.Key) → same k k ≡ true };

    ghost turned: { (k l : Self.Key) → same k l ≡ same l k };

    ghost alike: { (k l m : Self.Key) → same k l ≡ true → same k m ≡ same l m };

    ghost one_number: { (n : Self) (k l : Self.Key) → same k l ≡ true → number n k ≡ number n l };
}

/// The number of a list.
#[derive(Clone, Copy)]
pub struct Recent<K> {
    pub key: K,
    pub number: usize,
}

/// The number of each list that has one, by its key's hash.
#[derive(Drop)]
pub struct Numbers<K: Eq + Hash> {
    pub all: HashMap<K, usize>,
    // The one that was looked for last, if it is known: mostly it is the next that is asked for, and then takes no hash.
    pub(crate) recent: Option<Recent<K>>,
    ghost noted: { (r : noting.Recent K) → recent ≡ Some r → get K.eq all r.key ≡ Some r.number },
}

impl<K: Eq + Hash + Copy> Numbers<K> {
    /// No list has a number. Takes no memory.
    pub fn new(alloc: Global) -> Numbers<K>
        ensures { (k : K) → get K.eq result.all k ≡ None }
    {
        Numbers {
            all: HashMap::new(alloc),
            recent: None,
        }
    }
}

impl<K: Eq + Hash + Copy> Numbering for Numbers<K> {
    type Key = K;

    ghost same = { K.eq };

    ghost number = { λ n. get K.eq n.all };

    ghost room = { λ n. spare n.all };

    ghost itself = { K.Eq.laws.refl };

    ghost turned = { K.Eq.laws.symm };

    ghost alike = { K.Eq.laws.congr };

    ghost one_number = { λ n. lookup_congr K.eq K.Eq.laws.congr n.all.entries };

    fn of(&self, key: K) -> Option<usize> {
        if let Some(recent) = self.recent {
            if recent.key == key {
                return Some(recent.number);
            }
        }
        self.all.get(&key).copied()
    }

    fn find(&mut self, key: K) -> Option<usize> {
        let number = self.of(key)?;
        self.recent = Some(Recent { key, number });
        Some(number)
    }

    fn insert(&mut self, key: K, at: usize) {
        self.recent = None;
        insert_reserved(&mut self.all, key, at);
        self.recent = Some(Recent { key, number: at });
    }

    fn remove(&mut self, key: K) {
        self.recent = None;
        let _gone = self.all.remove(&key);
    }

    fn reserve(&mut self, more: usize) -> Result<(), AllocError> {
        self.all.reserve(more)
    }
}
