//! Where calls stand, and what is kept of one in its window.

ghost use Rattle.std.specs.Prelude.{ℕ, ◌≡◌, ◌==◌, ◌<◌, ◌≤◌, ◌+◌, None, Some, if◌then◌else◌, OnOk, OnErr};
ghost use Rattle.bd_turns.specs.Spots.{in_map, is_lone, spot_at, spot_room, spot_count};

use bd_keys::insert_reserved;
use std::alloc::{AllocError, Global};
use std::collections::HashMap;

/// A call in its process's window: what it is found by, and whose window it is.
#[derive(Clone, Copy)]
pub struct Mark {
    pub made: u64,
    pub receiver: u64,
}

/// The slots of a call, among its object's and among those in its window.
#[derive(Clone, Copy)]
pub struct Spot {
    pub call: usize,
    pub mark: usize,
}

/// Where the call made at a place stands.
#[derive(Clone, Copy)]
pub struct Lone {
    pub made: u64,
    pub spot: Spot,
}

/// Where each call stands, by where it was made.
#[derive(Drop)]
pub struct Spots {
    // Of the call that came when none stood here. A call mostly goes before there is another, and then takes no hash.
    pub(crate) lone: Option<Lone>,
    // Of all others; what the map has of that one as well doesn't count.
    pub(crate) others: HashMap<u64, Spot>,
}

impl Spots {
    /// None. Takes no memory.
    pub fn new(alloc: Global) -> Spots
        ensures { (m : ℕ) → spot_at result m ≡ None }
    {
        Spots {
            lone: None,
            others: HashMap::new(alloc),
        }
    }

    /// Room for so many more.
    pub fn reserve(&mut self, more: usize) -> Result<(), AllocError>
        ensures same { (m : ℕ) → spot_at self.new m ≡ spot_at self.old m }
        ensures room { OnOk result (more ≤ spot_room self.new) }
        ensures uses { spot_room self.old ≤ spot_room self.new }
        ensures count { spot_count self.new ≤ spot_count self.old }
        ensures grown { OnErr result (more ≤ spot_room self.old → ⊥) }
    {
        self.others.reserve(more)
    }

    // Where the call stands by its hash.
    #[inline(never)]
    fn hashed(&self, made: u64) -> Option<Spot>
        ensures { result ≡ in_map self.now.others made }
    {
        self.others.get(&made).copied()
    }

    // Where the call stands by the map, which mostly is empty: that takes no hash.
    #[inline(always)]
    fn other(&self, made: u64) -> Option<Spot>
        ensures { result ≡ in_map self.now.others made }
    {
        if self.others.is_empty() {
            return None;
        }
        self.hashed(made)
    }

    /// Where the call made at this place stands.
    #[inline(always)]
    pub fn spot(&self, made: u64) -> Option<Spot>
        ensures { result ≡ spot_at self.now made }
    {
        match self.lone {
            Some(lone) if lone.made == made => Some(lone.spot),
            _ => self.other(made),
        }
    }

    /// The call made at this place stands here from now on.
    #[inline(always)]
    pub fn insert(&mut self, made: u64, spot: Spot)
        requires { 0 < spot_room self.old }
        ensures put { (m : ℕ) → spot_at self.new m ≡ (if made == m then Some spot else spot_at self.old m) }
        ensures room { spot_room self.old ≤ spot_room self.new + 1 }
        ensures count { spot_count self.new ≤ spot_count self.old + 1 }
    {
        let lone = self.lone;
        match lone {
            Some(lone) if lone.made != made => {
                insert_reserved(&mut self.others, made, spot);
            }
            _ => self.lone = Some(Lone { made, spot }),
        }
    }

    // The map has nothing of the call from now on. Mostly it is empty, which takes no hash.
    #[inline(always)]
    fn remove_other(&mut self, made: u64) -> Option<Spot>
        ensures value { result ≡ in_map self.old.others made }
        ensures gone { (m : ℕ) → in_map self.new.others m ≡ (if made == m then None else in_map self.old.others m) }
        ensures lone { self.new.lone ≡ self.old.lone }
        ensures room { spot_room self.old ≤ spot_room self.new }
        ensures count { spot_count self.new ≤ spot_count self.old }
    {
        if self.others.is_empty() {
            return None;
        }
        self.others.remove(&made)
    }

    /// The call made at this place stands nowhere from now on. Where it stood.
    #[inline(always)]
    pub fn remove(&mut self, made: u64) -> Option<Spot>
        ensures value { result ≡ spot_at self.old made }
        ensures gone { (m : ℕ) → spot_at self.new m ≡ (if made == m then None else spot_at self.old m) }
        ensures room { spot_room self.old ≤ spot_room self.new }
        ensures count { spot_count self.new ≤ spot_count self.old }
    {
        let spot = self.spot(made);
        if self.is_lone(made) {
            self.lone = None;
        }
        let _other = self.remove_other(made);
        spot
    }

    // Whether it is the one that the map needn't have.
    #[inline(always)]
    fn is_lone(&self, made: u64) -> bool
        ensures { result ≡ is_lone self.now made }
    {
        match self.lone {
            Some(lone) => lone.made == made,
            None => false,
        }
    }
}
