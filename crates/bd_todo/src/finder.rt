//! What work items are looked up by: mostly that of one alone, which takes no hash.

ghost use Rattle.std.specs.Prelude.{◌≡◌, ◌≤◌, ◌<◌, ◌+◌, ◌-◌, min, if◌then◌else◌, nat_lt, unwrap_or, option_map, IfSome, OnOk, OnErr};
ghost use Rattle.std.specs.{Option.{ForSome}, HashMap.{spare}};
ghost use Rattle.bd_todo.specs.declared.spots.Sought as declared;
ghost use Rattle.bd_todo.specs.{Spots.{is_key}, SpotCounts.{count_at}};

use crate::spots::{Sought, Spot, Spots};
use std::alloc::{AllocError, Global};

/// What a work item is looked up by, and where it was put.
#[derive(Clone, Copy, Debug)]
pub struct Lone {
    pub key: Sought,
    pub spot: Spot,
}

/// Where work items were put, by what they are looked up by.
#[derive(Debug, Drop)]
pub struct Finder {
    // What came when none stood here. A call mostly comes and is read before there is another.
    pub(crate) lone: Option<Lone>,
    // All others.
    pub(crate) others: Spots,
    ghost apart: { ForSome lone (λ l. count_at others l.key ≡ 0) },
}

impl Lone {
    // The same with one less, if any is left.
    fn without_one(self) -> Option<Lone>
        ensures some { IfSome result (λ l. (l.key ≡ self.key) × (l.spot.count ≡ self.spot.count - 1)) }
        ensures none { result ≡ None → self.spot.count ≤ 1 }
    {
        if self.spot.count > 1 {
            let count = self.spot.count - 1;
            let spot = Spot { count, ..self.spot };
            Some(Lone { spot, ..self })
        } else {
            None
        }
    }
}

impl Finder {
    ghost use Rattle.std.specs.Prelude.{None};
    ghost use Rattle.bd_todo.specs.FoundCounts.{found_at};

    /// None. Takes no memory.
    pub fn new(alloc: Global) -> Finder
        ensures { (k : declared.Sought) → found_at result k ≡ 0 }
    {
        Finder {
            lone: None,
            others: Spots::new(alloc),
        }
    }

    /// Room for so many more.
    pub fn reserve(&mut self, more: usize) -> Result<(), AllocError>
        ensures same { (k : declared.Sought) → found_at self.new k ≡ found_at self.old k }
        ensures room { OnOk result (more ≤ spare self.new.others.spots) }
        ensures uses { spare self.old.others.spots ≤ spare self.new.others.spots }
        ensures grown { OnErr result (more ≤ spare self.old.others.spots → ⊥) }
    {
        self.others.reserve(more)
    }

    /// Where the latest was put that is looked up so, and how many there are.
    #[inline(always)]
    pub fn spot(&self, key: Sought) -> Option<Spot>
        ensures { unwrap_or (option_map (λ s. s.count) result) 0 ≡ found_at self.now key }
    {
        match self.lone {
            Some(lone) if lone.key == key => Some(lone.spot),
            _ => self.others.spot(key),
        }
    }

    /// Whether any is looked up so.
    #[inline(always)]
    pub fn has(&self, key: Sought) -> bool
        ensures { result ≡ nat_lt 0 (found_at self.now key) }
    {
        match self.spot(key) {
            Some(spot) => spot.count > 0,
            None => false,
        }
    }

    // A work item came last, into this slot, that is looked up so.
    #[inline(always)]
    fn add_one(&mut self, key: Sought, slot: usize)
        requires { 0 < spare self.old.others.spots }
        ensures counts { (k : declared.Sought) → found_at self.new k
            ≡ (if is_key k (Some key) then min (found_at self.old k + 1) 18446744073709551615 else found_at self.old k) }
        ensures uses { spare self.old.others.spots ≤ spare self.new.others.spots + 1 }
    {
        let lone = self.lone;
        match lone {
            Some(lone) if lone.key == key => {
                let count = lone.spot.count.saturating_add(1);
                let spot = Spot { count, slot };
                self.lone = Some(Lone { spot, ..lone });
            }
            None if !self.others.has(key) => {
                let spot = Spot { count: 1, slot };
                self.lone = Some(Lone { key, spot });
            }
            _ => self.others.add(Some(key), slot),
        }
    }

    /// A work item came last, into this slot, that is looked up so, or not at all.
    pub fn add(&mut self, key: Option<Sought>, slot: usize)
        requires { 0 < spare self.old.others.spots }
        ensures counts { (k : declared.Sought) → found_at self.new k
            ≡ (if is_key k key then min (found_at self.old k + 1) 18446744073709551615 else found_at self.old k) }
        ensures uses { spare self.old.others.spots ≤ spare self.new.others.spots + 1 }
    {
        if let Some(key) = key {
            self.add_one(key, slot);
        }
    }

    // A work item went that was looked up so.
    #[inline(always)]
    fn remove_one(&mut self, key: Sought)
        ensures counts { (k : declared.Sought) → found_at self.new k
            ≡ (if is_key k (Some key) then found_at self.old k - 1 else found_at self.old k) }
        ensures uses { spare self.old.others.spots ≤ spare self.new.others.spots }
    {
        let lone = self.lone;
        match lone {
            Some(lone) if lone.key == key => self.lone = lone.without_one(),
            _ => self.others.remove(Some(key)),
        }
    }

    /// A work item went that was looked up so, or not at all.
    pub fn remove(&mut self, key: Option<Sought>)
        ensures counts { (k : declared.Sought) → found_at self.new k
            ≡ (if is_key k key then found_at self.old k - 1 else found_at self.old k) }
        ensures uses { spare self.old.others.spots ≤ spare self.new.others.spots }
    {
        if let Some(key) = key {
            self.remove_one(key);
        }
    }
}
