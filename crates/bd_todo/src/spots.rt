//! Work items, counted by what they are looked up by.

ghost use Rattle.std.specs.Prelude.{◌≡◌, ◌≤◌, ◌<◌, ◌+◌, ◌-◌, min, true, Some, None, option_map, unwrap_or, if◌then◌else◌, nat_lt, OnOk, OnErr};
ghost use Rattle.std.specs.Option.{ForSome};
ghost use Rattle.std.specs.Cmp.Rules.{hashing};
ghost use Rattle.std.specs.Hash as fed;
ghost use Rattle.std.{specs.HashMap.{spare, get_by}, proofs.Common.{rules}};
ghost use Rattle.bd_todo.specs.declared.spots.Sought as declared;
ghost use Rattle.bd_todo.specs.declared.spots.Sought.TheVariants as sought;
ghost use Rattle.bd_todo.specs.Spots.{same_sought, spread, noticed, sought_of, is_sought, is_key};

use bd_keys::tall;
use bd_space::{Identity, WorkKind};
use std::alloc::{AllocError, Global};
use std::collections::HashMap;
use std::hash::{Hash, Hasher};

/// What a work item is looked up by.
#[derive(Clone, Copy, Debug, PartialEq, Eq)]
pub enum Sought {
    Notice { place: u64, index: u32 },
    Call { buffer: u64 },
    Death { made: u64 },
}

impl Sought {
    // A number of 66 bits, another for each key.
    fn spread(self) -> u128
        ensures { result ≡ spread self }
    {
        match self {
            Sought::Notice { place, index } => tall(place, index),
            Sought::Call { buffer } => u128::from(buffer) + 0x100_0000_0000_0000_0000_0000_0000,
            Sought::Death { made } => u128::from(made) + 0x200_0000_0000_0000_0000_0000_0000,
        }
    }

    // Of a notice its object as a number, which rises from one object to the next; of all else 0.
    #[inline(always)]
    fn noticed(self) -> u128
        ensures { result ≡ noticed self }
    {
        match self {
            Sought::Notice { place, index } => tall(place, index),
            _ => 0,
        }
    }
}

// One write, as `bd_keys` says.
impl Hash for Sought {
    ghost hash_input = { λ k. fed.u128 (spread k) };

    ghost respects_eq = { Prim.search (hashing, rules) };

    fn hash<H: Hasher>(&self, state: &mut H) {
        state.write_u128(self.spread());
    }
}

/// Where a work item was put that is looked up so.
#[derive(Clone, Copy, Debug)]
pub struct Spot {
    // So many are looked up so.
    pub count: u64,
    // The slot of the latest.
    pub slot: usize,
}

/// Work items by what they are looked up by.
#[derive(Debug, Drop)]
pub struct Spots {
    pub(crate) spots: HashMap<Sought, Spot>,
    // No notice that is there is of a later object, as a number: that of a new one takes no hash.
    pub(crate) latest: u128,
    // No two are looked up the same, as it always is: what goes then takes one hash.
    pub(crate) alone: bool,
    // What has gone leaves nothing in the map.
    ghost left: { (k : declared.Sought) → ForSome (get_by (same_sought k) spots) (λ s. 0 < s.count) },
    ghost not_later: { (k : declared.Sought) → latest < noticed k → get_by (same_sought k) spots ≡ None },
    ghost ones: { alone ≡ true → (k : declared.Sought) → ForSome (get_by (same_sought k) spots) (λ s. s.count ≡ 1) },
}

/// The notice of the object.
pub fn sought_notice(object: Identity) -> Sought
    ensures { result ≡ sought.Notice object.place object.index }
{
    Sought::Notice {
        place: object.place,
        index: object.index,
    }
}

/// What a notice, a call or a death is looked up by, whatever its list.
pub fn sought_of(kind: WorkKind) -> Option<Sought>
    ensures { result ≡ sought_of kind }
{
    match kind {
        WorkKind::Notice(object) => Some(sought_notice(object)),
        WorkKind::Call(buffer) => Some(Sought::Call { buffer }),
        WorkKind::Death(made) => Some(Sought::Death { made }),
        _ => None,
    }
}

/// Whether a work item of this kind is looked up by this key.
pub fn is_sought(key: Sought, kind: WorkKind) -> bool
    ensures { result ≡ is_sought key kind }
{
    sought_of(kind) == Some(key)
}

// One more is looked up so, in this slot: how many there are.
#[inline(always)]
fn count_one(spots: &mut HashMap<Sought, Spot>, key: Sought, slot: usize) -> u64
    requires { 0 < spare spots.old }
    ensures put { (k : declared.Sought) → get_by (same_sought k) spots.new
        ≡ (if same_sought key k then Some (record { count = result; slot = slot }) else get_by (same_sought k) spots.old) }
    ensures count { result ≡ min (unwrap_or (option_map (λ s. s.count) (get_by (same_sought key) spots.old)) 0 + 1) 18446744073709551615 }
    ensures uses { spare spots.old ≤ spare spots.new + 1 }
{
    match spots.entry(key) {
        Ok(entry) => {
            let spot = entry.or_insert(Spot { count: 0, slot });
            let count = spot.count.saturating_add(1);
            *spot = Spot { count, slot };
            count
        }
        Err(_) => unreachable!(),
    }
}

impl Spots {
    ghost use Rattle.bd_todo.specs.SpotCounts.{count_at};

    /// None. Takes no memory.
    pub fn new(alloc: Global) -> Spots
        ensures { (k : declared.Sought) → count_at result k ≡ 0 }
    {
        Spots {
            spots: HashMap::new(alloc),
            latest: 0,
            alone: true,
        }
    }

    /// Room for so many more.
    pub fn reserve(&mut self, more: usize) -> Result<(), AllocError>
        ensures same { (k : declared.Sought) → count_at self.new k ≡ count_at self.old k }
        ensures room { OnOk result (more ≤ spare self.new.spots) }
        ensures uses { spare self.old.spots ≤ spare self.new.spots }
        ensures grown { OnErr result (more ≤ spare self.old.spots → ⊥) }
    {
        self.spots.reserve(more)
    }

    // Where the latest was put that is looked up so, by its hash.
    #[inline(always)]
    fn hashed(&self, key: Sought) -> Option<Spot>
        ensures { result ≡ get_by (same_sought key) self.now.spots }
    {
        self.spots.get(&key).copied()
    }

    /// Where the latest was put that is looked up so, and how many there are.
    #[inline(always)]
    pub fn spot(&self, key: Sought) -> Option<Spot>
        ensures { result ≡ get_by (same_sought key) self.now.spots }
    {
        // Mostly there are none at all, or the notice is a new object's, which takes no hash.
        if self.spots.is_empty() {
            return None;
        }
        if key.noticed() > self.latest {
            return None;
        }
        self.hashed(key)
    }

    /// Whether any is looked up so.
    #[inline(always)]
    pub fn has(&self, key: Sought) -> bool
        ensures { result ≡ nat_lt 0 (count_at self.now key) }
    {
        match self.spot(key) {
            Some(spot) => spot.count > 0,
            None => false,
        }
    }

    /// A work item came last, into this slot, that is looked up so, or not at all.
    pub fn add(&mut self, key: Option<Sought>, slot: usize)
        requires { 0 < spare self.old.spots }
        ensures counts { (k : declared.Sought) → count_at self.new k
            ≡ (if is_key k key then min (count_at self.old k + 1) 18446744073709551615 else count_at self.old k) }
        ensures uses { spare self.old.spots ≤ spare self.new.spots + 1 }
    {
        if let Some(key) = key {
            let count = count_one(&mut self.spots, key, slot);
            self.latest = self.latest.max(key.noticed());
            self.alone = self.alone && count == 1;
        }
    }

    /// A work item went that was looked up so, or not at all.
    pub fn remove(&mut self, key: Option<Sought>)
        ensures counts { (k : declared.Sought) → count_at self.new k
            ≡ (if is_key k key then count_at self.old k - 1 else count_at self.old k) }
        ensures uses { spare self.old.spots ≤ spare self.new.spots }
    {
        if let Some(key) = key {
            if self.alone {
                let _only = self.spots.remove(&key);
                return;
            }
            match self.spots.get_mut(&key) {
                Some(spot) if spot.count > 1 => spot.count -= 1,
                Some(_) => {
                    let _gone = self.spots.remove(&key);
                }
                None => {}
            }
        }
    }
}
