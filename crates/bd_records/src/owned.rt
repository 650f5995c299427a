//! Objects by their owners.

ghost use Rattle.std.specs.Prelude.{List, None, OnErr, OnOk, Some, [], filter, if◌then◌else◌, map, not, option_map, ◌++◌, ◌+◌, ◌==◌, ◌∷◌, ◌≡◌, ◌≤◌};
ghost use Rattle.bd_keys.specs.{Keys.{same_word}, Look.{look, word_room}, Tables.{Makes, Tells}, declared.key.WordKey.{WordKey}};
ghost use Rattle.bd_space.specs.{References.{object_in, own_in}, Words.{same}};
ghost use Rattle.bd_records.specs.New.{IsNewIn};
ghost use Rattle.bd_space.specs.declared.space.Object as declared;
ghost use Rattle.bd_records.specs.ObjectKeys as keys;

use bd_chains::{Items, Lists, Numbering, Numbers};
use bd_keys::{WordKey, WordMap};
use bd_space::{Identity, Object};
use std::alloc::{AllocError, Global};

/// An object, and where it stands among those of its owner.
#[derive(Clone, Copy)]
pub(crate) struct Spot {
    pub(crate) id: Identity,
    pub(crate) at: usize,
}

/// A process, and an object that it owns.
#[derive(Clone, Copy)]
pub(crate) struct Possession {
    pub(crate) owner: u64,
    pub(crate) id: Identity,
}

/// The objects of each process, by the pointers that it picked: whatever it picks, a look stays short. And one after the other.
pub struct Owned {
    pub(crate) ptrs: WordMap<Spot>,
    pub(crate) lists: Lists<Numbers<u64>, Possession>,
    // No object that is there has a pointer above this one: where pointers rise, what is new needs no look.
    pub(crate) highest: u64,
}

// Written out: one that is derived would be proved again in every crate that holds such records.
impl Drop for Owned {
    fn drop(self) {
        let Owned {
            ptrs: _,
            lists: _,
            highest: _,
        } = self;
    }
}

/// The objects of these come behind what is there.
pub(crate) fn push_ids(
    possessions: Items<'_, Possession>,
    touched: &mut Vec<Identity>,
) -> Result<(), AllocError>
    ensures pushed { OnOk result (touched.new.items ≡ touched.old.items ++ map (λ v. v.id) possessions.entry) }
    // Memory was asked for: there is one.
    ensures grown { OnErr result (possessions.entry ≡ [] → ⊥) }
{
    for v in possessions {
        touched.push(v.id)?;
    }
    Ok(())
}

// The owner, and the pointer that it picked.
fn own_key(x: &Object) -> WordKey
    ensures { result ≡ keys.own_key x.now }
{
    WordKey {
        process: x.owner,
        word: x.ptr,
    }
}

// Puts the spot at a key that has none: in front of the others, where it mostly is the only one of its step, or among them.
fn put_spot(ptrs: &mut WordMap<Spot>, k: WordKey, spot: Spot, among: bool)
    requires { 1 ≤ word_room ptrs.old }
    ensures put { look ptrs.old k ≡ None → (l : WordKey)
        → look ptrs.new l ≡ (if same_word k l then Some spot else look ptrs.old l) }
    ensures room { word_room ptrs.old ≤ word_room ptrs.new + 1 }
{
    if among {
        ptrs.fill(k, spot);
    } else {
        ptrs.insert(k, spot);
    }
}

impl Owned {
    ghost use Rattle.bd_records.specs.Owned.{OwnedAre, own_room, possession};

    /// Nobody owns an object.
    pub fn new(alloc: Global) -> Owned
        ensures { OwnedAre result [] }
    {
        Owned {
            ptrs: WordMap::new(alloc),
            lists: Lists::new(alloc, Numbers::new(alloc)),
            highest: 0,
        }
    }

    /// Makes room for so many objects more. Changes nothing else.
    pub fn reserve(&mut self, more: usize) -> Result<(), AllocError>
        ensures stands { Makes (OwnedAre self.old) (OwnedAre self.new) (λ l. l) }
        ensures uses { own_room self.old ≤ own_room self.new }
        ensures room { OnOk result (more ≤ own_room self.new) }
        ensures grown { OnErr result (more ≤ own_room self.old → ⊥) }
    {
        self.ptrs.reserve(more)?;
        self.lists.reserve(more)
    }

    /// Takes in an object that is new: no other has its identity, and its owner has none with its pointer. Takes whether others
    /// come with it.
    pub fn push(&mut self, x: &Object, among: bool)
        requires { 1 ≤ own_room self.old }
        ensures stands { (objects : List declared.Object) → OwnedAre self.old objects → IsNewIn objects x.now
            → OwnedAre self.new (objects ++ x.now ∷ []) }
        ensures uses { own_room self.old ≤ own_room self.new + 1 }
    {
        let possession = Possession {
            owner: x.owner,
            id: x.id,
        };
        let at = self.lists.push(x.owner, possession, false);
        put_spot(&mut self.ptrs, own_key(x), Spot { id: x.id, at }, among);
        self.highest = self.highest.max(x.ptr);
    }

    /// The object goes.
    pub fn remove(&mut self, x: &Object)
        ensures stands { (objects : List declared.Object) → OwnedAre self.old objects → object_in objects x.now.id ≡ Some x.now
            → OwnedAre self.new (filter (λ y. not (same y.id x.now.id)) objects) }
        ensures uses { own_room self.old ≤ own_room self.new }
    {
        if let Some(spot) = self.ptrs.remove(own_key(x)) {
            let _possession = self.lists.chains.remove(spot.at);
            self.lists.give_back(x.owner);
        }
    }

    /// The identity of the object that the process knows by this pointer as its own, if there is one.
    pub fn with_ptr(&self, p: u64, ptr: u64) -> Option<Identity>
        ensures { Tells (OwnedAre self.now) result (λ objects. option_map (λ x. x.id) (own_in objects p ptr)) }
    {
        if ptr > self.highest {
            return None;
        }
        let spot = self.ptrs.get(WordKey {
            process: p,
            word: ptr,
        })?;
        Some(spot.id)
    }

    /// The objects of the process, in the order in which they came.
    pub(crate) fn of(&self, p: u64) -> Items<'_, Possession>
        ensures { Tells (OwnedAre self.now) result (λ objects. map possession (filter (λ x. x.owner == p) objects)) }
    {
        self.lists.chains.items_on(self.lists.numbers.of(p))
    }
}
