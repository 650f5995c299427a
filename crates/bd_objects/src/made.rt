//! The objects that a parcel makes.

ghost use Rattle.std.specs.{Prelude.{◌≡◌, ◌==◌, ◌≤◌, ◌<◌, ◌&&◌, ◌||◌, ◌+◌, ◌-◌, ◌++◌, ◌∷◌, [], true, false, Some, nat_lt, take, length, vec_len, slice_index_or, All, IfSome, MatchOption, OnOk, OnErr}, Option.{option_or}};
ghost use Rattle.bd_space.specs.References as refer;
ghost use Rattle.bd_keys.specs.{Look.{look, word_room}, declared.key.WordKey.{WordKey}};
ghost use Rattle.bd_space.specs.declared.space.Object as declared;
ghost use Rattle.bd_records.specs.ObjectKeys as keys;
ghost use Rattle.bd_objects.specs.Later as after;

use bd_keys::{WordKey, WordMap};
use bd_space::Object;
use std::alloc::{AllocError, Global};

/// So many need no map, whatever their ptrs are. Most parcels make no more, and then take no memory for one.
const FEW: usize = 8;

/// The objects that a parcel makes, in their order. However many there are, the one with a ptr is soon found.
#[derive(Drop)]
pub struct Made {
    objects: Vec<Object>,
    // Those after the first ones, by owner and ptr.
    later: WordMap<Object>,
    // So many come first: a few, or more whose ptrs rise.
    first: usize,
    // Whether the ptrs of the first ones rise: then each is found by halves.
    rising: bool,
    // None has a ptr above this one: where objects lie one behind the other, what is new needs no look.
    highest: u64,
    ghost found: { after.Finds first objects.items later },
    ghost within: { first ≤ length objects.items },
    ghost few: { length objects.items ≤ after.few → first ≡ length objects.items },
    ghost rises: { rising ≡ true → after.IsRising (take first objects.items) },
    ghost not_higher: { All (λ x. x.ptr ≤ highest) objects.items },
}

fn key_of(x: &Object) -> WordKey
    ensures { result ≡ after.key_of x.now }
{
    WordKey {
        process: x.owner,
        word: x.ptr,
    }
}

/// The first of them, so many.
fn first_of(objects: &[Object], n: usize) -> &[Object]
    requires { n ≤ length objects.now }
    ensures { result.now ≡ take n objects.now }
{
    &objects[..n]
}

/// Where the one with this ptr is, of objects whose ptrs rise. Found by halves.
fn index_of(objects: &[Object], ptr: u64) -> Option<usize>
    ensures within { IfSome result (λ i. i < length objects.now) }
    ensures found { after.IsRising objects.now → MatchOption result
        (All (λ x. (x.ptr == ptr) ≡ false) objects.now)
        (λ i. (d : declared.Object) → (slice_index_or objects.now i d).ptr ≡ ptr) }
{
    objects.binary_search_by_key(&ptr, |x| x.ptr).ok()
}

/// The object, if it is the process's own.
fn own_of(x: Object, p: u64) -> Option<Object>
    ensures { result ≡ keys.kept (λ y. y.owner == p) (Some x) }
{
    if x.owner == p { Some(x) } else { None }
}

/// The process's own object with this ptr, of objects whose ptrs rise.
fn own_by_halves(objects: &[Object], p: u64, ptr: u64) -> Option<Object>
    ensures { after.IsRising objects.now → result ≡ refer.own_in objects.now p ptr }
{
    let i = index_of(objects, ptr)?;
    own_of(objects[i], p)
}

/// The process's own object with this ptr.
fn own_in(objects: &[Object], p: u64, ptr: u64) -> Option<Object>
    ensures { result ≡ refer.own_in objects.now p ptr }
{
    // None is copied that isn't it.
    for x in objects {
        if x.ptr == ptr && x.owner == p {
            return Some(*x);
        }
    }
    None
}

/// Notes the object, unless there is an earlier one with its owner and ptr.
fn note(later: &mut WordMap<Object>, x: Object)
    requires { 1 ≤ word_room later.old }
    ensures found { (k : WordKey) → look later.new k ≡ option_or (look later.old k) (after.own_at (x ∷ []) k) }
    ensures room { word_room later.old ≤ word_room later.new + 1 }
{
    later.fill(key_of(&x), x);
}

/// How many of those that are yet to come will come after the first few.
fn later_of(there: usize, more: usize) -> usize
    ensures { result ≡ more - (after.few - there) }
{
    more.saturating_sub(FEW.saturating_sub(there))
}

impl Made {
    ghost use Rattle.bd_objects.specs.Made.{made_items, made_room};

    /// None. Takes no memory.
    pub fn new(alloc: Global) -> Made
        ensures { made_items result ≡ [] }
    {
        Made {
            objects: Vec::new(alloc),
            later: WordMap::new(alloc),
            first: 0,
            rising: true,
            highest: 0,
        }
    }

    /// Makes room for so many more. Changes nothing else.
    #[tactic(auto, unfolding(crate::specs::Made::made_room))]
    pub fn reserve(&mut self, more: usize) -> Result<(), AllocError>
        ensures kept { made_items self.new ≡ made_items self.old }
        ensures uses { made_room self.old ≤ made_room self.new }
        ensures room { OnOk result (more ≤ made_room self.new) }
        // Memory was asked for: there was no room.
        ensures grown { OnErr result (more ≤ made_room self.old → ⊥) }
    {
        self.objects.reserve(more)?;
        self.later.reserve(later_of(self.objects.len(), more))
    }

    // Whether the ptrs of all of them rise, and on to this one.
    fn rises_to(&self, x: &Object) -> bool
        ensures { result ≡ (self.now.rising && (self.now.first == vec_len self.now.objects)
            && nat_lt self.now.highest x.now.ptr) }
    {
        self.rising && self.first == self.objects.len() && x.ptr > self.highest
    }

    // Whether the next one comes to the first ones, where the ptrs rise to it or not.
    fn is_next_first(&self, rises: bool) -> bool
        ensures { result ≡ (rises || nat_lt (vec_len self.now.objects) after.few) }
    {
        rises || self.objects.len() < FEW
    }

    /// Puts one more to them.
    #[tactic(auto, unfolding(crate::specs::Made::made_room))]
    pub fn push(&mut self, x: Object)
        requires { 1 ≤ made_room self.old }
        ensures made { made_items self.new ≡ made_items self.old ++ x ∷ [] }
        ensures uses { made_room self.old ≤ made_room self.new + 1 }
    {
        let rises = self.rises_to(&x);
        let first = self.is_next_first(rises);
        self.highest = self.highest.max(x.ptr);
        if first {
            self.first = self.objects.len() + 1;
            self.rising = rises;
        } else {
            note(&mut self.later, x);
        }
        self.objects.push_reserved(x);
    }

    // The process's own object with this ptr, of the first ones.
    fn own_first(&self, p: u64, ptr: u64) -> Option<Object>
        ensures { result ≡ refer.own_in (take self.now.first (made_items self.now)) p ptr }
    {
        let objects = first_of(self.as_slice(), self.first);
        if self.rising {
            own_by_halves(objects, p, ptr)
        } else {
            own_in(objects, p, ptr)
        }
    }

    /// The process's own object with this ptr.
    pub fn find_own(&self, p: u64, ptr: u64) -> Option<Object>
        ensures { result ≡ refer.own_in (made_items self.now) p ptr }
    {
        if ptr > self.highest {
            return None;
        }
        match self.own_first(p, ptr) {
            Some(x) => Some(x),
            None => self.later.get(WordKey {
                process: p,
                word: ptr,
            }),
        }
    }

    /// All of them.
    pub fn as_slice(&self) -> &[Object]
        ensures { result.now ≡ made_items self.now }
    {
        self.objects.as_slice()
    }

    /// All of them, when nothing more is to be looked for.
    pub fn into_objects(self) -> Vec<Object>
        ensures { result.items ≡ made_items self }
    {
        self.objects
    }
}
