//! The descriptors of parcels that are on their way, in so many lists that none is long.

ghost use Rattle.std.specs.Prelude.{ℕ, ◌≡◌, ◌+◌, ◌%◌, [], length, Some, None, OnOk, OnErr, IfOk, IfErr, IfSome, IfNone, MatchOption, option_map, is_some, true};
ghost use Rattle.bd_tickets.specs.Held.{count_of, descriptors_of};
ghost use Rattle.bd_tickets.specs.Shelves.{held_on, on_way, parcels_at, ArePlaced, IsFull};

use crate::tickets::Tickets;
use std::alloc::{AllocError, Global};

// So many lists.
const LISTS: u64 = 1024;

/// The parcels with descriptors that are on their way, each on one of many lists, by its step: so that a look goes past few others.
#[derive(Drop)]
pub struct Shelves {
    pub(crate) lists: Vec<Tickets>,
    // There is a list for each step, and its parcel is on that.
    ghost many: { length lists.items ≡ 1024 },
    ghost placed: { ArePlaced lists.items },
}

// On which list a step's parcel is.
fn list_of(step: u64) -> usize
    ensures { result ≡ step % 1024 }
{
    (step % LISTS) as usize
}

fn empty_lists(alloc: Global) -> Result<Vec<Tickets>, AllocError>
    ensures held { IfOk result (λ v. (d : ℕ) → held_on v.items d ≡ 0) }
    ensures none { IfOk result (λ v. (i : ℕ) → parcels_at v.items i ≡ []) }
    ensures many { IfOk result (λ v. length v.items ≡ 1024) }
{
    let mut lists = Vec::with_capacity(alloc, LISTS as usize)?;
    for made in 0..LISTS {
        lists.push(Tickets::new(alloc))?;
    }
    Ok(lists)
}

impl Shelves {
    /// None is on its way. Errors: memory was refused.
    pub fn new(alloc: Global) -> Result<Shelves, AllocError>
        ensures held { IfOk result (λ t. (d : ℕ) → held_on t.lists.items d ≡ 0) }
        ensures none { IfOk result (λ t. (s : ℕ) → on_way t.lists.items s ≡ None) }
    {
        Ok(Shelves {
            lists: empty_lists(alloc)?,
        })
    }

    /// The step that sends some parcel which is on its way.
    pub fn some_step(&self) -> Option<u64>
        ensures some { IfSome result (λ s. is_some (on_way self.now.lists.items s) ≡ true) }
        ensures none { IfNone result ((d : ℕ) → held_on self.now.lists.items d ≡ 0) }
    {
        for index in 0..self.lists.len() {
            if let Some(step) = self.lists[index].some_step() {
                return Some(step);
            }
        }
        None
    }

    /// The descriptors of the parcel that a step sends.
    pub fn get(&self, step: u64) -> Option<&[u32]>
        ensures { option_map (λ ds. ds.now) result ≡ on_way self.now.lists.items step }
    {
        match self.lists.get(list_of(step)) {
            Some(tickets) => tickets.get(step),
            None => None,
        }
    }

    /// A parcel goes on its way. Errors: memory was refused; its descriptors come back, and all others are as before.
    pub fn put(&mut self, step: u64, descriptors: Vec<u32>) -> Result<(), Vec<u32>>
        ensures ok { OnOk result ((d : ℕ) → held_on self.new.lists.items d ≡ held_on self.old.lists.items d + count_of d descriptors.items) }
        ensures found { OnOk result (on_way self.old.lists.items step ≡ None
            → on_way self.new.lists.items step ≡ Some descriptors.items) }
        ensures others { (s : ℕ) → (s ≡ step → ⊥) → on_way self.new.lists.items s ≡ on_way self.old.lists.items s }
        ensures back { IfErr result (λ ds. ds.items ≡ descriptors.items) }
        ensures err { OnErr result ((d : ℕ) → held_on self.new.lists.items d ≡ held_on self.old.lists.items d) }
        ensures same { OnErr result (on_way self.new.lists.items step ≡ on_way self.old.lists.items step) }
        // Memory was asked for: there was no room on its list.
        ensures grown { OnErr result (IsFull self.old.lists.items step) }
    {
        match self.lists.get_mut(list_of(step)) {
            Some(tickets) => tickets.put(step, descriptors),
            None => Err(descriptors),
        }
    }

    /// A parcel has come to its receiver, or ends on its way: its descriptors are the caller's, to be sent on or closed.
    pub fn take(&mut self, step: u64) -> Option<Vec<u32>>
        ensures which { option_map (λ ds. ds.items) result ≡ on_way self.old.lists.items step }
        ensures held { MatchOption result ((d : ℕ) → held_on self.new.lists.items d ≡ held_on self.old.lists.items d)
            (λ ds. (d : ℕ) → held_on self.old.lists.items d ≡ held_on self.new.lists.items d + count_of d ds.items) }
        ensures others { (s : ℕ) → (s ≡ step → ⊥) → on_way self.new.lists.items s ≡ on_way self.old.lists.items s }
    {
        match self.lists.get_mut(list_of(step)) {
            Some(tickets) => tickets.take(step),
            None => None,
        }
    }
}
