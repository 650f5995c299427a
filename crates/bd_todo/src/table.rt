//! The table: its room, its changes and what it tells.
#![tactic(auto, unfolding(crate::specs::Stands::work_room))]

ghost use Rattle.std.specs.Prelude.{Bool, true, false, List, ◌≡◌, ◌&&◌, ◌+◌, ◌≤◌, ◌==◌, [], count_by, nat_lt, not, filter, Some, OnOk, OnErr};
ghost use Rattle.std.specs.List.{list_any};
ghost use Rattle.bd_keys.specs.Tables as tables;
ghost use Rattle.bd_keys.specs.Tables.{AnswersBy};
ghost use Rattle.bd_space.specs.{declared.space.Work.{Work}, declared.space.WorkKind.{WorkKind}};
ghost use Rattle.bd_space.specs.Words as words;
ghost use Rattle.bd_space.specs.Todo as spec;
ghost use Rattle.bd_space.specs.Notices as notices;
ghost use Rattle.bd_todo.specs.Spots as spots;
ghost use Rattle.bd_todo.specs.FoundCounts as counts;

use crate::heads::Heads;
use crate::queues::{Queues, count_at, front};
use crate::register::Register;
use crate::spots::{Sought, Spot, is_sought, sought_notice};
use crate::work::{is_item, keeps_from_calling};
use bd_chains::{Lists, Numbering};
use bd_space::{Identity, Origin, TodoList, Work, WorkKind};
use std::alloc::{AllocError, Global};

/// The work items of a driver: each is still to be read, on its list.
#[derive(Drop)]
pub struct WorkTable {
    pub(crate) queues: Queues,
    pub(crate) register: Register,
}

impl WorkTable {
    ghost use Rattle.bd_chains.specs.Rows.{drop_key};
    ghost use Rattle.bd_todo.specs.{QueuesStand.{work_at}, Stands.{WorksAre, RowsAre, Tells, Makes, work_room, keeps_list}};

    /// An empty table. Takes no memory.
    pub fn new(alloc: Global) -> WorkTable
        ensures { WorksAre result [] }
    {
        WorkTable {
            queues: Lists::new(alloc, Heads::new(alloc)),
            register: Register::new(alloc),
        }
    }

    /// Makes room for so many more. Fails for want of memory, and then changes nothing either.
    pub fn reserve(&mut self, more: usize) -> Result<(), AllocError>
        ensures stands { Makes self.old self.new (λ l. l) }
        ensures room { OnOk result (more ≤ work_room self.new) }
        ensures uses { work_room self.old ≤ work_room self.new }
        // Memory was asked for, or would have been past what there can be: there was no room.
        ensures grown { OnErr result (more ≤ work_room self.old → ⊥) }
    {
        self.queues.reserve(more)?;
        self.register.reserve(more)
    }

    // How many were made at this place.
    fn index_at(&self, place: u64) -> u64
        ensures { Tells self.now result (λ l. count_by (λ w. w.id.place == place) l) }
    {
        if place == self.register.last.place {
            self.register.count
        } else if self.register.last.place < place {
            0
        } else {
            count_at(&self.queues, place)
        }
    }

    // The first work item on a list goes, if there is one.
    fn pop(&mut self, list: TodoList) -> bool
        ensures stands { Makes self.old self.new (λ l. words.without_first (spec.is_on list) l) }
        ensures popped { Tells self.old result (λ l. spec.has_work_in l list) }
        ensures uses { work_room self.old ≤ work_room self.new }
    {
        match front(&self.queues, list) {
            Some(x) => {
                self.remove_at(x);
                true
            }
            None => false,
        }
    }

    // Whether a work item that is called so is in the slot.
    fn is_called_at(&self, x: usize, id: Origin) -> bool
        ensures { result ≡ words.is_some_and (work_at self.now.queues x) (λ w. words.same_origin w.id id) }
    {
        match self.queues.chains.get(x) {
            Some(work) => work.id == id,
            None => false,
        }
    }

    // The work item in a slot goes, if there is one.
    #[inline(always)]
    fn remove_at(&mut self, x: usize)
        ensures rows { tables.Makes (RowsAre self.old) (RowsAre self.new) (λ rs. drop_key x rs) }
        ensures uses { work_room self.old ≤ work_room self.new }
    {
        if let Some(work) = self.queues.chains.remove(x) {
            self.register.remove(work);
        }
    }

    // Only the work items for which `f` answers `true` stay. Goes over all slots.
    fn retain<F: Fn(Work) -> bool>(&mut self, f: F)
        requires { F.IsAlwaysCallable f }
        ensures stands { (p : Work → Bool) → AnswersBy (λ w b. F.post f w b) p → Makes self.old self.new (λ l. filter p l) }
        ensures uses { work_room self.old ≤ work_room self.new }
    {
        for x in 0..self.queues.chains.slots() {
            if let Some(work) = self.queues.chains.get(x) {
                if !f(work) {
                    self.remove_at(x);
                }
            }
        }
    }

    // A work item goes: from the front of its list, if it is there and surely no other is called the same.
    fn remove_item(&mut self, item: &Work)
        ensures stands { Makes self.old self.new (λ l. filter (λ w. not (spec.is_item w item.now)) l) }
        ensures uses { work_room self.old ≤ work_room self.new }
    {
        match front(&self.queues, item.list) {
            Some(x) if self.register.rises && self.is_called_at(x, item.id) => self.remove_at(x),
            _ => self.retain(|w| !is_item(item, &w)),
        }
    }

    /// A work item comes onto a list, made at this place. Takes no memory.
    pub fn push(&mut self, place: u64, list: TodoList, kind: WorkKind)
        requires { 1 ≤ work_room self.old }
        ensures stands { Makes self.old self.new (λ l. spec.with_work place l list kind) }
        ensures uses { work_room self.old ≤ work_room self.new + 1 }
    {
        let index = self.index_at(place);
        let work = Work {
            id: Origin { place, index },
            list,
            kind,
        };
        let slot = self.queues.push(list, work, keeps_from_calling(kind));
        self.register.add(work, slot);
    }

    /// Whether a call, a reply or a verdict is on a list.
    pub fn keeps_from_calling(&self, list: TodoList) -> bool
        ensures { Tells self.now result (λ l. list_any (λ w. spec.is_on list w && spec.keeps_from_calling w.kind) l) }
    {
        self.queues.chains.has_counted(self.queues.numbers.of(list))
    }

    /// Whether the notice of an object is on any list.
    pub fn has_notice(&self, object: Identity) -> bool
        ensures { Tells self.now result (λ l. notices.has_notice_in l object) }
    {
        self.register.spots.has(sought_notice(object))
    }

    /// Whether the call of a buffer is on any list.
    pub fn has_call(&self, buffer: u64) -> bool
        ensures { Tells self.now result (λ l. list_any (λ w. spec.is_call buffer w.kind) l) }
    {
        self.register.spots.has(Sought::Call { buffer })
    }

    /// These work items were read: they go.
    pub fn remove_taken(&mut self, taken: &[Work])
        ensures stands { Makes self.old self.new (λ l. spec.without_taken taken.now l) }
        ensures uses { work_room self.old ≤ work_room self.new }
    {
        for item in taken {
            self.remove_item(item);
        }
    }

    // A work item that is looked up so is in the slot.
    fn is_sought_at(&self, x: usize, key: Sought) -> bool
        ensures { result ≡ words.is_some_and (work_at self.now.queues x) (λ w. spots.is_sought key w.kind) }
    {
        match self.queues.chains.get(x) {
            Some(work) => is_sought(key, work.kind),
            None => false,
        }
    }

    // What is looked up so goes, so many of which the latest was put there: without a walk, where it is one.
    #[inline(always)]
    fn withdraw_from(&mut self, key: Sought, spot: Spot)
        requires { spot.count ≡ counts.found_at self.old.register.spots key }
        ensures stands { Makes self.old self.new (λ l. filter (λ w. not (spots.is_sought key w.kind)) l) }
        ensures uses { work_room self.old ≤ work_room self.new }
    {
        if spot.count == 1 && self.is_sought_at(spot.slot, key) {
            self.remove_at(spot.slot);
        } else {
            self.retain(|w| !is_sought(key, w.kind));
        }
    }

    // What is looked up so goes, from whatever list. Answers whether anything was.
    #[inline(always)]
    fn withdraw(&mut self, key: Sought) -> bool
        ensures had { result ≡ nat_lt 0 (counts.found_at self.old.register.spots key) }
        ensures same { result ≡ false → self.new ≡ self.old }
        ensures stands { Makes self.old self.new (λ l. filter (λ w. not (spots.is_sought key w.kind)) l) }
        ensures uses { work_room self.old ≤ work_room self.new }
    {
        match self.register.spots.spot(key) {
            Some(spot) if spot.count > 0 => {
                self.withdraw_from(key, spot);
                true
            }
            _ => false,
        }
    }

    /// The notice of an object goes. Answers whether there was one.
    pub fn withdraw_notice(&mut self, object: Identity) -> bool
        ensures had { Tells self.old result (λ l. notices.has_notice_in l object) }
        ensures same { result ≡ false → self.new ≡ self.old }
        ensures stands { Makes self.old self.new (λ l. filter (λ w. not (spec.is_notice object w.kind)) l) }
        ensures uses { work_room self.old ≤ work_room self.new }
    {
        self.withdraw(sought_notice(object))
    }

    /// The work item of a death notification goes.
    pub fn withdraw_death(&mut self, made: u64)
        ensures stands { Makes self.old self.new (λ l. filter (λ w. not (words.is_some_and (spec.death_of w.kind) (λ n. n == made))) l) }
        ensures uses { work_room self.old ≤ work_room self.new }
    {
        let _had = self.withdraw(Sought::Death { made });
    }

    /// Only the work items of the kinds for which `f` answers `true` stay.
    pub fn retain_kinds<F: Fn(WorkKind) -> bool>(&mut self, f: F)
        requires { F.IsAlwaysCallable f }
        ensures stands { (p : WorkKind → Bool) → AnswersBy (λ kind b. F.post f kind b) p
            → Makes self.old self.new (λ l. filter (λ w. p w.kind) l) }
        ensures uses { work_room self.old ≤ work_room self.new }
    {
        self.retain(|w| f(w.kind));
    }

    // All work items on a list go.
    fn pop_all(&mut self, list: TodoList)
        ensures stands { Makes self.old self.new (λ l. filter (λ w. not (spec.is_on list w)) l) }
        ensures uses { work_room self.old ≤ work_room self.new }
    {
        for _ in 0..self.queues.chains.len() {
            if !self.pop(list) {
                return;
            }
        }
    }

    /// A list is emptied.
    pub fn clear_list(&mut self, list: TodoList)
        ensures stands { Makes self.old self.new (λ l. filter (λ w. not (spec.is_on list w)) l) }
        // What has gone leaves nothing behind.
        ensures gone { (l : List Work) → WorksAre self.old l → keeps_list self.new list ≡ false }
        ensures uses { work_room self.old ≤ work_room self.new }
    {
        self.pop_all(list);
        // A list on which nothing is needs no number.
        self.queues.give_back(list);
    }
}
