//! The table: its room, its changes and what it tells.
#![tactic(auto, unfolding(crate::specs::Room::turn_room, crate::specs::Room::turn_count))]

ghost use Rattle.std.specs.Prelude.{List, ◌≡◌, ◌==◌, ◌≤◌, ◌++◌, ◌∷◌, [], false, not, filter, find, None, OnOk, OnErr};
ghost use Rattle.std.specs.{List.{list_any}, HashMap.{spare}};
ghost use Rattle.bd_keys.specs.Tables as tables;
ghost use Rattle.bd_space.specs.declared.space.Turn as declared;
ghost use Rattle.bd_space.specs.Words.{changed, same};
ghost use Rattle.bd_turns.specs.{Turn.{hand_turn}, Room.{Uses, turn_room}};

use crate::spot::{Mark, Spot, Spots};
use bd_chains::{Lists, Numbers};
use bd_space::{Identity, Turn};
use std::alloc::{AllocError, Global};

/// The one-way calls of a driver whose buffers live.
pub struct TurnTable {
    // Of each object, the oldest first.
    pub(crate) objects: Lists<Numbers<Identity>, Turn>,
    // In each process's window.
    pub(crate) windows: Lists<Numbers<u64>, Mark>,
    // By where they were made.
    pub(crate) spots: Spots,
    // The object whose call went last: of all objects' lists this one alone may be open with nothing on it.
    pub(crate) last: Identity,
}

impl Drop for TurnTable {
    fn drop(self) {
        let TurnTable {
            objects: _,
            windows: _,
            spots: _,
            last: _,
        } = self;
    }
}

impl TurnTable {
    ghost use Rattle.bd_chains.specs.Lists.{lists_room};
    ghost use Rattle.bd_chains.specs.Rows.{Row, values};
    ghost use Rattle.bd_turns.specs.Entries.{CallsShow, same_object, object_number, window_number};
    ghost use Rattle.bd_turns.specs.Stands.{TurnsAre, Tells, Makes};

    /// An empty table. Takes no memory.
    pub fn new(alloc: Global) -> TurnTable
        ensures { TurnsAre result [] }
    {
        TurnTable {
            objects: Lists::new(alloc, Numbers::new(alloc)),
            windows: Lists::new(alloc, Numbers::new(alloc)),
            spots: Spots::new(alloc),
            last: Identity { place: 0, index: 0 },
        }
    }

    /// Makes room for so many more. Fails for want of memory, and then changes nothing either.
    pub fn reserve(&mut self, more: usize) -> Result<(), AllocError>
        ensures stands { Makes self.old self.new (λ l. l) }
        ensures room { OnOk result (more ≤ turn_room self.new) }
        ensures uses { Uses self.old self.new 0 }
        // Memory was asked for, or would have been past what there can be: there was no room.
        ensures grown { OnErr result (more ≤ turn_room self.old → ⊥) }
    {
        self.objects.reserve(more)?;
        self.windows.reserve(more)?;
        self.spots.reserve(more)
    }

    /// A one-way call comes in, made where none of the others was. Takes no memory.
    pub fn push(&mut self, turn: Turn)
        requires { 1 ≤ turn_room self.old }
        ensures stands { (l : List declared.Turn) → list_any (λ t. t.made == turn.made) l ≡ false
            → TurnsAre self.old l → TurnsAre self.new (l ++ turn ∷ []) }
        ensures uses { Uses self.old self.new 1 }
    {
        let call = self.objects.push(turn.target, turn, false);
        let mark = Mark {
            made: turn.made,
            receiver: turn.receiver,
        };
        let mark = self.windows.push(turn.receiver, mark, false);
        self.spots.insert(turn.made, Spot { call, mark });
    }

    /// The oldest one-way call on an object.
    pub fn oldest_on(&self, object: Identity) -> Option<Turn>
        ensures { Tells self.now result (λ l. find (λ t. same t.target object) l) }
    {
        // Mostly there is none at all, which takes no look for the object's list.
        if self.objects.chains.len() == 0 {
            return None;
        }
        self.objects.front(object)
    }

    /// The one-way call made at this place is handed out, if there is one.
    pub fn hand_out(&mut self, made: u64)
        ensures stands { Makes self.old self.new (λ l. changed (λ t. t.made == made) hand_turn l) }
        ensures uses { Uses self.old self.new 0 }
    {
        if let Some(spot) = self.spots.spot(made) {
            if let Some(turn) = self.objects.chains.get(spot.call) {
                let turn = Turn {
                    handed: true,
                    ..turn
                };
                self.objects.chains.set(spot.call, turn);
            }
        }
    }

    // A call of this object went. If nothing is on its list now, that is closed when another object's call goes: mostly
    // the next to come is the same object's, and finds it open.
    fn leave(&mut self, object: Identity)
        ensures objects { tables.Makes (CallsShow self.old) (CallsShow self.new) (λ rs. rs) }
        ensures windows { self.new.windows ≡ self.old.windows }
        ensures spots { self.new.spots ≡ self.old.spots }
        ensures room { lists_room self.old.objects.chains (spare self.old.objects.numbers.all)
            ≤ lists_room self.new.objects.chains (spare self.new.objects.numbers.all) }
        ensures last { self.new.last ≡ object }
        // What has gone leaves nothing behind, but for the list of the last object.
        ensures gone { (rs : List (Row declared.Turn)) → CallsShow self.old rs → same_object self.old.last object ≡ false
            → list_any (λ t. same_object self.old.last t.target) (values rs) ≡ false → object_number self.new self.old.last ≡ None }
    {
        if self.last != object {
            self.objects.give_back(self.last);
            self.last = object;
        }
    }

    /// The one-way call made at this place goes, if there is one.
    pub fn remove(&mut self, made: u64)
        ensures stands { Makes self.old self.new (λ l. filter (λ t. not (t.made == made)) l) }
        ensures uses { Uses self.old self.new 0 }
    {
        if let Some(spot) = self.spots.remove(made) {
            let _mark = self.windows.chains.remove(spot.mark);
            if let Some(turn) = self.objects.chains.remove(spot.call) {
                self.leave(turn.target);
            }
        }
    }

    // One after the other goes, until there is none in the window.
    fn pop_received(&mut self, process: u64)
        ensures stands { Makes self.old self.new (λ l. filter (λ t. not (t.receiver == process)) l) }
        ensures uses { Uses self.old self.new 0 }
    {
        for _ in 0..self.windows.chains.len() {
            match self.windows.front(process) {
                Some(mark) => self.remove(mark.made),
                None => return,
            }
        }
    }

    /// The one-way calls in a process's window go.
    pub fn remove_received(&mut self, process: u64)
        ensures stands { Makes self.old self.new (λ l. filter (λ t. not (t.receiver == process)) l) }
        // What has gone leaves nothing behind.
        ensures gone { (l : List declared.Turn) → TurnsAre self.old l → window_number self.new process ≡ None }
        ensures uses { Uses self.old self.new 0 }
    {
        self.pop_received(process);
        self.windows.give_back(process);
    }
}
