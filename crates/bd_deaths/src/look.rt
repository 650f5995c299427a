//! Looks by the step that made a notification, by process and object, and by process and cookie.

ghost use Rattle.std.specs.{Prelude.{◌≡◌, find, None, List}, HashMap.{get, get_by}};
ghost use Rattle.slab.specs.Slab as slab;
ghost use Rattle.bd_space.specs.declared.space.DeathNotification as declared;
ghost use Rattle.bd_space.specs.Deaths as deaths_of;
ghost use Rattle.bd_deaths.specs.Entries as spec;

use crate::kept::Mark;
use crate::key::NameKey;
use crate::sharers::{is_told, sharers_at};
use crate::table::DeathTable;
use bd_chains::{Items, Numbering};
use bd_keys::WordKey;
use bd_space::{DeathNotification, Identity};

// Whether the notification is told, of the process, with the cookie.
fn is_told_with(p: u64, cookie: u64, x: &DeathNotification) -> bool
    ensures { result ≡ deaths_of.is_told_with p cookie x.now }
{
    is_told(x.phase) && x.process == p && x.cookie == cookie
}

impl DeathTable {
    ghost use Rattle.std.specs.Prelude.{option_map};
    ghost use Rattle.bd_deaths.specs.Stands.{DeathsAre, Tells};

    // What is kept in this slot.
    pub(crate) fn in_slot(&self, at: usize) -> Option<DeathNotification>
        ensures { result ≡ option_map (λ k. k.death) (spec.kept_at self.now at) }
    {
        match self.slots.get(at) {
            Some(kept) => Some(kept.death),
            None => None,
        }
    }

    /// The notification of this place.
    pub fn death(&self, made: u64) -> Option<DeathNotification>
        ensures { Tells self.now result (λ l. find (deaths_of.is_notification made) l) }
    {
        self.in_slot(self.place(made)?)
    }

    // Where the uncleared notification on the process's name of the object is kept.
    fn slot_on(&self, p: u64, object: Identity) -> Option<usize>
        ensures { result ≡ spec.name_at self.now (record { process = p; object = object }) }
    {
        // Mostly there is none at all.
        if self.names.is_empty() {
            return None;
        }
        self.names.get(&NameKey { process: p, object }).copied()
    }

    /// The uncleared notification on the process's name of the object.
    pub fn uncleared(&self, p: u64, object: Identity) -> Option<DeathNotification>
        ensures { Tells self.now result (λ l. deaths_of.uncleared_in l p object) }
    {
        self.in_slot(self.slot_on(p, object)?)
    }

    // Whether a notification of the process is kept in this slot that is told, with the cookie.
    fn is_told_at(&self, p: u64, cookie: u64, at: usize) -> bool
        ensures { result ≡ spec.is_told_in self.now p cookie at }
    {
        match self.slots.get(at) {
            Some(kept) => is_told_with(p, cookie, &kept.death),
            None => false,
        }
    }

    // In which slot the first of these is that is told, with the cookie.
    fn first_told(&self, p: u64, cookie: u64, marks: Items<'_, Mark>) -> Option<usize>
        ensures { result ≡ spec.first_at (spec.is_told_in self.now p cookie) marks.entry }
    {
        for m in marks {
            if self.is_told_at(p, cookie, m.at) {
                return Some(m.at);
            }
        }
        None
    }

    // In which slot the least told notification of the process with this cookie is. Mostly it is the only one.
    fn slot_told(&self, p: u64, cookie: u64) -> Option<usize>
        ensures { (l : List declared.DeathNotification) → (h : DeathsAre self.now l) → result
            ≡ option_map spec.at_of (find (λ e. deaths_of.is_told_with p cookie (spec.death_of e)) h.entries) }
    {
        let key = WordKey {
            process: p,
            word: cookie,
        };
        let sharers = sharers_at(&self.cookies, key);
        if sharers.told == 0 {
            return None;
        }
        if sharers.told == 1 && self.is_told_at(p, cookie, sharers.latest) {
            return Some(sharers.latest);
        }
        let marks = self.processes.chains.items_on(self.processes.numbers.of(p));
        self.first_told(p, cookie, marks)
    }

    /// The least told notification of the process with this cookie.
    pub fn told(&self, p: u64, cookie: u64) -> Option<DeathNotification>
        ensures { Tells self.now result (λ l. find (deaths_of.is_told_with p cookie) l) }
    {
        self.in_slot(self.slot_told(p, cookie)?)
    }
}
