//! What goes when a process ends.

ghost use Rattle.std.specs.{List.{list_any}, Prelude.{List, None, OnErr, OnOk, Option, Some, false, filter, find, map, not, option_map, true, ℕ, ◌&&◌, ◌++◌, ◌||◌, ◌≡◌, ◌≤◌}};
ghost use Rattle.bd_space.specs.{Words.{without_first}, declared.space.{Object.{Object}, Reference.{Reference}}};
ghost use Rattle.bd_records.specs.{Counted.{CountsAre}, Ending.{LiesIn, is_named_at, without_own}, Objects.{object_room, row_at}, Records.{is_owner}};
ghost use Rattle.bd_space.specs.References as refer;
ghost use Rattle.bd_space.specs.declared.step.Identity as identity;
ghost use Rattle.bd_records.specs.declared.row.NameRow as rows;

use crate::keys::next_above;
use crate::listing::OwnedObjects;
use crate::objects::Objects;
use crate::records::Records;
use crate::turning::turn;

// The references go that owners have to these objects of theirs.
fn remove_of_each(objects: &mut Objects, owned: OwnedObjects<'_>)
    ensures counts { (N : ℕ → identity.Identity → Option rows.NameRow) (xs : List Object) (l : List Reference)
        → CountsAre (row_at objects.old) N xs l → CountsAre (row_at objects.new) N xs (without_own owned.entry l) }
    ensures objects { (o : identity.Identity) → option_map (λ w. w.object) (row_at objects.new o)
        ≡ option_map (λ w. w.object) (row_at objects.old o) }
    ensures owners { (p : ℕ) (o : identity.Identity) → is_owner p (row_at objects.new o) ≡ is_owner p (row_at objects.old o) }
    ensures uses { object_room objects.old ≤ object_room objects.new }
{
    for o in owned {
        objects.remove_of_owner(o);
    }
}

impl Records {
    ghost use Rattle.bd_records.specs.{Buffers.{list_of, window_list}, Names.{named_by}, NamesAre.{KeepsNames}, Records.{Makes, RecordsAre, Tells}, Room.{Uses}, Since.{KeepsSettled}};

    /// The references go that the process has as owner of its objects: what it is to acknowledge, and the context manager's.
    pub fn remove_of_owned(&mut self, p: u64)
        ensures stands { (objects : List Object) (l : List Reference) → RecordsAre self.old objects l → RecordsAre self.new objects
            (filter (λ r. not (refer.owned_in objects p r.object && refer.is_of_owner r.holder)) l) }
        ensures settled { KeepsSettled self.old self.new }
        ensures uses { Uses self.old self.new 0 0 0 }
        ensures held { self.new.held ≡ self.old.held }
    {
        remove_of_each(&mut self.objects, self.owned.listed(p));
    }

    // Drops the oldest reference in the process's window, if one lies in it.
    fn pop_in_window(&mut self, p: u64) -> bool
        ensures stands { Makes self.old self.new (λ l. without_first (λ r. refer.is_in_window p r.holder) l) }
        ensures any { Tells self.old result (λ l. list_any (λ r. refer.is_in_window p r.holder) l) }
        ensures names { KeepsNames self.old.names self.new.names }
        ensures settled { KeepsSettled self.old self.new }
        ensures uses { Uses self.old self.new 0 0 0 }
        ensures gone { (objects : List Object) (l : List Reference) (r : Reference) (b : ℕ) → RecordsAre self.old objects l
            → find (λ x. refer.is_in_window p x.holder) l ≡ Some r → refer.buffer_of_holder r.holder ≡ Some b
            → list_any (λ x. refer.is_of_buffer b x.holder) (without_first (λ x. refer.is_in_window p x.holder) l) ≡ false
            → list_of self.new.held b ≡ None }
        ensures fewer { (b : ℕ) → list_of self.old.held b ≡ None → list_of self.new.held b ≡ None }
    {
        match self.held.pop_in_window(p) {
            Some(r) => {
                turn(&mut self.objects, &mut self.names, r, false);
                // Its buffer goes with the window, and nobody gives that buffer's list back by itself.
                self.held.close_of(r.holder);
                true
            }
            None => false,
        }
    }

    // Drops one after the other, until none lies in the process's window.
    fn remove_each_in_window(&mut self, p: u64)
        ensures stands { Makes self.old self.new (λ l. filter (λ r. not (refer.is_in_window p r.holder)) l) }
        ensures names { KeepsNames self.old.names self.new.names }
        ensures settled { KeepsSettled self.old self.new }
        ensures uses { Uses self.old self.new 0 0 0 }
        // The list of each of its buffers has gone.
        ensures gone { (objects : List Object) (l : List Reference) (b : ℕ) → RecordsAre self.old objects l → LiesIn p b l
            → list_of self.new.held b ≡ None }
    {
        for _ in 0..self.held.len() {
            if !self.pop_in_window(p) {
                return;
            }
        }
    }

    // Drops what the process asked for by this number.
    fn drop_asked_at(&mut self, p: u64, n: u32)
        ensures stands { Makes self.old self.new
            (λ l. filter (λ r. not (is_named_at (named_by self.old.names p n) r.object && refer.is_asked_by p r.holder)) l) }
        ensures named { (q m : ℕ) → named_by self.new.names q m ≡ named_by self.old.names q m }
        ensures settled { KeepsSettled self.old self.new }
        ensures uses { Uses self.old self.new 0 0 0 }
    {
        if let Some(o) = self.names.named(p, n) {
            self.drop_all_asked(p, o);
        }
    }

    // Drops all that the process asked for, name by name.
    fn drop_each_asked(&mut self, p: u64)
        ensures stands { Makes self.old self.new (λ l. filter (λ r. not (refer.is_asked_by p r.holder)) l) }
        ensures settled { KeepsSettled self.old self.new }
        ensures uses { Uses self.old self.new 0 0 0 }
    {
        let mut next = self.names.rows.next(p, 0);
        while let Some(n) = next {
            self.drop_asked_at(p, n);
            next = next_above(&self.names.rows, p, n);
        }
    }

    /// The references go that go with the process: it asked for them, or they lie in its window.
    pub fn remove_with_process(&mut self, p: u64)
        ensures stands { Makes self.old self.new
            (λ l. filter (λ r. not (refer.is_asked_by p r.holder || refer.is_in_window p r.holder)) l) }
        ensures settled { KeepsSettled self.old self.new }
        ensures uses { Uses self.old self.new 0 0 0 }
        ensures gone { (objects : List Object) (l : List Reference) → RecordsAre self.old objects l → window_list self.new.held p ≡ None }
        // Nor is the list kept of a buffer in its window.
        ensures buffers { (objects : List Object) (l : List Reference) (b : ℕ) → RecordsAre self.old objects l → LiesIn p b l
            → list_of self.new.held b ≡ None }
    {
        self.drop_each_asked(p);
        self.remove_each_in_window(p);
        self.held.close_window(p);
    }
}
