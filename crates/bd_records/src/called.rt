//! Names that come and go, in the records that count what carries them.

ghost use Rattle.std.specs.{List.{list_any}, Prelude.{List, None, OnErr, OnOk, Some, false, filter, is_some, not, true, ℕ, ◌==◌, ◌≡◌, ◌≤◌}};
ghost use Rattle.bd_numbered.specs.Numbered.{slot_at};
ghost use Rattle.bd_space.specs.declared.space.{Object.{Object}, Reference.{Reference}};
ghost use Rattle.bd_records.specs.{Numbers.{IsFull, with_number}, Sound.{has_object}};
ghost use Rattle.bd_keys.specs.Tables as tables;
ghost use Rattle.bd_space.specs.declared.space.Name as declared;
ghost use Rattle.bd_space.specs.References as refer;
ghost use Rattle.bd_space.specs.Names as names_of;

use crate::numbers::NumbersFull;
use crate::records::Records;
use crate::row::NameRow;
use bd_space::{Identity, Name};
use std::alloc::AllocError;

impl Records {
    ghost use Rattle.bd_records.specs.{Names.{name_at}, NamesAre.{NamesAre}, Records.{Makes, RecordsAre, reference_room}, Room.{Uses, UsesNothingBut}, Since.{Settled, Since, given_room}};

    /// Makes room for more names of the process, and changes nothing besides.
    pub fn reserve_names(&mut self, p: u64, more: usize) -> Result<(), AllocError>
        ensures stands { Makes self.old self.new (λ l. l) }
        ensures names { (base names : List declared.Name) → Since self.old base names → Since self.new base names }
        ensures uses { Uses self.old self.new 0 0 0 }
        ensures room { OnOk result (more ≤ given_room self.new p) }
        ensures grown { OnErr result (more ≤ given_room self.old p → ⊥) }
    {
        self.names.reserve(p, more)?;
        self.given.reserve(more)
    }

    /// Sees to it that the process has a name for the object, which isn't its own: a new one gets the least free number, from 0 or
    /// from 1, and can be taken back.
    pub fn give_name(&mut self, from_zero: bool, p: u64, o: Identity) -> Result<(), NumbersFull>
        requires { 1 ≤ given_room self.old p }
        ensures stands { OnOk result ((objects : List Object) (l : List Reference) → refer.owned_in objects p o ≡ false
            → RecordsAre self.old objects l → RecordsAre self.new objects l) }
        ensures names { OnOk result ((base names : List declared.Name) → Since self.old base names
            → Since self.new base (with_number from_zero p names o)) }
        ensures named { OnOk result (is_some (name_at self.new.names p o) ≡ true) }
        ensures err { OnErr result (self.new ≡ self.old) }
        ensures full { OnErr result ((l : List declared.Name) → NamesAre self.old.names l → IsFull from_zero p l o) }
        ensures room { reference_room self.new ≡ reference_room self.old }
        ensures uses { Uses self.old self.new 0 0 1 }
    {
        if let Some(_) = self.names.number_of(p, o) {
            return Ok(());
        }
        match self.names.give(from_zero, p, o) {
            Ok(n) => {
                self.given.push_reserved(Name {
                    process: p,
                    number: n,
                    object: o,
                });
                Ok(())
            }
            Err(full) => Err(full),
        }
    }

    /// Settles the names: those given so far stay.
    pub fn settle_names(&mut self)
        ensures stands { Makes self.old self.new (λ l. l) }
        ensures names { (base names : List declared.Name) → Since self.old base names → Since self.new names names }
        ensures uses { Uses self.old self.new 0 0 0 }
    {
        self.given.clear();
    }

    /// Takes back all names that were given since they were settled.
    pub fn roll_back_names(&mut self)
        ensures stands { (base names : List declared.Name) → Since self.old base names → Makes self.old self.new (λ l. l) }
        ensures names { (base names : List declared.Name) → Since self.old base names → Since self.new base base }
        ensures uses { Uses self.old self.new 0 0 0 }
    {
        while let Some(m) = self.given.pop() {
            self.names.remove(m.process, m.object);
        }
    }

    /// All names of the process go, and its row with them: no reference gives one.
    pub fn remove_process_names(&mut self, p: u64)
        ensures stands { (objects : List Object) (l : List Reference) → list_any (λ r. refer.gives_name_to p r.holder) l ≡ false
            → RecordsAre self.old objects l → RecordsAre self.new objects l }
        ensures names { (names : List declared.Name) → Settled self.old names → Settled self.new (filter (λ m. not (m.process == p)) names) }
        ensures gone { slot_at self.new.names.rows p ≡ None }
        ensures held { self.new.held ≡ self.old.held }
        ensures uses { UsesNothingBut p self.old self.new }
    {
        self.names.remove_process(p);
    }

    // Whether the process is to have its name of the object, which has this record: a reference gives it, and the object is another's.
    fn is_given(&self, p: u64, o: Identity, w: NameRow) -> bool
        ensures { name_at self.now.names p o ≡ Some w → (objects : List Object) (l : List Reference) → RecordsAre self.now objects l
            → result ≡ names_of.is_named_in objects l p o }
    {
        if w.is_blank() {
            return false;
        }
        !self.owns(p, o)
    }

    /// The process's name of the object goes, if it has one and is to have none: the object is its own, or no reference gives it the
    /// name. By one look.
    pub fn remove_unused_name(&mut self, p: u64, o: Identity)
        ensures stands { Makes self.old self.new (λ l. l) }
        ensures stays { (objects : List Object) (l : List Reference) (names : List declared.Name) → RecordsAre self.old objects l
            → names_of.is_named_in objects l p o ≡ true → Settled self.old names → Settled self.new names }
        ensures goes { (objects : List Object) (l : List Reference) (names : List declared.Name) → RecordsAre self.old objects l
            → names_of.is_named_in objects l p o ≡ false → Settled self.old names → Settled self.new (filter (λ m. not (has_object p o m)) names) }
        ensures uses { Uses self.old self.new 0 0 0 }
    {
        if let Some(s) = self.names.spot_of(p, o) {
            if !self.is_given(p, o, s.row) {
                self.names.remove_at(p, o, s.number);
            }
        }
    }
}
