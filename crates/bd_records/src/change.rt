//! Objects that come and go.

ghost use Rattle.std.specs.Prelude.{List, OnErr, OnOk, [], false, filter, length, map, not, ◌++◌, ◌==◌, ◌∷◌, ◌≡◌, ◌≤◌};
ghost use Rattle.bd_space.specs.{Words.{changed, same}, declared.space.{Object.{Object}, Reference.{Reference}}};
ghost use Rattle.bd_space.specs.References as refer;

use crate::count::Count;
use crate::owned::push_ids;
use crate::records::Records;
use crate::row::ObjectRow;
use bd_space as space;
use bd_space::Identity;
use std::alloc::AllocError;

impl Records {
    ghost use Rattle.bd_records.specs.{New.{AreNewIn, IsNewIn}, Records.{Makes, RecordsAre, new_room, reference_room}, Room.{Uses}, Since.{KeepsSettled}};

    /// Makes room for so many objects more. Changes nothing else.
    pub fn reserve_objects(&mut self, more: usize) -> Result<(), AllocError>
        ensures stands { Makes self.old self.new (λ l. l) }
        ensures names { self.new.names ≡ self.old.names }
        ensures settled { KeepsSettled self.old self.new }
        ensures uses { Uses self.old self.new 0 0 0 }
        ensures references { reference_room self.new ≡ reference_room self.old }
        ensures room { OnOk result (more ≤ new_room self.new) }
        ensures grown { OnErr result (more ≤ new_room self.old → ⊥) }
    {
        self.objects.reserve(more)?;
        self.owned.reserve(more)
    }

    /// The object that the process knows by this pointer as its own, if there is one.
    #[inline(always)]
    pub fn own_with_ptr(&self, p: u64, ptr: u64) -> Option<space::Object>
        ensures { (objects : List Object) (l : List Reference) → RecordsAre self.now objects l → result ≡ refer.own_in objects p ptr }
    {
        let o = self.owned.with_ptr(p, ptr)?;
        match self.objects.row_of(o) {
            Some(w) => Some(w.object),
            None => None,
        }
    }

    /// Whether the process owns the object.
    #[inline(always)]
    pub fn owns(&self, p: u64, o: Identity) -> bool
        ensures { (objects : List Object) (l : List Reference) → RecordsAre self.now objects l → result ≡ refer.owned_in objects p o }
    {
        match self.objects.row_of(o) {
            Some(w) => w.object.owner == p,
            None => false,
        }
    }

    /// Puts the objects that the process owns behind what is there, in the order in which they came. Fails for want of memory
    /// alone.
    pub fn owned_by(&self, p: u64, touched: &mut Vec<Identity>) -> Result<(), AllocError>
        ensures pushed { OnOk result ((objects : List Object) (l : List Reference) → RecordsAre self.now objects l
            → touched.new.items ≡ touched.old.items ++ map (λ x. x.id) (filter (λ x. x.owner == p) objects)) }
        // Memory was asked for: it owns an object.
        ensures grown { OnErr result ((objects : List Object) (l : List Reference) → RecordsAre self.now objects l
            → filter (λ x. x.owner == p) objects ≡ [] → ⊥) }
    {
        push_ids(self.owned.of(p), touched)
    }

    /// Takes in an object that is new: no other has its identity, and its owner has none with its pointer. Takes whether others
    /// come with it. Answers where its record is.
    pub fn add_object(&mut self, x: space::Object, among: bool) -> usize
        requires { 1 ≤ new_room self.old }
        ensures stands { (objects : List Object) (l : List Reference) → IsNewIn objects x
            → RecordsAre self.old objects l → RecordsAre self.new (objects ++ x ∷ []) l }
        ensures names { self.new.names ≡ self.old.names }
        ensures settled { KeepsSettled self.old self.new }
        ensures uses { Uses self.old self.new 1 0 0 }
    {
        self.owned.push(&x, among);
        self.objects.insert(ObjectRow {
            object: x,
            total: Count::none(),
            owed: Count::none(),
            managed: Count::none(),
        })
    }

    /// Takes in objects that are new, also beside each other.
    pub fn push_all(&mut self, made: &[space::Object])
        requires { length made.now ≤ new_room self.old }
        ensures stands { (objects : List Object) (l : List Reference) → AreNewIn objects made.now
            → RecordsAre self.old objects l → RecordsAre self.new (objects ++ made.now) l }
        ensures settled { KeepsSettled self.old self.new }
        ensures uses { Uses self.old self.new (length made.now) 0 0 }
    {
        for x in made {
            self.add_object(*x, made.len() > 1);
        }
    }

    /// Notes what the object's owner was told last: whether the object is held, and whether strongly.
    pub fn set_told(&mut self, o: Identity, weak: bool, strong: bool)
        ensures stands { (objects : List Object) (l : List Reference) → RecordsAre self.old objects l → RecordsAre self.new
            (changed (λ x. same x.id o) (λ x. record x { told_weak = weak; told_strong = strong }) objects) l }
        ensures names { self.new.names ≡ self.old.names }
        ensures settled { KeepsSettled self.old self.new }
        ensures uses { Uses self.old self.new 0 0 0 }
    {
        self.objects.set_told(o, weak, strong);
    }

    /// The object goes, to which nothing refers. Takes the slot in which its record may be.
    pub fn remove_object(&mut self, o: Identity, near: usize)
        ensures stands { (objects : List Object) (l : List Reference) → refer.held_in l o ≡ false
            → RecordsAre self.old objects l → RecordsAre self.new (filter (λ x. not (same x.id o)) objects) l }
        ensures names { self.new.names ≡ self.old.names }
        ensures settled { KeepsSettled self.old self.new }
        ensures uses { Uses self.old self.new 0 0 0 }
    {
        if let Some(w) = self.objects.remove(o, near) {
            self.owned.remove(&w.object);
        }
    }
}
