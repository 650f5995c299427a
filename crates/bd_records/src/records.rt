//! Objects, names and references together.

ghost use Rattle.std.specs.{List.{list_any}, Prelude.{IfSome, List, OnErr, OnOk, [], false, filter, map, not, option_map, true, ℕ, ◌&&◌, ◌++◌, ◌+◌, ◌==◌, ◌∷◌, ◌≡◌, ◌≤◌}};
ghost use Rattle.bd_space.specs.{Words.{same, without_first}, declared.space.Reference.{Reference}};
ghost use Rattle.bd_space.specs.References as refer;
ghost use Rattle.bd_space.specs.declared.space.Object as spaced;

use crate::buffers::Buffers;
use crate::lying::Lying;
use crate::names::Names;
use crate::objects::Objects;
use crate::owned::Owned;
use crate::slots::row_in;
use crate::turning::turn;
use bd_chains::Items;
use bd_space::{Holder, Identity, Name, Object, Origin, Reference};
use std::alloc::{AllocError, Global};

/// A space's objects, names and references.
#[derive(Drop)]
pub struct Records {
    pub objects: Objects,
    pub names: Names,
    // The names that can be taken back.
    pub(crate) given: Vec<Name>,
    pub(crate) owned: Owned,
    // Those that lie in buffers.
    pub(crate) held: Buffers,
    // So many references came in since the beginning: it bounds each counter.
    pub(crate) made: u64,
}

/// How an object is referred to.
#[derive(Clone, Copy)]
pub struct Hold {
    pub is_held: bool,
    pub is_strong: bool,
}

/// An object, how it is referred to, and in which slot its record is.
#[derive(Clone, Copy)]
pub struct Kept {
    pub object: Object,
    pub hold: Hold,
    pub slot: usize,
}

// The objects of these references come behind what is there.
pub(crate) fn push_objects(
    references: Items<'_, Lying>,
    touched: &mut Vec<Identity>,
) -> Result<(), AllocError>
    ensures pushed { OnOk result (touched.new.items
        ≡ touched.old.items ++ map (λ r. r.object) (map (λ v. v.reference) references.entry)) }
    // Memory was asked for: there is one.
    ensures grown { OnErr result (references.entry ≡ [] → ⊥) }
{
    for v in references {
        touched.push(v.reference.object)?;
    }
    Ok(())
}

impl Records {
    ghost use Rattle.bd_records.specs.{Buffers.{list_of}, Names.{named_by}, NamesAre.{KeepsNames}, Records.{IsHomed, Makes, RecordsAre, Tells, TellsOfOthers, reference_room}, Room.{Uses}, Since.{KeepsSettled, Settled}};

    /// No objects, no references.
    pub fn new(alloc: Global) -> Records
        ensures stands { RecordsAre result [] [] }
        ensures settled { Settled result [] }
    {
        Records {
            objects: Objects::new(alloc),
            names: Names::new(alloc),
            given: Vec::new(alloc),
            owned: Owned::new(alloc),
            held: Buffers::new(alloc),
            made: 0,
        }
    }

    /// Makes room for more references, and changes nothing besides, whatever it answers.
    pub fn reserve(&mut self, more: usize) -> Result<(), AllocError>
        ensures stands { Makes self.old self.new (λ l. l) }
        ensures settled { KeepsSettled self.old self.new }
        ensures uses { Uses self.old self.new 0 0 0 }
        ensures room { OnOk result (more ≤ reference_room self.new) }
        // Refused where there was no room: memory, or numbers for `made`.
        ensures grown { OnErr result (more ≤ reference_room self.old → ⊥) }
    {
        if more as u64 > u64::MAX - self.made {
            return Err(AllocError);
        }
        self.held.reserve(more)
    }

    /// How the object is referred to.
    #[inline(always)]
    pub fn hold(&self, o: Identity) -> Hold
        ensures held { Tells self.now result.is_held (λ l. refer.held_in l o) }
        ensures strong { Tells self.now result.is_strong (λ l. refer.strong_in l o) }
    {
        match self.objects.row_of(o) {
            Some(w) => Hold {
                is_held: !w.total.is_empty(),
                is_strong: w.total.strong > 0,
            },
            None => Hold {
                is_held: false,
                is_strong: false,
            },
        }
    }

    /// The object with this identity and how it is referred to, if it is still there: by one look.
    #[inline(always)]
    pub fn kept(&self, o: Identity) -> Option<Kept>
        ensures object { (objects : List spaced.Object) (l : List Reference) → RecordsAre self.now objects l
            → option_map (λ x. x.object) result ≡ refer.object_in objects o }
        ensures held { IfSome result (λ x. Tells self.now x.hold.is_held (λ l. refer.held_in l x.object.id)) }
        ensures strong { IfSome result (λ x. Tells self.now x.hold.is_strong (λ l. refer.strong_in l x.object.id)) }
    {
        let slot = self.objects.slot_of(o)?;
        match row_in(&self.objects.rows, slot) {
            Some(w) => Some(Kept {
                object: w.object,
                hold: Hold {
                    is_held: !w.total.is_empty(),
                    is_strong: w.total.strong > 0,
                },
                slot,
            }),
            None => None,
        }
    }

    /// Whether the process asked for the object in this strength.
    #[inline(always)]
    pub fn is_asked(&self, p: u64, o: Identity, strong: bool) -> bool
        ensures { Tells self.now result (λ l. list_any (refer.is_asking p o strong) l) }
    {
        match self.names.row_of(p, o) {
            Some(w) => w.asked.of(strong) > 0,
            None => false,
        }
    }

    /// Whether an acknowledgement of this strength is outstanding.
    #[inline(always)]
    pub fn is_shaken(&self, o: Identity, strong: bool) -> bool
        ensures { Tells self.now result (λ l. list_any (refer.is_shaking o strong) l) }
    {
        match self.objects.row_of(o) {
            Some(w) => w.owed.of(strong) > 0,
            None => false,
        }
    }

    /// Whether a strong reference gives the process its name of the object: it asked, or a buffer in its window carries it. Of an
    /// object that isn't its own.
    #[inline(always)]
    pub fn refers_strongly(&self, p: u64, o: Identity) -> bool
        ensures { TellsOfOthers self.now p o result
            (λ l. list_any (λ r. r.strong && same r.object o && refer.gives_name_to p r.holder) l) }
    {
        match self.names.row_of(p, o) {
            Some(w) => w.asked.strong > 0 || w.carried.strong > 0,
            None => false,
        }
    }

    /// Takes in a reference, of which there is a record for each counter (`IsHomed`).
    // Put into its callers, which know whose it is.
    #[inline(always)]
    pub fn push(&mut self, r: Reference)
        requires { 1 ≤ reference_room self.old }
        ensures stands { (objects : List spaced.Object) (l : List Reference) → IsHomed self.old objects r
            → RecordsAre self.old objects l → RecordsAre self.new objects (l ++ r ∷ []) }
        ensures names { KeepsNames self.old.names self.new.names }
        ensures settled { KeepsSettled self.old self.new }
        ensures uses { Uses self.old self.new 0 1 0 }
    {
        turn(&mut self.objects, &mut self.names, r, true);
        self.held.push(r);
        self.made = self.made.saturating_add(1);
    }

    /// Drops the oldest reference of this strength that the process asked for, if there is one.
    pub fn drop_asked(&mut self, p: u64, o: Identity, strong: bool)
        ensures stands { Makes self.old self.new (λ l. without_first (refer.is_asking p o strong) l) }
        ensures names { KeepsNames self.old.names self.new.names }
        ensures settled { KeepsSettled self.old self.new }
        ensures uses { Uses self.old self.new 0 0 0 }
    {
        if self.is_asked(p, o, strong) {
            let r = Reference {
                id: Origin { place: 0, index: 0 },
                object: o,
                strong,
                holder: Holder::Asked(p),
            };
            turn(&mut self.objects, &mut self.names, r, false);
        }
    }

    /// Drops the oldest reference of this strength that stands for an acknowledgement, if there is one.
    pub fn drop_shaken(&mut self, o: Identity, strong: bool)
        ensures stands { Makes self.old self.new (λ l. without_first (refer.is_shaking o strong) l) }
        ensures names { KeepsNames self.old.names self.new.names }
        ensures settled { KeepsSettled self.old self.new }
        ensures uses { Uses self.old self.new 0 0 0 }
    {
        if self.is_shaken(o, strong) {
            let r = Reference {
                id: Origin { place: 0, index: 0 },
                object: o,
                strong,
                holder: Holder::Handshake,
            };
            turn(&mut self.objects, &mut self.names, r, false);
        }
    }

    /// Drops all references to the object that the process asked for.
    pub fn drop_all_asked(&mut self, p: u64, o: Identity)
        ensures stands { Makes self.old self.new (λ l. filter (λ r. not (same r.object o && refer.is_asked_by p r.holder)) l) }
        ensures named { (q m : ℕ) → named_by self.new.names q m ≡ named_by self.old.names q m }
        ensures names { KeepsNames self.old.names self.new.names }
        ensures settled { KeepsSettled self.old self.new }
        ensures uses { Uses self.old self.new 0 0 0 }
    {
        if let Some(w) = self.names.row_of(p, o) {
            self.objects.subtract(o, w.asked);
            self.names.clear_asked(p, o);
        }
    }

    /// The objects to which the buffer refers, put after what is there. Fails for want of memory alone.
    pub fn referred(&self, b: u64, touched: &mut Vec<Identity>) -> Result<(), AllocError>
        ensures pushed { OnOk result (Tells self.now touched.new.items (λ l. touched.old.items ++ map (λ r. r.object) (filter
            (λ r. refer.is_of_buffer b r.holder) l))) }
        // Memory was asked for: it refers to one.
        ensures grown { OnErr result ((objects : List spaced.Object) (l : List Reference) → RecordsAre self.now objects l
            → list_any (λ r. refer.is_of_buffer b r.holder) l ≡ true) }
    {
        push_objects(self.held.of(b), touched)
    }

    // Drops the oldest reference in the buffer, if one lies in it.
    fn pop_held(&mut self, b: u64) -> bool
        ensures stands { Makes self.old self.new (λ l. without_first (λ r. refer.is_of_buffer b r.holder) l) }
        ensures any { Tells self.old result (λ l. list_any (λ r. refer.is_of_buffer b r.holder) l) }
        ensures names { KeepsNames self.old.names self.new.names }
        ensures settled { KeepsSettled self.old self.new }
        ensures uses { Uses self.old self.new 0 0 0 }
    {
        match self.held.pop(b) {
            Some(r) => {
                turn(&mut self.objects, &mut self.names, r, false);
                true
            }
            None => false,
        }
    }

    // Drops one after the other, until none lies in the buffer.
    fn remove_each(&mut self, b: u64)
        ensures stands { Makes self.old self.new (λ l. filter (λ r. not (refer.is_of_buffer b r.holder)) l) }
        ensures names { KeepsNames self.old.names self.new.names }
        ensures settled { KeepsSettled self.old self.new }
        ensures uses { Uses self.old self.new 0 0 0 }
    {
        for _ in 0..self.held.len() {
            if !self.pop_held(b) {
                return;
            }
        }
    }

    /// Drops all references that lie in the buffer.
    pub fn remove_buffer(&mut self, b: u64)
        ensures stands { Makes self.old self.new (λ l. filter (λ r. not (refer.is_of_buffer b r.holder)) l) }
        ensures names { KeepsNames self.old.names self.new.names }
        ensures settled { KeepsSettled self.old self.new }
        ensures uses { Uses self.old self.new 0 0 0 }
        ensures gone { (objects : List spaced.Object) (l : List Reference) → RecordsAre self.old objects l → list_of self.new.held b ≡ None }
    {
        self.remove_each(b);
        self.held.close(b);
    }
}
