//! The objects of the references that go with a process.

ghost use Rattle.std.specs.{List.{list_any}, Prelude.{List, OnErr, OnOk, false, filter, map, true, ◌&&◌, ◌++◌, ◌||◌, ◌≡◌}};
ghost use Rattle.bd_space.specs.{Words.{same as same_object}, declared.space.{Object.{Object}, Reference.{Reference}}};
ghost use Rattle.bd_ways.specs.Local.{is_among};
ghost use Rattle.bd_records.specs.{Ending.{is_named_at}, Names.{named_by}};
ghost use Rattle.bd_space.specs.References as refer;
ghost use Rattle.bd_space.specs.declared.step.Identity as identity;
ghost use Rattle.bd_records.specs.Asks as asking;

use crate::keys::next_above;
use crate::names::Names;
use crate::records::{Records, push_objects};
use bd_space::Identity;
use std::alloc::AllocError;

// Whether the process asked for the object.
fn asks(names: &Names, p: u64, o: Identity) -> bool
    ensures { result ≡ asking.asks names.now p o }
{
    match names.row_of(p, o) {
        Some(w) => !w.asked.is_empty(),
        None => false,
    }
}

// The object comes to what is there that the process asked for by this number, if it did.
fn push_asked_at(
    names: &Names,
    p: u64,
    n: u32,
    touched: &mut Vec<Identity>,
) -> Result<(), AllocError>
    ensures pushed { OnOk result ((x : identity.Identity) → is_among touched.new.items x
        ≡ (is_among touched.old.items x || (is_named_at (named_by names.now p n) x && asking.asks names.now p x))) }
    // Memory was asked for: there is one.
    ensures grown { OnErr result (((x : identity.Identity) → asking.asks names.now p x ≡ false) → ⊥) }
{
    match names.named(p, n) {
        Some(o) if asks(names, p, o) => {
            touched.push(o)?;
            Ok(())
        }
        _ => Ok(()),
    }
}

// The objects come to what is there that the process asked for, name by name.
fn push_asked(names: &Names, p: u64, touched: &mut Vec<Identity>) -> Result<(), AllocError>
    ensures pushed { OnOk result ((x : identity.Identity) → is_among touched.new.items x
        ≡ (is_among touched.old.items x || asking.asks names.now p x)) }
    ensures grown { OnErr result (((x : identity.Identity) → asking.asks names.now p x ≡ false) → ⊥) }
{
    let mut next = names.rows.next(p, 0);
    while let Some(n) = next {
        push_asked_at(names, p, n, touched)?;
        next = next_above(&names.rows, p, n);
    }
    Ok(())
}

impl Records {
    ghost use Rattle.bd_records.specs.{New.{HasAll}, Records.{RecordsAre}};

    /// Puts the objects of the references that the process asked for, or that lie in its window, to what is there, in
    /// some order. Fails for want of memory alone.
    pub fn dropped_with_process(
        &self,
        p: u64,
        touched: &mut Vec<Identity>,
    ) -> Result<(), AllocError>
        ensures all { OnOk result ((objects : List Object) (l : List Reference) → RecordsAre self.now objects l
            → HasAll touched.new.items (touched.old.items ++ map (λ r. r.object)
            (filter (λ r. refer.is_asked_by p r.holder || refer.is_in_window p r.holder) l))) }
        // Nothing else is there.
        ensures only { OnOk result ((objects : List Object) (l : List Reference) → RecordsAre self.now objects l
            → HasAll (touched.old.items ++ map (λ r. r.object)
            (filter (λ r. refer.is_asked_by p r.holder || refer.is_in_window p r.holder) l)) touched.new.items) }
        // Memory was asked for: there is such a reference.
        ensures grown { OnErr result ((objects : List Object) (l : List Reference) → RecordsAre self.now objects l
            → list_any (λ r. refer.is_asked_by p r.holder || refer.is_in_window p r.holder) l ≡ true) }
    {
        push_asked(&self.names, p, touched)?;
        push_objects(self.held.in_window(p), touched)
    }
}
