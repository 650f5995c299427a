//! Objects' records by slot, and their slots by identity.

ghost use Rattle.std.specs.{HashMap.{get_by, spare}, Prelude.{None, OnErr, OnOk, Some, if◌then◌else◌, option_map, ℕ, ◌+◌, ◌-◌, ◌<◌, ◌==◌, ◌≡◌, ◌≤◌}};
ghost use Rattle.slab.specs.Slab.{get, slab_len};
ghost use Rattle.bd_space.specs.Words.{same};
ghost use Rattle.bd_records.specs.Slots.{id_in, row_room};
ghost use Rattle.bd_space.specs.declared.step.Identity as declared;
ghost use Rattle.bd_records.specs.Counting as spec;

use crate::count::Count;
use crate::row::ObjectRow;
use bd_keys::insert_reserved;
use bd_space::{Holder, Identity, Reference};
use slab::Slab;
use std::alloc::AllocError;
use std::collections::HashMap;

/// What stands in a slot.
#[inline(always)]
pub(crate) fn row_in(rows: &Slab<ObjectRow>, k: usize) -> Option<ObjectRow>
    ensures { result ≡ get rows.now k }
{
    rows.get(k).copied()
}

/// Whose the record in a slot is.
#[inline(always)]
pub(crate) fn id_at(rows: &Slab<ObjectRow>, k: usize) -> Option<Identity>
    ensures { result ≡ id_in rows.now k }
{
    match rows.get(k) {
        Some(r) => Some(r.object.id),
        None => None,
    }
}

/// The record counts one more reference, or one fewer.
#[inline(always)]
pub(crate) fn turn_row(rows: &mut Slab<ObjectRow>, k: usize, r: Reference, more: bool)
    ensures set { (j : ℕ) → get rows.new j ≡ (if k == j then option_map (spec.turned more r) (get rows.old j) else get rows.old j) }
    ensures room { row_room rows.new ≡ row_room rows.old }
{
    if let Some(w) = rows.get_mut(k) {
        w.total = w.total.turned(more, r.strong);
        match r.holder {
            Holder::Handshake => w.owed = w.owed.turned(more, r.strong),
            Holder::Manager => w.managed = w.managed.turned(more, r.strong),
            _ => {}
        }
    }
}

/// The object's owner was told that.
#[inline(always)]
pub(crate) fn tell_row(rows: &mut Slab<ObjectRow>, k: usize, weak: bool, strong: bool)
    ensures set { (j : ℕ) → get rows.new j ≡ (if k == j then option_map (spec.told weak strong) (get rows.old j) else get rows.old j) }
    ensures room { row_room rows.new ≡ row_room rows.old }
{
    if let Some(w) = rows.get_mut(k) {
        w.object.told_weak = weak;
        w.object.told_strong = strong;
    }
}

/// The record counts none any more that the owner has to its own object.
pub(crate) fn remove_of_owner_in(rows: &mut Slab<ObjectRow>, k: usize)
    ensures set { (j : ℕ) → get rows.new j ≡ (if k == j then option_map spec.disowned (get rows.old j) else get rows.old j) }
    ensures room { row_room rows.new ≡ row_room rows.old }
{
    if let Some(w) = rows.get_mut(k) {
        w.total = w.total.less(w.owed).less(w.managed);
        w.owed = Count::none();
        w.managed = Count::none();
    }
}

/// The record counts so many fewer.
pub(crate) fn subtract_row(rows: &mut Slab<ObjectRow>, k: usize, fewer: Count)
    ensures set { (j : ℕ) → get rows.new j ≡ (if k == j then option_map (spec.lowered fewer) (get rows.old j) else get rows.old j) }
    ensures room { row_room rows.new ≡ row_room rows.old }
{
    if let Some(w) = rows.get_mut(k) {
        w.total = w.total.less(fewer);
    }
}

pub(crate) fn reserve_rows(rows: &mut Slab<ObjectRow>, more: usize) -> Result<(), AllocError>
    ensures same { (j : ℕ) → get rows.new j ≡ get rows.old j }
    ensures uses { row_room rows.old ≤ row_room rows.new }
    ensures room { OnOk result (more ≤ row_room rows.new) }
    ensures grown { OnErr result (more ≤ row_room rows.old → ⊥) }
{
    if more > rows.capacity() - rows.len() {
        return rows.reserve(more);
    }
    Ok(())
}

pub(crate) fn insert_row(rows: &mut Slab<ObjectRow>, row: ObjectRow) -> usize
    requires { 1 ≤ row_room rows.old }
    ensures fresh { get rows.old result ≡ None }
    ensures at { (j : ℕ) → get rows.new j ≡ (if result == j then Some row else get rows.old j) }
    ensures room { row_room rows.new + 1 ≡ row_room rows.old }
{
    rows.insert_reserved(row)
}

pub(crate) fn remove_row(rows: &mut Slab<ObjectRow>, k: usize) -> Option<ObjectRow>
    ensures gone { result ≡ get rows.old k }
    ensures at { (j : ℕ) → get rows.new j ≡ (if k == j then None else get rows.old j) }
    ensures room { row_room rows.old ≤ row_room rows.new }
{
    rows.try_remove(k)
}

// Called apart, so that who guesses right saves nothing for it.
#[inline(never)]
pub(crate) fn slot_in(slots: &HashMap<Identity, usize>, o: Identity) -> Option<usize>
    ensures { result ≡ get_by (same o) slots.now }
{
    slots.get(&o).copied()
}

pub(crate) fn reserve_slots(
    slots: &mut HashMap<Identity, usize>,
    more: usize,
) -> Result<(), AllocError>
    ensures same { (o : declared.Identity) → get_by (same o) slots.new ≡ get_by (same o) slots.old }
    ensures uses { spare slots.old ≤ spare slots.new }
    ensures room { OnOk result (more ≤ spare slots.new) }
    ensures grown { OnErr result (more ≤ spare slots.old → ⊥) }
{
    slots.reserve(more)
}

/// Notes the slot of the object's record, and answers the slot that was noted before.
pub(crate) fn insert_slot(
    slots: &mut HashMap<Identity, usize>,
    o: Identity,
    k: usize,
) -> Option<usize>
    requires { 0 < spare slots.old }
    ensures before { result ≡ get_by (same o) slots.old }
    ensures at { (x : declared.Identity) → get_by (same x) slots.new ≡ (if same o x then Some k else get_by (same x) slots.old) }
    ensures spare { spare slots.old ≤ spare slots.new + 1 }
{
    insert_reserved(slots, o, k)
}

pub(crate) fn remove_slot(slots: &mut HashMap<Identity, usize>, o: Identity)
    ensures at { (x : declared.Identity) → get_by (same x) slots.new ≡ (if same o x then None else get_by (same x) slots.old) }
    ensures spare { spare slots.old ≤ spare slots.new }
{
    let _gone = slots.remove(&o);
}
