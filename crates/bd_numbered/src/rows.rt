//! One row among the others: what a change of it leaves of all of them.

ghost use Rattle.std.specs.Prelude.{ℕ, ◌≡◌, ◌==◌, ◌≤◌, ◌<◌, ◌+◌, ◌&&◌, true, false, Some, None, is_some, option_map, IfSome, IfNone, ◌^◌, if◌then◌else◌, OnOk, OnErr};
ghost use Rattle.std.specs.HashMap.{get_by, spare};
ghost use Rattle.slab.specs.Slab.{HasRoomFor};
ghost use Rattle.bd_places.specs.Places.{is_there_and};
ghost use Rattle.bd_numbered.specs.Row.{value_of, row_room};
ghost use Rattle.bd_numbered.specs.Columns.{made_in, values_in, rooms_in};

use crate::row::Row;
use bd_keys::insert_reserved;
use bd_places::Change;
use slab::Slab;
use std::alloc::AllocError;
use std::collections::HashMap;

/// Whose the row in a slot is.
#[inline(always)]
pub(crate) fn made_at<T: Copy>(rows: &Slab<Row<T>>, k: usize) -> Option<u64>
    ensures { result ≡ made_in rows.now k }
{
    match rows.get(k) {
        Some(r) => Some(r.made),
        None => None,
    }
}

pub(crate) fn reserve_in<T: Copy>(
    rows: &mut Slab<Row<T>>,
    k: usize,
    more: usize,
) -> Result<(), AllocError>
    ensures made { (j : ℕ) → made_in rows.new j ≡ made_in rows.old j }
    ensures kept { (j n : ℕ) → values_in rows.new j n ≡ values_in rows.old j n }
    ensures uses { (j : ℕ) → rooms_in rows.old j ≤ rooms_in rows.new j }
    ensures room { OnOk result (is_some (made_in rows.old k) ≡ true → more ≤ rooms_in rows.new k) }
    ensures grown { OnErr result (more ≤ rooms_in rows.old k → ⊥) }
{
    match rows.get_mut(k) {
        Some(row) => row.reserve(more),
        None => Ok(()),
    }
}

/// The first free number of a row, counted from 0 or from 1: all are free where there is no row.
pub(crate) fn free_in<T: Copy>(rows: &Slab<Row<T>>, k: usize, from_zero: bool) -> Option<u32>
    ensures within { IfSome result (λ n. n ≤ 4294967294) }
    ensures full { IfNone result ((m : ℕ) → (if from_zero then 0 else 1) ≤ m → m ≤ 4294967294 → is_some (values_in rows.now k m) ≡ true) }
    ensures free { IfSome result (λ n. values_in rows.now k n ≡ None) }
    ensures from { IfSome result (λ n. (if from_zero then 0 else 1) ≤ n) }
    ensures before { IfSome result (λ n. (m : ℕ) → (if from_zero then 0 else 1) ≤ m → m < n → is_some (values_in rows.now k m) ≡ true) }
{
    match rows.get(k) {
        Some(row) => row.free_number(from_zero),
        None => Some(u32::from(!from_zero)),
    }
}

/// The first number from this one on under which the row has something.
pub(crate) fn next_in<T: Copy>(rows: &Slab<Row<T>>, k: usize, from: u32) -> Option<u32>
    ensures none { IfNone result ((m : ℕ) → from ≤ m → m < 2 ^ 32 → values_in rows.now k m ≡ None) }
    ensures from { IfSome result (λ n. from ≤ n) }
    ensures there { IfSome result (λ n. is_some (values_in rows.now k n) ≡ true) }
    ensures before { IfSome result (λ n. (m : ℕ) → from ≤ m → m < n → values_in rows.now k m ≡ None) }
{
    match rows.get(k) {
        Some(row) => row.next(from),
        None => None,
    }
}

/// Puts the value at the row's first free number from 1 on, or at 0.
pub(crate) fn put_in<T: Copy>(rows: &mut Slab<Row<T>>, k: usize, zero: bool, value: T) -> usize
    requires { 1 ≤ rooms_in rows.old k }
    ensures made { (j : ℕ) → made_in rows.new j ≡ made_in rows.old j }
    ensures put { (j n : ℕ) → values_in rows.new j n
        ≡ (if (k == j) && (result == n) then Some value else values_in rows.old j n) }
    ensures zero { zero ≡ true → result ≡ 0 }
    ensures free { zero ≡ false → values_in rows.old k result ≡ None }
    ensures from { zero ≡ false → 1 ≤ result }
    ensures before { zero ≡ false → (m : ℕ) → 1 ≤ m → m < result → is_some (values_in rows.old k m) ≡ true }
    ensures uses { (j : ℕ) → rooms_in rows.old j ≤ rooms_in rows.new j + 1 }
{
    match rows.get_mut(k) {
        Some(row) => row.put(zero, value),
        None => unreachable!(),
    }
}

/// Changes what the row has under a number, if that is meant: whether it is.
#[inline(always)]
pub(crate) fn turn_in<T: Copy, C: Change<T>>(
    rows: &mut Slab<Row<T>>,
    k: usize,
    n: u32,
    change: C,
) -> bool
    ensures made { (j : ℕ) → made_in rows.new j ≡ made_in rows.old j }
    ensures meant { result ≡ is_there_and (C.meant change) (values_in rows.old k n) }
    ensures turned { (j m : ℕ) → values_in rows.new j m ≡ (if (k == j) && (result && (n == m))
        then option_map (C.changed change) (values_in rows.old j m) else values_in rows.old j m) }
    ensures uses { (j : ℕ) → rooms_in rows.old j ≤ rooms_in rows.new j }
{
    match rows.get_mut(k) {
        Some(row) => row.turn(n, change),
        None => false,
    }
}

/// Takes out what the row has under a number.
#[inline(always)]
pub(crate) fn remove_in<T: Copy>(rows: &mut Slab<Row<T>>, k: usize, n: u32) -> Option<T>
    ensures gone { result ≡ values_in rows.old k n }
    ensures made { (j : ℕ) → made_in rows.new j ≡ made_in rows.old j }
    ensures at { (j m : ℕ) → values_in rows.new j m
        ≡ (if (k == j) && (n == m) then None else values_in rows.old j m) }
    ensures uses { (j : ℕ) → rooms_in rows.old j ≤ rooms_in rows.new j }
{
    match rows.get_mut(k) {
        Some(row) => row.remove(n),
        None => None,
    }
}

/// Makes room for one more row.
pub(crate) fn reserve_rows<T: Copy>(rows: &mut Slab<Row<T>>) -> Result<(), AllocError>
    ensures made { (j : ℕ) → made_in rows.new j ≡ made_in rows.old j }
    ensures kept { (j n : ℕ) → values_in rows.new j n ≡ values_in rows.old j n }
    ensures uses { (j : ℕ) → rooms_in rows.new j ≡ rooms_in rows.old j }
    ensures room { OnOk result (HasRoomFor rows.new 1) }
{
    rows.reserve(1)
}

/// Puts the row into a slot that is free.
pub(crate) fn insert_row<T: Copy>(rows: &mut Slab<Row<T>>, row: Row<T>) -> usize
    requires { HasRoomFor rows.old 1 }
    ensures fresh { made_in rows.old result ≡ None }
    ensures made { (j : ℕ) → made_in rows.new j ≡ (if result == j then Some row.made else made_in rows.old j) }
    ensures values { (j n : ℕ) → values_in rows.new j n ≡ (if result == j then value_of row n else values_in rows.old j n) }
    ensures rooms { (j : ℕ) → rooms_in rows.new j ≡ (if result == j then row_room row else rooms_in rows.old j) }
{
    rows.insert_reserved(row)
}

/// Takes the row out of its slot.
pub(crate) fn remove_row<T: Copy>(rows: &mut Slab<Row<T>>, k: usize)
    ensures made { (j : ℕ) → made_in rows.new j ≡ (if k == j then None else made_in rows.old j) }
    ensures values { (j n : ℕ) → values_in rows.new j n ≡ (if k == j then None else values_in rows.old j n) }
    ensures rooms { (j : ℕ) → rooms_in rows.new j ≡ (if k == j then 0 else rooms_in rows.old j) }
{
    let _row = rows.try_remove(k);
}

pub(crate) fn reserve_slots(slots: &mut HashMap<u64, usize>) -> Result<(), AllocError>
    ensures same { (p : ℕ) → get_by (λ q. p == q) slots.new ≡ get_by (λ q. p == q) slots.old }
    ensures room { OnOk result (0 < spare slots.new) }
{
    slots.reserve(1)
}

pub(crate) fn insert_slot(slots: &mut HashMap<u64, usize>, p: u64, k: usize)
    requires { 0 < spare slots.old }
    ensures { (q : ℕ) → get_by (λ x. q == x) slots.new ≡ (if p == q then Some k else get_by (λ x. q == x) slots.old) }
{
    let _before = insert_reserved(slots, p, k);
}

pub(crate) fn remove_slot(slots: &mut HashMap<u64, usize>, p: u64)
    ensures { (q : ℕ) → get_by (λ x. q == x) slots.new ≡ (if p == q then None else get_by (λ x. q == x) slots.old) }
{
    let _gone = slots.remove(&p);
}
