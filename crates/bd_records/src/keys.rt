//! The numbers of names by object: room for more, and those of a process that ends.

ghost use Rattle.std.specs.{HashMap.{spare}, Prelude.{IfNone, IfSome, None, OnErr, OnOk, Some, false, is_some, ℕ, ◌+◌, ◌<◌, ◌==◌, ◌^◌, ◌≡◌, ◌≤◌}};
ghost use Rattle.bd_records.specs.{NameRows.{object_in}, NumberKeys.{number_at}};
ghost use Rattle.bd_numbered.specs.Numbered.{value_at};
ghost use Rattle.bd_space.specs.declared.step.Identity as declared;

use crate::number_key::{ObjectKey, remove_number};
use crate::row::NameRow;
use bd_numbered::Numbered;
use std::alloc::AllocError;
use std::collections::HashMap;

/// Makes room for so many numbers more. Each stays as it is.
pub(crate) fn reserve_numbers(
    numbers: &mut HashMap<ObjectKey, u32>,
    more: usize,
) -> Result<(), AllocError>
    ensures same { (q : ℕ) (x : declared.Identity) → number_at numbers.new q x ≡ number_at numbers.old q x }
    ensures uses { spare numbers.old ≤ spare numbers.new }
    ensures room { OnOk result (more ≤ spare numbers.new) }
    ensures grown { OnErr result (more ≤ spare numbers.old → ⊥) }
{
    numbers.reserve(more)
}

/// The next number of the process above this one that names something. Looks at each up to it.
pub(crate) fn next_above(rows: &Numbered<NameRow>, p: u64, n: u32) -> Option<u32>
    ensures none { IfNone result ((m : ℕ) → n + 1 ≤ m → m < 2 ^ 32 → value_at rows.now p m ≡ None) }
    ensures from { IfSome result (λ k. n + 1 ≤ k) }
    ensures before { IfSome result (λ k. (m : ℕ) → n + 1 ≤ m → m < k → value_at rows.now p m ≡ None) }
{
    if n == u32::MAX {
        return None;
    }
    rows.next(p, n + 1)
}

// What stands under the number is no longer found by its object.
fn remove_at(rows: &Numbered<NameRow>, numbers: &mut HashMap<ObjectKey, u32>, p: u64, n: u32)
    ensures gone { (x : declared.Identity) → object_in rows.now p n ≡ Some x → number_at numbers.new p x ≡ None }
    ensures still { (x : declared.Identity) → number_at numbers.old p x ≡ None → number_at numbers.new p x ≡ None }
    ensures rest { (q : ℕ) (x : declared.Identity) → (p == q) ≡ false → number_at numbers.new q x ≡ number_at numbers.old q x }
    ensures uses { spare numbers.old ≤ spare numbers.new }
{
    match rows.get(p, n) {
        Some(row) => remove_number(numbers, p, row.object),
        None => {}
    }
}

/// What stands in the process's row is no longer found by its object.
pub(crate) fn remove_numbers(
    rows: &Numbered<NameRow>,
    numbers: &mut HashMap<ObjectKey, u32>,
    p: u64,
)
    ensures gone { (m : ℕ) (x : declared.Identity) → m < 2 ^ 32 → object_in rows.now p m ≡ Some x → number_at numbers.new p x ≡ None }
    ensures still { (x : declared.Identity) → number_at numbers.old p x ≡ None → number_at numbers.new p x ≡ None }
    ensures rest { (q : ℕ) (x : declared.Identity) → (p == q) ≡ false → number_at numbers.new q x ≡ number_at numbers.old q x }
    ensures uses { spare numbers.old ≤ spare numbers.new }
{
    let mut next = rows.next(p, 0);
    while let Some(n) = next {
        remove_at(rows, numbers, p, n);
        next = next_above(rows, p, n);
    }
}
