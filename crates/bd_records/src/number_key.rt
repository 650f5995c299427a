//! The numbers of names, by process and object.

ghost use Rattle.std.specs.{Cmp.Rules.{hashing}, HashMap.{spare}, Prelude.{None, Some, if◌then◌else◌, ℕ, ◌&&◌, ◌+◌, ◌<◌, ◌==◌, ◌≡◌, ◌≤◌}};
ghost use Rattle.std.proofs.Common.{rules};
ghost use Rattle.bd_keys.specs.Numbers.{mixed};
ghost use Rattle.bd_space.specs.Words.{same};
ghost use Rattle.bd_records.specs.NumberKeys.{number_at};
ghost use Rattle.std.specs.Hash as fed;
ghost use Rattle.bd_space.specs.declared.step.Identity as declared;

use bd_keys::{insert_reserved, mixed};
use bd_space::Identity;
use std::collections::HashMap;
use std::hash::{Hash, Hasher};

/// The key of a name by its object: the process that has the name, and the object.
#[derive(Clone, Copy, PartialEq, Eq)]
pub struct ObjectKey {
    pub process: u64,
    pub object: Identity,
}

// One write, as `bd_keys` says.
impl Hash for ObjectKey {
    ghost hash_input = { λ k. fed.u128 (mixed k.process k.object.place k.object.index) };

    ghost respects_eq = { Prim.search (hashing, rules) };

    fn hash<H: Hasher>(&self, state: &mut H) {
        state.write_u128(mixed(self.process, self.object.place, self.object.index));
    }
}

/// The number by which the process names the object, if it does.
// Called apart, so that who guesses right saves nothing for it.
#[inline(never)]
pub(crate) fn number_in(numbers: &HashMap<ObjectKey, u32>, p: u64, o: Identity) -> Option<u32>
    ensures { result ≡ number_at numbers.now p o }
{
    numbers
        .get(&ObjectKey {
            process: p,
            object: o,
        })
        .copied()
}

/// The object has this number of the process from now on.
pub(crate) fn insert_number(numbers: &mut HashMap<ObjectKey, u32>, p: u64, o: Identity, n: u32)
    requires { 0 < spare numbers.old }
    ensures at { (q : ℕ) (x : declared.Identity) → number_at numbers.new q x
        ≡ (if (p == q) && same o x then Some n else number_at numbers.old q x) }
    ensures spare { spare numbers.old ≤ spare numbers.new + 1 }
{
    let key = ObjectKey {
        process: p,
        object: o,
    };
    insert_reserved(numbers, key, n);
}

/// The object has no number of the process from now on.
#[inline(always)]
pub(crate) fn remove_number(numbers: &mut HashMap<ObjectKey, u32>, p: u64, o: Identity)
    ensures at { (q : ℕ) (x : declared.Identity) → number_at numbers.new q x
        ≡ (if (p == q) && same o x then None else number_at numbers.old q x) }
    ensures spare { spare numbers.old ≤ spare numbers.new }
{
    let _gone = numbers.remove(&ObjectKey {
        process: p,
        object: o,
    });
}
