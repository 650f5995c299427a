//! What an uncleared notification is found by.

ghost use Rattle.std.specs.{Prelude.{◌≡◌}, Cmp.Rules.{hashing}};
ghost use Rattle.std.specs.Hash as fed;
ghost use Rattle.std.proofs.Common.{rules};
ghost use Rattle.bd_keys.specs.Numbers.{mixed};
ghost use Rattle.bd_deaths.specs.Entries as spec;

use bd_keys::mixed;
use bd_space::{DeathNotification, Identity};
use std::hash::{Hash, Hasher};

/// A process and an object.
#[derive(Clone, Copy, PartialEq, Eq)]
pub struct NameKey {
    pub process: u64,
    pub object: Identity,
}

// One write, as `bd_keys` says.
impl Hash for NameKey {
    ghost hash_input = { λ k. fed.u128 (mixed k.process k.object.place k.object.index) };

    ghost respects_eq = { Prim.search (hashing, rules) };

    fn hash<H: Hasher>(&self, state: &mut H) {
        state.write_u128(mixed(self.process, self.object.place, self.object.index));
    }
}

/// The name that the notification is on.
pub(crate) fn name_of(x: &DeathNotification) -> NameKey
    ensures { result ≡ spec.name_of x.now }
{
    NameKey {
        process: x.process,
        object: x.object,
    }
}
