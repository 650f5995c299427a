//! Counting a reference that came or went.

ghost use Rattle.std.specs.Prelude.{None, Some, if◌then◌else◌, option_map, ℕ, ◌&&◌, ◌==◌, ◌≡◌, ◌≤◌};
ghost use Rattle.bd_space.specs.{References.{gives_name_to}, Words.{same}};
ghost use Rattle.bd_records.specs.{Names.{name_at, name_room}, NamesAre.{KeepsNames}, Objects.{object_room, row_at}};
ghost use Rattle.bd_space.specs.declared.step.Identity as declared;
ghost use Rattle.bd_records.specs.Counting as spec;

use crate::names::Names;
use crate::objects::Objects;
use bd_space::{Holder, Reference};

/// Counts the reference, or no longer, in the records of its object and of the name that it gives.
// Put into its callers, most of which know whose the reference is.
#[inline(always)]
pub(crate) fn turn(objects: &mut Objects, names: &mut Names, r: Reference, more: bool)
    ensures objects { (x : declared.Identity) → row_at objects.new x
        ≡ (if same r.object x then option_map (spec.turned more r) (row_at objects.old x) else row_at objects.old x) }
    ensures names { (q : ℕ) (x : declared.Identity) → name_at names.new q x
        ≡ (if gives_name_to q r.holder && same r.object x then option_map (spec.name_turned more r) (name_at names.old q x) else name_at names.old q x) }
    ensures kept { KeepsNames names.old names.new }
    ensures objects_room { object_room objects.old ≤ object_room objects.new }
    ensures names_room { (q : ℕ) → name_room names.old q ≤ name_room names.new q }
{
    objects.turn(r, more);
    // Whom it gives a name.
    if let Holder::Asked(p) | Holder::Carried(_, p) = r.holder {
        names.turn(p, r, more);
    }
}
