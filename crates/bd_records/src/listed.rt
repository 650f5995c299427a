//! A space's names, by their records.

ghost use Rattle.std.specs.Prelude.{ℕ, ◌≡◌, List};
ghost use Rattle.bd_keys.specs.Tables.{Tells};
ghost use Rattle.bd_space.specs.declared.space.Name as declared;
ghost use Rattle.bd_space.specs.Names as names_of;
ghost use Rattle.bd_records.specs.{NamesAre.{NamesAre}, Numbers.{IsNextNumber}};

use crate::names::Names;
use bd_space::Identity;

/// The object that the number names for the process.
pub fn named_object(names: &Names, p: u64, n: u32) -> Option<Identity>
    ensures { Tells (NamesAre names.now) result (λ l. names_of.named_in l p n) }
{
    names.named(p, n)
}

/// By which number the process names the object.
#[inline(always)]
pub fn name_number(names: &Names, p: u64, o: Identity) -> Option<u32>
    ensures { Tells (NamesAre names.now) result (λ l. names_of.number_in l p o) }
{
    names.number_of(p, o)
}

/// The least number from this one on that names something for the process. Looks at each number up to it.
pub fn next_number(names: &Names, p: u64, from: u32) -> Option<u32>
    ensures { (l : List declared.Name) → NamesAre names.now l → IsNextNumber l p from result }
{
    names.next_number(p, from)
}
