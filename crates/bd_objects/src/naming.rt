//! The names that come with references: a process gets a number for each object that it comes to refer to, unless it is
//! its own.

ghost use Rattle.std.specs.Prelude.{◌≡◌, ◌==◌, ◌≤◌, ◌++◌, length, map, fold, false, List, Option, OnOk, OnErr};
ghost use Rattle.std.specs.List.{list_any};
ghost use Rattle.bd_space.specs.References as refer;
ghost use Rattle.bd_space.specs.Names as names_of;
ghost use Rattle.bd_space.specs.{Parcels.{object_of_item}, declared.space.Name.{Name}, declared.space.Object.{Object}};
ghost use Rattle.bd_space.specs.{declared.space.Reference.{Reference}, declared.step.Identity.{Identity}};
ghost use Rattle.bd_records.specs.Numbers.{IsFull};
ghost use Rattle.bd_records.specs.{Records.{RecordsAre}, NamesAre.{NamesAre}, Since.{Since, Settled, given_room}, Room.{Uses}};
ghost use Rattle.bd_objects.specs.{Naming.{with_name_unless, with_other_name, AreReferred}, Numbers.{IsPastLimit}};

use bd_records::{NumbersFull, Records, named_object};
use bd_space::{Identity, Item, Object};

fn is_managers(manager: Option<Identity>, o: Identity) -> bool
    ensures { result ≡ names_of.is_managers manager o }
{
    match manager {
        Some(m) => m == o,
        None => false,
    }
}

/// Gives the process a number for the object, unless that is its own or has one: 0 is for the context manager's object.
pub(crate) fn give_name(
    records: &mut Records,
    manager: Option<Identity>,
    own: bool,
    p: u64,
    o: Identity,
) -> Result<(), NumbersFull>
    requires { 1 ≤ given_room records.old p }
    ensures stands { OnOk result ((objects : List Object) (l : List Reference)
        → (own ≡ false → refer.owned_in objects p o ≡ false) → RecordsAre records.old objects l → RecordsAre records.new objects l) }
    ensures names { OnOk result ((base l : List Name) → Since records.old base l
        → Since records.new base (with_name_unless own manager p l o)) }
    ensures err { OnErr result (records.new ≡ records.old) }
    ensures other { OnErr result (own ≡ false) }
    ensures full { OnErr result ((l : List Name) → NamesAre records.old.names l
        → IsFull (names_of.is_managers manager o) p l o) }
    ensures uses { Uses records.old records.new 0 0 1 }
{
    if own {
        return Ok(());
    }
    records.give_name(is_managers(manager, o), p, o)
}

/// The same for a process that asked for the object by a number: where that is the object's already, nothing else is looked at.
pub(crate) fn give_asked_name(
    records: &mut Records,
    manager: Option<Identity>,
    p: u64,
    n: u32,
    o: Identity,
) -> Result<(), NumbersFull>
    requires { 1 ≤ given_room records.old p }
    ensures stands { (objects : List Object) (l : List Reference)
        → RecordsAre records.old objects l → RecordsAre records.new objects l }
    ensures names { OnOk result ((objects : List Object) (references : List Reference) (l : List Name)
        → RecordsAre records.old objects references → Settled records.old l
        → Settled records.new (with_other_name manager objects p l o)) }
    ensures err { OnErr result (records.new ≡ records.old) }
    ensures other { OnErr result ((objects : List Object) (references : List Reference)
        → RecordsAre records.old objects references → refer.owned_in objects p o ≡ false) }
    ensures full { OnErr result ((l : List Name) → NamesAre records.old.names l
        → IsFull (names_of.is_managers manager o) p l o) }
    ensures uses { Uses records.old records.new 0 0 1 }
{
    if named_object(&records.names, p, n) == Some(o) {
        return Ok(());
    }
    let own = records.owns(p, o);
    give_name(records, manager, own, p, o)?;
    records.settle_names();
    Ok(())
}

fn has_own(made: &[Object], p: u64) -> bool
    ensures { result ≡ list_any (λ x. x.owner == p) made.now }
{
    made.iter().any(|x| x.owner == p)
}

fn owned_in(made: &[Object], p: u64, o: Identity) -> bool
    ensures { result ≡ refer.owned_in made.now p o }
{
    made.iter().any(|x| x.id == o && x.owner == p)
}

/// Those that are being made, if any of them is the process's own: of a delivery to another there is none.
fn made_by<'a>(made: &'a [Object], p: u64) -> &'a [Object]
    ensures { (o : Identity) → refer.owned_in result.now p o ≡ refer.owned_in made.now p o }
{
    if has_own(made, p) { made } else { &made[..0] }
}

/// Whether the process owns the object, one of these or one of those that are being made.
fn is_own(records: &Records, made: &[Object], p: u64, o: Identity) -> bool
    ensures { (objects : List Object) (l : List Reference) → RecordsAre records.now objects l
        → result ≡ refer.owned_in (objects ++ made.now) p o }
{
    records.owns(p, o) || owned_in(made, p, o)
}

/// Gives the process a number for the object of each item, in their order, unless it is its own, or nothing where a
/// number past the limit would be needed.
pub(crate) fn give_names(
    records: &mut Records,
    manager: Option<Identity>,
    made: &[Object],
    p: u64,
    items: &[Item],
) -> Result<(), NumbersFull>
    requires { length items.now ≤ given_room records.old p }
    ensures stands { (objects : List Object) (l : List Reference) (names : List Name) → Settled records.old names
        → RecordsAre records.old objects l → RecordsAre records.new objects l }
    ensures names { OnOk result ((objects : List Object) (references : List Reference) (l : List Name)
        → RecordsAre records.old objects references → Settled records.old l → Settled records.new
        (fold (with_other_name manager (objects ++ made.now) p) l (map object_of_item items.now))) }
    ensures err { OnErr result ((objects : List Object) (references : List Reference) (l : List Name)
        → RecordsAre records.old objects references → Settled records.old l → Settled records.new l) }
    ensures full { OnErr result ((objects : List Object) (references all : List Reference) (l : List Name)
        → RecordsAre records.old objects references → AreReferred all p (map object_of_item items.now)
        → Settled records.old l → IsPastLimit (objects ++ made.now) all
        (fold (with_other_name manager (objects ++ made.now) p) l (map object_of_item items.now))) }
    ensures uses { Uses records.old records.new 0 0 (length items.now) }
{
    let made = made_by(made, p);
    for x in items {
        let own = is_own(records, made, p, x.object);
        let given = give_name(records, manager, own, p, x.object);
        if given.is_err() {
            records.roll_back_names();
            return given;
        }
    }
    records.settle_names();
    Ok(())
}
