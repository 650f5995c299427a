//! What owners are told of their objects by reading.

ghost use Rattle.std.specs.Prelude.{◌≡◌, ◌≤◌, ◌+◌, ◌*◌, ◌++◌, ◌||◌, true, ℕ, List, length};
ghost use Rattle.std.specs.List.{flat_map};
ghost use Rattle.bd_space.specs.{Words.{changed, when, is_some_and, option_to_list, same as same_object}, Todo.{notice_of}};
ghost use Rattle.bd_space.specs.References as refer;
ghost use Rattle.bd_space.specs.ReadItems as reading;
ghost use Rattle.bd_space.specs.Returns as returns;
ghost use Rattle.bd_space.specs.{Space.{Space}, declared.space.Object.{Object}};
ghost use Rattle.bd_ways.specs.Tables.{IsAt};
ghost use Rattle.bd_space.specs.{declared.space.Reference.{Reference}, declared.space.Holder.TheVariants.{Handshake}};
ghost use Rattle.bd_records.specs.{Records.{RecordsAre, reference_room as room_in}, Since.{KeepsSettled}};
ghost use Rattle.bd_records.specs.Room as rooms_of;
ghost use Rattle.bd_objects.specs.{Reading.{owed, HoldsAlike}, New.{IsHere}};

use crate::table::ObjectTable;
use bd_records::{Hold, Kept, Records};
use bd_space::{Holder, Identity, Origin, Reference, Work, WorkKind};
use bd_uapi::Return;

/// The return, where it is to be read.
fn return_when(test: bool, r: Return) -> Option<Return>
    ensures { result ≡ when test r }
{
    if test { Some(r) } else { None }
}

/// What the owner of this object is told, as it is held.
fn notice_returns_of(kept: Kept) -> [Option<Return>; 4]
    ensures { (l : List Reference) → kept.hold.is_held ≡ refer.held_in l kept.object.id → kept.hold.is_strong ≡ refer.strong_in l kept.object.id
        → flat_map option_to_list result ≡ returns.notice_returns l kept.object }
{
    let Hold { is_held, is_strong } = kept.hold;
    let x = kept.object;
    [
        return_when(is_held && !x.told_weak, Return::Increfs(x.ptr, x.cookie)),
        return_when(
            is_strong && !x.told_strong,
            Return::Acquire(x.ptr, x.cookie),
        ),
        return_when(
            x.told_strong && !is_strong,
            Return::Release(x.ptr, x.cookie),
        ),
        return_when(x.told_weak && !is_held, Return::Decrefs(x.ptr, x.cookie)),
    ]
}

/// The object that the notice is on.
fn notice_of(kind: WorkKind) -> Option<Identity>
    ensures { result ≡ notice_of kind }
{
    match kind {
        WorkKind::Notice(o) => Some(o),
        _ => None,
    }
}

/// The owner of a notice's object knows what is so.
fn tell_owner(records: &mut Records, kind: WorkKind)
    ensures stands { (objects : List Object) (l : List Reference) → RecordsAre records.old objects l → RecordsAre records.new
        (changed (λ x. is_some_and (notice_of kind) (same_object x.id)) (reading.told_of l) objects) l }
    ensures names { KeepsSettled records.old records.new }
    ensures uses { rooms_of.Uses records.old records.new 0 0 0 }
{
    match notice_of(kind) {
        Some(o) => {
            let hold = records.hold(o);
            records.set_told(o, hold.is_held, hold.is_strong);
        }
        None => {}
    }
}

fn tell_owners(records: &mut Records, taken: &[Work])
    ensures stands { (objects : List Object) (l : List Reference) → RecordsAre records.old objects l → RecordsAre records.new
        (changed (λ x. reading.is_told_by taken.now x.id) (reading.told_of l) objects) l }
    ensures names { KeepsSettled records.old records.new }
    ensures uses { rooms_of.Uses records.old records.new 0 0 0 }
{
    for w in taken {
        tell_owner(records, w.kind);
    }
}

/// Whether the owner is to acknowledge the object weakly, and strongly, once it has read what it is to be told.
fn acknowledgements(records: &Records, o: Identity) -> (bool, bool)
    ensures owed { (objects : List Object) (l : List Reference) → RecordsAre records.now objects l
        → flat_map reading.shakes (returns.returns_of_object l (refer.object_in objects o)) ≡ owed result.0 result.1 }
    ensures here { (objects : List Object) (l : List Reference) → RecordsAre records.now objects l
        → (result.0 || result.1) ≡ true → IsHere o objects }
{
    match records.kept(o) {
        Some(Kept { object, hold, .. }) => (
            hold.is_held && !object.told_weak,
            hold.is_strong && !object.told_strong,
        ),
        None => (false, false),
    }
}

/// The references that stand for these acknowledgements, of this index and the next, of an object that is there. Gives the
/// index after them.
fn add_acknowledgements(
    records: &mut Records,
    place: u64,
    index: u64,
    o: Identity,
    weak: bool,
    strong: bool,
) -> u64
    requires room { 2 ≤ room_in records.old }
    requires index { index + 2 ≤ 18446744073709551615 }
    ensures stands { (objects : List Object) (l : List Reference) → RecordsAre records.old objects l
        → ((weak || strong) ≡ true → IsHere o objects)
        → RecordsAre records.new objects (l ++ reading.handshakes_for place index o (owed weak strong)) }
    ensures names { KeepsSettled records.old records.new }
    ensures index { result ≡ index + length (owed weak strong) }
    ensures uses { rooms_of.Uses records.old records.new 0 2 0 }
{
    let mut next = index;
    if weak {
        records.push(handshake(place, next, o, false));
        next += 1;
    }
    if strong {
        records.push(handshake(place, next, o, true));
        next += 1;
    }
    next
}

fn handshake(place: u64, index: u64, o: Identity, strong: bool) -> Reference
    ensures { result ≡ refer.reference_of place index o strong Handshake }
{
    Reference {
        id: Origin { place, index },
        object: o,
        strong,
        holder: Holder::Handshake,
    }
}

/// The references that stand for what a work item leaves to be acknowledged, from this index. Gives the index after
/// them. What is held, and strongly, is what was so before the reading.
#[tactic(auto, unfolding(bd_space::specs::Returns::returns_of))]
fn add_handshakes_of(records: &mut Records, place: u64, index: u64, kind: WorkKind) -> u64
    requires room { 2 ≤ room_in records.old }
    requires index { index + 2 ≤ 18446744073709551615 }
    ensures stands { (s : Space) (l : List Reference) → IsAt place s
        → HoldsAlike s.references l → RecordsAre records.old s.objects l
        → RecordsAre records.new s.objects (l ++ reading.handshakes_of s index kind)
        × (result ≡ index + length (reading.handshakes_of s index kind)) }
    ensures names { KeepsSettled records.old records.new }
    ensures index { result ≤ index + 2 }
    ensures uses { rooms_of.Uses records.old records.new 0 2 0 }
{
    let WorkKind::Notice(o) = kind else {
        return index;
    };
    let (weak, strong) = acknowledgements(records, o);
    add_acknowledgements(records, place, index, o, weak, strong)
}

/// The references that stand for what is left to be acknowledged.
fn add_handshakes(records: &mut Records, place: u64, taken: &[Work])
    requires { 2 * length taken.now ≤ room_in records.old }
    ensures stands { (s : Space) → IsAt place s → RecordsAre records.old s.objects s.references
        → RecordsAre records.new s.objects (s.references ++ reading.handshakes s 0 taken.now) }
    ensures names { KeepsSettled records.old records.new }
    ensures uses { rooms_of.Uses records.old records.new 0 (2 * length taken.now) 0 }
{
    let mut index = 0;
    for w in taken {
        index = add_handshakes_of(records, place, index, w.kind);
    }
}

impl ObjectTable {
    ghost use Rattle.bd_ways.specs.Tables.{Tells, MakesWhere};
    ghost use Rattle.bd_objects.specs.{Stands.{StandsFor}, Room.{Uses, nothing, reference_room}};

    /// What the owner of the object is told: `BR_INCREFS`, `BR_ACQUIRE`, `BR_RELEASE` and `BR_DECREFS`, each if it is
    /// to be told that.
    pub fn notice_returns(&self, o: Identity) -> [Option<Return>; 4]
        ensures { Tells (StandsFor self.now) (flat_map option_to_list result)
            (λ s. returns.returns_of_object s.references (refer.object_in s.objects o)) }
    {
        match self.records.kept(o) {
            Some(kept) => notice_returns_of(kept),
            None => [None, None, None, None],
        }
    }

    /// The references, told values and death notifications after these work items were read by the step of this place:
    /// a reference stands for each acknowledgement that is owed, owners know what is so, and the deaths are told.
    #[tactic(auto, unfolding(bd_space::specs::ReadItems::read_by, crate::specs::Room::rooms))]
    pub fn read_by(&mut self, place: u64, taken: &[Work])
        requires { 2 * length taken.now ≤ reference_room self.old }
        ensures stands { (seat : ℕ) → MakesWhere (StandsFor self.old) (IsAt place) (StandsFor self.new)
            (λ s. reading.read_by s seat taken.now) }
        ensures uses { Uses self.old self.new (record nothing { references = 2 * length taken.now }) }
    {
        self.sure_room = self
            .sure_room
            .saturating_sub(taken.len())
            .saturating_sub(taken.len());
        // What is owed is told by the old told values. An acknowledgement keeps an object that is kept already: what
        // is held is the same afterwards.
        add_handshakes(&mut self.records, place, taken);
        tell_owners(&mut self.records, taken);
        self.deaths.read(taken);
    }
}
