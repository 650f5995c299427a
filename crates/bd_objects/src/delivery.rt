//! What a delivery leaves: the objects that a parcel makes, the references that its buffer holds, the names that the
//! receiver gets, and the flat objects as the receiver sees them.

ghost use Rattle.std.specs.Prelude.{◌≡◌, ◌≤◌, ◌+◌, ◌++◌, ◌∷◌, [], length, Some, None, List, OnOk, OnErr};
ghost use Rattle.bd_space.specs.Delivery as delivery;
ghost use Rattle.bd_space.specs.Parcels as translations;
ghost use Rattle.bd_space.specs.declared.space.{Object.{Object}, Reference.{Reference}, Name.{Name}};
ghost use Rattle.bd_space.specs.declared.step.Identity as declared;
ghost use Rattle.bd_records.specs.{Records.{RecordsAre, reference_room as room_in}, Since.{Settled, KeepsSettled}, Room.{Uses}};
ghost use Rattle.bd_objects.specs.{Delivery.{AreReady}, New.{IsHere}};

use crate::naming::give_names;
use crate::table::ObjectTable;
use bd_records::{NumbersFull, Records, name_number};
use bd_space::{Holder, Identity, Item, Object, Origin, Reference};
use bd_uapi::{FlatObject, ObjectKind};

/// As its owner sees the object.
fn as_own(x: &FlatObject, o: &Object) -> FlatObject
    ensures { result ≡ translations.as_own x.now o.now }
{
    FlatObject {
        kind: if x.kind.is_strong() {
            ObjectKind::Binder
        } else {
            ObjectKind::WeakBinder
        },
        binder: o.ptr,
        cookie: o.cookie,
        ..*x
    }
}

/// As anybody else sees it.
fn as_handle(x: &FlatObject, n: u32) -> FlatObject
    ensures { result ≡ translations.as_handle x.now n }
{
    FlatObject {
        kind: if x.kind.is_strong() {
            ObjectKind::Handle
        } else {
            ObjectKind::WeakHandle
        },
        binder: u64::from(n),
        cookie: 0,
        ..*x
    }
}

/// The reference by which the buffer of this place, in the process's window, holds an item's object.
fn carried_reference(place: u64, q: u64, index: usize, x: &Item) -> Reference
    ensures { result ∷ [] ≡ delivery.buffer_references place q index (x.now ∷ []) None }
{
    Reference {
        id: Origin {
            place,
            index: index as u64,
        },
        object: x.object,
        strong: x.flat.kind.is_strong(),
        holder: Holder::Carried(place, q),
    }
}

/// One reference an item, held by the buffer of this place in the process's window, where the records are ready for them.
fn add_carried(records: &mut Records, place: u64, q: u64, items: &[Item])
    requires { length items.now ≤ room_in records.old }
    ensures stands { (objects : List Object) (l : List Reference) (names : List Name)
        → RecordsAre records.old objects l → Settled records.old names → AreReady objects names q items.now
        → RecordsAre records.new objects (l ++ delivery.buffer_references place q 0 items.now None) }
    ensures names { KeepsSettled records.old records.new }
    ensures uses { Uses records.old records.new 0 (length items.now) 0 }
{
    for (i, x) in items.iter().enumerate() {
        records.push(carried_reference(place, q, i, x));
    }
}

/// The reference to the object that a transaction goes to, which is there.
fn add_target(records: &mut Records, place: u64, q: u64, index: usize, target: Option<Identity>)
    requires { 1 ≤ room_in records.old }
    ensures stands { (objects : List Object) (l : List Reference) → RecordsAre records.old objects l
        → ((o : declared.Identity) → target ≡ Some o → IsHere o objects)
        → RecordsAre records.new objects (l ++ delivery.buffer_references place q index [] target) }
    ensures names { KeepsSettled records.old records.new }
    ensures uses { Uses records.old records.new 0 1 0 }
{
    if let Some(o) = target {
        let r = Reference {
            id: Origin {
                place,
                index: index as u64,
            },
            object: o,
            strong: true,
            holder: Holder::Target(place, q),
        };
        records.push(r);
    }
}

fn add_references(
    records: &mut Records,
    place: u64,
    q: u64,
    items: &[Item],
    target: Option<Identity>,
)
    requires { length items.now + 1 ≤ room_in records.old }
    ensures stands { (objects : List Object) (l : List Reference) (names : List Name)
        → RecordsAre records.old objects l → Settled records.old names → AreReady objects names q items.now
        → ((o : declared.Identity) → target ≡ Some o → IsHere o objects)
        → RecordsAre records.new objects (l ++ delivery.buffer_references place q 0 items.now target) }
    ensures names { KeepsSettled records.old records.new }
    ensures uses { Uses records.old records.new 0 (length items.now + 1) 0 }
{
    add_carried(records, place, q, items);
    add_target(records, place, q, items.len(), target);
}

impl ObjectTable {
    ghost use Rattle.bd_ways.specs.Tables.{Tells, MakesWhere};
    ghost use Rattle.bd_objects.specs.{Stands.{StandsFor, IsKept, IsAtWith}, Delivery.{delivered}, New.{IsDelivered}};
    ghost use Rattle.bd_objects.specs.Numbers.{SpaceIsPastLimit};
    ghost use Rattle.bd_objects.specs.Room.{Uses as UsesRoom, delivery_room, object_room, reference_room, name_room};

    /// The flat object as the process is to see it: its own by ptr and cookie, anybody else's by its number.
    pub fn translated(&self, q: u64, x: &Item) -> FlatObject
        ensures { Tells (StandsFor self.now) result (λ s. translations.translated s.objects s.names q x.now) }
    {
        match self.records.own_object(q, x.object) {
            Some(o) => as_own(&x.flat, &o),
            None => as_handle(
                &x.flat,
                name_number(&self.records.names, q, x.object).unwrap_or(0),
            ),
        }
    }

    /// The objects, references and names of a delivery to the receiver: the objects that the sender makes, one
    /// reference an item and one to the target, held by the buffer of this place, and a number for each object that the
    /// receiver is to name and has no name for. All of it, or nothing where a number past the limit would be needed.
    /// Takes the context manager's object. Of a space in which what the parcel makes is new, and with that all is there that
    /// the buffer is to refer to.
    #[tactic(auto, unfolding(bd_space::specs::Delivery::make_objects, bd_space::specs::Delivery::refer, bd_space::specs::Names::assign_numbers, bd_space::specs::Names::names_go, crate::specs::Room::rooms))]
    pub fn deliver(
        &mut self,
        place: u64,
        manager: Option<Identity>,
        receiver: u64,
        made: &[Object],
        items: &[Item],
        target: Option<Identity>,
    ) -> Result<(), NumbersFull>
        requires objects { length made.now ≤ object_room self.old }
        requires references { length items.now + 1 ≤ reference_room self.old }
        requires names { length items.now ≤ name_room self.old receiver }
        ensures ok { OnOk result (MakesWhere (StandsFor self.old) (IsDelivered place manager made.now items.now target) (StandsFor self.new)
            (λ s. delivered s receiver made.now items.now target)) }
        ensures err { OnErr result (IsKept self.old self.new) }
        ensures full { OnErr result (MakesWhere (StandsFor self.old) (IsAtWith place manager) SpaceIsPastLimit
            (λ s. delivered s receiver made.now items.now target)) }
        ensures uses { UsesRoom self.old self.new (delivery_room receiver made.now items.now) }
    {
        self.sure_room = self
            .sure_room
            .saturating_sub(made.len().max(items.len() + 1));
        self.sure_names = self.sure_names.saturating_sub(items.len());
        // An item's object is to be named exactly where it isn't the receiver's own, since the delivery refers to it:
        // so the names can come first, and nothing else is touched where one is past the limit.
        give_names(&mut self.records, manager, made, receiver, items)?;
        self.records.push_all(made);
        add_references(&mut self.records, place, receiver, items, target);
        Ok(())
    }
}
