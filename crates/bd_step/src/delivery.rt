//! Delivery: the objects, references and names of a parcel, its buffer with the translated data, and the notices of its
//! sender's own objects.

ghost use Rattle.std.specs.Prelude.{◌≡◌, ◌≤◌, IfOk, OnOk, OnErr, length, Some, None, fold, not, ◌&&◌, if◌then◌else◌};
ghost use Rattle.std.specs.List.{filter_map};
ghost use Rattle.bd_uapi.specs.Kinds as kinds;
ghost use Rattle.bd_space.specs.{References.{object_in}, Space.{Space}, Seats.{process_in}};
ghost use Rattle.bd_space.specs.Windows as room;
ghost use Rattle.bd_space.specs.Words as words;
ghost use Rattle.bd_space.specs.Parcels as parcels;
ghost use Rattle.bd_space.specs.Names.{names_go};
ghost use Rattle.bd_space.specs.Delivery as spec;
ghost use Rattle.bd_ways.specs.Tables.{MakesWhere};
ghost use Rattle.bd_objects.specs.Room as object_rooms;
ghost use Rattle.bd_calls.specs.Room as call_rooms;
ghost use Rattle.bd_buffers.specs.WindowsStand.{CanAdd, HasBufferRoom};
ghost use Rattle.bd_step.specs.{Stands.{Before, Tells, Makes, Begins, PassesLimit, KeepsTold}, Meets.{IsKept}};
ghost use Rattle.bd_step.specs.{Following.{AreTouched}, Known.{known_before, are_known_before}};
ghost use Rattle.bd_step.specs.Deliveries.{IsSound, IsDeliverable, IsReady, CanSend, Delivers, Spends, OnlyWorks, OnlyObjects, sending, size_of, IsCopy};

use crate::sending::Sending;
use crate::tables::Tables;
use crate::touched::in_order;
use bd_buffers::{Lent, Record, needed};
use bd_objects::{NumbersFull, Room};
use bd_space::{Actor, Bytes, Identity, Item, Object, Parcel, Process, TodoList};
use bd_uapi::{Cause, TransactionData};
use std::alloc::{AllocError, Global};
use std::marker::Model;

/// What is delivered: to which process, on which object, whether one-way, what, and where in the receiver's window.
#[derive(Drop)]
pub(crate) struct Delivery<'a> {
    receiver: Process,
    target: Option<Identity>,
    one_way: bool,
    parcel: &'a Parcel,
    // The data once more, where there are objects to be written over it.
    copy: Option<Bytes>,
    made: Vec<Object>,
    items: Vec<Item>,
    start: u32,
}

impl<'a> Model for Delivery<'a> {
    ghost use Rattle.bd_space.specs.Delivery as spec;
    ghost use Rattle.bd_step.specs.Deliveries.{IsCopy, sending};

    ghost Value = { spec.Delivery };

    ghost view = { λ v. record {
      receiver = v.receiver;
      target = v.target;
      one_way = v.one_way;
      sending = sending v.parcel.now v.made.items v.items.items;
      start = v.start;
    } };

    ghost invariant = { λ v. IsCopy v.copy v.parcel.now.bytes v.items.items };
}

impl<'a> Delivery<'a> {
    /// To which process.
    pub(crate) fn receiver(&self) -> u64
        ensures { result ≡ self.now.receiver.made }
    {
        self.receiver.made
    }

    /// On which object.
    pub(crate) fn target(&self) -> Option<Identity>
        ensures { result ≡ self.now.target }
    {
        self.target
    }

    /// The object that it calls one-way.
    pub(crate) fn one_way_target(&self) -> Option<Identity>
        ensures { result ≡ (if self.now.one_way then self.now.target else None) }
    {
        if self.one_way { self.target } else { None }
    }

    /// Whether one-way.
    pub(crate) fn is_one_way(&self) -> bool
        ensures { result ≡ self.now.one_way }
    {
        self.one_way
    }

    /// The objects that the sender makes.
    pub(crate) fn made(&self) -> &[Object]
        ensures { result.now ≡ self.now.sending.made }
    {
        self.made.as_slice()
    }

    /// All its objects.
    pub(crate) fn items(&self) -> &[Item]
        ensures { result.now ≡ self.now.sending.items }
    {
        self.items.as_slice()
    }
}

// The data once more, where there are objects to be written over it. Most parcels carry none.
fn copy_of(parcel: &Parcel, items: &[Item]) -> Result<Option<Bytes>, AllocError>
    ensures { IfOk result (λ copy. IsCopy copy parcel.now.bytes items.now) }
{
    if items.is_empty() {
        return Ok(None);
    }
    Ok(Some(parcel.bytes.copied()?))
}

// The item's object, unless the step of this place makes it.
fn known_before(place: u64, x: &Item) -> Option<Identity>
    ensures { result ≡ known_before place x.now }
{
    if x.flat.kind.is_own() && x.object.place == place {
        None
    } else {
        Some(x.object)
    }
}

// The objects of these that the step of this place doesn't make: of one that it makes nothing follows. Most parcels carry none.
#[inline(always)]
fn objects_before(alloc: Global, place: u64, items: &[Item]) -> Result<Vec<Identity>, AllocError>
    ensures { IfOk result (λ os. os.items ≡ filter_map (known_before place) items.now) }
{
    if items.is_empty() {
        return Ok(Vec::new(alloc));
    }
    items
        .iter()
        .filter_map(|x| known_before(place, x))
        .collect(alloc)
}

/// A buffer as it is to be laid out in its window: its data as its receiver is to see them, or those of its parcel where they are
/// just these. Contracts see the buffer.
#[derive(Drop)]
struct Laid<'a> {
    record: Record,
    own: Option<Bytes>,
    parcel: &'a Parcel,
}

impl<'a> Model for Laid<'a> {
    ghost use Rattle.bd_space.specs.declared.space.Buffer.{Buffer};
    ghost use Rattle.bd_buffers.specs.Record.{with_bytes, IsSized};
    ghost use Rattle.bd_step.specs.Deliveries.{laid_bytes};

    ghost Value = { Buffer };

    ghost view = { λ l. with_bytes l.record (laid_bytes l.own l.parcel.now.bytes) l.parcel.now.offsets };

    ghost invariant = { λ l. IsSized l.record (laid_bytes l.own l.parcel.now.bytes) l.parcel.now.offsets };
}

impl<'a> Laid<'a> {
    // The same, its bytes lent.
    fn lent(&self) -> Lent<'_>
        ensures { result ≡ self.now }
    {
        let bytes = match &self.own {
            Some(bytes) => bytes.as_slice(),
            None => self.parcel.bytes.as_slice(),
        };
        Lent::new(&self.record, bytes, self.parcel.offsets.as_slice())
    }
}

impl Tables {
    // Where the sending goes in its receiver's window. Nothing is copied where there is no place for it.
    #[inline(always)]
    fn placed_for<'a>(
        &self,
        sent: &TransactionData,
        receiver: Process,
        target: Option<Identity>,
        one_way: bool,
        sending: Sending<'a>,
    ) -> Result<Result<Delivery<'a>, Cause>, AllocError>
        requires { IsSound sent.now sending }
        ensures computed { IfOk result
            (λ r. (s : Space) → Before self.now s → process_in s.processes receiver.made ≡ Some receiver
            → r ≡ spec.placed_for s sent.now receiver target one_way sending.entry) }
        ensures deliverable { IfOk result (λ r. IfOk r (IsDeliverable self.now sent.now)) }
    {
        match self
            .windows
            .start_for(receiver.made, one_way, sent.data_size, sent.offsets_size)
        {
            Err(cause) => Ok(Err(cause)),
            Ok(start) => {
                let (parcel, made, items) = sending.into_parts();
                let copy = copy_of(parcel, items.as_slice())?;
                Ok(Ok(Delivery {
                    receiver,
                    target,
                    one_way,
                    parcel,
                    copy,
                    made,
                    items,
                    start,
                }))
            }
        }
    }

    /// What the actor sends to the receiver by this parcel, or the first cause against it.
    // Put into its callers, as what else has a delivery: it isn't moved from frame to frame.
    #[inline(always)]
    pub(crate) fn sent_to<'a>(
        &self,
        actor: Actor,
        sent: &TransactionData,
        parcel: &'a Option<Parcel>,
        receiver: Process,
        target: Option<Identity>,
        one_way: bool,
    ) -> Result<Result<Delivery<'a>, Cause>, AllocError>
        ensures computed { IfOk result
            (λ r. (s : Space) → Before self.now s → process_in s.processes receiver.made ≡ Some receiver
            → r ≡ words.and_then (parcels.sending_of s actor.process.made sent.now parcel.now)
            (spec.placed_for s sent.now receiver target one_way)) }
        ensures deliverable { IfOk result (λ r. IfOk r (IsDeliverable self.now sent.now)) }
    {
        match self.sending_of(actor.process.made, sent, parcel)? {
            Err(cause) => Ok(Err(cause)),
            Ok(sending) => self.placed_for(sent, receiver, target, one_way, sending),
        }
    }

    /// Makes room for a delivery and for what follows from it, and tells at which objects, in the order in which they were
    /// made: at those that the parcel doesn't make. Changes nothing else, also where memory is refused.
    #[inline(always)]
    pub(crate) fn reserve_delivery(
        &mut self,
        sent: &TransactionData,
        delivery: &Delivery<'_>,
    ) -> Result<Vec<Identity>, AllocError>
        requires fits { size_of sent.now ≤ 4194304 }
        ensures stands { IsKept self.old self.new }
        ensures deliverable { (d : TransactionData) → IsDeliverable self.old d delivery.now → IsDeliverable self.new d delivery.now }
        ensures ready { OnOk result (IsReady self.new sent.now delivery.now) }
        ensures touched { IfOk result (λ os. AreTouched (are_known_before self.old.steps delivery.now.sending.items) os.items) }
        ensures len { IfOk result (λ os. length os.items ≤ length delivery.now.sending.items) }
        ensures told { KeepsTold self.old self.new }
    {
        let items = delivery.items().len();
        let references = items.checked_add(1).ok_or(AllocError)?;
        let works = items
            .checked_mul(2)
            .and_then(|n| n.checked_add(3))
            .ok_or(AllocError)?;
        let touched = in_order(objects_before(self.alloc, self.steps, delivery.items())?);
        let size = needed(sent.data_size, sent.offsets_size);
        self.windows
            .reserve_buffer(delivery.receiver(), delivery.start, size)?;
        let room = Room {
            objects: delivery.made().len(),
            references,
            names: items,
            process: delivery.receiver(),
            deaths: 0,
        };
        self.reserve(room, works)?;
        Ok(touched)
    }

    // The buffer of a delivery.
    #[inline(always)]
    fn buffer_of<'a>(
        &self,
        actor: Actor,
        sent: &TransactionData,
        delivery: Delivery<'a>,
    ) -> Laid<'a>
        requires { IsDeliverable self.now sent.now delivery }
        ensures buffer { Tells self.now result (λ s. spec.buffer_of s actor sent.now delivery.entry) }
        ensures receiver { result.receiver ≡ delivery.entry.receiver.made }
        ensures sized { result.size ≡ room.needed (length result.bytes) (length result.offsets) }
        ensures at { (result.start ≡ delivery.entry.start) × (result.size ≡ size_of sent.now) }
        ensures can_add { CanAdd self.now.windows result.receiver result.one_way result.size result.start }
    {
        let Delivery {
            receiver,
            target,
            one_way,
            parcel,
            copy,
            made: _,
            items,
            start,
        } = delivery;
        let record = Record {
            made: self.steps,
            receiver: receiver.made,
            sender: actor.process.made,
            start,
            size: needed(sent.data_size, sent.offsets_size),
            data_size: sent.data_size as u32,
            offsets_size: sent.offsets_size as u32,
            one_way,
            handed: false,
            target,
            code: sent.code,
            flags: sent.flags,
            euid: actor.process.euid,
        };
        let own = self.put_right(receiver.made, copy, items.as_slice());
        Laid {
            record,
            own,
            parcel,
        }
    }

    // Sending an object strongly that its owner isn't told strong takes a standing notice away.
    fn takes_notice(&self, x: &Item) -> bool
        ensures { Tells self.now result
            (λ s. kinds.is_own x.now.flat.kind && kinds.is_strong_kind x.now.flat.kind && words.is_some_and
            (object_in s.objects x.now.object) (λ o. not o.told_strong)) }
    {
        x.flat.kind.is_own()
            && x.flat.kind.is_strong()
            && self
                .objects
                .object(x.object)
                .is_some_and(|o| !o.told_strong)
    }

    fn withdraw_notice(&mut self, x: &Item)
        ensures stands { Makes self.old self.new
            (λ s. record s { todo = spec.withdraw_notice s.objects s.todo x.now }) }
        ensures works { OnlyWorks self.old self.new 0 }
        ensures told { KeepsTold self.old self.new }
    {
        if self.takes_notice(x) {
            self.calls.withdraw_notice(x.object);
        }
    }

    fn withdraw_notices(&mut self, items: &[Item])
        ensures stands { Makes self.old self.new
            (λ s. record s { todo = fold (spec.withdraw_notice s.objects) s.todo items.now }) }
        ensures works { OnlyWorks self.old self.new 0 }
        ensures told { KeepsTold self.old self.new }
    {
        for x in items {
            self.withdraw_notice(x);
        }
    }

    // A notice that is missing is made on the sending thread's list.
    fn add_notice(&mut self, seat: u32, x: &Item)
        requires { 1 ≤ call_rooms.work_room self.old.calls }
        ensures stands { Makes self.old self.new (λ s. record s { todo = spec.add_notice s seat s.todo x.now }) }
        ensures works { OnlyWorks self.old self.new 1 }
        ensures told { KeepsTold self.old self.new }
    {
        if !x.flat.kind.is_own() {
            return;
        }
        let owner = self.objects.owner_to_tell(&self.processes, x.object);
        if owner.is_some() {
            let list = TodoList::OfThread(seat);
            self.calls.add_notice(self.steps, list, x.object, true);
        }
    }

    fn add_notices(&mut self, seat: u32, items: &[Item])
        requires { length items.now ≤ call_rooms.work_room self.old.calls }
        ensures stands { Makes self.old self.new
            (λ s. record s { todo = fold (spec.add_notice s seat) s.todo items.now }) }
        ensures works { OnlyWorks self.old self.new (length items.now) }
        ensures told { KeepsTold self.old self.new }
    {
        for x in items {
            self.add_notice(seat, x);
        }
    }

    // All standing ones first, and then the new ones in the order of the parcel.
    fn own_notices(&mut self, seat: u32, items: &[Item])
        requires { length items.now ≤ call_rooms.work_room self.old.calls }
        ensures stands { Makes self.old self.new (λ s. spec.own_notices s seat items.now) }
        ensures works { OnlyWorks self.old self.new (length items.now) }
        ensures told { KeepsTold self.old self.new }
    {
        self.withdraw_notices(items);
        self.add_notices(seat, items);
    }

    // Takes in the objects, the references and the names.
    #[inline(always)]
    fn deliver_objects(&mut self, delivery: &Delivery<'_>) -> Result<(), NumbersFull>
        requires { object_rooms.HasRoom self.old.objects
            (object_rooms.delivery_room delivery.now.receiver.made delivery.now.sending.made delivery.now.sending.items) }
        ensures ok { OnOk result (MakesWhere (Before self.old) (CanSend delivery.now) (Before self.new)
            (λ s. spec.with_carried s delivery.now)) }
        ensures err { OnErr result (IsKept self.old self.new) }
        ensures full { OnErr result (PassesLimit self.old (λ s. names_go (spec.with_carried s delivery.now))) }
        ensures objects { OnlyObjects self.old self.new }
        ensures told { KeepsTold self.old self.new }
    {
        self.objects.deliver(
            self.steps,
            self.manager,
            delivery.receiver(),
            delivery.made(),
            delivery.items(),
            delivery.target(),
        )
    }

    // Puts the notices and the buffer in, where the names are known.
    #[inline(always)]
    fn fill(&mut self, actor: Actor, sent: &TransactionData, delivery: Delivery<'_>)
        requires deliverable { IsDeliverable self.old sent.now delivery }
        requires turns { 1 ≤ call_rooms.turn_room self.old.calls }
        requires works { length delivery.sending.items ≤ call_rooms.work_room self.old.calls }
        requires room { HasBufferRoom self.old.windows delivery.receiver.made delivery.start (size_of sent.now) }
        ensures stands { Begins self.old self.new
            (λ s. spec.own_notices (spec.add_buffer s (spec.buffer_of s actor sent.now delivery.entry)) actor.thread.seat delivery.entry.sending.items) }
        ensures spends { Spends self.old self.new 0 1 (length delivery.entry.sending.items) }
        ensures told { KeepsTold self.old self.new }
    {
        self.own_notices(actor.thread.seat, delivery.items());
        let buffer = self.buffer_of(actor, sent, delivery);
        self.add_buffer(buffer.lent());
    }

    /// The whole delivery; nothing where a number past the limit would be needed. Takes no memory.
    #[inline(always)]
    pub(crate) fn delivered(
        &mut self,
        actor: Actor,
        sent: &TransactionData,
        delivery: Delivery<'_>,
    ) -> Result<(), NumbersFull>
        requires deliverable { IsDeliverable self.old sent.now delivery }
        requires ready { IsReady self.old sent.now delivery }
        ensures ok { OnOk result (Delivers self.old self.new delivery.entry (λ s. spec.delivered s actor sent.now delivery.entry)) }
        ensures err { OnErr result (IsKept self.old self.new) }
        ensures full { OnErr result (PassesLimit self.old (λ s. names_go (spec.with_carried s delivery.entry))) }
        ensures spends { OnOk result (Spends self.old self.new 0 1 (length delivery.entry.sending.items)) }
        ensures told { KeepsTold self.old self.new }
    {
        match self.deliver_objects(&delivery) {
            Err(full) => Err(full),
            Ok(()) => {
                self.fill(actor, sent, delivery);
                Ok(())
            }
        }
    }
}
