//! What a parcel sends: its objects, each known to the sender or made by the sending.

ghost use Rattle.std.specs.{Prelude.{◌≡◌, ◌≤◌, ◌+◌, ◌%◌, ◌++◌, ◌∷◌, [], All, IfOk, OnOk, length}, Option.{option_to_list}};
ghost use Rattle.bd_parcel.specs.{Parcels.{offsets_in, fault_in}, Reading.{objects_at}};
ghost use Rattle.bd_space.specs.Parcels as parcels;
ghost use Rattle.bd_objects.specs.Made.{made_items};
ghost use Rattle.bd_step.specs.{Stands.{Tells}, Deliveries.{IsInside, IsSound, sending}};

use crate::tables::Tables;
use bd_objects::Made;
use bd_parcel::{Objects, WalkFault, walk};
use bd_space::{Item, Object, Parcel, Resolved};
use bd_uapi::{Cause, FlatObject, TransactionData};
use std::alloc::AllocError;
use std::marker::Model;

/// The most objects that a parcel may carry: each gets a number of 32 bits.
const MOST_OBJECTS: usize = 0xffff_ffff;

/// What is sent: a parcel, the objects that its sender makes by it, and all its objects in their order.
#[derive(Drop)]
pub(crate) struct Sending<'a> {
    parcel: &'a Parcel,
    made: Vec<Object>,
    items: Vec<Item>,
}

impl<'a> Model for Sending<'a> {
    ghost Value = { parcels.Sending };

    ghost view = { λ x. sending x.parcel.now x.made.items x.items.items };
}

impl<'a> Sending<'a> {
    /// The parcel, the objects that the sender makes, and all its objects.
    pub(crate) fn into_parts(self) -> (&'a Parcel, Vec<Object>, Vec<Item>)
        ensures { sending result.0.now result.1.items result.2.items ≡ self.entry }
    {
        let Sending {
            parcel,
            made,
            items,
        } = self;
        (parcel, made, items)
    }
}

fn cause_of_walk(fault: WalkFault) -> Cause
    ensures { result ≡ parcels.cause_of_walk fault }
{
    match fault {
        WalkFault::Size => Cause::OffsetsSize,
        WalkFault::Bad { .. } => Cause::BadObject,
        WalkFault::Unsupported { .. } => Cause::UnsupportedObject,
    }
}

// Whether the parcel was cut from its area with the sizes that its record says.
fn has_sizes(sent: &TransactionData, parcel: &Parcel) -> bool
    ensures { result ≡ parcels.has_sizes sent.now parcel.now }
{
    parcel.bytes.len() as u64 == sent.data_size && parcel.offsets.len() as u64 == sent.offsets_size
}

// One object more, of so many that may come.
fn add(
    made: &mut Made,
    items: &mut Vec<Item>,
    left: usize,
    at: usize,
    flat: FlatObject,
    resolved: Resolved,
) -> Result<(), AllocError>
    requires { 1 ≤ left }
    ensures made { OnOk result (made_items made.new ≡ made_items made.old ++ option_to_list resolved.new) }
    ensures items { OnOk result
        (items.new.items ≡ items.old.items ++ record { at = at; flat = flat; object = resolved.object } ∷ []) }
{
    if let Some(o) = resolved.new {
        made.reserve(left)?;
        made.push(o);
    }
    items.push(Item {
        at: at as u64,
        flat,
        object: resolved.object,
    })?;
    Ok(())
}

impl Tables {
    // The objects of a walked parcel, one after the other.
    fn resolve_all<'a>(
        &self,
        p: u64,
        parcel: &'a Parcel,
        objects: &Objects<'_>,
    ) -> Result<Result<Sending<'a>, Cause>, AllocError>
        requires bytes { objects.now.bytes ≡ parcel.now.bytes }
        requires offsets { objects.now.offsets ≡ offsets_in parcel.now.offsets }
        requires objects { objects.now.objects ≡ objects_at parcel.now.bytes (offsets_in parcel.now.offsets) }
        ensures computed { IfOk result
            (λ r. Tells self.now r
            (λ s. parcels.resolve_all s p parcel.now.bytes parcel.now.offsets [] [] (offsets_in parcel.now.offsets))) }
        ensures bytes { IfOk result (λ r. IfOk r (λ x. x.bytes ≡ parcel.now.bytes)) }
        ensures offsets { IfOk result (λ r. IfOk r (λ x. x.offsets ≡ parcel.now.offsets)) }
        ensures inside { IfOk result (λ r. IfOk r (λ x. All (IsInside x.bytes) x.items)) }
    {
        if objects.len() > MOST_OBJECTS {
            return Err(AllocError);
        }
        let mut made = Made::new(self.alloc);
        let mut items = Vec::with_capacity(self.alloc, objects.len())?;
        for k in 0..objects.len() {
            let x = objects.get(k);
            match self.objects.resolve(self.steps, p, &made, &x.object) {
                Err(cause) => return Ok(Err(cause)),
                Ok(resolved) => {
                    let left = objects.len() - k;
                    add(&mut made, &mut items, left, x.start, x.object, resolved)?;
                }
            }
        }
        Ok(Ok(Sending {
            parcel,
            made: made.into_objects(),
            items,
        }))
    }

    // A parcel whose offsets are whole.
    fn resolve_walked<'a>(
        &self,
        p: u64,
        parcel: &'a Parcel,
    ) -> Result<Result<Sending<'a>, Cause>, AllocError>
        requires { length parcel.now.offsets % 8 ≡ 0 }
        ensures computed { IfOk result
            (λ r. Tells self.now r
            (λ s. parcels.resolve_walked s p parcel.now (fault_in parcel.now.bytes (offsets_in parcel.now.offsets)))) }
        ensures bytes { IfOk result (λ r. IfOk r (λ x. x.bytes ≡ parcel.now.bytes)) }
        ensures offsets { IfOk result (λ r. IfOk r (λ x. x.offsets ≡ parcel.now.offsets)) }
        ensures inside { IfOk result (λ r. IfOk r (λ x. All (IsInside x.bytes) x.items)) }
    {
        // Most parcels carry no object.
        if parcel.offsets.len() == 0 {
            return Ok(Ok(Sending {
                parcel,
                made: Vec::new(self.alloc),
                items: Vec::new(self.alloc),
            }));
        }
        match walk(parcel.bytes.as_slice(), parcel.offsets.as_slice()) {
            Err(fault) => Ok(Err(cause_of_walk(fault))),
            Ok(objects) => self.resolve_all(p, parcel, &objects),
        }
    }

    /// What the process sends by this parcel, or the first cause against it. `AllocError` also where a parcel carries more
    /// objects than there are numbers of 32 bits.
    #[tactic(auto, unfolding(bd_space::specs::Parcels::sending_of))]
    pub(crate) fn sending_of<'a>(
        &self,
        p: u64,
        sent: &TransactionData,
        parcel: &'a Option<Parcel>,
    ) -> Result<Result<Sending<'a>, Cause>, AllocError>
        ensures computed { IfOk result (λ r. Tells self.now r (λ s. parcels.sending_of s p sent.now parcel.now)) }
        ensures sound { IfOk result (λ r. IfOk r (IsSound sent.now)) }
    {
        let Some(q) = parcel else {
            return Ok(Err(Cause::OutsideArea));
        };
        if !has_sizes(sent, q) {
            return Ok(Err(Cause::OutsideArea));
        }
        if q.offsets.len() % 8 != 0 {
            return Ok(Err(Cause::OffsetsSize));
        }
        self.resolve_walked(p, q)
    }
}
