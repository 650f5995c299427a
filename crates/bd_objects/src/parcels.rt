//! The objects that a parcel sends.

ghost use Rattle.std.specs.Prelude.{◌≡◌, ◌==◌, ◌<◌, ◌%◌, ◌^◌, ◌++◌, length, List, Option, Result};
ghost use Rattle.bd_space.specs.References as refer;
ghost use Rattle.bd_space.specs.Parcels as parcels;
ghost use Rattle.bd_space.specs.declared.space.Object.{Object};
ghost use Rattle.bd_records.specs.Records.{RecordsAre};
ghost use Rattle.bd_space.specs.declared.space.Reference.{Reference};
ghost use Rattle.bd_objects.specs.Made.{made_items};

use crate::made::Made;
use crate::table::ObjectTable;
use bd_records::Records;
use bd_space::{Identity, Object, Resolved};
use bd_uapi::{Cause, FlatObject, ObjectKind};

/// The handle is the low half.
fn handle_in(binder: u64) -> u32
    ensures { result ≡ binder % 2 ^ 32 }
{
    (binder % 0x1_0000_0000) as u32
}

/// The process's own object with this ptr, one of these or one of those that are being made.
fn own_or_made(records: &Records, made: &Made, p: u64, ptr: u64) -> Option<Object>
    ensures { (objects : List Object) (l : List Reference) → RecordsAre records.now objects l
        → result ≡ refer.own_in (objects ++ made_items made.now) p ptr }
{
    match records.own_with_ptr(p, ptr) {
        Some(x) => Some(x),
        None => made.find_own(p, ptr),
    }
}

fn new_object(place: u64, p: u64, made: &[Object], x: &FlatObject) -> Object
    requires { length made.now < 2 ^ 32 }
    ensures { result ≡ parcels.new_object place p made.now x.now }
{
    Object {
        id: Identity {
            place,
            index: made.len() as u32,
        },
        owner: p,
        ptr: x.binder,
        cookie: x.cookie,
        told_weak: false,
        told_strong: false,
    }
}

fn resolve_handle(o: Option<Identity>) -> Result<Resolved, Cause>
    ensures { result ≡ parcels.resolve_handle o }
{
    match o {
        Some(object) => Ok(Resolved { object, new: None }),
        None => Err(Cause::NotHeld),
    }
}

impl ObjectTable {
    ghost use Rattle.bd_objects.specs.Stands.{StandsFor};
    ghost use Rattle.bd_ways.specs.Tables.{TellsWhere, IsAt};

    /// The object that the process sends by this flat object, where the step of this place has made these already: an
    /// own object is known by its ptr or made, a handle names another's. Errors: a known ptr with another cookie, or a
    /// handle that the process has no name with, or for a strong one no strong name.
    #[tactic(auto, unfolding(bd_space::specs::Parcels::resolve, bd_space::specs::Names::named))]
    pub fn resolve(
        &self,
        place: u64,
        p: u64,
        made: &Made,
        x: &FlatObject,
    ) -> Result<Resolved, Cause>
        requires { length (made_items made.now) < 2 ^ 32 }
        ensures { TellsWhere (StandsFor self.now) (IsAt place) result
            (λ s. parcels.resolve s p (made_items made.now) x.now) }
    {
        match x.kind {
            ObjectKind::Binder | ObjectKind::WeakBinder => {
                match own_or_made(&self.records, made, p, x.binder) {
                    None => {
                        let o = new_object(place, p, made.as_slice(), x);
                        Ok(Resolved {
                            object: o.id,
                            new: Some(o),
                        })
                    }
                    Some(o) if o.cookie == x.cookie => Ok(Resolved {
                        object: o.id,
                        new: None,
                    }),
                    Some(_) => Err(Cause::OtherCookie),
                }
            }
            ObjectKind::Handle => resolve_handle(self.strongly_named(p, handle_in(x.binder))),
            ObjectKind::WeakHandle => resolve_handle(self.named(p, handle_in(x.binder))),
        }
    }
}
