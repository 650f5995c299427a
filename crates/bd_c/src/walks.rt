//! The objects of a parcel, as C has them, and the walk from one to the next.
ghost use Rattle.std.specs.Prelude.{◌≡◌, ◌<◌, ◌≤◌, ◌+◌, ◌*◌, ◌++◌, length, take, drop, Some, None, IfOk, IfSome, MatchResult};
ghost use Rattle.bd_uapi.specs.{Bytes.{long_at}, Records.{type_of, object_bytes}};
ghost use Rattle.bd_parcel.specs.Parcels.{fault_at};
ghost use Rattle.bd_c.specs.Walks.{walk_number, flat_told, flat_given, kind_found, fault_given, with_index, judged, next_object, TellsNext};

use bd_journal::cause_number;
use bd_parcel::{WalkFault, put_object, walk};
use bd_uapi::codes::*;
use bd_uapi::numbers::u64_at;
use bd_uapi::{Cause, FlatObject, ObjectKind};

/// An object of a parcel: `struct flat_binder_object`, and where it stands.
#[repr(C)]
#[derive(Clone, Copy)]
pub struct FlatObjectInC {
    /// Its type, by the word that begins it (`BINDER_TYPE_BINDER`, and so on).
    pub kind: u32,
    /// Its flags, which cross unchanged.
    pub flags: u32,
    /// The ptr of an own object, or a handle in the low 32 bits.
    pub binder: u64,
    /// The cookie of an own object.
    pub cookie: u64,
    /// Where it begins in the data, in bytes. It ends 24 bytes on.
    pub start: usize,
}

/// How far a walk over a parcel's objects is. It begins with 0 in each field.
#[repr(C)]
#[derive(Clone, Copy)]
pub struct WalkInC {
    /// Which offset is next, from 0.
    pub index: usize,
    /// Where the object before it ends.
    pub end: usize,
    /// Why there is no next object: the number of the cause, or 0 at the end.
    pub cause: u32,
}

/// The number of the cause by which a transaction with such a parcel is refused.
pub(crate) fn walk_number(fault: WalkFault) -> u32
    ensures { result ≡ walk_number fault }
{
    let cause = match fault {
        WalkFault::Size => Cause::OffsetsSize,
        WalkFault::Bad { .. } => Cause::BadObject,
        WalkFault::Unsupported { .. } => Cause::UnsupportedObject,
    };
    cause_number(cause) as u32
}

fn type_word(kind: ObjectKind) -> u32
    ensures { result ≡ type_of kind }
{
    match kind {
        ObjectKind::Binder => BINDER,
        ObjectKind::WeakBinder => WEAK_BINDER,
        ObjectKind::Handle => HANDLE,
        ObjectKind::WeakHandle => WEAK_HANDLE,
    }
}

impl FlatObjectInC {
    /// What C is told of an object that stands there.
    pub(crate) fn of(object: &FlatObject, start: usize) -> FlatObjectInC
        ensures { result ≡ flat_told object.now start }
    {
        FlatObjectInC {
            kind: type_word(object.kind),
            flags: object.flags,
            binder: object.binder,
            cookie: object.cookie,
            start,
        }
    }

    // The type that is given by its word.
    fn kind(&self) -> Result<ObjectKind, WalkFault>
        ensures { result ≡ kind_found self.now.kind }
    {
        match self.kind {
            BINDER => Ok(ObjectKind::Binder),
            WEAK_BINDER => Ok(ObjectKind::WeakBinder),
            HANDLE => Ok(ObjectKind::Handle),
            WEAK_HANDLE => Ok(ObjectKind::WeakHandle),
            FD | FDA | PTR => Err(WalkFault::Unsupported { index: 0 }),
            _ => Err(WalkFault::Bad { index: 0 }),
        }
    }

    /// Writes the object's 24 bytes over those at its place.
    pub(crate) fn put(&self, bytes: &mut [u8]) -> Result<(), WalkFault>
        ensures { MatchResult result
            (λ _. (fault_given bytes.old self.now ≡ None)
            × (bytes.new ≡ take self.now.start bytes.old ++ object_bytes (flat_given self.now) ++ drop (self.now.start + 24) bytes.old))
            (λ fault. (fault_given bytes.old self.now ≡ Some fault) × (bytes.new ≡ bytes.old)) }
    {
        let start = self.start;
        if start % 4 != 0 || bytes.len() < 24 || bytes.len() - 24 < start {
            return Err(WalkFault::Bad { index: 0 });
        }
        let object = FlatObject {
            kind: self.kind()?,
            flags: self.flags,
            binder: self.binder,
            cookie: self.cookie,
        };
        put_object(bytes, start, &object);
        Ok(())
    }
}

// The same fault, told of the offset of this index.
fn with_index(fault: WalkFault, index: usize) -> WalkFault
    ensures { result ≡ with_index fault index }
{
    match fault {
        WalkFault::Size => WalkFault::Size,
        WalkFault::Bad { .. } => WalkFault::Bad { index },
        WalkFault::Unsupported { .. } => WalkFault::Unsupported { index },
    }
}

// The eight bytes of the offset of an index.
#[tactic(auto, using(crate::proofs::Walking::cut_out))]
fn offset_of(offsets: &[u8], index: usize) -> &[u8]
    requires { 8 * index + 8 ≤ length offsets.now }
    ensures len { length result.now ≡ 8 }
    ensures offset { long_at 0 result.now ≡ long_at (8 * index) offsets.now }
{
    &offsets[8 * index..8 * index + 8]
}

impl WalkInC {
    // The object at the next offset, and where it begins, unless it is refused.
    fn judge(&self, bytes: &[u8], offset: &[u8]) -> Result<Option<(FlatObject, usize)>, WalkFault>
        requires { length offset.now ≡ 8 }
        ensures { let start = long_at 0 offset.now in
            result ≡ judged bytes.now (fault_at bytes.now self.now.end self.now.index start) start }
    {
        if u64_at(offset, 0) < self.end as u64 {
            return Err(WalkFault::Bad { index: self.index });
        }
        match walk(bytes, offset) {
            Ok(objects) => {
                let found = objects.get(0);
                Ok(Some((found.object, found.start)))
            }
            Err(fault) => Err(with_index(fault, self.index)),
        }
    }

    /// The next object, and where it begins, if there is one more.
    pub(crate) fn next(
        &self,
        bytes: &[u8],
        offsets: &[u8],
    ) -> Result<Option<(FlatObject, usize)>, WalkFault>
        ensures next { result ≡ next_object bytes.now offsets.now self.now }
        ensures within { IfOk result (λ x. IfSome x (λ _. self.now.index < length offsets.now)) }
    {
        if offsets.len() % 8 != 0 {
            return Err(WalkFault::Size);
        }
        if self.index >= offsets.len() / 8 {
            return Ok(None);
        }
        self.judge(bytes, offset_of(offsets, self.index))
    }

    /// Tells the next object, and goes behind it; or keeps why there is none.
    pub(crate) fn tell_next(
        &mut self,
        bytes: &[u8],
        offsets: &[u8],
        object: &mut FlatObjectInC,
    ) -> bool
        ensures { TellsNext (next_object bytes.now offsets.now self.old) self.old self.new object.old object.new result }
    {
        match self.next(bytes, offsets) {
            Ok(Some((found, start))) => {
                *object = FlatObjectInC::of(&found, start);
                *self = WalkInC {
                    index: self.index + 1,
                    end: start + 24,
                    cause: 0,
                };
                true
            }
            Ok(None) => {
                self.cause = 0;
                false
            }
            Err(fault) => {
                self.cause = walk_number(fault);
                false
            }
        }
    }
}
