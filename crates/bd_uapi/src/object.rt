//! Objects in a parcel.

ghost use Rattle.std.specs.Prelude.{◌≡◌};
ghost use Rattle.bd_uapi.specs.Kinds.{is_own, is_strong_kind};

/// The type of a flat object: `BINDER_TYPE_BINDER` and so on, of those that the profile takes.
#[derive(Clone, Copy, Debug, PartialEq, Eq)]
pub enum ObjectKind {
    /// `BINDER_TYPE_BINDER`: an object of the sender, strongly.
    Binder,
    /// `BINDER_TYPE_WEAK_BINDER`: an object of the sender, weakly.
    WeakBinder,
    /// `BINDER_TYPE_HANDLE`: an object that the sender knows by a handle, strongly.
    Handle,
    /// `BINDER_TYPE_WEAK_HANDLE`: an object that the sender knows by a handle, weakly.
    WeakHandle,
}

impl ObjectKind {
    /// Whether it is an object of the sender's own.
    pub fn is_own(self) -> bool
        ensures { result ≡ is_own self }
    {
        matches!(self, ObjectKind::Binder | ObjectKind::WeakBinder)
    }

    /// Whether it is sent strongly.
    pub fn is_strong(self) -> bool
        ensures { result ≡ is_strong_kind self }
    {
        matches!(self, ObjectKind::Binder | ObjectKind::Handle)
    }
}

/// An object of a parcel, 24 bytes: `struct flat_binder_object`.
#[derive(Clone, Copy, Debug, PartialEq, Eq)]
pub struct FlatObject {
    /// Its type.
    pub kind: ObjectKind,
    /// Its flags, handed on as they are.
    pub flags: u32,
    /// The ptr of an own object, or a handle in the low 32 bits.
    pub binder: u64,
    /// The cookie of an own object; not looked at beside a handle.
    pub cookie: u64,
}
