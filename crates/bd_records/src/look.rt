//! Looking at objects.

ghost use Rattle.std.specs.Prelude.{List, filter, find, map, ◌&&◌, ◌==◌, ◌≡◌};
ghost use Rattle.bd_space.specs.{Words.{same}, declared.space.{Object.{Object}, Reference.{Reference}}};
ghost use Rattle.bd_space.specs.References as refer;

use crate::listing::OwnedObjects;
use crate::records::Records;
use bd_space as space;
use bd_space::Identity;

impl Records {
    ghost use Rattle.bd_records.specs.Records.{RecordsAre};

    /// The object with this identity, if it is still there.
    #[inline(always)]
    pub fn object(&self, o: Identity) -> Option<space::Object>
        ensures { (objects : List Object) (l : List Reference) → RecordsAre self.now objects l → result ≡ refer.object_in objects o }
    {
        match self.objects.row_of(o) {
            Some(w) => Some(w.object),
            None => None,
        }
    }

    /// The object of this identity, if the process owns it.
    #[inline(always)]
    pub fn own_object(&self, p: u64, o: Identity) -> Option<space::Object>
        ensures { (objects : List Object) (l : List Reference) → RecordsAre self.now objects l
            → result ≡ find (λ x. same x.id o && (x.owner == p)) objects }
    {
        match self.objects.row_of(o) {
            Some(w) if w.object.owner == p => Some(w.object),
            _ => None,
        }
    }

    /// As `own_with_ptr`, where the object has this cookie, too.
    pub fn own_with(&self, p: u64, ptr: u64, cookie: u64) -> Option<space::Object>
        ensures { (objects : List Object) (l : List Reference) → RecordsAre self.now objects l
            → result ≡ find (λ x. (x.owner == p) && (x.ptr == ptr) && (x.cookie == cookie)) objects }
    {
        match self.own_with_ptr(p, ptr) {
            Some(x) if x.cookie == cookie => Some(x),
            _ => None,
        }
    }

    /// The objects that the process owns, in the order in which they came.
    pub fn listed(&self, p: u64) -> OwnedObjects<'_>
        ensures { (objects : List Object) (l : List Reference) → RecordsAre self.now objects l
            → result ≡ map (λ x. x.id) (filter (λ x. x.owner == p) objects) }
    {
        self.owned.listed(p)
    }
}
