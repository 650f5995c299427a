//! Which way a parcel goes.

ghost use Rattle.std.specs.Prelude.{◌≡◌, ◌≤◌, ◌/◌, length, if◌then◌else◌};
ghost use Rattle.bd_parcel.specs.Parcels.{offsets_in};
ghost use Rattle.bd_wrapping.specs.Ways.{is_known as it_is_known, known_among, way_of as way_of_it};

use crate::trailer::trailer_in;
use bd_uapi::codes::{FD, FDA, PTR};
use bd_uapi::numbers::{u32_at, u64_at};

/// How a parcel goes through the engine.
#[derive(Clone, Copy, Debug, PartialEq, Eq)]
pub enum Way {
    /// As it was sent.
    Plain,
    /// As more data, which a trailer ends: it has to be laid out.
    Wrapped,
    /// Not at all: it has more objects that the engine knows than it may have.
    Lost,
}

// Whether the engine knows the object at an offset, or refuses it: it is none of PTR, FD and FDA.
fn is_known(body: &[u8], offset: u64) -> bool
    ensures { result ≡ it_is_known body.now offset }
{
    let at = offset as usize;
    if body.len() < 24 || body.len() - 24 < at {
        return true;
    }
    !matches!(u32_at(body, at), PTR | FD | FDA)
}

// One, where the engine knows it.
fn one_if_known(body: &[u8], offset: u64) -> usize
    ensures { result ≡ (if it_is_known body.now offset then 1 else 0) }
{
    if is_known(body, offset) { 1 } else { 0 }
}

// How many of its objects the engine knows.
fn count_known(body: &[u8], offsets: &[u8]) -> usize
    ensures all { result ≡ known_among body.now (offsets_in offsets.now) }
    ensures few { result ≤ length offsets.now / 8 }
{
    let mut count = 0;
    for index in 0..offsets.len() / 8 {
        let offset = u64_at(offsets, 8 * index);
        let more = one_if_known(body, offset);
        count += more;
    }
    count
}

/// Which way a parcel goes of which the engine may know so many objects at most. `tells` is whether it is sent under another effective uid
/// than the engine would tell.
pub fn way_of(body: &[u8], offsets: &[u8], most: usize, tells: bool) -> Way
    ensures { result ≡ way_of_it body.now offsets.now most tells }
{
    let known = count_known(body, offsets);
    if known > most {
        return Way::Lost;
    }
    if tells {
        return Way::Wrapped;
    }
    if offsets.len() % 8 != 0 {
        return Way::Plain;
    }
    if known < offsets.len() / 8 || trailer_in(body, offsets).is_some() {
        return Way::Wrapped;
    }
    Way::Plain
}
