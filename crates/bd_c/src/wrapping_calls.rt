//! What C calls to bring a parcel with buffers and descriptors through an engine.
ghost use Rattle.std.specs.Prelude.{◌≡◌, ◌==◌, not};
ghost use Rattle.bd_wrapping.specs.{Trailers.{trailer_in as found_in}, Areas.{parts_of as their_parts}, Ways.{way_of as its_way}};
ghost use Rattle.bd_c.specs.Wrappings.{way_number as number_of_it, TellsTrailer, TellsParts, PutsTrailer};

use crate::wrappings::{put_given, tell_parts, tell_trailer, way_number};
use bd_wrapping::{Asked, Parts, Trailer, way_of};

/// Tells what is copied of a client's area of so many bytes, for a parcel of so many objects at most, and where it goes. False
/// where that isn't to be had.
#[unsafe(no_mangle)]
pub extern "C" fn hullpippin_parcel_parts(
    asked: &Asked,
    area: u32,
    objects: u32,
    parts: &mut Parts,
) -> bool
    ensures { TellsParts (their_parts asked.now area objects) parts.old parts.new result }
{
    tell_parts(asked, area, objects, parts)
}

/// Which way a parcel goes: 0 as it was sent, 1 wrapped, 2 not at all. With `tells` that isn't 0 it isn't sent under the effective
/// uid that the engine would tell.
#[unsafe(no_mangle)]
pub extern "C" fn hullpippin_parcel_way(body: &[u8], offsets: &[u8], most: usize, tells: u32) -> u32
    ensures { result ≡ number_of_it (its_way body.now offsets.now most (not (tells == 0))) }
{
    way_number(way_of(body, offsets, most, tells != 0))
}

/// Ends a parcel that was laid out with zeros and its trailer: how much there is then, or 0 where that finds no room, and nothing is
/// written.
#[unsafe(no_mangle)]
pub extern "C" fn hullpippin_put_trailer(out: &mut [u8], laid: usize, trailer: &Trailer) -> usize
    ensures { PutsTrailer laid trailer.now out.old out.new result }
{
    put_given(out, laid, trailer)
}

/// Tells the trailer of data, as the engine has them, with the offsets of the objects that it knows. False where they have none.
#[unsafe(no_mangle)]
pub extern "C" fn hullpippin_find_trailer(
    body: &[u8],
    offsets: &[u8],
    trailer: &mut Trailer,
) -> bool
    ensures { TellsTrailer (found_in body.now offsets.now) trailer.old trailer.new result }
{
    tell_trailer(body, offsets, trailer)
}
