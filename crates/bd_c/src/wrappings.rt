//! How a parcel with buffers and descriptors goes through the engine, as C is told it.
ghost use Rattle.std.specs.Prelude.{◌≡◌};
ghost use Rattle.bd_wrapping.specs.{Trailers.{trailer_in as found_in}, Areas.{parts_of as their_parts}};
ghost use Rattle.bd_c.specs.Wrappings.{way_number as number_of_it, TellsTrailer, TellsParts, PutsTrailer};

use bd_wrapping::{Asked, Parts, Trailer, Way, parts_of, put_trailer, trailer_in};

/// Tells what is copied of a client's area.
#[inline(always)]
pub(crate) fn tell_parts(asked: &Asked, area: u32, objects: u32, told: &mut Parts) -> bool
    ensures { TellsParts (their_parts asked.now area objects) told.old told.new result }
{
    match parts_of(asked, area, objects) {
        Some(parts) => {
            *told = parts;
            true
        }
        None => false,
    }
}

/// The number of a way.
pub(crate) fn way_number(way: Way) -> u32
    ensures { result ≡ number_of_it way }
{
    match way {
        Way::Plain => 0,
        Way::Wrapped => 1,
        Way::Lost => 2,
    }
}

/// Puts a trailer behind a parcel that was laid out: how much there is then, or 0.
pub(crate) fn put_given(out: &mut [u8], laid: usize, trailer: &Trailer) -> usize
    ensures { PutsTrailer laid trailer.now out.old out.new result }
{
    match put_trailer(out, laid, trailer) {
        Some(size) => size,
        None => 0,
    }
}

/// Tells the trailer of data, if they have one.
pub(crate) fn tell_trailer(body: &[u8], offsets: &[u8], told: &mut Trailer) -> bool
    ensures { TellsTrailer (found_in body.now offsets.now) told.old told.new result }
{
    match trailer_in(body, offsets) {
        Some(trailer) => {
            *told = trailer;
            true
        }
        None => false,
    }
}
