//! What C calls to have a parcel with PTR, FD and FDA objects laid out, and to bring it to its place.
ghost use Rattle.std.specs.Prelude.{◌≡◌};
ghost use Rattle.bd_layout.specs.Plans.{plan_of};
ghost use Rattle.bd_c.specs.{Status.{Reports}, Layouts.{LaysOut, fixup_given, PutsFixup}};

use crate::layouts::{FixupTold, LayoutTold, REFUSED, land, tell_layout};
use crate::status::Status;
use bd_layout::lay_out;
use std::alloc::Global;

/// Lays out a parcel for its receiver, or tells that Linux's driver would refuse it for a PTR, FD or FDA object.
#[unsafe(no_mangle)]
pub extern "C" fn hullpippin_lay_out(
    alloc: Global,
    body: &[u8],
    offsets: &[u8],
    room: &[u8],
    descriptors: usize,
    out: &mut [u8],
    known: &mut [u64],
    fixups: &mut [FixupTold],
    told: &mut LayoutTold,
) -> u32
    ensures { Reports result (LaysOut (plan_of body.now offsets.now room.now descriptors)
        (record { out = out.old; known = known.old; fixups = fixups.old; told = told.old })
        (record { out = out.new; known = known.new; fixups = fixups.new; told = told.new })) }
{
    if room.len() > u32::MAX as usize || descriptors > u32::MAX as usize {
        return Status::NoSuchRequest.number();
    }
    match lay_out(alloc, body, offsets, room, descriptors) {
        Err(_) => Status::NoMemory.number(),
        Ok(None) => {
            *told = REFUSED;
            Status::Done.number()
        }
        Ok(Some(layout)) => tell_layout(alloc, &layout, out, known, fixups, told).number(),
    }
}

/// Writes one of its fix-ups into a parcel, as it comes from the engine, whose receiver sees its first byte at `base`. False
/// where it doesn't lie within the parcel, and nothing is written.
#[unsafe(no_mangle)]
pub extern "C" fn hullpippin_put_fixup(fixup: &FixupTold, bytes: &mut [u8], base: u64) -> bool
    ensures { PutsFixup (fixup_given fixup.now) base bytes.old bytes.new result }
{
    land(fixup, bytes, base)
}
