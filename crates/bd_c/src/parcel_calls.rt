//! What C calls to go through a parcel's objects, and to write one.
ghost use Rattle.bd_c.specs.Walks.{next_object, fault_ahead, TellsNext, Ahead, fault_given, Puts};

use crate::walks::{FlatObjectInC, WalkInC, walk_number};

/// Tells the next object of a walk, and takes the walk behind it. False where there is none: `cause` of the walk then is why, 0
/// at the end.
#[tactic(auto, using(crate::proofs::Ahead::ahead))]
#[unsafe(no_mangle)]
pub extern "C" fn hullpippin_next_object(
    bytes: &[u8],
    offsets: &[u8],
    walk: &mut WalkInC,
    object: &mut FlatObjectInC,
) -> bool
    ensures tells { TellsNext (next_object bytes.now offsets.now walk.old) walk.old walk.new object.old object.new result }
    // What the parcel's earliest fault is, if it has one, is found by going on.
    ensures ahead { Ahead (next_object bytes.now offsets.now walk.old)
        (fault_ahead bytes.now offsets.now walk.old) (fault_ahead bytes.now offsets.now walk.new) }
{
    walk.tell_next(bytes, offsets, object)
}

/// Writes an object to its place in a parcel's data. Answers 0, or the number of the cause by which a walk would refuse it.
#[unsafe(no_mangle)]
pub extern "C" fn hullpippin_put_object(object: &FlatObjectInC, bytes: &mut [u8]) -> u32
    ensures { Puts object.now (fault_given bytes.old object.now) bytes.old bytes.new result }
{
    match object.put(bytes) {
        Ok(()) => 0,
        Err(fault) => walk_number(fault),
    }
}
