//! What turns come to.

ghost use Rattle.bd_ring.specs.{Turns.{NobodyHasTwo, NobodyHasMore}, Course.{EachRing}};

/// While one wants a turn, each other has one turn at most, and one more for each time that the one was passed over,
/// whoever comes and goes meanwhile.
pub fn nobody_has_two_turns_meanwhile()
    ensures { NobodyHasTwo }
{}

/// Over any time in which one wants a turn whenever anybody has one, each other has at most one turn more than it, and one more for each
/// time that it was passed over.
pub fn nobody_has_more_turns()
    ensures { NobodyHasMore }
{}

/// Of many rings: each becomes what its own events make of it, nobody stands in two, and the laws above hold for each.
pub fn each_ring_has_its_turns()
    ensures { EachRing }
{}
