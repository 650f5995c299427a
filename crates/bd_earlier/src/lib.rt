//! What a space names was made by a step before: its places are below how many steps there were.
#![tactic(auto)]

ghost use Rattle.bd_earlier.specs.Places.{PlacesAreEarlier};

/// In the space after a history each place that an engine tells of is of a step of that history. So a history of at most
/// 4294967295 steps has places of 32 bits.
pub fn places_are_earlier()
    ensures { PlacesAreEarlier }
{}
