//! What holds of each parcel that goes through an engine.

ghost use Rattle.bd_wrapping.specs.{Trailers.{TrailersAreFoundAgain, PutTrailersAreFoundAgain, TrailersStandBehindAllObjects}, Areas.{PartsAreCopied}};

/// A trailer is found as it was put, whatever the engine does to the objects before it.
pub fn trailers_are_found_again()
    ensures { TrailersAreFoundAgain }
{}

/// A trailer that was put is found again, whatever the engine does to the objects before it.
pub fn put_trailers_are_found_again()
    ensures { PutTrailersAreFoundAgain }
{}

/// Nothing that the engine does to objects makes a trailer, or takes one away.
pub fn trailers_stand_behind_all_objects()
    ensures { TrailersStandBehindAllObjects }
{}

/// What is copied of a client's area lies within it, and each part goes to bytes of its own.
pub fn parts_are_copied()
    ensures { PartsAreCopied }
{}
