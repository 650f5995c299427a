//! What holds of each parcel that is laid out.

ghost use Rattle.bd_layout.specs.{Apart.{LandsWhole}, Carried.{CarriesWhatWasSent}, Descriptors.{HasAPlaceForEach}, Linux.{DriverTakesTheSame}};

/// Only what the sender put in goes on: data and offsets, so much of each buffer as its object tells, and zeros between.
/// Whatever else lay in the sender's room for buffers stays behind.
pub fn layouts_carry_what_was_sent()
    ensures { CarriesWhatWasSent }
{}

/// Each descriptor that a parcel takes has one place for its number, and none is taken that didn't come.
pub fn layouts_have_a_place_for_each_descriptor()
    ensures { HasAPlaceForEach }
{}

/// No byte of a parcel is put right twice: where its receiver looks for the address of a buffer, it finds that of a buffer
/// of this parcel, and all that isn't put right is as it was sent.
pub fn layouts_land_whole()
    ensures { LandsWhole }
{}

/// Those parcels are laid out that Linux's driver takes, as its own variables decide it.
pub fn linux_takes_the_same()
    ensures { DriverTakesTheSame }
{}
