//! How a parcel with buffers and descriptors goes through an engine, which knows of neither.
#![tactic(auto)]

mod laws;
mod parts;
mod trailer;
mod way;

pub use laws::{
    parts_are_copied, put_trailers_are_found_again, trailers_are_found_again,
    trailers_stand_behind_all_objects,
};
pub use parts::{Asked, Part, Parts, parts_of};
pub use trailer::{Trailer, put_trailer, trailer_in};
pub use way::{Way, way_of};
