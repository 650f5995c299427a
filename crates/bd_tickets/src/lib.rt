//! Descriptors on their way beside an engine, each by a number of the caller's.
#![tactic(auto)]

mod came;
mod shelves;
mod tickets;

pub use came::{kept_descriptors, what_comes_is_kept_whole};
pub use shelves::Shelves;
pub use tickets::{Parcel, Tickets};
