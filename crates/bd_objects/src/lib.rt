//! Objects, the references to them, their names, and death notifications.
#![tactic(auto)]

mod asking;
mod deaths;
mod delivery;
mod exits;
mod made;
mod names;
mod naming;
mod notices;
mod objects;
mod parcels;
mod reading;
mod references;
mod room;
mod table;
mod touched;

pub use bd_records::{CarriedObjects, NumbersFull};
pub use made::Made;
pub use room::Room;
pub use table::ObjectTable;
