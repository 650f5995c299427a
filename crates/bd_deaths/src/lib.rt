//! Death notifications: each found by the step that made it, by its process and object, and with those of its process or on its object.
#![tactic(auto)]

mod due;
mod kept;
mod key;
mod look;
mod phase;
mod sharers;
mod table;

pub use table::DeathTable;
