//! The table of one-way calls: of one object's, the oldest comes first.
#![tactic(auto)]

mod spot;
mod table;

pub use table::TurnTable;
