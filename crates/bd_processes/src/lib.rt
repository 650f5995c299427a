//! The live processes, found by identity and by pid.
#![tactic(auto)]

mod change;
mod guesses;
mod list;
mod look;
mod table;

pub use table::ProcessTable;
