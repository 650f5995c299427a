//! The live threads, each found by its seat.
#![tactic(auto)]

mod table;

pub use table::ThreadTable;
