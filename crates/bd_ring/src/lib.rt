//! Whose turn it is.
#![tactic(auto)]

mod laws;
mod nodes;
mod rings;

pub use laws::{each_ring_has_its_turns, nobody_has_more_turns, nobody_has_two_turns_meanwhile};
pub use rings::Rings;
