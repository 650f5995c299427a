//! Values in a vector by place, with a heap of the places that are free, so that the least of those is at hand.
#![tactic(auto)]

mod change;
mod places;

pub use change::Change;
pub use places::Places;
