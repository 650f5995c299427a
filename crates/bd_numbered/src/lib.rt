//! A vector of values for each process, found by their numbers; a new one gets the least number that is free.
#![tactic(auto)]

mod guesses;
mod numbered;
mod row;
mod rows;

pub use guesses::Guesses;
pub use numbered::Numbered;
