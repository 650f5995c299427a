//! The table of work items: what is still to be read, by whom.
#![tactic(auto)]

mod finder;
mod finding;
mod heads;
mod queues;
mod register;
mod spots;
mod table;
mod work;

pub use queues::Works;
pub use table::WorkTable;
pub use work::{hands_out, is_call};
