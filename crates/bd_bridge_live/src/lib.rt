//! A bridge over a live engine.
#![tactic(auto)]

mod deferring;
mod lists;
mod live;
mod settling;

pub use live::{LiveEngine, NotMade};
pub use settling::settle;
