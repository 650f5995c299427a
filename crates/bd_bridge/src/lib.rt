//! Who waits for something to read, who of them may have something by now, and who is to be woken.
#![tactic(auto)]

mod bridge;
mod due;
mod engine;
mod groups;
mod reach;
mod resting;
mod signal;
mod suspects;
mod waiters;

pub use bridge::Bridge;
pub use engine::{Engine, Reached, TodoList};
pub use groups::Groups;
pub use resting::Resting;
pub use signal::Signal;
pub use suspects::Suspects;
pub use waiters::{Reading, Waiter, Waiters};
