//! The engine shared by threads. Each seat takes it by one atomic step, or hands its request over to whoever has it. No
//! call waits, and no call tries a step again.
#![tactic(auto)]

mod boxed;
mod calls;
mod closing;
mod desk;
mod driver;
mod handing;
mod opening;
mod outcome;
mod page;
mod plays;
mod refusals;
mod seat;
mod serving;
mod slot;
mod states;
mod view;

pub use bd_engine::Span;
pub use desk::Desk;
pub use driver::Driver;
pub use outcome::{Outcome, Served, Why};
pub use page::Page;
pub use seat::Seat;
pub use view::{Handover, Letter, Picking, Tally, View};
