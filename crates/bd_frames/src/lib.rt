//! The table of frames, open two-way calls: each found by its place.
#![tactic(auto)]

mod frame;
mod place;
mod stacks;
mod table;
mod walk;

pub use frame::serves;
pub use table::FrameTable;
