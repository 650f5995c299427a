//! The table of threads, open calls (frames), work items and one-way calls.
#![tactic(auto)]

mod bits;
mod frame;
mod groups;
mod marks;
mod ready;
mod seen;
mod table;
mod thread;
mod todo_list;
mod turn;

pub use bd_frames::serves;
pub use table::CallTable;
