//! The ground of a window: which of its units of eight bytes are free, and the bytes that stand on the others.
#![tactic(auto)]

mod memory;
mod peaks;
mod spans;

pub use memory::Memory;
pub use spans::Spans;
