//! Values found by process and word (a ptr, a cookie, a pointer, a pid): whoever chooses the words, no look-up takes
//! more than 44 steps.
#![tactic(auto)]

mod key;
mod map;
mod node;
mod numbers;
mod reserved;
mod room;
mod tree;
mod treed;

pub use key::WordKey;
pub use map::WordMap;
pub use numbers::{mixed, tall, wide};
pub use reserved::insert_reserved;
pub use room::room_anew;
