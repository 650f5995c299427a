//! Windows: the memory of a process that its transactions' buffers lie in.
#![tactic(auto)]

mod buffer;
mod ground;
mod home;
mod lent;
mod listing;
mod owned;
mod record;
mod rows;
mod senders;
mod window;
mod windows;

pub use buffer::{needed, pointer_of};
pub use lent::Lent;
pub use record::Record;
pub use window::Window;
pub use windows::Windows;
