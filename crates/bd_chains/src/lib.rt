//! Values in numbered lists: each has a slot of one slab, and names the one before it and the one after it on its list.
#![tactic(auto)]

mod chains;
mod items;
mod links;
mod lists;
mod numbers;

pub use chains::Chains;
pub use items::Items;
pub use lists::Lists;
pub use numbers::{Numbering, Numbers};
