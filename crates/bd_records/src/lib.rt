//! One record for each object and one for each name, with counts of the references to it.
#![tactic(auto)]

mod buffers;
mod called;
mod carried;
mod change;
mod count;
mod counting;
mod dropped;
mod exits;
mod keys;
mod listed;
mod listing;
mod look;
mod lying;
mod names;
mod number_key;
mod numbers;
mod objects;
mod owned;
mod records;
mod row;
mod slots;
mod turning;

pub use carried::CarriedObjects;
pub use count::Count;
pub use listed::{name_number, named_object, next_number};
pub use listing::OwnedObjects;
pub use lying::Lying;
pub use names::Names;
pub use numbers::NumbersFull;
pub use objects::Objects;
pub use owned::Owned;
pub use records::{Hold, Kept, Records};
pub use row::{NameRow, ObjectRow};
