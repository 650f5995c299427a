//! The records of an object, and of a name.

ghost use Rattle.std.specs.Prelude.{◌≡◌, ◌&&◌};
ghost use Rattle.bd_records.specs.Count as count;

use crate::count::Count;
use bd_space::{Identity, Object};

/// An object, and how many references there are to it: in all, those that its owner has yet to acknowledge, and the context
/// manager's.
#[derive(Clone, Copy)]
pub struct ObjectRow {
    pub object: Object,
    pub total: Count,
    pub owed: Count,
    pub managed: Count,
}

/// What a process knows an object by, with counts of what gives it this name: its own asking, and buffers in its window
/// that carry the object.
#[derive(Clone, Copy)]
pub struct NameRow {
    pub object: Identity,
    pub asked: Count,
    pub carried: Count,
}

impl NameRow {
    /// Whether no reference gives the name.
    #[inline(always)]
    pub(crate) fn is_blank(self) -> bool
        ensures { result ≡ (count.is_empty self.asked && count.is_empty self.carried) }
    {
        self.asked.is_empty() && self.carried.is_empty()
    }
}

/// A name's number and its record.
#[derive(Clone, Copy)]
pub(crate) struct NameSpot {
    pub(crate) number: u32,
    pub(crate) row: NameRow,
}
