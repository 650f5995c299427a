//! A reference that lies in a buffer.

use bd_space::Reference;

/// A reference, and its slot on the other list on which it stands: its buffer's, or its window's.
#[derive(Clone, Copy)]
pub struct Lying {
    pub reference: Reference,
    pub at: usize,
}
