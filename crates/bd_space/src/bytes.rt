//! Small types over vectors, which contracts see as lists.

ghost use Rattle.std.specs.Prelude.{◌≡◌, ◌==◌, List, ℕ, length, IfOk};

use bd_uapi::Note;
use std::alloc::AllocError;
use std::marker::Model;

/// Bytes, which contracts see as a list.
#[derive(Drop, Debug)]
pub struct Bytes {
    items: Vec<u8>,
}

impl Model for Bytes {
    ghost Value = { List ℕ };

    ghost view = { λ b. b.items.items };
}

impl Bytes {
    /// The bytes of a vector. Takes no memory.
    pub fn new(items: Vec<u8>) -> Bytes
        ensures { result ≡ items.items }
    {
        Bytes { items }
    }

    /// The bytes as a slice.
    pub fn as_slice(&self) -> &[u8]
        ensures { result.now ≡ self.now }
    {
        self.items.as_slice()
    }

    /// How many there are.
    pub fn len(&self) -> usize
        ensures { result ≡ length self.now }
    {
        self.items.len()
    }

    /// Whether there are none.
    pub fn is_empty(&self) -> bool
        ensures { result ≡ (length self.now == 0) }
    {
        self.items.is_empty()
    }

    /// The same bytes again, in memory of their own.
    pub fn copied(&self) -> Result<Bytes, AllocError>
        ensures { IfOk result (λ b. b ≡ self.now) }
    {
        Ok(Bytes {
            items: self.items.clone()?,
        })
    }

    /// The bytes as a vector again. Takes no memory.
    pub fn into_vec(self) -> Vec<u8>
        ensures { result.items ≡ self }
    {
        let Bytes { items } = self;
        items
    }
}

/// The notes of a write, each with its command's number in the stream, from 0.
#[derive(Drop, Debug)]
pub struct Notes {
    items: Vec<(u32, Note)>,
}

impl Model for Notes {
    ghost use Rattle.std.specs.Prelude.{List, ℕ};
    ghost use Rattle.bd_uapi.specs.declared.fault.Note.{Note};

    ghost Value = { List (ℕ × Note) };

    ghost view = { λ b. b.items.items };
}

impl Notes {
    /// The notes of a vector. Takes no memory.
    pub fn new(items: Vec<(u32, Note)>) -> Notes
        ensures { result ≡ items.items }
    {
        Notes { items }
    }

    /// Each with the number of its command in the stream, in their order.
    pub fn as_slice(&self) -> &[(u32, Note)]
        ensures { result.now ≡ self.now }
    {
        self.items.as_slice()
    }
}
