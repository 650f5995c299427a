//! Entries as bytes in one block of memory.

ghost use Rattle.std.specs.Prelude.{◌≡◌, ◌+◌, ◌-◌, ◌++◌, ◌∷◌, ◌≤◌, [], true, length, nat_le, vec_capacity, IfOk, IfErr, OnOk, OnErr, Some, MatchOption};
ghost use Rattle.std.specs.List.{flat_map};
ghost use Rattle.bd_spelling.specs.Spelling.{IsEntry, SpellsCommand, entry_bytes, step_bytes};
ghost use Rattle.bd_spelling.specs.{Laid.{IsLaid}, Logged.{every_seat}};

use crate::fault::ReadError;
use crate::laid::lay_whole;
use crate::reading::entry_at;
use crate::versions::Version;
use bd_space::Entry;
use std::alloc::{AllocError, Global};
use std::marker::Model;

// More seats than any history has: what is kept here was made by one.
pub const EVERY_SEAT: u32 = 4294967295;

// The bytes of a chunk's memory. A larger entry has a chunk of its own.
const CHUNK: usize = 262144;

// So many bytes are cleared at once: those that are written next are still in the cache then.
const PIECE: usize = 2048;

/// Spellings of entries, and room for more. A contract sees the entries that are spelled, how many bytes there is room for, and how
/// many bytes of its memory are free, of which the room is what has been cleared.
#[derive(Drop, Debug)]
pub struct Chunk {
    // What has been cleared of its memory, of which the first bytes are used.
    bytes: Vec<u8>,
    used: usize,
    count: usize,
}

impl Model for Chunk {
    ghost use Rattle.std.specs.Prelude.{◌-◌, ◌≤◌, length, take, vec_capacity};
    ghost use Rattle.bd_spelling.specs.Logged.{LogView, AreSpelled, entries_in};

    ghost Value = { LogView };

    ghost view = { λ c. record {
      entries = entries_in c.count (take c.used c.bytes.items);
      room = length c.bytes.items - c.used;
      memory = vec_capacity c.bytes - c.used;
    } };

    ghost invariant = { λ c. AreSpelled c.count (take c.used c.bytes.items) × (c.used ≤ length c.bytes.items) };
}

// Spells an entry behind the first of these bytes, so many, and answers where it ends.
#[inline(always)]
fn lay_behind(bytes: &mut Vec<u8>, used: usize, entry: &Entry, command: &[u8], step: u32) -> usize
    requires command { SpellsCommand entry.now.step command.now }
    requires step { step ≡ length (step_bytes entry.now.step) }
    requires spelled { IsEntry every_seat entry.now }
    requires room { used + length (entry_bytes entry.now) ≤ length bytes.old.items }
    ensures laid { IsLaid used (entry_bytes entry.now) bytes.old.items bytes.new.items result }
    ensures memory { vec_capacity bytes.new ≡ vec_capacity bytes.old }
{
    lay_whole(bytes, used, entry, command, step)
}

impl Chunk {
    /// A chunk without entries and without memory.
    pub fn new(alloc: Global) -> Chunk
        ensures { result.entries ≡ [] }
    {
        Chunk {
            bytes: Vec::new(alloc),
            used: 0,
            count: 0,
        }
    }

    /// A chunk without entries that has room for so many bytes. Errors: memory was refused.
    pub fn with_capacity(alloc: Global, room: usize) -> Result<Chunk, AllocError>
        ensures none { IfOk result (λ c. c.entries ≡ []) }
        ensures room { IfOk result (λ c. room ≤ c.room) }
    {
        let mut bytes = Vec::with_capacity(alloc, room.max(CHUNK))?;
        bytes.resize(room, 0)?;
        Ok(Chunk {
            bytes,
            used: 0,
            count: 0,
        })
    }

    /// Whether so many bytes of its memory are free. If so there is room for them from then on.
    pub fn make_room(&mut self, room: usize) -> bool
        ensures free { result ≡ nat_le room self.old.memory }
        ensures room { result ≡ true → room ≤ self.new.room }
        ensures entries { self.new.entries ≡ self.old.entries }
    {
        let free = self.bytes.capacity() - self.used;
        if free < room {
            return false;
        }
        let piece = room.max(PIECE).min(free);
        self.bytes.resize(self.used + piece, 0).is_ok()
    }

    /// How many entries are in it.
    pub fn len(&self) -> usize
        ensures { result ≡ length self.now.entries }
    {
        self.count
    }

    /// How many bytes of further entries fit into the memory that it has.
    pub fn room(&self) -> usize
        ensures { result ≡ self.now.room }
    {
        self.bytes.len() - self.used
    }

    /// What the entries are spelled as, one after the other, as in a journal behind its heading.
    pub fn bytes(&self) -> &[u8]
        ensures { result.now ≡ flat_map entry_bytes self.now.entries }
    {
        &self.bytes[..self.used]
    }

    /// Adds an entry that a journal spells, whose command these bytes spell, and that fits into the room. It can't fail.
    #[inline(always)]
    pub fn push(&mut self, entry: &Entry, command: &[u8], step: u32)
        requires command { SpellsCommand entry.now.step command.now }
        requires step { step ≡ length (step_bytes entry.now.step) }
        requires spelled { IsEntry every_seat entry.now }
        requires room { length (entry_bytes entry.now) ≤ self.old.room }
        ensures entries { self.new.entries ≡ self.old.entries ++ entry.now ∷ [] }
        ensures room { self.old.room ≤ self.new.room + length (entry_bytes entry.now) }
        ensures memory { self.old.memory ≤ self.new.memory + length (entry_bytes entry.now) }
    {
        self.used = lay_behind(&mut self.bytes, self.used, entry, command, step);
        self.count += 1;
    }

    /// A reader that begins at the first entry.
    pub fn reader(&self) -> ChunkReader<'_>
        ensures { result ≡ self.now.entries }
    {
        ChunkReader {
            bytes: &self.bytes[..self.used],
            left: self.count,
        }
    }
}

/// The entries of a chunk that are still to be read.
#[derive(Drop)]
pub struct ChunkReader<'a> {
    bytes: &'a [u8],
    left: usize,
}

impl<'a> Model for ChunkReader<'a> {
    ghost use Rattle.std.specs.Prelude.{List};
    ghost use Rattle.bd_space.specs.declared.step.Entry.{Entry};
    ghost use Rattle.bd_spelling.specs.Logged.{AreSpelled, entries_in};

    ghost Value = { List Entry };

    ghost view = { λ r. entries_in r.left r.bytes.now };

    ghost invariant = { λ r. AreSpelled r.left r.bytes.now };
}

impl ChunkReader<'_> {
    /// A reader at the end.
    pub fn none() -> ChunkReader<'static>
        ensures { result ≡ [] }
    {
        ChunkReader {
            bytes: &[],
            left: 0,
        }
    }

    /// How many entries are still to be read.
    pub fn len(&self) -> usize
        ensures { result ≡ length self.now }
    {
        self.left
    }

    /// Reads one entry into memory of its own; None at the end. Errors: memory was refused, and the same entry is read next.
    pub fn next(&mut self, alloc: Global) -> Result<Option<Entry>, AllocError>
        ensures next { IfOk result (λ e. MatchOption e (self.old ≡ []) (λ x. self.old ≡ x ∷ self.new)) }
        ensures err { OnErr result (self.new ≡ self.old) }
        // Memory was asked for: an entry was left.
        ensures grown { OnErr result (self.old ≡ [] → ⊥) }
    {
        if self.left == 0 {
            return Ok(None);
        }
        match entry_at(alloc, Version::Two, EVERY_SEAT, self.bytes) {
            Ok((entry, rest)) => {
                self.left -= 1;
                self.bytes = rest;
                Ok(Some(entry))
            }
            Err(_) => Err(AllocError),
        }
    }
}
