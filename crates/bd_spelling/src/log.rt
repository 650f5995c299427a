//! The entries of a history as bytes.

ghost use Rattle.std.specs.Prelude.{◌≡◌, ◌+◌, ◌++◌, ◌∷◌, ◌≤◌, ◌<◌, [], length, IfOk, OnOk, OnErr, Some, MatchOption};
ghost use Rattle.std.specs.List.{flat_map};
ghost use Rattle.bd_spelling.specs.Spelling.{IsEntry, SpellsCommand, entry_bytes, step_bytes};
ghost use Rattle.bd_spelling.specs.Logged.{AreSeatsOf, every_seat};
ghost use Rattle.bd_spelling.specs.Writing.{Sends};

use crate::chunk::{Chunk, ChunkReader, EVERY_SEAT};
use crate::fault::Refused;
use crate::sending::send;
use crate::writing::{answer_len, command_of, step_len};
use bd_space::Entry;
use std::alloc::{AllocError, Global};
use std::io::Write;
use std::marker::Model;
use std::mem::replace;
use std::slice::from_ref;

/// Entries spelled as a journal spells them, in chunks that are never moved. A contract sees the entries as a list, the size of another
/// that there is room for, and that for which no memory is asked where room is made.
#[derive(Drop, Debug)]
pub struct Log {
    // Those before the last one, in order.
    full: Vec<Chunk>,
    last: Chunk,
    count: usize,
    // How many seats a journal of them has at least.
    seats: u32,
}

impl Model for Log {
    ghost use Rattle.std.specs.Prelude.{◌≡◌, ◌++◌, length};
    ghost use Rattle.std.specs.List.{flat_map};
    ghost use Rattle.bd_spelling.specs.Logged.{LogView, AreSeatsOf, all_entries};

    ghost Value = { LogView };

    ghost view = { λ l. record { entries = all_entries l.full.items l.last; room = l.last.room; memory = l.last.memory } };

    ghost invariant = { λ l. (l.count ≡ length (all_entries l.full.items l.last)) × AreSeatsOf l.seats (all_entries l.full.items l.last) };
}

impl Log {
    /// A log without entries and without memory.
    pub fn new(alloc: Global) -> Log
        ensures { result.entries ≡ [] }
    {
        Log {
            full: Vec::new(alloc),
            last: Chunk::new(alloc),
            count: 0,
            seats: 0,
        }
    }

    /// How many seats a journal of these entries has at least.
    pub fn seats(&self) -> u32
        ensures { AreSeatsOf result self.now.entries }
    {
        self.seats
    }

    /// How many entries are in it.
    pub fn len(&self) -> usize
        ensures { result ≡ length self.now.entries }
    {
        self.count
    }

    // Room for an entry of this size, where there isn't any.
    #[inline(never)]
    fn grow(&mut self, bytes: usize) -> Result<(), AllocError>
        ensures entries { self.new.entries ≡ self.old.entries }
        ensures room { OnOk result (bytes ≤ self.new.room) }
        ensures grown { OnErr result (self.old.memory < bytes) }
    {
        if self.last.make_room(bytes) {
            return Ok(());
        }
        self.full.reserve(1)?;
        let next = Chunk::with_capacity(*self.full.allocator(), bytes)?;
        let last = replace(&mut self.last, next);
        self.full.push_reserved(last);
        Ok(())
    }

    /// Makes room for an entry of this size. No entry is changed, even where it fails. Errors: memory was refused.
    #[inline(always)]
    pub fn reserve(&mut self, bytes: usize) -> Result<(), AllocError>
        ensures entries { self.new.entries ≡ self.old.entries }
        ensures room { OnOk result (bytes ≤ self.new.room) }
        // Memory was asked for: room and free memory were less.
        ensures grown { OnErr result ((self.old.room < bytes) × (self.old.memory < bytes)) }
    {
        if bytes <= self.last.room() {
            return Ok(());
        }
        self.grow(bytes)
    }

    /// Adds an entry that a journal spells, whose command these bytes spell, and for which room was made. It can't fail.
    pub fn push(&mut self, entry: &Entry, command: &[u8], step: u32)
        requires command { SpellsCommand entry.now.step command.now }
        requires step { step ≡ length (step_bytes entry.now.step) }
        requires spelled { IsEntry every_seat entry.now }
        requires room { length (entry_bytes entry.now) ≤ self.old.room }
        requires count { length self.old.entries + 1 < 18446744073709551616 }
        ensures entries { self.new.entries ≡ self.old.entries ++ entry.now ∷ [] }
        ensures room { self.old.room ≤ self.new.room + length (entry_bytes entry.now) }
        ensures memory { self.old.memory ≤ self.new.memory + length (entry_bytes entry.now) }
    {
        self.last.push(entry, command, step);
        self.count += 1;
        self.seats = self.seats.max(entry.seat + 1);
    }

    /// Adds an entry, and makes the room for it. Errors: memory was refused, or no journal spells the entry; then none was added.
    pub fn append(&mut self, entry: &Entry) -> Result<(), AllocError>
        ensures added { OnOk result (self.new.entries ≡ self.old.entries ++ entry.now ∷ []) }
        ensures err { OnErr result (self.new.entries ≡ self.old.entries) }
        // Memory was asked for, where there is a spelling and a number for the entry: room and free memory were less.
        ensures grown { OnErr result (IsEntry every_seat entry.now → length self.old.entries + 1 < 18446744073709551616
            → (self.old.room < length (entry_bytes entry.now)) × (self.old.memory < length (entry_bytes entry.now))) }
    {
        if self.count == usize::MAX || entry.seat == EVERY_SEAT {
            return Err(AllocError);
        }
        let spelling = command_of(&entry.step);
        let command = spelling.as_slice();
        let (Some(step), Some(answer)) = (step_len(&entry.step, command), answer_len(&entry.answer))
        else {
            return Err(AllocError);
        };
        self.reserve(12 + step as usize + answer as usize)?;
        self.push(entry, command, step);
        Ok(())
    }

    /// A reader that begins at the first entry.
    pub fn reader(&self) -> LogReader<'_>
        ensures { result ≡ self.now.entries }
    {
        LogReader {
            here: ChunkReader::none(),
            rest: self.full.as_slice(),
            last: from_ref(&self.last),
        }
    }

    /// The entries themselves, in a vector. Errors: memory was refused.
    pub fn copied(&self, alloc: Global) -> Result<Vec<Entry>, AllocError>
        ensures copied { IfOk result (λ v. v.items ≡ self.now.entries) }
        // Memory was asked for: none is for no entries.
        ensures grown { OnErr result (self.now.entries ≡ [] → ⊥) }
    {
        let mut entries = Vec::new(alloc);
        for chunk in &self.full {
            append(alloc, chunk.reader(), &mut entries)?;
        }
        append(alloc, self.last.reader(), &mut entries)?;
        Ok(entries)
    }

    /// Writes what a journal of these entries has behind its heading.
    ///
    /// # Errors
    /// The writer refused bytes; those before them are a beginning.
    pub fn write<W: Write>(&self, out: &mut W) -> Result<(), Refused>
        ensures { Sends (W.contents out.old) (W.contents out.new) result (flat_map entry_bytes self.now.entries) }
    {
        for chunk in &self.full {
            send(chunk.bytes(), out)?;
        }
        send(self.last.bytes(), out)
    }
}

// Reads all that a reader has left, and puts it behind the entries of a vector.
fn append(
    alloc: Global,
    mut from: ChunkReader<'_>,
    entries: &mut Vec<Entry>,
) -> Result<(), AllocError>
    ensures all { OnOk result (entries.new.items ≡ entries.old.items ++ from.entry) }
    ensures grown { OnErr result (from.entry ≡ [] → ⊥) }
{
    for _ in 0..from.len() {
        match from.next(alloc)? {
            None => return Ok(()),
            Some(entry) => entries.push(entry)?,
        }
    }
    Ok(())
}

/// The entries of a log that are still to be read.
#[derive(Drop)]
pub struct LogReader<'a> {
    // What is left of the chunk that is read.
    here: ChunkReader<'a>,
    // The chunks before the last that weren't begun.
    rest: &'a [Chunk],
    // The last, or nothing once it is begun.
    last: &'a [Chunk],
}

impl<'a> Model for LogReader<'a> {
    ghost use Rattle.std.specs.Prelude.{List, ◌++◌};
    ghost use Rattle.bd_space.specs.declared.step.Entry.{Entry};
    ghost use Rattle.bd_spelling.specs.Logged.{entries_of};

    ghost Value = { List Entry };

    ghost view = { λ r. r.here ++ (entries_of r.rest.now ++ entries_of r.last.now) };
}

impl LogReader<'_> {
    /// Reads one entry into memory of its own; None at the end. Errors: memory was refused, and the same entry is read next.
    pub fn next(&mut self, alloc: Global) -> Result<Option<Entry>, AllocError>
        ensures next { IfOk result (λ e. MatchOption e (self.old ≡ []) (λ x. self.old ≡ x ∷ self.new)) }
        ensures err { OnErr result (self.new ≡ self.old) }
        // Memory was asked for: an entry was left.
        ensures grown { OnErr result (self.old ≡ [] → ⊥) }
    {
        while self.here.len() == 0 {
            let next = match self.rest.split_first() {
                Some((next, rest)) => {
                    self.rest = rest;
                    next
                }
                None => match self.last.split_first() {
                    Some((next, none)) => {
                        self.last = none;
                        next
                    }
                    None => return Ok(None),
                },
            };
            self.here = next.reader();
        }
        self.here.next(alloc)
    }
}
