//! Reading a journal entry by entry.

ghost use Rattle.std.specs.Prelude.{◌≡◌, ◌<◌, List, ℕ, length, option_map, Some, IfOk, IfErr, IfSome, IsOkAnd};
ghost use Rattle.bd_space.specs.declared.step.Entry.{Entry};
ghost use Rattle.bd_spelling.specs.declared.record.Record.{Record};
ghost use Rattle.bd_spelling.specs.Reading.{Fails, Gives};
ghost use Rattle.bd_journal.specs.Reading.{heading_from};
ghost use Rattle.bd_journal.specs.Spelling.{IsRecordSeats, Tells};
ghost use Rattle.bd_journal.specs.Cut.{IsCut};
ghost use Rattle.bd_journal.specs.Steps.{IsFirstWhole, IsNext, bytes_left, count_left, cut_left, entries_left, record_left, seats_of, whole_left, with_next, with_whole};
ghost use Rattle.bd_spelling.specs.declared.fault.ReadError.TheVariants.{Malformed, Memory};

use crate::heading::heading_at;
use bd_space::Entry;
use bd_spelling::{ReadError, Version, entry_at};
use std::alloc::Global;

// The entry that is whole at the front of these bytes, and the bytes behind it. Only memory stops it.
fn whole_entry_at(
    alloc: Global,
    version: Version,
    seats: u32,
    bytes: &[u8],
) -> Result<Option<(Entry, &[u8])>, ReadError>
    ensures entry { IfOk result (λ x. IsFirstWhole version seats bytes.now (option_map (λ y. (y.0, y.1.now)) x)) }
    ensures error { IfErr result (λ e. e ≡ Memory) }
{
    match entry_at(alloc, version, seats, bytes) {
        Ok(found) => Ok(Some(found)),
        Err(ReadError::Malformed) => Ok(None),
        Err(ReadError::Memory) => Err(ReadError::Memory),
    }
}

/// The entries of a journal, read one after the other: whoever keeps none of them holds no more than one, however many there
/// are.
#[derive(Debug, Drop)]
pub struct JournalReader<'a> {
    version: Version,
    seats: u32,
    left: u64,
    rest: &'a [u8],
}

impl<'a> JournalReader<'a> {
    fn begun(bytes: &'a [u8]) -> Result<JournalReader<'a>, ReadError>
        ensures given { Gives (λ r. (r.version, r.seats, r.left, r.rest.now)) result (heading_from bytes.now) }
        ensures error { IfErr result (λ e. e ≡ Malformed) }
    {
        let heading = heading_at(bytes)?;
        Ok(JournalReader {
            version: heading.version,
            seats: heading.seats,
            left: heading.count,
            rest: heading.rest,
        })
    }

    /// A reader of these bytes, which has read the heading.
    ///
    /// # Errors
    /// `Malformed` where they don't begin with one.
    pub fn new(bytes: &'a [u8]) -> Result<JournalReader<'a>, ReadError>
        // What it comes to is spelled so, each byte of it.
        ensures found { IfOk result (λ r. (x : Record) → record_left r ≡ Some x → Tells bytes.now x) }
        // What is spelled so is what it comes to.
        ensures only { (x : Record) → Tells bytes.now x → IsOkAnd result (λ r. record_left r ≡ Some x) }
        // It has as many seats as a record may.
        ensures seats { IfOk result (λ r. IsRecordSeats (seats_of r)) }
        // Of a journal that was cut off it comes to what is whole,
        ensures cut { IfOk result (λ r. IsCut bytes.now (cut_left r).0 (cut_left r).1) }
        // and to nothing else.
        ensures only_cut { (x : Record) (left : List ℕ) → IsCut bytes.now x left → IsOkAnd result (λ r. cut_left r ≡ (x, left)) }
        // It takes no memory.
        ensures error { IfErr result (λ e. e ≡ Malformed) }
    {
        JournalReader::begun(bytes)
    }

    /// How many seats the record has.
    pub fn seats(&self) -> u32
        ensures { result ≡ seats_of self.now }
    {
        self.seats
    }

    /// How many entries are still to come, as the heading says: `next` counts those that it reads, `next_whole` doesn't.
    #[tactic(auto, using(crate::proofs::Stepping::so_many_left))]
    pub fn left(&self) -> u64
        ensures left { result ≡ count_left self.now }
        ensures counted { (es : List Entry) → entries_left self.now ≡ Some es → result ≡ length es }
    {
        self.left
    }

    /// The next entry; None behind the last.
    ///
    /// # Errors
    /// `Malformed` where the bytes spell no journal: no entry stands here, or something else behind the last. `Memory` where
    /// memory was refused.
    pub fn next(&mut self, alloc: Global) -> Result<Option<Entry>, ReadError>
        ensures entry { IfOk result (λ e. entries_left self.old ≡ with_next e (entries_left self.new)) }
        // Also where the bytes spell no journal in the end, each entry that is told stands there.
        ensures next { IfOk result (λ e. IfSome e (λ x. IsNext x self.old self.new)) }
        ensures error { IfErr result (λ e. Fails e (entries_left self.old)) }
        // Behind an error it stands where it stood.
        ensures stays { IfErr result (λ _. self.new ≡ self.old) }
        ensures seats { seats_of self.new ≡ seats_of self.old }
        ensures fewer { IfOk result (λ e. IfSome e (λ _. count_left self.new < count_left self.old)) }
    {
        if self.left == 0 {
            if !self.rest.is_empty() {
                return Err(ReadError::Malformed);
            }
            return Ok(None);
        }
        let (entry, rest) = entry_at(alloc, self.version, self.seats, self.rest)?;
        self.left -= 1;
        self.rest = rest;
        Ok(Some(entry))
    }

    /// How many bytes are still to be read.
    pub fn bytes_left(&self) -> usize
        ensures { result ≡ length (bytes_left self.now) }
    {
        self.rest.len()
    }

    /// The next entry of a journal that was cut off, whose count isn't looked at; None where no whole one stands.
    ///
    /// # Errors
    /// `Memory` where memory was refused.
    pub fn next_whole(&mut self, alloc: Global) -> Result<Option<Entry>, ReadError>
        ensures entry { IfOk result (λ e. whole_left self.old ≡ with_whole e self.new) }
        ensures error { IfErr result (λ e. e ≡ Memory) }
        // Behind an error it stands where it stood.
        ensures stays { IfErr result (λ _. self.new ≡ self.old) }
        ensures seats { seats_of self.new ≡ seats_of self.old }
        // The heading's number stays, too.
        ensures left { count_left self.new ≡ count_left self.old }
        ensures fewer { IfOk result (λ e. IfSome e (λ _. length (bytes_left self.new) < length (bytes_left self.old))) }
    {
        let Some((entry, rest)) = whole_entry_at(alloc, self.version, self.seats, self.rest)? else {
            return Ok(None);
        };
        self.rest = rest;
        Ok(Some(entry))
    }
}
