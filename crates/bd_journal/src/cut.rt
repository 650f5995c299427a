//! Reading a journal that was cut off, or that is still being written.

ghost use Rattle.std.specs.Prelude.{◌≡◌, List, ℕ, [], ◌++◌, length, IfOk, IfErr, None, Some};
ghost use Rattle.bd_spelling.specs.declared.record.Record.{Record};
ghost use Rattle.bd_journal.specs.Cut.{Continues, IsCut, IsUncut, cut_in, whole_from};
ghost use Rattle.bd_spelling.specs.Reading.{Gives};
ghost use Rattle.bd_journal.specs.Reading.{heading_from};
ghost use Rattle.bd_spelling.specs.declared.fault.ReadError.TheVariants.{Malformed};
ghost use Rattle.bd_journal.specs.Spelling.{IsRecordSeats, Tells};

use crate::heading::heading_at;
use bd_spelling::{Entries, Log, ReadError, Record, Version, entry_at};
use std::alloc::Global;

// The entries that are whole, and the bytes behind them. Only memory stops it before those.
fn whole_entries_at(
    alloc: Global,
    version: Version,
    seats: u32,
    bytes: &[u8],
) -> Result<(Log, &[u8]), ReadError>
    ensures { Gives (λ x. (x.0.entries, x.1.now)) result (Some (whole_from version seats (length bytes.now) bytes.now)) }
{
    let mut entries = Log::new(alloc);
    let mut rest = bytes;
    for _ in 0..bytes.len() {
        match entry_at(alloc, version, seats, rest) {
            Ok((entry, after)) => {
                let Ok(()) = entries.append(&entry) else {
                    return Err(ReadError::Memory);
                };
                rest = after;
            }
            Err(ReadError::Malformed) => return Ok((entries, rest)),
            Err(ReadError::Memory) => return Err(ReadError::Memory),
        }
    }
    Ok((entries, rest))
}

#[tactic(auto, unfolding(crate::specs::Cut::cut_in))]
fn cut_of(alloc: Global, bytes: &[u8]) -> Result<(Record, &[u8]), ReadError>
    ensures given { Gives (λ x. (x.0, x.1.now)) result (cut_in bytes.now) }
    ensures error { heading_from bytes.now ≡ None → IfErr result (λ e. e ≡ Malformed) }
{
    let heading = heading_at(bytes)?;
    let (entries, rest) = whole_entries_at(alloc, heading.version, heading.seats, heading.rest)?;
    let record = Record {
        seats: heading.seats,
        entries: Entries::from(entries),
    };
    Ok((record, rest))
}

/// The record of the entries that are whole in a journal of any version which was cut off anywhere behind its heading (16
/// bytes, 20 in the third) or is still being written, and the bytes behind them. The count in its heading isn't looked at:
/// while a journal is written there is none yet.
///
/// What isn't the end of a cut entry is left in the same way: look how many bytes are left, and wonder where they are more
/// than an entry has.
///
/// # Errors
/// `Malformed` where the bytes don't begin with a heading, `Memory` where memory was refused.
pub fn read_cut(alloc: Global, bytes: &[u8]) -> Result<(Record, &[u8]), ReadError>
    // Each entry that is read is there, and no entry begins where the bytes that are left do.
    ensures found { IfOk result (λ x. IsCut bytes.now x.0 x.1.now) }
    // It has as many seats as a record may.
    ensures seats { IfOk result (λ x. IsRecordSeats x.0.seats) }
    // Nothing else is read of what is so, and it is read unless memory runs out.
    ensures only { (r : Record) (left : List ℕ) → IsCut bytes.now r left
        → Gives {Y = Record × List ℕ} (λ x. (x.0, x.1.now)) result (Some (r, left)) }
    // Of a journal that is whole nothing is left.
    ensures whole { (r : Record) → Tells bytes.now r → Gives {Y = Record × List ℕ} (λ x. (x.0, x.1.now)) result (Some (r, [])) }
    // Whatever stands behind the bytes, these entries are read first of all.
    ensures beginning { IfOk result (λ x. (lost : List ℕ) → (y : Record) × (left : List ℕ)
        × (cut_in (bytes.now ++ lost) ≡ Some (y, left)) × Continues x.0 y) }
    // Where nothing is read, that is why.
    ensures fault { IfErr result (IsUncut bytes.now) }
    // All of it at once, by a function that computes.
    ensures computed { Gives (λ x. (x.0, x.1.now)) result (cut_in bytes.now) }
{
    cut_of(alloc, bytes)
}
