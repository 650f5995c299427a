//! The bytes and notes of what a seat's latest call came to.
ghost use Rattle.std.specs.Prelude.{◌≡◌};
ghost use Rattle.bd_c.specs.Parts.{part_of, bytes_of, notes_of, TellsNote, Fetches, TellsWritten};

use crate::status::Status;
use bd_driver::Outcome;
use bd_journal::{WriteError, note_number};
use bd_space::{Answer, Bytes};
use bd_uapi::Note;

/// A note of a write: which of its commands changed nothing, from 0, and the number of the reason.
#[repr(C)]
#[derive(Clone, Copy)]
pub struct NoteTold {
    /// Which command of the stream it was, from 0.
    pub command: u32,
    /// The number of the note that says why it changed nothing, 1 to 11.
    pub number: u32,
}

/// A part of what a read got: 0 the returns, 1 the data, 2 the offsets.
pub(crate) fn part_of<'a>(
    part: u32,
    stream: &'a Bytes,
    bytes: &'a Bytes,
    offsets: &'a Bytes,
) -> &'a [u8]
    ensures { result.now ≡ part_of part stream.now bytes.now offsets.now }
{
    match part {
        0 => stream.as_slice(),
        1 => bytes.as_slice(),
        2 => offsets.as_slice(),
        _ => &[],
    }
}

/// A part of what a seat's latest call got, if it was a read.
pub(crate) fn bytes_of(latest: &Option<Outcome>, part: u32) -> &[u8]
    ensures { result.now ≡ bytes_of part latest.now }
{
    match latest {
        Some(
            Outcome::Done {
                answer: Answer::Got {
                    stream,
                    bytes,
                    offsets,
                },
                ..
            },
        ) => part_of(part, stream, bytes, offsets),
        _ => &[],
    }
}

/// The notes of a seat's latest call, if it was a write; else none.
pub(crate) fn notes_of(latest: &Option<Outcome>) -> &[(u32, Note)]
    ensures { result.now ≡ notes_of latest.now }
{
    match latest {
        Some(
            Outcome::Done {
                answer: Answer::Wrote { notes, .. },
                ..
            },
        ) => notes.as_slice(),
        _ => &[],
    }
}

/// Copies the items where all of them fit, and else none; answers how many they are.
pub(crate) fn fill<T: Copy>(out: &mut [T], from: &[T]) -> usize
    ensures { Fetches from.now out.old out.new result }
{
    let count = from.len();
    if count <= out.len() {
        out[..count].copy_from_slice(from);
    }
    count
}

/// Fills `told` with the note at an index. Answers whether there is one; else `told` stays as it is.
pub(crate) fn tell_note(notes: &[(u32, Note)], index: usize, told: &mut NoteTold) -> bool
    ensures { TellsNote notes.now index told.old told.new result }
{
    match notes.get(index) {
        Some((command, note)) => {
            *told = NoteTold {
                command: *command,
                number: note_number(*note) as u32,
            };
            true
        }
        None => false,
    }
}

/// Copies what was written of a journal where all of it fits, and tells how many bytes it has.
pub(crate) fn tell_written(
    written: Result<(), WriteError>,
    bytes: &[u8],
    out: &mut [u8],
    size: &mut usize,
) -> Status
    ensures { TellsWritten written bytes.now out.old out.new size.old size.new result }
{
    match written {
        Ok(()) => {
            *size = fill(out, bytes);
            Status::Done
        }
        Err(WriteError::Unspellable) => Status::NoJournal,
        Err(WriteError::Refused) => Status::NoMemory,
    }
}
