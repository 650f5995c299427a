//! The latest entry of a live engine: what a read got, and its bytes for a journal.
ghost use Rattle.std.specs.Prelude.{◌≡◌};
ghost use Rattle.bd_journal.specs.{Spelling.{heading_bytes}, Writing.{IsHeading}};
ghost use Rattle.bd_c.specs.{LiveEntries.{got_of, IsSpelled, spelled}, Parts.{Tells}};

use crate::live::OwnedLive;
use crate::parts::{part_of, tell_written};
use crate::status::Status;
use bd_journal::{lay_entry, write_heading};
use bd_space::{Entry, StepAnswer};
use smallvec::SmallVec;
use std::alloc::Global;

// A heading is shorter. What is spelled within so many bytes asks for no memory.
const SHORT: usize = 32;

/// A part of what the latest step got, if it was a read.
pub(crate) fn got_of(latest: &Option<Entry>, part: u32) -> &[u8]
    ensures { result.now ≡ got_of part latest.now }
{
    let Some(latest) = latest else {
        return &[];
    };
    match &latest.answer {
        StepAnswer::Got {
            stream,
            bytes,
            offsets,
        } => part_of(part, stream, bytes, offsets),
        _ => &[],
    }
}

impl OwnedLive {
    /// Spells the latest entry into the memory given, if all of it fits there.
    pub(crate) fn entry(&self, out: &mut [u8], size: &mut usize) -> Status
        ensures { Tells (IsSpelled self.now.bridge.engine.live.seats self.now.latest) (spelled self.now.latest)
            out.old out.new size.old size.new result }
    {
        let Some(latest) = &self.latest else {
            *size = 0;
            return Status::Done;
        };
        match lay_entry(self.bridge.engine.live.seats(), latest, out) {
            Some(len) => {
                *size = len;
                Status::Done
            }
            None => Status::NoJournal,
        }
    }

    /// Copies the bytes of the heading of a journal of so many entries, if all of them fit.
    pub(crate) fn heading(
        &self,
        alloc: Global,
        count: u64,
        out: &mut [u8],
        size: &mut usize,
    ) -> Status
        ensures { Tells (IsHeading self.now.bridge.engine.live.seats count) (heading_bytes self.now.bridge.engine.live.seats count)
            out.old out.new size.old size.new result }
    {
        let mut heading: SmallVec<u8, SHORT, Global> = SmallVec::new(alloc);
        let written = write_heading(
            self.bridge.engine.live.seats(),
            count as usize,
            &mut heading,
        );
        tell_written(written, heading.as_slice(), out, size)
    }
}
