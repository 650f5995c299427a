//! Journals: the bytes of a history, and what they are worth.

ghost use Rattle.bd_spelling.specs.declared.record.Record.{Record};
ghost use Rattle.bd_audit.specs.Journals.{IsJudgment};
ghost use Rattle.bd_c.specs.Journals.{Holds, Journals, Judges};

use crate::parts::tell_written;
use crate::status::Status;
use bd_audit::{Judgment, Unwatched, judge_journal};
use bd_journal::{ReadError, write_journal};
use bd_spelling::Record;
use std::alloc::Global;

/// What C is told of a journal by its judgment.
#[repr(C)]
#[derive(Clone, Copy)]
pub struct Verdict {
    /// Whether its entries are lawful: each answer follows from the entries before.
    pub lawful: bool,
    /// How many of them are, from the first on.
    pub entries: usize,
}

/// Copies the journal of a history, if all of it fits.
pub(crate) fn write_to(alloc: Global, history: &Record, out: &mut [u8], size: &mut usize) -> Status
    ensures { Journals history.now out.old out.new size.old size.new result }
{
    let mut journal = Vec::new(alloc);
    let written = write_journal(history, &mut journal);
    tell_written(written, journal.as_slice(), out, size)
}

// What is said of a journal by its judgment.
fn verdict_of(judgment: Judgment) -> Verdict
    ensures { (r : Record) → IsJudgment r judgment → Holds r result.lawful result.entries }
{
    match judgment.stopped {
        None => Verdict {
            lawful: true,
            entries: judgment.entries,
        },
        Some(at) => Verdict {
            lawful: false,
            entries: at as usize,
        },
    }
}

/// Judges the bytes of a journal as they are read. No entry is kept.
#[tactic(auto, using(crate::proofs::Judged::judged, crate::proofs::Judged::no_journal, crate::proofs::Judged::no_memory))]
pub(crate) fn judge_bytes(alloc: Global, journal: &[u8], verdict: &mut Verdict) -> Status
    ensures { Judges journal.now verdict.old verdict.new result }
{
    match judge_journal(alloc, journal, &mut Unwatched) {
        Ok(judgment) => {
            *verdict = verdict_of(judgment);
            Status::Done
        }
        Err(ReadError::Malformed) => Status::NoJournal,
        Err(ReadError::Memory) => Status::NoMemory,
    }
}
