//! What a journal's bytes are.

ghost use Rattle.std.specs.Prelude.{◌≡◌, IfOk, IfErr};
ghost use Rattle.bd_engine.specs.Refusals.{IsLiveSeats};
ghost use Rattle.bd_spelling.specs.declared.record.Record.{Record};
ghost use Rattle.bd_player.specs.{Verdicts.{IsUnjudged, IsVerdict, IsJudged, Judges}, declared.faults.ProgramFault.TheVariants.{Memory}};

use crate::faults::ProgramFault;
use crate::judging::{fault_of, verdict_watched};
use bd_audit::{AuditFault, Unwatched, Watch, replay_watched};
use bd_journal::read_journal;
use bd_spelling::Record;
use std::alloc::Global;

/// What is said of a journal that can be read.
#[derive(Clone, Copy, Debug, PartialEq, Eq)]
pub enum Verdict {
    /// Its entries are lawful: each answer follows from the entries before.
    Lawful {
        /// How many entries it has.
        entries: usize,
    },
    /// One of its entries doesn't follow from those before.
    Unlawful {
        /// The place of the first that doesn't, from 0.
        at: u64,
    },
}

/// A journal's record, and whether it is that of a history.
#[derive(Drop, Debug)]
pub enum Judged {
    /// Its entries are a history.
    History(Record),
    /// Its entries aren't a history.
    Unlawful {
        /// The record with all entries, also those from that place on.
        record: Record,
        /// The place of the first entry that doesn't follow from those before, from 0.
        at: u32,
    },
}

// What the replay of a record tells of it.
pub fn judge<P: Watch>(alloc: Global, found: Record, watch: &mut P) -> Result<Judged, ProgramFault>
    requires seats { IsLiveSeats found.seats }
    ensures judged { IfOk result (IsJudged found) }
    ensures fault { IfErr result (λ f. f ≡ Memory) }
{
    match replay_watched(alloc, &found, watch) {
        Ok(()) => Ok(Judged::History(found)),
        Err(AuditFault::Unlawful { at }) => Ok(Judged::Unlawful { record: found, at }),
        Err(AuditFault::NoMemory) => Err(ProgramFault::Memory),
    }
}

/// The record that the bytes of a journal spell, and whether its entries are a history, or else which is the first that
/// doesn't follow from those before. It tells how far it is.
///
/// # Errors
/// `Journal` where no record is spelled so, `Memory` where memory was refused.
#[tactic(auto, using(crate::proofs::Unjudged::unjudged))]
pub(crate) fn judgment_on<P: Watch>(
    alloc: Global,
    bytes: &[u8],
    watch: &mut P,
) -> Result<Judged, ProgramFault>
    ensures judged { IfOk result (Judges bytes.now) }
    // No journal is called unreadable, and memory is wanted for none without a heading.
    ensures journal { IfErr result (IsUnjudged bytes.now) }
{
    match read_journal(alloc, bytes) {
        Ok(found) => judge(alloc, found, watch),
        Err(error) => Err(fault_of(error)),
    }
}

/// Judges the bytes of a journal: whether its entries are lawful, or else the first that doesn't follow from those
/// before. No entry is kept.
///
/// # Errors
/// `Journal` where no record is spelled so, `Memory` where memory was refused.
pub fn verdict_on(alloc: Global, bytes: &[u8]) -> Result<Verdict, ProgramFault>
    // What is said is so of the record that the bytes spell.
    ensures verdict { IfOk result (IsVerdict bytes.now) }
    // No journal is called unreadable, and memory is wanted for none without a heading.
    ensures journal { IfErr result (IsUnjudged bytes.now) }
{
    verdict_watched(alloc, bytes, &mut Unwatched)
}
