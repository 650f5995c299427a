//! The call that a reading answers.

ghost use Rattle.std.specs.Prelude.{◌≡◌, ◌≤◌, length, IfOk, IfErr, MatchResult};
ghost use Rattle.bd_engine.specs.Refusals.{IsLiveSeats};
ghost use Rattle.bd_uapi.specs.declared.fault.Fault.TheVariants as faults;
ghost use Rattle.bd_space.specs.Histories.{IsHistory, space_after};
ghost use Rattle.bd_spelling.specs.Records.{history_in};
ghost use Rattle.bd_audit.specs.Replays.{with_entry, beginning};
ghost use Rattle.bd_audit.specs.Replies as spec;
ghost use Rattle.bd_audit.specs.CallOf.{IsAnswerOf};

use crate::playing::{advance, entry_at, played_before};
use bd_engine::{Looks, WideEngine};
use bd_space::{Entry, Step};
use bd_spelling::Record;
use bd_uapi::Fault;
use std::alloc::Global;

/// The engine before the entry at this place, or after the last entry. The record is a history; the only fault is
/// `NoMemory`.
pub fn played_to(alloc: Global, record: &Record, place: usize) -> Result<WideEngine, Fault>
    requires seats { IsLiveSeats «record».now.seats }
    requires lawful { IsHistory (history_in «record».now) }
    requires inside { place ≤ length «record».now.entries }
    ensures ok { IfOk result (λ e. e ≡ beginning place (history_in «record».now)) }
    ensures fault { IfErr result (λ f. f ≡ faults.NoMemory) }
{
    played_before(alloc, record, place)
}

// The reply that the entry's reading takes: the first on the thread's list, if it is not the first any more after it.
fn read_reply(engine: &mut WideEngine, entry: &Entry) -> Result<Option<u32>, Fault>
    requires lawful { IsHistory (with_entry engine.old entry.now) }
    ensures { MatchResult result (λ r. r ≡ spec.reply_taken (space_after engine.old) entry.now) (λ f. f ≡ faults.NoMemory) }
{
    match &entry.step {
        Step::Read { .. } => {
            let before = engine.first_reply(entry.seat);
            advance(engine, entry)?;
            if engine.first_reply(entry.seat) == before {
                Ok(None)
            } else {
                Ok(before)
            }
        }
        _ => Ok(None),
    }
}

// The reply that the reading at this place took.
fn reply_taken_at(alloc: Global, record: &Record, place: u32) -> Result<Option<u32>, Fault>
    requires seats { IsLiveSeats «record».now.seats }
    requires lawful { IsHistory (history_in «record».now) }
    ensures { MatchResult result (λ r. r ≡ spec.reply_taken_at (history_in «record».now) place) (λ f. f ≡ faults.NoMemory) }
{
    match entry_at(alloc, record, place)? {
        Some((mut engine, entry)) => read_reply(&mut engine, &entry),
        None => Ok(None),
    }
}

// The call that the reply at this place answers.
fn call_closed_at(alloc: Global, record: &Record, place: u32) -> Result<Option<u32>, Fault>
    requires seats { IsLiveSeats «record».now.seats }
    requires lawful { IsHistory (history_in «record».now) }
    ensures { MatchResult result (λ r. r ≡ spec.call_closed_at (history_in «record».now) place) (λ f. f ≡ faults.NoMemory) }
{
    match entry_at(alloc, record, place)? {
        Some((engine, entry)) => match engine.innermost(entry.seat) {
            Some((made, _)) => Ok(Some(made)),
            None => Ok(None),
        },
        None => Ok(None),
    }
}

/// The call that is answered by the reading at a place: where it was made. `None` where that reading handed out no reply,
/// and where no reading stands at the place. The record is a history; the only fault is `NoMemory`.
pub fn call_of_reply(alloc: Global, record: &Record, step: u32) -> Result<Option<u32>, Fault>
    requires seats { IsLiveSeats «record».now.seats }
    requires lawful { IsHistory (history_in «record».now) }
    // That call is the one of the reading, and no other is.
    ensures answers { IfOk result (IsAnswerOf (history_in «record».now) step) }
    // The same by the way of the search: the innermost frame of the thread that made the first Reply taken.
    ensures found { MatchResult result (λ found. found ≡ spec.call_answered (history_in «record».now) step) (λ f. f ≡ faults.NoMemory) }
{
    match reply_taken_at(alloc, record, step)? {
        Some(reply) => call_closed_at(alloc, record, reply),
        None => Ok(None),
    }
}
