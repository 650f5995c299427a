//! Whether a record is a history.

ghost use Rattle.std.specs.Prelude.{◌≡◌, ◌<◌, ◌≤◌, true, false, length, min, IfOk, IfErr, OnErr, MatchResult};
ghost use Rattle.bd_engine.specs.{Follows.{Follows}, Refusals.{IsLiveSeats}};
ghost use Rattle.bd_uapi.specs.declared.fault.Fault.TheVariants as faults;
ghost use Rattle.bd_space.specs.Histories.{History, HasLivePlace, IsHistory, IsLawful};
ghost use Rattle.bd_spelling.specs.Records.{history_in};
ghost use Rattle.bd_audit.specs.Replays as spec;
ghost use Rattle.bd_audit.specs.Judging.{HasHeardAll, IsStop};
ghost use Rattle.bd_audit.specs.Replays.{with_entry, beginning, Begins, IfUnlawful, IfNoMemory, StopsAt};

use crate::answers::is_same_answer;
use crate::judge::Judge;
use bd_engine::{Live, StepError, WideEngine};
use bd_space::Entry;
use bd_spelling::Record;
use bd_uapi::Fault;
use std::alloc::{AllocError, Global};

// The most steps that a history has.
const MOST_STEPS: usize = 4294967295;

/// Why a record isn't accepted.
#[derive(Clone, Copy, Debug, PartialEq, Eq)]
pub enum AuditFault {
    /// The record isn't a history: its first entry that doesn't follow from those before stands at this place.
    Unlawful {
        /// That entry's place, from 0.
        at: u32,
    },
    /// Memory was refused before the record was judged.
    NoMemory,
}

// What the engine's refusal of the entry at this place means for the record.
fn fault_of(why: StepError, at: u32) -> AuditFault
    ensures { result ≡ spec.fault_of why at }
{
    match why {
        StepError::HistoryFull => AuditFault::Unlawful { at },
        StepError::NoMemory => AuditFault::NoMemory,
    }
}

/// Makes the entry's step, if its answer is then the entry's.
pub(crate) fn accept(engine: &mut WideEngine, entry: &Entry) -> Result<(), AuditFault>
    ensures ok { IfOk result (λ _. engine.new ≡ with_entry engine.old entry.now) }
    ensures begins { Begins engine.old engine.new }
    ensures place { IfErr result (λ f. IfUnlawful f (λ at. at ≡ length engine.old.entries)) }
    ensures unlawful { IfErr result (λ f. IfUnlawful f (λ at. IsHistory (with_entry engine.old entry.now) → ⊥)) }
    // A full history is found before memory is asked for.
    ensures memory { IfErr result (λ f. IfNoMemory f (length engine.old.entries < 4294967295)) }
{
    let at = engine.len();
    if entry.seat >= engine.seats() || at == u32::MAX {
        return Err(AuditFault::Unlawful { at });
    }
    let Ok(step) = entry.step.copied() else {
        return Err(AuditFault::NoMemory);
    };
    match engine.step(entry.seat, step) {
        Ok(answer) => {
            if is_same_answer(&answer, &entry.answer) {
                Ok(())
            } else {
                Err(AuditFault::Unlawful { at })
            }
        }
        Err(why) => Err(fault_of(why, at)),
    }
}

// Makes the entry's step after whatever lawful history is followed, and tells whether its answer is then the entry's: else the
// entry continues none of them. Errors: memory was refused.
pub(crate) fn accept_live(live: &mut Live, entry: &Entry) -> Result<bool, AllocError>
    ensures accepted { IfOk result (λ accepted. accepted ≡ true → (h : History) → Follows live.old h
        → Follows live.new (with_entry h entry.now)) }
    ensures unlawful { IfOk result (λ accepted. accepted ≡ false → (h : History) → Follows live.old h
        → IsLawful (with_entry h entry.now) → ⊥) }
    // That no place is left is found before memory is asked for.
    ensures memory { OnErr result ((h : History) → Follows live.old h → HasLivePlace h) }
{
    if entry.seat >= live.seats() || live.len() == u64::MAX {
        return Ok(false);
    }
    let step = entry.step.copied()?;
    match live.step(entry.seat, step) {
        Ok(made) => Ok(is_same_answer(&made.answer, &entry.answer)),
        Err(StepError::HistoryFull) => Ok(false),
        Err(StepError::NoMemory) => Err(AllocError),
    }
}

/// Is told how far a judgment is, for whoever waits for a long one.
pub trait Watch {
    ghost use Rattle.std.specs.Prelude.{◌≤◌, ℕ};

    /// It was told last that so much of all is done.
    ghost heard: { Self → ℕ → ℕ → Type 0 };

    /// So much of all is done: so many entries, or bytes where nobody knows how many entries are to come.
    fn follow(&mut self, done: usize, all: usize)
        // Nobody is told of more than all.
        requires { done ≤ all }
        ensures { heard self.new done all };
}

/// A watch that does nothing, for whoever needn't know how far a judgment is.
#[derive(Clone, Copy, Debug)]
pub struct Unwatched;

impl Watch for Unwatched {
    ghost heard = { λ _ _ _. Unit {0} };

    fn follow(&mut self, _done: usize, _all: usize) {}
}

// The place of the first of so many entries that doesn't follow from those before; None where all do. Tells how far it is.
fn first_unlawful<W: Watch>(
    alloc: Global,
    record: &Record,
    count: usize,
    watch: &mut W,
) -> Result<Option<u64>, Fault>
    requires seats { IsLiveSeats «record».now.seats }
    requires inside { count ≤ length «record».now.entries }
    ensures stop { MatchResult result (IsStop (beginning count (history_in «record».now))) (λ f. f ≡ faults.NoMemory) }
    ensures heard { IfOk result (λ _. HasHeardAll W.heard watch.new count) }
{
    let mut judge = Judge::new(alloc, record.seats)?;
    let mut entries = record.entries.reader();
    for done in 0..count {
        match entries.next(alloc) {
            Ok(Some(entry)) => judge.see(&entry)?,
            Ok(None) => unreachable!(),
            Err(_) => return Err(Fault::NoMemory),
        }
        watch.follow(done + 1, count);
    }
    Ok(judge.stopped())
}

/// Judges a record: Ok where it is a history and nowhere else; `Unlawful` tells up to which entry it is one. An entry for
/// which a history has no place, or no handle left, is unlawful. No second copy of the record is made: the entries are
/// read and judged one after the other over what those before have come to.
pub fn replay(alloc: Global, record: &Record) -> Result<(), AuditFault>
    requires seats { IsLiveSeats «record».now.seats }
    ensures history { MatchResult result (λ _. IsHistory (history_in «record».now)) (λ f. IfUnlawful f (λ at. IsHistory (history_in «record».now) → ⊥)) }
    ensures first { IfErr result (λ f. IfUnlawful f (StopsAt (history_in «record».now))) }
{
    replay_watched(alloc, record, &mut Unwatched)
}

/// Judges a record as `replay` does, and tells how far it is.
pub fn replay_watched<W: Watch>(
    alloc: Global,
    record: &Record,
    watch: &mut W,
) -> Result<(), AuditFault>
    requires seats { IsLiveSeats «record».now.seats }
    ensures history { MatchResult result (λ _. IsHistory (history_in «record».now)) (λ f. IfUnlawful f (λ at. IsHistory (history_in «record».now) → ⊥)) }
    ensures first { IfErr result (λ f. IfUnlawful f (StopsAt (history_in «record».now))) }
    // Whoever watches has heard in the end that all are done that have a place.
    ensures heard { MatchResult result (λ _. HasHeardAll W.heard watch.new (min (length «record».now.entries) 4294967295))
        (λ f. IfUnlawful f (λ _. HasHeardAll W.heard watch.new (min (length «record».now.entries) 4294967295))) }
{
    let len = record.entries.len();
    // A history has places for so many.
    let placed = len.min(MOST_STEPS);
    match first_unlawful(alloc, record, placed, watch) {
        Ok(Some(at)) => Err(AuditFault::Unlawful { at: at as u32 }),
        Ok(None) if placed < len => Err(AuditFault::Unlawful { at: u32::MAX }),
        Ok(None) => Ok(()),
        Err(_) => Err(AuditFault::NoMemory),
    }
}
