//! The steps of a history, made again.

ghost use Rattle.std.specs.{Prelude.{◌≡◌, ◌≤◌, length, drop, None, IfOk, IfErr, OnOk, MatchOption, MatchResult}, List.{slice_get}};
ghost use Rattle.bd_engine.specs.Refusals.{IsLiveSeats};
ghost use Rattle.bd_uapi.specs.declared.fault.Fault.TheVariants as faults;
ghost use Rattle.bd_space.specs.Histories.{IsHistory, history_of};
ghost use Rattle.bd_spelling.specs.Records.{history_in};
ghost use Rattle.bd_audit.specs.Replays.{with_entry, beginning, IsEntryAt};

use crate::judging::{AuditFault, accept};
use bd_engine::WideEngine;
use bd_space::Entry;
use bd_spelling::{LogReader, Record};
use bd_uapi::Fault;
use std::alloc::Global;

/// Makes the step of an entry, with which the engine's history is one. The only fault is `NoMemory`.
pub fn advance(engine: &mut WideEngine, entry: &Entry) -> Result<(), Fault>
    requires lawful { IsHistory (with_entry engine.old entry.now) }
    ensures ok { IfOk result (λ _. engine.new ≡ with_entry engine.old entry.now) }
    ensures fault { IfErr result (λ f. f ≡ faults.NoMemory) }
{
    match accept(engine, entry) {
        Ok(()) => Ok(()),
        Err(AuditFault::NoMemory) => Err(Fault::NoMemory),
        Err(AuditFault::Unlawful { .. }) => unreachable!(),
    }
}

// An engine that has made the steps of so many entries of a reader, which then stands behind them.
fn played(
    alloc: Global,
    seats: u32,
    entries: &mut LogReader<'_>,
    count: usize,
) -> Result<WideEngine, Fault>
    requires seats { IsLiveSeats seats }
    requires inside { count ≤ length entries.old }
    requires lawful { IsHistory (beginning count (history_of seats entries.old)) }
    ensures engine { MatchResult result (λ e. e ≡ beginning count (history_of seats entries.old)) (λ f. f ≡ faults.NoMemory) }
    ensures rest { OnOk result (entries.new ≡ drop count entries.old) }
{
    let Ok(mut engine) = WideEngine::new(alloc, seats) else {
        return Err(Fault::NoMemory);
    };
    for _ in 0..count {
        match entries.next(alloc) {
            Ok(Some(entry)) => advance(&mut engine, &entry)?,
            Ok(None) => unreachable!(),
            Err(_) => return Err(Fault::NoMemory),
        }
    }
    Ok(engine)
}

/// The engine before the entry at this place, or after the last entry, where the entries before it are a history. The only
/// fault is `NoMemory`.
pub fn played_before(alloc: Global, record: &Record, place: usize) -> Result<WideEngine, Fault>
    requires seats { IsLiveSeats «record».now.seats }
    requires before { IsHistory (beginning place (history_in «record».now)) }
    requires inside { place ≤ length «record».now.entries }
    ensures ok { IfOk result (λ e. e ≡ beginning place (history_in «record».now)) }
    ensures fault { IfErr result (λ f. f ≡ faults.NoMemory) }
{
    played(alloc, record.seats, &mut record.entries.reader(), place)
}

/// The engine before the entry at a place and that entry, where the entries before it are a history; None past the last. The
/// only fault is `NoMemory`.
pub(crate) fn entry_at(
    alloc: Global,
    record: &Record,
    place: u32,
) -> Result<Option<(WideEngine, Entry)>, Fault>
    requires seats { IsLiveSeats «record».now.seats }
    requires before { IsHistory (beginning place (history_in «record».now)) }
    ensures found { IfOk result (λ found. MatchOption found (slice_get «record».now.entries place ≡ None)
        (λ x. IsEntryAt (history_in «record».now) place x.0 x.1)) }
    ensures fault { IfErr result (λ f. f ≡ faults.NoMemory) }
{
    let place = place as usize;
    if place >= record.entries.len() {
        return Ok(None);
    }
    let mut entries = record.entries.reader();
    let engine = played(alloc, record.seats, &mut entries, place)?;
    match entries.next(alloc) {
        Ok(Some(entry)) => Ok(Some((engine, entry))),
        Ok(None) => unreachable!(),
        Err(_) => Err(Fault::NoMemory),
    }
}
