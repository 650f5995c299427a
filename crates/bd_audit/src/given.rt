//! What the rules give for an entry of a record.

ghost use Rattle.std.specs.Prelude.{◌≡◌, IfOk, IfErr};
ghost use Rattle.bd_engine.specs.Refusals.{IsLiveSeats};
ghost use Rattle.bd_uapi.specs.declared.fault.Fault.TheVariants as faults;
ghost use Rattle.bd_space.specs.Histories.{IsHistory};
ghost use Rattle.bd_spelling.specs.Records.{history_in};
ghost use Rattle.bd_audit.specs.Given as spec;
ghost use Rattle.bd_audit.specs.Replays.{beginning};

use crate::playing::entry_at;
use bd_engine::{StepError, WideEngine};
use bd_space::{Entry, StepAnswer};
use bd_spelling::Record;
use bd_uapi::Fault;
use std::alloc::Global;

/// What the rules give for the step of an entry, after those before it.
#[derive(Drop, Debug)]
pub enum Given {
    /// The step is made, and this is its answer.
    Answer(StepAnswer),
    /// No step is made: there is no such seat, or the history has no place for it.
    NoStep,
}

// What the rules give for the entry's step, after the engine's history.
fn given_to(mut engine: WideEngine, entry: &Entry) -> Result<Given, Fault>
    ensures given { IfOk result (spec.IsGivenTo engine entry.now) }
    ensures fault { IfErr result (λ f. f ≡ faults.NoMemory) }
{
    if entry.seat >= engine.seats() {
        return Ok(Given::NoStep);
    }
    let Ok(step) = entry.step.copied() else {
        return Err(Fault::NoMemory);
    };
    match engine.step(entry.seat, step) {
        Ok(answer) => Ok(Given::Answer(answer)),
        Err(StepError::HistoryFull) => Ok(Given::NoStep),
        Err(StepError::NoMemory) => Err(Fault::NoMemory),
    }
}

/// What the rules give for the entry at a place, after those before it, which are a history. The only fault is
/// `NoMemory`.
pub fn given_at(alloc: Global, record: &Record, place: u32) -> Result<Given, Fault>
    requires seats { IsLiveSeats «record».now.seats }
    requires before { IsHistory (beginning place (history_in «record».now)) }
    ensures given { IfOk result (spec.IsGivenAt (history_in «record».now) place) }
    ensures fault { IfErr result (λ f. f ≡ faults.NoMemory) }
{
    match entry_at(alloc, record, place)? {
        Some((engine, entry)) => given_to(engine, &entry),
        None => Ok(Given::NoStep),
    }
}
