//! Playing scripts, and writing and judging journals.

ghost use Rattle.std.specs.Prelude.{IfOk};
ghost use Rattle.bd_uapi.specs.Limits.{IsSeats};
ghost use Rattle.bd_space.specs.Histories.{IsHistory};
ghost use Rattle.bd_spelling.specs.Records.{history_in};

use crate::same::same;
use bd_audit::replay;
use bd_player::{check_journal, play, write_journal};
use bd_spelling::Record;
use bd_uapi::MOST_SEATS;
use std::alloc::Global;
use std::process::Abort;
use std::test::Fail;

/// What was printed and told, with the status.
#[derive(Drop)]
pub struct Printed {
    pub out: Vec<u8>,
    pub err: Vec<u8>,
    pub status: u8,
}

const TURNS: u32 = 1000;

impl Printed {
    /// Sees that it is this.
    pub fn expect(&self, rt: &impl Abort, name: &str, out: &str, err: &str, status: u8) {
        same(rt, name, self.out.as_slice(), out.as_bytes());
        same(rt, name, self.err.as_slice(), err.as_bytes());
        same(rt, name, self.status, status);
    }
}

/// Plays a script.
pub fn played(alloc: Global, script: &str) -> (Printed, Option<Record>) {
    let mut out = Vec::new(alloc);
    let mut err = Vec::new(alloc);
    let played = play(alloc, &mut script.as_bytes(), TURNS, &mut out, &mut err);
    let status = played.status;
    (Printed { out, err, status }, played.history)
}

/// The history of a script that runs.
pub fn history_of(alloc: Global, script: &str) -> Result<Record, Fail> {
    let (_, history) = played(alloc, script);
    let history = history.ok_or("a script with no bad line runs")?;
    Ok(history)
}

/// The history of a script, which is judged to be one.
pub fn lawful_history_of(alloc: Global, script: &str) -> Result<Record, Fail>
    ensures seats { IfOk result (λ r. IsSeats r.seats) }
    ensures lawful { IfOk result (λ r. IsHistory (history_in r)) }
{
    let record = history_of(alloc, script)?;
    if record.seats < 1 || MOST_SEATS < record.seats {
        return Err(Fail::from("no driver has so many seats"));
    }
    replay(alloc, &record)?;
    Ok(record)
}

/// Judges a journal.
pub fn checked(alloc: Global, journal: &[u8]) -> Printed {
    let mut out = Vec::new(alloc);
    let mut err = Vec::new(alloc);
    let status = check_journal(alloc, &mut &*journal, &mut out, &mut err);
    Printed { out, err, status }
}

/// A record's journal.
pub fn written(alloc: Global, history: &Record) -> Result<Vec<u8>, Fail> {
    let mut journal = Vec::new(alloc);
    if !write_journal(history, &mut journal) {
        return Err(Fail::from("the journal can't be written"));
    }
    Ok(journal)
}
