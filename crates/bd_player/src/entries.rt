//! An entry of a history, as it is printed.

ghost use Rattle.std.specs.Prelude.{◌≡◌, ◌≤◌, length, IfOk, IfErr};
ghost use Rattle.bd_engine.specs.Refusals.{IsLiveSeats};
ghost use Rattle.bd_space.specs.Histories.{IsHistory};
ghost use Rattle.bd_spelling.specs.Records.{history_in};
ghost use Rattle.bd_player.specs.{Entries.{IsEntryAt}, declared.untold.Untold.TheVariants.{OutOfRange}};

use crate::answers::AnswerText;
use crate::pids::step_made;
use crate::texts::OrDash;
use crate::untold::Untold;
use crate::words::Word;
use bd_audit::played_to;
use bd_space::Entry;
use bd_spelling::Record;
use std::alloc::Global;
use std::fmt;

/// An entry as it is printed: its place, and the pid of the process that made it.
#[derive(Drop)]
pub(crate) struct Made {
    place: u32,
    entry: Entry,
    pid: Option<u32>,
}

impl fmt::Display for Made {
    fn fmt<W: fmt::Write>(&self, f: &mut fmt::Formatter<W>) -> fmt::Result {
        let (place, seat, pid) = (self.place, self.entry.seat, OrDash(self.pid));
        let step = Word::of_step(&self.entry.step);
        let answer = AnswerText(&self.entry.answer);
        write!(f, "{place} seat {seat} pid {pid} {step}: {answer}")
    }
}

/// The entry at a place, as it is printed.
///
/// # Errors
/// `OutOfRange` where there is no such place.
pub(crate) fn entry_at(alloc: Global, record: &Record, place: u32) -> Result<Made, Untold>
    requires seats { IsLiveSeats «record».now.seats }
    requires lawful { IsHistory (history_in «record».now) }
    ensures entry { IfOk result (IsEntryAt (history_in «record».now) place) }
    ensures range { IfErr result (λ u. u ≡ OutOfRange → length «record».now.entries ≤ place) }
{
    let at = place as usize;
    if at >= record.entries.len() {
        return Err(Untold::OutOfRange);
    }
    let Ok(mut entries) = record.entries.copied(alloc) else {
        return Err(Untold::Memory);
    };
    let Ok(mut engine) = played_to(alloc, record, at) else {
        return Err(Untold::Memory);
    };
    let all = entries.as_slice();
    let Ok(pid) = step_made(&mut engine, all, &all[at]) else {
        return Err(Untold::Memory);
    };
    let entry = entries.remove(at);
    Ok(Made { place, entry, pid })
}
