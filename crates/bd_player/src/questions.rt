//! Questions about a history, and what is printed of each.

ghost use Rattle.std.specs.Prelude.{◌≡◌, false, Err, IfErr, IfOk};
ghost use Rattle.bd_engine.specs.Refusals.{IsLiveSeats};
ghost use Rattle.bd_space.specs.Histories.{IsHistory};
ghost use Rattle.bd_spelling.specs.Records.{history_in};
ghost use Rattle.bd_player.specs.{Answered.{IsThere, names_place}, declared.untold.Untold.TheVariants.{OutOfRange}};

use crate::certificates::{tell_answered, tell_chain, tell_turns};
use crate::untold::Untold;
use bd_space::ObjectId;
use bd_spelling::Record;
use std::alloc::Global;
use std::io::Write;

/// What is asked of a history.
#[derive(Clone, Copy, Debug, PartialEq, Eq)]
pub enum Question {
    /// How the process with this pid came to its name (handle).
    Chain { pid: u32, handle: u32 },
    /// Which call the reading at this place answers.
    CallOfReply { place: u32 },
    /// The one-way calls on an object: the step that made it, and which of that step's objects it is.
    Turns { place: u32, index: u32 },
}

// Whether every place that the question names is one of the history.
fn is_within(question: Question, record: &Record) -> bool
    ensures { result ≡ names_place (history_in «record».now) question }
{
    let len = record.entries.len();
    match question {
        Question::Chain { .. } => true,
        Question::CallOfReply { place } | Question::Turns { place, .. } => (place as usize) < len,
    }
}

/// Prints what is asked of a history. Whether there is what was asked for.
///
/// # Errors
/// `OutOfRange` where the question names a place that the history doesn't have; nothing is printed then.
pub fn answer<W: Write>(
    alloc: Global,
    record: &Record,
    question: Question,
    out: &mut W,
) -> Result<bool, Untold>
    requires seats { IsLiveSeats «record».now.seats }
    requires lawful { IsHistory (history_in «record».now) }
    ensures there { IfOk result (IsThere (history_in «record».now) question) }
    // It is called out of range where it is so, and nowhere else.
    ensures outside { names_place (history_in «record».now) question ≡ false → result ≡ Err OutOfRange }
    ensures range { IfErr result (λ u. u ≡ OutOfRange → names_place (history_in «record».now) question ≡ false) }
{
    if !is_within(question, record) {
        return Err(Untold::OutOfRange);
    }
    match question {
        Question::Chain { pid, handle } => tell_chain(alloc, record, pid, handle, out),
        Question::CallOfReply { place } => tell_answered(alloc, record, place, out),
        Question::Turns { place, index } => {
            tell_turns(alloc, record, ObjectId { place, index }, out)?;
            Ok(true)
        }
    }
}
