//! What is done when something comes for a thread.

ghost use Rattle.std.specs.Prelude.{◌≡◌, ◌&&◌};
ghost use Rattle.bd_waiting.specs.Coming.{answers_by, taken_as, touched_as, heard_as, is_answered as it_is_answered};

use crate::Waits;
use bd_reader::Facts;

/// What a read of the engine's has got for a thread.
#[derive(Clone, Copy, Debug, PartialEq, Eq)]
pub enum Outcome {
    Something,
    Nothing,
    /// It couldn't be made, or taken.
    Failed,
}

/// What is done about a thread.
#[derive(Clone, Copy, Debug, PartialEq, Eq)]
pub enum Doing {
    Nothing,
    /// The bridge is told how it waits now.
    Notes,
    /// What is left of its calls and replies is read too.
    Fetches,
    /// Its read is answered.
    Answers,
    /// Its read is answered once the doorbells of its process are right.
    Queues,
    /// Its read is answered with an error.
    Fails,
}

/// What is done where the bridge has told of a thread's doorbell.
#[derive(Clone, Copy, Debug, PartialEq, Eq)]
pub enum Heard {
    /// It rings, or is silent.
    Rings,
    /// What a call has left is read, since that doesn't count before its reply; the bell is told anew where that was so.
    Fetches,
    /// Its read has no room for what is there, and is answered so.
    IsFull,
}

// Where threads of its process poll, their doorbells come first: some of their work this may have been.
#[inline(always)]
fn answers(somebody_polls: bool) -> Doing
    ensures { result ≡ answers_by somebody_polls }
{
    if somebody_polls {
        Doing::Queues
    } else {
        Doing::Answers
    }
}

/// What was read for a thread is taken. If that was nothing for it, or can wait, it waits on. `wakes` is whether the bridge has woken it,
/// `is_behind` whether others have handed over some of it, `is_empty` whether it has nothing to be told.
#[inline(always)]
pub fn taken(
    outcome: Outcome,
    wakes: bool,
    is_behind: bool,
    is_empty: bool,
    somebody_polls: bool,
) -> Doing
    ensures { result ≡ taken_as outcome wakes is_behind is_empty somebody_polls }
{
    match outcome {
        Outcome::Failed => Doing::Fails,
        Outcome::Nothing => Doing::Notes,
        Outcome::Something => {
            if !wakes {
                return Doing::Notes;
            }
            if is_behind {
                return Doing::Fetches;
            }
            if is_empty {
                return Doing::Notes;
            }
            answers(somebody_polls)
        }
    }
}

impl Waits {
    /// Another's read has brought it something.
    #[inline(always)]
    pub fn touched(&self, is_whole: bool, somebody_polls: bool) -> Doing
        ensures { result ≡ touched_as is_whole somebody_polls self.now }
    {
        if self.is_reading && is_whole {
            return answers(somebody_polls);
        }
        if self.is_reading || self.told.has_bell || self.told.reads {
            return Doing::Notes;
        }
        Doing::Nothing
    }

    /// The bridge has told that its bell rings, or is silent. `is_there` is whether its read has something.
    #[inline(always)]
    pub fn heard(&self, facts: &Facts, rings: bool, is_there: bool) -> Heard
        ensures { result ≡ heard_as facts.now rings is_there self.now }
    {
        if rings && self.is_reading && !facts.has_room {
            return Heard::IsFull;
        }
        if rings && !is_there && facts.fetches {
            return Heard::Fetches;
        }
        Heard::Rings
    }

    /// Whether its read is answered, since it may have come to have something.
    #[inline(always)]
    pub fn is_answered(&self, is_there: bool) -> bool
        ensures { result ≡ it_is_answered is_there self.now }
    {
        self.is_reading && is_there
    }
}
