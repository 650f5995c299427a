//! What a thread's read does next, by what it has left.

ghost use Rattle.std.specs.Prelude.{◌≡◌, ◌==◌, ◌&&◌, not, if◌then◌else◌};
ghost use Rattle.bd_reader.specs.Readers.{is_set as it_is_set};
ghost use Rattle.bd_reader.specs.Facts.{facts_of, limit_of as its_limit, has_room as it_has_room, is_there as it_is_there};

use crate::Reader;
use crate::reader::is_set;
use crate::returns::ROOM;

/// What a thread has read and wasn't told, and its read.
#[repr(C)]
#[derive(Clone, Copy)]
pub struct Pending {
    /// How many bytes of returns there are.
    pub size: u32,
    /// So many bytes its read has room for.
    pub room: u32,
    /// Not 0: it is in the loop.
    pub is_looping: u32,
}

/// What is so of a thread that reads.
#[repr(C)]
#[derive(Clone, Copy)]
pub struct Facts {
    /// Its read has something to be answered with ..
    pub is_there: bool,
    /// .. and all of its own that is told together.
    pub is_whole: bool,
    /// The engine has some of what its calls and replies have left.
    pub is_left: bool,
    /// What it has can wait for the reply to a call.
    pub defers: bool,
    /// It has made a call, of which nothing is read that can't wait.
    pub fetches: bool,
    /// It gets what comes to its process, and is in no call.
    pub is_idle: bool,
    /// Its read has room for a return, or may not come back without one.
    pub has_room: bool,
    /// With this limit the engine reads for it.
    pub limit: u32,
}

// BR_NOOP, and the longest return.
const LEAST: u32 = 72;

#[inline(always)]
fn limit_of(pending: &Pending) -> u32
    ensures { result ≡ its_limit pending.now }
{
    if pending.room > ROOM + 4 && pending.size < pending.room - ROOM - 4 {
        pending.room - pending.size - 8
    } else {
        LEAST
    }
}

impl Reader {
    /// Its read has something to be answered with.
    #[inline(always)]
    pub fn is_there(&self, pending: &Pending) -> bool
        ensures { result ≡ it_is_there pending.now self.now }
    {
        (pending.size != 0 && is_set(self.is_prompt)) || is_set(self.is_full)
    }

    /// That is whole, but for what the engine may have.
    #[inline(always)]
    pub fn is_whole(&self, pending: &Pending) -> bool
        ensures { result ≡ (facts_of pending.now self.now).is_whole }
    {
        self.is_there(pending) && !(is_set(self.is_behind) && self.completed < self.untold)
    }

    /// With which limit the engine reads for it, or 0: its read has no room for a return.
    #[inline(always)]
    pub fn limit(&self, pending: &Pending) -> u32
        ensures { result ≡ (if (facts_of pending.now self.now).has_room then (facts_of pending.now self.now).limit else 0) }
    {
        if self.has_room(pending) {
            limit_of(pending)
        } else {
            0
        }
    }

    #[inline(always)]
    fn defers(&self) -> bool
        ensures { result ≡ (not (self.now.calling == 0) && not (it_is_set self.now.is_prompt)) }
    {
        self.calling != 0 && !is_set(self.is_prompt)
    }

    #[inline(always)]
    fn fetches(&self) -> bool
        ensures { result ≡ (not (self.now.completions == 0) && not (it_is_set self.now.is_prompt)) }
    {
        self.completions != 0 && !is_set(self.is_prompt)
    }

    #[inline(always)]
    fn is_idle(&self, is_looping: bool) -> bool
        ensures { result ≡ (is_looping && (self.now.serving == 0) && (self.now.calling == 0)) }
    {
        is_looping && self.serving == 0 && self.calling == 0
    }

    #[inline(always)]
    fn has_room(&self, pending: &Pending) -> bool
        ensures { result ≡ it_has_room pending.now self.now }
    {
        pending.room >= ROOM + 4 || self.calling != 0
    }

    /// What is so of it.
    #[inline(always)]
    pub fn facts(&self, pending: &Pending) -> Facts
        ensures { result ≡ facts_of pending.now self.now }
    {
        Facts {
            is_there: self.is_there(pending),
            is_whole: self.is_whole(pending),
            is_left: self.completed < self.untold,
            defers: self.defers(),
            fetches: self.fetches(),
            is_idle: self.is_idle(is_set(pending.is_looping)),
            has_room: self.has_room(pending),
            limit: limit_of(pending),
        }
    }
}
