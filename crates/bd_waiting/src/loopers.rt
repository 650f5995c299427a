//! When a process is asked for another thread.

ghost use Rattle.std.specs.Prelude.{◌≡◌};
ghost use Rattle.bd_waiting.specs.Loopers.{more as one_more, asks_for, asked_for, front_of, came_to, enters_by};

use bd_uapi::codes::*;

/// How many threads a process may be asked for, how many are still to come, and how many have come.
#[repr(C)]
#[derive(Clone, Copy, Debug, PartialEq, Eq)]
pub struct Loopers {
    pub max: u32,
    pub requested: u32,
    pub started: u32,
}

/// What a read is answered with first.
#[derive(Clone, Copy, Debug, PartialEq, Eq)]
pub enum Front {
    /// It has no room for anything.
    Nothing,
    /// BR_NOOP.
    Noop,
    /// BR_SPAWN_LOOPER.
    SpawnLooper,
}

// A code takes so many bytes.
const CODE: u32 = 4;

#[inline(always)]
fn more(n: u32) -> u32
    ensures { result ≡ one_more n }
{
    if n == u32::MAX { n } else { n + 1 }
}

impl Loopers {
    // A looper's read asks for another thread where nobody else of the process waits, none is still to come, and fewer have come than may.
    #[inline(always)]
    fn asks(&self, is_looper: bool, somebody_waits: bool) -> bool
        ensures { result ≡ asks_for is_looper somebody_waits self.now }
    {
        is_looper && !somebody_waits && self.requested == 0 && self.started < self.max
    }

    /// What the read of a thread is answered with first, which has so much room.
    #[inline(always)]
    pub fn answer(&mut self, room: u32, is_looper: bool, somebody_waits: bool) -> Front
        ensures front { result ≡ front_of room is_looper somebody_waits self.old }
        ensures asked { self.new ≡ asked_for (front_of room is_looper somebody_waits self.old) self.old }
    {
        if room < CODE {
            return Front::Nothing;
        }
        if self.asks(is_looper, somebody_waits) {
            self.requested = 1;
            return Front::SpawnLooper;
        }
        Front::Noop
    }

    /// A thread has run BC_REGISTER_LOOPER, BC_ENTER_LOOPER or BC_EXIT_LOOPER: who was still to come has, by the first.
    #[inline(always)]
    pub fn attach(&mut self, code: u32)
        ensures { self.new ≡ came_to code self.old }
    {
        if code == BC_REGISTER_LOOPER && self.requested != 0 {
            self.requested = 0;
            self.started = more(self.started);
        }
    }
}

/// Whether who runs such a command is in the loop then: loopers of both kinds are.
#[inline(always)]
pub fn enters(code: u32) -> bool
    ensures { result ≡ enters_by code }
{
    code != BC_EXIT_LOOPER
}
