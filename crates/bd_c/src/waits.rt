//! What is done about threads that wait, as numbers for C.
ghost use Rattle.std.specs.Prelude.{◌≡◌, ◌==◌, not};
ghost use Rattle.bd_c.specs.Waits.{place_number as its_place, doing_number as its_doing, heard_number as its_heard, begin_number as its_begin, end_number as its_end, number_of_cancel as its_cancel, clearing_number as its_clearing, front_code as its_front, outcome_given as outcome_of, why_given as why_of};

use bd_uapi::codes::*;
use bd_waiting::{Begin, Cancel, Clearing, Doing, End, Front, Heard, Outcome, Place, Why};

// asks for another thread
const BR_SPAWN_LOOPER: u32 = 0x0000_720d;

#[inline(always)]
pub(crate) fn place_number(place: Place) -> u32
    ensures { result ≡ its_place place }
{
    match place {
        Place::Nowhere => 0,
        Place::First => 1,
        Place::Last => 2,
    }
}

#[inline(always)]
pub(crate) fn doing_number(doing: Doing) -> u32
    ensures { result ≡ its_doing doing }
{
    match doing {
        Doing::Nothing => 0,
        Doing::Notes => 1,
        Doing::Fetches => 2,
        Doing::Answers => 3,
        Doing::Queues => 4,
        Doing::Fails => 5,
    }
}

#[inline(always)]
pub(crate) fn heard_number(heard: Heard) -> u32
    ensures { result ≡ its_heard heard }
{
    match heard {
        Heard::Rings => 0,
        Heard::Fetches => 1,
        Heard::IsFull => 2,
    }
}

#[inline(always)]
pub(crate) fn begin_number(begin: Begin) -> u32
    ensures { result ≡ its_begin begin }
{
    match begin {
        Begin::Waits => 0,
        Begin::Looks => 1,
        Begin::ComesBack => 2,
        Begin::Fetches => 3,
    }
}

#[inline(always)]
pub(crate) fn end_number(end: End) -> u32
    ensures { result ≡ its_end end }
{
    match end {
        End::Rests => 0,
        End::GoesOn => 1,
        End::Tells => 2,
        End::Fails => 3,
        End::Answers => 4,
        End::WouldBlock => 5,
        End::Waits => 6,
    }
}

#[inline(always)]
pub(crate) fn number_of_cancel(cancel: Cancel) -> u32
    ensures { result ≡ its_cancel cancel }
{
    match cancel {
        Cancel::Rests => 0,
        Cancel::ComesBack => 1,
        Cancel::Interrupts => 2,
        Cancel::Refuses => 3,
    }
}

#[inline(always)]
pub(crate) fn clearing_number(clearing: Clearing) -> u32
    ensures { result ≡ its_clearing clearing }
{
    match clearing {
        Clearing::IsNotTold => 0,
        Clearing::IsTold => 1,
        Clearing::LooksOn => 2,
    }
}

/// The code, or 0.
#[inline(always)]
pub(crate) fn front_code(front: Front) -> u32
    ensures { result ≡ its_front front }
{
    match front {
        Front::Nothing => 0,
        Front::Noop => BR_NOOP,
        Front::SpawnLooper => BR_SPAWN_LOOPER,
    }
}

/// 0 something, 1 nothing, and else it failed.
#[inline(always)]
pub(crate) fn outcome_given(number: u32) -> Outcome
    ensures { result ≡ outcome_of number }
{
    match number {
        0 => Outcome::Something,
        1 => Outcome::Nothing,
        _ => Outcome::Failed,
    }
}

/// 1 a signal has come, 2 its read is to come back, and else nothing.
#[inline(always)]
pub(crate) fn why_given(number: u32) -> Why
    ensures { result ≡ why_of number }
{
    match number {
        1 => Why::IsInterrupted,
        2 => Why::IsToReturn,
        _ => Why::Nothing,
    }
}
