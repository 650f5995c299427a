//! What C calls to know which threads the bridge is told of, and what a read is answered when.
ghost use Rattle.std.specs.Prelude.{◌≡◌, ◌&&◌, ◌==◌, not};
ghost use Rattle.bd_waiting.specs.{Waits.{place_of, noted, taken_over, retired, told_anew, rings_for, herald_changes}, Coming.{taken_as, touched_as, heard_as, is_answered}, Requests.{begins_by, ends_by, cancels_by}, Cleared.{is_next_by, is_there_by, clears_by}, Loopers.{asked_for, front_of, came_to, enters_by}};
ghost use Rattle.bd_c.specs.Waits.{place_number as its_place, doing_number as its_doing, heard_number as its_heard, begin_number as its_begin, end_number as its_end, number_of_cancel as its_cancel, clearing_number as its_clearing, front_code as its_front, outcome_given as outcome_of, why_given as why_of};

use crate::waits::{
    begin_number, clearing_number, doing_number, end_number, front_code, heard_number,
    number_of_cancel, outcome_given, place_number, why_given,
};
use bd_reader::{Facts, Reader};
use bd_waiting::{
    Cleared, Ending, Loopers, Waits, begins, cancels, changes_herald, clears, enters, taken,
};

/// The thread waits otherwise than before: where it stands among its process's idle threads, 0 nowhere, 1 first, 2 last. What the bridge is
/// to be told is in `calls`. `has_own`, not 0: it has something of its own to read; `is_alone`, not 0: no other one is idle; `is_ending`,
/// not 0: its process ends.
#[unsafe(no_mangle)]
pub extern "C" fn hullpippin_waits_note(
    waits: &mut Waits,
    facts: &Facts,
    calling: u32,
    has_own: u32,
    is_alone: u32,
    is_ending: u32,
) -> u32
    ensures place { result ≡ its_place (place_of (facts.now.is_idle && not (not (is_ending == 0))) (not (has_own == 0)) waits.old) }
    ensures noted { waits.new ≡ noted facts.now calling (not (has_own == 0)) (not (is_alone == 0)) (not (is_ending == 0)) waits.old }
{
    place_number(waits.note(facts, calling, has_own != 0, is_alone != 0, is_ending != 0))
}

/// Whether who stands first among a process's idle threads becomes the one of them that the bridge is told of. `is_same`, not 0: it is that;
/// `is_ending`, not 0: their process ends.
#[unsafe(no_mangle)]
pub extern "C" fn hullpippin_waits_herald_changes(is_same: u32, is_ending: u32) -> bool
    ensures { result ≡ herald_changes (not (is_same == 0)) (not (is_ending == 0)) }
{
    changes_herald(is_same != 0, is_ending != 0)
}

/// The thread is the one of its process's idle threads that the bridge is told of.
#[unsafe(no_mangle)]
pub extern "C" fn hullpippin_waits_take_over(
    waits: &mut Waits,
    facts: &Facts,
    calling: u32,
    has_own: u32,
)
    ensures { waits.new ≡ taken_over facts.now calling (not (has_own == 0)) waits.old }
{
    waits.take_over(facts, calling, has_own != 0);
}

/// Another one is told of in the thread's place.
#[unsafe(no_mangle)]
pub extern "C" fn hullpippin_waits_hand_over(waits: &mut Waits, has_own: u32)
    ensures { waits.new ≡ retired (not (has_own == 0)) waits.old }
{
    waits.hand_over(has_own != 0);
}

/// The bridge is told of the thread as if it had been told nothing yet.
#[unsafe(no_mangle)]
pub extern "C" fn hullpippin_waits_tell_anew(
    waits: &mut Waits,
    facts: &Facts,
    calling: u32,
    has_own: u32,
)
    ensures { waits.new ≡ told_anew facts.now calling (not (has_own == 0)) waits.old }
{
    waits.tell_anew(facts, calling, has_own != 0);
}

/// Whether the thread's doorbell is to ring. `all_ring`, not 0: those of its process's idle threads are; `is_there`, not 0: its read has
/// something to be answered with.
#[unsafe(no_mangle)]
pub extern "C" fn hullpippin_waits_ring(waits: &Waits, all_ring: u32, is_there: u32) -> bool
    ensures { result ≡ rings_for (not (all_ring == 0)) (not (is_there == 0)) waits.now }
{
    waits.is_to_ring(all_ring != 0, is_there != 0)
}

/// What is done about a thread for which the engine was read: 0 and something was got, 1 nothing, or else that failed.
#[unsafe(no_mangle)]
pub extern "C" fn hullpippin_waits_taken(
    outcome: u32,
    wakes: u32,
    is_behind: u32,
    is_empty: u32,
    somebody_polls: u32,
) -> u32
    ensures { result ≡ its_doing (taken_as (outcome_of outcome) (not (wakes == 0)) (not (is_behind == 0)) (not (is_empty == 0)) (not (somebody_polls == 0))) }
{
    doing_number(taken(
        outcome_given(outcome),
        wakes != 0,
        is_behind != 0,
        is_empty != 0,
        somebody_polls != 0,
    ))
}

/// What is done about a thread to which another's read has brought something.
#[unsafe(no_mangle)]
pub extern "C" fn hullpippin_waits_touched(waits: &Waits, is_whole: u32, somebody_polls: u32) -> u32
    ensures { result ≡ its_doing (touched_as (not (is_whole == 0)) (not (somebody_polls == 0)) waits.now) }
{
    doing_number(waits.touched(is_whole != 0, somebody_polls != 0))
}

/// What is done where the bridge has told of the thread's doorbell: 0 it rings or is silent, 1 the next of what a call has left is read, 2
/// its read has no room.
#[unsafe(no_mangle)]
pub extern "C" fn hullpippin_waits_heard(
    waits: &Waits,
    facts: &Facts,
    rings: u32,
    is_there: u32,
) -> u32
    ensures { result ≡ its_heard (heard_as facts.now (not (rings == 0)) (not (is_there == 0)) waits.now) }
{
    heard_number(waits.heard(facts, rings != 0, is_there != 0))
}

/// Whether the thread's read is answered now.
#[unsafe(no_mangle)]
pub extern "C" fn hullpippin_waits_answered(waits: &Waits, is_there: u32) -> bool
    ensures { result ≡ is_answered (not (is_there == 0)) waits.now }
{
    waits.is_answered(is_there != 0)
}

/// How a read begins: 0 it waits, 1 it looks whether the engine has something, 2 it comes back, 3 the engine has something.
#[unsafe(no_mangle)]
pub extern "C" fn hullpippin_read_begins(
    reader: &Reader,
    size: u32,
    is_there: u32,
    may_wait: u32,
    is_to_return: u32,
) -> u32
    ensures { result ≡ its_begin (begins_by size (not (is_there == 0)) (not (may_wait == 0)) (not (is_to_return == 0)) reader.now) }
{
    begin_number(begins(
        reader,
        size,
        is_there != 0,
        may_wait != 0,
        is_to_return != 0,
    ))
}

/// How a request ends.
#[unsafe(no_mangle)]
pub extern "C" fn hullpippin_request_ends(ending: &Ending) -> u32
    ensures { result ≡ its_end (ends_by ending.now) }
{
    end_number(ending.end())
}

/// What is done about a request that waits, whose thread wants its answer: 1 since a signal has come, 2 since its read is to come back.
#[unsafe(no_mangle)]
pub extern "C" fn hullpippin_request_cancels(is_reading: u32, why: u32) -> u32
    ensures { result ≡ its_cancel (cancels_by (not (is_reading == 0)) (why_of why)) }
{
    number_of_cancel(cancels(is_reading != 0, why_given(why)))
}

/// Whether a notification that its process has taken back is what the thread is told next.
#[unsafe(no_mangle)]
pub extern "C" fn hullpippin_cleared_next(cleared: &Cleared, facts: &Facts) -> bool
    ensures { result ≡ is_next_by facts.now cleared.now }
{
    cleared.is_next(facts)
}

/// Whether the thread's read has something to be answered with, be it that.
#[unsafe(no_mangle)]
pub extern "C" fn hullpippin_cleared_there(cleared: &Cleared, facts: &Facts) -> bool
    ensures { result ≡ is_there_by facts.now cleared.now }
{
    cleared.is_there(facts)
}

/// Whether a thread that takes a notification back is told at once, by the item of an index on its list: 0 it isn't, 1 it is, 2 the next is
/// to be looked at. `is_item`, not 0: there is one; `kind`: of that work.
#[unsafe(no_mangle)]
pub extern "C" fn hullpippin_cleared_unread(is_item: u32, kind: u32, index: usize) -> u32
    ensures { result ≡ its_clearing (clears_by (not (is_item == 0)) (kind == 8) index) }
{
    clearing_number(clears(is_item != 0, kind == 8, index))
}

/// The code that a thread's read is answered with first; 0 where it has no room for that.
#[unsafe(no_mangle)]
pub extern "C" fn hullpippin_loopers_answer(
    loopers: &mut Loopers,
    room: u32,
    is_looper: u32,
    somebody_waits: u32,
) -> u32
    ensures front { result ≡ its_front (front_of room (not (is_looper == 0)) (not (somebody_waits == 0)) loopers.old) }
    ensures asked { loopers.new ≡ asked_for (front_of room (not (is_looper == 0)) (not (somebody_waits == 0)) loopers.old) loopers.old }
{
    front_code(loopers.answer(room, is_looper != 0, somebody_waits != 0))
}

/// A thread has run BC_REGISTER_LOOPER, BC_ENTER_LOOPER or BC_EXIT_LOOPER.
#[unsafe(no_mangle)]
pub extern "C" fn hullpippin_loopers_attach(loopers: &mut Loopers, code: u32)
    ensures { loopers.new ≡ came_to code loopers.old }
{
    loopers.attach(code);
}

/// Whether who runs such a command is in the loop then.
#[unsafe(no_mangle)]
pub extern "C" fn hullpippin_loopers_enter(code: u32) -> bool
    ensures { result ≡ enters_by code }
{
    enters(code)
}
