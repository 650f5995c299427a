//! Who is to be looked at after a step.

ghost use Rattle.std.specs.Prelude.{ℕ, ◌≡◌, Some, true};
ghost use Rattle.bd_bridge.specs.{Reached.{is_read_by, names}, Suspects.{is_suspect}, Resting.{is_resting}, Named.{has_seat}, Waiting.{at}};

use crate::engine::{Reached, TodoList};
use crate::resting::Resting;
use crate::suspects::Suspects;
use crate::waiters::Waiters;

/// A seat is a suspect from now on, if its thread waits.
#[inline(always)]
pub(crate) fn mark_seat(suspects: &mut Suspects, waiters: &Waiters, seat: u32)
    ensures named { (w : _) → at waiters.now seat ≡ Some w → is_suspect suspects.new seat ≡ true }
    ensures kept { (t : ℕ) → is_suspect suspects.old t ≡ true → is_suspect suspects.new t ≡ true }
{
    if waiters.get(seat).is_some() {
        suspects.add(seat, waiters.seats());
    }
}

// Those of these seats who wait are suspects from now on, the last of them in front.
fn mark_seats(suspects: &mut Suspects, waiters: &Waiters, these: &[u32])
    ensures named { (t : ℕ) (w : _) → at waiters.now t ≡ Some w → has_seat these.now t ≡ true → is_suspect suspects.new t ≡ true }
    ensures kept { (t : ℕ) → is_suspect suspects.old t ≡ true → is_suspect suspects.new t ≡ true }
{
    let mut left = these.len();
    while left > 0 {
        left -= 1;
        mark_seat(suspects, waiters, these[left]);
    }
}

// Those who wait and read a list are suspects from now on.
#[inline(always)]
fn mark_readers(suspects: &mut Suspects, waiters: &Waiters, list: TodoList)
    ensures named { (t : ℕ) (w : _) → at waiters.now t ≡ Some w → is_read_by t w.process list ≡ true → is_suspect suspects.new t ≡ true }
    ensures kept { (t : ℕ) → is_suspect suspects.old t ≡ true → is_suspect suspects.new t ≡ true }
{
    match list {
        TodoList::OfSeat(seat) => mark_seat(suspects, waiters, seat),
        TodoList::OfProcess(process) => {
            mark_seats(suspects, waiters, waiters.of_process(process));
        }
    }
}

/// Those who wait and whom a step has reached are suspects from now on.
pub(crate) fn mark_reached(suspects: &mut Suspects, waiters: &Waiters, reached: &Reached)
    ensures named { (t : ℕ) (w : _) → at waiters.now t ≡ Some w → names reached.now t w.process ≡ true → is_suspect suspects.new t ≡ true }
    ensures kept { (t : ℕ) → is_suspect suspects.old t ≡ true → is_suspect suspects.new t ≡ true }
{
    if reached.any {
        suspects.add_all(waiters.top());
        return;
    }
    for list in &reached.lists {
        mark_readers(suspects, waiters, *list);
    }
}

/// Who rests is a suspect from now on, and rests no more: more may have come for it, which isn't named.
#[inline(always)]
pub(crate) fn mark_resting(suspects: &mut Suspects, waiters: &Waiters, resting: &mut Resting)
    ensures roused { (t : ℕ) (w : _) → at waiters.now t ≡ Some w → is_resting resting.old t ≡ true → is_suspect suspects.new t ≡ true }
    ensures kept { (t : ℕ) → is_suspect suspects.old t ≡ true → is_suspect suspects.new t ≡ true }
{
    if let Some(seat) = resting.first {
        mark_seat(suspects, waiters, seat);
        resting.first = None;
    }
    if let Some(seat) = resting.second {
        mark_seat(suspects, waiters, seat);
        resting.second = None;
    }
}
