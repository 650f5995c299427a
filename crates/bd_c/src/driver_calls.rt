//! What C calls of a driver.
ghost use Rattle.std.specs.Prelude.{◌≡◌, None};
ghost use Rattle.bd_c.specs.{Status.{Reports}, Misuse.{IsMisuse}, Behind.{Of, IsThere, IsDriver, IsEnded, history_of}, Keys.{HaveOneKey}};
ghost use Rattle.bd_c.specs.{Drivers.{IsOwn, OpensAt, HandsAt, ReturnsAt, Finishes}, Journals.{Journals, Judges}};

use crate::handles::Handle;
use crate::held::Held;
use crate::hosts::open_host;
use crate::judging::{Verdict, judge_bytes, write_to};
use crate::opening::{free, put, put_made, take};
use crate::status::Status;
use std::alloc::Global;

/// Makes a driver with so many seats, 1 to 31, and with a key, by which it knows its seats. The handle has to have nothing.
#[tactic(auto, using(crate::proofs::Behind::none_there))]
#[unsafe(no_mangle)]
pub extern "C" fn hullpippin_new_with_key(
    alloc: Global,
    seats: u32,
    key: u64,
    driver: &mut Handle,
) -> u32
    ensures opens { driver.old.held ≡ None → Reports result (OpensAt seats key driver.new.held) }
    ensures misuse { IsThere driver.old.held → IsMisuse result driver.old.held driver.new.held }
{
    if driver.is_there() {
        return Status::Misuse.number();
    }
    put_made(driver, open_host(alloc, seats, key))
}

/// Takes the first seat off a driver that is there. The seat's handle has to have nothing.
#[tactic(auto, using(crate::proofs::Answering::fits_hand, crate::proofs::Answering::hands_refused, crate::proofs::Answering::hands_done))]
#[unsafe(no_mangle)]
pub extern "C" fn hullpippin_take_seat(alloc: Global, driver: &mut Handle, seat: &mut Handle) -> u32
    ensures hands { IsDriver driver.old.held → seat.old.held ≡ None
        → Reports result (HandsAt driver.old.held driver.new.held seat.new.held) }
    ensures misuse { (IsDriver driver.old.held → seat.old.held ≡ None → ⊥)
        → IsMisuse result driver.old.held driver.new.held × (seat.new.held ≡ seat.old.held) }
{
    if seat.is_there() {
        return Status::Misuse.number();
    }
    let Some(host) = driver.host() else {
        return Status::Misuse.number();
    };
    let Ok(mut room) = Box::new(alloc, Held::Nothing) else {
        return Status::NoMemory.number();
    };
    match host.take_seat() {
        Ok(taken) => {
            *room = Held::Seat(taken);
            put(seat, room);
            Status::Done.number()
        }
        Err(status) => status.number(),
    }
}

/// Gives a seat back to its driver, which has the same key. Its handle then has nothing.
#[tactic(auto, using(crate::proofs::Keys::driver_there, crate::proofs::Keys::no_seat, crate::proofs::Keys::own_table, crate::proofs::Keys::one_key, crate::proofs::Keys::other_key, crate::proofs::Answering::returns_full))]
#[unsafe(no_mangle)]
pub extern "C" fn hullpippin_return_seat(
    alloc: Global,
    driver: &mut Handle,
    seat: &mut Handle,
) -> u32
    // No two drivers have one key.
    requires keys { HaveOneKey driver.old.held seat.old.held → IsOwn driver.old.held seat.old.held }
    ensures returns { HaveOneKey driver.old.held seat.old.held
        → Reports result (ReturnsAt driver.old.held driver.new.held seat.old.held seat.new.held) }
    ensures misuse { (HaveOneKey driver.old.held seat.old.held → ⊥)
        → IsMisuse result driver.old.held driver.new.held × (seat.new.held ≡ seat.old.held) }
{
    let Some(key) = seat.key_of_seat() else {
        return Status::Misuse.number();
    };
    let Some(host) = driver.host() else {
        return Status::Misuse.number();
    };
    if host.key() != key {
        return Status::Misuse.number();
    }
    if !host.is_seat_away() {
        return Status::NoMemory.number();
    }
    match Box::into_inner(take(alloc, seat)) {
        Held::Seat(seat) => host.return_seat(seat),
        _ => unreachable!(),
    }
    Status::Done.number()
}

/// Ends a driver whose seats are all there. Its handle then has its history.
#[tactic(auto, using(crate::proofs::Answering::finishes, crate::proofs::Answering::finishes_none))]
#[unsafe(no_mangle)]
pub extern "C" fn hullpippin_finish(driver: &mut Handle) -> u32
    ensures finishes { IsDriver driver.old.held → Reports result (Finishes driver.old.held driver.new.held) }
    ensures misuse { (IsDriver driver.old.held → ⊥) → IsMisuse result driver.old.held driver.new.held }
{
    match driver.held() {
        Some(held) => held.finish().number(),
        None => Status::Misuse.number(),
    }
}

/// Tells how many bytes the journal of an ended driver has, and copies them if all of them fit.
#[unsafe(no_mangle)]
pub extern "C" fn hullpippin_journal(
    alloc: Global,
    driver: &mut Handle,
    out: &mut [u8],
    size: &mut usize,
) -> u32
    ensures same { driver.new.held ≡ driver.old.held }
    ensures journals { IsEnded driver.old.held → Reports result (λ s.
        Of history_of driver.old.held (λ r. Journals r out.old out.new size.old size.new s)) }
    ensures misuse { (IsEnded driver.old.held → ⊥) → IsMisuse result driver.old.held driver.new.held
        × (out.new ≡ out.old) × (size.new ≡ size.old) }
{
    match driver.history() {
        Some(history) => write_to(alloc, history, out, size).number(),
        None => Status::Misuse.number(),
    }
}

/// Judges the bytes of a journal: whether its entries are a history, or else how many of them are.
#[unsafe(no_mangle)]
pub extern "C" fn hullpippin_verdict(alloc: Global, journal: &[u8], verdict: &mut Verdict) -> u32
    ensures { Reports result (Judges journal.now verdict.old verdict.new) }
{
    judge_bytes(alloc, journal, verdict).number()
}

/// Lets go of what is behind a driver's handle, if anything is. It then has nothing.
#[unsafe(no_mangle)]
pub extern "C" fn hullpippin_free_driver(alloc: Global, driver: &mut Handle)
    ensures { driver.new.held ≡ None }
{
    free(alloc, driver);
}

/// Lets go of a seat, if there is one. Its handle then has nothing.
#[unsafe(no_mangle)]
pub extern "C" fn hullpippin_free_seat(alloc: Global, seat: &mut Handle)
    ensures { seat.new.held ≡ None }
{
    free(alloc, seat);
}

fn is_send<T: Send>(x: T) -> T {
    x
}

// What is behind a handle may go from one thread to another.
fn goes_to_another_thread(held: Held) -> Held {
    is_send(held)
}
