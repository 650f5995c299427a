//! As many threads as a driver may have seats, each of which makes a hundred requests by calls, or hands them over.

ghost use Rattle.std.specs.Prelude.{◌≡◌, All, IfOk};

use crate::same::{holds, same};
use bd_audit::replay;
use bd_driver::{Driver, Outcome, Seat};
use bd_space::Request;
use bd_spelling::Record;
use bd_uapi::{Fault, MOST_SEATS};
use std::alloc::{AllocError, Global};
use std::process::Abort;
use std::test::Fail;
use std::thread;
use std::thread::Threads;

const REQUESTS: u32 = 100;

// How often a thread tries before it gives up.
const TURNS: u32 = 100_000_000;

// How a request is made.
#[derive(Clone, Copy)]
enum Way {
    Call,
    HandOver,
}

// A seat, and how many of its requests were run.
#[derive(Drop)]
struct Part {
    seat: Seat,
    ran: u32,
}

// One step, whatever its answer is.
pub(crate) fn read() -> Request {
    Request::Read { limit: 72 }
}

// Calls once. Whether that was run.
fn call(driver: &Driver, seat: &mut Seat) -> bool
    requires { seat.old.table ≡ driver.now.table }
    ensures { seat.new.table ≡ driver.now.table }
{
    if seat.is_waiting() {
        return false;
    }
    matches!(driver.call(seat, read()), Outcome::Done { .. })
}

// Hands a request over, if none is, serves whatever is handed over, and asks for the answer. Whether that is there.
fn hand_over(driver: &Driver, seat: &mut Seat) -> bool
    requires { seat.old.table ≡ driver.now.table }
    ensures { seat.new.table ≡ driver.now.table }
{
    if !seat.is_waiting() {
        driver.post(seat, read());
    }
    driver.serve(seat);
    if !seat.is_waiting() {
        return false;
    }
    matches!(driver.collect(seat), Outcome::Done { .. })
}

fn ask(driver: &Driver, seat: &mut Seat, way: Way) -> bool
    requires { seat.old.table ≡ driver.now.table }
    ensures { seat.new.table ≡ driver.now.table }
{
    match way {
        Way::Call => call(driver, seat),
        Way::HandOver => hand_over(driver, seat),
    }
}

// Asks until so many requests were run, or the turns are used up.
fn work(driver: &Driver, mut seat: Seat, way: Way) -> Part
    requires { seat.table ≡ driver.now.table }
    ensures { result.seat.table ≡ driver.now.table }
{
    let mut ran = 0;
    for _turn in 0..TURNS {
        if ran >= REQUESTS {
            break;
        }
        if ask(driver, &mut seat, way) {
            ran += 1;
        } else {
            thread::yield_now();
        }
    }
    Part { seat, ran }
}

fn work_all(
    rt: &(impl Threads + Sync),
    driver: &Driver,
    seats: Vec<Seat>,
    way: Way,
) -> Result<Vec<Part>, Fail>
    requires { All (λ s. s.table ≡ driver.now.table) seats.items }
    ensures { IfOk result (λ v. All (λ p. p.seat.table ≡ driver.now.table) v.items) }
{
    let parts = thread::map_vec(
        rt,
        seats,
        &|seat: Seat| -> Part
            requires { seat.table ≡ driver.now.table }
            ensures { result.seat.table ≡ driver.entry.now.table }
        { work(driver, seat, way) },
    )?;
    Ok(parts)
}

// How many requests were run of each seat, as its thread counted them.
fn counts_of(alloc: Global, parts: &[Part]) -> Result<Vec<u32>, AllocError> {
    let mut counts = Vec::new(alloc);
    for part in parts {
        counts.push(part.ran)?;
    }
    Ok(counts)
}

// The seats, which the threads give back.
fn seats_of(alloc: Global, driver: &Driver, parts: Vec<Part>) -> Result<Vec<Seat>, AllocError>
    requires { All (λ p. p.seat.table ≡ driver.now.table) parts.items }
    ensures { IfOk result (λ v. All (λ s. s.table ≡ driver.now.table) v.items) }
{
    let mut seats = Vec::new(alloc);
    for part in parts {
        seats.push(part.seat)?;
    }
    Ok(seats)
}

pub(crate) fn entries_of(alloc: Global, record: &Record, seat: u32) -> Result<usize, AllocError> {
    let entries = record.entries.copied(alloc)?;
    Ok(entries.iter().filter(|entry| entry.seat == seat).count())
}

// The record is a history, in which each seat has as many entries as its thread counted.
fn see_record(
    rt: &(impl Abort + Alloc<A = Global>),
    record: &Record,
    counts: &[u32],
) -> Result<(), Fail> {
    if record.seats != MOST_SEATS {
        return Err(Fail::from("another number of seats"));
    }
    replay(rt.alloc(), record)?;
    same(rt, "seats", counts.len(), MOST_SEATS as usize);
    for (seat, count) in (0..MOST_SEATS).zip(counts) {
        same(rt, "requests", *count, REQUESTS);
        same(
            rt,
            "entries",
            entries_of(rt.alloc(), record, seat)?,
            *count as usize,
        );
    }
    Ok(())
}

fn see(rt: &(impl Abort + Alloc<A = Global> + Threads + Sync), way: Way) -> Result<(), Fail> {
    let (driver, seats) = Driver::new(rt.alloc(), MOST_SEATS)?;
    let parts = work_all(rt, &driver, seats, way)?;
    let counts = counts_of(rt.alloc(), parts.as_slice())?;
    let seats = seats_of(rt.alloc(), &driver, parts)?;
    let record = driver.finish(seats);
    see_record(rt, &record, counts.as_slice())
}

#[test]
fn each_seat_calls(rt: HostRuntime) -> Result<(), Fail> {
    see(&rt, Way::Call)
}

#[test]
fn each_seat_hands_over(rt: HostRuntime) -> Result<(), Fail> {
    see(&rt, Way::HandOver)
}

// No driver has so many seats.
fn is_out_of_limits(alloc: Global, seats: u32) -> bool {
    match Driver::new(alloc, seats) {
        Err(Fault::SeatCount) => true,
        _ => false,
    }
}

#[test]
fn refuses_other_numbers_of_seats(rt: HostRuntime) {
    holds(&rt, "none", is_out_of_limits(rt.alloc(), 0));
    holds(
        &rt,
        "one too many",
        is_out_of_limits(rt.alloc(), MOST_SEATS + 1),
    );
}
