//! A request that is handed over: what its poster and the one that serves it are told, by turns and on two threads.

ghost use Rattle.std.specs.Prelude.{◌≡◌, All, IfOk};

use crate::same::{holds, same};
use crate::seats::{entries_of, read};
use bd_driver::{Driver, Outcome, Page, Seat, Served, Why};
use bd_space::{Answer, Request};
use bd_spelling::Record;
use std::alloc::{AllocError, Global};
use std::test::Fail;
use std::thread;
use std::thread::Threads;

// How often a loop tries before it gives up.
const TURNS: u32 = 100_000_000;

fn open() -> Request {
    Request::Open {
        pid: 100,
        euid: 1000,
        window: 4096,
    }
}

fn post(driver: &Driver, seat: &mut Seat, request: Request) -> bool
    requires { seat.old.table ≡ driver.now.table }
    ensures { seat.new.table ≡ driver.now.table }
{
    if seat.is_waiting() {
        return false;
    }
    driver.post(seat, request);
    true
}

fn collect(driver: &Driver, seat: &mut Seat) -> Option<Outcome>
    requires { seat.old.table ≡ driver.now.table }
    ensures { seat.new.table ≡ driver.now.table }
{
    if !seat.is_waiting() {
        return None;
    }
    Some(driver.collect(seat))
}

fn withdraw(driver: &Driver, seat: &mut Seat) -> Option<Outcome>
    requires { seat.old.table ≡ driver.now.table }
    ensures { seat.new.table ≡ driver.now.table }
{
    if !seat.is_waiting() {
        return None;
    }
    Some(driver.withdraw(seat))
}

fn serve(driver: &Driver, seat: &mut Seat) -> Served
    requires { seat.old.table ≡ driver.now.table }
    ensures { seat.new.table ≡ driver.now.table }
{
    driver.serve(seat)
}

fn look(driver: &Driver, seat: &mut Seat) -> Page
    requires { seat.old.table ≡ driver.now.table }
    ensures { seat.new.table ≡ driver.now.table }
{
    driver.look(seat)
}

fn is_handed(outcome: Option<Outcome>) -> bool {
    matches!(outcome, Some(Outcome::Handed))
}

fn is_opened(outcome: Option<Outcome>) -> bool {
    matches!(
        outcome,
        Some(Outcome::Done {
            answer: Answer::Opened,
            from: 0,
            to: 1
        })
    )
}

fn is_read_back(outcome: Outcome, reason: Why) -> bool {
    match outcome {
        Outcome::Back {
            request: Request::Read { limit: 72 },
            why,
        } => why == reason,
        _ => false,
    }
}

fn next(driver: &Driver, seats: &mut Vec<Seat>) -> Result<Seat, Fail>
    requires { All (λ s. s.table ≡ driver.now.table) seats.old.items }
    ensures seat { IfOk result (λ s. s.table ≡ driver.now.table) }
    ensures others { All (λ s. s.table ≡ driver.now.table) seats.new.items }
{
    match seats.pop() {
        Some(seat) => Ok(seat),
        None => Err(Fail::from("no seat")),
    }
}

fn back(driver: &Driver, mut seats: Vec<Seat>, seat: Seat) -> Result<Vec<Seat>, AllocError>
    requires seats { All (λ s. s.table ≡ driver.now.table) seats.items }
    requires seat { seat.table ≡ driver.now.table }
    ensures { IfOk result (λ v. All (λ s. s.table ≡ driver.now.table) v.items) }
{
    seats.push(seat)?;
    Ok(seats)
}

// A request that is handed over waits until another seat serves it, and then can't be taken back.
fn hands_over(driver: &Driver, poster: &mut Seat, other: &mut Seat) -> bool
    requires { (poster.old.table ≡ driver.now.table) × (other.old.table ≡ driver.now.table) }
    ensures { (poster.new.table ≡ driver.now.table) × (other.new.table ≡ driver.now.table) }
{
    let posted = post(driver, poster, open());
    let waits = is_handed(collect(driver, poster));
    let served = serve(driver, other) == Served::Ran { picked: 1 };
    let kept = is_handed(withdraw(driver, poster));
    let opened = is_opened(collect(driver, poster));
    posted && waits && served && kept && opened
}

// Before anybody serves it, it can.
fn takes_back(driver: &Driver, poster: &mut Seat, other: &mut Seat) -> bool
    requires { (poster.old.table ≡ driver.now.table) × (other.old.table ≡ driver.now.table) }
    ensures { (poster.new.table ≡ driver.now.table) × (other.new.table ≡ driver.now.table) }
{
    let posted = post(driver, poster, read());
    let back = withdraw(driver, poster).map_or(false, |o| is_read_back(o, Why::Withdrawn));
    let served = serve(driver, other) == Served::Ran { picked: 0 };
    let page = look(driver, poster);
    posted && back && served && page.stamp == 1 && page.ready == 0 && !page.taken
}

// What came of it, once both seats are back.
fn finished(
    driver: Driver,
    seats: Vec<Seat>,
    first: Seat,
    second: Seat,
) -> Result<Record, AllocError>
    requires seats { All (λ s. s.table ≡ driver.table) seats.items }
    requires both { (first.table ≡ driver.table) × (second.table ≡ driver.table) }
{
    let seats = back(&driver, seats, first)?;
    let seats = back(&driver, seats, second)?;
    Ok(driver.finish(seats))
}

#[test]
fn handed_over(rt: HostRuntime) -> Result<(), Fail> {
    let (driver, mut seats) = Driver::new(rt.alloc(), 2)?;
    let mut other = next(&driver, &mut seats)?;
    let mut poster = next(&driver, &mut seats)?;
    let handed_over = hands_over(&driver, &mut poster, &mut other);
    let taken_back = takes_back(&driver, &mut poster, &mut other);
    holds(&rt, "handed over", handed_over);
    holds(&rt, "taken back", taken_back);
    let record = finished(driver, seats, other, poster)?;
    same(&rt, "seats", record.seats, 2);
    same(&rt, "entries", record.entries.len(), 1);
    Ok(())
}

fn sees(driver: &Driver, seat: &mut Seat, stamp: u32) -> bool
    requires { seat.old.table ≡ driver.now.table }
    ensures { seat.new.table ≡ driver.now.table }
{
    for _turn in 0..TURNS {
        if look(driver, seat).stamp >= stamp {
            return true;
        }
    }
    false
}

fn collects(driver: &Driver, seat: &mut Seat) -> bool
    requires { seat.old.table ≡ driver.now.table }
    ensures { seat.new.table ≡ driver.now.table }
{
    for _turn in 0..TURNS {
        if is_opened(collect(driver, seat)) {
            return true;
        }
    }
    false
}

// Posts, looks until the history has a step, and collects until Done; or has used up its turns.
fn poster_part(driver: &Driver, mut seat: Seat) -> (Seat, bool)
    requires { seat.table ≡ driver.now.table }
    ensures { result.0.table ≡ driver.now.table }
{
    let done = post(driver, &mut seat, open())
        && sees(driver, &mut seat, 1)
        && collects(driver, &mut seat);
    (seat, done)
}

// Serves until it has picked one; or has used up its turns.
fn server_part(driver: &Driver, mut seat: Seat) -> (Seat, bool)
    requires { seat.table ≡ driver.now.table }
    ensures { result.0.table ≡ driver.now.table }
{
    for _turn in 0..TURNS {
        if serve(driver, &mut seat) == (Served::Ran { picked: 1 }) {
            return (seat, true);
        }
    }
    (seat, false)
}

fn both_parts<R: Threads + Sync>(
    rt: &R,
    driver: &Driver,
    poster: Seat,
    server: Seat,
) -> ((Seat, bool), (Seat, bool))
    requires { (poster.table ≡ driver.now.table) × (server.table ≡ driver.now.table) }
    ensures { (result.0.0.table ≡ driver.now.table) × (result.1.0.table ≡ driver.now.table) }
{
    thread::join(
        rt,
        || -> (Seat, bool)
            requires { poster.table ≡ driver.now.table }
            ensures { result.0.table ≡ driver.entry.now.table }
        { poster_part(driver, poster) },
        || -> (Seat, bool)
            requires { server.table ≡ driver.now.table }
            ensures { result.0.table ≡ driver.entry.now.table }
        { server_part(driver, server) },
    )
}

#[test]
fn handed_over_between_threads(rt: HostRuntime) -> Result<(), Fail> {
    let (driver, mut seats) = Driver::new(rt.alloc(), 2)?;
    let server = next(&driver, &mut seats)?;
    let poster = next(&driver, &mut seats)?;
    let ((poster, collected), (server, served)) = both_parts(&rt, &driver, poster, server);
    holds(&rt, "collected", collected);
    holds(&rt, "served", served);
    let record = finished(driver, seats, server, poster)?;
    same(
        &rt,
        "entries of who has posted",
        entries_of(rt.alloc(), &record, 0)?,
        1,
    );
    same(
        &rt,
        "entries of who has served",
        entries_of(rt.alloc(), &record, 1)?,
        0,
    );
    Ok(())
}

#[test]
fn one_thread(rt: HostRuntime) -> Result<(), Fail> {
    let (driver, mut seats) = Driver::new(rt.alloc(), 2)?;
    let server = next(&driver, &mut seats)?;
    let poster = next(&driver, &mut seats)?;
    let (poster, collected) = poster_part(&driver, poster);
    let (server, served) = server_part(&driver, server);
    holds(&rt, "nothing to collect", !collected);
    holds(&rt, "served", served);
    let record = finished(driver, seats, server, poster)?;
    same(
        &rt,
        "entries of who has posted",
        entries_of(rt.alloc(), &record, 0)?,
        1,
    );
    Ok(())
}
