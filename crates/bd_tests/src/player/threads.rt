//! Many threads, and a thread that can't be started.

ghost use Rattle.std.specs.Prelude.{◌<◌};
ghost use Rattle.bd_uapi.specs.Limits.{most_seats, IsSeats};

use super::playing::Printed;
use crate::same::{holds, same};
use bd_audit::replay;
use bd_player::{Said, TURNS as TURNS_USED, Told, gather, laid, play_threads, print_told};
use bd_spelling::Record;
use bd_uapi::MOST_SEATS;
use std::alloc::{AllocError, Global};
use std::process::Abort;
use std::sync::Wait;
use std::test::Fail;
use std::thread::Threads;

const CALLS: usize = 100;

const TURNS: u32 = 100_000_000;

// A script in which each of the seats makes so many calls.
fn script_of_calls(alloc: Global, seats: u32) -> Result<String, AllocError>
    requires { IsSeats seats }
{
    let mut script = format!(in alloc; "seats {seats}\n")?;
    for seat in 0..seats {
        let opening = format!(in alloc; "{seat} open {} 0 4096\n", seat + 1)?;
        let enters = format!(in alloc; "{seat} enter\n")?.repeat(alloc, CALLS - 1)?;
        script.push_str(&opening)?;
        script.push_str(&enters)?;
    }
    Ok(script)
}

// The place of a request's only step, with which its line ends.
fn start_in(line: &str) -> Option<usize> {
    let mut words = line.rsplit(' ');
    let to = words.next()?.parse::<usize>().ok()?;
    let from = words.next()?.parse::<usize>().ok()?;
    if from.checked_add(1) == Some(to) {
        Some(from)
    } else {
        None
    }
}

// The places that a seat's lines tell.
fn places_told(alloc: Global, text: &str, seat: usize) -> Result<Vec<usize>, Fail>
    requires { seat < most_seats }
{
    let mut places = Vec::new(alloc);
    for line in text.lines().skip(seat * CALLS).take(CALLS) {
        places.push(start_in(line).ok_or("a line of one step")?)?;
    }
    Ok(places)
}

// The places at which a seat's entries stand.
fn places_of(alloc: Global, history: &Record, seat: usize) -> Result<Vec<usize>, AllocError> {
    let mut places = Vec::new(alloc);
    let entries = history.entries.copied(alloc)?;
    for (place, entry) in entries.iter().enumerate() {
        if entry.seat as usize == seat {
            places.push(place)?;
        }
    }
    Ok(places)
}

// It has all calls, and is lawful.
fn see_history(
    rt: &(impl Abort + Alloc<A = Global>),
    history: &Record,
    seats: u32,
) -> Result<(), Fail>
    requires { IsSeats seats }
{
    if history.seats != seats {
        return Err(Fail::from("another number of seats"));
    }
    replay(rt.alloc(), history)?;
    let steps = history.entries.len();
    same(rt, "steps", steps, seats as usize * CALLS);
    Ok(())
}

// Each seat's lines tell the places of its entries.
fn see_places(
    rt: &(impl Abort + Alloc<A = Global>),
    text: &str,
    history: &Record,
    seats: u32,
) -> Result<(), Fail>
    requires { IsSeats seats }
{
    for seat in 0..seats as usize {
        let told = places_told(rt.alloc(), text, seat)?;
        let own = places_of(rt.alloc(), history, seat)?;
        same(rt, "calls", told.len(), CALLS);
        same(rt, "their places", told.as_slice(), own.as_slice());
    }
    Ok(())
}

// Each of so many seats makes its calls on a thread of its own.
fn see_threads(
    rt: &(impl Abort + Alloc<A = Global> + Threads + Wait + Sync),
    seats: u32,
) -> Result<(), Fail>
    requires { IsSeats seats }
{
    let script = script_of_calls(rt.alloc(), seats)?;
    let mut out = Vec::new(rt.alloc());
    let mut err = Vec::new(rt.alloc());
    let mut bytes = script.as_bytes();
    let played = play_threads(rt, rt.alloc(), &mut bytes, TURNS, &mut out, &mut err);
    holds(rt, "the status", played.status == 0 && err.is_empty());
    let history = played.history.ok_or("a script with no bad line runs")?;
    see_history(rt, &history, seats)?;
    see_places(rt, str::from_utf8(out.as_slice())?, &history, seats)
}

#[test]
fn eight_threads_count_their_calls(rt: HostRuntime) -> Result<(), Fail> {
    see_threads(&rt, 8)
}

#[test]
fn as_many_threads_as_there_may_be_count_their_calls(rt: HostRuntime) -> Result<(), Fail> {
    see_threads(&rt, MOST_SEATS)
}

#[test]
fn tells_of_a_thread_that_is_not_there(rt: HostRuntime) -> Result<(), Fail> {
    let mut workers = Vec::new(rt.alloc());
    workers.push(None)?;
    let mut seats = Vec::new(rt.alloc());
    let mut out = Vec::new(rt.alloc());
    let mut err = Vec::new(rt.alloc());
    let status = gather(&rt, workers, &mut seats, &mut out, &mut err);
    same(
        &rt,
        "the fault",
        err.as_slice(),
        b"fault: thread\n".as_slice(),
    );
    same(&rt, "the status", status, 1);
    holds(&rt, "nothing else", seats.is_empty() && out.is_empty());
    Ok(())
}

#[test]
fn tells_of_a_starved_seat(rt: HostRuntime) -> Result<(), Fail> {
    let (_driver, mut seats, _) = laid(rt.alloc(), &mut "seats 1\n".as_bytes())?;
    let seat = seats.pop().ok_or("a driver has its seats")?;
    let mut said = Vec::new(rt.alloc());
    said.push((2, Said::Turns))?;
    let starved = true;
    let told = Told {
        seat,
        said,
        starved,
    };
    let mut out = Vec::new(rt.alloc());
    let mut err = Vec::new(rt.alloc());
    let status = print_told(&told, &mut out, &mut err, TURNS_USED);
    Printed { out, err, status }.expect(&rt, "starved", "2: turns\n", "fault: memory\n", 3);
    Ok(())
}
