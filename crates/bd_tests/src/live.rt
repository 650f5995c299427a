//! The live engine, with ample memory: a one-way call to the last of as many seats as it may have, whose buffer ends; and a
//! process of more threads than a driver has seats, which ends.

use crate::same::{holds, same};
use crate::steps::{enter, fields, open};
use bd_engine::{Live, Looks};
use bd_space::{Bytes, Parcel, Step, StepAnswer};
use bd_uapi::{Command, Fault, MOST_SEATS as MOST_SEATS_OF_A_DRIVER, TransactionFlags};
use std::alloc::Global;
use std::process::Abort;
use std::test::Fail;

const MOST_SEATS: u32 = 65536;

const SERVER: u32 = MOST_SEATS - 1;

const CLIENT: u32 = MOST_SEATS - 2;

fn one_way_call(alloc: Global) -> Step {
    let mut data = fields(7);
    data.flags = TransactionFlags::ONE_WAY;
    Step::Command {
        command: Command::Transaction(data),
        parcel: Some(Parcel {
            bytes: Bytes::new(Vec::new(alloc)),
            offsets: Bytes::new(Vec::new(alloc)),
        }),
    }
}

// The steps that bring the call about, each with its seat.
fn step_at(alloc: Global, place: u32) -> (u32, Step) {
    match place {
        0 => (SERVER, open(100, 1000)),
        1 => (SERVER, Step::SetManager),
        2 => (SERVER, enter()),
        3 => (CLIENT, open(200, 2000)),
        _ => (CLIENT, one_way_call(alloc)),
    }
}

fn is_refused(answer: &StepAnswer) -> bool {
    match answer {
        StepAnswer::Refused(_) | StepAnswer::Stopped(_) | StepAnswer::Noted(_) => true,
        _ => false,
    }
}

// Whether the step was made, and accepted.
fn is_made(live: &mut Live, seat: u32, step: Step) -> bool {
    if seat >= live.seats() {
        return false;
    }
    match live.step(seat, step) {
        Ok(entry) => !is_refused(&entry.answer),
        Err(_) => false,
    }
}

#[test]
fn calls_the_last_seat(rt: HostRuntime) -> Result<(), Fail> {
    let mut live = Live::new(rt.alloc(), MOST_SEATS)?;
    for place in 0..5 {
        let (seat, step) = step_at(rt.alloc(), place);
        holds(&rt, "nothing to read yet", !live.is_ready(SERVER));
        holds(&rt, "a step", is_made(&mut live, seat, step));
    }
    holds(&rt, "the call is there", live.is_ready(SERVER));
    holds(&rt, "its completion is there", live.is_ready(CLIENT));
    holds(&rt, "five steps", live.len() == 5);
    Ok(())
}

// An engine after that call.
fn called(rt: &(impl Abort + Alloc<A = Global>)) -> Result<Live, Fail> {
    let mut live = Live::new(rt.alloc(), MOST_SEATS)?;
    for place in 0..5 {
        let (seat, step) = step_at(rt.alloc(), place);
        holds(rt, "a step", is_made(&mut live, seat, step));
    }
    Ok(live)
}

// Makes the server's step. Whether it was made, and accepted.
fn serves(live: &mut Live, step: Step, ended: &mut Vec<u64>) -> bool {
    if SERVER >= live.seats() {
        return false;
    }
    match live.step_with_ended(SERVER, step, ended) {
        Ok(entry) => !is_refused(&entry.answer),
        Err(_) => false,
    }
}

// The buffer of the call is the first in its window.
fn free() -> Step {
    Step::Command {
        command: Command::FreeBuffer(65536),
        parcel: None,
    }
}

#[test]
fn tells_which_buffer_ended(rt: HostRuntime) -> Result<(), Fail> {
    let mut live = called(&rt)?;
    let mut ended = Vec::new(rt.alloc());
    let read = Step::Read { limit: 256 };
    holds(&rt, "the call is read", serves(&mut live, read, &mut ended));
    same(&rt, "none ended", ended.len(), 0);
    holds(&rt, "it is freed", serves(&mut live, free(), &mut ended));
    same(&rt, "its buffer", ended.as_slice(), [4].as_slice());
    Ok(())
}

const THREADS: u32 = MOST_SEATS_OF_A_DRIVER + 8;

// A process of so many threads.
fn crowded(rt: &(impl Abort + Alloc<A = Global>)) -> Result<Live, Fail> {
    let mut live = Live::new(rt.alloc(), THREADS)?;
    holds(rt, "it opens", is_made(&mut live, 0, open(100, 1000)));
    for seat in 1..THREADS {
        let attach = Step::Attach { pid: 100 };
        holds(rt, "a thread more", is_made(&mut live, seat, attach));
    }
    Ok(live)
}

#[test]
fn ends_a_process_of_many_threads(rt: HostRuntime) -> Result<(), Fail> {
    let mut live = crowded(&rt)?;
    let last = THREADS - 1;
    holds(&rt, "it ends", is_made(&mut live, last, Step::ExitProcess));
    for seat in 0..THREADS {
        let has_thread = is_made(&mut live, seat, Step::ExitThread);
        holds(&rt, "its threads ended", !has_thread);
    }
    holds(&rt, "pid", is_made(&mut live, last, open(100, 1000)));
    Ok(())
}

fn is_seat_count(alloc: Global, seats: u32) -> bool {
    match Live::new(alloc, seats) {
        Err(Fault::SeatCount) => true,
        _ => false,
    }
}

#[test]
fn refuses_numbers_of_seats(rt: HostRuntime) {
    holds(&rt, "none", is_seat_count(rt.alloc(), 0));
    holds(
        &rt,
        "one too many",
        is_seat_count(rt.alloc(), MOST_SEATS + 1),
    );
}
