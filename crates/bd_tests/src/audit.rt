//! Certificates, with ample memory: of a reply, by the worked example 'call and reply' (examples/), what the rules
//! give there, and of a name by ten gifts, where an object goes to and fro between two processes.

ghost use Rattle.std.specs.Prelude.{IfOk};
ghost use Rattle.bd_uapi.specs.Limits.{IsSeats};
ghost use Rattle.bd_space.specs.Histories.{IsHistory};
ghost use Rattle.bd_spelling.specs.Records.{history_in};

use crate::same::{holds, same};
use crate::steps::{enter, fields, open};
use bd_audit::{Given, call_of_reply, gift_chain, given_at};
use bd_engine::{Engine, StepError};
use bd_space::{Bytes, Parcel, Step, StepAnswer};
use bd_spelling::Record;
use bd_uapi::{Command, MOST_SEATS, TransactionData, TransactionFlags};
use std::alloc::{AllocError, Global};
use std::process::Abort;
use std::test::Fail;

fn carried(alloc: Global, command: Command) -> Step {
    Step::Command {
        command,
        parcel: Some(Parcel {
            bytes: Bytes::new(Vec::new(alloc)),
            offsets: Bytes::new(Vec::new(alloc)),
        }),
    }
}

fn read() -> Step {
    Step::Read { limit: 256 }
}

// The steps of the example, each with its seat; the parcels are empty.
fn reply_step(alloc: Global, place: u32) -> (u32, Step) {
    match place {
        0 => (0, open(100, 1000)),
        1 => (0, Step::SetManager),
        2 => (0, enter()),
        3 => (1, open(200, 2000)),
        4 => (1, carried(alloc, Command::Transaction(fields(9)))),
        5 => (1, read()),
        6 => (0, read()),
        7 => (0, carried(alloc, Command::Reply(fields(0)))),
        8 => (1, read()),
        _ => (0, read()),
    }
}

fn try_step(engine: &mut Engine, seat: u32, step: Step) -> bool {
    seat < engine.seats() && engine.step(seat, step).is_ok()
}

fn is_no_memory(engine: &mut Engine, seat: u32, step: Step) -> bool {
    seat < engine.seats() && matches!(engine.step(seat, step), Err(StepError::NoMemory))
}

// An engine keeps its history as a journal spells it, and no journal has a parcel beside a command that carries none.
#[test]
fn keeps_no_step_that_no_journal_spells(rt: HostRuntime) -> Result<(), Fail> {
    let mut engine = Engine::new(rt.alloc(), 1)?;
    holds(&rt, "a process", try_step(&mut engine, 0, open(100, 1000)));
    let unspelled = carried(rt.alloc(), Command::EnterLooper);
    holds(&rt, "no memory", is_no_memory(&mut engine, 0, unspelled));
    same(&rt, "steps", engine.len(), 1);
    holds(&rt, "without a parcel", try_step(&mut engine, 0, enter()));
    same(&rt, "steps", engine.len(), 2);
    Ok(())
}

// The history of an engine.
fn history_of(engine: Engine) -> Result<Record, Fail>
    ensures seats { IfOk result (λ r. IsSeats r.seats) }
    ensures lawful { IfOk result (λ r. IsHistory (history_in r)) }
{
    let record = engine.into_record();
    if record.seats < 1 || MOST_SEATS < record.seats {
        return Err(Fail::from("no engine has so many seats"));
    }
    Ok(record)
}

fn engine_of_a_reply(rt: &(impl Abort + Alloc<A = Global>)) -> Result<Engine, Fail> {
    let mut engine = Engine::new(rt.alloc(), 2)?;
    holds(rt, "room for the steps", engine.reserve(10).is_ok());
    for place in 0..10 {
        let (seat, step) = reply_step(rt.alloc(), place);
        holds(rt, "a step", try_step(&mut engine, seat, step));
    }
    Ok(engine)
}

// At a place, the call that is answered there.
const ANSWERED: [(u32, Option<u32>); 5] = [
    (8, Some(4)),
    (5, None),
    (6, None),
    (7, None),
    (10, None),
];

#[test]
fn tells_the_call_of_a_reply(rt: HostRuntime) -> Result<(), Fail> {
    let record = history_of(engine_of_a_reply(&rt)?)?;
    for (place, wanted) in ANSWERED {
        let found = call_of_reply(rt.alloc(), &record, place)?;
        same(&rt, "the call", found, wanted);
    }
    Ok(())
}

// What the rules give for the record's entry.
fn given_in(alloc: Global, record: &Record, place: u32) -> Result<Given, Fail>
    requires seats { IsSeats «record».now.seats }
    requires lawful { IsHistory (history_in «record».now) }
{
    Ok(given_at(alloc, record, place)?)
}

#[test]
fn tells_what_the_rules_give(rt: HostRuntime) -> Result<(), Fail> {
    let record = history_of(engine_of_a_reply(&rt)?)?;
    let first = given_in(rt.alloc(), &record, 0)?;
    let reply = given_in(rt.alloc(), &record, 7)?;
    let none = given_in(rt.alloc(), &record, 10)?;
    holds(
        &rt,
        "it opens",
        matches!(first, Given::Answer(StepAnswer::Opened)),
    );
    holds(
        &rt,
        "it replies",
        matches!(reply, Given::Answer(StepAnswer::Accepted)),
    );
    holds(&rt, "the end", matches!(none, Given::NoStep));
    Ok(())
}

// An object of the sender's own, with this ptr.
fn own(ptr: u16) -> [u8; 24] {
    let [low, high] = ptr.to_le_bytes();
    [
        0x85, 0x2a, 0x62, 0x73, 0, 0, 0, 0, low, high, 0, 0, 0, 0, 0, 0, 0, 0, 0, 0, 0, 0, 0, 0,
    ]
}

// One that the sender names by this handle.
fn named(handle: u8) -> [u8; 24] {
    [
        0x85, 0x2a, 0x68, 0x73, 0, 0, 0, 0, handle, 0, 0, 0, 0, 0, 0, 0, 0, 0, 0, 0, 0, 0, 0, 0,
    ]
}

// A one-way call on a handle, which carries one object.
fn giving(alloc: Global, target: u64, object: [u8; 24]) -> Result<Step, AllocError> {
    let call = TransactionData {
        target,
        flags: TransactionFlags::ONE_WAY,
        data_size: 24,
        offsets_size: 8,
        ..fields(1)
    };
    Ok(Step::Command {
        command: Command::Transaction(call),
        parcel: Some(Parcel {
            bytes: Bytes::new(Vec::from_array(alloc, object)?),
            offsets: Bytes::new(Vec::from_array(alloc, [0; 8])?),
        }),
    })
}

fn command(command: Command) -> Step {
    Step::Command {
        command,
        parcel: None,
    }
}

// Seat 1 is the manager's. It gets an object of seat 2's, which it keeps, and then one of seat 0's, which it gives to seat 2.
fn gift_step(alloc: Global, place: u32) -> Result<(u32, Step), AllocError> {
    Ok(match place {
        0 => (0, open(100, 1000)),
        1 => (1, open(200, 2000)),
        2 => (2, open(300, 3000)),
        3 => (1, Step::SetManager),
        4 => (2, giving(alloc, 0, own(0x3000))?),
        5 => (0, giving(alloc, 0, own(0x1000))?),
        6 => (1, enter()),
        7 | 10 => (1, read()),
        8 => (1, command(Command::Acquire(1))),
        9 => (1, command(Command::FreeBuffer(65536))),
        11 => (1, giving(alloc, 1, named(2))?),
        12 => (1, command(Command::FreeBuffer(65568))),
        13 => (2, enter()),
        14 | 15 => (2, read()),
        _ => pass_on(alloc, place.saturating_sub(16))?,
    })
}

// From then on the two give it to each other by turns: the giver's own name goes with its buffer, and the receiver reads.
fn pass_on(alloc: Global, place: u32) -> Result<(u32, Step), AllocError> {
    let (giver, receiver, target, handle) = if place / 4 % 2 == 0 {
        (2, 1, 0, 1)
    } else {
        (1, 2, 1, 2)
    };
    Ok(match place % 4 {
        0 => (giver, giving(alloc, target, named(handle))?),
        1 => (giver, command(Command::FreeBuffer(65536))),
        _ => (receiver, read()),
    })
}

fn engine_of_gifts(rt: &(impl Abort + Alloc<A = Global>)) -> Result<Engine, Fail> {
    let mut engine = Engine::new(rt.alloc(), 3)?;
    for place in 0..45 {
        let (seat, step) = gift_step(rt.alloc(), place)?;
        holds(rt, "a step", try_step(&mut engine, seat, step));
    }
    Ok(engine)
}

const GIFTS: [u32; 10] = [5, 11, 16, 20, 24, 28, 32, 36, 40, 44];

#[test]
fn tells_a_chain_of_ten_gifts(rt: HostRuntime) -> Result<(), Fail> {
    let record = history_of(engine_of_gifts(&rt)?)?;
    let places = gift_chain(rt.alloc(), &record, 300, 1)?.ok_or("the name has a chain")?;
    same(&rt, "the chain", places.as_slice(), GIFTS.as_slice());
    Ok(())
}
