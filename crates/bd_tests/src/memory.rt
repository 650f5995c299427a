//! What memory an engine keeps of answers that are given up.

use crate::same::holds;
use crate::steps::{fields, open};
use bd_engine::Engine;
use bd_space::{Answer, Bytes, Parcel, Request, Step};
use bd_uapi::Command;
use std::alloc::{AllocError, Global};
use std::test::Fail;

// No more of one vector is kept.
const KEPT: usize = 65536;

// A call on the manager, with nothing in it.
fn call(alloc: Global) -> Step {
    Step::Command {
        command: Command::Transaction(fields(9)),
        parcel: Some(Parcel {
            bytes: Bytes::new(Vec::new(alloc)),
            offsets: Bytes::new(Vec::new(alloc)),
        }),
    }
}

// An answer to a read without bytes, which has much memory for them.
fn large(alloc: Global) -> Result<Answer, AllocError> {
    let stream = Vec::with_capacity(alloc, 16 * KEPT)?;
    Ok(Answer::Got {
        stream: Bytes::new(stream),
        bytes: Bytes::new(Vec::new(alloc)),
        offsets: Bytes::new(Vec::new(alloc)),
    })
}

// How much memory the returns have that were read.
fn memory_of(told: Answer) -> Option<usize> {
    match told {
        Answer::Got {
            stream,
            bytes: _,
            offsets: _,
        } => Some(stream.into_vec().capacity()),
        _ => None,
    }
}

fn is_made(engine: &mut Engine, seat: u32, step: Step) -> bool {
    seat < engine.seats() && engine.step(seat, step).is_ok()
}

fn is_run(engine: &mut Engine, seat: u32, request: &Request, told: &mut Answer) -> bool {
    seat < engine.seats() && engine.run_in(seat, request, told).is_ok()
}

#[test]
fn much_memory_of_an_answer_is_not_kept(rt: HostRuntime) -> Result<(), Fail> {
    let mut engine = Engine::new(rt.alloc(), 2)?;
    holds(&rt, "a process", is_made(&mut engine, 0, open(100, 1000)));
    holds(&rt, "a manager", is_made(&mut engine, 0, Step::SetManager));
    holds(&rt, "a process", is_made(&mut engine, 1, open(200, 2000)));
    holds(&rt, "a call", is_made(&mut engine, 1, call(rt.alloc())));
    let mut told = large(rt.alloc())?;
    let nothing = Request::Write {
        stream: Bytes::new(Vec::new(rt.alloc())),
        area: Bytes::new(Vec::new(rt.alloc())),
    };
    holds(&rt, "written", is_run(&mut engine, 1, &nothing, &mut told));
    let mut read = Answer::Set;
    let limit = Request::Read { limit: 256 };
    holds(&rt, "read", is_run(&mut engine, 1, &limit, &mut read));
    let memory = memory_of(read);
    holds(&rt, "it is read", memory.is_some());
    holds(&rt, "little memory", memory.unwrap_or(0) <= KEPT);
    Ok(())
}
