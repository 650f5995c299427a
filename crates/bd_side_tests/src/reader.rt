//! A thread that calls, serves and is refused.

use crate::same::{holds, same};
use bd_reader::{Kind, NO_REFUSAL, Outcome, Pending, REFUSED_REPLY, Reader};
use bd_uapi::codes::{BR_REPLY, BR_TRANSACTION};
use bd_uapi::numbers::put_u32;
use std::test::Fail;

const NEW: Reader = Reader {
    serving: 0,
    calling: 0,
    refusals: 0,
    completions: 0,
    clearings: 0,
    untold: 0,
    completed: 0,
    refusal: NO_REFUSAL,
    is_prompt: 0,
    is_behind: 0,
    is_full: 0,
};

const SOME: Pending = Pending {
    size: 4,
    room: 256,
    is_looping: 1,
};

// BR_NOOP and BR_TRANSACTION_COMPLETE, as an engine's read has them.
const TAKEN: [u8; 8] = [0x0c, 0x72, 0, 0, 0x06, 0x72, 0, 0];

// BR_FAILED_REPLY and BR_DEAD_REPLY.
const FAILED: [u8; 4] = [0x11, 0x72, 0, 0];

const DEAD: [u8; 4] = [0x05, 0x72, 0, 0];

// A call or a reply, whose record is all zeros: no flag says that it is one-way.
fn with_record(code: u32) -> [u8; 68] {
    let mut bytes = [0; 68];
    put_u32(&mut bytes, 0, code);
    bytes
}

#[test]
fn a_completion_waits_for_the_reply(rt: HostRuntime) -> Result<(), Fail> {
    let mut reader = NEW;
    reader.sent(Kind::Call, Outcome::Taken);
    let sent = reader.facts(&SOME);
    holds(&rt, "it defers", sent.defers && sent.is_left);
    same(&rt, "what it reads", reader.read_all(&TAKEN), 8);
    let facts = reader.facts(&SOME);
    let is_so = !facts.is_there && !facts.is_idle && !facts.is_left;
    holds(&rt, "it waits on", is_so);
    reader.read_all(&with_record(BR_REPLY));
    let ended = reader.facts(&SOME);
    holds(&rt, "the reply is there", ended.is_there && ended.is_whole);
    same(&rt, "open calls", reader.calling, 0);
    holds(&rt, "it is idle", ended.is_idle);
    Ok(())
}

#[test]
fn a_refused_reply_is_told_by_the_last_completion(rt: HostRuntime) -> Result<(), Fail> {
    let mut reader = NEW;
    reader.read_all(&with_record(BR_TRANSACTION));
    same(&rt, "calls to answer", reader.serving, 1);
    reader.sent(Kind::OneWay, Outcome::Taken);
    reader.sent(Kind::Reply, Outcome::Refused);
    let left = (reader.untold, reader.refusal);
    same(&rt, "two are untold", left, (2, REFUSED_REPLY));
    let told = reader.tell(&TAKEN, 83);
    let first = (told.size, told.is_all, reader.refusal);
    same(&rt, "told of the first", first, (8, false, REFUSED_REPLY));
    holds(&rt, "told of both", reader.tell(&TAKEN, 83).is_all);
    same(&rt, "told of the reply", reader.refusal, NO_REFUSAL);
    Ok(())
}

#[test]
fn a_refused_call_is_told_by_its_refusal(rt: HostRuntime) -> Result<(), Fail> {
    let mut reader = NEW;
    reader.sent(Kind::Call, Outcome::Taken);
    reader.sent(Kind::Call, Outcome::Refused);
    reader.read_all(&FAILED);
    let left = (reader.refusals, reader.calling);
    same(&rt, "the refusal is read", left, (0, 1));
    reader.read_all(&DEAD);
    same(&rt, "the call has ended", reader.calling, 0);
    reader.tell(&FAILED, 80);
    same(&rt, "told of the call", reader.refusal, NO_REFUSAL);
    Ok(())
}

#[test]
fn a_read_keeps_room(rt: HostRuntime) -> Result<(), Fail> {
    let mut reader = NEW;
    same(&rt, "much room", reader.facts(&SOME).limit, 244);
    let small = Pending { room: 79, ..SOME };
    let facts = reader.facts(&small);
    same(&rt, "little room", facts.limit, 72);
    holds(&rt, "too little", !facts.has_room);
    same(&rt, "told of none", reader.tell(&TAKEN, 75).size, 0);
    same(&rt, "told of one", reader.tell(&TAKEN, 79).size, 4);
    reader.sent(Kind::Call, Outcome::Taken);
    holds(&rt, "enough in a call", reader.facts(&small).has_room);
    Ok(())
}
