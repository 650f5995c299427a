//! Threads that wait, and requests that read.

use crate::same::{holds, same};
use bd_reader::{Facts, NO_REFUSAL, Reader};
use bd_uapi::codes::*;
use bd_waiting::{
    Begin, Calls, Cancel, Cleared, Clearing, Doing, End, Ending, Front, Heard, Loopers, Outcome,
    Place, Told, Waits, Why, begins, cancels, clears, enters, taken,
};
use std::test::Fail;

const TOLD: Told = Told {
    has_bell: false,
    reads: false,
    limit: 0,
    defers: 0,
};

const READS: Waits = Waits {
    has_seat: true,
    polls: false,
    is_reading: true,
    is_woken: false,
    is_idle: false,
    is_herald: false,
    rings: false,
    told: TOLD,
    calls: Calls {
        stops_waiting: false,
        stops_reading: false,
        gives_bell: false,
        reads: false,
        limit: 0,
        defers: 0,
    },
};

const FACTS: Facts = Facts {
    is_there: false,
    is_whole: false,
    is_left: false,
    defers: false,
    fetches: false,
    is_idle: true,
    has_room: true,
    limit: 244,
};

#[test]
fn who_reads_stands_first(rt: HostRuntime) -> Result<(), Fail> {
    let mut reads = READS;
    let place = reads.note(&FACTS, 0, false, false, false);
    same(&rt, "who reads", place, Place::First);
    let calls = reads.calls;
    let is_so = reads.is_herald && calls.reads && !calls.gives_bell;
    holds(&rt, "is told of by a read", is_so);
    same(&rt, "with this limit", calls.limit, 244);
    let mut polls = Waits {
        polls: true,
        is_reading: false,
        ..READS
    };
    let place = polls.note(&FACTS, 0, false, false, false);
    same(&rt, "who polls", place, Place::Last);
    let is_so = !polls.is_herald && !polls.calls.gives_bell;
    holds(&rt, "isn't told of", is_so);
    polls.take_over(&FACTS, 0, false);
    let is_so = polls.is_herald && polls.calls.gives_bell;
    holds(&rt, "is told of by a bell", is_so);
    Ok(())
}

#[test]
fn who_retires_is_told_of_no_more(rt: HostRuntime) -> Result<(), Fail> {
    let told = Told {
        reads: true,
        limit: 244,
        ..TOLD
    };
    let herald = Waits {
        is_idle: true,
        is_herald: true,
        told,
        ..READS
    };
    let mut silent = herald;
    silent.hand_over(false);
    let is_so = silent.is_idle && silent.calls.stops_reading && !silent.told.reads;
    holds(&rt, "it stops", is_so);
    let mut by_itself = herald;
    by_itself.hand_over(true);
    let is_so = !by_itself.is_idle && !by_itself.calls.stops_reading && by_itself.told.reads;
    holds(&rt, "it goes on by itself", is_so);
    let mut anew = herald;
    anew.tell_anew(&FACTS, 0, false);
    let is_so = anew.calls.stops_reading && anew.calls.reads;
    holds(&rt, "it begins anew", is_so);
    holds(&rt, "all ring", herald.is_to_ring(true, false));
    holds(&rt, "nobody rings", !herald.is_to_ring(false, false));
    Ok(())
}

#[test]
fn who_was_woken_is_answered(rt: HostRuntime) -> Result<(), Fail> {
    let woken = taken(Outcome::Something, true, false, false, false);
    same(&rt, "who is woken", woken, Doing::Answers);
    let behind = taken(Outcome::Something, true, true, true, false);
    same(&rt, "some is behind", behind, Doing::Fetches);
    let silent = taken(Outcome::Something, false, false, false, true);
    same(&rt, "somebody polls", silent, Doing::Notes);
    let failed = taken(Outcome::Failed, true, false, false, false);
    same(&rt, "a read failed", failed, Doing::Fails);
    let got = READS.touched(true, true);
    same(&rt, "all was touched", got, Doing::Queues);
    let got = READS.touched(false, true);
    same(&rt, "some was touched", got, Doing::Notes);
    let full = Facts {
        has_room: false,
        ..FACTS
    };
    let got = READS.heard(&full, true, false);
    same(&rt, "no room", got, Heard::IsFull);
    same(&rt, "room", READS.heard(&FACTS, true, false), Heard::Rings);
    holds(&rt, "it is answered", READS.is_answered(true));
    Ok(())
}

#[test]
fn a_request_ends_as_it_may(rt: HostRuntime) -> Result<(), Fail> {
    let new = Reader {
        serving: 0,
        calling: 0,
        refusals: 0,
        completions: 0,
        clearings: 0,
        untold: 0,
        completed: 0,
        refusal: NO_REFUSAL,
        is_prompt: 0,
        is_behind: 0,
        is_full: 0,
    };
    let got = begins(&new, 0, false, true, false);
    same(&rt, "it may wait", got, Begin::Looks);
    let got = begins(&new, 0, false, false, false);
    same(&rt, "it may not", got, Begin::ComesBack);
    let read = Ending {
        is_put_off: false,
        reads: true,
        is_reading: true,
        has_failed: false,
        is_at_once: true,
        may_wait: false,
        is_to_return: false,
        is_there: false,
    };
    same(&rt, "nothing is there", read.end(), End::WouldBlock);
    let patient = Ending {
        may_wait: true,
        ..read
    };
    same(&rt, "it waits", patient.end(), End::Waits);
    let got = cancels(true, Why::IsToReturn);
    same(&rt, "it is to return", got, Cancel::ComesBack);
    let got = cancels(false, Why::IsInterrupted);
    same(&rt, "it is interrupted", got, Cancel::Refuses);
    Ok(())
}

#[test]
fn who_takes_notifications_back_is_told(rt: HostRuntime) -> Result<(), Fail> {
    let taken_back = Cleared {
        place: 7,
        oldest: 9,
        has_oldest: true,
        has_own: false,
    };
    let is_so = taken_back.is_next(&FACTS) && taken_back.is_there(&FACTS);
    holds(&rt, "it is next", is_so);
    let behind = Cleared {
        oldest: 7,
        ..taken_back
    };
    holds(&rt, "another is older", !behind.is_next(&FACTS));
    let got = clears(true, false, 15);
    same(&rt, "there may be more", got, Clearing::LooksOn);
    let got = clears(true, false, 16);
    same(&rt, "there are many", got, Clearing::IsTold);
    let got = clears(false, false, 3);
    same(&rt, "there is none", got, Clearing::IsNotTold);
    Ok(())
}

#[test]
fn one_thread_is_asked_for_at_a_time(rt: HostRuntime) -> Result<(), Fail> {
    let mut loopers = Loopers {
        max: 1,
        requested: 0,
        started: 0,
    };
    let got = loopers.answer(3, true, false);
    same(&rt, "there is no room", got, Front::Nothing);
    let got = loopers.answer(4, true, true);
    same(&rt, "somebody waits", got, Front::Noop);
    let got = loopers.answer(4, true, false);
    same(&rt, "one is asked for", got, Front::SpawnLooper);
    let got = loopers.answer(4, true, false);
    same(&rt, "it is still to come", got, Front::Noop);
    loopers.attach(BC_REGISTER_LOOPER);
    same(&rt, "it has come", loopers.started, 1);
    let got = loopers.answer(4, true, false);
    same(&rt, "no more may come", got, Front::Noop);
    holds(&rt, "it enters", enters(BC_ENTER_LOOPER));
    holds(&rt, "it leaves", !enters(BC_EXIT_LOOPER));
    Ok(())
}
