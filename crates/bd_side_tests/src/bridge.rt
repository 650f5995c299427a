//! Whom a bridge wakes, over an engine that counts what each of four seats has to read.

ghost use Rattle.std.specs.Prelude.{◌≡◌, ◌<◌, IfOk};
ghost use Rattle.bd_bridge.specs.Waiting.{seats_in};

use crate::same::{holds, same};
use bd_bridge::{Bridge, Engine, Reached, Reading, Signal, TodoList};
use std::alloc::Global;
use std::test::Fail;

// All seats are of one process, which was opened at this place.
const PROCESS: u64 = 0x1_0000_0007;

// One thing more for a seat to read, on this list. For a seat that isn't there: nobody knows whom that reaches.
#[derive(Drop)]
struct Come {
    list: TodoList,
    seat: u32,
}

#[derive(Drop)]
struct Counts {
    due: [u32; 4],
    // How many reads there were.
    reads: u32,
}

fn tell(reached: &mut Reached, list: TodoList) {
    reached.lists.clear();
    reached.any = reached.lists.push(list).is_err();
}

// Its worlds know nothing: the tests look at signals.
impl Engine for Counts {
    type Step = Come;

    type Answer = u32;

    // How many reads there were.
    type Kept = u32;

    type Outcome = ();

    ghost World = { Unit {0} };

    ghost Follows = { λ s h. Unit {0} };

    ghost Sees = { λ h t b. Unit {0} };

    ghost IsOf = { λ h t p. Unit {0} };

    ghost IsCommand = { λ x. Unit {0} };

    ghost answer = { λ o k. k };

    ghost stepped = { λ h t x a. h };

    ghost has_read = { λ h t r. h };

    ghost CanWait = { λ h t r. Unit {0} };

    ghost CanRest = { λ h t. Unit {0} };

    ghost Made = { λ s k t x o s' k'. Unit {0} };

    ghost MadeRead = { λ s k t room o s' k'. Unit {0} };

    fn is_ready(&self, seat: u32) -> bool {
        match self.due.get(seat as usize) {
            Some(due) => *due > 0,
            None => false,
        }
    }

    fn process_of(&self, _seat: u32) -> u64 {
        PROCESS
    }

    fn step(&mut self, _seat: u32, step: Come, _kept: &mut u32, reached: &mut Reached) {
        if let Some(due) = self.due.get_mut(step.seat as usize) {
            *due = due.saturating_add(1);
        }
        tell(reached, step.list);
        if step.seat >= 4 {
            reached.any = true;
        }
    }

    fn read(&mut self, seat: u32, _room: u32, kept: &mut u32, reached: &mut Reached) {
        if let Some(due) = self.due.get_mut(seat as usize) {
            *due = due.saturating_sub(1);
        }
        tell(reached, TodoList::OfSeat(seat));
        self.reads = self.reads.saturating_add(1);
        *kept = self.reads;
    }

    fn take(&self, _outcome: (), kept: &mut u32) -> u32 {
        *kept
    }

    // The first that anybody reads can wait.
    fn can_wait(&self, _seat: u32, _outcome: &(), kept: &u32) -> bool {
        *kept == 1
    }

    // One thing alone can rest.
    fn can_rest(&self, seat: u32) -> bool {
        match self.due.get(seat as usize) {
            Some(due) => *due == 1,
            None => false,
        }
    }
}

// One thing more for a seat to read, on a list.
fn arrive(list: TodoList, seat: u32) -> Come {
    Come { list, seat }
}

// On its own.
fn one_more(seat: u32) -> Come {
    arrive(TodoList::OfSeat(seat), seat)
}

// A seat's step.
fn make(bridge: &mut Bridge<Counts>, seat: u32, step: Come)
    requires { seat < seats_in bridge.old.waiters }
    ensures { seats_in bridge.new.waiters ≡ seats_in bridge.old.waiters }
{
    let mut reads = 0;
    bridge.step(seat, step, &mut reads);
}

fn new_bridge(alloc: Global) -> Result<Bridge<Counts>, Fail>
    ensures { IfOk result (λ b. seats_in b.waiters ≡ 4) }
{
    let counts = Counts {
        due: [0; 4],
        reads: 0,
    };
    match Bridge::new(alloc, counts, 4) {
        Ok(bridge) => Ok(bridge),
        Err(_) => Err("memory".into()),
    }
}

// Settles. What those who wait are told: 10 for a seat that is woken, 20 for one that has read and waits on, 30 for a
// doorbell that rings, 40 for one that is silent, with the seat; the first ten times as far left as the second, and so on.
fn told(alloc: Global, bridge: &mut Bridge<Counts>) -> Result<u64, Fail>
    ensures { seats_in bridge.new.waiters ≡ seats_in bridge.old.waiters }
{
    let mut signals = Vec::with_capacity(alloc, 16).ok().ok_or("memory")?;
    let mut reads = 0;
    let is_done = bridge.settle(16, &mut reads, &mut signals);
    let mut all: u64 = 0;
    for signal in &signals {
        let one = match signal {
            Signal::Read { seat, wakes, .. } => (if *wakes { 10 } else { 20 }) + *seat % 10,
            Signal::Bell { seat, rings } => (if *rings { 30 } else { 40 }) + *seat % 10,
        };
        all = all.wrapping_mul(100).wrapping_add(one as u64);
    }
    if !is_done {
        return Err("somebody is left".into());
    }
    Ok(all)
}

const READING: Reading = Reading {
    room: 256,
    defers: false,
    leaves: false,
};

#[test]
fn a_read_is_woken_once(rt: HostRuntime) -> Result<(), Fail> {
    let mut bridge = new_bridge(rt.alloc())?;
    bridge.wait(rt.alloc(), 1, READING).ok().ok_or("memory")?;
    bridge.wait(rt.alloc(), 2, READING).ok().ok_or("memory")?;
    same(&rt, "both wait", told(rt.alloc(), &mut bridge)?, 0);
    make(&mut bridge, 3, arrive(TodoList::OfProcess(PROCESS), 2));
    make(&mut bridge, 3, arrive(TodoList::OfSeat(2), 2));
    same(&rt, "seat 2 is woken", told(rt.alloc(), &mut bridge)?, 12);
    same(&rt, "it is told once", told(rt.alloc(), &mut bridge)?, 0);
    holds(&rt, "seat 2 waits no more", bridge.waiter(2).is_none());
    holds(&rt, "seat 1 waits on", bridge.waiter(1).is_some());
    same(&rt, "nobody is to be looked at", bridge.suspects(), 0);
    Ok(())
}

#[test]
fn a_doorbell_rings_until_all_is_read(rt: HostRuntime) -> Result<(), Fail> {
    let mut bridge = new_bridge(rt.alloc())?;
    bridge.give_doorbell(rt.alloc(), 2).ok().ok_or("memory")?;
    make(&mut bridge, 3, arrive(TodoList::OfSeat(2), 2));
    let got = told(rt.alloc(), &mut bridge)?;
    same(&rt, "its doorbell rings", got, 32);
    bridge.wait(rt.alloc(), 2, READING).ok().ok_or("memory")?;
    same(&rt, "all is read", told(rt.alloc(), &mut bridge)?, 1242);
    bridge.wait(rt.alloc(), 2, READING).ok().ok_or("memory")?;
    bridge.stop_reading(2);
    make(&mut bridge, 3, arrive(TodoList::OfSeat(2), 2));
    same(&rt, "it rings again", told(rt.alloc(), &mut bridge)?, 32);
    bridge.stop_waiting(2);
    same(&rt, "nobody waits", told(rt.alloc(), &mut bridge)?, 0);
    Ok(())
}

#[test]
fn what_can_wait_waits(rt: HostRuntime) -> Result<(), Fail> {
    let mut bridge = new_bridge(rt.alloc())?;
    let reading = Reading {
        room: 256,
        defers: true,
        leaves: false,
    };
    bridge.wait(rt.alloc(), 1, reading).ok().ok_or("memory")?;
    make(&mut bridge, 1, arrive(TodoList::OfSeat(1), 1));
    let got = told(rt.alloc(), &mut bridge)?;
    same(&rt, "it reads and waits on", got, 21);
    make(&mut bridge, 3, arrive(TodoList::OfSeat(1), 1));
    same(&rt, "it is woken", told(rt.alloc(), &mut bridge)?, 11);
    Ok(())
}

const RESTING: Reading = Reading {
    room: 256,
    defers: true,
    leaves: true,
};

// What rests is read along with what comes behind it, whether that is named or not. Of three one has to go, who has rested
// for longest.
#[test]
fn what_can_rest_rests(rt: HostRuntime) -> Result<(), Fail> {
    let mut bridge = new_bridge(rt.alloc())?;
    make(&mut bridge, 1, one_more(1));
    bridge.wait(rt.alloc(), 1, RESTING).ok().ok_or("memory")?;
    same(&rt, "one thing rests", told(rt.alloc(), &mut bridge)?, 0);
    make(&mut bridge, 3, arrive(TodoList::OfSeat(3), 1));
    let first = told(rt.alloc(), &mut bridge)?;
    same(&rt, "the first that is read can wait", first, 21);
    make(&mut bridge, 3, one_more(3));
    let second = told(rt.alloc(), &mut bridge)?;
    same(&rt, "it rests, since one thing is left", second, 0);
    make(&mut bridge, 3, arrive(TodoList::OfSeat(3), 1));
    same(&rt, "it is woken", told(rt.alloc(), &mut bridge)?, 11);
    Ok(())
}

#[test]
fn two_rest_at_a_time(rt: HostRuntime) -> Result<(), Fail> {
    let mut bridge = new_bridge(rt.alloc())?;
    make(&mut bridge, 0, one_more(0));
    make(&mut bridge, 1, one_more(1));
    make(&mut bridge, 2, one_more(2));
    bridge.wait(rt.alloc(), 0, RESTING).ok().ok_or("memory")?;
    bridge.wait(rt.alloc(), 1, RESTING).ok().ok_or("memory")?;
    bridge.wait(rt.alloc(), 2, RESTING).ok().ok_or("memory")?;
    let all = told(rt.alloc(), &mut bridge)?;
    same(&rt, "who has rested for longest", all, 20);
    same(&rt, "nobody is to be looked at", bridge.suspects(), 0);
    holds(&rt, "it waits on", bridge.waiter(0).is_some());
    Ok(())
}

#[test]
fn who_was_named_first_is_told_first(rt: HostRuntime) -> Result<(), Fail> {
    let mut bridge = new_bridge(rt.alloc())?;
    bridge.give_doorbell(rt.alloc(), 1).ok().ok_or("memory")?;
    bridge.give_doorbell(rt.alloc(), 2).ok().ok_or("memory")?;
    bridge.give_doorbell(rt.alloc(), 3).ok().ok_or("memory")?;
    same(&rt, "none rings", told(rt.alloc(), &mut bridge)?, 0);
    make(&mut bridge, 0, one_more(2));
    make(&mut bridge, 0, one_more(1));
    make(&mut bridge, 0, one_more(3));
    make(&mut bridge, 0, one_more(2));
    same(&rt, "each stands there once", bridge.suspects(), 3);
    let got = told(rt.alloc(), &mut bridge)?;
    same(&rt, "in their order", got, 32_31_33);
    Ok(())
}

#[test]
fn seats_above_all_that_have_waited_are_not_looked_at(rt: HostRuntime) -> Result<(), Fail> {
    let mut bridge = new_bridge(rt.alloc())?;
    make(&mut bridge, 0, one_more(4));
    same(&rt, "nobody has waited", bridge.suspects(), 0);
    bridge.wait(rt.alloc(), 1, READING).ok().ok_or("memory")?;
    same(&rt, "it waits", told(rt.alloc(), &mut bridge)?, 0);
    make(&mut bridge, 0, one_more(4));
    same(&rt, "seats 0 and 1", bridge.suspects(), 2);
    Ok(())
}

#[test]
fn one_signal_comes_at_a_time(rt: HostRuntime) -> Result<(), Fail> {
    let mut reads = 0;
    let mut bridge = new_bridge(rt.alloc())?;
    bridge.wait(rt.alloc(), 1, READING).ok().ok_or("memory")?;
    bridge.wait(rt.alloc(), 2, READING).ok().ok_or("memory")?;
    let is_none = bridge.settle_one(4, &mut reads).is_none();
    holds(&rt, "there is nothing to read", is_none);
    make(&mut bridge, 3, arrive(TodoList::OfSeat(2), 2));
    holds(&rt, "somebody is to be looked at", !bridge.is_settled());
    match bridge.settle_one(4, &mut reads) {
        Some(Signal::Read { seat, wakes, .. }) => {
            same(&rt, "seat 2", seat, 2);
            holds(&rt, "is woken", wakes);
        }
        _ => return Err("nobody was woken".into()),
    }
    let is_none = bridge.settle_one(4, &mut reads).is_none();
    holds(&rt, "no other is", is_none);
    holds(&rt, "nobody is left", bridge.is_settled());
    Ok(())
}
