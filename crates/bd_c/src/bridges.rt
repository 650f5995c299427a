//! A live engine that also knows who waits: what C tells it of that, and whom it has C wake.
ghost use Rattle.std.specs.Prelude.{◌≡◌};
ghost use Rattle.bd_c.specs.Bridges.{status_of as status_of_it, deferring_of as deferring_of_it};

use crate::answers::Told;
use crate::live::OwnedLive;
use crate::status::Status;
use bd_bridge::{Reading, Signal};
use bd_bridge_live::NotMade;
use bd_engine::{Looks, StepError};
use std::alloc::Global;

/// What somebody who waits is told.
#[repr(C)]
#[derive(Clone, Copy)]
pub struct SignalTold {
    /// 0 nothing, 1 what was read for it, 2 its doorbell.
    pub kind: u32,
    pub seat: u32,
    /// Of a read: its thread is woken.
    pub wakes: bool,
    /// Of a doorbell: it rings from now on, and else is silent.
    pub rings: bool,
    /// Somebody is still to be looked at.
    pub is_left: bool,
    /// Of a read: the number of the status of its step.
    pub status: u32,
    /// Of a read: what came of its step.
    pub answer: Told,
}

impl SignalTold {
    ghost use Rattle.bd_c.specs.Bridges.{none_told, bell_told, read_told};

    fn none(is_left: bool) -> SignalTold
        ensures { result ≡ none_told is_left }
    {
        SignalTold {
            kind: 0,
            seat: 0,
            wakes: false,
            rings: false,
            is_left,
            status: 0,
            answer: Told::placed(0, 0, 0),
        }
    }

    fn bell(seat: u32, rings: bool, is_left: bool) -> SignalTold
        ensures { result ≡ bell_told seat rings is_left }
    {
        SignalTold {
            kind: 2,
            seat,
            rings,
            ..SignalTold::none(is_left)
        }
    }

    fn read(seat: u32, wakes: bool, is_left: bool, status: Status, answer: Told) -> SignalTold
        ensures { result ≡ read_told seat wakes is_left status answer }
    {
        SignalTold {
            kind: 1,
            seat,
            wakes,
            rings: false,
            is_left,
            status: status.number(),
            answer,
        }
    }
}

// Why a read wasn't made.
fn status_of(why: NotMade) -> Status
    ensures { result ≡ status_of_it why }
{
    match why {
        NotMade::NoSuchSeat => Status::NoSuchSeat,
        NotMade::Refused(StepError::NoMemory) => Status::NoMemory,
        NotMade::Refused(StepError::HistoryFull) => Status::HistoryFull,
    }
}

// Whether what can wait for the reply may be read ahead, and whether what can rest is left.
fn deferring_of(word: u32) -> Option<(bool, bool)>
    ensures { result ≡ deferring_of_it word }
{
    match word {
        0 => Some((false, false)),
        1 => Some((true, false)),
        2 => Some((true, true)),
        _ => None,
    }
}

impl OwnedLive {
    ghost use Rattle.bd_c.specs.Bridges.{Awaits, BeginsToRead, WaitsByFlag, GetsDoorbell, StopsReading, StopsWaiting, HasLooked};

    /// A seat's thread waits in a read from now on.
    pub(crate) fn wait(&mut self, alloc: Global, seat: u32, reading: Reading) -> Status
        ensures { Awaits (BeginsToRead reading.room reading.defers reading.leaves) self.old self.new seat result }
    {
        if seat >= self.bridge.seats() {
            return Status::NoSuchSeat;
        }
        match self.bridge.wait(alloc, seat, reading) {
            Ok(()) => Status::Done,
            Err(_) => Status::NoMemory,
        }
    }

    /// The same, where a number says what it need not be told.
    pub(crate) fn wait_by_flag(
        &mut self,
        alloc: Global,
        seat: u32,
        room: u32,
        defers: u32,
    ) -> Status
        ensures { WaitsByFlag room defers self.old self.new seat result }
    {
        match deferring_of(defers) {
            Some((defers, leaves)) => self.wait(
                alloc,
                seat,
                Reading {
                    room,
                    defers,
                    leaves,
                },
            ),
            None => Status::NoSuchRequest,
        }
    }

    /// A seat's thread has a doorbell from now on, which is silent.
    pub(crate) fn give_doorbell(&mut self, alloc: Global, seat: u32) -> Status
        ensures { Awaits GetsDoorbell self.old self.new seat result }
    {
        if seat >= self.bridge.seats() {
            return Status::NoSuchSeat;
        }
        match self.bridge.give_doorbell(alloc, seat) {
            Ok(()) => Status::Done,
            Err(_) => Status::NoMemory,
        }
    }

    /// A seat's thread waits no more in a read.
    pub(crate) fn stop_reading(&mut self, seat: u32) -> Status
        ensures { Awaits StopsReading self.old self.new seat result }
    {
        if seat >= self.bridge.seats() {
            return Status::NoSuchSeat;
        }
        self.bridge.stop_reading(seat);
        Status::Done
    }

    /// A seat's thread waits no more, neither in a read nor by a doorbell.
    pub(crate) fn stop_waiting(&mut self, seat: u32) -> Status
        ensures { Awaits StopsWaiting self.old self.new seat result }
    {
        if seat >= self.bridge.seats() {
            return Status::NoSuchSeat;
        }
        self.bridge.stop_waiting(seat);
        Status::Done
    }

    /// Looks at so many seats at most, until one of them is to be told something, and tells that.
    pub(crate) fn settle(&mut self, looks: u32, told: &mut SignalTold)
        ensures { HasLooked self.old self.new looks told.new }
    {
        let from = self.bridge.engine.live.len();
        let signal = self.bridge.settle_one(looks, &mut self.latest);
        let is_left = !self.bridge.is_settled();
        *told = match signal {
            None => SignalTold::none(is_left),
            Some(Signal::Bell { seat, rings }) => SignalTold::bell(seat, rings, is_left),
            Some(Signal::Read { seat, read, wakes }) => match read {
                Ok(()) => {
                    let answer = self.tell_latest(from);
                    std::mem::swap(&mut self.ended, &mut self.bridge.engine.ended);
                    SignalTold::read(seat, wakes, is_left, Status::Done, answer)
                }
                Err(why) => SignalTold::read(
                    seat,
                    wakes,
                    is_left,
                    status_of(why),
                    Told::placed(0, 0, 0),
                ),
            },
        };
    }
}
