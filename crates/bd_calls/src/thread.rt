//! Threads.
#![tactic(auto, unfolding(bd_space::specs::Steps::with_thread, bd_space::specs::Steps::with_looping, crate::specs::Room::rooms, crate::specs::Told::Recalls, crate::specs::Told::HasRoomToTell))]

ghost use Rattle.std.specs.Prelude.{◌≡◌, ◌==◌, ◌≤◌, None, map, filter, length, IfOk, OnErr};
ghost use Rattle.bd_space.specs.{Seats.{thread_in}, ProcessExits.{seat_of}};

use crate::table::CallTable;
use bd_space::Thread;
use std::alloc::{AllocError, Global};

impl CallTable {
    ghost use Rattle.bd_space.specs.{Space.{Space}, Steps.{with_thread, with_looping}};
    ghost use Rattle.bd_ways.specs.Tables.{Tells, Makes, MakesWhere, IsAt};
    ghost use Rattle.bd_calls.specs.{Stands.{StandsFor}, Told.{KeepsTold, ReachesFew}, Room.{Uses, UsesNothing, nothing, thread_room}};

    /// The live thread of a seat.
    pub fn thread(&self, seat: u32) -> Option<Thread>
        ensures { Tells (StandsFor self.now) result (λ s. thread_in s.threads seat) }
    {
        self.threads.thread(seat)
    }

    /// The seats of a process's threads. Fails for want of memory alone, and never where there are none.
    pub fn seats_of(&self, alloc: Global, process: u64) -> Result<Vec<u32>, AllocError>
        ensures seats { IfOk result (λ v. Tells (StandsFor self.now) v.items
            (λ s. map seat_of (filter (λ t. t.process == process) s.threads))) }
        // Memory was asked for: there was a seat to put into it.
        ensures grown { OnErr result ((s : Space) → StandsFor self.now s
            → 1 ≤ length (filter (λ t. t.process == process) s.threads)) }
    {
        self.threads.seats_of(alloc, process)
    }

    /// A thread comes in, made at the place of the step, for a seat that has none. There is room for it.
    pub fn add_thread(&mut self, place: u64, seat: u32, process: u64)
        requires { 1 ≤ thread_room self.old }
        ensures stands { MakesWhere (StandsFor self.old) (λ s. IsAt place s × (thread_in s.threads seat ≡ None))
            (StandsFor self.new) (λ s. with_thread s seat process) }
        ensures uses { Uses self.old self.new (record nothing { threads = 1 }) }
        ensures told { KeepsTold self.old self.new }
        ensures few { ReachesFew 0 self.old self.new }
    {
        self.sure_room = self.sure_room.saturating_sub(1);
        self.ready.forget_seat(seat);
        self.threads.push(Thread {
            made: place,
            seat,
            process,
            looping: false,
        });
    }

    /// The thread of a seat enters or leaves the loop.
    pub fn set_looping(&mut self, seat: u32, looping: bool)
        ensures stands { Makes (StandsFor self.old) (StandsFor self.new) (λ s. with_looping s seat looping) }
        ensures uses { UsesNothing self.old self.new }
        ensures told { KeepsTold self.old self.new }
        ensures few { ReachesFew 0 self.old self.new }
    {
        self.ready.forget_seat(seat);
        self.threads.set_looping(seat, looping);
    }
}
