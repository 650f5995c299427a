//! Frames: open two-way calls.

ghost use Rattle.std.specs.Prelude.{◌≡◌, ◌≤◌, ℕ, Some, IfSome, find, option_and_then};
ghost use Rattle.bd_space.specs.Frames as frames;
ghost use Rattle.bd_space.specs.Transactions as transactions;
ghost use Rattle.bd_space.specs.{Frames.{is_frame}, Space.{Space}, Seats.{process_in}};
ghost use Rattle.bd_space.specs.Replies as replies;
ghost use Rattle.bd_calls.specs.Room.{work_room, frame_room};
ghost use Rattle.bd_step.specs.Stands.{Makes, MakesOfStacked, Tells, StandsAt, TellsBefore, KeepsTold};
ghost use Rattle.bd_step.specs.Deliveries.{Spends, SpendsNothing};

use crate::tables::Tables;
use bd_space::{Actor, Frame, Server};

impl Tables {
    /// A two-way call to the process makes a frame and is due at once.
    #[tactic(auto, unfolding(bd_space::specs::Transactions::call_out, bd_space::specs::Todo::owe))]
    pub(crate) fn call_out(&mut self, seat: u32, process: u64)
        requires frames { 1 ≤ frame_room self.old.calls }
        requires works { 1 ≤ work_room self.old.calls }
        ensures stands { MakesOfStacked self.old self.new (λ s. transactions.call_out s seat process) }
        ensures spends { Spends self.old self.new 1 0 1 }
        ensures told { KeepsTold self.old self.new }
    {
        self.calls.call_out(self.steps, seat, process);
    }

    /// The frame closes.
    #[tactic(auto, unfolding(bd_space::specs::Frames::closed))]
    pub(crate) fn close(&mut self, made: u64)
        ensures stands { Makes self.old self.new (λ s. frames.closed s made) }
        ensures spends { SpendsNothing self.old self.new }
        ensures told { KeepsTold self.old self.new }
    {
        self.calls.close(made);
    }

    // The live thread that made the call, and its process.
    pub(crate) fn caller_of(&self, f: &Frame) -> Option<Actor>
        ensures caller { Tells self.now result (λ s. replies.caller_of s f.now) }
        ensures lives { (n : ℕ) (s : Space) → StandsAt n self.now s
            → IfSome result (λ c. process_in s.processes c.process.made ≡ Some c.process) }
    {
        match f.caller {
            None => None,
            Some(seat) => self.actor(seat),
        }
    }

    // The seat of the thread that called, if the call is two-way and the thread still lives.
    pub(crate) fn waiting_seat(&self, made: u64) -> Option<u32>
        ensures { TellsBefore self.now result (λ s. option_and_then (λ f. f.caller) (find (is_frame made) s.frames)) }
    {
        match self.calls.frame(made) {
            Some(frame) => frame.caller,
            None => None,
        }
    }
}
