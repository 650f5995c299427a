//! Threads: whose seat it is, which are ready, and how they attach, enter the loop, leave it and end.

ghost use Rattle.std.specs.Prelude.{ℕ, true, None, ◌≡◌, Ok, IfSome, ◌≤◌, ◌<◌, ◌^◌};
ghost use Rattle.bd_uapi.specs.Limits.{most_seats};
ghost use Rattle.bd_space.specs.{Steps.{is_pid}, Histories.{ready_below}, Outcomes.{accepted}};
ghost use Rattle.bd_ways.specs.Tables.{MakesWhere, Makes as Changes};
ghost use Rattle.bd_objects.specs.Stands.{StandsFor};
ghost use Rattle.bd_buffers.specs.WindowsStand.{StandsIn};
ghost use Rattle.bd_calls.specs.Room.{thread_room};
ghost use Rattle.bd_step.specs.{Stands.{StandsAt, Tells, MakesWithin, UsesNothing, KeepsTold}, Meets.{IsAny, IsBy, IsStep}};
ghost use Rattle.bd_step.specs.Handed.{without_handed, without_all_handed};
ghost use Rattle.bd_space.specs.Seats as seats;
ghost use Rattle.bd_space.specs.Steps as steps;
ghost use Rattle.bd_space.specs.ThreadExits as exits;
ghost use Rattle.bd_objects.specs.Room as object_rooms;

use crate::answer::Plain;
use crate::step_error::StepError;
use crate::tables::{NOTHING, Tables};
use bd_buffers::Windows;
use bd_objects::ObjectTable;
use bd_space::{Actor, Thread, TodoList, WorkKind};
use bd_todo::{Works, hands_out};
use bd_uapi::Fault;

// The buffer goes that reading a work item of this kind would have handed out, with the references that it holds.
fn end_buffer_of(objects: &mut ObjectTable, windows: &mut Windows, kind: WorkKind)
    ensures objects { Changes (StandsFor objects.old) (StandsFor objects.new) (λ s. without_handed s kind) }
    ensures windows { Changes (StandsIn windows.old) (StandsIn windows.new) (λ s. without_handed s kind) }
    ensures uses { object_rooms.UsesNothing objects.old objects.new }
{
    if let Some(made) = hands_out(kind) {
        objects.without_buffer(made);
        windows.free(made);
    }
}

// The buffers go that reading these work items would have handed out, with the references that they hold.
fn end_handed(objects: &mut ObjectTable, windows: &mut Windows, works: Works<'_>)
    ensures objects { Changes (StandsFor objects.old) (StandsFor objects.new) (λ s. without_all_handed s works.entry) }
    ensures windows { Changes (StandsIn windows.old) (StandsIn windows.new) (λ s. without_all_handed s works.entry) }
    ensures uses { object_rooms.UsesNothing objects.old objects.new }
{
    for work in works {
        end_buffer_of(objects, windows, work.kind);
    }
}

impl Tables {
    // The thread with its process.
    #[inline(always)]
    fn actor_of(&self, thread: Thread) -> Option<Actor>
        ensures found { Tells self.now result (λ s. seats.actor_of s thread) }
        ensures pid { IfSome result (λ a. is_pid a.process.pid ≡ true) }
    {
        match self.process(thread.process) {
            Some(process) => Some(Actor { thread, process }),
            None => None,
        }
    }

    /// The live thread of a seat, with its process.
    #[inline(always)]
    #[tactic(auto, unfolding(bd_space::specs::Seats::actor))]
    pub(crate) fn actor(&self, seat: u32) -> Option<Actor>
        ensures found { Tells self.now result (λ s. seats.actor s seat) }
        ensures pid { IfSome result (λ a. is_pid a.process.pid ≡ true) }
    {
        match self.calls.thread(seat) {
            None => None,
            Some(thread) => self.actor_of(thread),
        }
    }

    /// The ready seats below this one, bit i for seat i.
    pub fn ready_below(&self, seats: u32) -> u32
        requires { seats ≤ most_seats }
        ensures ready { Tells self.now result (λ s. ready_below s seats) }
        ensures bits { result < 2 ^ most_seats }
    {
        self.calls.ready_below(seats)
    }

    // A thread comes in, for a seat that has none.
    #[tactic(auto, unfolding(bd_space::specs::Steps::with_thread))]
    pub(crate) fn add_thread(&mut self, seat: u32, process: u64)
        requires { 1 ≤ thread_room self.old.calls }
        ensures stands { (n : ℕ) → MakesWhere (StandsAt n self.old) (λ s. seats.thread_in s.threads seat ≡ None)
            (StandsAt n self.new) (λ s. steps.with_thread s seat process) }
        ensures told { KeepsTold self.old self.new }
    {
        self.calls.add_thread(self.steps, seat, process);
    }

    /// The step that makes the seat a further thread of a live process.
    pub(crate) fn attach(&mut self, seat: u32, pid: u32) -> Result<Plain, StepError>
        ensures step { IsStep self.old self.new IsAny (λ s. steps.attach_step s seat pid) result }
        ensures told { KeepsTold self.old self.new }
    {
        if self.calls.thread(seat).is_some() {
            return Ok(Plain::Refused(Fault::HasProcess));
        }
        let Some(process) = self.process_with_pid(pid) else {
            return Ok(Plain::Refused(Fault::NoSuchPid));
        };
        if self.reserve(NOTHING, 0).is_err() {
            return Err(StepError::NoMemory);
        }
        self.add_thread(seat, process.made);
        Ok(Plain::Opened)
    }

    /// The step by which a thread enters the loop, or leaves it. Nothing follows from it, and it takes no memory.
    pub(crate) fn set_looping(&mut self, actor: Actor, looping: bool) -> Plain
        ensures step { IsStep self.old self.new (IsBy actor)
            (λ s. accepted (steps.with_looping s actor.thread.seat looping)) (Ok result) }
        ensures told { KeepsTold self.old self.new }
    {
        self.calls.set_looping(actor.thread.seat, looping);
        Plain::Accepted
    }

    // The thread of a seat ends; what is lost with its list is told by the list, which goes last.
    pub(crate) fn thread_goes(&mut self, seat: u32)
        ensures stands { MakesWithin self.old self.new (λ s. exits.thread_goes s seat) }
        ensures uses { UsesNothing self.old self.new }
        ensures told { KeepsTold self.old self.new }
    {
        let list = TodoList::OfThread(seat);
        let works = self.calls.works_on(list);
        end_handed(&mut self.objects, &mut self.windows, works);
        self.calls.thread_goes(seat);
    }

    /// The step that ends a thread. What it touches is gathered before anything changes.
    pub(crate) fn exit_thread(&mut self, actor: Actor) -> Result<Plain, StepError>
        ensures step { IsStep self.old self.new (IsBy actor) (λ s. exits.exit_thread_step s actor) result }
        ensures told { KeepsTold self.old self.new }
    {
        let seat = actor.thread.seat;
        let Ok(exit) = self.begin_thread_exit(seat) else {
            return Err(StepError::NoMemory);
        };
        self.thread_goes(seat);
        self.follow_among(actor.thread.process, exit.objects());
        let mut frames = exit.into_frames();
        self.close_among(frames.as_mut_slice());
        Ok(Plain::Exited)
    }
}
