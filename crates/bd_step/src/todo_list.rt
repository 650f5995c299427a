//! What threads and processes have to read.

ghost use Rattle.std.specs.Prelude.{◌≡◌, ◌≤◌, IfErr};
ghost use Rattle.bd_space.specs.declared.space.TodoList.TheVariants.{OfThread};
ghost use Rattle.bd_space.specs.declared.space.WorkKind.TheVariants as kinds;
ghost use Rattle.bd_space.specs.Todo as todo;
ghost use Rattle.bd_space.specs.Outcomes as outcomes;
ghost use Rattle.bd_calls.specs.Room.{work_room};
ghost use Rattle.bd_step.specs.{Stands.{Makes, MakesWithin, KeepsTold}, Meets.{IsAny, IsStep}, Deliveries.{Spends}};

use crate::answer::Plain;
use crate::step_error::StepError;
use crate::tables::{NOTHING, Tables};
use bd_space::{Frame, TodoList, WorkKind};
use bd_uapi::{Cause, Return};

impl Tables {
    /// The thread of the seat has something to read.
    #[tactic(auto, unfolding(bd_space::specs::Todo::owe))]
    pub(crate) fn owe(&mut self, seat: u32, kind: WorkKind)
        requires { 1 ≤ work_room self.old.calls }
        ensures stands { Makes self.old self.new (λ s. todo.owe s (OfThread seat) kind) }
        ensures spends { Spends self.old self.new 0 0 1 }
        ensures told { KeepsTold self.old self.new }
    {
        self.calls.owe(self.steps, TodoList::OfThread(seat), kind);
    }

    /// The caller of a frame, if it lives, has something to read.
    pub(crate) fn tell_caller(&mut self, f: Frame, kind: WorkKind)
        requires { 1 ≤ work_room self.old.calls }
        ensures stands { Makes self.old self.new (λ s. todo.tell_caller s f kind) }
        ensures spends { Spends self.old self.new 0 0 1 }
        ensures told { KeepsTold self.old self.new }
    {
        self.calls.tell_caller(self.steps, f, kind);
    }

    /// A command is refused, and its writer has this to read. Nothing follows from it.
    pub(crate) fn stop(&mut self, seat: u32, cause: Cause, told: Return) -> Result<Plain, StepError>
        ensures step { IsStep self.old self.new IsAny
            (λ s. outcomes.stopped cause (todo.owe s (OfThread seat) (kinds.Refusal told))) result }
        ensures memory { IfErr result (λ why. why ≡ StepError.NoMemory) }
        ensures told { KeepsTold self.old self.new }
    {
        if self.reserve(NOTHING, 1).is_err() {
            return Err(StepError::NoMemory);
        }
        self.owe(seat, WorkKind::Refusal(told));
        Ok(Plain::Stopped(cause))
    }

    // A work item comes onto a list.
    #[tactic(auto, unfolding(bd_space::specs::Todo::owe))]
    pub(crate) fn add_work(&mut self, list: TodoList, kind: WorkKind)
        requires { 1 ≤ work_room self.old.calls }
        ensures stands { MakesWithin self.old self.new (λ s. todo.owe s list kind) }
        ensures told { KeepsTold self.old self.new }
    {
        self.calls.owe(self.steps, list, kind);
    }
}
