//! The context manager.

ghost use Rattle.std.specs.Prelude.{◌≤◌};
ghost use Rattle.bd_space.specs.Steps as steps;
ghost use Rattle.bd_ways.specs.Tables.{MakesWhere};
ghost use Rattle.bd_objects.specs.{Room.{object_room, reference_room}, New.{IsNewManager}};
ghost use Rattle.bd_step.specs.{Stands.{TellsBefore, Within, KeepsTold}, Meets.{IsBy, IsStep}};

use crate::answer::Plain;
use crate::step_error::StepError;
use crate::tables::{NOTHING, Tables};
use bd_objects::Room;
use bd_space::{Actor, Identity};
use bd_uapi::Fault;

impl Tables {
    // Whether there is a context manager, or the process has an object with ptr 0.
    fn is_manager_busy(&self, p: u64) -> bool
        ensures { TellsBefore self.now result (λ s. steps.is_manager_busy s p) }
    {
        self.manager.is_some() || self.objects.own_with_ptr(p, 0).is_some()
    }

    // The process becomes the context manager.
    fn with_manager(&mut self, p: u64)
        requires objects { 1 ≤ object_room self.old.objects }
        requires references { 1 ≤ reference_room self.old.objects }
        ensures stands { MakesWhere (Within self.old) (IsNewManager self.old.steps p) (Within self.new)
            (λ s. steps.with_manager s p) }
        ensures told { KeepsTold self.old self.new }
    {
        self.objects.with_manager(self.steps, p);
        self.manager = Some(Identity {
            place: self.steps,
            index: 0,
        });
    }

    /// The step that makes the process the context manager.
    pub(crate) fn set_manager(&mut self, actor: Actor) -> Result<Plain, StepError>
        ensures step { IsStep self.old self.new (IsBy actor) (λ s. steps.manager_step s actor) result }
        ensures told { KeepsTold self.old self.new }
    {
        if self.is_manager_busy(actor.process.made) {
            return Ok(Plain::Refused(Fault::ManagerBusy));
        }
        let room = Room {
            objects: 1,
            references: 1,
            ..NOTHING
        };
        if self.reserve(room, 0).is_err() {
            return Err(StepError::NoMemory);
        }
        self.with_manager(actor.process.made);
        Ok(Plain::Set)
    }
}
