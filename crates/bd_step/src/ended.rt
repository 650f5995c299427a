//! Buffers that a step ends: where they are to be looked for.

ghost use Rattle.std.specs.Prelude.{◌≡◌, [], Option, OnOk, OnErr};
ghost use Rattle.bd_space.specs.{declared.step.Parcel.{Parcel}, Histories.{History, space_after}};
ghost use Rattle.bd_step.specs.{Stands.{Before}, Ending.{HasEndings}};
ghost use Rattle.bd_uapi.specs.declared.command.Command.TheVariants as bc;
ghost use Rattle.bd_space.specs.declared.step.Step.TheVariants as step_of;
ghost use Rattle.bd_space.specs.Steps as steps;

use crate::tables::Tables;
use bd_space::Step;
use bd_uapi::Command;
use std::alloc::AllocError;

impl Tables {
    // Where the buffer was made that the seat's process knows by this pointer, if there is one.
    fn list_freed(&self, seat: u32, pointer: u64, places: &mut Vec<u64>) -> Result<(), AllocError>
        requires none { places.old.items ≡ [] }
        ensures listed { OnOk result ((h : History) (parcel : Option Parcel) → Before self.now (space_after h)
            → HasEndings places.new.items (space_after h)
            (steps.change (space_after h) seat (step_of.Command (bc.FreeBuffer pointer) parcel)).space) }
        // Memory was asked for: there is a live buffer.
        ensures grown { OnErr result ((h : History) → Before self.now (space_after h) → (space_after h).buffers ≡ [] → ⊥) }
    {
        let Some(actor) = self.actor(seat) else {
            return Ok(());
        };
        if let Some(b) = self.windows.at_pointer(actor.process.made, pointer) {
            places.push(b.made())?;
        }
        Ok(())
    }

    // Where the live buffers were made that the seat's process has received.
    fn list_received(&self, seat: u32, places: &mut Vec<u64>) -> Result<(), AllocError>
        requires none { places.old.items ≡ [] }
        ensures thread { OnOk result ((h : History) → Before self.now (space_after h)
            → HasEndings places.new.items (space_after h) (steps.change (space_after h) seat step_of.ExitThread).space) }
        ensures process { OnOk result ((h : History) → Before self.now (space_after h)
            → HasEndings places.new.items (space_after h) (steps.change (space_after h) seat step_of.ExitProcess).space) }
        // Memory was asked for: there is a live buffer.
        ensures grown { OnErr result ((h : History) → Before self.now (space_after h) → (space_after h).buffers ≡ [] → ⊥) }
    {
        match self.actor(seat) {
            None => Ok(()),
            Some(a) => self.windows.list_made(a.process.made, places),
        }
    }

    // Where buffers were made among which are all that the command ends.
    fn list_endings_of(
        &self,
        seat: u32,
        command: &Command,
        places: &mut Vec<u64>,
    ) -> Result<(), AllocError>
        requires none { places.old.items ≡ [] }
        ensures listed { OnOk result ((h : History) (parcel : Option Parcel) → Before self.now (space_after h)
            → HasEndings places.new.items (space_after h)
            (steps.change (space_after h) seat (step_of.Command command.now parcel)).space) }
        // Memory was asked for: there is a live buffer.
        ensures grown { OnErr result ((h : History) → Before self.now (space_after h) → (space_after h).buffers ≡ [] → ⊥) }
    {
        match command {
            Command::FreeBuffer(pointer) => self.list_freed(seat, *pointer, places),
            _ => Ok(()),
        }
    }

    /// Where buffers were made among which are all that the step of the seat ends. Only a `BC_FREE_BUFFER` and the exits end
    /// any: with another step nothing is looked at. Errors: memory was refused.
    pub fn list_endings(
        &self,
        seat: u32,
        step: &Step,
        places: &mut Vec<u64>,
    ) -> Result<(), AllocError>
        requires none { places.old.items ≡ [] }
        ensures listed { OnOk result ((h : History) → Before self.now (space_after h)
            → HasEndings places.new.items (space_after h) (steps.change (space_after h) seat step.now).space) }
        // Memory was asked for: there is a live buffer.
        ensures grown { OnErr result ((h : History) → Before self.now (space_after h) → (space_after h).buffers ≡ [] → ⊥) }
    {
        match step {
            Step::Command { command, parcel: _ } => self.list_endings_of(seat, command, places),
            Step::ExitThread => self.list_received(seat, places),
            Step::ExitProcess => self.list_received(seat, places),
            _ => Ok(()),
        }
    }
}
