//! References that are asked for and acknowledged: the steps of `BC_INCREFS`, `BC_ACQUIRE`, `BC_RELEASE`, `BC_DECREFS`,
//! `BC_INCREFS_DONE` and `BC_ACQUIRE_DONE`.

ghost use Rattle.std.specs.Prelude.{◌≡◌, ◌≤◌, IfErr, OnOk, OnErr};
ghost use Rattle.bd_space.specs.Asking as asking;
ghost use Rattle.bd_space.specs.Outcomes.{completed, by_check};
ghost use Rattle.bd_ways.specs.Tables.{MakesWhere};
ghost use Rattle.bd_objects.specs.Room.{reference_room, name_room};
ghost use Rattle.bd_calls.specs.Room.{work_room};
ghost use Rattle.bd_step.specs.{Stands.{Within, MakesOfTidy, PassesLimit, KeepsTold}, Meets.{IsBy, IsAsking, IsKept, IsStep}};

use crate::answer::Plain;
use crate::step_error::StepError;
use crate::tables::{NOTHING, Tables};
use bd_objects::{NumbersFull, Room};
use bd_space::{Actor, Identity};

impl Tables {
    // The reference comes in that the process asks for, and a name with it, and what follows at the object; or nothing,
    // where a number past the limit would be needed.
    fn add_asked(&mut self, p: u64, n: u32, o: Identity, strong: bool) -> Result<(), StepError>
        requires references { 1 ≤ reference_room self.old.objects }
        requires names { 1 ≤ name_room self.old.objects p }
        requires works { 1 ≤ work_room self.old.calls }
        ensures stands { OnOk result (MakesWhere (Within self.old) (IsAsking p o strong) (Within self.new)
            (λ s. completed (asking.ask s p o strong))) }
        ensures kept { OnErr result (IsKept self.old self.new) }
        ensures full { OnErr result (PassesLimit self.old (λ s. completed (asking.ask s p o strong))) }
        // There is room by then, so that nothing else is a reason.
        ensures limit { IfErr result (λ why. why ≡ StepError.HistoryFull) }
        ensures told { KeepsTold self.old self.new }
    {
        match self.objects.ask(self.steps, self.manager, p, n, o, strong) {
            Ok(()) => {
                self.follow_objects(&[o]);
                Ok(())
            }
            Err(NumbersFull) => Err(StepError::HistoryFull),
        }
    }

    /// The step by which a process asks for an object, weakly or strongly.
    pub(crate) fn ask(&mut self, actor: Actor, n: u32, strong: bool) -> Result<Plain, StepError>
        ensures step { IsStep self.old self.new (IsBy actor)
            (λ s. by_check s (λ o. asking.ask s actor.process.made o strong) (asking.ask_check s actor.process.made n strong)) result }
        ensures told { KeepsTold self.old self.new }
    {
        let o = match self
            .objects
            .ask_check(self.manager, actor.process.made, n, strong)
        {
            Ok(o) => o,
            Err(note) => return Ok(Plain::Noted(note)),
        };
        let room = Room {
            references: 1,
            names: 1,
            process: actor.process.made,
            ..NOTHING
        };
        if self.reserve(room, 0).is_err() {
            return Err(StepError::NoMemory);
        }
        match self.add_asked(actor.process.made, n, o, strong) {
            Ok(()) => Ok(Plain::Accepted),
            Err(why) => Err(why),
        }
    }

    // The reference goes that the process asked for, and what follows at its name and at the object.
    fn release_asked(&mut self, p: u64, o: Identity, strong: bool)
        requires { 1 ≤ work_room self.old.calls }
        ensures stands { MakesOfTidy self.old self.new (λ s. completed (asking.drop_asked s p o strong)) }
        ensures told { KeepsTold self.old self.new }
    {
        self.objects.drop_asked(p, o, strong);
        self.follow_among(p, &[o]);
    }

    /// The step by which a process drops a reference that it asked for.
    pub(crate) fn drop_asked(
        &mut self,
        actor: Actor,
        n: u32,
        strong: bool,
    ) -> Result<Plain, StepError>
        ensures step { IsStep self.old self.new (IsBy actor)
            (λ s. by_check s (λ o. asking.drop_asked s actor.process.made o strong)
            (asking.drop_check s actor.process.made n strong)) result }
        ensures told { KeepsTold self.old self.new }
    {
        let o = match self.objects.drop_check(actor.process.made, n, strong) {
            Ok(o) => o,
            Err(note) => return Ok(Plain::Noted(note)),
        };
        if self.reserve(NOTHING, 0).is_err() {
            return Err(StepError::NoMemory);
        }
        self.release_asked(actor.process.made, o, strong);
        Ok(Plain::Accepted)
    }

    // The reference goes that stood for an acknowledgement, and what follows at the object.
    fn release_handshake(&mut self, o: Identity, strong: bool)
        requires { 1 ≤ work_room self.old.calls }
        ensures stands { MakesOfTidy self.old self.new (λ s. completed (asking.acknowledge s o strong)) }
        ensures told { KeepsTold self.old self.new }
    {
        self.objects.acknowledge(o, strong);
        self.follow_objects(&[o]);
    }

    /// The step by which a process acknowledges what it was told of an own object.
    pub(crate) fn acknowledge(
        &mut self,
        actor: Actor,
        ptr: u64,
        cookie: u64,
        strong: bool,
    ) -> Result<Plain, StepError>
        ensures step { IsStep self.old self.new (IsBy actor)
            (λ s. by_check s (λ x. asking.acknowledge s x.id strong)
            (asking.done_check s actor.process.made ptr cookie strong)) result }
        ensures told { KeepsTold self.old self.new }
    {
        let x = match self
            .objects
            .done_check(actor.process.made, ptr, cookie, strong)
        {
            Ok(x) => x,
            Err(note) => return Ok(Plain::Noted(note)),
        };
        if self.reserve(NOTHING, 0).is_err() {
            return Err(StepError::NoMemory);
        }
        self.release_handshake(x.id, strong);
        Ok(Plain::Accepted)
    }
}
