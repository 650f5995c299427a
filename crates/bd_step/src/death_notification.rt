//! Death notifications: the steps of `BC_REQUEST_DEATH_NOTIFICATION`, `BC_CLEAR_DEATH_NOTIFICATION` and
//! `BC_DEAD_BINDER_DONE`, and what is told of an owner's end.

ghost use Rattle.std.specs.Prelude.{◌≡◌, ◌≤◌, filter, length};
ghost use Rattle.bd_space.specs.{declared.space.Phase.TheVariants.{Queued}, declared.space.TodoList.TheVariants.{OfProcess}};
ghost use Rattle.bd_space.specs.{declared.space.WorkKind.TheVariants.{Death}, Words.{ok_or}, Outcomes.{by_check}, Space.{Space}};
ghost use Rattle.bd_uapi.specs.declared.fault.Note.TheVariants.{NoneTold};
ghost use Rattle.bd_ways.specs.Tables.{MakesWhere};
ghost use Rattle.bd_deaths.specs.Due.{is_due};
ghost use Rattle.bd_objects.specs.{Room.{death_room}, New.{IsNewDeath}};
ghost use Rattle.bd_calls.specs.Room.{work_room};
ghost use Rattle.bd_step.specs.{Stands.{Uses, Within, MakesWithin, UsesNothing, KeepsTold}, Meets.{IsBy, IsStep}, Telling.{owed}};
ghost use Rattle.bd_space.specs.Todo as todo;
ghost use Rattle.bd_space.specs.Deaths as deaths;
ghost use Rattle.bd_space.specs.ProcessExits as exits;

use crate::answer::Plain;
use crate::step_error::StepError;
use crate::tables::{NOTHING, Tables};
use bd_objects::Room;
use bd_space::{Actor, DeathNotification, Identity, Phase, TodoList, WorkKind};
use bd_uapi::Note;

fn is_out(phase: Phase) -> bool
    ensures { result ≡ deaths.is_out phase }
{
    match phase {
        Phase::Queued | Phase::Told => true,
        Phase::Armed | Phase::Done => false,
    }
}

impl Tables {
    // A notification comes in, this far.
    #[tactic(auto, unfolding(bd_space::specs::Deaths::with_death))]
    fn add_death(&mut self, p: u64, o: Identity, cookie: u64, phase: Phase)
        requires { 1 ≤ death_room self.old.objects }
        ensures stands { MakesWhere (Within self.old) (IsNewDeath self.old.steps p o) (Within self.new)
            (λ s. deaths.with_death s p o cookie phase) }
        ensures uses { UsesNothing self.old self.new }
        ensures told { KeepsTold self.old self.new }
    {
        self.objects.with_death(self.steps, p, o, cookie, phase);
    }

    // A notification comes in whose process is told at once.
    fn add_told_death(&mut self, p: u64, o: Identity, cookie: u64)
        requires deaths { 1 ≤ death_room self.old.objects }
        requires works { 1 ≤ work_room self.old.calls }
        ensures stands { MakesWhere (Within self.old) (IsNewDeath self.old.steps p o) (Within self.new)
            (λ s. todo.owe (deaths.with_death s p o cookie Queued) (OfProcess p) (Death s.steps)) }
        ensures told { KeepsTold self.old self.new }
    {
        let place = self.steps;
        self.add_death(p, o, cookie, Phase::Queued);
        self.add_work(TodoList::OfProcess(p), WorkKind::Death(place));
    }

    // A notification comes in: armed while the object's owner lives; else the process is told at once.
    fn add_request(&mut self, p: u64, o: Identity, cookie: u64)
        requires deaths { 1 ≤ death_room self.old.objects }
        requires works { 1 ≤ work_room self.old.calls }
        ensures stands { MakesWhere (Within self.old) (IsNewDeath self.old.steps p o) (Within self.new)
            (λ s. deaths.requested s p o cookie) }
        ensures told { KeepsTold self.old self.new }
    {
        if self.objects.owner_lives(&self.processes, o) {
            self.add_death(p, o, cookie, Phase::Armed);
        } else {
            self.add_told_death(p, o, cookie);
        }
    }

    /// The step by which a process asks to be told of an owner's end. Nothing follows from it.
    pub(crate) fn request_death(
        &mut self,
        actor: Actor,
        n: u32,
        cookie: u64,
    ) -> Result<Plain, StepError>
        ensures step { IsStep self.old self.new (IsBy actor)
            (λ s. by_check s (λ o. deaths.requested s actor.process.made o cookie) (deaths.request_check s actor.process.made n)) result }
        ensures told { KeepsTold self.old self.new }
    {
        let o = match self.objects.request_check(actor.process.made, n) {
            Ok(o) => o,
            Err(note) => return Ok(Plain::Noted(note)),
        };
        let room = Room {
            deaths: 1,
            ..NOTHING
        };
        if self.reserve(room, 1).is_err() {
            return Err(StepError::NoMemory);
        }
        self.add_request(actor.process.made, o, cookie);
        Ok(Plain::Accepted)
    }

    // A notification goes, and the thread is told.
    fn end_death(&mut self, seat: u32, x: DeathNotification)
        requires { 1 ≤ work_room self.old.calls }
        ensures stands { MakesWithin self.old self.new (λ s. deaths.death_ended s seat x) }
        ensures told { KeepsTold self.old self.new }
    {
        self.objects.without_death(x.made);
        self.add_work(TodoList::OfThread(seat), WorkKind::Cleared(x.cookie));
    }

    // A notification is cleared: marked where it is queued or told; else it goes.
    fn clear_request(&mut self, seat: u32, x: DeathNotification)
        requires { 1 ≤ work_room self.old.calls }
        ensures stands { MakesWithin self.old self.new (λ s. deaths.cleared s seat x) }
        ensures told { KeepsTold self.old self.new }
    {
        if is_out(x.phase) {
            self.objects.mark_cleared(x.made);
        } else {
            self.end_death(seat, x);
        }
    }

    /// The step by which a process takes back that it asked to be told of an owner's end. Nothing follows from it.
    pub(crate) fn clear_death(
        &mut self,
        actor: Actor,
        n: u32,
        cookie: u64,
    ) -> Result<Plain, StepError>
        ensures step { IsStep self.old self.new (IsBy actor)
            (λ s. by_check s (deaths.cleared s actor.thread.seat) (deaths.clear_check s actor.process.made n cookie)) result }
        ensures told { KeepsTold self.old self.new }
    {
        let x = match self.objects.clear_check(actor.process.made, n, cookie) {
            Ok(x) => x,
            Err(note) => return Ok(Plain::Noted(note)),
        };
        if self.reserve(NOTHING, 1).is_err() {
            return Err(StepError::NoMemory);
        }
        self.clear_request(actor.thread.seat, x);
        Ok(Plain::Accepted)
    }

    // The process knows of the owner's end: a marked notification goes; else it is done.
    fn acknowledge_death(&mut self, seat: u32, x: DeathNotification)
        requires { 1 ≤ work_room self.old.calls }
        ensures stands { MakesWithin self.old self.new (λ s. deaths.death_done s seat x) }
        ensures told { KeepsTold self.old self.new }
    {
        if x.cleared {
            self.end_death(seat, x);
        } else {
            self.objects.with_phase(x.made, Phase::Done);
        }
    }

    /// The step by which a process acknowledges that it was told of an owner's end. Nothing follows from it.
    pub(crate) fn death_done(&mut self, actor: Actor, cookie: u64) -> Result<Plain, StepError>
        ensures step { IsStep self.old self.new (IsBy actor)
            (λ s. by_check s (deaths.death_done s actor.thread.seat) (ok_or (deaths.told_death s actor.process.made cookie) NoneTold)) result }
        ensures told { KeepsTold self.old self.new }
    {
        let x = match self.objects.told_death(actor.process.made, cookie) {
            Some(x) => x,
            None => return Ok(Plain::Noted(Note::NoneTold)),
        };
        if self.reserve(NOTHING, 1).is_err() {
            return Err(StepError::NoMemory);
        }
        self.acknowledge_death(actor.thread.seat, x);
        Ok(Plain::Accepted)
    }

    // A work item for each of these notifications, in their order.
    fn owe_deaths(&mut self, due: &[DeathNotification])
        requires { length due.now ≤ work_room self.old.calls }
        ensures stands { MakesWithin self.old self.new (λ s. owed s due.now) }
        ensures uses { Uses self.old self.new 0 0 (length due.now) }
        ensures told { KeepsTold self.old self.new }
    {
        for x in due {
            let list = TodoList::OfProcess(x.process);
            self.calls.owe(self.steps, list, WorkKind::Death(x.made));
        }
    }

    /// The end of the process is told by the armed notifications on its objects: by these.
    pub(crate) fn tell_deaths(&mut self, due: &[DeathNotification], p: u64)
        requires { length due.now ≤ work_room self.old.calls }
        ensures stands { (s : Space) → Within self.old s → due.now ≡ filter (is_due s.objects p) s.deaths
            → Within self.new (exits.tell_deaths s p) }
        ensures uses { Uses self.old self.new 0 0 (length due.now) }
        ensures told { KeepsTold self.old self.new }
    {
        self.owe_deaths(due);
        self.objects.tell_deaths(p);
    }
}
