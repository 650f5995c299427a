//! Every step of the tables.

ghost use Rattle.std.specs.Prelude.{◌≡◌};
ghost use Rattle.bd_space.specs.{Steps.{change, command_step}};
ghost use Rattle.bd_step.specs.declared.answer.Plain as words;
ghost use Rattle.bd_step.specs.Plain.{IsRare, answer_of};
ghost use Rattle.bd_step.specs.{Stands.{KeepsTold}, Meets.{IsAny, IsBy, IsNobody, IsStep, IsStepWritten}};

use crate::answer::{Brief, Plain, written};
use crate::keep::Keeps;
use crate::step_error::StepError;
use crate::tables::Tables;
use bd_space::{Actor, Parcel, Step, StepAnswer};
use bd_uapi::{Command, Fault};

impl Tables {
    // The step of a command.
    #[inline(always)]
    #[tactic(auto, unfolding(bd_space::specs::Steps::command_step))]
    fn command(
        &mut self,
        actor: Actor,
        command: &Command,
        parcel: &Option<Parcel>,
    ) -> Result<Plain, StepError>
        ensures step { IsStep self.old self.new (IsBy actor) (λ s. command_step s actor command.now parcel.now) result }
        ensures told { KeepsTold self.old self.new }
    {
        match command {
            Command::Transaction(d) => self.transaction(actor, d, parcel),
            Command::Reply(d) => self.reply(actor, d, parcel),
            Command::FreeBuffer(pointer) => self.free(actor, *pointer),
            Command::Increfs(n) => self.ask(actor, *n, false),
            Command::Acquire(n) => self.ask(actor, *n, true),
            Command::Release(n) => self.drop_asked(actor, *n, true),
            Command::Decrefs(n) => self.drop_asked(actor, *n, false),
            Command::IncrefsDone(ptr, cookie) => self.acknowledge(actor, *ptr, *cookie, false),
            Command::AcquireDone(ptr, cookie) => self.acknowledge(actor, *ptr, *cookie, true),
            Command::EnterLooper => Ok(self.set_looping(actor, true)),
            Command::ExitLooper => Ok(self.set_looping(actor, false)),
            Command::RequestDeathNotification(n, cookie) => self.request_death(actor, *n, *cookie),
            Command::ClearDeathNotification(n, cookie) => self.clear_death(actor, *n, *cookie),
            Command::DeadBinderDone(cookie) => self.death_done(actor, *cookie),
        }
    }

    // The step of a live thread that is neither a command's nor reads. On its own: else there is room for the answer of each of
    // these, and it is cleared in every step.
    #[inline(never)]
    fn change_rarely(&mut self, actor: Actor, step: &Step) -> Result<Plain, StepError>
        requires { IsRare step.now }
        ensures step { IsStep self.old self.new (IsBy actor) (λ s. change s actor.thread.seat step.now) result }
        ensures told { KeepsTold self.old self.new }
    {
        match step {
            Step::Open { pid, euid, window } => {
                self.open(actor.thread.seat, *pid, *euid, *window)
            }
            Step::Attach { pid } => self.attach(actor.thread.seat, *pid),
            Step::SetManager => self.set_manager(actor),
            Step::SetSpam { on } => Ok(self.set_spam_detection(actor, *on)),
            Step::ExitThread => self.exit_thread(actor),
            Step::ExitProcess => self.exit_process(actor),
            _ => unreachable!(),
        }
    }

    // The step of a live thread. Put into its caller: else its thread and process are copied once more.
    #[inline(always)]
    fn change_by<K: Keeps>(
        &mut self,
        actor: Actor,
        step: &Step,
        answer: &mut StepAnswer,
        keep: &mut K,
    ) -> Result<Brief, StepError>
        requires { (x : words.Plain) → K.kept keep.old (answer_of x) }
        ensures step { IsStepWritten self.old self.new (K.kept keep.new) (IsBy actor)
            (λ s. change s actor.thread.seat step.now) answer.new result }
        ensures rest { K.rest keep.new ≡ K.rest keep.old }
        ensures told { KeepsTold self.old self.new }
    {
        match step {
            Step::Command { command, parcel } => written(
                self.command(actor, command, parcel),
                answer,
            ),
            Step::Read { limit } => self.read(actor, *limit, answer, keep),
            _ => written(self.change_rarely(actor, step), answer),
        }
    }

    // The step of a seat without a live thread.
    fn change_alone(&mut self, seat: u32, step: &Step) -> Result<Plain, StepError>
        ensures step { IsStep self.old self.new (IsNobody seat) (λ s. change s seat step.now) result }
        ensures told { KeepsTold self.old self.new }
    {
        match step {
            Step::Open { pid, euid, window } => self.open(seat, *pid, *euid, *window),
            Step::Attach { pid } => self.attach(seat, *pid),
            _ => Ok(Plain::Refused(Fault::NoProcess)),
        }
    }

    /// The step of a seat. Its answer is written to `answer`, and what is read is given to `keep` before anything changes. The step
    /// isn't counted by it. Errors: memory was refused, by `keep` too, or a name would have to be numbered above 4294967294; the
    /// tables then stand for what they stood for, and of what is written nothing is known.
    pub fn change<K: Keeps>(
        &mut self,
        seat: u32,
        step: &Step,
        answer: &mut StepAnswer,
        keep: &mut K,
    ) -> Result<Brief, StepError>
        // What takes no memory is kept before it is known.
        requires { (x : words.Plain) → K.kept keep.old (answer_of x) }
        ensures step { IsStepWritten self.old self.new (K.kept keep.new) IsAny (λ s. change s seat step.now) answer.new result }
        ensures rest { K.rest keep.new ≡ K.rest keep.old }
        ensures told { KeepsTold self.old self.new }
    {
        match self.actor(seat) {
            Some(actor) => self.change_by(actor, step, answer, keep),
            None => written(self.change_alone(seat, step), answer),
        }
    }
}
