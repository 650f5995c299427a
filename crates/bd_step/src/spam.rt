//! Reports of one-way flooding: who asked for them, and of which calls they are made.

ghost use Rattle.std.specs.Prelude.{◌≡◌, ◌&&◌, Some, Ok};
ghost use Rattle.bd_space.specs.{Space.{Space}, Seats.{process_in}, Windows.{buffers_of}, declared.space.Process.{Process}};
ghost use Rattle.bd_step.specs.{Stands.{Within, KeepsTold}, Meets.{IsBy, IsStep}};
ghost use Rattle.bd_space.specs.Spam as spec;

use crate::answer::Plain;
use crate::tables::Tables;
use bd_space::Actor;

impl Tables {
    /// The step by which a process asks for reports of its own flooding, or no longer. Nothing follows from it, and it
    /// takes no memory.
    pub(crate) fn set_spam_detection(&mut self, actor: Actor, on: bool) -> Plain
        ensures step { IsStep self.old self.new (IsBy actor) (λ s. spec.spam_step s on actor) (Ok result) }
        ensures told { KeepsTold self.old self.new }
    {
        self.processes.set_spam_detection(actor.process.made, on);
        Plain::Set
    }

    /// Whether a call that was just delivered to this process is reported to its sender as flooding.
    pub(crate) fn is_spam(&self, actor: Actor, receiver: u64, one_way: bool) -> bool
        ensures { (s : Space) (q : Process) → Within self.now s → process_in s.processes receiver ≡ Some q
            → result ≡ (actor.process.spam_detection && one_way
            && spec.floods q.window (buffers_of s.buffers receiver) actor.process.made) }
    {
        actor.process.spam_detection && one_way && self.windows.floods(receiver, actor.process.made)
    }
}
