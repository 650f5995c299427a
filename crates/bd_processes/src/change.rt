//! Processes that open and end, and what they ask to be told.

ghost use Rattle.std.specs.Prelude.{◌≡◌, ◌==◌, ◌≤◌, ◌+◌, ◌++◌, ◌∷◌, [], true, not, filter, List};
ghost use Rattle.bd_keys.specs.Tables.{Makes};
ghost use Rattle.bd_space.specs.{Steps.{is_pid}, Words.{changed}, Spam.{detecting}};

use crate::table::{ProcessTable, pid_key};
use bd_space::Process;

impl ProcessTable {
    ghost use Rattle.bd_space.specs.declared.space.Process.{Process};
    ghost use Rattle.bd_processes.specs.{New.{IsNewIn}, Stands.{ProcessesAre}, Room.{process_room}};

    /// Takes in a process that opened after all others and has another pid than they. Room for it was made, so it takes no memory.
    #[tactic(auto, unfolding(crate::specs::Room::process_room))]
    pub fn push(&mut self, process: Process)
        requires room { 1 ≤ process_room self.old }
        requires pid { is_pid process.pid ≡ true }
        ensures stands { (processes : List Process) → ProcessesAre self.old processes → IsNewIn processes process
            → ProcessesAre self.new (processes ++ process ∷ []) }
        ensures uses { process_room self.old ≤ process_room self.new + 1 }
    {
        self.by_pid.insert(pid_key(process.pid), process.made);
        self.guesses.note(process.made, self.list.len());
        self.list.push_reserved(process);
    }

    /// Takes out the process with this identity; all others stay.
    #[tactic(auto, unfolding(crate::specs::Room::process_room))]
    pub fn remove(&mut self, made: u64)
        ensures stands { Makes (ProcessesAre self.old) (ProcessesAre self.new)
            (λ processes. filter (λ q. not (q.made == made)) processes) }
        ensures uses { process_room self.old ≤ process_room self.new }
    {
        if let Some(i) = self.index_of(made) {
            let process = self.list.remove(i);
            self.guesses.note_from(self.list.as_slice(), i);
            self.by_pid.remove(pid_key(process.pid));
        }
    }

    /// This process is told of its own one-way flooding, or no longer. Takes no memory.
    #[tactic(auto, unfolding(crate::specs::Room::process_room))]
    pub fn set_spam_detection(&mut self, made: u64, on: bool)
        ensures stands { Makes (ProcessesAre self.old) (ProcessesAre self.new)
            (λ processes. changed (λ q. q.made == made) (detecting on) processes) }
        ensures uses { process_room self.old ≤ process_room self.new }
    {
        if let Some(i) = self.index_of(made) {
            self.list[i].spam_detection = on;
        }
    }
}
