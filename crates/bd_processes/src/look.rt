//! Looking at the processes.

ghost use Rattle.std.specs.Prelude.{◌≡◌, ◌<◌, ◌==◌, true, false, nat_le, find, All, List, IfSome, MatchOption, length, slice_index_or};
ghost use Rattle.bd_keys.specs.Tables.{Tells};
ghost use Rattle.bd_space.specs.Seats as seats;
ghost use Rattle.bd_space.specs.Steps.{is_pid};

use crate::list;
use crate::table::{ProcessTable, pid_key};
use bd_space::Process;

impl ProcessTable {
    ghost use Rattle.bd_space.specs.declared.space.Process.{Process};
    ghost use Rattle.bd_processes.specs.Stands.{ProcessesAre};

    /// The index of the process with this identity.
    pub(crate) fn index_of(&self, made: u64) -> Option<usize>
        ensures within { IfSome result (λ i. i < length self.now.list.items) }
        ensures found { (processes : List Process) → ProcessesAre self.now processes → MatchOption result
            (All (λ q. (q.made == made) ≡ false) processes)
            (λ i. (d : Process) → (slice_index_or processes i d).made ≡ made) }
    {
        list::index_at(self.list.as_slice(), self.guesses.of(made), made)
    }

    /// The process with this identity.
    #[inline(always)]
    pub fn made_at(&self, made: u64) -> Option<Process>
        ensures found { Tells (ProcessesAre self.now) result (λ processes. seats.process_in processes made) }
        ensures pid { IfSome result (λ q. is_pid q.pid ≡ true) }
    {
        list::made_at(self.list.as_slice(), self.guesses.of(made), made)
    }

    /// The process with this pid.
    pub fn with_pid(&self, pid: u32) -> Option<Process>
        ensures { Tells (ProcessesAre self.now) result (λ processes. seats.process_with_pid processes pid) }
    {
        let made = self.by_pid.get(pid_key(pid))?;
        self.made_at(made)
    }

    /// The first process that was opened at this place or behind it.
    pub fn next_from(&self, from: u64) -> Option<Process>
        ensures { Tells (ProcessesAre self.now) result (λ processes. find (λ q. nat_le from q.made) processes) }
    {
        list::first_from(self.list.as_slice(), from)
    }

    /// Whether the process with this identity lives.
    pub fn lives(&self, made: u64) -> bool
        ensures { Tells (ProcessesAre self.now) result (λ processes. seats.lives_in processes made) }
    {
        self.made_at(made).is_some()
    }
}
