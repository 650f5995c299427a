//! What is seen of a seat: its thread, and whether there is anything on the lists that this may read.
#![tactic(auto)]

ghost use Rattle.std.specs.Prelude.{◌≡◌, ◌==◌, List};
ghost use Rattle.bd_space.specs.declared.space.Thread as declared;
ghost use Rattle.bd_space.specs.declared.space.Work as works;
ghost use Rattle.bd_space.specs.{Words.{is_some_and}};
ghost use Rattle.bd_space.specs.Todo as todos;
ghost use Rattle.bd_todo.specs.Stands as todo_table;
ghost use Rattle.bd_threads.specs.Listed.{listed};
ghost use Rattle.bd_calls.specs.Ready as spec;
ghost use Rattle.bd_calls.specs.Marked as marked;
ghost use Rattle.bd_calls.specs.Grouped as grouped;

use bd_space::{Thread, TodoList};
use bd_threads::ThreadTable;
use bd_todo::WorkTable;

/// What was seen of a seat.
#[derive(Clone, Copy)]
pub(crate) struct Seen {
    pub(crate) thread: Option<Thread>,
    // Whether there is anything on the thread's own list, and on its process's.
    pub(crate) own: bool,
    pub(crate) shared: bool,
}

impl Seen {
    /// What is kept of the seat, once there is anything on this process's list or nothing.
    #[inline(always)]
    pub(crate) fn with_shared(self, process: u64, has: bool) -> Seen
        ensures { result ≡ spec.with_shared process has self }
    {
        match self.thread {
            Some(thread) if thread.process == process => Seen {
                shared: has,
                ..self
            },
            _ => self,
        }
    }
}

/// Looks at a seat.
pub(crate) fn look_at(threads: &ThreadTable, todo: &WorkTable, seat: u32) -> Seen
    ensures { (ts : List declared.Thread) (ws : List works.Work) → listed threads.now ≡ ts → todo_table.WorksAre todo.now ws
        → spec.IsSeen ts (todos.has_work_in ws) seat result }
{
    let own = todo.has_any(TodoList::OfThread(seat));
    let thread = threads.thread(seat);
    let shared = match thread {
        Some(t) => todo.has_any(TodoList::OfProcess(t.process)),
        None => false,
    };
    Seen {
        thread,
        own,
        shared,
    }
}

/// Whether what is kept is of a thread of this process. Lent, since it is asked of each seat.
#[inline(always)]
pub(crate) fn is_member(kept: &Option<Seen>, process: u64) -> bool
    ensures { result ≡ grouped.is_member process kept.now }
{
    match kept {
        Some(seen) => match &seen.thread {
            Some(thread) => thread.process == process,
            None => false,
        },
        None => false,
    }
}

/// Whether something is kept of the seat.
#[inline(always)]
pub(crate) fn is_known(kept: Option<Seen>) -> bool
    ensures { result ≡ marked.is_known kept }
{
    kept.is_some()
}

/// Whether the seat has something to read, by what is kept of it, unless it is in a call; it may have where nothing is kept.
#[inline(always)]
pub(crate) fn may_read(kept: Option<Seen>) -> bool
    ensures { result ≡ marked.may_read kept }
{
    match kept {
        None => true,
        Some(seen) => match seen.thread {
            Some(thread) => seen.own || (seen.shared && thread.looping),
            None => false,
        },
    }
}
