//! What is found among the work items on a list, one after the other.

ghost use Rattle.std.specs.Prelude.{◌≡◌, Some};
ghost use Rattle.bd_space.specs.Todo as spec;
ghost use Rattle.bd_todo.specs.TodoList as replies;

use crate::queues::{Works, front};
use crate::table::WorkTable;
use crate::work::reply_of;
use bd_chains::Numbering;
use bd_space::{TodoList, Work};

fn first_reply_among(works: Works<'_>) -> Option<u64>
    ensures { result ≡ replies.first_reply_in works.entry }
{
    for work in works {
        let reply = reply_of(work.kind);
        if reply.is_some() {
            return reply;
        }
    }
    None
}

impl WorkTable {
    ghost use Rattle.bd_todo.specs.Stands.{Tells};

    /// Whether anything is on a list.
    pub fn has_any(&self, list: TodoList) -> bool
        ensures { Tells self.now result (λ l. spec.has_work_in l list) }
    {
        front(&self.queues, list).is_some()
    }

    /// The work items on a list, oldest first.
    pub fn works_on(&self, list: TodoList) -> Works<'_>
        ensures { Tells self.now result (λ l. spec.work_on l (Some list)) }
    {
        self.queues.chains.items_on(self.queues.numbers.of(list))
    }

    /// Where the first reply on a list was made.
    pub fn first_reply(&self, list: TodoList) -> Option<u64>
        ensures { Tells self.now result (λ l. replies.first_reply_in (spec.work_on l (Some list))) }
    {
        first_reply_among(self.works_on(list))
    }
}
