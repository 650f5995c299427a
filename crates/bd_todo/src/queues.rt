//! Work items in queues: each on the list that it names, whose number stands by seat or by process.

ghost use Rattle.std.specs.Prelude.{◌≡◌, ◌==◌, List, count_by, is_some, IfSome};
ghost use Rattle.std.specs.List.{list_any};
ghost use Rattle.bd_keys.specs.Tables.{Tells};
ghost use Rattle.bd_space.specs.declared.space.Work.{Work};
ghost use Rattle.bd_space.specs.Words.{is_some_and};
ghost use Rattle.bd_space.specs.Todo as spec;
ghost use Rattle.bd_chains.specs.Rows.{Row};
ghost use Rattle.bd_todo.specs.QueuesStand.{Stands, Shows, IsFront, work_at};

use crate::heads::Heads;
use bd_chains::{Items, Lists, Numbering};
use bd_space::{TodoList, Work};

/// The work items on a list, oldest first.
pub type Works<'a> = Items<'a, Work>;

/// Work items in queues.
pub type Queues = Lists<Heads, Work>;

/// The slot of the first work item on a list.
pub fn front(queues: &Queues, list: TodoList) -> Option<usize>
    ensures any { Tells (Stands queues.now) (is_some result) (λ todo. list_any (spec.is_on list) todo) }
    ensures some { (rs : List (Row Work)) → Shows queues.now rs → IfSome result (IsFront queues.now rs list) }
{
    queues.chains.first(queues.numbers.of(list))
}

// A work item that was made at this place is in the slot.
fn is_made_at(queues: &Queues, x: usize, place: u64) -> bool
    ensures { result ≡ is_some_and (work_at queues.now x) (λ w. w.id.place == place) }
{
    match queues.chains.get(x) {
        Some(work) => work.id.place == place,
        None => false,
    }
}

/// How many were made at this place. Goes over all slots.
pub fn count_at(queues: &Queues, place: u64) -> u64
    ensures { Tells (Stands queues.now) result (λ todo. count_by (λ w. w.id.place == place) todo) }
{
    let mut count: u64 = 0;
    for x in 0..queues.chains.slots() {
        if is_made_at(queues, x, place) {
            count += 1;
        }
    }
    count
}
