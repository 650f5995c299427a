//! The numbers of the lists.

ghost use Rattle.std.specs.{Prelude.{◌≡◌, length, None}, Cmp.Rules.{hashing}};
ghost use Rattle.std.specs.Hash as fed;
ghost use Rattle.std.{specs.HashMap.{spare}, proofs.Common.{ap, rules}};
ghost use Rattle.bd_space.specs.declared.space.TodoList as declared;
ghost use Rattle.bd_space.specs.Todo.{same_list};
ghost use Rattle.bd_todo.specs.Keys as keys;

use bd_chains::{Numbering, Numbers};
use bd_keys::wide;
use bd_space::TodoList;
use bd_uapi::MOST_SEATS;
use std::alloc::{AllocError, Global};
use std::hash::{Hash, Hasher};

/// Whose list it is.
#[derive(Clone, Copy, Debug, PartialEq, Eq)]
pub enum ListKey {
    Thread { seat: u32 },
    Process { process: u64 },
}

impl ListKey {
    /// A number of 33 bits, another for each key.
    pub(crate) fn spread(self) -> u128
        ensures { result ≡ keys.spread self }
    {
        match self {
            ListKey::Thread { seat } => u128::from(seat),
            ListKey::Process { process } => wide(1, process),
        }
    }
}

// One write, as `bd_keys` says.
impl Hash for ListKey {
    ghost hash_input = { λ k. fed.u128 (keys.spread k) };

    ghost respects_eq = { Prim.search (hashing, rules) };

    fn hash<H: Hasher>(&self, state: &mut H) {
        state.write_u128(self.spread());
    }
}

/// The key of a list.
pub fn list_key(list: TodoList) -> ListKey
    ensures { result ≡ keys.list_key list }
{
    match list {
        TodoList::OfThread(seat) => ListKey::Thread { seat },
        TodoList::OfProcess(process) => ListKey::Process { process },
    }
}

// As many seats as a driver has.
const SEATS: usize = MOST_SEATS as usize;

/// The number of each list that has one.
#[derive(Drop)]
pub struct Heads {
    // Of the lists of threads, by seat: most looks are at these, and take no hash.
    pub(crate) threads: [Option<usize>; SEATS],
    // Of all other lists.
    pub(crate) others: Numbers<ListKey>,
}

impl Heads {
    ghost use Rattle.bd_todo.specs.Heads as heads;

    /// No list has a number. Takes no memory.
    pub fn new(alloc: Global) -> Heads
        ensures { (l : declared.TodoList) → heads.head_at result l ≡ None }
    {
        Heads {
            threads: [None; SEATS],
            others: Numbers::new(alloc),
        }
    }

    // The row of a thread's list, if it has one.
    fn row(&self, list: TodoList) -> Option<usize>
        ensures { result ≡ heads.row_of (length self.now.threads) list }
    {
        match list {
            TodoList::OfThread(seat) if (seat as usize) < self.threads.len() => Some(seat as usize),
            _ => None,
        }
    }
}

impl Numbering for Heads {
    ghost use Rattle.bd_todo.specs.SameList.{same_list_eq, same_list_refl, same_list_turned};
    ghost use Rattle.bd_todo.specs.Heads as heads;

    type Key = TodoList;

    ghost same = { same_list };

    ghost number = { heads.head_at };

    ghost room = { λ h. spare h.others.all };

    ghost itself = { same_list_refl };

    ghost turned = { same_list_turned };

    ghost alike = { λ k l m e. ap (λ n. same_list n m) (same_list_eq k l e) };

    ghost one_number = { λ h k l e. ap (heads.head_at h) (same_list_eq k l e) };

    #[tactic(auto, unfolding(crate::specs::Heads::head_at))]
    fn of(&self, list: TodoList) -> Option<usize> {
        match self.row(list) {
            Some(at) => self.threads[at],
            None => self.others.of(list_key(list)),
        }
    }

    #[tactic(auto, unfolding(crate::specs::Heads::head_at))]
    fn find(&mut self, list: TodoList) -> Option<usize> {
        match self.row(list) {
            Some(at) => self.threads[at],
            None => self.others.find(list_key(list)),
        }
    }

    fn insert(&mut self, list: TodoList, head: usize) {
        match self.row(list) {
            Some(at) => self.threads[at] = Some(head),
            None => self.others.insert(list_key(list), head),
        }
    }

    fn remove(&mut self, list: TodoList) {
        match self.row(list) {
            Some(at) => self.threads[at] = None,
            None => self.others.remove(list_key(list)),
        }
    }

    fn reserve(&mut self, more: usize) -> Result<(), AllocError> {
        self.others.reserve(more)
    }
}
