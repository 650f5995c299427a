//! The table, and its memory.

ghost use Rattle.std.specs.{Prelude.{◌≡◌, ◌≤◌, [], true, OnOk, OnErr}, List.{list_all}};
ghost use Rattle.bd_space.specs.Steps.{is_pid};
ghost use Rattle.bd_processes.specs.Keys as keys;

use crate::guesses::Guesses;
use bd_keys::{WordKey, WordMap};
use bd_space::Process;
use std::alloc::{AllocError, Global};

/// The live processes.
#[derive(Drop)]
pub struct ProcessTable {
    // In the order in which they were opened, so that an identity is found by halves.
    pub(crate) list: Vec<Process>,
    // Each one's identity, by its pid. Peers choose the pids.
    pub(crate) by_pid: WordMap<u64>,
    // Where it may stand in the list, which takes no search.
    pub(crate) guesses: Guesses,
    // No pid is out of range.
    ghost pids_fit: { list_all (λ q. is_pid q.pid) list.items ≡ true },
}

/// By what a pid is found. Pids are of no process.
pub(crate) fn pid_key(pid: u32) -> WordKey
    ensures { result ≡ keys.pid_key pid }
{
    WordKey {
        process: 0,
        word: pid as u64,
    }
}

impl ProcessTable {
    ghost use Rattle.bd_processes.specs.{Stands.{ProcessesAre, IsKept}, Room.{process_room}};

    /// A table without processes. Takes no memory.
    pub fn new(alloc: Global) -> ProcessTable
        ensures { ProcessesAre result [] }
    {
        ProcessTable {
            list: Vec::new(alloc),
            by_pid: WordMap::new(alloc),
            guesses: Guesses::new(),
        }
    }

    /// Makes room for one more. Changes nothing else, also on an `Err`.
    #[tactic(auto, unfolding(crate::specs::Room::process_room))]
    pub fn reserve(&mut self) -> Result<(), AllocError>
        ensures stands { IsKept self.old self.new }
        ensures uses { process_room self.old ≤ process_room self.new }
        ensures room { OnOk result (1 ≤ process_room self.new) }
        // Memory was asked for: there was no room.
        ensures grown { OnErr result (process_room self.old ≡ 0) }
    {
        self.list.reserve(1)?;
        self.by_pid.reserve(1)
    }
}
