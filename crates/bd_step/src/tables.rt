//! The tables that a space is kept in, and room in them.

ghost use Rattle.std.specs.Prelude.{◌≡◌, [], OnOk, OnErr};

use bd_buffers::Windows;
use bd_calls::CallTable;
use bd_objects::{ObjectTable, Room};
use bd_processes::ProcessTable;
use bd_space::{Identity, Work};
use std::alloc::{AllocError, Global};
use std::mem::replace;

/// For a step that makes nothing among the objects.
pub(crate) const NOTHING: Room = Room {
    objects: 0,
    references: 0,
    names: 0,
    process: 0,
    deaths: 0,
};

// The room for more isn't kept.
const KEPT: usize = 1024;

/// The tables of an engine.
pub struct Tables {
    /// How many steps there were: the place of the next. A step leaves it as it is; who keeps the tables counts.
    pub steps: u64,
    /// The live processes.
    pub processes: ProcessTable,
    /// The context manager's object.
    pub manager: Option<Identity>,
    /// Objects, and what refers to them.
    pub objects: ObjectTable,
    /// Threads, and what they do and have to read.
    pub calls: CallTable,
    /// What processes receive into.
    pub windows: Windows,
    /// What their memory comes from.
    pub alloc: Global,
    // Room for the objects at which something may follow from a step: kept for the next one.
    touched: Vec<Identity>,
    // Room for what a read takes, likewise.
    works: Vec<Work>,
}

// Written out: one that is derived would be proved again, with that of each table, in every crate that holds tables.
impl Drop for Tables {
    fn drop(self) {
        let Tables {
            steps: _,
            processes: _,
            manager: _,
            objects: _,
            calls: _,
            windows: _,
            alloc: _,
            touched: _,
            works: _,
        } = self;
    }
}

impl Tables {
    ghost use Rattle.bd_space.specs.Space.{opening};
    ghost use Rattle.bd_step.specs.{Stands.{Before, MakesWithin, HasRoom, IsReserved, KeepsRoom, KeepsTold}, Meets.{IsKept}};

    /// The tables of a new engine. Takes no memory.
    pub fn new(alloc: Global) -> Tables
        ensures { Before result opening }
    {
        Tables {
            steps: 0,
            processes: ProcessTable::new(alloc),
            manager: None,
            objects: ObjectTable::new(alloc),
            calls: CallTable::new(alloc),
            windows: Windows::new(alloc),
            alloc,
            touched: Vec::new(alloc),
            works: Vec::new(alloc),
        }
    }

    /// Room for objects, with none in it.
    #[inline(always)]
    pub(crate) fn take_touched(&mut self) -> Vec<Identity>
        ensures none { result.items ≡ [] }
        ensures stands { IsKept self.old self.new }
        ensures told { KeepsTold self.old self.new }
    {
        let none = Vec::new(self.alloc);
        let mut touched = replace(&mut self.touched, none);
        touched.clear();
        touched
    }

    /// Keeps that room, unless it is much.
    #[inline(always)]
    pub(crate) fn keep_touched(&mut self, touched: Vec<Identity>)
        ensures stands { MakesWithin self.old self.new (λ s. s) }
        ensures told { KeepsTold self.old self.new }
    {
        if touched.capacity() <= KEPT {
            self.touched = touched;
        }
    }

    /// Room for work items, with none in it.
    #[inline(always)]
    pub(crate) fn take_works(&mut self) -> Vec<Work>
        ensures none { result.items ≡ [] }
        ensures stands { IsKept self.old self.new }
        ensures told { KeepsTold self.old self.new }
    {
        let none = Vec::new(self.alloc);
        let mut works = replace(&mut self.works, none);
        works.clear();
        works
    }

    /// Keeps that room, unless it is much.
    #[inline(always)]
    pub(crate) fn keep_works(&mut self, works: Vec<Work>)
        ensures stands { MakesWithin self.old self.new (λ s. s) }
        ensures told { KeepsTold self.old self.new }
    {
        if works.capacity() <= KEPT {
            self.works = works;
        }
    }

    /// Makes room for a step: this among the objects, for so many work items, and for the calls that may ripen or close.
    /// Changes nothing else, also where memory is refused.
    // Put into its callers, which mostly ask for a number that is known there, and have room.
    #[inline(always)]
    pub(crate) fn reserve(&mut self, room: Room, works: usize) -> Result<(), AllocError>
        ensures stands { IsKept self.old self.new }
        // What had room still has.
        ensures uses { KeepsRoom self.old self.new }
        ensures room { OnOk result (HasRoom self.new room works) }
        ensures reserved { OnOk result (IsReserved self.new room works) }
        // Memory was asked for: there was no room.
        ensures grown { OnErr result (IsReserved self.old room works → ⊥) }
        ensures told { KeepsTold self.old self.new }
    {
        self.objects.reserve(room)?;
        self.calls.reserve(works)
    }
}
