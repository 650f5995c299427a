//! Records of histories.

ghost use Rattle.std.specs.Prelude.{◌≡◌, [], length, IfOk, OnErr};
ghost use Rattle.std.specs.List.{flat_map};
ghost use Rattle.bd_spelling.specs.Spelling.{entry_bytes};
ghost use Rattle.bd_spelling.specs.Logged.{AreSeatsOf};
ghost use Rattle.bd_spelling.specs.Writing.{Sends};

use crate::fault::Refused;
use crate::log::{Log, LogReader};
use bd_space::Entry;
use std::alloc::{AllocError, Global};
use std::io::Write;
use std::marker::Model;

/// The entries of a record, which contracts see as a list. They are kept as bytes.
#[derive(Drop, Debug)]
pub struct Entries {
    log: Log,
}

impl Model for Entries {
    ghost use Rattle.std.specs.Prelude.{List};
    ghost use Rattle.bd_space.specs.declared.step.Entry.{Entry};

    ghost Value = { List Entry };

    ghost view = { λ e. e.log.entries };
}

impl Entries {
    /// No entries. Takes no memory.
    pub fn none(alloc: Global) -> Entries
        ensures { result ≡ [] }
    {
        Entries {
            log: Log::new(alloc),
        }
    }

    /// How many there are.
    pub fn len(&self) -> usize
        ensures { result ≡ length self.now }
    {
        self.log.len()
    }

    /// How many seats a journal of them has at least.
    pub fn seats(&self) -> u32
        ensures { AreSeatsOf result self.now }
    {
        self.log.seats()
    }

    /// They themselves, in a vector. Errors: memory was refused.
    pub fn copied(&self, alloc: Global) -> Result<Vec<Entry>, AllocError>
        ensures copied { IfOk result (λ v. v.items ≡ self.now) }
        // Memory was asked for: none is for no entries.
        ensures grown { OnErr result (self.now ≡ [] → ⊥) }
    {
        self.log.copied(alloc)
    }

    /// A reader that begins at the first.
    pub fn reader(&self) -> LogReader<'_>
        ensures { result ≡ self.now }
    {
        self.log.reader()
    }

    /// Writes what a journal of them has behind its heading.
    ///
    /// # Errors
    /// The writer takes no more; what it took by then is a beginning.
    pub fn write<W: Write>(&self, out: &mut W) -> Result<(), Refused>
        ensures { Sends (W.contents out.old) (W.contents out.new) result (flat_map entry_bytes self.now) }
    {
        self.log.write(out)
    }
}

impl From<Log> for Entries {
    ghost from_gives = { λ log e. e ≡ log.entries };

    fn from(log: Log) -> Entries {
        Entries { log }
    }
}

/// What happened at a driver: the number of its seats, and the steps in their order.
#[derive(Drop, Debug)]
pub struct Record {
    /// How many seats there are: 1 to 31 of a driver, up to 65536 of a live engine.
    pub seats: u32,
    /// The steps with their answers.
    pub entries: Entries,
}
