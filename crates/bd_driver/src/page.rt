//! The page: one word that tells how long the history is, which seats are ready, and whether the engine is taken.
ghost use Rattle.std.specs.Prelude.{◌≡◌, ◌==◌, ◌<◌, ◌/◌, ◌%◌, length};
ghost use Rattle.bd_driver.specs.{Views.{ready_of}, Words.{page_word}};

use crate::boxed::BoxedEngine;

/// A page as one look found it.
#[derive(Clone, Copy, Debug, PartialEq, Eq)]
pub struct Page {
    /// How many steps the history has.
    pub stamp: u32,
    /// The seats that have something to read, bit i for seat i.
    pub ready: u32,
    /// Whether a seat has the engine.
    pub taken: bool,
}

impl Page {
    // Bit 0 tells whether the engine is taken, bits 1 to 31 the ready seats, bits 32 to 63 the stamp.
    pub(crate) fn of_word(word: u64) -> Page
        ensures stamp { result.stamp ≡ word / 4294967296 }
        ensures ready { result.ready ≡ word / 2 % 2147483648 }
        ensures taken { result.taken ≡ (word % 2 == 1) }
    {
        Page {
            stamp: (word / 4294967296) as u32,
            ready: (word / 2 % 2147483648) as u32,
            taken: word % 2 == 1,
        }
    }
}

/// The word of the page of an engine's history, while the engine is taken.
#[inline(always)]
pub(crate) fn page_while_taken(engine: &BoxedEngine) -> u64
    ensures page { result ≡ page_word engine.now.seats 1 engine.now.entries }
    ensures length { length engine.now.entries < 4294967296 }
    ensures bits { ready_of engine.now.seats engine.now.entries < 2147483648 }
{
    let engine = engine.get();
    1 + 2 * engine.ready() as u64 + 4294967296 * engine.len() as u64
}
