//! What calls answer.
use bd_space::{Answer, Request};

/// Why a request comes back.
#[derive(Clone, Copy, Debug, PartialEq, Eq)]
pub enum Why {
    /// Another seat has the engine.
    Taken,
    /// F14: memory was refused.
    NoMemory,
    /// F13: the history is full, or a handle past the limit would be needed.
    HistoryFull,
    /// Its seat took it back before anybody picked it.
    Withdrawn,
}

/// What came of a request.
#[derive(Drop, Debug)]
pub enum Outcome {
    /// It was run: its steps stand in the history from `from` up to and without `to`.
    Done { answer: Answer, from: u32, to: u32 },
    /// It wasn't run, and comes back equal.
    Back { request: Request, why: Why },
    /// It is still handed over.
    Handed,
}

/// What came of serving.
#[derive(Clone, Copy, Debug, PartialEq, Eq)]
pub enum Served {
    /// Another seat has the engine.
    Taken,
    /// Each mailbox was tried, and so many had a request.
    Ran { picked: u32 },
}
