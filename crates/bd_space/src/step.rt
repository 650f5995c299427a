//! Requests and steps, their answers, and records of histories.

ghost use Rattle.std.specs.{Prelude.{◌≡◌, IfOk}, Cmp.Rules.{hashing}};
ghost use Rattle.std.specs.Hash as fed;
ghost use Rattle.std.proofs.Common.{rules};
ghost use Rattle.bd_keys.specs.Numbers.{pair};

use crate::bytes::{Bytes, Notes};
use bd_keys::tall;
use bd_uapi::{Cause, Command, Fault, Note};
use std::alloc::AllocError;
use std::hash::{Hash, Hasher};

/// An object's identity: the place of the step that made it, and which of that step's objects it is. Where a history has an
/// end, an [`ObjectId`](crate::ObjectId) has the same value in fewer bits.
#[derive(Clone, Copy, Debug, PartialEq, Eq)]
pub struct Identity {
    /// The place of the step, from 0.
    pub place: u64,
    /// Which of that step's objects it is, from 0.
    pub index: u32,
}

// One write, as `bd_keys` says.
impl Hash for Identity {
    ghost hash_input = { λ o. fed.u128 (pair o.place o.index) };

    ghost respects_eq = { Prim.search (hashing, rules) };

    fn hash<H: Hasher>(&self, state: &mut H) {
        state.write_u128(tall(self.place, self.index));
    }
}

/// What a transaction or reply carries, cut from the area of its write.
#[derive(Drop, Debug)]
pub struct Parcel {
    /// The data.
    pub bytes: Bytes,
    /// The offsets of the objects in the data, 8 bytes each.
    pub offsets: Bytes,
}

impl Parcel {
    /// The same parcel again, in memory of its own.
    pub fn copied(&self) -> Result<Parcel, AllocError>
        ensures { IfOk result (λ p. p ≡ self.now) }
    {
        Ok(Parcel {
            bytes: self.bytes.copied()?,
            offsets: self.offsets.copied()?,
        })
    }
}

/// What a seat asks of the driver.
#[derive(Drop, Debug)]
pub enum Request {
    /// Opens a process with one thread, the seat's.
    Open {
        /// Its pid, 1 to 2147483647.
        pid: u32,
        /// Its effective user id.
        euid: u32,
        /// The size of its window in bytes, a multiple of 4096 from 4096 to 4194304.
        window: u32,
    },
    /// Makes the seat a further thread of a live process.
    Attach {
        /// The process's pid.
        pid: u32,
    },
    /// Makes the seat's process the context manager.
    SetManager,
    /// Has the seat's process told of its own one-way flooding, or no longer (`BINDER_ENABLE_ONEWAY_SPAM_DETECTION`).
    SetSpam {
        /// Whether it is told from now on.
        on: bool,
    },
    /// Runs the commands of a stream.
    Write {
        /// The commands, one after the other, at most 4096 bytes.
        stream: Bytes,
        /// The bytes that the commands' parcels are cut from.
        area: Bytes,
    },
    /// Reads returns.
    Read {
        /// The greatest length of the stream of returns, at least 72.
        limit: u32,
    },
    /// Ends the seat's thread.
    ExitThread,
    /// Ends the seat's process with all its threads.
    ExitProcess,
}

/// Why a write stopped before the end of its stream.
#[derive(Clone, Copy, Debug, PartialEq, Eq)]
pub enum Stop {
    /// The next command couldn't be read, or memory or the history ended.
    Fault(Fault),
    /// The last command run was refused.
    Cause(Cause),
}

/// The answer to a request.
#[derive(Drop, Debug)]
pub enum Answer {
    /// The process is open, or the thread attached.
    Opened,
    /// The process is the context manager, or what it is told of its one-way flooding is set.
    Set,
    /// The thread or the process has ended.
    Exited,
    /// Commands were run.
    Wrote {
        /// How many bytes the commands had that were run; one that was refused counts.
        consumed: u32,
        /// The commands that changed nothing, and why.
        notes: Notes,
        /// Why it stopped, if before the end of the stream.
        stop: Option<Stop>,
    },
    /// What was read.
    Got {
        /// The returns' bytes.
        stream: Bytes,
        /// The data of the transaction or reply among them, if any.
        bytes: Bytes,
        /// Where its objects begin in the data, eight bytes each.
        offsets: Bytes,
    },
    /// The request was refused.
    Refused(Fault),
}

/// One step of a history.
#[derive(Drop, Debug)]
pub enum Step {
    /// As the request of that name.
    Open {
        pid: u32,
        euid: u32,
        window: u32,
    },
    /// As the request of that name.
    Attach {
        pid: u32,
    },
    /// As the request of that name.
    SetManager,
    /// As the request of that name.
    SetSpam {
        on: bool,
    },
    /// One command of a write.
    Command {
        /// What stands there in the stream.
        command: Command,
        /// The parcel of a transaction or reply, if its area has it.
        parcel: Option<Parcel>,
    },
    /// As the request of that name.
    Read {
        limit: u32,
    },
    /// As the request of that name.
    ExitThread,
    /// As the request of that name.
    ExitProcess,
}

impl Step {
    /// The same step again, in memory of its own.
    pub fn copied(&self) -> Result<Step, AllocError>
        ensures { IfOk result (λ s. s ≡ self.now) }
    {
        Ok(match self {
            Step::Open { pid, euid, window } => Step::Open {
                pid: *pid,
                euid: *euid,
                window: *window,
            },
            Step::Attach { pid } => Step::Attach { pid: *pid },
            Step::SetManager => Step::SetManager,
            Step::SetSpam { on } => Step::SetSpam { on: *on },
            Step::Command { command, parcel } => Step::Command {
                command: *command,
                parcel: parcel_copied(parcel)?,
            },
            Step::Read { limit } => Step::Read { limit: *limit },
            Step::ExitThread => Step::ExitThread,
            Step::ExitProcess => Step::ExitProcess,
        })
    }
}

fn parcel_copied(parcel: &Option<Parcel>) -> Result<Option<Parcel>, AllocError>
    ensures { IfOk result (λ p. p ≡ parcel.now) }
{
    match parcel {
        Some(parcel) => Ok(Some(parcel.copied()?)),
        None => Ok(None),
    }
}

/// What comes of a step, from which the answer to its request is made.
#[derive(Drop, Debug)]
pub enum StepAnswer {
    /// The process is open, or the thread attached.
    Opened,
    /// The process is the context manager, or what it is told of its one-way flooding is set.
    Set,
    /// The thread or the process has ended.
    Exited,
    /// The command was run.
    Accepted,
    /// The command changed nothing.
    Noted(Note),
    /// The command was refused, and what follows it isn't run.
    Stopped(Cause),
    /// What was read.
    Got {
        /// The returns' bytes.
        stream: Bytes,
        /// The data of the transaction or reply among them, if any.
        bytes: Bytes,
        /// Where its objects begin in the data, eight bytes each.
        offsets: Bytes,
    },
    /// The step was refused, and changed nothing.
    Refused(Fault),
}

impl StepAnswer {
    /// The same answer again, in memory of its own.
    pub fn copied(&self) -> Result<StepAnswer, AllocError>
        ensures { IfOk result (λ a. a ≡ self.now) }
    {
        Ok(match self {
            StepAnswer::Opened => StepAnswer::Opened,
            StepAnswer::Set => StepAnswer::Set,
            StepAnswer::Exited => StepAnswer::Exited,
            StepAnswer::Accepted => StepAnswer::Accepted,
            StepAnswer::Noted(note) => StepAnswer::Noted(*note),
            StepAnswer::Stopped(cause) => StepAnswer::Stopped(*cause),
            StepAnswer::Got {
                stream,
                bytes,
                offsets,
            } => StepAnswer::Got {
                stream: stream.copied()?,
                bytes: bytes.copied()?,
                offsets: offsets.copied()?,
            },
            StepAnswer::Refused(fault) => StepAnswer::Refused(*fault),
        })
    }
}

/// One step of a history, by a seat, with its answer.
#[derive(Drop, Debug)]
pub struct Entry {
    /// Who made the step.
    pub seat: u32,
    /// What it did.
    pub step: Step,
    /// What came back.
    pub answer: StepAnswer,
}
