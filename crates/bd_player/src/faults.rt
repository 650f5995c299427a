//! What the program ends with.

ghost use Rattle.std.specs.Prelude.{◌≡◌, ◌≢◌, ◌≤◌, ◌⊎◌, MatchResult, max};
ghost use Rattle.std.specs.IoError.{error_kind};
ghost use Rattle.bd_player.specs.{Workers.{fault_status}, declared.faults.ProgramFault.TheVariants.{Memory}};

use bd_script::Reason;
use std::io;
use std::io::{ErrorKind, Write};
use thiserror::Error;

/// The status where all lines are done, or the journal is lawful.
pub const DONE: u8 = 0;
/// The status of a fault, an unlawful journal, and an output line that couldn't be written.
pub const FAULT: u8 = 1;
/// The status where turns are used up.
pub const TURNS: u8 = 2;
/// The status where memory was refused.
pub const MEMORY: u8 = 3;

/// A fault that is told on standard error.
#[derive(Clone, Copy, Debug, PartialEq, Eq, Error)]
pub enum ProgramFault {
    /// The program's words make no sense.
    #[error("fault: arguments")]
    Arguments,
    /// A file can't be read, or the journal not be written.
    #[error("fault: file")]
    File,
    /// The line of the script with this number is bad, and why.
    #[error("fault: line {0}\n{1}")]
    Line(u64, Reason),
    /// The journal can't be read.
    #[error("fault: journal")]
    Journal,
    /// Memory was refused outside of a call.
    #[error("fault: memory")]
    Memory,
    /// A seat's thread can't be started.
    #[error("fault: thread")]
    Thread,
    /// Something couldn't be written to standard output.
    #[error("fault: output")]
    Output,
}

impl From<io::Error> for ProgramFault {
    fn from(error: io::Error) -> ProgramFault {
        ProgramFault::File.or_memory(&error)
    }
}

impl ProgramFault {
    /// The status that the program ends with.
    pub fn status(self) -> u8
        ensures status { result ≡ fault_status self }
        ensures fails { 1 ≤ result }
    {
        match self {
            ProgramFault::Memory => MEMORY,
            _ => FAULT,
        }
    }

    /// This fault, or want of memory, if that is what the error says.
    pub fn or_memory(self, error: &io::Error) -> ProgramFault
        ensures either { (result ≡ self) ⊎ (result ≡ Memory) }
        ensures memory { error_kind error.now ≡ ErrorKind.OutOfMemory → result ≡ Memory }
        ensures other { error_kind error.now ≢ ErrorKind.OutOfMemory → result ≡ self }
    {
        match error.kind() {
            ErrorKind::OutOfMemory => ProgramFault::Memory,
            _ => self,
        }
    }
}

/// Tells a fault, and answers its status.
pub fn tell<E: Write>(fault: ProgramFault, err: &mut E) -> u8
    ensures status { result ≡ fault_status fault }
    ensures fails { 1 ≤ result }
{
    let _ = writeln!(err, "{fault}");
    fault.status()
}

/// This status, but at least that of a fault where something couldn't be written.
pub fn after_writing(written: io::Result<()>, status: u8) -> u8
    ensures { MatchResult written (λ _. result ≡ status) (λ _. result ≡ max status 1) }
{
    match written {
        Ok(()) => status,
        Err(_) => status.max(FAULT),
    }
}
