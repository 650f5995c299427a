//! Where the program reads: files, and standard input.

ghost use Rattle.std.specs.Prelude.{IfOk};
ghost use Rattle.bd_player.specs.Verdicts.{IsAsSaid};

use crate::progress::Progress;
use bd_player::{Judged, ProgramFault, judged_from, judged_watched, tell};
use either::Either;
use std::fs::File;
use std::io;
use std::io::{Eprint, ErrorKind, Write};
use std::rt::Files;
use std::time::Clock;

/// Standard input, as a word.
pub const INPUT: &str = "-";

/// What is counted of a journal.
pub const ENTRIES: &str = "entries";

/// What is counted of one that was cut off.
pub const BYTES: &str = "bytes";

/// That a file can't be read.
#[derive(Clone, Copy)]
pub struct Unread {
    fault: ProgramFault,
    why: ErrorKind,
}

impl From<io::Error> for Unread {
    fn from(error: io::Error) -> Unread {
        let why = error.kind();
        Unread {
            fault: ProgramFault::from(error),
            why,
        }
    }
}

impl From<Unread> for ProgramFault {
    fn from(unread: Unread) -> ProgramFault {
        unread.fault
    }
}

impl Unread {
    // Why, in words.
    fn why(self) -> &'static str {
        match self.why {
            ErrorKind::NotFound => "there is no such file",
            ErrorKind::PermissionDenied => "its permissions forbid to read it",
            _ => "it can't be opened",
        }
    }

    /// Tells the fault, and in a line of its own which file it is and why.
    pub fn tell<E: Write>(self, file: &str, err: &mut E) -> u8 {
        let status = tell(self.fault, err);
        if self.fault == ProgramFault::File {
            let _ = writeln!(err, "{file}: {}", self.why());
        }
        status
    }
}

/// A reader of what is in the file of this name, or of standard input.
pub fn opened<H: Files + Input>(rt: &H, file: &str) -> Result<Either<H::Reader, H::File>, Unread> {
    if file == INPUT {
        return Ok(Either::Left(rt.reader()));
    }
    match File::open(rt, file) {
        Ok(file) => Ok(Either::Right(file)),
        Err(error) => Err(Unread::from(error)),
    }
}

/// A journal that is to be judged.
#[derive(Clone, Copy)]
pub struct Source<'a> {
    /// The name of the journal's file, or the word for standard input.
    pub file: &'a str,
    /// Whether it is told how far its judgment is.
    pub progress: bool,
}

/// Reads a journal and judges its record.
pub fn judged_in<H: AllocGlobal + Files + Input + Clock + Eprint>(
    rt: &H,
    source: Source<'_>,
) -> Result<Judged, ProgramFault>
    ensures { IfOk result IsAsSaid }
{
    let mut journal = match opened(rt, source.file) {
        Ok(journal) => journal,
        Err(unread) => return Err(ProgramFault::from(unread)),
    };
    if source.progress {
        judged_watched(rt.alloc(), &mut journal, &mut Progress::new(rt, ENTRIES))
    } else {
        judged_from(rt.alloc(), &mut journal)
    }
}
