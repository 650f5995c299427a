//! The journal of a run, on its way to its file.

use bd_player::{ProgramFault, write_journal};
use bd_spelling::Record;
use std::fs::{OpenFile, OpenOptions, Permissions};
use std::io::{BufWriter, ErrorKind};
use std::rt::Files;
use std::{fs, io};

// What a journal's name is followed by until the journal is whole.
const PART: &str = ".part";

/// A file for a journal. What stands at the journal's place stays as it is until the journal is whole.
#[derive(Drop)]
pub struct Draft<F: Drop> {
    file: F,
    // None where the place is a device or a pipe, which can't be replaced and is written itself.
    beside: Option<Beside>,
}

// Where the file stands, and what is to become of it.
#[derive(Drop)]
struct Beside {
    part: String,
    place: String,
    // Those of the file that it replaces.
    permissions: Option<Permissions>,
}

// A file beside this place, that wasn't there before.
fn make_part<H: AllocGlobal + Files>(
    rt: &H,
    place: String,
    permissions: Option<Permissions>,
) -> io::Result<Draft<H::File>> {
    let mut part = String::from_str(rt.alloc(), place.as_str())?;
    part.push_str(PART)?;
    let mut how = OpenOptions::new();
    how.write(true).create_new(true);
    let file = how.open(rt, part.as_str())?;
    let beside = Beside {
        part,
        place,
        permissions,
    };
    Ok(Draft {
        file,
        beside: Some(beside),
    })
}

/// A file for the journal that is to stand at this place.
///
/// # Errors
/// Where no file can be written there, or one stands beside it that another run left.
pub fn draft_for<H: AllocGlobal + Files>(rt: &H, place: &str) -> io::Result<Draft<H::File>> {
    let mut how = OpenOptions::new();
    how.write(true);
    let file = match how.open(rt, place) {
        Ok(file) => file,
        Err(error) if error.kind() == ErrorKind::NotFound && !place.is_empty() => {
            return make_part(rt, String::from_str(rt.alloc(), place)?, None);
        }
        Err(error) => return Err(error),
    };
    let found = file.metadata()?;
    if !found.is_file() {
        return Ok(Draft { file, beside: None });
    }
    let place = fs::canonicalize(rt, place)?.into_string();
    make_part(rt, place, Some(found.permissions()))
}

// Writes a journal to a file, all of it.
fn write_file<H: AllocGlobal, F: OpenFile + io::Write + Drop>(
    rt: &H,
    file: F,
    history: &Record,
    permissions: Option<Permissions>,
) -> Result<(), ProgramFault> {
    if let Some(permissions) = permissions {
        file.set_permissions(permissions)?;
    }
    let mut out = BufWriter::new(rt.alloc(), file)?;
    if write_journal(history, &mut out) {
        Ok(())
    } else {
        Err(ProgramFault::File)
    }
}

impl<F: OpenFile + io::Write + Drop> Draft<F> {
    /// Writes the journal and puts it in its place. Where that fails, what stands there stays.
    pub fn finish<H: AllocGlobal + Files>(
        self,
        rt: &H,
        history: &Record,
    ) -> Result<(), ProgramFault> {
        let Draft { file, beside } = self;
        let Some(beside) = beside else {
            return write_file(rt, file, history, None);
        };
        let Beside {
            part,
            place,
            permissions,
        } = beside;
        let finished = match write_file(rt, file, history, permissions) {
            Ok(()) => fs::rename(rt, part.as_str(), place.as_str()).map_err(ProgramFault::from),
            Err(fault) => Err(fault),
        };
        if finished.is_err() {
            remove(rt, part.as_str());
        }
        finished
    }

    /// Takes the file away, where it stands beside its place.
    pub fn abandon<H: Files>(self, rt: &H) {
        if let Some(beside) = &self.beside {
            remove(rt, beside.part.as_str());
        }
    }
}

// Takes a file away, if that can be.
fn remove<H: Files>(rt: &H, name: &str) {
    let _ = fs::remove_file(rt, name);
}
