//! Journals that were cut off: judged, and mended.

use crate::draft::draft_for;
use crate::files::is_kept_apart;
use crate::progress::Progress;
use crate::sources::{BYTES, Source, opened};
use bd_audit::Unwatched;
use bd_player::{ProgramFault, Whole, check_cut, print_whole, tell, whole_from};
use std::io::{Eprint, Write};
use std::rt::Files;
use std::time::Clock;

/// A journal that is to be mended.
#[derive(Clone, Copy)]
pub struct Mend<'a> {
    /// The name of the journal's file, or the word for standard input.
    pub file: &'a str,
    /// Where the journal of what is whole of it is to stand.
    pub place: &'a str,
}

/// Judges what is whole of the journal in a file.
pub fn check_cut_file<H: AllocGlobal + Files + Input + Clock + Eprint, W: Write, E: Write>(
    rt: &H,
    source: Source<'_>,
    out: &mut W,
    err: &mut E,
) -> u8 {
    let mut journal = match opened(rt, source.file) {
        Ok(journal) => journal,
        Err(unread) => return unread.tell(source.file, err),
    };
    if source.progress {
        let mut watch = Progress::new(rt, BYTES);
        check_cut(rt.alloc(), &mut journal, &mut watch, out, err)
    } else {
        check_cut(rt.alloc(), &mut journal, &mut Unwatched, out, err)
    }
}

// Writes the journal of what is whole of another, which is handed out.
fn mended<H: AllocGlobal + Files + Input>(rt: &H, mend: Mend<'_>) -> Result<Whole, ProgramFault> {
    if !is_kept_apart(rt, mend.place, mend.file) {
        return Err(ProgramFault::Arguments);
    }
    let mut journal = opened(rt, mend.file)?;
    let whole = whole_from(rt.alloc(), &mut journal)?;
    let draft = draft_for(rt, mend.place)?;
    draft.finish(rt, &whole.record)?;
    Ok(whole)
}

/// Writes the journal of what is whole of the one in a file. What stands at its place stays until it is all written.
pub fn mend_file<H: AllocGlobal + Files + Input, W: Write, E: Write>(
    rt: &H,
    mend: Mend<'_>,
    out: &mut W,
    err: &mut E,
) -> u8 {
    match mended(rt, mend) {
        Ok(whole) => {
            let entries = whole.record.entries.len();
            print_whole("mended", entries, whole.left, out, err)
        }
        Err(fault) => tell(fault, err),
    }
}
