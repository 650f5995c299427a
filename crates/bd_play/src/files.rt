//! The program's files.

use crate::arguments::Run;
use crate::draft::{Draft, draft_for};
use crate::progress::{Counted, Progress, lines_in};
use crate::sources::{ENTRIES, INPUT, Source, opened};
use bd_player::{Played, ProgramFault, check_journal, check_watched, play_from, tell};
use bd_spelling::Record;
use std::fs;
use std::io::{Eprint, Read, Write};
use std::os::unix::fs::MetadataExt;
use std::rt::Files;
use std::sync::Wait;
use std::thread::Threads;
use std::time::Clock;

// The path by which standard input can be compared with other files.
const INPUT_FILE: &str = "/dev/stdin";

// The path by which standard output can be compared with other files.
const OUTPUT_FILE: &str = "/dev/stdout";

// Whether both paths lead to one file, by whatever names.
fn is_same<H: Files>(rt: &H, path: &str, other: &str) -> bool {
    if path == other {
        return true;
    }
    match (fs::metadata(rt, path), fs::metadata(rt, other)) {
        (Ok(one), Ok(other)) => {
            one.is_file() && one.dev() == other.dev() && one.ino() == other.ino()
        }
        _ => false,
    }
}

/// Whether a journal's place is neither the file that is read, or standard input, nor what is printed to.
pub fn is_kept_apart<H: Files>(rt: &H, place: &str, file: &str) -> bool {
    let read = if file == INPUT { INPUT_FILE } else { file };
    !is_same(rt, place, read) && !is_same(rt, place, OUTPUT_FILE)
}

// A draft of the run's journal, where one is to be written: not of a file that the run reads or prints to.
fn draft_of<H: AllocGlobal + Files>(
    rt: &H,
    run: Run<'_>,
) -> Result<Option<Draft<H::File>>, ProgramFault> {
    let Some(journal) = run.journal else {
        return Ok(None);
    };
    if !is_kept_apart(rt, journal, run.file) {
        return Err(ProgramFault::Arguments);
    }
    Ok(Some(draft_for(rt, journal)?))
}

// Makes a draft the journal of a run, or takes it away where nothing ran.
fn settle<H: AllocGlobal + Files>(
    rt: &H,
    draft: Option<Draft<H::File>>,
    history: &Option<Record>,
) -> Result<(), ProgramFault> {
    match (draft, history) {
        (Some(draft), Some(history)) => draft.finish(rt, history),
        (Some(draft), None) => {
            draft.abandon(rt);
            Ok(())
        }
        (None, _) => Ok(()),
    }
}

// How many lines of a script run: all but the first.
fn lines_of(script: &[u8]) -> u64 {
    match script.last() {
        Some(b'\n') => lines_in(script).saturating_sub(1),
        _ => lines_in(script),
    }
}

// Plays a script that a reader has, and tells how far it is.
fn play_counted<H, R: Read, W: Write, E: Write>(
    rt: &H,
    script: &mut R,
    run: Run<'_>,
    out: &mut W,
    err: &mut E,
) -> Played
where
    H: AllocGlobal + Clock + Eprint + Threads + Wait + Sync,
{
    let mut bytes = Vec::new(rt.alloc());
    if let Err(error) = script.read_to_end(&mut bytes) {
        return Played::fault(ProgramFault::from(error), err);
    }
    let progress = Progress::new(rt, "lines");
    let all = lines_of(&bytes);
    let mut out = Counted::new(out, progress, all);
    play_from(rt, &mut bytes.as_slice(), run.manner, &mut out, err)
}

// Plays a script that a reader has.
fn run_script<H, R: Read, W: Write, E: Write>(
    rt: &H,
    script: &mut R,
    run: Run<'_>,
    out: &mut W,
    err: &mut E,
) -> u8
where
    H: AllocGlobal + Files + Clock + Eprint + Threads + Wait + Sync,
{
    let draft = match draft_of(rt, run) {
        Ok(draft) => draft,
        Err(fault) => return tell(fault, err),
    };
    let played = if run.progress {
        play_counted(rt, script, run, out, err)
    } else {
        play_from(rt, script, run.manner, out, err)
    };
    match settle(rt, draft, &played.history) {
        Ok(()) => played.status,
        Err(fault) => played.status.max(tell(fault, err)),
    }
}

/// Plays the script in a file, and writes the journal of the run where one is asked for.
pub fn run_file<H, W: Write, E: Write>(rt: &H, run: Run<'_>, out: &mut W, err: &mut E) -> u8
where
    H: AllocGlobal + Files + Input + Clock + Eprint + Threads + Wait + Sync,
{
    match opened(rt, run.file) {
        Ok(mut script) => run_script(rt, &mut script, run, out, err),
        Err(unread) => unread.tell(run.file, err),
    }
}

/// Judges the journal in a file.
pub fn check_file<H: AllocGlobal + Files + Input + Clock + Eprint, W: Write, E: Write>(
    rt: &H,
    source: Source<'_>,
    out: &mut W,
    err: &mut E,
) -> u8 {
    let mut journal = match opened(rt, source.file) {
        Ok(journal) => journal,
        Err(unread) => return unread.tell(source.file, err),
    };
    if source.progress {
        let mut watch = Progress::new(rt, ENTRIES);
        check_watched(rt.alloc(), &mut journal, &mut watch, out, err)
    } else {
        check_journal(rt.alloc(), &mut journal, out, err)
    }
}
