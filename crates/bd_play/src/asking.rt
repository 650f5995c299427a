//! Questions about the journal in a file.

use crate::inquiries::Inquiry;
use crate::sources::judged_in;
use bd_player::{DONE, FAULT, Judged, ProgramFault, Untold, answer, print_unlawful, tell};
use std::io::{Eprint, Write};
use std::rt::Files;
use std::time::Clock;

// The status where this came of a question. Of an output that failed it is told in the end.
fn status_of<E: Write>(came: Result<bool, Untold>, err: &mut E) -> u8 {
    match came {
        Ok(true) => DONE,
        Ok(false) | Err(Untold::Output) => FAULT,
        Err(Untold::OutOfRange) => tell(ProgramFault::Arguments, err),
        Err(Untold::Memory) => tell(ProgramFault::Memory, err),
    }
}

/// Answers a question about the journal in a file.
pub fn ask<H: AllocGlobal + Files + Input + Clock + Eprint, W: Write, E: Write>(
    rt: &H,
    inquiry: Inquiry<'_>,
    out: &mut W,
    err: &mut E,
) -> u8 {
    let Inquiry { source, question } = inquiry;
    match judged_in(rt, source) {
        Ok(Judged::History(record)) => status_of(answer(rt.alloc(), &record, question, out), err),
        Ok(Judged::Unlawful { at, .. }) => print_unlawful(u64::from(at), out),
        Err(fault) => tell(fault, err),
    }
}
