//! What a line prints.

ghost use Rattle.std.specs.Prelude.{◌≡◌};
ghost use Rattle.bd_player.specs.Workers.{said_of, said_status};

use crate::faults::{DONE, MEMORY, TURNS};
use bd_driver::{Outcome, Page, Served, Why};
use bd_journal::{cause_number, fault_number, note_number};
use bd_space::{Answer, Bytes, Notes, Stop};
use std::fmt;

/// What came of a line.
#[derive(Drop, Debug)]
pub enum Said {
    /// The request was run, by the steps from `from` up to and without `to`.
    Done { answer: Answer, from: u32, to: u32 },
    /// The request came back.
    Back(Why),
    /// It is handed over.
    Handed,
    /// The mailboxes were served.
    Served(Served),
    /// The page, as one look found it.
    Page(Page),
    /// The stamp that was waited for came.
    Passed,
    /// The turns are used up.
    Turns,
    /// Nothing was done.
    Idle,
}

impl Said {
    /// What came of a request.
    pub fn of_outcome(outcome: Outcome) -> Said
        ensures { result ≡ said_of outcome }
    {
        match outcome {
            Outcome::Done { answer, from, to } => Said::Done { answer, from, to },
            Outcome::Back { why, .. } => Said::Back(why),
            Outcome::Handed => Said::Handed,
        }
    }

    /// The status that it asks for. Where that isn't 0 the seat's later lines don't run.
    pub fn status(&self) -> u8
        ensures { result ≡ said_status self.now }
    {
        match self {
            Said::Turns => TURNS,
            Said::Back(Why::NoMemory) => MEMORY,
            _ => DONE,
        }
    }
}

// As many bytes are printed at once.
const RUN: usize = 32;

const DIGITS: &[u8; 16] = b"0123456789abcdef";

// Prints the first bytes in hex, as many as are printed at once.
fn print_run<W: fmt::Write>(bytes: &[u8], f: &mut fmt::Formatter<W>) -> fmt::Result {
    let mut digits = [0; 2 * RUN];
    let count = bytes.len().min(RUN);
    for at in 0..count {
        digits[2 * at] = DIGITS[usize::from(bytes[at] / 16)];
        digits[2 * at + 1] = DIGITS[usize::from(bytes[at] % 16)];
    }
    match str::from_utf8(&digits[..2 * count]) {
        Ok(text) => f.write_str(text),
        Err(_) => Err(fmt::Error),
    }
}

// Prints bytes in hex, or a dash for none, behind a space.
fn print_bytes<W: fmt::Write>(bytes: &Bytes, f: &mut fmt::Formatter<W>) -> fmt::Result {
    f.write_str(" ")?;
    if bytes.as_slice().is_empty() {
        return f.write_str("-");
    }
    for run in bytes.as_slice().chunks(RUN) {
        print_run(run, f)?;
    }
    Ok(())
}

// What was read: returns, and a parcel.
fn print_got<W: fmt::Write>(
    stream: &Bytes,
    bytes: &Bytes,
    offsets: &Bytes,
    f: &mut fmt::Formatter<W>,
) -> fmt::Result {
    f.write_str("got")?;
    print_bytes(stream, f)?;
    print_bytes(bytes, f)?;
    print_bytes(offsets, f)
}

// What came of a request, up to its places.
fn print_answer<W: fmt::Write>(answer: &Answer, f: &mut fmt::Formatter<W>) -> fmt::Result {
    match answer {
        Answer::Opened => f.write_str("opened"),
        Answer::Set => f.write_str("set"),
        Answer::Exited => f.write_str("exited"),
        Answer::Wrote { consumed, .. } => write!(f, "wrote {consumed}"),
        Answer::Got {
            stream,
            bytes,
            offsets,
        } => print_got(stream, bytes, offsets, f),
        Answer::Refused(fault) => {
            let number = fault_number(*fault);
            write!(f, "refused F{number}")
        }
    }
}

// What a write left out, each with the index of its command.
fn print_notes<W: fmt::Write>(notes: &Notes, f: &mut fmt::Formatter<W>) -> fmt::Result {
    for (index, note) in notes.as_slice() {
        let number = note_number(*note);
        write!(f, " {index}:N{number}")?;
    }
    Ok(())
}

// Why a write stopped: a letter and a number.
fn stop_text(stop: Stop) -> (&'static str, u8) {
    match stop {
        Stop::Fault(fault) => ("F", fault_number(fault)),
        Stop::Cause(cause) => ("X", cause_number(cause)),
    }
}

// What a write says behind its places.
fn print_rest<W: fmt::Write>(
    notes: &Notes,
    stop: Option<Stop>,
    f: &mut fmt::Formatter<W>,
) -> fmt::Result {
    print_notes(notes, f)?;
    match stop {
        Some(stop) => {
            let (letter, number) = stop_text(stop);
            write!(f, " stop {letter}{number}")
        }
        None => Ok(()),
    }
}

// What came of a request that was run, by the steps between these places.
fn print_done<W: fmt::Write>(
    answer: &Answer,
    from: u32,
    to: u32,
    f: &mut fmt::Formatter<W>,
) -> fmt::Result {
    print_answer(answer, f)?;
    write!(f, " {from} {to}")?;
    match answer {
        Answer::Wrote { notes, stop, .. } => print_rest(notes, *stop, f),
        _ => Ok(()),
    }
}

// Why a request came back. One that found the driver taken has used its turns up.
fn back_text(why: Why) -> &'static str {
    match why {
        Why::NoMemory => "back memory",
        Why::HistoryFull => "back full",
        Why::Withdrawn => "back withdrawn",
        Why::Taken => "turns",
    }
}

fn print_page<W: fmt::Write>(page: &Page, f: &mut fmt::Formatter<W>) -> fmt::Result {
    let stamp = page.stamp;
    let ready = page.ready;
    let taken = u8::from(page.taken);
    write!(f, "page {stamp} {ready} {taken}")
}

impl fmt::Display for Said {
    fn fmt<W: fmt::Write>(&self, f: &mut fmt::Formatter<W>) -> fmt::Result {
        match self {
            Said::Done { answer, from, to } => print_done(answer, *from, *to, f),
            Said::Back(why) => f.write_str(back_text(*why)),
            Said::Turns => f.write_str("turns"),
            Said::Handed => f.write_str("handed"),
            Said::Served(Served::Taken) => f.write_str("served taken"),
            Said::Served(Served::Ran { picked }) => write!(f, "served {picked}"),
            Said::Page(page) => print_page(page, f),
            Said::Passed => f.write_str("passed"),
            Said::Idle => f.write_str("idle"),
        }
    }
}
