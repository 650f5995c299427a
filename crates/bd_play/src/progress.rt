//! How far a run or a check is, told on standard error.

use bd_audit::Watch;
use std::io::{Eprint, Write};
use std::time::{Clock, Instant};
use std::{fmt, io};

// How many times it is told of all.
const TIMES: u64 = 20;

/// How many of all are done, and how many a second.
#[derive(Drop)]
struct Reached<'a> {
    done: u64,
    all: u64,
    // What is counted.
    what: &'a str,
    millis: u128,
}

impl fmt::Display for Reached<'_> {
    fn fmt<W: fmt::Write>(&self, f: &mut fmt::Formatter<W>) -> fmt::Result {
        let Reached {
            done,
            all,
            what,
            ..
        } = self;
        write!(f, "{done} of {all} {what}")?;
        if self.millis > 0 {
            let rate = u128::from(self.done) * 1000 / self.millis;
            write!(f, ", {rate} a second")?;
        }
        Ok(())
    }
}

/// Tells now and then how many of all are done.
#[derive(Drop)]
pub struct Progress<'a, H> {
    rt: &'a H,
    what: &'a str,
    begun: Option<Instant>,
    // When it is told next.
    next: u64,
}

impl<'a, H: Clock + Eprint> Progress<'a, H> {
    /// Progress from now on, with nothing done yet.
    pub fn new(rt: &'a H, what: &'a str) -> Progress<'a, H> {
        Progress {
            rt,
            what,
            begun: Instant::now(rt).ok(),
            next: 0,
        }
    }

    // How long it has taken; 0 where the clock doesn't tell.
    fn millis(&self) -> u128 {
        match self.begun {
            Some(begun) => match begun.elapsed(self.rt) {
                Ok(elapsed) => elapsed.as_millis(),
                Err(_) => 0,
            },
            None => 0,
        }
    }

    /// So many of all are done. What can't be told is left out.
    pub fn reach(&mut self, done: u64, all: u64) {
        if done < self.next && done != all {
            return;
        }
        let reached = Reached {
            done,
            all,
            what: self.what,
            millis: self.millis(),
        };
        let _ = self.rt.eprintln(reached);
        self.next = done.saturating_add(all / TIMES + 1);
    }
}

impl<H: Clock + Eprint> Watch for Progress<'_, H> {
    ghost heard = { λ _ _ _. Unit {0} };

    fn follow(&mut self, entries: usize, all: usize) {
        self.reach(entries as u64, all as u64);
    }
}

/// How many lines end in these bytes.
pub fn lines_in(bytes: &[u8]) -> u64 {
    let mut lines: u64 = 0;
    for byte in bytes {
        if *byte == b'\n' {
            lines = lines.saturating_add(1);
        }
    }
    lines
}

/// A writer that tells how many lines of all were written.
#[derive(Drop)]
pub struct Counted<'a, W, H> {
    out: &'a mut W,
    progress: Progress<'a, H>,
    lines: u64,
    all: u64,
}

impl<'a, W: Write, H: Clock + Eprint> Counted<'a, W, H> {
    /// Counts the lines that are written from now on, of so many in all.
    pub fn new(out: &'a mut W, progress: Progress<'a, H>, all: u64) -> Counted<'a, W, H> {
        Counted {
            out,
            progress,
            lines: 0,
            all,
        }
    }
}

impl<W: Write, H: Clock + Eprint> Write for Counted<'_, W, H> {
    fn write(&mut self, buf: &[u8]) -> io::Result<usize> {
        let written = self.out.write(buf)?;
        let lines = lines_in(&buf[..written.min(buf.len())]);
        if lines > 0 {
            self.lines = self.lines.saturating_add(lines);
            self.progress.reach(self.lines, self.all);
        }
        Ok(written)
    }

    fn flush(&mut self) -> io::Result<()> {
        self.out.flush()
    }
}
