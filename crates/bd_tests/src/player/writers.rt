//! Writers that fail: after some bytes, at one line, or at their flush.

use super::playing::{Printed, checked, history_of, written};
use crate::same::{holds, same};
use bd_driver::Why;
use bd_player::{
    DONE, FAULT, MEMORY, Manner, ProgramFault, Said, TURNS, check_journal, play, play_from, print,
    tell, write_journal,
};
use bd_script::Reason;
use bd_spelling::Record;
use std::alloc::Global;
use std::io;
use std::io::{ErrorKind, Write};
use std::process::Abort;
use std::sync::Wait;
use std::test::Fail;
use std::thread::Threads;

const SCRIPT: &str = "\
seats 2
0 open 100 1000 4096
0 manager
0 enter
1 open 200 2000 4096
1 tx 0 7 0 6869 -
0 read 256
0 reply 0 0 2a -
1 read 256
1 exitprocess
";

const MANY: u32 = 1000;

// A writer that keeps this many bytes and then fails.
#[derive(Drop)]
struct Full {
    kept: Vec<u8>,
    room: usize,
}

impl Write for Full {
    fn write(&mut self, buf: &[u8]) -> io::Result<usize> {
        let more = buf.len().min(self.room);
        if more == 0 && !buf.is_empty() {
            return Err(io::Error::from(ErrorKind::StorageFull));
        }
        self.kept.extend_from_slice(&buf[..more])?;
        self.room -= more;
        Ok(more)
    }

    fn flush(&mut self) -> io::Result<()> {
        Ok(())
    }
}

// A writer that keeps all bytes, and whose flush fails.
#[derive(Drop)]
struct Unflushed {
    kept: Vec<u8>,
}

impl Write for Unflushed {
    fn write(&mut self, buf: &[u8]) -> io::Result<usize> {
        self.kept.write(buf)
    }

    fn flush(&mut self) -> io::Result<()> {
        Err(io::Error::from(ErrorKind::StorageFull))
    }
}

// A writer that fails once, where it has this many bytes, and keeps what it is given before and after.
#[derive(Drop)]
struct Gap {
    kept: Vec<u8>,
    at: usize,
    failed: bool,
}

impl Write for Gap {
    fn write(&mut self, buf: &[u8]) -> io::Result<usize> {
        if self.kept.len() == self.at && !self.failed {
            self.failed = true;
            return Err(io::Error::from(ErrorKind::StorageFull));
        }
        self.kept.write(buf)
    }

    fn flush(&mut self) -> io::Result<()> {
        Ok(())
    }
}

// With so much room the journal is written or not, and this is kept of it.
fn see_kept(
    rt: &(impl Abort + Alloc<A = Global>),
    history: &Record,
    room: usize,
    is_written: bool,
    wanted: &[u8],
) {
    let kept = Vec::new(rt.alloc());
    let mut out = Full { kept, room };
    let written = write_journal(history, &mut out);
    same(rt, "whether it is written", written, is_written);
    same(rt, "what is kept", out.kept.as_slice(), wanted);
}

#[test]
fn leaves_a_beginning_of_the_journal(rt: HostRuntime) -> Result<(), Fail> {
    let history = history_of(rt.alloc(), SCRIPT)?;
    let whole = written(rt.alloc(), &history)?;
    holds(&rt, "it is long", whole.len() > 300);
    for room in 0..whole.len() {
        see_kept(&rt, &history, room, false, &whole[..room]);
    }
    see_kept(&rt, &history, whole.len(), true, &whole);
    Ok(())
}

#[test]
fn tells_of_a_flush_that_fails(rt: HostRuntime) -> Result<(), Fail> {
    let history = history_of(rt.alloc(), SCRIPT)?;
    let whole = written(rt.alloc(), &history)?;
    let kept = Vec::new(rt.alloc());
    let mut out = Unflushed { kept };
    let written = write_journal(&history, &mut out);
    same(&rt, "whether it is written", written, false);
    same(&rt, "what is kept", out.kept.as_slice(), whole.as_slice());
    Ok(())
}

const FOUR: &str = "seats 2\n0 open 100 1000 4096\n0 manager\n0 enter\n1 open 200 2000 4096\n";

// Plays it with a writer that fails once, at this byte.
fn played_with_a_gap(alloc: Global, at: usize) -> (Printed, Option<Record>) {
    let kept = Vec::new(alloc);
    let failed = false;
    let mut out = Gap { kept, at, failed };
    let mut err = Vec::new(alloc);
    let run = play(alloc, &mut FOUR.as_bytes(), MANY, &mut out, &mut err);
    let status = run.status;
    let out = out.kept;
    (Printed { out, err, status }, run.history)
}

// The line after one that couldn't be written runs and is printed, and the status tells.
#[test]
fn goes_on_after_a_line_that_is_lost(rt: HostRuntime) -> Result<(), Fail> {
    let (printed, history) = played_with_a_gap(rt.alloc(), "2: opened 0 1\n".len());
    let prints = "2: opened 0 1\n4: wrote 4 2 3\n5: opened 3 4\n";
    printed.expect(&rt, "a line is lost", prints, "", FAULT);
    let history = history.ok_or("a script with no bad line runs")?;
    same(&rt, "steps", history.entries.len(), 4);
    Ok(())
}

#[test]
fn tells_of_a_verdict_that_is_lost(rt: HostRuntime) -> Result<(), Fail> {
    let history = history_of(rt.alloc(), SCRIPT)?;
    let journal = written(rt.alloc(), &history)?;
    let kept = Vec::new(rt.alloc());
    let mut out = Full { kept, room: 0 };
    let mut err = Vec::new(rt.alloc());
    let status = check_journal(rt.alloc(), &mut journal.as_slice(), &mut out, &mut err);
    holds(&rt, "the status", status == FAULT && err.is_empty());
    Ok(())
}

// The status after what is said, where it was this.
#[test]
fn keeps_the_greatest_status(rt: HostRuntime) -> Result<(), Fail> {
    let rows = [
        (Said::Back(Why::HistoryFull), DONE, 0),
        (Said::Back(Why::NoMemory), DONE, 3),
        (Said::Turns, DONE, 2),
        (Said::Turns, MEMORY, 3),
        (Said::Passed, TURNS, 2),
        (Said::Idle, FAULT, 1),
    ];
    let mut out = Vec::new(rt.alloc());
    for (said, status, want) in &rows {
        same(&rt, "the status", print(7, said, &mut out, *status), *want);
    }
    let want = "7: back full\n7: back memory\n7: turns\n7: turns\n7: passed\n7: idle\n";
    same(&rt, "the lines", str::from_utf8(out.as_slice())?, want);
    Ok(())
}

// The status after what can't be written.
#[test]
fn keeps_it_where_a_line_is_lost(rt: HostRuntime) {
    for (said, want) in &[(Said::Passed, 1), (Said::Turns, 2)] {
        let kept = Vec::new(rt.alloc());
        let mut lost = Full { kept, room: 0 };
        same(&rt, "the status", print(1, said, &mut lost, DONE), *want);
    }
}

// The faults with their texts and statuses.
static FAULTS: [(ProgramFault, &str, u8); 7] = [
    (ProgramFault::Arguments, "fault: arguments\n", 1),
    (ProgramFault::File, "fault: file\n", 1),
    (
        ProgramFault::Line(
            7,
            Reason {
                column: 3,
                word: 2,
                expected: "a verb",
                found: "this",
            },
        ),
        "fault: line 7\ncolumn 3, word 2: expected a verb, found this\n",
        1,
    ),
    (ProgramFault::Journal, "fault: journal\n", 1),
    (ProgramFault::Memory, "fault: memory\n", 3),
    (ProgramFault::Thread, "fault: thread\n", 1),
    (ProgramFault::Output, "fault: output\n", 1),
];

#[test]
fn tells_each_fault(rt: HostRuntime) {
    for (fault, text, status) in &FAULTS {
        let mut err = Vec::new(rt.alloc());
        same(&rt, "the status", tell(*fault, &mut err), *status);
        same(&rt, "the text", err.as_slice(), text.as_bytes());
    }
}

// One turn is enough for what needs one.
#[test]
fn uses_the_last_turn(rt: HostRuntime) -> Result<(), Fail> {
    let script = "seats 1\n0 open 100 1000 4096\n0 await 1\n0 await 2\n0 manager\n";
    let mut out = Vec::new(rt.alloc());
    let mut err = Vec::new(rt.alloc());
    let status = play(rt.alloc(), &mut script.as_bytes(), 1, &mut out, &mut err).status;
    let prints = "2: opened 0 1\n3: passed\n4: turns\n";
    Printed { out, err, status }.expect(&rt, "one turn", prints, "", 2);
    Ok(())
}

const OF_THREADS: &str =
    "seats 2\n0 await 9\n0 open 100 1000 4096\n1 open 200 2000 4096\n1 manager\n";

const THREE_TURNS: Manner = Manner {
    threads: true,
    turns: 3,
};

fn played_by_threads<H: AllocGlobal + Threads + Wait + Sync>(rt: &H) -> (Printed, Option<Record>) {
    let mut out = Vec::new(rt.alloc());
    let mut err = Vec::new(rt.alloc());
    let mut script = OF_THREADS.as_bytes();
    let run = play_from(rt, &mut script, THREE_TURNS, &mut out, &mut err);
    let status = run.status;
    (Printed { out, err, status }, run.history)
}

// Each seat stops at its turns, and the others go on; the later seat's success doesn't hide them.
#[test]
fn stops_a_threaded_seat_at_its_turns(rt: HostRuntime) -> Result<(), Fail> {
    let (printed, history) = played_by_threads(&rt);
    let prints = "2: turns\n4: opened 0 1\n5: set 1 2\n";
    printed.expect(&rt, "threads", prints, "", 2);
    let history = history.ok_or("a threaded run has a history too")?;
    let journal = written(rt.alloc(), &history)?;
    checked(rt.alloc(), &journal).expect(&rt, "threads", "lawful 2\n", "", 0);
    Ok(())
}
