//! Scripts: lines that run, and the first bad line.

use crate::same::{holds, same};
use bd_codec::read_command;
use bd_script::{Line, ScriptError, Verb, read_script};
use bd_space::Request;
use bd_uapi::{Command, TransactionData, TransactionFlags};
use bitflags::Flags;
use std::alloc::Global;
use std::test::Fail;

// The most bytes that a word of hex spells, and below it the most offsets that a word has.
const MOST_BYTES: usize = 4_194_304;

const MOST_OFFSETS: usize = 524_288;

// A text, and then a piece of it so many times again.
fn repeated(
    alloc: Global,
    text: &[u8],
    piece: &[u8],
    times: usize,
) -> Result<Vec<u8>, std::alloc::AllocError> {
    let mut all = Vec::from_slice(alloc, text)?;
    for _ in 0..times {
        all.extend_from_slice(piece)?;
    }
    Ok(all)
}

// The number of the bad line of a script.
fn bad_line(alloc: Global, text: &[u8]) -> Option<u64> {
    match read_script(alloc, text) {
        Err(ScriptError::Line(number)) => Some(number),
        _ => None,
    }
}

// The stream and the area of the write that a script's one line asks for.
fn write_in(alloc: Global, text: &[u8]) -> Result<(Vec<u8>, Vec<u8>), Fail> {
    let script = read_script(alloc, text).ok().ok_or("a script")?;
    for line in script.lines {
        if let Verb::Call(Request::Write { stream, area }) = line.verb {
            return Ok((stream.into_vec(), area.into_vec()));
        }
    }
    Err("a write")?
}

#[test]
fn first_bad_line(rt: HostRuntime) {
    let alloc = rt.alloc();
    let cases: [(&[u8], u64); 20] = [
        (b"", 0),
        (b"\n\n# seats 1\n", 0),
        (b"seats 0", 1),
        (b"seats 32\n", 1),
        (b"seats 1 2\n", 1),
        (b"0 look\n", 1),
        (b"\n   \nseats 1\n", 2),
        (b"seats 1\n   \n0 look\n", 2),
        (b"seats 1\r\n", 1),
        (b"# a\tb\nseats 1\n", 1),
        (b"# caf\xc3\xa9\n", 1),
        (b"seats 1\n # no comment\n", 2),
        (b"seats 2\n1 look\n2 look\n0 nothing\n", 3),
        (b"seats 1\n0 look more", 2),
        (b"seats 1\n0\n", 2),
        (b"seats 1\n0 post\n", 2),
        (b"seats 1\n0 post look\n", 2),
        (b"seats 1\n0 read 4294967296\n", 2),
        (b"seats 1\n0 spam 2\n", 2),
        (b"seats 1\n0 spam\n", 2),
    ];
    for (text, number) in cases {
        same(&rt, "the bad line", bad_line(alloc, text), Some(number));
    }
}

// A line's number, its seat, and what stands for its verb.
fn seen(line: &Line) -> (u64, u32, char) {
    let verb = match line.verb {
        Verb::Look => 'l',
        Verb::Await(7) => 'a',
        Verb::Post(Request::ExitThread) => 'p',
        Verb::Post(Request::SetSpam { on: false }) => 'n',
        Verb::Call(Request::SetSpam { on: true }) => 's',
        _ => '-',
    };
    (line.number, line.seat, verb)
}

const PLACES: [(u64, u32, char); 5] = [
    (4, 1, 'l'),
    (5, 0, 'a'),
    (7, 1, 'p'),
    (8, 0, 's'),
    (9, 1, 'n'),
];

#[test]
fn lines_that_run(rt: HostRuntime) -> Result<(), Fail> {
    let text =
        b"# two seats\nseats  2\n\n 1   look \n0 await 7\n#\n1 post exitthread\n0 spam 1\n1 post spam 0";
    let script = read_script(rt.alloc(), text).ok().ok_or("a script")?;
    same(&rt, "seats", script.seats, 2);
    same(&rt, "lines", script.lines.len(), 5);
    for (line, place) in script.lines.iter().zip(PLACES) {
        same(&rt, "number, seat, verb", seen(line), place);
    }
    Ok(())
}

#[test]
fn a_transaction(rt: HostRuntime) -> Result<(), Fail> {
    let text = b"seats 1\n0 tx 18446744073709551615 7 4294967295 0102030405 0,18446744073709551615";
    let (stream, area) = write_in(rt.alloc(), text)?;
    let record = TransactionData {
        target: 18446744073709551615,
        cookie: 0,
        code: 7,
        flags: TransactionFlags::from_bits_retain(4294967295),
        sender_pid: 0,
        sender_euid: 0,
        data_size: 5,
        offsets_size: 16,
        buffer: 0,
        offsets: 8,
    };
    let wanted = Ok((Command::Transaction(record), stream.len()));
    same(&rt, "the command", read_command(&stream), wanted);
    let parts = [
        1, 2, 3, 4, 5, 0, 0, 0, 0, 0, 0, 0, 0, 0, 0, 0, 255, 255, 255, 255, 255, 255, 255, 255,
    ];
    same(&rt, "the area", area.as_slice(), parts.as_slice());
    Ok(())
}

#[test]
fn the_most_bytes(rt: HostRuntime) -> Result<(), Fail> {
    let mut text = repeated(rt.alloc(), b"seats 1\n0 write - ", b"a5", MOST_BYTES)?;
    let (_, area) = write_in(rt.alloc(), &text)?;
    same(&rt, "bytes", area.len(), MOST_BYTES);
    holds(&rt, "each byte", area.iter().all(|byte| *byte == 0xa5));
    text.extend_from_slice(b"a5")?;
    same(&rt, "one too many", bad_line(rt.alloc(), &text), Some(2));
    Ok(())
}

#[test]
fn the_most_offsets(rt: HostRuntime) -> Result<(), Fail> {
    let mut text = repeated(
        rt.alloc(),
        b"seats 1\n0 reply 1 0 - 8",
        b",8",
        MOST_OFFSETS - 1,
    )?;
    let (_, area) = write_in(rt.alloc(), &text)?;
    same(&rt, "offsets", area.len(), 8 * MOST_OFFSETS);
    text.extend_from_slice(b",8")?;
    same(&rt, "one too many", bad_line(rt.alloc(), &text), Some(2));
    Ok(())
}
