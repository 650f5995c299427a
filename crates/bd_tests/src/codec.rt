//! Codes and records, from the header's values.

use crate::same::{holds, same};
use bd_codec::{read_command, read_return, write_command, write_return, write_return_reserved};
use bd_uapi::{Command, Fault, Return, TransactionData, TransactionFlags};
use bitflags::Flags;
use std::alloc::{AllocError, Global};
use std::process::Abort;
use std::test::Fail;

fn record() -> TransactionData {
    TransactionData {
        target: 0x1122_3344_5566_7788,
        cookie: 0x99aa_bbcc_ddee_ff00,
        code: 0x0102_0304,
        flags: TransactionFlags::from_bits_retain(0xffff_fffe),
        sender_pid: -2,
        sender_euid: 0x8000_0001,
        data_size: 7,
        offsets_size: 8,
        buffer: 0xffff_ffff_ffff_fff8,
        offsets: 65536,
    }
}

// Bytes, and the command that is read of them, or why none.
static COMMANDS_READ: [(&[u8], Result<(Command, usize), Fault>); 6] = [
    (&[0x0d, 0x63, 0, 0], Ok((Command::ExitLooper, 4))),
    (
        &[
            0x0e, 0x63, 0x0c, 0x40, 1, 0, 0, 0, 77, 0, 0, 0, 0, 0, 0, 0, 0,
        ],
        Ok((Command::RequestDeathNotification(1, 77), 16)),
    ),
    (&[5, 0x63, 4, 0x40, 1, 0, 0], Err(Fault::ShortCommand)),
    (&[0x11, 0x63, 0x48, 0x40], Err(Fault::RefusedCommand)),
    (&[0, 0x63, 0, 0], Err(Fault::UnknownCommand)),
    (&[0x0d, 0x72, 0, 0], Err(Fault::UnknownCommand)),
];

// The same of returns.
static RETURNS_READ: [(&[u8], Result<(Return, usize), Fault>); 5] = [
    (&[0x0c, 0x72, 0, 0], Ok((Return::Noop, 4))),
    (&[0x13, 0x72, 0, 0], Ok((Return::OnewaySpamSuspect, 4))),
    (&[0x12, 0x72, 0, 0], Err(Fault::UnknownCommand)),
    (
        &[0x0f, 0x72, 8, 0x80, 77, 0, 0, 0, 0, 0, 0, 0, 0x0c, 0x72],
        Ok((Return::DeadBinder(77), 12)),
    ),
    (&[0x0c, 0x72, 0], Err(Fault::ShortCommand)),
];

#[test]
fn reads_commands(rt: HostRuntime) {
    for (bytes, wanted) in COMMANDS_READ {
        same(&rt, "a command", read_command(bytes), wanted);
    }
}

#[test]
fn reads_returns(rt: HostRuntime) {
    for (bytes, wanted) in RETURNS_READ {
        same(&rt, "a return", read_return(bytes), wanted);
    }
}

// The bytes have this length and begin with this code.
fn begin(rt: &impl Abort, bytes: &[u8], length: usize, code: u32) {
    same(rt, "the length", bytes.len(), length);
    holds(
        rt,
        "the code",
        bytes.starts_with(code.to_le_bytes().as_slice()),
    );
}

fn see_short_commands(rt: &impl Abort, bytes: &[u8]) {
    for n in 0..bytes.len() {
        same(
            rt,
            "cut short",
            read_command(&bytes[..n]),
            Err(Fault::ShortCommand),
        );
    }
}

fn see_command(
    rt: &(impl Abort + Alloc<A = Global>),
    code: u32,
    length: usize,
    command: Command,
) -> Result<(), Fail> {
    let mut out = Vec::new(rt.alloc());
    same(rt, "written", write_command(&command, &mut out), Ok(()));
    begin(rt, &out, length, code);
    see_short_commands(rt, &out);
    out.push(0xff)?;
    same(rt, "read back", read_command(&out), Ok((command, length)));
    Ok(())
}

// Every command, by the code and the length that the public header gives it: written so, read back so with other
// bytes behind it, and cut short at each place before its end.
#[test]
fn every_command_by_its_code(rt: HostRuntime) -> Result<(), Fail> {
    let rows: [(u32, usize, Command); 14] = [
        (0x4040_6300, 68, Command::Transaction(record())),
        (0x4040_6301, 68, Command::Reply(record())),
        (0x4008_6303, 12, Command::FreeBuffer(65536)),
        (0x4004_6304, 8, Command::Increfs(1)),
        (0x4004_6305, 8, Command::Acquire(2)),
        (0x4004_6306, 8, Command::Release(3)),
        (0x4004_6307, 8, Command::Decrefs(4294967295)),
        (0x4010_6308, 20, Command::IncrefsDone(4096, 8192)),
        (0x4010_6309, 20, Command::AcquireDone(4104, 8200)),
        (0x0000_630c, 4, Command::EnterLooper),
        (0x0000_630d, 4, Command::ExitLooper),
        (0x400c_630e, 16, Command::RequestDeathNotification(1, 77)),
        (0x400c_630f, 16, Command::ClearDeathNotification(2, 78)),
        (0x4008_6310, 12, Command::DeadBinderDone(79)),
    ];
    for (code, length, command) in rows {
        see_command(&rt, code, length, command)?;
    }
    Ok(())
}

// A return in the other way, into room that is there.
fn written_reserved(alloc: Global, sent: &Return) -> Result<Vec<u8>, AllocError> {
    let mut reserved = Vec::with_capacity(alloc, 68)?;
    write_return_reserved(sent, &mut reserved);
    Ok(reserved)
}

fn see_short_returns(rt: &impl Abort, bytes: &[u8]) {
    for n in 0..bytes.len() {
        same(
            rt,
            "cut short",
            read_return(&bytes[..n]),
            Err(Fault::ShortCommand),
        );
    }
}

fn see_return(
    rt: &(impl Abort + Alloc<A = Global>),
    code: u32,
    length: usize,
    sent: Return,
) -> Result<(), Fail> {
    let mut out = written_reserved(rt.alloc(), &sent)?;
    begin(rt, &out, length, code);
    see_short_returns(rt, &out);
    out.push(0xff)?;
    same(rt, "read back", read_return(&out), Ok((sent, length)));
    Ok(())
}

fn see_both_ways(rt: &(impl Abort + Alloc<A = Global>), sent: &Return) -> Result<(), Fail> {
    let mut out = Vec::new(rt.alloc());
    same(rt, "written", write_return(sent, &mut out), Ok(()));
    let reserved = written_reserved(rt.alloc(), sent)?;
    same(rt, "both ways", reserved.as_slice(), out.as_slice());
    Ok(())
}

// The same of every return, written in both ways.
#[test]
fn every_return_by_its_code(rt: HostRuntime) -> Result<(), Fail> {
    let rows: [(u32, usize, Return); 13] = [
        (0x8040_7202, 68, Return::Transaction(record())),
        (0x8040_7203, 68, Return::Reply(record())),
        (0x0000_7205, 4, Return::DeadReply),
        (0x0000_7206, 4, Return::TransactionComplete),
        (0x8010_7207, 20, Return::Increfs(4096, 8192)),
        (0x8010_7208, 20, Return::Acquire(4104, 8200)),
        (0x8010_7209, 20, Return::Release(4112, 8208)),
        (0x8010_720a, 20, Return::Decrefs(4120, 8216)),
        (0x0000_720c, 4, Return::Noop),
        (0x8008_720f, 12, Return::DeadBinder(77)),
        (0x8008_7210, 12, Return::ClearDeathNotificationDone(78)),
        (0x0000_7211, 4, Return::FailedReply),
        (0x0000_7213, 4, Return::OnewaySpamSuspect),
    ];
    for (code, length, sent) in rows {
        see_return(&rt, code, length, sent)?;
        see_both_ways(&rt, &sent)?;
    }
    Ok(())
}

// The codes that are known and not supported.
const REFUSED: [u32; 5] = [
    0x4004_6302,
    0x4008_630a,
    0x0000_630b,
    0x4048_6311,
    0x4048_6312,
];

// Some that no command or return has.
const UNKNOWN: [u32; 5] = [0x0000_6300, 0x4040_6302, 0x0000_7212, 0x8040_7204, 0];

#[test]
fn other_codes(rt: HostRuntime) {
    for code in REFUSED {
        let read = read_command(&code.to_le_bytes());
        same(&rt, "a refused code", read, Err(Fault::RefusedCommand));
    }
    for code in UNKNOWN {
        let read = read_command(&code.to_le_bytes());
        same(&rt, "no command's code", read, Err(Fault::UnknownCommand));
        let read = read_return(&code.to_le_bytes());
        same(&rt, "no return's code", read, Err(Fault::UnknownCommand));
    }
}

// The bytes of a one-way transaction as its receiver reads it.
#[test]
fn spells_a_transaction(rt: HostRuntime) {
    let mut out = Vec::new(rt.alloc());
    let sent = TransactionData {
        target: 0,
        cookie: 0,
        code: 7,
        flags: TransactionFlags::ONE_WAY,
        sender_pid: 0,
        sender_euid: 2000,
        data_size: 2,
        offsets_size: 0,
        buffer: 65536,
        offsets: 65544,
    };
    let written = write_return(&Return::Transaction(sent), &mut out);
    same(&rt, "written", written, Ok(()));
    let spelled = [
        2, 0x72, 0x40, 0x80, 0, 0, 0, 0, 0, 0, 0, 0, 0, 0, 0, 0, 0, 0, 0, 0, 7, 0, 0, 0, 1, 0, 0,
        0, 0, 0, 0, 0, 0xd0, 7, 0, 0, 2, 0, 0, 0, 0, 0, 0, 0, 0, 0, 0, 0, 0, 0, 0, 0, 0, 0, 1, 0,
        0, 0, 0, 0, 8, 0, 1, 0, 0, 0, 0, 0,
    ];
    same(&rt, "the spelling", out.as_slice(), spelled.as_slice());
}
