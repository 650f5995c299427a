//! Steps and returns by name, with what they have.

ghost use Rattle.std.specs.Prelude.{◌≡◌};
ghost use Rattle.bd_space.specs.Transactions as transactions;
ghost use Rattle.bd_player.specs.Payloads as spec;

use crate::names::{return_name, step_name};
use bd_space::Step;
use bd_uapi::{Command, Return, TransactionData, TransactionFlags};
use bitflags::Flags;
use std::fmt;

// The handle to which a transaction goes: the low half of its target. What stands above counts for nothing.
fn handle_of(sent: &TransactionData) -> u32
    ensures { result ≡ transactions.handle_of sent.now }
{
    (sent.target % 0x1_0000_0000) as u32
}

/// What a step or a return has. What one of its kind doesn't have is left out.
#[derive(Clone, Copy)]
pub(crate) struct Payload {
    pid: Option<u32>,
    euid: Option<u32>,
    window: Option<u32>,
    limit: Option<u32>,
    on: Option<bool>,
    handle: Option<u32>,
    ptr: Option<u64>,
    cookie: Option<u64>,
    code: Option<u32>,
    flags: Option<TransactionFlags>,
    data_size: Option<u64>,
    offsets_size: Option<u64>,
    sender_pid: Option<i32>,
    sender_euid: Option<u32>,
    buffer: Option<u64>,
}

const NOTHING: Payload = Payload {
    pid: None,
    euid: None,
    window: None,
    limit: None,
    on: None,
    handle: None,
    ptr: None,
    cookie: None,
    code: None,
    flags: None,
    data_size: None,
    offsets_size: None,
    sender_pid: None,
    sender_euid: None,
    buffer: None,
};

impl Payload {
    fn of_handle(handle: u32) -> Payload
        ensures { result ≡ spec.of_handle handle }
    {
        Payload {
            handle: Some(handle),
            ..NOTHING
        }
    }

    fn of_cookie(cookie: u64) -> Payload
        ensures { result ≡ spec.of_cookie cookie }
    {
        Payload {
            cookie: Some(cookie),
            ..NOTHING
        }
    }

    fn of_pointer(ptr: u64, cookie: u64) -> Payload
        ensures { result ≡ spec.of_pointer ptr cookie }
    {
        Payload {
            ptr: Some(ptr),
            cookie: Some(cookie),
            ..NOTHING
        }
    }

    // What a record says of what is sent.
    fn of_record(record: &TransactionData) -> Payload
        ensures { result ≡ spec.of_record «record».now }
    {
        Payload {
            code: Some(record.code),
            flags: Some(record.flags),
            data_size: Some(record.data_size),
            offsets_size: Some(record.offsets_size),
            ..NOTHING
        }
    }

    // What a record says to who reads it.
    fn of_received(record: &TransactionData) -> Payload
        ensures { result ≡ spec.of_received «record».now }
    {
        Payload {
            sender_pid: Some(record.sender_pid),
            sender_euid: Some(record.sender_euid),
            buffer: Some(record.buffer),
            ..Payload::of_record(record)
        }
    }

    fn of_command(command: &Command) -> Payload
        ensures { result ≡ spec.of_command command.now }
    {
        match command {
            Command::Transaction(sent) => Payload {
                handle: Some(handle_of(sent)),
                cookie: Some(sent.cookie),
                ..Payload::of_record(sent)
            },
            Command::Reply(sent) => Payload::of_record(sent),
            Command::FreeBuffer(buffer) => Payload {
                buffer: Some(*buffer),
                ..NOTHING
            },
            Command::Increfs(handle)
            | Command::Acquire(handle)
            | Command::Release(handle)
            | Command::Decrefs(handle) => Payload::of_handle(*handle),
            Command::IncrefsDone(ptr, cookie) | Command::AcquireDone(ptr, cookie) => {
                Payload::of_pointer(*ptr, *cookie)
            }
            Command::EnterLooper | Command::ExitLooper => NOTHING,
            Command::RequestDeathNotification(handle, cookie)
            | Command::ClearDeathNotification(handle, cookie) => Payload {
                handle: Some(*handle),
                ..Payload::of_cookie(*cookie)
            },
            Command::DeadBinderDone(cookie) => Payload::of_cookie(*cookie),
        }
    }

    fn of_return(told: &Return) -> Payload
        ensures { result ≡ spec.of_return told.now }
    {
        match told {
            Return::Transaction(received) => Payload {
                ptr: Some(received.target),
                cookie: Some(received.cookie),
                ..Payload::of_received(received)
            },
            Return::Reply(received) => Payload::of_received(received),
            Return::Increfs(ptr, cookie)
            | Return::Acquire(ptr, cookie)
            | Return::Release(ptr, cookie)
            | Return::Decrefs(ptr, cookie) => Payload::of_pointer(*ptr, *cookie),
            Return::DeadBinder(cookie) | Return::ClearDeathNotificationDone(cookie) => {
                Payload::of_cookie(*cookie)
            }
            Return::DeadReply
            | Return::TransactionComplete
            | Return::Noop
            | Return::FailedReply
            | Return::OnewaySpamSuspect => NOTHING,
        }
    }

    fn of_step(step: &Step) -> Payload
        ensures { result ≡ spec.of_step step.now }
    {
        match step {
            Step::Open { pid, euid, window } => Payload {
                pid: Some(*pid),
                euid: Some(*euid),
                window: Some(*window),
                ..NOTHING
            },
            Step::Attach { pid } => Payload {
                pid: Some(*pid),
                ..NOTHING
            },
            Step::Command { command, .. } => Payload::of_command(command),
            Step::Read { limit } => Payload {
                limit: Some(*limit),
                ..NOTHING
            },
            Step::SetSpam { on } => Payload {
                on: Some(*on),
                ..NOTHING
            },
            Step::SetManager | Step::ExitThread | Step::ExitProcess => NOTHING,
        }
    }
}

/// A step or a return: its name, and what it has.
#[derive(Clone, Copy)]
pub(crate) struct Word {
    name: &'static str,
    payload: Payload,
}

impl Word {
    /// The name of a step, and what it has.
    pub(crate) fn of_step(step: &Step) -> Word
        ensures { result.payload ≡ spec.of_step step.now }
    {
        Word {
            name: step_name(step),
            payload: Payload::of_step(step),
        }
    }

    /// The name of a return, and what it has.
    pub(crate) fn of_return(told: &Return) -> Word
        ensures { result.payload ≡ spec.of_return told.now }
    {
        Word {
            name: return_name(told),
            payload: Payload::of_return(told),
        }
    }
}

// Flags in hex, and then those that have a name.
#[derive(Clone, Copy)]
struct FlagsText(TransactionFlags);

impl fmt::Display for FlagsText {
    fn fmt<W: fmt::Write>(&self, f: &mut fmt::Formatter<W>) -> fmt::Result {
        let bits = self.0.bits();
        write!(f, "{bits:#x}")?;
        for flag in TransactionFlags::flags() {
            if self.0.contains(flag.value) {
                let name = flag.name;
                write!(f, " TF_{name}")?;
            }
        }
        Ok(())
    }
}

// Prints a member by its name and value, behind a space; nothing where it has no value.
fn print_member<T: fmt::Display + Copy, W: fmt::Write>(
    name: &str,
    member: Option<T>,
    f: &mut fmt::Formatter<W>,
) -> fmt::Result {
    match member {
        Some(value) => write!(f, " {name} {value}"),
        None => Ok(()),
    }
}

// For people numbers are decimal, but for the flags.
impl fmt::Display for Word {
    fn fmt<W: fmt::Write>(&self, f: &mut fmt::Formatter<W>) -> fmt::Result {
        let has = &self.payload;
        f.write_str(self.name)?;
        print_member("pid", has.pid, f)?;
        print_member("euid", has.euid, f)?;
        print_member("window", has.window, f)?;
        print_member("limit", has.limit, f)?;
        if let Some(on) = has.on {
            f.write_str(if on { " on" } else { " off" })?;
        }
        print_member("handle", has.handle, f)?;
        print_member("ptr", has.ptr, f)?;
        print_member("cookie", has.cookie, f)?;
        print_member("code", has.code, f)?;
        print_member("flags", has.flags.map(FlagsText), f)?;
        print_member("data_size", has.data_size, f)?;
        print_member("offsets_size", has.offsets_size, f)?;
        print_member("sender_pid", has.sender_pid, f)?;
        print_member("sender_euid", has.sender_euid, f)?;
        print_member("buffer", has.buffer, f)
    }
}
