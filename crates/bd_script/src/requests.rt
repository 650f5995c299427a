//! The verbs of a script.

ghost use Rattle.std.specs.Prelude.{◌≡◌, Some, None, length, IfOk, MatchResult};
ghost use Rattle.bd_script.specs.Words.{ReadsAs, ReadsOrMemory, one_of, two_of, four_of, shown};
ghost use Rattle.bd_script.specs.Requests.{alone, area_of, command_of, command_with, handle_and_cookie_of, one_number_of, one_switch_of, longer_command_of, open_of, padded, pointer_and_cookie_of, one_long_of, post_of, data_of, request_of, send, sent, stream_and_area, tx_of, verb_of, write_of, write_with};
ghost use Rattle.bd_script.specs.declared.script.Trouble.TheVariants.{Bad};

use crate::script::{Trouble, Verb};
use crate::words::{hex_in, is, long_in, number_in, offsets_in, word_in};
use bd_codec::write_command;
use bd_space::{Bytes, Request};
use bd_uapi::{Command, TransactionData, TransactionFlags};
use bitflags::Flags;
use std::alloc::{AllocError, Global};

// ---- so many words and no more

// This, where no word stands behind the verb.
fn alone<T: Drop>(value: T, args: &[&[u8]]) -> Result<T, Trouble>
    ensures { ReadsAs result (alone value (shown args.now)) }
{
    match args {
        [] => Ok(value),
        _ => Err(Trouble::Bad),
    }
}

fn one_word<'a>(args: &[&'a [u8]]) -> Result<&'a [u8], Trouble>
    ensures { MatchResult result
        (λ word. one_of (shown args.now) ≡ Some word.now)
        (λ trouble. (trouble ≡ Bad) × (one_of (shown args.now) ≡ None)) }
{
    match args {
        [word] => Ok(*word),
        _ => Err(Trouble::Bad),
    }
}

fn two_words<'a>(args: &[&'a [u8]]) -> Result<(&'a [u8], &'a [u8]), Trouble>
    ensures { MatchResult result
        (λ words. two_of (shown args.now) ≡ Some (words.0.now, words.1.now))
        (λ trouble. (trouble ≡ Bad) × (two_of (shown args.now) ≡ None)) }
{
    match args {
        [first, second] => Ok((*first, *second)),
        _ => Err(Trouble::Bad),
    }
}

fn four_words<'a>(args: &[&'a [u8]]) -> Result<(&'a [u8], &'a [u8], &'a [u8], &'a [u8]), Trouble>
    ensures { MatchResult result
        (λ words. four_of (shown args.now) ≡ Some (words.0.now, words.1.now, words.2.now, words.3.now))
        (λ trouble. (trouble ≡ Bad) × (four_of (shown args.now) ≡ None)) }
{
    match args {
        [first, second, third, fourth] => Ok((*first, *second, *third, *fourth)),
        _ => Err(Trouble::Bad),
    }
}

// Reads the only argument, as a number of 32 bits.
fn one_number(args: &[&[u8]]) -> Result<u32, Trouble>
    ensures { ReadsAs result (one_number_of (shown args.now)) }
{
    word_in(one_word(args)?)
}

// Reads the only argument, as a switch: 0 is off, 1 is on.
fn one_switch(args: &[&[u8]]) -> Result<bool, Trouble>
    ensures { ReadsAs result (one_switch_of (shown args.now)) }
{
    Ok(number_in(one_word(args)?, 1)? == 1)
}

// Reads the only argument, as a number of 64 bits.
fn one_long(args: &[&[u8]]) -> Result<u64, Trouble>
    ensures { ReadsAs result (one_long_of (shown args.now)) }
{
    long_in(one_word(args)?)
}

fn pointer_and_cookie(args: &[&[u8]]) -> Result<(u64, u64), Trouble>
    ensures { ReadsAs result (pointer_and_cookie_of (shown args.now)) }
{
    let (pointer, cookie) = two_words(args)?;
    Ok((long_in(pointer)?, long_in(cookie)?))
}

fn handle_and_cookie(args: &[&[u8]]) -> Result<(u32, u64), Trouble>
    ensures { ReadsAs result (handle_and_cookie_of (shown args.now)) }
{
    let (handle, cookie) = two_words(args)?;
    Ok((word_in(handle)?, long_in(cookie)?))
}

// ---- writes

// A write of one command, with the area that its parcel is cut from.
fn write_of(alloc: Global, command: &Command, area: Vec<u8>) -> Result<Request, Trouble>
    ensures { ReadsOrMemory result (Some (write_of command.now area.items)) }
{
    let mut stream = Vec::new(alloc);
    match write_command(command, &mut stream) {
        Ok(()) => Ok(Request::Write {
            stream: Bytes::new(stream),
            area: Bytes::new(area),
        }),
        Err(_) => Err(Trouble::Memory),
    }
}

// The data, and zeros up to a multiple of 8.
fn padded(alloc: Global, bytes: &[u8]) -> Result<Vec<u8>, AllocError>
    ensures { IfOk result (λ v. v.items ≡ padded bytes.now) }
{
    let mut padded = Vec::from_slice(alloc, bytes)?;
    padded.resize(bytes.len().next_multiple_of(8), 0)?;
    Ok(padded)
}

// The padded data, and then each offset; with how long the first is.
fn area_of(alloc: Global, bytes: &[u8], offsets: &[u64]) -> Result<(Vec<u8>, usize), AllocError>
    ensures { IfOk result
        (λ r. (r.0.items ≡ area_of bytes.now offsets.now) × (r.1 ≡ length (padded bytes.now))) }
{
    let mut area = padded(alloc, bytes)?;
    let padded = area.len();
    for offset in offsets {
        area.extend_from_slice(&offset.to_le_bytes())?;
    }
    Ok((area, padded))
}

// The command of a record: a transaction to a target, or a reply where there is none.
fn command_with(target: Option<u64>, sent: TransactionData) -> Command
    ensures { result ≡ command_with target sent }
{
    match target {
        Some(_) => Command::Transaction(sent),
        None => Command::Reply(sent),
    }
}

// The record of a parcel, whose offsets stand behind the padded data.
fn data_of(
    target: u64,
    code: u32,
    flags: u32,
    bytes: &[u8],
    offsets: &[u64],
    front: usize,
) -> TransactionData
    requires { front ≡ length (padded bytes.now) }
    ensures { result ≡ data_of target code flags bytes.now offsets.now }
{
    TransactionData {
        target,
        cookie: 0,
        code,
        flags: TransactionFlags::from_bits_retain(flags),
        sender_pid: 0,
        sender_euid: 0,
        data_size: bytes.len() as u64,
        offsets_size: 8 * offsets.len() as u64,
        buffer: 0,
        offsets: front as u64,
    }
}

// A write of one transaction or reply with this parcel.
fn send(
    alloc: Global,
    target: Option<u64>,
    code: u32,
    flags: u32,
    bytes: &[u8],
    offsets: &[u64],
) -> Result<Request, Trouble>
    ensures { ReadsOrMemory result (Some (send target code flags bytes.now offsets.now)) }
{
    let (area, front) = area_of(alloc, bytes, offsets)?;
    let sent = data_of(target.unwrap_or(0), code, flags, bytes, offsets, front);
    write_of(alloc, &command_with(target, sent), area)
}

// The same, with code, flags, data and offsets as the words give them.
fn parcel_write(alloc: Global, target: Option<u64>, args: &[&[u8]]) -> Result<Request, Trouble>
    ensures { ReadsOrMemory result (sent target (shown args.now)) }
{
    let (code, flags, bytes, offsets) = four_words(args)?;
    let code = word_in(code)?;
    let flags = word_in(flags)?;
    let bytes = hex_in(alloc, bytes)?;
    let offsets = offsets_in(alloc, offsets)?;
    send(alloc, target, code, flags, bytes.as_slice(), &offsets)
}

fn transaction(alloc: Global, args: &[&[u8]]) -> Result<Request, Trouble>
    ensures { ReadsOrMemory result (tx_of (shown args.now)) }
{
    match args {
        [target, rest @ ..] => parcel_write(alloc, Some(long_in(target)?), rest),
        [] => Err(Trouble::Bad),
    }
}

fn stream_and_area(alloc: Global, args: &[&[u8]]) -> Result<Request, Trouble>
    ensures { ReadsOrMemory result (stream_and_area (shown args.now)) }
{
    let (stream, area) = two_words(args)?;
    Ok(Request::Write {
        stream: hex_in(alloc, stream)?,
        area: hex_in(alloc, area)?,
    })
}

// ---- the verbs

// The command that stands alone in a write.
#[tactic(auto, unfolding(crate::specs::Requests::command_of))]
fn command_of(verb: &[u8], args: &[&[u8]]) -> Result<Command, Trouble>
    ensures { ReadsAs result (command_of verb.now (shown args.now)) }
{
    if is(verb, b"enter") {
        alone(Command::EnterLooper, args)
    } else if is(verb, b"exitloop") {
        alone(Command::ExitLooper, args)
    } else if is(verb, b"free") {
        Ok(Command::FreeBuffer(one_long(args)?))
    } else if is(verb, b"increfs") {
        Ok(Command::Increfs(one_number(args)?))
    } else if is(verb, b"acquire") {
        Ok(Command::Acquire(one_number(args)?))
    } else if is(verb, b"release") {
        Ok(Command::Release(one_number(args)?))
    } else if is(verb, b"decrefs") {
        Ok(Command::Decrefs(one_number(args)?))
    } else {
        longer_command_of(verb, args)
    }
}

// The same of a verb with two numbers or a cookie.
#[tactic(auto, unfolding(crate::specs::Requests::longer_command_of))]
fn longer_command_of(verb: &[u8], args: &[&[u8]]) -> Result<Command, Trouble>
    ensures { ReadsAs result (longer_command_of verb.now (shown args.now)) }
{
    if is(verb, b"increfsdone") {
        let (pointer, cookie) = pointer_and_cookie(args)?;
        Ok(Command::IncrefsDone(pointer, cookie))
    } else if is(verb, b"acquiredone") {
        let (pointer, cookie) = pointer_and_cookie(args)?;
        Ok(Command::AcquireDone(pointer, cookie))
    } else if is(verb, b"askdeath") {
        let (handle, cookie) = handle_and_cookie(args)?;
        Ok(Command::RequestDeathNotification(handle, cookie))
    } else if is(verb, b"cleardeath") {
        let (handle, cookie) = handle_and_cookie(args)?;
        Ok(Command::ClearDeathNotification(handle, cookie))
    } else if is(verb, b"deaddone") {
        Ok(Command::DeadBinderDone(one_long(args)?))
    } else {
        Err(Trouble::Bad)
    }
}

fn open(args: &[&[u8]]) -> Result<Request, Trouble>
    ensures { ReadsAs result (open_of (shown args.now)) }
{
    let [pid, euid, window] = args else {
        return Err(Trouble::Bad);
    };
    Ok(Request::Open {
        pid: word_in(pid)?,
        euid: word_in(euid)?,
        window: word_in(window)?,
    })
}

// The request of a verb that has one.
#[tactic(auto, unfolding(crate::specs::Requests::request_of))]
fn request_of(alloc: Global, verb: &[u8], args: &[&[u8]]) -> Result<Request, Trouble>
    ensures { ReadsOrMemory result (request_of verb.now (shown args.now)) }
{
    if is(verb, b"open") {
        open(args)
    } else if is(verb, b"attach") {
        Ok(Request::Attach {
            pid: one_number(args)?,
        })
    } else if is(verb, b"manager") {
        alone(Request::SetManager, args)
    } else if is(verb, b"spam") {
        Ok(Request::SetSpam {
            on: one_switch(args)?,
        })
    } else if is(verb, b"read") {
        Ok(Request::Read {
            limit: one_number(args)?,
        })
    } else if is(verb, b"exitthread") {
        alone(Request::ExitThread, args)
    } else if is(verb, b"exitprocess") {
        alone(Request::ExitProcess, args)
    } else {
        write_with(alloc, verb, args)
    }
}

// Reads a request of a verb that writes commands.
#[tactic(auto, unfolding(crate::specs::Requests::write_with))]
fn write_with(alloc: Global, verb: &[u8], args: &[&[u8]]) -> Result<Request, Trouble>
    ensures { ReadsOrMemory result (write_with verb.now (shown args.now)) }
{
    if is(verb, b"write") {
        stream_and_area(alloc, args)
    } else if is(verb, b"tx") {
        transaction(alloc, args)
    } else if is(verb, b"reply") {
        parcel_write(alloc, None, args)
    } else {
        write_of(alloc, &command_of(verb, args)?, Vec::new(alloc))
    }
}

// The verb that hands a request over.
fn post(alloc: Global, args: &[&[u8]]) -> Result<Verb, Trouble>
    ensures { ReadsOrMemory result (post_of (shown args.now)) }
{
    match args {
        [verb, args @ ..] => Ok(Verb::Post(request_of(alloc, verb, args)?)),
        [] => Err(Trouble::Bad),
    }
}

/// What a line does: its verb, and the words behind it.
#[tactic(auto, unfolding(crate::specs::Requests::verb_of))]
pub fn verb_of(alloc: Global, verb: &[u8], args: &[&[u8]]) -> Result<Verb, Trouble>
    ensures { ReadsOrMemory result (verb_of verb.now (shown args.now)) }
{
    if is(verb, b"look") {
        alone(Verb::Look, args)
    } else if is(verb, b"await") {
        Ok(Verb::Await(one_number(args)?))
    } else if is(verb, b"serve") {
        alone(Verb::Serve, args)
    } else if is(verb, b"collect") {
        alone(Verb::Collect, args)
    } else if is(verb, b"withdraw") {
        alone(Verb::Withdraw, args)
    } else if is(verb, b"post") {
        post(alloc, args)
    } else {
        Ok(Verb::Call(request_of(alloc, verb, args)?))
    }
}
