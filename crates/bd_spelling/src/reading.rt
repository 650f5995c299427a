//! Reading an entry.

ghost use Rattle.std.specs.Prelude.{◌≡◌, None, Some};
ghost use Rattle.bd_spelling.specs.Spelling.{carries};
ghost use Rattle.bd_spelling.specs.Reading.{Gives, command_in, parcel_from, command_step_from, open_from, step_from, got_from, answer_from, whole_block_from, entry_from};
ghost use Rattle.bd_spelling.specs.declared.fault.ReadError.TheVariants.{Malformed};

use crate::codes::{cause_with, fault_with, note_with, switch_with};
use crate::fault::ReadError;
use crate::fields::{block_at, byte_at, bytes_at, word_at};
use crate::versions::Version;
use bd_codec::read_command;
use bd_space::{Entry, Parcel, Step, StepAnswer};
use bd_uapi::Command;
use std::alloc::Global;

// Whether a parcel can stand beside the command.
pub fn carries_parcel(command: &Command) -> bool
    ensures { result ≡ carries command.now }
{
    matches!(command, Command::Transaction(_) | Command::Reply(_))
}

// The command that the bytes spell, all of them.
#[tactic(auto, unfolding(crate::specs::Reading::command_in))]
fn command_of(bytes: &[u8]) -> Result<Command, ReadError>
    ensures { Gives (λ c. c) result (command_in bytes.now) }
{
    match read_command(bytes) {
        Ok((command, len)) if len == bytes.len() => Ok(command),
        _ => Err(ReadError::Malformed),
    }
}

#[tactic(auto, unfolding(crate::specs::Reading::parcel_from))]
fn parcel_at<'a>(
    alloc: Global,
    command: &Command,
    bytes: &'a [u8],
) -> Result<(Option<Parcel>, &'a [u8]), ReadError>
    ensures { Gives (λ x. (x.0, x.1.now)) result (parcel_from command.now bytes.now) }
{
    let (flag, rest) = byte_at(bytes)?;
    if flag == 0 {
        return Ok((None, rest));
    }
    if flag != 1 || !carries_parcel(command) {
        return Err(ReadError::Malformed);
    }
    let (data, rest) = bytes_at(alloc, rest)?;
    let (offsets, rest) = bytes_at(alloc, rest)?;
    let parcel = Parcel {
        bytes: data,
        offsets,
    };
    Ok((Some(parcel), rest))
}

#[tactic(auto, unfolding(crate::specs::Reading::command_step_from))]
fn command_at(alloc: Global, bytes: &[u8]) -> Result<(Step, &[u8]), ReadError>
    ensures { Gives (λ x. (x.0, x.1.now)) result (command_step_from bytes.now) }
{
    let (spelled, rest) = block_at(bytes)?;
    let command = command_of(spelled)?;
    let (parcel, rest) = parcel_at(alloc, &command, rest)?;
    Ok((Step::Command { command, parcel }, rest))
}

#[tactic(auto, unfolding(crate::specs::Reading::open_from))]
fn open_at(bytes: &[u8]) -> Result<(Step, &[u8]), ReadError>
    ensures { Gives (λ x. (x.0, x.1.now)) result (open_from bytes.now) }
{
    let (pid, rest) = word_at(bytes)?;
    let (euid, rest) = word_at(rest)?;
    let (window, rest) = word_at(rest)?;
    Ok((Step::Open { pid, euid, window }, rest))
}

#[tactic(auto, unfolding(crate::specs::Reading::step_from))]
fn step_at(alloc: Global, version: Version, bytes: &[u8]) -> Result<(Step, &[u8]), ReadError>
    ensures { Gives (λ x. (x.0, x.1.now)) result (step_from version bytes.now) }
{
    let (tag, rest) = byte_at(bytes)?;
    match tag {
        0 => open_at(rest),
        1 => {
            let (pid, rest) = word_at(rest)?;
            Ok((Step::Attach { pid }, rest))
        }
        2 => Ok((Step::SetManager, rest)),
        3 => command_at(alloc, rest),
        4 => {
            let (limit, rest) = word_at(rest)?;
            Ok((Step::Read { limit }, rest))
        }
        5 => Ok((Step::ExitThread, rest)),
        6 => Ok((Step::ExitProcess, rest)),
        7 if version.has_spam() => {
            let (number, rest) = byte_at(rest)?;
            let on = numbered(switch_with(number))?;
            Ok((Step::SetSpam { on }, rest))
        }
        _ => Err(ReadError::Malformed),
    }
}

#[tactic(auto, unfolding(crate::specs::Reading::got_from))]
fn got_at(alloc: Global, bytes: &[u8]) -> Result<(StepAnswer, &[u8]), ReadError>
    ensures { Gives (λ x. (x.0, x.1.now)) result (got_from bytes.now) }
{
    let (stream, rest) = bytes_at(alloc, bytes)?;
    let (data, rest) = bytes_at(alloc, rest)?;
    let (offsets, rest) = bytes_at(alloc, rest)?;
    let got = StepAnswer::Got {
        stream,
        bytes: data,
        offsets,
    };
    Ok((got, rest))
}

// What a number out of a table says.
fn numbered<T>(found: Option<T>) -> Result<T, ReadError>
    ensures { Gives (λ x. x) result found }
{
    match found {
        Some(x) => Ok(x),
        None => Err(ReadError::Malformed),
    }
}

#[tactic(auto, unfolding(crate::specs::Reading::answer_from))]
fn answer_at(alloc: Global, bytes: &[u8]) -> Result<(StepAnswer, &[u8]), ReadError>
    ensures { Gives (λ x. (x.0, x.1.now)) result (answer_from bytes.now) }
{
    let (tag, rest) = byte_at(bytes)?;
    match tag {
        0 => Ok((StepAnswer::Opened, rest)),
        1 => Ok((StepAnswer::Set, rest)),
        2 => Ok((StepAnswer::Exited, rest)),
        3 => Ok((StepAnswer::Accepted, rest)),
        4 => {
            let (number, rest) = byte_at(rest)?;
            Ok((StepAnswer::Noted(numbered(note_with(number))?), rest))
        }
        5 => {
            let (number, rest) = byte_at(rest)?;
            Ok((StepAnswer::Stopped(numbered(cause_with(number))?), rest))
        }
        6 => got_at(alloc, rest),
        7 => {
            let (number, rest) = byte_at(rest)?;
            Ok((StepAnswer::Refused(numbered(fault_with(number))?), rest))
        }
        _ => Err(ReadError::Malformed),
    }
}

// A step that takes a whole block.
fn step_in(alloc: Global, version: Version, bytes: &[u8]) -> Result<(Step, &[u8]), ReadError>
    ensures { Gives (λ x. (x.0, x.1.now)) result (whole_block_from (step_from version) bytes.now) }
{
    let (block, rest) = block_at(bytes)?;
    let (step, after) = step_at(alloc, version, block)?;
    if !after.is_empty() {
        return Err(ReadError::Malformed);
    }
    Ok((step, rest))
}

// An answer that takes a whole block.
fn answer_in(alloc: Global, bytes: &[u8]) -> Result<(StepAnswer, &[u8]), ReadError>
    ensures { Gives (λ x. (x.0, x.1.now)) result (whole_block_from answer_from bytes.now) }
{
    let (block, rest) = block_at(bytes)?;
    let (answer, after) = answer_at(alloc, block)?;
    if !after.is_empty() {
        return Err(ReadError::Malformed);
    }
    Ok((answer, rest))
}

/// The entry at the front of the bytes, in the spelling of a version and of so many seats, and the bytes behind it.
///
/// # Errors
/// `Malformed` where no entry is spelled there, `Memory` where memory was refused.
#[tactic(auto, unfolding(crate::specs::Reading::entry_from))]
pub fn entry_at(
    alloc: Global,
    version: Version,
    seats: u32,
    bytes: &[u8],
) -> Result<(Entry, &[u8]), ReadError>
    ensures { Gives (λ x. (x.0, x.1.now)) result (entry_from version seats bytes.now) }
{
    let (seat, rest) = word_at(bytes)?;
    let (step, rest) = step_in(alloc, version, rest)?;
    let (answer, rest) = answer_in(alloc, rest)?;
    if seat >= seats {
        return Err(ReadError::Malformed);
    }
    Ok((Entry { seat, step, answer }, rest))
}
