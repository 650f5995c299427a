//! Writing an entry, piece by piece. It takes no memory.

ghost use Rattle.std.specs.{Prelude.{◌<◌, ◌^◌, length, IfSome}};
ghost use Rattle.bd_space.specs.declared.step.Step.TheVariants as step;
ghost use Rattle.bd_space.specs.declared.step.StepAnswer.TheVariants.{Got};
ghost use Rattle.bd_spelling.specs.Writing.{Sends, Spells, Measures};
ghost use Rattle.bd_spelling.specs.Spelling.{IsBlock, IsParcel, IsStep, IsAnswer, IsEntry, SpellsCommand, block, parcel_bytes, step_bytes, answer_bytes, entry_bytes};

use crate::codes::{cause_number, fault_number, note_number};
use crate::fault::{Refused, WriteError};
use crate::reading::carries_parcel;
use crate::sending::{send, send_all};
use bd_codec::{Spelling, spell_command};
use bd_space::{Bytes, Entry, Parcel, Step, StepAnswer};
use bd_uapi::Command;
use std::io::Write;

// How many bytes a block of these takes: the bytes, and four for their length.
fn block_len(bytes: &[u8]) -> Option<u64>
    ensures { Measures result (IsBlock bytes.now) (length (block bytes.now)) }
{
    if bytes.len() > u32::MAX as usize {
        return None;
    }
    Some(4 + bytes.len() as u64)
}

// The length as a number of four bytes, if it fits.
fn short(len: u64) -> Option<u32>
    ensures { Measures result (len < 2 ^ 32) len }
{
    if len > u64::from(u32::MAX) {
        return None;
    }
    Some(len as u32)
}

fn parcel_len(command: &Command, parcel: &Option<Parcel>) -> Option<u64>
    ensures { Measures result (IsParcel command.now parcel.now) (length (parcel_bytes parcel.now)) }
{
    let Some(parcel) = parcel else {
        return Some(1);
    };
    if !carries_parcel(command) {
        return None;
    }
    let data = block_len(parcel.bytes.as_slice())?;
    let offsets = block_len(parcel.offsets.as_slice())?;
    Some(1 + data + offsets)
}

/// What the command of a step is spelled by, without memory; of a step without one it is nothing that counts.
pub fn command_of(step: &Step) -> Spelling
    ensures { SpellsCommand step.now result }
{
    match step {
        Step::Command { command, .. } => spell_command(command),
        _ => spell_command(&Command::ExitLooper),
    }
}

/// How many bytes the spelling of a step has; None where no journal spells it. The step's command, if it is one, is spelled by
/// these bytes.
#[inline(always)]
pub fn step_len(step: &Step, command: &[u8]) -> Option<u32>
    requires { SpellsCommand step.now command.now }
    ensures { Measures result (IsStep step.now × IsBlock (step_bytes step.now)) (length (step_bytes step.now)) }
{
    match step {
        Step::Open { pid, euid, window } => {
            let _widths = (*pid, *euid, *window);
            Some(13)
        }
        Step::Attach { pid: number } | Step::Read { limit: number } => {
            let _width = *number;
            Some(5)
        }
        Step::SetManager | Step::ExitThread | Step::ExitProcess => Some(1),
        Step::SetSpam { on: _ } => Some(2),
        Step::Command {
            command: made,
            parcel,
        } => {
            let parcel = parcel_len(made, parcel)?;
            short(5 + command.len() as u64 + parcel)
        }
    }
}

/// How many bytes the spelling of an answer has; None where no journal spells it.
pub fn answer_len(answer: &StepAnswer) -> Option<u32>
    ensures { Measures result (IsAnswer answer.now × IsBlock (answer_bytes answer.now)) (length (answer_bytes answer.now)) }
{
    match answer {
        StepAnswer::Opened | StepAnswer::Set => Some(1),
        StepAnswer::Exited | StepAnswer::Accepted => Some(1),
        StepAnswer::Noted(_) | StepAnswer::Stopped(_) | StepAnswer::Refused(_) => Some(2),
        StepAnswer::Got {
            stream,
            bytes,
            offsets,
        } => {
            let stream = block_len(stream.as_slice())?;
            let bytes = block_len(bytes.as_slice())?;
            let offsets = block_len(offsets.as_slice())?;
            short(1 + stream + bytes + offsets)
        }
    }
}

fn send_parcel<W: Write>(parcel: &Option<Parcel>, out: &mut W) -> Result<(), Refused>
    requires { IfSome parcel.now (λ p. IsBlock p.bytes × IsBlock p.offsets) }
    ensures { Sends (W.contents out.old) (W.contents out.new) result (parcel_bytes parcel.now) }
{
    match parcel {
        None => send(&[0], out),
        Some(parcel) => {
            let data = parcel.bytes.as_slice();
            let offsets = parcel.offsets.as_slice();
            let data_len = (data.len() as u32).to_le_bytes();
            let offsets_len = (offsets.len() as u32).to_le_bytes();
            send_all(&[&[1], &data_len, data, &offsets_len, offsets], out)
        }
    }
}

fn send_command<W: Write>(
    command: &Command,
    parcel: &Option<Parcel>,
    out: &mut W,
) -> Result<(), Refused>
    requires { IsParcel command.now parcel.now }
    ensures { Sends (W.contents out.old) (W.contents out.new) result (step_bytes (step.Command command.now parcel.now)) }
{
    let spelling = spell_command(command);
    let spelled = spelling.as_slice();
    let len = (spelled.len() as u32).to_le_bytes();
    send_all(&[&[3], &len, spelled], out)?;
    send_parcel(parcel, out)
}

fn send_step<W: Write>(step: &Step, out: &mut W) -> Result<(), Refused>
    requires { IsStep step.now }
    ensures { Sends (W.contents out.old) (W.contents out.new) result (step_bytes step.now) }
{
    match step {
        Step::Open { pid, euid, window } => {
            let pid = pid.to_le_bytes();
            let euid = euid.to_le_bytes();
            send_all(&[&[0], &pid, &euid, &window.to_le_bytes()], out)
        }
        Step::Attach { pid } => send_all(&[&[1], &pid.to_le_bytes()], out),
        Step::SetManager => send(&[2], out),
        Step::SetSpam { on } => send(&[7, u8::from(*on)], out),
        Step::Command { command, parcel } => send_command(command, parcel, out),
        Step::Read { limit } => send_all(&[&[4], &limit.to_le_bytes()], out),
        Step::ExitThread => send(&[5], out),
        Step::ExitProcess => send(&[6], out),
    }
}

fn send_got<'a, W: Write>(
    stream: &'a Bytes,
    bytes: &'a Bytes,
    offsets: &'a Bytes,
    out: &mut W,
) -> Result<(), Refused>
    requires { IsBlock stream.now × IsBlock bytes.now × IsBlock offsets.now }
    ensures { Sends (W.contents out.old) (W.contents out.new) result (answer_bytes (Got stream.now bytes.now offsets.now)) }
{
    let stream = stream.as_slice();
    let bytes = bytes.as_slice();
    let offsets = offsets.as_slice();
    let stream_len = (stream.len() as u32).to_le_bytes();
    let bytes_len = (bytes.len() as u32).to_le_bytes();
    let offsets_len = (offsets.len() as u32).to_le_bytes();
    let pieces: [&[u8]; 7] = [
        &[6],
        &stream_len,
        stream,
        &bytes_len,
        bytes,
        &offsets_len,
        offsets,
    ];
    send_all(&pieces, out)
}

fn send_answer<W: Write>(answer: &StepAnswer, out: &mut W) -> Result<(), Refused>
    requires { IsAnswer answer.now }
    ensures { Sends (W.contents out.old) (W.contents out.new) result (answer_bytes answer.now) }
{
    match answer {
        StepAnswer::Opened => send(&[0], out),
        StepAnswer::Set => send(&[1], out),
        StepAnswer::Exited => send(&[2], out),
        StepAnswer::Accepted => send(&[3], out),
        StepAnswer::Noted(note) => send(&[4, note_number(*note)], out),
        StepAnswer::Stopped(cause) => send(&[5, cause_number(*cause)], out),
        StepAnswer::Got {
            stream,
            bytes,
            offsets,
        } => send_got(stream, bytes, offsets, out),
        StepAnswer::Refused(fault) => send(&[7, fault_number(*fault)], out),
    }
}

/// Writes the one spelling of an entry of a journal of so many seats. Behind a heading and the entries before it that is
/// how a journal goes on, so a history that nobody keeps can be written step by step.
///
/// # Errors
/// `Unspellable` where the entry has no spelling, and then nothing is written; `Refused` where the writer takes no more: what was
/// written is a beginning.
pub fn write_entry<W: Write>(seats: u32, entry: &Entry, out: &mut W) -> Result<(), WriteError>
    ensures sends { Sends (W.contents out.old) (W.contents out.new) result (entry_bytes entry.now) }
    ensures spells { Spells result (IsEntry seats entry.now) }
{
    if entry.seat >= seats {
        return Err(WriteError::Unspellable);
    }
    let command = command_of(&entry.step);
    let (Some(step), Some(answer)) = (
        step_len(&entry.step, command.as_slice()),
        answer_len(&entry.answer),
    ) else {
        return Err(WriteError::Unspellable);
    };
    send_all(&[&entry.seat.to_le_bytes(), &step.to_le_bytes()], out)?;
    send_step(&entry.step, out)?;
    send(&answer.to_le_bytes(), out)?;
    Ok(send_answer(&entry.answer, out)?)
}
