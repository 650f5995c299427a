//! Spelling an entry straight into the caller's memory: nothing is asked for, and nothing can fail on the way.

ghost use Rattle.std.specs.Prelude.{◌≡◌, ◌+◌, ◌≤◌, ◌<◌, length, IfSome, MatchOption};
ghost use Rattle.bd_uapi.specs.Bytes.{word};
ghost use Rattle.bd_spelling.specs.Writing.{Measures};
ghost use Rattle.bd_spelling.specs.Spelling.{IsBlock, IsStep, IsAnswer, IsEntry, SpellsCommand, block, parcel_bytes, step_bytes, answer_bytes, entry_bytes};
ghost use Rattle.bd_spelling.specs.Laid.{IsLaid, IsLaidIfRoom};

use crate::codes::{cause_number, fault_number, note_number};
use crate::writing::{answer_len, command_of, step_len};
use bd_space::{Entry, Parcel, Step, StepAnswer};

// Copies bytes to a place, and answers the place behind them.
#[inline(always)]
fn lay(out: &mut [u8], at: usize, bytes: &[u8]) -> usize
    requires { at + length bytes.now ≤ length out.old }
    ensures { IsLaid at bytes.now out.old out.new result }
{
    let to = at + bytes.len();
    out[at..to].copy_from_slice(bytes);
    to
}

#[inline(always)]
fn lay_word(out: &mut [u8], at: usize, n: u32) -> usize
    requires { at + 4 ≤ length out.old }
    ensures { IsLaid at (word n) out.old out.new result }
{
    lay(out, at, &n.to_le_bytes())
}

#[inline(always)]
fn lay_block(out: &mut [u8], at: usize, bytes: &[u8]) -> usize
    requires fits { IsBlock bytes.now }
    requires room { at + 4 + length bytes.now ≤ length out.old }
    ensures { IsLaid at (block bytes.now) out.old out.new result }
{
    let at = lay_word(out, at, bytes.len() as u32);
    // Most offsets are none, and copying none costs as much as copying some.
    if bytes.is_empty() {
        return at;
    }
    lay(out, at, bytes)
}

#[inline(always)]
fn lay_parcel(out: &mut [u8], at: usize, parcel: &Option<Parcel>) -> usize
    requires fits { IfSome parcel.now (λ p. IsBlock p.bytes × IsBlock p.offsets) }
    requires room { at + length (parcel_bytes parcel.now) ≤ length out.old }
    ensures { IsLaid at (parcel_bytes parcel.now) out.old out.new result }
{
    match parcel {
        None => lay(out, at, &[0]),
        Some(parcel) => {
            let at = lay(out, at, &[1]);
            let at = lay_block(out, at, parcel.bytes.as_slice());
            lay_block(out, at, parcel.offsets.as_slice())
        }
    }
}

#[inline(always)]
fn lay_step(out: &mut [u8], at: usize, step: &Step, command: &[u8]) -> usize
    requires command { SpellsCommand step.now command.now }
    requires spelled { IsStep step.now }
    requires fits { IsBlock (step_bytes step.now) }
    requires room { at + length (step_bytes step.now) ≤ length out.old }
    ensures { IsLaid at (step_bytes step.now) out.old out.new result }
{
    match step {
        Step::Open { pid, euid, window } => {
            let at = lay(out, at, &[0]);
            let at = lay_word(out, at, *pid);
            let at = lay_word(out, at, *euid);
            lay_word(out, at, *window)
        }
        Step::Attach { pid } => {
            let at = lay(out, at, &[1]);
            lay_word(out, at, *pid)
        }
        Step::SetManager => lay(out, at, &[2]),
        Step::SetSpam { on } => lay(out, at, &[7, u8::from(*on)]),
        Step::Command { parcel, .. } => {
            let at = lay(out, at, &[3]);
            let at = lay_block(out, at, command);
            lay_parcel(out, at, parcel)
        }
        Step::Read { limit } => {
            let at = lay(out, at, &[4]);
            lay_word(out, at, *limit)
        }
        Step::ExitThread => lay(out, at, &[5]),
        Step::ExitProcess => lay(out, at, &[6]),
    }
}

// An answer behind its length, which its kind tells: so nobody has to measure it first.
#[inline(always)]
fn lay_answer(out: &mut [u8], at: usize, answer: &StepAnswer) -> usize
    requires spelled { IsAnswer answer.now }
    requires fits { IsBlock (answer_bytes answer.now) }
    requires room { at + 4 + length (answer_bytes answer.now) ≤ length out.old }
    ensures { IsLaid at (block (answer_bytes answer.now)) out.old out.new result }
{
    match answer {
        StepAnswer::Opened => lay(out, at, &[1, 0, 0, 0, 0]),
        StepAnswer::Set => lay(out, at, &[1, 0, 0, 0, 1]),
        StepAnswer::Exited => lay(out, at, &[1, 0, 0, 0, 2]),
        // Mostly it is this. These bytes together would be copied from elsewhere.
        StepAnswer::Accepted => {
            let at = lay_word(out, at, 1);
            lay(out, at, &[3])
        }
        StepAnswer::Noted(note) => lay(out, at, &[2, 0, 0, 0, 4, note_number(*note)]),
        StepAnswer::Stopped(cause) => lay(out, at, &[2, 0, 0, 0, 5, cause_number(*cause)]),
        StepAnswer::Got {
            stream,
            bytes,
            offsets,
        } => {
            let len = 13 + stream.len() + bytes.len() + offsets.len();
            let at = lay_word(out, at, len as u32);
            let at = lay(out, at, &[6]);
            let at = lay_block(out, at, stream.as_slice());
            let at = lay_block(out, at, bytes.as_slice());
            lay_block(out, at, offsets.as_slice())
        }
        StepAnswer::Refused(fault) => lay(out, at, &[2, 0, 0, 0, 7, fault_number(*fault)]),
    }
}

/// Puts the one spelling of an entry that a journal spells to a place, and answers the place behind it. The step's command, if it is one,
/// is spelled by these bytes; the length is that of the step's spelling.
#[inline(always)]
pub(crate) fn lay_whole(
    out: &mut [u8],
    at: usize,
    entry: &Entry,
    command: &[u8],
    step: u32,
) -> usize
    requires command { SpellsCommand entry.now.step command.now }
    requires spelled { IsStep entry.now.step × IsBlock (step_bytes entry.now.step) }
    requires answered { IsAnswer entry.now.answer × IsBlock (answer_bytes entry.now.answer) }
    requires step { step ≡ length (step_bytes entry.now.step) }
    requires room { at + length (entry_bytes entry.now) ≤ length out.old }
    ensures { IsLaid at (entry_bytes entry.now) out.old out.new result }
{
    let at = lay_word(out, at, entry.seat);
    let at = lay_word(out, at, step);
    let at = lay_step(out, at, &entry.step, command);
    lay_answer(out, at, &entry.answer)
}

/// Puts the one spelling of an entry of a journal of so many seats where the caller's memory begins, if all of it fits; else that
/// memory is left as it is. Answers how many bytes the spelling has; None where no such journal spells the entry.
pub fn lay_entry(seats: u32, entry: &Entry, out: &mut [u8]) -> Option<usize>
    ensures length { Measures result (IsEntry seats entry.now) (length (entry_bytes entry.now)) }
    ensures laid { MatchOption result (out.new ≡ out.old) (λ _. IsLaidIfRoom (entry_bytes entry.now) out.old out.new) }
{
    if entry.seat >= seats {
        return None;
    }
    let spelling = command_of(&entry.step);
    let command = spelling.as_slice();
    let step = step_len(&entry.step, command)?;
    let answer = answer_len(&entry.answer)?;
    let len = 12 + step as usize + answer as usize;
    if len <= out.len() {
        let _end = lay_whole(out, 0, entry, command, step);
    }
    Some(len)
}
