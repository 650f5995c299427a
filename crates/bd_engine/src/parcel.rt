//! The step of a command, and its parcel, which is cut from the area of its write.

ghost use Rattle.std.specs.Prelude.{◌≡◌, ◌+◌, nat_le, length, take, drop, true, false, None, Some, IfOk, OnOk, MatchOption};
ghost use Rattle.bd_space.specs.Writes.{parcel_of, parcel_for, step_of_command};
ghost use Rattle.bd_space.specs.declared.step.Step.TheVariants as step;

use crate::memory::{MUCH, leave_much};
use bd_space::{Bytes, Entry, Parcel, Step, StepAnswer};
use bd_uapi::{Command, TransactionData};
use std::alloc::{AllocError, Global};
use std::mem::replace;

// The part of the area that begins at `start`, if it lies inside.
#[inline(always)]
fn part(area: &[u8], start: u64, size: u64) -> Option<&[u8]>
    ensures { MatchOption result (nat_le (start + size) (length area.now) ≡ false)
        (λ p. (nat_le (start + size) (length area.now) ≡ true) × (p.now ≡ take size (drop start area.now))) }
{
    match start.checked_add(size) {
        Some(end) if end <= area.len() as u64 => Some(&area[start as usize..end as usize]),
        _ => None,
    }
}

// The parts of the area that these fields speak of, if they lie inside.
#[inline(always)]
fn parts<'a>(area: &'a [u8], fields: &TransactionData) -> Option<(&'a [u8], &'a [u8])>
    ensures { MatchOption result (parcel_of area.now fields.now ≡ None)
        (λ p. parcel_of area.now fields.now ≡ Some (record { bytes = p.0.now; offsets = p.1.now })) }
{
    match part(area, fields.buffer, fields.data_size) {
        None => None,
        Some(data) => match part(area, fields.offsets, fields.offsets_size) {
            None => None,
            Some(offsets) => Some((data, offsets)),
        },
    }
}

// The parts of the area that the parcel of a transaction or reply has, if they lie inside.
#[tactic(auto, unfolding(bd_space::specs::Writes::parcel_for))]
#[inline(always)]
fn cut<'a>(area: &'a [u8], command: &Command) -> Option<(&'a [u8], &'a [u8])>
    ensures { MatchOption result (parcel_for area.now command.now ≡ None)
        (λ p. parcel_for area.now command.now ≡ Some (record { bytes = p.0.now; offsets = p.1.now })) }
{
    match command {
        Command::Transaction(fields) | Command::Reply(fields) => parts(area, fields),
        _ => None,
    }
}

// Puts a copy of these bytes in place of those before, in their memory, if it is enough.
#[inline(always)]
fn refill(alloc: Global, to: &mut Bytes, bytes: &[u8]) -> Result<(), AllocError>
    ensures { OnOk result (to.new ≡ bytes.now) }
{
    // Most offsets are none, and copying none costs as much as copying some.
    if bytes.is_empty() && to.is_empty() {
        return Ok(());
    }
    let mut copy = replace(to, Bytes::new(Vec::new(alloc))).into_vec();
    copy.clear();
    copy.extend_from_slice(bytes)?;
    *to = Bytes::new(copy);
    Ok(())
}

// Puts the step of a command without a parcel in place of that of the one before it.
#[inline(always)]
fn put_bare(to: &mut Step, made: Command)
    ensures { to.new ≡ step.Command made None }
{
    let Step::Command { command, parcel } = to else {
        *to = Step::Command {
            command: made,
            parcel: None,
        };
        return;
    };
    *command = made;
    if parcel.is_some() {
        *parcel = None;
    }
}

// Puts the step of a command with a parcel of these parts in place of that of the one before it, and uses its memory.
#[inline(always)]
fn put_sent(
    alloc: Global,
    to: &mut Step,
    made: Command,
    bytes: &[u8],
    offsets: &[u8],
) -> Result<(), AllocError>
    ensures { OnOk result (to.new ≡ step.Command made (Some (record { bytes = bytes.now; offsets = offsets.now }))) }
{
    if let Step::Command { command, parcel } = to {
        if let Some(there) = parcel {
            refill(alloc, &mut there.bytes, bytes)?;
            refill(alloc, &mut there.offsets, offsets)?;
            *command = made;
            return Ok(());
        }
    }
    *to = Step::Command {
        command: made,
        parcel: Some(Parcel {
            bytes: Bytes::new(Vec::from_slice(alloc, bytes)?),
            offsets: Bytes::new(Vec::from_slice(alloc, offsets)?),
        }),
    };
    Ok(())
}

// An entry that nobody made.
fn no_entry() -> Entry {
    Entry {
        seat: 0,
        step: Step::ExitThread,
        answer: StepAnswer::Exited,
    }
}

/// The entries of the latest commands, which stay from command to command: nothing of them is cleared for the next one.
#[derive(Drop)]
pub(crate) struct Sheet {
    // Of the latest without a parcel.
    bare: Entry,
    // Of the latest with one, whose memory the next one's is put into.
    sent: Entry,
    alloc: Global,
}

impl Sheet {
    /// Entries that nobody made, and no memory yet.
    pub(crate) fn new(alloc: Global) -> Sheet {
        Sheet {
            bare: no_entry(),
            sent: no_entry(),
            alloc,
        }
    }

    /// Puts the step of a command there, whose parcel is cut from the area, and has its entry. Errors: memory was refused.
    #[inline(always)]
    pub(crate) fn put(
        &mut self,
        seat: u32,
        area: &[u8],
        command: Command,
    ) -> Result<&mut Entry, AllocError>
        ensures seat { IfOk result (λ entry. entry.now.seat ≡ seat) }
        ensures step { IfOk result (λ entry. entry.now.step ≡ step_of_command area.now command) }
    {
        match cut(area, &command) {
            None => {
                self.bare.seat = seat;
                put_bare(&mut self.bare.step, command);
                Ok(&mut self.bare)
            }
            Some((data, offsets)) => {
                self.sent.seat = seat;
                put_sent(self.alloc, &mut self.sent.step, command, data, offsets)?;
                Ok(&mut self.sent)
            }
        }
    }

    /// Gives up the memory of the parcels that were cut from this area, where it is much.
    #[inline(always)]
    pub(crate) fn leave_much(&mut self, area: &[u8]) {
        // Of a part of a smaller area there isn't much.
        if area.len() <= MUCH {
            return;
        }
        if let Step::Command { command: _, parcel } = &mut self.sent.step {
            if let Some(there) = parcel {
                leave_much(self.alloc, &mut there.bytes);
                leave_much(self.alloc, &mut there.offsets);
            }
        }
    }
}
