//! A command that C gives to a live engine.
ghost use Rattle.std.specs.Prelude.{◌≡◌, IfOk, IfSome, IfNone};
ghost use Rattle.bd_c.specs.{LiveCommands.{parcel_given, step_given, IsCommandOf, IsNoCommand}, Lives.{Steps}};

use crate::answers::Told;
use crate::live::OwnedLive;
use crate::requests::copied;
use crate::status::Status;
use bd_codec::read_command;
use bd_space::{Parcel, Step};
use bd_uapi::Command;
use std::alloc::{AllocError, Global};

fn parcel(alloc: Global, bytes: &[u8], offsets: &[u8]) -> Result<Parcel, AllocError>
    ensures { IfOk result (λ p. p ≡ record { bytes = bytes.now; offsets = offsets.now }) }
{
    Ok(Parcel {
        bytes: copied(alloc, bytes)?,
        offsets: copied(alloc, offsets)?,
    })
}

// What is given with a transaction or reply, in memory of its own. With another command nothing is looked at.
fn parcel_for(
    alloc: Global,
    command: &Command,
    bytes: &[u8],
    offsets: &[u8],
) -> Result<Option<Parcel>, AllocError>
    ensures { IfOk result (λ p. p ≡ parcel_given command.now bytes.now offsets.now) }
{
    match command {
        Command::Transaction(_) | Command::Reply(_) => match parcel(alloc, bytes, offsets) {
            Ok(parcel) => Ok(Some(parcel)),
            Err(error) => Err(error),
        },
        _ => Ok(None),
    }
}

/// The command whose bytes these are, all of them.
pub(crate) fn command_of(bytes: &[u8]) -> Option<Command>
    ensures some { IfSome result (IsCommandOf bytes.now) }
    ensures none { IfNone result (IsNoCommand bytes.now) }
{
    match read_command(bytes) {
        Err(_) => None,
        Ok((command, size)) => {
            if size != bytes.len() {
                return None;
            }
            Some(command)
        }
    }
}

impl OwnedLive {
    /// Runs a command, with what is given as its parcel. Whether there is a place for its step is asked before anything is
    /// copied, so that want of memory isn't told of a full history.
    #[tactic(auto, using(crate::proofs::Commanding::full, crate::proofs::Commanding::has_place, crate::proofs::Commanding::rests))]
    pub(crate) fn command(
        &mut self,
        alloc: Global,
        seat: u32,
        command: Command,
        bytes: &[u8],
        offsets: &[u8],
        told: &mut Told,
    ) -> Status
        ensures { Steps self.old self.new seat (step_given command bytes.now offsets.now) result told.old told.new }
    {
        if seat >= self.bridge.engine.live.seats() {
            return Status::NoSuchSeat;
        }
        if self.bridge.engine.live.len() == u64::MAX {
            return Status::HistoryFull;
        }
        match parcel_for(alloc, &command, bytes, offsets) {
            Ok(parcel) => self.make(seat, Step::Command { command, parcel }, told),
            Err(_) => Status::NoMemory,
        }
    }
}
