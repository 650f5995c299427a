//! Why something is refused, each reason with its number in outputs and journals.

ghost use Rattle.std.specs.Prelude.{◌≡◌};
ghost use Rattle.bd_uapi.specs.declared.fault.Fault.TheVariants.{NoMemory};

use std::alloc::AllocError;
use thiserror::Error;

/// Why a request, or the rest of a stream, is refused: F1 to F16.
#[derive(Clone, Copy, Debug, PartialEq, Eq, Error)]
pub enum Fault {
    /// F1: the bytes end before the command does.
    #[error("the command is cut short")]
    ShortCommand,
    /// F2: no command has this code.
    #[error("no such command")]
    UnknownCommand,
    /// F3: the code is known, and refused.
    #[error("the command is not supported")]
    RefusedCommand,
    /// F4: the seat has no live thread.
    #[error("the seat has no process")]
    NoProcess,
    /// F5: the seat has a live thread already.
    #[error("the seat has a process")]
    HasProcess,
    /// F6: a live process has the pid.
    #[error("a live process has this pid")]
    PidTaken,
    /// F7: the pid is 0 or above 2147483647.
    #[error("the pid is out of range")]
    PidRange,
    /// F8: the window's size isn't a multiple of 4096 from 4096 to 4194304.
    #[error("the size of the window is out of range")]
    WindowSize,
    /// F9: no live process has the pid.
    #[error("no live process has this pid")]
    NoSuchPid,
    /// F10: there is a context manager, or the process owns an object with ptr 0.
    #[error("there is a manager")]
    ManagerBusy,
    /// F11: the limit of a read is below 72.
    #[error("the limit of the read is too small")]
    ReadTooSmall,
    /// F12: there is nothing to read.
    #[error("there is nothing to read")]
    Again,
    /// F13: the history can take no more steps.
    #[error("the history is full")]
    HistoryFull,
    /// F14: memory was refused.
    #[error("out of memory")]
    NoMemory,
    /// F15: the stream of a write is above 4096 bytes.
    #[error("the stream is too long")]
    StreamTooLong,
    /// F16: the number of seats is out of its limits.
    #[error("the number of seats is out of range")]
    SeatCount,
}

impl From<AllocError> for Fault {
    ghost from_gives = { λ _ e. e ≡ NoMemory };

    fn from(_e: AllocError) -> Fault {
        Fault::NoMemory
    }
}

/// Why a transaction or a reply is refused: X1 to X16.
#[derive(Clone, Copy, Debug, PartialEq, Eq, Error)]
pub enum Cause {
    /// X1: the sender has no strong name with this handle.
    #[error("the handle is not strongly named")]
    NotStronglyNamed,
    /// X2: handle 0, and there is no context manager.
    #[error("there is no manager")]
    NoManager,
    /// X3: handle 0, and the sender is the context manager's process.
    #[error("the manager calls itself")]
    OwnManager,
    /// X4: the owner of the target has ended.
    #[error("the owner has ended")]
    DeadOwner,
    /// X5: the thread is in a call and doesn't serve its innermost one.
    #[error("the thread does not serve its innermost call")]
    NotServing,
    /// X6: a call, a reply or an error reply stands unread on the thread's own list.
    #[error("the thread has a call or a reply to read")]
    Unread,
    /// X7: data or offsets end outside the area.
    #[error("the parcel is outside the area")]
    OutsideArea,
    /// X8: the size of the offsets isn't a multiple of 8.
    #[error("the offsets are no whole numbers")]
    OffsetsSize,
    /// X9: an offset is bad, or the type of an object is unknown.
    #[error("an offset or an object is bad")]
    BadObject,
    /// X10: a file descriptor, an array of them, or a pointer.
    #[error("an object is not supported")]
    UnsupportedObject,
    /// X11: the process has an object with this ptr and another cookie.
    #[error("the cookie differs")]
    OtherCookie,
    /// X12: the sender doesn't know the handle that it sends, or not strongly enough.
    #[error("a sent handle is not held")]
    NotHeld,
    /// X13: the receiver's window has no place for the buffer.
    #[error("the window has no room")]
    NoRoom,
    /// X14: one-way buffers would take over half of the window.
    #[error("the one-way buffers take over half of the window")]
    OverBudget,
    /// X15: the thread serves no call that it could answer.
    #[error("there is no call to reply to")]
    NoCall,
    /// X16: the calling thread has ended.
    #[error("the caller has ended")]
    CallerGone,
}

/// Why a command changes nothing: N1 to N11.
#[derive(Clone, Copy, Debug, PartialEq, Eq, Error)]
pub enum Note {
    /// N1: the process has no such handle.
    #[error("no such handle")]
    NoSuchNumber,
    /// N2: the process asked for no such reference.
    #[error("nothing was asked for")]
    NothingAsked,
    /// N3: nobody has a strong reference that could be shared.
    #[error("there is no strong reference to share")]
    NotStrong,
    /// N4: the manager's process asks for its own object by 0.
    #[error("the manager is the caller's own")]
    OwnManager,
    /// N5: no buffer has this pointer.
    #[error("no such buffer")]
    NoSuchBuffer,
    /// N6: the buffer hasn't been handed out.
    #[error("the buffer is not yet handed out")]
    NotHandedOut,
    /// N7: the process has no object with this ptr and cookie.
    #[error("no such object")]
    NoSuchObject,
    /// N8: the object waits for no such acknowledgement.
    #[error("nothing is to be acknowledged")]
    NoHandshake,
    /// N9: a death notification stands on the handle already.
    #[error("a death notification stands already")]
    AlreadyAsked,
    /// N10: no death notification stands on the handle, or its cookie differs.
    #[error("no death notification with that cookie")]
    NoneAsked,
    /// N11: no death was told with this cookie.
    #[error("no death was told with that cookie")]
    NoneTold,
}
