//! Texts for numbers that C is told: of a status, a fault, a cause, a note, and the names of commands and returns.
ghost use Rattle.std.specs.Prelude.{◌≡◌};
ghost use Rattle.bd_c.specs.Texts.{text_in, status_texts, fault_texts, cause_texts, note_texts, command_texts, return_texts};
ghost use Rattle.bd_c.specs.{Texts.{text_of, version}, Parts.{Fetches}};

use crate::parts::fill;
use bd_uapi::codes::{
    BC_ACQUIRE, BC_ACQUIRE_DONE, BC_ACQUIRE_RESULT, BC_ATTEMPT_ACQUIRE,
    BC_CLEAR_DEATH_NOTIFICATION, BC_DEAD_BINDER_DONE, BC_DECREFS, BC_ENTER_LOOPER, BC_EXIT_LOOPER,
    BC_FREE_BUFFER, BC_INCREFS, BC_INCREFS_DONE, BC_REGISTER_LOOPER, BC_RELEASE, BC_REPLY,
    BC_REPLY_SG, BC_REQUEST_DEATH_NOTIFICATION, BC_TRANSACTION, BC_TRANSACTION_SG, BR_ACQUIRE,
    BR_CLEAR_DEATH_NOTIFICATION_DONE, BR_DEAD_BINDER, BR_DEAD_REPLY, BR_DECREFS, BR_FAILED_REPLY,
    BR_INCREFS, BR_NOOP, BR_ONEWAY_SPAM_SUSPECT, BR_RELEASE, BR_REPLY, BR_TRANSACTION,
    BR_TRANSACTION_COMPLETE,
};

// The text of a status, which tells whether a call was made.
fn status_text(number: u32) -> &'static str
    ensures { result.now ≡ text_in status_texts number }
{
    match number {
        0 => "done",
        1 => "out of memory",
        2 => "a request of the seat is handed over",
        3 => "no request of the seat is handed over",
        4 => "another seat has the engine",
        5 => "there is no such request",
        6 => "the number of seats is out of range",
        7 => "all seats are taken",
        8 => "a seat is away",
        9 => "there is no journal",
        10 => "there is no such seat",
        11 => "the history is full",
        12 => "the bytes are not one command",
        13 => "the handle is not what the call is for",
        14 => "the journal is of no history",
        _ => "",
    }
}

// Why a request, or the rest of a stream, is refused.
fn fault_text(number: u32) -> &'static str
    ensures { result.now ≡ text_in fault_texts number }
{
    match number {
        1 => "the command is cut short",
        2 => "no such command",
        3 => "the command is not supported",
        4 => "the seat has no process",
        5 => "the seat has a process",
        6 => "a live process has this pid",
        7 => "the pid is out of range",
        8 => "the size of the window is out of range",
        9 => "no live process has this pid",
        10 => "there is a manager",
        11 => "the limit of the read is too small",
        12 => "there is nothing to read",
        13 => "the history is full",
        14 => "out of memory",
        15 => "the stream is too long",
        16 => "the number of seats is out of range",
        _ => "",
    }
}

// Why a transaction or a reply is refused.
fn cause_text(number: u32) -> &'static str
    ensures { result.now ≡ text_in cause_texts number }
{
    match number {
        1 => "the handle is not strongly named",
        2 => "there is no manager",
        3 => "the manager calls itself",
        4 => "the owner has ended",
        5 => "the thread does not serve its innermost call",
        6 => "the thread has a call or a reply to read",
        7 => "the parcel is outside the area",
        8 => "the offsets are no whole numbers",
        9 => "an offset or an object is bad",
        10 => "an object is not supported",
        11 => "the cookie differs",
        12 => "a sent handle is not held",
        13 => "the window has no room",
        14 => "the one-way buffers take over half of the window",
        15 => "there is no call to reply to",
        16 => "the caller has ended",
        _ => "",
    }
}

// Why a command changed nothing.
fn note_text(number: u32) -> &'static str
    ensures { result.now ≡ text_in note_texts number }
{
    match number {
        1 => "no such handle",
        2 => "nothing was asked for",
        3 => "there is no strong reference to share",
        4 => "the manager is the caller's own",
        5 => "no such buffer",
        6 => "the buffer is not yet handed out",
        7 => "no such object",
        8 => "nothing is to be acknowledged",
        9 => "a death notification stands already",
        10 => "no death notification with that cookie",
        11 => "no death was told with that cookie",
        _ => "",
    }
}

// The name of the command that has this code.
fn command_text(number: u32) -> &'static str
    ensures { result.now ≡ text_in command_texts number }
{
    match number {
        BC_TRANSACTION => "BC_TRANSACTION",
        BC_REPLY => "BC_REPLY",
        BC_FREE_BUFFER => "BC_FREE_BUFFER",
        BC_INCREFS => "BC_INCREFS",
        BC_ACQUIRE => "BC_ACQUIRE",
        BC_RELEASE => "BC_RELEASE",
        BC_DECREFS => "BC_DECREFS",
        BC_INCREFS_DONE => "BC_INCREFS_DONE",
        BC_ACQUIRE_DONE => "BC_ACQUIRE_DONE",
        BC_ENTER_LOOPER => "BC_ENTER_LOOPER",
        BC_EXIT_LOOPER => "BC_EXIT_LOOPER",
        BC_REQUEST_DEATH_NOTIFICATION => "BC_REQUEST_DEATH_NOTIFICATION",
        BC_CLEAR_DEATH_NOTIFICATION => "BC_CLEAR_DEATH_NOTIFICATION",
        BC_DEAD_BINDER_DONE => "BC_DEAD_BINDER_DONE",
        BC_ATTEMPT_ACQUIRE => "BC_ATTEMPT_ACQUIRE",
        BC_ACQUIRE_RESULT => "BC_ACQUIRE_RESULT",
        BC_REGISTER_LOOPER => "BC_REGISTER_LOOPER",
        BC_TRANSACTION_SG => "BC_TRANSACTION_SG",
        BC_REPLY_SG => "BC_REPLY_SG",
        _ => "",
    }
}

// The name of the return that has this code.
fn return_text(number: u32) -> &'static str
    ensures { result.now ≡ text_in return_texts number }
{
    match number {
        BR_TRANSACTION => "BR_TRANSACTION",
        BR_REPLY => "BR_REPLY",
        BR_DEAD_REPLY => "BR_DEAD_REPLY",
        BR_TRANSACTION_COMPLETE => "BR_TRANSACTION_COMPLETE",
        BR_INCREFS => "BR_INCREFS",
        BR_ACQUIRE => "BR_ACQUIRE",
        BR_RELEASE => "BR_RELEASE",
        BR_DECREFS => "BR_DECREFS",
        BR_NOOP => "BR_NOOP",
        BR_DEAD_BINDER => "BR_DEAD_BINDER",
        BR_CLEAR_DEATH_NOTIFICATION_DONE => "BR_CLEAR_DEATH_NOTIFICATION_DONE",
        BR_FAILED_REPLY => "BR_FAILED_REPLY",
        BR_ONEWAY_SPAM_SUSPECT => "BR_ONEWAY_SPAM_SUSPECT",
        _ => "",
    }
}

// The text of a number of this kind, empty where there is none: 1 status, 2 fault, 3 cause, 4 note, 5 command, 6 return.
fn text_of(kind: u32, number: u32) -> &'static str
    ensures { result.now ≡ text_of kind number }
{
    match kind {
        1 => status_text(number),
        2 => fault_text(number),
        3 => cause_text(number),
        4 => note_text(number),
        5 => command_text(number),
        6 => return_text(number),
        _ => "",
    }
}

/// Copies the text of a number of this kind, if all of it fits. Answers how many bytes it has, 0 where there is none.
#[unsafe(no_mangle)]
pub extern "C" fn hullpippin_text_bytes(kind: u32, number: u32, out: &mut [u8]) -> usize
    ensures { Fetches (text_of kind number) out.old out.new result }
{
    fill(out, text_of(kind, number).as_bytes())
}

// The three numbers of the library's version, a byte each.
const VERSION: u32 = 0x020000;

/// The version of the library: its three numbers, a byte each.
#[unsafe(no_mangle)]
pub extern "C" fn hullpippin_version() -> u32
    ensures { result ≡ version }
{
    VERSION
}
