//! The numbers by which outputs and journals name notes, causes and faults.

ghost use Rattle.std.specs.Prelude.{◌≡◌};
ghost use Rattle.bd_spelling.specs.Codes.{bit, bits, note_number, cause_number, fault_number, numbered};

use bd_uapi::{Cause, Fault, Note};

// All notes, in the order of their numbers.
const NOTES: [Note; 11] = [
    Note::NoSuchNumber,
    Note::NothingAsked,
    Note::NotStrong,
    Note::OwnManager,
    Note::NoSuchBuffer,
    Note::NotHandedOut,
    Note::NoSuchObject,
    Note::NoHandshake,
    Note::AlreadyAsked,
    Note::NoneAsked,
    Note::NoneTold,
];

// All causes, in the order of their numbers.
const CAUSES: [Cause; 16] = [
    Cause::NotStronglyNamed,
    Cause::NoManager,
    Cause::OwnManager,
    Cause::DeadOwner,
    Cause::NotServing,
    Cause::Unread,
    Cause::OutsideArea,
    Cause::OffsetsSize,
    Cause::BadObject,
    Cause::UnsupportedObject,
    Cause::OtherCookie,
    Cause::NotHeld,
    Cause::NoRoom,
    Cause::OverBudget,
    Cause::NoCall,
    Cause::CallerGone,
];

// All faults, in the order of their numbers.
const FAULTS: [Fault; 16] = [
    Fault::ShortCommand,
    Fault::UnknownCommand,
    Fault::RefusedCommand,
    Fault::NoProcess,
    Fault::HasProcess,
    Fault::PidTaken,
    Fault::PidRange,
    Fault::WindowSize,
    Fault::NoSuchPid,
    Fault::ManagerBusy,
    Fault::ReadTooSmall,
    Fault::Again,
    Fault::HistoryFull,
    Fault::NoMemory,
    Fault::StreamTooLong,
    Fault::SeatCount,
];

/// The number that a note has in journals and in rules (N1 to N11).
pub fn note_number(note: Note) -> u8
    ensures { result ≡ note_number note }
{
    note as u8 + 1
}

/// The number that a cause has in journals and in rules (X1 to X16).
pub fn cause_number(cause: Cause) -> u8
    ensures { result ≡ cause_number cause }
{
    cause as u8 + 1
}

/// The number that a fault has in journals and in rules (F1 to F16).
pub fn fault_number(fault: Fault) -> u8
    ensures { result ≡ fault_number fault }
{
    fault as u8 + 1
}

// What a switch is set to: 0 is off, 1 is on, and no other number is a switch.
pub fn switch_with(number: u8) -> Option<bool>
    ensures { result ≡ numbered bit bits number }
{
    match number {
        0 => Some(false),
        1 => Some(true),
        _ => None,
    }
}

// The note with this number.
pub fn note_with(number: u8) -> Option<Note>
    ensures { result ≡ numbered note_number NOTES number }
{
    NOTES
        .iter()
        .copied()
        .find(|note| note_number(*note) == number)
}

// The cause with this number.
pub fn cause_with(number: u8) -> Option<Cause>
    ensures { result ≡ numbered cause_number CAUSES number }
{
    CAUSES
        .iter()
        .copied()
        .find(|cause| cause_number(*cause) == number)
}

// The fault with this number.
pub fn fault_with(number: u8) -> Option<Fault>
    ensures { result ≡ numbered fault_number FAULTS number }
{
    FAULTS
        .iter()
        .copied()
        .find(|fault| fault_number(*fault) == number)
}
