//! Reading and writing commands.

ghost use Rattle.std.specs.Prelude.{◌≡◌, ◌≤◌, ◌<◌, ◌+◌, ◌++◌, ℕ, List, length, Ok, Some, None, IfOk, MatchResult, OnOk, OnErr, IfErr, vec_len, vec_capacity};
ghost use Rattle.bd_uapi.specs.{declared.command.Command.{Command}, declared.fault.Fault.TheVariants.{NoMemory}};
ghost use Rattle.bd_codec.specs.{Spelling.{command_bytes, IsCommand, Found}, Faults.{command_fault}};
ghost use Rattle.bd_codec.specs.Reading.{command_at, command_of};

use crate::payloads::{bare, code, handle, handle_and_cookie, pointer, pointer_and_cookie, record};
use crate::spelling::Spelling;
use bd_uapi::codes::*;
use bd_uapi::{Command, Fault};

#[tactic(auto, unfolding(crate::specs::Reading::command_of))]
fn command_with(code: u32, bytes: &[u8]) -> Result<(Command, usize), Fault>
    requires { 4 ≤ length bytes.now }
    ensures { result ≡ command_of code bytes.now }
{
    match code {
        BC_TRANSACTION => record(bytes, Command::Transaction),
        BC_REPLY => record(bytes, Command::Reply),
        BC_FREE_BUFFER => pointer(bytes, Command::FreeBuffer),
        BC_INCREFS => handle(bytes, Command::Increfs),
        BC_ACQUIRE => handle(bytes, Command::Acquire),
        BC_RELEASE => handle(bytes, Command::Release),
        BC_DECREFS => handle(bytes, Command::Decrefs),
        BC_INCREFS_DONE => pointer_and_cookie(bytes, Command::IncrefsDone),
        BC_ACQUIRE_DONE => pointer_and_cookie(bytes, Command::AcquireDone),
        BC_ENTER_LOOPER => bare(Command::EnterLooper),
        BC_EXIT_LOOPER => bare(Command::ExitLooper),
        BC_REQUEST_DEATH_NOTIFICATION => handle_and_cookie(
            bytes,
            Command::RequestDeathNotification,
        ),
        BC_CLEAR_DEATH_NOTIFICATION => handle_and_cookie(bytes, Command::ClearDeathNotification),
        BC_DEAD_BINDER_DONE => pointer(bytes, Command::DeadBinderDone),
        BC_ACQUIRE_RESULT
        | BC_ATTEMPT_ACQUIRE
        | BC_REGISTER_LOOPER
        | BC_TRANSACTION_SG
        | BC_REPLY_SG => Err(Fault::RefusedCommand),
        _ => Err(Fault::UnknownCommand),
    }
}

fn first_command(bytes: &[u8]) -> Result<(Command, usize), Fault>
    ensures { result ≡ command_at bytes.now }
{
    command_with(code(bytes)?, bytes)
}

/// Reads one command from the head of a stream, and tells its length. What comes after it isn't looked at.
///
/// # Errors
/// `ShortCommand` (F1) where the bytes end before the code or before its payload does, `RefusedCommand` (F3) for the
/// five codes that are known and not supported, `UnknownCommand` (F2) for every other code.
pub fn read_command(bytes: &[u8]) -> Result<(Command, usize), Fault>
    // The first bytes are the command's spelling.
    ensures found { IfOk result (λ r. Found command_bytes IsCommand bytes.now r.0 r.1) }
    // Bytes that a command's spelling heads are read as that command, and so as no other.
    ensures only { (c : Command) (rest : List ℕ) → IsCommand c → bytes.now ≡ command_bytes c ++ rest
        → result ≡ Ok (c, length (command_bytes c)) }
    // Which fault it is.
    ensures fault { MatchResult result (λ _. command_fault bytes.now ≡ None) (λ f. command_fault bytes.now ≡ Some f) }
    // All of it at once, by a function that computes.
    ensures computed { result ≡ command_at bytes.now }
{
    first_command(bytes)
}

/// Spells the command, and takes no memory for it.
pub fn spell_command(c: &Command) -> Spelling
    ensures spelled { result ≡ command_bytes c.now }
    ensures within { length result ≤ 68 }
    // Each number of a command has its width.
    ensures fits { IsCommand c.now }
{
    match c {
        Command::Transaction(t) => Spelling::of(BC_TRANSACTION).record(t),
        Command::Reply(t) => Spelling::of(BC_REPLY).record(t),
        Command::FreeBuffer(pointer) => Spelling::of(BC_FREE_BUFFER).long(*pointer),
        Command::Increfs(handle) => Spelling::of(BC_INCREFS).word(*handle),
        Command::Acquire(handle) => Spelling::of(BC_ACQUIRE).word(*handle),
        Command::Release(handle) => Spelling::of(BC_RELEASE).word(*handle),
        Command::Decrefs(handle) => Spelling::of(BC_DECREFS).word(*handle),
        Command::IncrefsDone(pointer, cookie) => {
            Spelling::of(BC_INCREFS_DONE).long(*pointer).long(*cookie)
        }
        Command::AcquireDone(pointer, cookie) => {
            Spelling::of(BC_ACQUIRE_DONE).long(*pointer).long(*cookie)
        }
        Command::EnterLooper => Spelling::of(BC_ENTER_LOOPER),
        Command::ExitLooper => Spelling::of(BC_EXIT_LOOPER),
        Command::RequestDeathNotification(handle, cookie) => {
            Spelling::of(BC_REQUEST_DEATH_NOTIFICATION)
                .word(*handle)
                .long(*cookie)
        }
        Command::ClearDeathNotification(handle, cookie) => {
            Spelling::of(BC_CLEAR_DEATH_NOTIFICATION)
                .word(*handle)
                .long(*cookie)
        }
        Command::DeadBinderDone(cookie) => Spelling::of(BC_DEAD_BINDER_DONE).long(*cookie),
    }
}

/// Appends the command's spelling.
///
/// # Errors
/// `NoMemory` (F14), and then nothing is appended.
pub fn write_command(c: &Command, out: &mut Vec<u8>) -> Result<(), Fault>
    ensures ok { OnOk result (out.new.items ≡ out.old.items ++ command_bytes c.now) }
    ensures err { OnErr result (out.new.items ≡ out.old.items) }
    ensures memory { IfErr result (λ f. f ≡ NoMemory) }
    // Memory was asked for: there was no room.
    ensures grown { OnErr result (vec_capacity out.old < vec_len out.old + length (command_bytes c.now)) }
{
    Ok(out.extend_from_slice(spell_command(c).as_slice())?)
}

/// No command's spelling begins another's.
pub fn no_command_begins_another()
    ensures { (c d : Command) (x y : List ℕ) → IsCommand c → IsCommand d → command_bytes c ++ x ≡ command_bytes d ++ y
        → (c ≡ d) × (x ≡ y) }
{}
