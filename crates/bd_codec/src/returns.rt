//! Reading and writing returns.

ghost use Rattle.std.specs.Prelude.{◌≡◌, ◌≤◌, ◌<◌, ◌+◌, ◌++◌, ℕ, List, length, Ok, Some, None, IfOk, MatchResult, OnOk, OnErr, IfErr, vec_len, vec_capacity};
ghost use Rattle.bd_uapi.specs.{declared.command.Return.{Return}, declared.fault.Fault.TheVariants.{NoMemory}};
ghost use Rattle.bd_codec.specs.{Spelling.{return_bytes, IsReturn, Found}, Faults.{return_fault}};
ghost use Rattle.bd_codec.specs.Reading.{return_at, return_of};

use crate::payloads::{bare, code, pointer, pointer_and_cookie, record};
use crate::spelling::Spelling;
use bd_uapi::codes::*;
use bd_uapi::{Fault, Return};

#[tactic(auto, unfolding(crate::specs::Reading::return_of))]
fn return_with(code: u32, bytes: &[u8]) -> Result<(Return, usize), Fault>
    requires { 4 ≤ length bytes.now }
    ensures { result ≡ return_of code bytes.now }
{
    match code {
        BR_TRANSACTION => record(bytes, Return::Transaction),
        BR_REPLY => record(bytes, Return::Reply),
        BR_DEAD_REPLY => bare(Return::DeadReply),
        BR_TRANSACTION_COMPLETE => bare(Return::TransactionComplete),
        BR_INCREFS => pointer_and_cookie(bytes, Return::Increfs),
        BR_ACQUIRE => pointer_and_cookie(bytes, Return::Acquire),
        BR_RELEASE => pointer_and_cookie(bytes, Return::Release),
        BR_DECREFS => pointer_and_cookie(bytes, Return::Decrefs),
        BR_NOOP => bare(Return::Noop),
        BR_DEAD_BINDER => pointer(bytes, Return::DeadBinder),
        BR_CLEAR_DEATH_NOTIFICATION_DONE => pointer(bytes, Return::ClearDeathNotificationDone),
        BR_FAILED_REPLY => bare(Return::FailedReply),
        BR_ONEWAY_SPAM_SUSPECT => bare(Return::OnewaySpamSuspect),
        _ => Err(Fault::UnknownCommand),
    }
}

fn first_return(bytes: &[u8]) -> Result<(Return, usize), Fault>
    ensures { result ≡ return_at bytes.now }
{
    return_with(code(bytes)?, bytes)
}

/// Reads one return from the head of a stream, and tells its length. What comes after it isn't looked at.
///
/// # Errors
/// `ShortCommand` (F1) where the bytes end before the code or before its payload does, `UnknownCommand` (F2) for every
/// code that isn't a return's.
pub fn read_return(bytes: &[u8]) -> Result<(Return, usize), Fault>
    // The first bytes are the return's spelling.
    ensures found { IfOk result (λ r. Found return_bytes IsReturn bytes.now r.0 r.1) }
    // Bytes that a return's spelling heads are read as that return, and so as no other.
    ensures only { (r : Return) (rest : List ℕ) → IsReturn r → bytes.now ≡ return_bytes r ++ rest
        → result ≡ Ok (r, length (return_bytes r)) }
    // Which fault it is.
    ensures fault { MatchResult result (λ _. return_fault bytes.now ≡ None) (λ f. return_fault bytes.now ≡ Some f) }
    // All of it at once, by a function that computes.
    ensures computed { result ≡ return_at bytes.now }
{
    first_return(bytes)
}

/// Spells the return, and takes no memory for it.
pub fn spell_return(r: &Return) -> Spelling
    ensures spelled { result ≡ return_bytes r.now }
    ensures within { length result ≤ 68 }
    // Each number of a return has its width.
    ensures fits { IsReturn r.now }
{
    match r {
        Return::Transaction(t) => Spelling::of(BR_TRANSACTION).record(t),
        Return::Reply(t) => Spelling::of(BR_REPLY).record(t),
        Return::DeadReply => Spelling::of(BR_DEAD_REPLY),
        Return::TransactionComplete => Spelling::of(BR_TRANSACTION_COMPLETE),
        Return::Increfs(pointer, cookie) => {
            Spelling::of(BR_INCREFS).long(*pointer).long(*cookie)
        }
        Return::Acquire(pointer, cookie) => {
            Spelling::of(BR_ACQUIRE).long(*pointer).long(*cookie)
        }
        Return::Release(pointer, cookie) => {
            Spelling::of(BR_RELEASE).long(*pointer).long(*cookie)
        }
        Return::Decrefs(pointer, cookie) => {
            Spelling::of(BR_DECREFS).long(*pointer).long(*cookie)
        }
        Return::Noop => Spelling::of(BR_NOOP),
        Return::DeadBinder(cookie) => Spelling::of(BR_DEAD_BINDER).long(*cookie),
        Return::ClearDeathNotificationDone(cookie) => {
            Spelling::of(BR_CLEAR_DEATH_NOTIFICATION_DONE).long(*cookie)
        }
        Return::FailedReply => Spelling::of(BR_FAILED_REPLY),
        Return::OnewaySpamSuspect => Spelling::of(BR_ONEWAY_SPAM_SUSPECT),
    }
}

/// Appends the return's spelling.
///
/// # Errors
/// `NoMemory` (F14), and then nothing is appended.
pub fn write_return(r: &Return, out: &mut Vec<u8>) -> Result<(), Fault>
    ensures ok { OnOk result (out.new.items ≡ out.old.items ++ return_bytes r.now) }
    ensures err { OnErr result (out.new.items ≡ out.old.items) }
    ensures memory { IfErr result (λ f. f ≡ NoMemory) }
    // Memory was asked for: there was no room.
    ensures grown { OnErr result (vec_capacity out.old < vec_len out.old + length (return_bytes r.now)) }
{
    Ok(out.extend_from_slice(spell_return(r).as_slice())?)
}

/// Appends the return's spelling to a `Vec` with room for 68 bytes, the longest spelling. Takes no memory.
pub fn write_return_reserved(r: &Return, out: &mut Vec<u8>)
    requires { vec_len out.old + 68 ≤ vec_capacity out.old }
    ensures items { out.new.items ≡ out.old.items ++ return_bytes r.now }
    ensures capacity { vec_capacity out.new ≡ vec_capacity out.old }
{
    spell_return(r).append_reserved(out);
}

/// No return's spelling begins another's.
pub fn no_return_begins_another()
    ensures { (r s : Return) (x y : List ℕ) → IsReturn r → IsReturn s → return_bytes r ++ x ≡ return_bytes s ++ y
        → (r ≡ s) × (x ≡ y) }
{}
