//! Certificates: what is so of the history whose journal some bytes are.
ghost use Rattle.std.specs.Prelude.{◌≡◌, ℕ, List, Option, map, IfOk, IfErr};
ghost use Rattle.bd_engine.specs.Refusals.{IsLiveSeats};
ghost use Rattle.bd_spelling.specs.declared.record.Record.{Record};
ghost use Rattle.bd_spelling.specs.Records.{history_in};
ghost use Rattle.bd_journal.specs.Spelling.{Tells as IsJournalOf};
ghost use Rattle.bd_audit.specs.{CallOf.{IsAnswerOf}, TurnCalls.{AreTurns}};
ghost use Rattle.bd_audit.specs.declared.turns.Turn as declared;
ghost use Rattle.bd_c.specs.{Status.{Reports}, Parts.{Fetches}};
ghost use Rattle.bd_c.specs.Certificates.{IsHistoryOf, IsNoHistory, Certifies, IsChain, place_told, turn_told};

use crate::parts::fill;
use crate::status::Status;
use bd_audit::{AuditFault, Turn, call_of_reply, gift_chain, oneway_turns, replay};
use bd_journal::{ReadError, read_journal};
use bd_space::ObjectId;
use bd_spelling::Record;
use std::alloc::{AllocError, Global};

/// A one-way call on an object. The number 4294967295 is no place.
#[repr(C)]
#[derive(Clone, Copy)]
pub struct TurnTold {
    /// The place of the step that made the call.
    pub made: u32,
    /// The place of the step that read it, or 4294967295.
    pub handed: u32,
    /// The place of the step by which its buffer ended, or 4294967295.
    pub ended: u32,
}

fn place_told(place: Option<u32>) -> u32
    ensures { result ≡ place_told place }
{
    place.unwrap_or(u32::MAX)
}

fn turn_told(turn: &Turn) -> TurnTold
    ensures { result ≡ turn_told turn.now }
{
    TurnTold {
        made: turn.made,
        handed: place_told(turn.handed),
        ended: place_told(turn.ended),
    }
}

fn turns_told(alloc: Global, turns: &[Turn]) -> Result<Vec<TurnTold>, AllocError>
    ensures { IfOk result (λ v. v.items ≡ map turn_told turns.now) }
{
    turns.iter().map(|turn| turn_told(turn)).collect(alloc)
}

// The record whose journal the bytes are.
fn record_of(alloc: Global, journal: &[u8]) -> Result<Record, Status>
    ensures ok { IfOk result (IsJournalOf journal.now) }
    ensures seats { IfOk result (λ r. IsLiveSeats r.seats) }
    ensures refused { IfErr result (IsNoHistory journal.now) }
{
    match read_journal(alloc, journal) {
        Ok(found) => Ok(found),
        Err(ReadError::Malformed) => Err(Status::NoJournal),
        Err(ReadError::Memory) => Err(Status::NoMemory),
    }
}

// The record whose journal the bytes are, where its entries are a history.
fn history_of(alloc: Global, journal: &[u8]) -> Result<Record, Status>
    ensures ok { IfOk result (IsHistoryOf journal.now) }
    ensures seats { IfOk result (λ r. IsLiveSeats r.seats) }
    ensures refused { IfErr result (IsNoHistory journal.now) }
{
    let found = record_of(alloc, journal)?;
    match replay(alloc, &found) {
        Ok(()) => Ok(found),
        Err(AuditFault::Unlawful { at: _ }) => Err(Status::Unlawful),
        Err(AuditFault::NoMemory) => Err(Status::NoMemory),
    }
}

// The places of the gift chain of what a handle names, none where it names nothing.
#[tactic(auto, using(crate::proofs::Certifying::is_chain, crate::proofs::Certifying::no_chain))]
fn chain(alloc: Global, journal: &[u8], pid: u32, handle: u32) -> Result<Vec<u32>, Status>
    ensures ok { IfOk result (λ v. (r : Record) × IsHistoryOf journal.now r × IsChain r pid handle v.items) }
    ensures refused { IfErr result (IsNoHistory journal.now) }
{
    let found = history_of(alloc, journal)?;
    match gift_chain(alloc, &found, pid, handle) {
        Ok(Some(places)) => Ok(places),
        Ok(None) => Ok(Vec::new(alloc)),
        Err(_) => Err(Status::NoMemory),
    }
}

// The place of the call that is answered by the reply which the step at this place reads.
fn answered(alloc: Global, journal: &[u8], place: u32) -> Result<Option<u32>, Status>
    ensures ok { IfOk result (λ found. (r : Record) × IsHistoryOf journal.now r × IsAnswerOf (history_in r) place found) }
    ensures refused { IfErr result (IsNoHistory journal.now) }
{
    let found = history_of(alloc, journal)?;
    match call_of_reply(alloc, &found, place) {
        Ok(call) => Ok(call),
        Err(_) => Err(Status::NoMemory),
    }
}

// The turns of an object, as C is told of them.
fn turns(alloc: Global, journal: &[u8], object: ObjectId) -> Result<Vec<TurnTold>, Status>
    ensures ok { IfOk result (λ v. (r : Record) × IsHistoryOf journal.now r × (ts : List declared.Turn) × AreTurns r.entries object ts
        × (v.items ≡ map turn_told ts)) }
    ensures refused { IfErr result (IsNoHistory journal.now) }
{
    let found = history_of(alloc, journal)?;
    let Ok(turns) = oneway_turns(alloc, &found, object) else {
        return Err(Status::NoMemory);
    };
    match turns_told(alloc, turns.as_slice()) {
        Ok(told) => Ok(told),
        Err(_) => Err(Status::NoMemory),
    }
}

/// Tells how what a handle names came to the live process with this pid, by the places of the gifts, the oldest first.
#[unsafe(no_mangle)]
pub extern "C" fn hullpippin_chain(
    alloc: Global,
    journal: &[u8],
    pid: u32,
    handle: u32,
    out: &mut [u32],
    count: &mut usize,
) -> u32
    ensures { Reports result (Certifies journal.now
        (λ r. (places : List ℕ) × IsChain r pid handle places × Fetches places out.old out.new count.new)
        ((out.new ≡ out.old) × (count.new ≡ count.old))) }
{
    match chain(alloc, journal, pid, handle) {
        Ok(places) => {
            *count = fill(out, places.as_slice());
            Status::Done.number()
        }
        Err(status) => status.number(),
    }
}

/// Tells which call is answered by the reply that the step at this place reads, by the place of its transaction.
#[unsafe(no_mangle)]
pub extern "C" fn hullpippin_call_of_reply(
    alloc: Global,
    journal: &[u8],
    place: u32,
    call: &mut u32,
) -> u32
    ensures { Reports result (Certifies journal.now
        (λ r. (found : Option ℕ) × IsAnswerOf (history_in r) place found × (call.new ≡ place_told found))
        (call.new ≡ call.old)) }
{
    match answered(alloc, journal, place) {
        Ok(found) => {
            *call = place_told(found);
            Status::Done.number()
        }
        Err(status) => status.number(),
    }
}

/// Tells the one-way calls on an object, in the order in which they were made.
#[unsafe(no_mangle)]
pub extern "C" fn hullpippin_turns(
    alloc: Global,
    journal: &[u8],
    place: u32,
    index: u32,
    out: &mut [TurnTold],
    count: &mut usize,
) -> u32
    ensures { Reports result (Certifies journal.now
        (λ r. (ts : List declared.Turn) × AreTurns r.entries (record { place = place; index = index }) ts
        × Fetches (map turn_told ts) out.old out.new count.new)
        ((out.new ≡ out.old) × (count.new ≡ count.old))) }
{
    match turns(alloc, journal, ObjectId { place, index }) {
        Ok(told) => {
            *count = fill(out, told.as_slice());
            Status::Done.number()
        }
        Err(status) => status.number(),
    }
}
