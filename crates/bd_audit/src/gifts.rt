//! The gifts by which a process came to a name.

ghost use Rattle.std.specs.Prelude.{◌≡◌, IfOk, IfErr, IfSome, MatchResult, is_some};
ghost use Rattle.bd_engine.specs.Refusals.{IsLiveSeats};
ghost use Rattle.bd_uapi.specs.declared.fault.Fault.TheVariants as faults;
ghost use Rattle.bd_space.specs.Histories.{IsHistory, space_after};
ghost use Rattle.bd_spelling.specs.Records.{history_in};
ghost use Rattle.bd_engine.specs.Looks as looks;
ghost use Rattle.bd_audit.specs.{Replays.{with_entry}, Gifts.{IsChainOf}};
ghost use Rattle.bd_audit.specs.GiftSearch as spec;

use crate::playing::advance;
use bd_engine::{Looks, WideEngine};
use bd_space::{Entry, Identity};
use bd_spelling::Record;
use bd_uapi::Fault;
use std::alloc::Global;

/// A gift of an object to a process, by which its name for the object began.
#[derive(Clone, Copy)]
pub(crate) struct Gift {
    /// The process that came to the name, by the place of its Open.
    receiver: u64,
    /// The place of the step by which it came to it.
    place: u32,
    /// The process that gave the object by its own name for it, by the place of its Open; None where a gift chain begins here.
    giver: Option<u64>,
}

/// What a first replay of the record tells, before the gifts are looked for by a second one.
#[derive(Drop)]
pub(crate) struct Received {
    /// The engine after the last step.
    engine: WideEngine,
    /// For each entry, the process in whose window its step made a buffer.
    receivers: Vec<Option<u64>>,
}

/// A process, and an object that it has a name for.
#[derive(Clone, Copy)]
pub(crate) struct Holder {
    /// The process, by the place of its Open.
    process: u64,
    /// The object that it has a name for.
    object: Identity,
}

// The process of a seat, if it has a name for the object.
fn giver_of(engine: &WideEngine, seat: u32, object: Identity) -> Option<u64>
    ensures { result ≡ spec.giver_in (space_after engine.now) seat object }
{
    match Looks::process_of(engine, seat) {
        Some(process) => {
            if engine.knows(process, object) {
                Some(process)
            } else {
                None
            }
        }
        None => None,
    }
}

// The process in whose window the buffer made at this place lies.
fn receiver_at(engine: &WideEngine, place: u32) -> Option<u64>
    ensures { result ≡ spec.receiver_at (space_after engine.now) place }
{
    match Looks::buffer(engine, u64::from(place)) {
        Some(buffer) => Some(buffer.receiver()),
        None => None,
    }
}

// An engine that has made the steps of these entries, and the process that received at each of them.
fn receivers_of(alloc: Global, seats: u32, entries: &[Entry]) -> Result<Received, Fault>
    requires seats { IsLiveSeats seats }
    requires lawful { IsHistory (record { seats = seats; entries = entries.now }) }
    ensures engine { IfOk result (λ r. r.engine ≡ record { seats = seats; entries = entries.now }) }
    ensures receivers { IfOk result (λ r. spec.AreReceivers entries.now r.receivers.items) }
    ensures fault { IfErr result (λ f. f ≡ faults.NoMemory) }
{
    let Ok(mut engine) = WideEngine::new(alloc, seats) else {
        return Err(Fault::NoMemory);
    };
    let mut receivers = Vec::new(alloc);
    for entry in entries {
        let place = engine.len();
        advance(&mut engine, entry)?;
        if receivers.push(receiver_at(&engine, place)).is_err() {
            return Err(Fault::NoMemory);
        }
    }
    Ok(Received { engine, receivers })
}

// Makes the step of an entry of a history. Answers its gift, if the receiver's name for the object begins with it.
fn gift_made(
    engine: &mut WideEngine,
    entry: &Entry,
    receiver: u64,
    object: Identity,
) -> Result<Option<Gift>, Fault>
    requires lawful { IsHistory (with_entry engine.old entry.now) }
    ensures ok { IfOk result (λ _. engine.new ≡ with_entry engine.old entry.now) }
    ensures gift { IfOk result (λ g. g ≡ spec.gift_made engine.old.entries entry.now receiver object) }
    ensures fault { IfErr result (λ f. f ≡ faults.NoMemory) }
{
    let gift = Gift {
        receiver,
        place: engine.len(),
        giver: giver_of(engine, entry.seat, object),
    };
    let knew = engine.knows(receiver, object);
    advance(engine, entry)?;
    if !knew && engine.knows(receiver, object) {
        Ok(Some(gift))
    } else {
        Ok(None)
    }
}

// Makes the step of an entry of a history. Answers its gift, if a name for the object begins with it: to the process that
// receives there, or else to the one that asks.
fn next_gift(
    engine: &mut WideEngine,
    entry: &Entry,
    receiver: Option<u64>,
    object: Identity,
) -> Result<Option<Gift>, Fault>
    requires lawful { IsHistory (with_entry engine.old entry.now) }
    requires receiver { receiver ≡ spec.receiver_of engine.old.entries entry.now }
    ensures ok { IfOk result (λ _. engine.new ≡ with_entry engine.old entry.now) }
    ensures gift { IfOk result (spec.IsGiftOf engine.old.entries entry.now object) }
    ensures fault { IfErr result (λ f. f ≡ faults.NoMemory) }
{
    match receiver.or(Looks::process_of(engine, entry.seat)) {
        Some(process) => gift_made(engine, entry, process, object),
        None => {
            advance(engine, entry)?;
            Ok(None)
        }
    }
}

// The gifts by which names for the object began, in the order of their places.
fn gifts_of(
    alloc: Global,
    seats: u32,
    entries: &[Entry],
    receivers: &[Option<u64>],
    object: Identity,
) -> Result<Vec<Gift>, Fault>
    requires seats { IsLiveSeats seats }
    requires lawful { IsHistory (record { seats = seats; entries = entries.now }) }
    requires receivers { spec.AreReceivers entries.now receivers.now }
    ensures { MatchResult result (λ v. spec.AreGifts entries.now object v.items) (λ f. f ≡ faults.NoMemory) }
{
    let Ok(mut engine) = WideEngine::new(alloc, seats) else {
        return Err(Fault::NoMemory);
    };
    let mut gifts = Vec::new(alloc);
    for entry in entries {
        let receiver = receivers[engine.len() as usize];
        if let Some(gift) = next_gift(&mut engine, entry, receiver, object)? {
            if gifts.push(gift).is_err() {
                return Err(Fault::NoMemory);
            }
        }
    }
    Ok(gifts)
}

// The places of the gifts on the way to the receiver, found from its end: the latest gift to it, the latest one before that
// to its giver, and so on.
fn way_to(alloc: Global, gifts: Vec<Gift>, receiver: u64) -> Result<Vec<u32>, Fault>
    requires linked { spec.IsLinked gifts.items }
    requires given { spec.HasGift gifts.items receiver }
    ensures { MatchResult result (λ v. spec.IsWay gifts.items v.items receiver) (λ f. f ≡ faults.NoMemory) }
{
    let mut left = gifts;
    let mut places = Vec::new(alloc);
    let mut next = Some(receiver);
    while let Some(gift) = left.pop() {
        if next == Some(gift.receiver) {
            if places.push(gift.place).is_err() {
                return Err(Fault::NoMemory);
            }
            next = gift.giver;
        }
    }
    places.reverse();
    Ok(places)
}

// The live process with this pid, with what the number names for it.
fn holder_in(engine: &WideEngine, pid: u32, number: u32) -> Option<Holder>
    ensures some { IfSome result (λ k. spec.IsHolder (space_after engine.now) pid number k.process k.object) }
    ensures none { is_some result ≡ is_some (looks.named_by (space_after engine.now) pid number) }
{
    let process = engine.process_of_pid(pid)?;
    let object = Looks::named(engine, pid, number)?;
    Some(Holder { process, object })
}

/// The places of the gifts by which the process with this pid came to its name (handle) `number`; None where there is no
/// such live process or name. The record is a history; the only fault is `NoMemory`.
pub fn gift_chain(
    alloc: Global,
    history: &Record,
    pid: u32,
    number: u32,
) -> Result<Option<Vec<u32>>, Fault>
    requires seats { IsLiveSeats history.now.seats }
    requires lawful { IsHistory (history_in history.now) }
    // The places are a gift chain for what the number names.
    ensures chain { IfOk result (λ c. IfSome c (λ v. IsChainOf (history_in history.now) pid number v.items)) }
    // There is one exactly where there is such a process and name.
    ensures none { IfOk result (λ c. is_some c ≡ is_some (looks.named_by (space_after (history_in history.now)) pid number)) }
    ensures fault { IfErr result (λ f. f ≡ faults.NoMemory) }
{
    let Ok(entries) = history.entries.copied(alloc) else {
        return Err(Fault::NoMemory);
    };
    let first = receivers_of(alloc, history.seats, &entries)?;
    let Some(holder) = holder_in(&first.engine, pid, number) else {
        return Ok(None);
    };
    let gifts = gifts_of(
        alloc,
        history.seats,
        &entries,
        &first.receivers,
        holder.object,
    )?;
    let places = way_to(alloc, gifts, holder.process)?;
    Ok(Some(places))
}
