//! Certificates of a history: how a process came to a name, which call a reply answers, the turns of an object.

ghost use Rattle.std.specs.{Prelude.{◌≡◌, ◌≢◌, ◌≤◌, Some, length, IfErr, IfOk, IfSome, MatchOption, is_some}, List.{slice_get}};
ghost use Rattle.bd_engine.specs.Refusals.{IsLiveSeats};
ghost use Rattle.bd_space.specs.Histories.{IsHistory, space_after};
ghost use Rattle.bd_spelling.specs.Records.{history_in};
ghost use Rattle.bd_engine.specs.Looks as looks;
ghost use Rattle.bd_audit.specs.{CallOf.{IsAnswerOf}, Gifts.{IsChainOf}, Replays.{with_entry}, Replies.{call_answered}};
ghost use Rattle.bd_audit.specs.TurnCalls.{AreTurns};
ghost use Rattle.bd_player.specs.Certified.{AreChainOf, AreGiftsAt, IsMadeBy, Rise, named_by, turn_told};
ghost use Rattle.bd_player.specs.declared.untold.Untold.TheVariants.{OutOfRange};

use crate::entries::entry_at;
use crate::pids::{owner_of, pid_of, receiver_of};
use crate::texts::OrDash;
use crate::untold::Untold;
use bd_audit::{Turn, advance, call_of_reply, gift_chain, oneway_turns};
use bd_engine::{Looks, WideEngine};
use bd_space::{Entry, ObjectId};
use bd_spelling::Record;
use std::alloc::Global;
use std::fmt;
use std::io::Write;

/// The places of the gifts by which the process with this pid came to its name (handle) `number`, from the owner on; None
/// where there is no such live process or name.
pub(crate) fn chain_of(
    alloc: Global,
    record: &Record,
    pid: u32,
    number: u32,
) -> Result<Option<Vec<u32>>, Untold>
    requires seats { IsLiveSeats «record».now.seats }
    requires lawful { IsHistory (history_in «record».now) }
    ensures chain { IfOk result (λ c. IfSome c (λ v. IsChainOf (history_in «record».now) pid number v.items)) }
    ensures none { IfOk result (λ c. is_some c ≡ is_some (looks.named_by (space_after (history_in «record».now)) pid number)) }
    ensures range { IfErr result (λ u. u ≢ OutOfRange) }
{
    Ok(gift_chain(alloc, record, pid, number)?)
}

/// Where the call was made that is answered by the reading at this place; None where that reading handed out no reply.
pub(crate) fn answered_by(alloc: Global, record: &Record, place: u32) -> Result<Option<u32>, Untold>
    requires seats { IsLiveSeats «record».now.seats }
    requires lawful { IsHistory (history_in «record».now) }
    ensures answers { IfOk result (IsAnswerOf (history_in «record».now) place) }
    ensures found { IfOk result (λ found. found ≡ call_answered (history_in «record».now) place) }
    ensures range { IfErr result (λ u. u ≢ OutOfRange) }
{
    Ok(call_of_reply(alloc, record, place)?)
}

/// The one-way calls on an object, in the order in which they were made.
pub(crate) fn turns_on(
    alloc: Global,
    record: &Record,
    object: ObjectId,
) -> Result<Vec<Turn>, Untold>
    requires seats { IsLiveSeats «record».now.seats }
    requires lawful { IsHistory (history_in «record».now) }
    ensures turns { IfOk result (λ v. AreTurns «record».now.entries object v.items) }
    ensures range { IfErr result (λ u. u ≢ OutOfRange) }
{
    Ok(oneway_turns(alloc, record, object)?)
}

/// Which object a name means, and the pid of its owner.
#[derive(Clone, Copy)]
pub(crate) struct Named {
    object: ObjectId,
    owner: Option<u32>,
}

impl Named {
    // What a number names for the process with this pid.
    fn by(engine: &WideEngine, entries: &[Entry], pid: u32, number: u32) -> Option<Named>
        ensures { result ≡ named_by (space_after engine.now) entries.now pid number }
    {
        let object = engine.named(pid, number)?;
        Some(Named {
            object,
            owner: owner_of(engine, entries, object),
        })
    }
}

impl fmt::Display for Named {
    fn fmt<W: fmt::Write>(&self, f: &mut fmt::Formatter<W>) -> fmt::Result {
        let ObjectId { place, index } = self.object;
        let owner = OrDash(self.owner);
        write!(f, "object {place}.{index} of pid {owner}")
    }
}

/// How a process came to a name, if not as the object's owner.
#[derive(Clone, Copy)]
pub(crate) struct Gift {
    // The place of the step by which it did.
    place: u32,
    // The pid of the process that made the step.
    pid: Option<u32>,
    // The pid of the process that came to the name; None where that which made the step asked for it by 0.
    to: Option<u32>,
}

impl fmt::Display for Gift {
    fn fmt<W: fmt::Write>(&self, f: &mut fmt::Formatter<W>) -> fmt::Result {
        let place = self.place;
        let giver = OrDash(self.pid);
        match self.to {
            Some(receiver) => write!(f, "{place}: pid {giver} gave it to pid {receiver}"),
            None => write!(f, "{place}: pid {giver} asked for it by 0"),
        }
    }
}

// Makes the step of an entry. The gift by it, if its place is the one that is asked for.
fn gift_made(
    engine: &mut WideEngine,
    entries: &[Entry],
    entry: &Entry,
    asked: Option<u32>,
) -> Result<Option<Gift>, Untold>
    requires { IsHistory (with_entry engine.old entry.now) }
    ensures engine { IfOk result (λ _. engine.new ≡ with_entry engine.old entry.now) }
    ensures asked { IfOk result (λ g. MatchOption g (asked ≡ Some (length engine.old.entries) → ⊥)
        (λ _. asked ≡ Some (length engine.old.entries))) }
    ensures gift { IfOk result (λ g. IfSome g (IsMadeBy engine.old entries.now entry.now)) }
    ensures range { IfErr result (λ u. u ≢ OutOfRange) }
{
    let place = engine.len();
    let pid = pid_of(engine, entries, entry.seat);
    advance(engine, entry)?;
    if asked != Some(place) {
        return Ok(None);
    }
    let to = receiver_of(engine, entries, place);
    Ok(Some(Gift { place, pid, to }))
}

// The place of an index, if there is one.
fn place_at(places: &[u32], index: usize) -> Option<u32>
    ensures { result ≡ slice_get places.now index }
{
    places.get(index).copied()
}

// The gifts at these places, which rise, and the engine after the last entry.
fn gifts_at(
    alloc: Global,
    record: &Record,
    places: &[u32],
) -> Result<(WideEngine, Vec<Gift>), Untold>
    requires seats { IsLiveSeats «record».now.seats }
    requires lawful { IsHistory (history_in «record».now) }
    ensures engine { IfOk result (λ made. made.0 ≡ history_in «record».now) }
    ensures gifts { IfOk result (λ made. Rise 0 «record».now.entries places.now
        → AreGiftsAt (history_in «record».now) places.now made.1.items) }
    ensures range { IfErr result (λ u. u ≢ OutOfRange) }
{
    let copied = record.entries.copied(alloc)?;
    let entries = copied.as_slice();
    let mut engine = WideEngine::new(alloc, record.seats)?;
    let mut gifts = Vec::new(alloc);
    for entry in entries {
        let asked = place_at(places, gifts.len());
        if let Some(gift) = gift_made(&mut engine, entries, entry, asked)? {
            if gifts.push(gift).is_err() {
                return Err(Untold::Memory);
            }
        }
    }
    Ok((engine, gifts))
}

// The gifts of the chain of what the number names, and the engine after the last entry; None where there is no such name.
fn gifts_of(
    alloc: Global,
    record: &Record,
    pid: u32,
    number: u32,
) -> Result<Option<(WideEngine, Vec<Gift>)>, Untold>
    requires seats { IsLiveSeats «record».now.seats }
    requires lawful { IsHistory (history_in «record».now) }
    ensures engine { IfOk result (λ c. IfSome c (λ made. made.0 ≡ history_in «record».now)) }
    ensures gifts { IfOk result (λ c. IfSome c (λ made. AreChainOf (history_in «record».now) pid number made.1.items)) }
    ensures range { IfErr result (λ u. u ≢ OutOfRange) }
    ensures none { IfOk result (λ c. is_some c ≡ is_some (looks.named_by (space_after (history_in «record».now)) pid number)) }
{
    match chain_of(alloc, record, pid, number)? {
        Some(places) => Ok(Some(gifts_at(alloc, record, places.as_slice())?)),
        None => Ok(None),
    }
}

// Prints gifts in their order, each on a line.
fn print_gifts<W: Write>(gifts: &[Gift], out: &mut W) -> Result<(), Untold>
    ensures { IfErr result (λ u. u ≢ OutOfRange) }
{
    for gift in gifts {
        writeln!(out, "{gift}")?;
    }
    Ok(())
}

/// Prints how the process with this pid came to its name: the object, and each gift from its owner on. Whether there is
/// such a name.
pub(crate) fn tell_chain<W: Write>(
    alloc: Global,
    record: &Record,
    pid: u32,
    number: u32,
    out: &mut W,
) -> Result<bool, Untold>
    requires seats { IsLiveSeats «record».now.seats }
    requires lawful { IsHistory (history_in «record».now) }
    ensures there { IfOk result (λ b. b ≡ is_some (looks.named_by (space_after (history_in «record».now)) pid number)) }
    ensures range { IfErr result (λ u. u ≢ OutOfRange) }
{
    let Some((engine, gifts)) = gifts_of(alloc, record, pid, number)? else {
        writeln!(out, "no such name")?;
        return Ok(false);
    };
    let entries = record.entries.copied(alloc)?;
    if let Some(named) = Named::by(&engine, &entries, pid, number) {
        writeln!(out, "{named}")?;
    }
    print_gifts(gifts.as_slice(), out)?;
    Ok(true)
}

/// Prints the call that the reading at this place answers, and that reading. Whether there is one.
pub(crate) fn tell_answered<W: Write>(
    alloc: Global,
    record: &Record,
    place: u32,
    out: &mut W,
) -> Result<bool, Untold>
    requires seats { IsLiveSeats «record».now.seats }
    requires lawful { IsHistory (history_in «record».now) }
    ensures there { IfOk result (λ b. b ≡ is_some (call_answered (history_in «record».now) place)) }
    ensures range { IfErr result (λ u. u ≡ OutOfRange → length «record».now.entries ≤ place) }
{
    match answered_by(alloc, record, place)? {
        Some(call) => {
            let made = match entry_at(alloc, record, call) {
                Ok(made) => made,
                Err(why) => return Err(why),
            };
            writeln!(out, "{made}")?;
            let reading = entry_at(alloc, record, place)?;
            writeln!(out, "{reading}")?;
            Ok(true)
        }
        None => {
            writeln!(out, "no reply")?;
            Ok(false)
        }
    }
}

/// Where a one-way call was made, read, and its buffer ended.
#[derive(Clone, Copy)]
pub(crate) struct TurnTold {
    made: u32,
    handed: Option<u32>,
    ended: Option<u32>,
}

impl TurnTold {
    fn new(turn: &Turn) -> TurnTold
        ensures { result ≡ turn_told turn.now }
    {
        let Turn {
            made,
            handed,
            ended,
        } = *turn;
        TurnTold {
            made,
            handed,
            ended,
        }
    }
}

impl fmt::Display for TurnTold {
    fn fmt<W: fmt::Write>(&self, f: &mut fmt::Formatter<W>) -> fmt::Result {
        let made = self.made;
        let (handed, ended) = (OrDash(self.handed), OrDash(self.ended));
        write!(f, "made {made} handed {handed} ended {ended}")
    }
}

/// Prints the one-way calls on an object, in their order.
pub(crate) fn tell_turns<W: Write>(
    alloc: Global,
    record: &Record,
    object: ObjectId,
    out: &mut W,
) -> Result<(), Untold>
    requires seats { IsLiveSeats «record».now.seats }
    requires lawful { IsHistory (history_in «record».now) }
    ensures { IfErr result (λ u. u ≢ OutOfRange) }
{
    let turns = turns_on(alloc, record, object)?;
    for turn in turns.as_slice() {
        let told = TurnTold::new(turn);
        writeln!(out, "{told}")?;
    }
    Ok(())
}
