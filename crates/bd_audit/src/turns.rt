//! The one-way calls on an object, turn by turn.

ghost use Rattle.std.specs.Prelude.{◌≡◌, ◌≤◌, true, map, take, length, IfOk, IfErr, MatchResult};
ghost use Rattle.std.specs.{List.{filter_map, list_all}, Option.{option_to_list}};
ghost use Rattle.bd_engine.specs.Refusals.{IsLiveSeats};
ghost use Rattle.bd_uapi.specs.declared.fault.Fault.TheVariants as faults;
ghost use Rattle.bd_space.specs.Histories.{IsHistory, space_after};
ghost use Rattle.bd_spelling.specs.Records.{history_in};
ghost use Rattle.bd_audit.specs.TurnCalls.{AreTurns};
ghost use Rattle.bd_audit.specs.TurnSearch as spec;

use crate::playing::advance;
use bd_buffers::Lent;
use bd_engine::{Looks, WideEngine};
use bd_space::{Entry, Identity, ObjectId};
use bd_spelling::Record;
use bd_uapi::Fault;
use std::alloc::Global;

/// A one-way call: where it was made, where it was handed out, and where its buffer ended, if they did.
#[derive(Clone, Copy, Debug, PartialEq, Eq)]
pub struct Turn {
    /// The place of its transaction.
    pub made: u32,
    /// The place where its call was read.
    pub handed: Option<u32>,
    /// The place where its buffer ended.
    pub ended: Option<u32>,
}

// The turns of an object's calls so far.
#[derive(Drop)]
struct TurnList {
    // The calls, in the order in which they were made.
    turns: Vec<Turn>,
    // So many have ended, the first ones. Nothing changes them any more.
    ended: usize,
}

// The place of what has happened, or this one if it happens now.
fn noted_at(earlier: Option<u32>, place: u32, now: bool) -> Option<u32>
    ensures { result ≡ spec.noted_at earlier place now }
{
    match earlier {
        Some(place) => Some(place),
        None => { if now { Some(place) } else { None } }
    }
}

fn is_live(engine: &WideEngine, made: u32) -> bool
    ensures { result ≡ spec.is_live (space_after engine.now).buffers made }
{
    match Looks::buffer(engine, u64::from(made)) {
        Some(_) => true,
        None => false,
    }
}

fn is_handed(engine: &WideEngine, made: u32) -> bool
    ensures { result ≡ spec.is_handed (space_after engine.now).buffers made }
{
    match Looks::buffer(engine, u64::from(made)) {
        Some(buffer) => buffer.is_handed(),
        None => false,
    }
}

fn is_call_on(buffer: &Lent<'_>, object: Identity) -> bool
    ensures { result ≡ spec.is_call_on object buffer.now }
{
    buffer.is_one_way() && matches!(buffer.target(), Some(target) if target == object)
}

// The turn after the engine's last step, which stands at this place.
fn marked(engine: &WideEngine, place: u32, turn: Turn) -> Turn
    ensures { result ≡ spec.marked place (space_after engine.now).buffers turn }
{
    Turn {
        made: turn.made,
        handed: noted_at(turn.handed, place, is_handed(engine, turn.made)),
        ended: noted_at(turn.ended, place, !is_live(engine, turn.made)),
    }
}

// Marks these turns, of which the first ones have ended, up to the first that hasn't then: the others wait for it. Answers
// how many have ended.
fn mark(turns: &mut [Turn], ended: usize, engine: &WideEngine, place: u32) -> usize
    requires { spec.AreInTurn (spec.marked place (space_after engine.now).buffers) ended turns.old }
    ensures all { turns.new ≡ map (spec.marked place (space_after engine.now).buffers) turns.old }
    ensures within { result ≤ length turns.old }
    ensures ended { list_all spec.has_ended (take result turns.new) ≡ true }
{
    for at in ended..turns.len() {
        let turn = marked(engine, place, turns[at]);
        turns[at] = turn;
        if turn.ended.is_none() {
            return at;
        }
    }
    turns.len()
}

// The turn that the step at this place made, if it did.
fn turn_made(engine: &WideEngine, place: u32, object: Identity) -> Option<Turn>
    ensures { option_to_list result ≡ filter_map (spec.turn_made object place) (space_after engine.now).buffers }
{
    match Looks::buffer(engine, u64::from(place)) {
        Some(buffer) => {
            if is_call_on(&buffer, object) {
                Some(Turn {
                    made: place,
                    handed: None,
                    ended: None,
                })
            } else {
                None
            }
        }
        None => None,
    }
}

// Notes the engine's last step, which stands at this place.
fn note(list: &mut TurnList, engine: &WideEngine, place: u32, object: Identity) -> Result<(), Fault>
    requires { spec.AreInTurn (spec.marked place (space_after engine.now).buffers)
        list.old.ended list.old.turns.items }
    ensures ok { IfOk result (λ _. list.new.turns.items
        ≡ spec.next_turns object place (space_after engine.now).buffers list.old.turns.items) }
    ensures ended { IfOk result (λ _. list_all spec.has_ended (take list.new.ended list.new.turns.items) ≡ true) }
    ensures fault { IfErr result (λ f. f ≡ faults.NoMemory) }
{
    list.ended = mark(&mut list.turns, list.ended, engine, place);
    match turn_made(engine, place, object) {
        Some(turn) => match list.turns.push(turn) {
            Ok(()) => Ok(()),
            Err(_) => Err(Fault::NoMemory),
        },
        None => Ok(()),
    }
}

/// The turns of an object: its one-way calls in the order in which they were made, each once. The record is a history; the
/// only fault is `NoMemory`.
pub fn oneway_turns(alloc: Global, record: &Record, object: ObjectId) -> Result<Vec<Turn>, Fault>
    requires seats { IsLiveSeats «record».now.seats }
    requires lawful { IsHistory (history_in «record».now) }
    ensures { MatchResult result (λ v. AreTurns «record».now.entries object v.items) (λ f. f ≡ faults.NoMemory) }
{
    let Ok(entries) = record.entries.copied(alloc) else {
        return Err(Fault::NoMemory);
    };
    let Ok(mut engine) = WideEngine::new(alloc, record.seats) else {
        return Err(Fault::NoMemory);
    };
    let object = Identity::from(object);
    let turns = Vec::new(alloc);
    let mut list = TurnList { turns, ended: 0 };
    for entry in &entries {
        let place = engine.len();
        advance(&mut engine, entry)?;
        note(&mut list, &engine, place, object)?;
    }
    Ok(list.turns)
}
