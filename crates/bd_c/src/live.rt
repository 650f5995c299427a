//! A live engine that C has, who waits for it, the entry of its latest step, which buffers ended by it, which seats had something to
//! read, and which todo lists were filled or emptied.
ghost use Rattle.std.specs.Prelude.{◌≡◌, ◌<◌, [], length, IfOk, IfErr, IfSome, MatchBool};
ghost use Rattle.bd_space.specs.Histories.{History, history_of};
ghost use Rattle.bd_engine.specs.Begun.{refusals};
ghost use Rattle.bd_engine.specs.Follows.{Follows};
ghost use Rattle.bd_bridge_live.specs.Live.{IsCommand};
ghost use Rattle.bd_c.specs.declared.status.Status.TheVariants.{NoMemory};
ghost use Rattle.bd_c.specs.Told.{told_of_step};
ghost use Rattle.bd_c.specs.Lives.{Begins, IsBridged, IsLiveRefusal, Steps};

use crate::answers::Told;
use crate::status::Status;
use bd_bridge::Bridge;
use bd_bridge_live::{LiveEngine, NotMade};
use bd_engine::{Live, Looks, StepError};
use bd_space::{Entry, Step, TodoList};
use std::alloc::Global;

/// A live engine, and the entry of its latest step, which nobody else has.
#[derive(Drop)]
pub struct OwnedLive {
    /// The engine, and who waits for it: of each seat, or of none where that isn't asked for.
    pub(crate) bridge: Bridge<LiveEngine>,
    pub(crate) latest: Option<Entry>,
    /// Where the buffers were made that ended by its latest step.
    pub(crate) ended: Vec<u64>,
    // What the next of these is put into.
    pub(crate) spare_places: Vec<u64>,
    /// Which seats had something to read when they were last looked at.
    pub(crate) noted: Vec<bool>,
    /// Of which seats that was found to have changed.
    pub(crate) changed: Vec<u32>,
    // What the next of these is put into.
    pub(crate) spare: Vec<u32>,
    /// Which todo lists were found filled or emptied when that was last asked.
    pub(crate) reached: Vec<TodoList>,
    /// Whether these were all.
    pub(crate) whole: bool,
    // What the next of these are put into.
    pub(crate) spare_lists: Vec<TodoList>,
}

// Whether a thread may come to the seat that makes such a step.
fn brings_thread(step: &Step) -> bool
    ensures { MatchBool result (IsCommand step.now → ⊥) (IsCommand step.now) }
{
    match step {
        Step::Open { .. } | Step::Attach { .. } => true,
        _ => false,
    }
}

impl OwnedLive {
    // Around a live engine, of so many of whose seats it is kept who waits.
    fn around(alloc: Global, live: Live, waiting: u32) -> Result<OwnedLive, Status>
        ensures ok { IfOk result (λ x. (h : History) → Follows live h → Begins h waiting x) }
        ensures refused { IfErr result (λ s. s ≡ NoMemory) }
    {
        let engine = LiveEngine::new(alloc, live);
        let Ok(bridge) = Bridge::new(alloc, engine, waiting) else {
            return Err(Status::NoMemory);
        };
        Ok(OwnedLive {
            bridge,
            latest: None,
            ended: Vec::new(alloc),
            spare_places: Vec::new(alloc),
            noted: Vec::new(alloc),
            changed: Vec::new(alloc),
            spare: Vec::new(alloc),
            reached: Vec::new(alloc),
            whole: true,
            spare_lists: Vec::new(alloc),
        })
    }

    /// A live engine for so many seats, which hasn't made a step. Of so many of them it is kept who waits.
    #[tactic(auto, using(crate::proofs::Behind::live_refused_fits))]
    pub(crate) fn new(alloc: Global, seats: u32, waiting: u32) -> Result<OwnedLive, Status>
        ensures ok { IfOk result (Begins (history_of seats []) waiting) }
        ensures refused { IfErr result (IsLiveRefusal seats) }
    {
        match Live::new(alloc, seats) {
            Ok(live) => OwnedLive::around(alloc, live, waiting),
            Err(fault) => Err(Status::of_fault(fault)),
        }
    }

    /// One that is as after so many refused steps.
    #[tactic(auto, using(crate::proofs::Behind::live_refused_fits))]
    pub(crate) fn begun_at(
        alloc: Global,
        seats: u32,
        steps: u64,
        waiting: u32,
    ) -> Result<OwnedLive, Status>
        ensures ok { IfOk result (Begins (refusals seats steps) waiting) }
        ensures refused { IfErr result (IsLiveRefusal seats) }
    {
        match Live::begun_at(alloc, seats, steps) {
            Ok(live) => OwnedLive::around(alloc, live, waiting),
            Err(fault) => Err(Status::of_fault(fault)),
        }
    }

    // What is told of the latest entry, which has a place from this one on.
    #[inline(always)]
    pub(crate) fn tell_latest(&self, from: u64) -> Told
        ensures { IfSome self.now.latest (λ e. (h : History) → Follows self.now.bridge.engine.live h
            → result ≡ told_of_step e.answer from (length h.entries)) }
    {
        match &self.latest {
            Some(entry) => Told::of_step(&entry.answer, from, self.bridge.engine.live.len()),
            None => Told::placed(0, 0, 0),
        }
    }

    // Makes a step for which nobody waits.
    fn make_alone(&mut self, seat: u32, step: Step, told: &mut Told) -> Status
        requires seat { seat < self.old.bridge.engine.live.seats }
        requires alone { IsBridged self.old seat → ⊥ }
        ensures { Steps self.old self.new seat step result told.old told.new }
    {
        let from = self.bridge.engine.live.len();
        match self
            .bridge
            .engine
            .live
            .step_with_ended(seat, step, &mut self.spare_places)
        {
            Ok(entry) => {
                *told = Told::of_step(&entry.answer, from, self.bridge.engine.live.len());
                self.latest = Some(entry);
                std::mem::swap(&mut self.ended, &mut self.spare_places);
                Status::Done
            }
            Err(StepError::NoMemory) => Status::NoMemory,
            Err(StepError::HistoryFull) => Status::HistoryFull,
        }
    }

    // Makes a step, and marks those who wait and whom that has reached.
    fn make_bridged(&mut self, seat: u32, step: Step, told: &mut Told) -> Status
        requires bridged { IsBridged self.old seat }
        ensures { Steps self.old self.new seat step result told.old told.new }
    {
        if brings_thread(&step) && self.bridge.waiter(seat).is_some() {
            return Status::Waiting;
        }
        let from = self.bridge.engine.live.len();
        match self.bridge.step(seat, step, &mut self.latest) {
            Ok(()) => {
                *told = self.tell_latest(from);
                std::mem::swap(&mut self.ended, &mut self.bridge.engine.ended);
                Status::Done
            }
            Err(NotMade::NoSuchSeat) => Status::NoSuchSeat,
            Err(NotMade::Refused(StepError::NoMemory)) => Status::NoMemory,
            Err(NotMade::Refused(StepError::HistoryFull)) => Status::HistoryFull,
        }
    }

    /// Makes a step of a seat that the engine has. Its entry is kept, and its answer told.
    pub(crate) fn make(&mut self, seat: u32, step: Step, told: &mut Told) -> Status
        requires { seat < self.old.bridge.engine.live.seats }
        ensures { Steps self.old self.new seat step result told.old told.new }
    {
        if seat < self.bridge.seats() {
            self.make_bridged(seat, step, told)
        } else {
            self.make_alone(seat, step, told)
        }
    }

    /// Makes a step as `make` does, if the engine has the seat.
    pub(crate) fn step(&mut self, seat: u32, step: Step, told: &mut Told) -> Status
        ensures { Steps self.old self.new seat step result told.old told.new }
    {
        if seat >= self.bridge.engine.live.seats() {
            return Status::NoSuchSeat;
        }
        self.make(seat, step, told)
    }
}
