//! The engine of wide records: a history of any number of seats that a live engine may have, and the live engine that follows it.

ghost use Rattle.std.specs.Prelude.{◌≡◌, ◌≤◌, ◌<◌, ◌^◌, true, [], length, nat_le, IfOk, IfErr, OnOk, OnErr, MatchResult, Ok, Some};
ghost use Rattle.bd_uapi.specs.Limits.{most_seats};
ghost use Rattle.bd_space.specs.Histories as histories;
ghost use Rattle.bd_space.specs.Histories.{most_steps};
ghost use Rattle.bd_space.specs.Steps as steps;
ghost use Rattle.bd_spelling.specs.Spelling.{SpellsCommand};
ghost use Rattle.bd_step.specs.Plain.{IsBrief};
ghost use Rattle.bd_engine.specs.Refusals.{FullOnly, MemoryOnly, IsLiveSeats, IsLiveSeatFault};
ghost use Rattle.bd_step.specs.declared.step_error.StepError.TheVariants.{NoMemory};

use crate::entering::Entering;
use crate::live::Live;
use crate::tables::HasTables;
use bd_space::{Entry, Step, StepAnswer};
use bd_spelling::{Entries, Log, Record, command_of};
use bd_step::{Brief, StepError, Tables};
use bd_uapi::Fault;
use std::alloc::{AllocError, Global};
use std::marker::Model;

/// The most steps that a history has: places have 32 bits, and one of them is no place.
const MOST_STEPS: usize = 4294967295;

/// The history of the steps of 1 to 65536 seats, and what it has come to. An `Engine` is one of few seats, which
/// keeps besides which of them are ready.
pub struct WideEngine {
    entries: Entering,
    live: Live,
}

impl Model for WideEngine {
    ghost use Rattle.bd_space.specs.Histories.{History, history_of};
    ghost use Rattle.bd_engine.specs.Follows.{FollowsShort};

    ghost Value = { History };

    ghost view = { λ e. history_of e.live.seats e.entries.log.entries };

    ghost invariant = { λ e. FollowsShort e.live (history_of e.live.seats e.entries.log.entries) };
}

// Written out: one that is derived would be proved again, with that of each table, in every crate that holds an engine.
impl Drop for WideEngine {
    fn drop(self) {
        let WideEngine {
            entries: _,
            live: _,
        } = self;
    }
}

impl HasTables for WideEngine {
    ghost says = { λ e P. P e };

    ghost concludes = { λ e P Q f p. f e p };

    fn tables(&self) -> &Tables {
        &self.live.tables
    }
}

impl WideEngine {
    /// An engine for 1 to 65536 seats, whose history is empty. Errors: F16 where the number of seats is outside of that; else
    /// F14 alone, where memory was refused.
    pub fn new(alloc: Global, seats: u32) -> Result<WideEngine, Fault>
        ensures ok { IfOk result (λ e. e ≡ record { seats = seats; entries = [] }) }
        ensures fault { MatchResult result (λ _. IsLiveSeats seats) (λ f. IsLiveSeatFault seats f) }
    {
        match Live::new(alloc, seats) {
            Ok(live) => Ok(WideEngine {
                entries: Entering {
                    log: Log::new(alloc),
                    step: 0,
                },
                live,
            }),
            Err(fault) => Err(fault),
        }
    }

    // From now on it is kept which seats are ready. Errors: memory was refused.
    pub(crate) fn keep_ready(&mut self, alloc: Global) -> Result<(), AllocError>
        ensures { self.new ≡ self.old }
    {
        self.live.keep_ready(alloc)
    }

    /// How many seats there are, 1 to 65536.
    pub fn seats(&self) -> u32
        ensures count { result ≡ self.now.seats }
        ensures some { 1 ≤ result }
        ensures few { result ≤ 65536 }
    {
        self.live.seats
    }

    /// How many steps the history has.
    pub fn len(&self) -> u32
        ensures { result ≡ length self.now.entries }
    {
        self.entries.log.len() as u32
    }

    /// Makes room for the entries of so many steps more, each of 128 bytes, and changes nothing else. That these entries then ask for
    /// no memory no clause says, since room is no part of an engine's value, its history. Errors: memory was refused.
    pub fn reserve(&mut self, steps: usize) -> Result<(), StepError>
        ensures stands { self.new ≡ self.old }
        ensures memory { IfErr result (λ why. why ≡ NoMemory) }
    {
        match self.entries.log.reserve(steps.saturating_mul(128)) {
            Ok(()) => Ok(()),
            Err(_) => Err(StepError::NoMemory),
        }
    }

    // Whether the history has no place for a further step. It is asked before any growth is, so that a full history is always told as such.
    pub(crate) fn is_full(&self) -> bool
        ensures { result ≡ nat_le most_steps (length self.now.entries) }
    {
        self.entries.log.len() >= MOST_STEPS
    }

    /// The ready seats, bit i for seat i: those that have something to read. Of more than 31 seats ask each.
    pub fn ready(&self) -> u32
        requires { self.now.seats ≤ most_seats }
        ensures page { result ≡ histories.ready_bits self.now }
        ensures bits { result < 2 ^ most_seats }
    {
        self.tables().ready_below(self.live.seats)
    }

    /// The history of all steps, which the engine gives up.
    pub fn into_record(self) -> Record
        ensures seats { result.seats ≡ self.seats }
        ensures entries { result.entries ≡ self.entries }
        ensures lawful { histories.IsHistory (record { seats = result.seats; entries = result.entries }) }
    {
        let WideEngine { entries, live } = self;
        Record {
            seats: live.seats,
            entries: Entries::from(entries.log),
        }
    }

    /// Makes one step, and answers it. Errors: the history is full, which is found before any memory is asked for;
    /// memory was refused; or a name would have to be numbered above 4294967294.
    pub fn step(&mut self, seat: u32, step: Step) -> Result<StepAnswer, StepError>
        requires { seat < self.old.seats }
        // The answer is the space's.
        ensures answer { IfOk result (λ a. a ≡ (steps.step (histories.space_after self.old) seat step).answer) }
        // The history then has this step more.
        ensures history { IfOk result (λ a. self.new ≡ histories.extended self.old seat step a) }
        // A step refused leaves the engine equal.
        ensures err { OnErr result (self.new ≡ self.old) }
        // When a full history is the reason.
        ensures full { IfErr result (λ why. FullOnly why (histories.is_at_limit self.old seat (Some step) ≡ true)) }
        // Want of memory isn't said of a full history.
        ensures memory { IfErr result (λ why. MemoryOnly why (histories.HasPlace self.old)) }
        // It has as many seats as before.
        ensures seats { self.new.seats ≡ self.old.seats }
    {
        let spelling = command_of(&step);
        let answer = StepAnswer::Exited;
        let mut entry = Entry { seat, step, answer };
        match self.step_in_place(&mut entry, spelling.as_slice()) {
            Ok(_) => Ok(entry.answer),
            Err(why) => Err(why),
        }
    }

    // Makes the step of an entry, whose answer is written into it, and has that in brief. The step's command, if it is one, is spelled by
    // these bytes. Room for the entry is there before the tables change, so what was made is entered without memory.
    #[inline(always)]
    pub(crate) fn step_in_place(
        &mut self,
        entry: &mut Entry,
        command: &[u8],
    ) -> Result<Brief, StepError>
        requires seat { entry.old.seat < self.old.seats }
        requires command { SpellsCommand entry.old.step command.now }
        ensures brief { IfOk result (λ x. IsBrief x entry.new.answer) }
        ensures answer { OnOk result (entry.new.answer ≡ (steps.step (histories.space_after self.old) entry.old.seat entry.old.step).answer) }
        ensures history { OnOk result (self.new ≡ histories.extended self.old entry.old.seat entry.old.step entry.new.answer) }
        ensures err { OnErr result (self.new ≡ self.old) }
        ensures full { IfErr result (λ why. FullOnly why (histories.is_at_limit self.old entry.old.seat (Some entry.old.step) ≡ true)) }
        ensures memory { IfErr result (λ why. MemoryOnly why (histories.HasPlace self.old)) }
    {
        if self.is_full() {
            return Err(StepError::HistoryFull);
        }
        if self.entries.begin(&entry.step, command).is_err() {
            return Err(StepError::NoMemory);
        }
        match self.live.make(entry, &mut self.entries) {
            Ok(brief) => {
                self.live.refresh_ready();
                let step = self.entries.step;
                self.entries.log.push(entry, command, step);
                Ok(brief)
            }
            Err(why) => Err(why),
        }
    }
}
