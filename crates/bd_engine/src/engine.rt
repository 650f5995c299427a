//! The engine of a driver: one of wide records with few seats, of which it is kept which are ready.

ghost use Rattle.std.specs.Prelude.{◌≡◌, ◌≤◌, ◌<◌, ◌^◌, true, [], length, IfOk, IfErr, OnErr, MatchResult, Some};
ghost use Rattle.bd_uapi.specs.Limits.{most_seats, IsSeats};
ghost use Rattle.bd_space.specs.Histories as histories;
ghost use Rattle.bd_space.specs.Histories.{HasPlace};
ghost use Rattle.bd_space.specs.Steps as steps;
ghost use Rattle.bd_engine.specs.Refusals.{FullOnly, MemoryOnly, IsSeatFault};
ghost use Rattle.bd_step.specs.declared.step_error.StepError.TheVariants.{NoMemory};

use crate::parcel::Sheet;
use crate::reading::Reading;
use crate::tables::HasTables;
use crate::wide::WideEngine;
use crate::write::Progress;
use bd_space::{Step, StepAnswer};
use bd_spelling::Record;
use bd_step::{StepError, Tables};
use bd_uapi::{Fault, MOST_SEATS};
use std::alloc::{AllocError, Global};
use std::marker::Model;

/// The history of a driver's steps, and what it has come to.
pub struct Engine {
    // Of 1 to 31 seats. It keeps which of them are ready, which is asked after each run.
    pub(crate) wide: WideEngine,
    // How far the latest write came. Its room for notes, of which there mostly are none, is kept for the next.
    pub(crate) progress: Progress,
    // What the latest command was entered as.
    pub(crate) command: Sheet,
    // What the latest request of one step was entered as.
    pub(crate) reading: Reading,
}

impl Model for Engine {
    ghost use Rattle.std.specs.Prelude.{◌≤◌};
    ghost use Rattle.bd_uapi.specs.Limits.{most_seats};
    ghost use Rattle.bd_space.specs.Histories.{History};

    ghost Value = { History };

    ghost view = { λ e. e.wide };

    ghost invariant = { λ e. e.wide.seats ≤ most_seats };
}

// Written out: one that is derived would be proved again, with that of each table, in every crate that holds an engine.
impl Drop for Engine {
    fn drop(self) {
        let Engine {
            wide: _,
            progress: _,
            command: _,
            reading: _,
        } = self;
    }
}

impl HasTables for Engine {
    ghost says = { λ e P. P e };

    ghost concludes = { λ e P Q f p. f e p };

    fn tables(&self) -> &Tables {
        self.wide.tables()
    }
}

impl Engine {
    /// An engine for so many seats, whose history is empty. Errors: F16 where the number of seats is 0 or above 31; else
    /// F14 alone, where memory was refused.
    pub fn new(alloc: Global, seats: u32) -> Result<Engine, Fault>
        ensures ok { IfOk result (λ e. e ≡ record { seats = seats; entries = [] }) }
        ensures fault { MatchResult result (λ _. IsSeats seats) (λ f. IsSeatFault seats f) }
    {
        if seats < 1 || MOST_SEATS < seats {
            return Err(Fault::SeatCount);
        }
        match Engine::for_seats(alloc, seats) {
            Ok(engine) => Ok(engine),
            Err(_) => Err(Fault::NoMemory),
        }
    }

    /// An engine for a number of seats that was tested before. Errors: memory was refused.
    pub fn for_seats(alloc: Global, seats: u32) -> Result<Engine, AllocError>
        requires { IsSeats seats }
        ensures { IfOk result (λ e. e ≡ record { seats = seats; entries = [] }) }
    {
        let Ok(mut wide) = WideEngine::new(alloc, seats) else {
            return Err(AllocError);
        };
        wide.keep_ready(alloc)?;
        Ok(Engine {
            wide,
            progress: Progress::new(alloc),
            command: Sheet::new(alloc),
            reading: Reading::new(alloc),
        })
    }

    /// The engine of wide records that it is, to be looked at.
    pub fn as_wide(&self) -> &WideEngine
        ensures { result.now ≡ self.now }
    {
        &self.wide
    }

    /// How many seats there are, 1 to 31.
    pub fn seats(&self) -> u32
        ensures count { result ≡ self.now.seats }
        ensures some { 1 ≤ result }
        ensures few { result ≤ most_seats }
    {
        self.wide.seats()
    }

    /// How many steps the history has.
    pub fn len(&self) -> u32
        ensures { result ≡ length self.now.entries }
    {
        self.wide.len()
    }

    /// Makes room for the entries of so many steps more, and changes nothing else. That these entries then ask for no memory
    /// no clause says, since room is no part of an engine's value, its history. Errors: memory was refused.
    pub fn reserve(&mut self, steps: usize) -> Result<(), StepError>
        ensures stands { self.new ≡ self.old }
        ensures memory { IfErr result (λ why. why ≡ NoMemory) }
    {
        self.wide.reserve(steps)
    }

    /// The ready seats, bit i for seat i: those that have something to read.
    pub fn ready(&self) -> u32
        ensures page { result ≡ histories.ready_bits self.now }
        ensures bits { result < 2 ^ most_seats }
    {
        self.wide.ready()
    }

    /// The history of all steps, which the engine gives up.
    pub fn into_record(self) -> Record
        ensures seats { result.seats ≡ self.seats }
        ensures entries { result.entries ≡ self.entries }
        ensures lawful { histories.IsHistory (record { seats = result.seats; entries = result.entries }) }
    {
        let Engine {
            wide,
            progress: _,
            command: _,
            reading: _,
        } = self;
        wide.into_record()
    }

    /// Makes one step, and answers it. Errors: the history is full, which is found before any memory is asked for;
    /// memory was refused; or a name would have to be numbered above 4294967294.
    pub fn step(&mut self, seat: u32, step: Step) -> Result<StepAnswer, StepError>
        requires { seat < self.old.seats }
        // The answer is the space's.
        ensures answer { IfOk result (λ a. a ≡ (steps.step (histories.space_after self.old) seat step).answer) }
        // The history then has this step more.
        ensures history { IfOk result (λ a. self.new ≡ histories.extended self.old seat step a) }
        // A step refused leaves the engine equal.
        ensures err { OnErr result (self.new ≡ self.old) }
        // When a full history is the reason.
        ensures full { IfErr result (λ why. FullOnly why (histories.is_at_limit self.old seat (Some step) ≡ true)) }
        // Want of memory isn't said of a full history.
        ensures memory { IfErr result (λ why. MemoryOnly why (histories.HasPlace self.old)) }
    {
        self.wide.step(seat, step)
    }
}
