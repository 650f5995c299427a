//! The live engine: the tables alone. It keeps no history, and hands each entry out.

ghost use Rattle.std.specs.Prelude.{◌≡◌, ◌<◌, true, [], length, IfOk, IfErr, OnOk, OnErr, MatchResult, Some};
ghost use Rattle.bd_keys.specs.Tables.{Makes, Tells};
ghost use Rattle.bd_space.specs.Histories as histories;
ghost use Rattle.bd_space.specs.Histories.{History, HasLivePlace, history_of};
ghost use Rattle.bd_space.specs.Steps as steps;
ghost use Rattle.bd_step.specs.Plain.{IsBrief, answer_of};
ghost use Rattle.bd_step.specs.declared.answer.Plain as words;
ghost use Rattle.bd_engine.specs.{Begun.{refusals}, Follows.{Follows}, Reached.{KeepsTold}};
ghost use Rattle.bd_engine.specs.Refusals.{FullOnly, MemoryOnly, IsLiveSeats, IsLiveSeatFault};

use crate::tables::HasTables;
use bd_space::{Entry, Step, StepAnswer};
use bd_step::{Brief, Keeps, Nothing, StepError, Tables};
use bd_uapi::Fault;
use std::alloc::{AllocError, Global};

/// What a history has come to, without the history: its entries are handed out, and not kept. It makes at most
/// 18446744073709551615 steps, more than any machine does; then it is full.
pub struct Live {
    pub(crate) seats: u32,
    // Behind a pointer, so that whoever hands an engine on moves few bytes.
    pub(crate) tables: Box<Tables>,
}

// Written out: one that is derived would be proved again, with that of each table, in every crate that holds an engine.
impl Drop for Live {
    fn drop(self) {
        let Live {
            seats: _,
            tables: _,
        } = self;
    }
}

impl HasTables for Live {
    ghost says = { λ l P. (h : History) → Follows l h → P h };

    ghost concludes = { λ l P Q f p. λ h follows. f h (p h follows) };

    fn tables(&self) -> &Tables {
        &self.tables
    }
}

impl Live {
    /// A live engine for 1 to 65536 seats, which follows their empty history. Errors: F16 where the number of seats is
    /// outside of that; else F14 alone, where memory was refused.
    pub fn new(alloc: Global, seats: u32) -> Result<Live, Fault>
        ensures follows { IfOk result (λ l. Follows l (history_of seats [])) }
        ensures seats { IfOk result (λ l. l.seats ≡ seats) }
        ensures fault { MatchResult result (λ _. IsLiveSeats seats) (λ f. IsLiveSeatFault seats f) }
    {
        if seats < 1 || 65536 < seats {
            return Err(Fault::SeatCount);
        }
        match Box::new(alloc, Tables::new(alloc)) {
            Ok(tables) => Ok(Live { seats, tables }),
            Err(_) => Err(Fault::NoMemory),
        }
    }

    /// A live engine that is as after so many refused steps: nothing is in its space, and the next step has that place. It serves
    /// tests of what is far behind the first step. Errors: as `new`.
    pub fn begun_at(alloc: Global, seats: u32, steps: u64) -> Result<Live, Fault>
        ensures follows { IfOk result (λ l. Follows l (refusals seats steps)) }
        ensures seats { IfOk result (λ l. l.seats ≡ seats) }
        ensures fault { MatchResult result (λ _. IsLiveSeats seats) (λ f. IsLiveSeatFault seats f) }
    {
        match Live::new(alloc, seats) {
            Ok(mut live) => {
                live.tables.steps = steps;
                Ok(live)
            }
            Err(fault) => Err(fault),
        }
    }

    /// How many seats there are, 1 to 65536.
    pub fn seats(&self) -> u32
        ensures field { result ≡ self.now.seats }
        ensures count { Tells (Follows self.now) result (λ h. h.seats) }
    {
        self.seats
    }

    /// How many steps were made.
    pub fn len(&self) -> u64
        ensures { Tells (Follows self.now) result (λ h. length h.entries) }
    {
        self.tables().steps
    }

    // From now on it is kept which seats are ready. Errors: memory was refused.
    pub(crate) fn keep_ready(&mut self, alloc: Global) -> Result<(), AllocError>
        ensures follows { Makes (Follows self.old) (Follows self.new) (λ h. h) }
        ensures seats { self.new.seats ≡ self.old.seats }
        ensures told { KeepsTold self.old self.new }
    {
        let tables = &mut *self.tables;
        tables.calls.keep_ready(alloc, self.seats)
    }

    // Looks anew at the seats that a step may have made ready or unready.
    #[inline(always)]
    pub(crate) fn refresh_ready(&mut self)
        ensures follows { Makes (Follows self.old) (Follows self.new) (λ h. h) }
        ensures seats { self.new.seats ≡ self.old.seats }
        ensures told { KeepsTold self.old self.new }
    {
        let tables = &mut *self.tables;
        tables.calls.refresh_ready();
    }

    // The step of an entry, whose answer is written into it; what is read is given to `keep` before anything changes.
    pub(crate) fn make<K: Keeps>(
        &mut self,
        entry: &mut Entry,
        keep: &mut K,
    ) -> Result<Brief, StepError>
        requires seat { entry.old.seat < self.old.seats }
        requires plain { (x : words.Plain) → K.kept keep.old (answer_of x) }
        ensures brief { IfOk result (λ x. IsBrief x entry.new.answer) }
        ensures kept { OnOk result (K.kept keep.new entry.new.answer) }
        ensures rest { K.rest keep.new ≡ K.rest keep.old }
        ensures seat { entry.new.seat ≡ entry.old.seat }
        ensures step { entry.new.step ≡ entry.old.step }
        ensures answer { OnOk result (Tells (Follows self.old) entry.new.answer
            (λ h. (steps.step (histories.space_after h) entry.old.seat entry.old.step).answer)) }
        ensures follows { OnOk result (Makes (Follows self.old) (Follows self.new)
            (λ h. histories.extended h entry.old.seat entry.old.step entry.new.answer)) }
        ensures err { OnErr result (Makes (Follows self.old) (Follows self.new) (λ h. h)) }
        ensures full { IfErr result (λ why. (h : History) → Follows self.old h
            → FullOnly why (histories.is_at_end h entry.old.seat (Some entry.old.step) ≡ true)) }
        ensures memory { IfErr result (λ why. (h : History) → Follows self.old h → MemoryOnly why (HasLivePlace h)) }
        ensures seats { self.new.seats ≡ self.old.seats }
        ensures told { KeepsTold self.old self.new }
    {
        let Some(steps) = self.tables().steps.checked_add(1) else {
            return Err(StepError::HistoryFull);
        };
        let tables = &mut *self.tables;
        match tables.change(entry.seat, &entry.step, &mut entry.answer, keep) {
            Ok(brief) => {
                tables.steps = steps;
                Ok(brief)
            }
            Err(why) => Err(why),
        }
    }

    /// Makes one step, and hands out its entry, which has the answer. It is the only copy: drop it, and nothing tells that
    /// the step was made. Errors: 18446744073709551615 steps were made, which is found before any memory is asked for; memory was
    /// refused; or a name would have to be numbered above 4294967294.
    #[inline(always)]
    pub fn step(&mut self, seat: u32, step: Step) -> Result<Entry, StepError>
        requires { seat < self.old.seats }
        // The entry is of this step.
        ensures seat { IfOk result (λ e. e.seat ≡ seat) }
        ensures step { IfOk result (λ e. e.step ≡ step) }
        // The answer is the space's, after each history that it followed.
        ensures answer { IfOk result (λ e. Tells (Follows self.old) e.answer (λ h. (steps.step (histories.space_after h) seat step).answer)) }
        // It then follows that history with this step more.
        ensures follows { IfOk result (λ e. Makes (Follows self.old) (Follows self.new) (λ h. histories.extended h seat step e.answer)) }
        // A step refused leaves it following what it followed.
        ensures err { OnErr result (Makes (Follows self.old) (Follows self.new) (λ h. h)) }
        // When a full history is the reason.
        ensures full { IfErr result (λ why. (h : History) → Follows self.old h
            → FullOnly why (histories.is_at_end h seat (Some step) ≡ true)) }
        // Want of memory isn't said of a full history.
        ensures memory { IfErr result (λ why. (h : History) → Follows self.old h → MemoryOnly why (HasLivePlace h)) }
        // It has as many seats as before.
        ensures seats { self.new.seats ≡ self.old.seats }
        // Whatever was told of the todo lists is known still.
        ensures told { KeepsTold self.old self.new }
    {
        let answer = StepAnswer::Exited;
        let mut entry = Entry { seat, step, answer };
        match self.make(&mut entry, &mut Nothing) {
            Ok(_) => Ok(entry),
            Err(why) => Err(why),
        }
    }
}
