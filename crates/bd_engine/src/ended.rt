//! Buffers that end by a step: where they were made.

ghost use Rattle.std.specs.Prelude.{◌≡◌, ◌<◌, [], true, Some, IfOk, IfErr, OnOk, OnErr, filter};
ghost use Rattle.bd_keys.specs.Tables.{Makes, Tells};
ghost use Rattle.bd_space.specs.Histories.{History, HasLivePlace, space_after, extended, is_at_end};
ghost use Rattle.bd_space.specs.Steps as steps;
ghost use Rattle.bd_step.specs.{Refusals.{FullOnly, MemoryOnly}, Ending.{is_gone, ended_between, HasEndings}};
ghost use Rattle.bd_engine.specs.{Follows.{Follows}, Reached.{KeepsTold}};

use crate::live::Live;
use crate::looks::Looks;
use crate::tables::HasTables;
use bd_space::{Entry, Step};
use bd_step::StepError;

impl Live {
    // Where buffers were made among which are all that the step of the seat ends. A full history is found before any memory
    // is asked for.
    fn list_endings(&self, seat: u32, step: &Step, places: &mut Vec<u64>) -> Result<(), StepError>
        requires none { places.old.items ≡ [] }
        ensures listed { OnOk result ((h : History) → Follows self.now h
            → HasEndings places.new.items (space_after h) (steps.change (space_after h) seat step.now).space) }
        ensures full { IfErr result (λ why. (h : History) → Follows self.now h
            → FullOnly why (is_at_end h seat (Some step.now) ≡ true)) }
        ensures memory { IfErr result (λ why. (h : History) → Follows self.now h → MemoryOnly why (HasLivePlace h)) }
    {
        if self.tables().steps == u64::MAX {
            return Err(StepError::HistoryFull);
        }
        match self.tables().list_endings(seat, step, places) {
            Ok(()) => Ok(()),
            Err(_) => Err(StepError::NoMemory),
        }
    }

    // Whether no live buffer was made there.
    fn is_gone(&self, made: u64) -> bool
        ensures { Tells (Follows self.now) result (λ h. is_gone (space_after h).buffers made) }
    {
        match self.buffer(made) {
            None => true,
            Some(_) => false,
        }
    }

    // Only those of these places stay at which no live buffer was made.
    fn keep_gone(&self, places: &mut Vec<u64>)
        ensures { Tells (Follows self.now) places.new.items (λ h. filter (is_gone (space_after h).buffers) places.old.items) }
    {
        places.retain(|made| self.is_gone(*made));
    }

    /// Makes one step as `step` does, and puts into `ended`, in place of what it had, the buffers that ended by it, each by
    /// the place of the step that made it, oldest first. Only a `BC_FREE_BUFFER`, which may end one, and an exit, which ends
    /// buffers of its own process alone, look for them; a step of another kind costs nothing more. Memory for them is asked
    /// for before the step. Errors: as `step`; then `ended` is empty.
    #[inline(always)]
    pub fn step_with_ended(
        &mut self,
        seat: u32,
        step: Step,
        ended: &mut Vec<u64>,
    ) -> Result<Entry, StepError>
        requires { seat < self.old.seats }
        // The entry is of this step.
        ensures seat { IfOk result (λ e. e.seat ≡ seat) }
        ensures step { IfOk result (λ e. e.step ≡ step) }
        // The answer is the space's, after each history that it followed.
        ensures answer { IfOk result (λ e. Tells (Follows self.old) e.answer (λ h. (steps.step (space_after h) seat step).answer)) }
        // It then follows that history with this step more.
        ensures follows { IfOk result (λ e. Makes (Follows self.old) (Follows self.new) (λ h. extended h seat step e.answer)) }
        // Exactly those are listed that lived in the space before and don't in the space after.
        ensures ended { IfOk result (λ e. Tells (Follows self.old) ended.new.items
            (λ h. ended_between (space_after h) (space_after (extended h seat step e.answer)))) }
        // A step refused leaves it following what it followed.
        ensures err { OnErr result (Makes (Follows self.old) (Follows self.new) (λ h. h)) }
        ensures none { OnErr result (ended.new.items ≡ []) }
        // When a full history is the reason.
        ensures full { IfErr result (λ why. (h : History) → Follows self.old h
            → FullOnly why (is_at_end h seat (Some step) ≡ true)) }
        // Want of memory isn't said of a full history.
        ensures memory { IfErr result (λ why. (h : History) → Follows self.old h → MemoryOnly why (HasLivePlace h)) }
        // It has as many seats as before.
        ensures seats { self.new.seats ≡ self.old.seats }
        // Whatever was told of the todo lists is known still.
        ensures told { KeepsTold self.old self.new }
    {
        ended.clear();
        match self.list_endings(seat, &step, ended) {
            Ok(()) => match self.step(seat, step) {
                Ok(entry) => {
                    self.keep_gone(ended);
                    Ok(entry)
                }
                Err(why) => {
                    ended.clear();
                    Err(why)
                }
            },
            Err(why) => {
                ended.clear();
                Err(why)
            }
        }
    }
}
