//! A live engine, and what it was told of its lists.

ghost use Rattle.std.specs.Prelude.{ℕ, ◌≡◌, ◌⊎◌, Bool, Some, true, false, OnOk};
ghost use Rattle.bd_space.specs.Histories.{History, space_after};
ghost use Rattle.bd_engine.specs.Follows as engine;
ghost use Rattle.bd_engine.specs.Reached.{Recalls, has_work};
ghost use Rattle.bd_bridge.specs.Reached.{names};

use crate::deferring::{is_completion_alone, may_wait};
use crate::lists::convert_all;
use bd_bridge::{Engine, Reached};
use bd_engine::{Live, Looks, StepError};
use bd_space::{Entry, Step, TodoList};
use std::alloc::Global;

/// Why a step wasn't made.
#[derive(Drop)]
pub enum NotMade {
    NoSuchSeat,
    Refused(StepError),
}

/// A live engine that tells after each step whose lists that has filled or emptied.
#[derive(Drop)]
pub struct LiveEngine {
    pub live: Live,
    /// The buffers that ended by the latest step, each by the place of the step that made it, oldest first.
    pub ended: Vec<u64>,
    pub(crate) lists: Vec<TodoList>,
    // What the engine has told of its lists is so before the next step.
    pub(crate) is_told: bool,
}

impl LiveEngine {
    ghost use Rattle.bd_bridge_live.specs.Live.{FollowsTold, answer_of, after_step, Sees, IsOf, MakesOrNot};
    ghost use Rattle.bd_bridge_live.specs.Lists.{AreNamed};
    ghost use Rattle.bd_bridge_live.specs.Deferring.{IsInCall, HasCompletionAlone};

    /// A live engine as it is. Its first step may have reached anybody. Takes no memory.
    pub fn new(alloc: Global, live: Live) -> LiveEngine
        ensures follows { (h : History) → engine.Follows live h → FollowsTold result h }
    {
        LiveEngine {
            live,
            ended: Vec::new(alloc),
            lists: Vec::new(alloc),
            is_told: false,
        }
    }

    // Tells whose lists were filled or emptied since it last did.
    #[inline(always)]
    fn tell(&mut self, reached: &mut Reached)
        ensures follows { (h : History) → engine.Follows self.old.live h → engine.Follows self.new.live h }
        ensures recalls { (h : History) → engine.Follows self.old.live h → self.new.is_told ≡ true → Recalls self.new.live (has_work (space_after h)) }
        ensures named { (told : _) (h : History) → self.old.is_told ≡ true → Recalls self.old.live told → engine.Follows self.old.live h
            → AreNamed reached.new told (space_after h) }
        ensures unknown { (self.old.is_told ≡ true → ⊥) → reached.new.any ≡ true }
        ensures seats { self.new.live.seats ≡ self.old.live.seats }
        ensures ended { self.new.ended.items ≡ self.old.ended.items }
    {
        reached.any = true;
        let was_told = self.is_told;
        self.is_told = false;
        if let Ok(whole) = self.live.tell_reached(&mut self.lists) {
            self.is_told = true;
            let all = convert_all(&self.lists, &mut reached.lists).is_ok();
            reached.any = !(whole && was_told && all);
        }
    }

    // Makes a step, whose entry is kept, and tells whose lists that has filled or emptied. Where none is made the entry before it stays.
    #[inline(always)]
    fn make(
        &mut self,
        seat: u32,
        step: Step,
        kept: &mut Option<Entry>,
        reached: &mut Reached,
    ) -> Result<(), NotMade>
        ensures follows { (h : History) → FollowsTold self.old h → FollowsTold self.new (after_step h seat step (answer_of result kept.new)) }
        ensures reaches { (h : History) → FollowsTold self.old h → (t p : ℕ) (b : Bool) → (t ≡ seat → ⊥) → IsOf h t p → Sees h t b
            → Sees (after_step h seat step (answer_of result kept.new)) t b ⊎ (names reached.new t p ≡ true) }
        ensures made { MakesOrNot self.old kept.old seat step result self.new kept.new }
    {
        if seat >= self.live.seats() {
            return Err(NotMade::NoSuchSeat);
        }
        match self.live.step_with_ended(seat, step, &mut self.ended) {
            Ok(entry) => {
                *kept = Some(entry);
                self.tell(reached);
                Ok(())
            }
            Err(why) => {
                self.tell(reached);
                Err(NotMade::Refused(why))
            }
        }
    }

    // Whether a seat's thread is in a call, and in none that it serves inside of that.
    fn is_in_call(&self, seat: u32) -> bool
        ensures yes { result ≡ true → (h : History) → engine.Follows self.now.live h → IsInCall (space_after h) seat }
        ensures no { result ≡ false → (h : History) → engine.Follows self.now.live h → IsInCall (space_after h) seat → ⊥ }
    {
        match self.live.innermost(seat) {
            Some((_, serves)) => !serves,
            None => false,
        }
    }

    // Whether the completion of a call is all that is on the own list of a seat's thread.
    fn has_completion_alone(&self, seat: u32) -> bool
        ensures yes { result ≡ true → (h : History) → engine.Follows self.now.live h → HasCompletionAlone (space_after h) seat }
        ensures no { result ≡ false → (h : History) → engine.Follows self.now.live h → HasCompletionAlone (space_after h) seat → ⊥ }
    {
        is_completion_alone(self.live.unread(TodoList::OfThread(seat)))
    }
}

impl Engine for LiveEngine {
    ghost use Rattle.bd_bridge_live.specs.Live.{FollowsTold, answer_of, after_step, after_read, Sees, IsOf, IsCommand, CanWait, CanRest, MakesOrNot};
    ghost use Rattle.bd_space.specs.declared.step.Step.TheVariants.{Read};
    ghost use Rattle.bd_space.specs.Histories.{History};

    type Step = Step;

    type Answer = Result<Entry, NotMade>;

    type Kept = Option<Entry>;

    type Outcome = Result<(), NotMade>;

    ghost World = { History };

    ghost Follows = { FollowsTold };

    ghost Sees = { Sees };

    ghost IsOf = { IsOf };

    ghost IsCommand = { IsCommand };

    ghost answer = { answer_of };

    ghost stepped = { after_step };

    ghost has_read = { after_read };

    ghost CanWait = { CanWait };

    ghost CanRest = { CanRest };

    ghost Made = { MakesOrNot };

    ghost MadeRead = { λ x k seat room r y k'. MakesOrNot x k seat (Read room) r y k' };

    fn is_ready(&self, seat: u32) -> bool {
        self.live.is_ready(seat)
    }

    fn process_of(&self, seat: u32) -> u64 {
        match self.live.thread(seat) {
            Some(thread) => thread.process,
            None => 0,
        }
    }

    fn step(
        &mut self,
        seat: u32,
        step: Step,
        kept: &mut Option<Entry>,
        reached: &mut Reached,
    ) -> Result<(), NotMade> {
        self.make(seat, step, kept, reached)
    }

    fn read(
        &mut self,
        seat: u32,
        room: u32,
        kept: &mut Option<Entry>,
        reached: &mut Reached,
    ) -> Result<(), NotMade> {
        self.make(seat, Step::Read { limit: room }, kept, reached)
    }

    fn take(
        &self,
        outcome: Result<(), NotMade>,
        kept: &mut Option<Entry>,
    ) -> Result<Entry, NotMade> {
        match outcome {
            Ok(()) => match kept.take() {
                Some(entry) => Ok(entry),
                None => Err(NotMade::NoSuchSeat),
            },
            Err(why) => Err(why),
        }
    }

    fn can_wait(&self, seat: u32, outcome: &Result<(), NotMade>, kept: &Option<Entry>) -> bool {
        match kept {
            Some(entry) => outcome.is_ok() && may_wait(&entry.answer) && self.is_in_call(seat),
            None => false,
        }
    }

    fn can_rest(&self, seat: u32) -> bool {
        self.has_completion_alone(seat) && self.is_in_call(seat)
    }
}
