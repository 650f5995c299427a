//! What a bridge asks of an engine.

ghost use Rattle.std.specs.Prelude.{ℕ, ◌≡◌, ◌⊎◌, Bool, true};
ghost use Rattle.bd_bridge.specs.Reached.{names};
ghost use Rattle.bd_bridge.specs.declared.engine.Reached.{Reached};

/// A list of what is to be read.
#[derive(Clone, Copy)]
pub enum TodoList {
    /// Of the thread with this seat.
    OfSeat(u32),
    /// Of the process that was opened by the step at this place.
    OfProcess(u64),
}

/// The lists that a step has filled, which were empty, or has emptied.
#[derive(Drop)]
pub struct Reached {
    pub lists: Vec<TodoList>,
    /// These may not be all.
    pub any: bool,
}

/// By what a bridge makes its steps. What they have come to is a world. An engine need not keep that, and may follow
/// several that it can't tell apart: each clause is meant of all of them.
pub trait Engine {
    /// What a thread asks for, but for reads.
    type Step;

    /// What came of a step or a read.
    type Answer;

    /// Where the engine puts the larger part of an answer, in place of the one before: it is written where its caller keeps it.
    type Kept;

    /// The rest of an answer.
    type Outcome;

    ghost World: { Type 0 };

    ghost Follows: { Self → World → Type 0 };

    /// Whether a seat has something to read in a world.
    ghost Sees: { World → ℕ → Bool → Type 0 };

    /// Of which process a seat's thread is, if it has one.
    ghost IsOf: { World → ℕ → ℕ → Type 0 };

    /// By such a step the thread that makes it stays with its process.
    ghost IsCommand: { Self.Step → Type 0 };

    /// The answer, of its two parts.
    ghost answer: { Self.Outcome → Self.Kept → Self.Answer };

    /// The world after a seat's step with this answer.
    ghost stepped: { World → ℕ → Self.Step → Self.Answer → World };

    /// The world after a seat's read of this.
    ghost has_read: { World → ℕ → Self.Answer → World };

    /// In a world in which a seat has just read this, its thread need not be told of it before the reply to a call of its own.
    ghost CanWait: { World → ℕ → Self.Answer → Type 0 };

    /// All that a seat has to read in a world is such.
    ghost CanRest: { World → ℕ → Type 0 };

    /// What else a step comes to, by the engine and what is kept before and after it.
    ghost Made: { Self → Self.Kept → ℕ → Self.Step → Self.Outcome → Self → Self.Kept → Type 0 };

    /// The same of a read, with its room.
    ghost MadeRead: { Self → Self.Kept → ℕ → ℕ → Self.Outcome → Self → Self.Kept → Type 0 };

    /// Whether a seat has something to read.
    fn is_ready(&self, seat: u32) -> bool
        ensures { (h : World) → Follows self.now h → Sees h seat result };

    /// The process of a seat's thread; any number, where it has none.
    fn process_of(&self, seat: u32) -> u64
        ensures { (h : World) → Follows self.now h → IsOf h seat result };

    /// Makes a step, and tells which lists it has filled or emptied.
    fn step(
        &mut self,
        seat: u32,
        step: Self::Step,
        kept: &mut Self::Kept,
        reached: &mut Reached,
    ) -> Self::Outcome
        ensures follows { (h : World) → Follows self.old h → Follows self.new (stepped h seat step (answer result kept.new)) }
        ensures made { Made self.old kept.old seat step result self.new kept.new }
        // Any other thread that reads none of these has as much to read as before.
        ensures reaches { (h : World) → Follows self.old h → (t p : ℕ) (b : Bool) → (t ≡ seat → ⊥) → IsOf h t p → Sees h t b
            → Sees (stepped h seat step (answer result kept.new)) t b ⊎ (names reached.new t p ≡ true) }
        // Any other stays with its process.
        ensures stays { (h : World) → Follows self.old h → (t p : ℕ) → (t ≡ seat → ⊥) ⊎ IsCommand step
            → IsOf h t p → IsOf (stepped h seat step (answer result kept.new)) t p };

    /// Has a seat read, with room for so many bytes, and tells which lists that has filled or emptied.
    fn read(
        &mut self,
        seat: u32,
        room: u32,
        kept: &mut Self::Kept,
        reached: &mut Reached,
    ) -> Self::Outcome
        ensures follows { (h : World) → Follows self.old h → Follows self.new (has_read h seat (answer result kept.new)) }
        ensures made { MadeRead self.old kept.old seat room result self.new kept.new }
        ensures reaches { (h : World) → Follows self.old h → (t p : ℕ) (b : Bool) → (t ≡ seat → ⊥) → IsOf h t p → Sees h t b
            → Sees (has_read h seat (answer result kept.new)) t b ⊎ (names reached.new t p ≡ true) }
        ensures stays { (h : World) → Follows self.old h → (t p : ℕ) → IsOf h t p → IsOf (has_read h seat (answer result kept.new)) t p };

    /// The answer as one, which is taken from where it was kept.
    fn take(&self, outcome: Self::Outcome, kept: &mut Self::Kept) -> Self::Answer
        ensures { result ≡ answer outcome kept.old };

    /// Whether what a seat has just read can wait for the reply to a call of its own.
    fn can_wait(&self, seat: u32, outcome: &Self::Outcome, kept: &Self::Kept) -> bool
        ensures { result ≡ true → (h : World) → Follows self.now h → CanWait h seat (answer outcome.now kept.now) };

    /// Whether all that a seat has to read can.
    fn can_rest(&self, seat: u32) -> bool
        ensures { result ≡ true → (h : World) → Follows self.now h → CanRest h seat };
}
