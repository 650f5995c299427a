//! What becomes of that which is read: whoever has the step made is asked before anything changes.

use bd_space::StepAnswer;
use std::alloc::AllocError;

/// Wants what a read comes to, or room for it. It's asked when the answer is there and the tables are still as they were, so a refusal
/// takes nothing back.
pub trait Keeps {
    ghost use Rattle.std.specs.Prelude.{◌≡◌, OnOk};
    ghost use Rattle.bd_ways.specs.Words.{StepAnswer};

    /// What it has by now of an answer, or for it.
    ghost kept: { Self → StepAnswer → Type 0 };

    /// What asking leaves alone.
    ghost Rest: { Type 0 };

    /// Of this one.
    ghost rest: { Self → Rest };

    /// Keeps the answer of a read. Errors: memory was refused.
    fn keep(&mut self, answer: &StepAnswer) -> Result<(), AllocError>
        ensures kept { OnOk result (kept self.new answer.now) }
        ensures rest { rest self.new ≡ rest self.old };
}

/// Keeps nothing: of an engine without a history.
#[derive(Clone, Copy, Debug)]
pub struct Nothing;

impl Keeps for Nothing {
    ghost kept = { λ n a. Unit {0} };

    ghost Rest = { Unit {0} };

    ghost rest = { λ n. tt };

    fn keep(&mut self, _answer: &StepAnswer) -> Result<(), AllocError> {
        Ok(())
    }
}
