//! The entries of a history while a step is made.

ghost use Rattle.std.specs.Prelude.{◌≡◌, length, OnOk};
ghost use Rattle.bd_spelling.specs.Spelling.{IsBlock, IsStep, SpellsCommand, step_bytes};
ghost use Rattle.bd_step.specs.declared.answer.Plain as words;
ghost use Rattle.bd_step.specs.Plain.{answer_of};
ghost use Rattle.bd_engine.specs.Entering.{HasRoom};

use bd_space::{Step, StepAnswer};
use bd_spelling::{Log, answer_len, step_len};
use bd_step::Keeps;
use std::alloc::AllocError;

// The entries, and how many bytes the step has that is to be entered: what it reads is asked for room by these.
#[derive(Drop)]
pub(crate) struct Entering {
    pub log: Log,
    pub step: u32,
}

impl Entering {
    // Makes room for the entry of a step which has an answer without blocks. These bytes spell its command. Errors: memory was
    // refused, or no journal spells the step.
    #[inline(always)]
    pub fn begin(&mut self, step: &Step, command: &[u8]) -> Result<(), AllocError>
        requires { SpellsCommand step.now command.now }
        ensures entries { self.new.log.entries ≡ self.old.log.entries }
        ensures spelled { OnOk result (IsStep step.now × IsBlock (step_bytes step.now)) }
        ensures len { OnOk result (self.new.step ≡ length (step_bytes step.now)) }
        ensures plain { OnOk result ((x : words.Plain) → HasRoom self.new.log.room self.new.step (answer_of x)) }
    {
        match step_len(step, command) {
            Some(len) => {
                self.step = len;
                self.log.reserve(14 + len as usize)
            }
            None => Err(AllocError),
        }
    }
}

impl Keeps for Entering {
    ghost use Rattle.std.specs.Prelude.{List, ℕ};
    ghost use Rattle.bd_ways.specs.Words.{Entry};
    ghost use Rattle.bd_engine.specs.Entering.{HasRoom};

    ghost kept = { λ e a. HasRoom e.log.room e.step a };

    ghost Rest = { List Entry × ℕ };

    ghost rest = { λ e. (e.log.entries, e.step) };

    fn keep(&mut self, answer: &StepAnswer) -> Result<(), AllocError> {
        match answer_len(answer) {
            Some(len) => self.log.reserve(12 + self.step as usize + len as usize),
            None => Err(AllocError),
        }
    }
}
