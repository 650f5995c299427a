//! Answers that take no memory, and answers in brief.

ghost use Rattle.std.specs.Prelude.{◌≡◌};
ghost use Rattle.bd_step.specs.Plain.{IsWritten, answer_of};

use crate::step_error::StepError;
use bd_space::StepAnswer;
use bd_uapi::{Cause, Fault, Note};

/// The answer to a step that reads nothing: it is copied without memory.
#[derive(Clone, Copy, Debug, PartialEq, Eq)]
pub enum Plain {
    /// As the answer of that name.
    Opened,
    /// As the answer of that name.
    Set,
    /// As the answer of that name.
    Exited,
    /// As the answer of that name.
    Accepted,
    /// As the answer of that name.
    Noted(Note),
    /// As the answer of that name.
    Stopped(Cause),
    /// As the answer of that name.
    Refused(Fault),
}

impl Plain {
    /// As an answer.
    pub fn answer(self) -> StepAnswer
        ensures { result ≡ answer_of self }
    {
        match self {
            Plain::Opened => StepAnswer::Opened,
            Plain::Set => StepAnswer::Set,
            Plain::Exited => StepAnswer::Exited,
            Plain::Accepted => StepAnswer::Accepted,
            Plain::Noted(note) => StepAnswer::Noted(note),
            Plain::Stopped(cause) => StepAnswer::Stopped(cause),
            Plain::Refused(fault) => StepAnswer::Refused(fault),
        }
    }
}

/// An answer in brief, in a few bytes. The answer itself stands where it was written.
#[derive(Clone, Copy, Debug, PartialEq, Eq)]
pub enum Brief {
    /// This answer.
    Plain(Plain),
    /// What was read.
    Got,
}

impl Brief {
    ghost use Rattle.bd_ways.specs.Words.{StepAnswer};
    ghost use Rattle.bd_step.specs.{Plain.{IsBrief}, declared.answer.Brief.TheVariants.{Got}};

    /// The answer, where what was read was written to `again` too.
    pub fn answer(self, again: StepAnswer) -> StepAnswer
        ensures { (answer : StepAnswer) → IsBrief self answer → (self ≡ Got → again ≡ answer) → result ≡ answer }
    {
        match self {
            Brief::Plain(plain) => plain.answer(),
            Brief::Got => again,
        }
    }
}

// Writes it as an answer. Mostly a command is accepted after another one: then nothing is to be written.
#[inline(always)]
fn write_plain(plain: Plain, answer: &mut StepAnswer)
    ensures { answer.new ≡ answer_of plain }
{
    if let Plain::Accepted = plain {
        if let StepAnswer::Accepted = answer {
            return;
        }
    }
    *answer = plain.answer();
}

/// Writes an answer that takes no memory, and has it in brief, or the refusal.
pub(crate) fn written(
    taken: Result<Plain, StepError>,
    answer: &mut StepAnswer,
) -> Result<Brief, StepError>
    ensures { IsWritten taken result answer.new }
{
    match taken {
        Ok(plain) => {
            write_plain(plain, answer);
            Ok(Brief::Plain(plain))
        }
        Err(why) => Err(why),
    }
}
