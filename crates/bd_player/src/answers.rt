//! Answers, with the names of refusals.

use crate::returns::Returns;
use crate::words::Word;
use bd_journal::{cause_number, fault_number, note_number};
use bd_space::StepAnswer;
use std::fmt;

/// The returns of a stream, each on a line of its own.
#[derive(Drop)]
struct StreamText<'a>(&'a [u8]);

impl fmt::Display for StreamText<'_> {
    fn fmt<W: fmt::Write>(&self, f: &mut fmt::Formatter<W>) -> fmt::Result {
        for told in Returns::of(self.0) {
            let text = Word::of_return(&told);
            write!(f, "\n    {text}")?;
        }
        Ok(())
    }
}

/// What a step was answered. Of what was read each return has a line of its own.
#[derive(Drop)]
pub(crate) struct AnswerText<'a>(pub(crate) &'a StepAnswer);

impl fmt::Display for AnswerText<'_> {
    fn fmt<W: fmt::Write>(&self, f: &mut fmt::Formatter<W>) -> fmt::Result {
        match self.0 {
            StepAnswer::Opened => f.write_str("opened"),
            StepAnswer::Set => f.write_str("set"),
            StepAnswer::Exited => f.write_str("exited"),
            StepAnswer::Accepted => f.write_str("accepted"),
            StepAnswer::Noted(note) => write!(f, "noted N{} {note:?}: {note}", note_number(*note)),
            StepAnswer::Stopped(cause) => {
                write!(f, "stopped X{} {cause:?}: {cause}", cause_number(*cause))
            }
            StepAnswer::Refused(fault) => {
                write!(f, "refused F{} {fault:?}: {fault}", fault_number(*fault))
            }
            StepAnswer::Got { stream, .. } => {
                let len = stream.len();
                let returns = StreamText(stream.as_slice());
                write!(f, "got {len}{returns}")
            }
        }
    }
}
