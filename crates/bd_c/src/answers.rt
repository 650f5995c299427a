//! What C is told of an answer: its numbers, and how many bytes and notes there are to be fetched.
use crate::numbers::{stop_kind, stop_number, why_number};
use bd_driver::Outcome;
use bd_journal::{cause_number, fault_number, note_number};
use bd_space::{Answer, Bytes, StepAnswer};
use bd_uapi::Fault;

/// What a request came to, without its bytes and its notes. What a field doesn't apply to has 0 there.
#[repr(C)]
#[derive(Clone, Copy)]
pub struct Told {
    /// 0 still handed over, 1 opened, 2 set, 3 exited, 4 wrote, 5 got, 6 refused, 7 back.
    pub kind: u32,
    /// The place of the first of its steps.
    pub from: u64,
    /// The place behind the last of its steps.
    pub to: u64,
    /// Of a write, how many bytes of the stream were run.
    pub consumed: u32,
    /// Of a write, how many notes there are.
    pub notes: usize,
    /// Of a write, why it stopped: 0 at the end of the stream, 1 at a fault, 2 at a cause.
    pub stop: u32,
    /// The number of that fault or cause, or of the fault by which the request was refused.
    pub number: u32,
    /// Of one that comes back: 1 taken, 2 no memory, 3 history full, 4 withdrawn.
    pub why: u32,
    /// Of a read, how many bytes of returns there are.
    pub stream: usize,
    /// Of a read, how many bytes of data there are.
    pub bytes: usize,
    /// Of a read, how many bytes of offsets there are.
    pub offsets: usize,
}

impl Told {
    ghost use Rattle.std.specs.Prelude.{◌≡◌};
    ghost use Rattle.bd_c.specs.Told.{told_of, placed, got_of, refused_of, done_of, told_of_step};

    /// What is told of an answer of this kind, with the places of its steps and nothing else yet.
    pub(crate) fn placed(kind: u32, from: u64, to: u64) -> Told
        ensures { result ≡ placed kind from to }
    {
        Told {
            kind,
            from,
            to,
            consumed: 0,
            notes: 0,
            stop: 0,
            number: 0,
            why: 0,
            stream: 0,
            bytes: 0,
            offsets: 0,
        }
    }

    // What is told of a read: how many bytes it got.
    fn got(stream: &Bytes, bytes: &Bytes, offsets: &Bytes, from: u64, to: u64) -> Told
        ensures { result ≡ got_of stream.now bytes.now offsets.now from to }
    {
        Told {
            stream: stream.len(),
            bytes: bytes.len(),
            offsets: offsets.len(),
            ..Told::placed(5, from, to)
        }
    }

    fn refused(fault: Fault, from: u64, to: u64) -> Told
        ensures { result ≡ refused_of fault from to }
    {
        Told {
            number: fault_number(fault) as u32,
            ..Told::placed(6, from, to)
        }
    }

    // What is told of a request that was run, whose steps stand at these places.
    #[inline(always)]
    pub(crate) fn done(answer: &Answer, from: u64, to: u64) -> Told
        ensures { result ≡ done_of answer.now from to }
    {
        match answer {
            Answer::Opened => Told::placed(1, from, to),
            Answer::Set => Told::placed(2, from, to),
            Answer::Exited => Told::placed(3, from, to),
            Answer::Wrote {
                consumed,
                notes,
                stop,
            } => Told {
                consumed: *consumed,
                notes: notes.as_slice().len(),
                stop: stop_kind(stop),
                number: stop_number(stop),
                ..Told::placed(4, from, to)
            },
            Answer::Got {
                stream,
                bytes,
                offsets,
            } => Told::got(stream, bytes, offsets, from, to),
            Answer::Refused(fault) => Told::refused(*fault, from, to),
        }
    }

    /// What an outcome is told as.
    pub(crate) fn of(outcome: &Outcome) -> Told
        ensures { result ≡ told_of outcome.now }
    {
        match outcome {
            Outcome::Handed => Told::placed(0, 0, 0),
            Outcome::Done { answer, from, to } => {
                Told::done(answer, u64::from(*from), u64::from(*to))
            }
            Outcome::Back { request: _, why } => Told {
                why: why_number(*why),
                ..Told::placed(7, 0, 0)
            },
        }
    }

    /// What a step is told as.
    pub(crate) fn of_step(answer: &StepAnswer, from: u64, to: u64) -> Told
        ensures { result ≡ told_of_step answer.now from to }
    {
        match answer {
            StepAnswer::Opened => Told::placed(1, from, to),
            StepAnswer::Set => Told::placed(2, from, to),
            StepAnswer::Exited => Told::placed(3, from, to),
            StepAnswer::Accepted => Told::placed(4, from, to),
            StepAnswer::Noted(note) => Told {
                notes: 1,
                number: note_number(*note) as u32,
                ..Told::placed(4, from, to)
            },
            StepAnswer::Stopped(cause) => Told {
                stop: 2,
                number: cause_number(*cause) as u32,
                ..Told::placed(4, from, to)
            },
            StepAnswer::Got {
                stream,
                bytes,
                offsets,
            } => Told::got(stream, bytes, offsets, from, to),
            StepAnswer::Refused(fault) => Told::refused(*fault, from, to),
        }
    }
}
