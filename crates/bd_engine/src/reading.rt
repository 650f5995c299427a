//! The step of a request that is one, mostly a read, and memory for what is read.

ghost use Rattle.std.specs.Prelude.{◌≡◌};
ghost use Rattle.bd_ways.specs.Words as words;
ghost use Rattle.bd_space.specs.Runs.{answered};
ghost use Rattle.bd_step.specs.{Plain.{IsBrief, IsGot}, declared.answer.Brief.TheVariants.{Got}};

use crate::memory::leave_much;
use crate::run::plainly;
use bd_space::{Answer, Bytes, Entry, Notes, Step, StepAnswer};
use bd_step::Brief;
use std::alloc::Global;
use std::mem::{replace, swap};

/// The entry of the latest step, which stays from step to step: nothing of it is cleared for the next one. What was read and is given
/// up stands there as its answer, or as the spare one, so that its memory is used by the next reads.
#[derive(Drop)]
pub(crate) struct Reading {
    pub(crate) entry: Entry,
    spare: StepAnswer,
    alloc: Global,
}

// Puts a step in place of the one before it.
#[inline(always)]
fn put_step(to: &mut Step, made: Step)
    ensures { to.new ≡ made }
{
    if let Step::Read { limit } = made {
        if let Step::Read { limit: there } = to {
            *there = limit;
            return;
        }
    }
    *to = made;
}

// Whether something was read, and its memory is here still: each read has the bytes of a few returns at least.
#[inline(always)]
fn has_memory(answer: &StepAnswer) -> bool {
    match answer {
        StepAnswer::Got { stream, .. } => !stream.is_empty(),
        _ => false,
    }
}

// The bytes, in the memory that they have. None are left.
#[inline(always)]
fn take(alloc: Global, bytes: &mut Bytes) -> Bytes
    ensures { result ≡ bytes.old }
{
    replace(bytes, Bytes::new(Vec::new(alloc)))
}

impl Reading {
    /// Of no step.
    pub(crate) fn new(alloc: Global) -> Reading {
        Reading {
            entry: Entry {
                seat: 0,
                step: Step::ExitThread,
                answer: StepAnswer::Exited,
            },
            spare: StepAnswer::Exited,
            alloc,
        }
    }

    /// Puts this step there.
    #[inline(always)]
    pub(crate) fn put(&mut self, seat: u32, step: Step)
        ensures seat { self.new.entry.seat ≡ seat }
        ensures step { self.new.entry.step ≡ step }
    {
        self.entry.seat = seat;
        put_step(&mut self.entry.step, step);
    }

    /// Writes the answer to a request whose only step it was: its answer in brief, and what was read.
    #[inline(always)]
    pub(crate) fn tell(&mut self, brief: Brief, told: &mut Answer)
        requires { brief ≡ Got → IsGot self.old.entry.answer }
        ensures { (answer : words.StepAnswer) → IsBrief brief answer → (brief ≡ Got → self.old.entry.answer ≡ answer) → told.new ≡ answered answer }
    {
        match brief {
            Brief::Got => self.tell_read(told),
            Brief::Plain(plain) => {
                self.keep(told);
                *told = plainly(plain);
            }
        }
    }

    // Tells what was read. Where something was told that was read before, the two change places, each in its memory.
    #[inline(always)]
    fn tell_read(&mut self, told: &mut Answer)
        requires { IsGot self.old.entry.answer }
        ensures { told.new ≡ answered self.old.entry.answer }
    {
        let StepAnswer::Got {
            stream: returns,
            bytes: data,
            offsets: objects,
        } = &mut self.entry.answer
        else {
            unreachable!()
        };
        if let Answer::Got {
            stream,
            bytes,
            offsets,
        } = told
        {
            swap(stream, returns);
            swap(bytes, data);
            swap(offsets, objects);
            leave_much(self.alloc, returns);
            leave_much(self.alloc, data);
            leave_much(self.alloc, objects);
            return;
        }
        *told = Answer::Got {
            stream: take(self.alloc, returns),
            bytes: take(self.alloc, data),
            offsets: take(self.alloc, objects),
        };
        self.put_spare();
    }

    // The next read uses the spare memory, if there is some.
    #[inline(always)]
    fn put_spare(&mut self) {
        if has_memory(&self.spare) {
            swap(&mut self.spare, &mut self.entry.answer);
        }
    }

    /// Keeps the memory of what was read, where that was told and something else is to be told in its place: from now on that is the
    /// answer to a write, which needs none.
    #[inline(always)]
    pub(crate) fn keep(&mut self, told: &mut Answer) {
        let Answer::Got {
            stream,
            bytes,
            offsets,
        } = told
        else {
            return;
        };
        leave_much(self.alloc, stream);
        leave_much(self.alloc, bytes);
        leave_much(self.alloc, offsets);
        let memory = StepAnswer::Got {
            stream: take(self.alloc, stream),
            bytes: take(self.alloc, bytes),
            offsets: take(self.alloc, offsets),
        };
        *told = Answer::Wrote {
            consumed: 0,
            notes: Notes::new(Vec::new(self.alloc)),
            stop: None,
        };
        self.put_memory(memory);
    }

    // The next read uses this memory, or the one after it.
    #[inline(always)]
    fn put_memory(&mut self, memory: StepAnswer) {
        if has_memory(&self.entry.answer) {
            self.spare = memory;
        } else {
            self.entry.answer = memory;
        }
    }
}
