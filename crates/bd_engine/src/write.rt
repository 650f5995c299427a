//! The run of a write: its commands, each one step, up to one that is refused or can't be read.

ghost use Rattle.std.specs.Prelude.{◌≡◌, ◌≤◌, ◌<◌, ◌+◌, ◌-◌, ◌^◌, ◌++◌, ◌∷◌, [], List, ℕ, Err, true, Some, drop, length, vec_len, vec_capacity, IfOk, IfErr, OnOk, OnErr, MatchResult};
ghost use Rattle.bd_uapi.specs.declared.command.Command.{Command};
ghost use Rattle.bd_codec.specs.Reading.{command_at};
ghost use Rattle.bd_ways.specs.Words.{Step, StepAnswer};
ghost use Rattle.bd_space.specs.declared.step.Request.TheVariants.{Write};
ghost use Rattle.bd_space.specs.Histories.{History, space_after, extended, HasPlace, is_at_limit};
ghost use Rattle.bd_space.specs.Steps as steps;
ghost use Rattle.bd_space.specs.{Runs.{HasRun, HasEntry, IsAtLimit}, Writes.{step_of_command}};
ghost use Rattle.bd_engine.specs.Refusals.{FullOnly, MemoryOnly};
ghost use Rattle.bd_step.specs.Plain.{IsBrief};
ghost use Rattle.bd_engine.specs.Writing.{HasCome, IsSame, IsAt, IsAfter, IsCourse, IsCutAt, IsTurnedAway, IsNext, IsSpelled, refused};
ghost use Rattle.bd_engine.specs.Writing.{Ends, course_of, course_or, ended, is_unnoted};
ghost use Rattle.bd_space.specs.declared.step.Answer.TheVariants.{Wrote};

use crate::engine::Engine;
use crate::parcel::Sheet;
use crate::reading::Reading;
use crate::run::Span;
use crate::wide::WideEngine;
use bd_codec::read_command;
use bd_space::{Answer, Entry, Notes, Stop};
use bd_step::{Brief, Plain, StepError};
use bd_uapi::{Command, Fault, Note};
use std::alloc::{AllocError, Global};
use std::mem::replace;

/// How far a write has come.
#[derive(Drop)]
pub(crate) struct Progress {
    /// How many bytes of the stream the commands that were run have.
    consumed: u32,
    /// How many commands were run.
    count: u32,
    /// The commands that changed nothing, each by its index in the stream, and why.
    notes: Vec<(u32, Note)>,
}

/// How a write goes on after a command, in a few bytes.
#[derive(Clone, Copy)]
pub(crate) enum Going {
    /// The write goes on with the next command, if there is one.
    On,
    /// The write stops here, for this reason; what was run stands.
    Stops(Stop),
    /// The write is refused as a whole, for this reason.
    Refused(Fault),
}

// The answer is to a write that has no notes.
#[inline(always)]
fn is_unnoted(told: &Answer) -> bool
    ensures { result ≡ is_unnoted told.now }
{
    match told {
        Answer::Wrote { notes, .. } => notes.as_slice().is_empty(),
        _ => false,
    }
}

// The answer to a write without notes, in place of that to another one.
#[inline(always)]
fn set_numbers(told: &mut Answer, consumed: u32, stop: Option<Stop>)
    requires { is_unnoted told.old ≡ true }
    ensures { told.new ≡ Wrote consumed [] stop }
{
    let Answer::Wrote {
        consumed: to,
        notes: _,
        stop: why,
    } = told
    else {
        unreachable!()
    };
    *to = consumed;
    *why = stop;
}

impl Progress {
    /// Of no write.
    pub(crate) fn new(alloc: Global) -> Progress {
        Progress {
            consumed: 0,
            count: 0,
            notes: Vec::new(alloc),
        }
    }

    // A write begins: of the one before it only the room for notes stays.
    #[inline(always)]
    fn begin(&mut self)
        ensures { IsAt self.new 0 0 [] }
    {
        self.consumed = 0;
        self.count = 0;
        self.notes.clear();
    }

    // Reads the next command, and has the bytes that spell it.
    fn next<'a>(&self, stream: &'a [u8]) -> Result<(Command, &'a [u8]), Fault>
        requires more { self.now.consumed < length stream.now }
        requires short { length stream.now ≤ 4096 }
        ensures read { IfOk result (λ r. IsNext stream.now self.now.consumed r.0 (length r.1.now)) }
        ensures spelled { IfOk result (λ r. IsSpelled r.0 r.1.now) }
        ensures fault { IfErr result (λ x. command_at (drop self.now.consumed stream.now) ≡ Err x) }
    {
        let rest = &stream[self.consumed as usize..];
        match read_command(rest) {
            Err(fault) => Err(fault),
            Ok((command, size)) => Ok((command, &rest[..size])),
        }
    }

    // Makes room for one more note, so that no step that is made is lost, and puts the step of a command where it is to be made.
    // Errors: memory was refused.
    #[inline(always)]
    fn prepare<'a>(
        &mut self,
        seat: u32,
        area: &[u8],
        command: Command,
        sheet: &'a mut Sheet,
    ) -> Result<&'a mut Entry, AllocError>
        ensures same { IsSame self.old self.new }
        ensures room { OnOk result (vec_len self.new.notes < vec_capacity self.new.notes) }
        ensures seat { IfOk result (λ entry. entry.now.seat ≡ seat) }
        ensures step { IfOk result (λ entry. entry.now.step ≡ step_of_command area.now command) }
    {
        let entry = sheet.put(seat, area, command)?;
        self.notes.reserve(1)?;
        Ok(entry)
    }

    // Notes why the command at hand changed nothing.
    fn note(&mut self, note: Note)
        requires { vec_len self.old.notes < vec_capacity self.old.notes }
        ensures consumed { self.new.consumed ≡ self.old.consumed }
        ensures count { self.new.count ≡ self.old.count }
        ensures notes { self.new.notes.items ≡ self.old.notes.items ++ (self.old.count, note) ∷ [] }
    {
        self.notes.push_reserved((self.count, note));
    }

    // How the write goes on whose step at hand was refused: without a process the first command's is.
    fn refused(&self, fault: Fault) -> Going
        ensures { course_of self.now result ≡ Ends (refused self.now 0 fault) }
    {
        if self.count == 0 {
            Going::Refused(fault)
        } else {
            Going::Stops(Stop::Fault(fault))
        }
    }

    // What a write does whose step at hand wasn't taken: it is refused whole, or stops after those that were.
    fn cut_short(&self, why: StepError) -> Result<Going, StepError>
        ensures { IsCutAt self.now why (course_or self.now result) }
    {
        if self.count == 0 {
            return Err(why);
        }
        let fault = match why {
            StepError::NoMemory => Fault::NoMemory,
            StepError::HistoryFull => Fault::HistoryFull,
        };
        Ok(Going::Stops(Stop::Fault(fault)))
    }

    // How the write goes on after a command of this size, which was answered so.
    fn after(&mut self, answer: Brief, size: u32) -> Going
        requires room { vec_len self.old.notes < vec_capacity self.old.notes }
        requires fits { self.old.consumed + size < 2 ^ 32 }
        requires few { self.old.count < 2 ^ 32 - 1 }
        ensures { (a : StepAnswer) → IsBrief answer a → IsAfter self.old a size (course_of self.new result) }
    {
        self.consumed += size;
        match answer {
            Brief::Plain(Plain::Stopped(cause)) => return Going::Stops(Stop::Cause(cause)),
            Brief::Plain(Plain::Refused(fault)) => return self.refused(fault),
            Brief::Plain(Plain::Noted(note)) => self.note(note),
            Brief::Plain(Plain::Opened | Plain::Set | Plain::Exited | Plain::Accepted)
            | Brief::Got => {}
        }
        self.count += 1;
        Going::On
    }

    // Takes the notes. Where there are none, the room for them stays.
    fn take_notes(&mut self) -> Vec<(u32, Note)>
        ensures { result.items ≡ self.old.notes.items }
    {
        let none = Vec::new(*self.notes.allocator());
        if self.notes.is_empty() {
            none
        } else {
            replace(&mut self.notes, none)
        }
    }

    // The answer to the write, which ended so.
    fn answer(&mut self, going: Going) -> Answer
        ensures { result ≡ ended self.old going }
    {
        let stop = match going {
            Going::Refused(fault) => return Answer::Refused(fault),
            Going::Stops(stop) => Some(stop),
            Going::On => None,
        };
        Answer::Wrote {
            consumed: self.consumed,
            notes: Notes::new(self.take_notes()),
            stop,
        }
    }

    // Writes the answer to the write, which ended so, over the answer to an earlier one: where neither has notes only their
    // numbers differ.
    #[inline(always)]
    fn tell(&mut self, going: Going, told: &mut Answer, reading: &mut Reading)
        ensures { told.new ≡ ended self.old going }
    {
        reading.keep(told);
        if !self.notes.is_empty() || !is_unnoted(told) {
            *told = self.answer(going);
            return;
        }
        match going {
            Going::Refused(fault) => *told = Answer::Refused(fault),
            Going::Stops(stop) => set_numbers(told, self.consumed, Some(stop)),
            Going::On => set_numbers(told, self.consumed, None),
        }
    }
}

impl WideEngine {
    // How it is told that a step found no memory: a full history is always told as such.
    #[inline(never)]
    fn without_memory(&self) -> StepError
        ensures full { (seat : ℕ) (x : Step) → FullOnly result (is_at_limit self.now seat (Some x) ≡ true) }
        ensures memory { MemoryOnly result (HasPlace self.now) }
    {
        if self.is_full() {
            StepError::HistoryFull
        } else {
            StepError::NoMemory
        }
    }

    // Runs one command after the other, up to one that ends the write.
    #[inline(always)]
    fn run_each(
        &mut self,
        seat: u32,
        stream: &[u8],
        area: &[u8],
        progress: &mut Progress,
        sheet: &mut Sheet,
    ) -> Result<Going, StepError>
        requires seat { seat < self.old.seats }
        requires short { length stream.now ≤ 4096 }
        requires begun { IsAt progress.old 0 0 [] }
        ensures { MatchResult result
            (λ going. HasRun self.old self.new seat (Write stream.now area.now) (ended progress.new going)
            (length self.old.entries) (length self.new.entries))
            (λ why. (self.new ≡ self.old) × IsTurnedAway self.old seat (Write stream.now area.now) why) }
    {
        'commands: while (progress.consumed as usize) < stream.len() {
            match progress.next(stream) {
                Err(fault) => return Ok(Going::Stops(Stop::Fault(fault))),
                Ok((command, spelled)) => match progress.prepare(seat, area, command, sheet) {
                    Err(AllocError) => return progress.cut_short(self.without_memory()),
                    Ok(entry) => match self.step_in_place(entry, spelled) {
                        Err(why) => return progress.cut_short(why),
                        Ok(answer) => match progress.after(answer, spelled.len() as u32) {
                            Going::On => {}
                            Going::Stops(stop) => return Ok(Going::Stops(stop)),
                            Going::Refused(fault) => return Ok(Going::Refused(fault)),
                        },
                    },
                },
            }
        }
        Ok(Going::On)
    }
}

impl Engine {
    /// Runs a write: its commands, each one step, whose parcels are cut from the area. As `run_in` does of such a request, but its
    /// bytes are lent.
    #[inline(always)]
    pub fn write(
        &mut self,
        seat: u32,
        stream: &[u8],
        area: &[u8],
        told: &mut Answer,
    ) -> Result<Span, StepError>
        requires { seat < self.old.seats }
        ensures ok { IfOk result (λ span. HasRun self.old self.new seat (Write stream.now area.now) told.new span.from span.to) }
        ensures err { OnErr result (self.new ≡ self.old) }
        ensures full { IfErr result (λ why. FullOnly why (IsAtLimit self.old seat (Write stream.now area.now))) }
        ensures memory { IfErr result (λ why. MemoryOnly why (HasPlace self.old)) }
        ensures some { IfErr result (λ _. HasEntry self.old seat (Write stream.now area.now)) }
    {
        let from = self.len();
        if stream.len() > 4096 {
            *told = Answer::Refused(Fault::StreamTooLong);
            return Ok(Span { from, to: from });
        }
        self.progress.begin();
        let wide = &mut self.wide;
        let ran = wide.run_each(seat, stream, area, &mut self.progress, &mut self.command);
        self.command.leave_much(area);
        match ran {
            Err(why) => Err(why),
            Ok(going) => {
                self.progress.tell(going, told, &mut self.reading);
                Ok(Span {
                    from,
                    to: self.len(),
                })
            }
        }
    }
}
