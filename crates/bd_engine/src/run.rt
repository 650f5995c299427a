//! The run of a request: one step, or for a write one for each of its commands.

ghost use Rattle.std.specs.Prelude.{◌≡◌, ◌<◌, [], true, Some, IfOk, IfErr, IfSome, OnErr, MatchOption};
ghost use Rattle.bd_space.specs.declared.step.Request.{Request};
ghost use Rattle.bd_space.specs.{Space.{Space}, Histories.{HasPlace, is_at_limit}};
ghost use Rattle.bd_space.specs.Runs as runs;
ghost use Rattle.bd_space.specs.Runs.{HasRun, HasEntry, IsAtLimit, answered};
ghost use Rattle.bd_spelling.specs.Spelling.{SpellsCommand};
ghost use Rattle.bd_step.specs.Plain.{answer_of};
ghost use Rattle.bd_engine.specs.{Refusals.{FullOnly, MemoryOnly}, Writing.{IsWrite, IsOneStep}};

use crate::engine::Engine;
use crate::reading::Reading;
use crate::wide::WideEngine;
use bd_space::{Answer, Request, Step};
use bd_step::{Plain, StepError};

/// What a run answered, and the places of its steps: from `from` up to and without `to`.
#[derive(Drop, Debug)]
pub struct Ran {
    /// The answer to the request.
    pub answer: Answer,
    /// The place of the first step.
    pub from: u32,
    /// The place after the last step.
    pub to: u32,
}

/// The places of the steps of a run: from `from` up to and without `to`.
#[derive(Clone, Copy, Debug)]
pub struct Span {
    /// The place of the first step.
    pub from: u32,
    /// The place after the last step.
    pub to: u32,
}

// What the only step of a request answers it that takes no memory.
#[inline(always)]
pub(crate) fn plainly(plain: Plain) -> Answer
    ensures { result ≡ answered (answer_of plain) }
{
    match plain {
        Plain::Opened => Answer::Opened,
        Plain::Exited => Answer::Exited,
        Plain::Refused(fault) => Answer::Refused(fault),
        Plain::Set | Plain::Accepted | Plain::Noted(_) | Plain::Stopped(_) => Answer::Set,
    }
}

// The step of a request that is one; none of a write. Made in one place: a step for each kind of request would have its own
// room on the stack, and be cleared there in each run.
#[tactic(auto, unfolding(bd_space::specs::Runs::run))]
fn step_of(request: &Request) -> Option<Step>
    ensures step { MatchOption result (IsWrite request.now) (IsOneStep request.now) }
    // It is no command.
    ensures bare { IfSome result (λ x. SpellsCommand x []) }
{
    match request {
        Request::Open { pid, euid, window } => {
            let (pid, euid, window) = (*pid, *euid, *window);
            Some(Step::Open { pid, euid, window })
        }
        Request::Attach { pid } => Some(Step::Attach { pid: *pid }),
        Request::SetManager => Some(Step::SetManager),
        Request::SetSpam { on } => Some(Step::SetSpam { on: *on }),
        Request::Write { .. } => None,
        Request::Read { limit } => Some(Step::Read { limit: *limit }),
        Request::ExitThread => Some(Step::ExitThread),
        Request::ExitProcess => Some(Step::ExitProcess),
    }
}

impl WideEngine {
    // A request that is one step. Its answer is written to `told`.
    #[inline(always)]
    fn single(
        &mut self,
        seat: u32,
        step: Step,
        told: &mut Answer,
        reading: &mut Reading,
    ) -> Result<Span, StepError>
        requires seat { seat < self.old.seats }
        requires bare { SpellsCommand step [] }
        ensures ok { (request : Request) → ((s : Space) → runs.run s seat request ≡ runs.single s seat step)
            → IfOk result (λ span. HasRun self.old self.new seat request told.new span.from span.to) }
        ensures err { OnErr result (self.new ≡ self.old) }
        ensures full { IfErr result (λ why. FullOnly why (is_at_limit self.old seat (Some step) ≡ true)) }
        ensures memory { IfErr result (λ why. MemoryOnly why (HasPlace self.old)) }
        ensures seats { self.new.seats ≡ self.old.seats }
    {
        let from = self.len();
        reading.put(seat, step);
        match self.step_in_place(&mut reading.entry, &[]) {
            Err(why) => Err(why),
            Ok(brief) => {
                reading.tell(brief, told);
                Ok(Span {
                    from,
                    to: self.len(),
                })
            }
        }
    }
}

impl Engine {
    /// Runs a request: makes its steps, writes to `told` what they answer it, and says where they stand. A write that memory or the
    /// full history stops after some of its commands answers those; refused before its first step, the engine is as it
    /// was, and of what is written nothing is known. A write that makes no step is never refused.
    #[inline(always)]
    pub fn run_in(
        &mut self,
        seat: u32,
        request: &Request,
        told: &mut Answer,
    ) -> Result<Span, StepError>
        requires { seat < self.old.seats }
        ensures ok { IfOk result (λ span. HasRun self.old self.new seat request.now told.new span.from span.to) }
        ensures err { OnErr result (self.new ≡ self.old) }
        ensures full { IfErr result (λ why. FullOnly why (IsAtLimit self.old seat request.now)) }
        // Want of memory isn't said of a full history.
        ensures memory { IfErr result (λ why. MemoryOnly why (HasPlace self.old)) }
        // Only a run that has an entry is refused.
        ensures some { IfErr result (λ _. HasEntry self.old seat request.now) }
    {
        match step_of(request) {
            Some(step) => self.wide.single(seat, step, told, &mut self.reading),
            None => match request {
                Request::Write { stream, area } => {
                    self.write(seat, stream.as_slice(), area.as_slice(), told)
                }
                _ => unreachable!(),
            },
        }
    }

    /// Runs a request as `run_in` does, and answers what it writes beside the places.
    #[inline(always)]
    pub fn run(&mut self, seat: u32, request: &Request) -> Result<Ran, StepError>
        requires { seat < self.old.seats }
        ensures ok { IfOk result (λ r. HasRun self.old self.new seat request.now r.answer r.from r.to) }
        ensures err { OnErr result (self.new ≡ self.old) }
        ensures full { IfErr result (λ why. FullOnly why (IsAtLimit self.old seat request.now)) }
        // Want of memory isn't said of a full history.
        ensures memory { IfErr result (λ why. MemoryOnly why (HasPlace self.old)) }
        // Only a run that has an entry is refused.
        ensures some { IfErr result (λ _. HasEntry self.old seat request.now) }
        // It has as many seats as before.
        ensures seats { self.new.seats ≡ self.old.seats }
    {
        let mut answer = Answer::Set;
        match self.run_in(seat, request, &mut answer) {
            Err(why) => Err(why),
            Ok(span) => Ok(Ran {
                answer,
                from: span.from,
                to: span.to,
            }),
        }
    }
}
