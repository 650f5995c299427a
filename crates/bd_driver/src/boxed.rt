//! What lies in the slots, behind pointers, so that what is moved through a slot has a few bytes. Contracts see what is in
//! the boxes.
ghost use Rattle.std.specs.Prelude.{◌≡◌, ◌<◌, [], IfOk, IfErr, OnErr, MatchResult};
ghost use Rattle.bd_uapi.specs.Limits.{IsSeats};
ghost use Rattle.bd_space.specs.{Histories.{HasPlace}, Runs.{HasRun, HasEntry, IsAtLimit}};
ghost use Rattle.bd_space.specs.declared.step.Request.TheVariants.{Write};
ghost use Rattle.bd_engine.specs.Refusals.{FullOnly, MemoryOnly};
ghost use Rattle.bd_driver.specs.{Reasons.{reason_of}, declared.outcome.Outcome.TheVariants.{Done, Back}};

use crate::outcome::Outcome;
use crate::refusals::outcome_of;
use bd_engine::{Engine, Ran, Span, StepError};
use bd_space::{Answer, Request};
use std::alloc::{AllocError, Global};
use std::marker::Model;
use std::mem;

/// The engine behind a pointer, which contracts see as the engine itself.
#[derive(Drop)]
pub struct BoxedEngine {
    engine: Box<Engine>,
}

impl Model for BoxedEngine {
    ghost use Rattle.bd_space.specs.Histories.{History};

    ghost Value = { History };

    ghost view = { λ b. b.engine.value };
}

impl BoxedEngine {
    /// An engine of so many seats, whose history is empty, in a new box. Errors: memory was refused.
    pub(crate) fn for_seats(alloc: Global, seats: u32) -> Result<BoxedEngine, AllocError>
        requires { IsSeats seats }
        ensures { IfOk result (λ e. e ≡ record { seats = seats; entries = [] }) }
    {
        let engine = Engine::for_seats(alloc, seats)?;
        Ok(BoxedEngine {
            engine: Box::new(alloc, engine)?,
        })
    }

    pub(crate) fn get(&self) -> &Engine
        ensures { result.now ≡ self.now }
    {
        &self.engine
    }

    /// The engine's run of a request.
    #[inline(always)]
    pub(crate) fn run(&mut self, seat: u32, request: &Request) -> Result<Ran, StepError>
        requires { seat < self.old.seats }
        ensures ok { IfOk result (λ r. HasRun self.old self.new seat request.now r.answer r.from r.to) }
        ensures err { OnErr result (self.new ≡ self.old) }
        ensures full { IfErr result (λ why. FullOnly why (IsAtLimit self.old seat request.now)) }
        ensures memory { IfErr result (λ why. MemoryOnly why (HasPlace self.old)) }
        ensures some { IfErr result (λ _. HasEntry self.old seat request.now) }
    {
        self.engine.run(seat, request)
    }

    /// The engine's run of a request, whose answer it writes.
    #[inline(always)]
    pub(crate) fn run_in(
        &mut self,
        seat: u32,
        request: &Request,
        told: &mut Answer,
    ) -> Result<Span, StepError>
        requires { seat < self.old.seats }
        ensures ok { IfOk result (λ span. HasRun self.old self.new seat request.now told.new span.from span.to) }
        ensures err { OnErr result (self.new ≡ self.old) }
        ensures full { IfErr result (λ why. FullOnly why (IsAtLimit self.old seat request.now)) }
        ensures memory { IfErr result (λ why. MemoryOnly why (HasPlace self.old)) }
        ensures some { IfErr result (λ _. HasEntry self.old seat request.now) }
    {
        self.engine.run_in(seat, request, told)
    }

    /// The engine's run of a write whose bytes are lent.
    #[inline(always)]
    pub(crate) fn write(
        &mut self,
        seat: u32,
        stream: &[u8],
        area: &[u8],
        told: &mut Answer,
    ) -> Result<Span, StepError>
        requires { seat < self.old.seats }
        ensures ok { IfOk result (λ span. HasRun self.old self.new seat (Write stream.now area.now) told.new span.from span.to) }
        ensures err { OnErr result (self.new ≡ self.old) }
        ensures full { IfErr result (λ why. FullOnly why (IsAtLimit self.old seat (Write stream.now area.now))) }
        ensures memory { IfErr result (λ why. MemoryOnly why (HasPlace self.old)) }
        ensures some { IfErr result (λ _. HasEntry self.old seat (Write stream.now area.now)) }
    {
        self.engine.write(seat, stream, area, told)
    }

    pub(crate) fn open(self) -> Engine
        ensures { result ≡ self }
    {
        Box::into_inner(self.engine)
    }
}

/// A request that is handed over, and what came of it. Either is made blank where it is taken out.
#[derive(Drop)]
pub struct Sheet {
    request: Request,
    outcome: Outcome,
}

/// A seat's box, which goes away with each request that it hands over and comes back with what came of it. Of what it has
/// meanwhile nothing is said.
pub struct Envelope {
    sheet: Box<Sheet>,
}

// Written out: one that is derived would be proved again, with that of the sheet, in every crate that holds a seat.
impl Drop for Envelope {
    fn drop(self) {
        let Envelope { sheet: _ } = self;
    }
}

impl Envelope {
    /// An empty sheet. Errors: memory was refused.
    pub(crate) fn new(alloc: Global) -> Result<Envelope, AllocError> {
        let sheet = Sheet {
            request: Request::SetManager,
            outcome: Outcome::Handed,
        };
        Ok(Envelope {
            sheet: Box::new(alloc, sheet)?,
        })
    }

    /// Puts the request into this box. Takes no memory.
    pub(crate) fn filled(mut self, request: Request) -> BoxedRequest
        ensures { result ≡ request }
    {
        self.sheet.request = request;
        BoxedRequest { envelope: self }
    }
}

/// A request in its seat's box, which contracts see as the request.
#[derive(Drop)]
pub struct BoxedRequest {
    envelope: Envelope,
}

impl Model for BoxedRequest {
    ghost use Rattle.bd_space.specs.declared.step.Request.{Request};

    ghost Value = { Request };

    ghost view = { λ b. b.envelope.sheet.value.request };
}

impl BoxedRequest {
    pub(crate) fn get(&self) -> &Request
        ensures { result.now ≡ self.now }
    {
        &self.envelope.sheet.request
    }

    /// Takes the request out, and gives the box back beside it.
    pub(crate) fn open(mut self) -> (Request, Envelope)
        ensures { result.0 ≡ self }
    {
        let request = mem::replace(&mut self.envelope.sheet.request, Request::SetManager);
        (request, self.envelope)
    }

    /// Puts what came of the request into the same box. Takes no memory.
    pub(crate) fn answered(self, ran: Result<Ran, StepError>) -> BoxedOutcome
        ensures { MatchResult ran (λ r. result ≡ Done r.answer r.from r.to) (λ why. result ≡ Back self (reason_of why)) }
    {
        let (request, mut envelope) = self.open();
        envelope.sheet.outcome = outcome_of(ran, request);
        BoxedOutcome { envelope }
    }
}

/// What came of a request, in its seat's box, which contracts see as the outcome.
#[derive(Drop)]
pub struct BoxedOutcome {
    envelope: Envelope,
}

impl Model for BoxedOutcome {
    ghost use Rattle.bd_driver.specs.declared.outcome.Outcome.{Outcome};

    ghost Value = { Outcome };

    ghost view = { λ b. b.envelope.sheet.value.outcome };
}

impl BoxedOutcome {
    /// Takes the outcome out, and gives the box back beside it.
    pub(crate) fn open(mut self) -> (Outcome, Envelope)
        ensures { result.0 ≡ self }
    {
        let outcome = mem::replace(&mut self.envelope.sheet.outcome, Outcome::Handed);
        (outcome, self.envelope)
    }
}
