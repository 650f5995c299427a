//! What the engine's answer means to the one who asked.
ghost use Rattle.std.specs.Prelude.{◌≡◌, MatchResult};
ghost use Rattle.std.specs.Prelude.{Ok, Err};
ghost use Rattle.bd_driver.specs.{Reasons.{outcome_of, reason_of}, declared.outcome.Outcome.TheVariants.{Done, Back}};

use crate::outcome::{Outcome, Why};
use bd_engine::{Ran, Span, StepError};
use bd_space::{Answer, Request};

/// What came of a request that the engine ran or refused.
pub(crate) fn outcome_of(ran: Result<Ran, StepError>, request: Request) -> Outcome
    ensures { MatchResult ran (λ r. result ≡ Done r.answer r.from r.to) (λ why. result ≡ Back request (reason_of why)) }
{
    match ran {
        Ok(ran) => Outcome::Done {
            answer: ran.answer,
            from: ran.from,
            to: ran.to,
        },
        Err(refused) => Outcome::Back {
            request,
            why: reason(refused),
        },
    }
}

/// Why a request comes back that the engine refused.
pub(crate) fn reason(refused: StepError) -> Why
    ensures { result ≡ reason_of refused }
{
    match refused {
        StepError::NoMemory => Why::NoMemory,
        StepError::HistoryFull => Why::HistoryFull,
    }
}

/// The places of a run, or why it comes back.
#[inline(always)]
pub(crate) fn reasoned(ran: Result<Span, StepError>) -> Result<Span, Why>
    ensures { MatchResult ran (λ span. result ≡ Ok span) (λ why. result ≡ Err (reason_of why)) }
{
    match ran {
        Ok(span) => Ok(span),
        Err(refused) => Err(reason(refused)),
    }
}

/// What came of a request that was lent, and answered so.
#[inline(always)]
pub(crate) fn told_as(ran: Result<Span, Why>, answer: Answer, request: Request) -> Outcome
    ensures { result ≡ outcome_of request answer ran }
{
    match ran {
        Ok(span) => Outcome::Done {
            answer,
            from: span.from,
            to: span.to,
        },
        Err(why) => Outcome::Back { request, why },
    }
}
