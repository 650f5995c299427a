//! The numbers that C has for reasons.
ghost use Rattle.std.specs.Prelude.{◌≡◌};
ghost use Rattle.bd_c.specs.Told as spec;

use bd_driver::Why;
use bd_journal::{cause_number, fault_number};
use bd_space::Stop;

/// The kind of reason why a write stopped.
pub(crate) fn stop_kind(stop: &Option<Stop>) -> u32
    ensures { result ≡ spec.stop_kind stop.now }
{
    match stop {
        None => 0,
        Some(Stop::Fault(_)) => 1,
        Some(Stop::Cause(_)) => 2,
    }
}

/// The number of the reason why a write stopped.
pub(crate) fn stop_number(stop: &Option<Stop>) -> u32
    ensures { result ≡ spec.stop_number stop.now }
{
    match stop {
        None => 0,
        Some(Stop::Fault(fault)) => fault_number(*fault) as u32,
        Some(Stop::Cause(cause)) => cause_number(*cause) as u32,
    }
}

/// The number of the reason why a request comes back.
pub(crate) fn why_number(why: Why) -> u32
    ensures { result ≡ spec.why_number why }
{
    match why {
        Why::Taken => 1,
        Why::NoMemory => 2,
        Why::HistoryFull => 3,
        Why::Withdrawn => 4,
    }
}
