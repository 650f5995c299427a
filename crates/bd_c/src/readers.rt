//! What a thread sends, as C says it.
ghost use Rattle.std.specs.Prelude.{◌≡◌};
ghost use Rattle.bd_c.specs.Readers.{kind_given as kind_of, outcome_given as outcome_of};

use bd_reader::{Kind, Outcome};

/// 0 a call, 1 a one-way call, and else a reply.
#[inline(always)]
pub(crate) fn kind_given(number: u32) -> Kind
    ensures { result ≡ kind_of number }
{
    match number {
        0 => Kind::Call,
        1 => Kind::OneWay,
        _ => Kind::Reply,
    }
}

/// How it came out, by `stop` and `number` of its answer.
#[inline(always)]
pub(crate) fn outcome_given(stop: u32, number: u32) -> Outcome
    ensures { result ≡ outcome_of stop number }
{
    if stop != 2 {
        return Outcome::Taken;
    }
    if number == 15 {
        return Outcome::NoCall;
    }
    Outcome::Refused
}
