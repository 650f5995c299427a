//! Answers compared.

ghost use Rattle.std.specs.Prelude.{◌≡◌, ◌↔◌, IsTrue};

use bd_space::{Bytes, StepAnswer};

fn is_same_bytes(a: &Bytes, b: &Bytes) -> bool
    ensures { IsTrue result ↔ (a.now ≡ b.now) }
{
    a.as_slice() == b.as_slice()
}

/// Whether the two answers are equal, byte for byte where they have bytes.
pub(crate) fn is_same_answer(a: &StepAnswer, b: &StepAnswer) -> bool
    ensures { IsTrue result ↔ (a.now ≡ b.now) }
{
    match (a, b) {
        (StepAnswer::Opened, StepAnswer::Opened) => true,
        (StepAnswer::Set, StepAnswer::Set) => true,
        (StepAnswer::Exited, StepAnswer::Exited) => true,
        (StepAnswer::Accepted, StepAnswer::Accepted) => true,
        (StepAnswer::Noted(n), StepAnswer::Noted(m)) => n == m,
        (StepAnswer::Stopped(n), StepAnswer::Stopped(m)) => n == m,
        (StepAnswer::Refused(n), StepAnswer::Refused(m)) => n == m,
        (
            StepAnswer::Got {
                stream,
                bytes,
                offsets,
            },
            StepAnswer::Got {
                stream: other_stream,
                bytes: other_bytes,
                offsets: other_offsets,
            },
        ) => {
            is_same_bytes(stream, other_stream)
                && is_same_bytes(bytes, other_bytes)
                && is_same_bytes(offsets, other_offsets)
        }
        _ => false,
    }
}
