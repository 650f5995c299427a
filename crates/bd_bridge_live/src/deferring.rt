//! What can wait for the reply to a call.

ghost use Rattle.std.specs.Prelude.{◌≡◌, length};
ghost use Rattle.bd_bridge_live.specs.Deferring.{size_behind as size_of_it, all_can_wait as they_can_wait, may_wait as it_may_wait, is_completion as it_is_completion, is_completion_alone as it_is_alone};

use bd_engine::Works;
use bd_space::{StepAnswer, WorkKind};
use bd_uapi::codes::{BR_ACQUIRE, BR_INCREFS, BR_NOOP, BR_TRANSACTION_COMPLETE};
use bd_uapi::numbers::u32_at;

// How many bytes follow the code of a return that can wait.
fn size_behind(code: u32) -> Option<usize>
    ensures { result ≡ size_of_it code }
{
    match code {
        BR_NOOP | BR_TRANSACTION_COMPLETE => Some(0),
        BR_INCREFS | BR_ACQUIRE => Some(16),
        _ => None,
    }
}

// Whether all of the returns in these bytes can wait.
fn all_can_wait(bytes: &[u8]) -> bool
    ensures { result ≡ they_can_wait (length bytes.now) bytes.now }
{
    let mut at = 0;
    let mut left = bytes.len();
    while left > 0 {
        if at == bytes.len() {
            return true;
        }
        if bytes.len() - at < 4 {
            return false;
        }
        let Some(size) = size_behind(u32_at(bytes, at)) else {
            return false;
        };
        if bytes.len() - at - 4 < size {
            return false;
        }
        at += 4 + size;
        left -= 1;
    }
    at == bytes.len()
}

/// Whether what was read is nothing but what can wait for the reply to a call of the reader's.
pub(crate) fn may_wait(answer: &StepAnswer) -> bool
    ensures { result ≡ it_may_wait answer.now }
{
    match answer {
        StepAnswer::Got { stream, .. } => all_can_wait(stream.as_slice()),
        _ => false,
    }
}

fn is_completion(kind: WorkKind) -> bool
    ensures { result ≡ it_is_completion kind }
{
    match kind {
        WorkKind::Complete { spam } => !spam,
        _ => false,
    }
}

/// Whether there is the completion of a call among these, and nothing else.
pub(crate) fn is_completion_alone(mut works: Works<'_>) -> bool
    ensures { result ≡ it_is_alone works.entry }
{
    match works.next() {
        Some(work) => is_completion(work.kind) && works.next().is_none(),
        None => false,
    }
}
