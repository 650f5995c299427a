//! What a work item is.

ghost use Rattle.std.specs.Prelude.{◌≡◌};
ghost use Rattle.bd_space.specs.Todo as spec;
ghost use Rattle.bd_todo.specs.TodoList as replies;

use bd_space::{Work, WorkKind};

// A call, a reply or a verdict.
pub(crate) fn keeps_from_calling(kind: WorkKind) -> bool
    ensures { result ≡ spec.keeps_from_calling kind }
{
    matches!(
        kind,
        WorkKind::Call(_) | WorkKind::Reply(_) | WorkKind::Verdict(_)
    )
}

/// A work item is the call of this buffer.
pub fn is_call(buffer: u64, kind: WorkKind) -> bool
    ensures { result ≡ spec.is_call buffer kind }
{
    matches!(kind, WorkKind::Call(b) if b == buffer)
}

/// The buffer that is handed over by reading a work item of this kind.
pub fn hands_out(kind: WorkKind) -> Option<u64>
    ensures { result ≡ spec.hands_out kind }
{
    match kind {
        WorkKind::Call(buffer) | WorkKind::Reply(buffer) => Some(buffer),
        _ => None,
    }
}

// Where the reply of this kind was made.
pub(crate) fn reply_of(kind: WorkKind) -> Option<u64>
    ensures { result ≡ replies.reply_of kind }
{
    match kind {
        WorkKind::Reply(buffer) => Some(buffer),
        _ => None,
    }
}

// The two are called the same: by list and identity.
pub(crate) fn is_item(item: &Work, work: &Work) -> bool
    ensures { result ≡ spec.is_item work.now item.now }
{
    work.id == item.id && work.list == item.list
}
