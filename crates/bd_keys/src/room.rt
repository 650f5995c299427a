//! Room in what is made anew, without what went.

ghost use Rattle.std.specs.Prelude.{◌+◌, ◌≤◌, IfOk};

use std::alloc::AllocError;

/// For how many room is made where so many are left and so many more are to come: for twice those that are left, so that
/// what comes until all is full pays for making it anew once more, and for at least so many that a small one isn't
/// made anew all the time.
pub fn room_anew(least: usize, left: usize, more: usize) -> Result<usize, AllocError>
    ensures { IfOk result (λ n. left + more ≤ n) }
{
    let room = left
        .checked_mul(2)
        .and_then(|twice| twice.checked_add(more))
        .ok_or(AllocError)?;
    Ok(room.max(least))
}
