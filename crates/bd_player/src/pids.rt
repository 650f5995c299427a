//! The pids of processes that are known by the places where they were opened, and of the owners of objects.

ghost use Rattle.std.specs.Prelude.{◌≡◌, IfOk};
ghost use Rattle.bd_audit.specs.Replays.{with_entry};
ghost use Rattle.bd_space.specs.Histories.{IsHistory, space_after};
ghost use Rattle.bd_player.specs.Pids as spec;

use crate::untold::Untold;
use bd_audit::advance;
use bd_engine::{Looks, WideEngine};
use bd_space::{Entry, Identity, ObjectId, Step};

/// The pid of the process that was opened at a place.
pub(crate) fn pid_at(entries: &[Entry], place: u64) -> Option<u32>
    ensures { result ≡ spec.pid_at entries.now place }
{
    match &entries.get(place as usize)?.step {
        Step::Open { pid, .. } => Some(*pid),
        _ => None,
    }
}

/// The pid of the process that owns an object.
pub(crate) fn owner_of(engine: &WideEngine, entries: &[Entry], object: ObjectId) -> Option<u32>
    ensures { result ≡ spec.owner_pid (space_after engine.now) entries.now object }
{
    pid_at(entries, Looks::owner(engine, Identity::from(object))?)
}

/// The pid of the process of a seat's thread.
pub(crate) fn pid_of(engine: &WideEngine, entries: &[Entry], seat: u32) -> Option<u32>
    ensures { result ≡ spec.pid_of (space_after engine.now) entries.now seat }
{
    pid_at(entries, Looks::process_of(engine, seat)?)
}

/// The pid of the process in whose window the buffer made at a place lies.
pub(crate) fn receiver_of(engine: &WideEngine, entries: &[Entry], place: u32) -> Option<u32>
    ensures { result ≡ spec.receiver_of (space_after engine.now) entries.now place }
{
    pid_at(entries, Looks::buffer(engine, u64::from(place))?.receiver())
}

/// Makes the step of an entry. The pid of the process that made it: that of the seat's thread before it, or else after it.
pub(crate) fn step_made(
    engine: &mut WideEngine,
    entries: &[Entry],
    entry: &Entry,
) -> Result<Option<u32>, Untold>
    requires { IsHistory (with_entry engine.old entry.now) }
    ensures engine { IfOk result (λ _. engine.new ≡ with_entry engine.old entry.now) }
    ensures pid { IfOk result (λ pid. pid ≡ spec.pid_in engine.old entries.now entry.now) }
{
    let before = pid_of(engine, entries, entry.seat);
    advance(engine, entry)?;
    Ok(before.or(pid_of(engine, entries, entry.seat)))
}
