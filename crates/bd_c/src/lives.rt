//! A new live engine, as it comes behind a handle.
ghost use Rattle.std.specs.Prelude.{[], Some, IfOk, IfErr};
ghost use Rattle.bd_space.specs.Histories.{history_of};
ghost use Rattle.bd_engine.specs.Begun.{refusals};
ghost use Rattle.bd_c.specs.{Behind.{Of, live_of}, Lives.{Begins, IsLiveRefusal}};

use crate::held::Held;
use crate::live::OwnedLive;
use crate::opening::boxed;
use crate::status::Status;
use std::alloc::Global;

/// A new live engine, in a box, of so many of whose seats it is kept who waits.
pub(crate) fn open_live(alloc: Global, seats: u32, waiting: u32) -> Result<Box<Held>, Status>
    ensures ok { IfOk result (λ b. Of live_of (Some b.value) (Begins (history_of seats []) waiting)) }
    ensures refused { IfErr result (IsLiveRefusal seats) }
{
    let live = OwnedLive::new(alloc, seats, waiting)?;
    boxed(alloc, Held::Live(live))
}

/// One that is as after so many refused steps.
pub(crate) fn open_live_at(
    alloc: Global,
    seats: u32,
    steps: u64,
    waiting: u32,
) -> Result<Box<Held>, Status>
    ensures ok { IfOk result (λ b. Of live_of (Some b.value) (Begins (refusals seats steps) waiting)) }
    ensures refused { IfErr result (IsLiveRefusal seats) }
{
    let live = OwnedLive::begun_at(alloc, seats, steps, waiting)?;
    boxed(alloc, Held::Live(live))
}
