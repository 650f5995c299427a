//! What C calls to have those woken who wait for a live engine: a bridge is a live engine that also knows who waits.
ghost use Rattle.std.specs.Prelude.{◌≡◌, [], None};
ghost use Rattle.bd_space.specs.Histories.{history_of};
ghost use Rattle.bd_engine.specs.Begun.{refusals};
ghost use Rattle.bd_bridge.specs.Suspects.{suspects_in};
ghost use Rattle.bd_c.specs.{Status.{Reports}, Misuse.{IsMisuse}, Behind.{Of, Over, IsThere, IsLive, live_of}, Lives.{LiveOpensAt}};
ghost use Rattle.bd_c.specs.Bridges.{Awaits, WaitsByFlag, GetsDoorbell, StopsReading, StopsWaiting, HasLooked};
ghost use Rattle.bd_c.specs.declared.status.Status.TheVariants.{Done};

use crate::bridges::SignalTold;
use crate::handles::Handle;
use crate::lives::{open_live, open_live_at};
use crate::opening::put_made;
use crate::status::Status;
use std::alloc::Global;

/// Makes a live engine for so many seats, 1 to 65536, of each of which it is kept how it waits. The handle has to have nothing.
#[tactic(auto, using(crate::proofs::Behind::none_there))]
#[unsafe(no_mangle)]
pub extern "C" fn hullpippin_bridge_new(alloc: Global, seats: u32, live: &mut Handle) -> u32
    ensures begins { live.old.held ≡ None → Reports result (LiveOpensAt (history_of seats []) seats live.new.held) }
    ensures misuse { IsThere live.old.held → IsMisuse result live.old.held live.new.held }
{
    if live.is_there() {
        return Status::Misuse.number();
    }
    put_made(live, open_live(alloc, seats, seats))
}

/// Makes one that is as after so many refused steps, for tests of what is far behind the first: hullpippin.h hasn't got it.
#[tactic(auto, using(crate::proofs::Behind::none_there))]
#[unsafe(no_mangle)]
pub extern "C" fn hullpippin_bridge_begun_at(
    alloc: Global,
    seats: u32,
    steps: u64,
    live: &mut Handle,
) -> u32
    ensures begins { live.old.held ≡ None → Reports result (LiveOpensAt (refusals seats steps) seats live.new.held) }
    ensures misuse { IsThere live.old.held → IsMisuse result live.old.held live.new.held }
{
    if live.is_there() {
        return Status::Misuse.number();
    }
    put_made(live, open_live_at(alloc, seats, steps, seats))
}

/// A seat's thread waits in a read from now on, with room for so many bytes. Where `defers` is 1 or 2, what it need not be told before
/// the reply to a call of its own may be read for it meanwhile, or, with 2, left while it is a completion alone.
#[unsafe(no_mangle)]
pub extern "C" fn hullpippin_bridge_wait(
    alloc: Global,
    live: &mut Handle,
    seat: u32,
    room: u32,
    defers: u32,
) -> u32
    ensures waits { IsLive live.old.held → Reports result (λ s. Over live_of live.old.held live.new.held (λ x y.
        WaitsByFlag room defers x y seat s)) }
    ensures misuse { (IsLive live.old.held → ⊥) → IsMisuse result live.old.held live.new.held }
{
    match live.engine() {
        Some(engine) => engine.wait_by_flag(alloc, seat, room, defers).number(),
        None => Status::Misuse.number(),
    }
}

/// A seat's thread has a doorbell from now on, which is silent.
#[unsafe(no_mangle)]
pub extern "C" fn hullpippin_bridge_give_doorbell(
    alloc: Global,
    live: &mut Handle,
    seat: u32,
) -> u32
    ensures waits { IsLive live.old.held → Reports result (λ s. Over live_of live.old.held live.new.held (λ x y.
        Awaits GetsDoorbell x y seat s)) }
    ensures misuse { (IsLive live.old.held → ⊥) → IsMisuse result live.old.held live.new.held }
{
    match live.engine() {
        Some(engine) => engine.give_doorbell(alloc, seat).number(),
        None => Status::Misuse.number(),
    }
}

/// A seat's thread waits no more in a read. Its doorbell stays.
#[unsafe(no_mangle)]
pub extern "C" fn hullpippin_bridge_stop_reading(live: &mut Handle, seat: u32) -> u32
    ensures waits { IsLive live.old.held → Reports result (λ s. Over live_of live.old.held live.new.held (λ x y.
        Awaits StopsReading x y seat s)) }
    ensures misuse { (IsLive live.old.held → ⊥) → IsMisuse result live.old.held live.new.held }
{
    match live.engine() {
        Some(engine) => engine.stop_reading(seat).number(),
        None => Status::Misuse.number(),
    }
}

/// A seat's thread waits no more, neither in a read nor by a doorbell.
#[unsafe(no_mangle)]
pub extern "C" fn hullpippin_bridge_stop_waiting(live: &mut Handle, seat: u32) -> u32
    ensures waits { IsLive live.old.held → Reports result (λ s. Over live_of live.old.held live.new.held (λ x y.
        Awaits StopsWaiting x y seat s)) }
    ensures misuse { (IsLive live.old.held → ⊥) → IsMisuse result live.old.held live.new.held }
{
    match live.engine() {
        Some(engine) => engine.stop_waiting(seat).number(),
        None => Status::Misuse.number(),
    }
}

/// Looks at so many seats at most, until one of them is to be told something, and tells that.
#[unsafe(no_mangle)]
pub extern "C" fn hullpippin_bridge_settle(
    live: &mut Handle,
    looks: u32,
    told: &mut SignalTold,
) -> u32
    ensures looks { IsLive live.old.held → Reports result (λ s. (s ≡ Done) × Over live_of live.old.held live.new.held (λ x y.
        HasLooked x y looks told.new)) }
    ensures misuse { (IsLive live.old.held → ⊥) → IsMisuse result live.old.held live.new.held × (told.new ≡ told.old) }
{
    match live.engine() {
        Some(engine) => {
            engine.settle(looks, told);
            Status::Done.number()
        }
        None => Status::Misuse.number(),
    }
}

/// How many seats are to be looked at, some perhaps twice.
#[unsafe(no_mangle)]
pub extern "C" fn hullpippin_bridge_suspects(live: &mut Handle) -> usize
    ensures same { live.new.held ≡ live.old.held }
    ensures suspects { IsLive live.old.held → Of live_of live.old.held (λ x. result ≡ suspects_in x.bridge.suspects) }
    ensures misuse { (IsLive live.old.held → ⊥) → result ≡ 0 }
{
    match live.engine() {
        Some(engine) => engine.bridge.suspects(),
        None => 0,
    }
}
