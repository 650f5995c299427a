//! What C calls of a seat to hand requests over, and to serve those of others.
ghost use Rattle.std.specs.Prelude.{◌≡◌};
ghost use Rattle.bd_driver.specs.declared.outcome.Served.{Served};
ghost use Rattle.bd_c.specs.{Status.{Reports}, Misuse.{IsMisuse}, Behind.{IsSeat}, Seats.{OverSeat, Serves, Collects, Withdraws}};
ghost use Rattle.bd_c.specs.{Requests.{PostsGiven}, Serving.{TellsServed}};

use crate::answers::Told;
use crate::handles::Handle;
use crate::requests::{RequestGiven, request_of};
use crate::status::Status;
use bd_driver::Served;
use std::alloc::Global;

/// Hands a request over to whoever serves next.
#[tactic(auto, using(crate::proofs::Behind::over_seat_same))]
#[unsafe(no_mangle)]
pub extern "C" fn hullpippin_post(
    alloc: Global,
    seat: &mut Handle,
    given: &RequestGiven,
    stream: &[u8],
    area: &[u8],
) -> u32
    ensures posts { IsSeat seat.old.held
        → Reports result (PostsGiven seat.old.held seat.new.held given.now stream.now area.now) }
    ensures misuse { (IsSeat seat.old.held → ⊥) → IsMisuse result seat.old.held seat.new.held }
{
    let Some(seat) = seat.seat() else {
        return Status::Misuse.number();
    };
    match request_of(alloc, given, stream, area) {
        Ok(request) => seat.post(request).number(),
        Err(status) => status.number(),
    }
}

/// Runs each request that is handed over, and tells how many they were.
#[unsafe(no_mangle)]
pub extern "C" fn hullpippin_serve(seat: &mut Handle, picked: &mut u32) -> u32
    ensures serves { IsSeat seat.old.held
        → (served : Served) × OverSeat seat.old.held seat.new.held (λ x y. Serves x y served)
        × Reports result (TellsServed served picked.old picked.new) }
    ensures misuse { (IsSeat seat.old.held → ⊥) → IsMisuse result seat.old.held seat.new.held × (picked.new ≡ picked.old) }
{
    let Some(seat) = seat.seat() else {
        return Status::Misuse.number();
    };
    match seat.serve() {
        Served::Ran { picked: count } => {
            *picked = count;
            Status::Done.number()
        }
        Served::Taken => Status::Taken.number(),
    }
}

/// Fetches the answer to what was handed over, if it is there.
#[unsafe(no_mangle)]
pub extern "C" fn hullpippin_collect(seat: &mut Handle, told: &mut Told) -> u32
    ensures collects { IsSeat seat.old.held
        → Reports result (λ s. OverSeat seat.old.held seat.new.held (λ x y. Collects x y s told.old told.new)) }
    ensures misuse { (IsSeat seat.old.held → ⊥) → IsMisuse result seat.old.held seat.new.held × (told.new ≡ told.old) }
{
    match seat.seat() {
        Some(seat) => seat.collect(told).number(),
        None => Status::Misuse.number(),
    }
}

/// Takes back what was handed over, if nobody has picked it.
#[unsafe(no_mangle)]
pub extern "C" fn hullpippin_withdraw(seat: &mut Handle, told: &mut Told) -> u32
    ensures withdraws { IsSeat seat.old.held
        → Reports result (λ s. OverSeat seat.old.held seat.new.held (λ x y. Withdraws x y s told.old told.new)) }
    ensures misuse { (IsSeat seat.old.held → ⊥) → IsMisuse result seat.old.held seat.new.held × (told.new ≡ told.old) }
{
    match seat.seat() {
        Some(seat) => seat.withdraw(told).number(),
        None => Status::Misuse.number(),
    }
}
