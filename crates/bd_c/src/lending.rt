//! What is behind a handle, lent to a call; or that it isn't what the call is for.
ghost use Rattle.std.specs.{Prelude.{◌≡◌, Some, None, MatchBool, MatchOption}, Borrow.{sem}};
ghost use Rattle.bd_spelling.specs.contracts.record.Record.{the_row as record_row};
ghost use Rattle.bd_c.specs.declared.held.Held.TheVariants.{Driver, History, Live, Seat};
ghost use Rattle.bd_c.specs.{contracts.held.Held.{the_row as held_row}, contracts.host.Host.{the_row as host_row}};
ghost use Rattle.bd_c.specs.contracts.live.OwnedLive.{the_row as live_row};
ghost use Rattle.bd_c.specs.contracts.seat.OwnedSeat.{the_row as seat_row};
ghost use Rattle.bd_c.specs.{Behind.{Of, IsThere, IsDriver, IsEnded, IsLive, IsSeat, seat_of}, Keys.{seat_key}, Lending.{LendsAs}};

use crate::handles::Handle;
use crate::held::Held;
use crate::host::Host;
use crate::live::OwnedLive;
use crate::seat::OwnedSeat;
use bd_spelling::Record;

impl Handle {
    /// What is behind it, whatever that is.
    pub(crate) fn held(&mut self) -> Option<&mut Held>
        ensures* lends { sem 𝓛 (LendsAs held_row (λ x. x) self.entry result) }
        ensures held { MatchOption result (self.old.held ≡ None) (λ r. self.old.held ≡ Some r.now) }
    {
        if self.at.is_null() {
            return None;
        }
        Some(unsafe { &mut *(self.at as *mut Held) })
    }

    /// The driver that is behind the handle, if one is that hasn't ended.
    pub(crate) fn host(&mut self) -> Option<&mut Host>
        ensures* lends { sem 𝓛 (LendsAs host_row Driver self.entry result) }
        ensures host { MatchOption result (IsDriver self.old.held → ⊥) (λ r. self.old.held ≡ Some (Driver r.now)) }
    {
        match self.held()? {
            Held::Driver(host) => Some(host),
            _ => None,
        }
    }

    /// The history that is behind the handle of a driver that has ended.
    pub(crate) fn history(&mut self) -> Option<&mut Record>
        ensures* lends { sem 𝓛 (LendsAs record_row History self.entry result) }
        ensures history { MatchOption result (IsEnded self.old.held → ⊥) (λ r. self.old.held ≡ Some (History r.now)) }
    {
        match self.held()? {
            Held::History(history) => Some(history),
            _ => None,
        }
    }

    /// The seat that is behind the handle, if one is.
    pub(crate) fn seat(&mut self) -> Option<&mut OwnedSeat>
        ensures* lends { sem 𝓛 (LendsAs seat_row Seat self.entry result) }
        ensures seat { MatchOption result (IsSeat self.old.held → ⊥) (λ r. self.old.held ≡ Some (Seat r.now)) }
    {
        match self.held()? {
            Held::Seat(seat) => Some(seat),
            _ => None,
        }
    }

    /// The live engine that is behind the handle, if one is.
    pub(crate) fn engine(&mut self) -> Option<&mut OwnedLive>
        ensures* lends { sem 𝓛 (LendsAs live_row Live self.entry result) }
        ensures engine { MatchOption result (IsLive self.old.held → ⊥) (λ r. self.old.held ≡ Some (Live r.now)) }
    {
        match self.held()? {
            Held::Live(live) => Some(live),
            _ => None,
        }
    }

    /// Whether something is behind it.
    pub(crate) fn is_there(&mut self) -> bool
        ensures same { self.new.held ≡ self.old.held }
        ensures there { MatchBool result (IsThere self.new.held) (self.new.held ≡ None) }
    {
        match self.held() {
            Some(_) => true,
            None => false,
        }
    }

    /// The key of the driver that the seat behind the handle was taken off, if a seat is there.
    #[tactic(auto, using(crate::proofs::Keys::seat_there))]
    pub(crate) fn key_of_seat(&mut self) -> Option<u64>
        ensures same { self.new.held ≡ self.old.held }
        ensures key { MatchOption result (IsSeat self.new.held → ⊥)
            (λ k. IsThere self.new.held × Of seat_of self.new.held (λ x. seat_key x ≡ k)) }
    {
        match self.seat() {
            Some(seat) => Some(seat.keyed.key),
            None => None,
        }
    }
}
