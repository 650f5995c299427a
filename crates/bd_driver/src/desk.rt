//! What a player's worker needs of a driver.
use crate::driver::Driver;
use crate::outcome::{Outcome, Served};
use crate::page::Page;
use crate::seat::Seat;
use bd_space::Request;

/// The calls of a driver that a worker makes with its seat, with the driver's contracts.
pub trait Desk {
    ghost use Rattle.std.specs.Prelude.{◌≡◌, ℕ, true, false};
    ghost use Rattle.atomic_table.specs.Seated.{TableId};
    ghost use Rattle.bd_driver.specs.{Rest.{is_waiting}, Driver.{LooksOnce, Calls}};
    ghost use Rattle.bd_driver.specs.{Handing.{Posts, Withdraws, Collects}, Served.{Serves}};

    ghost table: { Self → TableId };

    ghost seats: { Self → ℕ };

    /// Runs a request, if the engine is free: see `Driver::call`.
    fn call(&self, seat: &mut Seat, request: Request) -> Outcome
        requires table { seat.old.table ≡ table self.now }
        requires free { is_waiting seat.old.view.handover ≡ false }
        ensures same { seat.new.table ≡ seat.old.table }
        ensures calls { Calls seat.old.view seat.new.view request result };

    /// The page as one load finds it: see `Driver::look`.
    fn look(&self, seat: &mut Seat) -> Page
        requires { seat.old.table ≡ table self.now }
        ensures same { seat.new.table ≡ seat.old.table }
        ensures looks { LooksOnce seat.old.view seat.new.view result };

    /// Hands a request over: see `Driver::post`.
    fn post(&self, seat: &mut Seat, request: Request)
        requires table { seat.old.table ≡ table self.now }
        requires free { is_waiting seat.old.view.handover ≡ false }
        ensures same { seat.new.table ≡ seat.old.table }
        ensures posts { Posts seat.old.view seat.new.view request };

    /// Runs what is handed over: see `Driver::serve`.
    fn serve(&self, seat: &mut Seat) -> Served
        requires { seat.old.table ≡ table self.now }
        ensures same { seat.new.table ≡ seat.old.table }
        ensures serves { Serves (seats self.now) seat.old.view seat.new.view result };

    /// The answer to what was handed over, if it is there: see `Driver::collect`.
    fn collect(&self, seat: &mut Seat) -> Outcome
        requires table { seat.old.table ≡ table self.now }
        requires waiting { is_waiting seat.old.view.handover ≡ true }
        ensures same { seat.new.table ≡ seat.old.table }
        ensures collects { Collects seat.old.view seat.new.view result };

    /// Takes back what was handed over, if nobody has picked it: see `Driver::withdraw`.
    fn withdraw(&self, seat: &mut Seat) -> Outcome
        requires table { seat.old.table ≡ table self.now }
        requires waiting { is_waiting seat.old.view.handover ≡ true }
        ensures same { seat.new.table ≡ seat.old.table }
        ensures withdraws { Withdraws seat.old.view seat.new.view result };
}

impl Desk for Driver {
    ghost table = { λ d. d.table };

    ghost seats = { λ d. d.seats };

    fn call(&self, seat: &mut Seat, request: Request) -> Outcome {
        Driver::call(self, seat, request)
    }

    fn look(&self, seat: &mut Seat) -> Page {
        Driver::look(self, seat)
    }

    fn post(&self, seat: &mut Seat, request: Request) {
        Driver::post(self, seat, request)
    }

    fn serve(&self, seat: &mut Seat) -> Served {
        Driver::serve(self, seat)
    }

    fn collect(&self, seat: &mut Seat) -> Outcome {
        Driver::collect(self, seat)
    }

    fn withdraw(&self, seat: &mut Seat) -> Outcome {
        Driver::withdraw(self, seat)
    }
}
