//! What a driver's handle is for: seats are taken, and come back, and then there is its history.
ghost use Rattle.std.specs.{Prelude.{◌≡◌, true, IfOk, IfErr}, Arc.{arc_value}};
ghost use Rattle.bd_c.specs.{Hosts.{Opens, IsRefusal, Hands, Keeps, is_seat_away, TakesBack, Ends}, Keys.{host_key}};

use crate::host::Host;
use crate::keyed::KeyedDriver;
use crate::seat::OwnedSeat;
use crate::status::Status;
use bd_driver::Driver;
use bd_spelling::Record;
use std::alloc::Global;
use std::sync::Arc;

impl Host {
    /// A driver with so many seats, all of them there, and with this key.
    #[tactic(auto, using(crate::proofs::Behind::refused_fits))]
    pub(crate) fn new(alloc: Global, count: u32, key: u64) -> Result<Host, Status>
        ensures ok { IfOk result (Opens count key) }
        ensures refused { IfErr result (IsRefusal count) }
    {
        match Driver::new(alloc, count) {
            Err(fault) => Err(Status::of_fault(fault)),
            Ok((driver, seats)) => match Arc::new(alloc, KeyedDriver { driver, key }) {
                Err(_) => Err(Status::NoMemory),
                Ok(keyed) => Ok(Host {
                    keyed,
                    seats,
                    count: count as usize,
                }),
            },
        }
    }

    /// Hands out the first seat that is there.
    pub(crate) fn take_seat(&mut self) -> Result<OwnedSeat, Status>
        ensures ok { IfOk result (Hands self.old self.new) }
        ensures refused { IfErr result (Keeps self.old self.new) }
    {
        if self.seats.is_empty() {
            return Err(Status::NoSeat);
        }
        let Ok(keyed) = Arc::try_clone(&self.keyed) else {
            return Err(Status::NoMemory);
        };
        let alloc = *self.seats.allocator();
        let seat = self.seats.remove(0);
        Ok(OwnedSeat {
            keyed,
            seat,
            latest: None,
            stream: Vec::new(alloc),
            area: Vec::new(alloc),
        })
    }

    /// The driver's key.
    pub(crate) fn key(&self) -> u64
        ensures { result ≡ host_key self.now }
    {
        self.keyed.key
    }

    /// Whether fewer seats are there than the driver has.
    pub(crate) fn is_seat_away(&self) -> bool
        ensures { result ≡ is_seat_away self.now }
    {
        self.seats.len() < self.count
    }

    /// A seat that was away comes back, for which there is room.
    pub(crate) fn return_seat(&mut self, seat: OwnedSeat)
        requires own { seat.seat.table ≡ (arc_value self.old.keyed).driver.table }
        requires away { is_seat_away self.old ≡ true }
        ensures { TakesBack self.old self.new seat }
    {
        let OwnedSeat {
            keyed: _,
            seat,
            latest: _,
            stream: _,
            area: _,
        } = seat;
        self.seats.push_reserved(seat);
    }

    /// The history, once all seats are there.
    pub(crate) fn finish(self) -> Result<Record, Host>
        ensures ok { IfOk result (Ends self) }
        ensures away { IfErr result (λ h. h ≡ self) }
    {
        let Host {
            keyed,
            seats,
            count,
        } = self;
        if seats.len() != count {
            return Err(Host {
                keyed,
                seats,
                count,
            });
        }
        match Arc::try_unwrap(keyed) {
            Ok(keyed) => Ok(keyed.driver.finish(seats)),
            Err(keyed) => Err(Host {
                keyed,
                seats,
                count,
            }),
        }
    }
}
