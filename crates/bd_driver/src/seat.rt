//! Seats of a driver.
ghost use Rattle.std.specs.Prelude.{◌≡◌};
ghost use Rattle.bd_driver.specs.Rest.{is_waiting};

use crate::boxed::Envelope;
use crate::slot::Slot;
use crate::view::View;
use std::collections::LinkedList;
use std::marker::Model;

/// What a thread steps with on a driver's table.
pub(crate) type TableSeat = atomic_table::Seat<Slot, LinkedList<View>>;

/// A seat of one driver. It stands for one thread at a time, and may go from one to another.
#[derive(Drop)]
pub struct Seat {
    pub(crate) table_seat: TableSeat,
    pub(crate) number: u32,
    // Its box, which is away while a request is handed over.
    pub(crate) envelope: Option<Envelope>,
}

impl Model for Seat {
    ghost use Rattle.std.specs.Prelude.{is_none};
    ghost use Rattle.bd_driver.specs.{States.{SeatState}, Views.{view_of}, Rest.{IsAtRest}};

    ghost Value = { SeatState };

    ghost view = { λ s. record { table = s.table_seat.table_id; view = view_of s.table_seat.me.0 } };

    ghost invariant = { λ s. IsAtRest s.table_seat.table_id.words s.table_seat.me s.number (is_none s.envelope) };
}

impl Seat {
    /// Whether a request is handed over. Takes no memory.
    pub fn is_waiting(&self) -> bool
        ensures { result ≡ is_waiting self.now.view.handover }
    {
        self.envelope.is_none()
    }
}
