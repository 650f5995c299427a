//! A seat that was taken off a driver.
ghost use Rattle.std.specs.{Prelude.{◌≡◌, []}, Arc.{arc_value}};

use crate::keyed::KeyedDriver;
use bd_driver::{Outcome, Seat};
use std::sync::Arc;

/// A seat, its driver, and what its latest call came to.
#[derive(Drop)]
pub struct OwnedSeat {
    pub(crate) keyed: Arc<KeyedDriver>,
    pub(crate) seat: Seat,
    pub(crate) latest: Option<Outcome>,
    // Room for copies of the bytes of a write, should it come back: mostly none does, so these ask for memory once.
    pub(crate) stream: Vec<u8>,
    pub(crate) area: Vec<u8>,
    pub(crate) ghost of_driver: { seat.table ≡ (arc_value keyed).driver.table },
    pub(crate) ghost no_stream: { stream.items ≡ [] },
    pub(crate) ghost no_area: { area.items ≡ [] },
}
