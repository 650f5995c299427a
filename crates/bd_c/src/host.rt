//! A driver, with the seats that nobody has taken.
ghost use Rattle.std.specs.{Prelude.{◌≡◌, ◌≤◌, All, vec_len, vec_capacity}, Arc.{arc_value}};

use crate::keyed::KeyedDriver;
use bd_driver::Seat;
use std::sync::Arc;

/// A driver, how many seats it has, and those of them that nobody has taken.
#[derive(Drop)]
pub struct Host {
    pub(crate) keyed: Arc<KeyedDriver>,
    pub(crate) seats: Vec<Seat>,
    pub(crate) count: usize,
    pub(crate) ghost of_driver: { All (λ s. s.table ≡ (arc_value keyed).driver.table) seats.items },
    pub(crate) ghost within: { vec_len seats ≤ count },
    // Each seat that is away can come back without memory.
    pub(crate) ghost room: { count ≤ vec_capacity seats },
}
