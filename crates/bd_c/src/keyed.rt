//! A driver with the key that tells it from others.
use bd_driver::Driver;

/// A driver, and a number that no other driver has.
#[derive(Drop)]
pub struct KeyedDriver {
    pub(crate) driver: Driver,
    pub(crate) key: u64,
}
