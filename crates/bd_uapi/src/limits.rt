//! How many there may be.

/// The most seats of a driver: as many as the page's word has ready bits for.
pub const MOST_SEATS: u32 = 31;
