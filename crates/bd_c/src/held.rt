//! What is behind a handle.
use crate::host::Host;
use crate::live::OwnedLive;
use crate::seat::OwnedSeat;
use bd_ring::Rings;
use bd_sendings::Sendings;
use bd_spelling::Record;
use bd_tickets::Shelves;

/// What is behind a handle: a handle begins with nothing, and goes from one of these to another by the calls made with it.
#[derive(Drop)]
pub enum Held {
    /// A driver that hasn't ended, with those of its seats that are there.
    Driver(Host),
    /// A seat that was taken off a driver.
    Seat(OwnedSeat),
    /// The history of a driver that has ended.
    History(Record),
    /// A live engine, with its latest entry.
    Live(OwnedLive),
    /// The descriptors of parcels that are on their way.
    Tickets(Shelves),
    /// Those that want turns.
    Rings(Rings),
    /// What the threads of a process have sent.
    Sendings(Sendings),
    /// Nothing yet, or no longer.
    Nothing,
}
