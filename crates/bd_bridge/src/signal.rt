//! What somebody who waits is told.

/// What somebody who waits is told.
#[derive(Drop)]
pub enum Signal<R> {
    /// The seat has read this. If it is woken, its read is to be answered with this, and with whatever it has read since
    /// it was woken last; else it waits on.
    Read { seat: u32, read: R, wakes: bool },
    /// The seat's doorbell is to ring from now on, or to be silent.
    Bell { seat: u32, rings: bool },
}
