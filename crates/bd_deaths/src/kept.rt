//! A notification as it is kept, and what stands for it on its lists.

use bd_space::{DeathNotification, Identity};

/// A notification, and its places on its lists.
#[derive(Clone, Copy)]
pub struct Kept {
    pub death: DeathNotification,
    // Rises from each to the next that came.
    pub serial: u64,
    // Its slot among those on its object, and among those of its process.
    pub object: usize,
    pub process: usize,
}

/// A notification on an object, and where it is kept.
#[derive(Clone, Copy)]
pub struct Watch {
    pub object: Identity,
    pub at: usize,
}

/// A notification of a process, by the step that made it, and where it is kept.
#[derive(Clone, Copy)]
pub struct Mark {
    pub process: u64,
    pub made: u64,
    pub at: usize,
}
