//! What somebody is due who is looked at.

ghost use Rattle.std.specs.Prelude.{◌≡◌, IsTrue, true, false};
ghost use Rattle.bd_bridge.specs.declared.due.Due.TheVariants.{Nothing};

use crate::waiters::{Reading, Waiter};

/// What a seat is due that is looked at, and how it waits.
#[derive(Clone, Copy)]
pub(crate) enum Due {
    /// It doesn't wait, or is informed.
    Nothing,
    /// Its doorbell is to ring, or to be silent.
    Ringing { waiter: Waiter, rings: bool },
    /// It waits in this read, and has something to read.
    Reading { waiter: Waiter, reading: Reading },
}

impl Due {
    #[inline(always)]
    pub(crate) fn is_something(&self) -> bool
        ensures something { result ≡ true → self.now ≡ Nothing → ⊥ }
        ensures nothing { result ≡ false → self.now ≡ Nothing }
    {
        match self {
            Due::Nothing => false,
            _ => true,
        }
    }
}
