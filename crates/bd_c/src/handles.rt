//! What C has of a driver or of a seat: a pointer, or null where there is none.
ghost use Rattle.std.specs.Prelude.{Option};
ghost use Rattle.bd_c.specs.{declared.held.Held.{Held}, Owned.{coded_held}};

use std::marker::Model;

/// A handle as C has it: one pointer, which is null where nothing is behind the handle.
#[repr(C)]
#[derive(Drop)]
pub struct Handle {
    pub(crate) at: *mut u8,
    pub(crate) ghost held: { Option Held } by { coded_held },
}

impl Model for Handle {
    ghost use Rattle.bd_c.specs.Owned.{owned};

    ghost also_owns = { λ h. owned h.held h.at };
}
