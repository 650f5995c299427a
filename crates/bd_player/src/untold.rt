//! Why something that is asked of a history isn't told.

ghost use Rattle.std.specs.Prelude.{◌≡◌};
ghost use Rattle.bd_player.specs.declared.untold.Untold.TheVariants.{Memory as Untold-Memory, Output as Untold-Output};

use bd_uapi::Fault;
use std::alloc::AllocError;
use std::io;
use thiserror::Error;

/// Why something that is asked of a history isn't told, or not to its end.
#[derive(Clone, Copy, Debug, PartialEq, Eq, Error)]
pub enum Untold {
    /// The history has no such place.
    #[error("the history has no such place")]
    OutOfRange,
    /// Memory was refused.
    #[error("out of memory")]
    Memory,
    /// Something couldn't be written.
    #[error("the output can't be written")]
    Output,
}

impl From<AllocError> for Untold {
    ghost from_gives = { λ _ e. e ≡ Untold-Memory };

    fn from(_e: AllocError) -> Untold {
        Untold::Memory
    }
}

// The only fault of a history that is made again is want of memory.
impl From<Fault> for Untold {
    ghost from_gives = { λ _ e. e ≡ Untold-Memory };

    fn from(_e: Fault) -> Untold {
        Untold::Memory
    }
}

impl From<io::Error> for Untold {
    ghost from_gives = { λ _ e. e ≡ Untold-Output };

    fn from(_e: io::Error) -> Untold {
        Untold::Output
    }
}
