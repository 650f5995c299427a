//! Why a journal can't be read or written.

ghost use Rattle.std.specs.Prelude.{◌≡◌};
ghost use Rattle.bd_spelling.specs.declared.fault.WriteError.TheVariants.{Refused as WriteError-Refused};

use thiserror::Error;

/// Why bytes give no record.
#[derive(Clone, Copy, Debug, PartialEq, Eq, Error)]
pub enum ReadError {
    /// No journal of any version is spelled so, or more stands behind one.
    #[error("the bytes are no journal")]
    Malformed,
    /// Memory was refused.
    #[error("out of memory")]
    Memory,
}

/// Why a record wasn't written.
#[derive(Clone, Copy, Debug, PartialEq, Eq, Error)]
pub enum WriteError {
    /// No journal spells it: a seat or a length is out of its range, or a parcel stands beside a command without one.
    #[error("no journal spells the record")]
    Unspellable,
    /// The writer took no more bytes.
    #[error("the journal can't be written")]
    Refused,
}

/// The writer took no more bytes.
#[derive(Clone, Copy, Debug)]
pub struct Refused;

impl From<Refused> for WriteError {
    ghost from_gives = { λ _ e. e ≡ WriteError-Refused };

    fn from(_e: Refused) -> WriteError {
        WriteError::Refused
    }
}
