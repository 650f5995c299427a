//! Whether a call was made.
ghost use Rattle.std.specs.Prelude.{◌≡◌};
ghost use Rattle.bd_c.specs.Status.{number_of, refusal_of};

use bd_uapi::Fault;

/// Whether a call was made, or why nothing was done.
#[derive(Clone, Copy)]
pub enum Status {
    /// The call was made.
    Done,
    /// Memory was refused.
    NoMemory,
    /// A request of the seat is handed over.
    Waiting,
    /// No request of the seat is handed over.
    NotWaiting,
    /// Another seat has the engine, so nothing could be served.
    Taken,
    /// No request is of the kind or has the switch that was given, or no request came back that could be made again.
    NoSuchRequest,
    /// The number of seats is out of its limits.
    SeatCount,
    /// The driver has no seat left that could be taken.
    NoSeat,
    /// The driver can't end, since seats of it are still taken.
    SeatsAway,
    /// The bytes are no journal, or no journal spells the history.
    NoJournal,
    /// The live engine has no seat of the number that was given.
    NoSuchSeat,
    /// The history is full, or a handle past the limit would be needed.
    HistoryFull,
    /// The bytes aren't one command.
    NoCommand,
    /// A handle hasn't what the call is for, or has something where it has to be empty.
    Misuse,
    /// The journal's entries aren't a history.
    Unlawful,
}

impl Status {
    /// Why neither a driver nor a live engine was made, in place of their fault.
    pub(crate) fn of_fault(fault: Fault) -> Status
        ensures { result ≡ refusal_of fault }
    {
        match fault {
            Fault::SeatCount => Status::SeatCount,
            _ => Status::NoMemory,
        }
    }

    /// The number that C has for it.
    pub(crate) fn number(self) -> u32
        ensures { result ≡ number_of self }
    {
        self as u32
    }
}
