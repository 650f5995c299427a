//! The words that seats share, and what stands in them. Each has a slot of the same number.

/// The word that is the page. In its slot is the engine, while no seat has it.
pub(crate) const PAGE: usize = 0;

/// The page's bit that is set while a seat has the engine.
pub(crate) const TAKEN: u64 = 1;

/// A mailbox in which there is nothing.
pub(crate) const EMPTY: u64 = 0;

/// A mailbox with a request, which anybody may pick and its seat may take back.
pub(crate) const POSTED: u64 = 1;

/// A mailbox whose request a seat that serves has picked, be it its own or another's.
pub(crate) const PICKED: u64 = 2;

/// A mailbox with what came of its request.
pub(crate) const ANSWERED: u64 = 3;
