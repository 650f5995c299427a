//! What lies in the slots of the driver's table.
use crate::boxed::{BoxedEngine, BoxedOutcome, BoxedRequest};

/// What lies in a slot: slot 0 is the engine's, slot 1 + i the mailbox's of seat i.
#[derive(Drop)]
pub enum Slot {
    /// The engine, in slot 0 while no seat has it, and in a mailbox's slot for as long as a serve publishes.
    Home(BoxedEngine),
    /// In a mailbox's slot, a request that was handed over and that nobody has picked yet.
    Posted(BoxedRequest),
    /// In a mailbox's slot, what came of the request, until its seat collects it.
    Answered(BoxedOutcome),
    /// Nothing lies in the slot.
    Empty,
}
