//! What a seat knows. No value of these types is ever made: contracts and proofs alone speak of views.
use crate::outcome::Outcome;
use bd_space::{Entry, Request};
use std::collections::LinkedList;

/// The steps of one kind that a seat has made.
pub struct Tally {
    /// How many such steps the seat has made.
    pub count: u64,
    /// The word that the latest of them found on the table.
    pub found: u64,
}

/// What a seat has handed over.
pub enum Handover {
    /// Nothing is handed over, and the mailbox's slot is with the table: only within `new` and `finish`.
    Shut,
    /// Nothing.
    Open,
    /// This request is handed over, since the history that the seat had seen was `seen` steps long.
    Waiting { request: Request, seen: u64 },
}

/// What a seat that serves has picked and not yet answered.
pub enum Picking {
    /// Nothing.
    Nothing,
    /// A request was picked, of another seat or its own. Until its entries are published it has none: both numbers are 0.
    Picked {
        /// The seat whose mailbox it was in.
        seat: u32,
        /// The request that was picked.
        request: Request,
        /// How long the history was that its seat had seen when it posted.
        since: u64,
        /// The first place of its entries.
        start: u64,
        /// How many entries it has.
        count: u64,
    },
}

/// One answer that a seat has put into a mailbox.
pub struct Letter {
    /// The seat whose mailbox it was put into.
    pub seat: u32,
    /// The request that was picked there.
    pub request: Request,
    /// What came of that request.
    pub outcome: Outcome,
    /// How many times the seat that answered had published by then.
    pub publishes: u64,
    /// How many steps the published history had then.
    pub stamp: u64,
}

/// All that a seat knows: what it has seen of the history, what it holds, and what its steps on the table have found.
pub struct View {
    /// How many seats the driver has.
    pub seats: u32,
    /// The seat's number.
    pub who: u32,
    /// The history that it has seen.
    pub seen: LinkedList<Entry>,
    /// The places of its own answered entries.
    pub own: LinkedList<u32>,
    /// Whether it has taken the engine and not yet put it home.
    pub taker: bool,
    /// What it has handed over.
    pub handover: Handover,
    /// What it has picked and not yet answered.
    pub pick: Picking,
    /// Its tries to take the engine, on the page.
    pub takes: Tally,
    /// Its steps that published.
    pub publishes: Tally,
    /// Its steps that put the engine home.
    pub puts: Tally,
    /// Its loads of the page.
    pub looks: Tally,
    /// Its steps that handed a request over, on its own mailbox.
    pub posts: Tally,
    /// Its tries to take back what it had handed over, on its own mailbox.
    pub withdraws: Tally,
    /// Its tries to fetch the answer to what it had handed over, on its own mailbox.
    pub collects: Tally,
    /// Its tries to pick a request as it served, one tally for each mailbox.
    pub picks: LinkedList<Tally>,
    /// Its steps that put an answer into a mailbox as it served.
    pub answered: Tally,
    /// Its loads that opened its own mailbox.
    pub opens: Tally,
    /// Its loads that shut its own mailbox.
    pub shuts: Tally,
    /// The answers that it has put into mailboxes, in order.
    pub answers: LinkedList<Letter>,
}
