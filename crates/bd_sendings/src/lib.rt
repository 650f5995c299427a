//! Whom of a process it is told of the objects that its threads send, and in which order.
#![tactic(auto)]

mod known;
mod laws;
mod noted;
mod sendings;
mod sent;

pub use laws::{
    each_is_known_once, nobody_is_told_twice, what_is_unknown_stays, who_is_told_has_sent_it,
};
pub use sendings::Sendings;
pub use sent::{Sending, Sent};
