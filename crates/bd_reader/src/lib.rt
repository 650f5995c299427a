//! What a thread's calls have left, and what of that it has read and was told.
#![tactic(auto)]

mod facts;
mod laws;
mod reader;
mod returns;

pub use facts::{Facts, Pending};
pub use laws::{completions_are_counted, what_cannot_wait_is_told, what_was_refused_is_told_first};
pub use reader::{Kind, NO_REFUSAL, Outcome, REFUSED_CALL, REFUSED_REPLY, Reader};
pub use returns::Told;
