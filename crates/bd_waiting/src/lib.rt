//! How threads wait, which of them the bridge is told of, and what a read is answered when.
#![tactic(auto)]

mod cleared;
mod coming;
mod laws;
mod loopers;
mod requests;
mod waits;

pub use cleared::{Cleared, Clearing, clears};
pub use coming::{Doing, Heard, Outcome, taken};
pub use laws::{
    a_read_that_may_not_wait_is_answered, it_tells_what_is_wanted, no_more_come_than_may,
    one_tells_for_all, who_has_no_bell_need_not_be_asked, who_is_away_is_not_told_of,
    who_waits_is_told_of,
};
pub use loopers::{Front, Loopers, enters};
pub use requests::{Begin, Cancel, End, Ending, Why, begins, cancels};
pub use waits::{Calls, Place, Told, Waits, changes_herald};
