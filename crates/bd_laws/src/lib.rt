//! What holds of the space after every history, between two steps.
#![tactic(auto)]

mod laws;

pub use laws::{
    following_is_local, frames_are_stacks, items_are_told_apart, no_step_is_needed,
    nothing_is_pending, spaces_are_tidy, whom_a_step_reaches,
};
