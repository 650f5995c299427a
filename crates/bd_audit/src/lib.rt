//! Replay of a record, certificates, and the laws of every history.
#![tactic(auto)]

mod answers;
mod gifts;
mod given;
mod journals;
mod judge;
mod judging;
mod laws;
mod playing;
mod replies;
mod turns;

pub use gifts::gift_chain;
pub use given::{Given, given_at};
pub use journals::{Judgment, judge_cut, judge_journal};
pub use judge::Judge;
pub use judging::{AuditFault, Unwatched, Watch, replay, replay_watched};
pub use laws::{
    calls_end_latest_first, frames_lie_on_one_path, gone_unheld, names_have_gift_chains,
    notices_are_due, objects_are_kept, one_at_a_time, one_way_calls_are_due_in_turn,
    only_owners_hear, owners_hear_in_order, replies_answer_the_latest_open_call,
    replies_are_handed_out, replies_reach_their_callers, streams_spell_their_items,
    turns_are_taken, turns_tell_of_calls,
};
pub use playing::{advance, played_before};
pub use replies::{call_of_reply, played_to};
pub use turns::{Turn, oneway_turns};
