//! What `bplay` does, apart from its words and files: it plays scripts against a driver, judges journals, and answers questions
//! about them.
#![tactic(auto)]

mod answers;
mod blocks;
mod certificates;
mod cuts;
mod entries;
mod faults;
mod fronts;
mod journals;
mod judging;
mod manner;
mod names;
mod pids;
mod playing;
mod printing;
mod questions;
mod returns;
mod said;
mod sink;
mod texts;
mod threads;
mod untold;
mod verdicts;
mod words;
mod worker;

pub use cuts::{Whole, check_cut, print_whole, whole_from};
pub use faults::{DONE, FAULT, MEMORY, ProgramFault, TURNS, after_writing, tell};
pub use journals::{
    check_journal, check_watched, judged_from, judged_watched, print_lawful, print_unlawful,
    write_journal,
};
pub use judging::{cut_verdict, verdict_watched};
pub use manner::{Manner, play_from};
pub use playing::{Played, laid, play, play_into, play_lines};
pub use printing::{Printer, print};
pub use questions::{Question, answer};
pub use said::Said;
pub use sink::Sink;
pub use threads::{Told, gather, play_at, play_threads, print_told};
pub use untold::Untold;
pub use verdicts::{Judged, Verdict, verdict_on};
pub use worker::act;
