//! The step of the object space, over the tables that it is kept in.
#![tactic(auto)]

mod answer;
mod buffer;
mod consequences;
mod death_notification;
mod delivery;
mod ended;
mod exit;
mod frame;
mod keep;
mod manager;
mod process;
mod read;
mod reference;
mod reply;
mod sending;
mod spam;
mod step;
mod step_error;
mod tables;
mod thread;
mod todo_list;
mod touched;
mod transaction;
mod work;

pub use answer::{Brief, Plain};
pub use keep::{Keeps, Nothing};
pub use step_error::StepError;
pub use tables::Tables;
