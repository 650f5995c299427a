//! What holds the tables of an object space from step to step, with its history or without one, and the run of a request.
#![tactic(auto)]

mod ended;
mod engine;
mod entering;
mod live;
mod looks;
mod memory;
mod narrow;
mod parcel;
mod reached;
mod readiness;
mod reading;
mod run;
mod tables;
mod wide;
mod write;

pub use bd_objects::CarriedObjects;
pub use bd_step::StepError;
pub use bd_todo::Works;
pub use engine::Engine;
pub use live::Live;
pub use looks::Looks;
pub use narrow::{BufferLook, ShortObjects};
pub use reached::these_name_all;
pub use run::{Ran, Span};
pub use wide::WideEngine;
