//! Requests, steps and answers, and the definitions of the object space.
#![tactic(auto)]

mod bytes;
mod ids;
mod space;
mod step;

pub use bytes::{Bytes, Notes};
pub use ids::ObjectId;
pub use space::{
    Actor, Buffer, Callee, DeathNotification, Frame, Holder, Item, Name, Object, Origin, Phase,
    Process, Reference, Resolved, Server, Thread, TodoList, Turn, Work, WorkKind,
};
pub use step::{Answer, Entry, Identity, Parcel, Request, Step, StepAnswer, Stop};
