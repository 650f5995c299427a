//! The members of the object space, as plain data.

use crate::bytes::Bytes;
use crate::step::Identity;
use bd_uapi::{FlatObject, Return, TransactionFlags};

/// A live process. Its name is the place of its Open.
#[derive(Clone, Copy, Debug, PartialEq, Eq)]
pub struct Process {
    /// The place of its Open.
    pub made: u64,
    /// Its pid, 1 to 2147483647.
    pub pid: u32,
    /// Its effective user id.
    pub euid: u32,
    /// The size of its window in bytes.
    pub window: u32,
    /// Whether it asked for reports of its own one-way flooding: off at first.
    pub spam_detection: bool,
}

/// The live thread of a seat.
#[derive(Clone, Copy, Debug, PartialEq, Eq)]
pub struct Thread {
    /// The place of its Open or Attach.
    pub made: u64,
    /// The number of the seat that has it; where there is a driver, one of the driver's seats.
    pub seat: u32,
    /// The place of its process's Open.
    pub process: u64,
    /// Whether it has entered the loop.
    pub looping: bool,
}

/// An object (node), with what its owner was told.
#[derive(Clone, Copy, Debug, PartialEq, Eq)]
pub struct Object {
    /// Its identity.
    pub id: Identity,
    /// The process that owns it, live or not.
    pub owner: u64,
    /// By which its owner knows it.
    pub ptr: u64,
    /// What its owner gave with it.
    pub cookie: u64,
    /// Whether its owner was told that it is referred to.
    pub told_weak: bool,
    /// Whether its owner was told that it is referred to strongly.
    pub told_strong: bool,
}

/// The place of the step that made a reference or a work item, and which of that step's it is, from 0.
#[derive(Clone, Copy, Debug, PartialEq, Eq)]
pub struct Origin {
    /// The place of the step.
    pub place: u64,
    /// Which of that step's it is.
    pub index: u64,
}

/// Who refers to an object, and why.
#[derive(Clone, Copy, Debug, PartialEq, Eq)]
pub enum Holder {
    /// The process asked for it.
    Asked(u64),
    /// The buffer made there carries it, in the window of a process.
    Carried(u64, u64),
    /// The buffer made there was sent to it, in the window of a process.
    Target(u64, u64),
    /// The owner was told of it, and hasn't acknowledged that.
    Handshake,
    /// It is the context manager's.
    Manager,
}

/// A reference to an object.
#[derive(Clone, Copy, Debug, PartialEq, Eq)]
pub struct Reference {
    /// Its identity.
    pub id: Origin,
    /// What it keeps.
    pub object: Identity,
    /// Whether it is a strong one.
    pub strong: bool,
    /// Who refers to it.
    pub holder: Holder,
}

/// The number (handle) by which a process that isn't the owner knows an object.
#[derive(Clone, Copy, Debug, PartialEq, Eq)]
pub struct Name {
    /// Who knows the object by it: the place of that process's Open.
    pub process: u64,
    /// The handle, as commands and parcels of this process have it.
    pub number: u32,
    /// What is known by it.
    pub object: Identity,
}

/// Who serves an open call.
#[derive(Clone, Copy, Debug, PartialEq, Eq)]
pub enum Server {
    /// Nobody yet: the call is unread.
    Pending,
    /// The thread of this seat.
    Serving(u32),
    /// The one that would have, or had begun to, has ended.
    Gone,
}

/// A two-way call that is still open. Its name is the place of its transaction.
#[derive(Clone, Copy, Debug, PartialEq, Eq)]
pub struct Frame {
    /// The place of its transaction.
    pub made: u64,
    /// The seat of the calling thread, unless that has ended.
    pub caller: Option<u32>,
    /// Who serves it.
    pub server: Server,
    /// The frame that its caller was in.
    pub parent: Option<u64>,
}

/// A live buffer and what it hands over. Its name is the place of the transaction or reply that made it.
#[derive(Drop, Debug)]
pub struct Buffer {
    /// The place of its transaction or reply.
    pub made: u64,
    /// The process whose window it lies in.
    pub receiver: u64,
    /// The process that sent it, live or not.
    pub sender: u64,
    /// Where it begins in the window.
    pub start: u32,
    /// How much of the window it takes.
    pub size: u32,
    /// Whether it is a one-way call's.
    pub one_way: bool,
    /// Whether it was handed out.
    pub handed: bool,
    /// The object that a transaction goes to.
    pub target: Option<Identity>,
    /// The code, as written.
    pub code: u32,
    /// The flags, as written.
    pub flags: TransactionFlags,
    /// The sender's effective user id.
    pub euid: u32,
    /// The data, as the receiver is to see it.
    pub bytes: Bytes,
    /// The offsets of the objects in it.
    pub offsets: Bytes,
}

/// A one-way call whose buffer lives, named by the place of its transaction.
#[derive(Clone, Copy, Debug, PartialEq, Eq)]
pub struct Turn {
    /// The place of its transaction.
    pub made: u64,
    /// The process whose window its buffer lies in.
    pub receiver: u64,
    /// The object that it goes to.
    pub target: Identity,
    /// Whether it was handed out.
    pub handed: bool,
}

/// Whose list of work items it is.
#[derive(Clone, Copy, Debug, PartialEq, Eq)]
pub enum TodoList {
    /// The thread's of this seat.
    OfThread(u32),
    /// The process's.
    OfProcess(u64),
}

/// What is still to be read.
#[derive(Clone, Copy, Debug, PartialEq, Eq)]
pub enum WorkKind {
    /// The references to an own object have changed: `BR_INCREFS` and so on.
    Notice(Identity),
    /// The transaction or reply was accepted: `BR_TRANSACTION_COMPLETE`.
    Complete {
        /// Its sender asked for reports, and floods the receiver with one-way calls: `BR_ONEWAY_SPAM_SUSPECT` instead.
        spam: bool,
    },
    /// The transaction or reply was refused.
    Refusal(Return),
    /// A call, by its buffer: `BR_TRANSACTION`.
    Call(u64),
    /// A reply, by its buffer: `BR_REPLY`.
    Reply(u64),
    /// An accepted call failed: `BR_DEAD_REPLY` or `BR_FAILED_REPLY`.
    Verdict(Return),
    /// The owner of an object has ended, by the notification: `BR_DEAD_BINDER`.
    Death(u64),
    /// A death notification was cleared, by its cookie: `BR_CLEAR_DEATH_NOTIFICATION_DONE`.
    Cleared(u64),
}

/// A work item.
#[derive(Clone, Copy, Debug, PartialEq, Eq)]
pub struct Work {
    /// Its identity.
    pub id: Origin,
    /// Where it is read.
    pub list: TodoList,
    /// What it is.
    pub kind: WorkKind,
}

/// How far a death notification is.
#[derive(Clone, Copy, Debug, PartialEq, Eq)]
pub enum Phase {
    /// The owner lives.
    Armed,
    /// The owner has ended, and a work item says so.
    Queued,
    /// That was read.
    Told,
    /// And acknowledged.
    Done,
}

/// A death notification, named by the place of its request.
#[derive(Clone, Copy, Debug, PartialEq, Eq)]
pub struct DeathNotification {
    /// The place of its request.
    pub made: u64,
    /// The process that asked for it.
    pub process: u64,
    /// Whose owner's death is to be told.
    pub object: Identity,
    /// What the process gave with it.
    pub cookie: u64,
    /// How far it is.
    pub phase: Phase,
    /// Whether it was cleared while it was queued or told.
    pub cleared: bool,
}

/// Who makes a step: a live thread and its process.
#[derive(Clone, Copy, Debug, PartialEq, Eq)]
pub struct Actor {
    /// The live thread of the seat that makes the step.
    pub thread: Thread,
    /// The one that it is a thread of.
    pub process: Process,
}

/// Whom a transaction goes to: an object and the live process that owns it.
#[derive(Clone, Copy, Debug, PartialEq, Eq)]
pub struct Callee {
    /// What the target names: for handle 0 the context manager's object.
    pub object: Identity,
    /// Its owner.
    pub process: Process,
}

/// An object of a parcel on its way.
#[derive(Clone, Copy, Debug, PartialEq, Eq)]
pub struct Item {
    /// Its offset in the data.
    pub at: u64,
    /// What stands there.
    pub flat: FlatObject,
    /// Which of the space's objects this names, as its sender knows it.
    pub object: Identity,
}

/// Which object is sent, and that object itself where the sending makes it.
#[derive(Clone, Copy, Debug, PartialEq, Eq)]
pub struct Resolved {
    /// What the receiver will know, whether it was there before or is made.
    pub object: Identity,
    /// The object that is to be made, if it is.
    pub new: Option<Object>,
}
