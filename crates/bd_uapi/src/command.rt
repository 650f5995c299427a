//! What a process writes and what it reads.

ghost use Rattle.bd_uapi.specs.declared.command.TransactionData.{TransactionData};
ghost use Rattle.bd_uapi.specs.Records.{IsRecord, FieldsStand, record_bytes};

use crate::TransactionFlags;

/// A transaction record, every field as it was read or is to be written: `struct binder_transaction_data`.
#[derive(Clone, Copy, Debug, PartialEq, Eq)]
pub struct TransactionData {
    /// The target: a handle in the low 32 bits, or the ptr of the receiver's object. All 8 bytes are kept.
    pub target: u64,
    /// The cookie of the receiver's object.
    pub cookie: u64,
    /// What is asked for; the driver hands it on.
    pub code: u32,
    /// The flags, all 32 bits.
    pub flags: TransactionFlags,
    /// The caller's pid, in what is read.
    pub sender_pid: i32,
    /// The sender's effective user id, in what is read.
    pub sender_euid: u32,
    /// The length of the data in bytes.
    pub data_size: u64,
    /// The length of the offsets in bytes, 8 for each object.
    pub offsets_size: u64,
    /// Where the data begins: in what is written an index into the area.
    pub buffer: u64,
    /// Where the offsets begin: in what is written an index into the area.
    pub offsets: u64,
}

/// What a process writes: `enum binder_driver_command_protocol`.
#[derive(Clone, Copy, Debug, PartialEq, Eq)]
pub enum Command {
    /// `BC_TRANSACTION`: calls an object.
    Transaction(TransactionData),
    /// `BC_REPLY`: answers the call that the thread serves.
    Reply(TransactionData),
    /// `BC_FREE_BUFFER`: gives a buffer back, by its pointer.
    FreeBuffer(u64),
    /// `BC_INCREFS`: asks for a weak reference through a handle.
    Increfs(u32),
    /// `BC_ACQUIRE`: asks for a strong reference through a handle.
    Acquire(u32),
    /// `BC_RELEASE`: drops a strong reference.
    Release(u32),
    /// `BC_DECREFS`: drops a weak reference.
    Decrefs(u32),
    /// `BC_INCREFS_DONE`: acknowledges a `BR_INCREFS`, by ptr and cookie.
    IncrefsDone(u64, u64),
    /// `BC_ACQUIRE_DONE`: acknowledges a `BR_ACQUIRE`, by ptr and cookie.
    AcquireDone(u64, u64),
    /// `BC_ENTER_LOOPER`: the thread enters the loop.
    EnterLooper,
    /// `BC_EXIT_LOOPER`: the thread leaves the loop.
    ExitLooper,
    /// `BC_REQUEST_DEATH_NOTIFICATION`: asks to be told of the owner's death, by handle and cookie.
    RequestDeathNotification(u32, u64),
    /// `BC_CLEAR_DEATH_NOTIFICATION`: takes that back, by handle and cookie.
    ClearDeathNotification(u32, u64),
    /// `BC_DEAD_BINDER_DONE`: acknowledges a `BR_DEAD_BINDER`, by cookie.
    DeadBinderDone(u64),
}

/// What a process reads: `enum binder_driver_return_protocol`.
#[derive(Clone, Copy, Debug, PartialEq, Eq)]
pub enum Return {
    /// `BR_TRANSACTION`: a call on an object of the reader's process.
    Transaction(TransactionData),
    /// `BR_REPLY`: the reply to the thread's call.
    Reply(TransactionData),
    /// `BR_DEAD_REPLY`: there is no one left to answer.
    DeadReply,
    /// `BR_TRANSACTION_COMPLETE`: the transaction or reply was accepted.
    TransactionComplete,
    /// `BR_INCREFS`: the object is referred to, by ptr and cookie.
    Increfs(u64, u64),
    /// `BR_ACQUIRE`: the object is referred to strongly, by ptr and cookie.
    Acquire(u64, u64),
    /// `BR_RELEASE`: no strong reference is left, by ptr and cookie.
    Release(u64, u64),
    /// `BR_DECREFS`: no reference is left, by ptr and cookie.
    Decrefs(u64, u64),
    /// `BR_NOOP`: stands at the head of each read.
    Noop,
    /// `BR_DEAD_BINDER`: the owner has ended, by the notification's cookie.
    DeadBinder(u64),
    /// `BR_CLEAR_DEATH_NOTIFICATION_DONE`: the notification is cleared, by its cookie.
    ClearDeathNotificationDone(u64),
    /// `BR_FAILED_REPLY`: the transaction or reply was refused, or the call failed.
    FailedReply,
    /// `BR_ONEWAY_SPAM_SUSPECT`: the transaction was accepted, and its sender floods the receiver with one-way calls.
    OnewaySpamSuspect,
}

/// Each field of a record stands at its offset, in its width.
pub fn fields_stand()
    ensures { (t : TransactionData) → IsRecord t → FieldsStand t (record_bytes t) }
{}
