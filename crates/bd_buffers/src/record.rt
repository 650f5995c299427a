//! What is kept of a live buffer beside its bytes.

use bd_space::Identity;
use bd_uapi::TransactionFlags;

/// A buffer without its bytes, of which it has how many there are.
#[derive(Clone, Copy)]
pub struct Record {
    /// The place of its transaction or reply.
    pub made: u64,
    /// The process whose window it lies in.
    pub receiver: u64,
    /// The process that sent it, live or not.
    pub sender: u64,
    /// Where it begins in the window.
    pub start: u32,
    /// How much of the window it takes.
    pub size: u32,
    /// How many bytes of data it has.
    pub data_size: u32,
    /// How many bytes of offsets.
    pub offsets_size: u32,
    /// Whether it is a one-way call's.
    pub one_way: bool,
    /// Whether it was handed out.
    pub handed: bool,
    /// The object that a transaction goes to.
    pub target: Option<Identity>,
    /// The code, as written.
    pub code: u32,
    /// The flags, as written.
    pub flags: TransactionFlags,
    /// The sender's effective user id.
    pub euid: u32,
}
