//! Commands and returns, as C has them: a code, and the fields of what has this code. A field that it has no use for is 0
//! where C is told of it, and isn't looked at where C gives it.
use bd_uapi::codes::*;
use bd_uapi::{Command, Return, TransactionData, TransactionFlags};
use bitflags::Flags;

/// A transaction record: `struct binder_transaction_data`.
#[repr(C)]
#[derive(Clone, Copy)]
pub struct TransactionInC {
    /// A handle in the low 32 bits, or the ptr of the receiver's object.
    pub target: u64,
    /// The cookie of the receiver's object.
    pub cookie: u64,
    /// The number of the method that is called; a reply has one too.
    pub code: u32,
    /// The flags, all 32 bits.
    pub flags: u32,
    /// The caller's pid, in what is read.
    pub sender_pid: i32,
    /// The sender's effective user id, in what is read.
    pub sender_euid: u32,
    /// How many bytes of data the parcel has.
    pub data_size: u64,
    /// How many bytes of offsets the parcel has, eight for each object.
    pub offsets_size: u64,
    /// Where the data begins: in the sender's area, or the pointer to the buffer in the receiver's window.
    pub buffer: u64,
    /// Where the offsets begin, told as that of the data.
    pub offsets: u64,
}

/// A command: its code, and the fields of a command of this code.
#[repr(C)]
#[derive(Clone, Copy)]
pub struct CommandInC {
    /// The command's code, as the header spells it (`BC_TRANSACTION`, and so on), which says what the other fields are of.
    pub code: u32,
    /// The handle of the name that the command is about.
    pub handle: u32,
    /// Of BC_FREE_BUFFER the buffer's pointer, of what an owner acknowledges its object's ptr.
    pub pointer: u64,
    /// The cookie of the object or of the death notification that the command is about.
    pub cookie: u64,
    /// The record of a transaction or reply.
    pub transaction: TransactionInC,
    /// How many bytes it takes. Not looked at where it is given.
    pub size: usize,
}

/// A return: its code, and the fields of a return of this code.
#[repr(C)]
#[derive(Clone, Copy)]
pub struct ReturnInC {
    /// The return's code, as the header spells it (`BR_TRANSACTION`, and so on), which says what the other fields are of.
    pub code: u32,
    /// The ptr of the reader's own object that the return is about.
    pub pointer: u64,
    /// The cookie of the object or of the death notification that the return is about.
    pub cookie: u64,
    /// The record of a transaction or reply.
    pub transaction: TransactionInC,
    /// How many bytes it takes. Not looked at where it is given.
    pub size: usize,
}

impl TransactionInC {
    ghost use Rattle.std.specs.Prelude.{◌≡◌};
    ghost use Rattle.bd_c.specs.Spelled.{no_transaction, transaction_told, transaction_given};

    // A record of which every field is 0, for what has none.
    fn none() -> TransactionInC
        ensures { result ≡ no_transaction }
    {
        TransactionInC {
            target: 0,
            cookie: 0,
            code: 0,
            flags: 0,
            sender_pid: 0,
            sender_euid: 0,
            data_size: 0,
            offsets_size: 0,
            buffer: 0,
            offsets: 0,
        }
    }

    fn of(t: &TransactionData) -> TransactionInC
        ensures { result ≡ transaction_told t.now }
    {
        TransactionInC {
            target: t.target,
            cookie: t.cookie,
            code: t.code,
            flags: t.flags.bits(),
            sender_pid: t.sender_pid,
            sender_euid: t.sender_euid,
            data_size: t.data_size,
            offsets_size: t.offsets_size,
            buffer: t.buffer,
            offsets: t.offsets,
        }
    }

    fn given(&self) -> TransactionData
        ensures { result ≡ transaction_given self.now }
    {
        TransactionData {
            target: self.target,
            cookie: self.cookie,
            code: self.code,
            flags: TransactionFlags::from_bits_retain(self.flags),
            sender_pid: self.sender_pid,
            sender_euid: self.sender_euid,
            data_size: self.data_size,
            offsets_size: self.offsets_size,
            buffer: self.buffer,
            offsets: self.offsets,
        }
    }
}

impl CommandInC {
    ghost use Rattle.std.specs.Prelude.{◌≡◌};
    ghost use Rattle.bd_c.specs.Spelled.{bare_command, transaction_told, command_told, command_given};

    // A code that takes so many bytes with all that belongs to it, and nothing else yet.
    fn bare(code: u32, size: usize) -> CommandInC
        ensures { result ≡ bare_command code size }
    {
        CommandInC {
            code,
            handle: 0,
            pointer: 0,
            cookie: 0,
            transaction: TransactionInC::none(),
            size,
        }
    }

    fn with_handle(self, handle: u32) -> CommandInC
        ensures { result ≡ record self { handle = handle } }
    {
        CommandInC { handle, ..self }
    }

    fn with_pointer(self, pointer: u64) -> CommandInC
        ensures { result ≡ record self { pointer = pointer } }
    {
        CommandInC { pointer, ..self }
    }

    fn with_cookie(self, cookie: u64) -> CommandInC
        ensures { result ≡ record self { cookie = cookie } }
    {
        CommandInC { cookie, ..self }
    }

    fn with_transaction(self, t: &TransactionData) -> CommandInC
        ensures { result ≡ record self { transaction = transaction_told t.now } }
    {
        CommandInC {
            transaction: TransactionInC::of(t),
            ..self
        }
    }

    /// What C is told of a command that takes so many bytes.
    pub(crate) fn of(command: &Command, size: usize) -> CommandInC
        ensures { result ≡ command_told command.now size }
    {
        match command {
            Command::Transaction(t) => CommandInC::bare(BC_TRANSACTION, size).with_transaction(t),
            Command::Reply(t) => CommandInC::bare(BC_REPLY, size).with_transaction(t),
            Command::FreeBuffer(at) => CommandInC::bare(BC_FREE_BUFFER, size).with_pointer(*at),
            Command::Increfs(handle) => CommandInC::bare(BC_INCREFS, size).with_handle(*handle),
            Command::Acquire(handle) => CommandInC::bare(BC_ACQUIRE, size).with_handle(*handle),
            Command::Release(handle) => CommandInC::bare(BC_RELEASE, size).with_handle(*handle),
            Command::Decrefs(handle) => CommandInC::bare(BC_DECREFS, size).with_handle(*handle),
            Command::IncrefsDone(ptr, cookie) => CommandInC::bare(BC_INCREFS_DONE, size)
                .with_pointer(*ptr)
                .with_cookie(*cookie),
            Command::AcquireDone(ptr, cookie) => CommandInC::bare(BC_ACQUIRE_DONE, size)
                .with_pointer(*ptr)
                .with_cookie(*cookie),
            Command::EnterLooper => CommandInC::bare(BC_ENTER_LOOPER, size),
            Command::ExitLooper => CommandInC::bare(BC_EXIT_LOOPER, size),
            Command::RequestDeathNotification(handle, cookie) => {
                CommandInC::bare(BC_REQUEST_DEATH_NOTIFICATION, size)
                    .with_handle(*handle)
                    .with_cookie(*cookie)
            }
            Command::ClearDeathNotification(handle, cookie) => {
                CommandInC::bare(BC_CLEAR_DEATH_NOTIFICATION, size)
                    .with_handle(*handle)
                    .with_cookie(*cookie)
            }
            Command::DeadBinderDone(cookie) => {
                CommandInC::bare(BC_DEAD_BINDER_DONE, size).with_cookie(*cookie)
            }
        }
    }

    /// The command that C gives so, if a command has this code.
    pub(crate) fn given(&self) -> Option<Command>
        ensures { result ≡ command_given self.now }
    {
        match self.code {
            BC_TRANSACTION => Some(Command::Transaction(self.transaction.given())),
            BC_REPLY => Some(Command::Reply(self.transaction.given())),
            BC_FREE_BUFFER => Some(Command::FreeBuffer(self.pointer)),
            BC_INCREFS => Some(Command::Increfs(self.handle)),
            BC_ACQUIRE => Some(Command::Acquire(self.handle)),
            BC_RELEASE => Some(Command::Release(self.handle)),
            BC_DECREFS => Some(Command::Decrefs(self.handle)),
            BC_INCREFS_DONE => Some(Command::IncrefsDone(self.pointer, self.cookie)),
            BC_ACQUIRE_DONE => Some(Command::AcquireDone(self.pointer, self.cookie)),
            BC_ENTER_LOOPER => Some(Command::EnterLooper),
            BC_EXIT_LOOPER => Some(Command::ExitLooper),
            BC_REQUEST_DEATH_NOTIFICATION => Some(Command::RequestDeathNotification(
                self.handle,
                self.cookie,
            )),
            BC_CLEAR_DEATH_NOTIFICATION => Some(Command::ClearDeathNotification(
                self.handle,
                self.cookie,
            )),
            BC_DEAD_BINDER_DONE => Some(Command::DeadBinderDone(self.cookie)),
            _ => None,
        }
    }
}

impl ReturnInC {
    ghost use Rattle.std.specs.Prelude.{◌≡◌};
    ghost use Rattle.bd_c.specs.Spelled.{bare_return, transaction_told, return_told, return_given};

    // A code that takes so many bytes with all that belongs to it, and nothing else yet.
    fn bare(code: u32, size: usize) -> ReturnInC
        ensures { result ≡ bare_return code size }
    {
        ReturnInC {
            code,
            pointer: 0,
            cookie: 0,
            transaction: TransactionInC::none(),
            size,
        }
    }

    fn with_cookie(self, cookie: u64) -> ReturnInC
        ensures { result ≡ record self { cookie = cookie } }
    {
        ReturnInC { cookie, ..self }
    }

    // The return, told to be about this object of the reader's.
    fn with_object(self, pointer: u64, cookie: u64) -> ReturnInC
        ensures { result ≡ record self { pointer = pointer; cookie = cookie } }
    {
        ReturnInC {
            pointer,
            cookie,
            ..self
        }
    }

    fn with_transaction(self, t: &TransactionData) -> ReturnInC
        ensures { result ≡ record self { transaction = transaction_told t.now } }
    {
        ReturnInC {
            transaction: TransactionInC::of(t),
            ..self
        }
    }

    /// What C is told of a return that takes so many bytes.
    pub(crate) fn of(told: &Return, size: usize) -> ReturnInC
        ensures { result ≡ return_told told.now size }
    {
        match told {
            Return::Transaction(t) => ReturnInC::bare(BR_TRANSACTION, size).with_transaction(t),
            Return::Reply(t) => ReturnInC::bare(BR_REPLY, size).with_transaction(t),
            Return::DeadReply => ReturnInC::bare(BR_DEAD_REPLY, size),
            Return::TransactionComplete => ReturnInC::bare(BR_TRANSACTION_COMPLETE, size),
            Return::Increfs(ptr, cookie) => {
                ReturnInC::bare(BR_INCREFS, size).with_object(*ptr, *cookie)
            }
            Return::Acquire(ptr, cookie) => {
                ReturnInC::bare(BR_ACQUIRE, size).with_object(*ptr, *cookie)
            }
            Return::Release(ptr, cookie) => {
                ReturnInC::bare(BR_RELEASE, size).with_object(*ptr, *cookie)
            }
            Return::Decrefs(ptr, cookie) => {
                ReturnInC::bare(BR_DECREFS, size).with_object(*ptr, *cookie)
            }
            Return::Noop => ReturnInC::bare(BR_NOOP, size),
            Return::DeadBinder(cookie) => {
                ReturnInC::bare(BR_DEAD_BINDER, size).with_cookie(*cookie)
            }
            Return::ClearDeathNotificationDone(cookie) => {
                ReturnInC::bare(BR_CLEAR_DEATH_NOTIFICATION_DONE, size).with_cookie(*cookie)
            }
            Return::FailedReply => ReturnInC::bare(BR_FAILED_REPLY, size),
            Return::OnewaySpamSuspect => ReturnInC::bare(BR_ONEWAY_SPAM_SUSPECT, size),
        }
    }

    /// The return that C gives so, if a return has this code.
    pub(crate) fn given(&self) -> Option<Return>
        ensures { result ≡ return_given self.now }
    {
        match self.code {
            BR_TRANSACTION => Some(Return::Transaction(self.transaction.given())),
            BR_REPLY => Some(Return::Reply(self.transaction.given())),
            BR_DEAD_REPLY => Some(Return::DeadReply),
            BR_TRANSACTION_COMPLETE => Some(Return::TransactionComplete),
            BR_INCREFS => Some(Return::Increfs(self.pointer, self.cookie)),
            BR_ACQUIRE => Some(Return::Acquire(self.pointer, self.cookie)),
            BR_RELEASE => Some(Return::Release(self.pointer, self.cookie)),
            BR_DECREFS => Some(Return::Decrefs(self.pointer, self.cookie)),
            BR_NOOP => Some(Return::Noop),
            BR_DEAD_BINDER => Some(Return::DeadBinder(self.cookie)),
            BR_CLEAR_DEATH_NOTIFICATION_DONE => {
                Some(Return::ClearDeathNotificationDone(self.cookie))
            }
            BR_FAILED_REPLY => Some(Return::FailedReply),
            BR_ONEWAY_SPAM_SUSPECT => Some(Return::OnewaySpamSuspect),
            _ => None,
        }
    }
}
