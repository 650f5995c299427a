//! Steps, commands and returns by name: those of the header, and of requests the word by which a script makes them.

use bd_space::Step;
use bd_uapi::{Command, Return};

// The name that the header gives the command, as `BC_REPLY`.
fn command_name(command: &Command) -> &'static str {
    match command {
        Command::Transaction(_) => "BC_TRANSACTION",
        Command::Reply(_) => "BC_REPLY",
        Command::FreeBuffer(_) => "BC_FREE_BUFFER",
        Command::Increfs(_) => "BC_INCREFS",
        Command::Acquire(_) => "BC_ACQUIRE",
        Command::Release(_) => "BC_RELEASE",
        Command::Decrefs(_) => "BC_DECREFS",
        Command::IncrefsDone(..) => "BC_INCREFS_DONE",
        Command::AcquireDone(..) => "BC_ACQUIRE_DONE",
        Command::EnterLooper => "BC_ENTER_LOOPER",
        Command::ExitLooper => "BC_EXIT_LOOPER",
        Command::RequestDeathNotification(..) => "BC_REQUEST_DEATH_NOTIFICATION",
        Command::ClearDeathNotification(..) => "BC_CLEAR_DEATH_NOTIFICATION",
        Command::DeadBinderDone(_) => "BC_DEAD_BINDER_DONE",
    }
}

/// The name that the header gives the return, as `BR_REPLY`.
pub(crate) fn return_name(told: &Return) -> &'static str {
    match told {
        Return::Transaction(_) => "BR_TRANSACTION",
        Return::Reply(_) => "BR_REPLY",
        Return::DeadReply => "BR_DEAD_REPLY",
        Return::TransactionComplete => "BR_TRANSACTION_COMPLETE",
        Return::Increfs(..) => "BR_INCREFS",
        Return::Acquire(..) => "BR_ACQUIRE",
        Return::Release(..) => "BR_RELEASE",
        Return::Decrefs(..) => "BR_DECREFS",
        Return::Noop => "BR_NOOP",
        Return::DeadBinder(_) => "BR_DEAD_BINDER",
        Return::ClearDeathNotificationDone(_) => "BR_CLEAR_DEATH_NOTIFICATION_DONE",
        Return::FailedReply => "BR_FAILED_REPLY",
        Return::OnewaySpamSuspect => "BR_ONEWAY_SPAM_SUSPECT",
    }
}

/// The name of a step: its command's, or the word by which a script asks for it.
pub(crate) fn step_name(step: &Step) -> &'static str {
    match step {
        Step::Open { .. } => "open",
        Step::Attach { .. } => "attach",
        Step::SetManager => "manager",
        Step::SetSpam { .. } => "spam",
        Step::Command { command, .. } => command_name(command),
        Step::Read { .. } => "read",
        Step::ExitThread => "exitthread",
        Step::ExitProcess => "exitprocess",
    }
}
