//! Steps that several tests make.

ghost use Rattle.std.specs.Prelude.{◌≡◌, None};
ghost use Rattle.bd_uapi.specs.declared.command.Command.TheVariants.{EnterLooper};
ghost use Rattle.bd_space.specs.declared.step.Step.TheVariants as step;

use bd_space::Step;
use bd_uapi::{Command, TransactionData, TransactionFlags};

/// The fields of a transaction or reply with an empty parcel, to handle 0.
pub fn fields(code: u32) -> TransactionData
    ensures code { result.code ≡ code }
    ensures target { result.target ≡ 0 }
    ensures data { result.data_size ≡ 0 }
    ensures offsets { result.offsets_size ≡ 0 }
{
    TransactionData {
        target: 0,
        cookie: 0,
        code,
        flags: TransactionFlags::ACCEPT_FDS,
        sender_pid: 0,
        sender_euid: 0,
        data_size: 0,
        offsets_size: 0,
        buffer: 0,
        offsets: 0,
    }
}

/// A process with a window of 4096 bytes.
pub fn open(pid: u32, euid: u32) -> Step
    ensures { result ≡ step.Open pid euid 4096 }
{
    Step::Open {
        pid,
        euid,
        window: 4096,
    }
}

/// The thread enters the loop.
pub fn enter() -> Step
    ensures { result ≡ step.Command EnterLooper None }
{
    Step::Command {
        command: Command::EnterLooper,
        parcel: None,
    }
}
