//! The payloads of commands and returns, read behind a code.

ghost use Rattle.std.specs.Prelude.{◌≡◌, ◌≤◌, ◌<◌, ◌+◌, length, Ok, OnOk, IfErr};
ghost use Rattle.bd_uapi.specs.declared.fault.Fault.TheVariants.{ShortCommand};
ghost use Rattle.bd_uapi.specs.Bytes.{word_at, long_at};
ghost use Rattle.bd_codec.specs.Reading.{record_at, sized, MakesSized};

use bd_uapi::numbers::{u32_at, u64_at};
use bd_uapi::{Fault, TransactionData, TransactionFlags};
use bitflags::Flags;

// Whether the bytes are enough for a spelling of this size.
fn enough(bytes: &[u8], size: usize) -> Result<(), Fault>
    ensures ok { OnOk result (size ≤ length bytes.now) }
    ensures err { IfErr result (λ f. (length bytes.now < size) × (f ≡ ShortCommand)) }
{
    if bytes.len() < size {
        return Err(Fault::ShortCommand);
    }
    Ok(())
}

// Reads the code, which every command and every return begins with.
pub fn code(bytes: &[u8]) -> Result<u32, Fault>
    ensures { result ≡ sized 4 bytes.now (word_at 0 bytes.now) }
{
    enough(bytes, 4)?;
    Ok(u32_at(bytes, 0))
}

#[tactic(auto, unfolding(crate::specs::Reading::record_at))]
fn record_of(bytes: &[u8], at: usize) -> TransactionData
    requires { at + 64 ≤ length bytes.now }
    ensures { result ≡ record_at at bytes.now }
{
    TransactionData {
        target: u64_at(bytes, at),
        cookie: u64_at(bytes, at + 8),
        code: u32_at(bytes, at + 16),
        flags: TransactionFlags::from_bits_retain(u32_at(bytes, at + 20)),
        sender_pid: u32_at(bytes, at + 24).cast_signed(),
        sender_euid: u32_at(bytes, at + 28),
        data_size: u64_at(bytes, at + 32),
        offsets_size: u64_at(bytes, at + 40),
        buffer: u64_at(bytes, at + 48),
        offsets: u64_at(bytes, at + 56),
    }
}

// Each of the following makes a value of a payload, and tells how many bytes the whole spelling takes.

pub fn bare<T>(value: T) -> Result<(T, usize), Fault>
    ensures { result ≡ Ok (value, 4) }
{
    Ok((value, 4))
}

pub fn record<T, F: FnOnce(TransactionData) -> T>(
    bytes: &[u8],
    make: F,
) -> Result<(T, usize), Fault>
    requires { F.IsAlwaysCallable make }
    ensures { MakesSized 68 bytes.now (F.post make (record_at 4 bytes.now)) result }
{
    enough(bytes, 68)?;
    Ok((make(record_of(bytes, 4)), 68))
}

pub fn handle<T, F: FnOnce(u32) -> T>(bytes: &[u8], make: F) -> Result<(T, usize), Fault>
    requires { F.IsAlwaysCallable make }
    ensures { MakesSized 8 bytes.now (F.post make (word_at 4 bytes.now)) result }
{
    enough(bytes, 8)?;
    Ok((make(u32_at(bytes, 4)), 8))
}

pub fn pointer<T, F: FnOnce(u64) -> T>(bytes: &[u8], make: F) -> Result<(T, usize), Fault>
    requires { F.IsAlwaysCallable make }
    ensures { MakesSized 12 bytes.now (F.post make (long_at 4 bytes.now)) result }
{
    enough(bytes, 12)?;
    Ok((make(u64_at(bytes, 4)), 12))
}

pub fn pointer_and_cookie<T, F: FnOnce(u64, u64) -> T>(
    bytes: &[u8],
    make: F,
) -> Result<(T, usize), Fault>
    requires { F.IsAlwaysCallable make }
    ensures { MakesSized 20 bytes.now (F.post make (long_at 4 bytes.now) (long_at 12 bytes.now)) result }
{
    enough(bytes, 20)?;
    Ok((make(u64_at(bytes, 4), u64_at(bytes, 12)), 20))
}

pub fn handle_and_cookie<T, F: FnOnce(u32, u64) -> T>(
    bytes: &[u8],
    make: F,
) -> Result<(T, usize), Fault>
    requires { F.IsAlwaysCallable make }
    ensures { MakesSized 16 bytes.now (F.post make (word_at 4 bytes.now) (long_at 8 bytes.now)) result }
{
    enough(bytes, 16)?;
    Ok((make(u32_at(bytes, 4), u64_at(bytes, 8)), 16))
}
