//! The fields of a journal, each read from the front of the bytes that are left.

ghost use Rattle.std.specs.Prelude.{◌≡◌, IfErr};
ghost use Rattle.bd_spelling.specs.Reading.{Gives, byte_from, word_from, long_from, block_from};
ghost use Rattle.bd_spelling.specs.declared.fault.ReadError.TheVariants.{Malformed};

use crate::fault::ReadError;
use bd_space::Bytes;
use bd_uapi::numbers::{u32_at, u64_at};
use std::alloc::Global;

// The first byte, and the bytes behind it.
#[tactic(auto, unfolding(crate::specs::Reading::byte_from))]
pub fn byte_at(bytes: &[u8]) -> Result<(u8, &[u8]), ReadError>
    ensures { Gives (λ x. (x.0, x.1.now)) result (byte_from bytes.now) }
{
    match bytes {
        [] => Err(ReadError::Malformed),
        [byte, rest @ ..] => Ok((*byte, rest)),
    }
}

/// The number in the first four bytes, low byte first, and the bytes behind them.
#[tactic(auto, unfolding(crate::specs::Reading::word_from))]
pub fn word_at(bytes: &[u8]) -> Result<(u32, &[u8]), ReadError>
    ensures given { Gives (λ x. (x.0, x.1.now)) result (word_from bytes.now) }
    ensures error { IfErr result (λ e. e ≡ Malformed) }
{
    if bytes.len() < 4 {
        return Err(ReadError::Malformed);
    }
    Ok((u32_at(bytes, 0), &bytes[4..]))
}

/// The number in the first eight bytes, low byte first, and the bytes behind them.
#[tactic(auto, unfolding(crate::specs::Reading::long_from))]
pub fn long_at(bytes: &[u8]) -> Result<(u64, &[u8]), ReadError>
    ensures given { Gives (λ x. (x.0, x.1.now)) result (long_from bytes.now) }
    ensures error { IfErr result (λ e. e ≡ Malformed) }
{
    if bytes.len() < 8 {
        return Err(ReadError::Malformed);
    }
    Ok((u64_at(bytes, 0), &bytes[8..]))
}

// A block: as many bytes as the four before them say; and the bytes behind it.
#[tactic(auto, unfolding(crate::specs::Reading::block_from))]
pub fn block_at(bytes: &[u8]) -> Result<(&[u8], &[u8]), ReadError>
    ensures { Gives (λ x. (x.0.now, x.1.now)) result (block_from bytes.now) }
{
    let (len, rest) = word_at(bytes)?;
    let len = len as usize;
    if rest.len() < len {
        return Err(ReadError::Malformed);
    }
    Ok((&rest[..len], &rest[len..]))
}

// The bytes of a block, copied into memory of their own, and the bytes behind it.
pub fn bytes_at(alloc: Global, bytes: &[u8]) -> Result<(Bytes, &[u8]), ReadError>
    ensures { Gives (λ x. (x.0, x.1.now)) result (block_from bytes.now) }
{
    let (block, rest) = block_at(bytes)?;
    match Vec::from_slice(alloc, block) {
        Ok(bytes) => Ok((Bytes::new(bytes), rest)),
        Err(_) => Err(ReadError::Memory),
    }
}
