//! Numbers in a slice, the lowest byte first.

ghost use Rattle.std.specs.Prelude.{◌≡◌, ◌≤◌, ◌+◌, ◌++◌, length, take, drop};
ghost use Rattle.bd_uapi.specs.Bytes.{word, long, word_at, long_at};

use byteorder::{ByteOrder, LittleEndian};

/// The number in the four bytes from a place on.
#[tactic(auto, unfolding(crate::specs::Bytes::word_at))]
pub fn u32_at(bytes: &[u8], at: usize) -> u32
    requires { at + 4 ≤ length bytes.now }
    ensures { result ≡ word_at at bytes.now }
{
    LittleEndian::read_u32(&bytes[at..])
}

/// The number in the eight bytes from a place on.
#[tactic(auto, unfolding(crate::specs::Bytes::long_at))]
pub fn u64_at(bytes: &[u8], at: usize) -> u64
    requires { at + 8 ≤ length bytes.now }
    ensures { result ≡ long_at at bytes.now }
{
    LittleEndian::read_u64(&bytes[at..])
}

/// Writes a number over the four bytes from a place on.
pub fn put_u32(out: &mut [u8], at: usize, n: u32)
    requires { at + 4 ≤ length out.old }
    ensures written { out.new ≡ take at out.old ++ word n ++ drop (at + 4) out.old }
    // As far as its end.
    ensures front { take (at + 4) out.new ≡ take at out.old ++ word n }
{
    LittleEndian::write_u32(&mut out[at..at + 4], n);
}

/// Writes a number over the eight bytes from a place on.
pub fn put_u64(out: &mut [u8], at: usize, n: u64)
    requires { at + 8 ≤ length out.old }
    ensures written { out.new ≡ take at out.old ++ long n ++ drop (at + 8) out.old }
    // As far as its end.
    ensures front { take (at + 8) out.new ≡ take at out.old ++ long n }
{
    LittleEndian::write_u64(&mut out[at..at + 8], n);
}
