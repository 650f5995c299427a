//! What a command or a return is spelled by: a code, and then its payload.

ghost use Rattle.std.specs.Prelude.{◌≡◌, ◌≤◌, ◌+◌, ◌++◌, ℕ, List, length, take, vec_len, vec_capacity};
ghost use Rattle.bd_uapi.specs.{Bytes.{word, long}, Records.{record_bytes, IsRecord}};

use bd_uapi::TransactionData;
use bd_uapi::numbers::{put_u32, put_u64};
use bitflags::Flags;
use std::marker::Model;

// The longest spelling: a code and a record.
const LONGEST: usize = 68;

/// The bytes by which a command or a return is spelled, at most 68. They take no memory.
#[derive(Drop)]
pub struct Spelling {
    bytes: [u8; LONGEST],
    len: usize,
}

impl Model for Spelling {
    ghost Value = { List ℕ };

    ghost view = { λ s. take s.len s.bytes };

    ghost invariant = { λ s. s.len ≤ 68 };
}

impl Spelling {
    /// All bytes of the spelling: the code, and the payload behind it.
    pub fn as_slice(&self) -> &[u8]
        ensures { result.now ≡ self.now }
    {
        &self.bytes[..self.len]
    }

    // A code without a payload.
    pub(crate) fn of(code: u32) -> Spelling
        ensures { result ≡ word code }
    {
        let mut bytes = [0; LONGEST];
        put_u32(&mut bytes, 0, code);
        Spelling { bytes, len: 4 }
    }

    // A number behind the rest.
    pub(crate) fn word(self, n: u32) -> Spelling
        requires { length self + 4 ≤ 68 }
        ensures { result ≡ self ++ word n }
    {
        let Spelling { mut bytes, len } = self;
        put_u32(&mut bytes, len, n);
        Spelling {
            bytes,
            len: len + 4,
        }
    }

    pub(crate) fn long(self, n: u64) -> Spelling
        requires { length self + 8 ≤ 68 }
        ensures { result ≡ self ++ long n }
    {
        let Spelling { mut bytes, len } = self;
        put_u64(&mut bytes, len, n);
        Spelling {
            bytes,
            len: len + 8,
        }
    }

    // Spells a record behind the code. Nothing comes after it: the two fill 68 bytes.
    pub(crate) fn record(self, t: &TransactionData) -> Spelling
        requires { length self ≡ 4 }
        ensures spelled { result ≡ self ++ record_bytes t.now }
        ensures fits { IsRecord t.now }
    {
        self.long(t.target)
            .long(t.cookie)
            .word(t.code)
            .word(t.flags.bits())
            .word(t.sender_pid.cast_unsigned())
            .word(t.sender_euid)
            .long(t.data_size)
            .long(t.offsets_size)
            .long(t.buffer)
            .long(t.offsets)
    }

    // Appends the bytes to a `Vec` that has room for them.
    pub(crate) fn append_reserved(&self, out: &mut Vec<u8>)
        requires { vec_len out.old + length self.now ≤ vec_capacity out.old }
        ensures items { out.new.items ≡ out.old.items ++ self.now }
        ensures capacity { vec_capacity out.new ≡ vec_capacity out.old }
    {
        for byte in self.as_slice() {
            out.push_reserved(*byte);
        }
    }
}
