//! The flags of a transaction.

ghost use Rattle.std.specs.{Prelude.{⊤, ◌≡◌, [], ◌∷◌, codes, ◌↔◌, ◌%◌, IsTrue}};

use bitflags::{Flag, Flags};

/// The flags of a transaction: `enum transaction_flags`. All 32 bits are kept, those without a name too.
#[derive(Clone, Copy, Debug, PartialEq, Eq)]
pub struct TransactionFlags(u32);

impl TransactionFlags {
    /// `TF_ONE_WAY`: the call waits for no reply. The only flag that acts.
    pub const ONE_WAY: TransactionFlags = TransactionFlags(0x01);

    /// `TF_ROOT_OBJECT`, handed on.
    pub const ROOT_OBJECT: TransactionFlags = TransactionFlags(0x04);

    /// `TF_STATUS_CODE`, handed on.
    pub const STATUS_CODE: TransactionFlags = TransactionFlags(0x08);

    /// `TF_ACCEPT_FDS`, handed on.
    pub const ACCEPT_FDS: TransactionFlags = TransactionFlags(0x10);

    /// `TF_CLEAR_BUF`, handed on.
    pub const CLEAR_BUF: TransactionFlags = TransactionFlags(0x20);

    /// `TF_UPDATE_TXN`, handed on.
    pub const UPDATE_TXN: TransactionFlags = TransactionFlags(0x40);

    /// Whether the transaction is one-way: the lowest bit.
    pub fn is_one_way(self) -> bool
        ensures { IsTrue result ↔ (self.0 % 2 ≡ 1) }
    {
        self.contains(TransactionFlags::ONE_WAY)
    }
}

static FLAGS: [Flag<TransactionFlags>; 6] = [
    Flag {
        name: "ONE_WAY",
        value: TransactionFlags::ONE_WAY,
    },
    Flag {
        name: "ROOT_OBJECT",
        value: TransactionFlags::ROOT_OBJECT,
    },
    Flag {
        name: "STATUS_CODE",
        value: TransactionFlags::STATUS_CODE,
    },
    Flag {
        name: "ACCEPT_FDS",
        value: TransactionFlags::ACCEPT_FDS,
    },
    Flag {
        name: "CLEAR_BUF",
        value: TransactionFlags::CLEAR_BUF,
    },
    Flag {
        name: "UPDATE_TXN",
        value: TransactionFlags::UPDATE_TXN,
    },
];

impl Flags for TransactionFlags {
    type Bits = u32;

    ghost exact = { ⊤ };

    ghost table = { (codes "ONE_WAY", 1) ∷ (codes "ROOT_OBJECT", 4) ∷ (codes "STATUS_CODE", 8)
        ∷ (codes "ACCEPT_FDS", 16) ∷ (codes "CLEAR_BUF", 32) ∷ (codes "UPDATE_TXN", 64) ∷ [] };

    ghost set_of = { λ f. f.0 };

    fn flags<'a>() -> &'a [Flag<TransactionFlags>] {
        &FLAGS
    }

    fn bits(&self) -> u32 {
        self.0
    }

    fn from_bits_retain(bits: u32) -> TransactionFlags {
        TransactionFlags(bits)
    }
}
