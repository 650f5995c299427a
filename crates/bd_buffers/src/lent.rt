//! A buffer whose bytes are lent from where they stand.

ghost use Rattle.std.specs.Prelude.{◌≡◌, ◌+◌, ◌≤◌, ◌⊎◌, length};
ghost use Rattle.bd_space.specs.Words.{round_up};
ghost use Rattle.bd_buffers.specs.Record as spec;
ghost use Rattle.bd_buffers.specs.declared.record.Record.{Record};

use crate::record::Record;
use bd_ground::Memory;
use bd_space::Identity;
use bd_uapi::TransactionFlags;
use std::marker::Model;

/// A buffer, its bytes lent: those of a live one from its place in the window, those of a new one from whoever laid them out.
/// Contracts see the buffer itself.
#[derive(Drop)]
pub struct Lent<'a> {
    noted: &'a Record,
    bytes: &'a [u8],
    offsets: &'a [u8],
}

impl<'a> Model for Lent<'a> {
    ghost use Rattle.std.specs.Prelude.{length};
    ghost use Rattle.bd_space.specs.declared.space.Buffer.{Buffer};
    ghost use Rattle.bd_buffers.specs.Record.{with_bytes, IsSized};

    ghost Value = { Buffer };

    ghost view = { λ l. with_bytes l.noted.now l.bytes.now l.offsets.now };

    ghost invariant = { λ l. IsSized l.noted.now l.bytes.now l.offsets.now };
}

impl<'a> Lent<'a> {
    /// A buffer of this record with these bytes.
    pub fn new(noted: &'a Record, bytes: &'a [u8], offsets: &'a [u8]) -> Lent<'a>
        requires { spec.IsSized noted.now bytes.now offsets.now }
        ensures { result ≡ spec.with_bytes noted.now bytes.now offsets.now }
    {
        Lent {
            noted,
            bytes,
            offsets,
        }
    }

    /// The place of its transaction or reply.
    pub fn made(&self) -> u64
        ensures { result ≡ self.now.made }
    {
        self.noted.made
    }

    /// The process whose window it lies in.
    pub fn receiver(&self) -> u64
        ensures { result ≡ self.now.receiver }
    {
        self.noted.receiver
    }

    /// The process that sent it, live or not.
    pub fn sender(&self) -> u64
        ensures { result ≡ self.now.sender }
    {
        self.noted.sender
    }

    /// Where it begins in the window.
    pub fn start(&self) -> u32
        ensures { result ≡ self.now.start }
    {
        self.noted.start
    }

    /// How much of the window it takes.
    pub fn size(&self) -> u32
        ensures { result ≡ self.now.size }
    {
        self.noted.size
    }

    /// Whether it is a one-way call's.
    pub fn is_one_way(&self) -> bool
        ensures { result ≡ self.now.one_way }
    {
        self.noted.one_way
    }

    /// Whether it was handed out.
    pub fn is_handed(&self) -> bool
        ensures { result ≡ self.now.handed }
    {
        self.noted.handed
    }

    /// The object that a transaction goes to.
    pub fn target(&self) -> Option<Identity>
        ensures { result ≡ self.now.target }
    {
        self.noted.target
    }

    /// The code, as written.
    pub fn code(&self) -> u32
        ensures { result ≡ self.now.code }
    {
        self.noted.code
    }

    /// The flags, as written.
    pub fn flags(&self) -> TransactionFlags
        ensures { result ≡ self.now.flags }
    {
        self.noted.flags
    }

    /// The sender's effective user id.
    pub fn euid(&self) -> u32
        ensures { result ≡ self.now.euid }
    {
        self.noted.euid
    }

    /// The data, as the receiver is to see it.
    pub fn bytes(&self) -> &'a [u8]
        ensures { result.now ≡ self.now.bytes }
    {
        self.bytes
    }

    /// The offsets of the objects in it.
    pub fn offsets(&self) -> &'a [u8]
        ensures { result.now ≡ self.now.offsets }
    {
        self.offsets
    }

    // All but its bytes.
    pub(crate) fn record(&self) -> Record
        ensures record { self.now ≡ spec.with_bytes result self.now.bytes self.now.offsets }
        ensures made { result.made ≡ self.now.made }
        ensures start { result.start ≡ self.now.start }
        ensures size { result.size ≡ self.now.size }
        ensures sized { spec.IsSized result self.now.bytes self.now.offsets }
    {
        *self.noted
    }
}

// Where the offsets of a buffer stand.
fn offsets_at(noted: &Record) -> usize
    ensures { result ≡ noted.now.start + round_up noted.now.data_size }
{
    noted.start as usize + (noted.data_size as usize).next_multiple_of(8)
}

/// The buffer of a record, lent from memory.
pub(crate) fn lent_from<'a>(memory: &'a Memory, noted: &'a Record) -> Lent<'a>
    requires { spec.IsInMemory memory.now noted.now }
    ensures { result ≡ spec.standing memory.now noted.now }
{
    let at = noted.start as usize;
    let bytes = memory.slice(at, at + noted.data_size as usize);
    let at = offsets_at(noted);
    let offsets = memory.slice(at, at + noted.offsets_size as usize);
    Lent {
        noted,
        bytes,
        offsets,
    }
}

/// Lays a new buffer out in memory: the data where it begins, and the offsets behind them, at a multiple of 8. Answers its
/// record.
#[tactic(auto, using(crate::proofs::Standing::laid_is, crate::proofs::Standing::standing_kept))]
pub(crate) fn lay(memory: &mut Memory, buffer: &Lent<'_>) -> Record
    requires inside { buffer.now.start + buffer.now.size ≤ length memory.old }
    requires parts { round_up (length buffer.now.bytes) + round_up (length buffer.now.offsets) ≤ buffer.now.size }
    ensures len { length memory.new ≡ length memory.old }
    ensures standing { spec.standing memory.new result ≡ buffer.now }
    ensures made { result.made ≡ buffer.now.made }
    ensures start { result.start ≡ buffer.now.start }
    ensures size { result.size ≡ buffer.now.size }
    ensures inside { spec.IsInMemory memory.new result }
    ensures others { (r : Record) → spec.IsInMemory memory.old r
        → (r.start + r.size ≤ buffer.now.start) ⊎ (buffer.now.start + buffer.now.size ≤ r.start)
        → spec.standing memory.new r ≡ spec.standing memory.old r }
{
    let record = buffer.record();
    memory.write(record.start as usize, buffer.bytes());
    memory.write(offsets_at(&record), buffer.offsets());
    record
}
