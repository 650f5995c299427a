//! A buffer: its room, its place and its pointer.

ghost use Rattle.std.specs.Prelude.{◌≡◌, ◌+◌, ◌-◌, ◌/◌, ◌<◌, ◌^◌};
ghost use Rattle.bd_space.specs.Windows as room;
ghost use Rattle.bd_space.specs.Freeing as freeing;
ghost use Rattle.bd_buffers.specs.Buffer as spec;
ghost use Rattle.bd_buffers.specs.Record.{bare};

use crate::lent::Lent;
use crate::record::Record;

// The pointer by which a receiver knows the first byte of its window.
const FIRST_POINTER: u64 = 65536;

/// The room that data and offsets of these sizes in bytes need. Takes no memory.
pub fn needed(data_size: u64, offsets_size: u64) -> u32
    requires { room.needed data_size offsets_size < 2 ^ 32 }
    ensures { result ≡ room.needed data_size offsets_size }
{
    (data_size.next_multiple_of(8) + offsets_size.next_multiple_of(8)).max(8) as u32
}

/// The unit that a pointer leads to. Takes no memory.
pub(crate) fn unit_at(pointer: u64) -> usize
    ensures { result ≡ (pointer - 65536) / 8 }
{
    (pointer.saturating_sub(FIRST_POINTER) / 8) as usize
}

/// The pointer by which its receiver knows a buffer. Takes no memory.
pub fn pointer_of(b: &Lent<'_>) -> u64
    ensures { result ≡ freeing.pointer b.now }
{
    FIRST_POINTER + u64::from(b.start())
}

/// What a buffer adds to the one-way ones.
pub(crate) fn one_way_share(b: &Record) -> u32
    ensures { result ≡ spec.one_way_share (bare b.now) }
{
    if b.one_way { b.size } else { 0 }
}
