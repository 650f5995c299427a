//! A parcel comes to its place.

ghost use Rattle.std.specs.Prelude.{◌≡◌, ◌<◌, ◌+◌, ◌^◌, length};
ghost use Rattle.bd_layout.specs.{Plans.{LiesWithin, AllWithin}, Landed.{put_at, landed}};

use crate::{Fixup, Layout};
use bd_uapi::numbers::put_u64;

// What stands for no descriptor: -1, in 32 bits.
const NO_DESCRIPTOR: u64 = 0xffff_ffff;

/// Writes one fix-up into a parcel, as it comes from the engine: its receiver sees the first byte at `base`.
pub fn put_fixup(bytes: &mut [u8], fixup: Fixup, base: u64)
    requires within { LiesWithin (length bytes.old) fixup }
    requires room { base + length bytes.old < 2 ^ 64 }
    ensures { bytes.new ≡ put_at base fixup bytes.old }
{
    match fixup {
        Fixup::Pointer { at, to } => put_u64(bytes, at, base + to as u64),
        Fixup::Descriptor { at } => put_u64(bytes, at, NO_DESCRIPTOR),
        Fixup::Descriptors { at, count } => bytes[at..at + 4 * count].fill(255),
    }
}

// Writes one after the other.
fn put_all(bytes: &mut [u8], fixups: &[Fixup], base: u64)
    requires within { AllWithin (length bytes.old) fixups.now }
    requires room { base + length bytes.old < 2 ^ 64 }
    ensures { bytes.new ≡ landed base fixups.now bytes.old }
{
    for fixup in fixups {
        put_fixup(bytes, *fixup, base);
    }
}

impl Layout {
    /// Writes all fix-ups into the parcel, as it comes from the engine: its receiver sees the first byte at `base`.
    pub fn put_fixups(&self, bytes: &mut [u8], base: u64)
        requires same { length bytes.old ≡ length self.now.bytes }
        requires room { base + length bytes.old < 2 ^ 64 }
        ensures { bytes.new ≡ landed base self.now.fixups bytes.old }
    {
        put_all(bytes, &self.fixups, base);
    }
}
