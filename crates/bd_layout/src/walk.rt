//! The way over the objects of a parcel.

ghost use Rattle.std.specs.Prelude.{◌≡◌, ◌≤◌, ◌<◌, ◌*◌, ◌^◌, length, IfOk};
ghost use Rattle.bd_layout.specs.Plans.{IsNext, object, begun, plan_of, AllWithin};

use crate::layout::append;
use crate::{Fixup, Layout};
use bd_uapi::codes::{FD, FDA, PTR};
use bd_uapi::numbers::{u32_at, u64_at};
use std::alloc::{AllocError, Global};
use std::collections::LinkedList;

impl Layout {
    // Before any object.
    fn begin(alloc: Global, body: &[u8], offsets: &[u8]) -> Result<Layout, AllocError>
        ensures begun { IfOk result (λ l. l ≡ begun body.now offsets.now) }
        ensures room { IfOk result (λ l. length body.now ≤ length l.bytes) }
    {
        let mut bytes = Vec::new(alloc);
        append(&mut bytes, body)?;
        append(&mut bytes, offsets)?;
        Ok(Layout {
            bytes,
            reach: 0,
            used: 0,
            taken: 0,
            writable: LinkedList::new(alloc),
            fixups: Vec::new(alloc),
            known: Vec::new(alloc),
        })
    }

    // The next object, at an offset. False where the driver would refuse it.
    fn object(
        &mut self,
        body: &[u8],
        room: &[u8],
        count: usize,
        index: usize,
        offset: u64,
    ) -> Result<bool, AllocError>
        requires begun { length body.now ≤ length self.old.bytes }
        requires room { length room.now < 2 ^ 32 }
        requires few { count < 2 ^ 32 }
        ensures next { IfOk result (λ ok. IsNext ok self.new (object body.now room.now count index offset self.old)) }
        ensures longer { length self.old.bytes ≤ length self.new.bytes }
    {
        let at = offset as usize;
        if at % 4 != 0 || at < self.reach || body.len() < 24 || body.len() - 24 < at {
            return Ok(false);
        }
        let left = body.len() - at;
        match u32_at(body, at) {
            PTR => {
                if left < 40 {
                    return Ok(false);
                }
                self.reach = at + 40;
                self.pointer(body, room, index, at)
            }
            FDA => {
                if left < 32 {
                    return Ok(false);
                }
                self.reach = at + 32;
                let more = u64_at(body, at + 8) as usize;
                let parent = u64_at(body, at + 16) as usize;
                let offset = u64_at(body, at + 24) as usize;
                self.array(more, parent, offset, count)
            }
            FD => {
                self.reach = at + 24;
                self.descriptor(count, at)
            }
            _ => {
                self.reach = at + 24;
                self.known.push(offset)?;
                Ok(true)
            }
        }
    }

    /// What its receiver sees of the parcel, but for the fix-ups: data, offsets, buffers.
    pub fn bytes(&self) -> &[u8]
        ensures { result.now ≡ self.now.bytes }
    {
        &self.bytes
    }

    /// What the receiver's side writes into it.
    pub fn fixups(&self) -> &[Fixup]
        ensures all { result.now ≡ self.now.fixups }
        // Each lies within the parcel, and so does what a pointer leads to.
        ensures within { AllWithin (length self.now.bytes) self.now.fixups }
    {
        &self.fixups
    }

    /// Where the objects lie that the engine knows.
    pub fn known(&self) -> &[u64]
        ensures { result.now ≡ self.now.known }
    {
        &self.known
    }

    /// How many of the descriptors that came it takes: the first ones.
    pub fn taken(&self) -> usize
        ensures { result ≡ self.now.taken }
    {
        self.taken
    }
}

/// Lays out a parcel of a client's: data, offsets as bytes, and the room that its buffers are in. `count` descriptors were
/// sent along. `None` for what Linux's driver refuses because of a PTR, FD or FDA object.
pub fn lay_out(
    alloc: Global,
    body: &[u8],
    offsets: &[u8],
    room: &[u8],
    count: usize,
) -> Result<Option<Layout>, AllocError>
    requires room { length room.now < 2 ^ 32 }
    requires few { count < 2 ^ 32 }
    ensures { IfOk result (λ l. l ≡ plan_of body.now offsets.now room.now count) }
{
    if offsets.len() % 8 != 0 || room.len() % 8 != 0 {
        return Ok(None);
    }
    let mut layout = Layout::begin(alloc, body, offsets)?;
    for index in 0..offsets.len() / 8 {
        let offset = u64_at(offsets, 8 * index);
        let is_taken = layout.object(body, room, count, index, offset)?;
        if !is_taken {
            return Ok(None);
        }
    }
    Ok(Some(layout))
}
