//! Memory of bytes that are given up, which is kept for the next ones.

use bd_space::Bytes;
use std::alloc::Global;
use std::mem::replace;

// More isn't kept.
const KEPT: usize = 65536;

/// Gives up the memory of bytes that nobody needs, where it is much: none are left then.
#[inline(always)]
pub(crate) fn leave_much(alloc: Global, bytes: &mut Bytes) {
    let memory = replace(bytes, Bytes::new(Vec::new(alloc))).into_vec();
    if memory.capacity() <= KEPT {
        *bytes = Bytes::new(memory);
    }
}

/// A vector of so many bytes at most has no more memory than is kept: one that grows has twice as much as before, or what it needs.
pub(crate) const MUCH: usize = KEPT / 2;
