//! A parcel with PTR, FD and FDA objects, as C has it laid out.
ghost use Rattle.std.specs.Prelude.{◌≡◌, IfOk, MatchBool, map};
ghost use Rattle.bd_layout.specs.Plans.{LiesWithin};
ghost use Rattle.bd_c.specs.Layouts.{fixup_told, fixup_given as given, TellsLayout, PutsFixup};

use crate::parts::fill;
use crate::status::Status;
use bd_layout::{Fixup, Layout, put_fixup};
use std::alloc::{AllocError, Global};

/// What a receiver's side writes into a parcel.
#[repr(C)]
#[derive(Clone, Copy)]
pub struct FixupTold {
    /// 1 the address of another byte of the parcel, 2 the number of a descriptor in eight bytes, 3 numbers of four bytes each.
    pub kind: u32,
    /// Where it lies in the parcel.
    pub at: u64,
    /// Of an address, where that leads in the parcel; of numbers, how many they are.
    pub to: u64,
}

/// What came of a parcel, and how much there is of it.
#[repr(C)]
#[derive(Clone, Copy)]
pub struct LayoutTold {
    /// Linux's driver would refuse it.
    pub is_refused: bool,
    /// How many bytes go on.
    pub size: usize,
    /// How many objects the engine knows.
    pub known: usize,
    /// How many fix-ups there are.
    pub fixups: usize,
    /// How many descriptors it takes.
    pub taken: usize,
}

/// What is told of a parcel that is refused.
pub(crate) const REFUSED: LayoutTold = LayoutTold {
    is_refused: true,
    size: 0,
    known: 0,
    fixups: 0,
    taken: 0,
};

fn tell_fixup(fixup: Fixup) -> FixupTold
    ensures { result ≡ fixup_told fixup }
{
    match fixup {
        Fixup::Pointer { at, to } => FixupTold {
            kind: 1,
            at: at as u64,
            to: to as u64,
        },
        Fixup::Descriptor { at } => FixupTold {
            kind: 2,
            at: at as u64,
            to: 0,
        },
        Fixup::Descriptors { at, count } => FixupTold {
            kind: 3,
            at: at as u64,
            to: count as u64,
        },
    }
}

fn tell_fixups(alloc: Global, fixups: &[Fixup]) -> Result<Vec<FixupTold>, AllocError>
    ensures { IfOk result (λ told. told.items ≡ map fixup_told fixups.now) }
{
    let mut told = Vec::with_capacity(alloc, fixups.len())?;
    for fixup in fixups {
        told.push(tell_fixup(*fixup))?;
    }
    Ok(told)
}

// The fix-up that C gives, if it is one.
fn fixup_given(told: &FixupTold) -> Option<Fixup>
    ensures { result ≡ given told.now }
{
    let (at, to) = (told.at as usize, told.to as usize);
    match told.kind {
        1 => Some(Fixup::Pointer { at, to }),
        2 => Some(Fixup::Descriptor { at }),
        3 => Some(Fixup::Descriptors { at, count: to }),
        _ => None,
    }
}

fn lies_within(fixup: Fixup, size: usize) -> bool
    ensures { MatchBool result (LiesWithin size fixup) (LiesWithin size fixup → ⊥) }
{
    match fixup {
        Fixup::Pointer { at, to } => at <= size && size - at >= 8 && to <= size,
        Fixup::Descriptor { at } => at <= size && size - at >= 8,
        Fixup::Descriptors { at, count } => at <= size && (size - at) / 4 >= count,
    }
}

/// Writes a fix-up that C gives into a parcel whose receiver sees its first byte at `base`.
pub(crate) fn land(told: &FixupTold, bytes: &mut [u8], base: u64) -> bool
    ensures { PutsFixup (given told.now) base bytes.old bytes.new result }
{
    let Some(fixup) = fixup_given(told) else {
        return false;
    };
    if !lies_within(fixup, bytes.len()) || u64::MAX - base < bytes.len() as u64 {
        return false;
    }
    put_fixup(bytes, fixup, base);
    true
}

/// Tells a layout: all that fits into the memory that C gives for it, and how much there is.
pub(crate) fn tell_layout(
    alloc: Global,
    layout: &Layout,
    out: &mut [u8],
    known: &mut [u64],
    fixups: &mut [FixupTold],
    told: &mut LayoutTold,
) -> Status
    ensures { TellsLayout layout.now (record { out = out.old; known = known.old; fixups = fixups.old; told = told.old })
        (record { out = out.new; known = known.new; fixups = fixups.new; told = told.new }) result }
{
    let Ok(all) = tell_fixups(alloc, layout.fixups()) else {
        return Status::NoMemory;
    };
    *told = LayoutTold {
        is_refused: false,
        size: fill(out, layout.bytes()),
        known: fill(known, layout.known()),
        fixups: fill(fixups, &all),
        taken: layout.taken(),
    };
    Status::Done
}
