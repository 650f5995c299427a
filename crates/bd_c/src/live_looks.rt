//! What C is told of a live engine and of its latest entry.
ghost use Rattle.std.specs.Prelude.{◌≡◌, false, None, length};
ghost use Rattle.bd_space.specs.Histories.{History, space_after, is_ready};
ghost use Rattle.bd_engine.specs.Follows.{Follows};
ghost use Rattle.bd_journal.specs.{Spelling.{heading_bytes}, Writing.{IsHeading}};
ghost use Rattle.bd_c.specs.{Behind.{Of, IsLive, live_of}, Status.{Reports}, Misuse.{IsMisuse}};
ghost use Rattle.bd_c.specs.{Parts.{Fetches, Tells}, LiveEntries.{got_of, IsSpelled, spelled}};

use crate::handles::Handle;
use crate::live_entries::got_of;
use crate::opening::free;
use crate::parts::fill;
use crate::status::Status;
use bd_engine::Looks;
use std::alloc::Global;

/// Whether the seat has something to read.
#[unsafe(no_mangle)]
pub extern "C" fn hullpippin_live_ready(live: &mut Handle, seat: u32) -> bool
    ensures same { live.new.held ≡ live.old.held }
    ensures ready { IsLive live.old.held → Of live_of live.old.held (λ x. (h : History) → Follows x.bridge.engine.live h
        → result ≡ is_ready (space_after h) seat) }
    ensures misuse { (IsLive live.old.held → ⊥) → result ≡ false }
{
    match live.engine() {
        Some(engine) => engine.bridge.engine.live.is_ready(seat),
        None => false,
    }
}

/// How many steps were made.
#[unsafe(no_mangle)]
pub extern "C" fn hullpippin_live_len(live: &mut Handle) -> u64
    ensures same { live.new.held ≡ live.old.held }
    ensures len { IsLive live.old.held → Of live_of live.old.held (λ x. (h : History) → Follows x.bridge.engine.live h
        → result ≡ length h.entries) }
    ensures misuse { (IsLive live.old.held → ⊥) → result ≡ 0 }
{
    match live.engine() {
        Some(engine) => engine.bridge.engine.live.len(),
        None => 0,
    }
}

/// Copies a part of the bytes that the latest step got, if all of them fit: 0 the returns, 1 the data, 2 the offsets.
/// Answers how many they are.
#[unsafe(no_mangle)]
pub extern "C" fn hullpippin_live_bytes(live: &mut Handle, part: u32, out: &mut [u8]) -> usize
    ensures same { live.new.held ≡ live.old.held }
    ensures fetches { IsLive live.old.held
        → Of live_of live.old.held (λ x. Fetches (got_of part x.latest) out.old out.new result) }
    ensures misuse { (IsLive live.old.held → ⊥) → (result ≡ 0) × (out.new ≡ out.old) }
{
    match live.engine() {
        Some(engine) => fill(out, got_of(&engine.latest, part)),
        None => 0,
    }
}

/// Tells how many bytes the latest entry has in a journal, and copies them if all of them fit.
#[unsafe(no_mangle)]
pub extern "C" fn hullpippin_live_entry(live: &mut Handle, out: &mut [u8], size: &mut usize) -> u32
    ensures same { live.new.held ≡ live.old.held }
    ensures tells { IsLive live.old.held → Reports result (λ s. Of live_of live.old.held (λ x.
        Tells (IsSpelled x.bridge.engine.live.seats x.latest) (spelled x.latest) out.old out.new size.old size.new s)) }
    ensures misuse { (IsLive live.old.held → ⊥) → IsMisuse result live.old.held live.new.held
        × (out.new ≡ out.old) × (size.new ≡ size.old) }
{
    match live.engine() {
        Some(engine) => engine.entry(out, size).number(),
        None => Status::Misuse.number(),
    }
}

/// Tells how many bytes the heading of a journal of so many entries has, and copies them if all of them fit.
#[unsafe(no_mangle)]
pub extern "C" fn hullpippin_live_heading(
    alloc: Global,
    live: &mut Handle,
    count: u64,
    out: &mut [u8],
    size: &mut usize,
) -> u32
    ensures same { live.new.held ≡ live.old.held }
    ensures tells { IsLive live.old.held → Reports result (λ s. Of live_of live.old.held (λ x.
        Tells (IsHeading x.bridge.engine.live.seats count) (heading_bytes x.bridge.engine.live.seats count) out.old out.new size.old size.new s)) }
    ensures misuse { (IsLive live.old.held → ⊥) → IsMisuse result live.old.held live.new.held
        × (out.new ≡ out.old) × (size.new ≡ size.old) }
{
    match live.engine() {
        Some(engine) => engine.heading(alloc, count, out, size).number(),
        None => Status::Misuse.number(),
    }
}

/// Lets go of a live engine, if there is one. Its handle then has nothing.
#[unsafe(no_mangle)]
pub extern "C" fn hullpippin_free_live(alloc: Global, live: &mut Handle)
    ensures { live.new.held ≡ None }
{
    free(alloc, live);
}
