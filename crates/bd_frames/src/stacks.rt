//! Each thread's frames as a stack, linked by bounds: places after which the next older one wasn't made.

ghost use Rattle.std.specs.Prelude.{ℕ, List, Some, None, [], ◌≡◌, ◌==◌, ◌<◌, ◌^◌, false, Contains, filter, not, if◌then◌else◌};
ghost use Rattle.std.specs.{HashMap.{get_by}, Option.{option_and_then}};
ghost use Rattle.bd_space.specs.Words.{is_some_and};
ghost use Rattle.bd_frames.specs.declared.frame.Row as declared;
ghost use Rattle.bd_frames.specs.Places.{place};
ghost use Rattle.bd_frames.specs.Linked as linked;
ghost use Rattle.bd_frames.specs.Linked.{AreStacks, Covers, IsStack, top_in, keeps_top, put_top, popped_top};

use crate::frame::{Row, below_of, other_server};
use bd_keys::insert_reserved;
use bd_uapi::MOST_SEATS;
use std::alloc::Global;
use std::collections::HashMap;

// As many seats as a driver has.
const SEATS: usize = MOST_SEATS as usize;

/// Bounds of stacks by seat, wherever the seat is.
#[derive(Debug, Drop)]
pub struct Bounds {
    pub(crate) own: HashMap<u32, Option<u64>>,
    // The bound of all threads that have none of their own: they have no frames, unless memory for a bound was refused.
    pub(crate) rest: Option<u64>,
}

/// The stacks of all threads: by seat, a bound of all frames of its thread. Where there is none nothing is known of the stack,
/// and all frames are looked through: so it is of a thread that served a frame below its innermost one.
#[derive(Debug, Drop)]
pub struct Stacks {
    // Of the seats that a driver has: most looks are at these, and take no hash.
    pub(crate) tops: [Option<u64>; SEATS],
    pub(crate) others: Bounds,
}

// A bound of what either bounds.
fn wider(a: Option<u64>, b: Option<u64>) -> Option<u64>
    ensures { result ≡ linked.wider a b }
{
    Some(a?.max(b?))
}

// The bound of a stack onto which the frame comes that was made there, if it is its newest.
fn raised(bound: Option<u64>, made: u64) -> Option<u64>
    ensures { result ≡ put_top made bound }
{
    match bound {
        Some(bound) if bound <= made => Some(made),
        _ => None,
    }
}

impl Bounds {
    ghost use Rattle.bd_frames.specs.Linked.{bound_in};

    fn new(alloc: Global) -> Bounds
        ensures { (s : ℕ) → bound_in result s ≡ Some 0 }
    {
        Bounds {
            own: HashMap::new(alloc),
            rest: Some(0),
        }
    }

    fn reserve(&mut self, more: usize)
        ensures { (s : ℕ) → bound_in self.new s ≡ bound_in self.old s }
    {
        let _refused = self.own.reserve(more);
    }

    fn of(&self, seat: u32) -> Option<u64>
        ensures { result ≡ bound_in self.now seat }
    {
        self.own.get(&seat).copied().unwrap_or(self.rest)
    }

    // This is the bound of the thread from now on, or, without memory for it, one of all that have none of their own.
    fn set(&mut self, seat: u32, bound: Option<u64>)
        ensures { (s : ℕ) → Covers (if seat == s then bound else bound_in self.old s) (bound_in self.new s) }
    {
        if self.own.len() < self.own.capacity() {
            insert_reserved(&mut self.own, seat, bound);
        } else {
            let _gone = self.own.remove(&seat);
            self.rest = wider(self.rest, bound);
        }
    }

    fn remove(&mut self, seat: u32)
        ensures others { (s : ℕ) → (seat == s) ≡ false → bound_in self.new s ≡ bound_in self.old s }
        ensures gone { get_by (λ k. seat == k) self.new.own ≡ None }
    {
        let _gone = self.own.remove(&seat);
    }
}

impl Stacks {
    pub(crate) fn new(alloc: Global) -> Stacks
        ensures { AreStacks result [] }
    {
        Stacks {
            tops: [Some(0); SEATS],
            others: Bounds::new(alloc),
        }
    }

    /// Makes room for bounds of so many threads more. Where memory is refused time alone is lost.
    pub(crate) fn reserve(&mut self, more: usize)
        ensures { (s : ℕ) → top_in self.new s ≡ top_in self.old s }
    {
        self.others.reserve(more);
    }

    pub(crate) fn top_of(&self, seat: u32) -> Option<u64>
        ensures { result ≡ top_in self.now seat }
    {
        if (seat as usize) < self.tops.len() {
            self.tops[seat as usize]
        } else {
            self.others.of(seat)
        }
    }

    // This is the bound of the thread from now on, or one that covers it.
    fn set(&mut self, seat: u32, top: Option<u64>)
        ensures { (s : ℕ) → Covers (if seat == s then top else top_in self.old s) (top_in self.new s) }
    {
        if (seat as usize) < self.tops.len() {
            self.tops[seat as usize] = top;
        } else {
            self.others.set(seat, top);
        }
    }

    /// The frame made there comes onto the stack of the thread, if there is one: the bound of those below it.
    pub(crate) fn put(&mut self, seat: Option<u32>, made: u64) -> Option<u64>
        ensures tops { (s : ℕ) → Covers (if is_some_and seat (λ t. t == s) then put_top made (top_in self.old s) else top_in self.old s)
            (top_in self.new s) }
        ensures below { result ≡ option_and_then (top_in self.old) seat }
        // A place is a u64.
        ensures place { made < 2 ^ 64 }
    {
        let seat = seat?;
        let below = self.top_of(seat);
        self.set(seat, raised(below, made));
        below
    }

    // The frame of this row has gone from the stack of the thread, if there is one: where it was on top, what is below is.
    fn lower(&mut self, seat: Option<u32>, row: &Row)
        ensures { (s : ℕ) → Covers (if is_some_and seat (λ t. t == s) then popped_top s row.now (top_in self.old s) else top_in self.old s)
            (top_in self.new s) }
    {
        if let Some(seat) = seat {
            if self.top_of(seat) == Some(row.frame.made) {
                self.set(seat, below_of(seat, row));
            }
        }
    }

    /// The frame of this row has gone from the stacks of its threads.
    pub(crate) fn pop(&mut self, row: &Row)
        ensures { (s : ℕ) (rows : List declared.Row) → Contains rows row.now → IsStack s (top_in self.old s) rows
            → IsStack s (top_in self.new s) (filter (λ r. not (place r == place row.now)) rows) }
    {
        self.lower(row.frame.caller, row);
        self.lower(other_server(row.frame), row);
    }

    /// The thread is gone from all frames.
    pub(crate) fn forget(&mut self, seat: u32)
        ensures others { (s : ℕ) → (seat == s) ≡ false → top_in self.new s ≡ top_in self.old s }
        // What has gone leaves nothing behind.
        ensures gone { keeps_top self.new seat ≡ false }
    {
        if (seat as usize) < self.tops.len() {
            self.tops[seat as usize] = Some(0);
        } else {
            self.others.remove(seat);
        }
    }
}
