//! Who is still to be looked at.

ghost use Rattle.std.specs.Prelude.{ℕ, ◌≡◌, ◌<◌, ◌+◌, ◌⊎◌, true, false, MatchOption, IfSome, IfOk, IsTrue, IsNone, slice_index_or};
ghost use Rattle.bd_bridge.specs.Named.{has_seat};

use std::alloc::{AllocError, Global};
use std::collections::VecDeque;

/// Seats that are still to be looked at, who was named first in front. None is lost for want of memory.
#[derive(Drop)]
pub struct Suspects {
    pub(crate) seats: VecDeque<u32>,
    // By seat: whether its name is among these already.
    pub(crate) named: Vec<bool>,
    // All below this number are, too: once there was no memory for a name.
    pub(crate) below: u32,
    ghost known: { (t : ℕ) → slice_index_or named.items t false ≡ true → has_seat seats.items t ≡ true },
}

impl Suspects {
    ghost use Rattle.bd_bridge.specs.Suspects.{is_suspect, suspects_in};

    /// None, of so many seats. Errors: memory was refused.
    pub fn new(alloc: Global, seats: u32) -> Result<Suspects, AllocError>
        ensures { IfOk result (λ s. (t : ℕ) → is_suspect s t ≡ false) }
    {
        let named = vec![in alloc; false; seats as usize]?;
        Ok(Suspects {
            seats: VecDeque::new(alloc),
            named,
            below: 0,
        })
    }

    /// All below a number.
    pub fn add_all(&mut self, seats: u32)
        ensures added { (t : ℕ) → t < seats → is_suspect self.new t ≡ true }
        ensures kept { (t : ℕ) → is_suspect self.old t ≡ true → is_suspect self.new t ≡ true }
    {
        if self.below < seats {
            self.below = seats;
        }
    }

    // Whether a seat's name is among them, as far as that is known.
    #[inline(always)]
    fn is_named(&self, seat: u32) -> bool
        ensures { result ≡ true → has_seat self.now.seats.items seat ≡ true }
    {
        match self.named.get(seat as usize) {
            Some(named) => *named,
            None => false,
        }
    }

    /// One more, behind all others, or, where there is no memory for its name, all below `seats`.
    #[inline(always)]
    pub fn add(&mut self, seat: u32, seats: u32)
        ensures added { seat < seats → is_suspect self.new seat ≡ true }
        ensures kept { (t : ℕ) → is_suspect self.old t ≡ true → is_suspect self.new t ≡ true }
    {
        if self.is_named(seat) {
            return;
        }
        if self.seats.push_back(seat).is_err() {
            self.add_all(seats);
            return;
        }
        if (seat as usize) < self.named.len() {
            self.named[seat as usize] = true;
        }
    }

    /// Takes one out: the first that was named, then the highest of the others.
    #[inline(always)]
    pub fn take(&mut self) -> Option<u32>
        ensures taken { MatchOption result ((t : ℕ) → is_suspect self.old t ≡ false)
            (λ seat. (t : ℕ) → is_suspect self.old t ≡ true → (t ≡ seat) ⊎ (is_suspect self.new t ≡ true)) }
        ensures last { IsNone result → suspects_in self.new ≡ 0 }
        ensures fewer { IfSome result (λ _. suspects_in self.old ≡ suspects_in self.new + 1) }
    {
        if let Some(seat) = self.seats.pop_front() {
            if (seat as usize) < self.named.len() {
                self.named[seat as usize] = false;
            }
            return Some(seat);
        }
        if self.below == 0 {
            return None;
        }
        self.below -= 1;
        Some(self.below)
    }

    /// Whether there are none.
    #[inline(always)]
    pub fn is_empty(&self) -> bool
        ensures none { IsTrue result → (t : ℕ) → is_suspect self.now t ≡ false }
        ensures empty { suspects_in self.now ≡ 0 → IsTrue result }
    {
        self.seats.is_empty() && self.below == 0
    }

    /// After so many looks none are left, if none come.
    pub fn len(&self) -> usize
        ensures { result ≡ suspects_in self.now }
    {
        self.seats.len() + self.below as usize
    }
}
