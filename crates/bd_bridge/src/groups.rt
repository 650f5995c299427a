//! Those who wait, by process.

ghost use Rattle.std.specs.Prelude.{ℕ, ◌≡◌, ◌==◌, ◌≤◌, ◌++◌, ◌∷◌, ◌&&◌, if◌then◌else◌, [], is_ok, true, false, not, filter, vec_len, vec_capacity};
ghost use Rattle.bd_bridge.specs.Groups.{seats_of};
ghost use Rattle.bd_bridge.specs.Named.{has_seat};

use std::alloc::{AllocError, Global};
use std::collections::HashMap;

/// The seats of those who wait, by process.
#[derive(Drop)]
pub struct Groups {
    pub(crate) lists: HashMap<u64, Vec<u32>>,
}

// Takes a seat out of a group.
fn leave(seats: &mut Vec<u32>, seat: u32)
    ensures left { seats.new.items ≡ filter (λ s. not (s == seat)) seats.old.items }
    ensures fewer { vec_len seats.new ≤ vec_len seats.old }
    ensures capacity { vec_capacity seats.new ≡ vec_capacity seats.old }
{
    seats.retain(|s| *s != seat);
}

// Puts a seat behind all others of its group.
fn bring_last(seats: &mut Vec<u32>, seat: u32) -> Result<(), AllocError>
    ensures { seats.new.items
        ≡ (if is_ok result then filter (λ s. not (s == seat)) seats.old.items ++ seat ∷ [] else seats.old.items) }
{
    seats.reserve(1)?;
    leave(seats, seat);
    seats.push_reserved(seat);
    Ok(())
}

impl Groups {
    /// Nobody waits. Takes no memory.
    pub fn new(alloc: Global) -> Groups
        ensures { (p : ℕ) → seats_of result p ≡ [] }
    {
        Groups {
            lists: HashMap::new(alloc),
        }
    }

    /// Those of a process. Who came last stands last.
    pub fn of(&self, process: u64) -> &[u32]
        ensures { result.now ≡ seats_of self.now process }
    {
        match self.lists.get(&process) {
            Some(seats) => seats.as_slice(),
            None => &[],
        }
    }

    /// One comes to a process. Errors: memory was refused, and nobody comes.
    pub fn add(&mut self, alloc: Global, process: u64, seat: u32) -> Result<(), AllocError>
        ensures { (p : ℕ) → seats_of self.new p
            ≡ (if is_ok result && (p == process) then seats_of self.old p ++ seat ∷ [] else seats_of self.old p) }
    {
        if let Some(seats) = self.lists.get_mut(&process) {
            seats.push(seat)?;
            return Ok(());
        }
        let mut seats = Vec::new(alloc);
        seats.push(seat)?;
        self.lists.insert(process, seats)?;
        Ok(())
    }

    /// One who is or was there comes last of a process. Errors: memory was refused, and all stand as before.
    pub fn come_last(&mut self, alloc: Global, process: u64, seat: u32) -> Result<(), AllocError>
        ensures kept { (p t : ℕ) → has_seat (seats_of self.old p) t ≡ true → has_seat (seats_of self.new p) t ≡ true }
        ensures come { is_ok result ≡ true → has_seat (seats_of self.new process) seat ≡ true }
        // It stands there once, however often it came.
        ensures last { (p : ℕ) → seats_of self.new p
            ≡ (if is_ok result && (p == process) then filter (λ s. not (s == seat)) (seats_of self.old p) ++ seat ∷ [] else seats_of self.old p) }
    {
        if let Some(seats) = self.lists.get_mut(&process) {
            return bring_last(seats, seat);
        }
        self.add(alloc, process, seat)
    }

    /// One of a process leaves, and with the last one its list.
    pub fn remove(&mut self, process: u64, seat: u32)
        ensures gone { has_seat (seats_of self.new process) seat ≡ false }
        ensures left { (p t : ℕ) → (t ≡ seat → ⊥) → has_seat (seats_of self.new p) t ≡ has_seat (seats_of self.old p) t }
        ensures others { (p : ℕ) → (p ≡ process → ⊥) → seats_of self.new p ≡ seats_of self.old p }
    {
        if let Some(seats) = self.lists.get_mut(&process) {
            leave(seats, seat);
            if !seats.is_empty() {
                return;
            }
        }
        self.lists.remove(&process);
    }
}
