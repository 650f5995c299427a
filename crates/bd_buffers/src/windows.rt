//! The windows of all live processes.

ghost use Rattle.std.specs.{Prelude.{◌≡◌, ◌<◌, ◌≤◌, ◌++◌, ℕ, All, Bool, IsTrue, true, false, find, IfOk, IfSome, MatchOption, OnOk, OnErr, Some, None, Err, length, List, [], map, option_map, slice_index_or}, Option.{option_copied}};
ghost use Rattle.bd_uapi.specs.declared.fault.Cause.TheVariants.{NoRoom};
ghost use Rattle.bd_space.specs.{declared.space.Process.{Process}, declared.space.Work.{Work}, Space.{Space, opening}, Seats.{process_in}, Windows.{needed, start_for, buffers_of}, Delivery.{add_buffer}, Freeing.{without_buffer, buffer_at_pointer}};
ghost use Rattle.bd_space.specs.{Returns.{buffer_in}, Spam.{floods}, ReadItems.{buffer_taken, read_by}, Steps.{with_process}, ProcessExits.{without_process}};
ghost use Rattle.bd_ways.specs.Tables.{Tells, Makes};
ghost use Rattle.bd_buffers.specs.{declared.owned.OwnedWindow.{OwnedWindow}, WindowsStand.{StandsFor, StandsIn, Stands, window_room, HasBufferRoom, made_of_buffer, next_made, is_owned_by, CanAdd, IsInWindow}};

use crate::home::home_key;
use crate::lent::Lent;
use crate::listing::{list_made, next_from};
use crate::owned::{
    OwnedWindow, close_among, forget_in, free_in, hand_out_in, owned_by, position_of,
};
use crate::window::Window;
use bd_keys::WordMap;
use bd_numbered::Guesses;
use bd_uapi::Cause;
use std::alloc::{AllocError, Global};
use std::marker::Model;

/// The windows of all live processes.
#[derive(Drop)]
pub struct Windows {
    // In the order in which the processes were opened.
    windows: Vec<OwnedWindow>,
    // Whose window each live buffer is in, by where it was made. Of buffers that ended nothing is noted.
    homes: WordMap<u64>,
    // Where the window of a process mostly stands, and where the one that a buffer is in.
    owners: Guesses,
    places: Guesses,
}

impl Model for Windows {
    ghost use Rattle.std.specs.{Prelude.{◌-◌, vec_len, vec_capacity}, Coded.{codes}};
    ghost use Rattle.bd_buffers.specs.Owners.{AreInOrder, WindowsView};
    ghost use Rattle.bd_keys.specs.contracts.map.WordMap as words;
    ghost use denote.Builtin as builtin;

    ghost Value = { WindowsView };

    ghost coded = { Prim.hlevel (codes, (words.the_row builtin.u32).coded) };

    ghost view = { λ t. record {
      windows = t.windows.items;
      homes = t.homes;
      room = vec_capacity t.windows - vec_len t.windows;
    } };

    ghost invariant = { λ t. AreInOrder t.windows.items };
}

impl Windows {
    /// No window. Takes no memory.
    pub fn new(alloc: Global) -> Windows
        ensures { StandsFor result opening }
    {
        Windows {
            windows: Vec::new(alloc),
            homes: WordMap::new(alloc),
            owners: Guesses::new(alloc),
            places: Guesses::new(alloc),
        }
    }

    /// Makes room for one more window. All stays as it was, also on an `Err`.
    #[tactic(auto, unfolding(crate::specs::WindowsStand::window_room))]
    pub fn reserve(&mut self) -> Result<(), AllocError>
        ensures stands { Makes (StandsFor self.old) (StandsFor self.new) (λ s. s) }
        ensures room { OnOk result (1 ≤ window_room self.new) }
        // Memory was asked for: there was no room.
        ensures grown { OnErr result (window_room self.old ≡ 0) }
    {
        self.windows.reserve(1)
    }

    // Whether a process that the step at this place opens is newer than all that live. Each step's is.
    fn is_next(&self, place: u64) -> bool
        ensures last { IsTrue result → All (λ w. w.owner < place) self.now.windows }
        ensures always { (s : Space) → StandsFor self.now s → s.steps ≡ place → result ≡ true }
    {
        match self.windows.last() {
            None => true,
            Some(w) => w.owner < place,
        }
    }

    /// Takes in the empty window of the process that the step at this place opens. Takes no memory.
    #[tactic(auto, unfolding(crate::specs::WindowsStand::window_room))]
    pub fn open(&mut self, place: u64, window: Window)
        requires room { 1 ≤ window_room self.old }
        ensures { (s : Space) (pid euid size : ℕ) → StandsFor self.old s → s.steps ≡ place → Stands window size []
            → StandsIn self.new (with_process s pid euid size) }
    {
        if self.is_next(place) {
            self.owners.note(place, self.windows.len());
            self.windows.push_reserved(OwnedWindow {
                owner: place,
                window,
            });
        }
    }

    // The window of a process, where it lives.
    fn owned(&self, p: u64) -> Option<&OwnedWindow>
        ensures found { option_copied result ≡ find (is_owned_by p) self.now.windows }
        ensures lives { (s : Space) (q : Process) → StandsIn self.now s → process_in s.processes p ≡ Some q
            → MatchOption result ⊥ (λ w. Stands w.now.window q.window (buffers_of s.buffers p)) }
        ensures gone { (s : Space) → StandsIn self.now s → process_in s.processes p ≡ None → IfSome result (λ w. ⊥) }
    {
        owned_by(&self.windows, p, self.owners.of(p))
    }

    /// Where a buffer for data and offsets of these sizes in bytes would begin in the window of a process.
    /// `NoRoom` where there is no room or no such process; `OverBudget` where one-way buffers would take more than
    /// half of the window.
    #[tactic(auto, using(crate::proofs::AllWindows::can_add_of))]
    #[inline(always)]
    pub fn start_for(
        &self,
        p: u64,
        one_way: bool,
        data_size: u64,
        offsets_size: u64,
    ) -> Result<u32, Cause>
        ensures computed { (s : Space) (q : Process) → StandsIn self.now s → process_in s.processes p ≡ Some q
            → result ≡ start_for q.window (buffers_of s.buffers p) one_way (needed data_size offsets_size) }
        ensures can_add { IfOk result (λ start. CanAdd self.now p one_way (needed data_size offsets_size) start) }
        ensures fits { IfOk result (λ start. needed data_size offsets_size ≤ 4194304) }
        ensures no_process { (s : Space) → StandsIn self.now s → process_in s.processes p ≡ None → result ≡ Err NoRoom }
    {
        match self.owned(p) {
            None => Err(Cause::NoRoom),
            Some(w) => w.window.start_for(one_way, data_size, offsets_size),
        }
    }

    /// Whether the live one-way buffers that a sender's process made take more than a quarter of the window of a process.
    /// No process that has ended is flooded.
    pub fn floods(&self, p: u64, sender: u64) -> bool
        ensures computed { (s : Space) (q : Process) → StandsIn self.now s → process_in s.processes p ≡ Some q
            → result ≡ floods q.window (buffers_of s.buffers p) sender }
        ensures no_process { (s : Space) → StandsIn self.now s → process_in s.processes p ≡ None → result ≡ false }
    {
        match self.owned(p) {
            None => false,
            Some(w) => w.window.floods(sender),
        }
    }

    /// Makes room for one more buffer of a size at a place in the window of a process. All stays as it was, also on an `Err`.
    #[tactic(auto, using(crate::proofs::AllWindows::stay, crate::proofs::AllWindows::stay_seen, crate::proofs::InSpace::homes_same, crate::proofs::Made::refused), unfolding(crate::specs::WindowsStand::CanAdd, crate::specs::WindowsStand::HasBufferRoom))]
    #[inline(always)]
    pub fn reserve_buffer(&mut self, p: u64, start: u32, size: u32) -> Result<(), AllocError>
        ensures stands { Makes (StandsFor self.old) (StandsFor self.new) (λ s. s) }
        ensures can_add { (q : ℕ) (one_way : Bool) (size start : ℕ) → CanAdd self.old q one_way size start
            → CanAdd self.new q one_way size start }
        ensures room { OnOk result (HasBufferRoom self.new p start size) }
        // Memory was asked for: there was no room.
        ensures grown { OnErr result (HasBufferRoom self.old p start size → ⊥) }
    {
        self.homes.reserve(1)?;
        match position_of(&self.windows, p, self.owners.of(p)) {
            None => Ok(()),
            Some(at) => self.windows[at].window.reserve(start, size),
        }
    }

    // Whether a buffer that the step at this place makes is newer than all in this window. Each step's is.
    fn is_next_in(&self, at: usize, place: u64) -> bool
        requires { at < length self.now.windows }
        ensures newest { IsTrue result → (d : OwnedWindow)
            → All (λ b. b.made < place) (slice_index_or self.now.windows at d).window.buffers }
        ensures always { (s : Space) → StandsFor self.now s → s.steps ≡ place → result ≡ true }
    {
        self.windows[at].window.is_newest(place)
    }

    /// Takes a buffer into its receiver's window, at a place that it can take it at. Takes no memory.
    #[tactic(auto, unfolding(crate::specs::WindowsStand::HasBufferRoom))]
    #[inline(always)]
    pub fn add(&mut self, buffer: Lent<'_>)
        requires room { HasBufferRoom self.old buffer.receiver buffer.start buffer.size }
        requires sized { buffer.size ≡ needed (length buffer.bytes) (length buffer.offsets) }
        requires can_add { CanAdd self.old buffer.receiver buffer.one_way buffer.size buffer.start }
        ensures { (s : Space) → StandsFor self.old s → s.steps ≡ buffer.entry.made
            → StandsIn self.new (add_buffer s buffer.entry) }
    {
        let receiver = buffer.receiver();
        let made = buffer.made();
        let at = match position_of(&self.windows, receiver, self.owners.of(receiver)) {
            Some(at) => at,
            None => unreachable!(),
        };
        if self.is_next_in(at, made) {
            self.owners.note(receiver, at);
            self.places.note(made, at);
            self.homes.insert(home_key(made), receiver);
            self.windows[at].window.commit(buffer);
        }
    }

    /// The live buffer made there.
    // Put into its callers, as what looks by a pointer: what is lent isn't moved from frame to frame.
    #[inline(always)]
    pub fn buffer(&self, made: u64) -> Option<Lent<'_>>
        ensures found { Tells (StandsIn self.now) result (λ s. buffer_in s.buffers made) }
        ensures placed { IfSome result (λ b. IsInWindow b) }
    {
        if let Some(w) = self.windows.get(self.places.of(made) as usize) {
            if let Some(b) = w.window.buffer(made) {
                return Some(b);
            }
        }
        self.at_home(made)
    }

    // The same, where no guess tells whose window it is in.
    #[tactic(auto, using(bd_keys::proofs::Rising::find_none, crate::proofs::InSpace::none_home))]
    #[inline(never)]
    fn at_home(&self, made: u64) -> Option<Lent<'_>>
        ensures found { Tells (StandsIn self.now) result (λ s. buffer_in s.buffers made) }
        ensures placed { IfSome result (λ b. IsInWindow b) }
    {
        let p = self.homes.get(home_key(made))?;
        let w = self.owned(p)?;
        w.window.buffer(made)
    }

    /// The live buffer that a process knows by a pointer, handed out or not.
    #[tactic(auto, using(crate::proofs::InSpace::at_pointer_in), unfolding(bd_space::specs::Freeing::buffer_at_pointer))]
    #[inline(always)]
    pub fn at_pointer(&self, p: u64, pointer: u64) -> Option<Lent<'_>>
        ensures found { (s : Space) (q : Process) → StandsIn self.now s → process_in s.processes p ≡ Some q
            → result ≡ buffer_at_pointer s p pointer }
        ensures placed { IfSome result (λ b. IsInWindow b) }
        ensures no_process { (s : Space) → StandsIn self.now s → process_in s.processes p ≡ None → result ≡ None }
    {
        match self.owned(p) {
            None => None,
            Some(w) => w.window.buffer_at_pointer(pointer),
        }
    }

    /// Appends the places at which the live buffers of a process were made, oldest first. What it appends where memory is
    /// refused isn't said.
    pub fn list_made(&self, p: u64, places: &mut Vec<u64>) -> Result<(), AllocError>
        ensures listed { OnOk result (Tells (StandsIn self.now) places.new.items
            (λ s. places.old.items ++ map made_of_buffer (buffers_of s.buffers p))) }
        // Memory was asked for: the process has a live buffer.
        ensures grown { OnErr result ((s : Space) → StandsIn self.now s → 1 ≤ length (buffers_of s.buffers p)) }
    {
        match self.owned(p) {
            None => Ok(()),
            Some(w) => list_made(w.window.rows(), places),
        }
    }

    /// Where the first live buffer of a process that was made at this place or behind it was made.
    #[tactic(auto, using(crate::proofs::AllWindows::held, crate::proofs::Standing::found_of))]
    pub fn next_from(&self, p: u64, from: u64) -> Option<u64>
        ensures { Tells (StandsIn self.now) result (λ s. next_made (buffers_of s.buffers p) from) }
    {
        match self.owned(p) {
            None => None,
            Some(w) => next_from(w.window.rows(), from),
        }
    }

    /// Ends the buffer made there.
    #[inline(always)]
    pub fn free(&mut self, made: u64)
        ensures { Makes (StandsIn self.old) (StandsIn self.new) (λ s. without_buffer s made) }
    {
        if let Some(p) = self.homes.remove(home_key(made)) {
            free_in(&mut self.windows, p, self.owners.of(p), made);
        }
    }

    /// Marks the buffer that is handed over by reading these work items, if any.
    #[tactic(auto, using(crate::proofs::AllWindows::none_handed_by), unfolding(bd_space::specs::ReadItems::read_by))]
    #[inline(always)]
    pub fn hand_out(&mut self, made: Option<u64>)
        ensures { (s : Space) (seat : ℕ) (ws : List Work) → StandsIn self.old s
            → made ≡ option_map made_of_buffer (buffer_taken s ws) → StandsIn self.new (read_by s seat ws) }
    {
        if let Some(made) = made {
            if let Some(p) = self.homes.get(home_key(made)) {
                hand_out_in(&mut self.windows, p, self.owners.of(p), made);
            }
        }
    }

    /// Ends the window of a process, with its buffers.
    pub fn close(&mut self, p: u64)
        ensures { Makes (StandsIn self.old) (StandsIn self.new) (λ s. without_process s p) }
    {
        forget_in(&mut self.homes, &self.windows, p, self.owners.of(p));
        close_among(&mut self.windows, p);
    }
}
