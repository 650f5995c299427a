//! The table: its memory, its changes and what it tells.
#![tactic(auto, unfolding(crate::specs::Room::thread_room))]

ghost use Rattle.std.specs.{Prelude.{◌≡◌, ◌==◌, ◌≤◌, ◌<◌, ◌+◌, ◌++◌, ◌∷◌, [], not, map, filter, length, IfOk, OnOk, OnErr}, HashMap.{hash_map_len}};
ghost use Rattle.bd_space.specs.{ProcessExits.{seat_of}, Seats.{thread_in}, Words.{changed}};
ghost use Rattle.bd_threads.specs.Rows.{AreInverse, live, place_at, seat_at};

use bd_keys::room_anew;
use bd_space::Thread;
use std::alloc::{AllocError, Global};
use std::collections::HashMap;

// Room is made anew for so many threads at least.
const LEAST: usize = 16;

/// The live threads.
#[derive(Drop)]
pub struct ThreadTable {
    // In the order in which they came in. A row whose thread has gone is empty.
    pub(crate) rows: Vec<Option<Thread>>,
    // In which row each seat's thread is.
    pub(crate) places: HashMap<u32, usize>,
    ghost found: { AreInverse (place_at places) (seat_at rows.items) },
    // What has gone leaves nothing in the map.
    ghost left: { hash_map_len places ≡ length (live rows.items) },
}

impl ThreadTable {
    ghost use Rattle.bd_threads.specs.{Listed.{listed}, Room.{thread_room, row_count, row_room}};

    /// No thread. Takes no memory.
    pub fn new(alloc: Global) -> ThreadTable
        ensures listed { listed result ≡ [] }
        ensures rows { row_count result ≡ 0 }
    {
        ThreadTable {
            rows: Vec::new(alloc),
            places: HashMap::new(alloc),
        }
    }

    // Makes room behind the rows that there are.
    fn grow(&mut self, more: usize) -> Result<(), AllocError>
        ensures listed { listed self.new ≡ listed self.old }
        ensures rows { row_count self.new ≡ row_count self.old }
        ensures uses { thread_room self.old ≤ thread_room self.new }
        ensures room { OnOk result (more ≤ thread_room self.new) }
        ensures grown { OnErr result (thread_room self.old < more) }
    {
        self.rows.reserve(more)?;
        self.places.reserve(more)
    }

    // The same threads in new memory, without the rows of those that went.
    fn rebuilt(&self, more: usize) -> Result<ThreadTable, AllocError>
        ensures listed { IfOk result (λ t. listed t ≡ listed self.now) }
        ensures rows { IfOk result (λ t. row_count t ≡ length (listed self.now)) }
        ensures room { IfOk result (λ t. more ≤ thread_room t) }
    {
        let room = room_anew(LEAST, self.places.len(), more)?;
        let mut fresh = ThreadTable::new(*self.rows.allocator());
        fresh.grow(room)?;
        for row in &self.rows {
            if let Some(thread) = row {
                fresh.push(*thread);
            }
        }
        Ok(fresh)
    }

    /// Makes room for so many more. Changes nothing else, also on an `Err`.
    pub fn reserve(&mut self, more: usize) -> Result<(), AllocError>
        ensures listed { listed self.new ≡ listed self.old }
        ensures uses { thread_room self.old ≤ thread_room self.new }
        ensures room { OnOk result (more ≤ thread_room self.new) }
        // Memory was asked for: there was no room.
        ensures grown { OnErr result (thread_room self.old < more) }
        // More memory for rows is taken only where threads that are there fill half of them.
        ensures packed { OnOk result (row_room self.old < more
            → row_count self.new ≤ length (listed self.new) + length (listed self.new) + 1) }
    {
        let is_short = self.rows.capacity() - self.rows.len() < more;
        // Those that went since the last rebuilding pay for the next.
        if is_short && self.places.len() < self.rows.len() / 2 {
            *self = self.rebuilt(more)?;
            return Ok(());
        }
        self.grow(more)
    }

    /// A thread comes in, in place of the one that its seat has. Takes no memory.
    pub fn push(&mut self, thread: Thread)
        requires { 1 ≤ thread_room self.old }
        ensures listed { listed self.new
            ≡ filter (λ t. not (t.seat == thread.seat)) (listed self.old) ++ thread ∷ [] }
        ensures rows { row_count self.new ≡ row_count self.old + 1 }
        ensures uses { thread_room self.old ≤ thread_room self.new + 1 }
    {
        self.remove(thread.seat);
        let row = self.rows.len();
        match self.places.insert(thread.seat, row) {
            Ok(_) => self.rows.push_reserved(Some(thread)),
            Err(_) => unreachable!(),
        }
    }

    /// The thread of a seat enters or leaves the loop.
    pub fn set_looping(&mut self, seat: u32, looping: bool)
        ensures listed { listed self.new ≡
            changed (λ t. t.seat == seat) (λ t. record t { looping = looping }) (listed self.old) }
        ensures uses { thread_room self.old ≤ thread_room self.new }
    {
        if let Some(row) = self.places.get(&seat) {
            if let Some(thread) = &mut self.rows[*row] {
                thread.looping = looping;
            }
        }
    }

    /// The thread of a seat goes.
    pub fn remove(&mut self, seat: u32)
        ensures listed { listed self.new ≡ filter (λ t. not (t.seat == seat)) (listed self.old) }
        ensures rows { row_count self.new ≡ row_count self.old }
        ensures uses { thread_room self.old ≤ thread_room self.new }
    {
        if let Some(row) = self.places.remove(&seat) {
            self.rows[row] = None;
        }
    }

    // The thread of a seat, wherever its row is.
    #[inline(never)]
    fn placed(&self, seat: u32) -> Option<Thread>
        ensures { result ≡ thread_in (listed self.now) seat }
    {
        let row = self.places.get(&seat)?;
        self.rows[*row]
    }

    /// The thread of a seat.
    // Put into its callers, as each step asks for one: what the map takes is in another function, which is mostly not called.
    #[inline(always)]
    pub fn thread(&self, seat: u32) -> Option<Thread>
        ensures { result ≡ thread_in (listed self.now) seat }
    {
        // Where threads come in by their seats each is in the row of its seat's number, and the map isn't asked.
        if let Some(Some(thread)) = self.rows.get(seat as usize) {
            if thread.seat == seat {
                return Some(*thread);
            }
        }
        self.placed(seat)
    }

    /// The seats of a process's threads. Fails for want of memory alone, and never where there are none.
    pub fn seats_of(&self, alloc: Global, process: u64) -> Result<Vec<u32>, AllocError>
        ensures seats { IfOk result (λ v. v.items
            ≡ map seat_of (filter (λ t. t.process == process) (listed self.now))) }
        // Memory was asked for: there was a seat to put into it.
        ensures grown { OnErr result (1 ≤ length (filter (λ t. t.process == process) (listed self.now))) }
    {
        let mut seats = Vec::new(alloc);
        for row in &self.rows {
            if let Some(thread) = row {
                if thread.process == process {
                    seats.push(thread.seat)?;
                }
            }
        }
        Ok(seats)
    }
}
