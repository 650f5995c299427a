//! Those who wait, by seat.

ghost use Rattle.std.specs.Prelude.{ℕ, ◌≡◌, ◌==◌, ◌<◌, Some, None, true, false, if◌then◌else◌, length, OnOk, OnErr, IfOk, IfSome, IsTrue, option_map};
ghost use Rattle.bd_bridge.specs.{Rows.{row_at, AreInGroups, AreBelow}, Homes.{home_at, AreHomes}};

use crate::groups::Groups;
use std::alloc::{AllocError, Global};

/// A read that waits for something to come.
#[derive(Clone, Copy)]
pub struct Reading {
    /// How many bytes it has room for.
    pub room: u32,
    /// What it need not be told before the reply to a call may be read for it meanwhile, and it waits on.
    pub defers: bool,
    /// The same is left where it is while there is nothing else, to be read along with what comes behind it.
    pub leaves: bool,
}

/// How a thread waits: in a read, by a doorbell, or both.
#[derive(Clone, Copy)]
pub struct Waiter {
    /// Its process, by the place of the step that opened it.
    pub process: u64,
    pub reads: Option<Reading>,
    pub has_doorbell: bool,
    pub is_rung: bool,
}

// Of which process's group a seat is. It stays there while its thread waits now and then.
#[derive(Clone, Copy)]
pub(crate) struct Home {
    pub(crate) process: u64,
    // Nobody stands behind it there.
    pub(crate) is_last: bool,
}

/// Those who wait, by seat.
#[derive(Drop)]
pub struct Waiters {
    pub(crate) rows: Vec<Option<Waiter>>,
    pub(crate) homes: Vec<Option<Home>>,
    pub(crate) groups: Groups,
    pub(crate) seats: u32,
    // Behind the last seat that has waited.
    pub(crate) top: u32,
    ghost many: { length rows.items ≡ seats },
    ghost housed: { length homes.items ≡ seats },
    ghost grouped: { AreInGroups rows.items groups },
    ghost home: { AreHomes homes.items groups },
    ghost few: { AreBelow rows.items top },
}

// A row for each of so many seats, none of which waits.
fn no_rows(alloc: Global, seats: u32) -> Result<Vec<Option<Waiter>>, AllocError>
    ensures many { IfOk result (λ v. length v.items ≡ seats) }
    ensures none { IfOk result (λ v. (t : ℕ) → row_at v.items t ≡ None) }
{
    vec![in alloc; None; seats as usize]
}

// The same, none of which is in a group.
fn no_homes(alloc: Global, seats: u32) -> Result<Vec<Option<Home>>, AllocError>
    ensures many { IfOk result (λ v. length v.items ≡ seats) }
    ensures none { IfOk result (λ v. (t : ℕ) → home_at v.items t ≡ None) }
{
    vec![in alloc; None; seats as usize]
}

// The last of some seats.
fn last_of(seats: &[u32]) -> Option<u32> {
    match seats.last() {
        Some(last) => Some(*last),
        None => None,
    }
}

impl Waiters {
    ghost use Rattle.bd_bridge.specs.Waiting.{at, seats_in};
    ghost use Rattle.bd_bridge.specs.Named.{has_seat};
    ghost use Rattle.bd_bridge.specs.Groups.{seats_of};

    /// Nobody waits, of so many seats. Errors: memory was refused.
    pub fn new(alloc: Global, seats: u32) -> Result<Waiters, AllocError>
        ensures nobody { IfOk result (λ w. (t : ℕ) → at w t ≡ None) }
        ensures seats { IfOk result (λ w. seats_in w ≡ seats) }
    {
        let rows = no_rows(alloc, seats)?;
        let homes = no_homes(alloc, seats)?;
        Ok(Waiters {
            rows,
            homes,
            groups: Groups::new(alloc),
            seats,
            top: 0,
        })
    }

    /// How many seats there are.
    #[inline(always)]
    pub fn seats(&self) -> u32
        ensures { result ≡ seats_in self.now }
    {
        self.seats
    }

    /// Whoever waits has a seat below this one.
    pub fn top(&self) -> u32
        ensures { (t : ℕ) (w : _) → at self.now t ≡ Some w → t < result }
    {
        self.top
    }

    /// How a seat's thread waits.
    #[inline(always)]
    pub fn get(&self, seat: u32) -> Option<Waiter>
        ensures { result ≡ at self.now seat }
    {
        match self.rows.get(seat as usize) {
            Some(row) => *row,
            None => None,
        }
    }

    /// The seats of those of a process who wait, and perhaps others. Who came last stands last.
    pub fn of_process(&self, process: u64) -> &[u32]
        ensures { (t : ℕ) (w : _) → at self.now t ≡ Some w → w.process ≡ process → has_seat result.now t ≡ true }
    {
        self.groups.of(process)
    }

    // The process whose group a seat is in.
    #[inline(always)]
    fn home(&self, seat: u32) -> Option<Home>
        ensures { result ≡ home_at self.now.homes.items seat }
    {
        match self.homes.get(seat as usize) {
            Some(home) => *home,
            None => None,
        }
    }

    // Whether a seat stands in the group of a process, and nobody behind it.
    #[inline(always)]
    fn is_last(&self, process: u64, seat: u32) -> bool
        ensures { IsTrue result → has_seat (seats_of self.now.groups process) seat ≡ true }
    {
        match self.home(seat) {
            Some(home) => home.process == process && home.is_last,
            None => false,
        }
    }

    // Somebody comes to stand behind the last of a process.
    fn pass_last(&mut self, process: u64)
        ensures rows { self.new.rows ≡ self.old.rows }
        ensures groups { self.new.groups ≡ self.old.groups }
        ensures seats { self.new.seats ≡ self.old.seats }
        ensures top { self.new.top ≡ self.old.top }
    {
        let Some(last) = last_of(self.groups.of(process)) else {
            return;
        };
        if let Some(home) = self.home(last)
            && (last as usize) < self.homes.len()
        {
            self.homes[last as usize] = Some(Home {
                is_last: false,
                ..home
            });
        }
    }

    // A seat's thread waits so from now on, last of its process, whose group it isn't in, or where others stand behind it.
    // Errors: memory was refused, and all wait as before.
    #[inline(never)]
    fn insert_last(&mut self, alloc: Global, seat: u32, waiter: Waiter) -> Result<(), AllocError>
        requires seat { seat < seats_in self.old }
        requires top { seat < self.old.top }
        ensures waits { OnOk result ((t : ℕ) → at self.new t ≡ (if t == seat then Some waiter else at self.old t)) }
        ensures err { OnErr result ((t : ℕ) → at self.new t ≡ at self.old t) }
        ensures seats { seats_in self.new ≡ seats_in self.old }
    {
        self.pass_last(waiter.process);
        self.groups.come_last(alloc, waiter.process, seat)?;
        let home = self.home(seat);
        self.rows[seat as usize] = Some(waiter);
        self.homes[seat as usize] = Some(Home {
            process: waiter.process,
            is_last: true,
        });
        if let Some(home) = home
            && home.process != waiter.process
        {
            self.groups.remove(home.process, seat);
        }
        Ok(())
    }

    /// A seat's thread waits so from now on. Errors: memory was refused, and all wait as before.
    #[inline(always)]
    pub fn insert(&mut self, alloc: Global, seat: u32, waiter: Waiter) -> Result<(), AllocError>
        requires { seat < seats_in self.old }
        ensures waits { OnOk result ((t : ℕ) → at self.new t ≡ (if t == seat then Some waiter else at self.old t)) }
        ensures err { OnErr result ((t : ℕ) → at self.new t ≡ at self.old t) }
        ensures seats { seats_in self.new ≡ seats_in self.old }
    {
        if self.top <= seat {
            self.top = seat + 1;
        }
        if self.is_last(waiter.process, seat) {
            self.rows[seat as usize] = Some(waiter);
            return Ok(());
        }
        self.insert_last(alloc, seat, waiter)
    }

    /// The thread of a seat that waits does it so from now on, for the same process.
    #[inline(always)]
    pub fn set(&mut self, seat: u32, waiter: Waiter)
        requires { option_map (λ (w : _). w.process) (at self.old seat) ≡ Some waiter.process }
        ensures set { (t : ℕ) → at self.new t ≡ (if t == seat then Some waiter else at self.old t) }
        ensures seats { seats_in self.new ≡ seats_in self.old }
    {
        self.rows[seat as usize] = Some(waiter);
    }

    /// A seat's thread doesn't wait for the time being. Its place among those of its process stays.
    #[inline(always)]
    pub fn stop(&mut self, seat: u32)
        ensures gone { (t : ℕ) → at self.new t ≡ (if t == seat then None else at self.old t) }
        ensures seats { seats_in self.new ≡ seats_in self.old }
        ensures place { (self.new.homes ≡ self.old.homes) × (self.new.groups ≡ self.old.groups) }
    {
        if (seat as usize) < self.rows.len() {
            self.rows[seat as usize] = None;
        }
    }

    /// A seat's thread waits no more.
    pub fn remove(&mut self, seat: u32)
        ensures gone { (t : ℕ) → at self.new t ≡ (if t == seat then None else at self.old t) }
        ensures seats { seats_in self.new ≡ seats_in self.old }
        // Nor does it stay in the group that was its home.
        ensures left { IfSome (home_at self.old.homes.items seat) (λ h. has_seat (seats_of self.new.groups h.process) seat ≡ false) }
        ensures home { home_at self.new.homes.items seat ≡ None }
    {
        self.stop(seat);
        if let Some(home) = self.home(seat)
            && (seat as usize) < self.homes.len()
        {
            self.homes[seat as usize] = None;
            self.groups.remove(home.process, seat);
        }
    }
}
