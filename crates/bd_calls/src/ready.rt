//! What is kept of the seats from step to step: whether there is anything on the lists that each may read.
#![tactic(auto)]

ghost use Rattle.std.specs.Prelude.{◌≡◌, ◌≤◌, length, vec_len};
ghost use Rattle.bd_calls.specs.Marked.{AreKnown, AreMarked};
ghost use Rattle.bd_calls.specs.Grouped.{AreGrouped};

use crate::bits::{lowest, with_bit, without};
use crate::groups::{GROUPS, Group, group_place, no_groups};
use crate::seen::{Seen, is_known, is_member, look_at, may_read};
use bd_space::{TodoList, Work};
use bd_threads::ThreadTable;
use bd_todo::WorkTable;
use std::alloc::Global;

/// What is kept of the seats: of each what is so, unless more may have changed since than the lists that were noted.
#[derive(Drop)]
pub(crate) struct ReadySeats {
    pub(crate) seats: Vec<Option<Seen>>,
    // Something is kept of each, so there is nothing to look at. No clause speaks of it.
    pub(crate) whole: bool,
    // The seats of which something is kept.
    pub(crate) known: u32,
    // The seats that have something to read unless they are in a call, and those of which nothing is kept: only these are asked for
    // the ready word.
    pub(crate) marked: u32,
    // The seats of some processes, so that what comes onto the list of one of these is noted of its members alone.
    pub(crate) groups: [Group; GROUPS],
    ghost few: { vec_len seats ≤ 32 },
    ghost full: { length groups ≡ 32 },
    ghost are_known: { AreKnown seats.items known },
    ghost are_marked: { AreMarked seats.items marked },
    ghost are_grouped: { AreGrouped seats.items groups },
}

impl ReadySeats {
    ghost use Rattle.std.specs.Prelude.{ℕ, ◌≡◌, ◌<◌, ◌==◌, Bool, List, map, set, get_or, vec_len, if◌then◌else◌, Option, None, option_map};
    ghost use Rattle.bd_space.specs.declared.space.Thread as declared;
    ghost use Rattle.bd_space.specs.declared.space.TodoList as lists;
    ghost use Rattle.bd_space.specs.declared.space.TodoList.TheVariants.{OfThread};
    ghost use Rattle.bd_space.specs.declared.space.Work as works;
    ghost use Rattle.bd_space.specs.Todo as todos;
    ghost use Rattle.bd_todo.specs.Stands as todo_table;
    ghost use Rattle.bd_threads.specs.Listed.{listed};
    ghost use Rattle.bd_calls.specs.Ready as spec;
    ghost use Rattle.bd_calls.specs.Grouped.{HasMembers, IsGrouped, whole};

    /// Nothing is kept, of no seat. Takes no memory.
    pub(crate) fn new(alloc: Global) -> ReadySeats
        ensures { (ts : List declared.Thread) (told : lists.TodoList → Bool) → spec.AreSeen result ts told }
    {
        let groups = no_groups();
        ReadySeats {
            seats: Vec::new(alloc),
            whole: true,
            known: 0,
            marked: u32::MAX,
            groups,
        }
    }

    /// Nothing is kept yet, of any of these seats.
    pub(crate) fn of(seats: Vec<Option<Seen>>) -> ReadySeats
        requires none { (at : ℕ) → get_or seats.items at None ≡ None }
        requires few { vec_len seats ≤ 32 }
        ensures { (ts : List declared.Thread) (told : lists.TodoList → Bool) → spec.AreSeen result ts told }
    {
        let groups = no_groups();
        ReadySeats {
            seats,
            whole: false,
            known: 0,
            marked: u32::MAX,
            groups,
        }
    }

    // This is kept of a seat from now on. The groups have it as a seat of the process, if it has a thread.
    #[inline(always)]
    fn keep(&mut self, at: usize, seen: Option<Seen>)
        requires inside { at < vec_len self.old.seats }
        requires grouped { IsGrouped self.old.groups at seen }
        ensures seats { self.new.seats.items ≡ set self.old.seats.items at seen }
        ensures groups { self.new.groups ≡ self.old.groups }
    {
        let known = with_bit(self.known, at as u32, is_known(seen));
        let marked = with_bit(self.marked, at as u32, may_read(seen));
        self.seats[at] = seen;
        self.known = known;
        self.marked = marked;
    }

    /// The seat's thread may have changed.
    pub(crate) fn forget_seat(&mut self, seat: u32)
        ensures { (at : ℕ) → spec.seen_at self.new at ≡ (if seat == at then None else spec.seen_at self.old at) }
    {
        let at = seat as usize;
        if at < self.seats.len() {
            self.keep(at, None);
        }
        self.whole = false;
    }

    // Whether there is anything on the list of the seat's thread.
    #[inline(always)]
    fn note_own(&mut self, seat: u32, has: bool)
        ensures { (at : ℕ) → spec.seen_at self.new at ≡ option_map (spec.noted (OfThread seat) has at) (spec.seen_at self.old at) }
    {
        let at = seat as usize;
        if at < self.seats.len() {
            if let Some(seen) = self.seats[at] {
                self.keep(at, Some(Seen { own: has, ..seen }));
            }
        }
    }

    // The seats that may have a thread of the process, all of which are looked at.
    #[inline(never)]
    fn find_members(&self, process: u64) -> u32
        ensures { HasMembers process self.now.seats.items result }
    {
        let mut members = 0;
        for at in 0..self.seats.len() {
            members = with_bit(members, at as u32, is_member(&self.seats[at], process));
        }
        members
    }

    // A word with each seat that is kept to have a thread of the process, and maybe with others.
    #[inline(always)]
    fn members_of(&mut self, process: u64) -> u32
        ensures same { self.new.seats.items ≡ self.old.seats.items }
        ensures members { HasMembers process self.old.seats.items result }
    {
        let at = group_place(process);
        let group = self.groups[at];
        if group.process == process {
            return group.seats;
        }
        let seats = self.find_members(process);
        self.groups[at] = Group { process, seats };
        seats
    }

    // Whether there is anything on the list of the process, of a seat whose thread may be of it.
    #[inline(always)]
    fn note_member(&mut self, seat: u32, process: u64, has: bool)
        ensures { (at : ℕ) → spec.seen_at self.new at
            ≡ (if seat == at then option_map (spec.with_shared process has) (spec.seen_at self.old at) else spec.seen_at self.old at) }
    {
        let at = seat as usize;
        if at < self.seats.len() {
            if let Some(seen) = self.seats[at] {
                self.keep(at, Some(seen.with_shared(process, has)));
            }
        }
    }

    // Whether there is anything on the list of the process.
    #[inline(never)]
    fn note_members(&mut self, process: u64, has: bool)
        ensures { (at : ℕ) → spec.seen_at self.new at ≡ option_map (spec.with_shared process has) (spec.seen_at self.old at) }
    {
        let mut rest = self.members_of(process);
        'members: while rest != 0 {
            let seat = lowest(rest);
            rest = without(rest, seat);
            self.note_member(seat, process, has);
        }
    }

    /// There is anything on the list from now on, or nothing.
    #[inline(always)]
    pub(crate) fn note(&mut self, list: TodoList, has: bool)
        ensures { (at : ℕ) → spec.seen_at self.new at ≡ option_map (spec.noted list has at) (spec.seen_at self.old at) }
    {
        match list {
            TodoList::OfThread(seat) => self.note_own(seat, has),
            TodoList::OfProcess(process) => self.note_members(process, has),
        }
    }

    /// These work items went from their lists, as the table now has them.
    pub(crate) fn note_lists_of(&mut self, todo: &WorkTable, taken: &[Work])
        ensures { (ts : List declared.Thread) (told : lists.TodoList → Bool) (ws : List works.Work) → todo_table.WorksAre todo.now ws
            → spec.AreSeen self.old ts told → spec.AreSeen self.new ts (spec.told_after ws taken.now told) }
    {
        for work in taken {
            self.note(work.list, todo.has_any(work.list));
        }
    }

    /// All may have changed.
    pub(crate) fn forget_all(&mut self)
        ensures { (ts : List declared.Thread) (told : lists.TodoList → Bool) → spec.AreSeen self.new ts told }
    {
        self.whole = false;
        self.known = 0;
        self.marked = u32::MAX;
        self.seats.fill(None);
    }

    /// Looks at those seats of which nothing is kept.
    #[inline(always)]
    pub(crate) fn refresh(&mut self, threads: &ThreadTable, todo: &WorkTable)
        ensures { (ts : List declared.Thread) (ws : List works.Work) → listed threads.now ≡ ts → todo_table.WorksAre todo.now ws
            → spec.AreSeen self.old ts (todos.has_work_in ws) → spec.AreSeen self.new ts (todos.has_work_in ws) }
    {
        if !self.whole {
            self.look(threads, todo);
        }
    }

    // Any seat may have a thread of any process from now on.
    fn forget_groups(&mut self)
        ensures seats { self.new.seats.items ≡ self.old.seats.items }
        ensures groups { (k : ℕ) → get_or self.new.groups k whole ≡ whole }
    {
        let groups = no_groups();
        self.groups = groups;
    }

    #[inline(never)]
    fn look(&mut self, threads: &ThreadTable, todo: &WorkTable)
        ensures { (ts : List declared.Thread) (ws : List works.Work) → listed threads.now ≡ ts → todo_table.WorksAre todo.now ws
            → spec.AreSeen self.old ts (todos.has_work_in ws) → spec.AreSeen self.new ts (todos.has_work_in ws) }
    {
        self.forget_groups();
        let seats = self.seats.len() as u32;
        for seat in 0..seats {
            let at = seat as usize;
            if at < self.seats.len() && self.seats[at].is_none() {
                self.keep(at, Some(look_at(threads, todo, seat)));
            }
        }
        self.whole = true;
    }
}
