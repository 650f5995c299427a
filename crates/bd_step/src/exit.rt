//! What an exit touches, gathered before anything changes: nothing else is looked at afterwards.

ghost use Rattle.std.specs.{Prelude.{◌≡◌, ◌+◌, ◌≤◌, true, length, OnOk, OnErr, IfOk}, List.{list_any}};
ghost use Rattle.bd_space.specs.Space.{Space};
ghost use Rattle.bd_laws.specs.{Lists.{Pairs}, Objects.{NotLater}};
ghost use Rattle.bd_deaths.specs.Due.{due_in};
ghost use Rattle.bd_calls.specs.Room.{frame_count, work_room};
ghost use Rattle.bd_step.specs.{Stands.{Before, TellsBefore, KeepsTold}, Meets.{IsKept}};
ghost use Rattle.bd_step.specs.Exits.{Grows, HasWork, HasList, HasThread, HasThreads, HasProcess, gathers_work, gathers_list, gathers_thread};

use crate::tables::Tables;
use crate::touched::in_order;
use bd_space::{DeathNotification, Identity, TodoList, WorkKind};
use std::alloc::{AllocError, Global};

/// The objects to look at, at their names too, the calls that may have lost their server, and by what the end is told.
#[derive(Drop)]
pub(crate) struct Exit {
    objects: Vec<Identity>,
    frames: Vec<u64>,
    deaths: Vec<DeathNotification>,
}

impl Exit {
    // Nothing is gathered yet. Takes no memory.
    fn new(alloc: Global) -> Exit {
        Exit {
            objects: Vec::new(alloc),
            frames: Vec::new(alloc),
            deaths: Vec::new(alloc),
        }
    }

    /// The objects, in the order in which they were made.
    pub(crate) fn objects(&self) -> &[Identity]
        ensures { result.now ≡ self.now.objects.items }
    {
        self.objects.as_slice()
    }

    /// The death notifications by which a process's end is told, in the order in which they were made.
    pub(crate) fn deaths(&self) -> &[DeathNotification]
        ensures { result.now ≡ self.now.deaths.items }
    {
        self.deaths.as_slice()
    }

    /// The calls, in any order.
    pub(crate) fn into_frames(self) -> Vec<u64>
        ensures { result.items ≡ self.frames.items }
    {
        self.frames
    }
}

impl Tables {
    // A notice that is lost may have to be told again; a buffer that nobody reads any more takes its references along;
    // and a call that nobody reads any more has lost its server.
    fn touch_work(&self, kind: WorkKind, exit: &mut Exit) -> Result<(), AllocError>
        ensures has { OnOk result ((s : Space) → Before self.now s → HasWork exit.new s kind) }
        ensures grows { OnOk result ((s : Space) → Before self.now s → Grows exit.old exit.new) }
        // Memory was asked for: there is something to be gathered. So of the others.
        ensures grown { OnErr result ((s : Space) → Before self.now s → gathers_work s kind ≡ true) }
    {
        match kind {
            WorkKind::Notice(o) => exit.objects.push(o)?,
            WorkKind::Reply(b) => self.objects.referred(b, &mut exit.objects)?,
            WorkKind::Call(b) => {
                exit.frames.push(b)?;
                self.objects.referred(b, &mut exit.objects)?;
            }
            _ => {}
        }
        Ok(())
    }

    fn touch_list(&self, list: TodoList, exit: &mut Exit) -> Result<(), AllocError>
        ensures has { OnOk result ((s : Space) → Before self.now s → HasList exit.new s list) }
        ensures grows { OnOk result ((s : Space) → Before self.now s → Grows exit.old exit.new) }
        ensures grown { OnErr result ((s : Space) → Before self.now s → gathers_list s list ≡ true) }
    {
        for work in self.calls.works_on(list) {
            self.touch_work(work.kind, exit)?;
        }
        Ok(())
    }

    fn touch_thread(&self, seat: u32, exit: &mut Exit) -> Result<(), AllocError>
        ensures has { OnOk result ((s : Space) → Before self.now s → HasThread exit.new s seat) }
        ensures grows { OnOk result ((s : Space) → Before self.now s → Grows exit.old exit.new) }
        ensures grown { OnErr result ((s : Space) → Before self.now s → gathers_thread s seat ≡ true) }
    {
        self.calls.served(seat, &mut exit.frames)?;
        self.touch_list(TodoList::OfThread(seat), exit)?;
        Ok(())
    }

    fn touch_threads(&self, seats: &[u32], exit: &mut Exit) -> Result<(), AllocError>
        ensures has { OnOk result ((s : Space) → Before self.now s → HasThreads exit.new s seats.now) }
        ensures grows { OnOk result ((s : Space) → Before self.now s → Grows exit.old exit.new) }
        ensures grown { OnErr result ((s : Space) → Before self.now s → list_any (gathers_thread s) seats.now ≡ true) }
    {
        for seat in seats {
            self.touch_thread(*seat, exit)?;
        }
        Ok(())
    }

    // Puts what an exit touches in order, and makes room for all that may follow, and for so many work items more.
    fn reserve_exit(&mut self, mut exit: Exit, works: usize) -> Result<Exit, AllocError>
        ensures stands { IsKept self.old self.new }
        ensures grows { IfOk result (Grows exit) }
        ensures deaths { IfOk result (λ x. x.deaths ≡ exit.deaths) }
        ensures in_order { IfOk result (λ x. Pairs NotLater x.objects.items) }
        ensures room { IfOk result (λ x.
            frame_count self.new.calls + (length x.objects.items + works) ≤ work_room self.new.calls) }
        ensures told { KeepsTold self.old self.new }
    {
        exit.objects = in_order(exit.objects);
        let works = exit.objects.len().checked_add(works).ok_or(AllocError)?;
        self.calls.reserve(works)?;
        Ok(exit)
    }

    /// What the end of a thread touches, with room for what follows.
    pub(crate) fn begin_thread_exit(&mut self, seat: u32) -> Result<Exit, AllocError>
        ensures stands { IsKept self.old self.new }
        ensures has { IfOk result (λ x. (s : Space) → Before self.old s → HasThread x s seat) }
        ensures in_order { IfOk result (λ x. Pairs NotLater x.objects.items) }
        ensures room { IfOk result (λ x.
            frame_count self.new.calls + length x.objects.items ≤ work_room self.new.calls) }
        ensures told { KeepsTold self.old self.new }
    {
        let mut exit = Exit::new(self.alloc);
        self.touch_thread(seat, &mut exit)?;
        self.reserve_exit(exit, 0)
    }

    /// What the end of a process touches whose threads have these seats, with room for what follows.
    pub(crate) fn begin_process_exit(&mut self, seats: &[u32], p: u64) -> Result<Exit, AllocError>
        ensures stands { IsKept self.old self.new }
        ensures has { IfOk result (λ x. (s : Space) → Before self.old s → HasProcess x s seats.now p) }
        ensures in_order { IfOk result (λ x. Pairs NotLater x.objects.items) }
        ensures deaths { IfOk result (λ x. TellsBefore self.old x.deaths.items (λ s. due_in s.objects p s.deaths)) }
        ensures room { IfOk result (λ x.
            frame_count self.new.calls + (length x.objects.items + length x.deaths.items) ≤ work_room self.new.calls) }
        ensures told { KeepsTold self.old self.new }
    {
        let mut exit = Exit::new(self.alloc);
        self.touch_threads(seats, &mut exit)?;
        self.touch_list(TodoList::OfProcess(p), &mut exit)?;
        self.objects.touched_by_end(p, &mut exit.objects)?;
        exit.deaths = self.objects.due_deaths(self.alloc, p)?;
        let works = exit.deaths.len();
        self.reserve_exit(exit, works)
    }
}
