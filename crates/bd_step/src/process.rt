//! Processes: how they are found, open and end.

ghost use Rattle.std.specs.Prelude.{◌≡◌, ◌==◌, [], true, filter, IfSome, OnOk, ◌≤◌, IfOk, None, ◌+◌, length, map, fold};
ghost use Rattle.bd_space.specs.Seats as seats;
ghost use Rattle.bd_space.specs.Space.{Space};
ghost use Rattle.bd_space.specs.Steps as steps;
ghost use Rattle.bd_space.specs.ProcessExits as exits;
ghost use Rattle.bd_space.specs.ThreadExits as thread_exits;
ghost use Rattle.bd_ways.specs.LocalExits.{seats_in};
ghost use Rattle.bd_laws.specs.{Lists.{Pairs}, Objects.{NotLater}};
ghost use Rattle.bd_processes.specs.Room.{process_room};
ghost use Rattle.bd_deaths.specs.Due.{due_in};
ghost use Rattle.bd_calls.specs.Room.{thread_room, work_room, frame_count};
ghost use Rattle.bd_buffers.specs.WindowsStand.{Stands, window_room};
ghost use Rattle.bd_step.specs.Stands.{Tells, Before, Within, TellsBefore, Uses, MakesWithin, UsesNothing, KeepsTold};
ghost use Rattle.bd_step.specs.{Exits.{HasProcess}, Meets.{IsAny, IsBy, IsKept, IsStep}};

use crate::answer::Plain;
use crate::exit::Exit;
use crate::step_error::StepError;
use crate::tables::{NOTHING, Tables};
use bd_buffers::Window;
use bd_space::{Actor, DeathNotification, Process};
use bd_uapi::Fault;
use std::alloc::AllocError;

fn is_pid(pid: u32) -> bool
    ensures { result ≡ steps.is_pid pid }
{
    1 <= pid && pid <= 2147483647
}

fn is_window(window: u32) -> bool
    ensures { result ≡ steps.is_window window }
{
    window % 4096 == 0 && 4096 <= window && window <= 4194304
}

impl Tables {
    /// The live process with this identity.
    pub fn process(&self, made: u64) -> Option<Process>
        ensures found { Tells self.now result (λ s. seats.process_in s.processes made) }
        ensures pid { IfSome result (λ q. steps.is_pid q.pid ≡ true) }
    {
        self.processes.made_at(made)
    }

    /// The live process with this pid.
    pub(crate) fn process_with_pid(&self, pid: u32) -> Option<Process>
        ensures { Tells self.now result (λ s. seats.process_with_pid s.processes pid) }
    {
        self.processes.with_pid(pid)
    }

    fn open_fault(&self, seat: u32, pid: u32, window: u32) -> Option<Fault>
        ensures fault { TellsBefore self.now result (λ s. steps.open_fault s seat pid window) }
        ensures window { result ≡ None → steps.is_window window ≡ true }
        ensures pid { result ≡ None → steps.is_pid pid ≡ true }
    {
        if !is_pid(pid) {
            return Some(Fault::PidRange);
        }
        if !is_window(window) {
            return Some(Fault::WindowSize);
        }
        if self.calls.thread(seat).is_some() {
            return Some(Fault::HasProcess);
        }
        if self.process_with_pid(pid).is_some() {
            return Some(Fault::PidTaken);
        }
        None
    }

    // A process comes in, with its window. Of a space where none has its pid.
    fn with_process(&mut self, pid: u32, euid: u32, size: u32, window: Window)
        requires processes { 1 ≤ process_room self.old.processes }
        requires windows { 1 ≤ window_room self.old.windows }
        requires pid { steps.is_pid pid ≡ true }
        ensures stands { (s : Space) → Before self.old s → seats.process_with_pid s.processes pid ≡ None
            → Stands window size [] → Within self.new (steps.with_process s pid euid size) }
        ensures threads { thread_room self.new.calls ≡ thread_room self.old.calls }
        ensures told { KeepsTold self.old self.new }
    {
        self.processes.push(Process {
            made: self.steps,
            pid,
            euid,
            window: size,
            spam_detection: false,
        });
        self.windows.open(self.steps, window);
    }

    // Makes room for a process and its thread.
    fn reserve_process(&mut self, size: u32) -> Result<Window, AllocError>
        requires { steps.is_window size ≡ true }
        ensures stands { IsKept self.old self.new }
        ensures window { IfOk result (λ w. Stands w size []) }
        ensures processes { OnOk result (1 ≤ process_room self.new.processes) }
        ensures windows { OnOk result (1 ≤ window_room self.new.windows) }
        ensures threads { OnOk result (1 ≤ thread_room self.new.calls) }
        ensures told { KeepsTold self.old self.new }
    {
        self.reserve(NOTHING, 0)?;
        self.processes.reserve()?;
        self.windows.reserve()?;
        Window::new(self.alloc, size)
    }

    /// The step that opens a process with one thread.
    pub(crate) fn open(
        &mut self,
        seat: u32,
        pid: u32,
        euid: u32,
        size: u32,
    ) -> Result<Plain, StepError>
        ensures step { IsStep self.old self.new IsAny (λ s. steps.open_step s seat pid euid size) result }
        ensures told { KeepsTold self.old self.new }
    {
        if let Some(fault) = self.open_fault(seat, pid, size) {
            return Ok(Plain::Refused(fault));
        }
        let Ok(window) = self.reserve_process(size) else {
            return Err(StepError::NoMemory);
        };
        self.with_process(pid, euid, size, window);
        self.add_thread(seat, self.steps);
        Ok(Plain::Opened)
    }

    // The threads of these seats end, one after the other.
    fn threads_go(&mut self, seats: &[u32])
        ensures stands { MakesWithin self.old self.new (λ s. fold thread_exits.thread_goes s seats.now) }
        ensures uses { UsesNothing self.old self.new }
        ensures told { KeepsTold self.old self.new }
    {
        for seat in seats {
            self.thread_goes(*seat);
        }
    }

    // All goes that is the process's.
    fn without_process(&mut self, p: u64)
        ensures stands { MakesWithin self.old self.new (λ s. exits.without_process s p) }
        ensures uses { UsesNothing self.old self.new }
        ensures told { KeepsTold self.old self.new }
    {
        self.manager = self.objects.manager_without(self.manager, p);
        self.objects.without_process(p);
        self.calls.end_process(p);
        self.windows.close(p);
        self.processes.remove(p);
    }

    // The seats of a process's threads, and what its end touches, with room for what follows.
    fn begin_exit(&mut self, p: u64) -> Result<(Vec<u32>, Exit), AllocError>
        ensures stands { IsKept self.old self.new }
        ensures seats { IfOk result (λ x. TellsBefore self.old x.0.items (λ s. seats_in s p)) }
        ensures has { IfOk result (λ x. (s : Space) → Before self.old s → HasProcess x.1 s (seats_in s p) p) }
        ensures in_order { IfOk result (λ x. Pairs NotLater x.1.objects.items) }
        ensures deaths { IfOk result (λ x. TellsBefore self.old x.1.deaths.items (λ s. due_in s.objects p s.deaths)) }
        ensures room { IfOk result (λ x. frame_count self.new.calls
            + (length x.1.objects.items + length x.1.deaths.items) ≤ work_room self.new.calls) }
        ensures told { KeepsTold self.old self.new }
    {
        let seats = self.calls.seats_of(self.alloc, p)?;
        let exit = self.begin_process_exit(seats.as_slice(), p)?;
        Ok((seats, exit))
    }

    // A process ends, with its threads, and that is told by these notifications.
    fn end_process(&mut self, seats: &[u32], due: &[DeathNotification], p: u64)
        requires { length due.now ≤ work_room self.old.calls }
        ensures stands { (s : Space) → Within self.old s
            → seats.now ≡ map exits.seat_of (filter (λ t. t.process == p) s.threads)
            → due.now ≡ due_in s.objects p s.deaths
            → Within self.new (exits.tell_deaths (exits.without_process (exits.threads_go s p) p) p) }
        ensures uses { Uses self.old self.new 0 0 (length due.now) }
        ensures told { KeepsTold self.old self.new }
    {
        self.threads_go(seats);
        self.without_process(p);
        self.tell_deaths(due, p);
    }

    /// The step that ends a process with all its threads. What it touches is gathered before anything changes.
    pub(crate) fn exit_process(&mut self, actor: Actor) -> Result<Plain, StepError>
        ensures step { IsStep self.old self.new (IsBy actor) (λ s. exits.exit_process_step s actor) result }
        ensures told { KeepsTold self.old self.new }
    {
        let p = actor.process.made;
        let Ok((seats, exit)) = self.begin_exit(p) else {
            return Err(StepError::NoMemory);
        };
        self.end_process(seats.as_slice(), exit.deaths(), p);
        self.follow_objects(exit.objects());
        let mut frames = exit.into_frames();
        self.close_among(frames.as_mut_slice());
        Ok(Plain::Exited)
    }
}
