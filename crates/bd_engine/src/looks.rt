//! What the space holds after a history.

ghost use Rattle.std.specs.Prelude.{◌≡◌, Some, find};
ghost use Rattle.bd_space.specs.Histories as histories;
ghost use Rattle.bd_space.specs.{Histories.{space_after}, Seats.{process_in, thread_in}, References.{object_in}};
ghost use Rattle.bd_space.specs.Names as names;
ghost use Rattle.bd_space.specs.{Todo.{work_on}, Deaths.{is_notification}, Returns.{buffer_in}};
ghost use Rattle.bd_engine.specs.Looks as looks;

use crate::engine::Engine;
use crate::live::Live;
use crate::tables::HasTables;
use crate::wide::WideEngine;
use bd_buffers::Lent;
use bd_calls::serves;
use bd_objects::CarriedObjects;
use bd_space::{DeathNotification, Identity, Object, Process, Thread, TodoList};
use bd_todo::Works;

/// Looks at the space after a history. What a look answers is so of the history that an engine has, and of each that a live
/// engine follows. None takes memory.
pub trait Looks: HasTables {
    /// Whether a seat is ready: it has something to read.
    final fn is_ready(&self, seat: u32) -> bool
        ensures { Self.says self.now (λ h. result ≡ histories.is_ready (space_after h) seat) }
    {
        self.tables().calls.is_ready(seat)
    }

    /// The live process that was opened there: its pid, euid and window, and whether it asked for reports of its own
    /// one-way flooding.
    final fn process(&self, made: u64) -> Option<Process>
        ensures { Self.says self.now (λ h. result ≡ process_in (space_after h).processes made) }
    {
        self.tables().process(made)
    }

    /// The live process with this pid, by the place of its Open.
    final fn process_of_pid(&self, pid: u32) -> Option<u64>
        ensures { Self.says self.now (λ h. result ≡ looks.process_of_pid (space_after h) pid) }
    {
        match self.tables().processes.with_pid(pid) {
            Some(q) => Some(q.made),
            None => None,
        }
    }

    /// The first live process that was opened at this place or behind it, by the place of its Open. From 0 on, and each time from one more
    /// than was told, all are told.
    final fn next_process(&self, from: u64) -> Option<u64>
        ensures { Self.says self.now (λ h. result ≡ looks.next_process (space_after h) from) }
    {
        match self.tables().processes.next_from(from) {
            Some(q) => Some(q.made),
            None => None,
        }
    }

    /// The live thread of a seat: its process, and whether it is in the loop (looper).
    final fn thread(&self, seat: u32) -> Option<Thread>
        ensures { Self.says self.now (λ h. result ≡ thread_in (space_after h).threads seat) }
    {
        self.tables().calls.thread(seat)
    }

    /// The process of the live thread of a seat, by the place of its Open.
    final fn process_of(&self, seat: u32) -> Option<u64>
        ensures { Self.says self.now (λ h. result ≡ looks.process_of (space_after h) seat) }
    {
        match self.thread(seat) {
            Some(t) => Some(t.process),
            None => None,
        }
    }

    /// The context manager's object.
    final fn manager(&self) -> Option<Identity>
        ensures { Self.says self.now (λ h. result ≡ (space_after h).manager) }
    {
        self.tables().manager
    }

    /// An object of the space: its owner, ptr and cookie, and what its owner was told.
    final fn object(&self, o: Identity) -> Option<Object>
        ensures { Self.says self.now (λ h. result ≡ object_in (space_after h).objects o) }
    {
        self.tables().objects.object(o)
    }

    /// The process that owns an object of the space, by the place of its Open.
    final fn owner(&self, o: Identity) -> Option<u64>
        ensures { Self.says self.now (λ h. result ≡ looks.owner_of (space_after h) o) }
    {
        match self.object(o) {
            Some(x) => Some(x.owner),
            None => None,
        }
    }

    /// What the number (handle) names for the live process with this pid.
    final fn named(&self, pid: u32, number: u32) -> Option<Identity>
        ensures { Self.says self.now (λ h. result ≡ looks.named_by (space_after h) pid number) }
    {
        let tables = self.tables();
        match tables.processes.with_pid(pid) {
            Some(q) => tables.objects.named(q.made, number),
            None => None,
        }
    }

    /// The least number (handle) from this one on that names something for the live process with this pid.
    final fn next_handle(&self, pid: u32, from: u32) -> Option<u32>
        ensures { Self.says self.now (λ h. looks.IsNextHandle (space_after h) pid from result) }
    {
        let tables = self.tables();
        match tables.processes.with_pid(pid) {
            Some(q) => tables.objects.next_number(q.made, from),
            None => None,
        }
    }

    /// The object that a number (handle) of a process, told by the place of its Open, names strongly.
    final fn strongly_named(&self, process: u64, number: u32) -> Option<Identity>
        ensures { Self.says self.now (λ h. result ≡ names.strongly_named (space_after h) process number) }
    {
        self.tables().objects.strongly_named(process, number)
    }

    /// Whether a process, told by the place of its Open, has a name (handle) for the object.
    final fn knows(&self, process: u64, o: Identity) -> bool
        ensures { Self.says self.now (λ h. result ≡ looks.knows (space_after h) process o) }
    {
        self.tables().objects.number_of(process, o).is_some()
    }

    /// Whether a process, told by the place of its Open, has a reference of this strength to what its number (handle)
    /// names because it asked for one.
    final fn has_asked(&self, process: u64, number: u32, strong: bool) -> bool
        ensures { Self.says self.now (λ h. result ≡ looks.has_asked (space_after h) process number strong) }
    {
        self.tables()
            .objects
            .drop_check(process, number, strong)
            .is_ok()
    }

    /// The live buffer made there.
    final fn buffer(&self, made: u64) -> Option<Lent<'_>>
        ensures { Self.says self.now (λ h. result ≡ buffer_in (space_after h).buffers made) }
    {
        self.tables().windows.buffer(made)
    }

    /// The first live buffer of a process, told by the place of its Open, that was made at this place or behind it: where it was made.
    final fn next_buffer(&self, process: u64, from: u64) -> Option<u64>
        ensures { Self.says self.now (λ h. result ≡ looks.next_buffer (space_after h) process from) }
    {
        self.tables().windows.next_from(process, from)
    }

    /// The objects that the live buffer made there carries, one for each object of its parcel, in their order.
    final fn carried(&self, made: u64) -> CarriedObjects<'_>
        ensures { Self.says self.now (λ h. result ≡ looks.carried (space_after h) made) }
    {
        self.tables().objects.carried(made)
    }

    /// Where the innermost frame of a seat's thread was made, and whether the thread serves it.
    final fn innermost(&self, seat: u32) -> Option<(u64, bool)>
        ensures { Self.says self.now (λ h. result ≡ looks.innermost_of (space_after h) seat) }
    {
        match self.tables().calls.innermost(seat) {
            Some(f) => Some((f.made, serves(seat, f.server))),
            None => None,
        }
    }

    /// Where the first reply on the own list of a seat's thread was made.
    final fn first_reply(&self, seat: u32) -> Option<u64>
        ensures { Self.says self.now (λ h. result ≡ looks.first_reply (space_after h) seat) }
    {
        self.tables().calls.first_reply(TodoList::OfThread(seat))
    }

    /// The unread work items on the list of a thread or of a process, oldest first.
    final fn unread(&self, list: TodoList) -> Works<'_>
        ensures { Self.says self.now (λ h. result ≡ work_on (space_after h).todo (Some list)) }
    {
        self.tables().calls.works_on(list)
    }

    /// The death notification that was asked for there: of which process, on which object, and how far it is.
    final fn death(&self, made: u64) -> Option<DeathNotification>
        ensures { Self.says self.now (λ h. result ≡ find (is_notification made) (space_after h).deaths) }
    {
        self.tables().objects.death(made)
    }
}

impl Looks for Engine {}

impl Looks for Live {}

impl Looks for WideEngine {}
