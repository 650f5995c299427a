//! What C is told of the space that a live engine's history has come to: processes, threads, objects, buffers, open calls, death
//! notifications, and what is still to be read.
use crate::spelled::ReturnInC;
use bd_buffers::Lent;
use bd_space::{DeathNotification, Identity, Object, Phase, Process, Thread, Work, WorkKind};
use bd_uapi::Return;
use bitflags::Flags;

/// An object's identity.
#[repr(C)]
#[derive(Clone, Copy)]
pub struct IdTold {
    /// The place of the step that made it.
    pub place: u64,
    /// Which of that step's objects it is, from 0.
    pub index: u32,
}

/// A live process.
#[repr(C)]
#[derive(Clone, Copy)]
pub struct ProcessTold {
    /// The place of its Open, which is its name.
    pub made: u64,
    /// The process's pid, which no other live process has.
    pub pid: u32,
    /// The process's effective user id, as it was opened with.
    pub euid: u32,
    /// The size of the process's window, in bytes.
    pub window: u32,
    /// Whether it asked for reports of its own one-way flooding.
    pub spam_detection: bool,
}

/// The live thread of a seat.
#[repr(C)]
#[derive(Clone, Copy)]
pub struct ThreadTold {
    /// The place of its Open or Attach.
    pub made: u64,
    /// Its process, by the place of its Open.
    pub process: u64,
    /// Whether it has entered the loop.
    pub looping: bool,
}

/// An object of the space.
#[repr(C)]
#[derive(Clone, Copy)]
pub struct ObjectTold {
    /// The process that owns it, live or not.
    pub owner: u64,
    /// The pointer by which its owner knows it.
    pub ptr: u64,
    /// The cookie that its owner gave with it.
    pub cookie: u64,
    /// Whether its owner was told that it is referred to.
    pub told_weak: bool,
    /// Whether its owner was told that it is referred to strongly.
    pub told_strong: bool,
}

/// A live buffer.
#[repr(C)]
#[derive(Clone, Copy)]
pub struct BufferTold {
    /// The process whose window it lies in.
    pub receiver: u64,
    /// The process that sent it, live or not.
    pub sender: u64,
    /// Where it begins in the window, in bytes.
    pub start: u32,
    /// How many bytes of the window it takes.
    pub size: u32,
    /// The number of the method that is called, as the sender wrote it; a reply has one too.
    pub code: u32,
    /// The flags, as the sender wrote them.
    pub flags: u32,
    /// The sender's effective user id.
    pub euid: u32,
    /// Whether it is a one-way call's.
    pub one_way: bool,
    /// Whether it was handed out.
    pub handed: bool,
    /// Whether it is a transaction's, which goes to an object.
    pub is_call: bool,
    /// The object that a transaction goes to.
    pub target: IdTold,
    /// How many bytes of data the parcel in it has.
    pub bytes: usize,
    /// How many bytes of offsets the parcel in it has, eight for each object.
    pub offsets: usize,
}

/// The innermost open call of a thread.
#[repr(C)]
#[derive(Clone, Copy)]
pub struct FrameTold {
    /// The place of its transaction.
    pub made: u64,
    /// Whether the thread serves it.
    pub serves: bool,
}

/// A death notification.
#[repr(C)]
#[derive(Clone, Copy)]
pub struct DeathTold {
    /// The process that asked for it, by the place of its Open.
    pub process: u64,
    /// The object whose owner's end is to be told.
    pub object: IdTold,
    /// The cookie that the process gave with it.
    pub cookie: u64,
    /// How far it is: 0 the owner lives, 1 it has ended and this is to be read, 2 it was read, 3 it was acknowledged.
    pub phase: u32,
    /// Whether it was cleared while it was to be read or read.
    pub cleared: bool,
}

/// A work item: one thing on a todo list that is still to be read.
#[repr(C)]
#[derive(Clone, Copy)]
pub struct WorkTold {
    /// The place of the step that made it.
    pub place: u64,
    /// Which of that step's it is, from 0.
    pub index: u64,
    /// 1 a notice, 2 a completion, 3 a refusal, 4 a call, 5 a reply, 6 a verdict, 7 a death, 8 a death notification that was
    /// cleared.
    pub kind: u32,
    /// Of a notice, the object that its owner is to be told of.
    pub object: IdTold,
    /// Of a completion: the sender floods the receiver with one-way calls.
    pub spam: bool,
    /// Of a refusal or a verdict, the code of its return.
    pub code: u32,
    /// Of a call or a reply the buffer, of a death its notification.
    pub made: u64,
    /// Of a death notification that was cleared, its cookie.
    pub cookie: u64,
}

impl IdTold {
    ghost use Rattle.std.specs.Prelude.{◌≡◌};
    ghost use Rattle.bd_c.specs.SpaceTold.{id_told, no_id};

    /// What is told of an identity.
    pub(crate) fn of(id: Identity) -> IdTold
        ensures { result ≡ id_told id }
    {
        IdTold {
            place: id.place,
            index: id.index,
        }
    }

    // What is told where there is no object: both numbers are 0, and another field says that there is none.
    fn none() -> IdTold
        ensures { result ≡ no_id }
    {
        IdTold { place: 0, index: 0 }
    }
}

impl ProcessTold {
    ghost use Rattle.std.specs.Prelude.{◌≡◌};
    ghost use Rattle.bd_c.specs.SpaceTold.{process_told};

    /// What is told of a process.
    pub(crate) fn of(q: Process) -> ProcessTold
        ensures { result ≡ process_told q }
    {
        ProcessTold {
            made: q.made,
            pid: q.pid,
            euid: q.euid,
            window: q.window,
            spam_detection: q.spam_detection,
        }
    }
}

impl ThreadTold {
    ghost use Rattle.std.specs.Prelude.{◌≡◌};
    ghost use Rattle.bd_c.specs.SpaceTold.{thread_told};

    /// What is told of a thread.
    pub(crate) fn of(t: Thread) -> ThreadTold
        ensures { result ≡ thread_told t }
    {
        ThreadTold {
            made: t.made,
            process: t.process,
            looping: t.looping,
        }
    }
}

impl ObjectTold {
    ghost use Rattle.std.specs.Prelude.{◌≡◌};
    ghost use Rattle.bd_c.specs.SpaceTold.{object_told};

    /// What is told of an object.
    pub(crate) fn of(x: Object) -> ObjectTold
        ensures { result ≡ object_told x }
    {
        ObjectTold {
            owner: x.owner,
            ptr: x.ptr,
            cookie: x.cookie,
            told_weak: x.told_weak,
            told_strong: x.told_strong,
        }
    }
}

impl BufferTold {
    ghost use Rattle.std.specs.Prelude.{◌≡◌};
    ghost use Rattle.bd_c.specs.SpaceTold.{buffer_told, target_told};

    // The object that a buffer's transaction goes to; of a reply none.
    fn target(target: Option<Identity>) -> IdTold
        ensures { result ≡ target_told target }
    {
        match target {
            Some(id) => IdTold::of(id),
            None => IdTold::none(),
        }
    }

    /// What is told of a buffer.
    pub(crate) fn of(b: &Lent<'_>) -> BufferTold
        ensures { result ≡ buffer_told b.now }
    {
        let target = b.target();
        BufferTold {
            receiver: b.receiver(),
            sender: b.sender(),
            start: b.start(),
            size: b.size(),
            code: b.code(),
            flags: b.flags().bits(),
            euid: b.euid(),
            one_way: b.is_one_way(),
            handed: b.is_handed(),
            is_call: target.is_some(),
            target: BufferTold::target(target),
            bytes: b.bytes().len(),
            offsets: b.offsets().len(),
        }
    }
}

impl DeathTold {
    ghost use Rattle.std.specs.Prelude.{◌≡◌};
    ghost use Rattle.bd_c.specs.SpaceTold.{death_told, phase_number};

    fn phase(phase: Phase) -> u32
        ensures { result ≡ phase_number phase }
    {
        match phase {
            Phase::Armed => 0,
            Phase::Queued => 1,
            Phase::Told => 2,
            Phase::Done => 3,
        }
    }

    /// What is told of a death notification.
    pub(crate) fn of(d: DeathNotification) -> DeathTold
        ensures { result ≡ death_told d }
    {
        DeathTold {
            process: d.process,
            object: IdTold::of(d.object),
            cookie: d.cookie,
            phase: DeathTold::phase(d.phase),
            cleared: d.cleared,
        }
    }
}

impl WorkTold {
    ghost use Rattle.std.specs.Prelude.{◌≡◌};
    ghost use Rattle.bd_codec.specs.Spelling.{return_code};
    ghost use Rattle.bd_c.specs.SpaceTold.{work_told, bare_work};

    fn code(returned: &Return) -> u32
        ensures { result ≡ return_code returned.now }
    {
        ReturnInC::of(returned, 0).code
    }

    // A work item of this kind and with its identity, and nothing else yet.
    fn bare(work: &Work, kind: u32) -> WorkTold
        ensures { result ≡ bare_work work.now kind }
    {
        WorkTold {
            place: work.id.place,
            index: work.id.index,
            kind,
            object: IdTold::none(),
            spam: false,
            code: 0,
            made: 0,
            cookie: 0,
        }
    }

    /// What is told of what is still to be read.
    pub(crate) fn of(work: &Work) -> WorkTold
        ensures { result ≡ work_told work.now }
    {
        match work.kind {
            WorkKind::Notice(object) => WorkTold {
                object: IdTold::of(object),
                ..WorkTold::bare(work, 1)
            },
            WorkKind::Complete { spam } => WorkTold {
                spam,
                ..WorkTold::bare(work, 2)
            },
            WorkKind::Refusal(returned) => WorkTold {
                code: WorkTold::code(&returned),
                ..WorkTold::bare(work, 3)
            },
            WorkKind::Call(made) => WorkTold {
                made,
                ..WorkTold::bare(work, 4)
            },
            WorkKind::Reply(made) => WorkTold {
                made,
                ..WorkTold::bare(work, 5)
            },
            WorkKind::Verdict(returned) => WorkTold {
                code: WorkTold::code(&returned),
                ..WorkTold::bare(work, 6)
            },
            WorkKind::Death(made) => WorkTold {
                made,
                ..WorkTold::bare(work, 7)
            },
            WorkKind::Cleared(cookie) => WorkTold {
                cookie,
                ..WorkTold::bare(work, 8)
            },
        }
    }
}
