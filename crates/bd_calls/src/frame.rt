//! Frames: open two-way calls. A thread's innermost frame is its newest, as its frames are a stack.
#![tactic(auto, unfolding(bd_space::specs::Frames::innermost, bd_space::specs::Frames::served_innermost, bd_space::specs::Frames::goes_to, bd_space::specs::Frames::closed, bd_space::specs::Transactions::call_out, bd_space::specs::Todo::owe, crate::specs::Room::rooms, crate::specs::Told::Recalls, crate::specs::Told::HasRoomToTell))]

ghost use Rattle.std.specs.Prelude.{ℕ, List, ◌≡◌, ◌==◌, ◌+◌, ◌-◌, ◌≤◌, ◌++◌, map, filter, find, reverse, length, Option, Some, None, option_map, OnOk, OnErr, vec_len, vec_capacity, ◌<◌};
ghost use Rattle.std.specs.List.{cons_option, list_any};
ghost use Rattle.bd_space.specs.declared.space.Work as declared;
ghost use Rattle.bd_space.specs.Words.{changed};
ghost use Rattle.bd_space.specs.Frames as spec;
ghost use Rattle.bd_ways.specs.Local as local;
ghost use Rattle.bd_space.specs.ThreadExits as exits;
ghost use Rattle.bd_space.specs.ReadItems as reading;
ghost use Rattle.bd_space.specs.Todo as works;
ghost use Rattle.bd_todo.specs.Stands as todo_table;
ghost use Rattle.bd_frames.specs.Stands as frame_table;
ghost use Rattle.bd_frames.specs.Room as frame_rooms;
ghost use Rattle.bd_frames.specs.Words.{newest_in, is_place_among};
ghost use Rattle.bd_threads.specs.Listed.{listed};

use crate::table::CallTable;
use bd_frames::{FrameTable, serves};
use bd_space::{Frame, Server, TodoList, Work, WorkKind};
use bd_threads::ThreadTable;
use bd_todo::{WorkTable, Works};
use bd_uapi::Return;
use std::alloc::AllocError;

// The frame's caller is a thread of the process.
fn waits(threads: &ThreadTable, process: u64, frame: &Frame) -> bool
    ensures { result ≡ spec.waits_in (listed threads.now) process frame.now }
{
    frame
        .caller
        .and_then(|seat| threads.thread(seat))
        .is_some_and(|thread| thread.process == process)
}

fn newest_made(frames: &FrameTable, seat: u32) -> Option<u64>
    ensures { frame_table.Tells frames.now result (λ l. option_map spec.made_of (newest_in l seat)) }
{
    frames.newest_of(seat).map(|f| f.made)
}

// Where a call to the process is read whose caller's innermost frame was made there: by the first thread of the process that
// waits on the way from that frame by parents, else by the process.
fn list_from(
    threads: &ThreadTable,
    frames: &FrameTable,
    from: Option<u64>,
    process: u64,
) -> TodoList
    ensures { frame_table.Tells frames.now result (λ l. spec.list_of_caller process
        (find (spec.waits_in (listed threads.now) process) (spec.ancestry from (reverse l)))) }
{
    let first = frames.first_on_way(from, |f| waits(threads, process, &f));
    match first.and_then(|f| f.caller) {
        Some(seat) => TodoList::OfThread(seat),
        None => TodoList::OfProcess(process),
    }
}

/// Whoever read the call of a frame is its server.
pub(crate) fn serve(frames: &mut FrameTable, seat: u32, taken: &[Work])
    ensures frames { frame_table.Makes frames.old frames.new
        (λ l. changed (λ f. list_any (λ w. works.is_call f.made w.kind) taken.now) (reading.serve seat) l) }
    ensures uses { frame_rooms.Uses frames.old frames.new 0 }
{
    for work in taken {
        if let WorkKind::Call(made) = work.kind {
            frames.serve(made, seat);
        }
    }
}

/// The calls that stand unread on the list have lost their server.
pub(crate) fn lose_unread(frames: &mut FrameTable, todo: &WorkTable, list: TodoList)
    ensures frames { (items : List declared.Work) → todo_table.WorksAre todo.now items
        → frame_table.Makes frames.old frames.new (λ l. map (exits.unread_frame items list) l) }
    ensures uses { frame_rooms.Uses frames.old frames.new 0 }
{
    for work in todo.works_on(list) {
        if let WorkKind::Call(made) = work.kind {
            frames.lose(made);
        }
    }
}

/// The thread is gone from its frames, and the calls on its list have lost their server.
pub(crate) fn leave_frames(frames: &mut FrameTable, todo: &WorkTable, seat: u32)
    ensures frames { (items : List declared.Work) → todo_table.WorksAre todo.now items
        → frame_table.Makes frames.old frames.new (λ l. map (exits.frame_without items seat) l) }
    ensures uses { frame_rooms.Uses frames.old frames.new 0 }
{
    lose_unread(frames, todo, TodoList::OfThread(seat));
    frames.leave(seat);
}

impl CallTable {
    ghost use Rattle.bd_space.specs.{Space.{Space}, Transactions.{call_out}};
    ghost use Rattle.bd_ways.specs.Tables.{Tells, Makes, MakesAt};
    ghost use Rattle.bd_calls.specs.{Stands.{StandsFor}, Stacked.{TellsOfStacked, MakesOfStackedAt}, Closing.{IsClosing}};
    ghost use Rattle.bd_calls.specs.{Told.{KeepsTold, ReachesFew}, Room.{Uses, UsesNothing, nothing, frame_room, work_room, frame_count}};

    /// The frame of the call made at this place.
    pub fn frame(&self, made: u64) -> Option<Frame>
        ensures { Tells (StandsFor self.now) result (λ s. find (spec.is_frame made) s.frames) }
    {
        self.frames.frame(made)
    }

    /// The innermost frame of a thread: of those that it called or serves, the newest.
    pub fn innermost(&self, seat: u32) -> Option<Frame>
        ensures { TellsOfStacked self.now result (λ s. spec.innermost s seat) }
    {
        self.frames.newest_of(seat)
    }

    /// A thread's innermost frame, if the thread serves it.
    pub fn served_innermost(&self, seat: u32) -> Option<Frame>
        ensures { TellsOfStacked self.now result (λ s. spec.served_innermost s seat) }
    {
        self.frames
            .newest_of(seat)
            .filter(|f| serves(seat, f.server))
    }

    /// A thread calls a process, and waits: a frame comes in, and the call is due at once, both made at this place. There is
    /// room for both, each thread's frames are a stack, and all frames were made before.
    pub fn call_out(&mut self, place: u64, seat: u32, process: u64)
        requires frames { 1 ≤ frame_room self.old }
        requires works { 1 ≤ work_room self.old }
        ensures stands { MakesOfStackedAt place self.old self.new (λ s. call_out s seat process) }
        ensures uses { Uses self.old self.new (record nothing { frames = 1; works = 1 }) }
        ensures told { KeepsTold self.old self.new }
        ensures few { ReachesFew 1 self.old self.new }
    {
        let parent = newest_made(&self.frames, seat);
        let list = list_from(&self.threads, &self.frames, parent, process);
        // What this takes of the sure room is for the frame too.
        self.owe(place, list, WorkKind::Call(place));
        self.frames.push(Frame {
            made: place,
            caller: Some(seat),
            server: Server::Pending,
            parent,
        });
    }

    /// A call's frame closes.
    pub fn close(&mut self, made: u64)
        ensures stands { Makes (StandsFor self.old) (StandsFor self.new) (λ s. spec.closed s made) }
        ensures uses { UsesNothing self.old self.new }
        ensures told { KeepsTold self.old self.new }
        ensures few { ReachesFew 0 self.old self.new }
    {
        self.frames.close(made);
    }

    // The call made there closes if it is abandoned, then the one in which it was made, and so on while one closes, so many
    // at most; each caller that lives is told. How many more may close.
    #[tactic(auto)]
    fn close_up_within(&mut self, place: u64, made: Option<u64>, most: usize) -> usize
        requires { most ≤ work_room self.old }
        ensures closing { (due : List ℕ) (whole : Space) → IsClosing self.old place most (cons_option made due) whole
            → IsClosing self.new place result due whole }
        ensures left { result ≤ most }
        ensures uses { Uses self.old self.new (record nothing { works = most - result }) }
        ensures told { KeepsTold self.old self.new }
        ensures few { ReachesFew (most - result) self.old self.new }
    {
        let mut next = made;
        for closed in 0..most {
            let Some(made) = next else {
                return most - closed;
            };
            let Some(frame) = self.frames.abandoned_at(made) else {
                return most - closed;
            };
            self.close(frame.made);
            self.tell_caller(place, frame, WorkKind::Verdict(Return::DeadReply));
            next = frame.parent;
        }
        0
    }

    /// The call made there closes if it is abandoned, then the one in which it was made, and so on while one closes;
    /// each caller that lives is told, by a work item made at this place.
    #[tactic(auto, unfolding(crate::specs::Room::rooms))]
    pub fn close_up(&mut self, place: u64, made: Option<u64>)
        requires { frame_count self.old ≤ work_room self.old }
        ensures stands { MakesAt place (StandsFor self.old) (StandsFor self.new)
            (λ s. local.close_up (length s.frames) made s) }
        ensures uses { Uses self.old self.new (record nothing { works = frame_count self.old }) }
        ensures told { KeepsTold self.old self.new }
        ensures few { ReachesFew (frame_count self.old) self.old self.new }
    {
        let count = self.frames.count();
        let _ = self.close_up_within(place, made, count);
    }

    /// Of the chosen calls those close that are abandoned, oldest first, until there are none left; where one closes, the
    /// one in which it was made is chosen for it. Each caller that lives is told, by a work item made at this place.
    #[tactic(auto)]
    pub fn close_among(&mut self, place: u64, chosen: &mut [u64])
        requires { frame_count self.old ≤ work_room self.old }
        ensures stands { MakesAt place (StandsFor self.old) (StandsFor self.new)
            (λ s. local.close_among (length s.frames) (is_place_among chosen.old) s) }
        ensures uses { Uses self.old self.new (record nothing { works = frame_count self.old }) }
        ensures told { KeepsTold self.old self.new }
        ensures few { ReachesFew (frame_count self.old) self.old self.new }
    {
        // A parent is older than its child, so what is chosen for one comes before all that are chosen after it.
        chosen.sort_unstable();
        let mut left = self.frames.count();
        for made in chosen.iter() {
            left = self.close_up_within(place, Some(*made), left);
        }
    }

    /// Where the calls were made that the thread of a seat serves, put after what is there. Fails for want of memory alone.
    pub fn served(&self, seat: u32, served: &mut Vec<u64>) -> Result<(), AllocError>
        ensures served { OnOk result (Tells (StandsFor self.now) served.new.items
            (λ s. served.old.items ++ map spec.made_of (filter (λ f. spec.serves seat f.server) s.frames))) }
        // Memory was asked for: there was no room for all of them.
        ensures grown { OnErr result ((s : Space) → StandsFor self.now s
            → vec_capacity served.old < vec_len served.old + length (filter (λ f. spec.serves seat f.server) s.frames)) }
    {
        self.frames.served(seat, served)
    }
}
