//! The table itself: making it, room in it, what changes several of its lists at once, and which todo lists were reached.
#![tactic(auto, unfolding(crate::specs::Room::rooms, crate::specs::Told::Recalls, crate::specs::Told::HasRoomToTell, crate::specs::Told::list_room, crate::specs::Told::marked_count))]

ghost use Rattle.std.specs.Prelude.{◌≡◌, ◌+◌, ◌≤◌, ◌<◌, ◌^◌, Bool, true, length, vec_capacity, IfOk, OnOk, OnErr};
ghost use Rattle.bd_threads.specs.Room.{thread_room};
ghost use Rattle.bd_frames.specs.Room.{frame_room};
ghost use Rattle.bd_turns.specs.Room.{turn_room};
ghost use Rattle.bd_todo.specs.Stands.{work_room};

use crate::frame::{leave_frames, lose_unread, serve};
use crate::marks::Marks;
use crate::ready::ReadySeats;
use crate::turn::{hand_out_taken, remove_turns_on};
use bd_frames::FrameTable;
use bd_space::{TodoList, Work};
use bd_threads::ThreadTable;
use bd_todo::WorkTable;
use bd_turns::TurnTable;
use bd_uapi::MOST_SEATS;
use std::alloc::{AllocError, Global};

// Room is made for so many of each at once, so that most steps find it there.
const AHEAD: u32 = 32;

/// The threads, the open calls, the work items and the one-way calls of a driver.
#[derive(Drop)]
pub struct CallTable {
    pub(crate) threads: ThreadTable,
    pub(crate) frames: FrameTable,
    pub(crate) todo: WorkTable,
    pub(crate) turns: TurnTable,
    pub(crate) ready: ReadySeats,
    pub(crate) marks: Marks,
    // Each list surely has room for so many more: what comes in lowers it, and only `reserve` raises it.
    pub(crate) sure_room: usize,
    ghost threads_fit: { sure_room ≤ thread_room threads },
    ghost frames_fit: { sure_room ≤ frame_room frames },
    ghost turns_fit: { sure_room ≤ turn_room turns },
    ghost works_fit: { sure_room ≤ work_room todo },
}

impl CallTable {
    ghost use Rattle.bd_space.specs.{Space.{Space, opening}, Todo.{has_work_in}};
    ghost use Rattle.bd_space.specs.declared.space.TodoList as lists;
    ghost use Rattle.bd_space.specs.ProcessExits as exits;
    ghost use Rattle.bd_space.specs.ThreadExits as thread_exits;
    ghost use Rattle.bd_space.specs.ReadItems as reading;
    ghost use Rattle.bd_ways.specs.Tables.{Makes};
    ghost use Rattle.bd_calls.specs.Stands.{StandsFor};
    ghost use Rattle.bd_calls.specs.{Marks.{is_among, differs}, Told.{Recalls, KeepsTold, knows_all, ReachesFew, HasRoomToTell, list_room, marked_count}};
    ghost use Rattle.bd_calls.specs.Room.{UsesNothing, HasRoom, HasEach, frame_count};

    /// An empty table. Takes no memory.
    pub fn new(alloc: Global) -> CallTable
        ensures { StandsFor result opening }
    {
        CallTable {
            threads: ThreadTable::new(alloc),
            frames: FrameTable::new(alloc),
            todo: WorkTable::new(alloc),
            turns: TurnTable::new(alloc),
            ready: ReadySeats::new(alloc),
            marks: Marks::new(alloc),
            sure_room: 0,
        }
    }

    // Beside those asked for: as many as settling may make, one of a call that ripens, and eight that a step itself may make.
    fn works_to_reserve(&self, works: usize) -> Result<usize, AllocError>
        ensures sum { IfOk result (λ n. n ≡ works + frame_count self.now + 9) }
        ensures past { OnErr result (2 ^ 64 ≤ works + frame_count self.now + 9) }
    {
        works
            .checked_add(self.frames.count())
            .and_then(|n| n.checked_add(9))
            .ok_or(AllocError)
    }

    // Makes room for so many threads, frames and one-way calls each, and so many work items.
    fn reserve_each(&mut self, each: u32, works: usize) -> Result<(), AllocError>
        ensures stands { Makes (StandsFor self.old) (StandsFor self.new) (λ s. s) }
        ensures uses { UsesNothing self.old self.new }
        ensures told { KeepsTold self.old self.new }
        ensures few { ReachesFew 0 self.old self.new }
        ensures room { OnOk result (HasEach self.new each works) }
        ensures grown { OnErr result (HasEach self.old each works → ⊥) }
    {
        self.threads.reserve(each as usize)?;
        self.frames.reserve(each)?;
        self.turns.reserve(each as usize)?;
        self.todo.reserve(works)
    }

    // Whether there surely is room for so many work items, and as many of all others: else it is made for more, if they are few.
    fn reserve_ahead(&mut self, works: usize) -> bool
        ensures stands { Makes (StandsFor self.old) (StandsFor self.new) (λ s. s) }
        ensures uses { UsesNothing self.old self.new }
        ensures told { KeepsTold self.old self.new }
        ensures few { ReachesFew 0 self.old self.new }
        ensures sure { result ≡ true → works ≤ self.new.sure_room }
    {
        if works <= self.sure_room {
            return true;
        }
        if works > AHEAD as usize {
            return false;
        }
        if self.reserve_each(AHEAD, AHEAD as usize).is_err() {
            return false;
        }
        self.sure_room = AHEAD as usize;
        true
    }

    /// Makes room for a thread, a frame, a one-way call and so many work items, beside those that settling may make
    /// and the one of a call that ripens. Fails for want of memory, and then changes nothing either.
    pub fn reserve(&mut self, works: usize) -> Result<(), AllocError>
        ensures stands { Makes (StandsFor self.old) (StandsFor self.new) (λ s. s) }
        ensures uses { UsesNothing self.old self.new }
        ensures told { KeepsTold self.old self.new }
        ensures few { ReachesFew 0 self.old self.new }
        ensures room { OnOk result (HasRoom self.new works) }
        // Memory was asked for, or would have been past what there can be: there was no room.
        ensures grown { OnErr result (HasRoom self.old works → ⊥) }
    {
        let works = self.works_to_reserve(works)?;
        if self.reserve_ahead(works) {
            return Ok(());
        }
        self.reserve_each(1, works)
    }

    /// Makes room for so many todo lists in all that may be filled or emptied before that is told. Fails for want of memory,
    /// and then changes nothing.
    pub fn reserve_reached(&mut self, lists: usize) -> Result<(), AllocError>
        ensures stands { Makes (StandsFor self.old) (StandsFor self.new) (λ s. s) }
        ensures uses { UsesNothing self.old self.new }
        ensures told { KeepsTold self.old self.new }
        ensures knows { knows_all self.new ≡ knows_all self.old }
        ensures room { OnOk result (lists ≤ list_room self.new) }
        ensures few { ReachesFew 0 self.old self.new }
        // Memory was asked for: there was no room.
        ensures grown { OnErr result (list_room self.old < lists) }
    {
        self.marks.reserve(lists)
    }

    /// Lists the todo lists that were filled or emptied since this was last called. Whether these are all: else any other
    /// may have been as well, since there were more than there was room for, a notice or the work item of a death notification
    /// was withdrawn, or it wasn't called before. Fails for want of memory, and then they are told the next time.
    pub fn tell_reached(&mut self, reached: &mut Vec<TodoList>) -> Result<bool, AllocError>
        ensures stands { Makes (StandsFor self.old) (StandsFor self.new) (λ s. s) }
        ensures uses { UsesNothing self.old self.new }
        ensures whole { IfOk result (λ whole. whole ≡ knows_all self.old) }
        // Then a list is among them exactly where what was told of it isn't so.
        ensures exact { IfOk result (λ whole. whole ≡ true → (told : lists.TodoList → Bool) (s : Space)
            → Recalls self.old told → StandsFor self.old s
            → (list : lists.TodoList) → is_among reached.new.items list ≡ differs (told list) (has_work_in s.todo list)) }
        // From now on this was told.
        ensures afresh { OnOk result ((s : Space) → StandsFor self.old s
            → Recalls self.new (λ list. has_work_in s.todo list)) }
        ensures knows { OnOk result (knows_all self.new ≡ true) }
        ensures room { OnOk result (HasRoomToTell self.new (list_room self.old)) }
        ensures err { OnErr result (KeepsTold self.old self.new) }
        // Memory was asked for: there was room for fewer than may have been filled or emptied.
        ensures grown { OnErr result (vec_capacity reached.old < marked_count self.old) }
    {
        self.marks.tell(&self.todo, reached)
    }

    /// From now on what is seen of so many seats is kept, by which they are ready: a step then looks at those alone that it may
    /// have changed. Fails for want of memory, and then changes nothing.
    pub fn keep_ready(&mut self, alloc: Global, seats: u32) -> Result<(), AllocError>
        ensures stands { Makes (StandsFor self.old) (StandsFor self.new) (λ s. s) }
        ensures uses { UsesNothing self.old self.new }
        ensures told { KeepsTold self.old self.new }
        ensures few { ReachesFew 0 self.old self.new }
    {
        let seats = vec![in alloc; None; seats.min(MOST_SEATS) as usize]?;
        self.ready = ReadySeats::of(seats);
        Ok(())
    }

    /// Looks anew at the seats of which a change may have told otherwise than is kept.
    #[inline(always)]
    pub fn refresh_ready(&mut self)
        ensures stands { Makes (StandsFor self.old) (StandsFor self.new) (λ s. s) }
        ensures uses { UsesNothing self.old self.new }
        ensures told { KeepsTold self.old self.new }
        ensures few { ReachesFew 0 self.old self.new }
    {
        self.ready.refresh(&self.threads, &self.todo);
    }

    /// A seat's thread has read these work items: they go, the frames of the calls among them are served by it, and the
    /// one-way call among them is handed out.
    pub fn read_by(&mut self, seat: u32, taken: &[Work])
        ensures stands { Makes (StandsFor self.old) (StandsFor self.new) (λ s. reading.read_by s seat taken.now) }
        ensures uses { UsesNothing self.old self.new }
        ensures told { KeepsTold self.old self.new }
        ensures few { ReachesFew (length taken.now) self.old self.new }
    {
        self.marks.mark_lists_of(&self.todo, taken);
        serve(&mut self.frames, seat, taken);
        self.todo.remove_taken(taken);
        self.ready.note_lists_of(&self.todo, taken);
        hand_out_taken(&mut self.turns, taken);
    }

    /// The thread of a seat ends: it is gone from its frames, and its list goes with what that would have handed over.
    pub fn thread_goes(&mut self, seat: u32)
        ensures stands { Makes (StandsFor self.old) (StandsFor self.new) (λ s. thread_exits.thread_goes s seat) }
        ensures uses { UsesNothing self.old self.new }
        ensures told { KeepsTold self.old self.new }
        ensures few { ReachesFew 1 self.old self.new }
    {
        let list = TodoList::OfThread(seat);
        self.marks.mark(&self.todo, list);
        leave_frames(&mut self.frames, &self.todo, seat);
        remove_turns_on(&mut self.turns, &self.todo, list);
        self.todo.clear_list(list);
        self.threads.remove(seat);
        self.ready.forget_all();
    }

    /// A process without threads ends: its list goes, and the one-way calls in its window.
    pub fn end_process(&mut self, process: u64)
        ensures stands { Makes (StandsFor self.old) (StandsFor self.new) (λ s. exits.without_process s process) }
        ensures uses { UsesNothing self.old self.new }
        ensures told { KeepsTold self.old self.new }
        ensures few { ReachesFew 1 self.old self.new }
    {
        let list = TodoList::OfProcess(process);
        self.marks.mark(&self.todo, list);
        lose_unread(&mut self.frames, &self.todo, list);
        self.turns.remove_received(process);
        self.todo.clear_list(list);
        self.ready.forget_all();
    }
}
