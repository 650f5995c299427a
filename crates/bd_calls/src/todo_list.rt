//! Todo lists: which work items are still to be read, and by whom.
#![tactic(auto, unfolding(bd_space::specs::Todo::owe, bd_space::specs::Todo::has_unread, bd_space::specs::Todo::list_to_read, crate::specs::Room::rooms, crate::specs::Told::Recalls, crate::specs::Told::HasRoomToTell))]

ghost use Rattle.std.specs.Prelude.{ℕ, Bool, List, ◌≡◌, ◌==◌, ◌&&◌, ◌-◌, ◌^◌, ◌<◌, ◌≤◌, not, filter, Option, Some, None};
ghost use Rattle.std.specs.Option.{is_none};
ghost use Rattle.bd_keys.specs.Tables.{AnswersBy};
ghost use Rattle.bd_uapi.specs.Limits.{most_seats};
ghost use Rattle.bd_space.specs.{declared.space.WorkKind.{WorkKind}, Frames.{innermost_in}, Words.{is_some_and}};
ghost use Rattle.bd_space.specs.Todo as spec;
ghost use Rattle.bd_space.specs.Notices as notices;
ghost use Rattle.bd_frames.specs.Stands as frame_table;
ghost use Rattle.bd_todo.specs.TodoList as replies;

use crate::bits::{is_within, low, lowest, with_bit, without};
use crate::seen::{Seen, look_at};
use crate::table::CallTable;
use bd_frames::FrameTable;
use bd_space::{Frame, Identity, Thread, TodoList, Work, WorkKind};
use bd_todo::{WorkTable, Works};

// The thread has entered the loop and is in no call.
pub(crate) fn is_idle(frames: &FrameTable, thread: &Thread) -> bool
    ensures { frame_table.Tells frames.now result
        (λ l. thread.now.looping && is_none (innermost_in l thread.now.seat)) }
{
    // Where no call is open nobody has to be looked up.
    thread.looping && (frames.count() == 0 || !frames.is_in_call(thread.seat))
}

impl CallTable {
    ghost use Rattle.bd_space.specs.{declared.space.Object.{Object}, Space.{Space}, Histories.{is_ready, ready_below}};
    ghost use Rattle.bd_ways.specs.Tables.{Tells, Makes, MakesAt};
    ghost use Rattle.bd_calls.specs.{Ready.{IsSeen}, Stands.{StandsFor}};
    ghost use Rattle.bd_calls.specs.{Told.{KeepsTold, ReachesFew}, Room.{Uses, UsesNothing, nothing, work_room}};

    /// Whether an unread call, reply or verdict on a thread's own list keeps it from calling.
    pub fn has_unread(&self, seat: u32) -> bool
        ensures { Tells (StandsFor self.now) result (λ s. spec.has_unread s seat) }
    {
        self.todo.keeps_from_calling(TodoList::OfThread(seat))
    }

    /// Which list a thread reads: its own if anything is on it, else its process's if it is in no call and has entered
    /// the loop.
    pub fn reads(&self, thread: &Thread) -> Option<TodoList>
        ensures { Tells (StandsFor self.now) result (λ s. spec.reads_in s.frames s.todo thread.now) }
    {
        let own = TodoList::OfThread(thread.seat);
        if self.todo.has_any(own) {
            Some(own)
        } else if is_idle(&self.frames, thread) {
            Some(TodoList::OfProcess(thread.process))
        } else {
            None
        }
    }

    /// The work items on a list, oldest first.
    pub fn works_on(&self, list: TodoList) -> Works<'_>
        ensures { Tells (StandsFor self.now) result (λ s. spec.work_on s.todo (Some list)) }
    {
        self.todo.works_on(list)
    }

    /// Where the first reply on a list was made.
    pub fn first_reply(&self, list: TodoList) -> Option<u64>
        ensures { Tells (StandsFor self.now) result (λ s. replies.first_reply_in (spec.work_on s.todo (Some list))) }
    {
        self.todo.first_reply(list)
    }

    // Whether the thread of a seat of which this was seen has anything to read. Lent, since it is asked of each marked seat after
    // each step.
    #[inline(always)]
    fn reads_any(&self, seen: &Seen) -> bool
        ensures { (s : Space) (seat : ℕ) → StandsFor self.now s → IsSeen s.threads (spec.has_work_in s.todo) seat seen.now
            → result ≡ is_ready s seat }
    {
        match &seen.thread {
            Some(thread) => seen.own || (seen.shared && is_idle(&self.frames, thread)),
            None => false,
        }
    }

    /// Whether a seat's thread has anything to read.
    #[inline(always)]
    pub fn is_ready(&self, seat: u32) -> bool
        ensures { Tells (StandsFor self.now) result (λ s. is_ready s seat) }
    {
        match self.ready.seats.get(seat as usize) {
            Some(Some(seen)) => self.reads_any(seen),
            _ => self.reads_any(&look_at(&self.threads, &self.todo, seat)),
        }
    }

    // The ready seats below this one: each that is marked is asked.
    #[inline(never)]
    fn ask_marked(&self, seats: u32) -> u32
        requires { seats ≤ most_seats }
        ensures ready { Tells (StandsFor self.now) result (λ s. ready_below s seats) }
        ensures bits { result < 2 ^ most_seats }
    {
        let mut ready = 0;
        let mut rest = low(self.ready.marked, seats);
        'marked: while rest != 0 {
            let seat = lowest(rest);
            rest = without(rest, seat);
            ready = with_bit(ready, seat, self.is_ready(seat));
        }
        ready
    }

    /// The ready seats below this one, bit i for seat i.
    #[inline(always)]
    pub fn ready_below(&self, seats: u32) -> u32
        requires { seats ≤ most_seats }
        ensures ready { Tells (StandsFor self.now) result (λ s. ready_below s seats) }
        ensures bits { result < 2 ^ most_seats }
    {
        let marked = low(self.ready.marked, seats);
        // A marked seat of which something is kept is ready unless it is in a call, and nobody is in one where none is open.
        if self.frames.count() == 0 && is_within(marked, self.ready.known) {
            return marked;
        }
        self.ask_marked(seats)
    }

    /// A work item comes onto a list, made at this place.
    pub fn owe(&mut self, place: u64, list: TodoList, kind: WorkKind)
        requires { 1 ≤ work_room self.old }
        ensures stands { MakesAt place (StandsFor self.old) (StandsFor self.new) (λ s. spec.owe s list kind) }
        ensures uses { Uses self.old self.new (record nothing { works = 1 }) }
        ensures told { KeepsTold self.old self.new }
        ensures few { ReachesFew 1 self.old self.new }
        ensures sure { self.new.sure_room ≡ self.old.sure_room - 1 }
    {
        self.sure_room = self.sure_room.saturating_sub(1);
        self.marks.mark(&self.todo, list);
        self.todo.push(place, list, kind);
        self.ready.note(list, true);
    }

    /// The caller of a frame, if it lives, gets a work item, made at this place.
    pub fn tell_caller(&mut self, place: u64, frame: Frame, kind: WorkKind)
        requires { 1 ≤ work_room self.old }
        ensures stands { MakesAt place (StandsFor self.old) (StandsFor self.new) (λ s. spec.tell_caller s frame kind) }
        ensures uses { Uses self.old self.new (record nothing { works = 1 }) }
        ensures told { KeepsTold self.old self.new }
        ensures few { ReachesFew 1 self.old self.new }
    {
        if let Some(seat) = frame.caller {
            self.owe(place, TodoList::OfThread(seat), kind);
        }
    }

    /// Only the work items of the kinds for which `f` answers `true` stay. Where `f` answers what is still due, those
    /// go of which nothing is left to say.
    pub fn retain_work<F: Fn(WorkKind) -> bool>(&mut self, f: F)
        requires { F.IsAlwaysCallable f }
        ensures kept { (s : Space) (p : WorkKind → Bool) → StandsFor self.old s
            → AnswersBy (λ kind b. F.post f kind b) p
            → StandsFor self.new (record s { todo = filter (λ w. p w.kind) s.todo }) }
        ensures stands { (s : Space) → StandsFor self.old s
            → AnswersBy (λ kind b. F.post f kind b) (notices.still_due s.processes s.objects s.references s.deaths)
            → StandsFor self.new (notices.work_goes s) }
        ensures uses { UsesNothing self.old self.new }
        ensures told { KeepsTold self.old self.new }
    {
        self.ready.forget_all();
        self.marks.all = true;
        self.todo.retain_kinds(f);
    }

    /// The notice of an object whose owner is to be told comes onto a list, if it is missing, made at this place.
    pub fn add_notice(&mut self, place: u64, list: TodoList, object: Identity, wanted: bool)
        requires { 1 ≤ work_room self.old }
        ensures stands { (s : Space) (x : Object) → StandsFor self.old s → s.steps ≡ place → x.id ≡ object
            → wanted ≡ notices.wants_notice s.processes s.references x
            → StandsFor self.new (record s {
              todo = notices.with_notice s.steps s.processes s.references list s.todo x;
            }) }
        ensures uses { Uses self.old self.new (record nothing { works = 1 }) }
        ensures told { KeepsTold self.old self.new }
        ensures few { ReachesFew 1 self.old self.new }
    {
        if wanted && !self.todo.has_notice(object) {
            self.owe(place, list, WorkKind::Notice(object));
        }
    }

    /// The notice of an object goes.
    pub fn withdraw_notice(&mut self, object: Identity)
        ensures stands { Makes (StandsFor self.old) (StandsFor self.new)
            (λ s. record s { todo = filter (λ w. not (spec.is_notice object w.kind)) s.todo }) }
        ensures uses { UsesNothing self.old self.new }
        ensures told { KeepsTold self.old self.new }
    {
        if self.todo.withdraw_notice(object) {
            self.ready.forget_all();
            self.marks.all = true;
        }
    }

    /// The work item of a death notification goes.
    pub fn withdraw_death(&mut self, made: u64)
        ensures stands { Makes (StandsFor self.old) (StandsFor self.new)
            (λ s. record s { todo = filter (λ w. not (is_some_and (spec.death_of w.kind) (λ n. n == made))) s.todo }) }
        ensures uses { UsesNothing self.old self.new }
        ensures told { KeepsTold self.old self.new }
    {
        self.ready.forget_all();
        self.marks.all = true;
        self.todo.withdraw_death(made);
    }
}
