//! Looks at the space that a live engine's history has come to. Each tells what there is, or that there is none.
ghost use Rattle.std.specs.Prelude.{◌≡◌, Some, find, option_map, slice_get};
ghost use Rattle.bd_space.specs.{Seats.{process_in, thread_in}, References.{object_in}, Returns.{buffer_in}};
ghost use Rattle.bd_space.specs.{Todo.{work_on}, Deaths.{is_notification}};
ghost use Rattle.bd_engine.specs.Looks.{process_of_pid, named_by, innermost_of, carried, next_process, IsNextHandle, next_buffer};
ghost use Rattle.bd_c.specs.SpaceTold.{InSpace, Finds, FindsBy, id_told, process_told, thread_told, object_told, buffer_told, frame_told, death_told, work_told};

use crate::live::OwnedLive;
use crate::space_told::{
    BufferTold, DeathTold, FrameTold, IdTold, ObjectTold, ProcessTold, ThreadTold, WorkTold,
};
use bd_engine::{CarriedObjects, Looks, Works};
use bd_space::{Identity, TodoList, Work};

fn carried_at(mut objects: CarriedObjects<'_>, index: usize) -> Option<Identity>
    ensures { result ≡ slice_get objects.entry index }
{
    objects.nth(index)
}

fn unread_at(mut works: Works<'_>, index: usize) -> Option<Work>
    ensures { result ≡ slice_get works.entry index }
{
    works.nth(index)
}

impl OwnedLive {
    /// Tells the live process that was opened by the step at a place.
    #[tactic(auto, using(crate::proofs::Looking::finds_some, crate::proofs::Looking::finds_none))]
    pub(crate) fn tell_process(&self, made: u64, told: &mut ProcessTold) -> bool
        ensures { InSpace self.now (λ s. Finds (option_map process_told (process_in s.processes made)) told.old told.new result) }
    {
        match self.bridge.engine.live.process(made) {
            Some(q) => {
                *told = ProcessTold::of(q);
                true
            }
            None => false,
        }
    }

    /// Tells the live thread of a seat.
    #[tactic(auto, using(crate::proofs::Looking::finds_some, crate::proofs::Looking::finds_none))]
    pub(crate) fn tell_thread(&self, seat: u32, told: &mut ThreadTold) -> bool
        ensures { InSpace self.now (λ s. Finds (option_map thread_told (thread_in s.threads seat)) told.old told.new result) }
    {
        match self.bridge.engine.live.thread(seat) {
            Some(t) => {
                *told = ThreadTold::of(t);
                true
            }
            None => false,
        }
    }

    /// Tells the identity of the context manager's object.
    #[tactic(auto, using(crate::proofs::Looking::finds_some, crate::proofs::Looking::finds_none))]
    pub(crate) fn tell_manager(&self, told: &mut IdTold) -> bool
        ensures { InSpace self.now (λ s. Finds (option_map id_told (s.manager)) told.old told.new result) }
    {
        match self.bridge.engine.live.manager() {
            Some(id) => {
                *told = IdTold::of(id);
                true
            }
            None => false,
        }
    }

    /// Tells an object of the space, by its identity.
    #[tactic(auto, using(crate::proofs::Looking::finds_some, crate::proofs::Looking::finds_none))]
    pub(crate) fn tell_object(&self, id: Identity, told: &mut ObjectTold) -> bool
        ensures { InSpace self.now (λ s. Finds (option_map object_told (object_in s.objects id)) told.old told.new result) }
    {
        match self.bridge.engine.live.object(id) {
            Some(x) => {
                *told = ObjectTold::of(x);
                true
            }
            None => false,
        }
    }

    /// The object that a handle names for the live process with this pid.
    #[tactic(auto, using(crate::proofs::Looking::finds_some, crate::proofs::Looking::finds_none))]
    pub(crate) fn tell_named(&self, pid: u32, handle: u32, told: &mut IdTold) -> bool
        ensures { InSpace self.now (λ s. Finds (option_map id_told (named_by s pid handle)) told.old told.new result) }
    {
        match self.bridge.engine.live.named(pid, handle) {
            Some(id) => {
                *told = IdTold::of(id);
                true
            }
            None => false,
        }
    }

    /// Tells the live buffer that was made by the step at a place.
    #[tactic(auto, using(crate::proofs::Looking::finds_some, crate::proofs::Looking::finds_none))]
    pub(crate) fn tell_buffer(&self, made: u64, told: &mut BufferTold) -> bool
        ensures { InSpace self.now (λ s. Finds (option_map buffer_told (buffer_in s.buffers made)) told.old told.new result) }
    {
        match self.bridge.engine.live.buffer(made) {
            Some(b) => {
                *told = BufferTold::of(&b);
                true
            }
            None => false,
        }
    }

    /// The innermost open call that a seat's thread is in.
    #[tactic(auto, using(crate::proofs::Looking::finds_some, crate::proofs::Looking::finds_none))]
    pub(crate) fn tell_innermost(&self, seat: u32, told: &mut FrameTold) -> bool
        ensures { InSpace self.now (λ s. Finds (option_map frame_told (innermost_of s seat)) told.old told.new result) }
    {
        match self.bridge.engine.live.innermost(seat) {
            Some((made, serves)) => {
                *told = FrameTold { made, serves };
                true
            }
            None => false,
        }
    }

    /// Tells the death notification that was asked for by the step at a place.
    #[tactic(auto, using(crate::proofs::Looking::finds_some, crate::proofs::Looking::finds_none))]
    pub(crate) fn tell_death(&self, made: u64, told: &mut DeathTold) -> bool
        ensures { InSpace self.now (λ s. Finds (option_map death_told (find (is_notification made) s.deaths)) told.old told.new result) }
    {
        match self.bridge.engine.live.death(made) {
            Some(d) => {
                *told = DeathTold::of(d);
                true
            }
            None => false,
        }
    }

    /// The live process with this pid, by the place of its Open.
    #[tactic(auto, using(crate::proofs::Looking::finds_some, crate::proofs::Looking::finds_none))]
    pub(crate) fn tell_process_of_pid(&self, pid: u32, made: &mut u64) -> bool
        ensures { InSpace self.now (λ s. Finds (process_of_pid s pid) made.old made.new result) }
    {
        match self.bridge.engine.live.process_of_pid(pid) {
            Some(q) => {
                *made = q;
                true
            }
            None => false,
        }
    }

    /// One of the objects that the live buffer made there carries.
    #[tactic(auto, using(crate::proofs::Looking::finds_some, crate::proofs::Looking::finds_none))]
    pub(crate) fn tell_carried(&self, made: u64, index: usize, told: &mut IdTold) -> bool
        ensures { InSpace self.now (λ s. Finds (option_map id_told (slice_get (carried s made) index)) told.old told.new result) }
    {
        match carried_at(self.bridge.engine.live.carried(made), index) {
            Some(id) => {
                *told = IdTold::of(id);
                true
            }
            None => false,
        }
    }

    /// One of what is unread on a list, oldest first.
    #[tactic(auto, using(crate::proofs::Looking::finds_some, crate::proofs::Looking::finds_none))]
    pub(crate) fn tell_unread(&self, list: TodoList, index: usize, told: &mut WorkTold) -> bool
        ensures { InSpace self.now (λ s. Finds (option_map work_told (slice_get (work_on s.todo (Some list)) index)) told.old told.new result) }
    {
        match unread_at(self.bridge.engine.live.unread(list), index) {
            Some(work) => {
                *told = WorkTold::of(&work);
                true
            }
            None => false,
        }
    }

    /// The first live process that was opened at this place or behind it, by the place of its Open.
    #[tactic(auto, using(crate::proofs::Looking::finds_some, crate::proofs::Looking::finds_none))]
    pub(crate) fn tell_next_process(&self, from: u64, place: &mut u64) -> bool
        ensures { InSpace self.now (λ s. Finds (next_process s from) place.old place.new result) }
    {
        match self.bridge.engine.live.next_process(from) {
            Some(next) => {
                *place = next;
                true
            }
            None => false,
        }
    }

    /// The least handle from this one on that names something for the live process with this pid.
    pub(crate) fn tell_next_handle(&self, pid: u32, from: u32, handle: &mut u32) -> bool
        ensures { InSpace self.now (λ s. FindsBy (IsNextHandle s pid from) handle.old handle.new result) }
    {
        match self.bridge.engine.live.next_handle(pid, from) {
            Some(next) => {
                *handle = next;
                true
            }
            None => false,
        }
    }

    /// The first live buffer of a process that was made at this place or behind it.
    #[tactic(auto, using(crate::proofs::Looking::finds_some, crate::proofs::Looking::finds_none))]
    pub(crate) fn tell_next_buffer(&self, process: u64, from: u64, made: &mut u64) -> bool
        ensures { InSpace self.now (λ s. Finds (next_buffer s process from) made.old made.new result) }
    {
        match self.bridge.engine.live.next_buffer(process, from) {
            Some(next) => {
                *made = next;
                true
            }
            None => false,
        }
    }
}
