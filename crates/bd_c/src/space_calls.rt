//! What C calls to look at the space that a live engine's history has come to. Each answers whether there is such a thing, and tells
//! it. None takes memory.
ghost use Rattle.std.specs.Prelude.{◌≡◌, false, Some, find, option_map, slice_get};
ghost use Rattle.bd_space.specs.{Seats.{process_in, thread_in}, References.{object_in}, Returns.{buffer_in}};
ghost use Rattle.bd_space.specs.{Todo.{work_on}, Deaths.{is_notification}};
ghost use Rattle.bd_space.specs.declared.space.TodoList.TheVariants.{OfThread, OfProcess};
ghost use Rattle.bd_engine.specs.Looks.{process_of_pid, named_by, innermost_of, carried, next_process, IsNextHandle, next_buffer};
ghost use Rattle.bd_c.specs.Behind.{Of, IsLive, live_of};
ghost use Rattle.bd_c.specs.SpaceTold.{InSpace, Finds, FindsBy, id_told, process_told, thread_told, object_told, buffer_told, frame_told, death_told, work_told};

use crate::handles::Handle;
use crate::space_told::{
    BufferTold, DeathTold, FrameTold, IdTold, ObjectTold, ProcessTold, ThreadTold, WorkTold,
};
use bd_space::{Identity, TodoList};

/// Tells the live process that was opened by the step at a place.
#[unsafe(no_mangle)]
pub extern "C" fn hullpippin_live_process(
    live: &mut Handle,
    made: u64,
    told: &mut ProcessTold,
) -> bool
    ensures same { live.new.held ≡ live.old.held }
    ensures finds { IsLive live.old.held → Of live_of live.old.held (λ x. InSpace x (λ s. Finds (option_map process_told (process_in s.processes made)) told.old told.new result)) }
    ensures misuse { (IsLive live.old.held → ⊥) → (result ≡ false) × (told.new ≡ told.old) }
{
    match live.engine() {
        Some(engine) => engine.tell_process(made, told),
        None => false,
    }
}

/// The live process with this pid, by the place of its Open.
#[unsafe(no_mangle)]
pub extern "C" fn hullpippin_live_process_of_pid(
    live: &mut Handle,
    pid: u32,
    told: &mut u64,
) -> bool
    ensures same { live.new.held ≡ live.old.held }
    ensures finds { IsLive live.old.held → Of live_of live.old.held (λ x. InSpace x (λ s. Finds (process_of_pid s pid) told.old told.new result)) }
    ensures misuse { (IsLive live.old.held → ⊥) → (result ≡ false) × (told.new ≡ told.old) }
{
    match live.engine() {
        Some(engine) => engine.tell_process_of_pid(pid, told),
        None => false,
    }
}

/// Tells which live thread a seat has, and of which process.
#[unsafe(no_mangle)]
pub extern "C" fn hullpippin_live_thread(
    live: &mut Handle,
    seat: u32,
    told: &mut ThreadTold,
) -> bool
    ensures same { live.new.held ≡ live.old.held }
    ensures finds { IsLive live.old.held → Of live_of live.old.held (λ x. InSpace x (λ s. Finds (option_map thread_told (thread_in s.threads seat)) told.old told.new result)) }
    ensures misuse { (IsLive live.old.held → ⊥) → (result ≡ false) × (told.new ≡ told.old) }
{
    match live.engine() {
        Some(engine) => engine.tell_thread(seat, told),
        None => false,
    }
}

/// Tells the identity of the context manager's object, if there is a manager.
#[unsafe(no_mangle)]
pub extern "C" fn hullpippin_live_manager_object(live: &mut Handle, told: &mut IdTold) -> bool
    ensures same { live.new.held ≡ live.old.held }
    ensures finds { IsLive live.old.held → Of live_of live.old.held (λ x. InSpace x (λ s. Finds (option_map id_told s.manager) told.old told.new result)) }
    ensures misuse { (IsLive live.old.held → ⊥) → (result ≡ false) × (told.new ≡ told.old) }
{
    match live.engine() {
        Some(engine) => engine.tell_manager(told),
        None => false,
    }
}

/// Tells an object of the space, by its identity.
#[unsafe(no_mangle)]
pub extern "C" fn hullpippin_live_object(
    live: &mut Handle,
    place: u64,
    index: u32,
    told: &mut ObjectTold,
) -> bool
    ensures same { live.new.held ≡ live.old.held }
    ensures finds { IsLive live.old.held → Of live_of live.old.held (λ x. InSpace x (λ s. Finds (option_map object_told (object_in s.objects (record { place = place; index = index }))) told.old told.new result)) }
    ensures misuse { (IsLive live.old.held → ⊥) → (result ≡ false) × (told.new ≡ told.old) }
{
    match live.engine() {
        Some(engine) => engine.tell_object(Identity { place, index }, told),
        None => false,
    }
}

/// The object that a handle names for the live process with this pid.
#[unsafe(no_mangle)]
pub extern "C" fn hullpippin_live_named(
    live: &mut Handle,
    pid: u32,
    handle: u32,
    told: &mut IdTold,
) -> bool
    ensures same { live.new.held ≡ live.old.held }
    ensures finds { IsLive live.old.held → Of live_of live.old.held (λ x. InSpace x (λ s. Finds (option_map id_told (named_by s pid handle)) told.old told.new result)) }
    ensures misuse { (IsLive live.old.held → ⊥) → (result ≡ false) × (told.new ≡ told.old) }
{
    match live.engine() {
        Some(engine) => engine.tell_named(pid, handle, told),
        None => false,
    }
}

/// Tells the live buffer that was made by the step at a place.
#[unsafe(no_mangle)]
pub extern "C" fn hullpippin_live_buffer(
    live: &mut Handle,
    made: u64,
    told: &mut BufferTold,
) -> bool
    ensures same { live.new.held ≡ live.old.held }
    ensures finds { IsLive live.old.held → Of live_of live.old.held (λ x. InSpace x (λ s. Finds (option_map buffer_told (buffer_in s.buffers made)) told.old told.new result)) }
    ensures misuse { (IsLive live.old.held → ⊥) → (result ≡ false) × (told.new ≡ told.old) }
{
    match live.engine() {
        Some(engine) => engine.tell_buffer(made, told),
        None => false,
    }
}

/// One of the objects that the live buffer made there carries, in their order.
#[unsafe(no_mangle)]
pub extern "C" fn hullpippin_live_carried(
    live: &mut Handle,
    made: u64,
    index: usize,
    told: &mut IdTold,
) -> bool
    ensures same { live.new.held ≡ live.old.held }
    ensures finds { IsLive live.old.held → Of live_of live.old.held (λ x. InSpace x (λ s. Finds (option_map id_told (slice_get (carried s made) index)) told.old told.new result)) }
    ensures misuse { (IsLive live.old.held → ⊥) → (result ≡ false) × (told.new ≡ told.old) }
{
    match live.engine() {
        Some(engine) => engine.tell_carried(made, index, told),
        None => false,
    }
}

/// One of what is unread on the list of a seat's thread, oldest first.
#[unsafe(no_mangle)]
pub extern "C" fn hullpippin_live_unread_of_thread(
    live: &mut Handle,
    seat: u32,
    index: usize,
    told: &mut WorkTold,
) -> bool
    ensures same { live.new.held ≡ live.old.held }
    ensures finds { IsLive live.old.held → Of live_of live.old.held (λ x. InSpace x (λ s. Finds (option_map work_told (slice_get (work_on s.todo (Some (OfThread seat))) index)) told.old told.new result)) }
    ensures misuse { (IsLive live.old.held → ⊥) → (result ≡ false) × (told.new ≡ told.old) }
{
    match live.engine() {
        Some(engine) => engine.tell_unread(TodoList::OfThread(seat), index, told),
        None => false,
    }
}

/// One of what is unread on the list of a process, told by the place of its Open, oldest first.
#[unsafe(no_mangle)]
pub extern "C" fn hullpippin_live_unread_of_process(
    live: &mut Handle,
    process: u64,
    index: usize,
    told: &mut WorkTold,
) -> bool
    ensures same { live.new.held ≡ live.old.held }
    ensures finds { IsLive live.old.held → Of live_of live.old.held (λ x. InSpace x (λ s. Finds (option_map work_told (slice_get (work_on s.todo (Some (OfProcess process))) index)) told.old told.new result)) }
    ensures misuse { (IsLive live.old.held → ⊥) → (result ≡ false) × (told.new ≡ told.old) }
{
    match live.engine() {
        Some(engine) => engine.tell_unread(TodoList::OfProcess(process), index, told),
        None => false,
    }
}

/// The innermost open call that a seat's thread is in.
#[unsafe(no_mangle)]
pub extern "C" fn hullpippin_live_innermost(
    live: &mut Handle,
    seat: u32,
    told: &mut FrameTold,
) -> bool
    ensures same { live.new.held ≡ live.old.held }
    ensures finds { IsLive live.old.held → Of live_of live.old.held (λ x. InSpace x (λ s. Finds (option_map frame_told (innermost_of s seat)) told.old told.new result)) }
    ensures misuse { (IsLive live.old.held → ⊥) → (result ≡ false) × (told.new ≡ told.old) }
{
    match live.engine() {
        Some(engine) => engine.tell_innermost(seat, told),
        None => false,
    }
}

/// Tells the death notification that was asked for by the step at a place.
#[unsafe(no_mangle)]
pub extern "C" fn hullpippin_live_death(live: &mut Handle, made: u64, told: &mut DeathTold) -> bool
    ensures same { live.new.held ≡ live.old.held }
    ensures finds { IsLive live.old.held → Of live_of live.old.held (λ x. InSpace x (λ s. Finds (option_map death_told (find (is_notification made) s.deaths)) told.old told.new result)) }
    ensures misuse { (IsLive live.old.held → ⊥) → (result ≡ false) × (told.new ≡ told.old) }
{
    match live.engine() {
        Some(engine) => engine.tell_death(made, told),
        None => false,
    }
}

/// The first live process that was opened at this place or behind it, by the place of its Open. Looks of this kind begin with 0, and go on
/// with one more than was told.
#[unsafe(no_mangle)]
pub extern "C" fn hullpippin_live_next_process(
    live: &mut Handle,
    from: u64,
    place: &mut u64,
) -> bool
    ensures same { live.new.held ≡ live.old.held }
    ensures finds { IsLive live.old.held → Of live_of live.old.held (λ x. InSpace x (λ s. Finds (next_process s from) place.old place.new result)) }
    ensures misuse { (IsLive live.old.held → ⊥) → (result ≡ false) × (place.new ≡ place.old) }
{
    match live.engine() {
        Some(engine) => engine.tell_next_process(from, place),
        None => false,
    }
}

/// The least handle from this one on that names something for the live process with this pid.
#[unsafe(no_mangle)]
pub extern "C" fn hullpippin_live_next_handle(
    live: &mut Handle,
    pid: u32,
    from: u32,
    handle: &mut u32,
) -> bool
    ensures same { live.new.held ≡ live.old.held }
    ensures finds { IsLive live.old.held → Of live_of live.old.held (λ x. InSpace x (λ s. FindsBy (IsNextHandle s pid from) handle.old handle.new result)) }
    ensures misuse { (IsLive live.old.held → ⊥) → (result ≡ false) × (handle.new ≡ handle.old) }
{
    match live.engine() {
        Some(engine) => engine.tell_next_handle(pid, from, handle),
        None => false,
    }
}

/// The first live buffer of a process that was made at this place or behind it.
#[unsafe(no_mangle)]
pub extern "C" fn hullpippin_live_next_buffer(
    live: &mut Handle,
    process: u64,
    from: u64,
    made: &mut u64,
) -> bool
    ensures same { live.new.held ≡ live.old.held }
    ensures finds { IsLive live.old.held → Of live_of live.old.held (λ x. InSpace x (λ s. Finds (next_buffer s process from) made.old made.new result)) }
    ensures misuse { (IsLive live.old.held → ⊥) → (result ≡ false) × (made.new ≡ made.old) }
{
    match live.engine() {
        Some(engine) => engine.tell_next_buffer(process, from, made),
        None => false,
    }
}
