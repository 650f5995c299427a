//! Buffers: a delivery's bytes as the receiver sees them, and the step of `BC_FREE_BUFFER`.

ghost use Rattle.std.specs.Prelude.{ℕ, List, ◌≡◌, ◌+◌, ◌≤◌, All, IfOk, IfSome, length, Some};
ghost use Rattle.bd_space.specs.{Space.{Space}, Seats.{process_in}, declared.space.Process.{Process}, Outcomes.{completed}};
ghost use Rattle.bd_ways.specs.Local.{is_among};
ghost use Rattle.bd_laws.specs.{Lists.{Pairs}, Objects.{NotLater}};
ghost use Rattle.bd_buffers.specs.{WindowsStand.{CanAdd, HasBufferRoom}, Buffer.{freed_buffer}};
ghost use Rattle.bd_step.specs.Stands.{Before, Within, Tells, TellsWithin, CanFollow, MakesWithin, UsesNothing, KeepsTold};
ghost use Rattle.bd_step.specs.{Following.{AreTouched}, Meets.{IsBy, IsKept, IsStep}};
ghost use Rattle.bd_step.specs.Deliveries.{IsInside, IsCopy, laid_bytes, Spends};
ghost use Rattle.bd_space.specs.Windows as room;
ghost use Rattle.bd_space.specs.Turns as turns;
ghost use Rattle.bd_space.specs.Delivery as delivery;
ghost use Rattle.bd_space.specs.Parcels as translations;
ghost use Rattle.bd_space.specs.Freeing as freeing;
ghost use Rattle.bd_calls.specs.Room as call_rooms;
ghost use Rattle.bd_step.specs.Freed as freed;

use crate::answer::Plain;
use crate::step_error::StepError;
use crate::tables::{NOTHING, Tables};
use crate::touched::in_order;
use bd_buffers::Lent;
use bd_parcel::put_object;
use bd_space::{Actor, Bytes, Identity, Item, Process, Turn};
use bd_uapi::Note;
use std::alloc::AllocError;

// A one-way call, by its buffer.
fn turn_of(b: &Lent<'_>) -> Option<Turn>
    ensures { result ≡ turns.turn_of b.now }
{
    if !b.is_one_way() {
        return None;
    }
    let target = b.target()?;
    Some(Turn {
        made: b.made(),
        receiver: b.receiver(),
        target,
        handed: b.is_handed(),
    })
}

// The object on which a buffer is a one-way call.
fn turn_target(buffer: Option<Lent<'_>>) -> Option<Identity>
    ensures { result ≡ freed.turn_target buffer.entry }
{
    match buffer {
        Some(b) => turn_of(&b).map(|t| t.target),
        None => None,
    }
}

impl Tables {
    // The items' objects as the process is to see them, written over the data.
    fn translate(&self, q: u64, bytes: &mut [u8], items: &[Item])
        requires { All (IsInside bytes.old) items.now }
        ensures { Tells self.now bytes.new (λ s. translations.translation s q bytes.old items.now) }
    {
        for x in items {
            let flat = self.objects.translated(q, x);
            put_object(bytes, x.at as usize, &flat);
        }
    }

    // The data as the process is to see it.
    fn translation(&self, q: u64, bytes: Bytes, items: &[Item]) -> Bytes
        requires { All (IsInside bytes) items.now }
        ensures translated { Tells self.now result (λ s. translations.translation s q bytes items.now) }
        ensures len { length result ≡ length bytes }
    {
        let mut bytes = bytes.into_vec();
        self.translate(q, bytes.as_mut_slice(), items);
        Bytes::new(bytes)
    }

    /// The data as the process is to see it, where there is a copy to be put right: with no object they are as they were sent.
    #[inline(always)]
    pub(crate) fn put_right(&self, q: u64, copy: Option<Bytes>, items: &[Item]) -> Option<Bytes>
        requires inside { IfSome copy (λ bytes. All (IsInside bytes) items.now) }
        ensures translated { (bytes : List ℕ) → IsCopy copy bytes items.now
            → Tells self.now (laid_bytes result bytes) (λ s. translations.translation s q bytes items.now) }
        ensures len { (bytes : List ℕ) → IsCopy copy bytes items.now → length (laid_bytes result bytes) ≡ length bytes }
    {
        match copy {
            Some(bytes) => Some(self.translation(q, bytes, items)),
            None => None,
        }
    }

    // The buffer comes in, and a one-way call with it.
    #[inline(always)]
    pub(crate) fn add_buffer(&mut self, buffer: Lent<'_>)
        requires turns { 1 ≤ call_rooms.turn_room self.old.calls }
        requires room { HasBufferRoom self.old.windows buffer.receiver buffer.start buffer.size }
        requires sized { buffer.size ≡ room.needed (length buffer.bytes) (length buffer.offsets) }
        requires can_add { CanAdd self.old.windows buffer.receiver buffer.one_way buffer.size buffer.start }
        ensures stands { (s : Space) → Before self.old s → s.steps ≡ buffer.entry.made
            → Within self.new (delivery.add_buffer s buffer.entry) }
        ensures spends { Spends self.old self.new 0 1 0 }
        ensures told { KeepsTold self.old self.new }
    {
        self.calls.add_turn(turn_of(&buffer));
        self.windows.add(buffer);
    }

    // The buffer that the process may free by this pointer.
    fn free_check(&self, p: u64, pointer: u64) -> Result<u64, Note>
        ensures { (s : Space) (q : Process) → Within self.now s → process_in s.processes p ≡ Some q
            → result ≡ freed_buffer (freeing.buffer_at_pointer s p pointer) }
    {
        match self.windows.at_pointer(p, pointer) {
            None => Err(Note::NoSuchBuffer),
            Some(b) => {
                if b.is_handed() {
                    Ok(b.made())
                } else {
                    Err(Note::NotHandedOut)
                }
            }
        }
    }

    // The buffer goes, with the references that it held and its turn.
    #[tactic(auto, unfolding(bd_space::specs::Freeing::without_buffer))]
    fn remove_buffer(&mut self, made: u64)
        ensures stands { MakesWithin self.old self.new (λ s. freeing.without_buffer s made) }
        ensures uses { UsesNothing self.old self.new }
        ensures told { KeepsTold self.old self.new }
    {
        self.windows.free(made);
        self.objects.without_buffer(made);
        self.calls.remove_turn(made);
    }

    // The object on which the buffer made there is a one-way call.
    fn turn_target_at(&self, made: u64) -> Option<Identity>
        ensures { TellsWithin self.now result (λ s. freed.turn_target_at s made) }
    {
        turn_target(self.windows.buffer(made))
    }

    // The objects that the buffer refers to in the order in which they were made, and room for what follows at them.
    fn ready_to_free(&mut self, made: u64) -> Result<Vec<Identity>, AllocError>
        ensures stands { IsKept self.old self.new }
        ensures in_order { IfOk result (λ os. Pairs NotLater os.items) }
        ensures touched { IfOk result
            (λ os. (s : Space) → Before self.old s → AreTouched (is_among (freed.referred s made)) os.items) }
        ensures room { IfOk result (λ os. CanFollow self.new (length os.items + 2)) }
        ensures told { KeepsTold self.old self.new }
    {
        let mut touched = self.take_touched();
        self.objects.referred(made, &mut touched)?;
        let touched = in_order(touched);
        self.reserve(NOTHING, touched.len())?;
        Ok(touched)
    }

    // The process's buffer goes, and what follows from that: a call may ripen on its target, and the process's names go, and
    // the objects, that it alone kept. No call is abandoned by it.
    fn release_buffer(&mut self, p: u64, made: u64, touched: &[Identity])
        requires in_order { Pairs NotLater touched.now }
        requires room { CanFollow self.old (length touched.now + 2) }
        ensures stands { (s : Space) → Within self.old s → freed.IsFreeing p made touched.now s
            → Within self.new (completed (freeing.without_buffer s made)) }
        ensures told { KeepsTold self.old self.new }
    {
        let target = self.turn_target_at(made);
        self.remove_buffer(made);
        self.ripen_next(target);
        self.follow_among(p, touched);
    }

    /// The step by which a process frees a buffer that was handed out to it.
    pub(crate) fn free(&mut self, actor: Actor, pointer: u64) -> Result<Plain, StepError>
        ensures step { IsStep self.old self.new (IsBy actor) (λ s. freeing.free_step s actor.process.made pointer) result }
        ensures told { KeepsTold self.old self.new }
    {
        let made = match self.free_check(actor.process.made, pointer) {
            Ok(made) => made,
            Err(note) => return Ok(Plain::Noted(note)),
        };
        let Ok(touched) = self.ready_to_free(made) else {
            return Err(StepError::NoMemory);
        };
        self.release_buffer(actor.process.made, made, touched.as_slice());
        self.keep_touched(touched);
        Ok(Plain::Accepted)
    }
}
