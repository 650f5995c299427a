//! Where the buffers of a window lie, what begins where, and what they leave free.

ghost use Rattle.std.specs.Prelude.{◌≡◌, ◌+◌, ◌-◌, ◌/◌, ◌<◌, ◌≤◌, [], ℕ, Bool, List, false, not, filter, OnOk, OnErr, length, slice_index};
ghost use Rattle.bd_keys.specs.Look.{word_room};
ghost use Rattle.bd_ground.specs.Tiles.{Tiles, with_span};
ghost use Rattle.bd_buffers.specs.{declared.record.Record.{Record}, Record.{bare, all_standing, is_record_at}, Sums.{sum_at, AreNoted}, Window.{Keeps, room_left, reach_of}};
ghost use Rattle.bd_buffers.specs.Buffer as spec;

use crate::buffer::{one_way_share, unit_at};
use crate::record::Record;
use crate::rows::Rows;
use crate::senders::lower;
use bd_ground::{Memory, Spans};
use bd_keys::WordMap;
use std::alloc::AllocError;

/// The ground of a window: what the buffers on it take, and what they leave.
#[derive(Drop)]
pub(crate) struct Ground {
    pub(crate) size: u32,
    // The sizes of the one-way buffers together.
    pub(crate) one_way: u32,
    // The sizes of each sender's one-way buffers together, but for senders that have none.
    pub(crate) senders: WordMap<u32>,
    // By unit, where the buffer was made that begins there. It is stale at all other units: who reads it compares.
    pub(crate) starts: Vec<u64>,
    // What is free, by units of eight bytes.
    pub(crate) spans: Spans,
    // The bytes of all buffers, each at its place.
    pub(crate) memory: Memory,
}

// Has so many numbers at least from then on: new ones are 0.
fn lengthen(numbers: &mut Vec<u64>, count: usize) -> Result<(), AllocError>
    ensures same { (j : ℕ) → slice_index numbers.new.items j ≡ slice_index numbers.old.items j }
    ensures longer { length numbers.old.items ≤ length numbers.new.items }
    ensures len { OnOk result (count ≤ length numbers.new.items) }
    ensures grown { OnErr result (length numbers.old.items < count) }
{
    if numbers.len() >= count {
        return Ok(());
    }
    numbers.resize(count, 0)
}

/// Notes where the buffer was made that begins at a place.
pub(crate) fn note(starts: &mut Vec<u64>, start: u32, made: u64)
    requires { start / 8 < length starts.old.items }
    ensures at { slice_index starts.new.items (start / 8) ≡ made }
    ensures others { (j : ℕ) → (j ≡ start / 8 → ⊥) → slice_index starts.new.items j ≡ slice_index starts.old.items j }
    ensures len { length starts.new.items ≡ length starts.old.items }
{
    starts[start as usize / 8] = made;
}

impl Ground {
    /// Makes memory up to a place, and room to note what is free of it. What is kept stays, also on an `Err`.
    pub(crate) fn reserve(&mut self, end: usize) -> Result<(), AllocError>
        ensures kept { (rs : List Record) → Keeps rs self.old → Keeps rs self.new }
        ensures standing { (rs : List Record) → Keeps rs self.old
            → all_standing self.new.memory rs ≡ all_standing self.old.memory rs }
        ensures same { (self.new.size ≡ self.old.size) × (self.new.senders ≡ self.old.senders) }
        ensures reach { OnOk result (end ≤ reach_of self.new) }
        // Memory was asked for: there was none up to there.
        ensures grown { OnErr result (reach_of self.old < end) }
    {
        let units = end.div_ceil(8);
        self.spans.reserve(units)?;
        lengthen(&mut self.starts, units)?;
        self.memory.reserve(end)
    }

    /// Where no buffer is left, gives back the memory of their bytes, and of what notes what is free.
    pub(crate) fn clear(&mut self)
        ensures kept { Keeps [] self.old → Keeps [] self.new }
        ensures size { self.new.size ≡ self.old.size }
        ensures senders { self.new.senders ≡ self.old.senders }
    {
        self.spans.clear();
        self.starts.clear();
        self.starts.shrink_to_fit();
        self.memory.clear();
    }

    /// Where the buffer that has a pointer was made: something else, where none has it.
    pub(crate) fn noted_at(&self, pointer: u64) -> u64
        ensures { result ≡ slice_index self.now.starts.items ((pointer - 65536) / 8) }
    {
        match self.starts.get(unit_at(pointer)) {
            None => 0,
            Some(made) => *made,
        }
    }

    // Takes back what a buffer took. Its bytes stay until others are laid over them.
    fn release(&mut self, b: &Record)
        requires filled { 8 ≤ b.now.size }
        requires inside { b.now.start / 8 + b.now.size / 8 ≤ self.old.spans.tail }
        requires share { spec.one_way_share (bare b.now) ≤ self.old.one_way }
        requires sender { spec.one_way_share (bare b.now) ≤ sum_at self.old.senders b.now.sender }
        ensures spans { (free : ℕ → Bool) → Tiles free self.old.spans
            → ((u : ℕ) → b.now.start / 8 ≤ u → u < b.now.start / 8 + b.now.size / 8 → free u ≡ false)
            → Tiles (with_span (b.now.start / 8) (b.now.size / 8) free) self.new.spans }
        ensures starts { self.new.starts ≡ self.old.starts }
        ensures one_way { self.new.one_way + spec.one_way_share (bare b.now) ≡ self.old.one_way }
        ensures senders { (f : ℕ → ℕ) → AreNoted self.old.senders (λ m. f m + spec.share_from m (bare b.now))
            → AreNoted self.new.senders f }
        ensures size { (self.new.size ≡ self.old.size) × (self.new.spans.size ≡ self.old.spans.size) }
        ensures memory { self.new.memory ≡ self.old.memory }
        ensures room { word_room self.old.senders ≤ word_room self.new.senders }
    {
        self.spans.give(b.start / 8, b.size / 8);
        lower(&mut self.senders, b);
        self.one_way -= one_way_share(b);
    }
}

/// Ends the buffer made there, if there is one.
pub(crate) fn end_made(buffers: &mut Rows, ground: &mut Ground, made: u64)
    requires kept { Keeps buffers.old.records ground.old }
    ensures kept { Keeps buffers.new.records ground.new }
    ensures size { ground.new.size ≡ ground.old.size }
    ensures memory { ground.new.memory ≡ ground.old.memory }
    ensures left { buffers.new.records ≡ filter (λ r. not (is_record_at made r)) buffers.old.records }
    ensures room { room_left buffers.old ground.old ≤ room_left buffers.new ground.new }
{
    if let Some(record) = buffers.take(made) {
        ground.release(&record);
    }
}
