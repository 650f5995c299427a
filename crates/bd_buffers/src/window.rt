//! A window.

ghost use Rattle.std.specs.Prelude.{◌≡◌, ◌↔◌, ◌+◌, ◌*◌, ◌%◌, ◌<◌, ◌≤◌, [], ◌∷◌, ◌++◌, not, ℕ, Bool, List, All, length, filter, find, map, IsTrue, IsOk, IfOk, IfErr, IfSome, OnOk, OnErr, AllPairs};
ghost use Rattle.bd_space.specs.{declared.space.Buffer.{Buffer}, Words.{changed}, Windows.{needed, start_in, over_budget_in, start_for}, Freeing.{is_made_at}, ReadItems.{hand_out}, Returns.{buffer_in}, Spam.{floods}};

use crate::buffer::{needed, one_way_share, pointer_of};
use crate::ground::{Ground, end_made, note};
use crate::lent::{Lent, lay, lent_from};
use crate::record::Record;
use crate::rows::Rows;
use crate::senders::{raise, sum_of};
use bd_ground::{Memory, Spans};
use bd_keys::WordMap;
use bd_uapi::Cause;
use std::alloc::{AllocError, Global};
use std::marker::Model;

// An empty window keeps no more memory for buffers to come.
const MOST_KEPT: usize = 16384;

/// The window of a process: its live buffers, of which no two meet, and of which the one-way ones take at most
/// half of it; and what they leave free.
#[derive(Drop)]
pub struct Window {
    // In the order in which they were made.
    buffers: Rows,
    ground: Ground,
}

impl Model for Window {
    ghost use Rattle.std.specs.Prelude.{◌*◌};
    ghost use Rattle.bd_buffers.specs.{Record.{all_standing}, Holes.{holes_of}};
    ghost use Rattle.bd_buffers.specs.Window.{WindowView, Keeps, room_left, reach_of};

    ghost Value = { WindowView };

    ghost view = { λ w. record {
      size = w.ground.size;
      buffers = all_standing w.ground.memory w.buffers.records;
      holes = holes_of w.ground.spans;
      tail = 8 * w.ground.spans.tail;
      room = room_left w.buffers w.ground;
      reach = reach_of w.ground;
    } };

    ghost invariant = { λ w. Keeps w.buffers.records w.ground };
}

impl Window {
    ghost use Rattle.bd_buffers.specs.Buffer.{IsPlaced, at_pointer};
    ghost use Rattle.bd_buffers.specs.{Window.{IsLeastFree, IsInBudget, Refuses, IsWindow}, Holes.{IsHoles}};
    ghost use Rattle.bd_buffers.specs.Stands.{Stands, CanHold, HasBufferRoom, WindowTells, WindowMakes, Uses, UsesNothing};
    ghost use Rattle.bd_buffers.specs.{Rows.{live_places}, WindowsStand.{made_of_buffer}};

    /// An empty window of a size in bytes, a multiple of 8 of at most 4194304. Takes no memory.
    pub fn new(alloc: Global, size: u32) -> Result<Window, AllocError>
        requires { (size % 8 ≡ 0) × (size ≤ 4194304) }
        ensures stands { IfOk result (λ w. Stands w size []) }
        ensures made { IsOk result }
    {
        Ok(Window {
            buffers: Rows::new(alloc),
            ground: Ground {
                size,
                one_way: 0,
                senders: WordMap::new(alloc),
                starts: Vec::new(alloc),
                spans: Spans::new(alloc, size / 8),
                memory: Memory::new(alloc),
            },
        })
    }

    // The least place with room for n bytes.
    fn least_start(&self, n: u32) -> Option<u32>
        requires filled { 8 ≤ n }
        requires whole { n % 8 ≡ 0 }
        ensures { result ≡ start_in self.now.size self.now.buffers n }
    {
        match self.ground.spans.first(n / 8) {
            None => None,
            Some(unit) => Some(unit * 8),
        }
    }

    // Whether the one-way buffers and n more bytes would take more than half of the window.
    #[tactic(auto, unfolding(bd_space::specs::Windows::over_budget_in))]
    fn is_over_budget(&self, n: u32) -> bool
        requires small { n ≤ 8388608 }
        ensures { result ≡ over_budget_in self.now.size self.now.buffers n }
    {
        2 * (self.ground.one_way + n) > self.ground.size
    }

    // The place of a new buffer that takes n bytes.
    #[tactic(auto, unfolding(bd_space::specs::Windows::start_for))]
    fn start_of(&self, one_way: bool, n: u32) -> Result<u32, Cause>
        requires filled { 8 ≤ n }
        requires small { n ≤ 8388608 }
        requires whole { n % 8 ≡ 0 }
        ensures { result ≡ start_for self.now.size self.now.buffers one_way n }
    {
        let Some(place) = self.least_start(n) else {
            return Err(Cause::NoRoom);
        };
        if one_way && self.is_over_budget(n) {
            return Err(Cause::OverBudget);
        }
        Ok(place)
    }

    // The place of a new buffer for data and offsets of these sizes.
    #[tactic(auto, using(crate::proofs::Places::too_large))]
    fn start_of_data(&self, one_way: bool, data_size: u64, offsets_size: u64) -> Result<u32, Cause>
        ensures computed { result ≡ start_for self.now.size self.now.buffers one_way (needed data_size offsets_size) }
        ensures fits { IfOk result (λ p. needed data_size offsets_size ≤ 4194304) }
    {
        let size = u64::from(self.ground.size);
        if data_size > size || offsets_size > size {
            return Err(Cause::NoRoom);
        }
        self.start_of(one_way, needed(data_size, offsets_size))
    }

    /// Where a buffer for data and offsets of these sizes in bytes would begin: at the least multiple of 8 with
    /// room for both, each rounded up to a multiple of 8, and for 8 bytes at least. `NoRoom` where there is none;
    /// then `OverBudget` where one-way buffers would take more than half of the window.
    #[tactic(auto, using(crate::proofs::Places::for_all, crate::proofs::Places::can_take_of, crate::proofs::Places::least_of, crate::proofs::Places::budget_of, crate::proofs::Places::cause_of))]
    #[inline(always)]
    pub fn start_for(&self, one_way: bool, data_size: u64, offsets_size: u64) -> Result<u32, Cause>
        ensures computed { WindowTells (Stands self.now) result
            (λ size bs. start_for size bs one_way (needed data_size offsets_size)) }
        ensures can_take { IfOk result (λ p. CanHold self.now one_way (needed data_size offsets_size) p) }
        ensures least { (size : ℕ) (bs : List Buffer) → Stands self.now size bs
            → IfOk result (λ p. IsLeastFree size bs (needed data_size offsets_size) p) }
        ensures fits { IfOk result (λ p. needed data_size offsets_size ≤ 4194304) }
        ensures budget { (size : ℕ) (bs : List Buffer) → Stands self.now size bs
            → IfOk result (λ p. IsTrue one_way → IsInBudget size bs (needed data_size offsets_size)) }
        ensures cause { (size : ℕ) (bs : List Buffer) → Stands self.now size bs
            → IfErr result (λ x. Refuses size bs one_way (needed data_size offsets_size) x) }
    {
        self.start_of_data(one_way, data_size, offsets_size)
    }

    // Whether the one-way buffers of a sender take more than a quarter of the window.
    #[tactic(auto, unfolding(bd_space::specs::Spam::floods))]
    fn is_flooded(&self, sender: u64) -> bool
        ensures { result ≡ floods self.now.size self.now.buffers sender }
    {
        4 * u64::from(sum_of(&self.ground.senders, sender)) > u64::from(self.ground.size)
    }

    /// Whether the live one-way buffers of a sender's process take more than a quarter of the window.
    pub fn floods(&self, sender: u64) -> bool
        ensures { WindowTells (Stands self.now) result (λ size bs. floods size bs sender) }
    {
        self.is_flooded(sender)
    }

    /// Makes room for one more buffer of a size at a place. The window stays as it was, also on an `Err`.
    #[tactic(auto, unfolding(crate::specs::Stands::CanHold))]
    #[inline(always)]
    pub fn reserve(&mut self, start: u32, size: u32) -> Result<(), AllocError>
        ensures stands { WindowMakes (Stands self.old) (Stands self.new) (λ bs. bs) }
        ensures can_take { (one_way : Bool) (size start : ℕ) → CanHold self.old one_way size start
            → CanHold self.new one_way size start }
        ensures room { OnOk result (HasBufferRoom self.new start size) }
        ensures kept { UsesNothing self.old self.new }
        // Memory was asked for: there was no room.
        ensures grown { OnErr result (HasBufferRoom self.old start size → ⊥) }
    {
        self.buffers.reserve(1)?;
        self.ground.senders.reserve(1)?;
        let end = start as usize + size as usize;
        self.ground.reserve(end)
    }

    /// Whether all live buffers were made before that place.
    pub fn is_newest(&self, made: u64) -> bool
        ensures { IsTrue result ↔ All (λ b. b.made < made) self.now.buffers }
    {
        self.buffers.is_newest(made)
    }

    /// Takes the newest buffer in, at a place that the window can take it at. Takes no memory.
    #[tactic(auto, using(crate::proofs::Places::holds_inside, crate::proofs::Kept::at_sender, crate::proofs::Kept::from_within, crate::proofs::Kept::share_within, crate::proofs::Kept::is_one_way))]
    #[inline(always)]
    pub fn commit(&mut self, buffer: Lent<'_>)
        requires room { HasBufferRoom self.old buffer.start buffer.size }
        requires newest { All (λ b. b.made < buffer.made) self.old.buffers }
        requires sized { buffer.size ≡ needed (length buffer.bytes) (length buffer.offsets) }
        requires can_take { CanHold self.old buffer.one_way buffer.size buffer.start }
        ensures stands { WindowMakes (Stands self.old) (Stands self.new) (λ bs. bs ++ buffer.entry ∷ []) }
        ensures room { Uses self.old self.new 1 }
    {
        let record = lay(&mut self.ground.memory, &buffer);
        self.ground.spans.take(record.start / 8, record.size / 8);
        note(&mut self.ground.starts, record.start, record.made);
        raise(&mut self.ground.senders, &record);
        self.ground.one_way += one_way_share(&record);
        self.buffers.push(record);
    }

    /// The live buffer made there.
    #[tactic(auto, using(crate::proofs::Standing::found_standing))]
    pub fn buffer(&self, made: u64) -> Option<Lent<'_>>
        ensures found { WindowTells (Stands self.now) result (λ size bs. buffer_in bs made) }
        ensures placed { IfSome result (λ b. IsPlaced 4194304 b) }
    {
        match self.buffers.made_at(made) {
            None => None,
            Some(record) => Some(lent_from(&self.ground.memory, record)),
        }
    }

    /// The live buffer that the process knows by a pointer, handed out or not.
    pub fn buffer_at_pointer(&self, pointer: u64) -> Option<Lent<'_>>
        ensures found { WindowTells (Stands self.now) result (λ size bs. find (at_pointer pointer) bs) }
        ensures placed { IfSome result (λ b. IsPlaced 4194304 b) }
    {
        let b = self.buffer(self.ground.noted_at(pointer))?;
        if pointer_of(&b) == pointer {
            Some(b)
        } else {
            None
        }
    }

    /// The rows of the buffers, those of ended ones too.
    #[tactic(auto, using(crate::proofs::Standing::made_standing))]
    pub(crate) fn rows(&self) -> &[Record]
        ensures places { live_places result.now ≡ map made_of_buffer self.now.buffers }
        ensures order { AllPairs (λ a b. a.made < b.made) result.now }
    {
        self.buffers.as_slice()
    }

    // Gives memory back where no buffer is left and there is much of it: what a window costs is what its buffers take, not what they once
    // took.
    fn clear_empty(&mut self)
        ensures size { self.new.size ≡ self.old.size }
        ensures buffers { self.new.buffers ≡ self.old.buffers }
        ensures room { UsesNothing self.old self.new }
    {
        if self.buffers.as_slice().is_empty() && self.ground.memory.len() > MOST_KEPT {
            self.ground.clear();
        }
    }

    /// Ends the buffer made there.
    pub fn free(&mut self, made: u64)
        ensures stands { WindowMakes (Stands self.old) (Stands self.new) (filter (λ b. not (is_made_at made b))) }
        ensures room { UsesNothing self.old self.new }
    {
        end_made(&mut self.buffers, &mut self.ground, made);
        self.clear_empty();
    }

    /// Marks the buffer made there as handed out.
    #[tactic(auto, using(crate::proofs::Standing::handed_standing))]
    pub fn hand_out(&mut self, made: u64)
        ensures stands { WindowMakes (Stands self.old) (Stands self.new) (changed (is_made_at made) hand_out) }
        ensures room { UsesNothing self.old self.new }
    {
        self.buffers.hand_out(made);
    }

    /// What is so of every window: no two live buffers meet, each lies inside and is as large as its data and
    /// offsets need, and the one-way ones take at most half of the window. Its holes and its tail are what no buffer
    /// spans.
    pub fn check(&self)
        ensures window { (size : ℕ) (bs : List Buffer) → Stands self.now size bs → IsWindow size bs }
        ensures holes { (size : ℕ) (bs : List Buffer) → Stands self.now size bs
            → IsHoles size bs self.now.tail self.now.holes }
    {
        self.ground.spans.check();
    }
}
