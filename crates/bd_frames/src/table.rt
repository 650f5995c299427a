//! The table: its room, its changes and what it tells.
#![tactic(auto, unfolding(crate::specs::Room::frame_room, crate::specs::Room::frame_count))]

ghost use Rattle.std.specs.Prelude.{Bool, List, ◌≡◌, ◌≤◌, ◌<◌, ◌+◌, ◌++◌, ◌∷◌, [], false, not, map, filter, find, reverse, length, vec_len, vec_capacity, OnOk, OnErr};
ghost use Rattle.std.specs.List.{list_any, remove as list_remove};
ghost use Rattle.bd_keys.specs.Tables as tables;
ghost use Rattle.bd_space.specs.declared.space.Frame as declared;
ghost use Rattle.bd_space.specs.Frames as spec;
ghost use Rattle.bd_space.specs.ReadItems as reading;
ghost use Rattle.bd_space.specs.Words.{changed};
ghost use Rattle.bd_keys.specs.Tables.{AnswersBy};
ghost use Rattle.bd_frames.specs.InOrder.{IsNextOf};
ghost use Rattle.bd_frames.specs.Words.{newest_in, abandoned_in, lost_frame, left_frame};

use crate::frame::{Row, frame_lost, is_abandoned};
use crate::place::{index_of, newest_part, turn};
use crate::stacks::Stacks;
use crate::walk::{leave_down, push_served_down, reverse_from};
use bd_space::{Frame, Server};
use std::alloc::{AllocError, Global};

/// The frames of a driver, in the order in which they came in.
#[derive(Debug, Drop)]
pub struct FrameTable {
    pub(crate) rows: Vec<Row>,
    // The frames of each thread.
    pub(crate) stacks: Stacks,
}

impl FrameTable {
    ghost use Rattle.bd_frames.specs.{Stands.{FramesAre, Tells, Makes, keeps_bound}, Room.{Uses, frame_room, frame_count}};

    /// An empty table. Takes no memory.
    pub fn new(alloc: Global) -> FrameTable
        ensures { FramesAre result [] }
    {
        FrameTable {
            rows: Vec::new(alloc),
            stacks: Stacks::new(alloc),
        }
    }

    /// Makes room for so many more. Fails for want of memory, and then changes nothing either.
    pub fn reserve(&mut self, more: u32) -> Result<(), AllocError>
        ensures stands { Makes self.old self.new (λ l. l) }
        ensures uses { Uses self.old self.new 0 }
        ensures room { OnOk result (more ≤ frame_room self.new) }
        // Memory was asked for: there was no room.
        ensures grown { OnErr result (frame_room self.old < more) }
    {
        let more = more as usize;
        // Each that is there may be read, and each that comes has a caller and may be read.
        self.stacks
            .reserve(self.rows.len().saturating_add(2 * more));
        self.rows.reserve(more)
    }

    /// How many there are.
    pub fn count(&self) -> usize
        ensures count { result ≡ frame_count self.now }
        ensures frames { Tells self.now result (λ l. length l) }
    {
        self.rows.len()
    }

    /// A frame comes in: nobody has read its call, and it was made after all others and after its parent, open or not. Takes no memory.
    pub fn push(&mut self, frame: Frame)
        requires { 1 ≤ frame_room self.old }
        ensures stands { (l : List declared.Frame) → FramesAre self.old l → IsNextOf frame l
            → FramesAre self.new (l ++ frame ∷ []) }
        ensures uses { Uses self.old self.new 1 }
    {
        turn(
            &mut self.rows,
            frame.parent,
            |row| Row {
                children: row.children.saturating_add(1),
                ..row
            },
        );
        let caller = self.stacks.put(frame.caller, frame.made);
        self.rows.push_reserved(Row {
            frame,
            caller,
            server: None,
            children: 0,
        });
    }

    /// The frame of the call made at this place closes.
    pub fn close(&mut self, made: u64)
        ensures stands { Makes self.old self.new (λ l. filter (λ f. not (spec.is_frame made f)) l) }
        ensures uses { Uses self.old self.new 0 }
    {
        if let Some(i) = index_of(&self.rows, made) {
            let parent = self.rows[i].frame.parent;
            turn(
                &mut self.rows,
                parent,
                |row| Row {
                    children: row.children.saturating_sub(1),
                    ..row
                },
            );
            let row = self.rows.remove(i);
            self.stacks.pop(&row);
        }
    }

    /// The frame of the call made at this place.
    pub fn frame(&self, made: u64) -> Option<Frame>
        ensures { Tells self.now result (λ l. find (spec.is_frame made) l) }
    {
        Some(self.rows[index_of(&self.rows, made)?].frame)
    }

    // The newest frame in which the thread takes part: it is looked for from the top of its stack.
    #[inline(never)]
    fn newest_below(&self, seat: u32) -> Option<Frame>
        ensures { Tells self.now result (λ l. newest_in l seat) }
    {
        let top = self.stacks.top_of(seat);
        Some(self.rows[newest_part(&self.rows, seat, top)?].frame)
    }

    /// The newest frame in which the thread takes part.
    // Put into its callers: mostly no call is open, and nothing is looked for.
    #[inline(always)]
    pub fn newest_of(&self, seat: u32) -> Option<Frame>
        ensures { Tells self.now result (λ l. newest_in l seat) }
    {
        if self.rows.is_empty() {
            return None;
        }
        self.newest_below(seat)
    }

    /// Whether the thread takes part in a frame.
    pub fn is_in_call(&self, seat: u32) -> bool
        ensures { Tells self.now result (λ l. list_any (spec.takes_part seat) l) }
    {
        self.newest_of(seat).is_some()
    }

    /// The frame of the call made at this place, if it is abandoned.
    pub fn abandoned_at(&self, made: u64) -> Option<Frame>
        ensures { Tells self.now result (λ l. abandoned_in l made) }
    {
        let row = self.rows[index_of(&self.rows, made)?];
        is_abandoned(&row).then_some(row.frame)
    }

    /// The first frame that passes on the way from the one made there by parents, innermost first.
    pub fn first_on_way<F: Fn(Frame) -> bool>(&self, from: Option<u64>, f: F) -> Option<Frame>
        requires callable { F.IsAlwaysCallable f }
        ensures { (q : declared.Frame → Bool) → AnswersBy (λ x b. F.post f x b) q
            → Tells self.now result (λ l. find q (spec.ancestry from (reverse l))) }
    {
        let mut next = from;
        let mut end = self.rows.len();
        while let Some(made) = next {
            let i = index_of(&self.rows[..end], made)?;
            let frame = self.rows[i].frame;
            if f(frame) {
                return Some(frame);
            }
            next = frame.parent;
            end = i;
        }
        None
    }

    /// The thread of this seat serves the call made there.
    pub fn serve(&mut self, made: u64, seat: u32)
        ensures stands { Makes self.old self.new (λ l. changed (spec.is_frame made) (reading.serve seat) l) }
        ensures uses { Uses self.old self.new 0 }
    {
        if let Some(i) = index_of(&self.rows, made) {
            let row = self.rows[i];
            // Who serves a call of its own is led on as its caller.
            let is_own = row.frame.caller == Some(seat);
            let server = self
                .stacks
                .put(if is_own { None } else { Some(seat) }, made);
            let frame = Frame {
                server: Server::Serving(seat),
                ..row.frame
            };
            self.rows[i] = Row {
                frame,
                server,
                ..row
            };
        }
    }

    /// The call made there has lost who would have served it.
    pub fn lose(&mut self, made: u64)
        ensures stands { Makes self.old self.new (λ l. changed (spec.is_frame made) lost_frame l) }
        ensures uses { Uses self.old self.new 0 }
    {
        turn(
            &mut self.rows,
            Some(made),
            |row| Row {
                frame: frame_lost(row.frame),
                ..row
            },
        );
    }

    /// The thread is gone from its frames, as caller and as server.
    pub fn leave(&mut self, seat: u32)
        ensures stands { Makes self.old self.new (λ l. map (left_frame seat) l) }
        // What has gone leaves nothing behind.
        ensures gone { keeps_bound self.new seat ≡ false }
        ensures uses { Uses self.old self.new 0 }
    {
        let top = self.stacks.top_of(seat);
        leave_down(&mut self.rows, seat, top);
        self.stacks.forget(seat);
    }

    /// Where the calls were made that the thread serves, put after what is there. Fails for want of memory alone.
    pub fn served(&self, seat: u32, served: &mut Vec<u64>) -> Result<(), AllocError>
        ensures served { OnOk result (Tells self.now served.new.items
            (λ l. served.old.items ++ map spec.made_of (filter (λ f. spec.serves seat f.server) l))) }
        // Memory was asked for: there was no room for all of them.
        ensures grown { OnErr result ((l : List declared.Frame) → FramesAre self.now l
            → vec_capacity served.old < vec_len served.old + length (filter (λ f. spec.serves seat f.server) l)) }
    {
        let from = served.len();
        let top = self.stacks.top_of(seat);
        push_served_down(&self.rows, seat, top, served)?;
        reverse_from(served, from);
        Ok(())
    }
}
