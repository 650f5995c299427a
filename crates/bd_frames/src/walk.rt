//! The way down a thread's stack, from its innermost frame to the next older one, and so on.

ghost use Rattle.std.specs.Prelude.{◌≡◌, ◌≤◌, ◌<◌, ◌+◌, ◌++◌, ◌∷◌, [], IfSome, OnOk, OnErr, take, drop, map, filter, reverse, length, vec_len, vec_capacity};
ghost use Rattle.bd_space.specs.Frames as spec;
ghost use Rattle.bd_frames.specs.{Places.{AreRising, IsNewest, frames_of}, Linked.{IsStack}, Words.{left_row}};

use crate::frame::{Row, below_of, frame_without, serves};
use crate::place::newest_part;
use bd_space::Frame;
use std::alloc::AllocError;

// What is still to come: frames before this index, and the bound of the thread's among them.
#[derive(Drop)]
struct Way {
    end: usize,
    bound: Option<u64>,
}

impl Way {
    // Goes on to the next frame in which the thread takes part.
    fn next(&mut self, rows: &[Row], seat: u32) -> Option<usize>
        requires { self.old.end ≤ length rows.now }
        ensures end { IfSome result (λ i. (i < self.old.end) × (self.new.end ≡ i)) }
        ensures newest { AreRising (take self.old.end rows.now) → IsStack seat self.old.bound (take self.old.end rows.now)
            → IsNewest seat (take self.old.end rows.now) result }
        ensures rest { AreRising (take self.old.end rows.now) → IsStack seat self.old.bound (take self.old.end rows.now)
            → IfSome result (λ i. IsStack seat self.new.bound (take i rows.now)) }
    {
        let i = newest_part(&rows[..self.end], seat, self.bound)?;
        self.bound = self.bound.and(below_of(seat, &rows[i]));
        self.end = i;
        Some(i)
    }
}

/// The thread is gone from its frames, of which this is the bound.
pub(crate) fn leave_down(rows: &mut Vec<Row>, seat: u32, bound: Option<u64>)
    ensures rows { AreRising rows.old.items → IsStack seat bound rows.old.items → rows.new.items ≡ map (left_row seat) rows.old.items }
    ensures len { vec_len rows.new ≡ vec_len rows.old }
    ensures capacity { vec_capacity rows.new ≡ vec_capacity rows.old }
{
    let mut way = Way {
        end: rows.len(),
        bound,
    };
    while let Some(i) = way.next(rows, seat) {
        let row = rows[i];
        rows[i] = Row {
            frame: frame_without(seat, row.frame),
            ..row
        };
    }
}

// Where the frame's call was made, put after what is there, if the thread serves it.
fn push_if_served(frame: Frame, seat: u32, served: &mut Vec<u64>) -> Result<(), AllocError>
    ensures served { OnOk result (served.new.items
        ≡ served.old.items ++ map spec.made_of (filter (λ f. spec.serves seat f.server) (frame ∷ []))) }
    ensures longer { vec_len served.old ≤ vec_len served.new }
    ensures capacity { vec_capacity served.old ≤ vec_capacity served.new }
    // Memory was asked for: there was no room for the place.
    ensures grown { OnErr result (vec_capacity served.old
        < vec_len served.old + length (filter (λ f. spec.serves seat f.server) (frame ∷ []))) }
{
    if serves(seat, frame.server) {
        served.push(frame.made)?;
    }
    Ok(())
}

/// Where those of the thread's frames were made that it serves, innermost first, put after what is there.
pub(crate) fn push_served_down(
    rows: &[Row],
    seat: u32,
    bound: Option<u64>,
    served: &mut Vec<u64>,
) -> Result<(), AllocError>
    ensures served { AreRising rows.now → IsStack seat bound rows.now
        → OnOk result (served.new.items ≡ served.old.items
        ++ reverse (map spec.made_of (filter (λ f. spec.serves seat f.server) (frames_of rows.now)))) }
    ensures longer { vec_len served.old ≤ vec_len served.new }
    // Memory was asked for: there was no room for all of them.
    ensures grown { AreRising rows.now → IsStack seat bound rows.now → OnErr result (vec_capacity served.old
        < vec_len served.old + length (filter (λ f. spec.serves seat f.server) (frames_of rows.now))) }
{
    let mut way = Way {
        end: rows.len(),
        bound,
    };
    while let Some(i) = way.next(rows, seat) {
        push_if_served(rows[i].frame, seat, served)?;
    }
    Ok(())
}

/// The places from this index on in the other order.
pub(crate) fn reverse_from(places: &mut Vec<u64>, from: usize)
    requires { from ≤ vec_len places.old }
    ensures { places.new.items ≡ take from places.old.items ++ reverse (drop from places.old.items) }
{
    places[from..].reverse();
}
