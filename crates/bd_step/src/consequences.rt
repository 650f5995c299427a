//! What follows from a change besides names and objects: a one-way call becomes due, calls close.

ghost use Rattle.std.specs.Prelude.{◌≤◌, length};
ghost use Rattle.bd_ways.specs.Local.{close_up, close_among};
ghost use Rattle.bd_calls.specs.{Closing.{is_place_among}, Room.{work_room, frame_count}};
ghost use Rattle.bd_step.specs.{Stands.{Uses, MakesWithin, KeepsTold}, Freed.{ripen_next}};

use crate::tables::Tables;
use bd_space::Identity;

impl Tables {
    /// The oldest one-way call on the object becomes due if it is ripe, where there is an object.
    #[inline(always)]
    pub(crate) fn ripen_next(&mut self, object: Option<Identity>)
        requires { 1 ≤ work_room self.old.calls }
        ensures stands { MakesWithin self.old self.new (ripen_next object) }
        ensures uses { Uses self.old self.new 0 0 1 }
        ensures told { KeepsTold self.old self.new }
    {
        if let Some(o) = object {
            self.calls.ripen_on(self.steps, o);
        }
    }

    /// The call made there closes if it is abandoned, then the one in which it was made, and so on.
    pub(crate) fn close_up(&mut self, made: Option<u64>)
        requires { frame_count self.old.calls ≤ work_room self.old.calls }
        ensures stands { MakesWithin self.old self.new (λ s. close_up (length s.frames) made s) }
        ensures told { KeepsTold self.old self.new }
    {
        self.calls.close_up(self.steps, made);
    }

    /// Of the chosen calls those close that are abandoned, oldest first, and then the ones in which they were made.
    pub(crate) fn close_among(&mut self, chosen: &mut [u64])
        requires { frame_count self.old.calls ≤ work_room self.old.calls }
        ensures stands { MakesWithin self.old self.new (λ s. close_among (length s.frames) (is_place_among chosen.old) s) }
        ensures told { KeepsTold self.old self.new }
    {
        self.calls.close_among(self.steps, chosen);
    }
}
