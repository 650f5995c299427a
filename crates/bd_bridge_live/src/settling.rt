//! The bridge over a live engine, in the space's own words.

ghost use Rattle.std.specs.Prelude.{ℕ, ◌≡◌, ◌≤◌, ◌+◌, ◌-◌, ◌⊎◌, [], Some, false, IsTrue, IsSome, vec_len, vec_capacity};
ghost use Rattle.bd_space.specs.Histories.{History, space_after, is_ready};
ghost use Rattle.bd_bridge.specs.{Forgotten.{NobodyIsForgotten, IsLeft}, Waiting.{at, seats_in}, Settled.{HasSettled}, Signals.{world_then}, Suspects.{suspects_in}};
ghost use Rattle.bd_bridge_live.specs.Live.{FollowsTold, Sees, IsOf, CanRest, CanWait, after_read};

use crate::live::{LiveEngine, NotMade};
use bd_bridge::{Bridge, Signal};
use bd_space::Entry;

/// Settles as the bridge does. Where nobody is left to be looked at, no seat that waits in a read is ready in the space
/// after the history so far and all that was read meanwhile; but for who waits in one that leaves the completion of a call, and has nothing
/// else. The entries of what was read are taken out of what is kept.
pub fn settle(
    bridge: &mut Bridge<LiveEngine>,
    looks: usize,
    kept: &mut Option<Entry>,
    signals: &mut Vec<Signal<Result<Entry, NotMade>>>,
) -> bool
    requires room { vec_len signals.old + looks ≤ vec_capacity signals.old }
    requires none { signals.old.items ≡ [] }
    // Each signal was due, nobody is woken twice, whoever gets none waits as before, and nobody is forgotten.
    ensures on { (h : History) → FollowsTold bridge.old.engine h → NobodyIsForgotten (Sees h) (IsOf h) (CanRest h) bridge.old.waiters bridge.old.suspects bridge.old.resting
        → HasSettled FollowsTold Sees IsOf after_read CanWait CanRest h bridge.old.waiters signals.new.items bridge.new.engine bridge.new.waiters bridge.new.suspects bridge.new.resting }
    ensures settled { IsTrue result → (h : History) → FollowsTold bridge.old.engine h → NobodyIsForgotten (Sees h) (IsOf h) (CanRest h) bridge.old.waiters bridge.old.suspects bridge.old.resting
        → (let h' = world_then after_read h signals.new.items in (seat : ℕ) (w : _) → at bridge.new.waiters seat ≡ Some w → IsSome w.reads
        → (is_ready (space_after h') seat ≡ false) ⊎ IsLeft (CanRest h') seat w) }
    // Looks that come to no signal come to an end.
    ensures progress { signals.new.items ≡ [] → suspects_in bridge.old.suspects ≤ looks → IsTrue result }
    ensures fewer { signals.new.items ≡ [] → suspects_in bridge.new.suspects ≤ suspects_in bridge.old.suspects - looks }
    ensures capacity { vec_capacity signals.new ≡ vec_capacity signals.old }
    ensures seats { seats_in bridge.new.waiters ≡ seats_in bridge.old.waiters }
{
    bridge.settle(looks, kept, signals)
}
