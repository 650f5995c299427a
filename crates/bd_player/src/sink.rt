//! Where what lines say goes.

use crate::said::Said;

/// Takes what lines say, in their order.
pub trait Sink {
    ghost use Rattle.std.specs.Prelude.{◌≡◌, ℕ, Bool, not};
    ghost use Rattle.bd_player.specs.declared.said.Said.{Said};

    /// What taking a line's number and what it said makes of a sink.
    ghost takes: { Self → ℕ → Said → Self → Type 0 };

    /// Whether it has no room for what a further line would say.
    ghost is_full: { Self → Bool };

    /// Takes what the line of this number said. Whether a further line may be run.
    fn accept(&mut self, number: u64, said: Said) -> bool
        ensures takes { takes self.old number said self.new }
        ensures room { result ≡ not (is_full self.new) };
}
