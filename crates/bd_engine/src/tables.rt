//! What has tables: an engine, and a live engine.

ghost use Rattle.bd_space.specs.Histories.{History, space_after};
ghost use Rattle.bd_step.specs.Stands.{Before};

use bd_step::Tables;

/// What has the tables of a space: an engine, or a live engine. No other crate can name this trait, so none comes to the tables.
pub trait HasTables {
    /// A statement about histories holds of the engine's own history, or of each that a live engine follows.
    ghost says: { Self → (History → Type 0) → Type 0 };

    /// What follows from such a statement for each history holds too.
    ghost concludes: { (x : Self) (P Q : History → Type 0) → ((h : History) → P h → Q h) → says x P → says x Q };

    /// The tables, which stand for the space after the history.
    fn tables(&self) -> &Tables
        ensures { says self.now (λ h. Before result.now (space_after h)) };
}
