//! Which todo lists were filled or emptied.

ghost use Rattle.std.specs.Prelude.{◌≡◌, Bool, true, IfOk, OnOk, OnErr};
ghost use Rattle.bd_keys.specs.Tables.{Makes};
ghost use Rattle.bd_space.specs.declared.space.TodoList as lists;
ghost use Rattle.bd_space.specs.Histories.{History, space_after};
ghost use Rattle.bd_engine.specs.Follows.{Follows};
ghost use Rattle.bd_engine.specs.Reached.{AreReached, HasRoomToTell, KeepsTold, Recalls, TheseNameAll, has_work, knows_all};

use crate::live::Live;
use bd_space::TodoList;
use std::alloc::AllocError;

/// So many lists may get or lose something before it is said that any other may have been filled or emptied too. A step fills or
/// empties four at most in what was seen.
const LISTS: usize = 64;

/// Whom to ask after a step: of all seats but its own only those can have come to be ready or unready whose own list was filled
/// or emptied, or the list of whose process, or whose thread has ended.
pub fn these_name_all()
    ensures { TheseNameAll }
{}

impl Live {
    /// Lists the todo lists that were filled or emptied since this was last called, in place of what `reached` had, and says
    /// whether these are all. That isn't known the first time it is called, where more lists than there was room for got or lost
    /// something, and where a notice or the work item of a death notification was withdrawn: then any other may have been as
    /// well. A list that was filled and then emptied isn't told. It takes no memory but the first time, or where `reached` has too
    /// little room; a step takes none for it. Errors: memory was refused; then all is told the next time.
    pub fn tell_reached(&mut self, reached: &mut Vec<TodoList>) -> Result<bool, AllocError>
        // It follows what it followed.
        ensures follows { Makes (Follows self.old) (Follows self.new) (λ h. h) }
        ensures whole { IfOk result (λ whole. whole ≡ knows_all self.old) }
        // Then a list is among them exactly where what was told of it isn't so.
        ensures exact { IfOk result (λ whole. whole ≡ true → (told : lists.TodoList → Bool) (h : History)
            → Recalls self.old told → Follows self.old h → AreReached reached.new.items told (space_after h)) }
        // From now on this was told.
        ensures afresh { OnOk result ((h : History) → Follows self.old h → Recalls self.new (has_work (space_after h))) }
        ensures knows { OnOk result (knows_all self.new ≡ true) }
        // So many lists may then be filled or emptied before it has to say that any other may have been.
        ensures room { OnOk result (HasRoomToTell self.new 64) }
        ensures err { OnErr result (KeepsTold self.old self.new) }
        // It has as many seats as before.
        ensures seats { self.new.seats ≡ self.old.seats }
    {
        let tables = &mut *self.tables;
        tables.calls.reserve_reached(LISTS)?;
        tables.calls.tell_reached(reached)
    }
}
