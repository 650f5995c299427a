//! The end of a driver: its seats are gathered, and its slots emptied.
ghost use Rattle.std.specs.Prelude.{◌≡◌, ◌<◌, [], ◌∷◌, false, ℕ, All, IsTrue, slice_index_or};
ghost use Rattle.std.specs.Slots.{slots_len, slots_filled};
ghost use Rattle.bd_driver.specs.{Views.{Each, Idle}, Together.{views_of, closed_view}};

use crate::driver::DriverTable;
use crate::plays::{Gather, Shut};
use crate::seat::{Seat, TableSeat};
use crate::slot::Slot;
use atomic_table::Closed;
use std::alloc::Global;

// Hands the views of all seats to the keeper, so that one seat knows what all of them know.
pub(crate) fn gather(table: &DriverTable, keeper: &mut TableSeat, mut seats: Vec<Seat>)
    requires table { keeper.old.table_id ≡ table.now.shared.table_id }
    requires wide { 0 < table.now.shared.table_id.words }
    requires keeper { keeper.old.me ≡ ([], []) }
    requires seats { All (λ s. s.table ≡ table.now.shared.table_id) seats.items }
    ensures keeper { (keeper.new.table_id ≡ keeper.old.table_id) × (keeper.new.me ≡ (views_of seats.items, [])) }
    ensures idle { Each Idle (views_of seats.items) }
{
    while let Some(seat) = seats.pop() {
        let table_seat = shut(table, seat);
        table.shared.join_seat::<Gather>(keeper, table_seat);
    }
}

// Shuts the seat's own mailbox, unless the seat waits.
fn shut(table: &DriverTable, seat: Seat) -> TableSeat
    requires { seat.table ≡ table.now.shared.table_id }
    ensures table { result.table_id ≡ table.now.shared.table_id }
    ensures view { result.me ≡ (closed_view seat.view ∷ [], []) }
    ensures idle { seat.view.taker ≡ false }
{
    let Seat {
        mut table_seat,
        number,
        envelope,
    } = seat;
    if envelope.is_none() {
        return table_seat;
    }
    table
        .shared
        .load::<Shut>(&mut table_seat, number as usize + 1);
    table_seat
}

// Takes each slot but the first.
pub(crate) fn drain(closed: &mut Closed<Slot, Global>)
    requires some { 0 < slots_len closed.old.slots }
    requires filled { (k : ℕ) → 0 < k → k < slots_len closed.old.slots
        → IsTrue (slice_index_or (slots_filled closed.old.slots) k false) }
    requires first { slice_index_or (slots_filled closed.old.slots) 0 false ≡ false }
    ensures { (k : ℕ) → k < slots_len closed.new.slots
        → slice_index_or (slots_filled closed.new.slots) k false ≡ false }
{
    let count = closed.slot_count();
    for at in 1..count {
        drop(closed.take(at));
    }
}
