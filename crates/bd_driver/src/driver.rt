//! The driver, the rule of its table, and its end: its history.
ghost use Rattle.std.specs.Prelude.{◌≡◌, All};

use crate::closing::{drain, gather};
use crate::plays::Enter;
use crate::seat::Seat;
use crate::slot::Slot;
use crate::view::View;
use atomic_table::{Table, TableRule};
use bd_spelling::{Entries, Record};
use std::alloc::Global;
use std::collections::LinkedList;
use std::marker::Model;

/// The rule of a driver's table: there is one history, and the page, the mailboxes, the engine and all views agree with
/// it.
pub(crate) struct OneHistory;

impl TableRule<Slot, LinkedList<View>, u32> for OneHistory {
    ghost use Rattle.bd_driver.specs.{Rule.{Kept}, Views.{newcomers}};

    ghost holds = { λ seats s. Kept seats s };

    ghost first = { λ seats. newcomers seats 0 seats };
}

/// A table whose word 0 is the page, and whose word 1 + i is the mailbox of seat i.
pub(crate) type DriverTable = Table<Slot, LinkedList<View>, u32, OneHistory, Global>;

/// One engine that several seats share.
pub struct Driver {
    pub(crate) table: DriverTable,
    pub(crate) alloc: Global,
}

// Written out: one that is derived would be proved again, with all that lies in the table, in every crate that holds a
// driver.
impl Drop for Driver {
    fn drop(self) {
        let Driver { table: _, alloc: _ } = self;
    }
}

impl Model for Driver {
    ghost use Rattle.std.specs.Prelude.{◌≡◌, suc, ◌<◌};
    ghost use Rattle.bd_driver.specs.States.{DriverState};

    ghost Value = { DriverState };

    ghost view = { λ d. record { table = d.table.shared.table_id; seats = d.table.shared.key } };

    ghost invariant = { λ d. (d.table.shared.table_id.words ≡ suc d.table.shared.key)
        × (d.table.shared.table_id.slots ≡ suc d.table.shared.key)
        × (d.table.shared.key < 32) };
}

impl Driver {
    ghost use Rattle.bd_space.specs.Histories.{IsHistory};
    ghost use Rattle.bd_spelling.specs.Records.{history_in};
    ghost use Rattle.bd_driver.specs.Together.{AllSeats, IsFinal};

    /// The history, where all seats are there, in any order: it begins with what each seat has seen, and a seat's
    /// entries are exactly its own places. A seat that still waits may have beside these the entries of one run of what
    /// it handed over (`history`). With fewer seats it is a history still (`lawful`), of which nothing more is said. Takes
    /// no memory.
    pub fn finish(self, seats: Vec<Seat>) -> Record
        requires { All (λ s. s.table ≡ self.table) seats.items }
        ensures history { AllSeats self.seats seats.items → IsFinal self.seats seats.items result.seats result.entries }
        ensures lawful { IsHistory (history_in result) }
    {
        let Driver { table, alloc } = self;
        let (_, mut keeper) = table.shared.load_new_seat::<Enter>(0);
        gather(&table, &mut keeper, seats);
        let mut closed = table.close_with(keeper);
        let slot = closed.take(0);
        drain(&mut closed);
        closed.free();
        match slot {
            Slot::Home(engine) => engine.open().into_record(),
            _ => Record {
                seats: 0,
                entries: Entries::none(alloc),
            },
        }
    }
}
