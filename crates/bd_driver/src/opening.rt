//! A new driver, and its seats.
ghost use Rattle.std.specs.Prelude.{◌≡◌, ◌+◌, ◌<◌, ◌≤◌, [], ◌∷◌, suc, All, IfOk, IfErr, OnOk, vec_len, vec_capacity, replicate};
ghost use Rattle.bd_uapi.specs.Limits.{IsSeats};
ghost use Rattle.bd_driver.specs.{Views.{fresh, seated, newcomers}, Together.{seat_state, new_seats}};
ghost use Rattle.bd_driver.specs.declared.slot.Slot.TheVariants.{Home, Empty};

use crate::boxed::{BoxedEngine, Envelope};
use crate::driver::{Driver, DriverTable};
use crate::page::page_while_taken;
use crate::plays::{Deal, Open};
use crate::seat::{Seat, TableSeat};
use crate::slot::Slot;
use crate::states::TAKEN;
use atomic_table::Table;
use bd_uapi::{Fault, MOST_SEATS};
use std::alloc::{AllocError, Global};

impl Driver {
    ghost use Rattle.bd_driver.specs.Faults.{FaultFits};

    /// A driver with so many seats, which are numbered from 0, in this order. Each is of this driver (`own`), and has
    /// seen the empty history (`seats`). Refused with F16 exactly where `seats` is 0 or above 31, and else with F14
    /// alone (`fault`).
    pub fn new(alloc: Global, seats: u32) -> Result<(Driver, Vec<Seat>), Fault>
        ensures within { IfOk result (λ _. IsSeats seats) }
        ensures count { IfOk result (λ r. r.0.seats ≡ seats) }
        ensures seats { IfOk result (λ r. r.1.items ≡ new_seats r.0.table seats 0 seats) }
        ensures own { IfOk result (λ r. All (λ s. s.table ≡ r.0.table) r.1.items) }
        ensures fault { IfErr result (λ f. FaultFits f seats) }
    {
        if seats == 0 || seats > MOST_SEATS {
            return Err(Fault::SeatCount);
        }
        let Ok(mut dealt) = Vec::with_capacity(alloc, seats as usize) else {
            return Err(Fault::NoMemory);
        };
        let Ok(engine) = BoxedEngine::for_seats(alloc, seats) else {
            return Err(Fault::NoMemory);
        };
        let page = page_while_taken(&engine) - TAKEN;
        let Ok(words) = lay_words(alloc, page, seats as usize) else {
            return Err(Fault::NoMemory);
        };
        let Ok(slots) = lay_slots(alloc, engine, seats as usize) else {
            return Err(Fault::NoMemory);
        };
        let Ok((table, mut keeper)) = Table::new(alloc, words.as_slice(), slots, &seats) else {
            return Err(Fault::NoMemory);
        };
        let Ok(()) = deal(alloc, &table, &mut keeper, &mut dealt, seats) else {
            return Err(Fault::NoMemory);
        };
        Ok((Driver { table, alloc }, dealt))
    }
}

// The words of the table: the page, and for each seat a mailbox in which nothing lies.
fn lay_words(alloc: Global, page: u64, seats: usize) -> Result<Vec<u64>, AllocError>
    requires { seats < 32 }
    ensures { IfOk result (λ v. v.items ≡ page ∷ replicate seats 0) }
{
    let mut words = Vec::new(alloc);
    words.push(page)?;
    for done in 0..seats {
        words.push(0)?;
    }
    Ok(words)
}

// The slots of the table: the engine's, and an empty one for each seat.
fn lay_slots(alloc: Global, engine: BoxedEngine, seats: usize) -> Result<Vec<Slot>, AllocError>
    requires { seats < 32 }
    ensures { IfOk result (λ v. v.items ≡ Home engine ∷ replicate seats Empty) }
{
    let mut slots = Vec::new(alloc);
    slots.push(Slot::Home(engine))?;
    for done in 0..seats {
        slots.push(Slot::Empty)?;
    }
    Ok(slots)
}

// Each seat gets its view, its mailbox's slot, and the box of what it hands over.
fn deal(
    alloc: Global,
    table: &DriverTable,
    keeper: &mut TableSeat,
    dealt: &mut Vec<Seat>,
    seats: u32,
) -> Result<(), AllocError>
    requires table { keeper.old.table_id ≡ table.now.shared.table_id }
    requires wide { table.now.shared.table_id.words ≡ suc seats }
    requires key { table.now.shared.key ≡ seats }
    requires keeper { keeper.old.me ≡ (newcomers seats 0 seats, []) }
    requires dealt { dealt.old.items ≡ [] }
    requires room { vec_len dealt.old + seats ≤ vec_capacity dealt.old }
    ensures keeper { OnOk result ((keeper.new.table_id ≡ keeper.old.table_id) × (keeper.new.me ≡ ([], []))) }
    ensures dealt { OnOk result (dealt.new.items ≡ new_seats table.now.shared.table_id seats 0 seats) }
{
    for number in 0..seats {
        let envelope = Envelope::new(alloc)?;
        let table_seat = table.shared.split_seat::<Deal>(keeper);
        dealt.push_reserved(open(table, table_seat, number, seats, envelope));
    }
    Ok(())
}

// A seat takes its own mailbox's slot.
fn open(
    table: &DriverTable,
    mut table_seat: TableSeat,
    number: u32,
    seats: u32,
    envelope: Envelope,
) -> Seat
    requires table { table_seat.table_id ≡ table.now.shared.table_id }
    requires wide { table.now.shared.table_id.words ≡ suc seats }
    requires number { number < seats }
    requires fresh { table_seat.me ≡ (fresh seats number ∷ [], []) }
    ensures { result ≡ seat_state table.now.shared.table_id (seated seats number) }
{
    table
        .shared
        .load::<Open>(&mut table_seat, number as usize + 1);
    Seat {
        table_seat,
        number,
        envelope: Some(envelope),
    }
}
