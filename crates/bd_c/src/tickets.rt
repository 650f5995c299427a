//! Descriptors that are on their way beside an engine, as C has them.
ghost use Rattle.std.specs.{Prelude.{◌≡◌, Some, IfOk, IfErr, IfSome, IfNone, IsSomeAnd, MatchOption, None, length}, Borrow.{sem}};
ghost use Rattle.bd_tickets.specs.contracts.shelves.Shelves.{the_row as shelves_row};
ghost use Rattle.bd_c.specs.declared.held.Held.TheVariants.{Tickets};
ghost use Rattle.bd_c.specs.declared.status.Status.TheVariants.{NoMemory};
ghost use Rattle.bd_c.specs.{Behind.{Of, IsTickets, tickets_of}, Lending.{LendsAs}};
ghost use Rattle.bd_c.specs.Tickets.{AreNone, PutsTickets, TakesTickets, TellsStep, with_parcel};

use crate::handles::Handle;
use crate::held::Held;
use crate::opening::boxed;
use crate::parts::fill;
use crate::status::Status;
use bd_tickets::Shelves;
use std::alloc::Global;

impl Handle {
    /// The descriptors that are behind the handle, if it is for such.
    pub(crate) fn tickets(&mut self) -> Option<&mut Shelves>
        ensures* lends { sem 𝓛 (LendsAs shelves_row Tickets self.entry result) }
        ensures tickets { MatchOption result (IsTickets self.old.held → ⊥) (λ r. self.old.held ≡ Some (Tickets r.now)) }
    {
        match self.held()? {
            Held::Tickets(tickets) => Some(tickets),
            _ => None,
        }
    }
}

/// None that is on its way, in a box.
pub(crate) fn open_tickets(alloc: Global) -> Result<Box<Held>, Status>
    ensures ok { IfOk result (λ b. Of tickets_of (Some b.value) AreNone) }
    ensures refused { IfErr result (λ s. s ≡ NoMemory) }
{
    match Shelves::new(alloc) {
        Ok(tickets) => boxed(alloc, Held::Tickets(tickets)),
        Err(_) => Err(Status::NoMemory),
    }
}

/// A step's parcel goes on its way with these.
pub(crate) fn put_tickets(
    alloc: Global,
    tickets: &mut Shelves,
    step: u64,
    descriptors: &[u32],
) -> Status
    ensures { PutsTickets tickets.old tickets.new step descriptors.now result }
{
    if tickets.get(step).is_some() {
        return Status::Waiting;
    }
    let Ok(copy) = descriptors.to_vec(alloc) else {
        return Status::NoMemory;
    };
    match tickets.put(step, copy) {
        Ok(()) => Status::Done,
        Err(_) => Status::NoMemory,
    }
}

// How many go with a step's parcel.
fn count_with(tickets: &Shelves, step: u64) -> Option<usize>
    ensures none { IfNone result (with_parcel tickets.now step ≡ None) }
    ensures some { IfSome result (λ n. IsSomeAnd (with_parcel tickets.now step) (λ ds. n ≡ length ds)) }
{
    match tickets.get(step) {
        Some(descriptors) => Some(descriptors.len()),
        None => None,
    }
}

/// Hands those of a step's parcel out, if all of them fit, and tells how many they are.
pub(crate) fn take_tickets(
    tickets: &mut Shelves,
    step: u64,
    out: &mut [u32],
    count: &mut usize,
) -> bool
    ensures { TakesTickets tickets.old tickets.new step out.old out.new count.old count.new result }
{
    let Some(size) = count_with(tickets, step) else {
        return false;
    };
    *count = size;
    if size > out.len() {
        return true;
    }
    match tickets.take(step) {
        Some(taken) => {
            fill(out, &taken);
            true
        }
        None => unreachable!(),
    }
}

/// Tells a step whose parcel is on its way.
pub(crate) fn tell_step(tickets: &Shelves, step: &mut u64) -> bool
    ensures { TellsStep tickets.now step.old step.new result }
{
    match tickets.some_step() {
        Some(found) => {
            *step = found;
            true
        }
        None => false,
    }
}
