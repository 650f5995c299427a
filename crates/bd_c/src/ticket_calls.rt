//! What C calls to keep the descriptors of parcels that are on their way: they take and give numbers of its own.
ghost use Rattle.std.specs.Prelude.{◌≡◌, ◌==◌, not, None, false};
ghost use Rattle.bd_tickets.specs.Came.{kept as kept_of};
ghost use Rattle.bd_c.specs.{Status.{Reports}, Misuse.{IsMisuse}, Behind.{Of, Over, IsThere, IsTickets, tickets_of}};
ghost use Rattle.bd_c.specs.Tickets.{TicketsOpen, PutsTickets, TakesTickets, TellsStep};

use crate::handles::Handle;
use crate::opening::{free, put_made};
use crate::status::Status;
use crate::tickets::{open_tickets, put_tickets, take_tickets, tell_step};
use bd_tickets::kept_descriptors;
use std::alloc::Global;

/// Makes a handle's tickets: none is on its way. The handle has to have nothing.
#[tactic(auto, using(crate::proofs::Behind::none_there))]
#[unsafe(no_mangle)]
pub extern "C" fn hullpippin_tickets_new(alloc: Global, tickets: &mut Handle) -> u32
    ensures begins { tickets.old.held ≡ None → Reports result (TicketsOpen tickets.new.held) }
    ensures misuse { IsThere tickets.old.held → IsMisuse result tickets.old.held tickets.new.held }
{
    if tickets.is_there() {
        return Status::Misuse.number();
    }
    put_made(tickets, open_tickets(alloc))
}

/// The parcel that the step at a place sends goes on its way with these descriptors, unless one of that step is.
#[unsafe(no_mangle)]
pub extern "C" fn hullpippin_tickets_put(
    alloc: Global,
    tickets: &mut Handle,
    step: u64,
    descriptors: &[u32],
) -> u32
    ensures puts { IsTickets tickets.old.held → Reports result (λ s. Over tickets_of tickets.old.held tickets.new.held (λ x y.
        PutsTickets x y step descriptors.now s)) }
    ensures misuse { (IsTickets tickets.old.held → ⊥) → IsMisuse result tickets.old.held tickets.new.held }
{
    match tickets.tickets() {
        Some(all) => put_tickets(alloc, all, step, descriptors).number(),
        None => Status::Misuse.number(),
    }
}

/// Hands out the descriptors of the parcel that the step at a place sends, if all of them fit, and tells how many they are. Answers
/// whether there is such a parcel.
#[unsafe(no_mangle)]
pub extern "C" fn hullpippin_tickets_take(
    tickets: &mut Handle,
    step: u64,
    out: &mut [u32],
    count: &mut usize,
) -> bool
    ensures takes { IsTickets tickets.old.held → Over tickets_of tickets.old.held tickets.new.held (λ x y.
        TakesTickets x y step out.old out.new count.old count.new result) }
    ensures misuse { (IsTickets tickets.old.held → ⊥) → (result ≡ false) × (tickets.new.held ≡ tickets.old.held)
        × (out.new ≡ out.old) × (count.new ≡ count.old) }
{
    match tickets.tickets() {
        Some(all) => take_tickets(all, step, out, count),
        None => false,
    }
}

/// Tells the place of a step whose parcel is on its way. Answers whether there is one.
#[unsafe(no_mangle)]
pub extern "C" fn hullpippin_tickets_some_step(tickets: &mut Handle, step: &mut u64) -> bool
    ensures same { tickets.new.held ≡ tickets.old.held }
    ensures tells { IsTickets tickets.old.held → Of tickets_of tickets.old.held (λ x. TellsStep x step.old step.new result) }
    ensures misuse { (IsTickets tickets.old.held → ⊥) → (result ≡ false) × (step.new ≡ step.old) }
{
    match tickets.tickets() {
        Some(all) => tell_step(all, step),
        None => false,
    }
}

/// Lets go of tickets, if there are any. The handle then has nothing.
#[unsafe(no_mangle)]
pub extern "C" fn hullpippin_free_tickets(alloc: Global, tickets: &mut Handle)
    ensures { tickets.new.held ≡ None }
{
    free(alloc, tickets);
}

/// How many of the descriptors that came with a request are its own: all of them, as many as it says, or none. `is_whole` isn't 0 where they
/// came in one piece, and `is_run` where it is run.
#[unsafe(no_mangle)]
pub extern "C" fn hullpippin_descriptors_kept(
    wanted: u32,
    came: u32,
    is_whole: u32,
    is_run: u32,
) -> u32
    ensures { result ≡ kept_of wanted came (not (is_whole == 0)) (not (is_run == 0)) }
{
    kept_descriptors(wanted, came, is_whole != 0, is_run != 0)
}
