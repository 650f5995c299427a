//! What one seat does.

ghost use Rattle.std.specs.Prelude.{◌≡◌, true, false};
ghost use Rattle.bd_driver.specs.Rest.{is_waiting};
ghost use Rattle.bd_player.specs.{Workers.{Acts, SaysAwait, SaysCall, idles}, declared.said.Said.TheVariants.{Idle}};

use crate::said::Said;
use bd_driver::{Desk, Outcome, Seat, Why};
use bd_script::Verb;
use bd_space::Request;
use std::thread;

// How many turns pass before other threads are let go first.
const PATIENCE: u32 = 64;

fn pause(turn: u32) {
    if turn % PATIENCE == PATIENCE - 1 {
        thread::yield_now();
    }
}

// Calls until the driver isn't taken, or as many times as there are turns.
fn call<D: Desk>(desk: &D, seat: &mut Seat, request: Request, turns: u32) -> Said
    requires { (seat.old.table ≡ D.table desk.now) × (is_waiting seat.old.view.handover ≡ false) }
    ensures table { seat.new.table ≡ seat.old.table }
    ensures says { SaysCall seat.old.view seat.new.view request turns result }
{
    let mut request = request;
    for turn in 0..turns {
        match desk.call(seat, request) {
            Outcome::Back {
                request: again,
                why: Why::Taken,
            } => request = again,
            outcome => return Said::of_outcome(outcome),
        }
        pause(turn);
    }
    Said::Turns
}

// Looks until the stamp is at least this, or as many times as there are turns.
fn wait_for<D: Desk>(desk: &D, seat: &mut Seat, stamp: u32, turns: u32) -> Said
    requires { seat.old.table ≡ D.table desk.now }
    ensures table { seat.new.table ≡ seat.old.table }
    ensures says { SaysAwait seat.old.view seat.new.view stamp turns result }
{
    for turn in 0..turns {
        if desk.look(seat).stamp >= stamp {
            return Said::Passed;
        }
        pause(turn);
    }
    Said::Turns
}

/// What a line comes to.
pub fn act<D: Desk>(desk: &D, seat: &mut Seat, verb: Verb, turns: u32) -> Said
    requires { seat.old.table ≡ D.table desk.now }
    ensures table { seat.new.table ≡ seat.old.table }
    // Nothing is done, and that is said, where a request is handed over and may not be, or isn't and should be.
    ensures idle { idles verb (is_waiting seat.old.view.handover) ≡ true
        → (result ≡ Idle) × (seat.new.view ≡ seat.old.view) }
    // Else what the desk answered is said.
    ensures acts { idles verb (is_waiting seat.old.view.handover) ≡ false
        → Acts (D.seats desk.now) seat.old.view seat.new.view verb turns result }
{
    let waiting = seat.is_waiting();
    match verb {
        Verb::Call(request) => {
            if waiting {
                return Said::Idle;
            }
            call(desk, seat, request, turns)
        }
        Verb::Post(request) => {
            if waiting {
                return Said::Idle;
            }
            desk.post(seat, request);
            Said::Handed
        }
        Verb::Look => Said::Page(desk.look(seat)),
        Verb::Await(stamp) => wait_for(desk, seat, stamp, turns),
        Verb::Serve => Said::Served(desk.serve(seat)),
        Verb::Collect => {
            if waiting {
                Said::of_outcome(desk.collect(seat))
            } else {
                Said::Idle
            }
        }
        Verb::Withdraw => {
            if waiting {
                Said::of_outcome(desk.withdraw(seat))
            } else {
                Said::Idle
            }
        }
    }
}
