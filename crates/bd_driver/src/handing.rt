//! Handing a request over: one step each on the seat's own mailbox, and none on the page.
ghost use Rattle.std.specs.Prelude.{◌≡◌, true, false};
ghost use Rattle.bd_driver.specs.Rest.{is_waiting};

use crate::driver::Driver;
use crate::outcome::{Outcome, Why};
use crate::plays::{Collect, Post, Withdraw};
use crate::seat::Seat;
use crate::slot::Slot;
use crate::states::{ANSWERED, EMPTY, POSTED};
use bd_space::Request;

impl Driver {
    ghost use Rattle.bd_driver.specs.Handing.{Posts, Withdraws, Collects};

    /// Hands a request over to whoever serves next. It is then handed over, with the length seen, until Done or Back.
    /// One step is made, on the own mailbox, and nothing else of the view changes (`posts`). Takes no memory.
    pub fn post(&self, seat: &mut Seat, request: Request)
        requires table { seat.old.table ≡ self.now.table }
        requires free { is_waiting seat.old.view.handover ≡ false }
        ensures same { seat.new.table ≡ seat.old.table }
        ensures posts { Posts seat.old.view seat.new.view request }
    {
        let shared = &self.table.shared;
        let word = seat.number as usize + 1;
        let Some(envelope) = seat.envelope.take() else {
            unreachable!()
        };
        let posted = Slot::Posted(envelope.filled(request));
        shared.exchange(&mut seat.table_seat, word, posted);
        shared.swap::<Post>(&mut seat.table_seat, word, POSTED);
    }

    /// Takes back what was handed over, if nobody has picked it.
    ///
    /// One step is made, on the own mailbox (`withdraws`). Back with Withdrawn: the request comes back equal, and
    /// nothing of it stands in the history, nor ever will: the own places stay, and nothing is handed over. Handed
    /// exactly where the step found the mailbox other than posted. Takes no memory.
    pub fn withdraw(&self, seat: &mut Seat) -> Outcome
        requires table { seat.old.table ≡ self.now.table }
        requires waiting { is_waiting seat.old.view.handover ≡ true }
        ensures same { seat.new.table ≡ seat.old.table }
        ensures withdraws { Withdraws seat.old.view seat.new.view result }
    {
        let shared = &self.table.shared;
        let word = seat.number as usize + 1;
        let found = shared.compare_exchange::<Withdraw>(&mut seat.table_seat, word, POSTED, EMPTY);
        if found != POSTED {
            return Outcome::Handed;
        }
        let Slot::Posted(posted) = shared.exchange(&mut seat.table_seat, word, Slot::Empty) else {
            unreachable!()
        };
        let (request, envelope) = posted.open();
        seat.envelope = Some(envelope);
        Outcome::Back {
            request,
            why: Why::Withdrawn,
        }
    }

    /// The answer to what was handed over, if it is there.
    ///
    /// One step is made, on the own mailbox (`collects`). Done: what was posted was run, and its entries stand `from`
    /// up to and without `to` in a history that the seat has then seen; they begin not below the length that it had
    /// seen at its post, and their places are its own from then on. Back: the equal request, with NoMemory or
    /// HistoryFull, each only where `call` could say it after a beginning of what is then seen, which isn't shorter than
    /// what it had seen at its post. Handed exactly where the step found no answer there. Takes no memory.
    pub fn collect(&self, seat: &mut Seat) -> Outcome
        requires table { seat.old.table ≡ self.now.table }
        requires waiting { is_waiting seat.old.view.handover ≡ true }
        ensures same { seat.new.table ≡ seat.old.table }
        ensures collects { Collects seat.old.view seat.new.view result }
    {
        let shared = &self.table.shared;
        let word = seat.number as usize + 1;
        let found = shared.compare_exchange::<Collect>(&mut seat.table_seat, word, ANSWERED, EMPTY);
        if found != ANSWERED {
            return Outcome::Handed;
        }
        let Slot::Answered(answered) = shared.exchange(&mut seat.table_seat, word, Slot::Empty)
        else {
            unreachable!()
        };
        let (outcome, envelope) = answered.open();
        seat.envelope = Some(envelope);
        outcome
    }
}
