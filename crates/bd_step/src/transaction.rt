//! The step of BC_TRANSACTION.

ghost use Rattle.std.specs.Prelude.{ℕ, ◌≡◌, ◌+◌, ◌≤◌, ◌&&◌, length, Some, None, is_some, is_none, option_and_then, if◌then◌else◌, IfOk, IfErr, IfSome, OnOk, OnErr};
ghost use Rattle.bd_space.specs.{Space.{Space}, Seats.{process_in}, declared.space.TodoList.TheVariants.{OfThread}};
ghost use Rattle.bd_space.specs.declared.space.WorkKind.TheVariants as kinds;
ghost use Rattle.bd_space.specs.Todo as todo;
ghost use Rattle.bd_space.specs.Names.{names_go};
ghost use Rattle.bd_space.specs.Outcomes as outcomes;
ghost use Rattle.bd_space.specs.Frames as frames;
ghost use Rattle.bd_space.specs.Transactions as spec;
ghost use Rattle.bd_calls.specs.Room.{work_room, frame_room};
ghost use Rattle.bd_step.specs.Stands.{StandsAt, CanFollow, Tells, PassesLimit, KeepsTold};
ghost use Rattle.bd_step.specs.Stands.{TellsOfStacked, TellsBeforeOfStacked, MakesOfStacked};
ghost use Rattle.bd_step.specs.Meets.{IsBy, IsSending, IsKept, IsStep};
ghost use Rattle.bd_step.specs.Deliveries.{IsDeliverable, IsReady, DeliversCall, Spends};

use crate::answer::Plain;
use crate::delivery::Delivery;
use crate::step_error::StepError;
use crate::tables::Tables;
use bd_calls::serves;
use bd_objects::NumbersFull;
use bd_space::{Actor, Callee, Frame, Identity, Parcel, Process, WorkKind};
use bd_uapi::{Cause, Return, TransactionData};
use std::alloc::AllocError;

fn is_one_way(sent: &TransactionData) -> bool
    ensures { result ≡ spec.is_one_way sent.now }
{
    sent.flags.is_one_way()
}

// The handle is the low half of the target.
fn handle_of(sent: &TransactionData) -> u32
    ensures { result ≡ spec.handle_of sent.now }
{
    (sent.target % 0x1_0000_0000) as u32
}

// The thread is in a frame, and doesn't serve it.
fn is_unserved(seat: u32, innermost: Option<Frame>) -> bool
    ensures { result ≡ (is_some innermost && is_none (option_and_then (λ f. if frames.serves seat f.server then Some f else None) innermost)) }
{
    match innermost {
        Some(f) => !serves(seat, f.server),
        None => false,
    }
}

// What is left for the writer of a refused transaction.
fn refusal(cause: Cause) -> Return
    ensures { result ≡ spec.refusal cause }
{
    match cause {
        Cause::NoManager | Cause::DeadOwner => Return::DeadReply,
        _ => Return::FailedReply,
    }
}

impl Tables {
    // The context manager's own process may not call its object 0.
    fn not_own(&self, p: u64, o: Identity) -> Result<Identity, Cause>
        ensures { Tells self.now result (λ s. spec.not_own s p o) }
    {
        if self.objects.owns(p, o) {
            Err(Cause::OwnManager)
        } else {
            Ok(o)
        }
    }

    // The object that a handle calls.
    #[tactic(auto, unfolding(bd_space::specs::Transactions::target_of))]
    fn target_of(&self, p: u64, handle: u32) -> Result<Identity, Cause>
        ensures { Tells self.now result (λ s. spec.target_of s p handle) }
    {
        if handle == 0 {
            match self.manager {
                None => Err(Cause::NoManager),
                Some(o) => self.not_own(p, o),
            }
        } else {
            match self.objects.strongly_named(p, handle) {
                None => Err(Cause::NotStronglyNamed),
                Some(o) => Ok(o),
            }
        }
    }

    // The live process that owns an object.
    #[tactic(auto, unfolding(bd_space::specs::Transactions::owner_of))]
    fn owner_of(&self, o: Identity) -> Option<Process>
        ensures owner { Tells self.now result (λ s. spec.owner_of s o) }
        ensures lives { (n : ℕ) (s : Space) → StandsAt n self.now s
            → IfSome result (λ q. process_in s.processes q.made ≡ Some q) }
    {
        let x = self.objects.object(o)?;
        self.process(x.owner)
    }

    // Whom a transaction goes to.
    #[tactic(auto, unfolding(bd_space::specs::Transactions::callee_of))]
    fn callee_of(&self, p: u64, handle: u32) -> Result<Callee, Cause>
        ensures callee { Tells self.now result (λ s. spec.callee_of s p handle) }
        ensures lives { (n : ℕ) (s : Space) → StandsAt n self.now s
            → IfOk result (λ c. process_in s.processes c.process.made ≡ Some c.process) }
    {
        match self.target_of(p, handle) {
            Err(cause) => Err(cause),
            Ok(object) => match self.owner_of(object) {
                None => Err(Cause::DeadOwner),
                Some(process) => Ok(Callee { object, process }),
            },
        }
    }

    // Why the thread may not call and wait.
    #[tactic(auto, unfolding(bd_space::specs::Transactions::caller_cause, bd_space::specs::Frames::innermost, bd_space::specs::Frames::served_innermost))]
    fn caller_cause(&self, seat: u32) -> Option<Cause>
        ensures { TellsOfStacked self.now result (λ s. spec.caller_cause s seat) }
    {
        if is_unserved(seat, self.calls.innermost(seat)) {
            return Some(Cause::NotServing);
        }
        if self.calls.has_unread(seat) {
            return Some(Cause::Unread);
        }
        None
    }

    // Why the thread may not call: a one-way call waits for nothing.
    fn call_cause(&self, seat: u32, one_way: bool) -> Option<Cause>
        ensures { TellsOfStacked self.now result (λ s. if one_way then None else spec.caller_cause s seat) }
    {
        if one_way {
            None
        } else {
            self.caller_cause(seat)
        }
    }

    // What is to be delivered, or the first cause against it.
    fn transaction_check<'a>(
        &self,
        actor: Actor,
        sent: &TransactionData,
        parcel: &'a Option<Parcel>,
    ) -> Result<Result<Delivery<'a>, Cause>, AllocError>
        ensures computed { IfOk result
            (λ r. TellsBeforeOfStacked self.now r (λ s. spec.transaction_check s actor sent.now parcel.now)) }
        ensures deliverable { IfOk result (λ r. IfOk r (IsDeliverable self.now sent.now)) }
    {
        let callee = match self.callee_of(actor.process.made, handle_of(sent)) {
            Err(cause) => return Ok(Err(cause)),
            Ok(callee) => callee,
        };
        let one_way = is_one_way(sent);
        match self.call_cause(actor.thread.seat, one_way) {
            Some(cause) => Ok(Err(cause)),
            None => self.sent_to(
                actor,
                sent,
                parcel,
                callee.process,
                Some(callee.object),
                one_way,
            ),
        }
    }

    // A two-way call is due at once, a one-way call once it is ripe; its writer reads that it was taken, and whether it
    // floods.
    fn called(&mut self, seat: u32, receiver: u64, one_way: bool, spam: bool)
        requires frames { 1 ≤ frame_room self.old.calls }
        requires works { 2 ≤ work_room self.old.calls }
        ensures stands { MakesOfStacked self.old self.new
            (λ s. spec.called (todo.owe s (OfThread seat) (kinds.Complete spam)) seat receiver one_way) }
        ensures spends { Spends self.old self.new 1 0 2 }
        ensures told { KeepsTold self.old self.new }
    {
        self.owe(seat, WorkKind::Complete { spam });
        if !one_way {
            self.call_out(seat, receiver);
        }
    }

    // All that changes.
    fn transacted(
        &mut self,
        actor: Actor,
        sent: &TransactionData,
        delivery: Delivery<'_>,
    ) -> Result<(), StepError>
        requires deliverable { IsDeliverable self.old sent.now delivery }
        requires ready { IsReady self.old sent.now delivery }
        ensures ok { OnOk result (DeliversCall self.old self.new delivery.entry (λ s. spec.transacted s actor sent.now delivery.entry)) }
        ensures err { OnErr result (IsKept self.old self.new) }
        ensures full { OnErr result (PassesLimit self.old (λ s. names_go (spec.transacted s actor sent.now delivery.entry))) }
        ensures follow { OnOk result (CanFollow self.new (length delivery.entry.sending.items + 1)) }
        // There is room by then, so that nothing else is a reason.
        ensures limit { IfErr result (λ why. why ≡ StepError.HistoryFull) }
        ensures told { KeepsTold self.old self.new }
    {
        let receiver = delivery.receiver();
        let one_way = delivery.is_one_way();
        match self.delivered(actor, sent, delivery) {
            Err(NumbersFull) => Err(StepError::HistoryFull),
            Ok(()) => {
                let spam = self.is_spam(actor, receiver, one_way);
                self.called(actor.thread.seat, receiver, one_way, spam);
                Ok(())
            }
        }
    }

    // The step of a transaction that nothing stands against. All that may follow is that a one-way call ripens on its target,
    // and what follows at the objects of its parcel.
    fn transact(
        &mut self,
        actor: Actor,
        sent: &TransactionData,
        delivery: Delivery<'_>,
    ) -> Result<Plain, StepError>
        requires { IsDeliverable self.old sent.now delivery }
        ensures step { IsStep self.old self.new (IsSending actor sent.now delivery.entry)
            (λ s. outcomes.accepted (spec.transacted s actor sent.now delivery.entry)) result }
        ensures told { KeepsTold self.old self.new }
    {
        let target = delivery.one_way_target();
        let Ok(touched) = self.reserve_delivery(sent, &delivery) else {
            return Err(StepError::NoMemory);
        };
        match self.transacted(actor, sent, delivery) {
            Err(why) => Err(why),
            Ok(()) => {
                self.ripen_next(target);
                self.follow_objects(touched.as_slice());
                Ok(Plain::Accepted)
            }
        }
    }

    /// The step of BC_TRANSACTION.
    pub(crate) fn transaction(
        &mut self,
        actor: Actor,
        sent: &TransactionData,
        parcel: &Option<Parcel>,
    ) -> Result<Plain, StepError>
        ensures step { IsStep self.old self.new (IsBy actor) (λ s. spec.transaction_step s actor sent.now parcel.now) result }
        ensures told { KeepsTold self.old self.new }
    {
        match self.transaction_check(actor, sent, parcel) {
            Err(_) => Err(StepError::NoMemory),
            Ok(Err(cause)) => self.stop(actor.thread.seat, cause, refusal(cause)),
            Ok(Ok(v)) => self.transact(actor, sent, v),
        }
    }
}
