//! The step of BC_REPLY.

ghost use Rattle.std.specs.Prelude.{false, ◌≡◌, ◌≤◌, length, Some, IfOk, IfErr, OnOk, OnErr};
ghost use Rattle.bd_space.specs.{declared.space.TodoList.TheVariants.{OfThread}, Names.{names_go}};
ghost use Rattle.bd_calls.specs.Room.{work_room};
ghost use Rattle.bd_step.specs.Stands.{CanFollow, TellsBefore, Makes, PassesLimit, KeepsTold};
ghost use Rattle.bd_step.specs.Meets.{IsBy, IsServing, IsReplying, IsKept, IsStep};
ghost use Rattle.bd_step.specs.Deliveries.{IsDeliverable, IsReady, Delivers, Spends};
ghost use Rattle.bd_space.specs.declared.space.WorkKind.TheVariants as kinds;
ghost use Rattle.bd_space.specs.Todo as todo;
ghost use Rattle.bd_space.specs.Frames as frames;
ghost use Rattle.bd_space.specs.Outcomes as outcomes;
ghost use Rattle.bd_space.specs.Replies as spec;

use crate::answer::Plain;
use crate::delivery::Delivery;
use crate::step_error::StepError;
use crate::tables::{NOTHING, Tables};
use bd_objects::NumbersFull;
use bd_space::{Actor, Frame, Parcel, WorkKind};
use bd_uapi::{Cause, Return, TransactionData};
use std::alloc::AllocError;

impl Tables {
    // What is to be delivered to the caller of the frame, or the first cause against it.
    fn reply_check<'a>(
        &self,
        actor: Actor,
        sent: &TransactionData,
        parcel: &'a Option<Parcel>,
        f: &Frame,
    ) -> Result<Result<Delivery<'a>, Cause>, AllocError>
        ensures computed { IfOk result
            (λ r. TellsBefore self.now r (λ s. spec.reply_check s actor sent.now parcel.now f.now)) }
        ensures deliverable { IfOk result (λ r. IfOk r (IsDeliverable self.now sent.now)) }
    {
        match self.caller_of(f) {
            None => Ok(Err(Cause::CallerGone)),
            Some(caller) => self.sent_to(actor, sent, parcel, caller.process, None, false),
        }
    }

    // The frame closes, the thread reads that its reply was taken, and the caller has a reply to read.
    fn answered(&mut self, seat: u32, f: Frame)
        requires { 2 ≤ work_room self.old.calls }
        ensures stands { Makes self.old self.new
            (λ s. todo.tell_caller (todo.owe (frames.closed s f.made) (OfThread seat) (kinds.Complete false)) f
            (kinds.Reply s.steps)) }
        ensures spends { Spends self.old self.new 0 0 2 }
        ensures told { KeepsTold self.old self.new }
    {
        self.close(f.made);
        self.owe(seat, WorkKind::Complete { spam: false });
        self.tell_caller(f, WorkKind::Reply(self.steps));
    }

    // All that changes.
    fn replied(
        &mut self,
        actor: Actor,
        sent: &TransactionData,
        f: Frame,
        delivery: Delivery<'_>,
    ) -> Result<(), StepError>
        requires deliverable { IsDeliverable self.old sent.now delivery }
        requires ready { IsReady self.old sent.now delivery }
        ensures ok { OnOk result (Delivers self.old self.new delivery.entry (λ s. spec.replied s actor sent.now f delivery.entry)) }
        ensures err { OnErr result (IsKept self.old self.new) }
        ensures full { OnErr result (PassesLimit self.old (λ s. names_go (spec.replied s actor sent.now f delivery.entry))) }
        ensures follow { OnOk result (CanFollow self.new (length delivery.entry.sending.items)) }
        // There is room by then, so that nothing else is a reason.
        ensures limit { IfErr result (λ why. why ≡ StepError.HistoryFull) }
        ensures told { KeepsTold self.old self.new }
    {
        match self.delivered(actor, sent, delivery) {
            Err(NumbersFull) => Err(StepError::HistoryFull),
            Ok(()) => {
                self.answered(actor.thread.seat, f);
                Ok(())
            }
        }
    }

    // The step of a reply that nothing stands against. All that may follow is what follows at the objects of its parcel, and
    // that calls close, from the one in which the answered call was made upwards.
    pub(crate) fn answer(
        &mut self,
        actor: Actor,
        sent: &TransactionData,
        f: Frame,
        delivery: Delivery<'_>,
    ) -> Result<Plain, StepError>
        requires { IsDeliverable self.old sent.now delivery }
        ensures step { IsStep self.old self.new (IsReplying actor sent.now f delivery.entry)
            (λ s. outcomes.accepted (spec.replied s actor sent.now f delivery.entry)) result }
        ensures told { KeepsTold self.old self.new }
    {
        let parent = f.parent;
        let Ok(touched) = self.reserve_delivery(sent, &delivery) else {
            return Err(StepError::NoMemory);
        };
        match self.replied(actor, sent, f, delivery) {
            Err(why) => Err(why),
            Ok(()) => {
                self.follow_objects(touched.as_slice());
                self.close_up(parent);
                Ok(Plain::Accepted)
            }
        }
    }

    // A refused reply closes the frame too, and a caller that lives is told.
    fn refuse_reply(&mut self, seat: u32, f: Frame)
        requires { 2 ≤ work_room self.old.calls }
        ensures stands { Makes self.old self.new (λ s. spec.reply_refused s seat f) }
        ensures spends { Spends self.old self.new 0 0 2 }
        ensures told { KeepsTold self.old self.new }
    {
        self.owe(seat, WorkKind::Refusal(Return::TransactionComplete));
        self.close(f.made);
        self.tell_caller(f, WorkKind::Verdict(Return::FailedReply));
    }

    // The step of a reply that this cause stands against.
    fn stop_reply(&mut self, seat: u32, cause: Cause, f: Frame) -> Result<Plain, StepError>
        ensures step { IsStep self.old self.new (IsServing seat f)
            (λ s. outcomes.stopped cause (spec.reply_refused s seat f)) result }
        ensures memory { IfErr result (λ why. why ≡ StepError.NoMemory) }
        ensures told { KeepsTold self.old self.new }
    {
        if self.reserve(NOTHING, 2).is_err() {
            return Err(StepError::NoMemory);
        }
        self.refuse_reply(seat, f);
        self.close_up(f.parent);
        Ok(Plain::Stopped(cause))
    }

    // The step of a reply to this frame.
    fn reply_to(
        &mut self,
        actor: Actor,
        sent: &TransactionData,
        parcel: &Option<Parcel>,
        f: Frame,
    ) -> Result<Plain, StepError>
        ensures step { IsStep self.old self.new (IsServing actor.thread.seat f)
            (λ s. spec.reply_to s actor sent.now parcel.now (Some f)) result }
        ensures told { KeepsTold self.old self.new }
    {
        match self.reply_check(actor, sent, parcel, &f) {
            Err(_) => Err(StepError::NoMemory),
            Ok(Err(cause)) => self.stop_reply(actor.thread.seat, cause, f),
            Ok(Ok(v)) => self.answer(actor, sent, f, v),
        }
    }

    /// The step of BC_REPLY.
    pub(crate) fn reply(
        &mut self,
        actor: Actor,
        sent: &TransactionData,
        parcel: &Option<Parcel>,
    ) -> Result<Plain, StepError>
        ensures step { IsStep self.old self.new (IsBy actor) (λ s. spec.reply_step s actor sent.now parcel.now) result }
        ensures told { KeepsTold self.old self.new }
    {
        match self.calls.served_innermost(actor.thread.seat) {
            None => self.stop(actor.thread.seat, Cause::NoCall, Return::FailedReply),
            Some(f) => self.reply_to(actor, sent, parcel, f),
        }
    }
}
