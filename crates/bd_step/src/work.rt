//! What a work item gives to be read: its returns, and their bytes.

ghost use Rattle.std.specs.Prelude.{pos, true, ◌≡◌, ◌+◌, ◌≤◌, ◌++◌, if◌then◌else◌, find, map, length, option_and_then};
ghost use Rattle.std.specs.{Prelude.{option_map, unwrap_or, IfSome, OnOk}, List.{flat_map, concat}};
ghost use Rattle.bd_codec.specs.Spelling.{return_bytes};
ghost use Rattle.bd_space.specs.{Words.{option_to_list, round_up as rounded}, References.{object_in}, Frames.{is_frame}};
ghost use Rattle.bd_space.specs.{Freeing.{pointer}, Steps.{is_pid}};
ghost use Rattle.bd_buffers.specs.WindowsStand.{IsInWindow};
ghost use Rattle.bd_step.specs.Stands.{TellsBefore};
ghost use Rattle.bd_uapi.specs.declared.command.Return.TheVariants as br;
ghost use Rattle.bd_space.specs.Seats as seats;
ghost use Rattle.bd_space.specs.Returns as spec;
ghost use Rattle.bd_space.specs.declared.space.WorkKind.TheVariants as kinds;

use crate::tables::Tables;
use bd_buffers::{Lent, pointer_of};
use bd_codec::write_return;
use bd_space::{Actor, Object, WorkKind};
use bd_uapi::{Return, TransactionData};
use std::alloc::AllocError;

// What is read of a transaction or reply that was accepted.
fn completion(spam: bool) -> Return
    ensures { result ≡ (if spam then br.OnewaySpamSuspect else br.TransactionComplete) }
{
    if spam {
        Return::OnewaySpamSuspect
    } else {
        Return::TransactionComplete
    }
}

// Appends the spelling of a return, if there is one.
fn append_one(r: &Option<Return>, out: &mut Vec<u8>) -> Result<(), AllocError>
    ensures { OnOk result (out.new.items ≡ out.old.items ++ concat (map return_bytes (option_to_list r.now))) }
{
    match r {
        Some(r) => match write_return(r, out) {
            Ok(()) => Ok(()),
            Err(_) => Err(AllocError),
        },
        None => Ok(()),
    }
}

// One after the other, those that are there.
fn append_returns(rs: &[Option<Return>], out: &mut Vec<u8>) -> Result<(), AllocError>
    ensures { OnOk result (out.new.items ≡ out.old.items ++ concat (map return_bytes (flat_map option_to_list rs.now))) }
{
    for r in rs {
        append_one(r, out)?;
    }
    Ok(())
}

// A pid as it is read.
fn signed(pid: u32) -> i32
    requires { pid ≤ 2147483647 }
    ensures { result ≡ pos pid }
{
    pid as i32
}

// Where its offsets begin.
fn offsets_start(b: &Lent<'_>) -> u64
    requires { IsInWindow b.now }
    ensures { result ≡ pointer b.now + rounded (length b.now.bytes) }
{
    pointer_of(b) + 8 * ((b.bytes().len() as u64 + 7) / 8)
}

impl Tables {
    // That thread, with its process.
    fn waiting_actor(&self, made: u64) -> Option<Actor>
        ensures found { TellsBefore self.now result
            (λ s. option_and_then (seats.actor s) (option_and_then (λ f. f.caller) (find (is_frame made) s.frames))) }
        ensures pid { IfSome result (λ a. is_pid a.process.pid ≡ true) }
    {
        match self.waiting_seat(made) {
            Some(seat) => self.actor(seat),
            None => None,
        }
    }

    // Its pid, else 0.
    #[tactic(auto, unfolding(bd_space::specs::Returns::sender_pid))]
    fn sender_pid(&self, made: u64) -> u32
        ensures found { TellsBefore self.now result (λ s. spec.sender_pid s made) }
        ensures fits { result ≤ 2147483647 }
    {
        match self.waiting_actor(made) {
            Some(a) => a.process.pid,
            None => 0,
        }
    }

    // None where it is a reply, or where its object is gone.
    fn called_object(&self, b: &Lent<'_>) -> Option<Object>
        ensures { TellsBefore self.now result (λ s. option_and_then (object_in s.objects) b.now.target) }
    {
        match b.target() {
            Some(o) => self.objects.object(o),
            None => None,
        }
    }

    // The ptr and the cookie of that object, else 0.
    fn called_words(&self, b: &Lent<'_>) -> (u64, u64)
        ensures target { TellsBefore self.now result.0
            (λ s. unwrap_or (option_map (λ o. o.ptr) (option_and_then (object_in s.objects) b.now.target)) 0) }
        ensures cookie { TellsBefore self.now result.1
            (λ s. unwrap_or (option_map (λ o. o.cookie) (option_and_then (object_in s.objects) b.now.target)) 0) }
    {
        match self.called_object(b) {
            Some(o) => (o.ptr, o.cookie),
            None => (0, 0),
        }
    }

    // What the receiver of a buffer reads of it.
    #[tactic(auto, unfolding(bd_space::specs::Returns::data_of))]
    fn data_of(&self, b: &Lent<'_>) -> TransactionData
        requires { IsInWindow b.now }
        ensures { TellsBefore self.now result (λ s. spec.data_of s b.now) }
    {
        let (target, cookie) = self.called_words(b);
        TransactionData {
            target,
            cookie,
            code: b.code(),
            flags: b.flags(),
            sender_pid: signed(self.sender_pid(b.made())),
            sender_euid: b.euid(),
            data_size: b.bytes().len() as u64,
            offsets_size: b.offsets().len() as u64,
            buffer: pointer_of(b),
            offsets: offsets_start(b),
        }
    }

    // The record of the buffer made there, if it lives.
    #[inline(always)]
    fn record_at(&self, made: u64) -> Option<TransactionData>
        ensures { TellsBefore self.now result (λ s. option_map (spec.data_of s) (spec.buffer_in s.buffers made)) }
    {
        match self.windows.buffer(made) {
            Some(b) => Some(self.data_of(&b)),
            None => None,
        }
    }

    // Appends what is read of the buffer made there, if it lives: as a reply, or as a transaction. On its own: else room for its
    // record is cleared for each work item.
    #[inline(never)]
    #[tactic(auto, unfolding(bd_space::specs::Returns::returns_of))]
    fn append_record(&self, made: u64, is_reply: bool, out: &mut Vec<u8>) -> Result<(), AllocError>
        ensures { OnOk result
            (TellsBefore self.now out.new.items
            (λ s. out.old.items ++ concat (map return_bytes (spec.returns_of s (if is_reply then kinds.Reply made else kinds.Call made))))) }
    {
        let record = self.record_at(made);
        if is_reply {
            append_one(&record.map(Return::Reply), out)
        } else {
            append_one(&record.map(Return::Transaction), out)
        }
    }

    // Appends what is read of a death notification, if it is there. On its own, as `append_record`.
    #[inline(never)]
    #[tactic(auto, unfolding(bd_space::specs::Returns::returns_of))]
    fn append_death(&self, made: u64, out: &mut Vec<u8>) -> Result<(), AllocError>
        ensures { OnOk result
            (TellsBefore self.now out.new.items
            (λ s. out.old.items ++ concat (map return_bytes (spec.returns_of s (kinds.Death made))))) }
    {
        let death = self.objects.death(made);
        append_one(&death.map(|x| Return::DeadBinder(x.cookie)), out)
    }

    /// Appends the bytes of the returns that a work item gives: up to four for a notice, else one at most.
    #[tactic(auto, unfolding(bd_space::specs::Returns::returns_of))]
    pub(crate) fn append_work(&self, kind: WorkKind, out: &mut Vec<u8>) -> Result<(), AllocError>
        ensures { OnOk result
            (TellsBefore self.now out.new.items
            (λ s. out.old.items ++ concat (map return_bytes (spec.returns_of s kind)))) }
    {
        match kind {
            WorkKind::Notice(o) => append_returns(&self.objects.notice_returns(o), out),
            WorkKind::Complete { spam } => append_one(&Some(completion(spam)), out),
            WorkKind::Refusal(r) => append_one(&Some(r), out),
            WorkKind::Verdict(r) => append_one(&Some(r), out),
            WorkKind::Call(b) => self.append_record(b, false, out),
            WorkKind::Reply(b) => self.append_record(b, true, out),
            WorkKind::Death(n) => self.append_death(n, out),
            WorkKind::Cleared(cookie) => append_one(
                &Some(Return::ClearDeathNotificationDone(cookie)),
                out,
            ),
        }
    }
}
