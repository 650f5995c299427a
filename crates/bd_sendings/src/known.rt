//! What is known of a process: whom it is told, and in which order.

ghost use Rattle.std.specs.Prelude.{◌≡◌, ◌==◌, ◌&&◌, ◌||◌, not, find, filter, count_by, vec_capacity, ◌≤◌};
ghost use Rattle.std.specs.List.{list_any};
ghost use Rattle.bd_sendings.specs.Sendings.{is_of, is_elsewhere, has_room as it_has_room, added, ended, told_of as it_is_told_of, is_for as it_is_for, place_of as its_place, is_before as it_is_before, is_told, stays as it_stays, is_anothers as it_is_anothers, sent_anew, sent_strong, sent_weak, goes};

use crate::sent::{Sending, Sent};

// So many objects are known of a process, ..
pub(crate) const MOST: usize = 512;

// .. and of a thread: a parcel that has more is told of by the rules.
pub(crate) const EACH: usize = 32;

fn count_of(known: &[Sent], thread: u32) -> usize
    ensures { result ≡ count_by (λ e. e.sender == thread) known.now }
{
    known.iter().filter(|e| e.sender == thread).count()
}

fn has_room(known: &[Sent], thread: u32) -> bool
    ensures { result ≡ it_has_room thread known.now }
{
    known.len() < MOST && count_of(known, thread) < EACH
}

// It comes behind all others, if there is room.
fn add(known: &mut Vec<Sent>, sent: Sent)
    requires room { 512 ≤ vec_capacity known.old }
    ensures added { known.new.items ≡ added sent known.old.items }
    ensures capacity { vec_capacity known.new ≡ vec_capacity known.old }
{
    if has_room(known, sent.sender) {
        known.push_reserved(sent);
    }
}

fn stays(known: &[Sent], sending: &Sending, ptr: u64) -> bool
    ensures { result ≡ it_stays sending.now ptr known.now }
{
    known.iter().any(|e| e.is_of(sending.sender, ptr) && (!e.is_others && e.is_held(sending)))
}

fn is_anothers(known: &[Sent], sending: &Sending, ptr: u64) -> bool
    ensures { result ≡ it_is_anothers sending.now ptr known.now }
{
    known.iter().any(|e| e.is_elsewhere(sending.sender, ptr) && e.is_held(sending))
}

fn is_known(known: &[Sent], thread: u32, ptr: u64) -> bool
    ensures { result ≡ list_any (λ e. is_of thread ptr e || is_elsewhere thread ptr e) known.now }
{
    known
        .iter()
        .any(|e| e.is_of(thread, ptr) || e.is_elsewhere(thread, ptr))
}

// Forgets what is sent anew.
fn forget(known: &mut Vec<Sent>, thread: u32, ptr: u64, is_others: bool)
    ensures left { known.new.items ≡ filter (λ e. not (goes thread ptr is_others e)) known.old.items }
    ensures capacity { vec_capacity known.new ≡ vec_capacity known.old }
{
    known.retain(|e| !e.goes(thread, ptr, is_others));
}

// It comes anew, behind all others.
fn send_anew(known: &mut Vec<Sent>, sending: &Sending, ptr: u64, is_others: bool)
    requires room { 512 ≤ vec_capacity known.old }
    ensures sent { known.new.items ≡ sent_anew sending.now ptr is_others known.old.items }
    ensures capacity { vec_capacity known.new ≡ vec_capacity known.old }
{
    forget(known, sending.sender, ptr, is_others);
    add(known, Sent::strong(sending, ptr, is_others));
}

/// A strong reference is sent.
#[tactic(auto, unfolding(crate::specs::Sendings::sent_strong))]
pub(crate) fn send_strong(known: &mut Vec<Sent>, sending: &Sending, ptr: u64)
    requires room { 512 ≤ vec_capacity known.old }
    ensures sent { known.new.items ≡ sent_strong sending.now ptr known.old.items }
    ensures capacity { vec_capacity known.new ≡ vec_capacity known.old }
{
    if !stays(known, sending, ptr) {
        let is_others = is_anothers(known, sending, ptr);
        send_anew(known, sending, ptr, is_others);
    }
}

/// A weak one is.
#[tactic(auto, unfolding(crate::specs::Sendings::sent_weak))]
pub(crate) fn send_weak(known: &mut Vec<Sent>, thread: u32, ptr: u64)
    requires room { 512 ≤ vec_capacity known.old }
    ensures sent { known.new.items ≡ sent_weak thread ptr known.old.items }
    ensures capacity { vec_capacity known.new ≡ vec_capacity known.old }
{
    if !is_known(known, thread, ptr) {
        add(known, Sent::weak(thread, ptr));
    }
}

/// Nothing is known of a thread any more.
pub(crate) fn end(known: &mut Vec<Sent>, thread: u32)
    ensures ended { known.new.items ≡ ended thread known.old.items }
    ensures capacity { vec_capacity known.new ≡ vec_capacity known.old }
{
    known.retain(|e| e.sender != thread);
}

fn is_others(known: &[Sent], thread: u32, ptr: u64) -> bool
    ensures { result ≡ list_any (λ e. is_of thread ptr e && e.is_others) known.now }
{
    known.iter().any(|e| e.is_of(thread, ptr) && e.is_others)
}

fn elsewhere(known: &[Sent], thread: u32, ptr: u64) -> Option<Sent>
    ensures { result ≡ find (is_elsewhere thread ptr) known.now }
{
    known.iter().copied().find(|e| e.is_elsewhere(thread, ptr))
}

/// The thread that is told of an object in this one's place, or this one.
pub(crate) fn told_of(known: &[Sent], thread: u32, ptr: u64) -> u32
    ensures { result ≡ it_is_told_of thread ptr known.now }
{
    if !is_others(known, thread, ptr) {
        return thread;
    }
    match elsewhere(known, thread, ptr) {
        Some(sent) => sent.sender,
        None => thread,
    }
}

// Whether the thread is told of an object that it has sent.
fn is_told_itself(known: &[Sent], thread: u32, ptr: u64) -> bool
    ensures { result ≡ list_any (λ f. (f.sender == thread) && is_told ptr f) known.now }
{
    known.iter().any(|f| f.sender == thread && f.is_told(ptr))
}

/// Whether another thread has sent an object of which this one is told.
pub(crate) fn is_for(known: &[Sent], thread: u32, sent: &Sent) -> bool
    ensures { result ≡ it_is_for thread known.now sent.now }
{
    sent.sender != thread && (sent.is_others && is_told_itself(known, thread, sent.ptr))
}

fn place_of(known: &[Sent], thread: u32, ptr: u64) -> Option<usize>
    ensures { result ≡ its_place thread ptr known.now }
{
    known.iter().position(|e| e.is_of(thread, ptr))
}

/// Whether what is told of the one goes before what is told of the other.
pub(crate) fn is_before(known: &[Sent], thread: u32, one: u64, other: u64) -> bool
    ensures { result ≡ it_is_before thread one other known.now }
{
    match (place_of(known, thread, one), place_of(known, thread, other)) {
        (Some(i), Some(j)) => i < j,
        _ => false,
    }
}
