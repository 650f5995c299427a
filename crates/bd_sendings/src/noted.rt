//! The objects of a parcel that was taken.

ghost use Rattle.std.specs.Prelude.{◌≡◌, ◌≤◌, vec_capacity};
ghost use Rattle.bd_parcel.specs.Parcels.{offsets_in};
ghost use Rattle.bd_sendings.specs.Sendings.{sent_at, sent_among, noted};

use crate::known::{EACH, send_strong, send_weak};
use crate::sent::{Sending, Sent};
use bd_uapi::codes::{BINDER, WEAK_BINDER};
use bd_uapi::numbers::{u32_at, u64_at};

// The object at an offset is sent.
fn send_at(known: &mut Vec<Sent>, sending: &Sending, body: &[u8], offset: u64)
    requires room { 512 ≤ vec_capacity known.old }
    ensures sent { known.new.items ≡ sent_at sending.now body.now offset known.old.items }
    ensures capacity { vec_capacity known.new ≡ vec_capacity known.old }
{
    let at = offset as usize;
    if body.len() < 24 || body.len() - 24 < at {
        return;
    }
    let kind = u32_at(body, at);
    let ptr = u64_at(body, at + 8);
    if kind == BINDER {
        send_strong(known, sending, ptr);
    } else if kind == WEAK_BINDER {
        send_weak(known, sending.sender, ptr);
    }
}

// All objects at these offsets are, in their order.
fn send_all(known: &mut Vec<Sent>, sending: &Sending, body: &[u8], offsets: &[u8])
    requires room { 512 ≤ vec_capacity known.old }
    ensures sent { known.new.items ≡ sent_among sending.now body.now (offsets_in offsets.now) known.old.items }
    ensures capacity { vec_capacity known.new ≡ vec_capacity known.old }
{
    for index in 0..offsets.len() / 8 {
        let offset = u64_at(offsets, 8 * index);
        send_at(known, sending, body, offset);
    }
}

/// A parcel was taken, with these objects.
pub(crate) fn note(known: &mut Vec<Sent>, sending: &Sending, body: &[u8], offsets: &[u8])
    requires room { 512 ≤ vec_capacity known.old }
    ensures noted { known.new.items ≡ noted sending.now body.now offsets.now known.old.items }
    ensures capacity { vec_capacity known.new ≡ vec_capacity known.old }
{
    if offsets.len() / 8 <= EACH {
        send_all(known, sending, body, offsets);
    }
}
