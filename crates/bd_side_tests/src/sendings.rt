//! Who is told, worked out by hand.

use crate::same::{holds, same};
use bd_sendings::{Sending, Sendings};
use bd_uapi::codes::{BINDER, WEAK_BINDER};
use bd_uapi::numbers::{put_u32, put_u64};
use std::test::Fail;

fn sending(sender: u32, step: u64, receiver: u32) -> Sending {
    Sending {
        sender,
        step,
        receiver,
        let_go: 0,
    }
}

fn object(kind: u32, ptr: u64) -> [u8; 24] {
    let mut bytes = [0; 24];
    put_u32(&mut bytes, 0, kind);
    put_u64(&mut bytes, 8, ptr);
    bytes
}

#[test]
fn the_first_is_told(rt: HostRuntime) -> Result<(), Fail> {
    let mut all = Sendings::new(rt.alloc()).ok().ok_or("memory")?;
    let strong = object(BINDER, 5);
    all.note(&sending(1, 1, 9), &strong, &[0; 8]);
    all.note(&sending(2, 2, 9), &strong, &[0; 8]);
    same(&rt, "of the second's", all.told_of(2, 5), 1);
    same(&rt, "of the first's", all.told_of(1, 5), 1);
    same(&rt, "the other sender", all.sender_for(1, 1), Some(2));
    same(&rt, "itself", all.sender_for(1, 0), None);
    same(&rt, "nobody else", all.sender_for(1, 2), None);
    // It is sent to another: who sends it there is told.
    all.note(&sending(3, 3, 8), &strong, &[0; 8]);
    same(&rt, "who sent it there", all.told_of(2, 5), 3);
    same(&rt, "the first is told still", all.told_of(1, 5), 1);
    all.end(3);
    same(&rt, "once that has ended", all.told_of(2, 5), 2);
    same(&rt, "how many are known", all.count(), 1);
    Ok(())
}

#[test]
fn what_was_let_go_is_told_again(rt: HostRuntime) -> Result<(), Fail> {
    let mut all = Sendings::new(rt.alloc()).ok().ok_or("memory")?;
    let strong = object(BINDER, 5);
    all.note(&sending(1, 1, 9), &strong, &[0; 8]);
    let later = Sending {
        let_go: 1,
        ..sending(2, 2, 9)
    };
    all.note(&later, &strong, &[0; 8]);
    same(&rt, "it was let go", all.told_of(2, 5), 2);
    same(&rt, "how many are known", all.count(), 1);
    all.note(&sending(3, 3, 0), &strong, &[0; 8]);
    same(&rt, "the receiver isn't known", all.told_of(3, 5), 3);
    Ok(())
}

#[test]
fn strong_comes_behind_what_was_between(rt: HostRuntime) -> Result<(), Fail> {
    let mut all = Sendings::new(rt.alloc()).ok().ok_or("memory")?;
    all.note(&sending(1, 1, 9), &object(WEAK_BINDER, 7), &[0; 8]);
    all.note(&sending(1, 1, 9), &object(BINDER, 8), &[0; 8]);
    holds(&rt, "7 was first", all.is_before(1, 7, 8));
    all.note(&sending(1, 1, 9), &object(BINDER, 7), &[0; 8]);
    holds(&rt, "8 is first", all.is_before(1, 8, 7));
    holds(&rt, "7 isn't", !all.is_before(1, 7, 8));
    holds(&rt, "9 isn't known", !all.is_before(1, 7, 9));
    Ok(())
}
