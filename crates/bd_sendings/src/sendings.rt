//! What is known of what the threads of a process have sent.

ghost use Rattle.std.specs.Prelude.{◌≡◌, ◌≤◌, [], length, IfOk, vec_capacity};
ghost use Rattle.bd_sendings.specs.Sendings.{noted, ended, told_of as it_is_told_of, is_before as it_is_before, sender_for as the_sender_for};

use crate::known::{MOST, end, is_before, is_for, told_of};
use crate::noted::note;
use crate::sent::{Sending, Sent};
use std::alloc::{AllocError, Global};

/// The objects that a process's threads have sent without having read yet that they were taken, as far as there is room. The first sent first.
#[derive(Drop)]
pub struct Sendings {
    pub(crate) known: Vec<Sent>,
    // All that is asked for is asked for at once.
    ghost room: { 512 ≤ vec_capacity known },
}

impl Sendings {
    /// Nothing is known. Errors: memory was refused.
    pub fn new(alloc: Global) -> Result<Sendings, AllocError>
        ensures { IfOk result (λ t. t.known.items ≡ []) }
    {
        Ok(Sendings {
            known: Vec::with_capacity(alloc, MOST)?,
        })
    }

    /// A parcel was taken: its objects are sent, in their order.
    pub fn note(&mut self, sending: &Sending, body: &[u8], offsets: &[u8])
        ensures { self.new.known.items ≡ noted sending.now body.now offsets.now self.old.known.items }
    {
        note(&mut self.known, sending, body, offsets);
    }

    /// The thread has read that all was taken that it has sent.
    pub fn end(&mut self, thread: u32)
        ensures { self.new.known.items ≡ ended thread self.old.known.items }
    {
        end(&mut self.known, thread);
    }

    /// How many objects are known.
    pub fn count(&self) -> usize
        ensures { result ≡ length self.now.known.items }
    {
        self.known.len()
    }

    /// Who is told what the engine would tell a thread of an object.
    pub fn told_of(&self, thread: u32, ptr: u64) -> u32
        ensures { result ≡ it_is_told_of thread ptr self.now.known.items }
    {
        told_of(&self.known, thread, ptr)
    }

    /// Who has sent the object at that place, if another thread than this has, and this one is told of it.
    pub fn sender_for(&self, thread: u32, index: usize) -> Option<u32>
        ensures { result ≡ the_sender_for thread index self.now.known.items }
    {
        if index >= self.known.len() {
            return None;
        }
        let sent = self.known[index];
        if is_for(&self.known, thread, &sent) {
            Some(sent.sender)
        } else {
            None
        }
    }

    /// Whether what a thread is told of one object goes before what it is told of another.
    pub fn is_before(&self, thread: u32, one: u64, other: u64) -> bool
        ensures { result ≡ it_is_before thread one other self.now.known.items }
    {
        is_before(&self.known, thread, one, other)
    }
}
